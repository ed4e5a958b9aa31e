//! The laws on a small stack, worked out by evaluation. Nothing runs here.
ghost use Rattle.member_laws.specs.Samples.{KeepingStep};

/// A step of which the predicted way reads a part.
pub fn keeping_step()
    ensures { KeepingStep }
{}
