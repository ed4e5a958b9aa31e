//! Symbolic lists of small traces, by evaluation: the functions here are empty.
#![tactic(auto)]

ghost use Rattle.symbol_mean.specs.Samples.{BindsWriteOut, ChecksStay, LateDiffers, NotesAreValues, NumbersDiffer};
ghost use Rattle.symbol_mean.specs.Samples.{TakenBefore, WritesCount};

/// A bind that is written out in its place makes no difference.
pub fn binds_write_out()
    ensures { BindsWriteOut }
{}

/// One that is made after a set of its cell does.
pub fn late_differs()
    ensures { LateDiffers }
{}

/// So does another number.
pub fn numbers_differ()
    ensures { NumbersDiffer }
{}

/// And a check that is moved after a set of what it reads.
pub fn checks_stay()
    ensures { ChecksStay }
{}

/// A cell is told by how often it was written.
pub fn writes_count()
    ensures { WritesCount }
{}

/// It doesn't matter how often a message is noted.
pub fn notes_are_values()
    ensures { NotesAreValues }
{}

/// Before it is taken a row is none.
pub fn taken_before()
    ensures { TakenBefore }
{}
