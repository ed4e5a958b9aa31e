//! That what was packed of a stack is accepted for it: the contracts of functions that do nothing.
#![tactic(auto)]

ghost use Rattle.pack_round_laws.specs.Packed.{WhatWasPackedIsAccepted, WhatWasPackedIsRead};
ghost use Rattle.pack_round_laws.specs.Told.{StacksAreToldApart};

/// The names of each stack that a file means can be told apart: those of a layer's cells, of its headers, and of the
/// numbers of a queue's rows.
pub fn stacks_are_told_apart()
    ensures { StacksAreToldApart }
{}

/// What was packed of a stack that a file means is read as the stack's own traces.
pub fn what_was_packed_is_read()
    ensures { WhatWasPackedIsRead }
{}

/// So it is accepted for that stack, where it is no longer than such a file may be.
pub fn what_was_packed_is_accepted()
    ensures { WhatWasPackedIsAccepted }
{}
