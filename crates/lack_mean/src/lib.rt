//! What a step that was taken and wasn't common lacked, in each case that is made of its entry, as definitions.
#![tactic(auto)]
