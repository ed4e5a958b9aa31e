//! What a run of a stack means: members and their views, the world, common steps and wires, and the report, as
//! definitions.
#![tactic(auto)]
