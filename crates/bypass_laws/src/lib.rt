//! When bypasses are a stack's, and that those which are made of the definition's traces are: the contracts of
//! functions that do nothing.
#![tactic(auto)]

ghost use Rattle.bypass_laws.specs.Making.{HoistingGuards, MadeAreOfStack, SimplestAreOfStack, SimplifyingGuards};

/// What is made of the traces of a stack's entries is the stack's, where the guarded handlers are.
pub fn made_are_of_stack()
    ensures { MadeAreOfStack }
{}

/// Hoisting gives guarded handlers of all traces.
pub fn hoisting_guards()
    ensures { HoistingGuards }
{}

/// What is simplified after a way of guarding is still guarded.
pub fn simplifying_guards()
    ensures { SimplifyingGuards }
{}

/// Traces with their hoisted and simplified handlers are a stack's bypasses.
pub fn simplest_are_of_stack()
    ensures { SimplestAreOfStack }
{}
