//! Which text is a file of traces, and when it may be run for a stack.
#![tactic(auto)]
