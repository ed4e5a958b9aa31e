//! Nodes: what each line of a journal is where the outside fails.

mod bearing;
mod failures;
mod served;
