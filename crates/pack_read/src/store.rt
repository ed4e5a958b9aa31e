//! What operations are made of.

use trace_core::{Arena, Links};

/// The numbers and messages of a trace as nodes, and its known headers as links.
#[derive(Drop)]
pub struct Store {
    pub nodes: Arena,
    pub links: Links,
}
