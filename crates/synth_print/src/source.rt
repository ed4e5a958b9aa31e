//! The operations that are told, with what they name.

ghost use Rattle.std.specs.Prelude.{◌≡◌, ◌<◌, length, Some};
ghost use Rattle.std.specs.List.{slice_get};
ghost use Rattle.synth_print.specs.Source.{nodes_in};
ghost use Rattle.trace_core.specs.Arena.{IsBelow};
ghost use Rattle.trace_core.specs.View.{term_of, terms};

use stack_judge::Stack;
use trace_core::{Arena, Links, Node, Operation, Shared};

/// The nodes of a trace, or those of a guarded handler.
#[derive(Clone, Copy)]
pub(crate) enum Nodes<'a> {
    OfTrace(&'a Arena),
    OfHandler(&'a Shared),
}

impl Nodes<'_> {
    /// How many there are.
    pub(crate) fn count(&self) -> u32
        ensures { result ≡ length (nodes_in self.now) }
    {
        match self {
            Nodes::OfTrace(nodes) => nodes.count(),
            Nodes::OfHandler(nodes) => nodes.count(),
        }
    }

    /// That of a number.
    pub(crate) fn node(&self, number: u32) -> Node
        requires { number < length (nodes_in self.now) }
        ensures before { IsBelow number result }
        ensures stands { slice_get (terms (nodes_in self.now)) number ≡
            Some (term_of (terms (nodes_in self.now)) result) }
    {
        match self {
            Nodes::OfTrace(nodes) => nodes.node(number),
            Nodes::OfHandler(nodes) => nodes.node(number),
        }
    }
}

/// Operations, the nodes and links that they name, and whether their notes have lines of their own.
#[derive(Clone, Copy)]
pub(crate) struct Source<'a> {
    pub nodes: Nodes<'a>,
    pub links: &'a Links,
    pub operations: &'a [Operation],
    pub noting: bool,
}

/// Operations, and the stack to which they belong.
#[derive(Clone, Copy)]
pub(crate) struct Stacked<'a> {
    pub stack: &'a Stack,
    pub source: &'a Source<'a>,
}
