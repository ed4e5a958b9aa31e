//! An order of nodes in which each stands after those that follow from it, where no node follows from itself.

use crate::edges::{Edge, Node, number_at};
use crate::table::{Edges, Vertex};
use std::alloc::{AllocError, Global};

/// A number to be put into the order: after those that follow from it, or now, since they are in it.
#[derive(Clone, Copy)]
enum Open {
    After(u32),
    Now(u32),
}

/// The numbers of a table that are in an order or on their way there, and those that are still to be put into it.
#[derive(Drop)]
struct Walk {
    met: Vec<bool>,
    open: Vec<Open>,
    order: Vec<u32>,
}

impl Walk {
    /// Opens the targets of an edge.
    fn open_targets(&mut self, edge: Edge) -> Result<(), AllocError> {
        for k in 0..edge.count {
            self.open
                .push(Open::After(edge.first.saturating_add(u32::from(k))))?;
        }
        Ok(())
    }

    /// Opens what follows from a vertex.
    fn open_edges(&mut self, vertex: &Vertex) -> Result<(), AllocError> {
        match &vertex.edges {
            Edges::Nowhere => Ok(()),
            Edges::Passed(edge) => self.open_targets(*edge),
            Edges::Emitted(edges) => {
                for edge in edges.as_slice() {
                    self.open_targets(*edge)?;
                }
                Ok(())
            }
        }
    }

    /// Meets a number, unless it was met or is outside the table: opens what follows from it, to be put before it.
    fn meet(&mut self, vertices: &[Vertex], number: u32) -> Result<(), AllocError> {
        let place = number as usize;
        if place < vertices.len() && place < self.met.len() && !self.met[place] {
            self.met[place] = true;
            self.open.push(Open::Now(number))?;
            self.open_edges(&vertices[place])?;
        }
        Ok(())
    }

    /// Goes on until nothing is open.
    fn go_on(&mut self, vertices: &[Vertex]) -> Result<(), AllocError> {
        for _ in 0..u64::MAX {
            match self.open.pop() {
                None => return Ok(()),
                Some(Open::Now(number)) => self.order.push(number)?,
                Some(Open::After(number)) => self.meet(vertices, number)?,
            }
        }
        Ok(())
    }
}

/// The numbers of some nodes and of what follows from them, in an order. (Nothing is proved of it: it only sets the
/// order in which costs are improved.)
pub fn order_of(
    alloc: Global,
    nodes: &[Node],
    vertices: &[Vertex],
) -> Result<Vec<u32>, AllocError> {
    let mut walk = Walk {
        met: vec![in alloc; false; vertices.len()]?,
        open: Vec::new(alloc),
        order: Vec::with_capacity(alloc, nodes.len())?,
    };
    for node in nodes {
        let number = number_at(u16::from(node.at), node.dir, node.kind, node.tag);
        walk.meet(vertices, number)?;
        walk.go_on(vertices)?;
    }
    Ok(walk.order)
}
