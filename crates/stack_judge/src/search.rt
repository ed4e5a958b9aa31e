//! Which nodes are reached from a node, in rounds over a table.

ghost use Rattle.std.specs.Prelude.{◌≡◌, ◌++◌, IfOk, OnOk, fold, length, map, option_map, replicate, false, []};
ghost use Rattle.std.specs.List.{find};
ghost use Rattle.weight_laws.specs.Search as search;
ghost use Rattle.stack_judge.specs.Edges.{edge_tree, node_tree};
ghost use Rattle.stack_judge.specs.Vertices.{vertex_tree};
ghost use Rattle.stack_judge.specs.Searches.{search_tree, meets_itself};

use crate::edges::{Edge, Node, number_at};
use crate::table::{Edges, Vertex};
use std::alloc::{AllocError, Global};

/// Which numbers were seen, and those that were seen last, in order.
#[derive(Drop)]
pub struct Search {
    seen: Vec<bool>,
    last: Vec<usize>,
}

impl Search {
    /// A search of a table that has seen nothing.
    fn of(alloc: Global, vertices: &[Vertex]) -> Result<Search, AllocError>
        ensures { IfOk result
            (λ s. search_tree s ≡
            record { seen = replicate (length (map vertex_tree vertices.now)) false; last = [] }) }
    {
        let seen = vec![in alloc; false; vertices.len()]?;
        Ok(Search {
            seen,
            last: Vec::new(alloc),
        })
    }

    /// Whether a number was seen; one outside the table is never looked for.
    fn has_seen(&self, number: usize) -> bool
        ensures { result ≡ search.is_seen (search_tree self.now) number }
    {
        if number < self.seen.len() {
            self.seen[number]
        } else {
            true
        }
    }

    /// Sees a number that is met.
    fn see(&mut self, number: usize) -> Result<(), AllocError>
        ensures { OnOk result (search_tree self.new ≡ search.see (search_tree self.old) number) }
    {
        if !self.has_seen(number) {
            self.last.push(number)?;
            if number < self.seen.len() {
                self.seen[number] = true;
            }
        }
        Ok(())
    }

    /// Sees the targets of an edge.
    fn see_targets(&mut self, edge: Edge) -> Result<(), AllocError>
        ensures { OnOk result (search_tree self.new ≡ search.see_targets (search_tree self.old) (edge_tree edge)) }
    {
        for k in 0..edge.count {
            self.see(edge.first as usize + usize::from(k))?;
        }
        Ok(())
    }

    /// Sees the targets of edges.
    fn see_edges(&mut self, edges: &[Edge]) -> Result<(), AllocError>
        ensures { OnOk result
            (search_tree self.new ≡ fold search.see_targets (search_tree self.old) (map edge_tree edges.now)) }
    {
        for edge in edges {
            self.see_targets(*edge)?;
        }
        Ok(())
    }

    /// Sees the targets of the edges from a vertex.
    fn see_edges_of(&mut self, vertex: &Vertex) -> Result<(), AllocError>
        ensures { OnOk result
            (search_tree self.new ≡ fold search.see_targets (search_tree self.old) (vertex_tree vertex.now).edges) }
    {
        match &vertex.edges {
            Edges::Nowhere => Ok(()),
            Edges::Passed(edge) => self.see_targets(*edge),
            Edges::Emitted(edges) => self.see_edges(edges),
        }
    }

    /// Sees what follows from a number.
    fn see_vertex(&mut self, vertices: &[Vertex], number: usize) -> Result<(), AllocError>
        ensures { OnOk result
            (search_tree self.new ≡ search.see_vertex (map vertex_tree vertices.now) (search_tree self.old) number) }
    {
        if number < vertices.len() {
            self.see_edges_of(&vertices[number])
        } else {
            Ok(())
        }
    }

    /// Sees what follows from some numbers.
    fn see_after(&mut self, vertices: &[Vertex], numbers: &[usize]) -> Result<(), AllocError>
        ensures { OnOk result
            (search_tree self.new ≡ search.see_after (map vertex_tree vertices.now) (search_tree self.old)
            numbers.now) }
    {
        for number in numbers {
            self.see_vertex(vertices, *number)?;
        }
        Ok(())
    }

    /// The numbers that were seen last; none counts as seen last any longer.
    fn take_last(&mut self, alloc: Global) -> Vec<usize>
        ensures taken { result.items ≡ (search_tree self.old).last }
        ensures kept { search_tree self.new ≡ record { seen = (search_tree self.old).seen; last = [] } }
    {
        std::mem::replace(&mut self.last, Vec::new(alloc))
    }

    /// Sees what follows from the numbers that were seen last.
    fn round(&mut self, alloc: Global, vertices: &[Vertex]) -> Result<(), AllocError>
        ensures { OnOk result
            (search_tree self.new ≡ search.search_round (map vertex_tree vertices.now) (search_tree self.old)) }
    {
        let last = self.take_last(alloc);
        self.see_after(vertices, &last)
    }

    /// Makes `most` rounds; once a round sees nothing, no more are made.
    fn rounds(&mut self, alloc: Global, vertices: &[Vertex], most: usize) -> Result<(), AllocError>
        ensures { OnOk result
            (search_tree self.new ≡ search.search_after (map vertex_tree vertices.now) most (search_tree self.old)) }
    {
        for _done in 0..most {
            if self.last.is_empty() {
                return Ok(());
            }
            self.round(alloc, vertices)?;
        }
        Ok(())
    }
}

/// Whether a search from a node meets the node itself in `most` rounds.
fn is_met(alloc: Global, vertices: &[Vertex], most: usize, node: Node) -> Result<bool, AllocError>
    ensures { IfOk result (λ met. met ≡ meets_itself (map vertex_tree vertices.now) most (node_tree node)) }
{
    let number = number_at(u16::from(node.at), node.dir, node.kind, node.tag) as usize;
    let mut search = Search::of(alloc, vertices)?;
    search.see_vertex(vertices, number)?;
    search.rounds(alloc, vertices, most)?;
    Ok(search.has_seen(number))
}

/// The first of `nodes` that a search from the node itself meets, in `most` rounds.
pub fn first_met(
    alloc: Global,
    vertices: &[Vertex],
    most: usize,
    nodes: &[Node],
) -> Result<Option<Node>, AllocError>
    ensures { IfOk result
        (λ found. option_map node_tree found ≡ find (meets_itself (map vertex_tree vertices.now) most)
        (map node_tree nodes.now)) }
{
    for node in nodes {
        if is_met(alloc, vertices, most, *node)? {
            return Ok(Some(*node));
        }
    }
    Ok(None)
}
