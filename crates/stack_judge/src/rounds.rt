//! What the nodes of a stack cost, in rounds over a table.

ghost use Rattle.std.specs.Prelude.{◌≡◌, IfOk, length, map, fold, slice_index};
ghost use Rattle.stack_mean.specs.Acceptance.{largest};
ghost use Rattle.weight_laws.specs.Rounds as round;
ghost use Rattle.std.specs.List.{range_with_len};
ghost use Rattle.stack_judge.specs.Edges.{edge_tree};
ghost use Rattle.stack_judge.specs.Vertices.{vertex_tree};
ghost use Rattle.stack_judge.specs.Measures.{own_of};

use crate::edges::Edge;
use crate::table::{Edges, Vertex};
use std::alloc::{AllocError, Global};

/// What is counted: tasks, or joins.
#[derive(Clone, Copy)]
pub enum Measure {
    Tasks,
    Joins,
}

/// What a vertex costs of its own.
fn own_cost(measure: Measure, vertex: &Vertex) -> u32
    ensures { result ≡ own_of measure (vertex_tree vertex.now) }
{
    match measure {
        Measure::Tasks => 1,
        Measure::Joins => vertex.joins,
    }
}

/// The cost at a number, 0 outside the table.
pub fn cost_at(costs: &[u32], number: usize) -> u32
    ensures { result ≡ slice_index costs.now number }
{
    if number < costs.len() {
        costs[number]
    } else {
        0
    }
}

/// The largest cost of neighbouring numbers.
pub fn largest_cost(costs: &[u32], first: u32, count: u8) -> u32
    ensures { result ≡ largest (map (slice_index costs.now) (range_with_len first count)) }
{
    let mut most: u32 = 0;
    for k in 0..count {
        most = most.max(cost_at(costs, first as usize + usize::from(k)));
    }
    most
}

/// A sum with the cost of an edge.
fn add_edge(costs: &[u32], sum: u32, edge: Edge) -> u32
    ensures { result ≡ round.with_edge costs.now sum (edge_tree edge) }
{
    sum.saturating_add(
        edge.times
            .saturating_mul(largest_cost(costs, edge.first, edge.count)),
    )
}

/// A sum with the costs of edges.
fn add_edges(costs: &[u32], own: u32, edges: &[Edge]) -> u32
    ensures { result ≡ fold (round.with_edge costs.now) own (map edge_tree edges.now) }
{
    let mut sum = own;
    for edge in edges {
        sum = add_edge(costs, sum, *edge);
    }
    sum
}

/// The cost of a vertex over the costs of the round before.
pub fn vertex_cost(measure: Measure, costs: &[u32], vertex: &Vertex) -> u32
    ensures { result ≡ round.vertex_cost (own_of measure) costs.now (vertex_tree vertex.now) }
{
    let own = own_cost(measure, vertex);
    match &vertex.edges {
        Edges::Nowhere => own,
        Edges::Passed(edge) => add_edge(costs, own, *edge),
        Edges::Emitted(edges) => add_edges(costs, own, edges.as_slice()),
    }
}

/// What each vertex costs of its own.
pub fn own_costs(
    alloc: Global,
    measure: Measure,
    vertices: &[Vertex],
) -> Result<Vec<u32>, AllocError>
    ensures { IfOk result (λ costs. costs.items ≡ map (own_of measure) (map vertex_tree vertices.now)) }
{
    let mut costs = Vec::with_capacity(alloc, vertices.len())?;
    for vertex in vertices {
        costs.push(own_cost(measure, vertex))?;
    }
    Ok(costs)
}

/// The costs of one more round.
fn next_costs(
    alloc: Global,
    measure: Measure,
    vertices: &[Vertex],
    before: &[u32],
) -> Result<Vec<u32>, AllocError>
    ensures { IfOk result
        (λ costs. costs.items ≡ round.round (own_of measure) (map vertex_tree vertices.now) before.now) }
{
    let mut costs = Vec::new(alloc);
    for vertex in vertices {
        costs.push(vertex_cost(measure, before, vertex))?;
    }
    Ok(costs)
}

/// The costs after `most` rounds; once a round changes nothing, no more are made.
pub fn costs_in(
    alloc: Global,
    measure: Measure,
    vertices: &[Vertex],
    most: usize,
) -> Result<Vec<u32>, AllocError>
    ensures { IfOk result (λ costs. costs.items ≡ round.rounds (own_of measure) (map vertex_tree vertices.now) most) }
{
    let mut costs = own_costs(alloc, measure, vertices)?;
    for _done in 0..most {
        let next = next_costs(alloc, measure, vertices, &costs)?;
        if next.as_slice() == costs.as_slice() {
            return Ok(costs);
        }
        costs = next;
    }
    Ok(costs)
}
