//! Costs that a further round doesn't change, found in sweeps over the nodes.

ghost use Rattle.std.specs.Prelude.{◌≡◌, true, IfOk, IfSome, map, vec_len};
ghost use Rattle.std.specs.List.{list_all};
ghost use Rattle.stack_judge.specs.Edges.{edge_tree, node_tree};
ghost use Rattle.stack_judge.specs.Vertices.{vertex_tree};
ghost use Rattle.stack_judge.specs.Measures.{own_of};
ghost use Rattle.stack_judge.specs.Steady.{is_steady_at, falls_at, is_often};

use crate::edges::{Edge, Node, number_at};
use crate::rounds::{Measure, cost_at, vertex_cost};
use crate::table::{Edges, Vertex};
use std::alloc::{AllocError, Global};

/// How many sweeps are made at most; for most stacks one is enough.
const MOST_SWEEPS: u8 = 33;

/// Sets the cost of each number to that of one more round, in order. (Whatever is set, only costs that are steady are
/// used.)
fn sweep(measure: Measure, order: &[u32], vertices: &[Vertex], costs: &mut Vec<u32>) {
    for number in order {
        let number = *number as usize;
        if number < vertices.len() && number < costs.len() {
            costs[number] = vertex_cost(measure, costs.as_slice(), &vertices[number]);
        }
    }
}

/// Whether a round wouldn't change the cost of a node.
fn keeps(measure: Measure, vertices: &[Vertex], costs: &[u32], node: Node) -> bool
    ensures { result ≡ true → is_steady_at (own_of measure) (map vertex_tree vertices.now) costs.now (node_tree node) ≡
        true }
{
    let number = number_at(u16::from(node.at), node.dir, node.kind, node.tag) as usize;
    if number < vertices.len() {
        cost_at(costs, number) == vertex_cost(measure, costs, &vertices[number])
    } else {
        false
    }
}

/// Whether a round wouldn't change the cost of any node.
fn are_steady(measure: Measure, nodes: &[Node], vertices: &[Vertex], costs: &[u32]) -> bool
    ensures { result ≡ true → list_all (is_steady_at (own_of measure) (map vertex_tree vertices.now) costs.now)
        (map node_tree nodes.now) ≡ true }
{
    for node in nodes {
        if !keeps(measure, vertices, costs, *node) {
            return false;
        }
    }
    true
}

/// Costs that a round wouldn't change, if some are found soon by going through the numbers in an order.
pub fn steady_costs(
    alloc: Global,
    measure: Measure,
    order: &[u32],
    nodes: &[Node],
    vertices: &[Vertex],
) -> Result<Option<Vec<u32>>, AllocError>
    ensures { IfOk result
        (λ found. IfSome found
        (λ costs. list_all (is_steady_at (own_of measure) (map vertex_tree vertices.now) costs.items)
        (map node_tree nodes.now) ≡ true)) }
{
    let mut costs = vec![in alloc; 1; vertices.len()]?;
    for _sweep in 0..MOST_SWEEPS {
        sweep(measure, order, vertices, &mut costs);
        if are_steady(measure, nodes, vertices, costs.as_slice()) {
            return Ok(Some(costs));
        }
    }
    Ok(None)
}

/// Whether each edge stands for at least one time.
fn are_often(edges: &[Edge]) -> bool
    ensures { result ≡ true → list_all is_often (map edge_tree edges.now) ≡ true }
{
    for edge in edges {
        if edge.times == 0 {
            return false;
        }
    }
    true
}

/// Whether each edge from a vertex stands for at least one time.
fn is_often_left(vertex: &Vertex) -> bool
    ensures { result ≡ true → list_all is_often (vertex_tree vertex.now).edges ≡ true }
{
    match &vertex.edges {
        Edges::Nowhere => true,
        Edges::Passed(edge) => edge.times > 0,
        Edges::Emitted(edges) => are_often(edges.as_slice()),
    }
}

/// Whether the cost of a node is below what 32 bits hold, and each of its edges stands for at least one time.
fn falls(vertices: &[Vertex], costs: &[u32], node: Node) -> bool
    ensures { result ≡ true → falls_at (map vertex_tree vertices.now) costs.now (node_tree node) ≡ true }
{
    let number = number_at(u16::from(node.at), node.dir, node.kind, node.tag) as usize;
    if number < vertices.len() && cost_at(costs, number) < u32::MAX {
        is_often_left(&vertices[number])
    } else {
        false
    }
}

/// Whether both hold for all nodes.
pub fn all_fall(nodes: &[Node], vertices: &[Vertex], costs: &[u32]) -> bool
    ensures { result ≡ true → list_all (falls_at (map vertex_tree vertices.now) costs.now) (map node_tree nodes.now) ≡
        true }
{
    for node in nodes {
        if !falls(vertices, costs, *node) {
            return false;
        }
    }
    true
}
