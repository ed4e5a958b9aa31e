//! Whether a stack is accepted.

ghost use Rattle.std.specs.Prelude.{◌≡◌, true, IfOk, IfSome, map, option_map, None};
ghost use Rattle.stack_mean.specs.Graph as mean;
ghost use Rattle.stack_mean.specs.Acceptance.{held_at_most};
ghost use Rattle.weight_laws.specs.Orderly.{IsOrderly};
ghost use Rattle.weight_laws.specs.Rounds.{largest_entry};
ghost use Rattle.weight_laws.specs.Tables.{table_of};
ghost use Rattle.stack_judge.specs.Edges.{node_tree};
ghost use Rattle.stack_judge.specs.Vertices.{vertex_tree};
ghost use Rattle.stack_judge.specs.Judged.{IsJudged, largest_of, largest_at};
ghost use Rattle.std.specs.List.{list_all};
ghost use Rattle.weight_laws.specs.Rounds.{one_task};
ghost use Rattle.stack_judge.specs.Measures.{own_of};
ghost use Rattle.stack_judge.specs.Steady.{is_steady_at, falls_at};
ghost use Rattle.typed_layer.specs.Places.{typed_tree};

use crate::edges::{Node, number_at};
use crate::error::StackError;
use crate::order::order_of;
use crate::rounds::{Measure, costs_in, largest_cost};
use crate::search::first_met;
use crate::steady::{all_fall, steady_costs};
use crate::table::{Vertex, nodes, table, tags_to};
use layer_words::{Dir, Kind};
use std::alloc::{AllocError, Global};
use typed_layer::Typed;

/// The largest weight that an entry may have.
pub const WEIGHT_LIMIT: u32 = 65_536;

/// The most joins that an entry may make.
pub const JOINS_LIMIT: u32 = 1_024;

/// A stack with its graph: the nodes, and the edges of each.
#[derive(Clone, Copy)]
struct Graph<'a> {
    stack: &'a Typed,
    nodes: &'a [Node],
    vertices: &'a [Vertex],
}

/// The first node of a stack that lies on a cycle.
fn first_on_cycle(alloc: Global, graph: &Graph<'_>) -> Result<Option<Node>, AllocError>
    requires orderly { IsOrderly (typed_tree graph.now.stack.now) }
    requires nodes { map node_tree graph.now.nodes.now ≡ mean.nodes (typed_tree graph.now.stack.now) }
    requires table { map vertex_tree graph.now.vertices.now ≡ table_of (typed_tree graph.now.stack.now) }
    ensures { IfOk result (λ found. option_map node_tree found ≡ mean.first_on_cycle (typed_tree graph.now.stack.now)) }
{
    first_met(alloc, graph.vertices, graph.nodes.len(), graph.nodes)
}

/// Whether steady weights fall along each arrow, so that no node follows from itself.
fn is_free(graph: &Graph<'_>, weights: &[u32]) -> bool
    requires orderly { IsOrderly (typed_tree graph.now.stack.now) }
    requires nodes { map node_tree graph.now.nodes.now ≡ mean.nodes (typed_tree graph.now.stack.now) }
    requires table { map vertex_tree graph.now.vertices.now ≡ table_of (typed_tree graph.now.stack.now) }
    requires steady { list_all (is_steady_at one_task (map vertex_tree graph.now.vertices.now) weights.now)
        (map node_tree graph.now.nodes.now) ≡ true }
    ensures { result ≡ true → mean.first_on_cycle (typed_tree graph.now.stack.now) ≡ None }
{
    all_fall(graph.nodes, graph.vertices, weights)
}

/// The first node of a stack that lies on a cycle; steady weights, if there are any, may show that no node does.
fn cycle_of(
    alloc: Global,
    graph: &Graph<'_>,
    weights: &Option<Vec<u32>>,
) -> Result<Option<Node>, AllocError>
    requires orderly { IsOrderly (typed_tree graph.now.stack.now) }
    requires nodes { map node_tree graph.now.nodes.now ≡ mean.nodes (typed_tree graph.now.stack.now) }
    requires table { map vertex_tree graph.now.vertices.now ≡ table_of (typed_tree graph.now.stack.now) }
    requires steady { IfSome weights.now
        (λ costs. list_all (is_steady_at one_task (map vertex_tree graph.now.vertices.now) costs.items)
        (map node_tree graph.now.nodes.now) ≡ true) }
    ensures { IfOk result (λ found. option_map node_tree found ≡ mean.first_on_cycle (typed_tree graph.now.stack.now)) }
{
    if let Some(weights) = weights {
        if is_free(graph, weights.as_slice()) {
            return Ok(None);
        }
    }
    first_on_cycle(alloc, graph)
}

/// The largest cost of the nodes of a place, a direction and a kind.
fn largest_of_kind(stack: &Typed, costs: &[u32], at: u8, dir: Dir, kind: Kind) -> u32
    ensures { result ≡ largest_at costs.now (mean.nodes_of (typed_tree stack.now) at dir kind) }
{
    let tags = tags_to(stack, at, dir, kind);
    largest_cost(costs, number_at(u16::from(at), dir, kind, 0), tags.count)
}

/// The largest cost of the entries of a stack.
fn largest_of_entries(stack: &Typed, costs: &[u32]) -> u32
    ensures { result ≡ largest_entry (typed_tree stack.now) costs.now }
{
    let top = stack.places();
    largest_of_kind(stack, costs, 1, Dir::Up, Kind::Cast)
        .max(largest_of_kind(stack, costs, 1, Dir::Up, Kind::Send))
        .max(largest_of_kind(stack, costs, 1, Dir::Up, Kind::Timer))
        .max(largest_of_kind(stack, costs, top, Dir::Down, Kind::Cast))
        .max(largest_of_kind(stack, costs, top, Dir::Down, Kind::Send))
        .max(largest_of_kind(stack, costs, top, Dir::Down, Kind::Leave))
}

/// What the costliest entry of a stack costs, by costs that are steady.
fn largest_settled(_measure: Measure, graph: &Graph<'_>, costs: &[u32]) -> u32
    requires orderly { IsOrderly (typed_tree graph.now.stack.now) }
    requires nodes { map node_tree graph.now.nodes.now ≡ mean.nodes (typed_tree graph.now.stack.now) }
    requires table { map vertex_tree graph.now.vertices.now ≡ table_of (typed_tree graph.now.stack.now) }
    requires free { None ≡ mean.first_on_cycle (typed_tree graph.now.stack.now) }
    requires steady { list_all (is_steady_at (own_of _measure) (map vertex_tree graph.now.vertices.now) costs.now)
        (map node_tree graph.now.nodes.now) ≡ true }
    ensures { result ≡ held_at_most (largest_of _measure (typed_tree graph.now.stack.now)) }
{
    largest_of_entries(graph.stack, costs)
}

/// What the costliest entry of a stack costs, in rounds.
fn largest_in_rounds(alloc: Global, measure: Measure, graph: &Graph<'_>) -> Result<u32, AllocError>
    requires orderly { IsOrderly (typed_tree graph.now.stack.now) }
    requires nodes { map node_tree graph.now.nodes.now ≡ mean.nodes (typed_tree graph.now.stack.now) }
    requires table { map vertex_tree graph.now.vertices.now ≡ table_of (typed_tree graph.now.stack.now) }
    ensures { IfOk result (λ most. most ≡ held_at_most (largest_of measure (typed_tree graph.now.stack.now))) }
{
    let costs = costs_in(alloc, measure, graph.vertices, graph.nodes.len())?;
    Ok(largest_of_entries(graph.stack, &costs))
}

/// What the costliest entry of a stack costs, as far as 32 bits hold it, by steady costs if there are some.
fn largest_in(
    alloc: Global,
    measure: Measure,
    graph: &Graph<'_>,
    settled: &Option<Vec<u32>>,
) -> Result<u32, AllocError>
    requires orderly { IsOrderly (typed_tree graph.now.stack.now) }
    requires nodes { map node_tree graph.now.nodes.now ≡ mean.nodes (typed_tree graph.now.stack.now) }
    requires table { map vertex_tree graph.now.vertices.now ≡ table_of (typed_tree graph.now.stack.now) }
    requires free { None ≡ mean.first_on_cycle (typed_tree graph.now.stack.now) }
    requires steady { IfSome settled.now
        (λ costs. list_all (is_steady_at (own_of measure) (map vertex_tree graph.now.vertices.now) costs.items)
        (map node_tree graph.now.nodes.now) ≡ true) }
    ensures { IfOk result (λ most. most ≡ held_at_most (largest_of measure (typed_tree graph.now.stack.now))) }
{
    match settled {
        Some(costs) => Ok(largest_settled(measure, graph, costs.as_slice())),
        None => largest_in_rounds(alloc, measure, graph),
    }
}

/// The weight of a stack that is accepted, or the first reason for which it isn't.
pub fn judge(alloc: Global, stack: &Typed) -> Result<u32, StackError>
    requires { IsOrderly (typed_tree stack.now) }
    ensures { IsJudged (typed_tree stack.now) result }
{
    let nodes = nodes(alloc, stack)?;
    let vertices = table(alloc, stack, &nodes)?;
    let order = order_of(alloc, &nodes, &vertices)?;
    let weights = steady_costs(alloc, Measure::Tasks, &order, &nodes, &vertices)?;
    let graph = Graph {
        stack,
        nodes: &nodes,
        vertices: &vertices,
    };
    if let Some(node) = cycle_of(alloc, &graph, &weights)? {
        return Err(StackError::Cycle(node.at.saturating_sub(1), node.kind));
    }
    let weight = largest_in(alloc, Measure::Tasks, &graph, &weights)?;
    if weight > WEIGHT_LIMIT {
        return Err(StackError::TooMany(weight));
    }
    let counts = steady_costs(alloc, Measure::Joins, &order, &nodes, &vertices)?;
    let joins = largest_in(alloc, Measure::Joins, &graph, &counts)?;
    if joins > JOINS_LIMIT {
        return Err(StackError::TooManyJoins);
    }
    Ok(weight)
}
