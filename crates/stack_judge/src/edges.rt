//! The arrows of the graph of a stack, by the numbers of its nodes.

ghost use Rattle.std.specs.Prelude.{◌≡◌, ◌*◌, ◌∷◌, [], ◌++◌, OnOk, map};
ghost use Rattle.std.specs.List.{range_with_len};
ghost use Rattle.layer_mean.specs.Queue.{beyond};
ghost use Rattle.layer_mean.specs.Event as event;
ghost use Rattle.stack_mean.specs.Emissions.{emissions, emissions_in};
ghost use Rattle.stack_mean.specs.Graph as graph;
ghost use Rattle.weight_laws.specs.Tables.{node_number, edge_of};
ghost use Rattle.typed_layer.specs.View.{message_tree, emission_tree, content_tree, statement_tree, block_tree};
ghost use Rattle.stack_judge.specs.Edges.{node_tree, edge_tree, emission_edge};
ghost use Rattle.typed_layer.specs.Places.{typed_tree};

use layer_words::{Dir, Kind};
use std::alloc::AllocError;
use typed_layer::{Content, Emission, MessageExpression, Statement, StatementBlock, Typed};

/// How many kinds of events there are.
const KINDS: u32 = 12;

/// How many tags a layer's headers can have, `none` counted.
const TAGS: u32 = 8;

/// An event that arrives at a place of the queue, with the tag of the first header of its message.
#[derive(Clone, Copy)]
pub struct Node {
    pub at: u8,
    pub dir: Dir,
    pub kind: Kind,
    pub tag: u8,
}

/// An edge: one of `count` nodes, with neighbouring numbers from `first` on, follows `times` times.
#[derive(Clone, Copy)]
pub struct Edge {
    pub times: u32,
    pub first: u32,
    pub count: u8,
}

/// Neighbouring tags.
#[derive(Clone, Copy)]
pub struct Tags {
    pub first: u8,
    pub count: u8,
}

/// The number of a node.
pub fn number_at(at: u16, dir: Dir, kind: Kind, tag: u8) -> u32
    ensures { result ≡ node_number (record { at = at; dir = dir; kind = kind; tag = tag }) }
{
    ((u32::from(at) * 2 + dir as u32) * KINDS + kind as u32) * TAGS + u32::from(tag)
}

/// The neighbour of a place in a direction.
pub fn neighbour(dir: Dir, at: u8) -> u16
    ensures { result ≡ beyond dir at }
{
    match dir {
        Dir::Up => u16::from(at) + 1,
        Dir::Down => u16::from(at).saturating_sub(1),
    }
}

/// Whether the events of a kind carry a message.
pub fn carries(kind: Kind) -> bool
    ensures { result ≡ event.carries kind }
{
    matches!(kind, Kind::Cast | Kind::Send)
}

/// Whether a message has the headers of the one with which its handler was entered.
fn keeps_headers(message: &MessageExpression) -> bool
    ensures { result ≡ graph.keeps_headers (message_tree message.now) }
{
    match message {
        MessageExpression::Local(slot) => *slot == 0,
        MessageExpression::Tail { message, from: _ } => keeps_headers(message),
        MessageExpression::Join { first: _, second } => keeps_headers(second),
        _ => false,
    }
}

/// The tags that an emitted message can have.
fn content_tags(stack: &Typed, node: Node, dir: Dir, content: &Content) -> Tags
    ensures { range_with_len result.first result.count ≡ graph.content_tags (typed_tree stack.now) (node_tree node) dir
        (content_tree content.now) }
{
    match dir {
        Dir::Down => Tags {
            first: content.tag,
            count: 1,
        },
        Dir::Up => {
            let from_above = match node.dir {
                Dir::Up => false,
                Dir::Down => carries(node.kind),
            };
            if from_above && keeps_headers(&content.message) {
                Tags {
                    first: node.tag,
                    count: 1,
                }
            } else {
                Tags {
                    first: 0,
                    count: stack.tags_at(u16::from(node.at) + 1),
                }
            }
        }
    }
}

/// The tags that an emitted event can have.
fn emission_tags(stack: &Typed, node: Node, emission: &Emission) -> Tags
    ensures { range_with_len result.first result.count ≡ graph.emission_tags (typed_tree stack.now) (node_tree node)
        (emission_tree emission.now) (emission_tree emission.now).content }
{
    match &emission.content {
        None => Tags { first: 0, count: 1 },
        Some(content) => content_tags(stack, node, emission.direction, content),
    }
}

/// The edge from a node to its neighbour in a direction, for an event of a kind with one of these tags.
pub fn edge_to(times: u32, node: Node, dir: Dir, kind: Kind, tags: Tags) -> Edge
    ensures { edge_tree result ≡
        edge_of (graph.arrow_to times (node_tree node) dir kind (range_with_len tags.first tags.count)) }
{
    Edge {
        times,
        first: number_at(neighbour(dir, node.at), dir, kind, tags.first),
        count: tags.count,
    }
}

/// The edge of an emission that is done `times` times.
fn emitted(stack: &Typed, node: Node, times: u32, emission: &Emission) -> Edge
    ensures { edge_tree result ≡ emission_edge (typed_tree stack.now) (node_tree node)
        (record { times = times; emission = emission_tree emission.now }) }
{
    let tags = emission_tags(stack, node, emission);
    edge_to(times, node, emission.direction, emission.kind, tags)
}

/// Adds the edge of an emission that is done `times` times.
fn add_emission(
    stack: &Typed,
    node: Node,
    times: u32,
    emission: &Emission,
    edges: &mut Vec<Edge>,
) -> Result<(), AllocError>
    ensures { OnOk result (map edge_tree edges.new.items ≡ map edge_tree edges.old.items ++
        map (emission_edge (typed_tree stack.now) (node_tree node))
        (record { times = times; emission = emission_tree emission.now } ∷ [])) }
{
    edges.push(emitted(stack, node, times, emission))?;
    Ok(())
}

/// Adds the edges of the block of a loop that is done `times` times, in at most `most` turns each time.
#[cycle(add)]
fn add_repeated(
    stack: &Typed,
    node: Node,
    times: u32,
    most: u8,
    block: &StatementBlock,
    edges: &mut Vec<Edge>,
) -> Result<(), AllocError>
    ensures { OnOk result (map edge_tree edges.new.items ≡ map edge_tree edges.old.items ++
        map (emission_edge (typed_tree stack.now) (node_tree node))
        (emissions_in (times * most) (block_tree block.now))) }
{
    add_block(
        stack,
        node,
        times.saturating_mul(u32::from(most)),
        block,
        edges,
    )
}

/// Adds the edges of a statement that is done `times` times.
#[cycle(add)]
fn add_statement(
    stack: &Typed,
    node: Node,
    times: u32,
    statement: &Statement,
    edges: &mut Vec<Edge>,
) -> Result<(), AllocError>
    ensures { OnOk result (map edge_tree edges.new.items ≡ map edge_tree edges.old.items ++
        map (emission_edge (typed_tree stack.now) (node_tree node)) (emissions times (statement_tree statement.now))) }
{
    match statement {
        Statement::Push {
            cell: _,
            index: _,
            capacity: _,
            row: _,
            otherwise,
        } => { add_block(stack, node, times, otherwise, edges) }
        Statement::Take {
            cell: _,
            index: _,
            taken: _,
            block,
            otherwise,
        } => {
            add_block(stack, node, times, block, edges)?;
            add_block(stack, node, times, otherwise, edges)
        }
        Statement::Branch {
            likely: _,
            condition: _,
            block,
            otherwise,
        } => {
            add_block(stack, node, times, block, edges)?;
            add_block(stack, node, times, otherwise, edges)
        }
        Statement::Each {
            slot: _,
            below: _,
            most,
            block,
        } => { add_repeated(stack, node, times, *most, block, edges) }
        Statement::Emit(emission) => add_emission(stack, node, times, emission, edges),
        _ => Ok(()),
    }
}

/// Adds the edges of a block that is done `times` times.
#[cycle(add)]
pub fn add_block(
    stack: &Typed,
    node: Node,
    times: u32,
    block: &StatementBlock,
    edges: &mut Vec<Edge>,
) -> Result<(), AllocError>
    ensures { OnOk result (map edge_tree edges.new.items ≡ map edge_tree edges.old.items ++
        map (emission_edge (typed_tree stack.now) (node_tree node)) (emissions_in times (block_tree block.now))) }
{
    for statement in block.statements.as_slice() {
        add_statement(stack, node, times, statement, edges)?;
    }
    Ok(())
}
