//! The nodes of a stack, and for each what follows from it, by its number.

ghost use Rattle.std.specs.Prelude.{◌≡◌, ◌≤◌, ◌++◌, OnOk, IfOk, fold, length, map, option_map, option_to_list};
ghost use Rattle.std.specs.Prelude.{replicate};
ghost use Rattle.std.specs.List.{flat_map, range_with_len};
ghost use Rattle.layer_words.specs.Spelling.{kinds};
ghost use Rattle.layer_words.specs.declared.events.Dir.TheVariants as direction;
ghost use Rattle.layer_mean.specs.Queue.{layer_at};
ghost use Rattle.stack_mean.specs.Graph as graph;
ghost use Rattle.weight_laws.specs.Tables.{edge_of, no_vertex, table_of, vertex_of, with_node, empty_table};
ghost use Rattle.stack_judge.specs.Edges.{node_tree, edge_tree};
ghost use Rattle.stack_judge.specs.Vertices.{vertex_tree, nodes_at, nodes_of_kind};
ghost use Rattle.typed_layer.specs.Places.{typed_tree};

use crate::edges::{Edge, Node, Tags, add_block, carries, edge_to, number_at};
use crate::joins::of_handler;
use layer_words::{Dir, Kind};
use std::alloc::{AllocError, Global};
use typed_layer::Typed;

/// The kinds of events, in the order in which nodes are listed.
const KINDS: [Kind; 12] = [
    Kind::Cast,
    Kind::Send,
    Kind::Timer,
    Kind::Suspect,
    Kind::Stable,
    Kind::Ack,
    Kind::Elect,
    Kind::Block,
    Kind::BlockOk,
    Kind::Flushed,
    Kind::View,
    Kind::Leave,
];

/// How many numbers the nodes of a place can have.
const NUMBERS: usize = 192;

/// How many nodes most places have at most; where there are more, their room grows.
const NODES: usize = 32;

/// The joins of the handler that a node enters, and the edges from the node.
#[derive(Drop)]
pub struct Vertex {
    pub joins: u32,
    pub edges: Edges,
}

/// The edges from a node. Most nodes enter no handler and have one at most, which takes no memory of its own.
#[derive(Drop)]
pub enum Edges {
    Nowhere,
    Passed(Edge),
    Emitted(Vec<Edge>),
}

/// The tags that an event of a kind can have before the layer at a place.
fn tags_for(stack: &Typed, kind: Kind, at: u16) -> Tags
    ensures first { result.first ≡ 0 }
    ensures tags { range_with_len 0 result.count ≡ graph.tags_for kind (layer_at (typed_tree stack.now) at) }
{
    if carries(kind) {
        Tags {
            first: 0,
            count: stack.tags_at(at),
        }
    } else {
        Tags { first: 0, count: 1 }
    }
}

/// The edge from a node that finds no handler, if it has one.
fn passed(stack: &Typed, node: Node) -> Option<Edge>
    ensures { option_to_list (option_map edge_tree result) ≡
        map edge_of (graph.passing (typed_tree stack.now) (node_tree node) node.dir) }
{
    match node.dir {
        Dir::Down => Some(edge_to(1, node, Dir::Down, node.kind, Tags { first: 0, count: 1 })),
        Dir::Up => {
            if node.tag == 0 {
                let tags = tags_for(stack, node.kind, u16::from(node.at) + 1);
                Some(edge_to(1, node, Dir::Up, node.kind, tags))
            } else {
                None
            }
        }
    }
}

/// The tag of the header that is popped where a node arrives.
fn popped_tag(node: Node) -> u8
    ensures { result ≡ graph.popped_tag (node_tree node) node.dir }
{
    match node.dir {
        Dir::Up => node.tag,
        Dir::Down => 0,
    }
}

/// A vertex from which nothing follows.
fn nowhere() -> Vertex
    ensures { vertex_tree result ≡ no_vertex }
{
    Vertex {
        joins: 0,
        edges: Edges::Nowhere,
    }
}

/// What follows from a node.
fn make_vertex(alloc: Global, stack: &Typed, node: Node) -> Result<Vertex, AllocError>
    ensures { IfOk result (λ v. vertex_tree v ≡ vertex_of (typed_tree stack.now) (node_tree node)) }
{
    let Some(layer) = stack.visited(node.at) else {
        return Ok(nowhere());
    };
    match layer.handlers.find(node.dir, node.kind, popped_tag(node)) {
        Some(handler) => {
            let mut edges = Vec::new(alloc);
            add_block(stack, node, 1, &handler.block, &mut edges)?;
            Ok(Vertex {
                joins: of_handler(handler),
                edges: Edges::Emitted(edges),
            })
        }
        None => match passed(stack, node) {
            Some(edge) => Ok(Vertex {
                joins: 0,
                edges: Edges::Passed(edge),
            }),
            None => Ok(nowhere()),
        },
    }
}

/// The tags that an event of a direction and a kind can have on its way to a place.
pub fn tags_to(stack: &Typed, at: u8, dir: Dir, kind: Kind) -> Tags
    ensures first { result.first ≡ 0 }
    ensures tags { range_with_len 0 result.count ≡
        graph.tags_for kind (graph.header_layer (typed_tree stack.now) dir at) }
{
    match dir {
        Dir::Up => tags_for(stack, kind, u16::from(at)),
        Dir::Down => tags_for(stack, kind, u16::from(at) + 1),
    }
}

/// Adds the nodes of a place, a direction and a kind.
fn add_nodes(
    stack: &Typed,
    at: u8,
    dir: Dir,
    kind: Kind,
    nodes: &mut Vec<Node>,
) -> Result<(), AllocError>
    ensures { OnOk result (map node_tree nodes.new.items ≡ map node_tree nodes.old.items ++
        graph.nodes_of (typed_tree stack.now) at dir kind) }
{
    let tags = tags_to(stack, at, dir, kind);
    for tag in 0..tags.count {
        nodes.push(Node { at, dir, kind, tag })?;
    }
    Ok(())
}

/// Adds the nodes of a place and a kind.
fn add_kind(stack: &Typed, at: u8, kind: Kind, nodes: &mut Vec<Node>) -> Result<(), AllocError>
    ensures { OnOk result (map node_tree nodes.new.items ≡ map node_tree nodes.old.items ++
        nodes_of_kind (typed_tree stack.now) at kind) }
{
    add_nodes(stack, at, Dir::Up, kind, nodes)?;
    add_nodes(stack, at, Dir::Down, kind, nodes)
}

/// Adds the nodes of a place and of some kinds.
fn add_kinds(stack: &Typed, at: u8, kinds: &[Kind], nodes: &mut Vec<Node>) -> Result<(), AllocError>
    ensures { OnOk result (map node_tree nodes.new.items ≡ map node_tree nodes.old.items ++
        flat_map (nodes_of_kind (typed_tree stack.now) at) kinds.now) }
{
    for kind in kinds {
        add_kind(stack, at, *kind, nodes)?;
    }
    Ok(())
}

/// Adds the nodes of a place.
#[tactic(auto, unfolding(layer_words::specs::Spelling::kinds))]
fn add_place(stack: &Typed, at: u8, nodes: &mut Vec<Node>) -> Result<(), AllocError>
    ensures { OnOk result (map node_tree nodes.new.items ≡ map node_tree nodes.old.items ++
        nodes_at (typed_tree stack.now) at) }
{
    add_kinds(stack, at, &KINDS, nodes)
}

/// All nodes of a stack, lowest place first.
pub fn nodes(alloc: Global, stack: &Typed) -> Result<Vec<Node>, AllocError>
    ensures { IfOk result (λ nodes. map node_tree nodes.items ≡ graph.nodes (typed_tree stack.now)) }
{
    let places = stack.places() + 2;
    let mut nodes = Vec::with_capacity(alloc, usize::from(places) * NODES)?;
    for at in 0..places {
        add_place(stack, at, &mut nodes)?;
    }
    Ok(nodes)
}

/// A table for a stack of `places` places, without nodes.
fn empty(alloc: Global, places: u8) -> Result<Vec<Vertex>, AllocError>
    ensures { IfOk result (λ vertices. map vertex_tree vertices.items ≡ empty_table places) }
{
    let count = (usize::from(places) + 2) * NUMBERS;
    let mut vertices = Vec::with_capacity(alloc, count)?;
    for _number in 0..count {
        vertices.push(nowhere())?;
    }
    Ok(vertices)
}

/// Puts what follows from a node at the node's number.
fn enter(
    alloc: Global,
    stack: &Typed,
    node: Node,
    vertices: &mut Vec<Vertex>,
) -> Result<(), AllocError>
    ensures { OnOk result
        (map vertex_tree vertices.new.items ≡ with_node (typed_tree stack.now) (map vertex_tree vertices.old.items)
        (node_tree node)) }
{
    let vertex = make_vertex(alloc, stack, node)?;
    let number = number_at(u16::from(node.at), node.dir, node.kind, node.tag) as usize;
    if number < vertices.len() {
        vertices[number] = vertex;
    }
    Ok(())
}

/// What follows from each node of a stack, at the node's number.
pub fn table(alloc: Global, stack: &Typed, nodes: &[Node]) -> Result<Vec<Vertex>, AllocError>
    ensures { IfOk result (λ vertices. map vertex_tree vertices.items ≡
        fold (with_node (typed_tree stack.now)) (empty_table (length (typed_tree stack.now)))
        (map node_tree nodes.now)) }
{
    let mut vertices = empty(alloc, stack.places())?;
    for node in nodes {
        enter(alloc, stack, *node, &mut vertices)?;
    }
    Ok(vertices)
}
