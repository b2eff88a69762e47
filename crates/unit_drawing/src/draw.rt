//! The drawing of a unit.
use crate::names::name_of;
use crate::put::{put_number, put_numbered};
use flow_value::{NoMemory, Text};
use if1_graph::{Compound, Edge, Graph, Node, Origin, Part, Unit1, compound_of, part_at};
use std::alloc::Global;

const HEAD: &[u8] = b"digraph unit {
node [shape=box, fontname=Helvetica, fontsize=11];
edge [fontname=Helvetica, fontsize=9];
";

fn put_quoted(text: &mut Text, words: &[u8]) -> Result<(), NoMemory> {
    text.add(b'"')?;
    for byte in words {
        if *byte == b'"' || *byte == b'\\' {
            text.add(b'\\')?;
        }
        text.add(*byte)?;
    }
    text.add(b'"')
}

/// The name of the box of a node of a graph. Node 0 is the graph itself: its inputs as that from which
/// an edge comes, and its results as that to which one leads.
fn put_box(text: &mut Text, graph: u32, node: u32, itself: &[u8]) -> Result<(), NoMemory> {
    put_numbered(text, b"g", graph)?;
    if node == 0 {
        text.extend(itself)
    } else {
        put_numbered(text, b"n", node)
    }
}

/// The ports of an edge, and whether it takes.
fn put_ports(text: &mut Text, from: u32, edge: &Edge) -> Result<(), NoMemory> {
    put_numbered(text, b" [taillabel=", from)?;
    put_numbered(text, b", headlabel=", edge.port)?;
    if edge.takes {
        text.extend(b", style=bold")?;
    }
    text.extend(b"];\n")
}

/// The name of the box of a literal.
fn put_literal_box(text: &mut Text, graph: u32, edge: &Edge) -> Result<(), NoMemory> {
    put_numbered(text, b"g", graph)?;
    put_numbered(text, b"l", edge.node)?;
    put_numbered(text, b"p", edge.port)
}

fn put_literal(text: &mut Text, graph: u32, edge: &Edge, words: &[u8]) -> Result<(), NoMemory> {
    put_literal_box(text, graph, edge)?;
    text.extend(b" [shape=plaintext, label=")?;
    put_quoted(text, words)?;
    text.extend(b"];\n")?;
    put_literal_box(text, graph, edge)?;
    text.extend(b" -> ")?;
    put_box(text, graph, edge.node, b"out")?;
    put_numbered(text, b" [headlabel=", edge.port)?;
    text.extend(b"];\n")
}

fn put_edge(text: &mut Text, graph: u32, edge: &Edge) -> Result<(), NoMemory> {
    match &edge.from {
        Origin::Port(node, port) => {
            put_box(text, graph, *node, b"in")?;
            text.extend(b" -> ")?;
            put_box(text, graph, edge.node, b"out")?;
            put_ports(text, *port, edge)
        }
        Origin::Lit(words) => put_literal(text, graph, edge, words.as_slice()),
    }
}

fn put_edges(text: &mut Text, graph: u32, edges: &[Edge]) -> Result<(), NoMemory> {
    for edge in edges {
        put_edge(text, graph, edge)?;
    }
    Ok(())
}

/// The ordering edges that lead to a node.
fn put_befores(text: &mut Text, graph: u32, node: u32, befores: &[u32]) -> Result<(), NoMemory> {
    for before in befores {
        put_box(text, graph, *before, b"in")?;
        text.extend(b" -> ")?;
        put_box(text, graph, node, b"out")?;
        text.extend(b" [style=dashed];\n")?;
    }
    Ok(())
}

/// The box of a node, and the ordering edges that lead to it.
fn put_node_box(text: &mut Text, graph: u32, node: &Node) -> Result<(), NoMemory> {
    put_box(text, graph, node.label, b"out")?;
    put_numbered(text, b" [label=\"", node.label)?;
    text.extend(b" ")?;
    text.extend(name_of(node.op))?;
    text.extend(b"\"];\n")?;
    put_befores(text, graph, node.label, node.before.as_slice())
}

/// The beginning of a cluster for a graph, with its inputs and its results.
fn put_cluster(text: &mut Text, graph: u32, title: &[u8]) -> Result<(), NoMemory> {
    put_numbered(text, b"subgraph cluster_", graph)?;
    text.extend(b" {\nlabel=")?;
    put_quoted(text, title)?;
    text.extend(b";\n")?;
    put_box(text, graph, 0, b"in")?;
    text.extend(b" [shape=ellipse, label=\"in\"];\n")?;
    put_box(text, graph, 0, b"out")?;
    text.extend(b" [shape=ellipse, label=\"out\"];\n")
}

fn title_of(part: Part) -> &'static [u8] {
    match part {
        Part::Selector => b"selector",
        Part::Alternative => b"alternative",
        Part::Arm => b"arm",
        Part::Generator => b"generator",
        Part::Initialization => b"initialization",
        Part::Test => b"test",
        Part::Body => b"body",
        Part::Returns => b"returns",
    }
}

fn part_title(compound: Compound, place: usize) -> &'static [u8] {
    match part_at(compound, place) {
        Some(part) => title_of(part),
        None => b"",
    }
}

/// The nodes and edges of a graph, and the end of its cluster.
#[cycle(put)]
fn put_body(text: &mut Text, graph: &Graph) -> Result<(), NoMemory> {
    put_nodes(text, graph.number, graph.nodes.as_slice())?;
    put_edges(text, graph.number, graph.edges.as_slice())?;
    text.extend(b"}\n")
}

#[cycle(put)]
fn put_nodes(text: &mut Text, graph: u32, nodes: &[Node]) -> Result<(), NoMemory> {
    for node in nodes {
        put_node(text, graph, node)?;
    }
    Ok(())
}

#[cycle(put)]
fn put_node(text: &mut Text, graph: u32, node: &Node) -> Result<(), NoMemory> {
    match compound_of(node.op) {
        Some(compound) => put_compound(text, graph, node, compound),
        None => put_node_box(text, graph, node),
    }
}

/// A compound node: a cluster with its box and its graphs.
#[cycle(put)]
fn put_compound(
    text: &mut Text,
    graph: u32,
    node: &Node,
    compound: Compound,
) -> Result<(), NoMemory> {
    put_numbered(text, b"subgraph cluster_", graph)?;
    put_numbered(text, b"_", node.label)?;
    text.extend(b" {\nlabel=\"\";\n")?;
    put_node_box(text, graph, node)?;
    put_parts(text, node.subs.as_slice(), compound)?;
    text.extend(b"}\n")
}

/// The graphs of a compound node.
#[cycle(put)]
fn put_parts(text: &mut Text, graphs: &[Graph], compound: Compound) -> Result<(), NoMemory> {
    let mut place = 0;
    for graph in graphs {
        put_cluster(text, graph.number, part_title(compound, place))?;
        put_body(text, graph)?;
        place += 1;
    }
    Ok(())
}

/// The drawing of a unit as a text for Graphviz: a cluster for each graph and each compound node, ordering
/// edges dashed, edges that take bold, each edge with the ports between which it leads, and each literal
/// as words of its own. Calls itself once for each level of compound nodes.
pub fn drawing(alloc: Global, unit: &Unit1) -> Result<Text, NoMemory> {
    let mut text = Text::new(alloc);
    text.extend(HEAD)?;
    for graph in unit.graphs.as_slice() {
        put_cluster(&mut text, graph.number, graph.name.as_slice())?;
        put_body(&mut text, graph)?;
    }
    text.extend(b"}\n")?;
    Ok(text)
}
