//! Units as they are written.
ghost use Rattle.std.specs.Prelude.{◌≡◌, ◌++◌, ◌==◌, OnOk, IfOk, IsTrue, filter};
ghost use Rattle.std.specs.List.{flat_map};
ghost use Rattle.std.specs.List.Sorted.{IsNonDecreasingBy};
ghost use Rattle.if1_graph.specs.Lines.{edge_line, if1_text};
ghost use Rattle.if1_write.specs.Texts.{rank_of, entry_text, import_text, edge_text, edges_text, simple_text, open_text, close_text, subgraph_text, header_text, body_text, part_text, function_text, compound_text, node_text, filled_text};

use crate::order::{are_in_order, edges_near};
use flow_value::{Name, NoMemory, Numbers, Text};
use if1_graph::{
    Edge, Graph, Line, Node, Origin, TypeEntry, Unit1, compound_of, opening, write_line,
};
use std::alloc::Global;

/// The canonical text of a unit: types, functions of other units, and then each function, with its nodes
/// in order, each followed by what leads into it, and the results last (IF1 Reference Manual 1.0, M-170,
/// text form). Edges that lead into one node stay in their order, and an edge into a node that the graph
/// does not have is left out. Near linear where edges stand by the nodes to which they lead, with the
/// boundary last. Calls itself once for each level of compound nodes.
#[tactic(auto, using(crate::proofs::Pieces::unit_is))]
pub fn write_if1(alloc: Global, unit: &Unit1) -> Result<Text, NoMemory>
    ensures text { IfOk result (λ t. t ≡ if1_text unit.now) }
{
    let mut text = Text::new(alloc);
    put_types(alloc, unit.types.as_slice(), &mut text)?;
    put_imports(alloc, unit.imports.as_slice(), &mut text)?;
    put_functions(alloc, unit.graphs.as_slice(), &mut text)?;
    Ok(text)
}

/// Adds the line of a type.
#[tactic(auto, unfolding(crate::specs::Texts::entry_text))]
fn put_type(alloc: Global, entry: &TypeEntry, to: &mut Text) -> Result<(), NoMemory>
    ensures { OnOk result (to.new ≡ to.old ++ entry_text entry.now) }
{
    let line = Line::Entry {
        label: entry.label,
        code: entry.code,
        first: entry.first,
        second: entry.second,
        name: Name::from_slice(alloc, entry.name.as_slice())?,
    };
    write_line(&line, to)
}

fn put_types(alloc: Global, types: &[TypeEntry], to: &mut Text) -> Result<(), NoMemory>
    ensures { OnOk result (to.new ≡ to.old ++ flat_map entry_text types.now) }
{
    for entry in types {
        put_type(alloc, entry, to)?;
    }
    Ok(())
}

/// Adds the line of a function that another unit has.
#[tactic(auto, unfolding(crate::specs::Texts::import_text))]
fn put_import(alloc: Global, import: &(u32, Name), to: &mut Text) -> Result<(), NoMemory>
    ensures { OnOk result (to.new ≡ to.old ++ import_text import.now) }
{
    let line = Line::Import {
        ty: import.0,
        name: Name::from_slice(alloc, import.1.as_slice())?,
    };
    write_line(&line, to)
}

fn put_imports(alloc: Global, imports: &[(u32, Name)], to: &mut Text) -> Result<(), NoMemory>
    ensures { OnOk result (to.new ≡ to.old ++ flat_map import_text imports.now) }
{
    for import in imports {
        put_import(alloc, import, to)?;
    }
    Ok(())
}

/// The line of an edge or a literal.
fn line_of_edge(alloc: Global, edge: &Edge) -> Result<Line, NoMemory>
    ensures { IfOk result (λ l. l ≡ edge_line edge.now) }
{
    let name = Name::from_slice(alloc, edge.name.as_slice())?;
    match &edge.from {
        Origin::Port(from, out) => Ok(Line::Edge {
            from: *from,
            out: *out,
            node: edge.node,
            port: edge.port,
            ty: edge.ty,
            takes: edge.takes,
            name,
        }),
        Origin::Lit(text) => Ok(Line::Literal {
            node: edge.node,
            port: edge.port,
            ty: edge.ty,
            text: Text::from_slice(alloc, text.as_slice())?,
            name,
        }),
    }
}

/// Adds the line of an edge or a literal.
#[tactic(auto, unfolding(crate::specs::Texts::edge_text))]
fn put_edge(alloc: Global, edge: &Edge, to: &mut Text) -> Result<(), NoMemory>
    ensures { OnOk result (to.new ≡ to.old ++ edge_text edge.now) }
{
    let line = line_of_edge(alloc, edge)?;
    write_line(&line, to)
}

/// Adds the lines of those of the edges that lead into a node.
fn put_those_into(alloc: Global, edges: &[Edge], node: u32, to: &mut Text) -> Result<(), NoMemory>
    ensures { OnOk result (to.new ≡ to.old ++ flat_map edge_text (filter (λ e. e.node == node) edges.now)) }
{
    for edge in edges {
        if edge.node == node {
            put_edge(alloc, edge, to)?;
        }
    }
    Ok(())
}

/// Adds the lines of what leads into a node.
fn put_into(
    alloc: Global,
    edges: &[Edge],
    in_order: bool,
    node: u32,
    to: &mut Text,
) -> Result<(), NoMemory>
    requires { IsTrue in_order → IsNonDecreasingBy rank_of edges.now }
    ensures { OnOk result (to.new ≡ to.old ++ edges_text edges.now node) }
{
    put_those_into(alloc, edges_near(edges, in_order, node), node, to)
}

/// Adds the line of a simple node.
#[tactic(auto, unfolding(crate::specs::Texts::simple_text))]
fn put_simple(alloc: Global, node: &Node, to: &mut Text) -> Result<(), NoMemory>
    ensures { OnOk result (to.new ≡ to.old ++ simple_text node.now) }
{
    let line = Line::Node {
        label: node.label,
        op: node.op,
        before: Numbers::from_slice(alloc, node.before.as_slice())?,
        name: Name::from_slice(alloc, node.name.as_slice())?,
    };
    write_line(&line, to)
}

/// Adds the line with which a compound node begins.
#[tactic(auto, unfolding(crate::specs::Texts::open_text))]
fn put_open(alloc: Global, node: &Node, to: &mut Text) -> Result<(), NoMemory>
    ensures { OnOk result (to.new ≡ to.old ++ open_text node.now) }
{
    let line = opening(alloc, node.label, node.op)?;
    write_line(&line, to)
}

/// Adds the line with which a compound node ends.
#[tactic(auto, unfolding(crate::specs::Texts::close_text))]
fn put_close(node: &Node, to: &mut Text) -> Result<(), NoMemory>
    ensures { OnOk result (to.new ≡ to.old ++ close_text node.now) }
{
    if1_graph::write_close(
        node.label,
        node.op,
        node.subs.len(),
        node.assoc.as_slice(),
        node.before.as_slice(),
        node.name.as_slice(),
        to,
    )
}

/// Adds the line with which a graph in a compound node begins.
#[tactic(auto, unfolding(crate::specs::Texts::subgraph_text))]
fn put_subgraph(alloc: Global, graph: &Graph, to: &mut Text) -> Result<(), NoMemory>
    ensures { OnOk result (to.new ≡ to.old ++ subgraph_text graph.now) }
{
    let line = Line::Subgraph {
        name: Name::from_slice(alloc, graph.name.as_slice())?,
    };
    write_line(&line, to)
}

/// Adds the line with which a function begins.
#[tactic(auto, unfolding(crate::specs::Texts::header_text))]
fn put_header(alloc: Global, graph: &Graph, to: &mut Text) -> Result<(), NoMemory>
    ensures { OnOk result (to.new ≡ to.old ++ header_text graph.now) }
{
    let line = Line::Function {
        exported: graph.exported,
        fun: graph.fun,
        name: Name::from_slice(alloc, graph.name.as_slice())?,
    };
    write_line(&line, to)
}

/// Adds the lines of a graph after its first.
#[cycle(put)]
fn put_body(alloc: Global, graph: &Graph, to: &mut Text) -> Result<(), NoMemory>
    ensures { OnOk result (to.new ≡ to.old ++ body_text graph.now) }
{
    let edges = graph.edges.as_slice();
    let in_order = are_in_order(edges);
    put_nodes(alloc, graph.nodes.as_slice(), edges, in_order, to)?;
    put_into(alloc, edges, in_order, 0, to)
}

/// Adds the lines of nodes, each with what leads into it.
#[cycle(put)]
fn put_nodes(
    alloc: Global,
    nodes: &[Node],
    edges: &[Edge],
    in_order: bool,
    to: &mut Text,
) -> Result<(), NoMemory>
    requires { IsTrue in_order → IsNonDecreasingBy rank_of edges.now }
    ensures { OnOk result (to.new ≡ to.old ++ flat_map (filled_text edges.now) nodes.now) }
{
    for node in nodes {
        put_node(alloc, node, to)?;
        put_into(alloc, edges, in_order, node.label, to)?;
    }
    Ok(())
}

/// Adds the lines of a node before those of what leads into it.
#[cycle(put)]
fn put_node(alloc: Global, node: &Node, to: &mut Text) -> Result<(), NoMemory>
    ensures { OnOk result (to.new ≡ to.old ++ node_text node.now) }
{
    match compound_of(node.op) {
        Some(_) => put_compound(alloc, node, to),
        None => put_simple(alloc, node, to),
    }
}

#[cycle(put)]
fn put_compound(alloc: Global, node: &Node, to: &mut Text) -> Result<(), NoMemory>
    ensures { OnOk result (to.new ≡ to.old ++ compound_text node.now) }
{
    put_open(alloc, node, to)?;
    put_parts(alloc, node.subs.as_slice(), to)?;
    put_close(node, to)
}

/// Adds the graphs of a compound node.
#[cycle(put)]
fn put_parts(alloc: Global, graphs: &[Graph], to: &mut Text) -> Result<(), NoMemory>
    ensures { OnOk result (to.new ≡ to.old ++ flat_map part_text graphs.now) }
{
    for graph in graphs {
        put_subgraph(alloc, graph, to)?;
        put_body(alloc, graph, to)?;
    }
    Ok(())
}

fn put_functions(alloc: Global, graphs: &[Graph], to: &mut Text) -> Result<(), NoMemory>
    ensures { OnOk result (to.new ≡ to.old ++ flat_map function_text graphs.now) }
{
    for graph in graphs {
        put_header(alloc, graph, to)?;
        put_body(alloc, graph, to)?;
    }
    Ok(())
}
