//! What the types on the edges of a simple node tell.
ghost use Rattle.std.specs.Prelude.{◌≡◌, AllPairs, Option};
ghost use Rattle.if1_graph.specs.declared.graph.Graph.TheViews.{out-Graph};
ghost use Rattle.if1_graph.specs.declared.graph.Unit1.{Unit1};
ghost use Rattle.if1_graph.specs.Normal.{Precedes};
ghost use Rattle.if1_graph.specs.Ports.{fields_of, tags_of};
ghost use Rattle.if1_graph.specs.Types.{Sort};
ghost use Rattle.if1_graph.specs.Units.{label_of};
ghost use Rattle.if1_ports.specs.Outlines.{outline_of};
ghost use Rattle.graph_meaning.specs.Networks.{fields_shape, shape_of, stream_shape, union_shape};
ghost use Rattle.node_ops.specs.Operands as operands;
ghost use Rattle.node_works.specs.Tables.{AreTablesOf, output_label, sort_by};

use crate::into::carried_at;
use crate::tables::UnitTables;
use flow_value::Shape;
use if1_graph::{Graph, Node, Simple};
use if1_ports::{Outline, fields_in, is_stream, tags_in};

fn stream_shape(outline: Outline) -> Shape
    ensures { (s : Option Sort) → outline ≡ outline_of s → operands.shape_of result ≡ stream_shape s }
{
    if is_stream(outline) {
        Shape::Stream
    } else {
        Shape::Plain
    }
}

fn union_shape(outline: Outline) -> Shape
    ensures { (s : Option Sort) → outline ≡ outline_of s → operands.shape_of result ≡ union_shape (tags_of s) }
{
    match tags_in(outline) {
        Some(_) => Shape::Union,
        None => Shape::Plain,
    }
}

fn fields_shape(outline: Outline) -> Shape
    ensures { (s : Option Sort) → outline ≡ outline_of s → operands.shape_of result ≡ fields_shape (fields_of s) }
{
    match fields_in(outline) {
        Some(count) => Shape::Fields(count),
        None => Shape::Plain,
    }
}

/// What is known of the type of a label, if there is one.
fn outline_at(tables: &UnitTables, label: Option<u32>) -> Outline
    ensures { (u : Unit1) → AreTablesOf u tables.now → result ≡ outline_of (sort_by u label) }
{
    match label {
        Some(label) => tables.types.outline(label),
        None => Outline::Nothing,
    }
}

/// What the types on the edges of a simple node tell, where this is the type of what leaves it.
pub fn shape_at(
    tables: &UnitTables,
    output: Option<u32>,
    graph: &Graph,
    node: &Node,
    row: Simple,
) -> Shape
    requires { AllPairs Precedes (out-Graph graph.now).edges }
    ensures { (u : Unit1) → AreTablesOf u tables.now → output ≡ output_label graph.now node.now → operands.shape_of result ≡ shape_of u graph.now (label_of node.now) row }
{
    match row {
        Simple::ABuild | Simple::AGather | Simple::Reduce(_) => {
            stream_shape(outline_at(tables, output))
        }
        Simple::RBuild => union_shape(outline_at(tables, output)),
        Simple::RElements => fields_shape(carried_at(tables, graph, node.label)),
        _ => Shape::Plain,
    }
}
