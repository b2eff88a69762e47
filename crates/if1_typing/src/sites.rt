//! The types of the inputs and results of a graph, by where it stands.
ghost use Rattle.std.specs.Prelude.{◌≡◌, ℕ};
ghost use Rattle.if1_graph.specs.declared.graph.Node.{out-Node};
ghost use Rattle.if1_typing.specs.Tables.{table_of};
ghost use Rattle.if1_fits.specs.Views.{AreUp};
ghost use Rattle.if1_typing.specs.Fed.{AreOrdered};
ghost use Rattle.if1_typing.specs.Contents as contents;
ghost use Rattle.if1_typing.specs.Sites as spec;

use crate::fed::{carried_in, result_number};
use crate::known::Known;
use crate::site::{Content, Frame, Inner, Site};
use if1_fits::{are_same, fits, many_of, tags_of, value_of};
use if1_graph::{Compound, Edge, Graph, Node, Part, Want, compound_of, part_at};
use if1_ports::{greatest_port, results_at};

/// An input of returns after those of the node, counted from 1.
fn returned_fits(
    known: &Known,
    compound: Compound,
    first: u32,
    graphs: &[Graph],
    port: u32,
    number: u32,
) -> bool
    requires { AreOrdered graphs.now }
    ensures { result ≡ spec.returned_fits (table_of known.now) compound first graphs.now port number }
{
    match compound {
        Compound::ForAll if port > first => are_same(
            value_of(&known.sorts, result_number(known, graphs, 1, port - first)),
            many_of(&known.sorts, number),
        ),
        Compound::ForAll => result_number(known, graphs, 0, port) == number,
        _ => are_same(
            value_of(&known.sorts, result_number(known, graphs, 0, port)),
            many_of(&known.sorts, number),
        ),
    }
}

fn body_input_fits(
    known: &Known,
    compound: Compound,
    graphs: &[Graph],
    port: u32,
    number: u32,
) -> bool
    requires { AreOrdered graphs.now }
    ensures { (first : ℕ) → result ≡ spec.own_input_fits (table_of known.now) compound Part.Body first graphs.now port number }
{
    let carried = result_number(known, graphs, 0, port);
    match compound {
        Compound::ForAll => are_same(
            many_of(&known.sorts, carried),
            value_of(&known.sorts, number),
        ),
        _ => carried == number,
    }
}

/// An input of a part after those of the node, counted from 1.
fn own_input_fits(known: &Known, inner: Inner, graphs: &[Graph], port: u32, number: u32) -> bool
    requires { AreOrdered graphs.now }
    ensures { result ≡ spec.own_input_fits (table_of known.now) inner.compound inner.part inner.first graphs.now port number }
{
    match inner.part {
        Part::Body => body_input_fits(known, inner.compound, graphs, port, number),
        Part::Test => result_number(known, graphs, 0, port) == number,
        Part::Returns => returned_fits(known, inner.compound, inner.first, graphs, port, number),
        _ => false,
    }
}

fn content_fits(content: Content, ty: Option<u32>) -> bool
    ensures { result ≡ contents.content_fits content ty }
{
    match content {
        Content::Any => ty.is_some(),
        Content::One(one) => are_same(Some(one), ty),
        Content::Never => false,
    }
}

/// An input of a part that is one of the node's, or the content of a tag.
fn node_input_fits(
    known: &Known,
    part: Part,
    content: Content,
    inputs: &[Edge],
    port: u32,
    number: u32,
) -> bool
    requires { AreUp inputs.now }
    ensures { result ≡ spec.node_input_fits (table_of known.now) part content inputs.now port number }
{
    match part {
        Part::Arm if port == 1 => content_fits(content, value_of(&known.sorts, number)),
        _ => carried_in(known, inputs, port) == number,
    }
}

fn part_input_fits(
    known: &Known,
    inner: Inner,
    inputs: &[Edge],
    graphs: &[Graph],
    port: u32,
    number: u32,
) -> bool
    requires up { AreUp inputs.now }
    requires order { AreOrdered graphs.now }
    ensures { result ≡ spec.part_input_fits (table_of known.now) inner inputs.now graphs.now port number }
{
    if port <= inner.width {
        node_input_fits(known, inner.part, inner.content, inputs, port, number)
    } else {
        own_input_fits(known, inner, graphs, port - inner.width, number)
    }
}

/// Whether the type of a number is that of an input of a graph.
pub fn input_fits(
    known: &Known,
    site: Site,
    inputs: &[Edge],
    graphs: &[Graph],
    port: u32,
    number: u32,
) -> bool
    requires up { AreUp inputs.now }
    requires order { AreOrdered graphs.now }
    ensures { result ≡ spec.input_fits_at (table_of known.now) site inputs.now graphs.now port number }
{
    match site {
        Site::Function(ty) => fits(&known.sorts, &[], ty, None, Want::Argument(port), number),
        Site::Part(inner) => part_input_fits(known, inner, inputs, graphs, port, number),
        Site::Nowhere => false,
    }
}

fn is_same_result(known: &Known, graphs: &[Graph], place: usize, port: u32, number: u32) -> bool
    requires { AreOrdered graphs.now }
    ensures { result ≡ spec.is_same_result (table_of known.now) graphs.now place port number }
{
    value_of(&known.sorts, number).is_some() && result_number(known, graphs, place, port) == number
}

fn body_result_fits(
    known: &Known,
    compound: Compound,
    graphs: &[Graph],
    port: u32,
    number: u32,
) -> bool
    requires { AreOrdered graphs.now }
    ensures { result ≡ spec.part_result_fits (table_of known.now) compound Part.Body graphs.now port number }
{
    match compound {
        Compound::ForAll => value_of(&known.sorts, number).is_some(),
        _ => is_same_result(known, graphs, 0, port, number),
    }
}

fn part_result_fits(known: &Known, inner: Inner, graphs: &[Graph], port: u32, number: u32) -> bool
    requires { AreOrdered graphs.now }
    ensures { result ≡ spec.part_result_fits (table_of known.now) inner.compound inner.part graphs.now port number }
{
    match inner.part {
        Part::Selector => fits(&known.sorts, &[], 0, None, Want::Integer, number),
        Part::Test => fits(&known.sorts, &[], 0, None, Want::Boolean, number),
        Part::Generator => many_of(&known.sorts, number).is_some(),
        Part::Alternative => is_same_result(known, graphs, 1, port, number),
        Part::Arm => is_same_result(known, graphs, 0, port, number),
        Part::Body => body_result_fits(known, inner.compound, graphs, port, number),
        Part::Initialization | Part::Returns => value_of(&known.sorts, number).is_some(),
    }
}

/// Whether the type of a number is one that the boundary of a graph wants.
pub fn result_fits(known: &Known, site: Site, graphs: &[Graph], port: u32, number: u32) -> bool
    requires { AreOrdered graphs.now }
    ensures { result ≡ spec.result_fits_at (table_of known.now) site graphs.now port number }
{
    match site {
        Site::Function(ty) => fits(&known.sorts, &[], ty, None, Want::Output(port), number),
        Site::Part(inner) => part_result_fits(known, inner, graphs, port, number),
        Site::Nowhere => false,
    }
}

/// The tags of the union that a value is.
pub fn tags_at(known: &Known, number: u32) -> Option<u32>
    ensures { result ≡ spec.tags_at (table_of known.now) number }
{
    tags_of(&known.sorts, value_of(&known.sorts, number)?)
}

fn frame_as(known: &Known, inputs: &[Edge], node: &Node, compound: Compound) -> Frame
    requires up { AreUp inputs.now }
    requires inside { AreOrdered (out-Node node.now).subs }
    ensures { result ≡ spec.frame_as (table_of known.now) inputs.now node.now compound }
{
    Frame {
        compound,
        width: greatest_port(inputs),
        first: results_at(node.subs.as_slice(), 0),
        tags: tags_at(known, carried_in(known, inputs, 1)),
    }
}

/// What the graphs in a node into which these edges lead depend on of the node; nothing for a simple
/// node.
pub fn frame_by(known: &Known, inputs: &[Edge], node: &Node) -> Option<Frame>
    requires up { AreUp inputs.now }
    requires inside { AreOrdered (out-Node node.now).subs }
    ensures { result ≡ spec.frame_by (table_of known.now) inputs.now node.now }
{
    match compound_of(node.op) {
        Some(compound) => Some(frame_as(known, inputs, node, compound)),
        None => None,
    }
}

fn site_as(frame: Frame, part: Option<Part>, content: Content) -> Site
    ensures { result ≡ spec.site_as frame part content }
{
    match part {
        Some(part) => Site::Part(Inner {
            compound: frame.compound,
            part,
            width: frame.width,
            first: frame.first,
            content,
        }),
        None => Site::Nowhere,
    }
}

/// Where the graph at a place in a node stands.
pub fn site_at(frame: Option<Frame>, content: Content, place: usize) -> Site
    ensures { result ≡ spec.site_at frame content place }
{
    match frame {
        Some(frame) => site_as(frame, part_at(frame.compound, place), content),
        None => Site::Nowhere,
    }
}
