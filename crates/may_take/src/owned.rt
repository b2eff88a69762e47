//! Which ports of a graph own what they carry.
ghost use Rattle.std.specs.Prelude.{◌≡◌, ◌+◌, ◌&&◌, ◌||◌, not, nat_lt};
ghost use Rattle.std.specs.List.{list_all};
ghost use Rattle.std.specs.Option.{option_copied};
ghost use Rattle.if1_marks.specs.Owned.{is_final_value, is_last_value};
ghost use Rattle.may_take.specs.Looked.{IsLaid};
ghost use Rattle.may_take.specs.Owned as spec;

use crate::around::Around;
use crate::port_set::PortSet;
use if1_graph::{Compound, Edge, Graph, Node, Origin, Part, Simple, node_of, part_at, simple_of};
use if1_ports::edges_into;

/// Where a graph stands, as far as which of its inputs are owned.
#[derive(Clone, Copy)]
pub enum Site<'a> {
    /// It is a function, with these inputs given.
    Function(&'a PortSet),
    /// It is the part of a compound node at this place.
    Part(&'a Around, usize),
    /// It is in no compound node.
    Nothing,
}

fn is_final_value(op: Option<Simple>) -> bool
    ensures { result ≡ is_final_value op }
{
    matches!(op, Some(Simple::FinalValue))
}

fn has_no_second(edges: &[Edge]) -> bool
    ensures { result ≡ spec.has_no_second edges.now }
{
    for edge in edges {
        if edge.port == 2 {
            return false;
        }
    }
    true
}

fn is_final_node(node: Option<&Node>) -> bool
    ensures { result ≡ spec.is_final_node (option_copied node.entry) }
{
    match node {
        Some(node) => is_final_value(simple_of(node.op)),
        None => false,
    }
}

// the node is a FinalValue without a mask
fn is_last_value(graph: &Graph, label: u32) -> bool
    requires { IsLaid graph.now }
    ensures { result ≡ is_last_value graph.now label }
{
    if !is_final_node(node_of(graph.nodes.as_slice(), label)) {
        return false;
    }
    has_no_second(edges_into(graph.edges.as_slice(), label))
}

fn are_last_values(graph: &Graph, users: &[u32]) -> bool
    requires { IsLaid graph.now }
    ensures { result ≡ list_all (is_last_value graph.now) users.now }
{
    for user in users {
        if !is_last_value(graph, *user) {
            return false;
        }
    }
    true
}

fn is_free(around: &Around, graph: &Graph, users: &[u32], port: u32) -> bool
    requires { IsLaid graph.now }
    ensures { result ≡ spec.is_free around.now graph.now users.now port }
{
    if are_last_values(graph, users) {
        return true;
    }
    !around.turns.has(port)
}

fn is_owned_after_loop(around: &Around, graph: &Graph, users: &[u32], port: u32) -> bool
    requires { IsLaid graph.now }
    ensures { result ≡ (nat_lt around.now.width port && (spec.is_one users.now && spec.is_free around.now graph.now users.now port)) }
{
    if port <= around.width {
        return false;
    }
    if users.len() != 1 {
        return false;
    }
    is_free(around, graph, users, port)
}

fn is_made_once(around: &Around, users: &[u32], port: u32) -> bool
    ensures { result ≡ (nat_lt (around.now.width + around.now.first) port && spec.is_one users.now) }
{
    if u64::from(port) <= u64::from(around.width) + u64::from(around.first) {
        return false;
    }
    users.len() == 1
}

fn is_owned_in_returns(around: &Around, graph: &Graph, users: &[u32], port: u32) -> bool
    requires { IsLaid graph.now }
    ensures { result ≡ spec.is_owned_in_returns around.now.compound around.now graph.now users.now port }
{
    match around.compound {
        Compound::ForAll => is_made_once(around, users, port),
        _ => is_owned_after_loop(around, graph, users, port),
    }
}

fn is_owned_in_body(around: &Around, port: u32) -> bool
    ensures { result ≡ spec.is_owned_in_body around.now.compound around.now port }
{
    match around.compound {
        Compound::ForAll => false,
        _ => port > around.width,
    }
}

fn is_owned_in(part: Part, around: &Around, graph: &Graph, users: &[u32], port: u32) -> bool
    requires { IsLaid graph.now }
    ensures { result ≡ spec.is_owned_in part around.now graph.now users.now port }
{
    match part {
        Part::Alternative | Part::Arm | Part::Initialization => around.given.has(port),
        Part::Body => is_owned_in_body(around, port),
        Part::Returns => is_owned_in_returns(around, graph, users, port),
        Part::Selector | Part::Generator | Part::Test => false,
    }
}

fn is_returns(part: Option<Part>) -> bool
    ensures { result ≡ spec.is_returns part }
{
    matches!(part, Some(Part::Returns))
}

fn is_input_owned(site: Site, graph: &Graph, users: &[u32], port: u32) -> bool
    requires { IsLaid graph.now }
    ensures { result ≡ spec.is_input_owned (spec.stand_of site.entry) graph.now users.now port }
{
    match site {
        Site::Function(given) => given.has(port),
        Site::Part(around, place) => match part_at(around.compound, place) {
            Some(part) => is_owned_in(part, around, graph, users, port),
            None => false,
        },
        Site::Nothing => false,
    }
}

/// Whether it goes by the users of the inputs of a graph that stands here which of them are owned.
pub fn reads_users(site: Site) -> bool
    ensures { result ≡ spec.reads_users (spec.stand_of site.entry) }
{
    match site {
        Site::Part(around, place) => is_returns(part_at(around.compound, place)),
        _ => false,
    }
}

/// Whether a port of a graph that stands here, with these users, owns what it carries.
pub fn is_owned_at(site: Site, graph: &Graph, users: &[u32], from: &Origin) -> bool
    requires { IsLaid graph.now }
    ensures { result ≡ spec.is_owned_at (spec.stand_of site.entry) graph.now users.now from.now }
{
    match from {
        Origin::Lit(_) => false,
        Origin::Port(0, port) => is_input_owned(site, graph, users, *port),
        Origin::Port(_, _) => true,
    }
}
