//! What a node has by the edges that lead into it.
ghost use Rattle.std.specs.Prelude.{◌≡◌, ◌==◌, ◌&&◌, ◌||◌, not};
ghost use Rattle.std.specs.Option.{option_copied};
ghost use Rattle.if1_graph.specs.Units.{greatest};
ghost use Rattle.if1_graph.specs.Ports.{text_of};
ghost use Rattle.if1_ports.specs.Outlines.{types_in};
ghost use Rattle.if1_ports.specs.Names.{callees_in};
ghost use Rattle.if1_ports.specs.Counts as counts;
ghost use Rattle.if1_ports.specs.Fed as spec;

use crate::names::Names;
use crate::outline::{Outline, is_integer};
use crate::rows::Outlines;
use if1_graph::{Edge, Origin};

/// What a node has by the edges that lead into it, as far as its ports depend on it.
#[derive(Clone, Copy)]
pub struct Fed {
    /// How many edges lead into it.
    pub count: usize,
    /// Whether they lead into the ports 1, 2, .., one into each.
    pub counted: bool,
    /// Whether they lead into rising ports, one into each.
    pub rising: bool,
    /// The greatest port, 0 where there is none.
    pub greatest: u32,
    /// Whether port 1 is filled.
    pub has_first: bool,
    /// What port 1 carries.
    pub carries: Outline,
    /// Whether a literal leads into port 1.
    pub is_literal: bool,
    /// The function that the literal names.
    pub callee: Outline,
    /// Whether the literal is the integer 1.
    pub is_one: bool,
}

/// Whether the ports are 1, 2, .., each once.
fn are_counted(edges: &[Edge]) -> bool
    ensures { result ≡ counts.are_counted 1 (spec.ports_of edges.now) }
{
    let mut count: usize = 0;
    for edge in edges {
        count += 1;
        if edge.port as usize != count {
            return false;
        }
    }
    true
}

fn are_rising(edges: &[Edge]) -> bool
    ensures { result ≡ counts.are_rising 0 (spec.ports_of edges.now) }
{
    let mut least: u64 = 0;
    for edge in edges {
        if u64::from(edge.port) < least {
            return false;
        }
        least = u64::from(edge.port) + 1;
    }
    true
}

/// The greatest port, 0 where there is none.
pub fn greatest_port(edges: &[Edge]) -> u32
    ensures { result ≡ greatest (spec.ports_of edges.now) }
{
    let mut most = 0;
    for edge in edges {
        if edge.port > most {
            most = edge.port;
        }
    }
    most
}

/// The edge into port 1.
fn first_of(edges: &[Edge]) -> Option<&Edge>
    ensures { option_copied result ≡ spec.first_of edges.now }
{
    for edge in edges {
        if edge.port == 1 {
            return Some(edge);
        }
    }
    None
}

/// What is known of a literal.
#[derive(Clone, Copy)]
struct Literal {
    /// Whether it is one.
    is_literal: bool,
    /// The function that it names.
    callee: Outline,
    /// Whether it is spelled as 1.
    is_one: bool,
}

/// Whether the byte may stand in the spelling of 1, where nothing follows the one.
fn is_digit_of_one(one: bool, c: u8) -> bool
    ensures { result ≡ (not one && ((c == 48) || (c == 49))) }
{
    !one && (c == b'0' || c == b'1')
}

fn spells_one(text: &[u8]) -> bool
    ensures { result ≡ spec.spells_one text.now }
{
    let mut one = false;
    for c in text {
        if !is_digit_of_one(one, *c) {
            return false;
        }
        one = *c == b'1';
    }
    one
}

fn literal_by(names: &Names, from: &Origin) -> Literal
    ensures { result ≡ spec.literal_by (callees_in names.now) (text_of from.now) }
{
    match from {
        Origin::Port(_, _) => Literal {
            is_literal: false,
            callee: Outline::Nothing,
            is_one: false,
        },
        Origin::Lit(text) => Literal {
            is_literal: true,
            callee: names.callee(text.as_slice()),
            is_one: spells_one(text.as_slice()),
        },
    }
}

fn literal_at(names: &Names, first: Option<&Edge>) -> Literal
    ensures { result ≡ spec.literal_by (callees_in names.now) (spec.text_by (option_copied first.entry)) }
{
    match first {
        Some(edge) => literal_by(names, &edge.from),
        None => Literal {
            is_literal: false,
            callee: Outline::Nothing,
            is_one: false,
        },
    }
}

fn carried_by(types: &Outlines, first: Option<&Edge>) -> Outline
    ensures { result ≡ spec.carried_by (types_in types.now) (option_copied first.entry) }
{
    match first {
        Some(edge) => types.outline(edge.ty),
        None => Outline::Nothing,
    }
}

/// What a node has by the edges that lead into it, as far as its ports depend on it.
pub fn fed_by(types: &Outlines, names: &Names, edges: &[Edge]) -> Fed
    ensures { result ≡ spec.fed_by (types_in types.now) (callees_in names.now) edges.now }
{
    let first = first_of(edges);
    let carries = carried_by(types, first);
    let literal = literal_at(names, first);
    Fed {
        count: edges.len(),
        counted: are_counted(edges),
        rising: are_rising(edges),
        greatest: greatest_port(edges),
        has_first: first.is_some(),
        carries,
        is_literal: literal.is_literal,
        callee: literal.callee,
        is_one: is_integer(carries) && literal.is_one,
    }
}
