//! Literals by their types and the ports at which they stand.
ghost use Rattle.std.specs.Prelude.{◌≡◌, map, is_some, IfOk};
ghost use Rattle.std.specs.Option.{option_copied};
ghost use Rattle.std.specs.List.Sorted.{IsStrictlyIncreasing};
ghost use Rattle.if1_graph.specs.Units.{label_of, node_at};
ghost use Rattle.if1_graph.specs.Kinds.{kind_at, basic_at};
ghost use Rattle.if1_graph.specs.Literals.{literal};
ghost use Rattle.if1_read.specs.declared.fault.Kind.TheVariants.{Bad, Unknown};
ghost use Rattle.if1_read.specs.Faults.{unless, literal_fault};
ghost use Rattle.if1_read.specs.Known.{IsTableSound, IsIfKnown, IsBasicJudged, IsJudgedAs, IsJudged, want_from, want_in};
ghost use Rattle.if1_read.specs.Rulings.{lit_wrong};
ghost use Rattle.if1_read.specs.Sheets.{marks_of};
ghost use Rattle.if1_read.specs.Verdicts.{verdict};

use crate::fault::Kind;
use crate::literals::{literal, literal_text};
use crate::names::Names;
use crate::table::Table;
use flow_value::{NoMemory, Text, item_at};
use if1_graph::{
    Basic, Node, Simple, TypeEntry, TypeKind, Want, basic_of, kind_of, operand_of, reducer_of,
    simple_of,
};
use std::alloc::Global;

/// What is known of a unit before its graphs are read.
#[derive(Drop)]
pub struct Known {
    /// Its types.
    pub table: Table,
    /// The names of its functions.
    pub names: Names,
}

/// A literal in canonical spelling, or what is wrong with it.
#[derive(Drop)]
pub enum Judged {
    Right(Text),
    Wrong(Kind),
}

fn node_at<'a>(nodes: &'a [Node], labels: &[u32], label: u32) -> Option<&'a Node>
    ensures { labels.now ≡ map label_of nodes.now → IsStrictlyIncreasing labels.now → option_copied result ≡ node_at nodes.now label }
{
    match labels.binary_search(&label) {
        Ok(place) => item_at(nodes, place),
        Err(_) => None,
    }
}

fn want_at(op: Option<Simple>, port: u32) -> Option<Want>
    ensures { result ≡ want_from op port }
{
    let (_, want) = operand_of(op?, port)?;
    Some(want)
}

/// What a port of a node wants, where the node is a simple one.
fn want_of(nodes: &[Node], labels: &[u32], label: u32, port: u32) -> Option<Want>
    ensures { labels.now ≡ map label_of nodes.now → IsStrictlyIncreasing labels.now → result ≡ want_in nodes.now label port }
{
    match node_at(nodes, labels, label) {
        Some(node) => want_at(simple_of(node.op), port),
        None => None,
    }
}

fn if_known(is_known: bool, text: Text) -> Judged
    ensures right { IsIfKnown is_known text result }
    ensures found { verdict result ≡ unless is_known Unknown }
{
    if is_known {
        Judged::Right(text)
    } else {
        Judged::Wrong(Kind::Unknown)
    }
}

fn of_basic(alloc: Global, basic: Basic, text: Text) -> Result<Judged, NoMemory>
    ensures right { IfOk result (λ j. IsBasicJudged basic text j) }
    ensures found { IfOk result (λ j. verdict j ≡ unless (is_some (literal basic text)) Bad) }
{
    match literal(alloc, basic, text.as_slice())? {
        Some(v) => Ok(Judged::Right(literal_text(alloc, &v)?)),
        None => Ok(Judged::Wrong(Kind::Bad)),
    }
}

fn of_type(
    alloc: Global,
    names: &Names,
    want: Option<Want>,
    entry: &TypeEntry,
    text: Text,
) -> Result<Judged, NoMemory>
    ensures right { IfOk result (λ j. IsJudgedAs names.now want text (kind_at entry.now.code) (basic_at entry.now.first) j) }
    ensures found { IfOk result (λ j. verdict j ≡ literal_fault names.now want text (kind_at entry.now.code) (basic_at entry.now.first)) }
{
    match (kind_of(entry.code), want, basic_of(entry.first)) {
        (Some(TypeKind::Function), Some(Want::Function), _) => {
            let known = names.has(text.as_slice());
            Ok(if_known(known, text))
        }
        (Some(TypeKind::Function), Some(Want::Reduction), _) => {
            let known = reducer_of(text.as_slice()).is_some();
            Ok(if_known(known, text))
        }
        (Some(TypeKind::Function), _, _) => Ok(Judged::Right(text)),
        (Some(TypeKind::Basic), Some(Want::Reduction), Some(Basic::Integer)) => {
            let known = reducer_of(text.as_slice()).is_some();
            Ok(if_known(known, text))
        }
        (Some(TypeKind::Basic), _, Some(basic)) => of_basic(alloc, basic, text),
        _ => Ok(Judged::Wrong(Kind::Bad)),
    }
}

/// A literal at a port, by the nodes of its graph and the label of its type. One whose type is not
/// there or holds reals is not looked at.
pub fn judge(
    alloc: Global,
    known: &Known,
    nodes: &[Node],
    labels: &[u32],
    node: u32,
    port: u32,
    ty: u32,
    text: Text,
) -> Result<Judged, NoMemory>
    ensures right { IfOk result (λ j. IsTableSound known.now.table → labels.now ≡ map label_of nodes.now → IsStrictlyIncreasing labels.now → IsJudged known.now (want_in nodes.now node port) ty text j) }
    ensures found { IfOk result (λ j. IsTableSound known.now.table → labels.now ≡ map label_of nodes.now → IsStrictlyIncreasing labels.now →
        verdict j ≡ lit_wrong known.now (map marks_of nodes.now) (record { node = node; port = port; ty = ty; text = text })) }
{
    if !known.table.is_clear(ty) {
        return Ok(Judged::Right(text));
    }
    let want = want_of(nodes, labels, node, port);
    match known.table.entry(ty) {
        Some(entry) => of_type(alloc, &known.names, want, entry, text),
        None => Ok(Judged::Right(text)),
    }
}
