//! A graph whose lines are read, and what it is when they end.
ghost use Rattle.std.specs.Prelude.{◌≡◌, ◌==◌, None, Bool, List, ℕ, map, filter, IfOk, OnOk};
ghost use Rattle.std.specs.List.Sorted.{IsPermutation, IsStrictlyIncreasing, IsNonDecreasingBy};
ghost use Rattle.if1_graph.specs.Units.{label_of};
ghost use Rattle.if1_graph.specs.Reads.{edge_of};
ghost use Rattle.if1_read.specs.Arranged.{IsArranged};
ghost use Rattle.if1_read.specs.Edgewise.{edge_fault};
ghost use Rattle.if1_read.specs.Known.{IsTableSound, IsCanonical};
ghost use Rattle.if1_read.specs.Least.{earlier, least, found};
ghost use Rattle.if1_read.specs.Pages.{page_faults, wrong_lits};
ghost use Rattle.if1_read.specs.Rows.{over, kept};
ghost use Rattle.if1_read.specs.Rulings.{rules_of};
ghost use Rattle.if1_read.specs.Sheets.{page_of, marks_of, lined_lits};
ghost use Rattle.if1_read.specs.Made.{Each, Ends, edge_place, lined_nodes, lined_edges, place_of};

use crate::fault::{Fault, Kind, sooner};
use crate::judge::{Judged, Known, judge};
use crate::table::is_past;
use flow_value::{Name, NoMemory, Numbers, Seq};
use if1_graph::{Edge, Graph, Node, NodeList, Origin};
use std::alloc::Global;

/// A node with its line.
pub type LinedNode = (u32, Node);

/// An edge or literal with its line.
pub type LinedEdge = (u32, Edge);

/// A graph that is read.
#[derive(Drop)]
pub struct Part {
    pub exported: bool,
    pub fun: u32,
    pub name: Name,
    pub nodes: Vec<LinedNode>,
    pub edges: Vec<LinedEdge>,
}

fn sort_nodes(nodes: &mut Vec<LinedNode>) -> Result<(), NoMemory>
    ensures arranged { OnOk result (IsArranged label_of (lined_nodes nodes.old.items) (lined_nodes nodes.new.items)) }
    ensures same { OnOk result ((l : ℕ) → filter (λ n. label_of n.1 == l) nodes.new.items ≡ filter (λ n. label_of n.1 == l) nodes.old.items) }
    ensures rising { OnOk result (IsNonDecreasingBy (λ n. label_of n.1) nodes.new.items) }
{
    nodes.sort_by_key(|node| node.1.label)?;
    Ok(())
}

/// The nodes by rising label, and the fault that is named when a label is there twice.
fn nodes_once(
    alloc: Global,
    nodes: Vec<LinedNode>,
    first: Option<Fault>,
) -> Result<(NodeList, Option<Fault>), NoMemory>
    ensures rising { IfOk result (λ r. IsStrictlyIncreasing (map label_of r.0)) }
    ensures clean { IfOk result (λ r. r.1 ≡ None → first ≡ None) }
    ensures all { IfOk result (λ r. r.1 ≡ None → r.0 ≡ lined_nodes nodes.items) }
    ensures found { IfOk result (λ r. r.1 ≡ earlier first (least (over label_of None nodes.items))) }
    ensures nodes { IfOk result (λ r. r.0 ≡ lined_nodes (kept label_of None nodes.items)) }
{
    let mut once = Seq::with_room(alloc, nodes.len())?;
    let mut first = first;
    let mut last = None;
    for (line, node) in nodes {
        if is_past(last, node.label) {
            first = sooner(first, line, Kind::Bad);
        } else {
            last = Some(node.label);
            once.add(node)?;
        }
    }
    Ok((once, first))
}

fn labels_of(alloc: Global, nodes: &[Node]) -> Result<Numbers, NoMemory>
    ensures { IfOk result (λ ls. ls ≡ map label_of nodes.now) }
{
    let mut labels = Seq::with_room(alloc, nodes.len())?;
    for node in nodes {
        labels.add(node.label)?;
    }
    Ok(labels)
}

/// The place of a port among those by which edges stand: by rising label of the node, the boundary
/// last, and by port.
fn place_of(node: u32, port: u32) -> u64
    ensures { result ≡ place_of node port }
{
    let rank = if node == 0 { u32::MAX } else { node - 1 };
    (u64::from(rank) << 32) + u64::from(port)
}

fn sort_edges(edges: &mut Vec<LinedEdge>) -> Result<(), NoMemory>
    ensures order { OnOk result (IsNonDecreasingBy edge_place (lined_edges edges.new.items)) }
    ensures arranged { OnOk result (IsArranged edge_place (lined_edges edges.old.items) (lined_edges edges.new.items)) }
    ensures same { OnOk result (IsPermutation edges.old.items edges.new.items) }
{
    edges.sort_by_key(|edge| place_of(edge.1.node, edge.1.port))?;
    Ok(())
}

/// The source of an edge into a port, a literal in canonical spelling, and the fault that is named
/// when it was looked at.
fn canonical_origin(
    alloc: Global,
    known: &Known,
    nodes: &[Node],
    labels: &[u32],
    line: u32,
    from: Origin,
    node: u32,
    port: u32,
    ty: u32,
    first: Option<Fault>,
) -> Result<(Origin, Option<Fault>), NoMemory>
    ensures clean { IfOk result (λ r. r.1 ≡ None → first ≡ None) }
    ensures right { IfOk result (λ r. r.1 ≡ None → IsTableSound known.now.table → labels.now ≡ map label_of nodes.now → IsStrictlyIncreasing labels.now →
        (takes : Bool) (name : List ℕ) → IsCanonical known.now nodes.now (edge_of from node port ty takes name) (edge_of r.0 node port ty takes name)) }
    ensures found { IfOk result (λ r. IsTableSound known.now.table → labels.now ≡ map label_of nodes.now → IsStrictlyIncreasing labels.now →
        (takes : Bool) (name : List ℕ) → r.1 ≡ earlier first (found line (edge_fault (rules_of known.now) (map marks_of nodes.now) (edge_of from node port ty takes name)))) }
{
    match from {
        Origin::Lit(text) => match judge(alloc, known, nodes, labels, node, port, ty, text)? {
            Judged::Right(text) => Ok((Origin::Lit(text), first)),
            Judged::Wrong(kind) => {
                let none = Origin::Lit(Seq::new(alloc));
                Ok((none, sooner(first, line, kind)))
            }
        },
        Origin::Port(source, out) => Ok((Origin::Port(source, out), first)),
    }
}

/// An edge with its literal in canonical spelling, and the fault that is named when it was looked at.
fn canonical(
    alloc: Global,
    known: &Known,
    nodes: &[Node],
    labels: &[u32],
    line: u32,
    edge: Edge,
    first: Option<Fault>,
) -> Result<(Edge, Option<Fault>), NoMemory>
    ensures clean { IfOk result (λ r. r.1 ≡ None → first ≡ None) }
    ensures right { IfOk result (λ r. r.1 ≡ None → IsTableSound known.now.table → labels.now ≡ map label_of nodes.now → IsStrictlyIncreasing labels.now → IsCanonical known.now nodes.now edge r.0) }
    ensures found { IfOk result (λ r. IsTableSound known.now.table → labels.now ≡ map label_of nodes.now → IsStrictlyIncreasing labels.now → r.1 ≡ earlier first (found line (edge_fault (rules_of known.now) (map marks_of nodes.now) edge))) }
{
    let Edge {
        from,
        node,
        port,
        ty,
        takes,
        name,
    } = edge;
    let (from, first) = canonical_origin(
        alloc, known, nodes, labels, line, from, node, port, ty, first,
    )?;
    Ok((
        Edge {
            from,
            node,
            port,
            ty,
            takes,
            name,
        },
        first,
    ))
}

fn canonical_edges(
    alloc: Global,
    known: &Known,
    nodes: &[Node],
    labels: &[u32],
    edges: Vec<LinedEdge>,
    first: Option<Fault>,
) -> Result<(Seq<Edge>, Option<Fault>), NoMemory>
    ensures clean { IfOk result (λ r. r.1 ≡ None → first ≡ None) }
    ensures each { IfOk result (λ r. r.1 ≡ None → IsTableSound known.now.table → labels.now ≡ map label_of nodes.now → IsStrictlyIncreasing labels.now → Each (IsCanonical known.now nodes.now) (lined_edges edges.items) r.0) }
    ensures found { IfOk result (λ r. IsTableSound known.now.table → labels.now ≡ map label_of nodes.now → IsStrictlyIncreasing labels.now → r.1 ≡ earlier first (least (wrong_lits (rules_of known.now) (map marks_of nodes.now) (lined_lits edges.items)))) }
{
    let mut list = Seq::with_room(alloc, edges.len())?;
    let mut first = first;
    for (line, edge) in edges {
        let (edge, named) = canonical(alloc, known, nodes, labels, line, edge, first)?;
        first = named;
        list.add(edge)?;
    }
    Ok((list, first))
}

/// The graph when its lines have ended, whose number comes later, and the fault that is named.
pub fn ended(
    alloc: Global,
    known: &Known,
    part: Part,
    first: Option<Fault>,
) -> Result<(Graph, Option<Fault>), NoMemory>
    ensures clean { IfOk result (λ r. r.1 ≡ None → first ≡ None) }
    ensures ends { IfOk result (λ r. r.1 ≡ None → IsTableSound known.now.table → Ends known.now part r.0) }
    ensures found { IfOk result (λ r. IsTableSound known.now.table → r.1 ≡ earlier first (least (page_faults (rules_of known.now) (page_of part)))) }
{
    let Part {
        exported,
        fun,
        name,
        mut nodes,
        mut edges,
    } = part;
    sort_nodes(&mut nodes)?;
    let (nodes, first) = nodes_once(alloc, nodes, first)?;
    let labels = labels_of(alloc, nodes.as_slice())?;
    sort_edges(&mut edges)?;
    let (edges, first) = canonical_edges(
        alloc,
        known,
        nodes.as_slice(),
        labels.as_slice(),
        edges,
        first,
    )?;
    Ok((
        Graph {
            number: 0,
            exported,
            name,
            fun,
            nodes,
            edges,
        },
        first,
    ))
}
