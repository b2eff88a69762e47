//! The nodes and the boundary of one graph.
ghost use Rattle.std.specs.Prelude.{◌≡◌, ◌≢◌, ◌<◌, ◌⊎◌, ℕ, [], ◌∷◌, ◌++◌, List, map, replicate, slice_get, slice_set, slice_index_or, length, true, false, None, All, AllPairs, Contains, MatchBool, MatchOption, IfOk, OnOk};
ghost use Rattle.std.specs.List.Sorted.{IsStrictlyIncreasing};
ghost use Rattle.if1_graph.specs.declared.graph.Edge.{Edge};
ghost use Rattle.if1_graph.specs.declared.graph.Graph.TheViews.{out-Graph};
ghost use Rattle.if1_graph.specs.declared.graph.Node.{Node, out-Node};
ghost use Rattle.if1_graph.specs.declared.op.Simple.{Simple};
ghost use Rattle.if1_graph.specs.Normal.{Precedes};
ghost use Rattle.if1_graph.specs.Ops.{simple_at};
ghost use Rattle.if1_graph.specs.Ports.{compound_outputs};
ghost use Rattle.if1_graph.specs.Units.{label_of};
ghost use Rattle.if1_ports.specs.Outlines.{types_in};
ghost use Rattle.if1_ports.specs.Names.{callees_in};
ghost use Rattle.if1_ports.specs.Ends as spec;
ghost use Rattle.if1_ports.specs.Ends.{IsInOrder};

use crate::around::{Bounds, most_results, results_at};
use crate::compound::is_compound_filled;
use crate::fed::{Fed, fed_by};
use crate::into::edges_into;
use crate::names::Names;
use crate::outline::{fields_in, results_in};
use crate::rows::Outlines;
use crate::simple::{both, has_exactly, is_simple_filled};
use flow_value::{NoMemory, Numbers, Seq};
use if1_graph::{
    Compound, Edge, Gives, Graph, Node, Origin, Simple, compound_of, gives_of, simple_of,
};
use if1_order::labels_of;
use std::alloc::Global;

/// The numbers of outputs of the nodes of a graph.
#[derive(Drop)]
pub struct Outs {
    /// The labels of the nodes.
    pub labels: Numbers,
    /// The number of outputs of each, where it is known.
    pub counts: Seq<Option<u32>>,
}

impl Outs {
    /// The number of outputs of a node, if there is such a node.
    fn count(&self, label: u32) -> Option<Option<u32>>
        requires { IsStrictlyIncreasing self.now.labels }
        ensures { result ≡ spec.count_at self.now.labels self.now.counts label }
    {
        match self.labels.as_slice().binary_search(&label) {
            Ok(place) => count_in(self.counts.as_slice(), place),
            Err(_) => None,
        }
    }
}

fn count_in(counts: &[Option<u32>], place: usize) -> Option<Option<u32>>
    ensures { result ≡ slice_get counts.now place }
{
    match counts.get(place) {
        Some(count) => Some(*count),
        None => None,
    }
}

fn given_by(fed: Fed, gives: Gives) -> Option<u32>
    ensures { result ≡ spec.given_by fed gives }
{
    match gives {
        Gives::One(_) => Some(1),
        Gives::Pair(_, _) => Some(2),
        Gives::Results => results_in(fed.callee),
        Gives::AllFields => fields_in(fed.carries),
    }
}

fn compound_outputs(compound: Compound, graphs: &[Graph]) -> u32
    requires { All (λ g. AllPairs Precedes (out-Graph g).edges) graphs.now }
    ensures { result ≡ compound_outputs compound graphs.now }
{
    match compound {
        Compound::Select => most_results(graphs, 1),
        Compound::TagCase => most_results(graphs, 0),
        Compound::ForAll => results_at(graphs, 2),
        Compound::LoopA | Compound::LoopB => results_at(graphs, 3),
    }
}

/// How many outputs a node has, where types that it needs for this are known.
fn outputs_by(fed: Fed, node: &Node) -> Option<u32>
    requires { All (λ g. AllPairs Precedes (out-Graph g).edges) (out-Node node.now).subs }
    ensures { result ≡ spec.outputs_by fed node.now }
{
    match compound_of(node.op) {
        Some(compound) => Some(compound_outputs(compound, node.subs.as_slice())),
        None => simple_outputs(fed, simple_of(node.op)),
    }
}

fn simple_outputs(fed: Fed, op: Option<Simple>) -> Option<u32>
    ensures { (n : Node) → result ≡ spec.outputs_as fed n None op }
{
    match op {
        Some(op) => given_by(fed, gives_of(op)),
        None => None,
    }
}

/// What leads into a node of a graph.
fn fed_at(types: &Outlines, names: &Names, graph: &Graph, label: u32) -> Fed
    requires { AllPairs Precedes (out-Graph graph.now).edges }
    ensures { result ≡ spec.fed_at (types_in types.now) (callees_in names.now) graph.now label }
{
    fed_by(types, names, edges_into(graph.edges.as_slice(), label))
}

fn counts_of(
    alloc: Global,
    types: &Outlines,
    names: &Names,
    graph: &Graph,
) -> Result<Seq<Option<u32>>, NoMemory>
    requires order { AllPairs Precedes (out-Graph graph.now).edges }
    requires inside { All (λ n. All (λ g. AllPairs Precedes (out-Graph g).edges) (out-Node n).subs) (out-Graph graph.now).nodes }
    ensures { IfOk result (λ cs. cs ≡ map (spec.outputs_in (types_in types.now) (callees_in names.now) graph.now) (out-Graph graph.now).nodes) }
{
    let mut counts = Seq::with_room(alloc, graph.nodes.len())?;
    for node in graph.nodes.as_slice() {
        let fed = fed_at(types, names, graph, node.label);
        counts.add(outputs_by(fed, node))?;
    }
    Ok(counts)
}

fn no_lists(alloc: Global, places: usize) -> Result<Vec<Numbers>, NoMemory>
    ensures { IfOk result (λ v. v.items ≡ replicate places []) }
{
    let mut lists = Vec::with_capacity(alloc, places)?;
    for _ in 0..places {
        lists.push(Seq::new(alloc))?;
    }
    Ok(lists)
}

fn note(labels: &[u32], from: u32, ty: u32, lists: &mut Vec<Numbers>) -> Result<(), NoMemory>
    requires rising { IsStrictlyIncreasing labels.now }
    requires fit { length lists.old.items ≡ length labels.now }
    ensures { OnOk result (spec.IsNoted labels.now from ty lists.old.items lists.new.items) }
{
    match labels.binary_search(&from) {
        Ok(place) => add_at(lists, place, ty),
        Err(_) => Ok(()),
    }
}

fn add_at(lists: &mut Vec<Numbers>, place: usize, ty: u32) -> Result<(), NoMemory>
    requires { place < length lists.old.items }
    ensures { OnOk result (lists.new.items ≡ slice_set lists.old.items place (slice_index_or lists.old.items place [] ++ ty ∷ [])) }
{
    lists[place].add(ty)?;
    Ok(())
}

fn note_edge(labels: &[u32], edge: &Edge, lists: &mut Vec<Numbers>) -> Result<(), NoMemory>
    requires rising { IsStrictlyIncreasing labels.now }
    requires fit { length lists.old.items ≡ length labels.now }
    ensures { OnOk result ((es : List Edge) → lists.old.items ≡ map (spec.leaving es) labels.now → lists.new.items ≡ map (spec.leaving (es ++ edge.now ∷ [])) labels.now) }
{
    match &edge.from {
        Origin::Port(from, port) if *port == 1 => note(labels, *from, edge.ty, lists),
        _ => Ok(()),
    }
}

/// For each node, the types of the edges that leave its port 1.
fn leaving_by(alloc: Global, labels: &[u32], edges: &[Edge]) -> Result<Vec<Numbers>, NoMemory>
    requires { IsStrictlyIncreasing labels.now }
    ensures { IfOk result (λ v. v.items ≡ map (spec.leaving edges.now) labels.now) }
{
    let mut lists = no_lists(alloc, labels.len())?;
    for edge in edges {
        note_edge(labels, edge, &mut lists)?;
    }
    Ok(lists)
}

fn is_up_to(count: Option<u64>, port: u32) -> bool
    ensures { result ≡ spec.is_up_to count port }
{
    match count {
        Some(count) => u64::from(port) <= count,
        None => true,
    }
}

fn is_up_to_one(count: Option<Option<u32>>, port: u32) -> bool
    ensures { result ≡ spec.is_up_to_one count port }
{
    match count {
        Some(Some(count)) => port <= count,
        Some(None) => true,
        None => false,
    }
}

/// Whether an edge comes from a port that is there.
fn comes(outs: &Outs, inputs: Option<u64>, from: &Origin) -> bool
    requires { IsStrictlyIncreasing outs.now.labels }
    ensures { result ≡ spec.comes (spec.count_at outs.now.labels outs.now.counts) inputs from.now }
{
    match from {
        Origin::Lit(_) => true,
        Origin::Port(node, port) => comes_from(outs, inputs, *node, *port),
    }
}

fn comes_from(outs: &Outs, inputs: Option<u64>, node: u32, port: u32) -> bool
    requires { IsStrictlyIncreasing outs.now.labels }
    ensures { result ≡ spec.comes (spec.count_at outs.now.labels outs.now.counts) inputs (Origin.Port node port) }
{
    if node == 0 {
        is_up_to(inputs, port)
    } else {
        is_up_to_one(outs.count(node), port)
    }
}

fn all_come(outs: &Outs, inputs: Option<u64>, edges: &[Edge]) -> bool
    requires { IsStrictlyIncreasing outs.now.labels }
    ensures { result ≡ spec.all_come (spec.count_at outs.now.labels outs.now.counts) inputs edges.now }
{
    for edge in edges {
        if !comes(outs, inputs, &edge.from) {
            return false;
        }
    }
    true
}

fn is_simple_right(types: &Outlines, fed: Fed, leaving: &[u32], node: &Node) -> bool
    ensures { result ≡ spec.is_filled_as (types_in types.now) fed leaving.now node.now None (simple_at (out-Node node.now).op) }
{
    match simple_of(node.op) {
        Some(op) => is_simple_filled(types, fed, leaving, op, node.subs.len(), node.assoc.len()),
        None => false,
    }
}

fn is_node_filled(types: &Outlines, fed: Fed, leaving: &[u32], node: &Node) -> bool
    ensures { result ≡ spec.is_node_filled (types_in types.now) fed leaving.now node.now }
{
    match compound_of(node.op) {
        Some(compound) => is_compound_filled(fed, compound, node.subs.len(), node.assoc.as_slice()),
        None => is_simple_right(types, fed, leaving, node),
    }
}

/// The label of a node whose ports are wrong.
fn wrong_node(
    types: &Outlines,
    names: &Names,
    graph: &Graph,
    bounds: Bounds,
    outs: &Outs,
    lists: &[Numbers],
) -> Option<u32>
    requires order { IsInOrder graph.now }
    requires outs { spec.AreOuts (types_in types.now) (callees_in names.now) graph.now outs.now }
    requires lists { lists.now ≡ map (λ n. spec.leaving (out-Graph graph.now).edges (label_of n)) (out-Graph graph.now).nodes }
    ensures { MatchOption
        result
        (All (λ n. spec.is_right (types_in types.now) (callees_in names.now) bounds graph.now (label_of n) ≡ true) (out-Graph graph.now).nodes)
        (λ l. Contains (map label_of (out-Graph graph.now).nodes) l × (spec.is_right (types_in types.now) (callees_in names.now) bounds graph.now l ≡ false)) }
{
    let nodes = graph.nodes.as_slice();
    for place in 0..nodes.len() {
        if !is_node_right(
            types,
            names,
            graph,
            bounds,
            outs,
            &nodes[place],
            lists[place].as_slice(),
        ) {
            return Some(nodes[place].label);
        }
    }
    None
}

fn is_node_right(
    types: &Outlines,
    names: &Names,
    graph: &Graph,
    bounds: Bounds,
    outs: &Outs,
    node: &Node,
    leaving: &[u32],
) -> bool
    requires order { IsInOrder graph.now }
    requires outs { spec.AreOuts (types_in types.now) (callees_in names.now) graph.now outs.now }
    requires there { Contains (out-Graph graph.now).nodes node.now }
    requires leaving { leaving.now ≡ spec.leaving (out-Graph graph.now).edges (label_of node.now) }
    ensures { result ≡ spec.is_right (types_in types.now) (callees_in names.now) bounds graph.now (label_of node.now) }
{
    let edges = edges_into(graph.edges.as_slice(), node.label);
    let filled = is_node_filled(types, fed_by(types, names, edges), leaving, node);
    let sources = all_come(outs, bounds.inputs, edges);
    both(filled, sources)
}

/// Whether the ports of the boundary are right.
fn is_boundary_right(
    types: &Outlines,
    names: &Names,
    graph: &Graph,
    bounds: Bounds,
    outs: &Outs,
) -> bool
    requires order { IsInOrder graph.now }
    requires outs { spec.AreOuts (types_in types.now) (callees_in names.now) graph.now outs.now }
    ensures { result ≡ spec.is_right (types_in types.now) (callees_in names.now) bounds graph.now 0 }
{
    let edges = edges_into(graph.edges.as_slice(), 0);
    let filled = has_exactly(fed_by(types, names, edges), bounds.results as usize);
    let sources = all_come(outs, bounds.inputs, edges);
    both(filled, sources)
}

/// Whether a label is the boundary's or that of a node that is there.
fn is_end(labels: &[u32], label: u32) -> bool
    requires { IsStrictlyIncreasing labels.now }
    ensures { MatchBool result ((label ≡ 0) ⊎ Contains labels.now label) ((label ≢ 0) × (¬ Contains labels.now label)) }
{
    label == 0 || is_label(labels, label)
}

fn is_label(labels: &[u32], label: u32) -> bool
    requires { IsStrictlyIncreasing labels.now }
    ensures { MatchBool result (Contains labels.now label) (¬ Contains labels.now label) }
{
    match labels.binary_search(&label) {
        Ok(_) => true,
        Err(_) => false,
    }
}

/// The label of a node that is not there and into which an edge leads.
fn missing_node(labels: &[u32], edges: &[Edge]) -> Option<u32>
    requires { IsStrictlyIncreasing labels.now }
    ensures { MatchOption
        result
        (All (λ e. (e.node ≡ 0) ⊎ Contains labels.now e.node) edges.now)
        (λ l. Contains (map (λ e. e.node) edges.now) l × (l ≢ 0) × (¬ Contains labels.now l)) }
{
    for edge in edges {
        if !is_end(labels, edge.node) {
            return Some(edge.node);
        }
    }
    None
}

/// A node of a graph whose ports are wrong, or 0 for the boundary, if there is one: of the nodes that
/// are there the first, or else the boundary, or else one that is not there. Near linear in the nodes
/// and edges.
pub fn wrong_end(
    alloc: Global,
    types: &Outlines,
    names: &Names,
    graph: &Graph,
    bounds: Bounds,
) -> Result<Option<u32>, NoMemory>
    requires order { IsInOrder graph.now }
    requires inside { All (λ n. All (λ g. AllPairs Precedes (out-Graph g).edges) (out-Node n).subs) (out-Graph graph.now).nodes }
    ensures { IfOk result (spec.FindsWrong (types_in types.now) (callees_in names.now) bounds graph.now) }
{
    let labels = labels_of(alloc, graph.nodes.as_slice())?;
    let lists = leaving_by(alloc, labels.as_slice(), graph.edges.as_slice())?;
    let counts = counts_of(alloc, types, names, graph)?;
    let outs = Outs { labels, counts };
    let found = wrong_in(types, names, graph, bounds, &outs, lists.as_slice());
    Ok(found)
}

fn wrong_in(
    types: &Outlines,
    names: &Names,
    graph: &Graph,
    bounds: Bounds,
    outs: &Outs,
    lists: &[Numbers],
) -> Option<u32>
    requires order { IsInOrder graph.now }
    requires outs { spec.AreOuts (types_in types.now) (callees_in names.now) graph.now outs.now }
    requires lists { lists.now ≡ map (λ n. spec.leaving (out-Graph graph.now).edges (label_of n)) (out-Graph graph.now).nodes }
    ensures { spec.FindsWrong (types_in types.now) (callees_in names.now) bounds graph.now result }
{
    if let Some(label) = wrong_node(types, names, graph, bounds, outs, lists) {
        return Some(label);
    }
    if !is_boundary_right(types, names, graph, bounds, outs) {
        return Some(0);
    }
    missing_node(outs.labels.as_slice(), graph.edges.as_slice())
}
