//! The types of what leads into the nodes and the boundary of one graph.
ghost use Rattle.std.specs.Prelude.{◌≡◌, ◌≢◌, true, false, ℕ, Some, All, AllPairs, Contains, MatchOption, IfOk, map, option_map, is_some};
ghost use Rattle.if1_graph.specs.Normal.{Precedes};
ghost use Rattle.if1_graph.specs.Units.{label_of, node_at};
ghost use Rattle.if1_types.specs.Forms.{sort_form_at};
ghost use Rattle.if1_fits.specs.Views.{arguments_in};
ghost use Rattle.if1_graph.specs.declared.graph.Graph.TheViews.{out-Graph};
ghost use Rattle.if1_graph.specs.declared.graph.Node.{out-Node};
ghost use Rattle.if1_typing.specs.Tables.{table_of};
ghost use Rattle.if1_fits.specs.Views.{AreUp};
ghost use Rattle.if1_typing.specs.Fed.{AreOrdered, callee_in};
ghost use Rattle.if1_typing.specs.Given.{AreNoted, IsUngiven, LeadsUngiven};
ghost use Rattle.if1_typing.specs.Ends as spec;
ghost use Rattle.if1_typing.specs.Ends.{IsLaid};

use crate::agree::disagreeing;
use crate::fed::{callee_in, edges_of, fits_in};
use crate::given::{Given, given_of, gives, noted};
use crate::known::Known;
use crate::node::Doing;
use crate::site::Site;
use crate::sites::{input_fits, result_fits, tags_at};
use flow_value::NoMemory;
use if1_fits::value_of;
use if1_graph::{
    Compound, Edge, Graph, Node, Origin, Part, Simple, Use, Want, compound_of, node_of, operand_of,
    simple_of,
};
use if1_types::SortForm;
use std::alloc::Global;

fn doing_of(node: &Node) -> Doing
    ensures { result ≡ spec.doing_of node.now }
{
    Doing {
        compound: compound_of(node.op),
        simple: simple_of(node.op),
    }
}

fn operand_fits(
    known: &Known,
    edges: &[Edge],
    callee: u32,
    operand: Option<(Use, Want)>,
    number: u32,
) -> bool
    requires up { AreUp edges.now }
    requires callee { callee ≡ callee_in (table_of known.now) edges.now }
    ensures { result ≡ spec.operand_fits (table_of known.now) edges.now operand number }
{
    match operand {
        Some((_, want)) => fits_in(known, edges, callee, want, number),
        None => false,
    }
}

fn compound_fits(known: &Known, compound: Compound, port: u32, number: u32) -> bool
    ensures { result ≡ spec.compound_fits (table_of known.now) compound port number }
{
    match compound {
        Compound::TagCase if port == 1 => tags_at(known, number).is_some(),
        _ => value_of(&known.sorts, number).is_some(),
    }
}

fn simple_fits(
    known: &Known,
    edges: &[Edge],
    callee: u32,
    simple: Option<Simple>,
    port: u32,
    number: u32,
) -> bool
    requires up { AreUp edges.now }
    requires callee { callee ≡ callee_in (table_of known.now) edges.now }
    ensures { result ≡ spec.node_fits (table_of known.now) edges.now None simple port number }
{
    match simple {
        Some(op) => operand_fits(known, edges, callee, operand_of(op, port), number),
        None => false,
    }
}

/// Whether the type of a number is one that a port of a node wants.
fn node_fits(
    known: &Known,
    edges: &[Edge],
    callee: u32,
    doing: Doing,
    port: u32,
    number: u32,
) -> bool
    requires up { AreUp edges.now }
    requires callee { callee ≡ callee_in (table_of known.now) edges.now }
    ensures { result ≡ spec.node_fits (table_of known.now) edges.now doing.compound doing.simple port number }
{
    match doing.compound {
        Some(compound) => compound_fits(known, compound, port, number),
        None => simple_fits(known, edges, callee, doing.simple, port, number),
    }
}

/// Whether the type of a number is one that a port of a node, or of the boundary, wants.
fn is_wanted(
    known: &Known,
    site: Site,
    graphs: &[Graph],
    doing: Option<Doing>,
    edges: &[Edge],
    callee: u32,
    port: u32,
    number: u32,
) -> bool
    requires order { AreOrdered graphs.now }
    requires up { AreUp edges.now }
    requires callee { callee ≡ callee_in (table_of known.now) edges.now }
    ensures { result ≡ spec.is_wanted (table_of known.now) site graphs.now doing edges.now port number }
{
    match doing {
        Some(doing) => node_fits(known, edges, callee, doing, port, number),
        None => result_fits(known, site, graphs, port, number),
    }
}

fn port_gives(
    known: &Known,
    graph: &Graph,
    site: Site,
    inputs: &[Edge],
    parts: &[Graph],
    given: &Given,
    node: u32,
    port: u32,
    number: u32,
) -> bool
    requires laid { IsLaid graph.now }
    requires up { AreUp inputs.now }
    requires order { AreOrdered parts.now }
    requires noted { AreNoted (table_of known.now) graph.now given.now }
    ensures { result ≡ spec.is_given (table_of known.now) (record { site = site; inputs = inputs.now; parts = parts.now }) graph.now (Origin.Port node port) number }
{
    if node == 0 {
        input_fits(known, site, inputs, parts, port, number)
    } else {
        gives(known, graph, given, node, port, number)
    }
}

/// Whether the type of a number is that of what an edge comes from.
fn is_given(
    known: &Known,
    graph: &Graph,
    site: Site,
    inputs: &[Edge],
    parts: &[Graph],
    given: &Given,
    from: &Origin,
    number: u32,
) -> bool
    requires laid { IsLaid graph.now }
    requires up { AreUp inputs.now }
    requires order { AreOrdered parts.now }
    requires noted { AreNoted (table_of known.now) graph.now given.now }
    ensures { result ≡ spec.is_given (table_of known.now) (record { site = site; inputs = inputs.now; parts = parts.now }) graph.now from.now number }
{
    match from {
        Origin::Lit(_) => true,
        Origin::Port(node, port) => {
            port_gives(
                known, graph, site, inputs, parts, given, *node, *port, number,
            )
        }
    }
}

fn want_of(simple: Option<Simple>, port: u32) -> Option<Want>
    ensures { result ≡ spec.want_of simple port }
{
    let (_, want) = operand_of(simple?, port)?;
    Some(want)
}

fn is_name_for(known: &Known, want: Option<Want>, label: u32) -> bool
    ensures { result ≡ spec.is_name_for (table_of known.now) want label }
{
    match want {
        Some(Want::Reduction) => known.is_function(label),
        _ => false,
    }
}

/// Whether an edge is the name of a reduction that has a function type.
fn is_function_name(known: &Known, doing: Option<Doing>, edge: &Edge) -> bool
    ensures { result ≡ spec.is_function_name (table_of known.now) doing edge.now }
{
    match doing {
        Some(doing) => is_name_for(known, want_of(doing.simple, edge.port), edge.ty),
        None => false,
    }
}

/// Whether the type of a number is one that the port of an edge wants and its source gives.
fn is_sorted(
    known: &Known,
    graph: &Graph,
    site: Site,
    inputs: &[Edge],
    parts: &[Graph],
    given: &Given,
    doing: Option<Doing>,
    edges: &[Edge],
    callee: u32,
    edge: &Edge,
    number: u32,
) -> bool
    requires laid { IsLaid graph.now }
    requires up { AreUp inputs.now }
    requires order { AreOrdered parts.now }
    requires noted { AreNoted (table_of known.now) graph.now given.now }
    requires ports { AreUp edges.now }
    requires callee { callee ≡ callee_in (table_of known.now) edges.now }
    ensures { result ≡ spec.is_sorted (table_of known.now) (record { site = site; inputs = inputs.now; parts = parts.now }) graph.now doing edges.now edge.now number }
{
    if number == 0 {
        return false;
    }
    if !is_wanted(known, site, parts, doing, edges, callee, edge.port, number) {
        return false;
    }
    is_given(known, graph, site, inputs, parts, given, &edge.from, number)
}

/// Whether an edge has a type that its port wants and its source gives. These edges lead into its node,
/// whose literal names a function of the type `callee`.
fn is_typed(
    known: &Known,
    graph: &Graph,
    site: Site,
    inputs: &[Edge],
    parts: &[Graph],
    given: &Given,
    doing: Option<Doing>,
    edges: &[Edge],
    callee: u32,
    edge: &Edge,
) -> bool
    requires laid { IsLaid graph.now }
    requires up { AreUp inputs.now }
    requires order { AreOrdered parts.now }
    requires noted { AreNoted (table_of known.now) graph.now given.now }
    requires ports { AreUp edges.now }
    requires callee { callee ≡ callee_in (table_of known.now) edges.now }
    ensures { result ≡ spec.is_typed (table_of known.now) (record { site = site; inputs = inputs.now; parts = parts.now }) graph.now doing edges.now edge.now }
{
    if is_function_name(known, doing, edge) {
        return true;
    }
    let number = known.number(edge.ty);
    is_sorted(
        known, graph, site, inputs, parts, given, doing, edges, callee, edge, number,
    )
}

/// Whether all edges into a node, or into the boundary, have types that their ports want and their
/// sources give.
fn are_typed(
    known: &Known,
    graph: &Graph,
    site: Site,
    inputs: &[Edge],
    parts: &[Graph],
    given: &Given,
    doing: Option<Doing>,
    edges: &[Edge],
) -> bool
    requires laid { IsLaid graph.now }
    requires up { AreUp inputs.now }
    requires order { AreOrdered parts.now }
    requires noted { AreNoted (table_of known.now) graph.now given.now }
    requires ports { AreUp edges.now }
    ensures { result ≡ spec.are_typed (table_of known.now) (record { site = site; inputs = inputs.now; parts = parts.now }) graph.now doing edges.now edges.now }
{
    let callee = callee_in(known, edges);
    for edge in edges {
        if !is_typed(
            known, graph, site, inputs, parts, given, doing, edges, callee, edge,
        ) {
            return false;
        }
    }
    true
}

fn is_for_generator(site: Site) -> bool
    ensures { result ≡ spec.is_generator site }
{
    match site {
        Site::Part(inner) => inner.part == Part::Generator,
        _ => false,
    }
}

fn is_for_returns(site: Site) -> bool
    ensures { result ≡ spec.is_returns site }
{
    match site {
        Site::Part(inner) => inner.part == Part::Returns,
        _ => false,
    }
}

/// Whether a simple node may stand in a graph: multiples are made in generators and used up in returns.
fn stands_right(site: Site, simple: Option<Simple>) -> bool
    ensures { result ≡ spec.stands_right site simple }
{
    match simple {
        Some(Simple::RangeGenerate | Simple::AScatter) => is_for_generator(site),
        Some(Simple::AGather | Simple::FinalValue | Simple::Reduce(_)) => is_for_returns(site),
        _ => true,
    }
}

fn is_function_type(known: &Known, number: u32) -> bool
    ensures { result ≡ is_some (arguments_in (sort_form_at (table_of known.now).keys number)) }
{
    match known.sorts.sort(number) {
        SortForm::Function(_, _) => true,
        _ => false,
    }
}

/// Whether the type of a function is one of arguments and results.
fn is_header_typed(known: &Known, site: Site) -> bool
    ensures { result ≡ spec.is_header_typed (table_of known.now) site }
{
    match site {
        Site::Function(ty) => is_function_type(known, ty),
        _ => true,
    }
}

fn is_end_typed(known: &Known, site: Site, doing: Option<Doing>) -> bool
    ensures { result ≡ spec.is_end_typed (table_of known.now) site doing }
{
    match doing {
        Some(doing) => stands_right(site, doing.simple),
        None => is_header_typed(known, site),
    }
}

/// Whether all that leads into a node, or into the boundary for 0, has the right type.
fn is_right(
    known: &Known,
    graph: &Graph,
    site: Site,
    inputs: &[Edge],
    parts: &[Graph],
    given: &Given,
    label: u32,
    doing: Option<Doing>,
) -> bool
    requires laid { IsLaid graph.now }
    requires up { AreUp inputs.now }
    requires order { AreOrdered parts.now }
    requires noted { AreNoted (table_of known.now) graph.now given.now }
    ensures { result ≡ spec.is_right_as (table_of known.now) (record { site = site; inputs = inputs.now; parts = parts.now }) graph.now label doing }
{
    if !is_end_typed(known, site, doing) {
        return false;
    }
    let edges = edges_of(graph, label);
    are_typed(known, graph, site, inputs, parts, given, doing, edges)
}

/// The label of a node into which something leads with a wrong type.
fn wrong_node(
    known: &Known,
    graph: &Graph,
    site: Site,
    inputs: &[Edge],
    parts: &[Graph],
    given: &Given,
) -> Option<u32>
    requires laid { IsLaid graph.now }
    requires up { AreUp inputs.now }
    requires order { AreOrdered parts.now }
    requires noted { AreNoted (table_of known.now) graph.now given.now }
    ensures { MatchOption
        result
        (All (λ n. spec.is_right (table_of known.now) (record { site = site; inputs = inputs.now; parts = parts.now }) graph.now (label_of n) ≡ true) (out-Graph graph.now).nodes)
        (λ l. Contains (map label_of (out-Graph graph.now).nodes) l × (spec.is_right (table_of known.now) (record { site = site; inputs = inputs.now; parts = parts.now }) graph.now l ≡ false)) }
{
    for node in graph.nodes.as_slice() {
        if !is_right(
            known,
            graph,
            site,
            inputs,
            parts,
            given,
            node.label,
            Some(doing_of(node)),
        ) {
            return Some(node.label);
        }
    }
    None
}

fn doing_at(graph: &Graph, label: u32) -> Option<Doing>
    requires { IsLaid graph.now }
    ensures { result ≡ option_map spec.doing_of (node_at (out-Graph graph.now).nodes label) }
{
    match node_of(graph.nodes.as_slice(), label) {
        Some(node) => Some(doing_of(node)),
        None => None,
    }
}

/// Whether it is noted that the port from which an edge comes does not give its type.
fn is_ungiven(known: &Known, graph: &Graph, given: &Given, edge: &Edge) -> bool
    requires laid { IsLaid graph.now }
    requires noted { AreNoted (table_of known.now) graph.now given.now }
    ensures { result ≡ true → IsUngiven (table_of known.now) graph.now edge.now }
{
    if is_function_name(known, doing_at(graph, edge.node), edge) {
        return false;
    }
    match &edge.from {
        Origin::Port(node, port) if *node != 0 => {
            is_refuted(noted(given, *node, *port, known.number(edge.ty)))
        }
        _ => false,
    }
}

fn is_refuted(answer: Option<bool>) -> bool
    ensures { result ≡ true → answer ≡ Some false }
{
    match answer {
        Some(gives) => !gives,
        None => false,
    }
}

/// The label of a node into which an edge leads whose type its source does not give, as it is noted.
fn ungiven(known: &Known, graph: &Graph, given: &Given) -> Option<u32>
    requires laid { IsLaid graph.now }
    requires noted { AreNoted (table_of known.now) graph.now given.now }
    ensures { (l : ℕ) → result ≡ Some l → LeadsUngiven (table_of known.now) graph.now l }
{
    for edge in graph.edges.as_slice() {
        if is_ungiven(known, graph, given, edge) {
            return Some(edge.node);
        }
    }
    None
}

/// The label of a node into which an edge leads whose type its source does not give, or else this one.
fn or_ungiven(known: &Known, graph: &Graph, given: &Given, label: u32) -> u32
    requires laid { IsLaid graph.now }
    requires noted { AreNoted (table_of known.now) graph.now given.now }
    ensures { result ≢ label → LeadsUngiven (table_of known.now) graph.now result }
{
    match ungiven(known, graph, given) {
        Some(first) => first,
        None => label,
    }
}

/// A node of a graph into which something leads with a wrong type, or from whose source other edges
/// lead with other types, or 0 for the boundary, if there is one. A function whose own type is wrong is
/// named first, since what its inputs carry is not known then. Where edges from one port differ in type,
/// one that the port does not give is named then, or else the later one, so that each port is looked at
/// once. Near linear in the nodes and edges.
pub fn wrong_end(
    alloc: Global,
    known: &Known,
    graph: &Graph,
    site: Site,
    inputs: &[Edge],
    parts: &[Graph],
) -> Result<Option<u32>, NoMemory>
    requires laid { IsLaid graph.now }
    requires up { AreUp inputs.now }
    requires order { AreOrdered parts.now }
    ensures { IfOk result (spec.FindsWrong (table_of known.now) (record { site = site; inputs = inputs.now; parts = parts.now }) graph.now) }
{
    if !is_end_typed(known, site, None) {
        return Ok(Some(0));
    }
    let given = given_of(alloc, known, graph)?;
    if let Some(label) = disagreeing(known, graph, &given) {
        return Ok(Some(or_ungiven(known, graph, &given, label)));
    }
    if let Some(label) = wrong_node(known, graph, site, inputs, parts, &given) {
        return Ok(Some(label));
    }
    if !is_right(known, graph, site, inputs, parts, &given, 0, None) {
        return Ok(Some(0));
    }
    Ok(None)
}
