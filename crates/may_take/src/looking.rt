//! What graphs do with their inputs, and which edges inside them come from owned ports.
ghost use Rattle.std.specs.Prelude.{◌≡◌, ◌∷◌, ◌++◌, [], ◌≤◌, ◌&&◌, ℕ, suc, Bool, List, length, map, IsTrue, IfOk, OnOk};
ghost use Rattle.std.specs.List.Sorted.{IsStrictlyIncreasing};
ghost use Rattle.if1_graph.specs.declared.graph.Graph.TheViews.{out-Graph};
ghost use Rattle.if1_graph.specs.declared.graph.Node.{Node, out-Node};
ghost use Rattle.if1_graph.specs.declared.graph.Edge.{Edge};
ghost use Rattle.if1_marks.specs.Owned.{users};
ghost use Rattle.may_take.specs.Around.{insides};
ghost use Rattle.may_take.specs.Owned.{stand_of, is_owned_at};
ghost use Rattle.may_take.specs.Uses.{Tells};
ghost use Rattle.may_take.specs.Looked.{does_ask, flags_by, is_asked, node_places, node_levels, stand_in, IsLaid, IsLaidInside, AreLaid, IsUse, IsLooked, AreLooked, AreNodesLooked};

use crate::consuming::consuming_by;
use crate::flags::{Asked, Flags, does_ask, flags_of};
use crate::functions::Functions;
use crate::inputs::{Inputs, inputs_by};
use crate::node::node_use;
use crate::owned::Site;
use crate::uses::NodeUse;
use flow_value::NoMemory;
use if1_graph::{Graph, Node, Unit1};
use if1_order::labels_of;
use std::alloc::Global;

/// What is known of a graph once it was looked at.
#[derive(Drop)]
pub struct Looked {
    /// What it does with its inputs.
    pub inputs: Inputs,
    /// Which of its edges consume.
    pub consuming: Flags,
    /// Which of the edges that are asked for come from owned ports, for each graph inside its nodes; no
    /// rows if none are.
    pub inside: Vec<Flags>,
}

/// What is known of nodes of a graph.
#[derive(Drop)]
pub struct LookedNodes {
    /// What each of them consumes.
    pub uses: Vec<NodeUse>,
    /// Which of the edges that are asked for come from owned ports, for each graph inside them; no rows
    /// if none are.
    pub inside: Vec<Flags>,
}

/// What is known of a graph, by what is known of its nodes.
pub fn looked_by(
    alloc: Global,
    unit: &Unit1,
    functions: &Functions,
    graph: &Graph,
    nodes: LookedNodes,
) -> Result<Looked, NoMemory>
    requires types { IsStrictlyIncreasing (map (λ e. e.label) unit.now.types) }
    requires laid { IsLaid graph.now }
    requires nodes { AreNodesLooked unit.now functions.now graph.now (out-Graph graph.now).nodes nodes }
    ensures { IfOk result (IsLooked unit.now functions.now graph.now) }
{
    let LookedNodes { uses, inside } = nodes;
    let types = unit.types.as_slice();
    let edges = graph.edges.as_slice();
    let labels = labels_of(alloc, graph.nodes.as_slice())?;
    let inputs = inputs_by(alloc, types, labels.as_slice(), uses.as_slice(), edges)?;
    let consuming = consuming_by(
        alloc,
        types,
        functions.inputs.as_slice(),
        labels.as_slice(),
        uses.as_slice(),
        edges,
    )?;
    Ok(Looked {
        inputs,
        consuming,
        inside,
    })
}

fn site_of(how: &NodeUse, place: usize) -> Site<'_>
    ensures { stand_of result ≡ stand_in how.now place }
{
    match how {
        NodeUse::Compound(around) => Site::Part(around, place),
        _ => Site::Nothing,
    }
}

// the flags of a part, and of the graphs inside it
fn add_part(
    alloc: Global,
    asked: Asked,
    site: Site,
    graph: &Graph,
    part: Looked,
    inside: &mut Vec<Flags>,
) -> Result<(), NoMemory>
    requires laid { IsLaid graph.now }
    requires fit { length part.consuming ≡ length (out-Graph graph.now).edges }
    ensures { OnOk
        result
        ((c : Edge → Bool) → part.consuming ≡ map c (out-Graph graph.now).edges → inside.new.items ≡ inside.old.items ++ (map (λ e. is_asked asked (c e) && is_owned_at (stand_of site.entry) graph.now (users graph.now e.from) e.from) (out-Graph graph.now).edges ∷ part.inside.items)) }
{
    let Looked {
        inputs: _,
        consuming,
        inside: deeper,
    } = part;
    let flags = flags_of(alloc, asked, site, graph, consuming.as_slice())?;
    let mut deeper = deeper;
    inside.push(flags)?;
    inside.append(&mut deeper)?;
    Ok(())
}

// the flags of the graphs of a node, each with those inside it
fn add_parts(
    alloc: Global,
    unit: &Unit1,
    functions: &Functions,
    graph: &Graph,
    node: &Node,
    how: &NodeUse,
    parts: Vec<Looked>,
    inside: &mut Vec<Flags>,
) -> Result<(), NoMemory>
    requires laid { AreLaid (out-Node node.now).subs }
    requires looked { AreLooked unit.now functions.now (out-Node node.now).subs parts.items }
    requires how { IsUse functions.now graph.now node.now (insides parts.items) how.now }
    ensures { OnOk
        result
        (Tells unit.now functions.now → IsTrue (does_ask functions.now.asked) → (more : ℕ) → node_levels node.now ≤ suc more → inside.new.items ≡ inside.old.items ++ map (flags_by functions.now.asked unit.now) (node_places more graph.now node.now)) }
{
    let _ = unit;
    let _ = graph;
    if !does_ask(functions.asked) {
        return Ok(());
    }
    let mut rest = parts.into_iter();
    for (place, part_graph) in node.subs.as_slice().iter().enumerate() {
        let Some(part) = rest.next() else {
            unreachable!()
        };
        let site = site_of(how, place);
        add_part(alloc, functions.asked, site, part_graph, part, inside)?;
    }
    Ok(())
}

/// Adds what is known of the next node, by what is known of its graphs.
pub fn add_node(
    alloc: Global,
    unit: &Unit1,
    functions: &Functions,
    graph: &Graph,
    node: &Node,
    parts: Vec<Looked>,
    nodes: &mut LookedNodes,
) -> Result<(), NoMemory>
    requires order { IsLaid graph.now }
    requires laid { AreLaid (out-Node node.now).subs }
    requires looked { AreLooked unit.now functions.now (out-Node node.now).subs parts.items }
    ensures { OnOk
        result
        ((ns : List Node) → AreNodesLooked unit.now functions.now graph.now ns nodes.old → AreNodesLooked unit.now functions.now graph.now (ns ++ node.now ∷ []) nodes.new) }
{
    let how = node_use(alloc, functions, graph, node, parts.as_slice())?;
    add_parts(
        alloc,
        unit,
        functions,
        graph,
        node,
        &how,
        parts,
        &mut nodes.inside,
    )?;
    nodes.uses.push(how)?;
    Ok(())
}

/// What is known of no nodes.
pub fn no_nodes(alloc: Global, unit: &Unit1, functions: &Functions, graph: &Graph) -> LookedNodes
    ensures { AreNodesLooked unit.now functions.now graph.now [] result }
{
    let _ = unit;
    let _ = functions;
    let _ = graph;
    LookedNodes {
        uses: Vec::new(alloc),
        inside: Vec::new(alloc),
    }
}

/// What a graph does with its inputs, which of its edges consume, and which of the edges inside it that
/// are asked for come from owned ports, by what the functions of the unit are given. Near linear in the graph. Calls itself once for each level
/// of compound nodes.
#[cycle(look)]
pub fn look(
    alloc: Global,
    unit: &Unit1,
    functions: &Functions,
    graph: &Graph,
) -> Result<Looked, NoMemory>
    requires types { IsStrictlyIncreasing (map (λ e. e.label) unit.now.types) }
    requires laid { IsLaidInside graph.now }
    ensures { IfOk result (IsLooked unit.now functions.now graph.now) }
{
    let nodes = look_nodes(alloc, unit, functions, graph)?;
    looked_by(alloc, unit, functions, graph, nodes)
}

#[cycle(look)]
fn look_nodes(
    alloc: Global,
    unit: &Unit1,
    functions: &Functions,
    graph: &Graph,
) -> Result<LookedNodes, NoMemory>
    requires types { IsStrictlyIncreasing (map (λ e. e.label) unit.now.types) }
    requires laid { IsLaidInside graph.now }
    ensures { IfOk result (AreNodesLooked unit.now functions.now graph.now (out-Graph graph.now).nodes) }
{
    let mut nodes = no_nodes(alloc, unit, functions, graph);
    for node in graph.nodes.as_slice() {
        let parts = look_parts(alloc, unit, functions, node.subs.as_slice())?;
        add_node(alloc, unit, functions, graph, node, parts, &mut nodes)?;
    }
    Ok(nodes)
}

#[cycle(look)]
fn look_parts(
    alloc: Global,
    unit: &Unit1,
    functions: &Functions,
    graphs: &[Graph],
) -> Result<Vec<Looked>, NoMemory>
    requires types { IsStrictlyIncreasing (map (λ e. e.label) unit.now.types) }
    requires laid { AreLaid graphs.now }
    ensures { IfOk result (λ r. AreLooked unit.now functions.now graphs.now r.items) }
{
    let mut parts = Vec::new(alloc);
    for graph in graphs {
        parts.push(look(alloc, unit, functions, graph)?)?;
    }
    Ok(parts)
}
