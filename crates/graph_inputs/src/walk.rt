//! The inputs of all graphs of a unit.
ghost use Rattle.std.specs.Prelude.{◌≡◌, ◌≤◌, ◌++◌, ℕ, suc, map, unwrap_or, All, IfOk, OnOk};
ghost use Rattle.std.specs.List.{flat_map};
ghost use Rattle.if1_graph.specs.declared.graph.Graph.{Graph};
ghost use Rattle.if1_graph.specs.declared.graph.Graph.TheViews.{out-Graph};
ghost use Rattle.if1_graph.specs.declared.graph.Node.{Node, out-Node};
ghost use Rattle.if1_graph.specs.declared.graph.Unit1.{Unit1};
ghost use Rattle.if1_graph.specs.Ops.{compound_at};
ghost use Rattle.if1_graph.specs.Types.{sort_at};
ghost use Rattle.if1_graph.specs.Units.{Function, Home, label_of, level_below, levels, most_levels, places, places_of, width};
ghost use Rattle.if1_ports.specs.Inside.{AreInOrder, InOrderInside};
ghost use Rattle.if1_ports.specs.Outlines.{outline_of, types_in};
ghost use Rattle.graph_inputs.specs.Inputs.{inputs_of};
ghost use Rattle.graph_inputs.specs.Walks.{function_places, node_places, part_places};

use crate::inputs::{Inputs, inputs_by, width_of};
use flow_value::{NoMemory, Seq};
use if1_graph::{Compound, Graph, compound_of};
use if1_ports::{Outlines, arguments_in};
use if1_sound::Sound;
use std::alloc::Global;

#[cycle(walk)]
fn add_graph(graph: &Graph, own: Inputs, all: &mut Seq<Inputs>) -> Result<(), NoMemory>
    requires { InOrderInside graph.now }
    ensures { OnOk
        result
        ((u : Unit1) (home : Home) (more : ℕ) → own ≡ inputs_of u (record { graph = graph.now; home = home }) → levels graph.now ≤ more → all.new ≡ all.old ++ map (inputs_of u) (places_of more home graph.now)) }
{
    all.add(own)?;
    add_nodes(graph, all)?;
    Ok(())
}

#[cycle(walk)]
fn add_nodes(graph: &Graph, all: &mut Seq<Inputs>) -> Result<(), NoMemory>
    requires { InOrderInside graph.now }
    ensures { OnOk
        result
        ((u : Unit1) (more : ℕ) → levels graph.now ≤ suc more → all.new ≡ all.old ++ map (inputs_of u) (flat_map (node_places more graph.now) (out-Graph graph.now).nodes)) }
{
    for node in graph.nodes.as_slice() {
        let count = width_of(graph, node.label);
        let compound = compound_of(node.op);
        add_parts(compound, count, node.subs.as_slice(), all)?;
    }
    Ok(())
}

#[cycle(walk)]
fn add_parts(
    compound: Option<Compound>,
    count: u32,
    graphs: &[Graph],
    all: &mut Seq<Inputs>,
) -> Result<(), NoMemory>
    requires { AreInOrder graphs.now }
    ensures { OnOk
        result
        ((u : Unit1) (outer : Graph) (n : Node) (more : ℕ) → graphs.now ≡ (out-Node n).subs → compound ≡ compound_at (out-Node n).op → count ≡ width outer (label_of n) → level_below (map levels graphs.now) ≤ suc more → all.new ≡ all.old ++ map (inputs_of u) (part_places more outer n 0 graphs.now)) }
{
    for place in 0..graphs.len() {
        let own = inputs_by(compound, place, count, graphs)?;
        add_graph(&graphs[place], own, all)?;
    }
    Ok(())
}

fn or_none(many: Option<u32>) -> u32
    ensures { result ≡ unwrap_or many 0 }
{
    match many {
        Some(many) => many,
        None => 0,
    }
}

fn function_inputs(types: &Outlines, graph: &Graph) -> Inputs
    ensures { (u : Unit1) (k : ℕ) → ((label : ℕ) → types_in types.now label ≡ outline_of (sort_at u.types label)) → result ≡ inputs_of u (record { graph = graph.now; home = Function k }) }
{
    Inputs {
        all: or_none(arguments_in(types.outline(graph.fun))),
        plain: None,
    }
}

fn add_functions(types: &Outlines, graphs: &[Graph], all: &mut Seq<Inputs>) -> Result<(), NoMemory>
    requires { AreInOrder graphs.now }
    ensures { OnOk
        result
        ((u : Unit1) → ((label : ℕ) → types_in types.now label ≡ outline_of (sort_at u.types label)) → All (λ g. levels g ≤ most_levels) graphs.now → all.new ≡ all.old ++ map (inputs_of u) (function_places 0 graphs.now)) }
{
    for graph in graphs {
        let own = function_inputs(types, graph);
        add_graph(graph, own, all)?;
    }
    Ok(())
}

/// The inputs of each graph of a unit, in the order of their numbers, where this is what the labels of
/// its types stand for. Takes for each node the time of two searches among the edges.
pub fn unit_inputs(alloc: Global, unit: &Sound, types: &Outlines) -> Result<Seq<Inputs>, NoMemory>
    requires { (label : ℕ) → types_in types.now label ≡ outline_of (sort_at unit.now.types label) }
    ensures { IfOk result (λ xs. xs ≡ map (inputs_of unit.now) (places unit.now)) }
{
    let whole = unit.unit();
    let mut all = Seq::new(alloc);
    add_functions(types, whole.graphs.as_slice(), &mut all)?;
    Ok(all)
}
