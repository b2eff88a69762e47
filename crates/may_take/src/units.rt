//! Which edges of a unit may take, and which come from owned ports.
ghost use Rattle.std.specs.Prelude.{◌≡◌, ◌++◌, ◌≤◌, ℕ, map, IsTrue, IfOk, OnOk};
ghost use Rattle.std.specs.List.Sorted.{IsStrictlyIncreasing};
ghost use Rattle.if1_graph.specs.Formed.{IsFormed};
ghost use Rattle.if1_graph.specs.Normal.{IsNormal};
ghost use Rattle.if1_graph.specs.Units.{Function, places, places_of, most_levels, levels};
ghost use Rattle.may_take.specs.Uses.{Tells, AreKnown};
ghost use Rattle.may_take.specs.Looked.{does_ask, flags_at, flags_by, owned_at, IsLaid, AreLaid, IsLooked};

use crate::flags::{Asked, Flags, flags_of};
use crate::functions::Functions;
use crate::looking::{Looked, look};
use crate::owned::Site;
use flow_value::NoMemory;
use if1_graph::{Graph, Unit1};
use std::alloc::Global;

/// What the functions of a unit do with their inputs, to ask of these edges whether they come from owned
/// ports.
pub fn functions_of(alloc: Global, unit: &Unit1, asked: Asked) -> Result<Functions, NoMemory>
    requires types { IsStrictlyIncreasing (map (λ e. e.label) unit.now.types) }
    requires laid { AreLaid unit.now.graphs }
    ensures known { IfOk result (Tells unit.now) }
    ensures asked { IfOk result (λ f. f.asked ≡ asked) }
{
    let none = Functions::none(alloc, Asked::Nothing);
    let mut functions = Functions::none(alloc, asked);
    for graph in unit.graphs.as_slice() {
        let Looked { inputs, .. } = look(alloc, unit, &none, graph)?;
        functions.add(alloc, graph.name.as_slice(), inputs)?;
    }
    Ok(functions)
}

// the flags of a function, and of the graphs inside it
fn add_function(
    alloc: Global,
    unit: &Unit1,
    functions: &Functions,
    graph: &Graph,
    looked: Looked,
    flags: &mut Vec<Flags>,
) -> Result<(), NoMemory>
    requires laid { IsLaid graph.now }
    requires looked { IsLooked unit.now functions.now graph.now looked }
    requires tells { Tells unit.now functions.now }
    requires asks { IsTrue (does_ask functions.now.asked) }
    requires flat { levels graph.now ≤ most_levels }
    ensures { OnOk
        result
        ((k : ℕ) → flags.new.items ≡ flags.old.items ++ map (flags_by functions.now.asked unit.now) (places_of most_levels (Function k) graph.now)) }
{
    let _ = unit;
    let Looked {
        inputs,
        consuming,
        inside,
    } = looked;
    let site = Site::Function(&inputs.given);
    let own = flags_of(alloc, functions.asked, site, graph, consuming.as_slice())?;
    let mut inside = inside;
    flags.push(own)?;
    flags.append(&mut inside)?;
    Ok(())
}

// of the edges that are asked for
fn flags_in(alloc: Global, unit: &Unit1, asked: Asked) -> Result<Vec<Flags>, NoMemory>
    requires asks { IsTrue (does_ask asked) }
    requires formed { IsFormed unit.now }
    requires normal { IsNormal unit.now }
    ensures { IfOk result (λ r. r.items ≡ map (flags_by asked unit.now) (places unit.now)) }
{
    let functions = functions_of(alloc, unit, asked)?;
    let mut flags = Vec::new(alloc);
    for graph in unit.graphs.as_slice() {
        let looked = look(alloc, unit, &functions, graph)?;
        add_function(alloc, unit, &functions, graph, looked, &mut flags)?;
    }
    Ok(flags)
}

/// Of each graph of a unit, in order, and each of its edges, whether it may take: it is a consuming edge
/// from an owned port. Near linear in the unit. Calls itself once for each level of compound nodes.
pub fn candidates(alloc: Global, unit: &Unit1) -> Result<Vec<Flags>, NoMemory>
    requires formed { IsFormed unit.now }
    requires normal { IsNormal unit.now }
    ensures { IfOk result (λ r. r.items ≡ map (flags_at unit.now) (places unit.now)) }
{
    let flags = flags_in(alloc, unit, Asked::Consuming)?;
    Ok(flags)
}

/// Of each graph of a unit, in order, and each of its edges, whether the port that it comes from is
/// owned; all others are lent, and literals have none. Near linear in the unit. Calls itself once for
/// each level of compound nodes.
pub fn owned_edges(alloc: Global, unit: &Unit1) -> Result<Vec<Flags>, NoMemory>
    requires formed { IsFormed unit.now }
    requires normal { IsNormal unit.now }
    ensures { IfOk result (λ r. r.items ≡ map (owned_at unit.now) (places unit.now)) }
{
    let flags = flags_in(alloc, unit, Asked::All)?;
    Ok(flags)
}
