//! What functions do with their inputs, by name.
ghost use Rattle.std.specs.Prelude.{◌≡◌, ◌∷◌, ◌++◌, [], ℕ, List, OnOk, bytes_eq, Some, None, if◌then◌else◌};
ghost use Rattle.indexmap.specs.IndexMap.{get_by};
ghost use Rattle.if1_graph.specs.Tables.{or_else};
ghost use Rattle.if1_graph.specs.declared.graph.Graph.{Graph};
ghost use Rattle.if1_graph.specs.declared.graph.Graph.TheViews.{out-Graph};
ghost use Rattle.if1_graph.specs.declared.graph.Unit1.{Unit1};
ghost use Rattle.if1_marks.specs.Given.{inside};
ghost use Rattle.may_take.specs.Ports.{inside_by};
ghost use Rattle.may_take.specs.Uses.{place_in, AreKnown};

use crate::flags::Asked;
use crate::inputs::Inputs;
use flow_value::NoMemory;
use indexmap::IndexMap;
use std::alloc::Global;

/// What a look at the graphs of a unit goes by: what its functions do with their inputs, with the first
/// one of each name, and which edges are asked for.
#[derive(Drop)]
pub struct Functions {
    /// Of which edges it is asked whether they come from owned ports.
    pub asked: Asked,
    /// The place of a function by its name.
    pub names: IndexMap<Vec<u8>, usize>,
    /// What each function does with its inputs, in order.
    pub inputs: Vec<Inputs>,
}

fn put(
    alloc: Global,
    names: &mut IndexMap<Vec<u8>, usize>,
    name: &[u8],
    place: usize,
) -> Result<(), NoMemory>
    ensures { OnOk result ((text : List ℕ) → get_by (λ k. bytes_eq text k.items) names.new ≡ or_else (get_by (λ k. bytes_eq text k.items) names.old) (if bytes_eq name.now text then Some place else None)) }
{
    if names.contains_key(name) {
        return Ok(());
    }
    names.insert(Vec::from_slice(alloc, name)?, place)?;
    Ok(())
}

impl Functions {
    /// No functions.
    pub fn none(alloc: Global, asked: Asked) -> Functions
        ensures known { (u : Unit1) → AreKnown u [] result }
        ensures asked { result.asked ≡ asked }
    {
        Functions {
            asked,
            names: IndexMap::new(alloc),
            inputs: Vec::new(alloc),
        }
    }

    /// Adds what the next function does with its inputs.
    pub fn add(&mut self, alloc: Global, name: &[u8], inputs: Inputs) -> Result<(), NoMemory>
        ensures asked { OnOk result (self.new.asked ≡ self.old.asked) }
        ensures known { OnOk
            result
            ((u : Unit1) (gs : List Graph) (g : Graph) → (out-Graph g).name ≡ name.now → inside_by inputs ≡ inside u.types g → AreKnown u gs self.old → AreKnown u (gs ++ g ∷ []) self.new) }
    {
        let place = self.inputs.as_slice().len();
        put(alloc, &mut self.names, name, place)?;
        self.inputs.push(inputs)?;
        Ok(())
    }

    /// The place of the first function of a name.
    pub fn place(&self, name: &[u8]) -> Option<usize>
        ensures { result ≡ place_in self.now name.now }
    {
        match self.names.get(name) {
            Some(place) => Some(*place),
            None => None,
        }
    }
}
