//! Functions that stand in other units.
ghost use Rattle.std.specs.Prelude.{◌≡◌, ◌||◌, [], List, ℕ, bytes_eq, option_map, IfOk, OnOk};
ghost use Rattle.std.specs.List.{find, list_any};
ghost use Rattle.std.specs.Option.{option_copied};
ghost use Rattle.if1_graph.specs.declared.graph.Graph.TheViews.{out-Graph};
ghost use Rattle.unit_entry.specs.Entries.{first_lacking, is_imported, is_of};

use flow_value::{Name, NoMemory};
use if1_graph::{Graph, Unit1};
use indexmap::IndexSet;
use std::alloc::Global;
use std::marker::Model;

/// Names of functions, each once.
#[derive(Drop)]
struct Names {
    set: IndexSet<Vec<u8>>,
}

impl Model for Names {
    ghost use Rattle.std.specs.Prelude.{List, ℕ, map, vec_items};

    ghost Value = { List (List ℕ) };

    ghost view = { λ n. map vec_items n.set.keys };
}

impl Names {
    /// No names; takes no memory.
    fn new(alloc: Global) -> Names
        ensures { result ≡ [] }
    {
        Names {
            set: IndexSet::new(alloc),
        }
    }

    /// Adds a name.
    fn add(&mut self, name: Name) -> Result<(), NoMemory>
        ensures { OnOk result ((t : List ℕ) → list_any (λ n. bytes_eq n t) self.new ≡ (list_any (λ n. bytes_eq n t) self.old || bytes_eq name t)) }
    {
        self.set.insert(name.into_vec())?;
        Ok(())
    }

    /// Whether a text is one of the names.
    fn has(&self, text: &[u8]) -> bool
        ensures { result ≡ list_any (λ n. bytes_eq n text.now) self.now }
    {
        self.set.contains(text)
    }
}

/// The names of the functions that other units have.
fn imported(alloc: Global, imports: &[(u32, Name)]) -> Result<Names, NoMemory>
    ensures { IfOk result (λ names. (t : List ℕ) → list_any (λ n. bytes_eq n t) names ≡ is_imported imports.now t) }
{
    let mut names = Names::new(alloc);
    for import in imports {
        names.add(Name::from_slice(alloc, import.1.as_slice())?)?;
    }
    Ok(names)
}

fn is_lacking(graph: &Graph, names: &Names) -> bool
    ensures { result ≡ is_of names.now graph.now }
{
    !graph.exported && names.has(graph.name.as_slice())
}

/// The first function that is not exported and has one of these names.
fn first_of<'a>(graphs: &'a [Graph], names: &Names) -> Option<&'a Graph>
    ensures { option_copied result ≡ find (is_of names.now) graphs.now }
{
    for graph in graphs {
        if is_lacking(graph, names) {
            return Some(graph);
        }
    }
    None
}

/// The name of the first function that is not exported and has one of these names.
fn first_name(alloc: Global, graphs: &[Graph], names: &Names) -> Result<Option<Name>, NoMemory>
    ensures { IfOk result (λ name. name ≡ option_map (λ g. (out-Graph g).name) (find (is_of names.now) graphs.now)) }
{
    match first_of(graphs, names) {
        Some(graph) => {
            let name = Name::from_slice(alloc, graph.name.as_slice())?;
            Ok(Some(name))
        }
        None => Ok(None),
    }
}

/// The name of the first function that is not exported and stands in another unit.
#[tactic(auto, using(crate::proofs::NamesOf::lacks))]
pub fn first_lacking(alloc: Global, unit: &Unit1) -> Result<Option<Name>, NoMemory>
    ensures { IfOk result (λ name. name ≡ first_lacking unit.now) }
{
    let names = imported(alloc, unit.imports.as_slice())?;
    first_name(alloc, unit.graphs.as_slice(), &names)
}
