//! Sets of outputs of nodes.
ghost use Rattle.std.specs.Prelude.{◌≡◌, ◌&&◌, ◌||◌, ◌==◌, [], ℕ, map, IfOk, OnOk};
ghost use Rattle.std.specs.List.Sorted.{IsStrictlyIncreasing};
ghost use Rattle.if1_graph.specs.Ports.{leaves};
ghost use Rattle.output_marks.specs.Outputs.{AreAggregates, has_output};

use flow_value::NoMemory;
use if1_graph::{Graph, Origin, TypeEntry};
use indexmap::IndexSet;
use std::alloc::Global;
use std::marker::Model;
use storage_flags::is_aggregate;

/// Outputs by node and port, each once.
#[derive(Drop)]
pub struct OutputSet {
    set: IndexSet<(u32, u32)>,
}

impl Model for OutputSet {
    ghost use Rattle.std.specs.Prelude.{List, ℕ};

    ghost Value = { List (ℕ × ℕ) };

    ghost view = { λ n. n.set.keys };
}

impl OutputSet {
    /// No outputs; takes no memory.
    pub fn new(alloc: Global) -> OutputSet
        ensures { result ≡ [] }
    {
        OutputSet {
            set: IndexSet::new(alloc),
        }
    }

    /// Whether an output is one of them.
    pub fn has(&self, node: u32, port: u32) -> bool
        ensures { result ≡ has_output self.now node port }
    {
        self.set.contains(&(node, port))
    }

    /// Adds an output.
    pub fn add(&mut self, node: u32, port: u32) -> Result<(), NoMemory>
        ensures { OnOk result ((l p : ℕ) → has_output self.new l p ≡ has_output self.old l p || ((node == l) && (port == p))) }
    {
        let _ = self.set.insert_full((node, port))?;
        Ok(())
    }
}

// the output from which an edge comes is added, if the flag is set
fn add_output(outputs: &mut OutputSet, from: &Origin, flag: bool) -> Result<(), NoMemory>
    ensures { OnOk result ((l p : ℕ) → has_output outputs.new l p ≡ has_output outputs.old l p || (leaves l p from.now && flag)) }
{
    match from {
        Origin::Port(node, port) if flag => outputs.add(*node, *port),
        _ => Ok(()),
    }
}

/// The outputs of the nodes of a graph from which an edge of an aggregate leaves; node 0 stands for the
/// graph's inputs. Takes for each edge the time of two searches among the types.
pub fn aggregate_outputs(
    alloc: Global,
    types: &[TypeEntry],
    graph: &Graph,
) -> Result<OutputSet, NoMemory>
    requires { IsStrictlyIncreasing (map (λ e. e.label) types.now) }
    ensures { IfOk result (AreAggregates types.now graph.now) }
{
    let mut outputs = OutputSet::new(alloc);
    for edge in graph.edges.as_slice() {
        add_output(&mut outputs, &edge.from, is_aggregate(types, edge.ty))?;
    }
    Ok(outputs)
}
