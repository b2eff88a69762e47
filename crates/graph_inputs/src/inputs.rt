//! The inputs of the graphs inside a node.
ghost use Rattle.std.specs.Prelude.{◌≡◌, ◌+◌, All, AllPairs, IfOk};
ghost use Rattle.if1_graph.specs.declared.graph.Graph.TheViews.{out-Graph};
ghost use Rattle.if1_graph.specs.declared.op.Part.TheVariants as part;
ghost use Rattle.if1_graph.specs.Normal.{Precedes};
ghost use Rattle.if1_graph.specs.Ports.{part_inputs, results_at};
ghost use Rattle.if1_graph.specs.Units.{width};
ghost use Rattle.unit_plan.specs.Plans.{plain_by};
ghost use Rattle.graph_inputs.specs.Inputs.{inputs_as, inputs_by, plain_for};

use flow_value::NoMemory;
use if1_graph::{Compound, Graph, Part, part_at};
use if1_ports::{edges_into, greatest_port};

/// The inputs of a graph.
#[derive(Clone, Copy)]
pub struct Inputs {
    /// How many there are.
    pub all: u32,
    /// In a returns, how many of them are no multiples of iterations or turns.
    pub plain: Option<u32>,
}

/// How many inputs a node has, or for 0 how many results the graph. Takes the time of two searches.
pub fn width_of(graph: &Graph, label: u32) -> u32
    requires { AllPairs Precedes (out-Graph graph.now).edges }
    ensures { result ≡ width graph.now label }
{
    greatest_port(edges_into(graph.edges.as_slice(), label))
}

/// How many results the graph at a place has, 0 where there is none.
fn results_at(graphs: &[Graph], place: usize) -> u32
    requires { All (λ g. AllPairs Precedes (out-Graph g).edges) graphs.now }
    ensures { result ≡ results_at graphs.now place }
{
    match graphs.get(place) {
        Some(graph) => width_of(graph, 0),
        None => 0,
    }
}

/// The sum; more than 32 bits count is want of memory.
fn plus(a: u32, b: u32) -> Result<u32, NoMemory>
    ensures { IfOk result (λ n. n ≡ a + b) }
{
    match a.checked_add(b) {
        Some(sum) => Ok(sum),
        None => Err(NoMemory),
    }
}

fn plain_in(compound: Compound, width: u32, graphs: &[Graph]) -> Result<u32, NoMemory>
    requires { All (λ g. AllPairs Precedes (out-Graph g).edges) graphs.now }
    ensures { IfOk result (λ n. n ≡ plain_by compound width graphs.now) }
{
    match compound {
        Compound::ForAll => plus(width, results_at(graphs, 0)),
        _ => Ok(width),
    }
}

fn returns_inputs(compound: Compound, width: u32, graphs: &[Graph]) -> Result<u32, NoMemory>
    requires { All (λ g. AllPairs Precedes (out-Graph g).edges) graphs.now }
    ensures { IfOk result (λ n. n ≡ part_inputs compound part.Returns width graphs.now) }
{
    let some = plus(width, results_at(graphs, 0))?;
    match compound {
        Compound::ForAll => plus(some, results_at(graphs, 1)),
        _ => Ok(some),
    }
}

fn part_inputs(
    compound: Compound,
    part: Part,
    width: u32,
    graphs: &[Graph],
) -> Result<u32, NoMemory>
    requires { All (λ g. AllPairs Precedes (out-Graph g).edges) graphs.now }
    ensures { IfOk result (λ n. n ≡ part_inputs compound part width graphs.now) }
{
    match part {
        Part::Test | Part::Body => plus(width, results_at(graphs, 0)),
        Part::Returns => returns_inputs(compound, width, graphs),
        _ => Ok(width),
    }
}

fn plain_for(
    compound: Compound,
    part: Part,
    width: u32,
    graphs: &[Graph],
) -> Result<Option<u32>, NoMemory>
    requires { All (λ g. AllPairs Precedes (out-Graph g).edges) graphs.now }
    ensures { IfOk result (λ o. o ≡ plain_for compound part width graphs.now) }
{
    match part {
        Part::Returns => Ok(Some(plain_in(compound, width, graphs)?)),
        _ => Ok(None),
    }
}

fn inputs_as(
    compound: Compound,
    part: Part,
    width: u32,
    graphs: &[Graph],
) -> Result<Inputs, NoMemory>
    requires { All (λ g. AllPairs Precedes (out-Graph g).edges) graphs.now }
    ensures { IfOk result (λ x. x ≡ inputs_as compound part width graphs.now) }
{
    let all = part_inputs(compound, part, width, graphs)?;
    let plain = plain_for(compound, part, width, graphs)?;
    Ok(Inputs { all, plain })
}

/// The inputs of the graph at a place among those of a node with so many inputs; none are known in a
/// simple node.
pub fn inputs_by(
    compound: Option<Compound>,
    place: usize,
    width: u32,
    graphs: &[Graph],
) -> Result<Inputs, NoMemory>
    requires { All (λ g. AllPairs Precedes (out-Graph g).edges) graphs.now }
    ensures { IfOk result (λ x. x ≡ inputs_by compound place width graphs.now) }
{
    let Some(compound) = compound else {
        return Ok(Inputs {
            all: 0,
            plain: None,
        });
    };
    match part_at(compound, place) {
        Some(part) => inputs_as(compound, part, width, graphs),
        None => Ok(Inputs {
            all: 0,
            plain: None,
        }),
    }
}
