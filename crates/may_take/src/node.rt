//! What is known of a node.
ghost use Rattle.std.specs.Prelude.{◌≡◌, Some, All, AllPairs, IfOk};
ghost use Rattle.if1_graph.specs.declared.graph.Graph.TheViews.{out-Graph};
ghost use Rattle.if1_graph.specs.declared.graph.Node.{out-Node};
ghost use Rattle.if1_graph.specs.Normal.{Precedes};
ghost use Rattle.may_take.specs.Around.{insides};
ghost use Rattle.may_take.specs.Looked.{named_place, callee_in, is_call_of, simple_use, IsUse};

use crate::around::around_of;
use crate::functions::Functions;
use crate::looking::Looked;
use crate::uses::NodeUse;
use flow_value::NoMemory;
use if1_graph::{Edge, Graph, Node, Origin, Simple, compound_of, simple_of};
use if1_ports::edges_into;
use std::alloc::Global;

fn named(functions: &Functions, from: &Origin) -> Option<usize>
    ensures { result ≡ named_place functions.now from.now }
{
    match from {
        Origin::Lit(text) => functions.place(text.as_slice()),
        Origin::Port(_, _) => None,
    }
}

// the place of the function that the literal at port 1 names
fn callee(functions: &Functions, inputs: &[Edge]) -> Option<usize>
    ensures { result ≡ callee_in functions.now inputs.now }
{
    for edge in inputs {
        if edge.port == 1 {
            return named(functions, &edge.from);
        }
    }
    None
}

fn is_call(op: Simple) -> bool
    ensures { result ≡ is_call_of op }
{
    matches!(op, Simple::Call)
}

fn simple_by(functions: &Functions, inputs: &[Edge], op: Simple) -> NodeUse
    ensures { result ≡ simple_use functions.now inputs.now (Some op) }
{
    if is_call(op) {
        return NodeUse::Call(callee(functions, inputs));
    }
    NodeUse::Simple(op)
}

fn simple_use(functions: &Functions, inputs: &[Edge], op: Option<Simple>) -> NodeUse
    ensures { result ≡ simple_use functions.now inputs.now op }
{
    match op {
        Some(op) => simple_by(functions, inputs, op),
        None => NodeUse::Nothing,
    }
}

/// What is known of a node, by what its graphs do with their inputs.
pub fn node_use(
    alloc: Global,
    functions: &Functions,
    graph: &Graph,
    node: &Node,
    parts: &[Looked],
) -> Result<NodeUse, NoMemory>
    requires order { AllPairs Precedes (out-Graph graph.now).edges }
    requires inner { All (λ g. AllPairs Precedes (out-Graph g).edges) (out-Node node.now).subs }
    ensures { IfOk result (IsUse functions.now graph.now node.now (insides parts.now)) }
{
    let inputs = edges_into(graph.edges.as_slice(), node.label);
    match compound_of(node.op) {
        Some(compound) => {
            let around = around_of(alloc, compound, inputs, node.subs.as_slice(), parts)?;
            Ok(NodeUse::Compound(around))
        }
        None => Ok(simple_use(functions, inputs, simple_of(node.op))),
    }
}
