//! Graphs, with those inside of them.
ghost use Rattle.std.specs.Prelude.{◌≡◌, ◌≤◌, ◌+◌, ◌∷◌, [], ◌++◌, suc, nat_eq, length, slice_get, Some, All, IfOk, OnOk};
ghost use Rattle.std.specs.List.{list_any};
ghost use Rattle.if1_graph.specs.declared.graph.Graph.TheViews.{out-Graph};
ghost use Rattle.lowering.specs.Graphs.{closed};
ghost use Rattle.lowering.specs.TooMany.{most_graphs};
ghost use Rattle.lowered_units.specs.Listed.{listing};
ghost use Rattle.lowered_units.specs.Units.{listed_nodes, inner_graph, inner_graphs, function_graph};
ghost use Rattle.unit_build.specs.Nesting.{listings, head, parts, Hold, IsNesting, IsNext};
ghost use Rattle.unit_build.specs.Readiness.{IsReadyGraph, IsReadyFunction};

use crate::maker::Maker;
use flow_value::{Name, NoMemory, Seq};
use if1_graph::Graph;
use lowered_data::{Keys, close_graph};
use lowering::{Lowered, LoweredGraph};
use std::collections::VecDeque;
use typed_tree::Function;

impl Maker<'_> {
    /// A graph inside of a node, which has the first of these graphs inside.
    fn inner_graph(
        &self,
        number: u32,
        graph: LoweredGraph,
        made: &mut VecDeque<Graph>,
    ) -> Result<Graph, NoMemory>
        requires ready { IsReadyGraph self.now.program.now graph }
        requires hold { Hold (listed_nodes 1 graph.nodes) made.old.items }
        ensures head { IfOk result (λ g. head g ≡ inner_graph self.now.program.now number graph) }
        ensures inside { IfOk result (λ g. parts (out-Graph g).nodes ++ made.new.items ≡ made.old.items) }
    {
        let body = self.body_of(graph, made)?;
        Ok(Graph {
            number,
            exported: false,
            name: Name::new(self.alloc),
            fun: 0,
            nodes: body.nodes,
            edges: body.edges,
        })
    }

    /// Makes the graph that stands before these.
    fn put_graph(
        &self,
        number: u32,
        graph: LoweredGraph,
        made: &mut VecDeque<Graph>,
    ) -> Result<(), NoMemory>
        requires ready { IsReadyGraph self.now.program.now graph }
        requires next { IsNext self.now.program.now number graph made.old.items }
        ensures { OnOk result (listings made.new.items ≡ inner_graph self.now.program.now number graph ∷ listings made.old.items) }
    {
        let graph = self.inner_graph(number, graph, made)?;
        made.push_front(graph)?;
        Ok(())
    }

    /// The graphs inside of a function, the first of which has this number: those that are not inside of
    /// another, each with its own. They are made from the last to the first.
    fn nested(&self, first: u32, graphs: Seq<LoweredGraph>) -> Result<VecDeque<Graph>, NoMemory>
        requires few { first + length graphs ≤ suc most_graphs }
        requires ready { All (IsReadyGraph self.now.program.now) graphs }
        requires nesting { IsNesting (inner_graphs self.now.program.now first graphs) }
        ensures { IfOk result (λ made. listings made.items ≡ inner_graphs self.now.program.now first graphs) }
    {
        let mut graphs = graphs;
        let mut made = VecDeque::new(self.alloc);
        while let Some(graph) = graphs.pop() {
            self.put_graph(first + graphs.len() as u32, graph, &mut made)?;
        }
        Ok(made)
    }

    /// The graph of the function of a place, with those inside.
    pub fn function_graph(
        &self,
        place: u32,
        function: &Function,
        exported: bool,
        number: u32,
        lowered: Lowered,
    ) -> Result<Graph, NoMemory>
        requires there { slice_get self.now.program.now.functions place ≡ Some function.now }
        requires exported { exported ≡ list_any (nat_eq place) self.now.program.now.defines }
        requires ready { IsReadyFunction self.now.program.now number lowered }
        ensures { IfOk result (λ g. listing g ≡ function_graph self.now.program.now place function.now number (closed [] 0 0 lowered) ∷ inner_graphs self.now.program.now (suc number) lowered.graphs) }
    {
        let Lowered {
            nodes,
            graphs,
            lines: _,
            values,
        } = lowered;
        let mut made = self.nested(number + 1, graphs)?;
        let graph = LoweredGraph {
            nodes,
            results: values,
        };
        let graph = close_graph(graph, &Keys::new(self.alloc), 0, 0)?;
        let body = self.body_of(graph, &mut made)?;
        Ok(Graph {
            number,
            exported,
            name: self.name_of(function)?,
            fun: self.header_label(place, function),
            nodes: body.nodes,
            edges: body.edges,
        })
    }
}
