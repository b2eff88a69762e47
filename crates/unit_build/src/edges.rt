//! Edges and literals into the ports of nodes (IF1 manual M-170, edges).
ghost use Rattle.std.specs.Prelude.{◌≡◌, ◌≤◌, ◌+◌, ◌^◌, [], ◌++◌, length, get_or, slice_get, Some, All, Contains, IfOk, OnOk};
ghost use Rattle.lowering.specs.Types.{label_of, header_label};
ghost use Rattle.lowered_units.specs.Small.{IsSmallFeed};
ghost use Rattle.lowered_units.specs.Units.{origin_of, edge, edge_if, name_of, called_name, edges_into, node_edges};
ghost use Rattle.unit_build.specs.Labels.{unit_lines};
ghost use Rattle.unit_build.specs.Readiness.{IsReadyWire, AreReadyWires, IsLinedCall};

use crate::literals::constant_text;
use crate::maker::Maker;
use flow_value::{Name, NoMemory, Seq, item_at};
use if1_graph::{Edge, EdgeList, Origin};
use lowering::{Action, Carried, Feed, Wire};
use std::alloc::Global;
use typed_tree::Function;

/// Where an edge comes from, where the port is filled.
fn origin_of(alloc: Global, feed: Feed) -> Result<Option<Origin>, NoMemory>
    requires { IsSmallFeed feed }
    ensures { IfOk result (λ origin. origin ≡ origin_of feed) }
{
    match feed {
        Feed::Literal(constant) => Ok(Some(Origin::Lit(constant_text(alloc, &constant)?))),
        Feed::Named(text) => Ok(Some(Origin::Lit(text))),
        Feed::Absent => Ok(None),
        Feed::Port(_, node, port) => Ok(Some(Origin::Port(node as u32, port as u32))),
    }
}

/// An edge, which has no name and takes nothing.
fn edge(alloc: Global, node: u32, port: u32, ty: u32, from: Origin) -> Edge
    ensures { result ≡ edge node port ty from }
{
    Edge {
        from,
        node,
        port,
        ty,
        takes: false,
        name: Name::new(alloc),
    }
}

impl Maker<'_> {
    /// The label of what an edge carries.
    fn label(&self, carried: Carried) -> u32
        requires { Contains (unit_lines self.now.program.now) carried }
        ensures { result ≡ label_of self.now.program.now carried }
    {
        self.labels.label(carried)
    }

    /// The label of the type of the function of a place.
    pub fn header_label(&self, place: u32, function: &Function) -> u32
        requires { slice_get self.now.program.now.functions place ≡ Some function.now }
        ensures { result ≡ header_label self.now.program.now function.now }
    {
        self.labels.label(Carried::Callee(place))
    }

    /// The name of a function, by its number.
    fn called_name(&self, function: u32) -> Result<Name, NoMemory>
        ensures { IfOk result (λ name. name ≡ called_name self.now.program.now (slice_get self.now.program.now.functions function)) }
    {
        match item_at(self.program.functions.as_slice(), function as usize) {
            Some(function) => self.name_of(function),
            None => Ok(Name::new(self.alloc)),
        }
    }

    /// The name of a function.
    pub fn name_of(&self, function: &Function) -> Result<Name, NoMemory>
        ensures { IfOk result (λ name. name ≡ name_of self.now.program.now function.now) }
    {
        match item_at(self.program.names.as_slice(), function.name as usize) {
            Some(name) => Name::from_slice(self.alloc, name.as_slice()),
            None => Ok(Name::new(self.alloc)),
        }
    }

    /// Adds the edge into a port, where it is filled.
    fn put_edge(&self, node: u32, port: u32, wire: Wire, to: &mut EdgeList) -> Result<(), NoMemory>
        requires { IsReadyWire self.now.program.now wire }
        ensures { OnOk result (to.new ≡ to.old ++ edge_if node port (label_of self.now.program.now wire.ty) (origin_of wire.feed)) }
    {
        let Wire { feed, ty } = wire;
        match origin_of(self.alloc, feed)? {
            Some(from) => to.add(edge(self.alloc, node, port, self.label(ty), from)),
            None => Ok(()),
        }
    }

    /// Adds the edges into the ports of a node, or of the boundary for 0, from a port on.
    pub fn put_edges(
        &self,
        node: u32,
        first: u32,
        wires: Seq<Wire>,
        to: &mut EdgeList,
    ) -> Result<(), NoMemory>
        requires few { first + length wires ≤ 2 ^ 32 }
        requires one { 1 ≤ first }
        requires ready { All (IsReadyWire self.now.program.now) wires }
        ensures { OnOk result (to.new ≡ to.old ++ edges_into self.now.program.now node first wires) }
    {
        let mut before = 0;
        let mut left = wires.into_vec().into_iter();
        while let Some(wire) = left.next() {
            self.put_edge(node, first + before, wire, to)?;
            before += 1;
        }
        Ok(())
    }

    /// Adds the edges into a node. A call has the name of the function at port 1, and its arguments from
    /// port 2 on.
    pub fn put_node_edges(
        &self,
        node: u32,
        action: &Action,
        wires: Seq<Wire>,
        to: &mut EdgeList,
    ) -> Result<(), NoMemory>
        requires call { IsLinedCall self.now.program.now action.now }
        requires ins { AreReadyWires self.now.program.now wires }
        ensures { OnOk result (to.new ≡ to.old ++ node_edges self.now.program.now node action.now wires) }
    {
        match action {
            Action::Call(function) => {
                let name = self.called_name(*function)?;
                let ty = self.label(Carried::Callee(*function));
                to.add(edge(self.alloc, node, 1, ty, Origin::Lit(name)))?;
                self.put_edges(node, 2, wires, to)
            }
            _ => self.put_edges(node, 1, wires, to),
        }
    }
}
