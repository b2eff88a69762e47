//! The inputs of a compound node, found among what its graphs use.
ghost use Rattle.std.specs.Prelude.{◌≡◌, ◌<◌, ◌^◌, [], ◌∷◌, ◌++◌, length, false, All, IfOk, OnOk};
ghost use Rattle.lowering.specs.Feeds.{wire, outside, outsides, has, with_new, distinct, place};
ghost use Rattle.lowering.specs.Graphs.{used_by, used};
ghost use Rattle.lowered_data.specs.Keyed.{keyed};
ghost use Rattle.lowered_data.specs.Parts.{union_last, graph_uses, uses_at};

use flow_value::{NoMemory, Seq};
use if1_graph::Compound;
use indexmap::IndexMap;
use lowering::{Action, Carried, Feed, LoweredGraph, LoweredNode, Wire};
use std::alloc::Global;
use std::marker::Model;

/// Ports of the graph around, each once, in the order of first use. Contracts see them as wires.
#[derive(Drop)]
pub struct Keys {
    ports: IndexMap<(usize, usize, usize), Carried>,
}

impl Model for Keys {
    ghost use Rattle.std.specs.Prelude.{List, map};
    ghost use Rattle.lowering.specs.declared.feed.Wire.{Wire};
    ghost use Rattle.lowered_data.specs.Keyed.{keyed};

    ghost Value = { List Wire };

    ghost view = { λ k. map keyed k.ports.entries };
}

impl Keys {
    /// No ports; takes no memory.
    pub fn new(alloc: Global) -> Keys
        ensures { result ≡ [] }
    {
        Keys {
            ports: IndexMap::new(alloc),
        }
    }

    /// The number of ports.
    pub fn len(&self) -> usize
        ensures { result ≡ length self.now }
    {
        self.ports.len()
    }

    /// Adds a port, if it is new.
    fn add(&mut self, up: usize, node: usize, port: usize, ty: Carried) -> Result<(), NoMemory>
        ensures { OnOk result (self.new ≡ with_new self.old (wire (Feed.Port up node port) ty)) }
    {
        let key = (up, node, port);
        match self.ports.get_index_of(&key) {
            Some(_) => Ok(()),
            None => self.insert(key, ty),
        }
    }

    /// Adds a port that is new.
    fn insert(&mut self, key: (usize, usize, usize), ty: Carried) -> Result<(), NoMemory>
        requires { has self.old (Feed.Port key.0 key.1 key.2) ≡ false }
        ensures { OnOk result (self.new ≡ self.old ++ wire (Feed.Port key.0 key.1 key.2) ty ∷ []) }
    {
        let _ = self.ports.insert(key, ty)?;
        Ok(())
    }

    /// Adds the port of a graph around the one next around, or of that, where a wire leads to one.
    fn add_outside(&mut self, w: &Wire) -> Result<(), NoMemory>
        ensures { OnOk result (self.new ≡ distinct self.old (outside w.now.ty w.now.feed)) }
    {
        match &w.feed {
            Feed::Port(up, node, port) => self.add_from(*up, *node, *port, w.ty),
            _ => Ok(()),
        }
    }

    /// Adds a port, seen from a graph inside.
    fn add_from(&mut self, up: usize, node: usize, port: usize, ty: Carried) -> Result<(), NoMemory>
        ensures { OnOk result (self.new ≡ distinct self.old (outside ty (Feed.Port up node port))) }
    {
        if up == 0 {
            Ok(())
        } else {
            self.add(up - 1, node, port, ty)
        }
    }

    /// Adds what some wires of a graph inside use.
    fn add_all(&mut self, wires: &[Wire]) -> Result<(), NoMemory>
        ensures { OnOk result (self.new ≡ distinct self.old (outsides wires.now)) }
    {
        for w in wires {
            self.add_outside(w)?;
        }
        Ok(())
    }

    /// Adds what a TagCase uses: its union stands behind its other inputs in the text.
    #[tactic(auto, using(crate::proofs::Lists::uses_append))]
    fn add_union_last(&mut self, wires: &[Wire]) -> Result<(), NoMemory>
        ensures { OnOk result (self.new ≡ distinct self.old (outsides (union_last wires.now))) }
    {
        match wires {
            [] => Ok(()),
            [union, rest @ ..] => {
                self.add_all(rest)?;
                self.add_outside(union)
            }
        }
    }

    /// Adds what a node uses.
    fn add_node(&mut self, node: &LoweredNode) -> Result<(), NoMemory>
        ensures { OnOk result (self.new ≡ distinct self.old (outsides (used_by node.now.action node.now.ins))) }
    {
        match &node.action {
            Action::Whole(Compound::TagCase, _, _, _, _) => self.add_union_last(
                node.ins.as_slice(),
            ),
            _ => self.add_all(node.ins.as_slice()),
        }
    }

    /// Adds what the nodes of a graph use.
    fn add_nodes(&mut self, nodes: &[LoweredNode]) -> Result<(), NoMemory>
        ensures { OnOk result (self.new ≡ distinct self.old (outsides (used nodes.now))) }
    {
        for node in nodes {
            self.add_node(node)?;
        }
        Ok(())
    }

    /// Adds what a graph uses.
    #[tactic(auto, using(crate::proofs::Lists::uses_append))]
    fn add_graph(&mut self, graph: &LoweredGraph) -> Result<(), NoMemory>
        ensures { OnOk result (self.new ≡ distinct self.old (outsides (graph_uses graph.now))) }
    {
        self.add_nodes(graph.nodes.as_slice())?;
        self.add_all(graph.results.as_slice())
    }

    /// Adds what the graphs at some places use.
    #[tactic(auto, using(crate::proofs::Lists::uses_append))]
    pub fn add_graphs(&mut self, places: &[usize], graphs: &[LoweredGraph]) -> Result<(), NoMemory>
        requires { All (λ p. p < length graphs.now) places.now }
        ensures { OnOk result (self.new ≡ distinct self.old (outsides (uses_at places.now graphs.now))) }
    {
        for place in places {
            self.add_graph(&graphs[*place])?;
        }
        Ok(())
    }

    /// The ports as wires.
    pub fn wires(&self, alloc: Global) -> Result<Seq<Wire>, NoMemory>
        ensures { IfOk result (λ ws. ws ≡ self.now) }
    {
        let mut wires = Seq::with_room(alloc, self.ports.len())?;
        for place in 0..self.ports.len() {
            let Some((port, ty)) = self.ports.get_index(place) else {
                unreachable!()
            };
            wires.add(keyed(*port, *ty))?;
        }
        Ok(wires)
    }

    /// The place of a port among these, and their number if it is not there.
    pub fn place(&self, up: usize, node: usize, port: usize) -> usize
        ensures place { result ≡ place self.now (Feed.Port up node port) }
        ensures small { result < 2 ^ 63 }
    {
        let count = self.ports.len();
        match self.ports.get_index_of(&(up, node, port)) {
            Some(place) => place,
            None => count,
        }
    }
}

/// The wire of a port.
fn keyed(port: (usize, usize, usize), ty: Carried) -> Wire
    ensures { result ≡ keyed (port, ty) }
{
    let (up, node, port) = port;
    Wire {
        feed: Feed::Port(up, node, port),
        ty,
    }
}
