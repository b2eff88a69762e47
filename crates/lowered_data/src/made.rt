//! The graph under way.
ghost use Rattle.std.specs.Prelude.{◌≡◌, ◌<◌, ◌≤◌, ◌^◌, suc, [], ◌∷◌, ◌++◌, List, ◌+◌, length, map, All, IfOk, OnOk};
ghost use Rattle.lowering.specs.Feeds.{carried, one_carried};
ghost use Rattle.lowering.specs.Graphs.{Lowering, whole, a_node, callee};
ghost use Rattle.lowering.specs.Choices.{tag_case};
ghost use Rattle.lowered_data.specs.declared.made.Made.{Made};
ghost use Rattle.lowered_data.specs.Parts.{inputs_at};
ghost use Rattle.lowered_data.specs.States.{
  made,
  IsMade,
  with_node,
  around_of,
  opened,
  shut,
  numbered,
  with_closed,
  with_whole,
  with_tag_case,
  IsPart,
  AreParts,
  new_parts,
  places_in,
};

use crate::closing::close_graphs;
use crate::keys::Keys;
use crate::wires::{carried_ports, ports};
use flow_value::{NoMemory, Numbers, Seq};
use if1_graph::Compound;
use lowering::{Action, Carried, Feed, LoweredGraph, LoweredNode, Wire};
use std::alloc::Global;
use std::mem;

/// A graph under way, with the graphs inside of it. A graph inside that no compound node has closed
/// yet stands there as it is in the making.
#[derive(Drop)]
pub struct Made {
    /// The number of the first graph inside.
    pub first: u32,
    /// The nodes, in the order of their labels, from 1.
    pub nodes: Seq<LoweredNode>,
    /// The graphs inside, in the order of their numbers.
    pub graphs: Seq<LoweredGraph>,
    /// What the lines carry, in the order of the text.
    pub lines: Seq<Carried>,
}

/// The graph around one that has begun.
#[derive(Drop)]
pub struct Around {
    /// The place of the graph inside.
    pub place: usize,
    /// The nodes of the graph around.
    pub nodes: Seq<LoweredNode>,
}

impl Made {
    /// No node; takes no memory.
    pub fn new(alloc: Global, first: u32) -> Made
        ensures { result ≡ made first [] [] [] }
    {
        Made {
            first,
            nodes: Seq::new(alloc),
            graphs: Seq::new(alloc),
            lines: Seq::new(alloc),
        }
    }

    /// Notes the name of a called function.
    fn note_callee(&mut self, action: &Action) -> Result<(), NoMemory>
        ensures { OnOk result (self.new ≡ made self.old.first self.old.nodes self.old.graphs (self.old.lines ++ callee action.now)) }
    {
        match action {
            Action::Call(function) => self.lines.add(Carried::Callee(*function)),
            _ => Ok(()),
        }
    }

    /// Notes what fills some ports.
    fn note(&mut self, wires: &[Wire]) -> Result<(), NoMemory>
        ensures { OnOk result (self.new ≡ made self.old.first self.old.nodes self.old.graphs (self.old.lines ++ carried wires.now)) }
    {
        note_all(&mut self.lines, wires)
    }

    /// Adds a node, and gives its label.
    pub fn node(&mut self, action: Action, ins: Seq<Wire>) -> Result<usize, NoMemory>
        ensures added { OnOk result (self.new ≡ with_node self.old action ins) }
        ensures label { IfOk result (λ label. label ≡ suc (length self.old.nodes)) }
    {
        self.note_callee(&action)?;
        self.note(ins.as_slice())?;
        self.nodes.add(LoweredNode { action, ins })?;
        Ok(self.nodes.len())
    }

    /// Adds a node without graphs inside, and gives its values, which leave at its ports from one on.
    pub fn add(
        &mut self,
        alloc: Global,
        action: Action,
        ins: Seq<Wire>,
        port: usize,
        types: &[usize],
    ) -> Result<Seq<Wire>, NoMemory>
        requires { port < 2 ^ 33 }
        ensures { IfOk result (λ ws. IsMade (a_node action ins port (map Carried.One types.now)) self.old self.new ws) }
    {
        let label = self.node(action, ins)?;
        ports(alloc, label, port, types)
    }

    /// Adds a node without graphs inside, which gives these at its ports from one on.
    pub fn add_carried(
        &mut self,
        alloc: Global,
        action: Action,
        ins: Seq<Wire>,
        port: usize,
        carried: &[Carried],
    ) -> Result<Seq<Wire>, NoMemory>
        requires { port < 2 ^ 33 }
        ensures { IfOk result (λ ws. IsMade (a_node action ins port carried.now) self.old self.new ws) }
    {
        let label = self.node(action, ins)?;
        carried_ports(alloc, label, port, carried)
    }

    /// Begins a graph inside.
    pub fn open(&mut self, alloc: Global) -> Result<Around, NoMemory>
        ensures opened { OnOk result (self.new ≡ opened self.old) }
        ensures around { IfOk result (λ a. a ≡ around_of self.old) }
    {
        let place = self.graphs.len();
        self.graphs.add(LoweredGraph {
            nodes: Seq::new(alloc),
            results: Seq::new(alloc),
        })?;
        let nodes = mem::replace(&mut self.nodes, Seq::new(alloc));
        Ok(Around { place, nodes })
    }

    /// Ends a graph inside, which has these results, and gives its place.
    pub fn shut(&mut self, around: Around, results: Seq<Wire>) -> Result<usize, NoMemory>
        requires { around.place < length self.old.graphs }
        ensures part { OnOk result ((f : Lowering) (before : Made) → around ≡ around_of before → IsMade f (opened before) self.old results → IsPart f before self.new) }
        ensures place { IfOk result (λ place. place ≡ around.place) }
    {
        self.note(results.as_slice())?;
        let Around { place, nodes } = around;
        let nodes = mem::replace(&mut self.nodes, nodes);
        self.graphs.set(place, LoweredGraph { nodes, results });
        Ok(place)
    }

    /// The numbers of the graphs at some places.
    fn numbers(&self, alloc: Global, places: &[usize]) -> Result<Seq<usize>, NoMemory>
        requires { All (λ p. p < length self.now.graphs) places.now }
        ensures { IfOk result (λ ns. ns ≡ numbered self.now.first places.now) }
    {
        let graphs = self.graphs.as_slice();
        let mut numbers = Seq::with_room(alloc, places.len())?;
        for place in 0..places.len() {
            numbers.add(number_at(self.first, graphs, places[place]))?;
        }
        Ok(numbers)
    }

    /// The inputs of a compound node on the graphs at some places.
    fn inputs(&self, alloc: Global, places: &[usize]) -> Result<Keys, NoMemory>
        requires { All (λ p. p < length self.now.graphs) places.now }
        ensures { IfOk result (λ ks. ks ≡ inputs_at places.now self.now.graphs) }
    {
        let mut keys = Keys::new(alloc);
        keys.add_graphs(places, self.graphs.as_slice())?;
        Ok(keys)
    }

    /// Closes the graphs at some places.
    fn close(
        &mut self,
        places: &[usize],
        keys: &Keys,
        first: usize,
        own: usize,
    ) -> Result<(), NoMemory>
        requires within { All (λ p. p < length self.old.graphs) places.now }
        requires first { first ≤ 1 }
        ensures { OnOk result (self.new ≡ with_closed keys.now first own places.now self.old) }
    {
        let fresh = self.graphs.fresh();
        let graphs = mem::replace(&mut self.graphs, fresh);
        self.graphs = close_graphs(graphs, places, keys, first, own)?;
        Ok(())
    }

    /// Adds a compound node other than a TagCase on the graphs at some places, with its association
    /// list and how many results its body has, and gives its values.
    pub fn whole(
        &mut self,
        alloc: Global,
        compound: Compound,
        places: &[usize],
        arms: Numbers,
        given: usize,
        types: &[usize],
    ) -> Result<Seq<Wire>, NoMemory>
        requires { All (λ p. p < length self.old.graphs) places.now }
        ensures { (before : Made) (fs : List Lowering) → AreParts fs before self.old → places.now ≡ places_in before fs → IfOk result (λ ws. IsMade (whole compound (new_parts before fs) arms given types.now) before self.new ws) }
    {
        self.add_whole(alloc, compound, places, arms, given, types.len())?;
        ports(alloc, self.nodes.len(), 1, types)
    }

    /// Adds a TagCase on a union and the graphs at some places, with the arm of each tag, and gives
    /// its values.
    pub fn tag_case(
        &mut self,
        alloc: Global,
        union: Wire,
        places: &[usize],
        arms: Numbers,
        types: &[usize],
    ) -> Result<Seq<Wire>, NoMemory>
        requires { All (λ p. p < length self.old.graphs) places.now }
        ensures { (before : Made) (fs : List Lowering) → AreParts fs before self.old → places.now ≡ places_in before fs → IfOk result (λ ws. IsMade (tag_case union fs arms types.now) before self.new ws) }
    {
        self.add_tag_case(alloc, union, places, arms, types.len())?;
        ports(alloc, self.nodes.len(), 1, types)
    }

    /// Adds a compound node other than a TagCase on the graphs at some places.
    fn add_whole(
        &mut self,
        alloc: Global,
        compound: Compound,
        places: &[usize],
        arms: Numbers,
        given: usize,
        outputs: usize,
    ) -> Result<(), NoMemory>
        requires { All (λ p. p < length self.old.graphs) places.now }
        ensures { OnOk result (self.new ≡ with_whole compound places.now arms given outputs self.old) }
    {
        let keys = self.inputs(alloc, places)?;
        let numbers = self.numbers(alloc, places)?;
        self.close(places, &keys, 0, keys.len())?;
        let ins = keys.wires(alloc)?;
        let _ = self.node(Action::Whole(compound, numbers, arms, given, outputs), ins)?;
        Ok(())
    }

    /// Adds a TagCase on a union and the graphs at some places.
    fn add_tag_case(
        &mut self,
        alloc: Global,
        union: Wire,
        places: &[usize],
        arms: Numbers,
        outputs: usize,
    ) -> Result<(), NoMemory>
        requires { All (λ p. p < length self.old.graphs) places.now }
        ensures { OnOk result (self.new ≡ with_tag_case union places.now arms outputs self.old) }
    {
        let keys = self.inputs(alloc, places)?;
        let numbers = self.numbers(alloc, places)?;
        self.close(places, &keys, 1, 0)?;
        let ins = behind(alloc, union, &keys)?;
        let _ = self.node(
            Action::Whole(Compound::TagCase, numbers, arms, 0, outputs),
            ins,
        )?;
        Ok(())
    }
}

/// The number of the graph at a place, where the first one has this number.
fn number_at(first: u32, graphs: &[LoweredGraph], place: usize) -> usize
    requires { place < length graphs.now }
    ensures { result ≡ first + place }
{
    first as usize + place
}

/// The inputs of a TagCase: its union, and the ports that its arms use.
fn behind(alloc: Global, union: Wire, keys: &Keys) -> Result<Seq<Wire>, NoMemory>
    ensures { IfOk result (λ ws. ws ≡ union ∷ keys.now) }
{
    let mut ins = Seq::with_room(alloc, keys.len())?;
    ins.add(union)?;
    match ins.append(keys.wires(alloc)?) {
        Ok(()) => Ok(ins),
        Err(_) => Err(NoMemory),
    }
}

/// Notes what fills a port, if something does.
fn note_one(lines: &mut Seq<Carried>, w: &Wire) -> Result<(), NoMemory>
    ensures { OnOk result (lines.new ≡ lines.old ++ one_carried w.now.feed w.now.ty) }
{
    match &w.feed {
        Feed::Absent => Ok(()),
        _ => lines.add(w.ty),
    }
}

/// Notes what fills some ports.
fn note_all(lines: &mut Seq<Carried>, wires: &[Wire]) -> Result<(), NoMemory>
    ensures { OnOk result (lines.new ≡ lines.old ++ carried wires.now) }
{
    for w in wires {
        note_one(lines, w)?;
    }
    Ok(())
}
