//! What fills ports: copies, and the ports of nodes.
ghost use Rattle.std.specs.Prelude.{◌≡◌, ◌<◌, ◌^◌, [], ◌∷◌, map, IfOk};
ghost use Rattle.lowering.specs.Feeds.{wire};
ghost use Rattle.lowering.specs.Graphs.{ports};

use flow_value::{NoMemory, Seq};
use lowering::{Carried, Feed, Wire};
use sisal_tree::Constant;
use std::alloc::Global;

/// A copy of a constant.
pub fn copy_constant(alloc: Global, constant: &Constant) -> Result<Constant, NoMemory>
    ensures { IfOk result (λ copy. copy ≡ constant.now) }
{
    match constant {
        Constant::Integer(number) => Ok(Constant::Integer(*number)),
        Constant::Letter(code) => Ok(Constant::Letter(*code)),
        Constant::Quoted(text) => Ok(Constant::Quoted(Seq::from_slice(alloc, text.as_slice())?)),
        Constant::True => Ok(Constant::True),
        Constant::False => Ok(Constant::False),
        Constant::Nil => Ok(Constant::Nil),
    }
}

/// A copy of what fills a port.
pub fn copy_feed(alloc: Global, feed: &Feed) -> Result<Feed, NoMemory>
    ensures { IfOk result (λ copy. copy ≡ feed.now) }
{
    match feed {
        Feed::Literal(constant) => Ok(Feed::Literal(copy_constant(alloc, constant)?)),
        Feed::Named(text) => Ok(Feed::Named(Seq::from_slice(alloc, text.as_slice())?)),
        Feed::Absent => Ok(Feed::Absent),
        Feed::Port(up, node, port) => Ok(Feed::Port(*up, *node, *port)),
    }
}

/// A copy of a wire.
pub fn copy_wire(alloc: Global, w: &Wire) -> Result<Wire, NoMemory>
    ensures { IfOk result (λ copy. copy ≡ w.now) }
{
    let feed = copy_feed(alloc, &w.feed)?;
    Ok(Wire { feed, ty: w.ty })
}

/// A port of the graph under way.
pub fn output(node: usize, port: usize, ty: Carried) -> Wire
    ensures { result ≡ wire (Feed.Port 0 node port) ty }
{
    Wire {
        feed: Feed::Port(0, node, port),
        ty,
    }
}

/// A list of one wire.
pub fn one_wire(alloc: Global, w: Wire) -> Result<Seq<Wire>, NoMemory>
    ensures { IfOk result (λ ws. ws ≡ w ∷ []) }
{
    let mut wires = Seq::new(alloc);
    wires.add(w)?;
    Ok(wires)
}

/// The ports of a node from one on, which carry values of these types.
#[tactic(auto, using(crate::proofs::Lists::ports_more))]
pub fn ports(
    alloc: Global,
    node: usize,
    port: usize,
    types: &[usize],
) -> Result<Seq<Wire>, NoMemory>
    requires { port < 2 ^ 33 }
    ensures { IfOk result (λ ws. ws ≡ ports node port (map Carried.One types.now)) }
{
    let mut wires = Seq::with_room(alloc, types.len())?;
    for place in 0..types.len() {
        wires.add(output(node, port + place, Carried::One(types[place])))?;
    }
    Ok(wires)
}

/// The ports of a node from one on, which carry this.
#[tactic(auto, using(crate::proofs::Lists::carried_ports_more))]
pub fn carried_ports(
    alloc: Global,
    node: usize,
    port: usize,
    carried: &[Carried],
) -> Result<Seq<Wire>, NoMemory>
    requires { port < 2 ^ 33 }
    ensures { IfOk result (λ ws. ws ≡ ports node port carried.now) }
{
    let mut wires = Seq::with_room(alloc, carried.len())?;
    for place in 0..carried.len() {
        wires.add(output(node, port + place, carried[place]))?;
    }
    Ok(wires)
}
