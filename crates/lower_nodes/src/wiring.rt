//! Lists of wires: what fills the ports of a node.
ghost use Rattle.std.specs.Prelude.{◌≡◌, ◌∷◌, ◌++◌, ◌<◌, ℕ, suc, map, drop, slice_index, IfOk, OnOk};
ghost use Rattle.if1_graph.specs.Units.{greatest};
ghost use Rattle.lowering.specs.Feeds.{wire, into};
ghost use Rattle.lowering.specs.Operations.{character, one, absent, absents, reversed, wire_at, changed};

use flow_value::{NoMemory, Seq, item_at};
use lowered_data::copy_wire;
use lowering::{Carried, Feed, Wire};
use sisal_tree::Constant;
use std::alloc::Global;

/// The number of the type of truth values.
pub const BOOLEAN: usize = 0;

/// The number of the type of characters.
const CHARACTER: usize = 1;

/// The number of the type of integers.
pub const INTEGER: usize = 2;

/// The number of the type of `nil`.
const NULL: usize = 3;

/// The lower bound 1.
pub fn one() -> Wire
    ensures { result ≡ one }
{
    Wire {
        feed: Feed::Literal(Constant::Integer(1)),
        ty: Carried::One(INTEGER),
    }
}

/// A port that is not filled.
fn absent() -> Wire
    ensures { result ≡ absent }
{
    Wire {
        feed: Feed::Absent,
        ty: Carried::One(INTEGER),
    }
}

/// A literal.
fn literal(constant: Constant, ty: usize) -> Wire
    ensures { result ≡ wire (Feed.Literal constant) (Carried.One ty) }
{
    Wire {
        feed: Feed::Literal(constant),
        ty: Carried::One(ty),
    }
}

/// Moves wires to the end of others.
pub fn append(wires: &mut Seq<Wire>, more: Seq<Wire>) -> Result<(), NoMemory>
    ensures { OnOk result (wires.new ≡ wires.old ++ more) }
{
    match wires.append(more) {
        Ok(()) => Ok(()),
        Err(_) => Err(NoMemory),
    }
}

/// A copy of wires.
pub fn copied(alloc: Global, wires: &[Wire]) -> Result<Seq<Wire>, NoMemory>
    ensures { IfOk result (λ ws. ws ≡ wires.now) }
{
    let mut copies = Seq::with_room(alloc, wires.len())?;
    for w in wires {
        copies.add(copy_wire(alloc, w)?)?;
    }
    Ok(copies)
}

/// Wires, seen from a graph inside.
pub fn inside(alloc: Global, wires: &[Wire]) -> Result<Seq<Wire>, NoMemory>
    ensures { IfOk result (λ ws. ws ≡ map into wires.now) }
{
    let mut seen = Seq::with_room(alloc, wires.len())?;
    for w in wires {
        seen.add(into(alloc, w)?)?;
    }
    Ok(seen)
}

/// A wire, seen from a graph inside.
fn into(alloc: Global, w: &Wire) -> Result<Wire, NoMemory>
    ensures { IfOk result (λ s. s ≡ into w.now) }
{
    match &w.feed {
        Feed::Port(up, node, port) => Ok(Wire {
            feed: Feed::Port(one_more(*up)?, *node, *port),
            ty: w.ty,
        }),
        _ => copy_wire(alloc, w),
    }
}

/// One more, where it can be counted; a number of nodes or graphs that memory holds can.
pub fn one_more(n: usize) -> Result<usize, NoMemory>
    ensures { IfOk result (λ m. m ≡ suc n) }
{
    match n.checked_add(1) {
        Some(m) => Ok(m),
        None => Err(NoMemory),
    }
}

/// A wire, and others behind it.
pub fn behind(alloc: Global, first: Wire, more: Seq<Wire>) -> Result<Seq<Wire>, NoMemory>
    ensures { IfOk result (λ ws. ws ≡ first ∷ more) }
{
    let mut wires = Seq::with_room(alloc, more.len())?;
    wires.add(first)?;
    append(&mut wires, more)?;
    Ok(wires)
}

/// Wires from the last to the first.
#[tactic(auto, using(crate::proofs::Lists::reversed_more))]
pub fn reversed(alloc: Global, wires: Seq<Wire>) -> Result<Seq<Wire>, NoMemory>
    ensures { IfOk result (λ ws. ws ≡ reversed wires) }
{
    let mut left = wires;
    let mut turned = Seq::with_room(alloc, left.len())?;
    while let Some(w) = left.pop() {
        turned.add(w)?;
    }
    Ok(turned)
}

/// So many ports that are not filled.
#[tactic(auto, using(crate::proofs::Lists::absents_more))]
pub fn absents(alloc: Global, count: usize) -> Result<Seq<Wire>, NoMemory>
    ensures { IfOk result (λ ws. ws ≡ absents count) }
{
    let mut wires = Seq::new(alloc);
    for place in 0..count {
        wires.add(absent())?;
    }
    Ok(wires)
}

/// The characters of a text, behind its lower bound.
#[tactic(auto, using(crate::proofs::Lists::map_snoc))]
pub fn letters(alloc: Global, text: &[u8]) -> Result<Seq<Wire>, NoMemory>
    ensures { IfOk result (λ ws. ws ≡ one ∷ map (λ c. wire (Feed.Literal (Constant.Letter c)) (Carried.One character)) text.now) }
{
    let mut wires = Seq::with_room(alloc, text.len())?;
    wires.add(one())?;
    for place in 0..text.len() {
        wires.add(literal(Constant::Letter(text[place]), CHARACTER))?;
    }
    Ok(wires)
}

/// The wire at a place, and `nil` where there is none.
pub fn wire_at(alloc: Global, wires: &[Wire], place: usize) -> Result<Wire, NoMemory>
    ensures { IfOk result (λ w. w ≡ wire_at wires.now place) }
{
    match item_at(wires, place) {
        Some(w) => copy_wire(alloc, w),
        None => Ok(nil()),
    }
}

/// What stands for a name that is not there.
pub fn nil() -> Wire
    ensures { result ≡ wire (Feed.Literal Constant.Nil) (Carried.One 3) }
{
    literal(Constant::Nil, NULL)
}

/// The greatest of some places.
fn greatest(places: &[u32]) -> u32
    ensures { result ≡ greatest places.now }
{
    let mut most = 0;
    for place in 0..places.len() {
        most = most.max(places[place]);
    }
    most
}

/// So many ports, of which those of some places are filled, the first for the place 0. Where a place
/// stands twice, the first one counts.
fn filled(
    alloc: Global,
    count: usize,
    places: &[u32],
    wires: &[Wire],
) -> Result<Seq<Wire>, NoMemory>
    requires { (k : ℕ) → slice_index places.now k < count }
    ensures { IfOk result (λ ws. ws ≡ changed 0 count places.now wires.now) }
{
    let mut ports = absents(alloc, count)?;
    let mut left = places.len().min(wires.len());
    while left > 0 {
        left -= 1;
        let w = copy_wire(alloc, &wires[left])?;
        ports.set(places[left] as usize, w);
    }
    Ok(ports)
}

/// The wires behind the first one.
fn rest(wires: &[Wire]) -> &[Wire]
    ensures { result.now ≡ drop 1 wires.now }
{
    match wires {
        [] => wires,
        [_, rest @ ..] => rest,
    }
}

/// What fills the ports of a record with changed fields: the record, and up to the last field that is
/// changed those at their places.
pub fn changed(alloc: Global, places: &[u32], wires: &[Wire]) -> Result<Seq<Wire>, NoMemory>
    ensures { IfOk result (λ ws. ws ≡ wire_at wires.now 0 ∷ changed 0 (suc (greatest places.now)) places.now (drop 1 wires.now)) }
{
    let first = wire_at(alloc, wires, 0)?;
    let count = greatest(places) as usize + 1;
    let more = filled(alloc, count, places, rest(wires))?;
    behind(alloc, first, more)
}
