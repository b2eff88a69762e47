//! Constants and operations.
ghost use Rattle.std.specs.Prelude.{◌≡◌, map, length, IfOk, OnOk, None};
ghost use Rattle.lowering.specs.Feeds.{wire};
ghost use Rattle.lowering.specs.Operations.{row_lowered, constant_lowered};
ghost use Rattle.lowering.specs.Choices.{applied, is_tag_lowered};
ghost use Rattle.lowered_data.specs.States.{IsMade, IsPart};
ghost use Rattle.lower_nodes.specs.Rows.{plain_row, truth_of};

use crate::choices::{tag_count, two_arms, type_of};
use crate::wiring::{BOOLEAN, absents, append, behind, changed, letters, one, reversed, wire_at};
use flow_value::{NoMemory, Seq};
use if1_graph::Simple;
use lowered_data::{Made, copy_constant, one_wire};
use lowering::{Action, Carried, Feed, Wire};
use sisal_tree::Constant;
use std::alloc::Global;
use type_table::Types;
use value_ops::Operation;

/// A row of the table of simple nodes.
pub fn row(
    alloc: Global,
    made: &mut Made,
    op: Simple,
    ins: Seq<Wire>,
    types: &[usize],
) -> Result<Seq<Wire>, NoMemory>
    ensures { IfOk result (λ ws. IsMade (row_lowered op ins types.now) made.old made.new ws) }
{
    made.add(alloc, Action::Row(op), ins, 1, types)
}

/// A constant at each value.
#[tactic(auto, using(crate::proofs::Lists::map_snoc))]
fn literals(alloc: Global, constant: &Constant, types: &[usize]) -> Result<Seq<Wire>, NoMemory>
    ensures { IfOk result (λ ws. ws ≡ map (λ t. wire (Feed.Literal constant.now) (Carried.One t)) types.now) }
{
    let mut wires = Seq::with_room(alloc, types.len())?;
    for place in 0..types.len() {
        let feed = Feed::Literal(copy_constant(alloc, constant)?);
        wires.add(Wire {
            feed,
            ty: Carried::One(types[place]),
        })?;
    }
    Ok(wires)
}

/// A constant.
pub fn constant(
    alloc: Global,
    made: &mut Made,
    constant: &Constant,
    types: &[usize],
) -> Result<Seq<Wire>, NoMemory>
    ensures { IfOk result (λ ws. IsMade (constant_lowered constant.now types.now) made.old made.new ws) }
{
    match constant {
        Constant::Quoted(text) => {
            let ins = letters(alloc, text.as_slice())?;
            row(alloc, made, Simple::ABuild, ins, types)
        }
        _ => literals(alloc, constant, types),
    }
}

/// The row of an operation whose operands fill its ports from one on.
fn plain_row(op: &Operation) -> Option<Simple>
    ensures { result ≡ plain_row op.now }
{
    match op {
        Operation::Unary(f) => Some(Simple::One(*f)),
        Operation::Binary(f) => Some(Simple::Two(*f)),
        Operation::Error => Some(Simple::Error),
        Operation::Array => Some(Simple::ABuild),
        Operation::Fill => Some(Simple::AFill),
        Operation::Element => Some(Simple::AElement),
        Operation::Update => Some(Simple::AReplace),
        Operation::AddHigh => Some(Simple::AAddH),
        Operation::AddLow => Some(Simple::AAddL),
        Operation::RemoveHigh => Some(Simple::ARemH),
        Operation::RemoveLow => Some(Simple::ARemL),
        Operation::SetLow => Some(Simple::ASetL),
        Operation::Adjust => Some(Simple::AAdjust),
        Operation::LimitLow => Some(Simple::ALimL),
        Operation::LimitHigh => Some(Simple::ALimH),
        Operation::Size => Some(Simple::ASize),
        Operation::IsEmpty => Some(Simple::AIsEmpty),
        Operation::Catenate => Some(Simple::ACatenate),
        Operation::First => Some(Simple::FirstValue),
        Operation::Rest => Some(Simple::RestValues),
        Operation::Record => Some(Simple::RBuild),
        _ => None,
    }
}

/// `is t(u)`
fn is_tag(
    alloc: Global,
    forms: &Types,
    made: &mut Made,
    tag: u32,
    wires: &[Wire],
    types: &[usize],
) -> Result<Seq<Wire>, NoMemory>
    ensures { IfOk result (λ ws. IsMade (is_tag_lowered forms.now tag wires.now types.now) made.old made.new ws) }
{
    let union = wire_at(alloc, wires, 0)?;
    let tags = tag_count(forms, type_of(union.ty));
    let arms = two_arms(alloc, tag, tags)?;
    let first = truth(alloc, made, Constant::True)?;
    let second = truth(alloc, made, Constant::False)?;
    made.tag_case(alloc, union, &[first, second], arms, types)
}

/// A graph inside that gives a truth value.
fn truth(alloc: Global, made: &mut Made, constant: Constant) -> Result<usize, NoMemory>
    ensures part { OnOk result (IsPart (truth_of constant) made.old made.new) }
    ensures place { IfOk result (λ place. place ≡ length made.old.graphs) }
{
    let around = made.open(alloc)?;
    let value = Wire {
        feed: Feed::Literal(constant),
        ty: Carried::One(BOOLEAN),
    };
    let values = one_wire(alloc, value)?;
    made.shut(around, values)
}

/// An operation whose ports are not filled by its operands in their order.
fn special(
    alloc: Global,
    forms: &Types,
    made: &mut Made,
    op: &Operation,
    wires: Seq<Wire>,
    types: &[usize],
) -> Result<Seq<Wire>, NoMemory>
    requires { plain_row op.now ≡ None }
    ensures { IfOk result (λ ws. IsMade (applied forms.now op.now wires types.now) made.old made.new ws) }
{
    match op {
        Operation::Swapped(f) => {
            let ins = reversed(alloc, wires)?;
            row(alloc, made, Simple::Two(*f), ins, types)
        }
        Operation::EmptyArray => {
            let ins = behind(alloc, one(), wires)?;
            row(alloc, made, Simple::ABuild, ins, types)
        }
        Operation::Stream => {
            let ins = behind(alloc, one(), wires)?;
            row(alloc, made, Simple::ABuild, ins, types)
        }
        Operation::Union(tag) => {
            let mut ins = absents(alloc, *tag as usize)?;
            append(&mut ins, wires)?;
            row(alloc, made, Simple::RBuild, ins, types)
        }
        Operation::Field(field) => made.add(
            alloc,
            Action::Row(Simple::RElements),
            wires,
            *field as usize + 1,
            types,
        ),
        Operation::Change(places) => {
            let ins = changed(alloc, places.as_slice(), wires.as_slice())?;
            row(alloc, made, Simple::RReplace, ins, types)
        }
        Operation::IsTag(tag) => is_tag(alloc, forms, made, *tag, wires.as_slice(), types),
        _ => unreachable!(),
    }
}

/// An operation on its operands.
pub fn applied(
    alloc: Global,
    forms: &Types,
    made: &mut Made,
    op: &Operation,
    wires: Seq<Wire>,
    types: &[usize],
) -> Result<Seq<Wire>, NoMemory>
    ensures { IfOk result (λ ws. IsMade (applied forms.now op.now wires types.now) made.old made.new ws) }
{
    match plain_row(op) {
        Some(simple) => row(alloc, made, simple, wires, types),
        None => special(alloc, forms, made, op, wires, types),
    }
}
