//! Code as it grows, at its end alone.
ghost use Rattle.std.specs.Prelude.{◌≡◌, ◌+◌, ◌-◌, ◌^◌, ◌≤◌, ◌++◌, map, length, IfOk, OnOk};
ghost use Rattle.plan_data.specs.Parts.{AreBelow, arms_steps};
ghost use Rattle.code_maker.specs.Seats.{copied_ports, laid, looked_at, sifts_among, starts_from};

use crate::seats::{Seat, laid};
use flow_value::{NoMemory, Numbers, Seq};
use plan_data::{Handled, PlanData, Port, number_at};
use step_code::{Collect, Operand, Step};

/// Steps that were made, with the lists that they name.
#[derive(Drop)]
pub struct Draft {
    /// The steps.
    pub steps: Seq<Step>,
    /// Their operands.
    pub operands: Seq<Operand>,
    /// The places to which they lead.
    pub targets: Numbers,
    /// Their collections.
    pub collects: Seq<Collect>,
}

/// How many there are; lists that are too long to be counted are want of memory.
pub fn count_of(many: usize) -> Result<u32, NoMemory>
    ensures { IfOk result (λ n. n ≡ many) }
{
    match u32::try_from(many) {
        Ok(count) => Ok(count),
        Err(_) => Err(NoMemory),
    }
}

/// Adds what fills these ports.
pub fn add_ports(
    operands: &mut Seq<Operand>,
    plan: &PlanData,
    args: &[Seat],
    first: u32,
    ports: &[Port],
) -> Result<(), NoMemory>
    requires { AreBelow (2 ^ 32 - first) ports.now }
    ensures { OnOk result (operands.new ≡ operands.old ++ map (laid plan.now args.now first) ports.now) }
{
    for port in ports {
        operands.add(laid(plan, args, first, *port))?;
    }
    Ok(())
}

/// Adds what fills those of these ports that are copied.
pub fn add_copied(
    operands: &mut Seq<Operand>,
    plan: &PlanData,
    args: &[Seat],
    first: u32,
    ports: &[Port],
) -> Result<(), NoMemory>
    requires { AreBelow (2 ^ 32 - first) ports.now }
    ensures { OnOk result (operands.new ≡ operands.old ++ map (laid plan.now args.now first) (copied_ports ports.now)) }
{
    for port in ports {
        if let Handled::Copies = port.handled {
            operands.add(laid(plan, args, first, *port))?;
        }
    }
    Ok(())
}

/// Adds so many cells from one on, which are looked at.
pub fn add_looked(operands: &mut Seq<Operand>, from: u32, many: u32) -> Result<(), NoMemory>
    requires { from + many ≤ u32.MAX }
    ensures { OnOk result (operands.new ≡ operands.old ++ looked_at from many) }
{
    for count in 0..many {
        operands.add(Operand::Looks(from + count))?;
    }
    Ok(())
}

/// Adds the places where these graphs begin, the first one here, with one more step behind each.
pub fn add_starts(
    targets: &mut Numbers,
    plan: &PlanData,
    arms: &[u32],
    begin: u32,
) -> Result<(), NoMemory>
    requires { begin + arms_steps plan.now arms.now ≤ u32.MAX }
    ensures { OnOk result (targets.new ≡ targets.old ++ starts_from plan.now arms.now begin) }
{
    let mut place = begin;
    for arm in arms {
        targets.add(place)?;
        place += number_at(plan.sizes.as_slice(), *arm) + 1;
    }
    Ok(())
}

/// Adds these collections.
pub fn add_collects(list: &mut Seq<Collect>, collects: &[Collect]) -> Result<(), NoMemory>
    ensures { OnOk result (list.new ≡ list.old ++ collects.now) }
{
    for collect in collects {
        list.add(*collect)?;
    }
    Ok(())
}

/// Adds those that a loop keeps, to which values are put without a copy that would be counted.
pub fn add_sifts(list: &mut Seq<Collect>, collects: &[Collect]) -> Result<(), NoMemory>
    ensures { OnOk result (list.new ≡ list.old ++ sifts_among collects.now) }
{
    for collect in collects {
        if let Collect::Sifts { column, mask, .. } = *collect {
            list.add(Collect::Sifts {
                column,
                mask,
                copies: false,
            })?;
        }
    }
    Ok(())
}

/// How many of these a loop keeps.
pub fn sifts(collects: &[Collect]) -> usize
    ensures { result ≡ length (sifts_among collects.now) }
{
    let mut many = 0;
    for collect in collects {
        if let Collect::Sifts { .. } = collect {
            many += 1;
        }
    }
    many
}
