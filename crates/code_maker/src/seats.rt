//! Where what is read stands.
ghost use Rattle.std.specs.Prelude.{◌≡◌, ◌+◌, ◌-◌, ◌^◌, ◌≤◌, ◌++◌, ◌∷◌, drop, get_or, map, length, IfOk};
ghost use Rattle.plan_data.specs.Parts.{AreBelow, AreColumnsBelow, IsBelow, count_true, picks_of};
ghost use Rattle.code_maker.specs.declared.seats.Seat.TheVariants as Seat;
ghost use Rattle.code_maker.specs.Seats.{cells_from, first_seat, laid, own_seats, number_in, seat_at, seats_at, stand_from, with_mode};

use flow_value::{NoMemory, Seq};
use plan_data::{Feed, Handled, PlanData, Port};
use std::alloc::Global;
use step_code::{Collect, Operand};

/// A cell of the block, or a literal.
#[derive(Clone, Copy)]
pub enum Seat {
    /// The cell of this number.
    Cell(u32),
    /// The literal of this number.
    Literal(u32),
}

/// Where something stands, in a graph on these inputs whose nodes have cells from one on.
pub fn seat_at(args: &[Seat], first: u32, feed: Feed) -> Seat
    requires { IsBelow (2 ^ 32 - first) feed }
    ensures { result ≡ seat_at args.now first feed }
{
    match feed {
        Feed::Input(place) => match args.get(place as usize) {
            Some(seat) => *seat,
            None => Seat::Literal(0),
        },
        Feed::Output(cell) => Seat::Cell(first + cell),
        Feed::Literal(number) => Seat::Literal(number),
    }
}

/// The number of a literal of the data; one that is not there is what an unfilled port has.
fn literal_number(plan: &PlanData, number: u32) -> u32
    ensures { result ≡ number_in plan.now number }
{
    if (number as usize) < plan.literals.len() {
        number
    } else {
        0
    }
}

/// What stands there, read in this way. Literals are looked at.
pub fn operand(plan: &PlanData, handled: Handled, seat: Seat) -> Operand
    ensures { result ≡ with_mode plan.now handled seat }
{
    match seat {
        Seat::Literal(number) => Operand::Literal(literal_number(plan, number)),
        Seat::Cell(cell) => match handled {
            Handled::Looks => Operand::Looks(cell),
            Handled::Copies => Operand::Copies(cell),
            Handled::Takes => Operand::Takes(cell),
        },
    }
}

/// What fills a port, as an operand.
pub fn laid(plan: &PlanData, args: &[Seat], first: u32, port: Port) -> Operand
    requires { IsBelow (2 ^ 32 - first) port.feed }
    ensures { result ≡ laid plan.now args.now first port }
{
    operand(plan, port.handled, seat_at(args, first, port.feed))
}

/// Where what fills the first of these ports stands.
pub fn first_seat(args: &[Seat], first: u32, ports: &[Port]) -> Seat
    requires { AreBelow (2 ^ 32 - first) ports.now }
    ensures { result ≡ first_seat args.now first ports.now }
{
    match ports {
        [port, ..] => seat_at(args, first, port.feed),
        [] => Seat::Literal(0),
    }
}

/// The first of these.
pub fn head_of(seats: &[Seat]) -> Seat
    ensures { result ≡ get_or seats.now 0 (Seat.Literal 0) }
{
    match seats {
        [seat, ..] => *seat,
        [] => Seat::Literal(0),
    }
}

/// Where what fills these ports stands for the parts of their node, with cells from one on for what
/// is copied.
pub fn own_seats(
    alloc: Global,
    args: &[Seat],
    first: u32,
    ports: &[Port],
    from: u32,
) -> Result<Seq<Seat>, NoMemory>
    requires below { AreBelow (2 ^ 32 - first) ports.now }
    requires cells { from + count_true (map picks_of ports.now) ≤ u32.MAX }
    ensures { IfOk result (λ ss. ss ≡ own_seats (map picks_of ports.now) (seats_at args.now first ports.now) from) }
{
    let mut list = Seq::with_room(alloc, ports.len())?;
    let mut own = from;
    for port in ports {
        match port.handled {
            Handled::Copies => {
                list.add(Seat::Cell(own))?;
                own += 1;
            }
            _ => list.add(seat_at(args, first, port.feed))?,
        }
    }
    Ok(list)
}

/// How many of these are copied.
pub fn copied(ports: &[Port]) -> usize
    ensures { result ≡ count_true (map picks_of ports.now) }
{
    let mut many = 0;
    for port in ports {
        if let Handled::Copies = port.handled {
            many += 1;
        }
    }
    many
}

/// These, and so many cells from one on.
pub fn with_cells(
    alloc: Global,
    seats: &[Seat],
    from: u32,
    many: u32,
) -> Result<Seq<Seat>, NoMemory>
    requires { from + many ≤ u32.MAX }
    ensures { IfOk result (λ ss. ss ≡ seats.now ++ cells_from from many) }
{
    let mut list = Seq::with_room(alloc, seats.len())?;
    for seat in seats {
        list.add(*seat)?;
    }
    for count in 0..many {
        list.add(Seat::Cell(from + count))?;
    }
    Ok(list)
}

/// These, and where collections stand: what is sifted in cells from one on, and a last value in the
/// cell of its loop value.
pub fn with_stand(
    alloc: Global,
    seats: &[Seat],
    collects: &[Collect],
    from: u32,
    values: u32,
) -> Result<Seq<Seat>, NoMemory>
    requires cells { from + length collects.now ≤ u32.MAX }
    requires columns { AreColumnsBelow (2 ^ 32 - values) collects.now }
    ensures { IfOk result (λ ss. ss ≡ seats.now ++ stand_from collects.now from values) }
{
    let mut list = Seq::with_room(alloc, seats.len())?;
    for seat in seats {
        list.add(*seat)?;
    }
    let mut own = from;
    for collect in collects {
        match collect {
            Collect::Sifts { .. } => {
                list.add(Seat::Cell(own))?;
                own += 1;
            }
            Collect::Final { column } => list.add(Seat::Cell(values + *column))?,
        }
    }
    Ok(list)
}

/// These, with a cell in place of the first.
pub fn with_content(alloc: Global, seats: &[Seat], cell: u32) -> Result<Seq<Seat>, NoMemory>
    ensures { IfOk result (λ ss. ss ≡ Seat.Cell cell ∷ drop 1 seats.now) }
{
    let mut list = Seq::with_room(alloc, seats.len())?;
    list.add(Seat::Cell(cell))?;
    for (place, seat) in seats.iter().enumerate() {
        if place > 0 {
            list.add(*seat)?;
        }
    }
    Ok(list)
}
