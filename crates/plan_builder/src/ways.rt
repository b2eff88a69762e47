//! How the nodes of a returns read the multiples of iterations or turns.
ghost use Rattle.std.specs.Prelude.{◌≡◌, ℕ, Bool, List};
ghost use Rattle.graph_meaning.specs.Demand.{Source};
ghost use Rattle.run_code.specs.Made.{Plan};
ghost use Rattle.plan_data.specs.Settings.{Shares};
ghost use Rattle.plan_data.specs.declared.plan.PlanData.{PlanData};
ghost use Rattle.plan_data.specs.Stands.{AreFed};
ghost use Rattle.firing_order.specs.Returns.{way_of};
ghost use Rattle.plan_builder.specs.Ways.{behind_by, kept_by, last_by, multiple_by, multiple_port, read_by, reading_by};

use if1_graph::Simple;
use plan_data::{Feed, Port};

/// How a node of a returns reads multiples, each of which is told by its place behind the inputs that
/// are none.
#[derive(Clone, Copy)]
pub enum Reading {
    /// The last value of this one.
    Last(u32),
    /// The values of this one that this mask keeps.
    Kept(u32, u32),
    /// Each one that it reads, whole.
    Whole,
}

/// Which multiple fills a port, counted from 0 behind the inputs that are none.
pub fn multiple_of(plain: u32, feed: Feed) -> Option<u32>
    ensures { result ≡ multiple_by plain feed }
{
    match feed {
        Feed::Input(place) => {
            if place < plain {
                None
            } else {
                Some(place - plain)
            }
        }
        _ => None,
    }
}

fn last_of(column: Option<u32>) -> Reading
    ensures { result ≡ last_by column }
{
    match column {
        Some(column) => Reading::Last(column),
        None => Reading::Whole,
    }
}

fn kept_of(copies: bool, column: Option<u32>, mask: Option<u32>) -> Reading
    ensures { result ≡ kept_by copies column mask }
{
    if copies {
        return Reading::Whole;
    }
    match (column, mask) {
        (Some(column), Some(mask)) => Reading::Kept(column, mask),
        _ => Reading::Whole,
    }
}

fn behind_of(copies: bool, first: Option<u32>, column: Option<u32>, mask: Option<u32>) -> Reading
    ensures { result ≡ behind_by copies first column mask }
{
    match first {
        None => kept_of(copies, column, mask),
        Some(_) => Reading::Whole,
    }
}

fn reading_in(plain: u32, copies: bool, row: Simple, ins: &[Port]) -> Reading
    ensures { result ≡ reading_by plain copies row ins.now }
{
    match row {
        Simple::FinalValue => match ins {
            [x] => last_of(multiple_of(plain, x.feed)),
            [x, y] => kept_of(
                copies,
                multiple_of(plain, x.feed),
                multiple_of(plain, y.feed),
            ),
            _ => Reading::Whole,
        },
        Simple::AGather | Simple::Reduce(_) => match ins {
            [o, x, y] => behind_of(
                copies,
                multiple_of(plain, o.feed),
                multiple_of(plain, x.feed),
                multiple_of(plain, y.feed),
            ),
            _ => Reading::Whole,
        },
        _ => Reading::Whole,
    }
}

/// How a simple node of a returns reads multiples, where so many inputs of the returns are none, and a
/// copy is counted or not at the port of its own multiple.
pub fn reading_of(plain: u32, copies: bool, row: Simple, ins: &[Port]) -> Reading
    ensures reads { result ≡ reading_by plain copies row ins.now }
    ensures way { (D : PlanData) (P : Plan) (S : Shares) (g : ℕ) (os : List Source) (left : (port : ℕ) → Bool) → left (multiple_port row) ≡ copies → AreFed D P S g ins.now os → way_of plain left row os ≡ read_by result os }
{
    reading_in(plain, copies, row, ins)
}
