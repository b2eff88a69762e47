//! What the firing of a simple node writes and copies.
ghost use Rattle.std.specs.Prelude.{◌≡◌, ℕ, Bool, List, if◌then◌else◌};
ghost use Rattle.graph_meaning.specs.Carried.{Carried};
ghost use Rattle.graph_meaning.specs.Storage.{Storage, copied_by, written_by};
ghost use Rattle.step_code.specs.Stored.{Mode};
ghost use Rattle.step_code.specs.Laid.{copied_at, written_at};
ghost use Rattle.step_code.specs.declared.code.Code.{Code};
ghost use Rattle.step_code.specs.declared.step.Counted.TheVariants as Counted;
ghost use Rattle.row_counts.specs.Counts.{IsFiredSo, IsTold, counted_by_row, written_by_row};

use if1_graph::Simple;
use step_code::{Counted, Written};

fn written_by_row(row: Simple, joined: bool) -> Written
    ensures { result ≡ written_by_row row joined }
{
    match row {
        Simple::ABuild | Simple::AFill | Simple::AGather => Written::Elements,
        Simple::Reduce(_) => Written::Catenated,
        Simple::ACatenate => {
            if joined {
                Written::Nothing
            } else {
                Written::Elements
            }
        }
        _ => Written::Nothing,
    }
}

/// What a node writes, where its result is joined to others or not: as much as by the definition of
/// record, in each storage in which it is joined so.
pub fn written_of(row: Simple, joined: bool) -> Written
    ensures row { result ≡ written_by_row row joined }
    ensures written { (s : Storage) (g l : ℕ) → s.is_joined g l ≡ joined → (ks rs : List Carried) → written_at result ks rs ≡ written_by s g l row ks rs }
{
    written_by_row(row, joined)
}

fn where_told(told: bool, counted: Counted) -> Counted
    ensures { result ≡ (if told then counted else Counted.Nothing) }
{
    if told { counted } else { Counted::Nothing }
}

fn counted_by_row(row: Simple, told: bool, marks: u32) -> Counted
    ensures { result ≡ counted_by_row row told marks }
{
    match row {
        Simple::FinalValue => where_told(told, Counted::Last),
        Simple::AGather | Simple::Reduce(_) => where_told(told, Counted::Elements),
        Simple::AFill => where_told(told, Counted::Filling),
        Simple::AElement | Simple::FirstValue | Simple::RElements => Counted::Outputs(marks),
        _ => Counted::Operands,
    }
}

/// What a node copies, where so much is told of its edges (`IsTold`) and it is fired so (`IsFiredSo`):
/// as much as by the definition of record.
pub fn counted_of(row: Simple, told: bool, marks: u32) -> Counted
    ensures row { result ≡ counted_by_row row told marks }
    ensures copied { (s : Storage) (g l : ℕ) (code : Code) (ms : List Mode) (w : ℕ) (ks rs : List Carried) → IsTold s g l code.marks w told marks row → IsFiredSo s g l ms w ks rs row → copied_at code result ms w ks rs ≡ copied_by s g l row ks rs }
{
    counted_by_row(row, told, marks)
}
