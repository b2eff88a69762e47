//! The outlines of the types of a table.
ghost use Rattle.std.specs.Prelude.{◌≡◌, ℕ, List, Some, IfOk, map, get_or};
ghost use Rattle.std.specs.List.Sorted.{IsStrictlyIncreasing};
ghost use Rattle.flow_value.specs.declared.ty.Ty.{Ty};
ghost use Rattle.flow_value.specs.declared.ty.Ty.TheViews.{out-Ty};
ghost use Rattle.if1_graph.specs.declared.graph.TypeEntry.{TypeEntry};
ghost use Rattle.if1_graph.specs.Types.{Sort, sort_at};
ghost use Rattle.if1_types.specs.Tables.{AreSorts};
ghost use Rattle.if1_types.specs.Numbering.{IsNumbering};
ghost use Rattle.if1_types.specs.Forms.{IsTyForm, IsSortForm, Stand};
ghost use Rattle.if1_ports.specs.Outlines.{outline_of, ty_outline, types_in};

use crate::outline::Outline;
use crate::rows::Outlines;
use flow_value::{NoMemory, Seq};
use if1_graph::TypeEntry;
use if1_types::{SortForm, Sorts, TyForm};
use std::alloc::Global;

impl Outlines {
    /// What a label stands for; nothing where there is no such label.
    pub fn outline(&self, label: u32) -> Outline
        ensures { result ≡ types_in self.now label }
    {
        match self.labels.as_slice().binary_search(&label) {
            Ok(place) => row_at(self.rows.as_slice(), place),
            Err(_) => Outline::Nothing,
        }
    }
}

fn row_at(rows: &[Outline], place: usize) -> Outline
    ensures { result ≡ get_or rows.now place Outline.Nothing }
{
    match rows.get(place) {
        Some(row) => *row,
        None => Outline::Nothing,
    }
}

fn type_outline(sorts: &Sorts, form: TyForm) -> Outline
    ensures { (t : Ty) → IsTyForm sorts.now.shapes t form → result ≡ ty_outline (out-Ty t) }
{
    match form {
        TyForm::Nothing => Outline::Other,
        TyForm::Boolean => Outline::Other,
        TyForm::Character => Outline::Other,
        TyForm::Integer => Outline::Integer,
        TyForm::Null => Outline::Other,
        TyForm::Array(_) => Outline::Other,
        TyForm::Stream(_) => Outline::Stream,
        TyForm::Record(list) => Outline::Record(sorts.length(list)),
        TyForm::Union(list) => Outline::Union(sorts.length(list)),
    }
}

fn sort_outline(sorts: &Sorts, form: SortForm) -> Outline
    ensures { (s : Sort) → IsSortForm sorts.now.shapes s form → result ≡ outline_of (Some s) }
{
    match form {
        SortForm::Value(ty) => type_outline(sorts, sorts.ty(ty as usize)),
        SortForm::Function(arguments, results) => {
            Outline::Function(sorts.length(arguments), sorts.length(results))
        }
        SortForm::Multiple(_) => Outline::Other,
        SortForm::Nothing => Outline::Other,
    }
}

fn outline_by(sorts: &Sorts, label: u32) -> Outline
    requires { IsStrictlyIncreasing sorts.now.labels }
    ensures { (ts : List TypeEntry) → AreSorts ts sorts.now.labels sorts.now.numbers → Stand ts sorts.now.shapes sorts.now.labels sorts.now.numbers → result ≡ outline_of (sort_at ts label) }
{
    let number = sorts.number(label);
    if number == 0 {
        return Outline::Nothing;
    }
    sort_outline(sorts, sorts.sort(number))
}

/// What ports depend on of what the labels of a type table stand for. Takes time near linear in the
/// types.
pub fn outlines_of(alloc: Global, sorts: &Sorts, types: &[TypeEntry]) -> Result<Outlines, NoMemory>
    requires rising { IsStrictlyIncreasing (map (λ e. e.label) types.now) }
    requires numbers { IsNumbering types.now sorts.now }
    ensures { IfOk result (λ o. (l : ℕ) → types_in o l ≡ outline_of (sort_at types.now l)) }
{
    let mut labels = Seq::with_room(alloc, types.len())?;
    let mut rows = Seq::with_room(alloc, types.len())?;
    for entry in types {
        rows.add(outline_by(sorts, entry.label))?;
        labels.add(entry.label)?;
    }
    Ok(Outlines { labels, rows })
}
