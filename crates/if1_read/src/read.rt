//! A unit from its text.
ghost use Rattle.std.specs.Prelude.{◌≡◌, ◌≢◌, ◌-◌, ◌^◌, ◌<◌, ◌≤◌, ◌==◌, true, false, None, List, length, ℕ, suc, if◌then◌else◌, bytes_eq, IfOk, IfErr, OnOk};
ghost use Rattle.std.specs.List.{list_any, flat_map};
ghost use Rattle.if1_graph.specs.declared.fault.If1Fault.TheVariants as if1_fault;
ghost use Rattle.if1_graph.specs.declared.graph.Unit1.{Unit1};
ghost use Rattle.if1_graph.specs.Formed.{most};
ghost use Rattle.if1_graph.specs.Reads.{ReadsIf1};
ghost use Rattle.if1_read.specs.Entries.{entries_of};
ghost use Rattle.if1_read.specs.Faults.{IsFaultOf};
ghost use Rattle.if1_read.specs.Known.{IsTableSound};
ghost use Rattle.if1_read.specs.Least.{earlier, least};
ghost use Rattle.if1_read.specs.Pages.{sheet_faults};
ghost use Rattle.if1_read.specs.Putting.{IsPut, AreSorted, SortsOn, AreSortedOut};
ghost use Rattle.if1_read.specs.Rows.{many_types, wrong_label};
ghost use Rattle.if1_read.specs.Rulings.{rules_of};
ghost use Rattle.if1_read.specs.Sheets.{sheets_around};
ghost use Rattle.if1_read.specs.Sorting.{with_name, has_name, spot_next};
ghost use Rattle.if1_read.specs.Stands.{lines_of};
ghost use Rattle.if1_read.specs.Whole.{HasRoom, IsWhole, IsRefused};

use crate::fault::{Fault, Kind, after, refusal};
use crate::judge::Known;
use crate::level::{Level, graphs_of};
use crate::lines::read_lines;
use crate::machine::{Machine, run};
use crate::names::Names;
use crate::number::number_parts;
use crate::table::{LinedEntry, MOST, table_of};
use flow_value::{NoMemory, Seq};
use if1_graph::{If1Fault, Line, TypeEntry, Unit1};
use std::alloc::Global;

/// The lines by what they say: types, and what says something of graphs.
#[derive(Drop)]
struct Sorted {
    entries: Vec<LinedEntry>,
    lines: Vec<(u32, Line)>,
    first: Option<Fault>,
}

/// The number of the next line.
fn next_number(number: u32) -> u32
    requires { suc number < 2 ^ 32 }
    ensures { result ≡ suc number }
{
    number + 1
}

fn too_many(before: usize) -> Option<Kind>
    ensures is { result ≡ many_types before }
    ensures room { result ≡ None → before ≢ most }
{
    if before >= MOST {
        Some(Kind::TooMany)
    } else {
        None
    }
}

/// What is wrong with a `}` line of this label: one without a label does not read.
fn wrong_label(label: u32) -> Option<Kind>
    ensures is { result ≡ wrong_label label }
    ensures some { result ≡ None → label ≢ 0 }
{
    if label == 0 { Some(Kind::Bad) } else { None }
}

fn put(sorted: Sorted, number: u32, line: Option<Line>) -> Result<Sorted, NoMemory>
    ensures clean { IfOk result (λ s. s.first ≡ None → sorted.first ≡ None) }
    ensures puts { IfOk result (λ s. s.first ≡ None → IsPut line (entries_of sorted.entries.items) (entries_of s.entries.items) (lines_of sorted.lines.items) (lines_of s.lines.items)) }
    ensures sorts { IfOk result (λ s. SortsOn number line sorted s) }
{
    let Sorted {
        mut entries,
        mut lines,
        first,
    } = sorted;
    match line {
        None => Ok(Sorted {
            entries,
            lines,
            first: after(first, number, Some(Kind::Bad)),
        }),
        Some(Line::Blank) => Ok(Sorted {
            entries,
            lines,
            first,
        }),
        Some(
            Line::Entry {
                label,
                code,
                first: one,
                second,
                name,
            },
        ) => {
            let wrong = too_many(entries.len());
            entries.push((
                number,
                TypeEntry {
                    label,
                    code,
                    first: one,
                    second,
                    name,
                },
            ))?;
            Ok(Sorted {
                entries,
                lines,
                first: after(first, number, wrong),
            })
        }
        Some(
            Line::Close {
                label,
                op,
                count,
                assoc,
                before,
                name,
            },
        ) => {
            let wrong = wrong_label(label);
            let line = Line::Close {
                label,
                op,
                count,
                assoc,
                before,
                name,
            };
            lines.push((number, line))?;
            Ok(Sorted {
                entries,
                lines,
                first: after(first, number, wrong),
            })
        }
        Some(line) => {
            lines.push((number, line))?;
            Ok(Sorted {
                entries,
                lines,
                first,
            })
        }
    }
}

fn sort_out(alloc: Global, lines: Seq<Option<Line>>) -> Result<Sorted, NoMemory>
    requires { length lines < 2 ^ 32 }
    ensures read { IfOk result (λ s. s.first ≡ None → AreSorted lines (entries_of s.entries.items) (lines_of s.lines.items)) }
    ensures sorted { IfOk result (λ s. AreSortedOut lines s) }
{
    let mut sorted = Sorted {
        entries: Vec::new(alloc),
        lines: Vec::new(alloc),
        first: None,
    };
    let mut number = 0;
    for line in lines.into_vec() {
        number = next_number(number);
        sorted = put(sorted, number, line)?;
    }
    Ok(sorted)
}

/// Where a line stands: inside so many open compound nodes, of which the innermost one, or the
/// unit, has a graph whose lines are read or has none.
#[derive(Clone, Copy)]
struct Spot {
    depth: usize,
    reading: bool,
}

fn named(spot: Spot, reading: bool) -> Spot
    ensures { result ≡ (if spot.depth == 0 then record { depth = spot.depth; reading = reading } else spot) }
{
    if spot.depth == 0 {
        Spot {
            depth: spot.depth,
            reading,
        }
    } else {
        spot
    }
}

fn begun(spot: Spot) -> Spot
    ensures { result ≡ (if spot.depth == 0 then spot else record { depth = spot.depth; reading = true }) }
{
    if spot.depth == 0 {
        spot
    } else {
        Spot {
            depth: spot.depth,
            reading: true,
        }
    }
}

fn opened(spot: Spot) -> Spot
    requires { suc spot.depth < 2 ^ 64 }
    ensures { result ≡ (if spot.reading then record { depth = suc spot.depth; reading = false } else spot) }
{
    if spot.reading {
        Spot {
            depth: spot.depth + 1,
            reading: false,
        }
    } else {
        spot
    }
}

fn closed(spot: Spot) -> Spot
    ensures { result ≡ (if spot.depth == 0 then spot else record { depth = spot.depth - 1; reading = true }) }
{
    if spot.depth == 0 {
        spot
    } else {
        Spot {
            depth: spot.depth - 1,
            reading: true,
        }
    }
}

fn spot_after(spot: Spot, line: &Line) -> Spot
    requires { suc spot.depth < 2 ^ 64 }
    ensures { result ≡ spot_next line.now spot }
{
    match line {
        Line::Function { .. } => named(spot, true),
        Line::Import { .. } => named(spot, false),
        Line::Subgraph { .. } => begun(spot),
        Line::Open { .. } => opened(spot),
        Line::Close { .. } => closed(spot),
        _ => spot,
    }
}

/// Where the line behind this one stands, one compound node deeper at most.
fn next_spot(spot: Spot, line: &Line) -> Spot
    requires { suc spot.depth < 2 ^ 64 }
    ensures spot { result ≡ spot_next line.now spot }
    ensures shallow { result.depth ≤ suc spot.depth }
{
    spot_after(spot, line)
}

fn add_name(alloc: Global, names: &mut Names, spot: Spot, line: &Line) -> Result<(), NoMemory>
    ensures { OnOk result ((t : List ℕ) → list_any (λ n. bytes_eq n t) names.new ≡ with_name t spot (list_any (λ n. bytes_eq n t) names.old) line.now) }
{
    match line {
        Line::Function { name, .. } if spot.depth == 0 => {
            names.add(Seq::from_slice(alloc, name.as_slice())?)
        }
        _ => Ok(()),
    }
}

/// The names of the functions of the unit.
fn names_in(alloc: Global, lines: &[(u32, Line)]) -> Result<Names, NoMemory>
    ensures { IfOk result (λ names. (t : List ℕ) → list_any (λ n. bytes_eq n t) names ≡ has_name t (lines_of lines.now)) }
{
    let mut names = Names::new(alloc);
    let mut spot = Spot {
        depth: 0,
        reading: false,
    };
    for line in lines {
        add_name(alloc, &mut names, spot, &line.1)?;
        spot = next_spot(spot, &line.1);
    }
    Ok(names)
}

/// The fault that is named when the graphs of levels have ended, of which the last is the innermost.
fn all_ended(
    alloc: Global,
    known: &Known,
    levels: Vec<Level>,
    first: Option<Fault>,
) -> Result<Option<Fault>, NoMemory>
    ensures clean { IfOk result (λ o. o ≡ None → first ≡ None) }
    ensures found { IfOk result (λ o. IsTableSound known.now.table → o ≡ earlier first (least (flat_map (sheet_faults (rules_of known.now)) (sheets_around levels.items)))) }
{
    let mut first = first;
    for level in levels {
        let (_, named) = graphs_of(alloc, known, level, first)?;
        first = named;
    }
    Ok(first)
}

/// The unit when its lines have ended.
fn whole(alloc: Global, known: Known, machine: Machine) -> Result<Unit1, If1Fault>
    requires sound { IsTableSound known.table }
    requires room { HasRoom known machine }
    ensures read { IfOk result (λ u. IsTableSound known.table → IsWhole known machine u) }
    ensures fault { IfErr result (λ e. IsTableSound known.table → IsRefused known machine e) }
{
    let Machine {
        imports,
        outer,
        level,
        first,
    } = machine;
    let is_closed = outer.is_empty();
    let (mut graphs, first) = graphs_of(alloc, &known, level, first)?;
    let first = all_ended(alloc, &known, outer, first)?;
    if let Some(fault) = first {
        return Err(refusal(fault));
    }
    if !is_closed {
        return Err(If1Fault::Unclosed);
    }
    number_parts(&mut graphs, 0);
    let Known { table, names: _ } = known;
    Ok(Unit1 {
        types: table.types,
        imports,
        graphs,
    })
}

/// The unit that an IF1 text gives, in normal order (IF1 manual M-170, text form).
///
/// A refusal names the first line at fault, and of several faults of that line the one of the
/// least number; a text with no such line is refused where a compound node stays open, and else
/// for want of memory alone. A text has fewer than 2^32 bytes.
pub fn read_if1(alloc: Global, text: &[u8]) -> Result<Unit1, If1Fault>
    requires { length text.now < 2 ^ 32 }
    ensures read { IfOk result (λ u. ReadsIf1 text.now u) }
    ensures fault { IfErr result (λ e. IsFaultOf text.now e) }
    ensures only { IfErr result (λ e. (u : Unit1) → ReadsIf1 text.now u → e ≡ if1_fault.NoMemory) }
{
    let lines = read_lines(alloc, text)?;
    let Sorted {
        entries,
        lines,
        first,
    } = sort_out(alloc, lines)?;
    let names = names_in(alloc, lines.as_slice())?;
    let (table, first) = table_of(alloc, entries, first)?;
    let known = Known { table, names };
    let machine = run(alloc, &known, lines, first)?;
    whole(alloc, known, machine)
}
