//! The lists.
ghost use Rattle.std.specs.Prelude.{◌≡◌, ◌++◌, true, replicate, get_or, IfOk, IfSome, OnOk};
ghost use Rattle.gapped.specs.Spread.{AreNone, spread};

use flow_value::{NoMemory, Numbers, Seq};
use std::alloc::Global;
use std::marker::Model;

/// A list of which many items may be one and the same, the filler. Only the others are kept, each with
/// how many fillers stand before it. Contracts see the whole list.
#[derive(Drop)]
pub struct Gapped<T> {
    filler: T,
    gaps: Numbers,
    items: Seq<T>,
}

impl<T> Model for Gapped<T> {
    ghost use Rattle.std.specs.Prelude.{List};
    ghost use Rattle.std.specs.Coded.{coded_list};
    ghost use Rattle.gapped.specs.Spread.{spread};

    ghost Value = { List T };

    ghost coded = { coded_list T.code };

    ghost view = { λ s. spread s.filler s.gaps s.items };
}

/// What is kept of a list.
#[derive(Clone, Copy)]
pub struct Items<'a, T> {
    /// What stands before items.
    pub filler: T,
    /// How many fillers stand before each item; none where there are no numbers.
    pub gaps: &'a [u32],
    /// The items.
    pub items: &'a [T],
}

impl<T> Gapped<T> {
    /// These items, with no filler before any; takes no memory.
    pub fn all(alloc: Global, filler: T, items: Seq<T>) -> Gapped<T>
        ensures { result ≡ items }
    {
        Gapped {
            filler,
            gaps: Numbers::new(alloc),
            items,
        }
    }

    /// These items, with so many fillers before each; takes no memory.
    pub fn new(filler: T, gaps: Numbers, items: Seq<T>) -> Gapped<T>
        ensures { result ≡ spread filler gaps items }
    {
        Gapped {
            filler,
            gaps,
            items,
        }
    }
}

/// How many fillers stand before an item.
fn gap_at(gaps: &[u32], place: usize) -> u32
    ensures { result ≡ get_or gaps.now place 0 }
{
    match gaps.get(place) {
        Some(gap) => *gap,
        None => 0,
    }
}

fn add_fillers<T: Copy>(list: &mut Seq<T>, filler: T, many: u32) -> Result<(), NoMemory>
    ensures { OnOk result (list.new ≡ list.old ++ replicate many filler) }
{
    for count in 0..many {
        list.add(filler)?;
    }
    Ok(())
}

/// Whether no filler stands before any item.
fn are_none(gaps: &[u32]) -> bool
    ensures { result ≡ true → AreNone gaps.now }
{
    for gap in gaps {
        if *gap != 0 {
            return false;
        }
    }
    true
}

/// These items in a list of their own, with so many fillers before each.
pub fn spread_out<T: Copy>(
    alloc: Global,
    filler: T,
    gaps: &[u32],
    items: &[T],
) -> Result<Seq<T>, NoMemory>
    ensures { IfOk result (λ xs. xs ≡ spread filler gaps.now items.now) }
{
    let mut list = Seq::with_room(alloc, items.len())?;
    for place in 0..items.len() {
        add_fillers(&mut list, filler, gap_at(gaps, place))?;
        list.add(items[place])?;
    }
    Ok(list)
}

impl<T: Copy> Gapped<T> {
    /// What is kept.
    pub fn kept(&self) -> Items<'_, T>
        ensures { self.now ≡ spread result.filler result.gaps.now result.items.now }
    {
        Items {
            filler: self.filler,
            gaps: self.gaps.as_slice(),
            items: self.items.as_slice(),
        }
    }

    /// All items, where no filler stands before any.
    #[tactic(auto, using(crate::proofs::Spreading::spread_of_none))]
    pub fn whole(&self) -> Option<&[T]>
        ensures { IfSome result (λ xs. xs.now ≡ self.now) }
    {
        if are_none(self.gaps.as_slice()) {
            Some(self.items.as_slice())
        } else {
            None
        }
    }

    /// All items in a list of their own.
    pub fn listed(&self, alloc: Global) -> Result<Seq<T>, NoMemory>
        ensures { IfOk result (λ xs. xs ≡ self.now) }
    {
        spread_out(
            alloc,
            self.filler,
            self.gaps.as_slice(),
            self.items.as_slice(),
        )
    }
}
