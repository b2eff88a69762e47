//! Sizes, and the stack of them.

ghost use Rattle.std.specs.Prelude.{◌≡◌, ◌+◌, ◌≤◌, ◌<◌, ◌∷◌, List, [], OnOk, IfOk, drop, length, max, take};
ghost use Rattle.sisal_depth.specs.Sizes.{at, capped, deepest, growth, no_growth};

use flow_value::{NoMemory, Seq};
use std::alloc::Global;
use std::marker::Model;

/// The greatest number that is counted: one above the greatest depth that an expression may have.
const MOST: u32 = 201;

/// The size of a value; the first three numbers are counted up to 201.
#[derive(Clone, Copy)]
pub struct Growth {
    /// How many operators or selectors these are, each of which makes what stands before them one
    /// deeper.
    pub adds: u16,
    /// The depth that operators or selectors have with nothing before them.
    pub along: u16,
    /// The depth of the deepest expression.
    pub least: u16,
    /// The line on which the deepest expression begins.
    pub line: u32,
}

/// A number, counted up to 201.
fn cap(number: u32) -> u16
    ensures { result ≡ capped number }
{
    number.min(MOST) as u16
}

/// The size of these numbers.
pub fn counted(adds: u32, along: u32, least: u32, line: u32) -> Growth
    ensures { result ≡ growth adds along least line }
{
    Growth {
        adds: cap(adds),
        along: cap(along),
        least: cap(least),
        line,
    }
}

/// A stack of sizes, the first symbol's on top.
#[derive(Drop)]
pub struct Sizes {
    items: Seq<Growth>,
}

impl Model for Sizes {
    ghost use Rattle.std.specs.Prelude.{List, reverse};
    ghost use Rattle.sisal_depth.specs.declared.sizes.Growth.{Growth};

    ghost Value = { List Growth };

    ghost view = { λ w. reverse w.items };
}

impl Sizes {
    /// No sizes; takes no memory.
    pub fn new(alloc: Global) -> Sizes
        ensures { result ≡ [] }
    {
        Sizes {
            items: Seq::new(alloc),
        }
    }

    /// Puts a size on top.
    pub fn push(&mut self, size: Growth) -> Result<(), NoMemory>
        ensures { OnOk result (self.new ≡ size ∷ self.old) }
    {
        self.items.add(size)
    }

    /// The size at this place among so many on top; the size of nothing where there is none.
    pub fn part(&self, place: usize, count: usize) -> Growth
        ensures { result ≡ at place (take count self.now) }
    {
        let items = self.items.as_slice();
        if place < count && place < items.len() {
            items[items.len() - 1 - place]
        } else {
            counted(0, 0, 0, 0)
        }
    }

    /// The depth of the deepest of so many on top.
    #[tactic(auto, using(crate::proofs::Stacks::deepest_from, crate::proofs::Stacks::none_left))]
    pub fn deepest(&self, count: usize) -> u16
        ensures { result ≡ deepest (take count self.now) }
    {
        let mut deepest: u16 = 0;
        for place in 0..count {
            deepest = deepest.max(self.part(place, count).least);
        }
        deepest
    }

    /// Takes so many sizes off the top.
    pub fn skip(&mut self, count: usize)
        ensures { self.new ≡ drop count self.old }
    {
        let mut left = count;
        while left > 0 {
            left -= 1;
            self.skip_one();
        }
    }

    /// Takes the size off the top, if there is one.
    fn skip_one(&mut self)
        ensures { self.new ≡ drop 1 self.old }
    {
        let _ = self.items.pop();
    }
}
