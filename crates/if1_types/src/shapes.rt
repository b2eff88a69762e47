//! Trees by number.
ghost use Rattle.std.specs.Prelude.{◌≡◌, ℕ, ◌≤◌, ◌<◌, ◌^◌, [], length, suc, IfOk};
ghost use Rattle.if1_types.specs.Trees.{Tree, node, over, over_both, kind_number};
ghost use Rattle.if1_types.specs.Shapes.{trees_in, tree_at, members_in, key_at, HasKeys, IsKeyOf, IsOnce, IsLater, Stands};

use crate::kind::{Kind, kind_number};
use flow_value::NoMemory;
use indexmap::IndexMap;
use std::alloc::Global;
use std::marker::Model;

/// The trees that there are, each under its kind and the numbers of its parts, with a count of the
/// members where it is a list.
#[derive(Drop)]
pub struct Shapes {
    keys: IndexMap<(u32, u32, u32), u32>,
}

impl Model for Shapes {
    ghost use Rattle.std.specs.Prelude.{List};
    ghost use Rattle.std.specs.Map.{keys_of};
    ghost use Rattle.if1_types.specs.Shapes.{Key, AreHeld};

    ghost Value = { List Key };

    ghost view = { λ s. keys_of s.keys.entries };

    ghost invariant = { λ s. AreHeld s.keys.entries };
}

impl Shapes {
    /// No trees; takes no memory.
    pub fn new(alloc: Global) -> Shapes
        ensures { result ≡ [] }
    {
        Shapes {
            keys: IndexMap::new(alloc),
        }
    }

    /// The allocator.
    pub fn allocator(&self) -> Global {
        *self.keys.allocator()
    }

    /// The number of the tree of a kind and two parts, which is a new one where it is not there yet.
    pub fn number(&mut self, kind: Kind, first: u32, second: u32) -> Result<u32, NoMemory>
        requires first { first ≤ length (trees_in self.old) }
        requires second { second ≤ length (trees_in self.old) }
        requires room { suc (length (trees_in self.old)) < 2 ^ 32 }
        ensures number { IfOk result (λ n. Stands (trees_in self.new) n (node (kind_number kind) (tree_at (trees_in self.old) first) (tree_at (trees_in self.old) second))) }
        ensures later { IsLater (trees_in self.old) (trees_in self.new) }
        ensures grows { length (trees_in self.new) ≤ suc (length (trees_in self.old)) }
        ensures once { IfOk result (λ n. IsOnce (trees_in self.old)) }
    {
        self.number_by(kind_number(kind), first, second)
    }

    /// The same, by the number of the kind.
    fn number_by(&mut self, kind: u32, first: u32, second: u32) -> Result<u32, NoMemory>
        requires first { first ≤ length (trees_in self.old) }
        requires second { second ≤ length (trees_in self.old) }
        requires room { suc (length (trees_in self.old)) < 2 ^ 32 }
        ensures number { IfOk result (λ n. Stands (trees_in self.new) n (node kind (tree_at (trees_in self.old) first) (tree_at (trees_in self.old) second))) }
        ensures later { IsLater (trees_in self.old) (trees_in self.new) }
        ensures grows { length (trees_in self.new) ≤ suc (length (trees_in self.old)) }
        ensures once { IfOk result (λ n. IsOnce (trees_in self.old)) }
    {
        let key = (kind, first, second);
        if let Some(place) = self.keys.get_index_of(&key) {
            let found = number_after(place);
            return Ok(found);
        }
        let number = number_after(self.keys.len());
        let members = self.members_over(kind, second);
        self.keys.insert(key, members)?;
        Ok(number)
    }

    /// The number of a tree over one part; nothing is over nothing.
    pub fn over(&mut self, kind: Kind, part: u32) -> Result<u32, NoMemory>
        requires part { part ≤ length (trees_in self.old) }
        requires room { suc (length (trees_in self.old)) < 2 ^ 32 }
        ensures number { IfOk result (λ n. Stands (trees_in self.new) n (over (kind_number kind) (tree_at (trees_in self.old) part))) }
        ensures later { IsLater (trees_in self.old) (trees_in self.new) }
        ensures grows { length (trees_in self.new) ≤ suc (length (trees_in self.old)) }
    {
        if part == 0 {
            return Ok(0);
        }
        let number = self.number(kind, part, 0)?;
        Ok(number)
    }

    /// The number of a tree over two parts; nothing is over nothing.
    pub fn over_both(&mut self, kind: Kind, first: u32, second: u32) -> Result<u32, NoMemory>
        requires first { first ≤ length (trees_in self.old) }
        requires second { second ≤ length (trees_in self.old) }
        requires room { suc (length (trees_in self.old)) < 2 ^ 32 }
        ensures number { IfOk result (λ n. Stands (trees_in self.new) n (over_both (kind_number kind) (tree_at (trees_in self.old) first) (tree_at (trees_in self.old) second))) }
        ensures later { IsLater (trees_in self.old) (trees_in self.new) }
        ensures grows { length (trees_in self.new) ≤ suc (length (trees_in self.old)) }
    {
        if first == 0 {
            return Ok(0);
        }
        if second == 0 {
            return Ok(0);
        }
        let number = self.number(kind, first, second)?;
        Ok(number)
    }

    /// The kind of the tree of a number and the numbers of its parts; none where it has none.
    pub fn key(&self, number: usize) -> Option<(u32, u32, u32)>
        ensures is { result ≡ key_at self.now number }
        ensures of { IsKeyOf self.now number result }
    {
        if number == 0 {
            return None;
        }
        let (key, _) = self.keys.get_index(number - 1)?;
        Some(*key)
    }

    /// How many members the list of a number has; takes constant time.
    pub fn members(&self, number: u32) -> u32
        ensures { result ≡ members_in (tree_at (trees_in self.now) number) }
    {
        if number == 0 {
            return 0;
        }
        match self.keys.get_index(number as usize - 1) {
            Some((_, members)) => *members,
            None => 0,
        }
    }

    /// Above every number but the greatest. Each tree has one number, and its key is that of its parts.
    pub fn bound(&self) -> u32
        ensures bound { result ≤ length self.now }
        ensures once { IsOnce (trees_in self.now) }
        ensures keys { HasKeys self.now }
    {
        match u32::try_from(self.keys.len()) {
            Ok(count) => count,
            Err(_) => u32::MAX,
        }
    }

    /// How many members a tree of a kind has, over this second part.
    fn members_over(&self, kind: u32, second: u32) -> u32
        requires { suc (length (trees_in self.now)) < 2 ^ 32 }
        ensures { (a : Tree) → result ≡ members_in (node kind a (tree_at (trees_in self.now) second)) }
    {
        if kind != kind_number(Kind::Member) {
            return 0;
        }
        number_after(self.members(second) as usize)
    }
}

/// The number after a count.
fn number_after(count: usize) -> u32
    requires { suc count < 2 ^ 32 }
    ensures { result ≡ suc count }
{
    count as u32 + 1
}
