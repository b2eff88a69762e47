//! A list with room at both its ends.
ghost use Rattle.std.specs.Prelude.{◌≡◌, ◌<◌, ◌≤◌, ◌↔◌, [], ◌∷◌, ◌++◌, length, take, drop, slice_get, slice_set, Some, MatchOption, OnOk, OnErr, IfOk, IfErr, IsTrue, is_ok, if◌then◌else◌};

use crate::row::Row;
use std::alloc::{AllocError, Global};
use std::marker::Model;

/// A list whose items lie side by side in one block, with room at both ends: to add or take an item at an end takes constant
/// time, where room has to be made in proportion to the items, so that it does on the whole. Contracts see the list. It has
/// at most 4,294,967,295 places, and who asks for more is refused as for want of memory.
pub struct FrontList<T> {
    row: Row<T>,
}

impl<T> Model for FrontList<T> {
    ghost use Rattle.std.specs.Prelude.{List};
    ghost use Rattle.std.specs.Coded.{coded_list};

    ghost Value = { List T };

    ghost coded = { coded_list T.code };

    ghost use Rattle.flow_value.specs.Rows.{items_of, IsRow};

    ghost view = { λ l. items_of l.row };

    ghost invariant = { λ l. IsRow l.row };
}

impl<T> FrontList<T> {
    /// No items; takes no memory.
    pub fn new(alloc: Global) -> FrontList<T>
        ensures { result ≡ [] }
    {
        FrontList {
            row: Row::empty(alloc),
        }
    }

    /// No items, and room for so many at the end.
    pub fn with_room(alloc: Global, items: usize) -> Result<FrontList<T>, AllocError>
        ensures { IfOk result (λ l. l ≡ []) }
    {
        let Ok(room) = u32::try_from(items) else {
            return Err(AllocError);
        };
        Ok(FrontList {
            row: Row::with_room(alloc, 0, room)?,
        })
    }

    /// The items of a vector, of which there are at most 4,294,967,295. None is moved.
    pub fn from_vec(items: Vec<T>) -> FrontList<T>
        requires few { length items.items ≤ 4294967295 }
        ensures { result ≡ items.items }
    {
        let len = items.len();
        let alloc = *items.allocator();
        FrontList {
            row: Row::of_vec(alloc, items, len as u32),
        }
    }

    /// The vector of the items; takes no memory. They are moved where items were taken off at the front.
    pub fn into_vec(self) -> Vec<T>
        ensures { result.items ≡ self }
    {
        let FrontList { mut row } = self;
        row.settle();
        row.into_vec()
    }

    /// The items in order.
    pub fn as_slice(&self) -> &[T]
        ensures { result.now ≡ self.now }
    {
        self.row.as_slice()
    }

    /// The number of items.
    pub fn len(&self) -> usize
        ensures { result ≡ length self.now }
    {
        self.row.count()
    }

    /// Whether there is no item.
    pub fn is_empty(&self) -> bool
        ensures { IsTrue result ↔ (self.now ≡ []) }
    {
        self.row.count() == 0
    }

    /// Adds an item at the end where there is a place for it; takes no memory. Where there is none the item comes back, and
    /// the list is as it was.
    pub fn push_in_room(&mut self, item: T) -> Result<(), T>
        ensures list { self.new ≡ (if is_ok result then self.old ++ item ∷ [] else self.old) }
        ensures handed_back { IfErr result (λ y. y ≡ item) }
    {
        if !self.row.has_room() {
            return Err(item);
        }
        self.row.put_last(item);
        Ok(())
    }

    /// Adds an item at the end. On want of memory the item comes back, and the list is as it was.
    pub fn push(&mut self, item: T) -> Result<(), T>
        ensures list { self.new ≡ (if is_ok result then self.old ++ item ∷ [] else self.old) }
        ensures handed_back { IfErr result (λ y. y ≡ item) }
    {
        if self.row.has_room() || self.row.reserve_last(1) {
            self.row.put_last(item);
            return Ok(());
        }
        Err(item)
    }

    /// Adds an item at the front. On want of memory the item comes back, and the list is as it was.
    pub fn push_first(&mut self, item: T) -> Result<(), T>
        ensures list { self.new ≡ (if is_ok result then item ∷ self.old else self.old) }
        ensures handed_back { IfErr result (λ y. y ≡ item) }
    {
        if !self.row.reserve_first() {
            return Err(item);
        }
        self.row.put_first(item);
        Ok(())
    }

    /// Takes the last item off, if there is one.
    pub fn pop(&mut self) -> Option<T>
        ensures { MatchOption
            result
            ((self.old ≡ []) × (self.new ≡ []))
            (λ last. self.old ≡ self.new ++ last ∷ []) }
    {
        if self.row.count() == 0 {
            return None;
        }
        Some(self.row.take_last())
    }

    /// Takes the first item off, if there is one.
    pub fn take_first(&mut self) -> Option<T>
        ensures { MatchOption result ((self.old ≡ []) × (self.new ≡ [])) (λ first. self.old ≡ first ∷ self.new) }
    {
        if self.row.count() == 0 {
            return None;
        }
        Some(self.row.take_first())
    }

    /// Moves the items of `more` to the end. On want of memory `more` comes back, and the list is as it was.
    pub fn append(&mut self, more: FrontList<T>) -> Result<(), FrontList<T>>
        ensures list { self.new ≡ (if is_ok result then self.old ++ more else self.old) }
        ensures handed_back { IfErr result (λ back. back ≡ more) }
    {
        let FrontList { mut row } = more;
        if !self.row.reserve_last(row.len) {
            return Err(FrontList { row });
        }
        self.row.put_all(&mut row);
        row.free();
        Ok(())
    }

    /// An empty list with the allocator of this one.
    pub fn fresh(&self) -> FrontList<T>
        ensures { result ≡ [] }
    {
        FrontList::new(self.row.alloc)
    }

    fn free(self)
        requires { self ≡ [] }
    {
        let FrontList { row } = self;
        row.free();
    }
}

impl<T: Drop> FrontList<T> {
    /// Adds an item at the end, which is dropped on want of memory; the list is then as it was.
    pub fn add(&mut self, item: T) -> Result<(), AllocError>
        ensures ok { OnOk result (self.new ≡ self.old ++ item ∷ []) }
        ensures err { OnErr result (self.new ≡ self.old) }
    {
        match self.push(item) {
            Ok(()) => Ok(()),
            Err(_) => Err(AllocError),
        }
    }

    /// Adds an item at the front, which is dropped on want of memory; the list is then as it was.
    pub fn add_first(&mut self, item: T) -> Result<(), AllocError>
        ensures ok { OnOk result (self.new ≡ item ∷ self.old) }
        ensures err { OnErr result (self.new ≡ self.old) }
    {
        match self.push_first(item) {
            Ok(()) => Ok(()),
            Err(_) => Err(AllocError),
        }
    }

    /// Changes the item at a place, counted from 0.
    pub fn set(&mut self, place: usize, item: T)
        requires { place < length self.old }
        ensures { self.new ≡ slice_set self.old place item }
    {
        let _count = self.row.count();
        drop(self.row.replace(place, item));
    }

    /// Keeps the first `n` items.
    pub fn truncate(&mut self, n: usize)
        ensures { self.new ≡ take n self.old }
    {
        self.row.keep_first(n);
    }

    /// The item at a place, counted from 0. The others are dropped.
    pub fn into_item(mut self, place: usize) -> T
        requires { place < length self }
        ensures { slice_get self place ≡ Some result }
    {
        let _length = self.len();
        self.truncate(place + 1);
        match self.pop() {
            Some(item) => item,
            None => unreachable!(),
        }
    }

    /// Drops the first `n` items.
    pub fn drop_first(&mut self, n: usize)
        requires { n ≤ length self.old }
        ensures { self.new ≡ drop n self.old }
    {
        let _count = self.row.count();
        self.row.drop_first(n);
    }
}

impl<T: Drop> Drop for FrontList<T> {
    fn drop(mut self) {
        self.truncate(0);
        self.free();
    }
}
