//! The fields of a list, and the steps that keep its items side by side.
ghost use Rattle.std.specs.Prelude.{◌≡◌, ◌+◌, ◌<◌, ◌≤◌, ◌↔◌, [], ◌∷◌, ◌++◌, length, take, drop, slice_set, IfOk, IfSome, IsTrue};
ghost use Rattle.std.specs.Vec.{vec_capacity};
ghost use Rattle.flow_value.specs.Rows.{items_of, places_of, IsRow, Becomes};

use crate::block::{Block, attach, detach};
use std::alloc::{AllocError, Global};
use std::mem;

/// The `len` items lie side by side from the place `first` on. The places before and behind them are empty.
pub struct Row<T> {
    pub(crate) block: Block<T>,
    pub(crate) room: usize,
    pub(crate) first: u32,
    pub(crate) len: u32,
    pub(crate) alloc: Global,
}

impl<T> Row<T> {
    /// A row of no places; takes no memory.
    pub(crate) fn empty(alloc: Global) -> Row<T>
        ensures { IsRow result × (items_of result ≡ []) }
    {
        Row::of_vec(alloc, Vec::new(alloc), 0)
    }

    /// The items of a vector, of which there are `len`. None is moved.
    pub(crate) fn of_vec(alloc: Global, mut vec: Vec<T>, len: u32) -> Row<T>
        requires { length vec.items ≡ len }
        ensures row { IsRow result × (items_of result ≡ vec.items) × (result.first ≡ 0) × (result.len ≡ len) }
        ensures room { result.room ≡ vec_capacity vec }
    {
        let at = vec.as_mut_ptr();
        let room = vec.capacity();
        let (block, left) = detach(vec, at, room);
        left.destroy_empty();
        Row {
            block,
            room,
            first: 0,
            len,
            alloc,
        }
    }

    /// Moves the items to the first places.
    pub(crate) fn settle(&mut self)
        requires { IsRow self.old }
        ensures { IsRow self.new × (items_of self.new ≡ items_of self.old) × (self.new.first ≡ 0) }
    {
        if self.first > 0 {
            let mut place = 0;
            while place < self.len as usize {
                let item = self.block.read(self.first as usize + place);
                self.block.write(place, item);
                place += 1;
            }
            self.first = 0;
        }
    }

    /// The vector of the items, which begin at the first place. None is moved.
    pub(crate) fn into_vec(self) -> Vec<T>
        requires { IsRow self × (self.first ≡ 0) }
        ensures { result.items ≡ items_of self }
    {
        let Row {
            block,
            room,
            first: _,
            len,
            alloc,
        } = self;
        attach(block, Vec::new(alloc), len as usize, room)
    }

    /// A row of `room` places with no item, whose first will stand behind `first` places.
    pub(crate) fn with_room(alloc: Global, first: u32, room: u32) -> Result<Row<T>, AllocError>
        requires { first ≤ room }
        ensures { IfOk result (λ r. IsRow r × (r.first ≡ first) × (r.len ≡ 0) × (places_of r ≡ room) × (items_of r ≡ [])) }
    {
        let row = Row::of_vec(alloc, Vec::with_capacity(alloc, room as usize)?, 0);
        Ok(row.begun(first))
    }

    /// An empty row whose first item will stand behind `first` places.
    fn begun(self, first: u32) -> Row<T>
        requires { IsRow self × (self.len ≡ 0) × (first ≤ self.room) }
        ensures { IsRow result × (result.first ≡ first) × (result.len ≡ 0) × (result.room ≡ self.room) × (items_of result ≡ []) }
    {
        let Row {
            block,
            room,
            first: _,
            len,
            alloc,
        } = self;
        Row {
            block,
            room,
            first,
            len,
            alloc,
        }
    }

    /// Gives the memory of a row without items back.
    pub(crate) fn free(self)
        requires { IsRow self × (items_of self ≡ []) }
    {
        self.begun(0).into_vec().destroy_empty();
    }

    /// Adds an item at the end, where there is an empty place.
    pub(crate) fn put_last(&mut self, item: T)
        requires row { IsRow self.old }
        requires room { self.old.first + self.old.len < places_of self.old }
        ensures items { Becomes self.old self.new (items_of self.old ++ item ∷ []) }
        ensures ends { (self.new.first ≡ self.old.first) × (self.new.len ≡ self.old.len + 1) }
    {
        self.block
            .write(self.first as usize + self.len as usize, item);
        self.len += 1;
    }

    /// Adds an item at the front, where there is an empty place.
    pub(crate) fn put_first(&mut self, item: T)
        requires { IsRow self.old × (0 < self.old.first) }
        ensures { Becomes self.old self.new (item ∷ items_of self.old) }
    {
        let place = self.first - 1;
        self.block.write(place as usize, item);
        self.first = place;
        self.len += 1;
    }

    /// Takes the last item off.
    pub(crate) fn take_last(&mut self) -> T
        requires { IsRow self.old × (0 < self.old.len) }
        ensures row { IsRow self.new × (self.new.room ≡ self.old.room) × (self.new.len + 1 ≡ self.old.len) }
        ensures items { items_of self.old ≡ items_of self.new ++ result ∷ [] }
    {
        let left = self.len - 1;
        let item = self.block.read(self.first as usize + left as usize);
        self.len = left;
        item
    }

    /// Takes the first item off.
    pub(crate) fn take_first(&mut self) -> T
        requires { IsRow self.old × (0 < self.old.len) }
        ensures row { IsRow self.new × (self.new.room ≡ self.old.room) × (self.new.len + 1 ≡ self.old.len) }
        ensures items { items_of self.old ≡ result ∷ items_of self.new }
    {
        let place = self.first;
        let item = self.block.read(place as usize);
        self.first = place + 1;
        self.len -= 1;
        item
    }

    /// Puts another item at a place, counted from 0, and gives the one that was there.
    pub(crate) fn replace(&mut self, place: usize, item: T) -> T
        requires { IsRow self.old × (place < self.old.len) }
        ensures { Becomes self.old self.new (slice_set (items_of self.old) place item) }
    {
        let at = self.first as usize + place;
        let old = self.block.read(at);
        self.block.write(at, item);
        old
    }

    /// The number of items.
    pub(crate) fn count(&self) -> usize
        requires { IsRow self.now }
        ensures items { result ≡ length (items_of self.now) }
        ensures len { result ≡ self.now.len }
    {
        self.len as usize
    }

    pub(crate) fn as_slice(&self) -> &[T]
        requires { IsRow self.now }
        ensures items { result.now ≡ items_of self.now }
        ensures len { length result.now ≡ self.now.len }
    {
        self.block.slice(self.first as usize, self.len as usize)
    }

    /// How many places can be counted.
    fn places(&self) -> usize
        ensures { result ≡ places_of self.now }
    {
        self.room.min(u32::MAX as usize)
    }

    /// Whether there is an empty place at the end.
    #[inline(always)]
    pub(crate) fn has_room(&self) -> bool
        requires { IsRow self.now }
        ensures { IsTrue result ↔ (self.now.first + self.now.len < places_of self.now) }
    {
        self.first as usize + (self.len as usize) < self.places()
    }

    /// Moves the items to `room` new places, the first of them behind `first` places, and returns whether it could.
    pub(crate) fn refill(&mut self, first: u32, room: u32) -> bool
        requires { IsRow self.old × (first + self.old.len ≤ room) }
        ensures items { IsRow self.new × (items_of self.new ≡ items_of self.old) × (self.new.len ≡ self.old.len) }
        ensures room { IsTrue result → (self.new.first ≡ first) × (places_of self.new ≡ room) }
    {
        let Ok(mut other) = Row::with_room(self.alloc, first, room) else {
            return false;
        };
        mem::swap(self, &mut other);
        self.put_all(&mut other);
        other.free();
        true
    }

    /// Makes sure of empty places for `more` items behind items that begin at the first place, and returns whether it could.
    fn grow(&mut self, more: u32) -> bool
        requires { IsRow self.old × (self.old.first ≡ 0) }
        ensures items { IsRow self.new × (items_of self.new ≡ items_of self.old) }
        ensures room { IsTrue result → self.new.first + self.new.len + more ≤ places_of self.new }
    {
        let len = self.len;
        if u32::MAX - len < more {
            return false;
        }
        let mut vec = mem::replace(self, Row::empty(self.alloc)).into_vec();
        match vec.reserve(more as usize) {
            Ok(()) => {
                self.hold(vec, len);
                true
            }
            Err(_) => {
                self.hold(vec, len);
                false
            }
        }
    }

    /// Makes an empty row that of a vector, which has `len` items.
    fn hold(&mut self, vec: Vec<T>, len: u32)
        requires empty { IsRow self.old × (items_of self.old ≡ []) }
        requires len { length vec.items ≡ len }
        ensures row { IsRow self.new × (items_of self.new ≡ vec.items) × (self.new.first ≡ 0) × (self.new.len ≡ len) }
        ensures room { self.new.room ≡ vec_capacity vec }
    {
        mem::replace(self, Row::of_vec(self.alloc, vec, len)).free();
    }

    /// Makes sure of empty places for `more` items at the end, and returns whether it could. Where it moves the items, it
    /// leaves room in proportion to them.
    pub(crate) fn reserve_last(&mut self, more: u32) -> bool
        requires { IsRow self.old }
        ensures items { IsRow self.new × (items_of self.new ≡ items_of self.old) }
        ensures room { IsTrue result → self.new.first + self.new.len + more ≤ places_of self.new }
    {
        if more as usize <= self.places() - (self.first as usize + self.len as usize) {
            return true;
        }
        if self.first == 0 {
            return self.grow(more);
        }
        let first = self.first.min(self.len);
        let behind = self.len.saturating_add(4).max(more);
        match counted(first, self.len, behind) {
            Some(room) => self.refill(first, room),
            None => false,
        }
    }

    /// Makes sure of an empty place for one more item at the front, and returns whether it could.
    pub(crate) fn reserve_first(&mut self) -> bool
        requires { IsRow self.old }
        ensures items { IsRow self.new × (items_of self.new ≡ items_of self.old) }
        ensures room { IsTrue result → 0 < self.new.first }
    {
        if self.first > 0 {
            return true;
        }
        let first = self.len.saturating_add(4);
        let behind = (self.places() - self.len as usize).min(self.len as usize);
        match counted(first, self.len, behind as u32) {
            Some(room) => self.refill(first, room),
            None => false,
        }
    }

    /// Drops the items behind the first `n`.
    pub(crate) fn keep_first(&mut self, n: usize)
    where
        T: Drop,
        requires { IsRow self.old }
        ensures { IsRow self.new × (items_of self.new ≡ take n (items_of self.old)) }
    {
        while self.count() > n {
            drop(self.take_last());
        }
    }

    /// Drops the first `n` items.
    pub(crate) fn drop_first(&mut self, n: usize)
    where
        T: Drop,
        requires { IsRow self.old × (n ≤ self.old.len) }
        ensures { IsRow self.new × (items_of self.new ≡ drop n (items_of self.old)) }
    {
        let mut left = n;
        while left > 0 {
            drop(self.take_first());
            left -= 1;
        }
    }

    /// Moves the items of `more` to the end, where there are empty places for them.
    pub(crate) fn put_all(&mut self, more: &mut Row<T>)
        requires mine { IsRow self.old × IsRow more.old }
        requires room { self.old.first + self.old.len + more.old.len ≤ places_of self.old }
        ensures all { IsRow self.new × (items_of self.new ≡ items_of self.old ++ items_of more.old) }
        ensures left { IsRow more.new × (items_of more.new ≡ []) }
        ensures same { (self.new.first ≡ self.old.first) × (self.new.room ≡ self.old.room) × (self.new.len ≡ self.old.len + more.old.len) }
    {
        while more.len > 0 {
            let item = more.take_first();
            self.put_last(item);
        }
    }
}

/// How many places these are, if not too many.
fn counted(before: u32, items: u32, behind: u32) -> Option<u32>
    ensures { IfSome result (λ n. n ≡ before + items + behind) }
{
    before.checked_add(items)?.checked_add(behind)
}
