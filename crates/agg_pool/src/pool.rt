//! The pool.
ghost use Rattle.std.specs.Prelude.{◌≡◌, ◌≢◌, ℕ, ◌+◌, ◌-◌, ◌^◌, ◌<◌, ◌≤◌, List, [], ◌∷◌, ◌++◌, length, replicate, map, slice_set, Some, None, IsTrue, OnOk, OnErr, IfOk};
ghost use Rattle.std.specs.List.{list_all};
ghost use Rattle.std.specs.Vec.{vec_len, vec_capacity};
ghost use denote.RawPtr.{Ptr};
ghost use Rattle.flow_value.specs.Bounds.{IsWithinLength, bounded};
ghost use Rattle.flow_value.specs.declared.value.Val.TheVariants as value;
ghost use Rattle.segment.specs.Places.{away, unwritten, written, is_written, IsOf};
ghost use Rattle.segment.specs.Runs.{part, spliced};
ghost use Rattle.agg_pool.specs.Tables.{used};
ghost use Rattle.agg_pool.specs.Pools.{entry_at, HoldsAnd, IfHolds, BuildsAnd, IfBuilds, IsIdleIfAny};
ghost use Rattle.agg_pool.specs.declared.entry.Entry.TheVariants as entry;

use crate::entry::{Building, Entry};
use crate::parts::{Key, Lease, Segment};
use crate::table::make_room;
use flow_value::{NoMemory, Val};
use lease::Owner;
use segment::Room;
use std::alloc::Global;
use std::marker::Model;
use std::mem::replace;

/// Values and arrays that are being built, under keys. It cannot be dropped: it ends by [`Pool::end`]. Contracts see
/// the entry of each number, and `spare`, how many values were promised a place and can be put in with no memory.
///
/// A lent value has to stay where it is, so each lies in a box of its own. The numbers and boxes of what was taken out
/// are kept and used again, so a pool is as large as what it held at once, and what was promised.
pub struct Pool {
    entries: Vec<Option<Entry>>,
    free: Vec<usize>,
    boxes: Vec<Box<Val>>,
    spare: usize,
}

impl Model for Pool {
    ghost use Rattle.std.specs.Prelude.{◌≡◌, ◌≤◌, length};
    ghost use Rattle.std.specs.Vec.{vec_len, vec_capacity};
    ghost use Rattle.agg_pool.specs.Pools.{PoolView, pool_code};
    ghost use Rattle.agg_pool.specs.contracts.entry.Entry as e;
    ghost use Rattle.agg_pool.specs.Tables.{IsTable};

    ghost Value = { PoolView };

    ghost coded = { pool_code e.the_row.coded };

    ghost view = { λ p. record { entries = p.entries.items; spare = p.spare } };

    ghost invariant = { λ p. IsTable p.entries.items p.free.items × (vec_len p.boxes ≡ vec_len p.free) × (length p.entries.items ≤ vec_capacity p.free) × (length p.entries.items ≤ vec_capacity p.boxes) × (p.spare ≤ vec_len p.free) };
}

impl Pool {
    /// An empty pool. It takes no memory.
    pub fn new(alloc: Global) -> Pool
        ensures empty { (result.entries ≡ []) × (result.spare ≡ 0) }
        ensures vacant { (number : ℕ) → entry_at result number ≡ None }
    {
        Pool {
            entries: Vec::new(alloc),
            free: Vec::new(alloc),
            boxes: Vec::new(alloc),
            spare: 0,
        }
    }

    /// Makes it possible to put in `n` values with no memory: places of what was taken out are promised first. On want
    /// of memory some of that may have been done.
    pub fn reserve(&mut self, n: usize) -> Result<(), NoMemory>
        ensures enough { OnOk result (n ≤ self.new.spare) }
        ensures never_less { self.old.spare ≤ self.new.spare }
        ensures entries { (number : ℕ) → entry_at self.new number ≡ entry_at self.old number }
        ensures small { used self.old.entries + n ≤ length self.old.entries → self.new.entries ≡ self.old.entries }
    {
        while self.spare < n {
            self.promise()?;
        }
        Ok(())
    }

    /// Promises one more place: a free one, or where each is promised a new one.
    fn promise(&mut self) -> Result<(), NoMemory>
        ensures ok { OnOk result (self.new.spare ≡ self.old.spare + 1) }
        ensures err { OnErr result (self.new ≡ self.old) }
        ensures entries { (number : ℕ) → entry_at self.new number ≡ entry_at self.old number }
        ensures used { used self.new.entries ≡ used self.old.entries }
        ensures small { used self.old.entries + self.old.spare < length self.old.entries → self.new.entries ≡ self.old.entries }
    {
        if self.spare == self.free.len() {
            self.add_place()?;
        }
        self.spare += 1;
        Ok(())
    }

    /// One more free number, and a box for what it will hold.
    fn add_place(&mut self) -> Result<(), NoMemory>
        ensures ok { OnOk result (self.new ≡ record self.old { entries = self.old.entries ++ None ∷ [] }) }
        ensures err { OnErr result (self.new ≡ self.old) }
    {
        let place = Box::new(*self.entries.allocator(), Val::Null)?;
        make_room(&mut self.entries, &mut self.free, &mut self.boxes)?;
        self.free.push_reserved(self.entries.len());
        self.entries.push_reserved(None);
        self.boxes.push_reserved(place);
        Ok(())
    }

    /// Puts a value in, under a key that was not in use. It takes no memory.
    pub fn put(&mut self, value: Val) -> Key
        requires spare { 0 < self.old.spare }
        ensures held { (id : ℕ) × (self.new.entries ≡ slice_set self.old.entries result.number (Some (entry.Whole (record { value = value; out = 0; id = id })))) }
        ensures was_vacant { entry_at self.old result.number ≡ None }
        ensures now { (id : ℕ) × (entry_at self.new result.number ≡ Some (entry.Whole (record { value = value; out = 0; id = id }))) }
        ensures others { (n : ℕ) → n ≢ result.number → entry_at self.new n ≡ entry_at self.old n }
        ensures known { result.number < length self.old.entries }
        ensures spare { self.new.spare + 1 ≡ self.old.spare }
    {
        let Some(mut place) = self.boxes.pop() else {
            unreachable!()
        };
        let Some(number) = self.free.pop() else {
            unreachable!()
        };
        self.spare -= 1;
        drop(Box::replace(&mut place, value));
        let old = replace(
            &mut self.entries[number],
            Some(Entry::Whole(Owner::new(place))),
        );
        let None = old else { unreachable!() };
        Key { number }
    }

    /// Lends a value for reading, also in another thread.
    pub fn lend(&mut self, key: Key) -> Lease
        requires few { HoldsAnd (entry_at self.old key.number) (λ w. w.out < 2 ^ 100) }
        ensures number { result.number ≡ key.number }
        ensures lease { IfHolds (entry_at self.old key.number) (λ w. result ≡ record { number = key.number; value = w.value; id = w.id }) }
        ensures one_more { IfHolds (entry_at self.old key.number) (λ w. self.new ≡ record self.old { entries = slice_set self.old.entries key.number (Some (entry.Whole (record w { out = w.out + 1 }))) }) }
        ensures now { IfHolds (entry_at self.old key.number) (λ w. (entry_at self.new key.number ≡ Some (entry.Whole (record w { out = w.out + 1 })))) }
        ensures others { (n : ℕ) → n ≢ key.number → entry_at self.new n ≡ entry_at self.old n }
    {
        let Some(entry) = &mut self.entries[key.number] else {
            unreachable!()
        };
        Lease {
            key,
            lease: entry.lend(),
        }
    }

    /// Takes a lease of this pool back. That one was out is a consequence.
    pub fn give_back(&mut self, lease: Lease)
        requires of { HoldsAnd (entry_at self.old lease.number) (λ w. lease.id ≡ w.id) }
        ensures was_out { IfHolds (entry_at self.old lease.number) (λ w. 0 < w.out) }
        ensures one_fewer { IfHolds (entry_at self.old lease.number) (λ w. self.new ≡ record self.old { entries = slice_set self.old.entries lease.number (Some (entry.Whole (record w { out = w.out - 1 }))) }) }
        ensures now { IfHolds (entry_at self.old lease.number) (λ w. (entry_at self.new lease.number ≡ Some (entry.Whole (record w { out = w.out - 1 })))) }
        ensures others { (n : ℕ) → n ≢ lease.number → entry_at self.new n ≡ entry_at self.old n }
    {
        let Lease { key, lease } = lease;
        let Some(entry) = &mut self.entries[key.number] else {
            unreachable!()
        };
        entry.give_back(lease);
    }

    /// Takes a value out, once no lease of it is out. Its number and its box are free again.
    pub fn take(&mut self, key: Key) -> Val
        requires none_out { HoldsAnd (entry_at self.old key.number) (λ w. w.out ≡ 0) }
        ensures value { IfHolds (entry_at self.old key.number) (λ w. result ≡ w.value) }
        ensures gone { self.new ≡ record self.old { entries = slice_set self.old.entries key.number None } }
        ensures now { entry_at self.new key.number ≡ None }
        ensures others { (n : ℕ) → n ≢ key.number → entry_at self.new n ≡ entry_at self.old n }
    {
        let old = replace(&mut self.entries[key.number], None);
        let Some(Entry::Whole(owner)) = old else {
            unreachable!()
        };
        let mut place = owner.take();
        let value = Box::replace(&mut place, Val::Null);
        self.free.push_reserved(key.number);
        self.boxes.push_reserved(place);
        value
    }

    /// Begins an array of `n` places, under a key that was not in use. No place is touched. A number is added only where
    /// each that is free is promised. On want of memory the entries are as before.
    pub fn build(&mut self, n: usize) -> Result<Key, NoMemory>
        requires few { n ≤ 4194304 }
        ensures now { IfOk result (λ key. (start : Ptr) × (entry_at self.new key.number ≡ Some (entry.Parts (record { start = start; places = replicate n unwritten })))) }
        ensures others { IfOk result (λ key. (m : ℕ) → m ≢ key.number → entry_at self.new m ≡ entry_at self.old m) }
        ensures was_vacant { IfOk result (λ key. entry_at self.old key.number ≡ None) }
        ensures known { IfOk result (λ key. key.number < length self.new.entries) }
        ensures small { used self.old.entries + self.old.spare < length self.old.entries → length self.new.entries ≡ length self.old.entries }
        ensures one_more { length self.new.entries ≤ length self.old.entries + 1 }
        ensures err { OnErr result (self.new.entries ≡ self.old.entries) }
        ensures spare { self.new.spare ≡ self.old.spare }
    {
        let memory = Vec::with_capacity(*self.entries.allocator(), n)?;
        if self.spare < self.free.len() {
            Ok(self.build_free(memory, n))
        } else {
            self.build_last(memory, n)
        }
    }

    /// Begins an array of `n` places under a free number that is not promised.
    fn build_free(&mut self, memory: Vec<Val>, n: usize) -> Key
        requires memory { (vec_len memory ≡ 0) × (n ≤ vec_capacity memory) }
        requires free { used self.old.entries + self.old.spare < length self.old.entries }
        ensures now { (start : Ptr) × (self.new ≡ record self.old { entries = slice_set self.old.entries result.number (Some (entry.Parts (record { start = start; places = replicate n unwritten }))) }) }
        ensures was_vacant { entry_at self.old result.number ≡ None }
        ensures known { result.number < length self.old.entries }
    {
        let Some(place) = self.boxes.pop() else {
            unreachable!()
        };
        let Some(number) = self.free.pop() else {
            unreachable!()
        };
        let room = Room::new(memory, n);
        let old = replace(
            &mut self.entries[number],
            Some(Entry::Parts(Building { room, place })),
        );
        let None = old else { unreachable!() };
        Key { number }
    }

    /// Begins an array of `n` places under a new number.
    fn build_last(&mut self, memory: Vec<Val>, n: usize) -> Result<Key, NoMemory>
        requires memory { (vec_len memory ≡ 0) × (n ≤ vec_capacity memory) }
        ensures ok { IfOk result (λ key. (start : Ptr) × (key.number ≡ length self.old.entries) × (self.new ≡ record self.old { entries = self.old.entries ++ Some (entry.Parts (record { start = start; places = replicate n unwritten })) ∷ [] })) }
        ensures err { OnErr result (self.new ≡ self.old) }
    {
        let place = Box::new(*self.entries.allocator(), Val::Null)?;
        make_room(&mut self.entries, &mut self.free, &mut self.boxes)?;
        let number = self.entries.len();
        let room = Room::new(memory, n);
        self.entries
            .push_reserved(Some(Entry::Parts(Building { room, place })));
        Ok(Key { number })
    }

    /// Cuts out the places of an array from `from` up to and without `to`, as they are. They are away until they
    /// are joined again.
    pub fn cut(&mut self, key: Key, from: usize, to: usize) -> Segment
        requires fits { BuildsAnd (entry_at self.old key.number) (λ room. (from ≤ to) × (to ≤ length room.places)) }
        ensures number { result.number ≡ key.number }
        ensures part { IfBuilds (entry_at self.old key.number) (λ room. result ≡ record { number = key.number; part = record { start = room.start; from = from; places = part room.places from (to - from) } }) }
        ensures rest { IfBuilds (entry_at self.old key.number) (λ room. self.new ≡ record self.old { entries = slice_set self.old.entries key.number (Some (entry.Parts (record room { places = spliced room.places from (replicate (to - from) away) }))) }) }
        ensures now { IfBuilds (entry_at self.old key.number) (λ room. (entry_at self.new key.number ≡ Some (entry.Parts (record room { places = spliced room.places from (replicate (to - from) away) })))) }
        ensures others { (n : ℕ) → n ≢ key.number → entry_at self.new n ≡ entry_at self.old n }
    {
        let Some(entry) = &mut self.entries[key.number] else {
            unreachable!()
        };
        Segment {
            key,
            segment: entry.cut(from, to - from),
        }
    }

    /// Takes a segment of this pool back, with what was written in it.
    pub fn join_segment(&mut self, part: Segment)
        requires of { BuildsAnd (entry_at self.old part.number) (λ room. IsOf room part.part) }
        ensures back { IfBuilds (entry_at self.old part.number) (λ room. self.new ≡ record self.old { entries = slice_set self.old.entries part.number (Some (entry.Parts (record room { places = spliced room.places part.part.from part.part.places }))) }) }
        ensures now { IfBuilds (entry_at self.old part.number) (λ room. (entry_at self.new part.number ≡ Some (entry.Parts (record room { places = spliced room.places part.part.from part.part.places })))) }
        ensures others { (n : ℕ) → n ≢ part.number → entry_at self.new n ≡ entry_at self.old n }
    {
        let Segment { key, segment } = part;
        let Some(entry) = &mut self.entries[key.number] else {
            unreachable!()
        };
        entry.join(segment);
    }

    /// Makes the array of its places, with the lower bound `lo`, once every place is written. It takes no memory, and
    /// no element moves.
    pub fn seal(&mut self, key: Key, lo: i64)
        requires written { BuildsAnd (entry_at self.old key.number) (λ room. IsTrue (list_all is_written room.places)) }
        requires fits { BuildsAnd (entry_at self.old key.number) (λ room. IsWithinLength lo (length room.places)) }
        ensures array { IfBuilds (entry_at self.old key.number) (λ room. (items : List Val) × (id : ℕ) × (map written items ≡ room.places) × (self.new ≡ record self.old { entries = slice_set self.old.entries key.number (Some (entry.Whole (record { value = value.Arr (bounded lo items); out = 0; id = id }))) })) }
        ensures now { IfBuilds (entry_at self.old key.number) (λ room. (items : List Val) × (id : ℕ) × (map written items ≡ room.places) × (entry_at self.new key.number ≡ Some (entry.Whole (record { value = value.Arr (bounded lo items); out = 0; id = id })))) }
        ensures others { (n : ℕ) → n ≢ key.number → entry_at self.new n ≡ entry_at self.old n }
    {
        let old = replace(&mut self.entries[key.number], None);
        let Some(Entry::Parts(building)) = old else {
            unreachable!()
        };
        let whole = Entry::Whole(building.seal(lo));
        let vacant = replace(&mut self.entries[key.number], Some(whole));
        let None = vacant else { unreachable!() };
    }

    /// Ends the pool, with the values that are left in it. Of an array that was not sealed the memory of its places is
    /// freed, and what was written there is forgotten.
    pub fn end(self)
        requires idle { (number : ℕ) → IsIdleIfAny (entry_at self number) }
    {
        let Pool {
            mut entries,
            free: _,
            boxes: _,
            spare: _,
        } = self;
        while let Some(slot) = entries.pop() {
            match slot {
                None => {}
                Some(entry) => entry.end(),
            }
        }
        entries.destroy_empty();
    }
}
