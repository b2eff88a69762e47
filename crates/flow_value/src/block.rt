//! The memory of a `Vec` without the `Vec`: places side by side, each empty or with a value.
ghost use Rattle.std.specs.Prelude.{◌≡◌, ℕ, ◌+◌, ◌<◌, ◌≤◌, List, Option, Some, None, map, length, take, drop, get_or, slice_set};
ghost use Rattle.std.specs.Coded.{coded_list, coded_option};
ghost use Rattle.std.specs.Vec.{vec_len, vec_capacity, vec_ptr};
ghost use Rattle.flow_value.specs.Places.{somes, IsFilled, IsRun, packed};
ghost use Rattle.flow_value.specs.Ownership.{block_owns, block_lent};

use std::marker::Model;
use std::slice;

/// Places in the memory that a `Vec` had. It owns that memory, and the values in it.
pub struct Block<T> {
    at: *mut T,
    pub(crate) ghost room: { ℕ },
    pub(crate) ghost places: { List (Option T) } by { coded_list (coded_option T.code) },
}

impl<T> Model for Block<T> {
    ghost also_owns = { λ b. block_owns T.row b.at b.room b.places };

    ghost also_shares = { λ b _ κ. block_lent T.row b.at b.places κ };
}

unsafe impl<T: Send> Send for Block<T> {}

unsafe impl<T: Sync> Sync for Block<T> {}

/// Takes its memory from a `Vec`, which is then empty and has none.
pub(crate) fn detach<T>(mut vec: Vec<T>, at: *mut T, room: usize) -> (Block<T>, Vec<T>)
    requires { (at ≡ vec_ptr vec) × (room ≡ vec_capacity vec) }
    ensures { (result.0.room ≡ room) × (result.0.places ≡ packed vec.items room) × (length vec.items ≤ room) × (vec_len result.1 ≡ 0) }
{
    // A `Vec` is its pointer, its length and its capacity, in this order.
    let words = &raw mut vec as *mut usize;
    unsafe {
        *words.add(1) = 0;
        *words.add(2) = 0;
    }
    (Block { at }, vec)
}

/// Gives a block whose first `count` places hold values to a `Vec` that has no memory.
pub(crate) fn attach<T>(block: Block<T>, mut vec: Vec<T>, count: usize, room: usize) -> Vec<T>
    requires { (vec_capacity vec ≡ 0) × (room ≡ block.room) × (block.places ≡ packed (somes block.places) room) × (length (somes block.places) ≡ count) × (count ≤ room) }
    ensures { result.items ≡ somes block.places }
{
    let Block { at } = block;
    let words = &raw mut vec as *mut usize;
    unsafe {
        *(words as *mut *mut T) = at;
        *words.add(1) = count;
        *words.add(2) = room;
    }
    vec
}

impl<T> Block<T> {
    /// Writes a place that is empty.
    pub(crate) fn write(&mut self, index: usize, item: T)
        requires { (index < length self.old.places) × (get_or self.old.places index None ≡ None) }
        ensures { self.new ≡ record self.old { places = slice_set self.old.places index (Some item) } }
    {
        unsafe {
            self.at.add(index).write(item);
        }
    }

    /// Takes the value out of a place.
    pub(crate) fn read(&mut self, index: usize) -> T
        requires { IsFilled self.old.places index }
        ensures { (get_or self.old.places index None ≡ Some result) × (self.new ≡ record self.old { places = slice_set self.old.places index None }) }
    {
        unsafe { self.at.add(index).read() }
    }

    /// The values of the `len` places from `from` on.
    pub(crate) fn slice(&self, from: usize, len: usize) -> &[T]
        requires { IsRun self.now.places from len }
        ensures { take len (drop from self.now.places) ≡ map Some result.now }
    {
        unsafe { slice::from_raw_parts(self.at.add(from), len) }
    }
}
