//! A source and a sink in memory, with a plan of the calls that fail.
ghost use Rattle.std.specs.Prelude.{◌≡◌, ◌<◌, ◌≤◌, ◌+◌, ◌++◌, ◌↔◌, ℕ, List, [], min, length, drop, take, Some, IsTrue, IsErr, IfOk, OnOk, OnErr, Contains};
ghost use Rattle.flow_io.specs.Bytes.{TakesOff, AddsOn, IsAtEnd};
ghost use Rattle.flow_io.specs.Count.{HasRisen};

use crate::failed::Failed;
use crate::sink::Sink;
use crate::source::Source;
use flow_value::{Seq, Text};
use std::alloc::Global;

/// The numbers of the calls that fail, from 0.
pub type Plan = Seq<u64>;

/// The calls so far, and those that are to fail.
#[derive(Drop)]
struct Calls {
    fails: Plan,
    next: u64,
    faults: u64,
}

impl Calls {
    /// No calls so far.
    fn new(fails: Plan) -> Calls
        ensures { (result.fails ≡ fails) × (result.next ≡ 0) × (result.faults ≡ 0) }
    {
        Calls {
            fails,
            next: 0,
            faults: 0,
        }
    }

    /// Counts a call, and says whether it fails.
    fn fails_now(&mut self) -> bool
        ensures planned { IsTrue result ↔ Contains self.old.fails self.old.next }
        ensures counted { self.new.next ≡ min (self.old.next + 1) 18446744073709551615 }
        ensures same_plan { self.new.fails ≡ self.old.fails }
        ensures fault { IsTrue result → self.new.faults ≡ min (self.old.faults + 1) 18446744073709551615 }
        ensures rose { IsTrue result → HasRisen self.old.faults self.new.faults }
        ensures never_falls { self.old.faults ≤ self.new.faults }
        ensures no_fault { ¬ IsTrue result → self.new.faults ≡ self.old.faults }
    {
        let fails = self.fails.as_slice().contains(&self.next);
        self.next = self.next.saturating_add(1);
        if fails {
            self.faults = self.faults.saturating_add(1);
        }
        fails
    }
}

/// Moves bytes of the front of `from` to the front of `to`, at most `most` of them, and gives their
/// number.
fn move_front(from: &[u8], most: usize, to: &mut [u8]) -> usize
    ensures count { result ≡ min most (min (length from.now) (length to.old)) }
    ensures moved { take result to.new ≡ take result from.now }
{
    let n = most.min(from.len().min(to.len()));
    to[..n].copy_from_slice(&from[..n]);
    n
}

/// A source of bytes in memory. It tells the bytes still to come, and counts the calls that
/// failed.
#[derive(Drop)]
pub struct MemSource {
    bytes: Text,
    at: usize,
    most: usize,
    calls: Calls,
    ghost within: { at ≤ length bytes },
    ghost moves: { 0 < most },
}

impl MemSource {
    ghost use Rattle.flow_io.specs.SourcePlan.{failing_calls, next_call, most_moved};

    /// The source of these bytes. A call moves at most `most` of them, and the calls that the plan
    /// names fail.
    pub fn new(bytes: Text, most: usize, fails: Plan) -> MemSource
        requires { 0 < most }
        ensures left { ⟦<MemSource as Source>⟧.left result ≡ Some bytes }
        ensures faults { ⟦<MemSource as Source>⟧.faults result ≡ 0 }
        ensures plan { failing_calls result ≡ fails }
        ensures first_call { next_call result ≡ 0 }
        ensures most { most_moved result ≡ most }
    {
        MemSource {
            bytes,
            at: 0,
            most,
            calls: Calls::new(fails),
        }
    }
}

impl Source for MemSource {
    ghost use Rattle.flow_io.specs.SourcePlan.{failing_calls, next_call, most_moved};

    ghost left = { λ s. Some (drop s.at s.bytes) };

    ghost faults = { λ s. s.calls.faults };

    /// Fails exactly at the planned calls, and else reads all that is left, up to the room in `buf`
    /// and the bytes that a call may move.
    fn read(&mut self, buf: &mut [u8]) -> Result<usize, Failed>
        ensures planned { IsErr result ↔ Contains (failing_calls self.old) (next_call self.old) }
        ensures counted { next_call self.new ≡ min (next_call self.old + 1) 18446744073709551615 }
        ensures same_plan { failing_calls self.new ≡ failing_calls self.old }
        ensures same_most { most_moved self.new ≡ most_moved self.old }
        ensures moved { (told : List ℕ) → ⟦<MemSource as Source>⟧.left self.old ≡ Some told → IfOk result (λ n. n ≡ min (most_moved self.old) (min (length told) (length buf.old))) }
        ensures one_fault { OnErr result (⟦<MemSource as Source>⟧.faults self.new ≡ min (⟦<MemSource as Source>⟧.faults self.old + 1) 18446744073709551615) }
        ensures count { IfOk result (λ n. n ≤ length buf.old) }
        ensures bytes { IfOk result (λ n. TakesOff (⟦<MemSource as Source>⟧.left self.old) (take n buf.new) (⟦<MemSource as Source>⟧.left self.new)) }
        ensures end { IfOk result (λ n. n ≡ 0 → 0 < length buf.old → IsAtEnd (⟦<MemSource as Source>⟧.left self.new)) }
        ensures unchanged { OnErr result (⟦<MemSource as Source>⟧.left self.new ≡ ⟦<MemSource as Source>⟧.left self.old) }
        ensures no_fault { OnOk result (⟦<MemSource as Source>⟧.faults self.new ≡ ⟦<MemSource as Source>⟧.faults self.old) }
        ensures fault { OnErr result (HasRisen (⟦<MemSource as Source>⟧.faults self.old) (⟦<MemSource as Source>⟧.faults self.new)) }
        ensures never_falls { ⟦<MemSource as Source>⟧.faults self.old ≤ ⟦<MemSource as Source>⟧.faults self.new }
    {
        if self.calls.fails_now() {
            return Err(Failed);
        }
        let n = move_front(&self.bytes.as_slice()[self.at..], self.most, buf);
        self.at += n;
        Ok(n)
    }
}

/// A sink in memory. It tells the bytes taken, and counts the calls that failed; want of memory
/// is such a failure.
#[derive(Drop)]
pub struct MemSink {
    bytes: Text,
    most: usize,
    calls: Calls,
    ghost moves: { 0 < most },
}

impl MemSink {
    ghost use Rattle.flow_io.specs.SinkPlan.{failing_calls, next_call, most_moved};

    /// A sink that has taken nothing. A call moves at most `most` bytes, and the calls that the
    /// plan names fail.
    pub fn new(alloc: Global, most: usize, fails: Plan) -> MemSink
        requires { 0 < most }
        ensures taken { ⟦<MemSink as Sink>⟧.taken result ≡ Some [] }
        ensures faults { ⟦<MemSink as Sink>⟧.faults result ≡ 0 }
        ensures plan { failing_calls result ≡ fails }
        ensures first_call { next_call result ≡ 0 }
        ensures most { most_moved result ≡ most }
    {
        MemSink {
            bytes: Seq::new(alloc),
            most,
            calls: Calls::new(fails),
        }
    }

    /// The bytes taken.
    pub fn bytes(&self) -> &Text
        ensures { ⟦<MemSink as Sink>⟧.taken self.now ≡ Some result.now }
    {
        &self.bytes
    }
}

impl Sink for MemSink {
    ghost use Rattle.flow_io.specs.SinkPlan.{failing_calls, next_call, most_moved};

    ghost taken = { λ s. Some s.bytes };

    ghost faults = { λ s. s.calls.faults };

    /// Fails at the planned calls, and at another one only for want of memory. Else it takes the
    /// whole piece, up to the bytes that a call may move.
    fn write(&mut self, piece: &[u8]) -> Result<usize, Failed>
        ensures planned { Contains (failing_calls self.old) (next_call self.old) → IsErr result }
        ensures counted { next_call self.new ≡ min (next_call self.old + 1) 18446744073709551615 }
        ensures same_plan { failing_calls self.new ≡ failing_calls self.old }
        ensures same_most { most_moved self.new ≡ most_moved self.old }
        ensures moved { IfOk result (λ n. n ≡ min (most_moved self.old) (length piece.now)) }
        ensures one_fault { OnErr result (⟦<MemSink as Sink>⟧.faults self.new ≡ min (⟦<MemSink as Sink>⟧.faults self.old + 1) 18446744073709551615) }
        ensures count { IfOk result (λ n. n ≤ length piece.now) }
        ensures some { IfOk result (λ n. 0 < length piece.now → 0 < n) }
        ensures bytes { IfOk result (λ n. AddsOn (⟦<MemSink as Sink>⟧.taken self.old) (take n piece.now) (⟦<MemSink as Sink>⟧.taken self.new)) }
        ensures unchanged { OnErr result (⟦<MemSink as Sink>⟧.taken self.new ≡ ⟦<MemSink as Sink>⟧.taken self.old) }
        ensures no_fault { OnOk result (⟦<MemSink as Sink>⟧.faults self.new ≡ ⟦<MemSink as Sink>⟧.faults self.old) }
        ensures fault { OnErr result (HasRisen (⟦<MemSink as Sink>⟧.faults self.old) (⟦<MemSink as Sink>⟧.faults self.new)) }
        ensures never_falls { ⟦<MemSink as Sink>⟧.faults self.old ≤ ⟦<MemSink as Sink>⟧.faults self.new }
    {
        if self.calls.fails_now() {
            return Err(Failed);
        }
        let n = piece.len().min(self.most);
        match self.bytes.extend(&piece[..n]) {
            Ok(()) => Ok(n),
            Err(_) => {
                self.calls.faults = self.calls.faults.saturating_add(1);
                Err(Failed)
            }
        }
    }
}
