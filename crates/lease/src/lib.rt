//! A boxed value that is lent for reading any number of times, to other threads too, and is whole again once
//! every lease is back. How many leases are out stands in the clauses alone: nothing is counted at run time, and
//! no call can fail.
#![tactic(auto)]

ghost use Rattle.std.specs.Prelude.{◌≡◌, ◌+◌, ◌-◌, ◌^◌, ◌<◌, ◌≤◌};
ghost use Rattle.lease.specs.Lending.{Lending, Leased, lending_code, leased_code};

use std::alloc::Global;
use std::marker::Model;

mod loan;

use loan::{Stake, Title};

/// The owner of a value that may be out on lease. It cannot be dropped: it ends by [`Owner::take`], once no lease
/// is out. Contracts see it as the value, the number of leases out and an identity.
pub struct Owner<T> {
    title: Title<T, Global>,
    rest: Stake<T>,
}

// The loan has 2^101 stakes: the owner keeps those that are not out on lease, and reads by them itself.
impl<T> Model for Owner<T> {
    ghost Value = { Lending T };

    ghost coded = { lending_code T.code };

    ghost view = { λ o. record { value = o.title.value; out = 2 ^ 101 - o.rest.stakes; id = o.title.loan } };

    ghost invariant = { λ o. (o.rest.value ≡ o.title.value) × (o.rest.loan ≡ o.title.loan) × (0 < o.rest.stakes) × (o.rest.stakes ≤ 2 ^ 101) };
}

/// The right to read a value, which may pass to another thread. It cannot be dropped: it goes back to the owner by
/// [`Owner::give_back`]. Contracts see it as the value and the identity of the owner that lent it.
pub struct Lease<T> {
    stake: Stake<T>,
}

impl<T> Model for Lease<T> {
    ghost Value = { Leased T };

    ghost coded = { leased_code T.code };

    ghost view = { λ l. record { value = l.stake.value; id = l.stake.loan } };

    ghost invariant = { λ l. l.stake.stakes ≡ 1 };
}

impl<T> Owner<T> {
    /// The owner of a boxed value, with no lease out. The value stays where it is until `take`.
    pub fn new(place: Box<T>) -> Owner<T>
    where
        T: Drop,
        ensures value { result.value ≡ place.value }
        ensures none_out { result.out ≡ 0 }
    {
        let (title, rest) = loan::lend_out(place);
        Owner { title, rest }
    }

    /// Reads the value, also while leases are out.
    pub fn get(&self) -> &T
        ensures value { result.now ≡ self.now.value }
    {
        self.rest.read()
    }

    /// Hands out one more lease.
    pub fn lend(&mut self) -> Lease<T>
        requires few { self.old.out < 2 ^ 100 }
        ensures one_more { self.new ≡ record self.old { out = self.old.out + 1 } }
        ensures value { result.value ≡ self.old.value }
        ensures id { result.id ≡ self.old.id }
    {
        Lease {
            stake: self.rest.cut_one(),
        }
    }

    /// Takes a lease of this owner's back. That one was out is a consequence.
    pub fn give_back(&mut self, lease: Lease<T>)
        requires id { lease.id ≡ self.old.id }
        ensures was_out { 0 < self.old.out }
        ensures one_fewer { self.new ≡ record self.old { out = self.old.out - 1 } }
    {
        let Lease { stake } = lease;
        self.rest.merge_one(stake);
    }

    /// Takes the value out, in its box, once every lease is back.
    pub fn take(self) -> Box<T>
        requires none_out { self.out ≡ 0 }
        ensures value { result.value ≡ self.value }
    {
        let Owner { title, rest } = self;
        loan::reclaim(title, rest)
    }
}

impl<T> Lease<T> {
    /// Reads the value, whatever the owner does meanwhile.
    pub fn get(&self) -> &T
        ensures value { result.now ≡ self.now.value }
    {
        self.stake.read()
    }
}
