//! The pointers below a lease. A boxed value is lent for a lifetime of its own, whose token is cut into stakes.
ghost use Rattle.std.specs.Prelude.{◌≡◌, ℕ, ◌+◌, ◌-◌, ◌^◌, ◌<◌, ◌≤◌};
ghost use Rattle.lease.specs.Loans.{stake_owns, stake_shares, title_owns};

use std::alloc::Allocator;
use std::marker::Model;

/// The right to read a value that is out on loan: so many of the loan's 2^101 stakes.
pub(crate) struct Stake<T> {
    at: *const T,
    pub(crate) ghost value: { T },
    pub(crate) ghost loan: { ℕ },
    pub(crate) ghost stakes: { ℕ },
}

impl<T> Model for Stake<T> {
    ghost also_owns = { λ s. stake_owns T.row s.at s.value s.loan s.stakes };

    ghost also_shares = { λ s _ κ. stake_shares T.row s.at s.value s.loan κ };
}

/// The right to have the box back once the loan has ended.
pub(crate) struct Title<T, A: Allocator> {
    at: *mut T,
    alloc: A,
    pub(crate) ghost value: { T },
    pub(crate) ghost loan: { ℕ },
}

impl<T, A: Allocator> Model for Title<T, A> {
    ghost also_owns = { λ t. title_owns (A.dealloc_token t.alloc) T.row t.at t.value t.loan };
}

/// Begins a loan, and gives all of its stakes.
pub(crate) fn lend_out<T: Drop, A: Allocator>(whole: Box<T, A>) -> (Title<T, A>, Stake<T>)
    ensures { (result.0.value ≡ whole.value) × (result.1.value ≡ whole.value) × (result.1.loan ≡ result.0.loan) × (result.1.stakes ≡ 2 ^ 101) }
{
    let (at, alloc) = Box::into_raw_with_allocator(whole);
    (Title { at, alloc }, Stake { at })
}

/// Ends a loan by all of its stakes.
pub(crate) fn reclaim<T, A: Allocator>(title: Title<T, A>, all: Stake<T>) -> Box<T, A>
    requires { (all.loan ≡ title.loan) × (all.stakes ≡ 2 ^ 101) }
    ensures { result.value ≡ title.value }
{
    let Title { at, alloc } = title;
    let Stake { at: _ } = all;
    unsafe { Box::from_raw(alloc, at) }
}

impl<T> Stake<T> {
    pub(crate) fn read(&self) -> &T
        ensures { result.now ≡ self.now.value }
    {
        unsafe { &*self.at }
    }

    pub(crate) fn cut_one(&mut self) -> Stake<T>
        requires { (1 < self.old.stakes) × (self.old.stakes ≤ 2 ^ 101) }
        ensures { (self.new ≡ record self.old { stakes = self.old.stakes - 1 }) × (result ≡ record self.old { stakes = 1 }) }
    {
        Stake { at: self.at }
    }

    /// That the one was out, so that the others were not all, is a consequence.
    pub(crate) fn merge_one(&mut self, one: Stake<T>)
        requires { (one.loan ≡ self.old.loan) × (one.stakes ≡ 1) × (0 < self.old.stakes) × (self.old.stakes ≤ 2 ^ 101) }
        ensures { (self.old.stakes < 2 ^ 101) × (self.new ≡ record self.old { stakes = self.old.stakes + 1 }) }
    {
        let Stake { at: _ } = one;
    }
}

unsafe impl<T: Sync> Send for Stake<T> {}

unsafe impl<T: Sync> Sync for Stake<T> {}

unsafe impl<T: Send, A: Allocator + Send> Send for Title<T, A> {}
