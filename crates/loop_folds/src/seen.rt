//! What every fold of elements of one kind keeps of the elements.
ghost use Rattle.std.specs.Prelude.{◌≡◌, ◌+◌, ◌<◌, ◌^◌, None, false};
ghost use Rattle.loop_folds.specs.Elements.{error_of, is_no_integer, is_no_list, checked};
ghost use Rattle.loop_folds.specs.Seen.{seen, seen_joined};

use flow_value::{Cause, Val};

/// How many elements there were, the cause of the first error among them, and whether one was of
/// a kind that the fold does not speak of.
#[derive(Clone, Copy)]
pub struct Seen {
    pub count: u64,
    pub error: Option<Cause>,
    pub foreign: bool,
}

impl Seen {
    /// No elements.
    pub fn nothing() -> Seen
        ensures { result ≡ seen 0 None false }
    {
        Seen {
            count: 0,
            error: None,
            foreign: false,
        }
    }

    /// One element of a fold of integers.
    pub fn of_integer(v: &Val) -> Seen
        ensures { result ≡ seen 1 (error_of v.now) (is_no_integer v.now) }
    {
        Seen {
            count: 1,
            error: error(v),
            foreign: is_foreign_to_integers(v),
        }
    }

    /// One element of a fold of arrays or streams.
    pub fn of_list(v: &Val) -> Seen
        ensures { result ≡ seen 1 (error_of v.now) (is_no_list v.now) }
    {
        Seen {
            count: 1,
            error: error(v),
            foreign: is_foreign_to_lists(v),
        }
    }

    /// The elements of both, in order.
    pub fn join(&mut self, later: Seen)
        requires { self.old.count + later.count < 2 ^ 64 }
        ensures { self.new ≡ seen_joined self.old later }
    {
        self.count += later.count;
        self.error = self.error.or(later.error);
        self.foreign = self.foreign | later.foreign;
    }

    /// The value of the fold, where no element keeps it from one.
    pub fn checked(self, v: Val) -> Val
        ensures { result ≡ checked self.error self.foreign v }
    {
        match self.error {
            Some(cause) => Val::Err(cause),
            None if self.foreign => Val::Err(Cause::Explicit),
            None => v,
        }
    }
}

fn error(v: &Val) -> Option<Cause>
    ensures { result ≡ error_of v.now }
{
    match v {
        Val::Err(cause) => Some(*cause),
        _ => None,
    }
}

fn is_foreign_to_integers(v: &Val) -> bool
    ensures { result ≡ is_no_integer v.now }
{
    match v {
        Val::Int(_) => false,
        Val::Err(_) => false,
        _ => true,
    }
}

fn is_foreign_to_lists(v: &Val) -> bool
    ensures { result ≡ is_no_list v.now }
{
    match v {
        Val::Arr(_) => false,
        Val::Stream(_) => false,
        Val::Err(_) => false,
        _ => true,
    }
}
