//! The elements of arrays or streams in a row.
ghost use Rattle.std.specs.Prelude.{◌≡◌, ◌++◌, is_ok, if◌then◌else◌, IfErr};
ghost use Rattle.loop_folds.specs.Folds.{elements_of, lower_bound_of, is_stream, catenated};
ghost use Rattle.loop_folds.specs.Kept.{kept};

use crate::kept::{MOST_KEPT, keep_all};
use crate::reduction::Reduction;
use crate::seen::Seen;
use flow_value::{Cause, Items, Span, Val, array_of, stream_of};
use std::alloc::Global;
use std::marker::Model;

/// The elements of arrays from the first array's lower bound, or those of streams. Of none it is
/// the empty array from 1. An error among the arrays or streams is the value; an element of
/// another kind, or arrays beside streams, give `error(explicit)`. The size is looked at before
/// the bounds.
#[derive(Drop)]
pub struct Catenate {
    seen: Seen,
    lo: Option<i64>,
    streams: bool,
    items: Items,
}

impl Model for Catenate {
    ghost use Rattle.flow_value.specs.contracts.value.Val as row;
    ghost use Rattle.loop_folds.specs.contracts.seen.Seen as seen_row;
    ghost use Rattle.loop_folds.specs.CatenateState.{CatenateState, catenate_state, catenate_code, IsCounted};

    ghost Value = { CatenateState };

    ghost coded = { catenate_code seen_row.the_row.coded row.the_row.coded };

    ghost view = { λ s. catenate_state s.seen s.lo s.streams s.items };

    ghost invariant = { λ s. IsCounted s.seen.count };
}

impl Reduction for Catenate {
    ghost use Rattle.std.specs.Prelude.{[], true};
    ghost use Rattle.loop_folds.specs.Folds.{catenate_fold};
    ghost use Rattle.loop_folds.specs.CatenateState.{state_of, joined_state, catenate_laws};

    ghost count = { λ s. s.seen.count };

    ghost stands = { λ s xs. s ≡ state_of xs };

    ghost value = { catenate_fold };

    ghost empty = { state_of [] };

    ghost joined = { joined_state };

    ghost refusable = { true };

    ghost laws = { catenate_laws };

    fn unit(alloc: Global) -> Catenate {
        Catenate {
            seen: Seen::nothing(),
            lo: None,
            streams: false,
            items: Items::new(alloc),
        }
    }

    fn put(&mut self, v: Val) -> Result<(), Val> {
        let seen = Seen::of_list(&v);
        let lo = lower_bound(&v);
        let stream = is_a_stream(&v);
        store(&mut self.items, v)?;
        self.lo = self.lo.or(lo);
        self.streams = self.streams | stream;
        self.seen.join(seen);
        Ok(())
    }

    fn join(&mut self, later: Catenate) -> Result<(), Catenate> {
        let Catenate {
            seen,
            lo,
            streams,
            items,
        } = later;
        if let Err(items) = keep_all(&mut self.items, items) {
            return Err(Catenate {
                seen,
                lo,
                streams,
                items,
            });
        }
        self.lo = self.lo.or(lo);
        self.streams = self.streams | streams;
        self.seen.join(seen);
        Ok(())
    }

    fn done(self) -> Val {
        self.seen
            .checked(whole_list(self.lo, self.streams, self.items))
    }
}

/// Adds the elements of a value at the end, or hands it back.
fn store(items: &mut Items, v: Val) -> Result<(), Val>
    ensures list { items.new ≡ (if is_ok result then kept (items.old ++ elements_of v) else items.old) }
    ensures handed_back { IfErr result (λ back. back ≡ v) }
{
    match v {
        Val::Arr(array) => {
            let (lo, more) = array.into_parts();
            match keep_all(items, more) {
                Ok(()) => Ok(()),
                Err(back) => Err(Val::Arr(Span::made(lo, back))),
            }
        }
        Val::Stream(more) => match keep_all(items, more) {
            Ok(()) => Ok(()),
            Err(back) => Err(Val::Stream(back)),
        },
        _ => {
            items.truncate(MOST_KEPT);
            Ok(())
        }
    }
}

fn lower_bound(v: &Val) -> Option<i64>
    ensures { result ≡ lower_bound_of v.now }
{
    match v {
        Val::Arr(array) => Some(array.lo()),
        _ => None,
    }
}

fn is_a_stream(v: &Val) -> bool
    ensures { result ≡ is_stream v.now }
{
    match v {
        Val::Stream(_) => true,
        _ => false,
    }
}

fn whole_list(lo: Option<i64>, streams: bool, items: Items) -> Val
    ensures { result ≡ catenated lo streams items }
{
    match (lo, streams) {
        (None, false) => array_of(1, items),
        (None, true) => stream_of(items),
        (Some(lo), false) => array_of(lo, items),
        (Some(_), true) => Val::Err(Cause::Explicit),
    }
}
