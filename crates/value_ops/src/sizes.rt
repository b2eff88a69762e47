//! The number of elements.
ghost use Rattle.std.specs.Prelude.{◌≡◌, pos, length, nat_eq};
ghost use Rattle.value_ops.specs.Arity.{strict};
ghost use Rattle.value_ops.specs.Views.{on_items};
ghost use Rattle.value_ops.specs.Operations.{op_value};

use crate::feed::Feed;
use crate::operation::Operation;
use crate::values::seen;
use flow_value::{Cause, Val};

/// The number of elements of an array or a stream.
pub fn size(given: Feed<'_>) -> Val
    ensures { result ≡ op_value Operation.Size given.entry }
{
    match given.one() {
        Some(a) => size_of(seen(&a)),
        None => Val::Err(Cause::Explicit),
    }
}

fn size_of(v: &Val) -> Val
    ensures { result ≡ strict (on_items (λ xs. Val.Int (pos (length xs)))) v.now }
{
    match v {
        Val::Arr(a) => Val::Int(a.as_slice().len() as i64),
        Val::Stream(items) => Val::Int(items.as_slice().len() as i64),
        Val::Err(cause) => Val::Err(*cause),
        _ => Val::Err(Cause::Explicit),
    }
}

/// Whether an array or a stream has no element.
pub fn is_empty(given: Feed<'_>) -> Val
    ensures { result ≡ op_value Operation.IsEmpty given.entry }
{
    match given.one() {
        Some(a) => emptiness(seen(&a)),
        None => Val::Err(Cause::Explicit),
    }
}

fn emptiness(v: &Val) -> Val
    ensures { result ≡ strict (on_items (λ xs. Val.Bool (nat_eq (length xs) 0))) v.now }
{
    match v {
        Val::Arr(a) => Val::Bool(a.len() == 0),
        Val::Stream(items) => Val::Bool(items.len() == 0),
        Val::Err(cause) => Val::Err(*cause),
        _ => Val::Err(Cause::Explicit),
    }
}
