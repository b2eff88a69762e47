//! Operands by their kinds: each call gives the parts of an operand of its kind, or the value that
//! a strict row on that kind gives at another.
ghost use Rattle.std.specs.Prelude.{◌≡◌, ℤ, List, IfOk, IfErr};
ghost use Rattle.flow_value.specs.declared.value.Val.{Val};
ghost use Rattle.flow_value.specs.Bounds.{Bounded, IsWithin};
ghost use Rattle.flow_value.specs.Scalar.{unless_error, strict2};
ghost use Rattle.value_ops.specs.Arity.{strict, strict3};
ghost use Rattle.value_ops.specs.Views.{on_integer, on_integers, on_array, on_array_integer, on_array_integers, on_stream, on_list, on_record};
ghost use Rattle.value_ops.specs.Operand.{value_of, items_of, array_of, sequence_of};

use crate::listed::{Listed, Placed, Sequence};
use crate::values::{Value, seen};
use flow_value::{Cause, Val};

/// Nothing, where the value is no error, and else the error.
pub fn no_error(v: &Val) -> Result<(), Val>
    ensures no_error { IfOk result (λ _. (w : Val) → unless_error v.now w ≡ w) }
    ensures refused { IfErr result (λ e. (w : Val) → e ≡ unless_error v.now w) }
{
    match v {
        Val::Err(cause) => Err(Val::Err(*cause)),
        _ => Ok(()),
    }
}

/// The integer.
pub fn integer(v: &Val) -> Result<i64, Val>
    ensures integer { IfOk result (λ n. v.now ≡ Val.Int n) }
    ensures refused { IfErr result (λ e. (f : ℤ → Val) → e ≡ strict (on_integer f) v.now) }
{
    match v {
        Val::Int(n) => Ok(*n),
        Val::Err(cause) => Err(Val::Err(*cause)),
        _ => Err(Val::Err(Cause::Explicit)),
    }
}

/// The array.
pub fn array<'a>(one: Value<'a>) -> Result<Placed<'a>, Val>
    ensures array { IfOk result (λ a. value_of one.entry ≡ Val.Arr (array_of a)) }
    ensures fits { IfOk result (λ a. IsWithin a.lo (items_of a.items)) }
    ensures refused { IfErr result (λ e. (f : Bounded Val → Val) → e ≡ strict (on_array f) (value_of one.entry)) }
{
    match one {
        Value::Lent(v) => lent_array(v),
        Value::Owned(v) => owned_array(v),
    }
}

fn lent_array(v: &Val) -> Result<Placed<'_>, Val>
    ensures array { IfOk result (λ a. v.now ≡ Val.Arr (array_of a)) }
    ensures fits { IfOk result (λ a. IsWithin a.lo (items_of a.items)) }
    ensures refused { IfErr result (λ e. (f : Bounded Val → Val) → e ≡ strict (on_array f) v.now) }
{
    match v {
        Val::Arr(a) => Ok(Placed {
            lo: a.lo(),
            items: Listed::Lent(a.as_slice()),
        }),
        Val::Err(cause) => Err(Val::Err(*cause)),
        _ => Err(Val::Err(Cause::Explicit)),
    }
}

fn owned_array(v: Val) -> Result<Placed<'static>, Val>
    ensures array { IfOk result (λ a. v ≡ Val.Arr (array_of a)) }
    ensures fits { IfOk result (λ a. IsWithin a.lo (items_of a.items)) }
    ensures refused { IfErr result (λ e. (f : Bounded Val → Val) → e ≡ strict (on_array f) v) }
{
    match v {
        Val::Arr(a) => {
            let (lo, items) = a.into_parts();
            Ok(Placed {
                lo,
                items: Listed::Owned(items),
            })
        }
        Val::Err(cause) => Err(Val::Err(cause)),
        _ => Err(Val::Err(Cause::Explicit)),
    }
}

/// The elements of a stream.
pub fn stream<'a>(one: Value<'a>) -> Result<Listed<'a>, Val>
    ensures stream { IfOk result (λ vs. value_of one.entry ≡ Val.Stream (items_of vs)) }
    ensures refused { IfErr result (λ e. (f : List Val → Val) → e ≡ strict (on_stream f) (value_of one.entry)) }
{
    match one {
        Value::Lent(Val::Stream(items)) => Ok(Listed::Lent(items.as_slice())),
        Value::Owned(Val::Stream(items)) => Ok(Listed::Owned(items)),
        Value::Lent(Val::Err(cause)) => Err(Val::Err(*cause)),
        Value::Owned(Val::Err(cause)) => Err(Val::Err(cause)),
        _ => Err(Val::Err(Cause::Explicit)),
    }
}

/// The fields of a record.
pub fn record<'a>(one: Value<'a>) -> Result<Listed<'a>, Val>
    ensures record { IfOk result (λ vs. value_of one.entry ≡ Val.Rec (items_of vs)) }
    ensures refused { IfErr result (λ e. (f : List Val → Val) → e ≡ strict (on_record f) (value_of one.entry)) }
{
    match one {
        Value::Lent(Val::Rec(fields)) => Ok(Listed::Lent(fields.as_slice())),
        Value::Owned(Val::Rec(fields)) => Ok(Listed::Owned(fields)),
        Value::Lent(Val::Err(cause)) => Err(Val::Err(*cause)),
        Value::Owned(Val::Err(cause)) => Err(Val::Err(cause)),
        _ => Err(Val::Err(Cause::Explicit)),
    }
}

/// The array or stream.
pub fn list<'a>(one: Value<'a>) -> Result<Sequence<'a>, Val>
    ensures list { IfOk result (λ l. value_of one.entry ≡ sequence_of l) }
    ensures refused { IfErr result (λ e. (f : Bounded Val → Val) (g : List Val → Val) → e ≡ strict (on_list f g) (value_of one.entry)) }
{
    match one {
        Value::Lent(v) => lent_list(v),
        Value::Owned(v) => owned_list(v),
    }
}

fn lent_list(v: &Val) -> Result<Sequence<'_>, Val>
    ensures list { IfOk result (λ l. v.now ≡ sequence_of l) }
    ensures refused { IfErr result (λ e. (f : Bounded Val → Val) (g : List Val → Val) → e ≡ strict (on_list f g) v.now) }
{
    match v {
        Val::Arr(a) => Ok(Sequence::Array(Placed {
            lo: a.lo(),
            items: Listed::Lent(a.as_slice()),
        })),
        Val::Stream(items) => Ok(Sequence::Stream(Listed::Lent(items.as_slice()))),
        Val::Err(cause) => Err(Val::Err(*cause)),
        _ => Err(Val::Err(Cause::Explicit)),
    }
}

fn owned_list(v: Val) -> Result<Sequence<'static>, Val>
    ensures list { IfOk result (λ l. v ≡ sequence_of l) }
    ensures refused { IfErr result (λ e. (f : Bounded Val → Val) (g : List Val → Val) → e ≡ strict (on_list f g) v) }
{
    match v {
        Val::Arr(a) => {
            let (lo, items) = a.into_parts();
            Ok(Sequence::Array(Placed {
                lo,
                items: Listed::Owned(items),
            }))
        }
        Val::Stream(items) => Ok(Sequence::Stream(Listed::Owned(items))),
        Val::Err(cause) => Err(Val::Err(cause)),
        _ => Err(Val::Err(Cause::Explicit)),
    }
}

/// Two integers.
pub fn integers(a: &Val, b: &Val) -> Result<(i64, i64), Val>
    ensures integers { IfOk result (λ p. (a.now ≡ Val.Int p.0) × (b.now ≡ Val.Int p.1)) }
    ensures refused { IfErr result (λ e. (f : ℤ → ℤ → Val) → e ≡ strict2 (on_integers f) a.now b.now) }
{
    no_error(a)?;
    no_error(b)?;
    let first = integer(a)?;
    let second = integer(b)?;
    Ok((first, second))
}

/// An array and an integer.
pub fn array_and_integer<'a>(a: Value<'a>, i: &Val) -> Result<(Placed<'a>, i64), Val>
    ensures array { IfOk result (λ p. value_of a.entry ≡ Val.Arr (array_of p.0)) }
    ensures fits { IfOk result (λ p. IsWithin p.0.lo (items_of p.0.items)) }
    ensures integer { IfOk result (λ p. i.now ≡ Val.Int p.1) }
    ensures refused { IfErr result (λ e. (f : Bounded Val → ℤ → Val) → e ≡ strict2 (on_array_integer f) (value_of a.entry) i.now) }
{
    no_error(seen(&a))?;
    no_error(i)?;
    let array = array(a)?;
    let place = integer(i)?;
    Ok((array, place))
}

/// An array and two integers.
pub fn array_and_integers<'a>(a: Value<'a>, m: &Val, n: &Val) -> Result<(Placed<'a>, i64, i64), Val>
    ensures array { IfOk result (λ p. value_of a.entry ≡ Val.Arr (array_of p.0)) }
    ensures fits { IfOk result (λ p. IsWithin p.0.lo (items_of p.0.items)) }
    ensures integers { IfOk result (λ p. (m.now ≡ Val.Int p.1) × (n.now ≡ Val.Int p.2)) }
    ensures refused { IfErr result (λ e. (f : Bounded Val → ℤ → ℤ → Val) → e ≡ strict3 (on_array_integers f) (value_of a.entry) m.now n.now) }
{
    no_error(seen(&a))?;
    no_error(m)?;
    no_error(n)?;
    let array = array(a)?;
    let first = integer(m)?;
    let second = integer(n)?;
    Ok((array, first, second))
}
