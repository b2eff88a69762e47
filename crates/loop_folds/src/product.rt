//! The product of integers.
ghost use Rattle.std.specs.Prelude.{◌≡◌, ◌≤◌, ◌^◌, ◌*ℤ◌, unsigned_abs};
ghost use Rattle.loop_folds.specs.Folds.{factor_of};
ghost use Rattle.loop_folds.specs.Clamped.{clamped, times, fitted_clamped, IsClamped};

use crate::reduction::Reduction;
use crate::seen::Seen;
use flow_value::{Cause, Val, whole};
use std::alloc::Global;
use std::marker::Model;

/// The exact product of integers, which is brought to 64 bits at the end alone. An error among the
/// elements is the value; an element of another kind gives `error(explicit)`.
///
/// A product past 2^63 in absolute value comes back within it by a factor of 0 alone, so no more
/// is kept of it than that.
#[derive(Drop)]
pub struct Product {
    seen: Seen,
    factor: Option<i128>,
}

impl Model for Product {
    ghost use Rattle.loop_folds.specs.ProductState.{ProductState, product_state, IsProduct};

    ghost Value = { ProductState };

    ghost view = { λ s. product_state s.seen s.factor };

    ghost invariant = { λ s. IsProduct s.seen.count s.factor };
}

impl Reduction for Product {
    ghost use Rattle.std.specs.Prelude.{[], false};
    ghost use Rattle.loop_folds.specs.Folds.{product_fold};
    ghost use Rattle.loop_folds.specs.ProductState.{state_of, joined_state, product_laws};

    ghost count = { λ s. s.seen.count };

    ghost stands = { λ s xs. s ≡ state_of xs };

    ghost value = { product_fold };

    ghost empty = { state_of [] };

    ghost joined = { joined_state };

    ghost refusable = { false };

    ghost laws = { product_laws };

    fn unit(_alloc: Global) -> Product {
        Product {
            seen: Seen::nothing(),
            factor: Some(1),
        }
    }

    fn put(&mut self, v: Val) -> Result<(), Val> {
        self.factor = multiply(self.factor, factor(&v));
        self.seen.join(Seen::of_integer(&v));
        Ok(())
    }

    fn join(&mut self, later: Product) -> Result<(), Product> {
        self.factor = multiply(self.factor, later.factor);
        self.seen.join(later.seen);
        Ok(())
    }

    fn done(self) -> Val {
        self.seen.checked(brought_to_64_bits(self.factor))
    }
}

/// The product brought to 64 bits.
fn brought_to_64_bits(factor: Option<i128>) -> Val
    ensures { result ≡ fitted_clamped factor }
{
    match factor {
        Some(z) => whole(z),
        None => Val::Err(Cause::Overflow),
    }
}

/// What an element multiplies the product by.
fn factor(v: &Val) -> Option<i128>
    ensures value { result ≡ clamped (factor_of v.now) }
    ensures small { IsClamped result }
{
    match v {
        Val::Int(n) => Some(i128::from(*n)),
        _ => Some(1),
    }
}

/// The product of two numbers, each known where it is at most 2^63 in absolute value.
fn multiply(a: Option<i128>, b: Option<i128>) -> Option<i128>
    requires first { IsClamped a }
    requires second { IsClamped b }
    ensures value { result ≡ times a b }
    ensures small { IsClamped result }
{
    match (a, b) {
        (Some(m), Some(n)) => exact_product(m, n),
        (Some(0), None) => Some(0),
        (None, Some(0)) => Some(0),
        _ => None,
    }
}

/// The product of two numbers that are at most 2^63 in absolute value, where it is so too.
fn exact_product(m: i128, n: i128) -> Option<i128>
    requires first { unsigned_abs m ≤ 2 ^ 63 }
    requires second { unsigned_abs n ≤ 2 ^ 63 }
    ensures value { result ≡ clamped (m *ℤ n) }
    ensures small { IsClamped result }
{
    let product = m * n;
    if -9223372036854775808 <= product && product <= 9223372036854775808 {
        Some(product)
    } else {
        None
    }
}
