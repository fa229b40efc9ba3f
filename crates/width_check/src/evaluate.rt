//! The value of an expression.

ghost use Rattle.std.specs.Prelude.{◌≡◌, ◌+◌, ◌*◌, ◌%◌, ◌<◌, ◌≤◌, ◌^◌, length, slice_index};
ghost use Rattle.width_check.specs.View.{formula_of};
ghost use Rattle.width_check.specs.Values.{value, IsWellFormed};

use crate::operate::{greatest, operated};
use crate::typed::TExpr;
use crate::width::width_of;

/// The lowest bits of a number, so many of them.
fn low_bits(width: u8, number: u64) -> u64
    requires { width ≤ 64 }
    ensures { result ≡ number % 2 ^ width }
{
    if width == 64 {
        number
    } else {
        number % (1 << width)
    }
}

/// The bits of `front` followed by those of `back`, a number of the width.
fn appended(front: u64, width: u8, back: u64) -> u64
    requires width { width ≤ 64 }
    requires back { back < 2 ^ width }
    requires fits { front * 2 ^ width + back < 2 ^ 64 }
    ensures { result ≡ front * 2 ^ width + back }
{
    if width == 64 {
        back
    } else {
        (front << width) + back
    }
}

fn stored(store: &[u64], var: u32) -> u64
    ensures { result ≡ slice_index store.now var }
{
    match store.get(var as usize) {
        Some(number) => *number,
        None => 0,
    }
}

/// The value of a well-formed expression, given a store with a number for each variable; a variable that the store
/// doesn't have counts as 0.
#[tactic(auto, using(crate::proofs::Fit::value_fits, crate::proofs::Fit::width_some, crate::proofs::Fit::width_most))]
pub fn value(e: &TExpr, store: &[u64]) -> u64
    requires { IsWellFormed (formula_of e.now) }
    ensures { result ≡ value (slice_index store.now) (formula_of e.now) }
{
    match e {
        TExpr::Number { bits } => bits.value(),
        TExpr::Read { var, high, low, .. } => {
            low_bits(*high + 1 - *low, stored(store, *var) >> *low)
        }
        TExpr::Join { parts } => {
            let mut number = 0;
            for part in parts {
                number = appended(number, width_of(part), value(part, store));
            }
            number
        }
        TExpr::Not { inner } => greatest(width_of(inner)) - value(inner, store),
        TExpr::Chain { first, rest } => {
            let width = width_of(first);
            let mut number = value(first, store);
            for link in rest {
                number = operated(link.op, width, number, value(&link.right, store));
            }
            number
        }
        TExpr::Compare { op, left, right } => operated(
            *op,
            width_of(left),
            value(left, store),
            value(right, store),
        ),
    }
}
