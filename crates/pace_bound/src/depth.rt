//! How many gates of an expression move one behind the other.

ghost use Rattle.std.specs.Prelude.{◌≡◌};
ghost use Rattle.width_check.specs.View.{formula_of, choices_in};
ghost use Rattle.width_check.specs.Values.{IsWellFormed};
ghost use Rattle.handshake_expand.specs.Layout.{capped};
ghost use Rattle.handshake_expand.specs.PartTree.{HasFormedGuards};
ghost use Rattle.round_time.specs.Longest.{depth, guards_depth};
ghost use Rattle.pace_bound.specs.Bits.{bits};
ghost use Rattle.pace_bound.specs.Behind.{reached_over};

use crate::behind::{Behind, Order, divided, from_request, operands};
use width_check::{TArm, TExpr, width_of};

/// How many gates move at most one behind the other, those behind the expression's bits too; saturates at 2^64 - 1.
fn gates_through(e: &TExpr, behind: Behind) -> u64
    requires { IsWellFormed (formula_of e.now) }
    ensures { result ≡ reached_over behind (bits (formula_of e.now)) }
{
    match e {
        TExpr::Number { bits } => from_request(behind, bits.width()),
        TExpr::Read { high, low, .. } => from_request(behind, *high + 1 - *low),
        TExpr::Join { parts } => {
            let last = parts.len() - 1;
            let mut rest = behind;
            let mut most: u64 = 0;
            for place in 0..last {
                let part = &parts[place];
                let (lower, upper) = divided(rest, width_of(part));
                most = most.max(gates_through(part, upper));
                rest = lower;
            }
            most.max(gates_through(&parts[last], rest))
        }
        TExpr::Not { inner } => gates_through(inner, behind),
        TExpr::Chain { first, rest } => {
            let width = width_of(first);
            let count = rest.len();
            let mut result = behind;
            let mut most: u64 = 0;
            for done in 0..count {
                let link = &rest[count - 1 - done];
                result = operands(result, link.op, width);
                most = most.max(gates_through(&link.right, result));
            }
            most.max(gates_through(first, result))
        }
        TExpr::Compare { op, left, right } => {
            let sides = operands(behind, *op, width_of(left));
            gates_through(left, sides).max(gates_through(right, sides))
        }
    }
}

/// How many gates of an expression move at most one behind the other; saturates at 2^64 - 1.
pub(crate) fn expr_depth(e: &TExpr) -> u64
    requires { IsWellFormed (formula_of e.now) }
    ensures { result ≡ capped (depth (formula_of e.now)) }
{
    gates_through(
        e,
        Behind {
            order: Order::Alike,
            gates: 0,
        },
    )
}

/// How many gates of the guards move at most one behind the other; saturates at 2^64 - 1.
pub(crate) fn guards_depth(arms: &[TArm]) -> u64
    requires { HasFormedGuards (choices_in arms.now) }
    ensures { result ≡ capped (guards_depth (choices_in arms.now)) }
{
    let mut most: u64 = 0;
    for arm in arms {
        most = most.max(expr_depth(&arm.guard));
    }
    most
}
