//! The width of an expression.

ghost use Rattle.std.specs.Prelude.{◌≡◌, ◌≤◌};
ghost use Rattle.width_check.specs.View.{formula_of};
ghost use Rattle.width_check.specs.Values.{width_of, IsWellFormed};

use crate::typed::TExpr;

/// The number of bits of a well-formed expression, from 1 to 64.
pub fn width_of(e: &TExpr) -> u8
    requires { IsWellFormed (formula_of e.now) }
    ensures { result ≡ width_of (formula_of e.now) }
{
    match e {
        TExpr::Number { bits } => bits.width(),
        TExpr::Read { high, low, .. } => *high + 1 - *low,
        TExpr::Join { parts } => {
            let mut width = 0;
            for part in parts {
                width += width_of(part);
            }
            width
        }
        TExpr::Not { inner } => width_of(inner),
        TExpr::Chain { first, .. } => width_of(first),
        TExpr::Compare { .. } => 1,
    }
}
