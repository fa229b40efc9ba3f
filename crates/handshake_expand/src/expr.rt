//! The nodes of expressions.

ghost use Rattle.std.specs.Prelude.{◌≡◌};
ghost use Rattle.width_check.specs.View.{formula_of};
ghost use Rattle.width_check.specs.Values.{IsWellFormed};
ghost use Rattle.handshake_expand.specs.Layout.{operator_size, formula_size, capped};
ghost use Rattle.width_check.specs.Reads.{reads};

use chp_syntax::Op;
use width_check::{TExpr, width_of};

/// How many nodes the gates of an operator on two numbers of the width have.
pub fn operator_nodes(op: Op, width: u8) -> u64
    ensures { result ≡ operator_size op width }
{
    let bits = u64::from(width);
    match op {
        Op::Add | Op::Sub | Op::Eq | Op::Ne => (4 * bits).saturating_sub(2),
        Op::And | Op::Or | Op::Xor | Op::Lt | Op::Le | Op::Gt | Op::Ge => 2 * bits,
    }
}

/// How many nodes the circuit of a well-formed expression has; the count saturates at 2^64 - 1.
pub fn expr_nodes(e: &TExpr) -> u64
    requires { IsWellFormed (formula_of e.now) }
    ensures { result ≡ capped (formula_size (formula_of e.now)) }
{
    match e {
        TExpr::Number { bits } => 2 * u64::from(bits.width()),
        TExpr::Read { high, low, .. } => 2 * u64::from(*high + 1 - *low),
        TExpr::Join { parts } => {
            let mut count: u64 = 0;
            for part in parts {
                count = count.saturating_add(expr_nodes(part));
            }
            count
        }
        TExpr::Not { inner } => expr_nodes(inner),
        TExpr::Chain { first, rest } => {
            let width = width_of(first);
            let mut count = expr_nodes(first);
            for link in rest {
                let gates = operator_nodes(link.op, width);
                count = count.saturating_add(expr_nodes(&link.right).saturating_add(gates));
            }
            count
        }
        TExpr::Compare { op, left, right } => {
            let sides = expr_nodes(left).saturating_add(expr_nodes(right));
            sides.saturating_add(operator_nodes(*op, width_of(left)))
        }
    }
}

/// Whether an expression reads the variable.
pub fn reads(e: &TExpr, var: u32) -> bool
    ensures { result ≡ reads var (formula_of e.now) }
{
    match e {
        TExpr::Number { .. } => false,
        TExpr::Read { var: read, .. } => *read == var,
        TExpr::Join { parts } => {
            for part in parts {
                if reads(part, var) {
                    return true;
                }
            }
            false
        }
        TExpr::Not { inner } => reads(inner, var),
        TExpr::Chain { first, rest } => {
            if reads(first, var) {
                return true;
            }
            for link in rest {
                if reads(&link.right, var) {
                    return true;
                }
            }
            false
        }
        TExpr::Compare { left, right, .. } => reads(left, var) || reads(right, var),
    }
}
