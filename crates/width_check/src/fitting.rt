//! Checks of expressions and statements over declared channels and variables.

ghost use Rattle.std.specs.Prelude.{◌≡◌, ◌≢◌, ◌<◌, ◌≤◌, ◌+◌, ℕ, length, true, false, Some, IfSome, IfNone, IsSomeAnd};
ghost use Rattle.std.specs.Bool.{Decides};
ghost use Rattle.width_check.specs.Typing.{var_width, IsOfWidth, IsSend, IsReceive, IsProcess};
ghost use Rattle.width_check.specs.Values.{is_comparison};
ghost use Rattle.width_check.specs.View.{formula_of, process_of};

use crate::typed::{TExpr, TStmt, Var};
use chp_base::{Channel, Kind};
use chp_syntax::Op;

/// Whether an operator compares its sides.
pub(crate) fn is_comparison(op: Op) -> bool
    ensures { result ≡ is_comparison op }
{
    matches!(op, Op::Eq | Op::Ne | Op::Lt | Op::Le | Op::Gt | Op::Ge)
}

/// Whether the variable of this number has the bits from `low` to `high`.
#[tactic(auto, using(crate::proofs::Widths::var_found))]
fn has_bits(vars: &[Var], var: u32, high: u8, low: u8) -> bool
    ensures { Decides result ((var < length vars.now) × (high < var_width vars.now var) × (low ≤ high) × (high ≤ 63)) }
{
    match vars.get(var as usize) {
        Some(declared) => low <= high && high < declared.width && high <= 63,
        None => false,
    }
}

/// The number of bits of a comparison of two sides with these, or None if it isn't one of two that have the same.
fn compared_width(op: Op, left: Option<u8>, right: Option<u8>) -> Option<u8>
    ensures some { IfSome result (λ width. (width ≡ 1) × (is_comparison op ≡ true)
        × IsSomeAnd left (λ own. right ≡ Some own)) }
    ensures none { IfNone result (is_comparison op ≡ true → IfSome left (λ own. right ≢ Some own)) }
{
    match (left, right) {
        (Some(one), Some(other)) if is_comparison(op) && one == other => Some(1),
        _ => None,
    }
}

/// The number of bits of an operation on two sides with these, or None if it compares or they don't have the same.
fn operated_width(op: Op, left: Option<u8>, right: Option<u8>) -> Option<u8>
    ensures some { IfSome result (λ width. (is_comparison op ≡ false) × (left ≡ Some width) × (right ≡ Some width)) }
    ensures none { IfNone result (is_comparison op ≡ false → IfSome left (λ own. right ≢ Some own)) }
{
    match (left, right) {
        (Some(one), Some(other)) if !is_comparison(op) && one == other => Some(one),
        _ => None,
    }
}

/// The number of bits of two parts together, or None if one of them has none, or they have more than 64.
fn joined_width(one: Option<u8>, other: Option<u8>) -> Option<u8>
    ensures some { IfSome result (λ width. (width ≤ 64) × IsSomeAnd one (λ a. IsSomeAnd other (λ b. width ≡ a + b))) }
    ensures none { IfNone result (IfSome one (λ a. IfSome other (λ b. 64 < a + b))) }
{
    match (one, other) {
        (Some(one), Some(other)) if one <= 64 && other <= 64 - one => Some(one + other),
        _ => None,
    }
}

/// A number of bits, or None if there are none.
fn some_width(width: Option<u8>) -> Option<u8>
    ensures some { IfSome result (λ own. (width ≡ Some own) × (1 ≤ own)) }
    ensures none { IfNone result (IfSome width (λ own. own ≡ 0)) }
{
    match width {
        Some(own) if 1 <= own => Some(own),
        _ => None,
    }
}

/// The number of bits of an expression over these variables, or None if it isn't well formed or reads bits that the
/// variables don't have.
fn width_over(vars: &[Var], e: &TExpr) -> Option<u8>
    ensures some { IfSome result (λ width. IsOfWidth vars.now width (formula_of e.now)) }
    ensures none { IfNone result ((width : ℕ) → ¬ IsOfWidth vars.now width (formula_of e.now)) }
{
    match e {
        TExpr::Number { bits } => Some(bits.width()),
        TExpr::Read { var, high, low, .. } => {
            if has_bits(vars, *var, *high, *low) {
                Some(*high + 1 - *low)
            } else {
                None
            }
        }
        TExpr::Join { parts } => {
            let mut width = Some(0);
            for part in parts {
                width = joined_width(width, width_over(vars, part));
            }
            some_width(width)
        }
        TExpr::Not { inner } => width_over(vars, inner),
        TExpr::Chain { first, rest } => {
            let mut width = width_over(vars, first);
            for link in rest {
                width = operated_width(link.op, width, width_over(vars, &link.right));
            }
            if rest.is_empty() { None } else { width }
        }
        TExpr::Compare { op, left, right } => {
            compared_width(*op, width_over(vars, left), width_over(vars, right))
        }
    }
}

/// Whether an expression over these variables is of the width.
fn is_of_width(vars: &[Var], width: u8, e: &TExpr) -> bool
    ensures { Decides result (IsOfWidth vars.now width (formula_of e.now)) }
{
    match width_over(vars, e) {
        Some(own) => own == width,
        None => false,
    }
}

fn is_assign(vars: &[Var], var: u32, value: &TExpr) -> bool
    ensures { Decides result ((var < length vars.now)
        × IsOfWidth vars.now (var_width vars.now var) (formula_of value.now)) }
{
    match vars.get(var as usize) {
        Some(declared) => is_of_width(vars, declared.width, value),
        None => false,
    }
}

fn program_sends(kind: Kind) -> bool
    ensures { Decides result (kind ≢ Kind.In) }
{
    match kind {
        Kind::In => false,
        Kind::Out | Kind::Chan => true,
    }
}

fn program_receives(kind: Kind) -> bool
    ensures { Decides result (kind ≢ Kind.Out) }
{
    match kind {
        Kind::Out => false,
        Kind::In | Kind::Chan => true,
    }
}

fn is_send(channels: &[Channel], vars: &[Var], chan: u32, value: &TExpr) -> bool
    ensures { Decides result (IsSend channels.now vars.now chan (formula_of value.now)) }
{
    match channels.get(chan as usize) {
        Some(channel) => program_sends(channel.kind) && is_of_width(vars, channel.width, value),
        None => false,
    }
}

fn is_receive(channels: &[Channel], vars: &[Var], chan: u32, var: u32) -> bool
    ensures { Decides result (IsReceive channels.now vars.now chan var) }
{
    match (channels.get(chan as usize), vars.get(var as usize)) {
        (Some(channel), Some(declared)) => {
            program_receives(channel.kind) && declared.width == channel.width
        }
        _ => false,
    }
}

/// Whether a statement is one over these channels and variables.
pub(crate) fn is_process(channels: &[Channel], vars: &[Var], s: &TStmt) -> bool
    ensures { Decides result (IsProcess channels.now vars.now (process_of s.now)) }
{
    match s {
        TStmt::Skip => true,
        TStmt::Assign { var, value, .. } => is_assign(vars, *var, value),
        TStmt::Send { chan, value, .. } => is_send(channels, vars, *chan, value),
        TStmt::Receive { chan, var, .. } => is_receive(channels, vars, *chan, *var),
        TStmt::Then { parts } | TStmt::Beside { parts } => {
            for part in parts {
                if !is_process(channels, vars, part) {
                    return false;
                }
            }
            2 <= parts.len()
        }
        TStmt::Select { arms, .. } => {
            for arm in arms {
                if !is_of_width(vars, 1, &arm.guard) || !is_process(channels, vars, &arm.body) {
                    return false;
                }
            }
            1 <= arms.len() && arms.len() <= 16
        }
        TStmt::Repeat { body } => is_process(channels, vars, body),
    }
}
