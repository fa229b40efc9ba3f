//! By which name a statement is told.

ghost use Rattle.std.specs.Prelude.{◌≡◌};
ghost use Rattle.width_check.specs.View.{formula_of, process_of};
ghost use Rattle.pace_command.specs.FirstNames.{or_next, first_read_at, first_name_at};

use chp_base::Span;
use width_check::{TExpr, TStmt};

/// This place, or the next one where there is none.
fn or_next(at: Option<Span>, next: Option<Span>) -> Option<Span>
    ensures { result ≡ or_next at next }
{
    match at {
        None => next,
        Some(at) => Some(at),
    }
}

/// Where the first variable stands that an expression reads, if it reads one.
fn first_read_at(e: &TExpr) -> Option<Span>
    ensures { result ≡ first_read_at (formula_of e.now) }
{
    match e {
        TExpr::Number { .. } => None,
        TExpr::Read { at, .. } => Some(*at),
        TExpr::Join { parts } => {
            for part in parts {
                if let Some(at) = first_read_at(part) {
                    return Some(at);
                }
            }
            None
        }
        TExpr::Not { inner } => first_read_at(inner),
        TExpr::Chain { first, rest } => {
            if let Some(at) = first_read_at(first) {
                return Some(at);
            }
            for link in rest {
                if let Some(at) = first_read_at(&link.right) {
                    return Some(at);
                }
            }
            None
        }
        TExpr::Compare { left, right, .. } => or_next(first_read_at(left), first_read_at(right)),
    }
}

/// Where the first name stands in the text of a statement, if one does.
pub(crate) fn first_name_at(s: &TStmt) -> Option<Span>
    ensures { result ≡ first_name_at (process_of s.now) }
{
    match s {
        TStmt::Skip => None,
        TStmt::Assign { at, .. } | TStmt::Send { at, .. } => Some(*at),
        TStmt::Receive { chan_at, .. } => Some(*chan_at),
        TStmt::Then { parts } | TStmt::Beside { parts } => {
            for part in parts {
                if let Some(at) = first_name_at(part) {
                    return Some(at);
                }
            }
            None
        }
        TStmt::Select { arms, .. } => {
            for arm in arms {
                if let Some(at) = or_next(first_read_at(&arm.guard), first_name_at(&arm.body)) {
                    return Some(at);
                }
            }
            None
        }
        TStmt::Repeat { body } => first_name_at(body),
    }
}
