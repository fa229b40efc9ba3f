//! What is left of a program, by the numbers of its parts.

ghost use Rattle.std.specs.Prelude.{◌≡◌, ◌<◌, IfOk};
ghost use Rattle.width_check.specs.View.{process_of};
ghost use Rattle.chp_meaning.specs.Remaining.{remains_of, none_remains, part_of, part_count, begun, after_part, resumed, within, HasMembers};

use std::alloc::{AllocError, Global};
use width_check::TStmt;

/// What is left of a statement.
#[derive(Drop)]
pub(crate) enum Left {
    /// Nothing.
    Done,
    /// All of it. It is no sequence and no parallel composition.
    Whole,
    /// Its part, its branch or its body of this number has begun, of which this is left.
    Inside { index: usize, inner: Box<Left> },
    /// This is left of each branch of a parallel composition.
    Branches { lefts: Vec<Left> },
}

pub(crate) fn is_done(left: &Left) -> bool
    ensures { result ≡ none_remains (remains_of left.now) }
{
    match left {
        Left::Done => true,
        _ => false,
    }
}

/// The part, the branch or the body of this number.
pub(crate) fn part(stmt: &TStmt, index: usize) -> &TStmt
    requires { index < part_count (process_of stmt.now) }
    ensures { process_of result.now ≡ part_of (process_of stmt.now) index }
{
    match stmt {
        TStmt::Then { parts } => &parts[index],
        TStmt::Beside { parts } => &parts[index],
        TStmt::Select { arms, .. } => &arms[index].body,
        TStmt::Repeat { body } => body,
        _ => stmt,
    }
}

fn inside(alloc: Global, index: usize, inner: Left) -> Result<Left, AllocError>
    ensures { IfOk result (λ left. remains_of left ≡ within index (remains_of inner)) }
{
    let inner = Box::new(alloc, inner)?;
    Ok(Left::Inside { index, inner })
}

/// All of a statement, begun.
pub(crate) fn opened(alloc: Global, stmt: &TStmt) -> Result<Left, AllocError>
    requires { HasMembers (process_of stmt.now) }
    ensures { IfOk result (λ left. remains_of left ≡ begun (process_of stmt.now)) }
{
    match stmt {
        TStmt::Then { parts } => inside(alloc, 0, opened(alloc, &parts[0])?),
        TStmt::Beside { parts } => {
            let mut lefts = Vec::new(alloc);
            for part in parts {
                lefts.push(opened(alloc, part)?)?;
            }
            Ok(Left::Branches { lefts })
        }
        _ => Ok(Left::Whole),
    }
}

/// The statement's part, branch or body of this number, begun.
pub(crate) fn entered(alloc: Global, stmt: &TStmt, index: usize) -> Result<Left, AllocError>
    requires members { HasMembers (process_of stmt.now) }
    requires within { index < part_count (process_of stmt.now) }
    ensures { IfOk result (λ left. remains_of left ≡ within index (begun (part_of (process_of stmt.now) index))) }
{
    inside(alloc, index, opened(alloc, part(stmt, index))?)
}

/// What follows a part that is done.
fn next(alloc: Global, stmt: &TStmt, index: usize) -> Result<Left, AllocError>
    requires members { HasMembers (process_of stmt.now) }
    requires within { index < part_count (process_of stmt.now) }
    ensures { IfOk result (λ left. remains_of left ≡ after_part (process_of stmt.now) index) }
{
    match stmt {
        TStmt::Then { parts } => {
            if index + 1 < parts.len() {
                entered(alloc, stmt, index + 1)
            } else {
                Ok(Left::Done)
            }
        }
        TStmt::Select { again, .. } => Ok(if *again { Left::Whole } else { Left::Done }),
        TStmt::Repeat { .. } => Ok(Left::Whole),
        _ => Ok(Left::Done),
    }
}

/// What is left of a statement, of whose part of this number this is left.
pub(crate) fn resumed(
    alloc: Global,
    stmt: &TStmt,
    index: usize,
    inner: Left,
) -> Result<Left, AllocError>
    requires members { HasMembers (process_of stmt.now) }
    requires within { index < part_count (process_of stmt.now) }
    ensures { IfOk result (λ left. remains_of left ≡ resumed (process_of stmt.now) index (remains_of inner)) }
{
    if is_done(&inner) {
        next(alloc, stmt, index)
    } else {
        inside(alloc, index, inner)
    }
}
