//! What a round changes of what is left of a program.

ghost use Rattle.std.specs.Prelude.{◌≡◌, ◌<◌, false, if◌then◌else◌, IfOk, OnOk};
ghost use Rattle.chp_meaning.specs.declared.change.Change.{Stays};
ghost use Rattle.width_check.specs.View.{process_of};
ghost use Rattle.chp_meaning.specs.Remaining.{remains_of, none_remains, alongside, over, within, begun, part_of, part_count, resumed, Remains, Several, HasMembers};
ghost use Rattle.chp_meaning.specs.Changes.{changed, each_changed, altered, in_part};

use crate::left::{Left, entered, is_done, resumed};
use std::alloc::{AllocError, Global};
use std::mem;
use width_check::TStmt;

/// How what is left of a statement changes.
#[cycle(change)]
#[derive(Drop)]
pub(crate) enum Change {
    /// Not at all.
    Stays,
    /// This is left of it then.
    Becomes { left: Left },
    /// As what is left of its part does.
    Inside { change: Box<Change> },
    /// As what is left of some of its branches does.
    Branches { changes: Vec<BranchChange> },
}

/// How what is left of the branch of this number changes.
#[cycle(change)]
#[derive(Drop)]
pub(crate) struct BranchChange {
    pub number: usize,
    pub change: Change,
}

/// Makes the change.
pub(crate) fn apply(change: &mut Change, left: &mut Left)
    ensures { remains_of left.new ≡ changed change.old (remains_of left.old) }
{
    match change {
        Change::Stays => {}
        Change::Becomes { left: next } => mem::swap(left, next),
        Change::Inside { change } => {
            if let Left::Inside { inner, .. } = left {
                apply(change, inner);
            }
        }
        Change::Branches { changes } => match mem::replace(left, Left::Done) {
            Left::Branches { mut lefts } => {
                for branch in changes.iter_mut() {
                    if branch.number < lefts.len() {
                        apply(&mut branch.change, &mut lefts[branch.number]);
                    }
                }
                *left = Left::Branches { lefts };
            }
            other => *left = other,
        },
    }
}

/// Whether nothing remains once what is left has changed.
pub(crate) fn ends(left: &Left, change: &Change) -> bool
    ensures { result ≡ none_remains (changed change.now (remains_of left.now)) }
{
    match change {
        Change::Becomes { left: next } => is_done(next),
        _ => is_done(left),
    }
}

/// Nothing is left then.
pub(crate) fn set_done(change: &mut Change)
    ensures { (r : Remains) → changed change.new r ≡ over }
{
    *change = Change::Becomes { left: Left::Done };
}

/// The statement's part, branch or body of this number begins.
#[inline(never)]
pub(crate) fn set_entered(
    alloc: Global,
    stmt: &TStmt,
    index: usize,
    change: &mut Change,
) -> Result<(), AllocError>
    requires members { HasMembers (process_of stmt.now) }
    requires within { index < part_count (process_of stmt.now) }
    ensures { OnOk result ((r : Remains) →
        changed change.new r ≡ within index (begun (part_of (process_of stmt.now) index))) }
{
    let left = entered(alloc, stmt, index)?;
    *change = Change::Becomes { left };
    Ok(())
}

fn inside(alloc: Global, change: Change) -> Result<Change, AllocError>
    ensures { IfOk result (λ all. (r : Remains) → changed all r ≡ in_part (changed change) r) }
{
    let change = Box::new(alloc, change)?;
    Ok(Change::Inside { change })
}

/// How what is left of a statement changes, where what is left of its part of this number changes so.
fn part_change(
    alloc: Global,
    stmt: &TStmt,
    index: usize,
    change: Change,
) -> Result<Change, AllocError>
    requires members { HasMembers (process_of stmt.now) }
    requires within { index < part_count (process_of stmt.now) }
    ensures { IfOk result (λ all. (r : Remains) → none_remains r ≡ false →
        changed all (within index r) ≡ resumed (process_of stmt.now) index (changed change r)) }
{
    match change {
        Change::Stays => Ok(Change::Stays),
        Change::Becomes { left } => {
            let left = resumed(alloc, stmt, index, left)?;
            Ok(Change::Becomes { left })
        }
        _ => inside(alloc, change),
    }
}

/// The change of the statement's part of this number becomes the statement's.
#[inline(never)]
fn widen(alloc: Global, stmt: &TStmt, index: usize, change: &mut Change) -> Result<(), AllocError>
    requires members { HasMembers (process_of stmt.now) }
    requires within { index < part_count (process_of stmt.now) }
    ensures { OnOk result ((r : Remains) → none_remains r ≡ false →
        changed change.new (within index r) ≡ resumed (process_of stmt.now) index (changed change.old r)) }
{
    let inner = mem::replace(change, Change::Stays);
    *change = part_change(alloc, stmt, index, inner)?;
    Ok(())
}

/// The same, at once where nothing changes.
pub(crate) fn set_part_change(
    alloc: Global,
    stmt: &TStmt,
    index: usize,
    change: &mut Change,
) -> Result<(), AllocError>
    requires members { HasMembers (process_of stmt.now) }
    requires within { index < part_count (process_of stmt.now) }
    ensures { OnOk result ((r : Remains) → none_remains r ≡ false →
        changed change.new (within index r) ≡ resumed (process_of stmt.now) index (changed change.old r)) }
{
    match change {
        Change::Stays => Ok(()),
        _ => widen(alloc, stmt, index, change),
    }
}

#[inline(never)]
fn take_in(
    changes: &mut Vec<BranchChange>,
    number: usize,
    change: &mut Change,
) -> Result<(), AllocError>
    ensures stays { change.new ≡ Stays }
    ensures added { OnOk result ((rs : Several) →
        each_changed changes.new.items rs ≡ altered (each_changed changes.old.items rs) number (changed change.old)) }
{
    let change = mem::replace(change, Change::Stays);
    changes.push(BranchChange { number, change })?;
    Ok(())
}

/// Adds how the branch of this number changes, if it does.
pub(crate) fn add(
    changes: &mut Vec<BranchChange>,
    number: usize,
    change: &mut Change,
) -> Result<(), AllocError>
    ensures stays { change.new ≡ Stays }
    ensures added { OnOk result ((rs : Several) →
        each_changed changes.new.items rs ≡ altered (each_changed changes.old.items rs) number (changed change.old)) }
{
    match change {
        Change::Stays => Ok(()),
        _ => take_in(changes, number, change),
    }
}

/// How what is left of a parallel composition changes, where its branches change so and then are all done or aren't.
pub(crate) fn set_branches(change: &mut Change, changes: Vec<BranchChange>, all_done: bool)
    requires { change.old ≡ Stays }
    ensures { (rs : Several) → changed change.new (alongside rs) ≡
        (if all_done then over else alongside (each_changed changes.items rs)) }
{
    if all_done {
        set_done(change);
    } else if !changes.is_empty() {
        *change = Change::Branches { changes };
    }
}
