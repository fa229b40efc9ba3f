//! The plan of a round: each step that is enabled at its start, once.

ghost use Rattle.std.specs.Prelude.{◌≡◌, ◌++◌, length, replicate, fold, option_to_list, true, false, None, OnOk};
ghost use Rattle.width_check.specs.View.{process_of};
ghost use Rattle.chp_meaning.specs.Remaining.{remains_of, whole, CanRemain, RunsOn, HasMembers};
ghost use Rattle.chp_meaning.specs.declared.change.Change.{Stays};
ghost use Rattle.chp_meaning.specs.Changes.{changed};
ghost use Rattle.chp_meaning.specs.AtOnce.{statements, noted_send, noted_receive, step_remains, ended, ending_move, is_met, chosen_remains, choosing_move, HasBranch, move_of, advanced, moves_of};
ghost use Rattle.chp_meaning.specs.Standing.{outset_of, CanRun};

use crate::change::{Change, add, ends, set_branches, set_done, set_entered, set_part_change};
use crate::config::Config;
use crate::effect::{Move, TrueGuards, chosen, ending, is_met, plain_move};
use crate::left::{Left, part};
use std::alloc::{AllocError, Global};
use width_check::TStmt;

/// Records at each channel which ends of it wait in what is left of the statement, or that none does. Returns how many
/// active statements it has passed.
pub(crate) fn note(
    left: &Left,
    stmt: &TStmt,
    waits: bool,
    sends: &mut [bool],
    receives: &mut [Option<u32>],
) -> usize
    requires remains { CanRemain (process_of stmt.now) (remains_of left.now) }
    requires channels { RunsOn (length sends.old) (process_of stmt.now) }
    requires tables { length receives.old ≡ length sends.old }
    ensures sends { sends.new ≡ fold (noted_send waits) sends.old
        (statements (process_of stmt.now) (remains_of left.now)) }
    ensures receives { receives.new ≡
        fold (noted_receive waits) receives.old (statements (process_of stmt.now) (remains_of left.now)) }
{
    match left {
        Left::Done => 0,
        Left::Whole => {
            match stmt {
                TStmt::Send { chan, .. } => sends[*chan as usize] = waits,
                TStmt::Receive { chan, var, .. } => {
                    receives[*chan as usize] = if waits { Some(*var) } else { None };
                }
                _ => {}
            }
            1
        }
        Left::Inside { index, inner } => note(inner, part(stmt, *index), waits, sends, receives),
        Left::Branches { lefts } => {
            let mut passed: usize = 0;
            for (index, left) in lefts.iter().enumerate() {
                passed = passed.saturating_add(note(
                    left,
                    part(stmt, index),
                    waits,
                    sends,
                    receives,
                ));
            }
            passed
        }
    }
}

/// Clears the tables, where the ends that wait in what is left of the statement are noted. Passing so many active
/// statements once more costs more than whole tables that have no more entries.
pub(crate) fn clear(
    left: &Left,
    stmt: &TStmt,
    passed: usize,
    sends: &mut [bool],
    receives: &mut [Option<u32>],
)
    requires remains { CanRemain (process_of stmt.now) (remains_of left.now) }
    requires channels { RunsOn (length sends.old) (process_of stmt.now) }
    requires tables { length receives.old ≡ length sends.old }
    requires sends { sends.old ≡ fold (noted_send true) (replicate (length sends.old) false)
        (statements (process_of stmt.now) (remains_of left.now)) }
    requires receives { receives.old ≡ fold (noted_receive true) (replicate (length receives.old) None)
        (statements (process_of stmt.now) (remains_of left.now)) }
    ensures sends { sends.new ≡ replicate (length sends.old) false }
    ensures receives { receives.new ≡ replicate (length receives.old) None }
{
    if sends.len() <= passed {
        sends.fill(false);
        receives.fill(None);
    } else {
        note(left, stmt, false, sends, receives);
    }
}

/// How an active selection changes in the round, where these of its guards are true.
fn chosen_change(
    alloc: Global,
    stmt: &TStmt,
    again: bool,
    found: TrueGuards,
    moves: &mut Vec<Move>,
    change: &mut Change,
) -> Result<(), AllocError>
    requires members { HasMembers (process_of stmt.now) }
    requires within { HasBranch (process_of stmt.now) found }
    requires stays { change.old ≡ Stays }
    ensures left { OnOk result (changed change.new whole ≡ chosen_remains (process_of stmt.now) again found) }
    ensures moves { OnOk result (moves.new.items ≡ moves.old.items ++ option_to_list (choosing_move again found)) }
{
    match found {
        TrueGuards::One(index) => {
            moves.push(plain_move())?;
            set_entered(alloc, stmt, index, change)
        }
        TrueGuards::Zero => {
            if again {
                moves.push(plain_move())?;
                set_done(change);
            }
            Ok(())
        }
        TrueGuards::Several => Ok(()),
    }
}

/// How an active statement that ends with its step changes in the round.
#[inline(never)]
fn ended(
    config: &Config,
    stmt: &TStmt,
    moves: &mut Vec<Move>,
    change: &mut Change,
) -> Result<(), AllocError>
    requires numbers { CanRun config.now (process_of stmt.now) }
    requires stays { change.old ≡ Stays }
    ensures left { OnOk result (changed change.new whole ≡ ended (ending_move (outset_of config.now)
        (process_of stmt.now)) (is_met (outset_of config.now) (process_of stmt.now))) }
    ensures moves { OnOk result (moves.new.items ≡ moves.old.items
        ++ option_to_list (ending_move (outset_of config.now) (process_of stmt.now))) }
{
    if let Some(step) = ending(config, stmt) {
        moves.push(step)?;
        set_done(change);
    } else if is_met(config, stmt) {
        set_done(change);
    }
    Ok(())
}

/// How an active statement changes in the round.
fn stepped(
    alloc: Global,
    config: &Config,
    stmt: &TStmt,
    moves: &mut Vec<Move>,
    change: &mut Change,
) -> Result<(), AllocError>
    requires numbers { CanRun config.now (process_of stmt.now) }
    requires stays { change.old ≡ Stays }
    ensures left { OnOk result (changed change.new whole ≡
        step_remains (outset_of config.now) (process_of stmt.now)) }
    ensures moves { OnOk result (moves.new.items ≡ moves.old.items
        ++ option_to_list (move_of (outset_of config.now) (process_of stmt.now))) }
{
    match stmt {
        TStmt::Select { again, arms } => {
            let found = chosen(arms, &config.store);
            chosen_change(alloc, stmt, *again, found, moves, change)
        }
        TStmt::Repeat { .. } => {
            moves.push(plain_move())?;
            set_entered(alloc, stmt, 0, change)
        }
        _ => ended(config, stmt, moves, change),
    }
}

/// How what is left of a statement changes in the round; the moves of the steps are appended in the order of their
/// places.
pub(crate) fn advanced(
    alloc: Global,
    left: &Left,
    stmt: &TStmt,
    config: &Config,
    moves: &mut Vec<Move>,
    change: &mut Change,
) -> Result<(), AllocError>
    requires remains { CanRemain (process_of stmt.now) (remains_of left.now) }
    requires numbers { CanRun config.now (process_of stmt.now) }
    requires stays { change.old ≡ Stays }
    ensures left { OnOk result (changed change.new (remains_of left.now) ≡
        advanced (outset_of config.now) (process_of stmt.now) (remains_of left.now)) }
    ensures moves { OnOk result (moves.new.items ≡ moves.old.items
        ++ moves_of (outset_of config.now) (statements (process_of stmt.now) (remains_of left.now))) }
{
    match left {
        Left::Done => Ok(()),
        Left::Whole => stepped(alloc, config, stmt, moves, change),
        Left::Inside { index, inner } => {
            advanced(alloc, inner, part(stmt, *index), config, moves, change)?;
            set_part_change(alloc, stmt, *index, change)
        }
        Left::Branches { lefts } => {
            let mut changes = Vec::new(alloc);
            let mut all_done = true;
            let mut branch = Change::Stays;
            for (index, left) in lefts.iter().enumerate() {
                advanced(alloc, left, part(stmt, index), config, moves, &mut branch)?;
                all_done &= ends(left, &branch);
                add(&mut changes, index, &mut branch)?;
            }
            set_branches(change, changes, all_done);
            Ok(())
        }
    }
}
