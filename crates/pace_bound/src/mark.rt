//! What statements say of the channels and the variables that they use.

ghost use Rattle.std.specs.Prelude.{◌≡◌, ℕ, ◌+◌, ◌<◌, length};
ghost use Rattle.chp_base.specs.declared.span.Span.{Span};
ghost use Rattle.width_check.specs.Processes.{TypedProgram, skipping, assigning, sending, receiving, choosing};
ghost use Rattle.width_check.specs.Typed.{program_of};
ghost use Rattle.width_check.specs.Typing.{IsProcess, AreChoices, kind_at};
ghost use Rattle.width_check.specs.View.{formula_of, process_of, choices_in};
ghost use Rattle.width_check.specs.Values.{IsWellFormed};
ghost use Rattle.width_check.specs.Reads.{reads};
ghost use Rattle.handshake_expand.specs.Layout.{capped};
ghost use Rattle.handshake_expand.specs.PartTree.{HasFormedGuards};
ghost use Rattle.round_time.specs.Longest.{depth, var_height, assign_holds};
ghost use Rattle.round_time.specs.Phases.{rails_left, latch_phase};
ghost use Rattle.pace_bound.specs.Clearing.{IsTableOf, AreLines};
ghost use Rattle.pace_bound.specs.Noting.{of_step, noted_count, IsGiven, AreMarked};

use crate::context::Context;
use crate::depth::{expr_depth, guards_depth};
use crate::first::choices_first;
use crate::width::{kind_of, var_height};
use chp_base::Kind;
use handshake_expand::reads;
use width_check::{TArm, TExpr, TStmt, Typed};

/// What follows the falls of lines, these included: how many moves, one behind the other, at most.
#[derive(Drop)]
pub(crate) struct Lines {
    /// Of each channel, of its acknowledge.
    pub acks: Vec<u64>,
    /// Of each variable, of its acknowledge.
    pub stores: Vec<u64>,
    /// Of each channel, of its rails.
    pub rails: Vec<u64>,
}

/// What is noted of statements.
#[derive(Clone, Copy)]
pub(crate) enum Noted<'a> {
    /// Of sends, for their channels: until their rails fall.
    Sends,
    /// Of assignments and receives, for the variables that they write: until the rails fall by which they do. By the
    /// falls of the channels' rails.
    Writes { rails: &'a [u64] },
    /// Of receives, for their channels: until both ends have taken back their answers. By the falls of the rails by
    /// which variables are written.
    Receives { writes: &'a [u64] },
    /// Of sends and receives, for their channels: what follows the fall of the acknowledge.
    Acks,
    /// Of assignments and receives, for the variables that they write: what follows the fall of the acknowledge. By
    /// that of the channels' acknowledges.
    Stores { acks: &'a [u64] },
    /// Of receives, for their channels: what follows the fall of the rails. By that of the variables' acknowledges.
    Takes { stores: &'a [u64] },
    /// Of sends and receives, for their channels: what follows when a value passes.
    Passes { lines: &'a Lines },
    /// Of assignments, for their variables: what follows. By what follows the falls of the variables' acknowledges.
    Puts { stores: &'a [u64] },
    /// Of skips: what follows.
    Skips,
    /// Of repetitions: what follows when they go a further turn or end.
    Turns,
}

/// A number of a table, and what it is raised to at least.
#[derive(Clone, Copy)]
pub(crate) struct Mark {
    pub place: u32,
    pub moves: u64,
}

/// How long the rails by which an assignment writes are high once it has answered.
fn assign_holds(var: u32, value: &TExpr, held: u64) -> u64
    requires { IsWellFormed (formula_of value.now) }
    ensures { result ≡ capped (assign_holds (reads var (formula_of value.now)) held (depth (formula_of value.now))) }
{
    if reads(value, var) {
        held.saturating_add(5)
    } else {
        held.saturating_add(expr_depth(value)).saturating_add(2)
    }
}

/// From a write to a variable until it has been told at all of its bits, then what the table says of the variable, and
/// so many moves more.
pub(crate) fn var_clears(program: &Typed, table: &[u64], var: usize, more: u64) -> u64
    requires there { var < length table.now }
    ensures { (f : ℕ → ℕ) → IsTableOf (length program.now.vars) f table.now
        → result ≡ capped (f var + more + var_height (program_of program.now) var) }
{
    table[var]
        .saturating_add(more)
        .saturating_add(var_height(program, var))
}

/// What follows when a send on a channel has answered and its gates have fallen.
fn rails_left(program: &Typed, lines: &Lines, chan: u32) -> u64
    requires there { chan < length program.now.channels }
    requires lines { AreLines (program_of program.now) lines.now }
    ensures { result ≡ capped (rails_left (program_of program.now) (kind_at program.now.channels chan) chan) }
{
    match kind_of(program, chan as usize) {
        Kind::Out => lines.acks[chan as usize].saturating_add(2),
        Kind::In | Kind::Chan => lines.rails[chan as usize].saturating_add(1),
    }
}

/// From a latch of a selection on: it says that it is up, the guards' request falls, the guards, and then follows what
/// is left.
pub(crate) fn latch_moves(left: u64, arms: &[TArm]) -> u64
    requires { HasFormedGuards (choices_in arms.now) }
    ensures { (whole : ℕ) → left ≡ capped whole → result ≡ capped (latch_phase whole (choices_in arms.now)) }
{
    guards_depth(arms).saturating_add(left).saturating_add(2)
}

/// What is noted of a skip.
fn skip_mark(at: Context, noted: Noted) -> Option<Mark>
    ensures { (P : TypedProgram)
        → AreMarked (noted_count P noted.entry) (λ k. of_step P noted.entry k at.held at.down skipping) result }
{
    match noted {
        Noted::Skips => Some(Mark {
            place: 0,
            moves: at.held.saturating_add(at.down).saturating_add(1),
        }),
        _ => None,
    }
}

/// What is noted of an assignment.
fn assign_mark(program: &Typed, var: u32, value: &TExpr, at: Context, noted: Noted) -> Option<Mark>
    requires there { var < length program.now.vars }
    requires formed { IsWellFormed (formula_of value.now) }
    requires given { IsGiven (program_of program.now) noted }
    ensures { (s : Span) → AreMarked (noted_count (program_of program.now) noted.entry)
        (λ k. of_step (program_of program.now) noted.entry k at.held at.down (assigning var s (formula_of value.now)))
        result }
{
    match noted {
        Noted::Writes { .. } => Some(Mark {
            place: var,
            moves: assign_holds(var, value, at.held),
        }),
        Noted::Stores { .. } => Some(Mark {
            place: var,
            moves: at.down.saturating_add(1),
        }),
        Noted::Puts { stores } => {
            let gates = expr_depth(value).saturating_add(at.held);
            let clears = var_clears(program, stores, var as usize, 3);
            Some(Mark {
                place: var,
                moves: gates.saturating_add(clears),
            })
        }
        _ => None,
    }
}

/// What is noted of a send.
fn send_mark(program: &Typed, chan: u32, value: &TExpr, at: Context, noted: Noted) -> Option<Mark>
    requires there { chan < length program.now.channels }
    requires formed { IsWellFormed (formula_of value.now) }
    requires given { IsGiven (program_of program.now) noted }
    ensures { (s : Span) → AreMarked (noted_count (program_of program.now) noted.entry)
        (λ k. of_step (program_of program.now) noted.entry k at.held at.down (sending chan s (formula_of value.now)))
        result }
{
    match noted {
        Noted::Sends => Some(Mark {
            place: chan,
            moves: at.held.saturating_add(expr_depth(value)).saturating_add(2),
        }),
        Noted::Acks => Some(Mark {
            place: chan,
            moves: at.down.saturating_add(1),
        }),
        Noted::Passes { lines } => {
            let gates = expr_depth(value).saturating_add(at.held);
            let left = rails_left(program, lines, chan);
            Some(Mark {
                place: chan,
                moves: gates.saturating_add(left).saturating_add(1),
            })
        }
        _ => None,
    }
}

/// What is noted of a receive.
fn receive_mark(program: &Typed, chan: u32, var: u32, at: Context, noted: Noted) -> Option<Mark>
    requires channel { chan < length program.now.channels }
    requires variable { var < length program.now.vars }
    requires given { IsGiven (program_of program.now) noted }
    ensures { (s t : Span) → AreMarked (noted_count (program_of program.now) noted.entry)
        (λ k. of_step (program_of program.now) noted.entry k at.held at.down (receiving chan s var t)) result }
{
    match noted {
        Noted::Writes { rails } => Some(Mark {
            place: var,
            moves: rails[chan as usize]
                .max(at.held.saturating_add(1))
                .saturating_add(2),
        }),
        Noted::Receives { writes } => Some(Mark {
            place: chan,
            moves: var_clears(program, writes, var as usize, 4),
        }),
        Noted::Acks => Some(Mark {
            place: chan,
            moves: at.down.saturating_add(1),
        }),
        Noted::Stores { acks } => Some(Mark {
            place: var,
            moves: acks[chan as usize].saturating_add(2),
        }),
        Noted::Takes { stores } => Some(Mark {
            place: chan,
            moves: var_clears(program, stores, var as usize, 3),
        }),
        Noted::Passes { lines } => Some(Mark {
            place: chan,
            moves: var_clears(program, &lines.stores, var as usize, 4).saturating_add(at.held),
        }),
        _ => None,
    }
}

/// What is noted of a selection itself.
fn select_mark(
    program: &Typed,
    again: bool,
    arms: &[TArm],
    at: Context,
    noted: Noted,
) -> Option<Mark>
    requires arms { AreChoices program.now.channels program.now.vars (choices_in arms.now) }
    ensures { AreMarked (noted_count (program_of program.now) noted.entry)
        (λ k. of_step (program_of program.now) noted.entry k at.held at.down (choosing again (choices_in arms.now)))
        result }
{
    match noted {
        Noted::Turns => {
            if again {
                let ends = at.held.saturating_add(at.down).saturating_add(5);
                Some(Mark {
                    place: 0,
                    moves: latch_moves(choices_first(program, arms).max(ends), arms),
                })
            } else {
                None
            }
        }
        _ => None,
    }
}

/// What is noted of a statement itself, and not of those in it.
pub(crate) fn mark_of(program: &Typed, s: &TStmt, at: Context, noted: Noted) -> Option<Mark>
    requires process { IsProcess program.now.channels program.now.vars (process_of s.now) }
    requires given { IsGiven (program_of program.now) noted }
    ensures { AreMarked (noted_count (program_of program.now) noted.entry)
        (λ k. of_step (program_of program.now) noted.entry k at.held at.down (process_of s.now)) result }
{
    match s {
        TStmt::Skip => skip_mark(at, noted),
        TStmt::Assign { var, value, .. } => assign_mark(program, *var, value, at, noted),
        TStmt::Send { chan, value, .. } => send_mark(program, *chan, value, at, noted),
        TStmt::Receive { chan, var, .. } => receive_mark(program, *chan, *var, at, noted),
        TStmt::Select { again, arms } => select_mark(program, *again, arms, at, noted),
        TStmt::Then { .. } | TStmt::Beside { .. } | TStmt::Repeat { .. } => None,
    }
}
