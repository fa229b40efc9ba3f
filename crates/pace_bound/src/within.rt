//! From the steps of one round to those of the next.

ghost use Rattle.std.specs.Prelude.{◌≡◌, ◌+◌, ◌<◌, ◌≤◌, max, length, drop, IfOk, OnOk};
ghost use Rattle.width_check.specs.Typed.{program_of};
ghost use Rattle.width_check.specs.Typing.{IsProcess, AreProcesses, AreChoices};
ghost use Rattle.width_check.specs.View.{formula_of, process_of, members_in, choices_in};
ghost use Rattle.width_check.specs.Values.{IsWellFormed};
ghost use Rattle.width_check.specs.Reads.{reads};
ghost use Rattle.handshake_expand.specs.Layout.{capped};
ghost use Rattle.round_time.specs.Longest.{depth, guards_depth, low, var_height};
ghost use Rattle.round_time.specs.Ways.{loops_within};
ghost use Rattle.pace_bound.specs.Clearing.{AreFalls, turned_again};
ghost use Rattle.pace_bound.specs.Halving.{assign_within, first_by, onward, within_by};
ghost use Rattle.pace_bound.specs.Whereabouts.{AreLoopsNoted};

use crate::depth::{expr_depth, guards_depth};
use crate::first::{first, turn_first};
use crate::low::{Falls, last_of_arms, low};
use crate::width::var_height;
use handshake_expand::reads;
use std::alloc::AllocError;
use width_check::{TArm, TExpr, TStmt, Typed};

/// From the step of the first half of an assignment to that of the second, where it is in halves.
fn assign_within(program: &Typed, halved: bool, var: u32, value: &TExpr) -> u64
    requires { IsWellFormed (formula_of value.now) }
    ensures { result ≡ capped (assign_within halved (reads var (formula_of value.now)) (depth (formula_of value.now))
        (var_height (program_of program.now) var)) }
{
    if halved && reads(value, var) {
        let trees = var_height(program, var as usize).saturating_mul(2);
        expr_depth(value).saturating_add(trees).saturating_add(12)
    } else {
        0
    }
}

/// From the last step of a member of a sequence to the first step of the next one; 0 for the last member.
fn between(program: &Typed, falls: &Falls, halved: bool, parts: &[TStmt], place: usize) -> u64
    requires falls { AreFalls (program_of program.now) falls.now.channels.items falls.now.writes.items }
    requires there { place < length parts.now }
    requires members { AreProcesses program.now.channels program.now.vars (members_in (drop place parts.now)) }
    ensures { result ≡ capped (onward halved (program_of program.now) (members_in (drop place parts.now))) }
{
    if place + 1 < parts.len() {
        low(program, falls, &parts[place], 2)
            .saturating_add(turn_first(program, halved, &parts[place + 1..]))
            .saturating_add(1)
    } else {
        0
    }
}

/// From the last step of a branch to the latch of the next turn, where there is one.
fn turned_again(program: &Typed, falls: &Falls, again: bool, arms: &[TArm], guards: u64) -> u64
    requires falls { AreFalls (program_of program.now) falls.now.channels.items falls.now.writes.items }
    requires some { 1 ≤ length arms.now }
    requires arms { AreChoices program.now.channels program.now.vars (choices_in arms.now) }
    requires guards { guards ≡ capped (guards_depth (choices_in arms.now)) }
    ensures { result ≡ capped (turned_again (program_of program.now) again (choices_in arms.now)) }
{
    if again {
        last_of_arms(program, falls, arms, 4)
            .moves
            .saturating_add(guards)
            .saturating_add(4)
    } else {
        0
    }
}

/// The longer one of the two ways of a loop with this body: from its step to the first one of the body, and from the
/// last one of that to its own.
fn to_body_and_back(program: &Typed, falls: &Falls, halved: bool, body: &TStmt) -> u64
    requires falls { AreFalls (program_of program.now) falls.now.channels.items falls.now.writes.items }
    requires process { IsProcess program.now.channels program.now.vars (process_of body.now) }
    ensures { result ≡ capped (max (first_by halved (program_of program.now) (process_of body.now))
        (low (program_of program.now) 1 (process_of body.now) + 1)) }
{
    let back = low(program, falls, body, 1).saturating_add(1);
    first(program, halved, body).max(back)
}

/// A loop, and how long the longest way inside of it is; the number saturates at 2^64 - 1.
#[derive(Clone, Copy)]
pub struct Loop<'p> {
    pub statement: &'p TStmt,
    pub longest: u64,
}

/// The longest way inside of a statement from the steps of one round to those of the next, of the program as it is or
/// in halves; saturates at 2^64 - 1. On its way it notes each loop with that of its own, in the order of the text,
/// behind those that are there.
pub(crate) fn within<'p>(
    program: &Typed,
    falls: &Falls,
    halved: bool,
    s: &'p TStmt,
    loops: &mut Vec<Loop<'p>>,
) -> Result<u64, AllocError>
    requires falls { AreFalls (program_of program.now) falls.now.channels.items falls.now.writes.items }
    requires process { IsProcess program.now.channels program.now.vars (process_of s.now) }
    ensures longest { IfOk result (λ n. n ≡ capped (within_by halved (program_of program.now) (process_of s.now))) }
    ensures loops { OnOk result (AreLoopsNoted halved (program_of program.now) loops.old.items loops.new.items
        (loops_within (program_of program.now) (process_of s.now))) }
{
    match s {
        TStmt::Assign { var, value, .. } => Ok(assign_within(program, halved, *var, value)),
        TStmt::Then { parts } => {
            let mut most: u64 = 0;
            for place in 0..parts.len() {
                let inner = within(program, falls, halved, &parts[place], loops)?;
                most = most.max(inner.max(between(program, falls, halved, parts, place)));
            }
            Ok(most)
        }
        TStmt::Beside { parts } => {
            let mut most: u64 = 0;
            for part in parts {
                most = most.max(within(program, falls, halved, part, loops)?);
            }
            Ok(most)
        }
        TStmt::Select { again, arms } => {
            let guards = guards_depth(arms);
            let started = guards.saturating_add(3);
            let mut most = turned_again(program, falls, *again, arms, guards);
            for arm in arms {
                let inner = within(program, falls, halved, &arm.body, loops)?;
                let reached = started.saturating_add(first(program, halved, &arm.body));
                most = most.max(inner.max(reached));
            }
            Ok(most)
        }
        TStmt::Repeat { body } => {
            // It stands before the loops within it, and its number is known after theirs.
            let place = loops.len();
            loops.push(Loop {
                statement: s,
                longest: 0,
            })?;
            let inner = within(program, falls, halved, body, loops)?;
            let longest = inner.max(to_body_and_back(program, falls, halved, body));
            loops[place] = Loop {
                statement: s,
                longest,
            };
            Ok(longest)
        }
        _ => Ok(0),
    }
}
