//! From the last step of a statement to the fall of its answer.

ghost use Rattle.std.specs.Prelude.{◌≡◌, ℕ, ◌<◌, ◌≤◌, ◌-◌, ◌^◌, length};
ghost use Rattle.width_check.specs.Processes.{Process};
ghost use Rattle.width_check.specs.Typed.{program_of};
ghost use Rattle.width_check.specs.Typing.{IsProcess, AreChoices};
ghost use Rattle.width_check.specs.View.{process_of, choices_in};
ghost use Rattle.handshake_expand.specs.Layout.{capped};
ghost use Rattle.round_time.specs.Longest.{low, choice_low};
ghost use Rattle.round_time.specs.Ways.{farthest, last_step, choice_last_step};
ghost use Rattle.pace_bound.specs.Clearing.{AreFalls};

use crate::away::{StepAway, after, at_least, farther, own_step};
use crate::depth::guards_depth;
use crate::height::tree_height;
use crate::mark::var_clears;
use width_check::{TArm, TStmt, Typed};

/// From a step on a line to the fall of the line.
#[derive(Drop)]
pub(crate) struct Falls {
    /// Of each channel, to the fall of the answers of both ends.
    pub channels: Vec<u64>,
    /// Of each variable, to the fall of the rails by which it is written.
    pub writes: Vec<u64>,
}

/// The statement whose step is the last one of a statement, and how many moves lead from it to the fall of the answer.
/// The request is high for `held` moves after the answer. Where the number saturates (2^64 - 1) the statement may be
/// another one.
#[cycle(last_steps)]
pub(crate) fn last_step<'p>(program: &Typed, falls: &Falls, s: &'p TStmt, held: u64) -> StepAway<'p>
    requires falls { AreFalls (program_of program.now) falls.now.channels.items falls.now.writes.items }
    requires process { IsProcess program.now.channels program.now.vars (process_of s.now) }
    ensures moves { result.moves ≡ capped (low (program_of program.now) held (process_of s.now)) }
    ensures step { (n : ℕ) → held ≡ capped n → low (program_of program.now) n (process_of s.now) < 2 ^ 64 - 1
        → process_of result.statement.now ≡ last_step (program_of program.now) n (process_of s.now) }
{
    match s {
        TStmt::Skip | TStmt::Repeat { .. } => own_step(s, held.saturating_add(1)),
        TStmt::Assign { var, .. } => own_step(
            s,
            var_clears(program, &falls.writes, *var as usize, 2),
        ),
        TStmt::Send { chan, .. } | TStmt::Receive { chan, .. } => own_step(
            s,
            falls.channels[*chan as usize],
        ),
        TStmt::Then { parts } => {
            let last = parts.len() - 1;
            let its = held.saturating_add((last as u64).saturating_mul(2));
            last_step(program, falls, &parts[last], its)
        }
        TStmt::Beside { parts } => {
            let mut latest = last_step(program, falls, &parts[0], 2);
            for place in 1..parts.len() {
                latest = farther(latest, last_step(program, falls, &parts[place], 2));
            }
            let trees = tree_height(parts.len() as u64).saturating_mul(2);
            after(latest, trees.saturating_add(held).saturating_add(3))
        }
        TStmt::Select { again, arms } => {
            if *again {
                own_step(s, held.saturating_add(guards_depth(arms)).saturating_add(7))
            } else {
                after(
                    last_of_arms(program, falls, arms, held.saturating_add(3)),
                    1,
                )
            }
        }
    }
}

/// The same of the branches of a selection or a repetition, to the fall of the last of their answers; where none falls
/// so late, as many moves as the requests are held.
#[cycle(last_steps)]
pub(crate) fn last_of_arms<'p>(
    program: &Typed,
    falls: &Falls,
    arms: &'p [TArm],
    held: u64,
) -> StepAway<'p>
    requires falls { AreFalls (program_of program.now) falls.now.channels.items falls.now.writes.items }
    requires some { 1 ≤ length arms.now }
    requires arms { AreChoices program.now.channels program.now.vars (choices_in arms.now) }
    ensures moves { result.moves ≡ capped (choice_low (program_of program.now) held (choices_in arms.now)) }
    ensures step { (n : ℕ) (itself : Process) → held ≡ capped n
        → choice_low (program_of program.now) n (choices_in arms.now) < 2 ^ 64 - 1
        → process_of result.statement.now ≡ farthest itself
        (choice_last_step (program_of program.now) n (choices_in arms.now)) }
{
    let mut latest = last_step(program, falls, &arms[0].body, held);
    for place in 1..arms.len() {
        latest = farther(latest, last_step(program, falls, &arms[place].body, held));
    }
    at_least(latest, held)
}

/// From the last step of a statement to the fall of its answer, as above.
pub(crate) fn low(program: &Typed, falls: &Falls, s: &TStmt, held: u64) -> u64
    requires falls { AreFalls (program_of program.now) falls.now.channels.items falls.now.writes.items }
    requires process { IsProcess program.now.channels program.now.vars (process_of s.now) }
    ensures { result ≡ capped (low (program_of program.now) held (process_of s.now)) }
{
    last_step(program, falls, s, held).moves
}
