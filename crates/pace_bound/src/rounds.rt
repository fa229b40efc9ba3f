//! How long the rounds of a run take together at most.

ghost use Rattle.std.specs.Prelude.{◌≡◌, ◌⊎◌, ◌≤◌, ◌<◌, ℕ, suc, OnOk, IfOk};
ghost use Rattle.env_script.specs.Scripts.{IsScript};
ghost use Rattle.width_check.specs.Sharing.{MeetsSharing};
ghost use Rattle.width_check.specs.Typed.{program_of};
ghost use Rattle.width_check.specs.View.{process_of};
ghost use Rattle.handshake_expand.specs.Layout.{capped};
ghost use Rattle.chp_meaning.specs.Steps.{start_of};
ghost use Rattle.chp_meaning.specs.Rounds.{rounds};
ghost use Rattle.chp_meaning.specs.Ends.{seen, IsOf, CanStep};
ghost use Rattle.round_time.specs.Sums.{round_phase, rounds_sum};
ghost use Rattle.pace_bound.specs.Clearing.{ArePhases};
ghost use Rattle.pace_bound.specs.Summing.{IsRunSum};

use crate::first::first;
use crate::phase::{Phases, moves_of, phases_of};
use chp_meaning::{Config, next_steps, round, start};
use env_script::Script;
use std::alloc::{AllocError, Global};
use width_check::Typed;

/// How many rounds a run made, and what `rounds_sum` says of them, in moves one behind the other.
#[derive(Clone, Copy)]
pub struct RunSum {
    pub rounds: u32,
    pub sum: u64,
}

/// How many moves the next round's steps take, one behind the other, with those that follow before the next steps: at
/// most; saturates at 2^64 - 1.
fn round_moves(
    alloc: Global,
    program: &Typed,
    phases: &Phases,
    config: &mut Config,
) -> Result<u64, AllocError>
    requires sharing { MeetsSharing (process_of program.now.body) }
    requires phases { ArePhases (program_of program.now) phases.now }
    requires of { IsOf program.now config.old }
    ensures moves { IfOk result (λ n. n ≡ capped (suc (round_phase (program_of program.now)
        (seen program.now config.old)))) }
    ensures of { IsOf program.now config.new }
    ensures unchanged { seen program.now config.new ≡ seen program.now config.old }
{
    let steps = next_steps(alloc, config, program)?;
    Ok(moves_of(program, phases, &steps))
}

/// Makes rounds of the program from its first configuration on, and sums up how long they take.
fn sum_by(
    alloc: Global,
    program: &Typed,
    phases: &Phases,
    config: &mut Config,
    most: u32,
) -> Result<RunSum, AllocError>
    requires sharing { MeetsSharing (process_of program.now.body) }
    requires phases { ArePhases (program_of program.now) phases.now }
    requires of { IsOf program.now config.old }
    ensures { IfOk result (IsRunSum (program_of program.now) (seen program.now config.old) most) }
{
    let mut sum: u64 = 0;
    let mut moves = first(program, false, program.body()).saturating_add(2);
    for rounds in 0..most {
        let next = round_moves(alloc, program, phases, config)?;
        if !round(alloc, config, program)? {
            return Ok(RunSum { rounds, sum });
        }
        sum = sum.saturating_add(moves);
        moves = next;
    }
    Ok(RunSum { rounds: most, sum })
}

/// The same of the program's rounds under the script.
fn sum_under(
    alloc: Global,
    program: &Typed,
    phases: &Phases,
    script: &Script,
    most: u32,
) -> Result<RunSum, AllocError>
    requires sharing { MeetsSharing (process_of program.now.body) }
    requires phases { ArePhases (program_of program.now) phases.now }
    requires script { IsScript program.now.channels script.now }
    ensures { IfOk result (IsRunSum (program_of program.now) (start_of (program_of program.now) script.now) most) }
{
    let mut config = start(alloc, program, script)?;
    sum_by(alloc, program, phases, &mut config, most)
}

/// Makes rounds of the program under the script until no step is left, and `most` at most. Tells how many it made, and
/// how many moves, one behind the other, the circuit of the program makes at most until it has passed what these rounds
/// pass, by the definition `rounds_sum`; saturates at 2^64 - 1. That circuits keep to it where no assignment reads its
/// own target is the law `rounds_pass` of `net_pace`; of other programs nothing is said of the circuit. It is the way
/// from the start to the steps of the first round, and from those of each to those of the next: each for itself, where
/// `longest_of` has one number for all, that of the dearest part of the program. It fails if memory runs out: beside
/// what a run of the rounds takes it takes some numbers for each channel and each variable, and a list of a round's
/// steps. For each round it needs the time of the round twice, and once more for the guards and the first steps of the
/// branches of each selection that makes a step, and for the first step of the body of each loop that does.
pub fn sum_of_rounds(
    alloc: Global,
    program: &Typed,
    script: &Script,
    most: u32,
) -> Result<RunSum, AllocError>
    requires sharing { MeetsSharing (process_of program.now.body) }
    requires script { IsScript program.now.channels script.now }
    ensures sum { IfOk result (λ run. run.sum ≡
        capped (rounds_sum (program_of program.now) script.now run.rounds)) }
    ensures few { IfOk result (λ run. run.rounds ≤ most) }
    ensures ends { IfOk result (λ run. (run.rounds ≡ most)
        ⊎ (¬ CanStep (rounds (program_of program.now) script.now run.rounds))) }
    ensures goes_on { IfOk result (λ run. (k : ℕ) → k < run.rounds
        → CanStep (rounds (program_of program.now) script.now k)) }
{
    let phases = phases_of(alloc, program)?;
    sum_under(alloc, program, &phases, script, most)
}
