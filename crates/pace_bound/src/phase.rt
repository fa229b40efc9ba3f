//! The phases of steps.

ghost use Rattle.std.specs.Prelude.{◌≡◌, ◌+◌, ◌<◌, ℕ, suc, map, length, max, slice_index, All, IfOk};
ghost use Rattle.width_check.specs.Processes.{choosing};
ghost use Rattle.width_check.specs.Typed.{program_of};
ghost use Rattle.width_check.specs.Typing.{IsProcess, AreChoices};
ghost use Rattle.width_check.specs.View.{process_of, choices_in};
ghost use Rattle.handshake_expand.specs.Layout.{capped};
ghost use Rattle.round_time.specs.Longest.{greatest, var_height};
ghost use Rattle.round_time.specs.Phases.{acked, written, taken, passes, puts, over_program, phase, skip_at, turn_at};
ghost use Rattle.pace_bound.specs.Clearing.{IsTableOf, AreLines, ArePhases};
ghost use Rattle.pace_bound.specs.Noting.{of_step, noted_count, IsGiven};

use crate::first::{choices_first, first};
use crate::mark::{Lines, Noted, latch_moves, var_clears};
use crate::site::note_all;
use crate::table::noted_table;
use std::alloc::{AllocError, Global};
use width_check::{TArm, TStmt, Typed};

/// How many moves follow steps in the circuit, one behind the other, before the next steps: at most.
#[derive(Drop)]
pub(crate) struct Phases {
    /// Of each channel, when a value passes on it.
    pub passes: Vec<u64>,
    /// Of each variable, when it is assigned to.
    pub puts: Vec<u64>,
    /// Of all skips.
    pub skip: u64,
    /// Of all repetitions, when they go a further turn or end.
    pub turn: u64,
}

/// What follows the falls of the acknowledges of all channels.
fn after_acks(alloc: Global, program: &Typed) -> Result<Vec<u64>, AllocError>
    ensures { IfOk result (λ v. IsTableOf (length program.now.channels) (acked (program_of program.now)) v.items) }
{
    noted_table(alloc, program, program.channels().len(), Noted::Acks)
}

/// What follows the falls of the acknowledges of all variables.
fn after_stores(alloc: Global, program: &Typed, acks: &[u64]) -> Result<Vec<u64>, AllocError>
    requires { IsTableOf (length program.now.channels) (acked (program_of program.now)) acks.now }
    ensures { IfOk result (λ v. IsTableOf (length program.now.vars) (written (program_of program.now)) v.items) }
{
    noted_table(alloc, program, program.vars().len(), Noted::Stores { acks })
}

/// What follows the falls of the rails of all channels.
fn after_rails(
    alloc: Global,
    program: &Typed,
    acks: &[u64],
    stores: &[u64],
) -> Result<Vec<u64>, AllocError>
    requires acks { IsTableOf (length program.now.channels) (acked (program_of program.now)) acks.now }
    requires stores { IsTableOf (length program.now.vars) (written (program_of program.now)) stores.now }
    ensures { IfOk result (λ v. IsTableOf (length program.now.channels) (taken (program_of program.now)) v.items) }
{
    let mut table = Vec::from_slice(alloc, acks)?;
    note_all(program, Noted::Takes { stores }, &mut table);
    Ok(table)
}

/// What follows the falls of all lines of a program.
fn lines_of(alloc: Global, program: &Typed) -> Result<Lines, AllocError>
    ensures { IfOk result (λ lines. AreLines (program_of program.now) lines) }
{
    let acks = after_acks(alloc, program)?;
    let stores = after_stores(alloc, program, &acks)?;
    let rails = after_rails(alloc, program, &acks, &stores)?;
    Ok(Lines {
        acks,
        stores,
        rails,
    })
}

/// What follows the falls of both lines of each channel when a value has passed.
fn lines_fall(alloc: Global, lines: &Lines) -> Result<Vec<u64>, AllocError>
    requires { length lines.now.rails.items ≡ length lines.now.acks.items }
    ensures sized { IfOk result (λ v. length v.items ≡ length lines.now.acks.items) }
    ensures each { IfOk result (λ v. (k : ℕ) → k < length v.items → slice_index v.items k ≡
        capped (max (2 + slice_index lines.now.acks.items k) (1 + slice_index lines.now.rails.items k))) }
{
    let mut table = Vec::new(alloc);
    for place in 0..lines.acks.len() {
        let ends = lines.acks[place].saturating_add(2);
        table.push(ends.max(lines.rails[place].saturating_add(1)))?;
    }
    Ok(table)
}

/// The phases of all communications.
fn passes(alloc: Global, program: &Typed, lines: &Lines) -> Result<Vec<u64>, AllocError>
    requires { AreLines (program_of program.now) lines.now }
    ensures { IfOk result (λ v. IsTableOf (length program.now.channels) (passes (program_of program.now)) v.items) }
{
    let mut table = lines_fall(alloc, lines)?;
    note_all(program, Noted::Passes { lines }, &mut table);
    Ok(table)
}

/// What follows the falls of the rails by which each variable is written.
fn stores_fall(alloc: Global, program: &Typed, stores: &[u64]) -> Result<Vec<u64>, AllocError>
    requires { IsTableOf (length program.now.vars) (written (program_of program.now)) stores.now }
    ensures { IfOk result (λ v. IsTableOf (length program.now.vars)
        (λ x. 2 + var_height (program_of program.now) x + written (program_of program.now) x) v.items) }
{
    let mut table = Vec::new(alloc);
    for place in 0..stores.len() {
        table.push(var_clears(program, stores, place, 2))?;
    }
    Ok(table)
}

/// The phases of all assignments.
fn puts(alloc: Global, program: &Typed, stores: &[u64]) -> Result<Vec<u64>, AllocError>
    requires { IsTableOf (length program.now.vars) (written (program_of program.now)) stores.now }
    ensures { IfOk result (λ v. IsTableOf (length program.now.vars) (puts (program_of program.now)) v.items) }
{
    let mut table = stores_fall(alloc, program, stores)?;
    note_all(program, Noted::Puts { stores }, &mut table);
    Ok(table)
}

/// The greatest number that is noted, where a table has only one.
fn most_of(program: &Typed, noted: Noted) -> u64
    requires one { noted_count (program_of program.now) noted ≡ 1 }
    requires given { IsGiven (program_of program.now) noted }
    ensures { result ≡ capped (over_program (program_of program.now) (of_step (program_of program.now) noted.entry 0)) }
{
    let mut table = [0];
    note_all(program, noted, &mut table);
    table[0]
}

/// The phases of all steps, where what follows the falls of lines is known.
fn phases_by(alloc: Global, program: &Typed, lines: &Lines) -> Result<Phases, AllocError>
    requires { AreLines (program_of program.now) lines.now }
    ensures { IfOk result (λ phases. ArePhases (program_of program.now) phases) }
{
    let passes = passes(alloc, program, lines)?;
    let puts = puts(alloc, program, &lines.stores)?;
    Ok(Phases {
        passes,
        puts,
        skip: most_of(program, Noted::Skips),
        turn: most_of(program, Noted::Turns),
    })
}

/// The phases of all steps of a program.
pub(crate) fn phases_of(alloc: Global, program: &Typed) -> Result<Phases, AllocError>
    ensures { IfOk result (λ phases. ArePhases (program_of program.now) phases) }
{
    let lines = lines_of(alloc, program)?;
    phases_by(alloc, program, &lines)
}

/// How many moves a selection's step takes, one behind the other, with those that follow it before the next steps.
fn selection_moves(program: &Typed, phases: &Phases, again: bool, arms: &[TArm]) -> u64
    requires phases { ArePhases (program_of program.now) phases.now }
    requires arms { AreChoices program.now.channels program.now.vars (choices_in arms.now) }
    ensures { result ≡ capped (suc (phase (program_of program.now) (choosing again (choices_in arms.now)))) }
{
    if again {
        phases.turn.saturating_add(1)
    } else {
        latch_moves(choices_first(program, arms), arms).saturating_add(1)
    }
}

/// The same of any statement: one more than its phase; saturates at 2^64 - 1. (The phase of a loop itself couldn't be
/// had from a saturated `first`.)
fn step_moves(program: &Typed, phases: &Phases, s: &TStmt) -> u64
    requires phases { ArePhases (program_of program.now) phases.now }
    requires process { IsProcess program.now.channels program.now.vars (process_of s.now) }
    ensures { result ≡ capped (suc (phase (program_of program.now) (process_of s.now))) }
{
    match s {
        TStmt::Skip => phases.skip.saturating_add(1),
        TStmt::Assign { var, .. } => phases.puts[*var as usize].saturating_add(1),
        TStmt::Send { chan, .. } | TStmt::Receive { chan, .. } => {
            phases.passes[*chan as usize].saturating_add(1)
        }
        TStmt::Select { again, arms } => selection_moves(program, phases, *again, arms),
        TStmt::Repeat { body } => first(program, false, body),
        TStmt::Then { .. } | TStmt::Beside { .. } => 1,
    }
}

/// The same of all of these steps: the greatest; of no step 1.
pub(crate) fn moves_of(program: &Typed, phases: &Phases, steps: &[&TStmt]) -> u64
    requires phases { ArePhases (program_of program.now) phases.now }
    requires processes { All (λ s. IsProcess program.now.channels program.now.vars (process_of s.now)) steps.now }
    ensures { result ≡ capped (suc (greatest
        (map (λ s. phase (program_of program.now) (process_of s.now)) steps.now))) }
{
    let mut most = 1;
    for place in 0..steps.len() {
        most = most.max(step_moves(program, phases, steps[place]));
    }
    most
}
