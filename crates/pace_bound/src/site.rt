//! What all statements of a program say, noted for all channels or variables in one walk.

ghost use Rattle.std.specs.Prelude.{◌≡◌, ◌<◌, length, max, slice_index, slice_set};
ghost use Rattle.width_check.specs.Typed.{program_of};
ghost use Rattle.width_check.specs.Typing.{IsProcess};
ghost use Rattle.width_check.specs.View.{process_of};
ghost use Rattle.round_time.specs.Phases.{over_statements, over_program};
ghost use Rattle.pace_bound.specs.Noting.{of_step, noted_count, IsGiven, IsRaised};

use crate::context::{Context, of_arm, of_branch, of_member};
use crate::mark::{Noted, mark_of};
use width_check::{TStmt, Typed};

/// Of the program's body.
const ROOT: Context = Context { held: 2, down: 1 };

/// Raises a number of a list to another one, if that is greater.
fn raise(table: &mut [u64], place: u32, least: u64)
    requires { place < length table.old }
    ensures { table.new ≡ slice_set table.old place (max (slice_index table.old place) least) }
{
    let old = table[place as usize];
    table[place as usize] = old.max(least);
}

/// Notes a statement itself, and not those in it.
fn note_step(program: &Typed, s: &TStmt, at: Context, noted: Noted, table: &mut [u64])
    requires process { IsProcess program.now.channels program.now.vars (process_of s.now) }
    requires given { IsGiven (program_of program.now) noted }
    requires sized { length table.old ≡ noted_count (program_of program.now) noted }
    ensures { IsRaised (λ k. of_step (program_of program.now) noted.entry k at.held at.down (process_of s.now))
        table.old table.new }
{
    if let Some(mark) = mark_of(program, s, at, noted) {
        raise(table, mark.place, mark.moves);
    }
}

/// Notes all statements of a statement.
fn note_steps(program: &Typed, s: &TStmt, at: Context, noted: Noted, table: &mut [u64])
    requires process { IsProcess program.now.channels program.now.vars (process_of s.now) }
    requires given { IsGiven (program_of program.now) noted }
    requires sized { length table.old ≡ noted_count (program_of program.now) noted }
    ensures { IsRaised (λ k. over_statements (program_of program.now) (of_step (program_of program.now) noted.entry k)
        at.held at.down (process_of s.now)) table.old table.new }
{
    match s {
        TStmt::Then { parts } => {
            for place in 0..parts.len() {
                let its = of_member(program, at, parts, place);
                note_steps(program, &parts[place], its, noted, table);
            }
        }
        TStmt::Beside { parts } => {
            let its = of_branch(at, parts.len() as u64);
            for part in parts {
                note_steps(program, part, its, noted, table);
            }
        }
        TStmt::Select { again, arms } => {
            note_step(program, s, at, noted, table);
            let its = of_arm(at, *again, arms);
            for arm in arms {
                note_steps(program, &arm.body, its, noted, table);
            }
        }
        TStmt::Repeat { body } => {
            let its = Context { held: 1, down: 0 };
            note_steps(program, body, its, noted, table);
        }
        TStmt::Skip | TStmt::Assign { .. } | TStmt::Send { .. } | TStmt::Receive { .. } => {
            note_step(program, s, at, noted, table);
        }
    }
}

/// Notes all statements of a program.
pub(crate) fn note_all(program: &Typed, noted: Noted, table: &mut [u64])
    requires given { IsGiven (program_of program.now) noted }
    requires sized { length table.old ≡ noted_count (program_of program.now) noted }
    ensures { IsRaised (λ k. over_program (program_of program.now) (of_step (program_of program.now) noted.entry k))
        table.old table.new }
{
    note_steps(program, program.body(), ROOT, noted, table);
}
