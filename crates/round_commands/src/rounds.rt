//! `run FILE SCRIPT`: rounds of a program under a script.

ghost use Rattle.std.specs.Prelude.{◌≡◌, ◌≤◌, ◌<◌, ◌∷◌, [], IfOk, IfErr, IfNone, IfSome};
ghost use Rattle.env_script.specs.Scripts.{IsScript};
ghost use Rattle.width_check.specs.Sharing.{MeetsSharing};
ghost use Rattle.width_check.specs.Typed.{program_of as typed_of};
ghost use Rattle.width_check.specs.View.{process_of};
ghost use Rattle.chp_meaning.specs.Ends.{held_in};
ghost use Rattle.chp_meaning.specs.Rounds.{rounds};
ghost use Rattle.command_answers.specs.Answers.{given_by, writes};
ghost use Rattle.command_words.specs.CommandWords.{rounds_asked};
ghost use Rattle.command_answers.specs.Replies.{Halts, Stops, told_answer};
ghost use Rattle.round_commands.specs.RoundsReporting.{ReportsRounds, Runs, most_of_values};

use chp_edge::Shelf;
use chp_meaning::{RunEnd, run_rounds, start};
use command_answers::{Ending, Output, Refusal, Stop};
use command_steps::{buffered_program_in, script_in};
use command_words::Rounds;
use env_script::Script;
use history_report::rounds_text;
use std::alloc::{AllocError, Global};
use width_check::Typed;

/// The most values that may have passed on all channels together.
const MOST_OF_VALUES: u32 = 1_048_576;

/// The report of so many rounds of the program, or `None` where too many values pass in them.
fn rounds_report(
    alloc: Global,
    program: &Typed,
    script: &Script,
    n: u32,
) -> Result<Option<Vec<u8>>, AllocError>
    requires script { IsScript program.now.channels script.now }
    requires sharing { MeetsSharing (process_of program.now.body) }
    ensures some { IfOk result (λ text. IfSome text (λ t.
        ReportsRounds (typed_of program.now) script.now n (writes Ending.Done t.items))) }
    ensures none { IfOk result (λ text. IfNone text
        (most_of_values < held_in (rounds (typed_of program.now) script.now n))) }
{
    let mut config = start(alloc, program, script)?;
    let end = run_rounds(alloc, &mut config, program, n, MOST_OF_VALUES)?;
    if end == RunEnd::TooMany {
        return Ok(None);
    }
    let text = rounds_text(alloc, &config, program, n, end)?;
    Ok(Some(text))
}

/// What `run` answers for an accepted program and its script.
fn report_rounds<'a>(
    alloc: Global,
    program: &Typed,
    script: &Script,
    n: u32,
) -> Result<Output, Stop<'a>>
    requires script { IsScript program.now.channels script.now }
    requires sharing { MeetsSharing (process_of program.now.body) }
    ensures answered { IfOk result (λ output.
        ReportsRounds (typed_of program.now) script.now n (told_answer output)) }
    ensures stopped { IfErr result (Halts (ReportsRounds (typed_of program.now) script.now n)) }
{
    match rounds_report(alloc, program, script, n) {
        Ok(Some(text)) => Ok(Output {
            text,
            end: Ending::Done,
        }),
        Ok(None) => Err(Stop::Refused(Refusal::TooManyValues)),
        Err(_) => Err(Stop::NoMemory),
    }
}

/// What `run` answers. It reads the program, and once that is accepted and has its buffer the script.
pub fn rounds<'a, S: Shelf>(
    alloc: Global,
    shelf: &mut S,
    asked: &Rounds<'a>,
) -> Result<Output, Stop<'a>>
    ensures answered { IfOk result (λ output. Runs (rounds_asked asked.now)
        (given_by (S.tells shelf.old) (S.holds shelf.old)) (told_answer output)) }
    ensures stopped { IfErr result (Stops (Runs (rounds_asked asked.now)
        (given_by (S.tells shelf.old) (S.holds shelf.old)))
        (asked.now.file.now ∷ asked.now.script.now ∷ []) (given_by (S.tells shelf.old) (S.holds shelf.old))
        (S.faults shelf.old) (S.faults shelf.new)) }
    ensures same { S.tells shelf.new ≡ S.tells shelf.old }
    ensures kept { S.holds shelf.new ≡ S.holds shelf.old }
    ensures faults { S.faults shelf.old ≤ S.faults shelf.new }
{
    let program = buffered_program_in(alloc, shelf, asked.file, asked.buffer)?;
    let program = program.typed();
    // brings the invariant of the program's type into scope, for its channels
    let _kept = program.body();
    let script = script_in(alloc, shelf, asked.script, program.channels())?;
    report_rounds(alloc, program, &script, asked.rounds)
}
