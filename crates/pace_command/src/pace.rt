//! From the names of files to what is printed of the program, and of its script.

ghost use Rattle.std.specs.Prelude.{◌≡◌, ◌+◌, ◌≤◌, ◌∷◌, [], length, Some, IfOk, IfErr, option_to_list};
ghost use Rattle.chp_syntax.specs.Shape.{IsShaped};
ghost use Rattle.chp_syntax.specs.View.{program_tree};
ghost use Rattle.width_check.specs.Sharing.{MeetsSharing};
ghost use Rattle.width_check.specs.Typed.{program_of as typed_of};
ghost use Rattle.width_check.specs.View.{process_of};
ghost use Rattle.command_answers.specs.Answers.{given_by};
ghost use Rattle.command_answers.specs.Replies.{Halts, Stops, told_answer};
ghost use Rattle.command_steps.specs.Steps.{FromProgram, most_declared, most_of_text};
ghost use Rattle.command_words.specs.SimulateWords.{text_given};
ghost use Rattle.pace_command.specs.Names.{pace_asked};
ghost use Rattle.pace_command.specs.Pacing.{Paces, PacesProgram, PacesUnder, files_of};

use crate::asked::Asked;
use crate::report::{pace_report, sum_report};
use chp_edge::Shelf;
use chp_syntax::Program;
use command_answers::{Output, Stop};
use command_steps::{MOST_OF_TEXT, checked_program, program_of_text, script_in, text_of_file};
use std::alloc::Global;
use width_check::Typed;

/// What is answered for an accepted program and the script of this name.
fn pace_under<'a, S: Shelf>(
    alloc: Global,
    shelf: &mut S,
    program: &Program,
    plain: &Typed,
    script: &'a str,
) -> Result<Output, Stop<'a>>
    requires sharing { MeetsSharing (process_of plain.now.body) }
    ensures answered { IfOk result (λ output.
        PacesUnder (given_by (S.tells shelf.old) (S.holds shelf.old)) (Some script.entry.now)
        (program_tree program.now) (typed_of plain.now) (told_answer output)) }
    ensures stopped { IfErr result (Stops
        (PacesUnder (given_by (S.tells shelf.old) (S.holds shelf.old)) (Some script.entry.now)
        (program_tree program.now) (typed_of plain.now)) (script.entry.now ∷ [])
        (given_by (S.tells shelf.old) (S.holds shelf.old)) (S.faults shelf.old) (S.faults shelf.new)) }
    ensures same { S.tells shelf.new ≡ S.tells shelf.old }
    ensures kept { S.holds shelf.new ≡ S.holds shelf.old }
    ensures faults { S.faults shelf.old ≤ S.faults shelf.new }
{
    // brings the invariant of the program's type into scope, for its channels
    let _kept = plain.body();
    let script = script_in(alloc, shelf, script, plain.channels())?;
    match sum_report(alloc, program, plain, &script) {
        Ok(output) => Ok(output),
        Err(_) => Err(Stop::NoMemory),
    }
}

/// What is answered for an accepted program, of which this is the checked form, and the script that is named.
fn pace_plain<'a, S: Shelf>(
    alloc: Global,
    shelf: &mut S,
    program: &Program,
    plain: &Typed,
    script: Option<&'a str>,
) -> Result<Output, Stop<'a>>
    requires sharing { MeetsSharing (process_of plain.now.body) }
    ensures answered { IfOk result (λ output.
        PacesUnder (given_by (S.tells shelf.old) (S.holds shelf.old)) (text_given script.entry)
        (program_tree program.now) (typed_of plain.now) (told_answer output)) }
    ensures stopped { IfErr result (Stops
        (PacesUnder (given_by (S.tells shelf.old) (S.holds shelf.old)) (text_given script.entry)
        (program_tree program.now) (typed_of plain.now)) (option_to_list (text_given script.entry))
        (given_by (S.tells shelf.old) (S.holds shelf.old)) (S.faults shelf.old) (S.faults shelf.new)) }
    ensures same { S.tells shelf.new ≡ S.tells shelf.old }
    ensures kept { S.holds shelf.new ≡ S.holds shelf.old }
    ensures faults { S.faults shelf.old ≤ S.faults shelf.new }
{
    match script {
        Some(script) => pace_under(alloc, shelf, program, plain, script),
        None => match pace_report(alloc, program, plain) {
            Ok(output) => Ok(output),
            Err(_) => Err(Stop::NoMemory),
        },
    }
}

fn pace_program<'a, S: Shelf>(
    alloc: Global,
    shelf: &mut S,
    program: &Program,
    script: Option<&'a str>,
) -> Result<Output, Stop<'a>>
    requires shaped { IsShaped (program_tree program.now) }
    requires few { length program.now.decls.items + length program.now.procs.items ≤ most_declared }
    ensures answered { IfOk result (λ output.
        PacesProgram (given_by (S.tells shelf.old) (S.holds shelf.old)) (text_given script.entry)
        (program_tree program.now)
        (told_answer output)) }
    ensures stopped { IfErr result (Stops
        (PacesProgram (given_by (S.tells shelf.old) (S.holds shelf.old)) (text_given script.entry)
        (program_tree program.now))
        (option_to_list (text_given script.entry)) (given_by (S.tells shelf.old) (S.holds shelf.old))
        (S.faults shelf.old) (S.faults shelf.new)) }
    ensures same { S.tells shelf.new ≡ S.tells shelf.old }
    ensures kept { S.holds shelf.new ≡ S.holds shelf.old }
    ensures faults { S.faults shelf.old ≤ S.faults shelf.new }
{
    let checked = checked_program(alloc, program)?;
    pace_plain(alloc, shelf, program, checked.typed(), script)
}

fn pace_of_text<'a, S: Shelf>(
    alloc: Global,
    shelf: &mut S,
    text: &[u8],
    script: Option<&'a str>,
) -> Result<Output, Stop<'a>>
    requires { length text.now ≤ most_of_text }
    ensures answered { IfOk result (λ output.
        FromProgram text.now (PacesProgram (given_by (S.tells shelf.old) (S.holds shelf.old)) (text_given script.entry))
        (told_answer output)) }
    ensures stopped { IfErr result (Stops
        (FromProgram text.now (PacesProgram (given_by (S.tells shelf.old) (S.holds shelf.old))
        (text_given script.entry)))
        (option_to_list (text_given script.entry)) (given_by (S.tells shelf.old) (S.holds shelf.old))
        (S.faults shelf.old) (S.faults shelf.new)) }
    ensures same { S.tells shelf.new ≡ S.tells shelf.old }
    ensures kept { S.holds shelf.new ≡ S.holds shelf.old }
    ensures faults { S.faults shelf.old ≤ S.faults shelf.new }
{
    let program = program_of_text(alloc, text)?;
    pace_program(alloc, shelf, &program, script)
}

/// What is answered for the files of these names. The script is read once the program is accepted.
pub(crate) fn pace<'a, S: Shelf>(
    alloc: Global,
    shelf: &mut S,
    asked: &Asked<'a>,
) -> Result<Output, Stop<'a>>
    ensures answered { IfOk result (λ output.
        Paces (given_by (S.tells shelf.old) (S.holds shelf.old)) (pace_asked asked.now)
        (told_answer output)) }
    ensures stopped { IfErr result (Stops
        (Paces (given_by (S.tells shelf.old) (S.holds shelf.old)) (pace_asked asked.now))
        (files_of (pace_asked asked.now)) (given_by (S.tells shelf.old) (S.holds shelf.old)) (S.faults shelf.old)
        (S.faults shelf.new)) }
    ensures same { S.tells shelf.new ≡ S.tells shelf.old }
    ensures kept { S.holds shelf.new ≡ S.holds shelf.old }
    ensures faults { S.faults shelf.old ≤ S.faults shelf.new }
{
    let text = text_of_file(alloc, shelf, asked.file, MOST_OF_TEXT)?;
    pace_of_text(alloc, shelf, &text, asked.script)
}
