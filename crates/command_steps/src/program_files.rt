//! Steps from the name of a file to an accepted program.

ghost use Rattle.std.specs.Prelude.{◌≡◌, ◌≤◌, ◌∷◌, [], length, IfOk, IfErr};
ghost use Rattle.width_check.specs.Typed.{program_of as typed_of};
ghost use Rattle.width_check.specs.Typing.{IsTyped};
ghost use Rattle.width_check.specs.View.{process_of};
ghost use Rattle.command_answers.specs.Answers.{given_by};
ghost use Rattle.command_steps.specs.HeldPrograms.{HoldsProgram, IsProgramOf};
ghost use Rattle.command_answers.specs.Replies.{Halts, Stops};
ghost use Rattle.command_steps.specs.Steps.{FromChecks, FromFile, FromProgram, Never, most_of_text};

use crate::files::{MOST_OF_TEXT, checked_program, program_of_text, release, text_of_file};
use chp_edge::Shelf;
use command_answers::Stop;
use sharing_check::Disjoint;
use std::alloc::Global;
use width_check::laws::form_is_typed;

/// The accepted program that the text means.
pub fn accepted_program<'a>(alloc: Global, text: &[u8]) -> Result<Disjoint, Stop<'a>>
    requires { length text.now ≤ most_of_text }
    ensures read { IfOk result (λ program. IsProgramOf text.now (typed_of program)) }
    ensures typed { IfOk result (λ program. IsTyped program.channels program.vars (process_of program.body)) }
    ensures stopped { IfErr result (Halts (FromProgram text.now (λ tree. FromChecks tree Never))) }
{
    form_is_typed();
    let program = program_of_text(alloc, text)?;
    let checked = checked_program(alloc, &program);
    release(program);
    checked
}

/// The accepted program that the text of the file of this name means.
pub fn program_in<'a, S: Shelf>(
    alloc: Global,
    shelf: &mut S,
    file: &'a str,
) -> Result<Disjoint, Stop<'a>>
    ensures read { IfOk result (λ program.
        HoldsProgram (given_by (S.tells shelf.old) (S.holds shelf.old)) file.entry.now (typed_of program)) }
    ensures typed { IfOk result (λ program. IsTyped program.channels program.vars (process_of program.body)) }
    ensures stopped { IfErr result (Stops
        (FromFile (given_by (S.tells shelf.old) (S.holds shelf.old)) file.entry.now most_of_text
        (λ text. FromProgram text (λ tree. FromChecks tree Never)))
        (file.entry.now ∷ []) (given_by (S.tells shelf.old) (S.holds shelf.old)) (S.faults shelf.old)
        (S.faults shelf.new)) }
    ensures same { S.tells shelf.new ≡ S.tells shelf.old }
    ensures kept { S.holds shelf.new ≡ S.holds shelf.old }
    ensures faults { S.faults shelf.old ≤ S.faults shelf.new }
{
    let text = text_of_file(alloc, shelf, file, MOST_OF_TEXT)?;
    accepted_program(alloc, &text)
}
