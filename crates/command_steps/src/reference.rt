//! The program with which a run is compared.

ghost use Rattle.std.specs.Prelude.{◌≡◌, ◌≤◌, IfOk, IfErr, option_map, option_to_list};
ghost use Rattle.width_check.specs.Typed.{program_of as typed_of};
ghost use Rattle.command_answers.specs.Answers.{given_by};
ghost use Rattle.command_steps.specs.References.{FromReference, HoldsReference};
ghost use Rattle.command_answers.specs.Replies.{Stops};
ghost use Rattle.command_words.specs.SimulateWords.{text_given};
ghost use Rattle.command_steps.specs.Steps.{Never};

use crate::program_files::program_in;
use chp_edge::Shelf;
use command_answers::Stop;
use sharing_check::Disjoint;
use std::alloc::Global;

/// The accepted program that the text of the file of this name means, where a file is named.
pub fn reference_in<'a, S: Shelf>(
    alloc: Global,
    shelf: &mut S,
    file: Option<&'a str>,
) -> Result<Option<Disjoint>, Stop<'a>>
    ensures read { IfOk result (λ program. HoldsReference (given_by (S.tells shelf.old) (S.holds shelf.old))
        (text_given file.entry) (option_map typed_of program)) }
    ensures stopped { IfErr result (Stops
        (FromReference (given_by (S.tells shelf.old) (S.holds shelf.old)) (text_given file.entry) Never)
        (option_to_list (text_given file.entry)) (given_by (S.tells shelf.old) (S.holds shelf.old))
        (S.faults shelf.old) (S.faults shelf.new)) }
    ensures same { S.tells shelf.new ≡ S.tells shelf.old }
    ensures kept { S.holds shelf.new ≡ S.holds shelf.old }
    ensures faults { S.faults shelf.old ≤ S.faults shelf.new }
{
    match file {
        None => Ok(None),
        Some(file) => Ok(Some(program_in(alloc, shelf, file)?)),
    }
}
