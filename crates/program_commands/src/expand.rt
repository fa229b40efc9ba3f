//! `expand FILE`: the tree of parts of a program, with each call replaced by its procedure's body.

ghost use Rattle.std.specs.Prelude.{◌≡◌, ◌+◌, ◌≤◌, ◌∷◌, [], length, IfOk, IfErr};
ghost use Rattle.chp_syntax.specs.Shape.{IsShaped};
ghost use Rattle.chp_syntax.specs.View.{program_tree};
ghost use Rattle.handshake_expand.specs.Layout.{node_count};
ghost use Rattle.width_check.specs.Typed.{program_of as typed_of};
ghost use Rattle.command_answers.specs.Answers.{given_by};
ghost use Rattle.program_commands.specs.Expanding.{Expands, ExpandsProgram, TreeReport, tree_text};
ghost use Rattle.command_answers.specs.Replies.{Halts, Stops, told_answer};
ghost use Rattle.command_steps.specs.Steps.{FromNodes, FromProgram, most_declared, most_of_nodes, most_of_text};

use chp_edge::Shelf;
use chp_syntax::Program;
use command_answers::{Ending, Output, Stop};
use command_steps::{MOST_OF_TEXT, checked_program, counted, program_of_text, text_of_file};
use handshake_expand::{expand as parts_of, print_parts};
use std::alloc::{AllocError, Global};
use width_check::Typed;

/// The text of the tree of parts.
fn tree_text(alloc: Global, program: &Typed) -> Result<Vec<u8>, AllocError>
    requires { node_count (typed_of program.now) ≤ most_of_nodes }
    ensures { IfOk result (λ text. text.items ≡ tree_text (typed_of program.now)) }
{
    let parts = parts_of(alloc, program)?;
    print_parts(alloc, program, &parts)
}

/// The tree of parts of an accepted program.
fn expand_accepted<'a>(alloc: Global, program: &Typed) -> Result<Output, Stop<'a>>
    ensures answered { IfOk result (λ output. FromNodes (typed_of program.now) TreeReport (told_answer output)) }
    ensures stopped { IfErr result (Halts (FromNodes (typed_of program.now) TreeReport)) }
{
    counted(program)?;
    match tree_text(alloc, program) {
        Ok(text) => Ok(Output {
            text,
            end: Ending::Done,
        }),
        Err(_) => Err(Stop::NoMemory),
    }
}

fn expand_program<'a>(alloc: Global, program: &Program) -> Result<Output, Stop<'a>>
    requires shaped { IsShaped (program_tree program.now) }
    requires few { length program.now.decls.items + length program.now.procs.items ≤ most_declared }
    ensures answered { IfOk result (λ output. ExpandsProgram (program_tree program.now) (told_answer output)) }
    ensures stopped { IfErr result (Halts (ExpandsProgram (program_tree program.now))) }
{
    let disjoint = checked_program(alloc, program)?;
    expand_accepted(alloc, disjoint.typed())
}

fn expand_text<'a>(alloc: Global, text: &[u8]) -> Result<Output, Stop<'a>>
    requires { length text.now ≤ most_of_text }
    ensures answered { IfOk result (λ output. FromProgram text.now ExpandsProgram (told_answer output)) }
    ensures stopped { IfErr result (Halts (FromProgram text.now ExpandsProgram)) }
{
    let program = program_of_text(alloc, text)?;
    expand_program(alloc, &program)
}

/// What `expand` answers for the file of this name.
pub fn expand<'a, S: Shelf>(alloc: Global, shelf: &mut S, file: &'a str) -> Result<Output, Stop<'a>>
    ensures answered { IfOk result (λ output. Expands (given_by (S.tells shelf.old) (S.holds shelf.old)) file.entry.now
        (told_answer output)) }
    ensures stopped { IfErr result (Stops (Expands (given_by (S.tells shelf.old) (S.holds shelf.old)) file.entry.now)
        (file.entry.now ∷ []) (given_by (S.tells shelf.old) (S.holds shelf.old)) (S.faults shelf.old)
        (S.faults shelf.new)) }
    ensures same { S.tells shelf.new ≡ S.tells shelf.old }
    ensures kept { S.holds shelf.new ≡ S.holds shelf.old }
    ensures faults { S.faults shelf.old ≤ S.faults shelf.new }
{
    let text = text_of_file(alloc, shelf, file, MOST_OF_TEXT)?;
    expand_text(alloc, &text)
}
