//! `check FILE`: whether a program is accepted.

ghost use Rattle.std.specs.Prelude.{◌≡◌, ◌+◌, ◌≤◌, ◌∷◌, [], length, IfOk, IfErr};
ghost use Rattle.chp_syntax.specs.Shape.{IsShaped};
ghost use Rattle.chp_syntax.specs.View.{program_tree};
ghost use Rattle.command_answers.specs.Answers.{given_by};
ghost use Rattle.width_check.specs.Typed.{program_of as typed_of};
ghost use Rattle.program_commands.specs.Checking.{Checks, ChecksProgram, IsNodeCount, accepted_text};
ghost use Rattle.command_answers.specs.Replies.{Halts, Stops, told_answer};
ghost use Rattle.command_steps.specs.Inlined.{AreShaped, IsFormOf, Means};
ghost use Rattle.command_steps.specs.Steps.{FromProgram, most_declared, most_of_text};

use call_compose::count_calls;
use chp_edge::Shelf;
use chp_syntax::Program;
use command_answers::{Ending, Output, Stop};
use command_steps::{MOST_OF_TEXT, checked_program, program_of_text, text_of_file};
use handshake_expand::count_nodes;
use itoa::Buffer;
use sharing_check::Disjoint;
use std::alloc::{AllocError, Global};
use width_check::is_call_free;

/// The report on an accepted program whose circuit has so many nodes.
fn accepted_text(alloc: Global, nodes: u64) -> Result<Vec<u8>, AllocError>
    ensures { IfOk result (λ text. text.items ≡ accepted_text nodes) }
{
    let mut number = Buffer::new();
    let mut text = Vec::from_slice(alloc, b"accepted\nnodes ")?;
    text.extend_from_slice(number.format(nodes).as_bytes())?;
    text.extend_from_slice(b"\n")?;
    Ok(text)
}

/// How many nodes the circuit of an accepted program has, of which this is the checked form. For one with procedures or
/// calls it takes memory.
fn nodes_told(alloc: Global, program: &Program, checked: &Disjoint) -> Result<u64, AllocError>
    requires few { length program.now.decls.items + length program.now.procs.items ≤ most_declared }
    requires shaped { AreShaped (Means (program_tree program.now)) }
    requires checked { IsFormOf (program_tree program.now) (typed_of checked.now) }
    ensures { IfOk result (λ nodes. (h : IsFormOf (program_tree program.now) (typed_of checked.now))
        → IsNodeCount (program_tree program.now) h.plain nodes) }
{
    if is_call_free(program) {
        return Ok(count_nodes(checked.typed()));
    }
    count_calls(alloc, program, checked)
}

/// The report on an accepted program, of which this is the checked form.
fn accepted_report(
    alloc: Global,
    program: &Program,
    checked: &Disjoint,
) -> Result<Output, AllocError>
    requires few { length program.now.decls.items + length program.now.procs.items ≤ most_declared }
    requires shaped { AreShaped (Means (program_tree program.now)) }
    requires checked { IsFormOf (program_tree program.now) (typed_of checked.now) }
    ensures { IfOk result (λ output. ChecksProgram (program_tree program.now) (told_answer output)) }
{
    let nodes = nodes_told(alloc, program, checked)?;
    let text = accepted_text(alloc, nodes)?;
    Ok(Output {
        text,
        end: Ending::Done,
    })
}

fn check_program<'a>(alloc: Global, program: &Program) -> Result<Output, Stop<'a>>
    requires shaped { IsShaped (program_tree program.now) }
    requires few { length program.now.decls.items + length program.now.procs.items ≤ most_declared }
    ensures answered { IfOk result (λ output. ChecksProgram (program_tree program.now) (told_answer output)) }
    ensures stopped { IfErr result (Halts (ChecksProgram (program_tree program.now))) }
{
    let checked = checked_program(alloc, program)?;
    match accepted_report(alloc, program, &checked) {
        Ok(output) => Ok(output),
        Err(_) => Err(Stop::NoMemory),
    }
}

fn check_text<'a>(alloc: Global, text: &[u8]) -> Result<Output, Stop<'a>>
    requires { length text.now ≤ most_of_text }
    ensures answered { IfOk result (λ output. FromProgram text.now ChecksProgram (told_answer output)) }
    ensures stopped { IfErr result (Halts (FromProgram text.now ChecksProgram)) }
{
    let program = program_of_text(alloc, text)?;
    check_program(alloc, &program)
}

/// What `check` answers for the file of this name.
pub fn check<'a, S: Shelf>(alloc: Global, shelf: &mut S, file: &'a str) -> Result<Output, Stop<'a>>
    ensures answered { IfOk result (λ output. Checks (given_by (S.tells shelf.old) (S.holds shelf.old)) file.entry.now
        (told_answer output)) }
    ensures stopped { IfErr result (Stops (Checks (given_by (S.tells shelf.old) (S.holds shelf.old)) file.entry.now)
        (file.entry.now ∷ []) (given_by (S.tells shelf.old) (S.holds shelf.old)) (S.faults shelf.old)
        (S.faults shelf.new)) }
    ensures same { S.tells shelf.new ≡ S.tells shelf.old }
    ensures kept { S.holds shelf.new ≡ S.holds shelf.old }
    ensures faults { S.faults shelf.old ≤ S.faults shelf.new }
{
    let text = text_of_file(alloc, shelf, file, MOST_OF_TEXT)?;
    check_text(alloc, &text)
}
