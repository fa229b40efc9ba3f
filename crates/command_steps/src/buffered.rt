//! Steps from the name of a file to the program to continue with: the accepted one that its text means, with a buffer
//! on the channel that is named.

ghost use Rattle.std.specs.Prelude.{◌≡◌, ◌+◌, ◌≤◌, ◌∷◌, [], length, IfOk, IfErr, option_map};
ghost use Rattle.chp_syntax.specs.Shape.{IsShaped};
ghost use Rattle.chp_syntax.specs.View.{program_tree};
ghost use Rattle.slack_buffer.specs.BufferedTrees.{IsInnerChannel};
ghost use Rattle.width_check.specs.Accepted.{IsAccepted};
ghost use Rattle.width_check.specs.Calls.{IsCallFree};
ghost use Rattle.width_check.specs.Form.{typed_form};
ghost use Rattle.width_check.specs.Places.{declaration};
ghost use Rattle.width_check.specs.Typed.{program_of as typed_of};
ghost use Rattle.command_answers.specs.Answers.{given_by};
ghost use Rattle.command_steps.specs.BufferSteps.{FromBuffer, FromProgramFile};
ghost use Rattle.command_steps.specs.HeldBuffered.{HoldsBuffered, IsBufferedForm, IsBufferedFrom, IsBufferedOf};
ghost use Rattle.command_answers.specs.Replies.{Halts, Stops};
ghost use Rattle.command_steps.specs.Steps.{FromChecks, FromProgram, Never, most_declared, most_of_text};

use crate::files::{
    MOST_OF_TEXT, checked_plain, inlined_program, program_of_text, release, text_of_file,
};
use chp_base::{Name, TextError};
use chp_edge::Shelf;
use chp_syntax::{Decl, Program};
use command_answers::{Refusal, Stop};
use sharing_check::{Disjoint, share};
use slack_buffer::{is_inner_channel, with_buffer};
use std::alloc::{AllocError, Global};
use width_check::laws::one_fault;
use width_check::{is_call_free, resolve};

/// The declared name that this text is.
fn declared_name<'p>(decls: &'p [Decl], text: &str) -> Option<&'p Name>
    ensures { option_map (λ name. name.now) result
        ≡ option_map (λ decl. decl.name.name) (declaration decls.entry.now text.now) }
{
    decls
        .iter()
        .find(|decl| decl.name.name.bytes() == text.as_bytes())
        .map(|decl| &decl.name.name)
}

/// An accepted program with its names resolved.
fn resolved(alloc: Global, program: &Program) -> Result<Disjoint, AllocError>
    requires few { length program.now.decls.items ≤ 300000 }
    requires shaped { IsShaped (program_tree program.now) }
    requires accepted { IsAccepted (program_tree program.now) }
    ensures { IfOk result (λ disjoint. typed_of disjoint ≡ typed_form (program_tree program.now)) }
{
    one_fault();
    let typed = match resolve(alloc, program) {
        Ok(typed) => typed,
        Err(TextError::Refused(_)) => unreachable!(),
        Err(TextError::NoMemory(error)) => return Err(error),
    };
    match share(alloc, typed) {
        Ok(disjoint) => Ok(disjoint),
        Err(TextError::Refused(_)) => unreachable!(),
        Err(TextError::NoMemory(error)) => Err(error),
    }
}

/// The program with a buffer on the channel, with its names resolved.
fn resolved_with_buffer(
    alloc: Global,
    program: &Program,
    chan: &Name,
) -> Result<Disjoint, AllocError>
    requires few { length program.now.decls.items ≤ most_of_text }
    requires shaped { IsShaped (program_tree program.now) }
    requires accepted { IsAccepted (program_tree program.now) }
    requires inner { IsInnerChannel program.now.decls.items chan.now }
    ensures { IfOk result (λ disjoint. IsBufferedForm (program_tree program.now) (Some chan.now) (typed_of disjoint)) }
{
    let made = with_buffer(alloc, program, chan)?;
    resolved(alloc, &made)
}

/// The accepted program with a buffer on the channel inside of it that this text names.
fn with_named_buffer<'a>(
    alloc: Global,
    program: &Program,
    text: &'a str,
) -> Result<Disjoint, Stop<'a>>
    requires few { length program.now.decls.items ≤ most_of_text }
    requires shaped { IsShaped (program_tree program.now) }
    requires accepted { IsAccepted (program_tree program.now) }
    ensures goes_on { IfOk result (λ made.
        IsBufferedForm (program_tree program.now) (Some text.entry.now) (typed_of made)) }
    ensures stopped { IfErr result (Halts (FromBuffer (program_tree program.now) (Some text.entry.now) Never)) }
{
    let Some(chan) = declared_name(&program.decls, text) else {
        return Err(Stop::Refused(Refusal::NoChannel(text)));
    };
    if !is_inner_channel(program, chan) {
        return Err(Stop::Refused(Refusal::NoChannel(text)));
    }
    match resolved_with_buffer(alloc, program, chan) {
        Ok(made) => Ok(made),
        Err(_) => Err(Stop::NoMemory),
    }
}

/// The program to continue with: the accepted one as it is, or with a buffer on the channel inside of it that is named.
fn buffered<'a>(
    alloc: Global,
    program: &Program,
    disjoint: Disjoint,
    buffer: Option<&'a str>,
) -> Result<Disjoint, Stop<'a>>
    requires few { length program.now.decls.items ≤ most_of_text }
    requires shaped { IsShaped (program_tree program.now) }
    requires accepted { IsAccepted (program_tree program.now) }
    requires form { typed_of disjoint ≡ typed_form (program_tree program.now) }
    ensures goes_on { IfOk result (λ made.
        IsBufferedForm (program_tree program.now) (option_map (λ t. t.now) buffer.entry) (typed_of made)) }
    ensures stopped { IfErr result
        (Halts (FromBuffer (program_tree program.now) (option_map (λ t. t.now) buffer.entry) Never)) }
{
    match buffer {
        Some(text) => {
            release(disjoint);
            with_named_buffer(alloc, program, text)
        }
        None => Ok(disjoint),
    }
}

/// The program without procedures and calls, checked and with the buffer.
fn buffered_plain<'a>(
    alloc: Global,
    program: &Program,
    buffer: Option<&'a str>,
) -> Result<Disjoint, Stop<'a>>
    requires shaped { IsShaped (program_tree program.now) }
    requires few { length program.now.decls.items ≤ most_of_text }
    requires call_free { IsCallFree (program_tree program.now) }
    ensures made { IfOk result (λ made.
        IsBufferedFrom (program_tree program.now) (option_map (λ t. t.now) buffer.entry) (typed_of made)) }
    ensures stopped { IfErr result (Halts (FromChecks (program_tree program.now) (λ plain.
        FromBuffer plain (option_map (λ t. t.now) buffer.entry) Never))) }
{
    let disjoint = checked_plain(alloc, program)?;
    buffered(alloc, program, disjoint, buffer)
}

/// The program that this one means, checked and with the buffer.
pub fn buffered_program<'a>(
    alloc: Global,
    program: &Program,
    buffer: Option<&'a str>,
) -> Result<Disjoint, Stop<'a>>
    requires shaped { IsShaped (program_tree program.now) }
    requires few { length program.now.decls.items + length program.now.procs.items ≤ most_declared }
    ensures made { IfOk result (λ made.
        IsBufferedFrom (program_tree program.now) (option_map (λ t. t.now) buffer.entry) (typed_of made)) }
    ensures stopped { IfErr result (Halts (FromChecks (program_tree program.now) (λ plain.
        FromBuffer plain (option_map (λ t. t.now) buffer.entry) Never))) }
{
    if is_call_free(program) {
        return buffered_plain(alloc, program, buffer);
    }
    let plain = inlined_program(alloc, program)?;
    let made = buffered_plain(alloc, &plain, buffer);
    release(plain);
    made
}

/// The program to continue with, from this text.
fn buffered_of_text<'a>(
    alloc: Global,
    text: &[u8],
    buffer: Option<&'a str>,
) -> Result<Disjoint, Stop<'a>>
    requires { length text.now ≤ most_of_text }
    ensures read { IfOk result (λ program.
        IsBufferedOf text.now (option_map (λ t. t.now) buffer.entry) (typed_of program)) }
    ensures stopped { IfErr result (Halts (FromProgram text.now (λ tree. FromChecks tree (λ plain.
        FromBuffer plain (option_map (λ t. t.now) buffer.entry) Never)))) }
{
    let program = program_of_text(alloc, text)?;
    let made = buffered_program(alloc, &program, buffer);
    release(program);
    made
}

/// The accepted program that the text of the file of this name means, with a buffer on the channel that is named.
pub fn buffered_program_in<'a, S: Shelf>(
    alloc: Global,
    shelf: &mut S,
    file: &'a str,
    buffer: Option<&'a str>,
) -> Result<Disjoint, Stop<'a>>
    ensures read { IfOk result (λ program. HoldsBuffered (given_by (S.tells shelf.old) (S.holds shelf.old))
        file.entry.now (option_map (λ t. t.now) buffer.entry) (typed_of program)) }
    ensures stopped { IfErr result (Stops
        (FromProgramFile (given_by (S.tells shelf.old) (S.holds shelf.old)) file.entry.now
        (option_map (λ t. t.now) buffer.entry) Never)
        (file.entry.now ∷ []) (given_by (S.tells shelf.old) (S.holds shelf.old)) (S.faults shelf.old)
        (S.faults shelf.new)) }
    ensures same { S.tells shelf.new ≡ S.tells shelf.old }
    ensures kept { S.holds shelf.new ≡ S.holds shelf.old }
    ensures faults { S.faults shelf.old ≤ S.faults shelf.new }
{
    let text = text_of_file(alloc, shelf, file, MOST_OF_TEXT)?;
    buffered_of_text(alloc, &text, buffer)
}
