//! Steps of which commands are made: from a file to its text, and from there to what it says.

ghost use Rattle.std.specs.Prelude.{◌≡◌, ◌+◌, ◌-◌, ◌<◌, ◌≤◌, ◌^◌, ◌∷◌, [], length, IfOk, IfErr, OnOk};
ghost use Rattle.chp_syntax.specs.Shape.{IsShaped};
ghost use Rattle.chp_syntax.specs.View.{program_tree};
ghost use Rattle.handshake_expand.specs.Layout.{node_count};
ghost use Rattle.width_check.specs.Accepted.{IsAccepted};
ghost use Rattle.width_check.specs.Calls.{IsCallFree};
ghost use Rattle.width_check.specs.Form.{typed_form};
ghost use Rattle.width_check.specs.Typed.{program_of as typed_of};
ghost use Rattle.command_answers.specs.Answers.{Gives, given_by};
ghost use Rattle.command_answers.specs.Replies.{Halts, Stops};
ghost use Rattle.command_steps.specs.Inlined.{AreShaped, IsFormOf, Means};
ghost use Rattle.command_steps.specs.Steps.{FromChecks, FromFile, FromNet, FromNodes, FromProgram, IsFileOf, IsTextOf, Never, most_declared, most_of_net, most_of_nodes, most_of_text};

use call_merge::{CallError, inline};
use chp_base::TextError;
use chp_edge::{ReadEnd, Shelf, read_all};
use chp_syntax::laws::one_fault;
use chp_syntax::{Program, parse};
use command_answers::{Refusal, Stop, bad_net};
use handshake_expand::count_nodes;
use prs_core::Net;
use prs_file::laws::one_refusal;
use prs_file::{NetReadError, read_net};
use sharing_check::{Disjoint, share};
use std::alloc::Global;
use text_sizes::few_declared;
use width_check::{Typed, is_call_free, resolve};

/// The most bytes of a program text.
pub const MOST_OF_TEXT: usize = 262_144;

/// The most nodes of a circuit.
const MOST_OF_NODES: u64 = 65_536;

/// The most bytes of a rule file.
pub const MOST_OF_NET: usize = 268_435_456;

/// The text of the file of this name, which has at most so many bytes.
pub fn text_of_file<'a, S: Shelf>(
    alloc: Global,
    shelf: &mut S,
    name: &'a str,
    most: usize,
) -> Result<Vec<u8>, Stop<'a>>
    requires { most < 2 ^ 64 - 1 }
    ensures read { IfOk result (λ text. Gives (given_by (S.tells shelf.old) (S.holds shelf.old)) name.entry.now
        text.items) }
    ensures short { IfOk result (λ text. length text.items ≤ most) }
    ensures stopped { IfErr result (Stops
        (FromFile (given_by (S.tells shelf.old) (S.holds shelf.old)) name.entry.now most Never) (name.entry.now ∷ [])
        (given_by (S.tells shelf.old) (S.holds shelf.old)) (S.faults shelf.old) (S.faults shelf.new)) }
    ensures same { S.tells shelf.new ≡ S.tells shelf.old }
    ensures kept { S.holds shelf.new ≡ S.holds shelf.old }
    ensures faults { S.faults shelf.old ≤ S.faults shelf.new }
{
    match read_all(alloc, shelf, name, most) {
        Ok(text) => Ok(text),
        Err(ReadEnd::Failed) => Err(Stop::Unread(name)),
        Err(ReadEnd::TooLong) => Err(Stop::Refused(Refusal::TooLong { name, limit: most })),
        Err(ReadEnd::NoMemory) => Err(Stop::NoMemory),
    }
}

/// Drops a value in a call of its own. Where a program is dropped in place, each variant of its parts is a branch of
/// the function, which the prover writes out.
pub(crate) fn release<T: Drop>(_value: T) {}

/// The program that the text reads as.
pub fn program_of_text<'a>(alloc: Global, text: &[u8]) -> Result<Program, Stop<'a>>
    requires { length text.now ≤ most_of_text }
    ensures read { IfOk result (λ program. IsTextOf text.now (program_tree program)) }
    ensures shaped { IfOk result (λ program. IsShaped (program_tree program)) }
    ensures few { IfOk result (λ program. length program.decls.items + length program.procs.items ≤ most_declared) }
    ensures stopped { IfErr result (Halts (FromProgram text.now Never)) }
{
    few_declared();
    one_fault();
    match parse(alloc, text) {
        Ok(program) => Ok(program),
        Err(TextError::Refused(fault)) => Err(Stop::Refused(Refusal::Text(fault))),
        Err(TextError::NoMemory(_)) => Err(Stop::NoMemory),
    }
}

/// The program in which each call is its procedure's body. It is refused for the first fault of procedures and calls,
/// or if it is too large with its calls replaced.
pub(crate) fn inlined_program<'a>(alloc: Global, program: &Program) -> Result<Program, Stop<'a>>
    requires shaped { IsShaped (program_tree program.now) }
    requires few { length program.now.decls.items + length program.now.procs.items ≤ most_declared }
    requires calls { ¬ IsCallFree (program_tree program.now) }
    ensures means { IfOk result (λ plain. Means (program_tree program.now) (program_tree plain)) }
    ensures shaped { IfOk result (λ plain. IsShaped (program_tree plain)) }
    ensures call_free { IfOk result (λ plain. IsCallFree (program_tree plain)) }
    ensures few { IfOk result (λ plain. length plain.decls.items ≤ most_of_text) }
    ensures stopped { IfErr result (Halts (FromChecks (program_tree program.now) Never)) }
{
    match inline(alloc, program) {
        Ok(plain) => Ok(plain),
        Err(CallError::Refused(fault)) => Err(Stop::Refused(Refusal::Text(fault))),
        Err(CallError::TooManyForms(count)) => Err(Stop::Refused(Refusal::TooManyForms(count))),
        Err(CallError::NoMemory(_)) => Err(Stop::NoMemory),
    }
}

/// The program without procedures and calls with its names resolved. It is refused for the first fault of its names and
/// widths, or else of sharing.
pub(crate) fn checked_plain<'a>(alloc: Global, program: &Program) -> Result<Disjoint, Stop<'a>>
    requires shaped { IsShaped (program_tree program.now) }
    requires few { length program.now.decls.items ≤ most_of_text }
    requires call_free { IsCallFree (program_tree program.now) }
    ensures accepted { OnOk result (IsAccepted (program_tree program.now)) }
    ensures form { IfOk result (λ disjoint. typed_of disjoint ≡ typed_form (program_tree program.now)) }
    ensures stopped { IfErr result (Halts (FromChecks (program_tree program.now) Never)) }
{
    let typed = match resolve(alloc, program) {
        Ok(typed) => typed,
        Err(TextError::Refused(fault)) => return Err(Stop::Refused(Refusal::Text(fault))),
        Err(TextError::NoMemory(_)) => return Err(Stop::NoMemory),
    };
    match share(alloc, typed) {
        Ok(disjoint) => Ok(disjoint),
        Err(TextError::Refused(fault)) => Err(Stop::Refused(Refusal::Text(fault))),
        Err(TextError::NoMemory(_)) => Err(Stop::NoMemory),
    }
}

/// The program that this one means, with its names resolved. It is refused for the first fault of procedures and calls,
/// of its size with the calls replaced, of names and widths, or else of sharing.
pub fn checked_program<'a>(alloc: Global, program: &Program) -> Result<Disjoint, Stop<'a>>
    requires shaped { IsShaped (program_tree program.now) }
    requires few { length program.now.decls.items + length program.now.procs.items ≤ most_declared }
    ensures checked { IfOk result (λ disjoint. IsFormOf (program_tree program.now) (typed_of disjoint)) }
    ensures shaped { OnOk result (AreShaped (Means (program_tree program.now))) }
    ensures stopped { IfErr result (Halts (FromChecks (program_tree program.now) Never)) }
{
    if is_call_free(program) {
        return checked_plain(alloc, program);
    }
    let plain = inlined_program(alloc, program)?;
    let checked = checked_plain(alloc, &plain);
    release(plain);
    checked
}

/// Counts the nodes of the program's circuit, and refuses one with too many.
pub fn counted<'a>(program: &Typed) -> Result<(), Stop<'a>>
    ensures few { OnOk result (node_count (typed_of program.now) ≤ most_of_nodes) }
    ensures stopped { IfErr result (Halts (FromNodes (typed_of program.now) Never)) }
{
    let count = count_nodes(program);
    if count > MOST_OF_NODES {
        return Err(Stop::Refused(Refusal::TooManyNodes(count)));
    }
    Ok(())
}

/// The net of which the text is the rule file.
pub fn net_of_text<'a>(alloc: Global, text: &[u8]) -> Result<Net, Stop<'a>>
    requires { length text.now ≤ most_of_net }
    ensures read { IfOk result (λ net. IsFileOf text.now net) }
    ensures stopped { IfErr result (Halts (FromNet text.now Never)) }
{
    one_refusal();
    match read_net(alloc, text) {
        Ok(net) => Ok(net),
        Err(NetReadError::Refused { fault, line }) => Err(Stop::Refused(bad_net(fault, line))),
        Err(NetReadError::NoMemory(_)) => Err(Stop::NoMemory),
    }
}
