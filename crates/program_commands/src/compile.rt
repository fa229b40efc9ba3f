//! `compile FILE [--reset] [--buffer X]`: from a program text to its rule file.

ghost use Rattle.std.specs.Prelude.{◌≡◌, ◌+◌, ◌≤◌, ◌∷◌, [], true, false, length, option_map, IfOk, IfErr, IsOk, OnOk};
ghost use Rattle.chp_syntax.specs.Shape.{IsShaped};
ghost use Rattle.chp_syntax.specs.View.{program_tree};
ghost use Rattle.net_compose.specs.Errors.{IfTooMany};
ghost use Rattle.width_check.specs.Typed.{program_of as typed_of};
ghost use Rattle.call_compose.specs.Inlined.{AreInlined};
ghost use Rattle.command_answers.specs.declared.answer.Ending.TheVariants.{Done};
ghost use Rattle.command_answers.specs.Answers.{given_by, writes};
ghost use Rattle.program_commands.specs.Bodies.{IsCopied, copies_of};
ghost use Rattle.program_commands.specs.Compiling.{Compiles, CompilesProgram, IsFaithfulFile, IsFaithfulTo};
ghost use Rattle.program_commands.specs.Streamed.{IsOver, IsSharedOver, IsSharedText, IsTextWith};
ghost use Rattle.command_words.specs.CompileWords.{compilation_asked};
ghost use Rattle.command_answers.specs.Replies.{Halts, Stops};
ghost use Rattle.program_commands.specs.RepliesTold.{StopsFor, reply_bytes, told_reply};
ghost use Rattle.command_steps.specs.Steps.{most_declared};

use crate::laws::shared_nets_are_faithful;
use crate::reply::{Piece, Reply};
use call_compose::call_circuit_of;
use chp_edge::Shelf;
use chp_syntax::Program;
use command_answers::{Refusal, Stop};
use command_steps::{
    MOST_OF_TEXT, buffered_program, checked_program, program_of_text, text_of_file,
};
use command_words::Compilation;
use net_compose::NetError;
use net_compose::laws::{runs_end, runs_end_reset};
use net_stream::Streamer;
use sharing_check::Disjoint;
use std::alloc::Global;
use width_check::is_call_free;

/// The rule file that this streamer makes while it is written.
fn reply_of<'a>(alloc: Global, streamer: Result<Streamer, NetError>) -> Result<Reply, Stop<'a>>
    ensures made { OnOk result (IsOk streamer) }
    ensures written { IfOk result (λ reply. IfOk streamer (λ s. told_reply reply ≡ writes Done s)) }
    ensures stopped { IfErr result (StopsFor streamer) }
{
    let streamer = match streamer {
        Ok(streamer) => streamer,
        Err(NetError::TooManyNodes(count)) => {
            return Err(Stop::Refused(Refusal::TooManyNodes(count)));
        }
        Err(NetError::NoMemory(_)) => return Err(Stop::NoMemory),
    };
    match Piece::new(alloc) {
        Ok(piece) => Ok(Reply::Made { streamer, piece }),
        Err(_) => Err(Stop::NoMemory),
    }
}

/// The streamer of the rule file of a program as it stands, with a reset node where that is asked for.
fn copied_streamer(alloc: Global, program: &Disjoint, reset: bool) -> Result<Streamer, NetError>
    ensures made { IfOk result (IsTextWith reset (copies_of (typed_of program.now))) }
    ensures too_many { IfErr result (IfTooMany (IsOver (copies_of (typed_of program.now)))) }
{
    runs_end();
    runs_end_reset();
    if reset {
        Streamer::new_reset(alloc, program)
    } else {
        Streamer::new(alloc, program)
    }
}

/// The streamer of the rule file of a program in which all calls of a procedure share one body. `checked` is the
/// checked program in which each call is its procedure's body.
fn shared_streamer(
    alloc: Global,
    program: &Program,
    checked: &Disjoint,
    reset: bool,
) -> Result<Streamer, NetError>
    requires few { length program.now.procs.items ≤ 300000 }
    requires inlined { AreInlined (program_tree program.now) (typed_of checked.now) }
    ensures made { IfOk result (IsSharedText reset (program_tree program.now) (typed_of checked.now)) }
    ensures too_many { IfErr result
        (IfTooMany (IsSharedOver (program_tree program.now) (typed_of checked.now))) }
{
    shared_nets_are_faithful();
    let circuit = call_circuit_of(alloc, program, checked, reset)?;
    match Streamer::of_circuit(alloc, circuit) {
        Ok(streamer) => Ok(streamer),
        Err(e) => Err(NetError::NoMemory(e)),
    }
}

/// What `compile` answers for a program with procedures or calls that gets no buffer.
fn compile_shared<'a>(
    alloc: Global,
    program: &Program,
    asked: &Compilation<'a>,
) -> Result<Reply, Stop<'a>>
    requires shaped { IsShaped (program_tree program.now) }
    requires few { length program.now.decls.items + length program.now.procs.items ≤ most_declared }
    requires shares { ¬ IsCopied (program_tree program.now) (compilation_asked asked.now).buffer }
    ensures answered { IfOk result (λ reply.
        CompilesProgram (compilation_asked asked.now) (program_tree program.now) (told_reply reply)) }
    ensures faithful { IfOk result (λ reply.
        IsFaithfulTo (compilation_asked asked.now) (program_tree program.now) (reply_bytes reply)) }
    ensures stopped { IfErr result
        (Halts (CompilesProgram (compilation_asked asked.now) (program_tree program.now))) }
{
    let checked = checked_program(alloc, program)?;
    reply_of(
        alloc,
        shared_streamer(alloc, program, &checked, asked.reset),
    )
}

/// Whether all calls of a procedure are to share one body: there are procedures or calls, and no buffer is asked for.
fn shares_bodies(program: &Program, buffer: Option<&str>) -> bool
    ensures shares { result ≡ true → ¬ IsCopied (program_tree program.now) (option_map (λ t. t.now) buffer.entry) }
    ensures copies { result ≡ false → IsCopied (program_tree program.now) (option_map (λ t. t.now) buffer.entry) }
{
    buffer.is_none() && !is_call_free(program)
}

/// What `compile` answers for a program. It gets its buffer, where one is asked for, before its nodes are counted.
fn compile_program<'a>(
    alloc: Global,
    program: &Program,
    asked: &Compilation<'a>,
) -> Result<Reply, Stop<'a>>
    requires shaped { IsShaped (program_tree program.now) }
    requires few { length program.now.decls.items + length program.now.procs.items ≤ most_declared }
    ensures answered { IfOk result (λ reply.
        CompilesProgram (compilation_asked asked.now) (program_tree program.now) (told_reply reply)) }
    ensures faithful { IfOk result (λ reply.
        IsFaithfulTo (compilation_asked asked.now) (program_tree program.now) (reply_bytes reply)) }
    ensures stopped { IfErr result
        (Halts (CompilesProgram (compilation_asked asked.now) (program_tree program.now))) }
{
    if shares_bodies(program, asked.buffer) {
        return compile_shared(alloc, program, asked);
    }
    let made = buffered_program(alloc, program, asked.buffer)?;
    reply_of(alloc, copied_streamer(alloc, &made, asked.reset))
}

/// What `compile` answers.
pub fn compile<'a, S: Shelf>(
    alloc: Global,
    shelf: &mut S,
    asked: &Compilation<'a>,
) -> Result<Reply, Stop<'a>>
    ensures answered { IfOk result (λ reply. Compiles (compilation_asked asked.now)
        (given_by (S.tells shelf.old) (S.holds shelf.old)) (told_reply reply)) }
    ensures carried { IfOk result (λ reply. IsFaithfulFile (compilation_asked asked.now)
        (given_by (S.tells shelf.old) (S.holds shelf.old)) (reply_bytes reply)) }
    ensures stopped { IfErr result (Stops (Compiles (compilation_asked asked.now)
        (given_by (S.tells shelf.old) (S.holds shelf.old))) (asked.now.file.now ∷ [])
        (given_by (S.tells shelf.old) (S.holds shelf.old)) (S.faults shelf.old) (S.faults shelf.new)) }
    ensures same { S.tells shelf.new ≡ S.tells shelf.old }
    ensures kept { S.holds shelf.new ≡ S.holds shelf.old }
    ensures faults { S.faults shelf.old ≤ S.faults shelf.new }
{
    let text = text_of_file(alloc, shelf, asked.file, MOST_OF_TEXT)?;
    let program = program_of_text(alloc, &text)?;
    compile_program(alloc, &program, asked)
}
