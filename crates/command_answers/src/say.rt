//! The line that is said of a command that didn't end well. It is written in pieces and takes no memory, and its
//! faults change nothing else.

ghost use Rattle.std.specs.Prelude.{◌≡◌, ℕ, ◌≤◌, ◌++◌, true, take, OnOk, OnErr};
ghost use Rattle.std.specs.List.{flat_map};
ghost use Rattle.chp_edge.specs.Faults.{Rose};
ghost use Rattle.command_answers.specs.Lines.{refused_line, bad_file_line, too_long_line, nodes_line, forms_line, fault_name, has_two_places};
ghost use Rattle.command_answers.specs.Replies.{refusal_line, stop_line, end_line};
ghost use Rattle.command_answers.specs.Saying.{IsSaid};

use crate::answer::{End, Ending, Refusal, Stop};
use chp_base::{Fault, FaultCode};
use chp_edge::{Failed, Sink, write_all};
use itoa::Buffer;

/// Writes the pieces one after the other, up to the first fault.
fn put_pieces<W: Sink>(say: &mut W, pieces: &[&str]) -> Result<(), Failed>
    ensures faults { W.faults say.old ≤ W.faults say.new }
    ensures same { W.tells say.new ≡ W.tells say.old }
    ensures whole { OnOk result (W.tells say.old ≡ true →
        W.written say.new ≡ W.written say.old ++ flat_map (λ piece. piece.now) pieces.now) }
    ensures failed { OnErr result (Rose (W.faults say.old) (W.faults say.new)) }
    ensures prefix { OnErr result ((n : ℕ) × (W.tells say.old ≡ true →
        W.written say.new ≡ W.written say.old ++ take n (flat_map (λ piece. piece.now) pieces.now))) }
{
    for piece in pieces {
        write_all(say, piece.as_bytes())?;
    }
    Ok(())
}

/// Says the pieces, up to the first fault.
fn say_pieces<W: Sink>(say: &mut W, pieces: &[&str])
    ensures faults { W.faults say.old ≤ W.faults say.new }
    ensures same { W.tells say.new ≡ W.tells say.old }
    ensures said { IsSaid W.Sink say.old say.new (flat_map (λ piece. piece.now) pieces.now) }
{
    let _ = put_pieces(say, pieces);
}

/// The name of the cause.
fn name_of_fault(code: FaultCode) -> &'static str
    ensures { result.now ≡ fault_name code }
{
    match code {
        FaultCode::BadToken => "BadToken",
        FaultCode::Syntax => "Syntax",
        FaultCode::TooDeep => "TooDeep",
        FaultCode::Probe => "Probe",
        FaultCode::Arbiter => "Arbiter",
        FaultCode::TooManyGuards => "TooManyGuards",
        FaultCode::DoubleName => "DoubleName",
        FaultCode::Undeclared => "Undeclared",
        FaultCode::WrongKind => "WrongKind",
        FaultCode::Direction => "Direction",
        FaultCode::Width => "Width",
        FaultCode::ConstantTooWide => "ConstantTooWide",
        FaultCode::UnknownWidth => "UnknownWidth",
        FaultCode::BadSlice => "BadSlice",
        FaultCode::WidthRange => "WidthRange",
        FaultCode::SharedVariable => "SharedVariable",
        FaultCode::SharedSend => "SharedSend",
        FaultCode::SharedReceive => "SharedReceive",
        FaultCode::SharedProcedure => "SharedProcedure",
        FaultCode::DoubleProcedure => "DoubleProcedure",
        FaultCode::UnknownProcedure => "UnknownProcedure",
        FaultCode::UnusedProcedure => "UnusedProcedure",
        FaultCode::NestedCall => "NestedCall",
    }
}

/// Whether the cause has two places.
fn names_two_places(code: FaultCode) -> bool
    ensures { result ≡ has_two_places code }
{
    matches!(
        code,
        FaultCode::SharedVariable
            | FaultCode::SharedSend
            | FaultCode::SharedReceive
            | FaultCode::SharedProcedure
    )
}

/// Says the line of a refused text: the cause's number and name, and its places.
fn say_refused_text<W: Sink>(say: &mut W, fault: &Fault)
    ensures faults { W.faults say.old ≤ W.faults say.new }
    ensures same { W.tells say.new ≡ W.tells say.old }
    ensures said { IsSaid W.Sink say.old say.new (refused_line fault.now) }
{
    let mut number = Buffer::new();
    let mut from = Buffer::new();
    let mut to = Buffer::new();
    let number = number.format(fault.code.number());
    let name = name_of_fault(fault.code);
    let from = from.format(fault.at.from);
    let to = to.format(fault.at.to);
    if names_two_places(fault.code) {
        let mut second_from = Buffer::new();
        let mut second_to = Buffer::new();
        let second_from = second_from.format(fault.other.from);
        let second_to = second_to.format(fault.other.to);
        say_pieces(
            say,
            &[
                "chp: ",
                number,
                " ",
                name,
                " at ",
                from,
                "..",
                to,
                " and ",
                second_from,
                "..",
                second_to,
                "\n",
            ],
        );
    } else {
        say_pieces(
            say,
            &["chp: ", number, " ", name, " at ", from, "..", to, "\n"],
        );
    }
}

/// Says the line of a file that is refused: the cause's number and name, and the line.
fn say_bad_file<W: Sink>(say: &mut W, number: u8, name: &str, line: u32)
    ensures faults { W.faults say.old ≤ W.faults say.new }
    ensures same { W.tells say.new ≡ W.tells say.old }
    ensures said { IsSaid W.Sink say.old say.new (bad_file_line number name.now line) }
{
    let mut cause = Buffer::new();
    let mut place = Buffer::new();
    let cause = cause.format(number);
    let place = place.format(line);
    say_pieces(
        say,
        &["chp: 8 ", cause, " ", name, " at line ", place, "\n"],
    );
}

/// Says the line of a file with more bytes than it may have.
fn say_too_long<W: Sink>(say: &mut W, name: &str, limit: usize)
    ensures faults { W.faults say.old ≤ W.faults say.new }
    ensures same { W.tells say.new ≡ W.tells say.old }
    ensures said { IsSaid W.Sink say.old say.new (too_long_line name.now limit) }
{
    let mut most = Buffer::new();
    let most = most.format(limit);
    say_pieces(say, &["chp: 7 bytes ", name, " over ", most, "\n"]);
}

/// Says the line of a circuit with more nodes than it may have.
fn say_nodes<W: Sink>(say: &mut W, count: u64)
    ensures faults { W.faults say.old ≤ W.faults say.new }
    ensures same { W.tells say.new ≡ W.tells say.old }
    ensures said { IsSaid W.Sink say.old say.new (nodes_line count) }
{
    let mut number = Buffer::new();
    let number = number.format(count);
    say_pieces(say, &["chp: 7 nodes ", number, "\n"]);
}

/// Says the line of a program with more statements and expressions than it may have.
fn say_forms<W: Sink>(say: &mut W, count: u64)
    ensures faults { W.faults say.old ≤ W.faults say.new }
    ensures same { W.tells say.new ≡ W.tells say.old }
    ensures said { IsSaid W.Sink say.old say.new (forms_line count) }
{
    let mut number = Buffer::new();
    let number = number.format(count);
    say_pieces(say, &["chp: 7 forms ", number, "\n"]);
}

/// Says the line of a refusal.
fn say_refusal<W: Sink>(say: &mut W, refusal: &Refusal)
    ensures faults { W.faults say.old ≤ W.faults say.new }
    ensures same { W.tells say.new ≡ W.tells say.old }
    ensures said { IsSaid W.Sink say.old say.new (refusal_line refusal.now) }
{
    match refusal {
        Refusal::Text(fault) => say_refused_text(say, fault),
        Refusal::TooLong { name, limit } => say_too_long(say, name, *limit),
        Refusal::TooManyNodes(count) => say_nodes(say, *count),
        Refusal::TooManyForms(count) => say_forms(say, *count),
        Refusal::TooManyValues => say_pieces(say, &["chp: 7 values over 1048576\n"]),
        Refusal::BadFile {
            number,
            cause,
            line,
        } => say_bad_file(say, *number, cause, *line),
        Refusal::NoReset => say_pieces(say, &["chp: 8 49 NoReset at line 1\n"]),
        Refusal::NoOrder(name) => say_pieces(say, &["chp: 9 order ", name, "\n"]),
        Refusal::NoChannel(name) => say_pieces(say, &["chp: 16 channel ", name, "\n"]),
        Refusal::NoPeer(name) => say_pieces(say, &["chp: 17 peer ", name, "\n"]),
    }
}

/// Says the line of a command that writes nothing.
fn say_stop<W: Sink>(say: &mut W, stop: &Stop)
    ensures faults { W.faults say.old ≤ W.faults say.new }
    ensures same { W.tells say.new ≡ W.tells say.old }
    ensures said { IsSaid W.Sink say.old say.new (stop_line stop.now) }
{
    match stop {
        Stop::Refused(refusal) => say_refusal(say, refusal),
        Stop::Unread(name) => say_pieces(say, &["chp: 3 read ", name, "\n"]),
        Stop::NoMemory => say_pieces(say, &["chp: 6 no memory\n"]),
    }
}

/// Says the line with which a call ends.
pub fn tell<W: Sink>(say: &mut W, end: &End)
    ensures faults { W.faults say.old ≤ W.faults say.new }
    ensures same { W.tells say.new ≡ W.tells say.old }
    ensures said { IsSaid W.Sink say.old say.new (end_line end.now) }
{
    match end {
        End::Whole(Ending::Done) => {}
        End::Whole(Ending::Hazard) => say_pieces(say, &["chp: 5 hazard\n"]),
        End::Whole(Ending::Differs) => say_pieces(say, &["chp: 10 differs\n"]),
        End::CutOff => say_pieces(say, &["chp: 4 write\n"]),
        End::Usage => say_pieces(say, &["chp: 2 usage\n"]),
        End::Stopped(stop) => say_stop(say, stop),
    }
}
