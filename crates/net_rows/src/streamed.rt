//! Rule files that are given out in pieces.

ghost use Rattle.std.specs.Prelude.{◌≡◌, ◌≢◌, ◌≤◌, length, codes, None, All, IfOk};
ghost use Rattle.chp_syntax.specs.Shape.{IsShaped};
ghost use Rattle.chp_syntax.specs.View.{program_tree};
ghost use Rattle.width_check.specs.Typed.{program_of};
ghost use Rattle.call_compose.specs.Inlined.{AreInlined};

use crate::reading::{accepted, checked, inlined, program_of_text};
use call_compose::{call_circuit_of, translate_calls};
use case_text::{CaseFiles, Page};
use chp_syntax::Program;
use net_compose::{NetError, translate};
use net_stream::Streamer;
use prs_core::Net;
use prs_file::print_net;
use reset_net::with_reset;
use sharing_check::Disjoint;
use std::alloc::Global;
use width_check::is_call_free;

/// The sizes of the pieces.
const SIZES: [usize; 3] = [1, 7, 65_536];

/// More pieces than any streamed file has.
const MOST_PIECES: usize = 1 << 24;

/// The most procedures of a program.
const MOST_PROCEDURES: usize = 262_144;

/// All that is left of the streamer's file, as it comes into such a piece.
fn pieces(alloc: Global, left: &mut Streamer, piece: &mut [u8], page: &mut Page) -> Vec<u8> {
    let mut text = Vec::new(alloc);
    for _ in 0..MOST_PIECES {
        if piece.is_empty() {
            break;
        }
        let count = left.next(piece);
        if count == 0 {
            break;
        }
        page.note(text.extend_from_slice(piece.get(..count).unwrap_or(&[])));
    }
    text
}

/// Notes it where there is no net since memory has run out.
fn note_no_net(error: &NetError, page: &mut Page) {
    if matches!(error, NetError::NoMemory(_)) {
        page.give_up();
    }
}

/// The net that was made, with a reset node where one is asked for. Functions that own one drop it by one call, since
/// it is in a box.
fn boxed(
    alloc: Global,
    made: Result<Net, NetError>,
    reset: bool,
    page: &mut Page,
) -> Option<Box<Net>>
    requires plain { IfOk made (λ net. net.reset ≡ None) }
    requires free { IfOk made (λ net. All (λ name. name ≢ codes "reset") net.names) }
{
    match made {
        Ok(net) if reset => {
            let net = page.taken(with_reset(alloc, net))?;
            page.taken(Box::new(alloc, net))
        }
        Ok(net) => page.taken(Box::new(alloc, net)),
        Err(error) => {
            note_no_net(&error, page);
            None
        }
    }
}

/// The rule file of the net that was made, printed at once, with a reset node where one is asked for. None means too
/// many nodes, or that memory has run out.
fn printed(
    alloc: Global,
    made: Result<Net, NetError>,
    reset: bool,
    page: &mut Page,
) -> Option<Vec<u8>>
    requires plain { IfOk made (λ net. net.reset ≡ None) }
    requires free { IfOk made (λ net. All (λ name. name ≢ codes "reset") net.names) }
{
    let net = boxed(alloc, made, reset, page)?;
    page.taken(print_net(alloc, &net))
}

/// The same as it comes in pieces of this size from the streamer that was made.
fn streamed(
    alloc: Global,
    made: Result<Streamer, NetError>,
    size: usize,
    page: &mut Page,
) -> Option<Vec<u8>> {
    match made {
        Ok(mut streamer) => {
            let mut piece = page.taken(vec![in alloc; 0_u8; size])?;
            Some(pieces(alloc, &mut streamer, &mut piece, page))
        }
        Err(error) => {
            note_no_net(&error, page);
            None
        }
    }
}

/// Whether the rule file comes out in pieces of this size from the streamer that was made as it is printed.
fn put_pieces(
    alloc: Global,
    whole: &[u8],
    reset: bool,
    size: usize,
    made: Result<Streamer, NetError>,
    page: &mut Page,
) {
    page.put(if reset {
        "version 2 by"
    } else {
        "version 1 by"
    });
    page.numbers(&[size as u64]);
    match streamed(alloc, made, size, page) {
        Some(text) if text.as_slice() == whole => page.put(": the same\n"),
        Some(_) => page.put(": another text\n"),
        None => page.put(": no text\n"),
    }
}

/// The streamer of the rule file of a program without procedures.
fn streamer_of(alloc: Global, program: &Disjoint, reset: bool) -> Result<Streamer, NetError> {
    if reset {
        Streamer::new_reset(alloc, program)
    } else {
        Streamer::new(alloc, program)
    }
}

/// Of each size of pieces whether the rule file of the program comes out in them as it is printed.
fn compare(alloc: Global, program: &Disjoint, reset: bool, page: &mut Page) {
    let Some(whole) = printed(alloc, translate(alloc, program), reset, page) else {
        return page.put("too many nodes\n");
    };
    for size in SIZES {
        let made = streamer_of(alloc, program, reset);
        put_pieces(alloc, &whole, reset, size, made, page);
    }
}

/// The streamer of the rule file of a program in which all calls of a procedure share one body.
fn shared_streamer(
    alloc: Global,
    program: &Program,
    inlined: &Disjoint,
    reset: bool,
) -> Result<Streamer, NetError>
    requires few { length program.now.procs.items ≤ 300000 }
    requires inlined { AreInlined (program_tree program.now) (program_of inlined.now) }
{
    let circuit = call_circuit_of(alloc, program, inlined, reset)?;
    match Streamer::of_circuit(alloc, circuit) {
        Ok(streamer) => Ok(streamer),
        Err(error) => Err(NetError::NoMemory(error)),
    }
}

/// As `compare`, of a program in which all calls of a procedure share one body.
fn compare_shared(
    alloc: Global,
    program: &Program,
    inlined: &Disjoint,
    reset: bool,
    page: &mut Page,
)
    requires few { length program.now.procs.items ≤ 300000 }
    requires inlined { AreInlined (program_tree program.now) (program_of inlined.now) }
{
    let made = translate_calls(alloc, program, inlined);
    let Some(whole) = printed(alloc, made, reset, page) else {
        return page.put("too many nodes\n");
    };
    for size in SIZES {
        let made = shared_streamer(alloc, program, inlined, reset);
        put_pieces(alloc, &whole, reset, size, made, page);
    }
}

/// The rule files of a program with procedures or calls, without a reset node, and then with one.
fn stream_shared(alloc: Global, program: &Program, page: &mut Page)
    requires { IsShaped (program_tree program.now) }
{
    if program.procs.len() > MOST_PROCEDURES {
        return page.put("no program\n");
    }
    match inlined(alloc, program, page) {
        Some(plain) => {
            compare_shared(alloc, program, &plain, false, page);
            compare_shared(alloc, program, &plain, true, page);
        }
        None => page.put("no program\n"),
    }
}

/// The same of a program without procedures and calls.
fn stream_plain(alloc: Global, program: &Program, page: &mut Page)
    requires { IsShaped (program_tree program.now) }
{
    match checked(alloc, program, page) {
        Some(plain) => {
            compare(alloc, &plain, false, page);
            compare(alloc, &plain, true, page);
        }
        None => page.put("no program\n"),
    }
}

/// The rule files of the program that the text is, without a reset node and with one, as they come in pieces.
pub fn stream(alloc: Global, text: &[u8], page: &mut Page) {
    match program_of_text(alloc, text, page) {
        Some(program) => {
            if is_call_free(&program) {
                stream_plain(alloc, &program, page);
            } else {
                stream_shared(alloc, &program, page);
            }
        }
        None => page.put("no program\n"),
    }
}

/// The rule file of the program that the text is. None where it is refused, has procedures or calls, or too many nodes,
/// or where memory runs out.
fn rule_file(alloc: Global, text: &[u8], page: &mut Page) -> Option<Vec<u8>> {
    let program = accepted(alloc, text, page)?;
    printed(alloc, translate(alloc, &program), false, page)
}

/// Adds the rule file of the program that the last file is, as a file without a name. Whether there is such a program.
pub fn circuit(alloc: Global, files: &mut CaseFiles, page: &mut Page) -> bool {
    match rule_file(alloc, files.last(), page) {
        Some(text) => {
            files.add(alloc, "", text, page);
            true
        }
        None => false,
    }
}
