//! The report of a run.

ghost use Rattle.std.specs.Prelude.{◌≡◌, ◌++◌, ◌∷◌, ◌<◌, [], length, replicate, slice_index_or, slice_set, codes, decimal, IfOk, OnOk};
ghost use Rattle.std.specs.List.{flat_map};
ghost use Rattle.chp_meaning.specs.Standing.{items_of};
ghost use Rattle.prs_core.specs.Nets.{name_at};
ghost use Rattle.event_sim.specs.Passing.{channel_histories};
ghost use Rattle.event_sim.specs.Simulating.{IsEndIn};
ghost use Rattle.history_report.specs.Reports.{channel_name, hazard_line, ending_line, moves_line, time_line, done_line, history_lines, report_of};

use crate::rounds::passed_line;
use event_sim::{End, Ran};
use itoa::Buffer;
use prs_core::{Net, Wires};
use std::alloc::{AllocError, Global};

/// Appends the pieces.
pub(crate) fn append(to: &mut Vec<u8>, pieces: &[&[u8]]) -> Result<(), AllocError>
    ensures { OnOk result (to.new.items ≡ to.old.items ++ flat_map (λ piece. piece.now) pieces.now) }
{
    for piece in pieces {
        to.extend_from_slice(piece)?;
    }
    Ok(())
}

/// Appends the line of a hazard, or another one of this form.
pub(crate) fn hazard_line(
    words: &[u8],
    name: &[u8],
    moves: u32,
    to: &mut Vec<u8>,
) -> Result<(), AllocError>
    ensures { OnOk result (to.new.items ≡ to.old.items ++ hazard_line words.now name.now moves) }
{
    let mut buffer = Buffer::new();
    let number = buffer.format(moves).as_bytes();
    append(to, &[words, name, b" at ", number, b"\n"])
}

/// The node's name.
fn node_name(net: &Net, node: u32) -> &[u8]
    requires { node < length net.now.first }
    ensures { result.now ≡ name_at net.now node }
{
    net.names()[node as usize].bytes()
}

/// The channel's name.
pub(crate) fn channel_name(net: &Net, chan: u32) -> &[u8]
    requires { chan < length net.now.channels }
    ensures { result.now ≡ channel_name net.now chan }
{
    net.channels()[chan as usize].channel.name.bytes()
}

/// Appends the line that says how the run ended.
fn ending_line(net: &Net, end: End, moves: u32, to: &mut Vec<u8>) -> Result<(), AllocError>
    requires { IsEndIn net.now end }
    ensures { OnOk result (to.new.items ≡ to.old.items ++ ending_line net.now moves end) }
{
    match end {
        End::AtRest => append(to, &[b"end rest\n"]),
        End::Spent => append(to, &[b"end spent\n"]),
        End::Unstable { node } => hazard_line(b"end unstable ", node_name(net, node), moves, to),
        End::BothWays { node } => hazard_line(b"end both ", node_name(net, node), moves, to),
        End::Protocol { chan } => hazard_line(b"end protocol ", channel_name(net, chan), moves, to),
    }
}

/// Appends how many moves were made.
fn moves_line(moves: u32, to: &mut Vec<u8>) -> Result<(), AllocError>
    ensures { OnOk result (to.new.items ≡ to.old.items ++ moves_line moves) }
{
    let mut buffer = Buffer::new();
    let number = buffer.format(moves).as_bytes();
    append(to, &[b"moves ", number, b"\n"])
}

/// Appends the time of a timed run.
fn time_line(time: Option<u64>, to: &mut Vec<u8>) -> Result<(), AllocError>
    ensures { OnOk result (to.new.items ≡ to.old.items ++ time_line time) }
{
    match time {
        None => Ok(()),
        Some(time) => {
            let mut buffer = Buffer::new();
            let number = buffer.format(time).as_bytes();
            append(to, &[b"time ", number, b"\n"])
        }
    }
}

/// Appends whether `done` is high, or whether a program has ended.
pub(crate) fn done_line(done_high: bool, to: &mut Vec<u8>) -> Result<(), AllocError>
    ensures { OnOk result (to.new.items ≡ to.old.items ++ done_line done_high) }
{
    if done_high {
        append(to, &[b"done 1\n"])
    } else {
        append(to, &[b"done 0\n"])
    }
}

/// Appends a blank and a value.
pub(crate) fn value_word(value: u64, to: &mut Vec<u8>) -> Result<(), AllocError>
    ensures { OnOk result (to.new.items ≡ to.old.items ++ codes " " ++ decimal value) }
{
    let mut buffer = Buffer::new();
    let number = buffer.format(value).as_bytes();
    append(to, &[b" ", number])
}

/// So many empty histories.
fn no_histories(alloc: Global, channels: usize) -> Result<Vec<Vec<u64>>, AllocError>
    ensures { IfOk result (λ histories. items_of histories.items ≡ replicate channels []) }
{
    let mut histories = Vec::new(alloc);
    for _made in 0..channels {
        histories.push(Vec::new(alloc))?;
    }
    Ok(histories)
}

/// Appends the value to the history of the channel of this number, if there is one.
fn note(histories: &mut [Vec<u64>], chan: usize, value: u64) -> Result<(), AllocError>
    ensures { OnOk result (items_of histories.new ≡ slice_set (items_of histories.old) chan
        (slice_index_or (items_of histories.old) chan [] ++ value ∷ [])) }
{
    if chan >= histories.len() {
        return Ok(());
    }
    histories[chan].push(value)?;
    Ok(())
}

/// The values that passed on each of so many channels.
fn histories_of(
    alloc: Global,
    channels: usize,
    passed: &[(u32, u64)],
) -> Result<Vec<Vec<u64>>, AllocError>
    ensures { IfOk result (λ histories. items_of histories.items ≡ channel_histories channels passed.now) }
{
    let mut histories = no_histories(alloc, channels)?;
    for (chan, value) in passed {
        note(&mut histories, *chan as usize, *value)?;
    }
    Ok(histories)
}

/// Appends a line for each channel. One pass gives each of them its values, however many channels there are.
fn history_lines(
    channels: &[Wires],
    passed: &[(u32, u64)],
    to: &mut Vec<u8>,
) -> Result<(), AllocError>
    ensures { OnOk result (to.new.items ≡ to.old.items ++ history_lines passed.now 0 channels.now) }
{
    let histories = histories_of(*to.allocator(), channels.len(), passed)?;
    for chan in 0..channels.len() {
        passed_line(&channels[chan].channel.name, &histories[chan], to)?;
    }
    Ok(())
}

/// The report of the run: how it ended, how many moves it had, the time where it was a timed run, whether `done` is
/// high, and for each channel the values that passed on it. (The format is our profile.)
pub fn report_text(alloc: Global, ran: &Ran, time: Option<u64>) -> Result<Vec<u8>, AllocError>
    ensures { IfOk result (λ v. v.items ≡ report_of ran.now time) }
{
    let mut text = Vec::new(alloc);
    report_lines(ran, time, &mut text).and(Ok(text))
}

/// Appends the lines of the report. They go on for nothing where memory has run out, so that there is one way out.
fn report_lines(ran: &Ran, time: Option<u64>, to: &mut Vec<u8>) -> Result<(), AllocError>
    ensures { OnOk result (to.new.items ≡ to.old.items ++ report_of ran.now time) }
{
    ending_line(ran.net(), ran.end(), ran.moves(), to)
        .and(moves_line(ran.moves(), to))
        .and(time_line(time, to))
        .and(done_line(ran.done_high(), to))
        .and(history_lines(ran.net().channels(), ran.passed(), to))
}
