//! The causes of a run's last move.

ghost use Rattle.std.specs.Prelude.{◌≡◌, ◌<◌, ◌≤◌, ◌+◌, ◌++◌, ℕ, List, [], length, map, All, reverse, slice_index_or, IfOk, OnOk};
ghost use Rattle.std.specs.List.{flat_map};
ghost use Rattle.prs_core.specs.Nets.{IsNet};
ghost use Rattle.event_sim.specs.Following.{power_of};
ghost use Rattle.delay_script.specs.declared.noted.NotedMove.{NotedMove as NotedOne};
ghost use Rattle.delay_script.specs.DelayTables.{IsDelayTable};
ghost use Rattle.delay_script.specs.TimedRuns.{time_behind, moved_nodes};
ghost use Rattle.wave_file.specs.CauseChains.{values_given, cause_at, delay_of_turn, AreCaused, IsCauseChain, cause_spelling, cause_line_at, end_time_line, TellsCauses};

use crate::forms::append;
use crate::start::start_values;
use crate::write::turn;
use chp_base::Name;
use delay_script::{Delays, NotedMove, NotedRan};
use itoa::Buffer;
use prs_core::Net;
use std::alloc::{AllocError, Global};

/// The value that each move gives its node, where the nodes have these values before them.
fn values_given(
    alloc: Global,
    values: &mut [bool],
    moves: &[NotedMove],
) -> Result<Vec<bool>, AllocError>
    requires { All (λ (m : NotedOne). m.node < length values.old) moves.now }
    ensures { IfOk result (λ v. v.items ≡ values_given values.old moves.now) }
{
    let mut given = Vec::with_capacity(alloc, moves.len())?;
    for made in moves {
        given.push(turn(values, made.node))?;
    }
    Ok(given)
}

/// The value that each move of a run from power-up gives its node.
fn values_from_start(
    alloc: Global,
    net: &Net,
    high: bool,
    moves: &[NotedMove],
) -> Result<Vec<bool>, AllocError>
    requires { All (λ (m : NotedOne). m.node < length net.now.first) moves.now }
    ensures values { IfOk result (λ v. v.items ≡ values_given (power_of net.now high) moves.now) }
    ensures net { IsNet net.now }
{
    let mut values = start_values(alloc, net, high)?;
    values_given(alloc, &mut values, moves)
}

/// The indexes of the moves by which the last one came, the last one first.
fn cause_chain(alloc: Global, moves: &[NotedMove]) -> Result<Vec<usize>, AllocError>
    requires { (place : ℕ) → place < length moves.now → cause_at moves.now place ≤ place }
    ensures { IfOk result (λ v. IsCauseChain moves.now (length moves.now) v.items) }
{
    let mut places = Vec::new(alloc);
    let mut number = moves.len();
    while number > 0 {
        places.push(number - 1)?;
        number = moves[number - 1].cause as usize;
    }
    Ok(places)
}

/// How long the node takes to turn to this value.
fn delay_of_turn(delays: &Delays, value: bool, node: u32) -> u32
    requires { node < length delays.now.up }
    ensures { result ≡ delay_of_turn delays.now value node }
{
    if value {
        delays.up(node)
    } else {
        delays.down(node)
    }
}

/// Appends the line of a move.
fn cause_line(
    time: u64,
    name: &[u8],
    value: bool,
    delay: u32,
    to: &mut Vec<u8>,
) -> Result<(), AllocError>
    ensures { OnOk result (to.new.items ≡ to.old.items ++ cause_spelling time name.now value delay) }
{
    let mut time_buffer = Buffer::new();
    let mut delay_buffer = Buffer::new();
    let time = time_buffer.format(time).as_bytes();
    let delay = delay_buffer.format(delay).as_bytes();
    let taken: &[u8] = if value { b" 1 delay " } else { b" 0 delay " };
    append(to, &[time, b" ", name, taken, delay, b"\n"])
}

/// Appends the line of the end.
fn end_line(time: u64, to: &mut Vec<u8>) -> Result<(), AllocError>
    ensures { OnOk result (to.new.items ≡ to.old.items ++ end_time_line time) }
{
    let mut buffer = Buffer::new();
    append(to, &[b"time ", buffer.format(time).as_bytes(), b"\n"])
}

/// Appends the line of the move at this index, where the moves give these values.
fn line_at(
    names: &[Name],
    delays: &Delays,
    given: &[bool],
    moves: &[NotedMove],
    place: usize,
    to: &mut Vec<u8>,
) -> Result<(), AllocError>
    requires place { place < length moves.now }
    requires given { length given.now ≡ length moves.now }
    requires names { All (λ (m : NotedOne). m.node < length names.now) moves.now }
    requires delays { length delays.now.up ≡ length names.now }
    ensures { OnOk result (to.new.items ≡ to.old.items
        ++ cause_line_at names.now delays.now given.now moves.now place) }
{
    let NotedMove { time, node, .. } = moves[place];
    let value = given[place];
    let delay = delay_of_turn(delays, value, node);
    cause_line(time, names[node as usize].bytes(), value, delay, to)
}

/// Appends the lines of the moves at these indexes, the last of them first.
fn lines_back(
    names: &[Name],
    delays: &Delays,
    given: &[bool],
    moves: &[NotedMove],
    places: &[usize],
    to: &mut Vec<u8>,
) -> Result<(), AllocError>
    requires places { All (λ (place : ℕ). place < length moves.now) places.now }
    requires given { length given.now ≡ length moves.now }
    requires names { All (λ (m : NotedOne). m.node < length names.now) moves.now }
    requires delays { length delays.now.up ≡ length names.now }
    ensures { OnOk result (to.new.items ≡ to.old.items
        ++ flat_map (cause_line_at names.now delays.now given.now moves.now) (reverse places.now)) }
{
    for back in (0..places.len()).rev() {
        line_at(names, delays, given, moves, places[back], to)?;
    }
    Ok(())
}

/// Appends the lines of the moves by which the last one came, the earliest one first.
fn chain_lines(
    alloc: Global,
    names: &[Name],
    delays: &Delays,
    given: &[bool],
    moves: &[NotedMove],
    to: &mut Vec<u8>,
) -> Result<(), AllocError>
    requires earlier { (place : ℕ) → place < length moves.now → cause_at moves.now place ≤ place }
    requires given { length given.now ≡ length moves.now }
    requires names { All (λ (m : NotedOne). m.node < length names.now) moves.now }
    requires delays { length delays.now.up ≡ length names.now }
    ensures { OnOk result ((places : List ℕ) × IsCauseChain moves.now (length moves.now) places
        × (to.new.items ≡ to.old.items
        ++ flat_map (cause_line_at names.now delays.now given.now moves.now) (reverse places))) }
{
    let places = cause_chain(alloc, moves)?;
    lines_back(names, delays, given, moves, &places, to)
}

/// The moves by which the last move of a run came. For each, the earliest one first, a line of its time, its node, the
/// value that the node takes and the delay; then a line of the time of the last move, the sum of the delays. They
/// are the last move, the one since which it was enabled, the one since which that was, and so on back to the start.
/// `high` is the value at power-up with which the run began.
pub fn causes_text(
    alloc: Global,
    net: &Net,
    high: bool,
    ran: &NotedRan,
    delays: &Delays,
) -> Result<Vec<u8>, AllocError>
    requires net { net.now ≡ ran.now.timed.ran.net }
    requires delays { IsDelayTable (length net.now.first) delays.now }
    requires nodes { All (λ (m : NotedOne). m.node < length net.now.first) ran.now.moves.items }
    requires caused { AreCaused delays.now (values_given (power_of net.now high) ran.now.moves.items)
        ran.now.moves.items }
    requires time { ran.now.timed.time ≡ time_behind ran.now.moves.items (length ran.now.moves.items) }
    ensures { IfOk result (λ text. TellsCauses net.now.names delays.now
        (values_given (power_of net.now high) ran.now.moves.items) ran.now.moves.items text.items) }
{
    let given = values_from_start(alloc, net, high, &ran.moves)?;
    let mut text = Vec::new(alloc);
    chain_lines(alloc, net.names(), delays, &given, &ran.moves, &mut text)?;
    end_line(ran.timed.time, &mut text)?;
    Ok(text)
}
