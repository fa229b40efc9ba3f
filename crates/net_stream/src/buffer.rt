//! The buffer for one line.

ghost use Rattle.std.specs.Prelude.{◌≡◌, ◌+◌, ◌*◌, ◌≤◌, [], All, IfOk, IfSome, vec_len, vec_capacity};
ghost use Rattle.net_stream.specs.Rooms.{HasRoomForLines, IsFew};

use net_compose::{Circuit, Driver};
use std::alloc::{AllocError, Global};

/// As many literals as the terms of a gate of three inputs have together.
const MOST_OF_GATE: usize = 24;

/// An upper bound on the literals, and on the terms, of each of the driver's guards.
fn most_literals(driver: &Driver) -> usize
    ensures { IsFew result driver.now }
{
    driver.pattern.listed().len() + MOST_OF_GATE
}

/// The larger of two numbers.
fn larger(a: usize, b: usize) -> usize
    ensures first { a ≤ result }
    ensures second { b ≤ result }
{
    if a < b { b } else { a }
}

/// The same of all drivers.
fn most_of(drivers: &[Driver]) -> usize
    ensures { All (IsFew result) drivers.now }
{
    let mut most = 0;
    for driver in drivers {
        most = larger(most, most_literals(driver));
    }
    most
}

/// 64 bytes for each literal and for the end of the rule, where a reset adds a literal to each term, or a term. None
/// where that is more than a `usize` holds.
fn bytes_for(most: usize) -> Option<usize>
    ensures { IfSome result (λ bytes. bytes ≡ 128 * (most + 1)) }
{
    match most.checked_add(1) {
        Some(literals) => literals.checked_mul(128),
        None => None,
    }
}

/// An empty buffer with room for each line of the circuit's file.
pub(crate) fn line_buffer(alloc: Global, net: &Circuit) -> Result<Vec<u8>, AllocError>
    ensures room { IfOk result (λ line. HasRoomForLines net.now (vec_capacity line)) }
    ensures empty { IfOk result (λ line. line.items ≡ []) }
    ensures none { IfOk result (λ line. vec_len line ≡ 0) }
{
    match bytes_for(most_of(&net.drivers)) {
        Some(bytes) => Vec::with_capacity(alloc, bytes),
        None => Err(AllocError),
    }
}
