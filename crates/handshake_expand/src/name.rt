//! The names of nodes.

ghost use Rattle.std.specs.Prelude.{◌≡◌, ◌+◌, ◌*◌, ◌<◌, ◌≤◌, [], ◌++◌, length, take, slice_index_or, codes, decimal};
ghost use Rattle.width_check.specs.Typed.{program_of};
ghost use Rattle.width_check.specs.Typing.{IsDeclaredChannel, IsDeclaredVar};
ghost use Rattle.handshake_expand.specs.Layout.{wires_size, nodes_of};
ghost use Rattle.handshake_expand.specs.Named.{bit_tails, bits_named, wires_named, numbered, name_of_node};

use chp_base::Channel;
use itoa::Buffer;
use width_check::{Typed, Var};

/// Writes the text at an index of the buffer, and returns the index after it.
fn put(buffer: &mut [u8], at: usize, text: &[u8]) -> usize
    requires { at + length text.now ≤ length buffer.old }
    ensures end { result ≡ at + length text.now }
    ensures text { take result buffer.new ≡ take at buffer.old ++ text.now }
{
    let end = at + text.len();
    buffer[at..end].copy_from_slice(text);
    end
}

/// Writes the number.
fn put_number(buffer: &mut [u8], at: usize, number: u32) -> usize
    requires { at + length (decimal number) ≤ length buffer.old }
    ensures end { result ≡ at + length (decimal number) }
    ensures text { take result buffer.new ≡ take at buffer.old ++ decimal number }
{
    let mut digits = Buffer::new();
    put(buffer, at, digits.format(number).as_bytes())
}

/// Writes the name of a node that is named by its number.
pub(crate) fn numbered_name(node: u32, buffer: &mut [u8]) -> usize
    requires { 32 ≤ length buffer.old }
    ensures name { take result buffer.new ≡ numbered node }
    ensures length { result ≡ length (numbered node) }
{
    let at = put(buffer, 0, b"n");
    put_number(buffer, at, node)
}

/// Writes a name, the number of one of its bits, and the tail after that.
fn bit_name(name: &[u8], bit: u32, tail: &[u8], buffer: &mut [u8]) -> usize
    requires name { length name.now ≤ 24 }
    requires bit { bit < 64 }
    requires tail { length tail.now ≤ 3 }
    requires room { 32 ≤ length buffer.old }
    ensures name { take result buffer.new ≡ name.now ++ codes "." ++ decimal bit ++ tail.now }
    ensures length { result ≡ length (name.now ++ codes "." ++ decimal bit ++ tail.now) }
{
    let at = put(buffer, 0, name);
    let at = put(buffer, at, b".");
    let at = put_number(buffer, at, bit);
    put(buffer, at, tail)
}

/// Writes the name of a wire of the channel, of which the rails come first, two for each bit, and then the acknowledge.
fn wire_name(channel: &Channel, wire: u32, buffer: &mut [u8]) -> usize
    requires declared { IsDeclaredChannel channel.now }
    requires wire { wire < wires_size channel.now.width }
    requires room { 32 ≤ length buffer.old }
    ensures name { take result buffer.new ≡ slice_index_or (wires_named channel.now) wire [] }
    ensures length { result ≡ length (slice_index_or (wires_named channel.now) wire []) }
{
    let name = channel.name.bytes();
    if wire == 2 * u32::from(channel.width) {
        let at = put(buffer, 0, name);
        put(buffer, at, b".a")
    } else if wire % 2 == 0 {
        bit_name(name, wire / 2, b".t", buffer)
    } else {
        bit_name(name, wire / 2, b".f", buffer)
    }
}

/// What follows the number of a bit in the name of the node at this index among its five.
fn bit_tail(place: u32) -> &'static [u8]
    requires { place < 5 }
    ensures tail { result.now ≡ slice_index_or bit_tails place [] }
    ensures short { length result.now ≤ 3 }
{
    match place {
        0 => b".t",
        1 => b".f",
        2 => b".wt",
        3 => b".wf",
        _ => b".wa",
    }
}

/// Writes the name of a node of a bit of the variable; each bit has five.
fn var_name(var: &Var, node: u32, buffer: &mut [u8]) -> usize
    requires declared { IsDeclaredVar var.now }
    requires node { node < 5 * var.now.width }
    requires room { 32 ≤ length buffer.old }
    ensures name { take result buffer.new ≡ slice_index_or (bits_named var.now) node [] }
    ensures length { result ≡ length (slice_index_or (bits_named var.now) node []) }
{
    bit_name(var.name.bytes(), node / 5, bit_tail(node % 5), buffer)
}

/// Writes the name of the node at the beginning of the buffer, and returns its length in bytes, which is at most 32.
pub fn node_name(program: &Typed, node: u32, buffer: &mut [u8; 32]) -> usize
    requires { node < nodes_of (program_of program.now) }
    ensures name { take result buffer.new ≡ name_of_node (program_of program.now) node }
    ensures length { result ≡ length (name_of_node (program_of program.now) node) }
{
    match node {
        0 => return put(buffer, 0, b"go"),
        1 => return put(buffer, 0, b"done"),
        _ => {}
    }
    // brings the invariant of the program's type into scope
    let _body = program.body();
    let mut place = node - 2;
    for channel in program.channels() {
        let wires = 2 * u32::from(channel.width) + 1;
        if place < wires {
            return wire_name(channel, place, buffer);
        }
        place -= wires;
    }
    for var in program.vars() {
        let width = u32::from(var.width);
        if place < 5 * width {
            return var_name(var, place, buffer);
        }
        if place < 6 * width - 1 {
            return numbered_name(node, buffer);
        }
        place -= 6 * width - 1;
    }
    numbered_name(node, buffer)
}
