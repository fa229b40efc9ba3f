//! The lines of a rule file, and the pieces of its rules, each appended to a text. A call that runs out of memory
//! leaves the text unchanged; with room for 64 more bytes in the text's vector no call does.

ghost use Rattle.std.specs.Prelude.{◌≡◌, ℕ, ◌+◌, ◌<◌, ◌≤◌, ◌++◌, List, map, length, sum_by, vec_len, vec_capacity, OnOk, OnErr};
ghost use Rattle.std.specs.List.{concat, flat_map};
ghost use Rattle.chp_base.specs.Names.{IsName, IsNodeName};
ghost use Rattle.prs_file.specs.Spelling.{head_spelling, node_spelling, channel_spelling, lead_spelling, literal_behind, end_spelling};

use chp_base::{Channel, Kind};
use itoa::Buffer;
use std::alloc::AllocError;

/// The most bytes that one call of this module appends.
const ROOM: usize = 64;

/// What comes before a literal.
#[derive(Clone, Copy)]
pub enum Lead {
    /// The word that begins a rule.
    Rule,
    /// The sign between the literals of a term.
    And,
    /// The sign between the terms of a guard.
    Or,
}

/// Appends the pieces, all or none.
fn append(to: &mut Vec<u8>, pieces: &[&[u8]]) -> Result<(), AllocError>
    requires { length (flat_map (λ piece. piece.now) pieces.now) ≤ 64 }
    ensures ok { OnOk result (to.new.items ≡ to.old.items ++ flat_map (λ piece. piece.now) pieces.now) }
    ensures err { OnErr result (to.new.items ≡ to.old.items) }
    ensures room { OnErr result (vec_capacity to.old < vec_len to.old + 64) }
    ensures capacity { vec_capacity to.old ≤ vec_capacity to.new }
{
    to.reserve(ROOM)?;
    for piece in pieces {
        to.extend_from_slice(piece)?;
    }
    Ok(())
}

/// Appends the first line: the word prs and the version of the file.
pub fn head_line(version: u8, to: &mut Vec<u8>) -> Result<(), AllocError>
    requires some { 1 ≤ version }
    requires most { version ≤ 2 }
    ensures ok { OnOk result (to.new.items ≡ to.old.items ++ head_spelling version) }
    ensures err { OnErr result (to.new.items ≡ to.old.items) }
    ensures room { OnErr result (vec_capacity to.old < vec_len to.old + 64) }
    ensures capacity { vec_capacity to.old ≤ vec_capacity to.new }
{
    let mut number = Buffer::new();
    append(to, &[b"prs ", number.format(version).as_bytes(), b"\n"])
}

/// Appends a node's line: its name and its first value.
pub fn node_line(name: &[u8], first: bool, to: &mut Vec<u8>) -> Result<(), AllocError>
    requires { IsNodeName name.now }
    ensures ok { OnOk result (to.new.items ≡ to.old.items ++ node_spelling name.now first) }
    ensures err { OnErr result (to.new.items ≡ to.old.items) }
    ensures room { OnErr result (vec_capacity to.old < vec_len to.old + 64) }
    ensures capacity { vec_capacity to.old ≤ vec_capacity to.new }
{
    if first {
        append(to, &[b"node ", name, b" 1\n"])
    } else {
        append(to, &[b"node ", name, b" 0\n"])
    }
}

/// Appends a channel's line: its kind, its name and its width.
pub fn channel_line(channel: &Channel, to: &mut Vec<u8>) -> Result<(), AllocError>
    requires name { IsName channel.now.name }
    requires some { 1 ≤ channel.now.width }
    requires most { channel.now.width ≤ 64 }
    ensures ok { OnOk result (to.new.items ≡ to.old.items ++ channel_spelling channel.now) }
    ensures err { OnErr result (to.new.items ≡ to.old.items) }
    ensures room { OnErr result (vec_capacity to.old < vec_len to.old + 64) }
    ensures capacity { vec_capacity to.old ≤ vec_capacity to.new }
{
    let mut number = Buffer::new();
    let width = number.format(channel.width).as_bytes();
    let name = channel.name.bytes();
    match channel.kind {
        Kind::In => append(to, &[b"in ", name, b" ", width, b"\n"]),
        Kind::Out => append(to, &[b"out ", name, b" ", width, b"\n"]),
        Kind::Chan => append(to, &[b"chan ", name, b" ", width, b"\n"]),
    }
}

/// Appends what leads to a literal and then the literal: the name of its node, after the sign of negation if it wants
/// the node low.
pub fn literal_text(lead: Lead, high: bool, name: &[u8], to: &mut Vec<u8>) -> Result<(), AllocError>
    requires { IsNodeName name.now }
    ensures ok { OnOk result (to.new.items ≡ to.old.items ++ literal_behind lead high name.now) }
    ensures err { OnErr result (to.new.items ≡ to.old.items) }
    ensures room { OnErr result (vec_capacity to.old < vec_len to.old + 64) }
    ensures capacity { vec_capacity to.old ≤ vec_capacity to.new }
{
    let before: &[u8] = match (lead, high) {
        (Lead::Rule, true) => b"rule ",
        (Lead::Rule, false) => b"rule ~",
        (Lead::And, true) => b" & ",
        (Lead::And, false) => b" & ~",
        (Lead::Or, true) => b" | ",
        (Lead::Or, false) => b" | ~",
    };
    append(to, &[before, name])
}

/// Appends the end of a rule: the arrow, the name of its node, and the direction in which it turns the node.
pub fn rule_end(name: &[u8], up: bool, to: &mut Vec<u8>) -> Result<(), AllocError>
    requires { IsNodeName name.now }
    ensures ok { OnOk result (to.new.items ≡ to.old.items ++ end_spelling name.now up) }
    ensures err { OnErr result (to.new.items ≡ to.old.items) }
    ensures room { OnErr result (vec_capacity to.old < vec_len to.old + 64) }
    ensures capacity { vec_capacity to.old ≤ vec_capacity to.new }
{
    if up {
        append(to, &[b" -> ", name, b"+\n"])
    } else {
        append(to, &[b" -> ", name, b"-\n"])
    }
}
