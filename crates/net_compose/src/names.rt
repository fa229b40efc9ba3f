//! The names of nodes.

ghost use Rattle.std.specs.Prelude.{◌≡◌, ◌+◌, ◌-◌, ◌*◌, ◌^◌, ◌<◌, ◌≤◌, [], ◌++◌, ◌∷◌, length, codes, decimal, if◌then◌else◌, slice_index_or, take, IfOk, OnOk, OnErr};
ghost use Rattle.std.specs.List.{flat_map};
ghost use Rattle.prs_core.specs.Nets.{true_rail, false_rail, ack_name};
ghost use Rattle.width_check.specs.Typed.{program_of};
ghost use Rattle.handshake_expand.specs.Layout.{wires_size, block_size, wires_before, blocks_before, root_request};
ghost use Rattle.handshake_expand.specs.Named.{numbered, numbered_from, wires_named, wire_names, bit_names, bits_named, block_names};
ghost use Rattle.net_compose.specs.Cuts.{cut, AreEnds, cut_begin};
ghost use Rattle.net_compose.specs.NamesTo.{names_to};

use chp_base::Channel;
use itoa::Buffer;
use std::alloc::{AllocError, Global};
use std::marker::Model;
use width_check::{Typed, Var};

/// The names of nodes, concatenated in one text. Contracts see the list of them.
#[derive(Drop)]
pub struct Names {
    bytes: Vec<u8>,
    /// Where each name ends.
    ends: Vec<usize>,
}

impl Model for Names {
    ghost use Rattle.std.specs.Prelude.{List, ℕ, length};
    ghost use Rattle.net_compose.specs.Cuts.{cut, AreEnds};

    ghost Value = { List (List ℕ) };

    ghost view = { λ n. cut n.bytes.items 0 n.ends.items };

    ghost invariant = { λ n. AreEnds (length n.bytes.items) 0 n.ends.items };
}

/// Appends the pieces, or some of them where memory runs out.
fn append(to: &mut Vec<u8>, pieces: &[&[u8]]) -> Result<(), AllocError>
    ensures text { OnOk result (to.new.items ≡ to.old.items ++ flat_map (λ piece. piece.now) pieces.now) }
    ensures front { take (length to.old.items) to.new.items ≡ to.old.items }
{
    for piece in pieces {
        to.extend_from_slice(piece)?;
    }
    Ok(())
}

/// Appends a text of these pieces to the texts that end there.
fn append_text(
    pieces: &[&[u8]],
    bytes: &mut Vec<u8>,
    ends: &mut Vec<usize>,
) -> Result<(), AllocError>
    requires { AreEnds (length bytes.old.items) 0 ends.old.items }
    ensures texts { OnOk result (cut bytes.new.items 0 ends.new.items
        ≡ cut bytes.old.items 0 ends.old.items ++ flat_map (λ piece. piece.now) pieces.now ∷ []) }
    ensures ends { OnOk result (AreEnds (length bytes.new.items) 0 ends.new.items) }
    ensures front { OnErr result (take (length bytes.old.items) bytes.new.items ≡ bytes.old.items) }
    ensures kept { OnErr result (ends.new.items ≡ ends.old.items) }
{
    append(bytes, pieces)?;
    ends.push(bytes.len())?;
    Ok(())
}

/// Appends a text of these pieces to the texts that end there, or nothing where memory runs out.
fn add_text(pieces: &[&[u8]], bytes: &mut Vec<u8>, ends: &mut Vec<usize>) -> Result<(), AllocError>
    requires { AreEnds (length bytes.old.items) 0 ends.old.items }
    ensures texts { OnOk result (cut bytes.new.items 0 ends.new.items
        ≡ cut bytes.old.items 0 ends.old.items ++ flat_map (λ piece. piece.now) pieces.now ∷ []) }
    ensures ends { AreEnds (length bytes.new.items) 0 ends.new.items }
{
    let before = bytes.len();
    match append_text(pieces, bytes, ends) {
        Ok(()) => Ok(()),
        Err(error) => {
            bytes.truncate(before);
            Err(error)
        }
    }
}

/// How many wires a channel has: two rails for each bit, and an acknowledge.
fn wire_nodes(width: u8) -> u32
    ensures { result ≡ wires_size width }
{
    2 * u32::from(width) + 1
}

impl Names {
    /// No names yet, with room for where that many end.
    fn with_room(alloc: Global, count: usize) -> Result<Names, AllocError>
        ensures { IfOk result (λ names. names ≡ []) }
    {
        let bytes = Vec::new(alloc);
        let ends = Vec::with_capacity(alloc, count)?;
        Ok(Names { bytes, ends })
    }

    /// Appends the name that is made of these pieces.
    fn push(&mut self, pieces: &[&[u8]]) -> Result<(), AllocError>
        ensures { OnOk result (self.new ≡ self.old ++ flat_map (λ piece. piece.now) pieces.now ∷ []) }
    {
        add_text(pieces, &mut self.bytes, &mut self.ends)
    }

    /// Appends the name of a node that is called by its number.
    fn push_number(&mut self, node: u32) -> Result<(), AllocError>
        ensures { OnOk result (self.new ≡ self.old ++ numbered node ∷ []) }
    {
        let mut digits = Buffer::new();
        self.push(&[b"n", digits.format(node).as_bytes()])
    }

    /// Appends the names of nodes that are called by their numbers, from one on.
    fn push_numbers(&mut self, from: u32, count: u32) -> Result<(), AllocError>
        requires { from + count < 2 ^ 32 }
        ensures { OnOk result (self.new ≡ self.old ++ numbered_from from count) }
    {
        for place in 0..count {
            self.push_number(from + place)?;
        }
        Ok(())
    }

    /// Appends a name, the number of one of its bits, and what follows that.
    fn push_tail(&mut self, name: &[u8], bit: u8, tail: &[u8]) -> Result<(), AllocError>
        ensures { OnOk result (self.new ≡ self.old ++ (name.now ++ codes "." ++ decimal bit ++ tail.now) ∷ []) }
    {
        let mut digits = Buffer::new();
        self.push(&[name, b".", digits.format(bit).as_bytes(), tail])
    }

    /// Appends the names of the two rails of a channel's bit.
    fn push_rails(&mut self, name: &[u8], bit: u8) -> Result<(), AllocError>
        ensures { OnOk result (self.new ≡ self.old ++ true_rail name.now bit ∷ false_rail name.now bit ∷ []) }
    {
        self.push_tail(name, bit, b".t")?;
        self.push_tail(name, bit, b".f")?;
        Ok(())
    }

    /// Appends the name of a channel's acknowledge.
    fn push_ack(&mut self, name: &[u8]) -> Result<(), AllocError>
        ensures { OnOk result (self.new ≡ self.old ++ ack_name name.now ∷ []) }
    {
        self.push(&[name, b".a"])
    }

    /// Appends the names of a channel's wires: the rails of each bit, and the acknowledge.
    fn push_wires(&mut self, channel: &Channel) -> Result<(), AllocError>
        ensures { OnOk result (self.new ≡ self.old ++ wires_named channel.now) }
    {
        let name = channel.name.bytes();
        for bit in 0..channel.width {
            self.push_rails(name, bit)?;
        }
        self.push_ack(name)?;
        Ok(())
    }

    /// Appends the names of all channels' wires, and returns the number of the node after them.
    fn push_channels(&mut self, channels: &[Channel]) -> Result<u32, AllocError>
        requires { wires_before channels.now (length channels.now) ≤ 65536 }
        ensures names { OnOk result (self.new ≡ self.old ++ wire_names channels.now) }
        ensures end { IfOk result (λ end. end ≡ 2 + wires_before channels.now (length channels.now)) }
    {
        let mut node = 2;
        for channel in channels {
            self.push_wires(channel)?;
            node += wire_nodes(channel.width);
        }
        Ok(node)
    }

    /// Appends the names of the five nodes of a variable's bit.
    fn push_bit(&mut self, name: &[u8], bit: u8) -> Result<(), AllocError>
        ensures { OnOk result (self.new ≡ self.old ++ bit_names name.now bit) }
    {
        self.push_tail(name, bit, b".t")?;
        self.push_tail(name, bit, b".f")?;
        self.push_tail(name, bit, b".wt")?;
        self.push_tail(name, bit, b".wf")?;
        self.push_tail(name, bit, b".wa")?;
        Ok(())
    }

    /// Appends the names of the nodes of a variable's bits.
    fn push_bits(&mut self, var: &Var) -> Result<(), AllocError>
        ensures { OnOk result (self.new ≡ self.old ++ bits_named var.now) }
    {
        let name = var.name.bytes();
        for bit in 0..var.width {
            self.push_bit(name, bit)?;
        }
        Ok(())
    }

    /// Appends the names of a variable's block, which begins at a node: its bits, and a tree over them. Returns the
    /// number of the node after it.
    fn push_block(&mut self, var: &Var, from: u32) -> Result<u32, AllocError>
        requires { from + block_size var.now.width ≤ 65536 }
        ensures names { OnOk result (self.new ≡ self.old
            ++ (bits_named var.now ++ numbered_from (from + 5 * var.now.width) (var.now.width - 1))) }
        ensures end { IfOk result (λ end. end ≡ from + block_size var.now.width) }
    {
        let width = u32::from(var.width);
        let tree = from + 5 * width;
        let count = width.saturating_sub(1);
        self.push_bits(var)?;
        self.push_numbers(tree, count)?;
        Ok(tree + count)
    }

    /// Appends the names of all variables' blocks, the first of which begins at a node, and returns the number of the
    /// node after them.
    fn push_blocks(&mut self, vars: &[Var], from: u32) -> Result<u32, AllocError>
        requires { from + blocks_before vars.now (length vars.now) ≤ 65536 }
        ensures names { OnOk result (self.new ≡ self.old ++ block_names vars.now from) }
        ensures end { IfOk result (λ end. end ≡ from + blocks_before vars.now (length vars.now)) }
    {
        let mut node = from;
        for var in vars {
            node = self.push_block(var, node)?;
        }
        Ok(node)
    }

    /// Appends the names of the circuit's request and answer, its first two nodes.
    fn push_ends(&mut self) -> Result<(), AllocError>
        ensures { OnOk result (self.new ≡ self.old ++ codes "go" ∷ codes "done" ∷ []) }
    {
        self.push(&[b"go"])?;
        self.push(&[b"done"])?;
        Ok(())
    }

    /// Appends the names of that many nodes, in order of their numbers, where the program's wires and variables are
    /// among them.
    fn push_nodes(&mut self, program: &Typed, count: u32) -> Result<(), AllocError>
        requires room { root_request (program_of program.now) ≤ count }
        requires few { count ≤ 65536 }
        ensures { OnOk result (self.new ≡ self.old
            ++ names_to (program_of program.now) (count - root_request (program_of program.now))) }
    {
        let channels = program.channels();
        let vars = program.vars();
        self.push_ends()?;
        let from = self.push_channels(channels)?;
        let root = self.push_blocks(vars, from)?;
        self.push_numbers(root, count - root)?;
        Ok(())
    }

    /// Appends the name of a reset node, where one is asked for.
    fn push_reset(&mut self, reset: bool) -> Result<(), AllocError>
        ensures { OnOk result (self.new ≡ self.old ++ (if reset then codes "reset" ∷ [] else [])) }
    {
        if reset {
            self.push(&[b"reset"])
        } else {
            Ok(())
        }
    }

    /// The name at an index.
    pub(crate) fn at(&self, place: usize) -> &[u8]
        requires { place < length self.now }
        ensures { result.now ≡ slice_index_or self.now place [] }
    {
        let from = cut_begin(&self.ends, place);
        let end = self.ends[place];
        &self.bytes[from..end]
    }
}

/// The names of `count` nodes, in order of their numbers, where the program's wires and variables are among them, and
/// after them that of a reset node where one is asked for. They are made declaration by declaration, in time that grows
/// with their number.
pub fn names_of(
    alloc: Global,
    program: &Typed,
    count: u32,
    reset: bool,
) -> Result<Names, AllocError>
    requires room { root_request (program_of program.now) ≤ count }
    requires few { count ≤ 65536 }
    ensures { IfOk result (λ names. names
        ≡ names_to (program_of program.now) (count - root_request (program_of program.now))
        ++ (if reset then codes "reset" ∷ [] else [])) }
{
    let mut names = Names::with_room(alloc, count as usize + 1)?;
    names.push_nodes(program, count)?;
    names.push_reset(reset)?;
    Ok(names)
}

/// Where the name at an index begins.
fn cut_begin(ends: &[usize], place: usize) -> usize
    requires { place < length ends.now }
    ensures { result ≡ cut_begin 0 ends.now place }
{
    if place == 0 { 0 } else { ends[place - 1] }
}
