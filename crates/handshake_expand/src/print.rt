//! The text of the tree of parts.

ghost use Rattle.std.specs.Prelude.{◌≡◌, ◌<◌, ◌≤◌, ◌++◌, ℕ, length, map, take, IfOk, OnOk};
ghost use Rattle.std.specs.List.{flat_map};
ghost use Rattle.width_check.specs.Processes.{TypedProgram};
ghost use Rattle.width_check.specs.Typed.{program_of};
ghost use Rattle.handshake_expand.specs.declared.parts.Part.{out-Part};
ghost use Rattle.handshake_expand.specs.Expansions.{block_value, expansion, expansion_of};
ghost use Rattle.handshake_expand.specs.Layout.{nodes_of, root_request};
ghost use Rattle.handshake_expand.specs.Named.{name_of_node};
ghost use Rattle.handshake_expand.specs.PartText.{kind_word, block_line, channel_lines, var_lines, indent, part_line, part_lines, parts_text, HasNodesBelow};
ghost use Rattle.handshake_expand.specs.PartTree.{tree_of};

use crate::name::{node_name, numbered_name};
use crate::parts::{Block, Part, PartKind, Parts};
use itoa::Buffer;
use std::alloc::{AllocError, Global};
use width_check::Typed;

/// Appends the pieces.
fn append(to: &mut Vec<u8>, pieces: &[&[u8]]) -> Result<(), AllocError>
    ensures { OnOk result (to.new.items ≡ to.old.items ++ flat_map (λ piece. piece.now) pieces.now) }
{
    for piece in pieces {
        to.extend_from_slice(piece)?;
    }
    Ok(())
}

/// Appends the line of a channel's or a variable's block.
fn block_line(word: &[u8], name: &[u8], block: &Block, to: &mut Vec<u8>) -> Result<(), AllocError>
    ensures { OnOk result (to.new.items ≡ to.old.items ++ block_line word.now name.now (block_value block.now)) }
{
    let mut from = Buffer::new();
    let mut count = Buffer::new();
    let from = from.format(block.from).as_bytes();
    let count = count.format(block.count).as_bytes();
    append(to, &[word, b" ", name, b" ", from, b" ", count, b"\n"])
}

/// Appends the lines of the channels.
fn channel_lines(program: &Typed, blocks: &[Block], to: &mut Vec<u8>) -> Result<(), AllocError>
    requires { length blocks.now ≡ length program.now.channels }
    ensures { OnOk result (to.new.items ≡ to.old.items
        ++ channel_lines program.now.channels (map block_value blocks.now)) }
{
    for (place, channel) in program.channels().iter().enumerate() {
        block_line(b"channel", channel.name.bytes(), &blocks[place], to)?;
    }
    Ok(())
}

/// Appends the lines of the variables.
fn var_lines(program: &Typed, blocks: &[Block], to: &mut Vec<u8>) -> Result<(), AllocError>
    requires { length blocks.now ≡ length program.now.vars }
    ensures { OnOk result (to.new.items ≡ to.old.items ++ var_lines program.now.vars (map block_value blocks.now)) }
{
    for (place, var) in program.vars().iter().enumerate() {
        block_line(b"variable", var.name.bytes(), &blocks[place], to)?;
    }
    Ok(())
}

fn kind_word(kind: PartKind) -> &'static [u8]
    ensures { result.now ≡ kind_word kind }
{
    match kind {
        PartKind::Root => b"root",
        PartKind::Skip => b"skip",
        PartKind::Loop => b"loop",
        PartKind::Sequence => b"sequence",
        PartKind::Parallel => b"parallel",
        PartKind::Assign => b"assign",
        PartKind::Through => b"through",
        PartKind::Send => b"send",
        PartKind::Receive => b"receive",
        PartKind::Select => b"select",
        PartKind::Again => b"again",
    }
}

/// Writes a node's name, where `root` is the first node of the root: from there on nodes are named by their numbers,
/// so no declaration has to be looked up.
fn name_from(program: &Typed, root: u32, node: u32, buffer: &mut [u8; 32]) -> usize
    requires root { root ≡ root_request (program_of program.now) }
    requires node { node < nodes_of (program_of program.now) }
    ensures name { take result buffer.new ≡ name_of_node (program_of program.now) node }
    ensures within { result ≤ 32 }
{
    // brings the invariant of the program's type into scope
    let _body = program.body();
    if node < root {
        node_name(program, node, buffer)
    } else {
        numbered_name(node, buffer)
    }
}

/// Appends the line of a part after the margin, given the names of its request and its answer.
fn named_line(
    part: &Part,
    request: &[u8],
    answer: &[u8],
    margin: &[u8],
    to: &mut Vec<u8>,
) -> Result<(), AllocError>
    ensures { OnOk result ((p : TypedProgram) → request.now ≡ name_of_node p (out-Part part.now).request →
        answer.now ≡ name_of_node p (out-Part part.now).answer →
        to.new.items ≡ to.old.items ++ part_line p margin.now (out-Part part.now).kind (out-Part part.now).request
        (out-Part part.now).answer (out-Part part.now).from (out-Part part.now).count) }
{
    let mut from = Buffer::new();
    let mut count = Buffer::new();
    let from = from.format(part.from).as_bytes();
    let count = count.format(part.count).as_bytes();
    to.extend_from_slice(margin)?;
    to.extend_from_slice(kind_word(part.kind))?;
    append(
        to,
        &[b" ", request, b" ", answer, b" ", from, b" ", count, b"\n"],
    )
}

/// Appends the line of a part after the margin.
fn part_line(
    program: &Typed,
    root: u32,
    part: &Part,
    margin: &[u8],
    to: &mut Vec<u8>,
) -> Result<(), AllocError>
    requires root { root ≡ root_request (program_of program.now) }
    requires request { (out-Part part.now).request < nodes_of (program_of program.now) }
    requires answer { (out-Part part.now).answer < nodes_of (program_of program.now) }
    ensures { OnOk result (to.new.items ≡ to.old.items
        ++ part_line (program_of program.now) margin.now (out-Part part.now).kind (out-Part part.now).request
        (out-Part part.now).answer (out-Part part.now).from (out-Part part.now).count) }
{
    let mut request = [0; 32];
    let mut answer = [0; 32];
    let request_end = name_from(program, root, part.request, &mut request);
    let answer_end = name_from(program, root, part.answer, &mut answer);
    named_line(
        part,
        &request[..request_end],
        &answer[..answer_end],
        margin,
        to,
    )
}

/// Appends the lines of a part and of those in it, which are indented by two more spaces.
fn part_lines(
    program: &Typed,
    root: u32,
    part: &Part,
    margin: &mut Vec<u8>,
    to: &mut Vec<u8>,
) -> Result<(), AllocError>
    requires root { root ≡ root_request (program_of program.now) }
    requires nodes { HasNodesBelow (nodes_of (program_of program.now)) (tree_of part.now) }
    ensures lines { OnOk result ((level : ℕ) → margin.old.items ≡ indent level →
        to.new.items ≡ to.old.items ++ part_lines (program_of program.now) level (tree_of part.now)) }
    ensures margin { OnOk result (margin.new.items ≡ margin.old.items) }
{
    part_line(program, root, part, margin, to)?;
    margin.extend_from_slice(b"  ")?;
    for child in &part.children {
        part_lines(program, root, child, margin, to)?;
    }
    margin.truncate(margin.len() - 2);
    Ok(())
}

/// The text of the tree of parts of a program, given its parts.
pub fn print_parts(alloc: Global, program: &Typed, parts: &Parts) -> Result<Vec<u8>, AllocError>
    requires { expansion_of parts.now ≡ expansion (program_of program.now) }
    ensures { IfOk result (λ text. text.items ≡ parts_text (program_of program.now) (expansion_of parts.now)) }
{
    // brings the invariant of the program's type into scope
    let _body = program.body();
    let mut text = Vec::new(alloc);
    channel_lines(program, &parts.channels, &mut text)?;
    var_lines(program, &parts.vars, &mut text)?;
    let mut margin = Vec::new(alloc);
    let root = &parts.root;
    part_lines(program, root.from, root, &mut margin, &mut text)?;
    Ok(text)
}
