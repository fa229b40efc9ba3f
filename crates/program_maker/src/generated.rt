//! The text of a program that is generated from a seed.

ghost use Rattle.std.specs.Prelude.{◌≡◌, ◌≤◌, ◌++◌, IfOk, OnOk};
ghost use Rattle.std.specs.List.{flat_map};
ghost use Rattle.program_maker.specs.Generated.{byte_line, stage_sends, stage_begins, stage_line, generated_channels, generated_variables, generated_stages, generated_text};

use crate::drawn::words_of;
use itoa::Buffer;
use rand_core::utils::NextWord;
use std::alloc::{AllocError, Global};

/// Appends the pieces.
fn append(to: &mut Vec<u8>, pieces: &[&[u8]]) -> Result<(), AllocError>
    ensures { OnOk result (to.new.items ≡ to.old.items ++ flat_map (λ piece. piece.now) pieces.now) }
{
    for piece in pieces {
        to.extend_from_slice(piece)?;
    }
    Ok(())
}

/// Appends a declaration of eight bits: its word with the letter of its name, and the number of its name.
fn byte_line(word: &[u8], number: u32, to: &mut Vec<u8>) -> Result<(), AllocError>
    ensures { OnOk result (to.new.items ≡ to.old.items ++ byte_line word.now number) }
{
    let mut digits = Buffer::new();
    append(to, &[word, digits.format(number).as_bytes(), b" : 8;\n"])
}

/// Appends what a stage sends, by its word.
fn stage_sends(word: u32, stage: u32, to: &mut Vec<u8>) -> Result<(), AllocError>
    ensures { OnOk result (to.new.items ≡ to.old.items ++ stage_sends word stage) }
{
    let mut own = Buffer::new();
    let mut drawn = Buffer::new();
    let own = own.format(stage).as_bytes();
    let constant = drawn.format(word / 4 % 256).as_bytes();
    match word % 4 {
        0 => append(to, &[b"v", own, b" + ", constant]),
        1 => append(to, &[b"v", own, b" ^ ", constant]),
        2 => append(to, &[b"v", own, b" - ", constant]),
        _ => append(to, &[b"~v", own]),
    }
}

/// What comes before a stage's loop.
fn stage_begins(stage: u32) -> &'static [u8]
    ensures { result.now ≡ stage_begins stage }
{
    if stage == 1 { b"" } else { b"|| " }
}

/// Appends the line of a stage.
fn stage_line(word: u32, stage: u32, to: &mut Vec<u8>) -> Result<(), AllocError>
    requires { 1 ≤ stage }
    ensures { OnOk result (to.new.items ≡ to.old.items ++ stage_line word stage) }
{
    let mut before = Buffer::new();
    let mut own = Buffer::new();
    let before = before.format(stage - 1).as_bytes();
    let own = own.format(stage).as_bytes();
    let begins = stage_begins(stage);
    append(to, &[begins, b"*[c", before, b"?v", own, b"; c", own, b"!"])?;
    stage_sends(word, stage, to)?;
    append(to, &[b"]\n"])
}

/// Appends the declarations of the channels.
fn channel_lines(stages: u32, to: &mut Vec<u8>) -> Result<(), AllocError>
    requires { 1 ≤ stages }
    ensures { OnOk result (to.new.items ≡ to.old.items ++ generated_channels stages) }
{
    byte_line(b"in c", 0, to)?;
    for number in 1..stages {
        byte_line(b"chan c", number, to)?;
    }
    byte_line(b"out c", stages, to)
}

/// Appends the declarations of the variables.
fn variable_lines(stages: u32, to: &mut Vec<u8>) -> Result<(), AllocError>
    requires { stages ≤ 400 }
    ensures { OnOk result (to.new.items ≡ to.old.items ++ generated_variables stages) }
{
    for number in 1..stages + 1 {
        byte_line(b"var v", number, to)?;
    }
    Ok(())
}

/// Appends the lines of the stages.
fn stage_lines(seed: u64, stages: u32, to: &mut Vec<u8>) -> Result<(), AllocError>
    requires { stages ≤ 400 }
    ensures { OnOk result (to.new.items ≡ to.old.items ++ generated_stages seed stages) }
{
    let mut words = words_of(seed);
    for stage in 1..stages + 1 {
        stage_line(words.next_word(), stage, to)?;
    }
    Ok(())
}

/// The text of a program of 1 to 400 stages. Stage i, counted from 1, receives values of eight bits from the channel
/// before it, `c0` for the first one, and sends on `ci` what it makes of them; what it makes is drawn from the seed.
/// The words of the seed are those of the generator PCG XSH RR 64/32 on its stream 54.
pub fn grow_text(alloc: Global, seed: u64, stages: u32) -> Result<Vec<u8>, AllocError>
    requires some { 1 ≤ stages }
    requires most { stages ≤ 400 }
    ensures { IfOk result (λ text. text.items ≡ generated_text seed stages) }
{
    let mut text = Vec::new(alloc);
    channel_lines(stages, &mut text)?;
    variable_lines(stages, &mut text)?;
    text.extend_from_slice(b"begin\n")?;
    stage_lines(seed, stages, &mut text)?;
    text.extend_from_slice(b"end\n")?;
    Ok(text)
}
