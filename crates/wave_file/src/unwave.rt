//! Printing a wave.

ghost use Rattle.std.specs.Prelude.{◌≡◌, ◌<◌, ◌≤◌, ◌+◌, ◌*◌, ◌^◌, ◌++◌, ℕ, List, [], length, slice_index_or, All, IfOk, IfErr, IfSome, OnOk};
ghost use Rattle.wave_file.specs.WaveFaults.{OfWaveRefusal};
ghost use Rattle.wave_file.specs.WaveReading.{IsToldTo, IsWaveRefused, IsWaveText, at_changes};
ghost use Rattle.wave_file.specs.WaveTold.{with_turn, IsPrinted, IsRefusedFrom, IsSoFar};
ghost use Rattle.wave_file.specs.Waves.{WaveValue, wave_of, IsWave};
ghost use Rattle.wave_file.specs.Unwaved.{told_change, told_changes, count_line, unwaved};

use crate::fault::WaveError;
use crate::forms::append;
use crate::read::{Told, change_line, read_nodes};
use crate::wave::Wave;
use crate::write::turn;
use chp_base::Name;
use itoa::Buffer;
use std::alloc::{AllocError, Global};

/// Appends the line of a change to the value.
fn told_change(time: u64, name: &[u8], value: bool, to: &mut Vec<u8>) -> Result<(), AllocError>
    ensures { OnOk result (to.new.items ≡ to.old.items ++ told_change time name.now value) }
{
    let mut buffer = Buffer::new();
    let number = buffer.format(time).as_bytes();
    if value {
        append(to, &[number, b" ", name, b" 1\n"])
    } else {
        append(to, &[number, b" ", name, b" 0\n"])
    }
}

/// The name of the node.
fn name_of_node(names: &[Name], node: u32) -> &[u8]
    requires { node < length names.now }
    ensures { result.now ≡ slice_index_or names.now node [] }
{
    names[node as usize].bytes()
}

/// Appends a line for each change, where the nodes have these values before them.
fn told_changes(
    names: &[Name],
    values: &mut [bool],
    changes: &[(u64, u32)],
    to: &mut Vec<u8>,
) -> Result<(), AllocError>
    requires values { length values.old ≡ length names.now }
    requires nodes { All (λ (c : ℕ × ℕ). c.1 < length names.now) changes.now }
    ensures { OnOk result (to.new.items ≡ to.old.items ++ told_changes names.now values.old changes.now) }
{
    for (time, node) in changes {
        let value = turn(values, *node);
        told_change(*time, name_of_node(names, *node), value, to)?;
    }
    Ok(())
}

/// Appends how many changes there are.
fn count_line(count: usize, to: &mut Vec<u8>) -> Result<(), AllocError>
    ensures { OnOk result (to.new.items ≡ to.old.items ++ count_line count) }
{
    let mut buffer = Buffer::new();
    append(to, &[b"changes ", buffer.format(count).as_bytes(), b"\n"])
}

/// The changes of the wave, one a line: the time, the name of the node, and the value that it takes; and then how many
/// there are. (The format is our own.)
pub fn unwave_text(alloc: Global, wave: &Wave) -> Result<Vec<u8>, AllocError>
    requires { IsWave (wave_of wave.now.names.items wave.now.first.items wave.now.changes.items) }
    ensures { IfOk result (λ text. text.items
        ≡ unwaved (wave_of wave.now.names.items wave.now.first.items wave.now.changes.items)) }
{
    let mut text = Vec::new(alloc);
    let mut values = wave.first.clone()?;
    told_changes(&wave.names, &mut values, &wave.changes, &mut text)?;
    count_line(wave.changes.len(), &mut text)?;
    Ok(text)
}

/// What is printed so far.
#[derive(Drop)]
struct Printed {
    text: Vec<u8>,
    /// How many changes.
    count: usize,
}

/// Prints the change of the node, if there is one, which was read last.
fn print_turn(printed: &mut Printed, told: &Told, node: Option<u32>) -> Result<(), AllocError>
    requires count { length told.now.values.items ≡ length told.now.names.items }
    requires below { IfSome node (λ n. n < length told.now.names.items) }
    requires room { printed.old.count < 2 ^ 31 }
    ensures printed { OnOk result ((w : WaveValue) → IsSoFar told.now (with_turn w told.now.time node) →
        IsPrinted printed.old w → IsPrinted printed.new (with_turn w told.now.time node)) }
    ensures count { OnOk result (printed.new.count ≤ printed.old.count + 1) }
{
    let Some(node) = node else {
        return Ok(());
    };
    let value = told.values[node as usize];
    told_change(
        told.time,
        name_of_node(&told.names, node),
        value,
        &mut printed.text,
    )?;
    printed.count += 1;
    Ok(())
}

/// The changes that the text lists, printed line by line, and then how many there are.
fn print_changes(alloc: Global, told: Told, text: &[u8]) -> Result<Vec<u8>, WaveError>
    requires few { length told.names.items ≤ 65537 }
    requires count { length told.values.items ≡ length told.names.items }
    requires short { length text.now ≤ 268435456 }
    ensures read { IfOk result (λ printed. (whole : List ℕ) →
        IsToldTo whole (2 * length told.names.items + 5)
        (at_changes (wave_of told.names.items told.values.items []) told.time) text.now →
        (w : WaveValue) × IsWaveText whole w × (printed.items ≡ unwaved w)) }
    ensures refused { IfErr result (IsRefusedFrom (2 * length told.names.items + 5)
        (at_changes (wave_of told.names.items told.values.items []) told.time) text.now) }
{
    let mut told = told;
    let mut printed = Printed {
        text: Vec::new(alloc),
        count: 0,
    };
    let mut lines = 2 * told.names.len() as u32 + 5;
    let mut rest = text;
    while !rest.is_empty() {
        lines += 1;
        match change_line(&mut told, rest) {
            Ok((node, after)) => {
                print_turn(&mut printed, &told, node)?;
                rest = after;
            }
            Err(fault) => return Err(WaveError::Refused { fault, line: lines }),
        }
    }
    count_line(printed.count, &mut printed.text)?;
    Ok(printed.text)
}

/// What `unwave_text` prints of the wave that the text spells, or why it spells none, as `read_wave` says it. Each
/// change is printed as soon as it is read, and no list of them is kept.
pub fn changes_text(alloc: Global, text: &[u8]) -> Result<Vec<u8>, WaveError>
    requires { length text.now ≤ 268435456 }
    ensures read { IfOk result (λ printed.
        (w : WaveValue) × IsWaveText text.now w × (printed.items ≡ unwaved w)) }
    ensures refused { IfErr result (OfWaveRefusal (IsWaveRefused text.now)) }
{
    let (told, rest) = read_nodes(alloc, text)?;
    print_changes(alloc, told, rest)
}
