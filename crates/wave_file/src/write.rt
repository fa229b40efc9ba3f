//! Writing a wave.

ghost use Rattle.std.specs.Prelude.{◌≡◌, ◌<◌, ◌≤◌, ◌++◌, ◌^◌, ℕ, not, length, All, IfOk, OnOk};
ghost use Rattle.chp_base.specs.Names.{IsNodeName};
ghost use Rattle.prs_core.specs.Moves.{high, fired};
ghost use Rattle.wave_file.specs.WaveReading.{IsWaveText};
ghost use Rattle.wave_file.specs.WaveTold.{kept_wave};
ghost use Rattle.wave_file.specs.Waves.{wave_of, IsWave, mark_before, value_spelling_of, id_of, var_spelling, naming_lines, first_lines, change_lines};

use crate::forms::{append, time_line, value_line, var_line};
use crate::wave::Wave;
use chp_base::Name;
use std::alloc::{AllocError, Global};

/// Turns the node over, and returns its new value.
pub(crate) fn turn(values: &mut [bool], node: u32) -> bool
    requires { node < length values.old }
    ensures values { values.new ≡ fired values.old node }
    ensures value { result ≡ not (high values.old node) }
{
    let value = !values[node as usize];
    values[node as usize] = value;
    value
}

/// Appends the line of the node of this name.
fn name_line(name: &Name, node: u32, to: &mut Vec<u8>) -> Result<(), AllocError>
    requires { node < 65537 }
    ensures line { OnOk result (to.new.items ≡ to.old.items ++ var_spelling node name.now) }
    ensures named { IsNodeName name.now }
{
    var_line(node, name.bytes(), to)
}

/// Appends a line for each node.
fn var_lines(names: &[Name], to: &mut Vec<u8>) -> Result<(), AllocError>
    requires { length names.now ≤ 65537 }
    ensures lines { OnOk result (to.new.items ≡ to.old.items ++ naming_lines 0 names.now) }
    ensures named { OnOk result (All IsNodeName names.now) }
{
    for node in 0..names.len() as u32 {
        name_line(&names[node as usize], node, to)?;
    }
    Ok(())
}

/// Appends a line for each first value.
fn first_lines(first: &[bool], to: &mut Vec<u8>) -> Result<(), AllocError>
    requires { length first.now ≤ 65537 }
    ensures { OnOk result (to.new.items ≡ to.old.items ++ first_lines 0 first.now) }
{
    for node in 0..first.len() {
        value_line(first[node], node as u32, to)?;
    }
    Ok(())
}

/// Appends the mark of the time, where it differs from the current time.
fn mark_before(now: u64, time: u64, to: &mut Vec<u8>) -> Result<(), AllocError>
    ensures { OnOk result (to.new.items ≡ to.old.items ++ mark_before now time) }
{
    if now == time {
        return Ok(());
    }
    time_line(time, to)
}

/// Appends a change to the value, after the mark of its time where that differs from the current time.
fn change_line(
    now: u64,
    time: u64,
    value: bool,
    node: u32,
    to: &mut Vec<u8>,
) -> Result<(), AllocError>
    requires { node < 65537 }
    ensures line { OnOk result (to.new.items
        ≡ to.old.items ++ (mark_before now time ++ value_spelling_of value (id_of node))) }
    ensures small { time < 2 ^ 64 }
{
    mark_before(now, time, to)?;
    value_line(value, node, to)
}

/// Appends the changes, where the nodes have these values before them.
fn change_lines(
    values: &mut [bool],
    changes: &[(u64, u32)],
    to: &mut Vec<u8>,
) -> Result<(), AllocError>
    requires few { length values.old ≤ 65537 }
    requires nodes { All (λ (c : ℕ × ℕ). c.1 < length values.old) changes.now }
    ensures lines { OnOk result (to.new.items ≡ to.old.items ++ change_lines 0 values.old changes.now) }
    ensures small { OnOk result (All (λ (c : ℕ × ℕ). c.0 < 2 ^ 64) changes.now) }
{
    let mut now = 0u64;
    for (time, node) in changes {
        let value = turn(values, *node);
        change_line(now, *time, value, *node, to)?;
        now = *time;
    }
    Ok(())
}

/// Appends the changes of the wave.
fn changes_of(wave: &Wave, to: &mut Vec<u8>) -> Result<(), AllocError>
    requires { IsWave (wave_of wave.now.names.items wave.now.first.items wave.now.changes.items) }
    ensures lines { OnOk result (to.new.items
        ≡ to.old.items ++ change_lines 0 wave.now.first.items wave.now.changes.items) }
    ensures small { OnOk result (All (λ (c : ℕ × ℕ). c.0 < 2 ^ 64) wave.now.changes.items) }
{
    let mut values = wave.first.clone()?;
    change_lines(&mut values, &wave.changes, to)
}

/// The wave as a value change dump: the nodes with their names in order, the first values, and the changes after the
/// marks of their times. One unit of time is written as a nanosecond. (The format is a profile of that of IEEE 1364,
/// with wires of one bit alone.) What is written is read as this wave.
pub fn write_wave(alloc: Global, wave: &Wave) -> Result<Vec<u8>, AllocError>
    requires { IsWave (wave_of wave.now.names.items wave.now.first.items wave.now.changes.items) }
    ensures { IfOk result (λ text. IsWaveText text.items (kept_wave wave.now)) }
{
    let mut text = Vec::new(alloc);
    append(
        &mut text,
        &[b"$timescale 1 ns $end\n", b"$scope module top $end\n"],
    )?;
    var_lines(&wave.names, &mut text)?;
    append(
        &mut text,
        &[b"$upscope $end\n", b"$enddefinitions $end\n", b"#0\n"],
    )?;
    first_lines(&wave.first, &mut text)?;
    changes_of(wave, &mut text)?;
    Ok(text)
}
