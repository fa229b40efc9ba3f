//! Reading a wave.

ghost use Rattle.std.specs.Prelude.{◌≡◌, ◌≢◌, ◌≤◌, ◌<◌, ◌+◌, ◌*◌, ◌^◌, ◌++◌, ℕ, List, [], None, Some, true, length, IfOk, IfErr, IfSome, OnOk};
ghost use Rattle.prs_core.specs.Moves.{fired};
ghost use Rattle.wave_file.specs.declared.fault.WaveFault.TheVariants.{BadLine, TimeBack};
ghost use Rattle.wave_file.specs.WaveFaults.{OfWaveRefusal};
ghost use Rattle.wave_file.specs.WaveLines.{id_value, is_id};
ghost use Rattle.wave_file.specs.WaveReading.{IsFaultAt, IsToldTo, IsWaveRefused, IsWaveText, at_changes, at_definitions, at_names, at_values, has_value, turn_fault};
ghost use Rattle.wave_file.specs.WaveTold.{changes_with, kept_wave, with_turn, ComesOn, IsLineOn, IsRefusedFrom, IsSoFar};
ghost use Rattle.wave_file.specs.Waves.{WaveValue, wave_of};

use crate::fault::{WaveError, WaveFault};
use crate::id::node_of;
use crate::line::{behind, mark_in, named_in, turned_in, valued_in};
use crate::wave::Wave;
use crate::write;
use chp_base::Name;
use std::alloc::{AllocError, Global};

const MOST_NODES: usize = 65537;

/// What follows the line of this number, which is to be this one.
fn behind_line<'a>(text: &'a [u8], line: &[u8], number: u32) -> Result<&'a [u8], WaveError>
    ensures told { IfOk result (λ rest. text.now ≡ line.now ++ rest.now) }
    ensures refused { IfErr result (OfWaveRefusal (λ fault n. (fault ≡ BadLine) × (n ≡ number)
        × ((rest : List ℕ) → text.now ≢ line.now ++ rest))) }
{
    match behind(text, line) {
        Some(rest) => Ok(rest),
        None => {
            let fault = WaveFault::BadLine;
            Err(WaveError::Refused {
                fault,
                line: number,
            })
        }
    }
}

/// What follows the first two lines.
fn read_head(text: &[u8]) -> Result<&[u8], WaveError>
    ensures told { IfOk result (λ rest. IsToldTo text.now 2 (at_names []) rest.now) }
    ensures refused { IfErr result (OfWaveRefusal (IsWaveRefused text.now)) }
{
    let rest = behind_line(text, b"$timescale 1 ns $end\n", 1)?;
    behind_line(rest, b"$scope module top $end\n", 2)
}

/// The names of the nodes, and what follows the line that ends them.
fn read_names(alloc: Global, text: &[u8]) -> Result<(Vec<Name>, &[u8]), WaveError>
    ensures told { IfOk result (λ r. ComesOn 2 (at_names []) text.now
        (length r.0.items + 3) (at_definitions r.0.items) r.1.now) }
    ensures few { IfOk result (λ r. length r.0.items ≤ 65537) }
    ensures short { IfOk result (λ r. length r.1.now ≤ length text.now) }
    ensures refused { IfErr result (IsRefusedFrom 2 (at_names []) text.now) }
{
    let mut names = Vec::new(alloc);
    let mut rest = text;
    while let Some((name, after)) = named_in(alloc, names.len() as u32, rest)? {
        if names.len() >= MOST_NODES {
            let fault = WaveFault::TooMany;
            let line = names.len() as u32 + 3;
            return Err(WaveError::Refused { fault, line });
        }
        names.push(name)?;
        rest = after;
    }
    let line = names.len() as u32 + 3;
    if names.len() < 2 {
        let fault = WaveFault::BadLine;
        return Err(WaveError::Refused { fault, line });
    }
    let after = behind_line(rest, b"$upscope $end\n", line)?;
    Ok((names, after))
}

/// What follows the definitions of these nodes and the mark of the start.
fn read_start<'a>(names: &[Name], text: &'a [u8]) -> Result<&'a [u8], WaveError>
    requires { length names.now ≤ 65537 }
    ensures told { IfOk result (λ rest. ComesOn (length names.now + 3) (at_definitions names.now) text.now
        (length names.now + 5) (at_values names.now []) rest.now) }
    ensures short { IfOk result (λ rest. length rest.now ≤ length text.now) }
    ensures refused { IfErr result (IsRefusedFrom (length names.now + 3) (at_definitions names.now) text.now) }
{
    let line = names.len() as u32 + 4;
    let rest = behind_line(text, b"$enddefinitions $end\n", line)?;
    behind_line(rest, b"#0\n", line + 1)
}

/// The first values of these nodes, and what follows them.
fn read_values<'a>(
    alloc: Global,
    names: &[Name],
    text: &'a [u8],
) -> Result<(Vec<bool>, &'a [u8]), WaveError>
    requires { length names.now ≤ 65537 }
    ensures told { IfOk result (λ r. ComesOn (length names.now + 5) (at_values names.now []) text.now
        (2 * length names.now + 5) (at_changes (wave_of names.now r.0.items []) 0) r.1.now) }
    ensures count { IfOk result (λ r. length r.0.items ≡ length names.now) }
    ensures short { IfOk result (λ r. length r.1.now ≤ length text.now) }
    ensures refused { IfErr result (IsRefusedFrom (length names.now + 5) (at_values names.now []) text.now) }
{
    let mut first = Vec::new(alloc);
    let mut rest = text;
    for node in 0..names.len() as u32 {
        let Some((value, after)) = valued_in(alloc, node, rest)? else {
            let fault = WaveFault::BadLine;
            let line = names.len() as u32 + node + 6;
            return Err(WaveError::Refused { fault, line });
        };
        first.push(value)?;
        rest = after;
    }
    Ok((first, rest))
}

/// What is kept of the wave so far. Its changes aren't: a long text has many.
#[derive(Drop)]
pub(crate) struct Told {
    pub names: Vec<Name>,
    /// The values of the nodes after the changes.
    pub values: Vec<bool>,
    /// The time of the last mark.
    pub time: u64,
}

/// The nodes with their first values, and what follows these.
pub(crate) fn read_nodes(alloc: Global, text: &[u8]) -> Result<(Told, &[u8]), WaveError>
    requires { length text.now ≤ 268435456 }
    ensures told { IfOk result (λ r. IsToldTo text.now (2 * length r.0.names.items + 5)
        (at_changes (wave_of r.0.names.items r.0.values.items []) r.0.time) r.1.now) }
    ensures few { IfOk result (λ r. length r.0.names.items ≤ 65537) }
    ensures count { IfOk result (λ r. length r.0.values.items ≡ length r.0.names.items) }
    ensures short { IfOk result (λ r. length r.1.now ≤ 268435456) }
    ensures refused { IfErr result (OfWaveRefusal (IsWaveRefused text.now)) }
{
    let behind_head = read_head(text)?;
    let (names, behind_names) = read_names(alloc, behind_head)?;
    let behind_start = read_start(&names, behind_names)?;
    let (values, rest) = read_values(alloc, &names, behind_start)?;
    let told = Told {
        names,
        values,
        time: 0,
    };
    Ok((told, rest))
}

/// Whether the node has the value.
fn has_value(values: &[bool], node: u32, value: bool) -> bool
    requires { node < length values.now }
    ensures { result ≡ has_value values.now node value }
{
    values[node as usize] == value
}

/// Applies a change and returns its node, or why it is refused.
fn turn(told: &mut Told, value: bool, id: &[u8]) -> Result<u32, WaveFault>
    requires id { is_id id.now ≡ true }
    requires few { length told.old.names.items ≤ 65537 }
    requires count { length told.old.values.items ≡ length told.old.names.items }
    ensures names { told.new.names.items ≡ told.old.names.items }
    ensures time { told.new.time ≡ told.old.time }
    ensures node { IfOk result (λ node. node ≡ id_value id.now) }
    ensures below { IfOk result (λ node. node < length told.old.names.items) }
    ensures values { IfOk result (λ node. told.new.values.items ≡ fired told.old.values.items node) }
    ensures told { IfOk result (λ _node.
        turn_fault (length told.old.names.items) told.old.values.items value id.now ≡ None) }
    ensures refused { IfErr result (λ fault.
        turn_fault (length told.old.names.items) told.old.values.items value id.now ≡ Some fault) }
{
    let Some(node) = node_of(id, told.names.len()) else {
        return Err(WaveFault::UnknownId);
    };
    if has_value(&told.values, node, value) {
        return Err(WaveFault::NoChange);
    }
    write::turn(&mut told.values, node);
    Ok(node)
}

/// Goes on to the time of a mark, or returns why it is refused.
fn go_on(told: &mut Told, time: u64) -> Result<(), WaveFault>
    ensures names { told.new.names.items ≡ told.old.names.items }
    ensures values { told.new.values.items ≡ told.old.values.items }
    ensures time { IfOk result (λ _done. told.new.time ≡ time) }
    ensures later { IfOk result (λ _done. told.old.time < time) }
    ensures refused { IfErr result (λ fault. (fault ≡ TimeBack) × (time ≤ told.old.time)) }
{
    if time <= told.time {
        return Err(WaveFault::TimeBack);
    }
    told.time = time;
    Ok(())
}

/// Applies a line, and returns the node that it turns over, if it is a change, and what follows it; or why it is
/// refused.
pub(crate) fn change_line<'a>(
    told: &mut Told,
    text: &'a [u8],
) -> Result<(Option<u32>, &'a [u8]), WaveFault>
    requires some { 0 < length text.now }
    requires few { length told.old.names.items ≤ 65537 }
    requires count { length told.old.values.items ≡ length told.old.names.items }
    ensures names { told.new.names.items ≡ told.old.names.items }
    ensures nodes { IfOk result (λ r. length told.new.values.items ≡ length told.old.values.items) }
    ensures below { IfOk result (λ r. IfSome r.0 (λ node. node < length told.old.names.items)) }
    ensures told { IfOk result (λ r. (w : WaveValue) → IsSoFar told.old w →
        IsLineOn text.now r.1.now (at_changes w told.old.time)
        (at_changes (with_turn w told.new.time r.0) told.new.time)) }
    ensures so_far { IfOk result (λ r. (w : WaveValue) → IsSoFar told.old w →
        IsSoFar told.new (with_turn w told.new.time r.0)) }
    ensures refused { IfErr result (λ fault. (w : WaveValue) → IsSoFar told.old w →
        IsFaultAt (at_changes w told.old.time) text.now fault) }
{
    if let Some((value, id, rest)) = turned_in(text) {
        let node = turn(told, value, id)?;
        return Ok((Some(node), rest));
    }
    let Some((time, rest)) = mark_in(text) else {
        return Err(WaveFault::BadLine);
    };
    go_on(told, time)?;
    Ok((None, rest))
}

/// Adds the change of the node, if there is one.
fn keep_turn(changes: &mut Vec<(u64, u32)>, now: u64, node: Option<u32>) -> Result<(), AllocError>
    ensures { OnOk result (changes.new.items ≡ changes_with changes.old.items now node) }
{
    match node {
        Some(node) => {
            changes.push((now, node))?;
            Ok(())
        }
        None => Ok(()),
    }
}

/// The wave of these nodes whose changes the text lists.
fn read_changes(alloc: Global, told: Told, text: &[u8]) -> Result<Wave, WaveError>
    requires few { length told.names.items ≤ 65537 }
    requires count { length told.values.items ≡ length told.names.items }
    requires short { length text.now ≤ 268435456 }
    ensures read { IfOk result (λ w. (whole : List ℕ) →
        IsToldTo whole (2 * length told.names.items + 5)
        (at_changes (wave_of told.names.items told.values.items []) told.time) text.now →
        IsWaveText whole (kept_wave w)) }
    ensures refused { IfErr result (IsRefusedFrom (2 * length told.names.items + 5)
        (at_changes (wave_of told.names.items told.values.items []) told.time) text.now) }
{
    let mut told = told;
    let first = Vec::from_slice(alloc, &told.values)?;
    let mut changes = Vec::new(alloc);
    let mut lines = 2 * told.names.len() as u32 + 5;
    let mut rest = text;
    while !rest.is_empty() {
        lines += 1;
        match change_line(&mut told, rest) {
            Ok((node, after)) => {
                keep_turn(&mut changes, told.time, node)?;
                rest = after;
            }
            Err(fault) => return Err(WaveError::Refused { fault, line: lines }),
        }
    }
    let names = told.names;
    Ok(Wave {
        names,
        first,
        changes,
    })
}

/// The wave that the text spells, read part by part.
fn read_in_parts(alloc: Global, text: &[u8]) -> Result<Wave, WaveError>
    requires { length text.now ≤ 268435456 }
    ensures read { IfOk result (λ w. IsWaveText text.now (kept_wave w)) }
    ensures refused { IfErr result (OfWaveRefusal (IsWaveRefused text.now)) }
{
    let (told, rest) = read_nodes(alloc, text)?;
    read_changes(alloc, told, rest)
}

/// The wave that the text spells, and it spells no other. A text that spells none is refused at its first line with a
/// fault, counted from 1, for the first of these causes: the line isn't of a form allowed there, or no change follows
/// its mark of a time, or the text ends too early; a change is of no node; a time isn't above the one before; a
/// node has the value already; or there are more than 65,537 nodes.
pub fn read_wave(alloc: Global, text: &[u8]) -> Result<Wave, WaveError>
    requires { length text.now ≤ 268435456 }
    ensures read { IfOk result (λ w. IsWaveText text.now (kept_wave w)) }
    ensures only { IfOk result (λ w. (other : WaveValue) → IsWaveText text.now other → other ≡ kept_wave w) }
    ensures refused { IfErr result (OfWaveRefusal (IsWaveRefused text.now)) }
    ensures never { IfErr result
        (OfWaveRefusal (λ _fault _line. (other : WaveValue) → ¬ IsWaveText text.now other)) }
{
    read_in_parts(alloc, text)
}
