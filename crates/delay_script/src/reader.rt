//! The reader of delay files.

ghost use Rattle.std.specs.Prelude.{◌≡◌, ◌≢◌, ◌≤◌, ◌<◌, ℕ, List, AllPairs, true, false, length, slice_set, replicate, IfOk, IfErr, OnOk};
ghost use Rattle.delay_script.specs.DelayTables.{IsDelayTable, delay_table};
ghost use Rattle.delay_script.specs.DelayText.{IsDelayText, IsOnlyDelays, IsNoDelayText, IsDelayRefused, IsOnlyDelayRefusal, OfDelayRefusal};

use crate::delays::Delays;
use crate::fault::DelayError;
use crate::name_table::NameTable;
use crate::step::{DelayStep, TakenDelay, step_of};
use env_script::lines_of;
use prs_core::Net;
use std::alloc::{AllocError, Global};

/// What was read of the nodes of a net: how long the rise and the fall of each take, and whether it had a line.
#[derive(Drop)]
struct Told {
    up: Vec<u32>,
    down: Vec<u32>,
    marks: Vec<bool>,
}

/// What is so of so many nodes where no line was read.
fn nothing_told(alloc: Global, nodes: usize) -> Result<Told, AllocError>
    ensures up { IfOk result (λ told. told.up.items ≡ replicate nodes 1) }
    ensures down { IfOk result (λ told. told.down.items ≡ replicate nodes 1) }
    ensures marks { IfOk result (λ told. told.marks.items ≡ replicate nodes false) }
{
    let up = vec![in alloc; 1; nodes]?;
    let down = vec![in alloc; 1; nodes]?;
    let marks = vec![in alloc; false; nodes]?;
    Ok(Told { up, down, marks })
}

/// Records what a line says.
fn note(told: &mut Told, taken: &TakenDelay)
    requires up { taken.now.node < length told.old.up.items }
    requires down { taken.now.node < length told.old.down.items }
    requires marks { taken.now.node < length told.old.marks.items }
    ensures up { told.new.up.items ≡ slice_set told.old.up.items taken.now.node taken.now.up }
    ensures down { told.new.down.items ≡ slice_set told.old.down.items taken.now.node taken.now.down }
    ensures marks { told.new.marks.items ≡ slice_set told.old.marks.items taken.now.node true }
{
    let place = taken.node as usize;
    told.up[place] = taken.up;
    told.down[place] = taken.down;
    told.marks[place] = true;
}

/// Records what the lines of the text say of the nodes of these names, up to the first line with a fault.
fn read_lines(
    alloc: Global,
    text: &[u8],
    names: &NameTable,
    told: &mut Told,
) -> Result<(), DelayError>
    requires size { length text.now ≤ 4194304 }
    requires distinct { AllPairs (λ (a b : List ℕ). a ≢ b) names.now }
    requires up { told.old.up.items ≡ replicate (length names.now) 1 }
    requires down { told.old.down.items ≡ replicate (length names.now) 1 }
    requires marks { told.old.marks.items ≡ replicate (length names.now) false }
    ensures read { OnOk result
        (IsDelayText names.now text.now (delay_table told.new.up.items told.new.down.items)) }
    ensures refused { IfErr result (OfDelayRefusal (IsDelayRefused names.now text.now)) }
{
    let lines = lines_of(alloc, text)?;
    for (at, line) in lines.iter().enumerate() {
        match step_of(alloc, names, &told.marks, line)? {
            DelayStep::Skip => {}
            DelayStep::Refused(fault) => {
                let line = at as u32 + 1;
                return Err(DelayError::Refused { fault, line });
            }
            DelayStep::Take(taken) => note(told, &taken),
        }
    }
    Ok(())
}

/// The delays that the text says of the net's nodes. A line is the name of a node, the delay of its rise and that of
/// its fall, from 0 to 1,000,000, separated by spaces or tabs. A comment runs from `//` to the end of its line. A node
/// without a line has the delays 1 and 1. The text is refused at the first line with a fault, for the first of these
/// causes: the line isn't a node's name and two numbers; the net has no node of the name; an earlier line has it; a
/// delay is too large. (The format is our own.)
pub fn read_delays(alloc: Global, text: &[u8], net: &Net) -> Result<Delays, DelayError>
    requires { length text.now ≤ 4194304 }
    ensures read { IfOk result (IsDelayText net.now.names text.now) }
    ensures only { IfOk result (IsOnlyDelays net.now.names text.now) }
    ensures table { IfOk result (IsDelayTable (length net.now.first)) }
    ensures refused { IfErr result (OfDelayRefusal (IsDelayRefused net.now.names text.now)) }
    ensures first { IfErr result (OfDelayRefusal (IsOnlyDelayRefusal net.now.names text.now)) }
    ensures none { IfErr result (OfDelayRefusal (λ fault line. IsNoDelayText net.now.names text.now)) }
{
    let names = NameTable::from_names(alloc, net.names())?;
    let mut told = nothing_told(alloc, names.len())?;
    read_lines(alloc, text, &names, &mut told)?;
    Ok(Delays::new(told.up, told.down))
}
