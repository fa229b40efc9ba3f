//! What a line of a delay file does.

ghost use Rattle.std.specs.Prelude.{◌≡◌, ℕ, List, length, IfOk, IsTrue, ◌↔◌};
ghost use Rattle.env_script.specs.Cutting.{words_of};
ghost use Rattle.delay_script.specs.DelayText.{IsQuick, SaysDelays};
ghost use Rattle.delay_script.specs.DelaySteps.{IsDelayStep};

use crate::fault::DelayFault;
use crate::line::{DelayLine, delay_line_in};
use crate::name_table::NameTable;
use env_script::words_of;
use std::alloc::{AllocError, Global};

const LONGEST_DELAY: u64 = 1_000_000;

/// What a line says.
#[derive(Clone, Copy)]
pub struct TakenDelay {
    /// The number of the node.
    pub node: u32,
    /// How long its rise takes.
    pub up: u32,
    /// How long its fall takes.
    pub down: u32,
}

/// What a line does.
#[derive(Clone, Copy)]
pub enum DelayStep {
    /// It has no words.
    Skip,
    Refused(DelayFault),
    Take(TakenDelay),
}

/// Whether neither delay is too large.
fn is_quick(line: &DelayLine) -> bool
    ensures { IsTrue result ↔ IsQuick line.now }
{
    line.up <= LONGEST_DELAY && line.down <= LONGEST_DELAY
}

/// What a line does that says delays, where the marked nodes of these names already had a line.
fn step_for(names: &NameTable, marks: &[bool], line: &DelayLine) -> DelayStep
    requires { length marks.now ≡ length names.now }
    ensures { (words : List (List ℕ)) → SaysDelays words line.now →
        IsDelayStep names.now marks.now words result }
{
    let Some(node) = names.find(&line.node) else {
        return DelayStep::Refused(DelayFault::UnknownNode);
    };
    if marks[node as usize] {
        return DelayStep::Refused(DelayFault::DoubleNode);
    }
    if !is_quick(line) {
        return DelayStep::Refused(DelayFault::TooLarge);
    }
    DelayStep::Take(TakenDelay {
        node,
        up: line.up as u32,
        down: line.down as u32,
    })
}

/// What the line does, where the marked nodes of these names already had a line.
pub fn step_of(
    alloc: Global,
    names: &NameTable,
    marks: &[bool],
    line: &[u8],
) -> Result<DelayStep, AllocError>
    requires { length marks.now ≡ length names.now }
    ensures { IfOk result (IsDelayStep names.now marks.now (words_of line.now)) }
{
    let words = words_of(alloc, line)?;
    if words.is_empty() {
        return Ok(DelayStep::Skip);
    }
    let Some(line) = delay_line_in(alloc, &words)? else {
        return Ok(DelayStep::Refused(DelayFault::BadLine));
    };
    Ok(step_for(names, marks, &line))
}
