//! What a line of a delay file says.

ghost use Rattle.std.specs.Prelude.{◌≡◌, ℕ, List, map, IfOk, IfSome, IfNone};
ghost use Rattle.delay_script.specs.declared.line.DelayLine.{DelayLine};
ghost use Rattle.delay_script.specs.DelayText.{SaysDelays};

use chp_base::{Name, node_name_of};
use env_script::number_of;
use std::alloc::{AllocError, Global};

/// A line of a delay file: the name of a node, and how long its rise and its fall take.
#[derive(Drop)]
pub struct DelayLine {
    pub node: Name,
    pub up: u64,
    pub down: u64,
}

/// What the words of a line say, or None where they aren't the name of a node and two numbers.
pub fn delay_line_in(alloc: Global, words: &[&[u8]]) -> Result<Option<DelayLine>, AllocError>
    ensures some { IfOk result (λ o. IfSome o (SaysDelays (map (λ word. word.now) words.now))) }
    ensures none { IfOk result
        (λ o. IfNone o ((l : DelayLine) → ¬ SaysDelays (map (λ word. word.now) words.now) l)) }
{
    let [node, up, down] = words else {
        return Ok(None);
    };
    let Some(up) = number_of(up) else {
        return Ok(None);
    };
    let Some(down) = number_of(down) else {
        return Ok(None);
    };
    let Some(node) = node_name_of(alloc, node)? else {
        return Ok(None);
    };
    Ok(Some(DelayLine { node, up, down }))
}
