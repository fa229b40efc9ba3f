//! Sets of channels.

ghost use Rattle.std.specs.Prelude.{◌≡◌, ◌<◌, ◌≤◌, ◌/◌, ◌*◌, ◌^◌, ℕ, true, false, length, replicate, slice_set, None, IfOk, IfSome};
ghost use Rattle.event_sim.specs.Locality.{is_member};

use std::alloc::{AllocError, Global};
use std::marker::Model;

/// So many channels are passed at once where none of them is in the set.
const BLOCK: usize = 128;

/// Some of the channels of a net. It is seen as a mark for each channel. It also has a mark for each block of channels
/// of which one may be in the set.
#[derive(Drop)]
pub(crate) struct ChannelSet {
    marks: Vec<bool>,
    blocks: Vec<bool>,
}

impl Model for ChannelSet {
    ghost use Rattle.std.specs.Prelude.{List, Bool};
    ghost use Rattle.peer_bench.specs.Sets.{AreBlocks};

    ghost Value = { List Bool };

    ghost view = { λ s. s.marks.items };

    ghost invariant = { λ s. AreBlocks s.marks.items s.blocks.items };
}

fn all_marked(alloc: Global, count: usize) -> Result<Vec<bool>, AllocError>
    ensures { IfOk result (λ v. v.items ≡ replicate count true) }
{
    let mut marks = Vec::with_capacity(alloc, count)?;
    for _mark in 0..count {
        marks.push(true)?;
    }
    Ok(marks)
}

/// Whether a channel of the block is marked.
fn is_any_marked(marks: &[bool], block: usize) -> bool
    requires block { 128 * block < length marks.now }
    requires few { length marks.now < 2 ^ 32 }
    ensures { result ≡ false → (chan : ℕ) → chan / 128 ≡ block → is_member marks.now chan ≡ false }
{
    let mut place = block * BLOCK;
    while place < marks.len() && place / BLOCK == block {
        if marks[place] {
            return true;
        }
        place += 1;
    }
    false
}

impl ChannelSet {
    /// The set of all of so many channels.
    pub(crate) fn all(alloc: Global, count: usize) -> Result<ChannelSet, AllocError>
        requires { count < 2 ^ 32 }
        ensures { IfOk result (λ s. s ≡ replicate count true) }
    {
        let marks = all_marked(alloc, count)?;
        let blocks = all_marked(alloc, count / BLOCK + 1)?;
        Ok(ChannelSet { marks, blocks })
    }

    /// Inserts the channel into the set or removes it. It allocates no memory.
    pub(crate) fn set(&mut self, chan: u32, member: bool)
        requires { chan < length self.old }
        ensures set { self.new ≡ slice_set self.old chan member }
        ensures few { length self.new < 2 ^ 32 }
    {
        let place = chan as usize;
        if self.marks[place] == member {
            return;
        }
        self.marks[place] = member;
        let block = place / BLOCK;
        self.blocks[block] = member || is_any_marked(&self.marks, block);
    }

    /// The first channel of the set from this one on.
    pub(crate) fn next(&self, from: u32) -> Option<u32>
        ensures some { IfSome result (λ chan. is_member self.now chan ≡ true) }
        ensures from { IfSome result (λ chan. from ≤ chan) }
        ensures within { IfSome result (λ chan. chan < length self.now) }
        ensures few { length self.now < 2 ^ 32 }
        ensures first { IfSome result (λ chan. (k : ℕ) → from ≤ k → k < chan → is_member self.now k ≡ false) }
        ensures none { result ≡ None → (k : ℕ) → from ≤ k → is_member self.now k ≡ false }
    {
        let mut place = from as usize;
        while place < self.marks.len() {
            if self.marks[place] {
                return Some(place as u32);
            }
            let block = place / BLOCK;
            if self.blocks[block] {
                place += 1;
            } else {
                place = (block + 1) * BLOCK;
            }
        }
        None
    }
}
