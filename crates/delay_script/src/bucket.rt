//! The nodes that are due at one time.

ghost use Rattle.std.specs.Prelude.{◌≡◌, true, ◌-◌, ◌<◌, ◌==◌, ◌||◌, [], ◌∷◌, ◌++◌, length, slice_index, option_to_list, IfOk, IfSome, IfNone};
ghost use Rattle.std.specs.List.Sorted.{IsPermutation};
ghost use Rattle.delay_script.specs.Calendars.{IsDescending};

use std::alloc::{AllocError, Global};
use std::cmp::Reverse;
use std::marker::Model;

/// Nodes that are due at one time.
#[derive(Drop)]
pub(crate) struct Bucket {
    time: u64,
    nodes: Vec<Reverse<u32>>,
}

impl Model for Bucket {
    ghost use Rattle.std.specs.Prelude.{vec_capacity};
    ghost use Rattle.delay_script.specs.Calendars.{BucketValue, bucket_of};

    ghost Value = { BucketValue };

    ghost view = { λ b. bucket_of b.time b.nodes.items (vec_capacity b.nodes) };
}

impl Bucket {
    /// A bucket with no nodes, and room for so many.
    pub(crate) fn new(alloc: Global, room: usize) -> Result<Bucket, AllocError>
        ensures { IfOk result (λ b. b ≡ record { time = 0; nodes = []; room = room }) }
    {
        let nodes = Vec::with_capacity(alloc, room)?;
        Ok(Bucket { time: 0, nodes })
    }

    /// The time at which its nodes are due, where it has some.
    pub(crate) fn time(&self) -> u64
        ensures { result ≡ self.now.time }
    {
        self.time
    }

    /// Whether it has no nodes.
    pub(crate) fn is_empty(&self) -> bool
        ensures { result ≡ (length self.now.nodes == 0) }
    {
        self.nodes.is_empty()
    }

    /// Whether it has no nodes that are due at another time.
    pub(crate) fn takes(&self, time: u64) -> bool
        ensures { result ≡ ((length self.now.nodes == 0) || (self.now.time == time)) }
    {
        self.nodes.is_empty() || self.time == time
    }

    /// Adds a node, which is due at this time as all others are. It allocates no memory.
    pub(crate) fn add(&mut self, time: u64, node: u32)
        requires room { length self.old.nodes < self.old.room }
        requires time { ((length self.old.nodes == 0) || (self.old.time == time)) ≡ true }
        ensures { self.new ≡ record { time = time; nodes = self.old.nodes ++ node ∷ []; room = self.old.room } }
    {
        self.time = time;
        self.nodes.push_reserved(Reverse(node));
    }

    /// Sorts the nodes, the greatest first.
    pub(crate) fn sort(&mut self)
        ensures time { self.new.time ≡ self.old.time }
        ensures same { IsPermutation self.old.nodes self.new.nodes }
        ensures descends { IsDescending self.new.nodes }
        ensures room { self.new.room ≡ self.old.room }
    {
        self.nodes.sort_unstable();
    }

    /// The last node.
    pub(crate) fn last(&self) -> Option<u32>
        ensures some { IfSome result (λ n. n ≡ slice_index self.now.nodes (length self.now.nodes - 1)) }
        ensures within { IfSome result (λ n. 0 < length self.now.nodes) }
        ensures none { IfNone result (self.now.nodes ≡ []) }
    {
        match self.nodes.last() {
            None => None,
            Some(Reverse(node)) => Some(*node),
        }
    }

    /// Removes the last node.
    pub(crate) fn pop(&mut self) -> Option<u32>
        ensures nodes { self.old.nodes ≡ self.new.nodes ++ option_to_list result }
        ensures none { IfNone result (self.old.nodes ≡ []) }
        ensures time { self.new.time ≡ self.old.time }
        ensures room { self.new.room ≡ self.old.room }
    {
        let Reverse(node) = self.nodes.pop()?;
        Some(node)
    }
}
