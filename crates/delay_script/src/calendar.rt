//! Nodes by the times at which they are due.

ghost use Rattle.std.specs.Prelude.{◌≡◌, ℕ, ◌+◌, ◌<◌, true, false, [], length, replicate, IfOk, IfSome, IfNone};
ghost use Rattle.std.specs.BinaryHeap.{heap_items, IsHeap};
ghost use Rattle.std.specs.List.{sum_by};
ghost use Rattle.delay_script.specs.Calendars.{AreBuckets, entries_of, entries_in, is_before, AreEmpty, IsFirstBucket, LeadsAll, FollowsFirst, IsDueBefore, LeadsBuckets, TakesFirst, sooner};

use crate::bucket::Bucket;
use std::alloc::{AllocError, Global};
use std::cmp::Reverse;
use std::collections::BinaryHeap;
use std::marker::Model;
use std::mem;

/// How many of the later times have a bucket each. Most moves are due within a few units of time.
const AHEAD: usize = 16;

/// Nodes by the times at which they are due, seen as the list of the times and the nodes. The nodes of `reached` are in
/// order. Each bucket of `later` has nodes of one later time, whose remainder is its place. All others are in a heap:
/// those that were due no later than `reached` when they came, and those whose bucket was in use for another time.
#[derive(Drop)]
pub(crate) struct Calendar {
    reached: Bucket,
    later: Vec<Bucket>,
    others: BinaryHeap<Reverse<(u64, u32)>>,
    room: usize,
}

impl Model for Calendar {
    ghost use Rattle.std.specs.BinaryHeap.{heap_items, heap_capacity};
    ghost use Rattle.delay_script.specs.Calendars.{CalendarValue, calendar_of, IsCalendar};

    ghost Value = { CalendarValue };

    ghost view = { λ c. calendar_of c.reached c.later.items (heap_items c.others) c.room };

    ghost invariant = { λ c. IsCalendar c.reached c.later.items (heap_items c.others) (heap_capacity c.others) c.room };
}

/// The buckets of the later times, each with room for so many nodes.
fn empty_buckets(alloc: Global, room: usize) -> Result<Vec<Bucket>, AllocError>
    ensures { IfOk result (λ v. v.items ≡ replicate 16 (record { time = 0; nodes = []; room = room })) }
{
    let mut buckets = Vec::with_capacity(alloc, AHEAD)?;
    for _place in 0..AHEAD {
        buckets.push(Bucket::new(alloc, room)?)?;
    }
    Ok(buckets)
}

/// Whether the bucket at this place has nodes that are due before those of that other one.
fn is_before(buckets: &[Bucket], place: usize, other: Option<usize>) -> bool
    requires within { place < length buckets.now }
    requires other { IfSome other (λ q. q < length buckets.now) }
    ensures { result ≡ is_before buckets.now place other }
{
    !buckets[place].is_empty()
        && match other {
            None => true,
            Some(other) => buckets[place].time() < buckets[other].time(),
        }
}

/// The bucket whose nodes are due first, if one has some.
fn first_bucket(buckets: &[Bucket]) -> Option<usize>
    ensures some { IfSome result (λ place. IsFirstBucket buckets.now (length buckets.now) place) }
    ensures none { IfNone result (AreEmpty buckets.now (length buckets.now)) }
{
    let mut first = None;
    for place in 0..buckets.len() {
        if is_before(buckets, place, first) {
            first = Some(place);
        }
    }
    first
}

/// Whether the first node of the heap is due before this time.
fn is_due_before(others: &BinaryHeap<Reverse<(u64, u32)>>, time: u64) -> bool
    ensures { result ≡ true → IsDueBefore (heap_items others.now) time }
{
    match others.peek() {
        None => false,
        Some(Reverse((first, _))) => *first < time,
    }
}

/// Turns to the first of the later times, where all nodes of the time that is reached were taken, and the heap has none
/// that is due before.
fn turn(reached: &mut Bucket, later: &mut Vec<Bucket>, others: &BinaryHeap<Reverse<(u64, u32)>>)
    ensures kept { (room : ℕ) → AreBuckets reached.old later.old.items room →
        AreBuckets reached.new later.new.items room }
    ensures sums { (f : ℕ × ℕ → ℕ) → sum_by f (entries_of reached.new) + sum_by f (entries_in later.new.items) ≡
        sum_by f (entries_of reached.old) + sum_by f (entries_in later.old.items) }
    ensures all { reached.new.nodes ≡ [] → LeadsBuckets (heap_items others.now) later.new.items }
{
    if !reached.is_empty() {
        return;
    }
    let Some(place) = first_bucket(later) else {
        return;
    };
    if is_due_before(others, later[place].time()) {
        return;
    }
    mem::swap(reached, &mut later[place]);
    reached.sort();
}

/// Whether the bucket's last node comes before all of the heap.
fn is_first(reached: &Bucket, others: &BinaryHeap<Reverse<(u64, u32)>>) -> bool
    requires { IsHeap sooner (heap_items others.now) }
    ensures here { result ≡ true → LeadsAll reached.now (heap_items others.now) }
    ensures there { result ≡ false → FollowsFirst reached.now (heap_items others.now) }
{
    match (reached.last(), others.peek()) {
        (None, _) => false,
        (Some(_), None) => true,
        (Some(node), Some(Reverse((time, other)))) => {
            reached.time() < *time || (reached.time() == *time && node < *other)
        }
    }
}

impl Calendar {
    /// One with no nodes, and room for so many.
    pub(crate) fn new(alloc: Global, room: usize) -> Result<Calendar, AllocError>
        ensures { IfOk result (λ c. c ≡ record { entries = []; room = room }) }
    {
        Ok(Calendar {
            reached: Bucket::new(alloc, room)?,
            later: empty_buckets(alloc, room)?,
            others: BinaryHeap::with_capacity(alloc, room)?,
            room,
        })
    }

    /// Adds a node that is due at this time. It allocates no memory.
    pub(crate) fn put(&mut self, time: u64, node: u32)
        requires { length self.old.entries < self.old.room }
        ensures sums { (f : ℕ × ℕ → ℕ) →
            sum_by f self.new.entries ≡ f (time, node) + sum_by f self.old.entries }
        ensures room { self.new.room ≡ self.old.room }
    {
        let place = (time % AHEAD as u64) as usize;
        if self.reached.time() < time && self.later[place].takes(time) {
            self.later[place].add(time, node);
        } else if self.others.push(Reverse((time, node))).is_err() {
            unreachable!()
        }
    }

    /// Removes the first node, by time and then by number.
    pub(crate) fn take(&mut self) -> Option<u32>
        ensures some { IfSome result (λ node. (time : ℕ) × TakesFirst (time, node) self.old.entries self.new.entries) }
        ensures none { IfNone result (self.old.entries ≡ []) }
        ensures left { IfNone result (self.new.entries ≡ []) }
        ensures room { self.new.room ≡ self.old.room }
    {
        turn(&mut self.reached, &mut self.later, &self.others);
        if is_first(&self.reached, &self.others) {
            return self.reached.pop();
        }
        let Reverse((_, node)) = self.others.pop()?;
        Some(node)
    }
}
