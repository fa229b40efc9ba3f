//! How long the nodes of a scheduler's lists have been in them.

ghost use Rattle.std.specs.Prelude.{◌≡◌, ◌≢◌, ◌↔◌, ◌⊎◌, ◌+◌, ◌*◌, ◌^◌, ◌<◌, ◌≤◌, ◌∷◌, ◌++◌, ℕ, [], IsTrue, OnOk, All, AllPairs, length, replicate, slice_index, slice_set, map, vec_capacity};
ghost use Rattle.std.specs.VecDeque.{deque_len, deque_capacity};
ghost use Rattle.std.specs.List.{remove};
ghost use Rattle.event_sim.specs.Ages.{ages_at, aged, age_rank, IsByAge, IsPlaceOfNewest, HasRoomForAges, IsPresence, AreEqualFrom, first_greatest, first_least};
ghost use Rattle.event_sim.specs.Picking.{IsChoiceList};

use std::alloc::{AllocError, Global};
use std::collections::VecDeque;

/// How many nodes are compared at once.
const GROUP: usize = 32;

/// How many of the newest nodes are looked through one by one.
const FEW: usize = 8;

/// Where a node stands: its index in the list, and its place in the order. A list mostly differs from the last one
/// where the last choice stood, so a change is looked for there first, and elsewhere if it isn't there.
#[derive(Clone, Copy)]
pub(crate) struct Position {
    pub(crate) index: usize,
    pub(crate) place: usize,
}

/// The last list of a scheduler, and its nodes once more, the oldest first, of equally old ones the least first. For
/// each of them it also has the number of picks that were made before its presence in the lists began. So the time of
/// a pick goes into the comparison of its list with the last one, and into what changed. The order is a deque: nodes
/// join it at its end, and the scheduler that picks the oldest takes them from its front.
#[derive(Drop)]
pub(crate) struct Presence {
    since: Vec<u64>,
    list: Vec<u32>,
    order: VecDeque<u32>,
}

/// Whether the first node is older, of equally old ones the lesser.
fn is_older(since: u64, node: u32, other_since: u64, other: u32) -> bool
    ensures { IsTrue result ↔ 2 ^ 32 * since + node < 2 ^ 32 * other_since + other }
{
    since < other_since || (since == other_since && node < other)
}

/// How many nodes of the order are older than a node that is present since this pick.
fn count_older(since: &[u64], order: &VecDeque<u32>, pick: u64, node: u32) -> usize
    requires below { All (λ n. n < length since.now) order.now.items }
    requires ranked { AllPairs (λ (a b : ℕ). age_rank since.now a < age_rank since.now b) order.now.items }
    ensures within { result ≤ length order.now.items }
    ensures older { (k : ℕ) → k < result → age_rank since.now (slice_index order.now.items k) < 2 ^ 32 * pick + node }
    ensures others { (k : ℕ) → result ≤ k → k < length order.now.items
        → 2 ^ 32 * pick + node ≤ age_rank since.now (slice_index order.now.items k) }
{
    let mut low = 0;
    let mut high = order.len();
    while low < high {
        let middle = low + (high - low) / 2;
        let other = order[middle];
        if is_older(since[other as usize], other, pick, node) {
            low = middle + 1;
        } else {
            high = middle;
        }
    }
    low
}

/// The place of a node in the order. It may be the one that is guessed.
fn place_in_order(since: &[u64], order: &VecDeque<u32>, node: u32, guess: usize) -> usize
    requires below { All (λ n. n < length since.now) order.now.items }
    requires ranked { AllPairs (λ (a b : ℕ). age_rank since.now a < age_rank since.now b) order.now.items }
    requires there { (p : ℕ) × (p < length order.now.items) × (slice_index order.now.items p ≡ node) }
    ensures within { result < length order.now.items }
    ensures here { slice_index order.now.items result ≡ node }
{
    if guess < order.len() && order[guess] == node {
        return guess;
    }
    count_older(since, order, since[node as usize], node)
}

/// The presence of a node ends. Its place in the order may be the one that is guessed.
fn leave(since: &[u64], order: &mut VecDeque<u32>, node: u32, guess: usize)
    requires below { All (λ n. n < length since.now) order.old.items }
    requires ranked { AllPairs (λ (a b : ℕ). age_rank since.now a < age_rank since.now b) order.old.items }
    requires there { (p : ℕ) × (p < length order.old.items) × (slice_index order.old.items p ≡ node) }
    ensures left { (p : ℕ) × (p < length order.old.items) × (slice_index order.old.items p ≡ node)
        × (order.new.items ≡ remove order.old.items p) }
    ensures room { deque_capacity order.new ≡ deque_capacity order.old }
{
    let place = place_in_order(since, order, node, guess);
    // the place is in the order, so this removes it
    let _ = order.remove(place);
}

/// The presence of a node begins.
fn arrive(since: &mut [u64], order: &mut VecDeque<u32>, node: u32, now: u64)
    requires node { node < length since.old }
    requires room { deque_len order.old < deque_capacity order.old }
    ensures since { since.new ≡ slice_set since.old node now }
    ensures order { order.new.items ≡ order.old.items ++ node ∷ [] }
    ensures room { deque_capacity order.new ≡ deque_capacity order.old }
{
    since[node as usize] = now;
    order.push_back_reserved(node);
}

/// How many nodes at the beginning are equal: as many as are guessed, or none.
fn equal_start(was: &[u32], list: &[u32], guess: usize) -> usize
    ensures { AreEqualFrom was.now 0 list.now 0 result }
{
    if guess > was.len() || guess > list.len() {
        return 0;
    }
    // where one more came before it the last of these differ, so all others needn't be looked at
    if guess > 0 && was[guess - 1] != list[guess - 1] {
        return 0;
    }
    if was[..guess] == list[..guess] {
        return guess;
    }
    0
}

/// How many nodes are equal from these places on, in whole groups.
fn group_run(was: &[u32], left: usize, list: &[u32], done: usize) -> usize
    requires left { left ≤ length was.now }
    requires done { done ≤ length list.now }
    ensures { AreEqualFrom was.now left list.now done result }
{
    let mut run = 0;
    while was.len() - left - run >= GROUP
        && list.len() - done - run >= GROUP
        && was[left + run..left + run + GROUP] == list[done + run..done + run + GROUP]
    {
        run += GROUP;
    }
    run
}

/// How many nodes are equal from these places on.
fn equal_run(was: &[u32], left: usize, list: &[u32], done: usize) -> usize
    requires left { left ≤ length was.now }
    requires done { done ≤ length list.now }
    ensures run { AreEqualFrom was.now left list.now done result }
    ensures apart { left + result < length was.now → done + result < length list.now
        → slice_index was.now (left + result) ≢ slice_index list.now (done + result) }
{
    // at their beginning the lists differ somewhere
    if left > 0 && was[left..] == list[done..] {
        return was.len() - left;
    }
    let mut run = group_run(was, left, list, done);
    while left + run < was.len() && done + run < list.len() && was[left + run] == list[done + run] {
        run += 1;
    }
    run
}

/// Whether the next node of the list comes before the next of the last list.
fn is_first(was: &[u32], left: usize, list: &[u32], done: usize) -> bool
    requires left { left ≤ length was.now }
    requires done { done ≤ length list.now }
    ensures { IsTrue result ↔ (done < length list.now) ×
        ((left ≡ length was.now) ⊎ (slice_index list.now done < slice_index was.now left)) }
{
    done < list.len() && (left == was.len() || list[done] < was[left])
}

/// Makes an order of the nodes of the last list one of the nodes of this list. It is told where the last choice stood.
/// The result is the index of the first node that arrived, or the length of the list if none did.
fn follow(
    since: &mut [u64],
    order: &mut VecDeque<u32>,
    was: &[u32],
    list: &[u32],
    now: u64,
    last: Position,
) -> usize
    requires list { IsChoiceList (length since.old) list.now }
    requires by_age { IsByAge now since.old was.now order.old.items }
    requires room { 2 * length since.old ≤ deque_capacity order.old }
    ensures by_age { IsByAge (now + 1) since.new list.now order.new.items }
    ensures ages { ages_at (now + 1) since.new list.now ≡ aged list.now (ages_at now since.old was.now) }
    ensures room { deque_capacity order.new ≡ deque_capacity order.old }
{
    let mut left = equal_start(was, list, last.index);
    let mut done = left;
    let mut first = list.len();
    while left < was.len() || done < list.len() {
        let run = equal_run(was, left, list, done);
        left += run;
        done += run;
        if is_first(was, left, list, done) {
            arrive(since, order, list[done], now);
            first = first.min(done);
            done += 1;
        } else if left < was.len() {
            leave(since, order, was[left], last.place);
            left += 1;
        }
    }
    first
}

/// The place in the order of the least of the newest nodes. Mostly these are few, so it looks at the last ones first.
fn place_of_newest(since: &[u64], order: &VecDeque<u32>) -> usize
    requires some { 0 < length order.now.items }
    requires few { length since.now < 2 ^ 32 }
    requires below { All (λ n. n < length since.now) order.now.items }
    requires ranked { AllPairs (λ (a b : ℕ). age_rank since.now a < age_rank since.now b) order.now.items }
    ensures { IsPlaceOfNewest since.now order.now.items result }
{
    let end = order.len() - 1;
    let pick = since[order[end] as usize];
    let mut place = end;
    while place > 0 && end - place < FEW {
        let node = order[place - 1];
        if since[node as usize] < pick {
            return place;
        }
        place -= 1;
    }
    count_older(since, order, pick, 0)
}

/// The index of the node in an ascending list. It may be the one that is guessed.
fn index_of(list: &[u32], node: u32, guess: usize) -> usize
    requires ascending { AllPairs (λ (a b : ℕ). a < b) list.now }
    requires there { (k : ℕ) × (k < length list.now) × (slice_index list.now k ≡ node) }
    ensures within { result < length list.now }
    ensures here { slice_index list.now result ≡ node }
{
    if guess < list.len() && list[guess] == node {
        return guess;
    }
    match list.binary_search(&node) {
        Ok(index) => index,
        Err(index) => index,
    }
}

/// Replaces the list by another one, for which there is room.
fn copy_into(to: &mut Vec<u32>, list: &[u32])
    requires room { length list.now ≤ vec_capacity to.old }
    ensures items { to.new.items ≡ list.now }
    ensures room { vec_capacity to.old ≤ vec_capacity to.new }
{
    to.clear();
    // there is room, so this succeeds
    let _ = to.extend_from_slice(list);
}

impl Presence {
    /// Of no nodes.
    pub(crate) fn new(alloc: Global) -> Presence
        ensures presence { IsPresence 0 result }
        ensures since { result.since.items ≡ [] }
        ensures list { result.list.items ≡ [] }
    {
        Presence {
            since: Vec::new(alloc),
            list: Vec::new(alloc),
            order: VecDeque::new(alloc),
        }
    }

    /// Makes room for lists of so many nodes.
    pub(crate) fn reserve(&mut self, count: u32) -> Result<(), AllocError>
        ensures since { self.new.since.items ≡ self.old.since.items }
        ensures list { self.new.list.items ≡ self.old.list.items }
        ensures presence { (now : ℕ) → IsPresence now self.old → IsPresence now self.new }
        ensures room { OnOk result (HasRoomForAges count self.new) }
    {
        self.since.reserve_exact(count as usize)?;
        self.list.reserve_exact(count as usize)?;
        self.order.reserve_exact(2 * count as usize)
    }

    /// Begins again for lists of so many nodes, of which none is present.
    pub(crate) fn reset(&mut self, count: u32)
        requires room { HasRoomForAges count self.old }
        ensures presence { (now : ℕ) → IsPresence now self.new }
        ensures ages { (now : ℕ) → ages_at now self.new.since.items self.new.list.items ≡ replicate count 0 }
    {
        self.list.clear();
        self.order.clear();
        self.since.clear();
        for _node in 0..count {
            self.since.push_reserved(0);
        }
    }

    /// Records one more pick, from this list, after so many. It is told where the last choice stood, and the result is
    /// where the list's newest node probably stands in it.
    pub(crate) fn note(&mut self, list: &[u32], now: u64, last: Position) -> usize
        requires list { IsChoiceList (length self.old.since.items) list.now }
        requires presence { IsPresence now self.old }
        ensures presence { IsPresence (now + 1) self.new }
        ensures list { self.new.list.items ≡ list.now }
        ensures ages { ages_at (now + 1) self.new.since.items self.new.list.items ≡
            aged list.now (ages_at now self.old.since.items self.old.list.items) }
        ensures count { length self.new.since.items ≡ length self.old.since.items }
    {
        let first = follow(
            &mut self.since,
            &mut self.order,
            &self.list,
            list,
            now,
            last,
        );
        copy_into(&mut self.list, list);
        first
    }

    /// The index of the list's oldest node, the least of equally old ones.
    pub(crate) fn oldest(&self) -> usize
        requires some { 0 < length self.now.list.items }
        requires by_age { (now : ℕ) × IsByAge now self.now.since.items self.now.list.items self.now.order.items }
        ensures best { (now : ℕ)
            → IsByAge now self.now.since.items self.now.list.items self.now.order.items
            → result ≡ first_greatest
            (map (slice_index (ages_at now self.now.since.items self.now.list.items)) self.now.list.items) }
        ensures within { result < length self.now.list.items }
    {
        // nothing says where it stands; a list of one node needs no search so
        index_of(&self.list, self.order[0], 0)
    }

    /// Where the list's newest node stands, the least of equally new ones. Its index may be the one that is guessed.
    pub(crate) fn newest(&self, guess: usize) -> Position
        requires some { 0 < length self.now.list.items }
        requires by_age { (now : ℕ) × IsByAge now self.now.since.items self.now.list.items self.now.order.items }
        ensures best { (now : ℕ)
            → IsByAge now self.now.since.items self.now.list.items self.now.order.items
            → result.index ≡ first_least
            (map (slice_index (ages_at now self.now.since.items self.now.list.items)) self.now.list.items) }
        ensures within { result.index < length self.now.list.items }
    {
        let place = place_of_newest(&self.since, &self.order);
        let index = index_of(&self.list, self.order[place], guess);
        Position { index, place }
    }
}
