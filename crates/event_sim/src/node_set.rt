//! Sets of nodes.

ghost use Rattle.std.specs.Prelude.{◌≡◌, ℕ, ◌<◌, ◌≤◌, ◌+◌, ◌-◌, ◌^◌, List, Bool, true, false, length, drop, replicate, slice_index, slice_set, vec_len, Err, IfOk};
ghost use Rattle.std.specs.List.{insert, remove};
ghost use Rattle.std.specs.List.Sorted.{IsSearchInRange};
ghost use Rattle.event_sim.specs.Locality.{is_member, members, IsListPlace};

use std::alloc::{AllocError, Global};
use std::marker::Model;

/// How many nodes count as near the front of a list.
const NEAR: usize = 16;

/// Some of the nodes below a number, with their list in ascending order. It is seen as a mark for each node. The list
/// is kept at the end of its slots, so that a change near its front, as where the least node is picked, moves little.
#[derive(Drop)]
pub(crate) struct NodeSet {
    marks: Vec<bool>,
    slots: Vec<u32>,
    from: usize,
    /// The index at which a node that leaves is looked for first.
    leaving: usize,
}

impl Model for NodeSet {
    ghost use Rattle.std.specs.Prelude.{List, Bool};
    ghost use Rattle.event_sim.specs.Locality.{IsNodeSet};

    ghost Value = { List Bool };

    ghost view = { λ s. s.marks.items };

    ghost invariant = { λ s. IsNodeSet s.marks.items s.slots.items s.from };
}

fn no_marks(alloc: Global, count: usize) -> Result<Vec<bool>, AllocError>
    ensures { IfOk result (λ v. v.items ≡ replicate count false) }
{
    let mut marks = Vec::with_capacity(alloc, count)?;
    for _node in 0..count {
        marks.push(false)?;
    }
    Ok(marks)
}

fn no_slots(alloc: Global, count: usize) -> Result<Vec<u32>, AllocError>
    ensures { IfOk result (λ v. v.items ≡ replicate count 0) }
{
    let mut slots = Vec::with_capacity(alloc, count)?;
    for _slot in 0..count {
        slots.push(0)?;
    }
    Ok(slots)
}

/// The list that begins at this slot.
fn list_from(slots: &[u32], from: usize) -> &[u32]
    requires { from ≤ length slots.now }
    ensures { result.now ≡ drop from slots.now }
{
    &slots[from..]
}

/// The index of the node in the list of a set, or the index at which it would be inserted. Where the least node is
/// picked, it is mostly near the front.
fn place_in(list: &[u32], node: u32) -> Result<usize, usize>
    ensures within { IsSearchInRange result (length list.now) }
    ensures place { (marks : List Bool) → list.now ≡ members marks → IsListPlace list.now node result }
{
    if list.len() > NEAR && node <= list[NEAR - 1] {
        return list[..NEAR].binary_search(&node);
    }
    list.binary_search(&node)
}

/// The same, where the node is looked for at one index first.
fn place_of(list: &[u32], node: u32, guess: usize) -> Result<usize, usize>
    ensures within { IsSearchInRange result (length list.now) }
    ensures place { (marks : List Bool) → list.now ≡ members marks → IsListPlace list.now node result }
{
    if guess < list.len() && list[guess] == node {
        return Ok(guess);
    }
    place_in(list, node)
}

/// Inserts the node at an index of the list that begins at this slot; the list then begins one slot earlier.
fn insert_at(slots: &mut Vec<u32>, from: usize, place: usize, node: u32)
    requires room { 0 < from }
    requires place { from + place ≤ vec_len slots.old }
    ensures list { drop (from - 1) slots.new.items ≡ insert (drop from slots.old.items) place node }
    ensures count { vec_len slots.new ≡ vec_len slots.old }
{
    slots[from - 1] = node;
    slots[from - 1..from + place].rotate_left(1);
}

/// Removes the node at an index of the list that begins at this slot; the list then begins one slot later.
fn remove_at(slots: &mut Vec<u32>, from: usize, place: usize)
    requires place { from + place < vec_len slots.old }
    ensures list { drop (from + 1) slots.new.items ≡ remove (drop from slots.old.items) place }
    ensures count { vec_len slots.new ≡ vec_len slots.old }
{
    slots[from..from + place + 1].rotate_left(place);
}

/// Moves what stands between two slots by one slot towards the first, so that the second becomes free.
fn free_slot(slots: &mut Vec<u32>, place: usize, to: usize)
    requires place { place < vec_len slots.old }
    requires to { to < vec_len slots.old }
    ensures count { vec_len slots.new ≡ vec_len slots.old }
    ensures before { (k : ℕ) → k < place → k < to → slice_index slots.new.items k ≡ slice_index slots.old.items k }
    ensures behind { (k : ℕ) → place < k → to < k → slice_index slots.new.items k ≡ slice_index slots.old.items k }
    ensures down { (k : ℕ) → place ≤ k → k < to → slice_index slots.new.items k ≡ slice_index slots.old.items (k + 1) }
    ensures up { (k : ℕ) → to ≤ k → k < place → slice_index slots.new.items (k + 1) ≡ slice_index slots.old.items k }
{
    if place < to {
        slots.copy_within(place + 1..to + 1, place);
    } else {
        slots.copy_within(to..place, to + 1);
    }
}

/// Replaces the node at an index of the list that begins at this slot by another one, which comes to stand at the index
/// `to`. What stands between the two moves by one.
fn put_over(slots: &mut Vec<u32>, from: usize, place: usize, to: usize, node: u32)
    requires place { from + place < vec_len slots.old }
    requires to { from + to < vec_len slots.old }
    ensures list { drop from slots.new.items ≡ insert (remove (drop from slots.old.items) place) to node }
    ensures count { vec_len slots.new ≡ vec_len slots.old }
{
    free_slot(slots, from + place, from + to);
    slots[from + to] = node;
}

/// Whether a list stays ascending where the node stands in it in place of the one at this index.
fn fits(list: &[u32], place: usize, node: u32) -> bool
    requires { place < length list.now }
    ensures before { result ≡ true → 0 < place → slice_index list.now (place - 1) < node }
    ensures behind { result ≡ true → place + 1 < length list.now → node < slice_index list.now (place + 1) }
{
    (place == 0 || list[place - 1] < node) && (place + 1 == list.len() || node < list[place + 1])
}

/// The index at which the node is inserted into the list of a set once the node at this index is gone. Half of the
/// readers that get a move by a move come to stand where the moved node stood, so that is tried first.
fn place_after(list: &[u32], place: usize, node: u32) -> usize
    requires { place < length list.now }
    ensures within { result < length list.now }
    ensures place { (marks : List Bool) → list.now ≡ members marks → is_member marks node ≡ false →
        IsListPlace (remove list.now place) node (Err result) }
{
    if fits(list, place, node) {
        return place;
    }
    match place_in(list, node) {
        Ok(_) => place,
        Err(to) => { if to <= place { to } else { to - 1 } }
    }
}

/// Inserts the node into the list of a set that does not have it.
fn put_in(slots: &mut Vec<u32>, from: usize, node: u32)
    requires room { 0 < from }
    requires from { from ≤ vec_len slots.old }
    ensures list { (marks : List Bool) → drop from slots.old.items ≡ members marks → node < length marks →
        is_member marks node ≡ false → drop (from - 1) slots.new.items ≡ members (slice_set marks node true) }
    ensures count { vec_len slots.new ≡ vec_len slots.old }
{
    match place_in(list_from(slots, from), node) {
        Ok(_) => {}
        Err(place) => insert_at(slots, from, place, node),
    }
}

/// Removes the node from the list of a set that has it, where it stands at this index perhaps.
fn take_out(slots: &mut Vec<u32>, from: usize, node: u32, guess: usize)
    requires from { from ≤ vec_len slots.old }
    ensures list { (marks : List Bool) → drop from slots.old.items ≡ members marks → node < length marks →
        is_member marks node ≡ true → drop (from + 1) slots.new.items ≡ members (slice_set marks node false) }
    ensures count { vec_len slots.new ≡ vec_len slots.old }
{
    match place_of(list_from(slots, from), node, guess) {
        Ok(place) => remove_at(slots, from, place),
        Err(_) => {}
    }
}

/// Puts a node that the list of a set does not have in place of one that it has, perhaps at this index.
fn exchange(slots: &mut Vec<u32>, from: usize, gone: u32, node: u32, guess: usize)
    requires from { from ≤ vec_len slots.old }
    ensures list { (marks : List Bool) → drop from slots.old.items ≡ members marks → gone < length marks →
        is_member marks gone ≡ true → node < length marks → is_member marks node ≡ false →
        drop from slots.new.items ≡ members (slice_set (slice_set marks gone false) node true) }
    ensures count { vec_len slots.new ≡ vec_len slots.old }
{
    match place_of(list_from(slots, from), gone, guess) {
        Ok(place) => {
            let to = place_after(list_from(slots, from), place, node);
            put_over(slots, from, place, to, node);
        }
        Err(_) => {}
    }
}

impl NodeSet {
    /// The empty set of nodes below this number.
    pub(crate) fn new(alloc: Global, count: usize) -> Result<NodeSet, AllocError>
        requires { count < 2 ^ 32 }
        ensures { IfOk result (λ s. s ≡ replicate count false) }
    {
        let marks = no_marks(alloc, count)?;
        let from = count + 1;
        let slots = no_slots(alloc, from)?;
        Ok(NodeSet {
            marks,
            slots,
            from,
            leaving: 0,
        })
    }

    /// Notes that the node at this index of the list is likely the next one to leave, so that it is found at once.
    pub(crate) fn leaves_at(&mut self, index: usize)
        ensures { self.new ≡ self.old }
    {
        self.leaving = index;
    }

    /// The nodes, in ascending order.
    pub(crate) fn nodes(&self) -> &[u32]
        ensures { result.now ≡ members self.now }
    {
        list_from(&self.slots, self.from)
    }

    /// Whether the node is in the set.
    pub(crate) fn contains(&self, node: u32) -> bool
        requires { node < length self.now }
        ensures { result ≡ is_member self.now node }
    {
        self.marks[node as usize]
    }

    /// Inserts the node into the set or removes it. It allocates no memory.
    pub(crate) fn set(&mut self, node: u32, member: bool)
        requires { node < length self.old }
        ensures { self.new ≡ slice_set self.old node member }
    {
        let place = node as usize;
        if self.marks[place] == member {
            return;
        }
        self.marks[place] = member;
        if member {
            put_in(&mut self.slots, self.from, node);
            self.from -= 1;
        } else {
            take_out(&mut self.slots, self.from, node, self.leaving);
            self.from += 1;
        }
    }

    /// Removes a node from the set and inserts another one. It allocates no memory.
    pub(crate) fn replace(&mut self, gone: u32, node: u32)
        requires gone { gone < length self.old }
        requires there { is_member self.old gone ≡ true }
        requires node { node < length self.old }
        requires new { is_member self.old node ≡ false }
        ensures { self.new ≡ slice_set (slice_set self.old gone false) node true }
    {
        exchange(&mut self.slots, self.from, gone, node, self.leaving);
        self.marks[gone as usize] = false;
        self.marks[node as usize] = true;
    }
}
