//! The names of nodes, each with its number.

ghost use Rattle.std.specs.Prelude.{◌≡◌, ◌++◌, ◌∷◌, ◌<◌, ◌^◌, [], length, None, IfOk, OnOk, OnErr};
ghost use Rattle.prs_file.specs.Indexes.{place_in, hash_of, slot_in, found_by, IsIndexed};

use chp_base::Name;
use std::alloc::{AllocError, Global};
use std::collections::BTreeMap;
use std::marker::Model;

/// The names of nodes in order of their numbers, with an index that finds the number of a name. Its view is the list
/// of names.
///
/// A name is looked for first in a slot that its bytes choose, and is found there if the slot was free when it came.
/// Whoever writes a file chooses its names, so all other names are in a table in the order of the names: no choice of
/// names makes the index slow, and the work of finding one grows at most with the logarithm of their number.
#[derive(Drop)]
pub struct NodeIndex {
    names: Vec<Name>,
    slots: Vec<u32>,
    others: BTreeMap<Vec<u8>, u32>,
}

impl Model for NodeIndex {
    ghost use Rattle.std.specs.Prelude.{List, ℕ};
    ghost use Rattle.prs_file.specs.Indexes.{IsIndexed};

    ghost Value = { List (List ℕ) };

    ghost view = { λ i. i.names.items };

    ghost invariant = { λ i. IsIndexed i.names.items i.slots.items i.others };
}

/// The most slots, four for each node of the largest file.
const MOST_SLOTS: usize = 262_144;

/// What a free slot has, which is the number of no node.
const FREE: u32 = u32::MAX;

fn hash(name: &[u8]) -> u32
    ensures { result ≡ hash_of name.now }
{
    let mut hash = 0u32;
    for byte in name {
        hash = hash.wrapping_mul(11).wrapping_add(u32::from(*byte));
    }
    hash
}

/// The slot of a name, given the number of slots.
fn slot_of(count: usize, name: &[u8]) -> usize
    requires { 0 < count }
    ensures value { result ≡ slot_in count name.now }
    ensures within { result < count }
{
    hash(name) as usize & (count - 1)
}

fn free_slots(alloc: Global, count: usize) -> Result<Vec<u32>, AllocError>
    ensures { IfOk result (λ slots. 0 < length slots.items) }
{
    let count = count.clamp(1, MOST_SLOTS).next_power_of_two();
    vec![in alloc; FREE; count]
}

/// The number of the name by these slots and the other numbers, or None where there is no such name.
fn find_by(
    names: &[Name],
    slots: &[u32],
    others: &BTreeMap<Vec<u8>, u32>,
    name: &[u8],
) -> Option<u32>
    requires { 0 < length slots.now }
    ensures { result ≡ found_by names.now slots.now others.now name.now }
{
    let guess = slots[slot_of(slots.len(), name)];
    if guess as usize >= names.len() {
        return None;
    }
    if names[guess as usize].bytes() == name {
        return Some(guess);
    }
    others.get(name).copied()
}

/// Notes that the name gets the next number: in its slot if that is free, and else among the other numbers.
fn note(
    names: &[Name],
    slots: &mut [u32],
    others: &mut BTreeMap<Vec<u8>, u32>,
    alloc: Global,
    name: &Name,
) -> Result<(), AllocError>
    requires indexed { IsIndexed names.now slots.old others.old }
    requires fresh { place_in names.now name.now ≡ None }
    requires room { length names.now < 2 ^ 32 }
    ensures ok { OnOk result (IsIndexed (names.now ++ name.now ∷ []) slots.new others.new) }
    ensures err { OnErr result (IsIndexed names.now slots.new others.new) }
{
    let number = names.len() as u32;
    let slot = slot_of(slots.len(), name.bytes());
    if slots[slot] < number {
        let key = Vec::from_slice(alloc, name.bytes())?;
        others.insert(key, number)?;
    } else {
        slots[slot] = number;
    }
    Ok(())
}

impl NodeIndex {
    /// No names, with slots for about so many.
    pub fn new(alloc: Global, count: usize) -> Result<NodeIndex, AllocError>
        ensures { IfOk result (λ index. index ≡ []) }
    {
        let slots = free_slots(alloc, count)?;
        Ok(NodeIndex {
            names: Vec::new(alloc),
            slots,
            others: BTreeMap::new(alloc),
        })
    }

    /// The number of the node with this name, or None where there is none.
    pub fn find(&self, name: &[u8]) -> Option<u32>
        ensures { result ≡ place_in self.now name.now }
    {
        find_by(&self.names, &self.slots, &self.others, name)
    }

    /// The number of names.
    pub fn len(&self) -> usize
        ensures { result ≡ length self.now }
    {
        self.names.len()
    }

    /// The names in order of their numbers.
    pub fn into_names(self) -> Vec<Name>
        ensures { result.items ≡ self }
    {
        self.names
    }

    /// Gives the name the next number.
    pub fn add(&mut self, name: Name) -> Result<(), AllocError>
        requires fresh { place_in self.old name ≡ None }
        requires room { length self.old < 2 ^ 32 }
        ensures ok { OnOk result (self.new ≡ self.old ++ name ∷ []) }
        ensures err { OnErr result (self.new ≡ self.old) }
    {
        let alloc = *self.names.allocator();
        self.names.reserve(1)?;
        note(&self.names, &mut self.slots, &mut self.others, alloc, &name)?;
        self.names.push(name)?;
        Ok(())
    }
}
