//! Tables of names.

ghost use Rattle.std.specs.Prelude.{◌≡◌, ◌++◌, ◌+◌, ◌-◌, ◌^◌, ◌<◌, ◌≤◌, List, [], ◌∷◌, length, slice_get, Some, IfOk, OnOk, OnErr, IfSome, IfNone, Contains};
ghost use Rattle.std.proofs.Common.{ap};
ghost use Rattle.std.specs.Cmp.{partial_equiv_from_equiv};
ghost use Rattle.std.specs.Cmp.Lexicographic.{bytes_decides, nat_list_eq_equiv};
ghost use Rattle.std.specs.Hash as fed;
ghost use Rattle.std.specs.List.{IsDistinct};
ghost use Rattle.std.specs.Str.{bytes_eq};
ghost use Rattle.chp_base.specs.NameKeys.{packed, name_key};
ghost use Rattle.chp_base.specs.Names.{IsNodeName};
ghost use Rattle.chp_base.specs.Symbols.{IfFresh, IfKnown};

use crate::name::Name;
use indexmap::IndexMap;
use std::alloc::{AllocError, Global};
use std::collections::BTreeMap;
use std::hash::{Hash, Hasher};
use std::marker::Model;

impl PartialEq for Name {
    ghost eq = { bytes_eq };

    ghost laws = { partial_equiv_from_equiv nat_list_eq_equiv };

    fn eq(&self, other: &Name) -> bool {
        self.bytes() == other.bytes()
    }
}

impl Eq for Name {
    ghost laws = { nat_list_eq_equiv };
}

impl Hash for Name {
    ghost hash_input = { fed.slice fed.u8 };

    ghost respects_eq = { λ a b h. ap (fed.slice fed.u8) ((bytes_decides a b).0 h) };

    fn hash<H: Hasher>(&self, state: &mut H) {
        self.bytes().hash(state);
    }
}

/// The place that a name has in a table, counted from 0.
#[derive(Clone, Copy)]
pub enum Added {
    /// The name was new, and is the last one now.
    Fresh(u32),
    /// The name was there.
    Known(u32),
}

/// The number whose digits to the base 256 are the bytes, the lowest first.
fn packed(bytes: &[u8]) -> u128
    requires { length bytes.now ≤ 16 }
    ensures { result ≡ packed bytes.now }
{
    let mut number = 0;
    for place in (0..bytes.len()).rev() {
        number = 256 * number + u128::from(bytes[place]);
    }
    number
}

/// The first 16 bytes of the name as a number, and its others.
fn name_key(name: &Name) -> (u128, u128)
    ensures key { result ≡ name_key name.now }
    ensures name { IsNodeName name.now }
{
    let bytes = name.bytes();
    match bytes.split_at_checked(16) {
        Some((first, others)) => (packed(first), packed(others)),
        None => (packed(bytes), 0),
    }
}

/// A table of names, seen as the list of its distinct names in the order in which they were added.
///
/// Whoever writes a text chooses its names. So the hash that keeps them is that of their places, and a name is found in
/// the order of the names, as numbers: no choice of names makes it slow.
#[derive(Drop)]
pub struct Symbols {
    names: IndexMap<u32, Name>,
    places: BTreeMap<(u128, u128), u32>,
}

impl Model for Symbols {
    ghost use Rattle.std.specs.Prelude.{List, ℕ, ◌<◌, ◌^◌, length, bytes_eq};
    ghost use Rattle.std.specs.List.{IsDistinct};
    ghost use Rattle.indexmap.specs.IndexMap.{values};
    ghost use Rattle.chp_base.specs.NameKeys.{IsNumbered, IsPlaced};

    ghost Value = { List (List ℕ) };

    ghost view = { λ s. values s.names };

    ghost invariant = { λ s. IsNumbered s.names × IsPlaced (values s.names) s.places × IsDistinct bytes_eq (values s.names)
        × (length s.names.entries < 2 ^ 32) };
}

impl Symbols {
    /// A table with no names. It takes no memory.
    pub fn new(alloc: Global) -> Symbols
        ensures { result ≡ [] }
    {
        Symbols {
            names: IndexMap::new(alloc),
            places: BTreeMap::new(alloc),
        }
    }

    /// Puts a new name behind the others. After want of memory the table is unchanged.
    fn push(&mut self, name: Name) -> Result<u32, AllocError>
        requires room { length self.old < 2 ^ 32 - 1 }
        requires fresh { ¬ Contains self.old name }
        ensures place { IfOk result (λ place. place ≡ length self.old) }
        ensures pushed { OnOk result (self.new ≡ self.old ++ name ∷ []) }
        ensures err { OnErr result (self.new ≡ self.old) }
    {
        let place = self.names.len() as u32;
        let key = name_key(&name);
        self.names.reserve(1)?;
        self.places.insert(key, place)?;
        self.names.insert(place, name)?;
        Ok(place)
    }

    /// Adds the name, unless it is there. After want of memory the table is unchanged.
    pub fn add(&mut self, name: Name) -> Result<Added, AllocError>
        requires { length self.old < 2 ^ 32 - 1 }
        ensures place { IfOk result (IfKnown (λ place. slice_get self.old place ≡ Some name)) }
        ensures kept { IfOk result (IfKnown (λ place. self.new ≡ self.old)) }
        ensures absent { IfOk result (IfFresh (λ place. ¬ Contains self.old name)) }
        ensures last { IfOk result (IfFresh (λ place. place ≡ length self.old)) }
        ensures added { IfOk result (IfFresh (λ place. self.new ≡ self.old ++ name ∷ [])) }
        ensures err { OnErr result (self.new ≡ self.old) }
    {
        if let Some(place) = self.find(&name) {
            return Ok(Added::Known(place));
        }
        let place = self.push(name)?;
        Ok(Added::Fresh(place))
    }

    /// The place of the name, or None where it isn't in the table.
    pub fn find(&self, name: &Name) -> Option<u32>
        ensures some { IfSome result (λ place. slice_get self.now place ≡ Some name.now) }
        ensures none { IfNone result (¬ Contains self.now name.now) }
        ensures distinct { IsDistinct bytes_eq self.now }
    {
        self.places.get(&name_key(name)).copied()
    }
}
