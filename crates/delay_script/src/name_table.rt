//! Names, of which a table finds the place.

ghost use Rattle.std.specs.Prelude.{◌≡◌, ◌<◌, ◌^◌, length, IfOk, IfSome, IfNone, Contains};
ghost use Rattle.delay_script.specs.NameTables.{IsNodePlace};

use chp_base::Name;
use std::alloc::{AllocError, Global};
use std::collections::BTreeMap;
use std::marker::Model;

/// The names of a net's nodes, with a place of each. They are seen as their list. Whoever writes a rule file chooses
/// the names, so the table is in their order: no choice of names makes it slow.
#[derive(Drop)]
pub struct NameTable<'a> {
    names: &'a [Name],
    places: BTreeMap<&'a [u8], u32>,
}

impl<'a> Model for NameTable<'a> {
    ghost use Rattle.std.specs.Prelude.{List, ℕ};
    ghost use Rattle.delay_script.specs.NameTables.{IsNameTable};

    ghost Value = { List (List ℕ) };

    ghost view = { λ t. t.names.now };

    ghost invariant = { λ t. IsNameTable t.names.now t.places };
}

impl<'a> NameTable<'a> {
    /// The names with a table of their places.
    pub fn from_names(alloc: Global, names: &'a [Name]) -> Result<NameTable<'a>, AllocError>
        requires { length names.now < 2 ^ 32 }
        ensures { IfOk result (λ table. table ≡ names.now) }
    {
        let mut places = BTreeMap::new(alloc);
        for (place, name) in names.iter().enumerate() {
            places.insert(name.bytes(), place as u32)?;
        }
        Ok(NameTable { names, places })
    }

    /// How many names there are.
    pub fn len(&self) -> usize
        ensures { result ≡ length self.now }
    {
        self.names.len()
    }

    /// The place of the name, or None where it isn't one of these.
    pub fn find(&self, name: &Name) -> Option<u32>
        ensures some { IfSome result (IsNodePlace self.now name.now) }
        ensures none { IfNone result (¬ Contains self.now name.now) }
    {
        self.places.get(name.bytes()).copied()
    }
}
