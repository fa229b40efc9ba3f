//! Declarations, of which the first one of a name is found by a table.

ghost use Rattle.std.specs.Prelude.{◌≡◌, IfOk, option_map};
ghost use Rattle.width_check.specs.Places.{declaration};

use chp_base::Name;
use chp_syntax::Decl;
use std::alloc::{AllocError, Global};
use std::collections::HashMap;
use std::marker::Model;

/// Declarations, with the place of the first one of each name. They are seen as the list of the declarations.
#[derive(Drop)]
pub(crate) struct FirstDecls<'a> {
    decls: &'a [Decl],
    places: HashMap<Name, usize>,
}

impl<'a> Model for FirstDecls<'a> {
    ghost use Rattle.std.specs.Prelude.{List};
    ghost use Rattle.std.specs.HashMap.{get};
    ghost use Rattle.std.specs.Str.{bytes_eq};
    ghost use Rattle.chp_syntax.specs.declared.tree.Decl.{Decl};
    ghost use Rattle.call_merge.specs.FirstPlaces.{AreFirstPlaces};

    ghost Value = { List Decl };

    ghost view = { λ f. f.decls.now };

    ghost invariant = { λ f. AreFirstPlaces f.decls.now (get bytes_eq f.places) };
}

impl<'a> FirstDecls<'a> {
    /// The declarations with a table of their names.
    pub(crate) fn new(alloc: Global, decls: &'a [Decl]) -> Result<FirstDecls<'a>, AllocError>
        ensures { IfOk result (λ made. made ≡ decls.now) }
    {
        let mut places = HashMap::new(alloc);
        for (place, decl) in decls.iter().enumerate() {
            if !places.contains_key(&decl.name.name) {
                places.insert(decl.name.name.copy()?, place)?;
            }
        }
        Ok(FirstDecls { decls, places })
    }

    /// The first declaration of the name.
    pub(crate) fn find(&self, name: &Name) -> Option<&Decl>
        ensures { option_map (λ d. d.now) result ≡ declaration self.now name.now }
    {
        let place = self.places.get(name)?;
        Some(&self.decls[*place])
    }
}
