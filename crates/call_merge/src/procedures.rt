//! Procedures, found by their names.

ghost use Rattle.std.specs.Prelude.{◌≡◌, [], IfSome, IfNone, Some, None};
ghost use Rattle.chp_syntax.specs.declared.tree.Ident.{Ident};
ghost use Rattle.chp_syntax.specs.View.{procedure_of};
ghost use Rattle.call_merge.specs.CallForms.{capped_forms, statement_forms};
ghost use Rattle.call_merge.specs.Inlining.{procedure_named, body_or_call};
ghost use Rattle.call_merge.specs.Bodies.{procedures_in};

use crate::bodies::{Body, Procedures};
use chp_base::{Name, Symbols};
use std::alloc::Global;

impl Procedures {
    /// No procedures. It takes no memory.
    pub(crate) fn new(alloc: Global) -> Procedures
        ensures { procedures_in result ≡ [] }
    {
        Procedures {
            names: Symbols::new(alloc),
            bodies: Vec::new(alloc),
        }
    }

    /// The procedure of a name, and the number of its body's forms.
    pub(crate) fn find(&self, name: &Name) -> Option<&Body>
        ensures some { IfSome result (λ b. procedure_named (procedures_in self.now) name.now ≡
            Some (procedure_of b.now.procedure)) }
        ensures none { IfNone result (procedure_named (procedures_in self.now) name.now ≡ None) }
    {
        let place = self.names.find(name)?;
        Some(&self.bodies[place as usize])
    }

    /// The number of forms of what a call of this name is replaced by.
    pub(crate) fn forms_of(&self, name: &Name) -> u64
        ensures { (of : Ident) → of.name ≡ name.now → result
            ≡ capped_forms (statement_forms (body_or_call (procedure_named (procedures_in self.now) of.name) of)) }
    {
        match self.find(name) {
            Some(body) => body.forms,
            None => 1,
        }
    }
}
