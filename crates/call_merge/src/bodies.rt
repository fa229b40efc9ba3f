//! The procedures of a program by name, with the numbers of their bodies' forms.

ghost use Rattle.std.specs.Prelude.{◌≡◌, map};
ghost use Rattle.chp_syntax.specs.View.{statement_of};
ghost use Rattle.call_merge.specs.CallForms.{capped_forms, statement_forms};

use chp_base::Symbols;
use chp_syntax::Proc;

/// A procedure and the number of forms of its body.
#[derive(Drop)]
pub(crate) struct Body {
    pub procedure: Proc,
    pub forms: u64,
    pub ghost counts: { forms ≡ capped_forms (statement_forms (statement_of procedure.body)) },
}

/// Procedures, none of a name twice, and a table of their names.
#[derive(Drop)]
pub(crate) struct Procedures {
    pub names: Symbols,
    pub bodies: Vec<Body>,
    pub ghost in_order: { names ≡ map (λ b. b.procedure.name.name) bodies.items },
}
