//! Guards of the shapes that templates use.

ghost use Rattle.std.specs.Prelude.{◌≡◌, ◌<◌, [], ◌∷◌, length, IfOk, true, false};

use crate::rule::{Guard, Literal, Term};
use std::alloc::{AllocError, Global};

/// The literal that wants the node high.
pub fn high(node: u32) -> Literal
    ensures { result ≡ record { node = node; high = true } }
{
    Literal { node, high: true }
}

/// The literal that wants the node low.
pub fn low(node: u32) -> Literal
    ensures { result ≡ record { node = node; high = false } }
{
    Literal { node, high: false }
}

/// The guard that holds where all these literals hold.
pub fn all_of(alloc: Global, literals: &[Literal]) -> Result<Guard, AllocError>
    requires { 0 < length literals.now }
    ensures { IfOk result (λ guard. guard ≡ literals.now ∷ []) }
{
    let literals = Vec::from_slice(alloc, literals)?;
    let term = Term::new(literals).unwrap();
    let mut terms = Vec::new(alloc);
    terms.push(term)?;
    Ok(Guard::new(terms))
}
