//! The guards of drivers.

ghost use Rattle.std.specs.Prelude.{◌≡◌, ◌<◌, ◌∷◌, ◌++◌, [], false, map, length, IfOk, OnOk};
ghost use Rattle.prs_core.specs.Nets.{IsFilled, is_high, is_low};
ghost use Rattle.net_compose.specs.Circuits.{side};
ghost use Rattle.net_compose.specs.Shapes.{all_wanted, shaped};

use crate::driver::Driver;
use crate::shape::Shape;
use function_blocks::{Bit, gate_neutral, gate_rows};
use prs_core::{Guard, Literal, Term, all_of, high, low};
use std::alloc::{AllocError, Global};

/// The guard that holds where all of the first literals hold, and where all of the second do.
fn one_of(alloc: Global, first: &[Literal], second: &[Literal]) -> Result<Guard, AllocError>
    requires first { 0 < length first.now }
    requires second { 0 < length second.now }
    ensures { IfOk result (λ guard. guard ≡ first.now ∷ second.now ∷ []) }
{
    let left = Vec::from_slice(alloc, first)?;
    let right = Vec::from_slice(alloc, second)?;
    let mut terms = Vec::new(alloc);
    terms.push(Term::new(left).unwrap())?;
    terms.push(Term::new(right).unwrap())?;
    Ok(Guard::new(terms))
}

/// The guard that holds where two bits have the same value.
fn alike(alloc: Global, left: Bit, right: Bit) -> Result<Guard, AllocError>
    ensures { IfOk result (λ guard. guard
        ≡ (is_high left.t ∷ is_high right.t ∷ []) ∷ (is_high left.f ∷ is_high right.f ∷ []) ∷ []) }
{
    let ones = [high(left.t), high(right.t)];
    let zeros = [high(left.f), high(right.f)];
    one_of(alloc, &ones, &zeros)
}

/// The guard that holds where one of the nodes is high.
fn some_high(alloc: Global, nodes: &[u32]) -> Result<Guard, AllocError>
    ensures { IfOk result (λ guard. guard ≡ map (λ k. is_high k ∷ []) nodes.now) }
{
    let mut terms = Vec::new(alloc);
    for node in nodes {
        let mut literals = Vec::new(alloc);
        literals.push(high(*node))?;
        terms.push(Term::new(literals).unwrap())?;
    }
    Ok(Guard::new(terms))
}

/// Adds the literals that require all of the nodes to be high, or low.
fn want(nodes: &[u32], value: bool, literals: &mut Vec<Literal>) -> Result<(), AllocError>
    ensures { OnOk result (literals.new.items ≡ literals.old.items ++ all_wanted value nodes.now) }
{
    for node in nodes {
        literals.push(Literal {
            node: *node,
            high: value,
        })?;
    }
    Ok(())
}

/// The guard that holds where all of the nodes are high, or low.
fn all_at(alloc: Global, nodes: &[u32], value: bool) -> Result<Guard, AllocError>
    requires { 0 < length nodes.now }
    ensures { IfOk result (λ guard. guard ≡ all_wanted value nodes.now ∷ []) }
{
    let mut literals = Vec::new(alloc);
    want(nodes, value, &mut literals)?;
    all_of(alloc, &literals)
}

/// The guard that holds where the literal holds and all of the nodes are low.
fn with_lows(alloc: Global, literal: Literal, nodes: &[u32]) -> Result<Guard, AllocError>
    ensures { IfOk result (λ guard. guard ≡ (literal ∷ all_wanted false nodes.now) ∷ []) }
{
    let mut literals = Vec::new(alloc);
    literals.push(literal)?;
    want(nodes, false, &mut literals)?;
    all_of(alloc, &literals)
}

/// The guard of this form over these nodes. None of its terms is empty.
fn shaped(alloc: Global, shape: Shape, nodes: &[u32]) -> Result<Guard, AllocError>
    requires { IsFilled (shaped shape nodes.now) }
    ensures { IfOk result (λ guard. guard ≡ shaped shape nodes.now) }
{
    match shape {
        Shape::Never => Ok(Guard::new(Vec::new(alloc))),
        Shape::One { literal } => all_of(alloc, &[literal]),
        Shape::Two { left, right } => all_of(alloc, &[left, right]),
        Shape::Either { left, right } => one_of(alloc, &[left], &[right]),
        Shape::Alike { left, right } => alike(alloc, left, right),
        Shape::Each => some_high(alloc, nodes),
        Shape::Highs => all_at(alloc, nodes, true),
        Shape::Lows => all_at(alloc, nodes, false),
        Shape::With { literal } => with_lows(alloc, literal, nodes),
        Shape::Rows {
            function,
            one,
            left,
            right,
            below,
        } => gate_rows(alloc, function, one, left, right, below),
        Shape::Neutral { left, right, below } => gate_neutral(alloc, left, right, below),
    }
}

/// One of the two guards of a node that this drives.
pub(crate) fn guard_of(alloc: Global, driver: &Driver, up: bool) -> Result<Guard, AllocError>
    requires { IsFilled (side up driver.now) }
    ensures { IfOk result (λ guard. guard ≡ side up driver.now) }
{
    let pattern = &driver.pattern;
    shaped(alloc, pattern.shape(up), pattern.listed())
}
