//! Guards of the shapes that a selection has, and the two guards of one node.

ghost use Rattle.std.specs.Prelude.{◌≡◌, ◌≢◌, ◌<◌, ◌≤◌, ◌+◌, ◌-◌, ◌*◌, ℕ, [], ◌∷◌, ◌++◌, map, length, take, drop, slice_index_or, OnOk, OnErr, IfOk};
ghost use Rattle.prs_core.specs.Nets.{NodeRules, with_rules, is_high, IsAlone, IsBelow};
ghost use Rattle.prs_core.specs.Pairs.{lows};
ghost use Rattle.cell_select.specs.Selections.{all_false};
ghost use Rattle.cell_select.specs.PortNodes.{pairs_of};

use prs_core::{Guard, Literal, Rules, Term, all_of, high, low};
use std::alloc::{AllocError, Global};

/// Replaces both guards of the node, if they could be made. It takes them as they were made, so that none of the
/// functions that write rules owns one guard where making the other one may fail.
pub fn set_both(
    rules: &mut Rules,
    node: u32,
    up: Result<Guard, AllocError>,
    down: Result<Guard, AllocError>,
) -> Result<(), AllocError>
    requires node { node < length rules.old.up }
    requires up { IfOk up (IsBelow (length rules.old.up)) }
    requires down { IfOk down (IsBelow (length rules.old.up)) }
    ensures made { (wanted : NodeRules) → IfOk up (λ guard. guard ≡ wanted.up) →
        IfOk down (λ guard. guard ≡ wanted.down) → OnOk result (rules.new ≡ with_rules node wanted rules.old) }
    ensures kept { OnErr result (rules.new ≡ rules.old) }
    ensures nodes { length rules.new.up ≡ length rules.old.up }
    ensures others { (other : ℕ) → other ≢ node → IsAlone rules.old rules.new other }
{
    let up = up?;
    let down = down?;
    rules.set_up(node, up);
    rules.set_down(node, down);
    Ok(())
}

/// Adds the term of one literal.
fn add_term(alloc: Global, terms: &mut Vec<Term>, literal: Literal) -> Result<(), AllocError>
    ensures { OnOk result (terms.new.items ≡ terms.old.items ++ (literal ∷ []) ∷ []) }
{
    let literals = Vec::from_slice(alloc, &[literal])?;
    terms.push(Term::new(literals).unwrap())?;
    Ok(())
}

/// The guard that holds where one of two literals does.
pub fn either(alloc: Global, first: Literal, second: Literal) -> Result<Guard, AllocError>
    ensures { IfOk result (λ guard. guard ≡ (first ∷ []) ∷ (second ∷ []) ∷ []) }
{
    let mut terms = Vec::new(alloc);
    add_term(alloc, &mut terms, first)?;
    add_term(alloc, &mut terms, second)?;
    Ok(Guard::new(terms))
}

/// The guard that holds where one of the nodes is high.
pub fn some_high(alloc: Global, nodes: &[u32]) -> Result<Guard, AllocError>
    ensures { IfOk result (λ guard. guard ≡ map (λ node. is_high node ∷ []) nodes.now) }
{
    let mut terms = Vec::new(alloc);
    for node in nodes {
        add_term(alloc, &mut terms, high(*node))?;
    }
    Ok(Guard::new(terms))
}

/// The guard that holds where the first literal does and all of the nodes are low.
pub fn with_lows(alloc: Global, first: Literal, nodes: &[u32]) -> Result<Guard, AllocError>
    ensures { IfOk result (λ guard. guard ≡ (first ∷ lows nodes.now) ∷ []) }
{
    let mut literals = Vec::new(alloc);
    literals.push(first)?;
    for node in nodes {
        literals.push(low(*node))?;
    }
    all_of(alloc, &literals)
}

/// The guard that holds where all of the nodes are low. There is at least one node.
pub fn all_low(alloc: Global, nodes: &[u32]) -> Result<Guard, AllocError>
    requires { 0 < length nodes.now }
    ensures { IfOk result (λ guard. guard ≡ lows nodes.now ∷ []) }
{
    with_lows(alloc, low(nodes[0]), &nodes[1..])
}

/// Adds the literals that require the guards from one number up to another to be false.
fn want_false(
    literals: &mut Vec<Literal>,
    rails: &[u32],
    from: usize,
    to: usize,
) -> Result<(), AllocError>
    requires order { from ≤ to }
    requires within { 2 * to ≤ length rails.now }
    ensures { OnOk result (literals.new.items ≡ literals.old.items
        ++ all_false (take (to - from) (drop from (pairs_of rails.now)))) }
{
    for guard in from..to {
        literals.push(high(rails[2 * guard + 1]))?;
    }
    Ok(())
}

/// The guard that holds where all guards are false.
pub fn none_true(alloc: Global, rails: &[u32]) -> Result<Guard, AllocError>
    requires pairs { (guards : ℕ) × (length rails.now ≡ 2 * guards) × (0 < guards) }
    ensures { IfOk result (λ guard. guard ≡ all_false (pairs_of rails.now) ∷ []) }
{
    let mut literals = Vec::new(alloc);
    want_false(&mut literals, rails, 0, rails.len() / 2)?;
    all_of(alloc, &literals)
}

/// The guard that holds where this guard is true and all others are false.
pub fn only_true(alloc: Global, rails: &[u32], guard: usize) -> Result<Guard, AllocError>
    requires pairs { (guards : ℕ) × (length rails.now ≡ 2 * guards) × (guard < guards) }
    ensures { IfOk result (λ g. g ≡ (all_false (take guard (pairs_of rails.now))
        ++ is_high (slice_index_or rails.now (2 * guard) 0) ∷ all_false (drop (guard + 1) (pairs_of rails.now))) ∷ []) }
{
    let mut literals = Vec::new(alloc);
    want_false(&mut literals, rails, 0, guard)?;
    literals.push(high(rails[2 * guard]))?;
    want_false(&mut literals, rails, guard + 1, rails.len() / 2)?;
    all_of(alloc, &literals)
}
