//! The OR of some nodes.

ghost use Rattle.std.specs.Prelude.{◌≡◌, ◌≢◌, ℕ, ◌<◌, [], ◌∷◌, All, map, length, OnOk, OnErr, IfOk};
ghost use Rattle.prs_core.specs.Nets.{with_rules, is_high, is_low, IsAlone, IsBelow};
ghost use Rattle.prs_core.specs.Pairs.{or_of, no_rules, lows};
ghost use Rattle.prs_core.specs.Parts.{Keeps};
ghost use Rattle.cell_variable.specs.VariableParts.{merge_part};

use crate::laws::variable_keeps;
use prs_core::{Guard, Rules, Term, all_of, high, low};
use std::alloc::{AllocError, Global};

/// The term that requires one node to be high.
fn high_term(alloc: Global, node: u32) -> Result<Term, AllocError>
    ensures { IfOk result (λ term. term ≡ is_high node ∷ []) }
{
    let literals = Vec::from_slice(alloc, &[high(node)])?;
    Ok(Term::new(literals).unwrap())
}

/// The guard that holds where one of the nodes is high.
fn some_high(alloc: Global, nodes: &[u32]) -> Result<Guard, AllocError>
    ensures { IfOk result (λ guard. guard ≡ map (λ node. is_high node ∷ []) nodes.now) }
{
    let mut terms = Vec::new(alloc);
    for node in nodes {
        terms.push(high_term(alloc, *node)?)?;
    }
    Ok(Guard::new(terms))
}

/// The guard that holds where all of the nodes are low. There is at least one node.
fn all_low(alloc: Global, nodes: &[u32]) -> Result<Guard, AllocError>
    requires { 0 < length nodes.now }
    ensures { IfOk result (λ guard. guard ≡ lows nodes.now ∷ []) }
{
    let mut literals = Vec::new(alloc);
    for node in nodes {
        literals.push(low(*node))?;
    }
    all_of(alloc, &literals)
}

/// Replaces both guards of the node.
fn set_both(rules: &mut Rules, node: u32, up: Guard, down: Guard)
    requires node { node < length rules.old.up }
    requires up { IsBelow (length rules.old.up) up }
    requires down { IsBelow (length rules.old.up) down }
    ensures made { rules.new ≡ with_rules node (record { up = up; down = down }) rules.old }
    ensures nodes { length rules.new.up ≡ length rules.old.up }
    ensures others { (other : ℕ) → other ≢ node → IsAlone rules.old rules.new other }
{
    rules.set_up(node, up);
    rules.set_down(node, down);
}

/// Writes the two guards of the OR of some nodes, and no others: it is high once one of them is, and low once none is.
/// For no nodes it has no rules afterwards. Where memory runs out, nothing is written.
#[tactic(auto, using(crate::proofs::Merges::terms_below, crate::proofs::Merges::lows_below))]
pub fn emit_or(
    alloc: Global,
    inputs: &[u32],
    node: u32,
    rules: &mut Rules,
) -> Result<(), AllocError>
    requires inputs { All (λ input. input < length rules.old.up) inputs.now }
    requires node { node < length rules.old.up }
    requires apart { All (λ input. input ≢ node) inputs.now }
    ensures made { OnOk result (rules.new ≡ with_rules node (or_of inputs.now) rules.old) }
    ensures none { length inputs.now ≡ 0 → rules.new ≡ with_rules node no_rules rules.old }
    ensures kept { OnErr result (rules.new ≡ rules.old) }
    ensures nodes { length rules.new.up ≡ length rules.old.up }
    ensures others { (other : ℕ) → other ≢ node → IsAlone rules.old rules.new other }
    ensures keeps { 0 < length inputs.now → Keeps (merge_part inputs.now node) }
{
    variable_keeps();
    if inputs.is_empty() {
        let up = Guard::new(Vec::new(alloc));
        let down = Guard::new(Vec::new(alloc));
        set_both(rules, node, up, down);
        return Ok(());
    }
    let up = some_high(alloc, inputs)?;
    let down = all_low(alloc, inputs)?;
    set_both(rules, node, up, down);
    Ok(())
}
