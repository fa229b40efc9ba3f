//! The rules of a variable and of its write sites.

ghost use Rattle.std.specs.Prelude.{◌≡◌, ◌≢◌, ℕ, ◌+◌, ◌*◌, ◌<◌, ◌≤◌, List, [], ◌∷◌, length, All, AllPairs, OnOk, OnErr, IfOk};
ghost use Rattle.prs_core.specs.Nets.{with_rules, is_high, IsAlone};
ghost use Rattle.prs_core.specs.Parts.{Owned, Keeps, with_owned};
ghost use Rattle.prs_core.specs.Partly.{IsPartly};
ghost use Rattle.prs_core.specs.Sites.{site_part};
ghost use Rattle.cell_variable.specs.VariableParts.{variable_part};
ghost use Rattle.cell_variable.specs.Variables.{kept_rail, bit_at, bit_written, bit_owned, variable_owned, write_owned};

use crate::laws::variable_keeps;
use cell_parallel::emit_tree;
use prs_core::{Guard, Rules, Term, all_of, high, low};
use std::alloc::{AllocError, Global};

/// Writes the guards of a rail that rises with `set` once the bit's other rail has fallen, and falls with `reset`.
fn emit_rail(
    alloc: Global,
    node: u32,
    other: u32,
    set: u32,
    reset: u32,
    rules: &mut Rules,
) -> Result<(), AllocError>
    requires node { node < length rules.old.up }
    requires other { other < length rules.old.up }
    requires set { set < length rules.old.up }
    requires reset { reset < length rules.old.up }
    ensures made { OnOk result (rules.new ≡ with_rules node (kept_rail set other reset) rules.old) }
    ensures kept { OnErr result (rules.new ≡ rules.old) }
    ensures nodes { length rules.new.up ≡ length rules.old.up }
    ensures others { (k : ℕ) → k ≢ node → IsAlone rules.old rules.new k }
{
    let up = all_of(alloc, &[high(set), low(other)])?;
    let down = all_of(alloc, &[high(reset)])?;
    rules.set_up(node, up);
    rules.set_down(node, down);
    Ok(())
}

/// The term that requires two nodes to be high.
fn both_high(alloc: Global, first: u32, second: u32) -> Result<Term, AllocError>
    ensures { IfOk result (λ term. term ≡ is_high first ∷ is_high second ∷ []) }
{
    let literals = Vec::from_slice(alloc, &[high(first), high(second)])?;
    Ok(Term::new(literals).unwrap())
}

/// Writes the guards of the node that says that a bit is written, of the bit whose first node this is.
fn emit_written(alloc: Global, bit: u32, rules: &mut Rules) -> Result<(), AllocError>
    requires { bit + 5 ≤ length rules.old.up }
    ensures made { OnOk result (rules.new ≡ with_rules (bit + 4) (bit_written (bit_at bit)) rules.old) }
    ensures kept { OnErr result (rules.new ≡ rules.old) }
    ensures nodes { length rules.new.up ≡ length rules.old.up }
    ensures others { (k : ℕ) → k ≢ bit + 4 → IsAlone rules.old rules.new k }
{
    // tells the proof that there are fewer than 2^32 nodes, so that the numbers from `bit` on fit
    let _count = rules.nodes();
    let mut terms = Vec::new(alloc);
    terms.push(both_high(alloc, bit + 2, bit)?)?;
    terms.push(both_high(alloc, bit + 3, bit + 1)?)?;
    let down = all_of(alloc, &[low(bit + 2), low(bit + 3)])?;
    rules.set_up(bit + 4, Guard::new(terms));
    rules.set_down(bit + 4, down);
    Ok(())
}

/// Writes the guards of a bit's own nodes, of the bit whose first node this is.
fn emit_bit(alloc: Global, bit: u32, rules: &mut Rules) -> Result<(), AllocError>
    requires { bit + 5 ≤ length rules.old.up }
    ensures made { OnOk result (rules.new ≡ with_owned (bit_owned (bit_at bit)) rules.old) }
    ensures partly { IsPartly (bit_owned (bit_at bit)) rules.old rules.new }
    ensures nodes { length rules.new.up ≡ length rules.old.up }
    ensures others { (k : ℕ) → All (λ (o : Owned). o.node ≢ k) (bit_owned (bit_at bit)) →
        IsAlone rules.old rules.new k }
{
    // tells the proof that there are fewer than 2^32 nodes, so that the numbers from `bit` on fit
    let _count = rules.nodes();
    emit_rail(alloc, bit, bit + 1, bit + 2, bit + 3, rules)?;
    emit_rail(alloc, bit + 1, bit, bit + 3, bit + 2, rules)?;
    emit_written(alloc, bit, rules)
}

/// Writes the guards of a variable's own nodes, and no others. The variable's block has from `from` on for each bit,
/// from the lowest, the two rails of its value, the two rails by which it is written, and the node that says that it
/// has been written, and then the completion tree over these. The rails by which it is written are merges, which have
/// rules of their own. Out of memory may leave the write partial: some of the own nodes then have their new guards, and
/// the others their old ones.
pub fn emit_variable(
    alloc: Global,
    from: u32,
    width: u8,
    rules: &mut Rules,
) -> Result<(), AllocError>
    requires some { 1 ≤ width }
    requires most { width ≤ 64 }
    requires own { from + 6 * width ≤ length rules.old.up + 1 }
    ensures made { OnOk result (rules.new ≡ with_owned (variable_owned width from) rules.old) }
    ensures partly { IsPartly (variable_owned width from) rules.old rules.new }
    ensures nodes { length rules.new.up ≡ length rules.old.up }
    ensures others { (node : ℕ) → All (λ (o : Owned). o.node ≢ node) (variable_owned width from) →
        IsAlone rules.old rules.new node }
    ensures keeps { Keeps (variable_part width from) }
{
    variable_keeps();
    // tells the proof that there are fewer than 2^32 nodes, so that the numbers from `from` on fit
    let _count = rules.nodes();
    let mut leaves = Vec::new(alloc);
    let mut bit = from;
    for _place in 0..width {
        emit_bit(alloc, bit, rules)?;
        leaves.push(bit + 4)?;
        bit += 5;
    }
    emit_tree(alloc, &leaves, bit, rules)
}

/// Writes the guards of a write site's answer, which comes once all bits are written, and no others. Where memory
/// runs out, nothing is written.
pub fn emit_write_site(
    alloc: Global,
    request: u32,
    all_written: u32,
    answer: u32,
    rules: &mut Rules,
) -> Result<(), AllocError>
    requires request { request < length rules.old.up }
    requires all_written { all_written < length rules.old.up }
    requires answer { answer < length rules.old.up }
    requires apart { All (λ node. node ≢ answer) (request ∷ all_written ∷ []) }
    ensures made { OnOk result (rules.new ≡ with_owned (write_owned request all_written answer) rules.old) }
    ensures kept { OnErr result (rules.new ≡ rules.old) }
    ensures nodes { length rules.new.up ≡ length rules.old.up }
    ensures others { (node : ℕ) → node ≢ answer → IsAlone rules.old rules.new node }
    ensures keeps { (others : List ℕ) → AllPairs (λ (a b : ℕ). a ≢ b) (request ∷ all_written ∷ answer ∷ others) →
        Keeps (site_part others request all_written answer) }
{
    variable_keeps();
    let up = all_of(alloc, &[high(request), high(all_written)])?;
    let down = all_of(alloc, &[low(all_written)])?;
    rules.set_up(answer, up);
    rules.set_down(answer, down);
    Ok(())
}
