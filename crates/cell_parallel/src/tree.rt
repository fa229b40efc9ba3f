//! The rules of a completion tree.

ghost use Rattle.std.specs.Prelude.{◌≡◌, ◌≢◌, ℕ, ◌+◌, ◌/◌, ◌<◌, ◌≤◌, length, All, OnOk, OnErr, IfOk};
ghost use Rattle.prs_core.specs.Nets.{with_rules, IsAlone};
ghost use Rattle.prs_core.specs.Parts.{Owned, Keeps, owned_from, with_owned};
ghost use Rattle.prs_core.specs.Partly.{IsPartly};
ghost use Rattle.cell_parallel.specs.Trees.{c_element, level_rules, next_level, tree_owned};
ghost use Rattle.cell_parallel.specs.TreeParts.{AreOutside, tree_part};

use crate::laws::tree_keeps;
use prs_core::{Rules, all_of, high, low};
use std::alloc::{AllocError, Global};

/// Writes the guards of a C-element over two nodes.
fn emit_c_element(
    alloc: Global,
    left: u32,
    right: u32,
    node: u32,
    rules: &mut Rules,
) -> Result<(), AllocError>
    requires left { left < length rules.old.up }
    requires right { right < length rules.old.up }
    requires node { node < length rules.old.up }
    ensures made { OnOk result (rules.new ≡ with_rules node (c_element left right) rules.old) }
    ensures kept { OnErr result (rules.new ≡ rules.old) }
    ensures nodes { length rules.new.up ≡ length rules.old.up }
    ensures others { (other : ℕ) → other ≢ node → IsAlone rules.old rules.new other }
{
    let up = all_of(alloc, &[high(left), high(right)])?;
    let down = all_of(alloc, &[low(left), low(right)])?;
    rules.set_up(node, up);
    rules.set_down(node, down);
    Ok(())
}

/// Joins each two nodes of a level, from the front, and answers the nodes of the level above.
fn join_level(
    alloc: Global,
    nodes: &[u32],
    from: u32,
    rules: &mut Rules,
) -> Result<Vec<u32>, AllocError>
    requires nodes { All (λ node. node < length rules.old.up) nodes.now }
    requires own { from + length nodes.now / 2 ≤ length rules.old.up }
    ensures above { IfOk result (λ above. above.items ≡ next_level nodes.now from) }
    ensures made { OnOk result (rules.new ≡ with_owned (owned_from from (level_rules nodes.now)) rules.old) }
    ensures partly { IsPartly (owned_from from (level_rules nodes.now)) rules.old rules.new }
    ensures nodes { length rules.new.up ≡ length rules.old.up }
    ensures others { (node : ℕ) → All (λ (o : Owned). o.node ≢ node) (owned_from from (level_rules nodes.now)) →
        IsAlone rules.old rules.new node }
{
    // tells the proof that there are fewer than 2^32 nodes, so that the numbers from `from` on fit
    let _count = rules.nodes();
    let mut above = Vec::new(alloc);
    let mut left = nodes;
    while let [first, second, rest @ ..] = left {
        let node = from + above.len() as u32;
        emit_c_element(alloc, *first, *second, node, rules)?;
        above.push(node)?;
        left = rest;
    }
    above.extend_from_slice(left)?;
    Ok(above)
}

/// Writes the guards of the C-elements of a completion tree (Martin) over at least one leaf, and no others. They are
/// numbered from `from` on, one fewer than leaves, level upon level; the last one is the tree's top, which is high
/// once all leaves are and low once none is. A leaf alone is the top itself, and nothing is written. Where memory
/// runs out, some of the own nodes have their guards, and the others those that they had.
pub fn emit_tree(
    alloc: Global,
    leaves: &[u32],
    from: u32,
    rules: &mut Rules,
) -> Result<(), AllocError>
    requires some { 0 < length leaves.now }
    requires leaves { All (λ leaf. leaf < length rules.old.up) leaves.now }
    requires own { from + length leaves.now ≤ length rules.old.up + 1 }
    ensures made { OnOk result (rules.new ≡ with_owned (tree_owned leaves.now from) rules.old) }
    ensures partly { IsPartly (tree_owned leaves.now from) rules.old rules.new }
    ensures nodes { length rules.new.up ≡ length rules.old.up }
    ensures others { (node : ℕ) → All (λ (o : Owned). o.node ≢ node) (tree_owned leaves.now from) →
        IsAlone rules.old rules.new node }
    ensures keeps { AreOutside leaves.now from → Keeps (tree_part leaves.now from) }
{
    tree_keeps();
    // tells the proof that there are fewer than 2^32 nodes, so that the numbers from `from` on fit
    let _count = rules.nodes();
    let mut level = Vec::from_slice(alloc, leaves)?;
    let mut node = from;
    while level.len() > 1 {
        let joined = level.len() / 2;
        level = join_level(alloc, &level, node, rules)?;
        node += joined as u32;
    }
    Ok(())
}
