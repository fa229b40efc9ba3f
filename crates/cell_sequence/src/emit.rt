//! The rules of the Q-element, of skip and of the loop.

ghost use Rattle.std.specs.Prelude.{◌≡◌, ◌≢◌, ℕ, ◌<◌, [], ◌∷◌, length, AllPairs, OnOk, OnErr, IfOk};
ghost use Rattle.prs_core.specs.Nets.{with_rules, IsAlone, IsBelow};
ghost use Rattle.prs_core.specs.Parts.{Keeps, with_owned};
ghost use Rattle.cell_sequence.specs.Handshakes.{q_nodes, q_part, skip_part, loop_part};
ghost use Rattle.cell_sequence.specs.Sequence.{with_q, skip_owned, loop_owned, IsPorts};

use crate::laws::q_keeps;
use prs_core::{Guard, Literal, Rules, all_of, high, low};
use std::alloc::{AllocError, Global};

/// The nodes at a Q-element (Martin). Under `request` it runs the whole handshake of its child, on `child_request`
/// and `child_answer`, and then raises `next`, the request of what follows. `latch` keeps that the child has
/// answered. The element's own nodes are `child_request`, `latch` and `next`.
#[derive(Clone, Copy)]
pub struct QPorts {
    pub request: u32,
    pub child_request: u32,
    pub child_answer: u32,
    pub latch: u32,
    pub next: u32,
}

/// The two guards of a node.
#[derive(Drop)]
struct NodeGuards {
    up: Guard,
    down: Guard,
}

/// The two guards of a node that each hold where all of their literals do.
fn guards_of(alloc: Global, up: &[Literal], down: &[Literal]) -> Result<NodeGuards, AllocError>
    requires up { 0 < length up.now }
    requires down { 0 < length down.now }
    ensures { IfOk result (λ guards. guards ≡ record { up = up.now ∷ []; down = down.now ∷ [] }) }
{
    let up = all_of(alloc, up)?;
    let down = all_of(alloc, down)?;
    Ok(NodeGuards { up, down })
}

/// Replaces both guards of the node.
fn set_both(rules: &mut Rules, node: u32, guards: NodeGuards)
    requires node { node < length rules.old.up }
    requires up { IsBelow (length rules.old.up) guards.up }
    requires down { IsBelow (length rules.old.up) guards.down }
    ensures made { rules.new ≡ with_rules node (record { up = guards.up; down = guards.down }) rules.old }
    ensures nodes { length rules.new.up ≡ length rules.old.up }
    ensures others { (other : ℕ) → other ≢ node → IsAlone rules.old rules.new other }
{
    rules.set_up(node, guards.up);
    rules.set_down(node, guards.down);
}

/// Writes the guards of the Q-element's own nodes, and no others. Where memory runs out, nothing is written.
pub fn emit_q(alloc: Global, p: &QPorts, rules: &mut Rules) -> Result<(), AllocError>
    requires { IsPorts (length rules.old.up) p.now }
    ensures made { OnOk result (rules.new ≡ with_q p.now rules.old) }
    ensures kept { OnErr result (rules.new ≡ rules.old) }
    ensures nodes { length rules.new.up ≡ length rules.old.up }
    ensures others { (node : ℕ) → node ≢ p.now.child_request → node ≢ p.now.latch → node ≢ p.now.next →
        IsAlone rules.old rules.new node }
    ensures keeps { AllPairs (λ (a b : ℕ). a ≢ b) (q_nodes p.now) → Keeps (q_part p.now) }
{
    q_keeps();
    let child = guards_of(alloc, &[high(p.request), low(p.latch)], &[high(p.latch)])?;
    let latch = guards_of(alloc, &[high(p.child_answer)], &[low(p.request)])?;
    let next = guards_of(
        alloc,
        &[high(p.latch), low(p.child_answer)],
        &[low(p.latch)],
    )?;
    set_both(rules, p.child_request, child);
    set_both(rules, p.latch, latch);
    set_both(rules, p.next, next);
    Ok(())
}

/// Writes the two guards of a skip's answer, which follow the request, and no others. Where memory runs out, nothing is
/// written.
pub fn emit_skip(
    alloc: Global,
    request: u32,
    answer: u32,
    rules: &mut Rules,
) -> Result<(), AllocError>
    requires request { request < length rules.old.up }
    requires answer { answer < length rules.old.up }
    requires distinct { request ≢ answer }
    ensures made { OnOk result (rules.new ≡ with_owned (skip_owned request answer) rules.old) }
    ensures kept { OnErr result (rules.new ≡ rules.old) }
    ensures nodes { length rules.new.up ≡ length rules.old.up }
    ensures others { (node : ℕ) → node ≢ answer → IsAlone rules.old rules.new node }
    ensures keeps { AllPairs (λ (a b : ℕ). a ≢ b) (request ∷ answer ∷ []) → Keeps (skip_part request answer) }
{
    q_keeps();
    let follows = guards_of(alloc, &[high(request)], &[low(request)])?;
    set_both(rules, answer, follows);
    Ok(())
}

/// Writes the two guards of the request by which a loop asks its body, and no others. Under the loop's own `request`
/// the body is asked, and asked again once it has let go. The loop's own answer never rises, so it has no rules. Where
/// memory runs out, nothing is written.
pub fn emit_loop(
    alloc: Global,
    request: u32,
    body_request: u32,
    body_answer: u32,
    rules: &mut Rules,
) -> Result<(), AllocError>
    requires request { request < length rules.old.up }
    requires body_request { body_request < length rules.old.up }
    requires body_answer { body_answer < length rules.old.up }
    requires distinct_request { request ≢ body_request }
    requires distinct_answer { body_answer ≢ body_request }
    ensures made { OnOk result (rules.new ≡ with_owned (loop_owned request body_request body_answer) rules.old) }
    ensures kept { OnErr result (rules.new ≡ rules.old) }
    ensures nodes { length rules.new.up ≡ length rules.old.up }
    ensures others { (node : ℕ) → node ≢ body_request → IsAlone rules.old rules.new node }
    ensures keeps { (answer : ℕ) → AllPairs (λ (a b : ℕ). a ≢ b) (request ∷ answer ∷ body_request ∷ body_answer ∷ []) →
        Keeps (loop_part request answer body_request body_answer) }
{
    q_keeps();
    let asks = guards_of(
        alloc,
        &[high(request), low(body_answer)],
        &[high(body_answer)],
    )?;
    set_both(rules, body_request, asks);
    Ok(())
}
