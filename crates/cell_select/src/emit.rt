//! The rules of the selection and of the guarded repetition.

ghost use Rattle.std.specs.Prelude.{◌≡◌, ◌≢◌, ◌<◌, ◌*◌, ℕ, [], ◌∷◌, All, length, OnOk, OnErr, IfOk};
ghost use Rattle.prs_core.specs.Nets.{with_rules, IsAlone};
ghost use Rattle.prs_core.specs.Pairs.{or_of};
ghost use Rattle.prs_core.specs.Parts.{Owned, Keeps, owned_at, with_owned};
ghost use Rattle.prs_core.specs.Partly.{IsPartly};
ghost use Rattle.cell_select.specs.Selections.{joined_answer, evaluation, turn_request, leave_latch, leave_answer, latches, starts};
ghost use Rattle.cell_select.specs.Contract.{shared_owned, branches_owned, select_owned, select_part, again_owned, again_part};
ghost use Rattle.cell_select.specs.PortNodes.{pairs_of, select_of, again_of, turn_shared, IsSelect, IsAgain};

use crate::guards::{all_low, either, none_true, only_true, set_both, some_high, with_lows};
use crate::laws::{again_keeps, select_keeps};
use prs_core::{Rules, all_of, high, low};
use std::alloc::{AllocError, Global};

/// The nodes at a selection (Martin). Under `request` the guards are evaluated, under their own request `eval`; the
/// latch of the one that is true rises, and `any` says that a latch is up; then the guards are released, and the
/// branch's start rises. The branch's answer becomes `answer`. The own nodes are `answer`, `eval`, `any`, `latches` and
/// `starts`. `answers` are the branches' answers, and `guard_rails` has rail t and rail f of each guard, in order.
#[derive(Drop)]
pub struct SelectPorts {
    pub request: u32,
    pub answer: u32,
    pub eval: u32,
    pub any: u32,
    pub latches: Vec<u32>,
    pub starts: Vec<u32>,
    pub answers: Vec<u32>,
    pub guard_rails: Vec<u32>,
}

/// The nodes at a guarded repetition (Martin). It is a selection under a request of its own for each turn,
/// `loop_request`, whose branches' answers are joined in `joined`. `leave` is the latch that rises where all guards are
/// false; once the guards are released it makes the answer. The own nodes are `answer`, `loop_request`, `joined`,
/// `eval`, `any`, `leave`, `latches` and `starts`; `answers` and `guard_rails` are as at a selection.
#[derive(Drop)]
pub struct AgainPorts {
    pub request: u32,
    pub answer: u32,
    pub loop_request: u32,
    pub joined: u32,
    pub eval: u32,
    pub any: u32,
    pub leave: u32,
    pub latches: Vec<u32>,
    pub starts: Vec<u32>,
    pub answers: Vec<u32>,
    pub guard_rails: Vec<u32>,
}

/// Writes the guards of the branches' answers joined into one.
fn emit_joined(
    alloc: Global,
    node: u32,
    any: u32,
    answers: &[u32],
    rules: &mut Rules,
) -> Result<(), AllocError>
    requires node { node < length rules.old.up }
    requires any { any < length rules.old.up }
    requires answers { All (λ n. n < length rules.old.up) answers.now }
    ensures made { OnOk result (rules.new ≡ with_rules node (joined_answer any answers.now) rules.old) }
    ensures kept { OnErr result (rules.new ≡ rules.old) }
    ensures nodes { length rules.new.up ≡ length rules.old.up }
    ensures others { (other : ℕ) → other ≢ node → IsAlone rules.old rules.new other }
{
    let up = some_high(alloc, answers);
    let down = with_lows(alloc, low(any), answers);
    set_both(rules, node, up, down)
}

/// Writes the guards of the request of the guards.
fn emit_evaluation(
    alloc: Global,
    node: u32,
    request: u32,
    any: u32,
    rules: &mut Rules,
) -> Result<(), AllocError>
    requires node { node < length rules.old.up }
    requires request { request < length rules.old.up }
    requires any { any < length rules.old.up }
    ensures made { OnOk result (rules.new ≡ with_rules node (evaluation request any) rules.old) }
    ensures kept { OnErr result (rules.new ≡ rules.old) }
    ensures nodes { length rules.new.up ≡ length rules.old.up }
    ensures others { (other : ℕ) → other ≢ node → IsAlone rules.old rules.new other }
{
    let up = all_of(alloc, &[high(request), low(any)]);
    let down = all_of(alloc, &[high(any)]);
    set_both(rules, node, up, down)
}

/// Writes the guards of the OR of some nodes. There is at least one node.
fn emit_any(alloc: Global, node: u32, inputs: &[u32], rules: &mut Rules) -> Result<(), AllocError>
    requires node { node < length rules.old.up }
    requires some { 0 < length inputs.now }
    requires inputs { All (λ n. n < length rules.old.up) inputs.now }
    ensures made { OnOk result (rules.new ≡ with_rules node (or_of inputs.now) rules.old) }
    ensures kept { OnErr result (rules.new ≡ rules.old) }
    ensures nodes { length rules.new.up ≡ length rules.old.up }
    ensures others { (other : ℕ) → other ≢ node → IsAlone rules.old rules.new other }
{
    let up = some_high(alloc, inputs);
    let down = all_low(alloc, inputs);
    set_both(rules, node, up, down)
}

/// Writes the guards of the latches.
fn emit_latches(
    alloc: Global,
    request: u32,
    nodes: &[u32],
    rails: &[u32],
    rules: &mut Rules,
) -> Result<(), AllocError>
    requires request { request < length rules.old.up }
    requires nodes { All (λ n. n < length rules.old.up) nodes.now }
    requires rails { All (λ n. n < length rules.old.up) rails.now }
    requires agree { length rails.now ≡ 2 * length nodes.now }
    ensures made { OnOk result (rules.new ≡ with_owned (owned_at nodes.now (latches request (pairs_of rails.now)))
        rules.old) }
    ensures partly { IsPartly (owned_at nodes.now (latches request (pairs_of rails.now))) rules.old rules.new }
    ensures nodes { length rules.new.up ≡ length rules.old.up }
    ensures others { (other : ℕ) → All (λ n. n ≢ other) nodes.now → IsAlone rules.old rules.new other }
{
    for guard in 0..nodes.len() {
        let up = only_true(alloc, rails, guard);
        let down = all_of(alloc, &[low(request)]);
        set_both(rules, nodes[guard], up, down)?;
    }
    Ok(())
}

/// Writes the guards of the starts.
fn emit_starts(
    alloc: Global,
    nodes: &[u32],
    latched: &[u32],
    rails: &[u32],
    rules: &mut Rules,
) -> Result<(), AllocError>
    requires nodes { All (λ n. n < length rules.old.up) nodes.now }
    requires latched { All (λ n. n < length rules.old.up) latched.now }
    requires rails { All (λ n. n < length rules.old.up) rails.now }
    requires agree { length nodes.now ≡ length latched.now }
    requires pairs { length rails.now ≡ 2 * length latched.now }
    ensures made { OnOk result (rules.new ≡ with_owned (owned_at nodes.now (starts latched.now (pairs_of rails.now)))
        rules.old) }
    ensures partly { IsPartly (owned_at nodes.now (starts latched.now (pairs_of rails.now))) rules.old rules.new }
    ensures nodes { length rules.new.up ≡ length rules.old.up }
    ensures others { (other : ℕ) → All (λ n. n ≢ other) nodes.now → IsAlone rules.old rules.new other }
{
    for branch in 0..nodes.len() {
        let up = with_lows(alloc, high(latched[branch]), rails);
        let down = all_of(alloc, &[low(latched[branch])]);
        set_both(rules, nodes[branch], up, down)?;
    }
    Ok(())
}

/// Writes the guards of the latches and of the starts.
fn emit_branches(
    alloc: Global,
    request: u32,
    latched: &[u32],
    begun: &[u32],
    rails: &[u32],
    rules: &mut Rules,
) -> Result<(), AllocError>
    requires request { request < length rules.old.up }
    requires latched { All (λ n. n < length rules.old.up) latched.now }
    requires begun { All (λ n. n < length rules.old.up) begun.now }
    requires rails { All (λ n. n < length rules.old.up) rails.now }
    requires agree { length begun.now ≡ length latched.now }
    requires pairs { length rails.now ≡ 2 * length latched.now }
    ensures made { OnOk result (rules.new ≡ with_owned
        (branches_owned request latched.now begun.now (pairs_of rails.now)) rules.old) }
    ensures partly { IsPartly (branches_owned request latched.now begun.now (pairs_of rails.now))
        rules.old rules.new }
    ensures nodes { length rules.new.up ≡ length rules.old.up }
{
    emit_latches(alloc, request, latched, rails, rules)?;
    emit_starts(alloc, begun, latched, rails, rules)
}

/// Writes the guards of the nodes that the branches share: of the answer that joins theirs, of the request of the
/// guards, and of the OR of the latches.
fn emit_shared(
    alloc: Global,
    joined: u32,
    eval: u32,
    any: u32,
    request: u32,
    answers: &[u32],
    latched: &[u32],
    rules: &mut Rules,
) -> Result<(), AllocError>
    requires joined { joined < length rules.old.up }
    requires eval { eval < length rules.old.up }
    requires any { any < length rules.old.up }
    requires request { request < length rules.old.up }
    requires answers { All (λ n. n < length rules.old.up) answers.now }
    requires some { 0 < length latched.now }
    requires latched { All (λ n. n < length rules.old.up) latched.now }
    ensures made { OnOk result (rules.new ≡ with_owned
        (shared_owned joined eval any request answers.now latched.now) rules.old) }
    ensures partly { IsPartly (shared_owned joined eval any request answers.now latched.now) rules.old rules.new }
    ensures nodes { length rules.new.up ≡ length rules.old.up }
{
    emit_joined(alloc, joined, any, answers, rules)?;
    emit_evaluation(alloc, eval, request, any, rules)?;
    emit_any(alloc, any, latched, rules)
}

/// Writes the guards of the request of one turn.
fn emit_turn(
    alloc: Global,
    node: u32,
    request: u32,
    joined: u32,
    rules: &mut Rules,
) -> Result<(), AllocError>
    requires node { node < length rules.old.up }
    requires request { request < length rules.old.up }
    requires joined { joined < length rules.old.up }
    ensures made { OnOk result (rules.new ≡ with_rules node (turn_request request joined) rules.old) }
    ensures kept { OnErr result (rules.new ≡ rules.old) }
    ensures nodes { length rules.new.up ≡ length rules.old.up }
    ensures others { (other : ℕ) → other ≢ node → IsAlone rules.old rules.new other }
{
    let up = all_of(alloc, &[high(request), low(joined)]);
    let down = either(alloc, high(joined), low(request));
    set_both(rules, node, up, down)
}

/// Writes the guards of the latch of the end.
fn emit_leave(
    alloc: Global,
    node: u32,
    turn: u32,
    rails: &[u32],
    rules: &mut Rules,
) -> Result<(), AllocError>
    requires node { node < length rules.old.up }
    requires turn { turn < length rules.old.up }
    requires rails { All (λ n. n < length rules.old.up) rails.now }
    requires pairs { (guards : ℕ) × (length rails.now ≡ 2 * guards) × (0 < guards) }
    ensures made { OnOk result (rules.new ≡ with_rules node (leave_latch turn (pairs_of rails.now)) rules.old) }
    ensures kept { OnErr result (rules.new ≡ rules.old) }
    ensures nodes { length rules.new.up ≡ length rules.old.up }
    ensures others { (other : ℕ) → other ≢ node → IsAlone rules.old rules.new other }
{
    let up = none_true(alloc, rails);
    let down = all_of(alloc, &[low(turn)]);
    set_both(rules, node, up, down)
}

/// Writes the guards of the answer of a guarded repetition.
fn emit_end(
    alloc: Global,
    node: u32,
    leave: u32,
    any: u32,
    rails: &[u32],
    rules: &mut Rules,
) -> Result<(), AllocError>
    requires node { node < length rules.old.up }
    requires leave { leave < length rules.old.up }
    requires any { any < length rules.old.up }
    requires rails { All (λ n. n < length rules.old.up) rails.now }
    requires pairs { (guards : ℕ) × (length rails.now ≡ 2 * guards) }
    ensures made { OnOk result (rules.new ≡ with_rules node (leave_answer leave any (pairs_of rails.now)) rules.old) }
    ensures kept { OnErr result (rules.new ≡ rules.old) }
    ensures nodes { length rules.new.up ≡ length rules.old.up }
    ensures others { (other : ℕ) → other ≢ node → IsAlone rules.old rules.new other }
{
    let up = with_lows(alloc, high(leave), rails);
    let down = all_of(alloc, &[low(any)]);
    set_both(rules, node, up, down)
}

/// The latch of the end, and the other latches.
fn all_latches(alloc: Global, leave: u32, latches: &[u32]) -> Result<Vec<u32>, AllocError>
    ensures { IfOk result (λ all. all.items ≡ leave ∷ latches.now) }
{
    let mut all = Vec::new(alloc);
    all.push(leave)?;
    all.extend_from_slice(latches)?;
    Ok(all)
}

/// Writes the guards of the nodes that the branches of a guarded repetition share.
fn emit_turn_shared(alloc: Global, p: &AgainPorts, rules: &mut Rules) -> Result<(), AllocError>
    requires { IsAgain (length rules.old.up) p.now }
    ensures made { OnOk result (rules.new ≡ with_owned (turn_shared p.now) rules.old) }
    ensures partly { IsPartly (turn_shared p.now) rules.old rules.new }
    ensures nodes { length rules.new.up ≡ length rules.old.up }
{
    let all = all_latches(alloc, p.leave, &p.latches)?;
    emit_shared(
        alloc,
        p.joined,
        p.eval,
        p.any,
        p.loop_request,
        &p.answers,
        &all,
        rules,
    )
}

/// Writes the guards of the selection's own nodes, and no others. There are 1 to 16 latches, as many starts and
/// answers, and twice as many guard rails. Out of memory may leave the write partial: some of the own nodes then have
/// their new guards, and the others their old ones.
pub fn emit_select(alloc: Global, p: &SelectPorts, rules: &mut Rules) -> Result<(), AllocError>
    requires { IsSelect (length rules.old.up) p.now }
    ensures made { OnOk result (rules.new ≡ with_owned (select_owned (select_of p.now)) rules.old) }
    ensures partly { IsPartly (select_owned (select_of p.now)) rules.old rules.new }
    ensures nodes { length rules.new.up ≡ length rules.old.up }
    ensures others { (node : ℕ) → All (λ (o : Owned). o.node ≢ node) (select_owned (select_of p.now)) →
        IsAlone rules.old rules.new node }
    ensures keeps { Keeps (select_part (select_of p.now)) }
{
    select_keeps();
    emit_shared(
        alloc, p.answer, p.eval, p.any, p.request, &p.answers, &p.latches, rules,
    )?;
    emit_branches(
        alloc,
        p.request,
        &p.latches,
        &p.starts,
        &p.guard_rails,
        rules,
    )
}

/// Writes the guards of the guarded repetition's own nodes, and no others. There are 1 to 16 latches, as many starts
/// and answers, and twice as many guard rails. Out of memory may leave the write partial: some of the own nodes then
/// have their new guards, and the others their old ones.
pub fn emit_again(alloc: Global, p: &AgainPorts, rules: &mut Rules) -> Result<(), AllocError>
    requires { IsAgain (length rules.old.up) p.now }
    ensures made { OnOk result (rules.new ≡ with_owned (again_owned (again_of p.now)) rules.old) }
    ensures partly { IsPartly (again_owned (again_of p.now)) rules.old rules.new }
    ensures nodes { length rules.new.up ≡ length rules.old.up }
    ensures others { (node : ℕ) → All (λ (o : Owned). o.node ≢ node) (again_owned (again_of p.now)) →
        IsAlone rules.old rules.new node }
    ensures keeps { Keeps (again_part (again_of p.now)) }
{
    again_keeps();
    emit_end(alloc, p.answer, p.leave, p.any, &p.guard_rails, rules)?;
    emit_turn(alloc, p.loop_request, p.request, p.joined, rules)?;
    emit_turn_shared(alloc, p, rules)?;
    emit_leave(alloc, p.leave, p.loop_request, &p.guard_rails, rules)?;
    emit_branches(
        alloc,
        p.loop_request,
        &p.latches,
        &p.starts,
        &p.guard_rails,
        rules,
    )
}
