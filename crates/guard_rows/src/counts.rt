//! Guards that only ask how many of some nodes are high, and whether one that overrides these is.

ghost use Rattle.std.specs.Prelude.{◌≡◌, ℕ, ◌<◌, ◌^◌, Bool, true, not, ◌&&◌, ◌||◌, nat_le, ◌==◌, [], ◌∷◌, length, All, IfOk, IfSome, OnOk};
ghost use Rattle.std.specs.List.{list_all};
ghost use Rattle.prs_core.specs.Moves.{high, literal_holds, term_holds, guard_holds};
ghost use Rattle.guard_rows.specs.Places.{by_count, count_of, overrides, row_place, AllPass, AreCounted, GuardPasses};

use crate::edges::OVER;
use prs_core::{Guard, Literal, State, Term};
use std::alloc::AllocError;

/// The place of a counted row while none of its nodes is high.
pub(crate) const COUNTED: u32 = 1_073_741_824;

/// So many nodes are too many for a counted row: what they add to its place stays below `OVER`, which is this number.
const TOO_MANY: usize = 536_870_912;

/// How many of a node's inputs have to be high before it rises.
#[derive(Clone, Copy)]
pub(crate) struct Counts {
    pub(crate) least: u64,
    /// While this one is high, as a net's reset, the inputs don't matter: the node falls.
    pub(crate) over: Option<u32>,
}

/// The term of a guard that has one alone.
fn only_term(guard: &Guard) -> Option<&Term>
    ensures { IfSome result (λ term. guard.now ≡ term.now ∷ []) }
{
    let terms = guard.terms();
    if terms.len() == 1 {
        Some(&terms[0])
    } else {
        None
    }
}

/// The node that the term's one literal wants high.
fn just_high(term: &Term) -> Option<u32>
    ensures holds { IfSome result (λ n. (v : ℕ → Bool) → term_holds v term.now ≡ v n) }
    ensures passes { IfSome result (λ n. (passes : ℕ → Bool) → AllPass passes term.now → passes n ≡ true) }
{
    let literals = term.literals();
    let first = literals[0];
    if literals.len() == 1 && first.high {
        Some(first.node)
    } else {
        None
    }
}

/// The first term of a guard, and the node that is all that its other term wants high, where it has one.
fn parts_of(guard: &Guard) -> Option<(&Term, Option<u32>)>
    ensures holds { IfSome result (λ parts. (v : ℕ → Bool) →
        guard_holds v guard.now ≡ (term_holds v parts.0.now || overrides v parts.1)) }
    ensures first { IfSome result (λ parts. (passes : ℕ → Bool) → GuardPasses passes guard.now
        → AllPass passes parts.0.now) }
    ensures over { IfSome result (λ parts. (passes : ℕ → Bool) → GuardPasses passes guard.now
        → IfSome parts.1 (λ n. passes n ≡ true)) }
{
    let terms = guard.terms();
    if terms.len() == 1 {
        return Some((&terms[0], None));
    }
    if terms.len() != 2 {
        return None;
    }
    let node = just_high(&terms[1])?;
    Some((&terms[0], Some(node)))
}

/// Lists the nodes of the term, unless one of its literals wants its node high.
fn list_low(nodes: &mut Vec<u32>, term: &Term) -> Result<bool, AllocError>
    requires { nodes.old.items ≡ [] }
    ensures holds { IfOk result (λ low. low ≡ true → (v : ℕ → Bool) →
        term_holds v term.now ≡ (count_of v nodes.new.items == 0)) }
    ensures pass { OnOk result ((passes : ℕ → Bool) → AllPass passes term.now
        → All (λ n. passes n ≡ true) nodes.new.items) }
{
    for literal in term.literals() {
        if literal.high {
            return Ok(false);
        }
        nodes.push(literal.node)?;
    }
    Ok(true)
}

fn wants_high(literal: &Literal, node: u32) -> bool
    ensures { result ≡ true → (v : ℕ → Bool) → literal_holds v literal.now ≡ v node }
{
    literal.high && literal.node == node
}

fn wants_low(literal: &Literal, node: u32) -> bool
    ensures { result ≡ true → (v : ℕ → Bool) → literal_holds v literal.now ≡ not (v node) }
{
    !literal.high && literal.node == node
}

/// Whether these literals only want that nothing overrides: one that wants this node low, or none if there is no node.
fn wants_no_override(literals: &[Literal], over: Option<u32>) -> bool
    ensures { result ≡ true → (v : ℕ → Bool) → list_all (literal_holds v) literals.now ≡ not (overrides v over) }
{
    match over {
        None => literals.is_empty(),
        Some(node) => literals.len() == 1 && wants_low(&literals[0], node),
    }
}

/// Whether the term wants the node high, and nothing else but that nothing overrides.
fn is_high_alone(term: &Term, node: u32, over: Option<u32>) -> bool
    ensures { result ≡ true → (v : ℕ → Bool) → term_holds v term.now ≡ (v node && not (overrides v over)) }
{
    let literals = term.literals();
    wants_high(&literals[0], node) && wants_no_override(&literals[1..], over)
}

/// Whether the guard has a term for each of these nodes, in their order, which wants this one high: so it holds where
/// one of them is.
fn is_any_of(guard: &Guard, nodes: &[u32], over: Option<u32>) -> bool
    ensures { result ≡ true → (v : ℕ → Bool) →
        guard_holds v guard.now ≡ (nat_le 1 (count_of v nodes.now) && not (overrides v over)) }
{
    let terms = guard.terms();
    if terms.len() != nodes.len() {
        return false;
    }
    for place in 0..nodes.len() {
        if !is_high_alone(&terms[place], nodes[place], over) {
            return false;
        }
    }
    true
}

/// Whether the term has a literal for each of these nodes, in their order, which wants it high: so it holds where all
/// of them are.
fn is_all_of(term: &Term, nodes: &[u32], over: Option<u32>) -> bool
    ensures { result ≡ true → (v : ℕ → Bool) →
        term_holds v term.now ≡ (nat_le (length nodes.now) (count_of v nodes.now) && not (overrides v over)) }
{
    let literals = term.literals();
    if literals.len() < nodes.len() {
        return false;
    }
    if !wants_no_override(&literals[nodes.len()..], over) {
        return false;
    }
    for place in 0..nodes.len() {
        if !wants_high(&literals[place], nodes[place]) {
            return false;
        }
    }
    true
}

/// How many of these nodes have to be high for the guard to hold, where it asks for that alone, and that the node which
/// overrides them is low.
fn least_of(guard: &Guard, nodes: &[u32], over: Option<u32>) -> Option<u64>
    ensures { IfSome result (λ least. (v : ℕ → Bool) →
        guard_holds v guard.now ≡ (nat_le least (count_of v nodes.now) && not (overrides v over))) }
{
    if is_any_of(guard, nodes, over) {
        return Some(1);
    }
    let term = only_term(guard)?;
    if is_all_of(term, nodes, over) {
        Some(nodes.len() as u64)
    } else {
        None
    }
}

/// Lists the nodes of which the down guard wants none to be high, and says how many of them the up guard wants to be.
/// A node that makes the down guard hold, and the up guard not, may be there besides, as the reset of a net. None where
/// the guards ask for something else.
pub(crate) fn counted_row(
    nodes: &mut Vec<u32>,
    up: &Guard,
    down: &Guard,
) -> Result<Option<Counts>, AllocError>
    ensures row { IfOk result (λ row. IfSome row (λ c. AreCounted up.now down.now nodes.new.items c.over c.least)) }
    ensures pass { OnOk result ((passes : ℕ → Bool) → GuardPasses passes down.now
        → All (λ n. passes n ≡ true) nodes.new.items) }
    ensures over { IfOk result (λ row. IfSome row (λ c. (passes : ℕ → Bool) → GuardPasses passes down.now
        → IfSome c.over (λ n. passes n ≡ true))) }
{
    nodes.clear();
    let Some((term, over)) = parts_of(down) else {
        return Ok(None);
    };
    if !list_low(nodes, term)? || nodes.len() >= TOO_MANY {
        return Ok(None);
    }
    match least_of(up, nodes, over) {
        None => Ok(None),
        Some(least) => Ok(Some(Counts { least, over })),
    }
}

/// How many of these nodes are high in the state.
fn count_now(nodes: &[u32], state: &State) -> u32
    requires few { length nodes.now < 2 ^ 29 }
    requires within { All (λ n. n < length state.now) nodes.now }
    ensures { result ≡ count_of (high state.now) nodes.now }
{
    let mut count = 0;
    for node in nodes {
        count += u32::from(state.is_high(*node));
    }
    count
}

/// The place of the counted row of these nodes in the state.
pub(crate) fn place_now(nodes: &[u32], over: Option<u32>, state: &State) -> u32
    requires few { length nodes.now < 2 ^ 29 }
    requires within { All (λ n. n < length state.now) nodes.now }
    requires over { IfSome over (λ n. n < length state.now) }
    ensures { result ≡ row_place (high state.now) (by_count nodes.now over) }
{
    let place = COUNTED + count_now(nodes, state);
    match over {
        None => place,
        Some(node) => place + OVER * u32::from(state.is_high(node)),
    }
}
