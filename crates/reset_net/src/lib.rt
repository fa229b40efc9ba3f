//! Nets with a reset node.
#![tactic(auto)]

ghost use Rattle.std.specs.Prelude.{◌≡◌, ◌≢◌, ◌<◌, ◌+◌, ◌-◌, ◌^◌, ◌++◌, ℕ, List, [], ◌∷◌, Bool, true, not, length, map, slice_index_or, All, IfOk, OnOk, None, codes, if◌then◌else◌};
ghost use Rattle.prs_core.specs.Nets.{RulesValue, NodeRules, IsNet, IsBelow, net_of, net_rules, with_rules};
ghost use Rattle.reset_net.specs.Resets.{held, forced, has_rules, reset_guard, reset_up, reset_down, reset_of};

use chp_base::{Name, node_name_of};
use prs_core::{Guard, Literal, Net, Rules, Term, high, low};
use std::alloc::{AllocError, Global};

/// Adds the term of these literals, and of more of them at its end.
fn add_term(
    alloc: Global,
    literals: &[Literal],
    more: &[Literal],
    terms: &mut Vec<Term>,
) -> Result<(), AllocError>
    requires { 0 < length literals.now + length more.now }
    ensures { OnOk result (terms.new.items ≡ terms.old.items ++ (literals.now ++ more.now) ∷ []) }
{
    let mut all = Vec::with_capacity(alloc, literals.len() + more.len())?;
    all.extend_from_slice(literals)?;
    all.extend_from_slice(more)?;
    terms.push(Term::new(all).unwrap())?;
    Ok(())
}

/// The guard's terms, each with more literals at its end.
fn terms_with(alloc: Global, guard: &Guard, more: &[Literal]) -> Result<Vec<Term>, AllocError>
    ensures { IfOk result (λ v. v.items ≡ map (λ t. t ++ more.now) guard.now) }
{
    // a forced guard has one term more
    let mut terms = Vec::with_capacity(alloc, guard.terms().len() + 1)?;
    for term in guard.terms() {
        add_term(alloc, term.literals(), more, &mut terms)?;
    }
    Ok(terms)
}

/// The guard of a rule that waits until the reset is over: each term has the last literal `~reset`.
fn held_guard(alloc: Global, guard: &Guard, reset: u32) -> Result<Guard, AllocError>
    ensures { IfOk result (λ g. g ≡ held reset guard.now) }
{
    let terms = terms_with(alloc, guard, &[low(reset)])?;
    Ok(Guard::new(terms))
}

/// The guard of a rule that the reset enables: it has the last term `reset`.
fn forced_guard(alloc: Global, guard: &Guard, reset: u32) -> Result<Guard, AllocError>
    ensures { IfOk result (λ g. g ≡ forced reset guard.now) }
{
    let mut terms = terms_with(alloc, guard, &[])?;
    add_term(alloc, &[], &[high(reset)], &mut terms)?;
    Ok(Guard::new(terms))
}

/// The guard of a rule in the net with the reset node, where the rule leads back to the node's first value, or
/// away from it.
fn guard_of(alloc: Global, guard: &Guard, leads_back: bool, reset: u32) -> Result<Guard, AllocError>
    ensures { IfOk result (λ g. g ≡ reset_guard reset leads_back guard.now) }
{
    if leads_back {
        forced_guard(alloc, guard, reset)
    } else {
        held_guard(alloc, guard, reset)
    }
}

fn is_driven(up: &Guard, down: &Guard) -> bool
    ensures { result ≡ has_rules up.now down.now }
{
    !up.terms().is_empty() || !down.terms().is_empty()
}

/// The guard that a rule of the node has in the net with the reset node.
fn new_guard(
    alloc: Global,
    guard: &Guard,
    is_driven: bool,
    leads_back: bool,
    reset: u32,
) -> Result<Guard, AllocError>
    ensures { IfOk result (λ g. g ≡ if is_driven then reset_guard reset leads_back guard.now else []) }
{
    if is_driven {
        guard_of(alloc, guard, leads_back, reset)
    } else {
        Ok(Guard::new(Vec::new(alloc)))
    }
}

/// The guards that the node has in the net with the reset node, in place of these.
fn guards_of(
    alloc: Global,
    up: &Guard,
    down: &Guard,
    is_high: bool,
    reset: u32,
) -> Result<(Guard, Guard), AllocError>
    ensures up { IfOk result
        (λ new. new.0 ≡ if has_rules up.now down.now then reset_guard reset is_high up.now else []) }
    ensures down { IfOk result
        (λ new. new.1 ≡ if has_rules up.now down.now then reset_guard reset (not is_high) down.now else []) }
{
    let is_driven = is_driven(up, down);
    let raising = new_guard(alloc, up, is_driven, is_high, reset)?;
    let lowering = new_guard(alloc, down, is_driven, !is_high, reset)?;
    Ok((raising, lowering))
}

/// Takes the node's guards out of the rules, and makes those of the net with the reset node of them.
fn new_guards(
    alloc: Global,
    rules: &mut Rules,
    node: u32,
    is_high: bool,
    reset: u32,
) -> Result<(Guard, Guard), AllocError>
    requires { node < length rules.old.up }
    ensures up { let up = slice_index_or rules.old.up node [] in let down = slice_index_or rules.old.down node [] in
        IfOk result (λ new. new.0 ≡ if has_rules up down then reset_guard reset is_high up else []) }
    ensures down { let up = slice_index_or rules.old.up node [] in let down = slice_index_or rules.old.down node [] in
        IfOk result (λ new. new.1 ≡ if has_rules up down then reset_guard reset (not is_high) down else []) }
    ensures left { rules.new ≡ with_rules node (record { up = []; down = [] }) rules.old }
{
    let (up, down) = (rules.take_up(node), rules.take_down(node));
    guards_of(alloc, &up, &down, is_high, reset)
}

/// The rules of the net with the reset node, of those of the net, which are let go one after the other.
fn rules_with_reset(alloc: Global, first: &[bool], rules: Rules) -> Result<Rules, AllocError>
    requires nodes { length rules.up ≡ length first.now }
    requires few { length first.now < 2 ^ 32 - 1 }
    ensures { IfOk result (λ made. made ≡ net_rules (reset_of (net_of [] first.now rules [] None))) }
{
    let nodes = first.len() as u32;
    let mut left = rules;
    let mut made = Rules::new(alloc, nodes + 1)?;
    for node in 0..nodes {
        let (up, down) = new_guards(alloc, &mut left, node, first[node as usize], nodes)?;
        made.set_up(node, up);
        made.set_down(node, down);
    }
    Ok(made)
}

/// The name of the reset node.
fn reset_name(alloc: Global) -> Result<Name, AllocError>
    ensures { IfOk result (λ name. name ≡ codes "reset") }
{
    let name = node_name_of(alloc, b"reset")?;
    Ok(name.unwrap())
}

/// Adds the reset node, which is high at first, to these nodes, and makes the rules of the net with it of theirs.
fn add_reset(
    alloc: Global,
    names: &mut Vec<Name>,
    first: &mut Vec<bool>,
    rules: Rules,
) -> Result<Rules, AllocError>
    requires nodes { length rules.up ≡ length first.old.items }
    requires few { length first.old.items < 2 ^ 32 - 1 }
    ensures names { IfOk result (λ _made. names.new.items ≡ names.old.items ++ codes "reset" ∷ []) }
    ensures first { IfOk result (λ _made. first.new.items ≡ first.old.items ++ true ∷ []) }
    ensures rules { IfOk result
        (λ made. made ≡ net_rules (reset_of (net_of [] first.old.items rules [] None))) }
{
    names.push(reset_name(alloc)?)?;
    let made = rules_with_reset(alloc, first, rules)?;
    first.push(true)?;
    Ok(made)
}

/// The net with one more node, named reset, that is high at first and has no rules. While it is high, the rules
/// of each other node drive that node to its first value: the guard that leads there has one more term, `reset`,
/// and each term of the other guard has one more literal, `~reset`.
pub fn with_reset(alloc: Global, net: Net) -> Result<Net, AllocError>
    requires plain { net.reset ≡ None }
    requires free { All (λ name. name ≢ codes "reset") net.names }
    ensures { IfOk result (λ n. n ≡ reset_of net) }
{
    // brings the invariant of the net's type into scope
    let _kept = net.first();
    let (mut names, mut first, rules, channels) = net.into_parts();
    let rules = add_reset(alloc, &mut names, &mut first, rules)?;
    Ok(Net::new_reset(names, first, rules, channels))
}
