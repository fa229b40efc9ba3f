//! The values of the nodes, and moves.

ghost use Rattle.std.specs.Prelude.{◌≡◌, ℕ, ◌<◌, length, All, IfOk, IfNone, IfSome, true, false};
ghost use Rattle.prs_core.specs.declared.rule.Literal.{Literal};
ghost use Rattle.prs_core.specs.Nets.{IsBelow};
ghost use Rattle.prs_core.specs.Moves.{high, literal_holds, term_holds, guard_holds, rule_enabled, fired, both_ways};

use crate::net::Net;
use crate::rule::{Guard, Literal, Term};
use std::alloc::{AllocError, Global};
use std::marker::Model;

/// A truth value for each node, seen as the list of them.
#[derive(Drop)]
pub struct State {
    high: Vec<bool>,
}

impl Model for State {
    ghost use Rattle.std.specs.Prelude.{List, Bool};

    ghost Value = { List Bool };

    ghost view = { λ s. s.high.items };
}

impl State {
    /// Whether the node is high.
    pub fn is_high(&self, node: u32) -> bool
        requires { node < length self.now }
        ensures { result ≡ high self.now node }
    {
        self.high[node as usize]
    }
}

/// The state in which each node has its first value.
pub fn first_state(alloc: Global, net: &Net) -> Result<State, AllocError>
    ensures { IfOk result (λ state. state ≡ net.now.first) }
{
    let high = Vec::from_slice(alloc, net.first())?;
    Ok(State { high })
}

/// Whether the literal's node has the wanted value.
fn literal_is_met(literal: &Literal, state: &State) -> bool
    requires { literal.now.node < length state.now }
    ensures { result ≡ literal_holds (high state.now) literal.now }
{
    if literal.high {
        state.is_high(literal.node)
    } else {
        !state.is_high(literal.node)
    }
}

/// Whether all the term's literals hold in the state.
fn term_is_met(term: &Term, state: &State) -> bool
    requires { All (λ (l : Literal). l.node < length state.now) term.now }
    ensures { result ≡ term_holds (high state.now) term.now }
{
    term.literals()
        .iter()
        .all(|literal| literal_is_met(literal, state))
}

/// Whether one of the guard's terms holds in the state. Martin: a production rule's guard is a disjunction of
/// conjunctions.
pub fn holds(guard: &Guard, state: &State) -> bool
    requires { IsBelow (length state.now) guard.now }
    ensures { result ≡ guard_holds (high state.now) guard.now }
{
    guard.terms().iter().any(|term| term_is_met(term, state))
}

/// Whether a rule of the node is enabled: it is low and its up guard holds, or high and its down guard holds.
pub fn enabled(net: &Net, state: &State, node: u32) -> bool
    requires count { length state.now ≡ length net.now.first }
    requires node { node < length net.now.first }
    ensures { result ≡ rule_enabled net.now (high state.now) node }
{
    let _net = net.first();
    if state.is_high(node) {
        holds(net.down(node), state)
    } else {
        holds(net.up(node), state)
    }
}

/// Turns the node's value over.
pub fn fire(state: &mut State, node: u32)
    requires { node < length state.old }
    ensures { state.new ≡ fired state.old node }
{
    let place = node as usize;
    state.high[place] = !state.high[place];
}

/// The least node whose two guards hold at once, or None where there is none.
pub fn pulled_both_ways(net: &Net, state: &State) -> Option<u32>
    requires { length state.now ≡ length net.now.first }
    ensures none { IfNone result ((n : ℕ) → n < length net.now.first → both_ways net.now (high state.now) n ≡ false) }
    ensures within { IfSome result (λ n. n < length net.now.first) }
    ensures some { IfSome result (λ n. both_ways net.now (high state.now) n ≡ true) }
    ensures least { IfSome result (λ n. (k : ℕ) → k < n → both_ways net.now (high state.now) k ≡ false) }
{
    for node in 0..net.first().len() as u32 {
        if holds(net.up(node), state) && holds(net.down(node), state) {
            return Some(node);
        }
    }
    None
}
