//! Where a run begins.

ghost use Rattle.std.specs.Prelude.{◌≡◌, ◌<◌, length, slice_set, IfOk};
ghost use Rattle.prs_core.specs.Nets.{up_of, down_of};
ghost use Rattle.reset_net.specs.Resets.{has_rules};
ghost use Rattle.event_sim.specs.Following.{power_value, power_of};

use prs_core::{Net, State, fire, first_state};
use std::alloc::{AllocError, Global};

/// Whether a rule turns the node over.
fn is_driven(net: &Net, node: u32) -> bool
    requires { node < length net.now.first }
    ensures { result ≡ has_rules (up_of net.now node) (down_of net.now node) }
{
    !net.up(node).terms().is_empty() || !net.down(node).terms().is_empty()
}

/// The value of the node at power-up of a net with a reset node.
fn power_value(net: &Net, high: bool, node: u32) -> bool
    requires { node < length net.now.first }
    ensures { result ≡ power_value net.now high node }
{
    if is_driven(net, node) {
        high
    } else {
        net.first()[node as usize]
    }
}

/// Gives the node this value.
fn settle(state: &mut State, node: u32, value: bool)
    requires { node < length state.old }
    ensures { state.new ≡ slice_set state.old node value }
{
    if state.is_high(node) != value {
        fire(state, node);
    }
}

/// The state at power-up: in a net with a reset node each node that has rules has this value, and every other its
/// first value. A net without one begins with its first values.
pub fn power_state(alloc: Global, net: &Net, high: bool) -> Result<State, AllocError>
    ensures values { IfOk result (λ s. s ≡ power_of net.now high) }
    ensures count { IfOk result (λ s. length s ≡ length net.now.first) }
{
    let mut state = first_state(alloc, net)?;
    if net.reset().is_none() {
        return Ok(state);
    }
    for node in 0..net.first().len() as u32 {
        settle(&mut state, node, power_value(net, high, node));
    }
    Ok(state)
}
