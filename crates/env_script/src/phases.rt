//! The phases of channels.

ghost use Rattle.std.specs.Prelude.{◌≡◌, ℕ, ◌<◌, ◌≤◌, ◌*◌, length, All, not, position};
ghost use Rattle.prs_core.specs.declared.wires.Wires.{Wires};
ghost use Rattle.prs_core.specs.Moves.{high};
ghost use Rattle.env_script.specs.Phases.{rail_keeps, pair_keeps, rails_keep, ack_keeps, phases_keep, phase_fault};
ghost use Rattle.env_script.specs.Wired.{IsWired};

use crate::environment::in_reset;
use prs_core::{Net, State, Wires, all_neutral, rail_value};

fn rail_keeps(state: &State, ack: u32, rail: u32, other: u32) -> bool
    requires ack { ack < length state.now }
    requires rail { rail < length state.now }
    requires other { other < length state.now }
    ensures { result ≡ rail_keeps (high state.now) ack rail other }
{
    if state.is_high(rail) {
        state.is_high(ack)
    } else {
        !state.is_high(ack) && !state.is_high(other)
    }
}

fn pair_keeps(state: &State, ack: u32, t: u32, f: u32, node: u32) -> bool
    requires ack { ack < length state.now }
    requires t { t < length state.now }
    requires f { f < length state.now }
    ensures { result ≡ pair_keeps (high state.now) ack t f node }
{
    (node != t || rail_keeps(state, ack, t, f)) && (node != f || rail_keeps(state, ack, f, t))
}

fn rails_keep(state: &State, ack: u32, rails: &[u32], node: u32) -> bool
    requires pairs { (bits : ℕ) × (length rails.now ≡ 2 * bits) }
    requires within { All (λ rail. rail < length state.now) rails.now }
    requires ack { ack < length state.now }
    ensures { result ≡ rails_keep (high state.now) ack rails.now node }
{
    for bit in 0..rails.len() / 2 {
        if !pair_keeps(state, ack, rails[2 * bit], rails[2 * bit + 1], node) {
            return false;
        }
    }
    true
}

fn ack_keeps(state: &State, wires: &Wires) -> bool
    requires { IsWired (length state.now) wires.now }
    ensures { result ≡ ack_keeps (high state.now) wires.now.ack wires.now.rails }
{
    if state.is_high(wires.ack) {
        all_neutral(state, wires.rails.nodes())
    } else {
        rail_value(state, wires.rails.nodes()).is_some()
    }
}

/// Whether a change of the node in this state keeps the phases of one channel: the part of one channel in
/// `keeps_phases`. A node that is no wire of the channel keeps them.
pub fn phases_keep(state: &State, wires: &Wires, node: u32) -> bool
    requires { IsWired (length state.now) wires.now }
    ensures { result ≡ phases_keep (high state.now) wires.now node }
{
    rails_keep(state, wires.ack, wires.rails.nodes(), node)
        && (node != wires.ack || ack_keeps(state, wires))
}

/// The first of the channels whose phases a change of the node would break.
fn first_fault(channels: &[Wires], state: &State, node: u32) -> Option<usize>
    requires { All (IsWired (length state.now)) channels.now }
    ensures { result ≡ position (λ w. not (phases_keep (high state.now) w node)) channels.now }
{
    channels
        .iter()
        .position(|wires| !phases_keep(state, wires, node))
}

/// The number of the channel whose phases a change of the node in this state would break, or None where there is
/// none. A rail may rise only where the acknowledge and the bit's other rail are low, and fall only where the
/// acknowledge is high. The acknowledge may rise only where each bit has exactly one rail high, and fall only where
/// all rails are low. While a reset node is high no change breaks a phase. (Martin's four-phase handshake.)
pub fn keeps_phases(net: &Net, state: &State, node: u32) -> Option<u32>
    requires state { length state.now ≡ length net.now.first }
    requires node { node < length net.now.first }
    ensures { result ≡ phase_fault net.now (high state.now) node }
{
    if in_reset(net, state) {
        return None;
    }
    match first_fault(net.channels(), state, node) {
        None => None,
        Some(chan) => Some(chan as u32),
    }
}
