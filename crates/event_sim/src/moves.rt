//! What a move completes, and whether a reset is on.

ghost use Rattle.std.specs.Prelude.{◌≡◌, ◌<◌, length};
ghost use Rattle.prs_core.specs.Nets.{IsNet};
ghost use Rattle.prs_core.specs.Moves.{high};
ghost use Rattle.env_script.specs.Environment.{in_reset, is_reset};
ghost use Rattle.env_script.specs.Wired.{IsWired};
ghost use Rattle.env_script.specs.Runs.{completes};

use prs_core::{Net, State, Wires, rail_value};

/// Whether the net has a reset node and it is high.
pub(crate) fn in_reset(net: &Net, state: &State) -> bool
    requires { length state.now ≡ length net.now.first }
    ensures reset { result ≡ in_reset net.now.reset (high state.now) }
    ensures net { IsNet net.now }
{
    match net.reset() {
        None => false,
        Some(node) => state.is_high(node),
    }
}

/// Whether the node is the net's reset node.
pub(crate) fn is_reset(net: &Net, node: u32) -> bool
    ensures { result ≡ is_reset net.now.reset node }
{
    match net.reset() {
        None => false,
        Some(other) => node == other,
    }
}

/// The value that a move of the node completes on the channel.
pub(crate) fn completes(wires: &Wires, state: &State, node: u32) -> Option<u64>
    requires wired { IsWired (length state.now) wires.now }
    requires node { node < length state.now }
    ensures { result ≡ completes (high state.now) wires.now node }
{
    if node == wires.ack && !state.is_high(node) {
        rail_value(state, wires.rails.nodes())
    } else {
        None
    }
}
