//! The moves of the environment.

ghost use Rattle.std.specs.Prelude.{◌≡◌, ℕ, ◌<◌, ◌≤◌, ◌*◌, ◌^◌, length, All, slice_index, ◌==◌};
ghost use Rattle.std.specs.List.{list_any};
ghost use Rattle.prs_core.specs.declared.wires.Wires.{Wires};
ghost use Rattle.prs_core.specs.Moves.{high};
ghost use Rattle.env_script.specs.Scripts.{is_over, IsScript, offer_at};
ghost use Rattle.env_script.specs.Offers.{offered};
ghost use Rattle.env_script.specs.Environment.{net_channels, in_reset, is_reset, rules_rest, raises_bit, raises_value, lowers, valid, receiver_moves, offer_moves, channels_move, env_enabled};
ghost use Rattle.env_script.specs.Wired.{IsWired};

use crate::script::{Count, Offer, Script};
use prs_core::{Net, State, Wires, all_neutral, enabled, rail_value};

/// Whether more than this number of values is received.
fn is_over(count: Count, done: u64) -> bool
    ensures { result ≡ is_over count done }
{
    match count {
        Count::All => true,
        Count::Times(most) => done < most,
    }
}

/// Whether the net has a reset node and it is high.
pub(crate) fn in_reset(net: &Net, state: &State) -> bool
    requires { length state.now ≡ length net.now.first }
    ensures { result ≡ in_reset net.now.reset (high state.now) }
{
    match net.reset() {
        None => false,
        Some(node) => state.is_high(node),
    }
}

fn is_reset(reset: Option<u32>, node: u32) -> bool
    ensures { result ≡ is_reset reset node }
{
    match reset {
        None => false,
        Some(other) => node == other,
    }
}

/// Whether no rule is enabled.
fn rules_rest(net: &Net, state: &State) -> bool
    requires { length state.now ≡ length net.now.first }
    ensures { result ≡ rules_rest net.now (high state.now) }
{
    for node in 0..net.first().len() as u32 {
        if enabled(net, state, node) {
            return false;
        }
    }
    true
}

fn raises_bit(state: &State, bit: bool, t: u32, f: u32, node: u32) -> bool
    requires t { t < length state.now }
    requires f { f < length state.now }
    ensures { result ≡ raises_bit (high state.now) bit t f node }
{
    let rail = if bit { t } else { f };
    node == rail && !state.is_high(t) && !state.is_high(f)
}

/// Whether the node is a rail that may rise to bring the value.
fn raises_value(state: &State, value: u64, rails: &[u32], node: u32) -> bool
    requires pairs { (bits : ℕ) × (length rails.now ≡ 2 * bits) }
    requires within { All (λ rail. rail < length state.now) rails.now }
    ensures { result ≡ raises_value (high state.now) value rails.now node }
{
    let mut rest = value;
    for bit in 0..rails.len() / 2 {
        if raises_bit(
            state,
            rest % 2 == 1,
            rails[2 * bit],
            rails[2 * bit + 1],
            node,
        ) {
            return true;
        }
        rest /= 2;
    }
    false
}

fn is_among(rails: &[u32], node: u32) -> bool
    ensures { result ≡ list_any (λ rail. node == rail) rails.now }
{
    rails.iter().any(|rail| node == *rail)
}

fn lowers(state: &State, rails: &[u32], node: u32) -> bool
    requires { node < length state.now }
    ensures { result ≡ lowers (high state.now) rails.now node }
{
    state.is_high(node) && is_among(rails, node)
}

fn receiver_moves(state: &State, wires: &Wires, more: bool, node: u32) -> bool
    requires { IsWired (length state.now) wires.now }
    ensures { result ≡ receiver_moves (high state.now) wires.now more node }
{
    if node != wires.ack {
        return false;
    }
    if state.is_high(wires.ack) {
        return all_neutral(state, wires.rails.nodes());
    }
    rail_value(state, wires.rails.nodes()).is_some() && more
}

/// Whether the environment may move the node as a wire of one channel, for the offer on it, of which so many values are
/// completed. This is the part of one channel in `env_enabled`, outside of reset: the node is a rail or the acknowledge
/// of the channel, or the result is false.
pub fn offer_moves(state: &State, wires: &Wires, offer: &Offer, done: u64, node: u32) -> bool
    requires wired { IsWired (length state.now) wires.now }
    requires node { node < length state.now }
    ensures { result ≡ offer_moves (high state.now) wires.now (offered offer.now) done node }
{
    match offer {
        Offer::Values(values) => {
            let rails = wires.rails.nodes();
            if state.is_high(wires.ack) {
                return lowers(state, rails, node);
            }
            if done >= values.len() as u64 {
                return false;
            }
            raises_value(state, values[done as usize], rails, node)
        }
        Offer::Accept(count) => receiver_moves(state, wires, is_over(*count, done), node),
        Offer::Nothing => false,
    }
}

/// Whether the environment may move the node for one of the channels.
fn channels_move(net: &Net, script: &Script, done: &[u64], state: &State, node: u32) -> bool
    requires script { length script.now ≡ length net.now.channels }
    requires done { length done.now ≡ length net.now.channels }
    requires state { length state.now ≡ length net.now.first }
    requires node { node < length net.now.first }
    ensures { result ≡ channels_move (high state.now) (offer_at script.now) (slice_index done.now) 0 net.now.channels
        node }
{
    let channels = net.channels();
    let offers = script.offers();
    for chan in 0..channels.len() {
        if offer_moves(state, &channels[chan], &offers[chan], done[chan], node) {
            return true;
        }
    }
    false
}

/// Whether the environment has a move at the node, under the script and with the number of values that are completed
/// on each channel. It raises `go` where that is low. On an `in` channel whose acknowledge is low it raises, for each
/// bit with both rails low, the rail of the next value, while the script lists one; where the acknowledge is high it
/// lowers each rail that is high. It raises the acknowledge of an `out` channel where that is low, each bit has
/// exactly one rail high and the script has acceptances left, and lowers it where all rails are low. While a reset
/// node is high it does nothing but lower that node, where no rule is enabled; it never raises it. (The handshake is
/// Martin's; the script is our profile.)
pub fn env_enabled(net: &Net, script: &Script, done: &[u64], state: &State, node: u32) -> bool
    requires script { IsScript (net_channels net.now) script.now }
    requires done { length done.now ≡ length net.now.channels }
    requires state { length state.now ≡ length net.now.first }
    requires node { node < length net.now.first }
    ensures { result ≡ env_enabled net.now script.now (slice_index done.now) (high state.now) node }
{
    if in_reset(net, state) {
        return is_reset(net.reset(), node) && rules_rest(net, state);
    }
    if node == 0 && !state.is_high(node) {
        return true;
    }
    channels_move(net, script, done, state, node)
}
