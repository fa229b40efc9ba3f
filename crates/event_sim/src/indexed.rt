//! A net under a script, with an index of what a move may concern.

ghost use Rattle.std.specs.Prelude.{◌≡◌, ◌<◌, ◌^◌, ◌||◌, length, slice_index, IfOk, IfSome, IsSome};
ghost use Rattle.prs_core.specs.Nets.{IsNet};
ghost use Rattle.prs_core.specs.Moves.{high};
ghost use Rattle.env_script.specs.Scripts.{IsScript, offer_at};
ghost use Rattle.env_script.specs.Environment.{net_channels, channels_move};
ghost use Rattle.env_script.specs.Phases.{phase_fault};
ghost use Rattle.guard_rows.specs.Places.{AreRows};
ghost use Rattle.event_sim.specs.Passing.{channel_acknowledged, completion};
ghost use Rattle.event_sim.specs.Locality.{is_asked, is_ready, IsHome, IsShared};
ghost use Rattle.event_sim.specs.Standings.{offered_count, is_done, script_and};

use crate::homes::homes_of;
use crate::moves::{completes, in_reset};
use crate::offers::Offers;
use env_script::{Script, phases_keep};
use guard_rows::GuardRows;
use prs_core::{Net, State};
use std::alloc::{AllocError, Global};
use std::marker::Model;

/// A net under a script, with the channel that each node is a wire of.
#[derive(Drop)]
pub(crate) struct IndexedNet {
    net: Net,
    offers: Offers,
    homes: Vec<Option<u32>>,
}

impl Model for IndexedNet {
    ghost use Rattle.event_sim.specs.Locality.{IndexedValue, IsNetIndex};

    ghost Value = { IndexedValue };

    ghost view = { λ x. record { net = x.net; script = x.offers } };

    ghost invariant = { λ x. IsNetIndex (record { net = x.net; script = x.offers }) x.homes.items };
}

impl IndexedNet {
    ghost use Rattle.event_sim.specs.Locality.{IndexedValue};

    /// The net under the script, indexed.
    pub(crate) fn new(alloc: Global, net: Net, script: Script) -> Result<IndexedNet, AllocError>
        requires script { IsScript (net_channels net) script }
        ensures { IfOk result (λ x. x ≡ record { net = net; script = script }) }
    {
        let _first = net.first();
        let homes = homes_of(alloc, &net)?;
        let offers = Offers::new(alloc, script)?;
        Ok(IndexedNet { net, offers, homes })
    }

    /// The net.
    pub(crate) fn net(&self) -> &Net
        ensures net { result.now ≡ self.now.net }
        ensures is_net { IsNet self.now.net }
        ensures script { IsScript (net_channels self.now.net) self.now.script }
    {
        &self.net
    }

    /// The net alone.
    pub(crate) fn into_net(self) -> Net
        ensures { result ≡ self.net }
    {
        self.net
    }

    /// The channel that the node is a wire of, where there is one.
    fn home(&self, node: u32) -> Option<u32>
        requires { node < length self.now.net.first }
        ensures home { IsHome self.now.net node result }
        ensures net { IsNet self.now.net }
        ensures script { IsScript (net_channels self.now.net) self.now.script }
    {
        self.homes[node as usize]
    }

    /// The same, but for a channel in which the environment has no part.
    pub(crate) fn shared_channel(&self, node: u32) -> Option<u32>
        requires { node < length self.now.net.first }
        ensures { IsShared self.now.net self.now.script node result }
    {
        match self.home(node) {
            Some(chan) if !self.offers.is_nothing(chan) => Some(chan),
            _ => None,
        }
    }

    /// Whether the environment may move the node as a wire of a channel.
    fn is_offered(&self, done: &[u64], state: &State, node: u32) -> bool
        requires done { length done.now ≡ length self.now.net.channels }
        requires state { length state.now ≡ length self.now.net.first }
        requires node { node < length self.now.net.first }
        ensures { result ≡ channels_move (high state.now) (offer_at self.now.script) (slice_index done.now) 0
            self.now.net.channels node }
    {
        match self.home(node) {
            None => false,
            Some(chan) => {
                let wires = &self.net.channels()[chan as usize];
                self.offers
                    .moves(chan, wires, state, done[chan as usize], node)
            }
        }
    }

    /// Whether a rule of the node is enabled, as this says, or the environment may move it while no reset is on, where
    /// so many values are completed on each channel.
    fn may_move(&self, rule: bool, done: &[u64], state: &State, node: u32) -> bool
        requires done { length done.now ≡ length self.now.net.channels }
        requires state { length state.now ≡ length self.now.net.first }
        requires node { node < length self.now.net.first }
        ensures { result ≡ (rule || is_asked self.now done.now state.now node) }
    {
        rule || (!in_reset(&self.net, state)
            && ((node == 0 && !state.is_high(node)) || self.is_offered(done, state, node)))
    }

    /// The same, where the rows say whether a rule of it is enabled.
    pub(crate) fn is_ready(&self, rows: &GuardRows, done: &[u64], state: &State, node: u32) -> bool
        requires rows { AreRows self.now.net state.now rows.now }
        requires done { length done.now ≡ length self.now.net.channels }
        requires state { length state.now ≡ length self.now.net.first }
        requires node { node < length self.now.net.first }
        ensures { result ≡ is_ready self.now done.now state.now node }
    {
        self.may_move(rows.enabled(&self.net, state, node), done, state, node)
    }

    /// The channel and the value that a move of the node completes.
    pub(crate) fn completion(&self, state: &State, node: u32) -> Option<(u32, u64)>
        requires state { length state.now ≡ length self.now.net.first }
        requires node { node < length self.now.net.first }
        ensures completion { result ≡ completion self.now.net (high state.now) node }
        ensures net { IsNet self.now.net }
    {
        if in_reset(&self.net, state) {
            return None;
        }
        match self.home(node) {
            None => None,
            Some(chan) => match completes(&self.net.channels()[chan as usize], state, node) {
                None => None,
                Some(value) => Some((chan, value)),
            },
        }
    }

    /// The channel whose acknowledge the node is.
    pub(crate) fn acknowledged(&self, node: u32) -> Option<u32>
        requires { node < length self.now.net.first }
        ensures { result ≡ channel_acknowledged self.now.net.channels node }
    {
        match self.home(node) {
            None => None,
            Some(chan) => {
                if node == self.net.channels()[chan as usize].ack {
                    Some(chan)
                } else {
                    None
                }
            }
        }
    }

    /// How many values or acceptances are offered on the channel, where that is a number.
    pub(crate) fn number(&self, chan: u32) -> Option<u64>
        requires { chan < length self.now.net.channels }
        ensures { result ≡ offered_count (offer_at self.now.script chan) }
    {
        let _homes = self.homes.len();
        self.offers.number(chan)
    }

    /// Offers one more value on the channel, in place of all values before it too, or makes one more acceptance.
    pub(crate) fn add(&mut self, chan: u32, value: u64)
        requires chan { chan < length self.old.net.channels }
        requires number { IsSome (offered_count (offer_at self.old.script chan)) }
        requires few { IfSome (offered_count (offer_at self.old.script chan)) (λ n. n < 2 ^ 63) }
        requires script { IsScript (net_channels self.old.net) (script_and chan value self.old.script) }
        ensures { self.new ≡ record self.old { script = script_and chan value self.old.script } }
    {
        self.offers.add(chan, value);
    }

    /// The channel whose phases a move of the node breaks.
    pub(crate) fn broken_phases(&self, state: &State, node: u32) -> Option<u32>
        requires state { length state.now ≡ length self.now.net.first }
        requires node { node < length self.now.net.first }
        ensures { result ≡ phase_fault self.now.net (high state.now) node }
    {
        if in_reset(&self.net, state) {
            return None;
        }
        match self.home(node) {
            None => None,
            Some(chan) => {
                if phases_keep(state, &self.net.channels()[chan as usize], node) {
                    None
                } else {
                    Some(chan)
                }
            }
        }
    }
}
