//! Runs.

ghost use Rattle.std.specs.Prelude.{◌≡◌, ℕ, ◌<◌, List, [], ◌==◌, ◌&&◌, not, false, length, map, All, replicate, slice_index_or, IfOk, OnOk, ◌^◌};
ghost use Rattle.std.specs.List.{range_with_len};
ghost use Rattle.prs_core.specs.declared.wires.Wires.{Wires};
ghost use Rattle.prs_core.specs.Moves.{high, both_ways};
ghost use Rattle.env_script.specs.Scripts.{IsScript};
ghost use Rattle.env_script.specs.Environment.{net_channels, in_reset};
ghost use Rattle.env_script.specs.Wired.{IsWired};
ghost use Rattle.plain_runs.specs.Running.{lost, worst};
ghost use Rattle.env_script.specs.Runs.{completed, completes, with_value, with_values, run_start, move_enabled, moved, history_at};
ghost use Rattle.env_script.specs.Hazards.{least_below, hazard_of};

use env_script::{Hazard, Script, env_enabled, keeps_phases};
use prs_core::{Net, State, Wires, enabled, fire, first_state, pulled_both_ways, rail_value};
use std::alloc::{AllocError, Global};
use std::marker::Model;

/// What has passed on a channel, seen as the list of the values, the first one first.
#[derive(Drop)]
pub struct History {
    values: Vec<u64>,
}

impl Model for History {
    ghost use Rattle.std.specs.Prelude.{List, ℕ};

    ghost Value = { List ℕ };

    ghost view = { λ h. h.values.items };
}

impl History {
    /// The values that have passed.
    pub fn values(&self) -> &[u64]
        ensures { result.now ≡ self.now }
    {
        &self.values
    }
}

/// A run of a net under a script.
#[derive(Drop)]
pub struct Run {
    net: Net,
    script: Script,
    state: State,
    histories: Vec<History>,
}

impl Model for Run {
    ghost use Rattle.plain_runs.specs.Running.{RunValue, IsRunning, running};

    ghost Value = { RunValue };

    ghost view = { λ r. running r.net r.script r.state r.histories.items };

    ghost invariant = { λ r. IsRunning (running r.net r.script r.state r.histories.items) };
}

fn no_histories(alloc: Global, channels: usize) -> Result<Vec<History>, AllocError>
    ensures { IfOk result (λ v. v.items ≡ replicate channels []) }
{
    let mut histories = Vec::new(alloc);
    for _channel in 0..channels {
        histories.push(History {
            values: Vec::new(alloc),
        })?;
    }
    Ok(histories)
}

/// How many values each history has.
fn counts(alloc: Global, histories: &[History]) -> Result<Vec<u64>, AllocError>
    ensures { IfOk result (λ v. v.items ≡ map (λ (h : List ℕ). length h) histories.now) }
{
    histories
        .iter()
        .map(|history| history.values().len() as u64)
        .collect(alloc)
}

/// Appends the value that a move of the node completes on the channel, where it completes one.
fn note(history: &mut History, wires: &Wires, state: &State, node: u32) -> Result<(), AllocError>
    requires wired { IsWired (length state.now) wires.now }
    requires node { node < length state.now }
    ensures { OnOk result (history.new ≡ with_value (completes (high state.now) wires.now node) history.old) }
{
    if node == wires.ack && !state.is_high(node) {
        if let Some(value) = rail_value(state, wires.rails.nodes()) {
            history.values.push(value)?;
        }
    }
    Ok(())
}

/// Appends to each history what a move of the node completes on its channel.
fn note_all(
    histories: &mut Vec<History>,
    channels: &[Wires],
    state: &State,
    node: u32,
) -> Result<(), AllocError>
    requires wired { All (IsWired (length state.now)) channels.now }
    requires each { length histories.old.items ≡ length channels.now }
    requires node { node < length state.now }
    ensures noted { OnOk result (histories.new.items ≡ with_values (high state.now) node channels.now
        histories.old.items) }
    ensures count { length histories.new.items ≡ length histories.old.items }
{
    for chan in 0..channels.len() {
        note(&mut histories[chan], &channels[chan], state, node)?;
    }
    Ok(())
}

fn is_lost(was: bool, now: bool, other: u32, node: u32) -> bool
    ensures { result ≡ lost was now other node }
{
    other != node && was && !now
}

/// The least node other than this one that was enabled and is no longer.
fn first_lost(was: &[bool], now: &[bool], node: u32) -> Option<u32>
    requires nodes { length now.now ≡ length was.now }
    requires few { length was.now < 2 ^ 32 }
    ensures { result ≡ least_below (length was.now)
        (λ m. lost (slice_index_or was.now m false) (slice_index_or now.now m false) m node) }
{
    for other in 0..was.len() as u32 {
        if is_lost(was[other as usize], now[other as usize], other, node) {
            return Some(other);
        }
    }
    None
}

/// The least node with interference (both guards hold).
fn first_pulled(net: &Net, state: &State) -> Option<u32>
    requires { length state.now ≡ length net.now.first }
    ensures { result ≡ least_below (length net.now.first) (both_ways net.now (high state.now)) }
{
    match pulled_both_ways(net, state) {
        None => None,
        Some(node) => Some(node),
    }
}

fn worst(pulled: Option<u32>, lost: Option<u32>, broken: Option<u32>) -> Option<Hazard>
    ensures { result ≡ worst pulled lost broken }
{
    if let Some(node) = pulled {
        return Some(Hazard::BothWays { node });
    }
    if let Some(node) = lost {
        return Some(Hazard::Unstable { node });
    }
    match broken {
        None => None,
        Some(chan) => Some(Hazard::Protocol { chan }),
    }
}

/// The hazard in this state, after a move of the node that broke the phases of this channel, where it broke any.
fn hazard(
    net: &Net,
    state: &State,
    before: &[bool],
    after: &[bool],
    broken: Option<u32>,
    node: u32,
) -> Option<Hazard>
    requires state { length state.now ≡ length net.now.first }
    requires before { length before.now ≡ length net.now.first }
    requires after { length after.now ≡ length before.now }
    ensures { result ≡ worst (least_below (length net.now.first) (both_ways net.now (high state.now)))
        (least_below (length before.now)
        (λ m. lost (slice_index_or before.now m false) (slice_index_or after.now m false) m node)) broken }
{
    let _nodes = net.first();
    worst(
        first_pulled(net, state),
        first_lost(before, after, node),
        broken,
    )
}

impl Run {
    ghost use Rattle.plain_runs.specs.Running.{RunValue, running};

    /// The run that has made no move, from the net's first values.
    pub fn new(alloc: Global, net: Net, script: Script) -> Result<Run, AllocError>
        requires { IsScript (net_channels net) script }
        ensures { IfOk result (λ r. r ≡ record { net = net; script = script; now = run_start net }) }
    {
        let state = first_state(alloc, &net)?;
        let histories = no_histories(alloc, net.channels().len())?;
        Ok(Run {
            net,
            script,
            state,
            histories,
        })
    }

    /// Whether the node has an enabled move, where so many values are completed on each channel.
    fn is_enabled(&self, done: &[u64], node: u32) -> bool
        requires done { done.now ≡ map (λ (h : List ℕ). length h) self.now.now.histories }
        requires node { node < length self.now.net.first }
        ensures { result ≡ move_enabled self.now.net self.now.script self.now.now node }
    {
        enabled(&self.net, &self.state, node)
            || env_enabled(&self.net, &self.script, done, &self.state, node)
    }

    /// Whether each node has an enabled move.
    pub fn enabled_nodes(&self, alloc: Global) -> Result<Vec<bool>, AllocError>
        ensures { IfOk result (λ v. v.items ≡ map (move_enabled self.now.net self.now.script self.now.now)
            (range_with_len 0 (length self.now.net.first))) }
    {
        let done = counts(alloc, &self.histories)?;
        let mut moves = Vec::new(alloc);
        for node in 0..self.net.first().len() as u32 {
            moves.push(self.is_enabled(&done, node))?;
        }
        Ok(moves)
    }

    /// Whether the net is in a reset.
    fn in_reset(&self) -> bool
        ensures { result ≡ in_reset self.now.net.reset (high self.now.now.values) }
    {
        match self.net.reset() {
            None => false,
            Some(node) => self.state.is_high(node),
        }
    }

    /// Moves the node, with what that completes.
    fn pass(&mut self, node: u32) -> Result<(), AllocError>
        requires { node < length self.old.net.first }
        ensures { OnOk result (self.new ≡ record self.old { now = moved self.old.net self.old.now node }) }
    {
        if !self.in_reset() {
            note_all(&mut self.histories, self.net.channels(), &self.state, node)?;
        }
        fire(&mut self.state, node);
        Ok(())
    }

    /// Moves the node, whether or not its move is enabled, and returns the hazard that this brings, or None where there
    /// is none: the least node with interference after the move; else the least other node that had an enabled
    /// move and has none; else the channel whose phases the move breaks.
    pub fn make(&mut self, alloc: Global, node: u32) -> Result<Option<Hazard>, AllocError>
        requires { node < length self.old.net.first }
        ensures moved { OnOk result (self.new ≡ record self.old { now = moved self.old.net self.old.now node }) }
        ensures hazard { IfOk result (λ hazard. hazard ≡ hazard_of self.old.net self.old.script self.old.now node) }
    {
        let before = self.enabled_nodes(alloc)?;
        let broken = keeps_phases(&self.net, &self.state, node);
        self.pass(node)?;
        let after = self.enabled_nodes(alloc)?;
        Ok(hazard(&self.net, &self.state, &before, &after, broken, node))
    }

    /// The values that have passed on the channel.
    pub fn history(&self, chan: u32) -> &[u64]
        requires { chan < length self.now.now.histories }
        ensures { result.now ≡ history_at self.now.now.histories chan }
    {
        self.histories[chan as usize].values()
    }

    /// Whether the node is high.
    pub fn is_high(&self, node: u32) -> bool
        requires { node < length self.now.net.first }
        ensures { result ≡ high self.now.now.values node }
    {
        self.state.is_high(node)
    }
}
