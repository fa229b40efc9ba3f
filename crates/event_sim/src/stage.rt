//! A run that goes on.

ghost use Rattle.std.specs.Prelude.{◌≡◌, ◌<◌, ◌≤◌, ◌+◌, ◌^◌, ◌++◌, ◌==◌, ℕ, true, false, All, List, [], length, map, replicate, vec_len, vec_capacity, option_to_list, IfOk, IfSome};
ghost use Rattle.prs_core.specs.Nets.{IsNet};
ghost use Rattle.prs_core.specs.Moves.{high};
ghost use Rattle.env_script.specs.Scripts.{IsScript};
ghost use Rattle.env_script.specs.Environment.{net_channels, in_reset, is_reset};
ghost use Rattle.env_script.specs.Runs.{moved, move_enabled};
ghost use Rattle.env_script.specs.Hazards.{first_hazard, hazard_of};
ghost use Rattle.guard_rows.specs.Places.{AreRows};
ghost use Rattle.event_sim.specs.Passing.{channel_acknowledged, completion, channel_histories};
ghost use Rattle.event_sim.specs.Standings.{is_idle, script_and};

use crate::hazards::{first_pulled, pulled_behind, worst_cause};
use crate::indexed::IndexedNet;
use crate::listing::{add_reset, list_ready, relist, retest_channel};
use crate::moves::{in_reset, is_reset};
use crate::node_set::NodeSet;
use crate::ran::{End, Ran};
use env_script::{Hazard, Script};
use guard_rows::GuardRows;
use prs_core::{Net, State, fire};
use std::alloc::{AllocError, Global};
use std::marker::Model;

/// The nodes that a move of a node concerns, in three parts.
#[derive(Clone, Copy)]
pub struct Concerned<'a> {
    /// Those that read it, each with what a turn of the node adds to its place among the rows of the guards.
    pub readers: &'a [(u32, u32)],
    /// The rails of its channel, or for the reset node all nodes that have a move.
    pub rails: &'a [u32],
    /// Itself, the acknowledge of its channel, and the reset node.
    pub others: [u32; 3],
}

/// How far a run has come: its net and script, the values of the nodes, and what has passed. It also keeps how many
/// values are completed on each channel, what the guards of the nodes say, the list of the enabled moves, and the least
/// node with interference.
#[derive(Drop)]
pub struct Stage {
    indexed: IndexedNet,
    state: State,
    rows: GuardRows,
    done: Vec<u64>,
    passed: Vec<(u32, u64)>,
    moves: NodeSet,
    pulled: Option<u32>,
}

impl Model for Stage {
    ghost use Rattle.std.specs.Prelude.{◌-◌, length, vec_capacity};
    ghost use Rattle.event_sim.specs.Stages.{StageValue, stage_with, IsKeptBeside};

    ghost Value = { StageValue };

    ghost view = { λ s. stage_with s.indexed.net s.indexed.script s.state s.passed.items
        (vec_capacity s.passed - length s.passed.items) };

    ghost invariant = { λ s. IsKeptBeside
        (stage_with s.indexed.net s.indexed.script s.state s.passed.items
        (vec_capacity s.passed - length s.passed.items)) s.done.items s.rows s.moves s.pulled };
}

fn no_counts(alloc: Global, channels: usize) -> Result<Vec<u64>, AllocError>
    ensures { IfOk result (λ v. v.items ≡ replicate channels 0) }
{
    let mut counts = Vec::new(alloc);
    for _channel in 0..channels {
        counts.push(0)?;
    }
    Ok(counts)
}

/// A count of 0 for each channel, room for so many values, and the empty set of moves.
fn room_for(
    alloc: Global,
    nodes: usize,
    channels: usize,
    room: u32,
) -> Result<(Vec<u64>, Vec<(u32, u64)>, NodeSet), AllocError>
    requires { nodes < 2 ^ 32 }
    ensures done { IfOk result (λ r. r.0.items ≡ replicate channels 0) }
    ensures passed { IfOk result (λ r. r.1.items ≡ []) }
    ensures room { IfOk result (λ r. vec_capacity r.1 ≡ room) }
    ensures moves { IfOk result (λ r. r.2 ≡ replicate nodes false) }
{
    let done = no_counts(alloc, channels)?;
    let passed = Vec::with_capacity(alloc, room as usize)?;
    let moves = NodeSet::new(alloc, nodes)?;
    Ok((done, passed, moves))
}

/// Records what a move completes, where it completes something.
fn note(done: &mut Vec<u64>, passed: &mut Vec<(u32, u64)>, completed: Option<(u32, u64)>)
    requires counts { done.old.items ≡
        map (λ (h : List ℕ). length h) (channel_histories (length done.old.items) passed.old.items) }
    requires chan { IfSome completed (λ p. p.0 < length done.old.items) }
    requires room { vec_len passed.old < vec_capacity passed.old }
    ensures passed { passed.new.items ≡ passed.old.items ++ option_to_list completed }
    ensures counts { done.new.items ≡
        map (λ (h : List ℕ). length h) (channel_histories (length done.old.items) passed.new.items) }
    ensures room { vec_capacity passed.new ≡ vec_capacity passed.old }
{
    if let Some((chan, value)) = completed {
        done[chan as usize] += 1;
        passed.push_reserved((chan, value));
    }
}

/// The reset node, or this one where there is none.
fn reset_or(net: &Net, node: u32) -> u32
    requires { node < length net.now.first }
    ensures within { result < length net.now.first }
    ensures other { (m : ℕ) → (result == m) ≡ false → is_reset net.now.reset m ≡ false }
{
    match net.reset() {
        None => node,
        Some(reset) => reset,
    }
}

impl Stage {
    ghost use Rattle.event_sim.specs.Simulating.{RanValue, IsEndIn};
    ghost use Rattle.event_sim.specs.Stages.{StageValue, stage_with, now_of, moves_now, AreConcerned};

    /// The run that has made no move, of this net under its script, from this state, with these rows for its guards.
    fn begin(
        alloc: Global,
        indexed: IndexedNet,
        state: State,
        rows: GuardRows,
        room: u32,
    ) -> Result<Stage, AllocError>
        requires script { IsScript (net_channels indexed.net) indexed.script }
        requires state { length state ≡ length indexed.net.first }
        requires rows { AreRows indexed.net state rows }
        ensures { IfOk result (λ s. s ≡ stage_with indexed.net indexed.script state [] room) }
    {
        let nodes = indexed.net().first().len();
        let channels = indexed.net().channels().len();
        let (done, passed, mut moves) = room_for(alloc, nodes, channels, room)?;
        let pulled = first_pulled(indexed.net(), &state);
        list_ready(&indexed, &rows, &done, &state, &mut moves);
        add_reset(&indexed, &state, &mut moves);
        Ok(Stage {
            indexed,
            state,
            rows,
            done,
            passed,
            moves,
            pulled,
        })
    }

    /// The run that has made no move, from this state, with room for so many values.
    pub fn new(
        alloc: Global,
        net: Net,
        script: Script,
        state: State,
        room: u32,
    ) -> Result<Stage, AllocError>
        requires script { IsScript (net_channels net) script }
        requires state { length state ≡ length net.first }
        ensures { IfOk result (λ s. s ≡ stage_with net script state [] room) }
    {
        let _net = net.first();
        let rows = GuardRows::new(alloc, &net, &state)?;
        let indexed = IndexedNet::new(alloc, net, script)?;
        Stage::begin(alloc, indexed, state, rows, room)
    }

    /// The net.
    pub fn net(&self) -> &Net
        ensures net { result.now ≡ self.now.net }
        ensures is_net { IsNet self.now.net }
        ensures script { IsScript (net_channels self.now.net) self.now.script }
    {
        self.indexed.net()
    }

    /// Whether the net has a reset node and it is high.
    pub fn in_reset(&self) -> bool
        ensures { result ≡ in_reset self.now.net.reset (high self.now.values) }
    {
        in_reset(self.indexed.net(), &self.state)
    }

    /// The enabled moves, in ascending order.
    pub fn moves(&self) -> &[u32]
        ensures { result.now ≡ moves_now self.now }
    {
        self.moves.nodes()
    }

    /// Notes that the move at this index of the enabled ones is the next to be made, so that it is found there at once.
    pub fn moves_at(&mut self, index: usize)
        ensures { self.new ≡ self.old }
    {
        self.moves.leaves_at(index);
    }

    /// Whether the node has an enabled move.
    pub fn is_enabled(&self, node: u32) -> bool
        requires { node < length self.now.net.first }
        ensures { result ≡ move_enabled self.now.net self.now.script (now_of self.now) node }
    {
        self.moves.contains(node)
    }

    /// After a move of the node: the node, and at least all that have an enabled move now and had none before. Where
    /// the node is the reset node, these are all that have one.
    pub fn concerned(&self, node: u32) -> Concerned<'_>
        requires { node < length self.now.net.first }
        ensures concerned { AreConcerned self.now node
            (map (λ (e : ℕ × ℕ). e.0) result.readers.now ++ result.rails.now ++ result.others) }
        ensures readers { All (λ n. n < length self.now.net.first) (map (λ (e : ℕ × ℕ). e.0) result.readers.now) }
        ensures rails { All (λ n. n < length self.now.net.first) result.rails.now }
        ensures others { All (λ n. n < length self.now.net.first) result.others }
    {
        let net = self.indexed.net();
        let readers = self.rows.edges(node);
        if is_reset(net, node) {
            return Concerned {
                readers: &readers[..0],
                rails: self.moves.nodes(),
                others: [node, node, node],
            };
        }
        let reset = reset_or(net, node);
        match self.indexed.shared_channel(node) {
            None => Concerned {
                readers,
                rails: &self.moves.nodes()[..0],
                others: [node, node, reset],
            },
            Some(chan) => {
                let wires = &net.channels()[chan as usize];
                Concerned {
                    readers,
                    rails: wires.rails.nodes(),
                    others: [node, wires.ack, reset],
                }
            }
        }
    }

    /// The hazard in the first state: a node with interference (both guards hold).
    pub fn first_hazard(&self) -> Option<Hazard>
        ensures hazard { result ≡ first_hazard self.now.net (now_of self.now) }
        ensures net { IsNet self.now.net }
    {
        let _net = self.indexed.net();
        worst_cause(self.pulled, None, None)
    }

    /// Makes the enabled move of the node, and returns the hazard that this brings.
    pub fn make(&mut self, node: u32) -> Option<Hazard>
        requires node { node < length self.old.net.first }
        requires enabled { move_enabled self.old.net self.old.script (now_of self.old) node ≡ true }
        requires room { 1 ≤ self.old.room }
        ensures net { self.new.net ≡ self.old.net }
        ensures script { self.new.script ≡ self.old.script }
        ensures moved { now_of self.new ≡ moved self.old.net (now_of self.old) node }
        ensures passed { self.new.passed ≡ self.old.passed
            ++ option_to_list (completion self.old.net (high self.old.values) node) }
        ensures room { self.old.room ≤ self.new.room + 1 }
        ensures hazard { result ≡ hazard_of self.old.net self.old.script (now_of self.old) node }
    {
        let broken = self.indexed.broken_phases(&self.state, node);
        let completed = self.indexed.completion(&self.state, node);
        note(&mut self.done, &mut self.passed, completed);
        self.rows.turn(self.indexed.net(), &self.state, node);
        fire(&mut self.state, node);
        let found = relist(
            &self.indexed,
            &self.rows,
            &self.done,
            &self.state,
            node,
            &mut self.moves,
        );
        self.pulled = pulled_behind(self.indexed.net(), &self.state, self.pulled, found.pulled);
        worst_cause(self.pulled, found.lost, broken)
    }

    /// The channel whose acknowledge the node is.
    pub fn acknowledged(&self, node: u32) -> Option<u32>
        requires { node < length self.now.net.first }
        ensures { result ≡ channel_acknowledged self.now.net.channels node }
    {
        self.indexed.acknowledged(node)
    }

    /// The channel and the value that a move of the node would complete.
    pub fn completion(&self, node: u32) -> Option<(u32, u64)>
        requires { node < length self.now.net.first }
        ensures { result ≡ completion self.now.net (high self.now.values) node }
    {
        self.indexed.completion(&self.state, node)
    }

    /// Whether the acknowledge of the channel is low and all that is offered on it has completed.
    pub fn is_idle(&self, chan: u32) -> bool
        requires { chan < length self.now.net.channels }
        ensures { result ≡ is_idle self.now.net self.now.script (now_of self.now) chan }
    {
        let ack = self.indexed.net().channels()[chan as usize].ack;
        if self.state.is_high(ack) {
            return false;
        }
        match self.indexed.number(chan) {
            None => false,
            Some(number) => number <= self.done[chan as usize],
        }
    }

    /// Offers one more value on an idle channel, in place of all values before it too, or makes one more acceptance.
    /// No reset is on.
    pub fn add(&mut self, chan: u32, value: u64)
        requires chan { chan < length self.old.net.channels }
        requires idle { is_idle self.old.net self.old.script (now_of self.old) chan ≡ true }
        requires low { in_reset self.old.net.reset (high self.old.values) ≡ false }
        requires script { IsScript (net_channels self.old.net) (script_and chan value self.old.script) }
        ensures { self.new ≡ record self.old { script = script_and chan value self.old.script } }
    {
        self.indexed.add(chan, value);
        retest_channel(
            &self.indexed,
            &self.rows,
            &self.done,
            &self.state,
            chan,
            &mut self.moves,
        );
    }

    /// Whether the node is high.
    pub fn is_high(&self, node: u32) -> bool
        requires { node < length self.now.net.first }
        ensures { result ≡ high self.now.values node }
    {
        self.state.is_high(node)
    }

    /// The run, which has ended so after so many moves.
    pub fn ran(self, end: End, moves: u32) -> Ran
        requires { IsEndIn self.net end }
        ensures { result ≡ record {
          net = self.net;
          end = end;
          moves = moves;
          done_high = high self.values 1;
          passed =
              self.passed;
        } }
    {
        let done_high = self.state.is_high(1);
        Ran::new(self.indexed.into_net(), end, moves, done_high, self.passed)
    }
}
