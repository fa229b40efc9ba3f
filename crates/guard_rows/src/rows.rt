//! The rows of a net, and the place of each in them.

ghost use Rattle.std.specs.Prelude.{◌≡◌, ℕ, ◌+◌, ◌^◌, ◌<◌, ◌≤◌, ◌==◌, Bool, true, List, [], length, slice_index, All, replicate, IfOk, IfSome, OnOk};
ghost use Rattle.std.specs.Int.{bit_at};
ghost use Rattle.prs_core.specs.Nets.{NetValue, up_of, down_of};
ghost use Rattle.prs_core.specs.Moves.{high, guard_holds, rule_enabled, fired};
ghost use Rattle.prs_core.specs.Fans.{is_reader, readers_below};
ghost use Rattle.guard_rows.specs.Places.{readers_in, says_up, says_down, total_to, AllPass, AreRows, AreRowsBelow, AreWords, GuardPasses};

use crate::counts::{COUNTED, counted_row, place_now};
use crate::edges::{Edges, NodeEdges, OVER, add_bits, add_counts, add_over, add_reader, no_edges};
use crate::words::{MOST, guard_word, index_now};
use prs_core::{Guard, Net, State, Term, enabled, holds};
use std::alloc::{AllocError, Global};
use std::marker::Model;

/// The place of a node that has no row.
const WIDE: u32 = 64;

/// What the guards of a net's nodes say, kept from move to move. Each node whose two guards name at most six nodes has
/// a row: two words, whose bits are what its up guard and its down guard say for each choice of the values of these
/// nodes. Its place is the index of the values that they have now, so that a move of a node costs one addition for each
/// row that reads it.
///
/// A node whose down guard wants many nodes all low, and its up guard one of them high, or all of them, has a counted
/// row: how many of them have to be high, and its place tells how many are. It is a merge of many requests, or a
/// C-element that waits for many. The request that all calls of a procedure share has as many inputs as there are
/// calls, and each call moves one of them: if its guards were gone through at each of these moves, a run would cost the
/// square of the calls. In a net with a reset node the guards name this node as well; it overrides the others, and adds
/// more to the place than all of them.
#[derive(Drop)]
pub struct GuardRows {
    rows: Vec<(u64, u64)>,
    places: Vec<u32>,
    edges: Edges,
}

/// The rows of the first nodes, while those of a net are made.
#[derive(Drop)]
struct Making {
    rows: Vec<(u64, u64)>,
    places: Vec<u32>,
    edges: Vec<NodeEdges>,
}

impl Model for GuardRows {
    ghost use Rattle.guard_rows.specs.Places.{RowsValue, guard_rows_of};

    ghost Value = { RowsValue };

    ghost view = { λ r. guard_rows_of r.rows.items r.places.items r.edges };
}

impl Model for Making {
    ghost use Rattle.guard_rows.specs.Places.{RowsValue, guard_rows_of};

    ghost Value = { RowsValue };

    ghost view = { λ r. guard_rows_of r.rows.items r.places.items r.edges.items };
}

/// Adds the node to the list, unless it is there or the list is full.
fn note_input(inputs: &mut Vec<u32>, node: u32) -> Result<(), AllocError>
    requires few { length inputs.old.items ≤ 6 }
    ensures few { OnOk result (length inputs.new.items ≤ 6) }
    ensures pass { OnOk result ((passes : ℕ → Bool) → passes node ≡ true
        → All (λ n. passes n ≡ true) inputs.old.items → All (λ n. passes n ≡ true) inputs.new.items) }
{
    if inputs.len() < MOST && !inputs.contains(&node) {
        inputs.push(node)?;
    }
    Ok(())
}

/// Adds the nodes that the term names, as long as there is room.
fn note_term(inputs: &mut Vec<u32>, term: &Term) -> Result<(), AllocError>
    requires few { length inputs.old.items ≤ 6 }
    ensures few { OnOk result (length inputs.new.items ≤ 6) }
    ensures pass { OnOk result ((passes : ℕ → Bool) → AllPass passes term.now
        → All (λ n. passes n ≡ true) inputs.old.items → All (λ n. passes n ≡ true) inputs.new.items) }
{
    for literal in term.literals() {
        note_input(inputs, literal.node)?;
    }
    Ok(())
}

/// Adds the nodes that the guard names, as long as there is room.
fn note_guard(inputs: &mut Vec<u32>, guard: &Guard) -> Result<(), AllocError>
    requires few { length inputs.old.items ≤ 6 }
    ensures few { OnOk result (length inputs.new.items ≤ 6) }
    ensures pass { OnOk result ((passes : ℕ → Bool) → GuardPasses passes guard.now
        → All (λ n. passes n ≡ true) inputs.old.items → All (λ n. passes n ≡ true) inputs.new.items) }
{
    for term in guard.terms() {
        note_term(inputs, term)?;
    }
    Ok(())
}

/// The words of these guards, where their nodes are among the inputs.
fn row_of(inputs: &[u32], up: &Guard, down: &Guard) -> Option<(u64, u64)>
    requires { length inputs.now ≤ 6 }
    ensures { IfSome result (λ row. AreWords up.now down.now inputs.now row) }
{
    let up = guard_word(inputs, up)?;
    let down = guard_word(inputs, down)?;
    Some((up, down))
}

fn is_set(word: u64, place: u32) -> bool
    requires { place < 64 }
    ensures { result ≡ (bit_at word place == 1) }
{
    (word >> place) & 1 == 1
}

/// What the row says of the up guard and of the down guard.
fn says(row: (u64, u64), place: u32) -> (bool, bool)
    requires { place < 2 ^ 30 → place < 64 }
    ensures up { result.0 ≡ says_up row place }
    ensures down { result.1 ≡ says_down row place }
{
    if place < COUNTED {
        (is_set(row.0, place), is_set(row.1, place))
    } else {
        let over = place >= COUNTED + OVER;
        let enough = row.0 <= u64::from(place - COUNTED);
        (enough && !over, place == COUNTED || over)
    }
}

/// Adds its weight to the place of each row.
fn raise(places: &mut [u32], edges: &[(u32, u32)])
    requires within { All (λ (e : ℕ × ℕ). e.0 < length places.old) edges.now }
    requires room { (r : ℕ) → r < length places.old → slice_index places.old r + total_to r edges.now < 2 ^ 32 }
    ensures count { length places.new ≡ length places.old }
    ensures places { (r : ℕ) → r < length places.old →
        slice_index places.new r ≡ slice_index places.old r + total_to r edges.now }
{
    for (row, weight) in edges {
        places[*row as usize] += *weight;
    }
}

/// Takes its weight from the place of each row.
fn lower(places: &mut [u32], edges: &[(u32, u32)])
    requires within { All (λ (e : ℕ × ℕ). e.0 < length places.old) edges.now }
    requires room { (r : ℕ) → r < length places.old → total_to r edges.now ≤ slice_index places.old r }
    ensures count { length places.new ≡ length places.old }
    ensures places { (r : ℕ) → r < length places.old →
        slice_index places.new r + total_to r edges.now ≡ slice_index places.old r }
{
    for (row, weight) in edges {
        places[*row as usize] -= *weight;
    }
}

impl Making {
    ghost use Rattle.guard_rows.specs.Places.{RowsValue, guard_rows_of};

    /// No rows yet, and no edges.
    fn new(alloc: Global, nodes: usize) -> Result<Making, AllocError>
        ensures { IfOk result (λ rows. rows ≡ guard_rows_of [] [] (replicate nodes [])) }
    {
        let rows = Vec::with_capacity(alloc, nodes)?;
        let places = Vec::with_capacity(alloc, nodes)?;
        let edges = no_edges(alloc, nodes)?;
        Ok(Making {
            rows,
            places,
            edges,
        })
    }

    /// Adds the node with a counted row, or with none where its guards ask for more than how many of some nodes are
    /// high. The list is made anew.
    fn add_counted(
        &mut self,
        net: &Net,
        state: &State,
        node: u32,
        inputs: &mut Vec<u32>,
    ) -> Result<(), AllocError>
        requires state { length state.now ≡ length net.now.first }
        requires node { node < length net.now.first }
        requires below { AreRowsBelow net.now state.now node (node + 1) self.old }
        ensures { OnOk result (AreRowsBelow net.now state.now (node + 1) (node + 1) self.new) }
    {
        let _net = net.first();
        match counted_row(inputs, net.up(node), net.down(node))? {
            None => {
                self.rows.push((0, 0))?;
                self.places.push(WIDE)?;
                Ok(())
            }
            Some(counts) => {
                self.rows.push((counts.least, 0))?;
                self.places.push(place_now(inputs, counts.over, state))?;
                add_counts(&mut self.edges, inputs, node)?;
                add_over(&mut self.edges, counts.over, node)
            }
        }
    }

    /// Adds the node, with a row of words if its guards name no other nodes than these.
    fn add(
        &mut self,
        net: &Net,
        state: &State,
        node: u32,
        inputs: &mut Vec<u32>,
    ) -> Result<(), AllocError>
        requires state { length state.now ≡ length net.now.first }
        requires node { node < length net.now.first }
        requires few { length inputs.old.items ≤ 6 }
        requires inputs { All (λ n. is_reader net.now n node ≡ true) inputs.old.items }
        requires below { AreRowsBelow net.now state.now node node self.old }
        ensures { OnOk result (AreRowsBelow net.now state.now (node + 1) (node + 1) self.new) }
    {
        let _net = net.first();
        add_reader(&mut self.edges, net, node)?;
        match row_of(inputs, net.up(node), net.down(node)) {
            None => self.add_counted(net, state, node, inputs),
            Some(row) => {
                self.rows.push(row)?;
                self.places.push(index_now(inputs, state))?;
                add_bits(&mut self.edges, inputs, node)
            }
        }
    }
}

/// The rows of the net in this state.
fn made_rows(alloc: Global, net: &Net, state: &State) -> Result<Making, AllocError>
    requires { length state.now ≡ length net.now.first }
    ensures rows { IfOk result (λ rows. AreRows net.now state.now rows) }
    ensures few { length net.now.first < 2 ^ 32 }
{
    let nodes = net.first().len();
    let mut rows = Making::new(alloc, nodes)?;
    let mut inputs = Vec::new(alloc);
    for node in 0..nodes as u32 {
        inputs.clear();
        note_guard(&mut inputs, net.up(node))?;
        note_guard(&mut inputs, net.down(node))?;
        rows.add(net, state, node, &mut inputs)?;
    }
    Ok(rows)
}

impl GuardRows {
    /// The rows of the net in this state.
    pub fn new(alloc: Global, net: &Net, state: &State) -> Result<GuardRows, AllocError>
        requires { length state.now ≡ length net.now.first }
        ensures { IfOk result (λ rows. AreRows net.now state.now rows) }
    {
        let made = made_rows(alloc, net, state)?;
        let edges = Edges::of(alloc, &made.edges)?;
        Ok(GuardRows {
            rows: made.rows,
            places: made.places,
            edges,
        })
    }

    /// The edges of the node: the nodes with a guard that names it, in ascending order, each with what a turn of the
    /// node from low to high adds to its place.
    pub fn edges(&self, node: u32) -> &[(u32, u32)]
        requires { node < length self.now.edges }
        ensures { (net : NetValue) (values : List Bool) → AreRows net values self.now
            → readers_in result.now ≡ readers_below net (length net.first) node }
    {
        self.edges.node(node)
    }

    /// Follows a turn of the node from this state.
    pub fn turn(&mut self, net: &Net, state: &State, node: u32)
        requires state { length state.now ≡ length net.now.first }
        requires node { node < length net.now.first }
        requires rows { AreRows net.now state.now self.old }
        ensures { AreRows net.now (fired state.now node) self.new }
    {
        let _net = net.first();
        let edges = self.edges.node(node);
        if state.is_high(node) {
            lower(&mut self.places, edges);
        } else {
            raise(&mut self.places, edges);
        }
    }

    /// Whether a rule of the node is enabled.
    pub fn enabled(&self, net: &Net, state: &State, node: u32) -> bool
        requires state { length state.now ≡ length net.now.first }
        requires node { node < length net.now.first }
        requires rows { AreRows net.now state.now self.now }
        ensures { result ≡ rule_enabled net.now (high state.now) node }
    {
        let _net = net.first();
        let place = self.places[node as usize];
        if place == WIDE {
            return enabled(net, state, node);
        }
        let (up, down) = says(self.rows[node as usize], place);
        if state.is_high(node) { down } else { up }
    }

    /// What the up guard of the node says, and what its down guard does.
    pub fn says(&self, net: &Net, state: &State, node: u32) -> (bool, bool)
        requires state { length state.now ≡ length net.now.first }
        requires node { node < length net.now.first }
        requires rows { AreRows net.now state.now self.now }
        ensures up { result.0 ≡ guard_holds (high state.now) (up_of net.now node) }
        ensures down { result.1 ≡ guard_holds (high state.now) (down_of net.now node) }
    {
        let _net = net.first();
        let place = self.places[node as usize];
        if place == WIDE {
            return (holds(net.up(node), state), holds(net.down(node), state));
        }
        says(self.rows[node as usize], place)
    }
}
