//! The set of the nodes that have a move, kept from move to move.

ghost use Rattle.std.specs.Prelude.{◌≡◌, ℕ, ◌<◌, true, false, not, ◌&&◌, ◌∷◌, [], if◌then◌else◌, List, Bool, All, Some, None, length, slice_set};
ghost use Rattle.std.specs.List.{find};
ghost use Rattle.prs_core.specs.Moves.{high, both_ways};
ghost use Rattle.prs_core.specs.Fans.{readers_below};
ghost use Rattle.env_script.specs.Hazards.{or_else};
ghost use Rattle.guard_rows.specs.Places.{readers_in, AreRows};
ghost use Rattle.event_sim.specs.Locality.{has_move, is_asked, is_member, is_ready, lesser, once_left, IsLeaving, IsPassing, IsRetested, IsRetestedNear, IsCountedMove, IsListedBehind, IsRelisted};
ghost use Rattle.event_sim.specs.Standings.{IsRetestedOn};

use crate::hazards::pulled_among;
use crate::indexed::IndexedNet;
use crate::moves::is_reset;
use crate::node_set::NodeSet;
use guard_rows::GuardRows;
use prs_core::State;

fn lesser(lost: Option<u32>, node: u32) -> Option<u32>
    ensures { result ≡ lesser lost node }
{
    match lost {
        None => Some(node),
        Some(other) => Some(if other < node { other } else { node }),
    }
}

/// The least lost node once this one is counted too, if it was in the set and is not in it now.
fn least_lost(lost: Option<u32>, node: u32, was: bool, is: bool) -> Option<u32>
    ensures { result ≡ (if was && not is then lesser lost node else lost) }
{
    if was && !is { lesser(lost, node) } else { lost }
}

/// Tests these nodes again. Returns the least of those that were lost before and of those that are lost now.
fn retest(
    indexed: &IndexedNet,
    rows: &GuardRows,
    done: &[u64],
    state: &State,
    nodes: &[u32],
    moves: &mut NodeSet,
    before: Option<u32>,
) -> Option<u32>
    requires rows { AreRows indexed.now.net state.now rows.now }
    requires done { length done.now ≡ length indexed.now.net.channels }
    requires state { length state.now ≡ length indexed.now.net.first }
    requires moves { length moves.old ≡ length indexed.now.net.first }
    requires nodes { All (λ n. n < length indexed.now.net.first) nodes.now }
    ensures { IsRetested (is_ready indexed.now done.now state.now) nodes.now moves.old moves.new before result }
{
    let mut lost = before;
    for node in nodes {
        let was = moves.contains(*node);
        let ready = indexed.is_ready(rows, done, state, *node);
        moves.set(*node, ready);
        lost = least_lost(lost, *node, was, ready);
    }
    lost
}

/// Whether the node is in the set, apart from the one that is to leave it.
fn stays(moves: &NodeSet, leaving: Option<u32>, node: u32) -> bool
    requires { node < length moves.now }
    ensures { result ≡ is_member (once_left moves.now leaving) node }
{
    match leaving {
        Some(other) if other == node => false,
        _ => moves.contains(node),
    }
}

/// Puts the moved node into the set where it is ready. Where it is not, and the set has it, it is returned as the one
/// that is to leave: so a reader that gets a move can take its place in the list.
fn leave_or_stay(moves: &mut NodeSet, node: u32, ready: bool) -> Option<u32>
    requires { node < length moves.old }
    ensures set { once_left moves.new result ≡ slice_set moves.old node ready }
    ensures leaving { IsLeaving moves.new result }
{
    if ready || !moves.contains(node) {
        moves.set(node, ready);
        return None;
    }
    Some(node)
}

/// Puts the node into the set where it is ready, else takes it out, while this one is to leave the set.
fn set_where_one_leaves(moves: &mut NodeSet, leaving: u32, node: u32, ready: bool) -> Option<u32>
    requires leaving { is_member moves.old leaving ≡ true }
    requires node { node < length moves.old }
    ensures set { once_left moves.new result ≡ slice_set (slice_set moves.old leaving false) node ready }
    ensures leaving { IsLeaving moves.new result }
{
    if leaving == node {
        if ready {
            return None;
        }
        return Some(leaving);
    }
    if ready && !moves.contains(node) {
        moves.replace(leaving, node);
        return None;
    }
    moves.set(node, ready);
    Some(leaving)
}

/// Puts the node into the set where it is ready, else takes it out. A node that comes takes the place of the one that
/// is to leave the set: both at once cost less than one after the other. Returns which one is to leave then.
fn set_beside(moves: &mut NodeSet, leaving: Option<u32>, node: u32, ready: bool) -> Option<u32>
    requires node { node < length moves.old }
    requires leaving { IsLeaving moves.old leaving }
    ensures set { once_left moves.new result ≡ slice_set (once_left moves.old leaving) node ready }
    ensures leaving { IsLeaving moves.new result }
{
    match leaving {
        None => {
            moves.set(node, ready);
            None
        }
        Some(other) => set_where_one_leaves(moves, other, node, ready),
    }
}

/// Takes the node out of the set that is to leave it.
fn leave(moves: &mut NodeSet, leaving: Option<u32>)
    requires { IsLeaving moves.old leaving }
    ensures { moves.new ≡ once_left moves.old leaving }
{
    if let Some(node) = leaving {
        moves.set(node, false);
    }
}

/// What a move does to the nodes near its own: the least whose move it disabled, and the first of its readers that has
/// interference (both guards hold).
#[derive(Clone, Copy)]
pub(crate) struct Trouble {
    pub(crate) lost: Option<u32>,
    pub(crate) pulled: Option<u32>,
}

/// The same for some of its readers, and the node that is still to leave the set.
#[derive(Clone, Copy)]
struct Retested {
    leaving: Option<u32>,
    trouble: Trouble,
}

/// The first node with interference, once this one is looked at too.
fn first_torn(pulled: Option<u32>, node: u32, up: bool, down: bool) -> Option<u32>
    ensures { result ≡ or_else pulled (if up && down then Some node else None) }
{
    match pulled {
        None if up && down => Some(node),
        _ => pulled,
    }
}

/// Tests the reader of a node again, and counts it where it is lost or has interference. The environment moves none.
fn retest_reader(
    indexed: &IndexedNet,
    rows: &GuardRows,
    state: &State,
    node: u32,
    moves: &mut NodeSet,
    before: Retested,
) -> Retested
    requires rows { AreRows indexed.now.net state.now rows.now }
    requires state { length state.now ≡ length indexed.now.net.first }
    requires moves { length moves.old ≡ length indexed.now.net.first }
    requires node { node < length indexed.now.net.first }
    requires leaving { IsLeaving moves.old before.leaving }
    ensures retested { (done : List ℕ) → is_asked indexed.now done state.now node ≡ false
        → IsRetested (is_ready indexed.now done state.now) (node ∷ []) (once_left moves.old before.leaving)
        (once_left moves.new result.leaving) before.trouble.lost result.trouble.lost }
    ensures pulled { result.trouble.pulled ≡ or_else before.trouble.pulled
        (if both_ways indexed.now.net (high state.now) node then Some node else None) }
    ensures count { length moves.new ≡ length moves.old }
    ensures leaving { IsLeaving moves.new result.leaving }
{
    let (up, down) = rows.says(indexed.net(), state, node);
    let was = stays(moves, before.leaving, node);
    let ready = rule_of(state.is_high(node), up, down);
    let leaving = set_beside(moves, before.leaving, node, ready);
    let trouble = Trouble {
        lost: least_lost(before.trouble.lost, node, was, ready),
        pulled: first_torn(before.trouble.pulled, node, up, down),
    };
    Retested { leaving, trouble }
}

/// What the rule says that turns a node over.
fn rule_of(high: bool, up: bool, down: bool) -> bool
    ensures { result ≡ (if high then down else up) }
{
    if high { down } else { up }
}

/// Tests the readers again to which these edges lead. Finds the least that is lost, and the first with interference.
fn retest_readers(
    indexed: &IndexedNet,
    rows: &GuardRows,
    state: &State,
    edges: &[(u32, u32)],
    moves: &mut NodeSet,
    leaving: Option<u32>,
) -> Retested
    requires rows { AreRows indexed.now.net state.now rows.now }
    requires state { length state.now ≡ length indexed.now.net.first }
    requires moves { length moves.old ≡ length indexed.now.net.first }
    requires readers { All (λ n. n < length indexed.now.net.first) (readers_in edges.now) }
    requires leaving { IsLeaving moves.old leaving }
    ensures retested { (done : List ℕ)
        → All (λ n. is_asked indexed.now done state.now n ≡ false) (readers_in edges.now)
        → IsRetested (is_ready indexed.now done state.now) (readers_in edges.now) (once_left moves.old leaving)
        (once_left moves.new result.leaving) None result.trouble.lost }
    ensures pulled { result.trouble.pulled ≡ find (both_ways indexed.now.net (high state.now)) (readers_in edges.now) }
    ensures count { length moves.new ≡ length moves.old }
    ensures leaving { IsLeaving moves.new result.leaving }
{
    let trouble = Trouble {
        lost: None,
        pulled: None,
    };
    let mut found = Retested { leaving, trouble };
    for (reader, _) in edges {
        found = retest_reader(indexed, rows, state, *reader, moves, found);
    }
    found
}

/// Tests again the node that was moved, and its readers.
fn retest_own(
    indexed: &IndexedNet,
    rows: &GuardRows,
    done: &[u64],
    state: &State,
    node: u32,
    moves: &mut NodeSet,
) -> Trouble
    requires rows { AreRows indexed.now.net state.now rows.now }
    requires done { length done.now ≡ length indexed.now.net.channels }
    requires state { length state.now ≡ length indexed.now.net.first }
    requires moves { length moves.old ≡ length indexed.now.net.first }
    requires node { node < length indexed.now.net.first }
    ensures retested { IsRetested (is_ready indexed.now done.now state.now)
        (readers_below indexed.now.net (length indexed.now.net.first) node)
        (slice_set moves.old node (is_ready indexed.now done.now state.now node)) moves.new None result.lost }
    ensures pulled { result.pulled ≡ find (both_ways indexed.now.net (high state.now))
        (readers_below indexed.now.net (length indexed.now.net.first) node) }
{
    let _net = indexed.net();
    let ready = indexed.is_ready(rows, done, state, node);
    let leaving = leave_or_stay(moves, node, ready);
    let found = retest_readers(indexed, rows, state, rows.edges(node), moves, leaving);
    leave(moves, found.leaving);
    found.trouble
}

/// Tests again what a move of the node concerns: itself, its readers, and the wires of its channel. Returns the least
/// of the other nodes that is lost, and the first reader with interference.
fn retest_near(
    indexed: &IndexedNet,
    rows: &GuardRows,
    done: &[u64],
    state: &State,
    node: u32,
    moves: &mut NodeSet,
) -> Trouble
    requires rows { AreRows indexed.now.net state.now rows.now }
    requires done { length done.now ≡ length indexed.now.net.channels }
    requires state { length state.now ≡ length indexed.now.net.first }
    requires moves { length moves.old ≡ length indexed.now.net.first }
    requires node { node < length indexed.now.net.first }
    ensures near { IsRetestedNear indexed.now done.now state.now node moves.old moves.new result.lost }
    ensures pulled { result.pulled ≡ find (both_ways indexed.now.net (high state.now))
        (readers_below indexed.now.net (length indexed.now.net.first) node) }
{
    let Trouble { lost, pulled } = retest_own(indexed, rows, done, state, node, moves);
    match indexed.shared_channel(node) {
        None => Trouble { lost, pulled },
        Some(chan) => {
            let wires = &indexed.net().channels()[chan as usize];
            let lost = retest(indexed, rows, done, state, wires.rails.nodes(), moves, lost);
            let lost = retest(indexed, rows, done, state, &[wires.ack], moves, lost);
            Trouble { lost, pulled }
        }
    }
}

/// Fills the set with the nodes that have a rule's move, or the environment's while no reset is on.
pub(crate) fn list_ready(
    indexed: &IndexedNet,
    rows: &GuardRows,
    done: &[u64],
    state: &State,
    moves: &mut NodeSet,
)
    requires rows { AreRows indexed.now.net state.now rows.now }
    requires done { length done.now ≡ length indexed.now.net.channels }
    requires state { length state.now ≡ length indexed.now.net.first }
    requires moves { length moves.old ≡ length indexed.now.net.first }
    ensures { IsPassing (length indexed.now.net.first) (is_ready indexed.now done.now state.now) moves.new }
{
    let count = indexed.net().first().len() as u32;
    for back in 0..count {
        // from the last node on, since a set has room before its first one
        let node = count - 1 - back;
        moves.set(node, indexed.is_ready(rows, done, state, node));
    }
}

/// Adds the environment's move of the reset node, where reset is on and there is no other.
pub(crate) fn add_reset(indexed: &IndexedNet, state: &State, moves: &mut NodeSet)
    requires state { length state.now ≡ length indexed.now.net.first }
    requires moves { length moves.old ≡ length indexed.now.net.first }
    ensures { (done : List ℕ)
        → IsPassing (length indexed.now.net.first) (is_ready indexed.now done state.now) moves.old
        → IsPassing (length indexed.now.net.first) (has_move indexed.now.net indexed.now.script done state.now)
        moves.new }
{
    match indexed.net().reset() {
        None => {}
        Some(node) => {
            if state.is_high(node) && moves.nodes().is_empty() {
                moves.set(node, true);
            }
        }
    }
}

/// Tests again what a move of the node concerns: all nodes, where that is the reset node. Returns the least of the
/// other nodes whose moves were disabled.
fn retest_behind(
    indexed: &IndexedNet,
    rows: &GuardRows,
    done: &[u64],
    state: &State,
    node: u32,
    moves: &mut NodeSet,
) -> Trouble
    requires rows { AreRows indexed.now.net state.now rows.now }
    requires done { length done.now ≡ length indexed.now.net.channels }
    requires state { length state.now ≡ length indexed.now.net.first }
    requires moves { length moves.old ≡ length indexed.now.net.first }
    requires node { node < length indexed.now.net.first }
    ensures count { length moves.new ≡ length moves.old }
    ensures listed { (was : List ℕ) (before : List Bool)
        → IsCountedMove indexed.now node was done.now before state.now moves.old
        → IsListedBehind indexed.now node was done.now before state.now moves.new result.lost }
    ensures pulled { result.pulled ≡ find (both_ways indexed.now.net (high state.now))
        (readers_below indexed.now.net (length indexed.now.net.first) node) }
{
    if is_reset(indexed.net(), node) {
        list_ready(indexed, rows, done, state, moves);
        let pulled = pulled_among(indexed.net(), rows, state, rows.edges(node));
        return Trouble { lost: None, pulled };
    }
    retest_near(indexed, rows, done, state, node, moves)
}

/// Updates the set to the state after a move of the node. Returns the least of the other nodes whose moves were
/// disabled.
pub(crate) fn relist(
    indexed: &IndexedNet,
    rows: &GuardRows,
    done: &[u64],
    state: &State,
    node: u32,
    moves: &mut NodeSet,
) -> Trouble
    requires rows { AreRows indexed.now.net state.now rows.now }
    requires done { length done.now ≡ length indexed.now.net.channels }
    requires state { length state.now ≡ length indexed.now.net.first }
    requires moves { length moves.old ≡ length indexed.now.net.first }
    requires node { node < length indexed.now.net.first }
    ensures relisted { (was : List ℕ) (before : List Bool)
        → IsCountedMove indexed.now node was done.now before state.now moves.old
        → IsRelisted indexed.now node was done.now before state.now moves.new result.lost }
    ensures pulled { result.pulled ≡ find (both_ways indexed.now.net (high state.now))
        (readers_below indexed.now.net (length indexed.now.net.first) node) }
{
    let found = retest_behind(indexed, rows, done, state, node, moves);
    add_reset(indexed, state, moves);
    found
}

/// Tests again the wires of the channel.
pub(crate) fn retest_channel(
    indexed: &IndexedNet,
    rows: &GuardRows,
    done: &[u64],
    state: &State,
    chan: u32,
    moves: &mut NodeSet,
)
    requires rows { AreRows indexed.now.net state.now rows.now }
    requires done { length done.now ≡ length indexed.now.net.channels }
    requires state { length state.now ≡ length indexed.now.net.first }
    requires moves { length moves.old ≡ length indexed.now.net.first }
    requires chan { chan < length indexed.now.net.channels }
    ensures { IsRetestedOn indexed.now done.now state.now chan moves.old moves.new }
{
    let wires = &indexed.net().channels()[chan as usize];
    let lost = retest(indexed, rows, done, state, wires.rails.nodes(), moves, None);
    retest(indexed, rows, done, state, &[wires.ack], moves, lost);
}
