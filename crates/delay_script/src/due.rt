//! The moves that are due.

ghost use Rattle.std.specs.Prelude.{◌≡◌, ◌<◌, ◌^◌, ℕ, All, List, [], ◌∷◌, length, map};
ghost use Rattle.prs_core.specs.Moves.{high};
ghost use Rattle.event_sim.specs.Stages.{AreConcerned};
ghost use Rattle.delay_script.specs.DelayTables.{IsDelayTable};
ghost use Rattle.delay_script.specs.Dues.{fresh_due, AreFilled};

use crate::delays::Delays;
use crate::queue::Queue;
use event_sim::Stage;

/// The number of the move since which a node's move is enabled, 0 at the start, and the time at which it is due.
#[derive(Clone, Copy)]
pub struct Due {
    pub cause: u32,
    pub time: u64,
}

/// A node whose move is due.
#[derive(Clone, Copy)]
pub struct Next {
    pub node: u32,
    pub due: Due,
}

/// The cause and time of the node's move, if it is enabled since the move of this cause and time.
fn fresh_due(stage: &Stage, delays: &Delays, made: Due, node: u32) -> Due
    requires node { node < length stage.now.net.first }
    requires delays { IsDelayTable (length stage.now.net.first) delays.now }
    requires time { made.time < 2 ^ 62 }
    ensures { result ≡ fresh_due delays.now (high stage.now.values) made node }
{
    let delay = if stage.is_high(node) {
        delays.down(node)
    } else {
        delays.up(node)
    };
    Due {
        cause: made.cause,
        time: made.time + u64::from(delay),
    }
}

/// Puts the node's move into the queue, where it is enabled and is not there yet.
fn look(stage: &Stage, delays: &Delays, queue: &mut Queue, node: u32, made: Due)
    requires node { node < length stage.now.net.first }
    requires queue { length queue.old ≡ length stage.now.net.first }
    requires delays { IsDelayTable (length stage.now.net.first) delays.now }
    requires time { made.time < 2 ^ 62 }
    ensures { AreFilled stage.now delays.now made (node ∷ []) queue.old queue.new }
{
    if !stage.is_enabled(node) {
        return;
    }
    if queue.has(node) {
        return;
    }
    queue.put(node, fresh_due(stage, delays, made, node));
}

/// Updates the due moves of these nodes after the move of this number and time: a move that is enabled and was not due
/// is due now.
pub(crate) fn fill(stage: &Stage, delays: &Delays, queue: &mut Queue, nodes: &[u32], made: Due)
    requires nodes { All (λ n. n < length stage.now.net.first) nodes.now }
    requires queue { length queue.old ≡ length stage.now.net.first }
    requires delays { IsDelayTable (length stage.now.net.first) delays.now }
    requires time { made.time < 2 ^ 62 }
    ensures { AreFilled stage.now delays.now made nodes.now queue.old queue.new }
{
    for node in nodes {
        look(stage, delays, queue, *node, made);
    }
}

/// The same for those to which these edges lead.
fn fill_readers(stage: &Stage, delays: &Delays, queue: &mut Queue, edges: &[(u32, u32)], made: Due)
    requires readers { All (λ n. n < length stage.now.net.first) (map (λ (e : ℕ × ℕ). e.0) edges.now) }
    requires queue { length queue.old ≡ length stage.now.net.first }
    requires delays { IsDelayTable (length stage.now.net.first) delays.now }
    requires time { made.time < 2 ^ 62 }
    ensures { AreFilled stage.now delays.now made (map (λ (e : ℕ × ℕ). e.0) edges.now) queue.old queue.new }
{
    for (reader, _) in edges {
        look(stage, delays, queue, *reader, made);
    }
}

/// Updates the due moves after the move of the node, of this number and time, once that move is removed.
pub(crate) fn refill(stage: &Stage, delays: &Delays, queue: &mut Queue, node: u32, made: Due)
    requires node { node < length stage.now.net.first }
    requires queue { length queue.old ≡ length stage.now.net.first }
    requires delays { IsDelayTable (length stage.now.net.first) delays.now }
    requires time { made.time < 2 ^ 62 }
    ensures { (nodes : List ℕ) × AreConcerned stage.now node nodes
        × AreFilled stage.now delays.now made nodes queue.old queue.new }
{
    let concerned = stage.concerned(node);
    fill_readers(stage, delays, queue, concerned.readers, made);
    fill(stage, delays, queue, concerned.rails, made);
    fill(stage, delays, queue, &concerned.others, made);
}
