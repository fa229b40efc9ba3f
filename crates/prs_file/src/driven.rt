//! The nodes that the environment moves.

ghost use Rattle.std.specs.Prelude.{◌≡◌, ◌<◌, ◌==◌, ◌||◌, ℕ, [], false, map, length, All, replicate, slice_index_or, IfOk};
ghost use Rattle.std.specs.List.{list_any};
ghost use Rattle.prs_core.specs.declared.wires.Wires.{Wires as WiresValue};
ghost use Rattle.prs_core.specs.Nets.{wires_from_outside};
ghost use Rattle.prs_file.specs.DrivenTold.{AreDriven, HasItsReset};
ghost use Rattle.prs_file.specs.NodesTold.{IsNodes};
ghost use Rattle.prs_file.specs.WiresFound.{IsWiredAmong};

use crate::nodes::Nodes;
use chp_base::Kind;
use prs_core::Wires;
use std::alloc::{AllocError, Global};

/// Marks these nodes.
fn mark(driven: &mut [bool], nodes: &[u32])
    requires { All (λ n. n < length driven.old) nodes.now }
    ensures { (n : ℕ) → slice_index_or driven.new n false ≡
        (slice_index_or driven.old n false || list_any (λ k. k == n) nodes.now) }
{
    for node in nodes {
        driven[*node as usize] = true;
    }
}

/// Marks the wires of the channel that the environment moves.
fn mark_wires(driven: &mut [bool], wires: &Wires)
    requires rails { All (λ n. n < length driven.old) wires.now.rails }
    requires ack { wires.now.ack < length driven.old }
    ensures { (n : ℕ) → slice_index_or driven.new n false ≡
        (slice_index_or driven.old n false
        || list_any (λ k. k == n) (wires_from_outside wires.now.channel.kind wires.now.rails wires.now.ack)) }
{
    match wires.channel.kind {
        Kind::In => mark(driven, wires.rails.nodes()),
        Kind::Out => mark(driven, &[wires.ack]),
        Kind::Chan => {}
    }
}

fn none_driven(alloc: Global, count: usize) -> Result<Vec<bool>, AllocError>
    ensures { IfOk result (λ driven. driven.items ≡ replicate count false) }
{
    vec![in alloc; false; count]
}

/// For each node whether it is go, or in version 2 the reset node, which is the last one.
fn own_driven(alloc: Global, nodes: &Nodes) -> Result<Vec<bool>, AllocError>
    requires nodes { IsNodes nodes.now.version nodes.now.index nodes.now.first.items }
    requires reset { HasItsReset nodes.now.version nodes.now.index nodes.now.first.items }
    ensures { IfOk result (λ driven. AreDriven (nodes.now.version == 2) [] nodes.now.index driven.items) }
{
    let count = nodes.index.len();
    let mut driven = none_driven(alloc, count)?;
    driven[0] = true;
    if nodes.version == 2 {
        driven[count - 1] = true;
    }
    Ok(driven)
}

/// For each node whether the environment moves it.
pub fn driven_nodes(
    alloc: Global,
    nodes: &Nodes,
    channels: &[Wires],
) -> Result<Vec<bool>, AllocError>
    requires nodes { IsNodes nodes.now.version nodes.now.index nodes.now.first.items }
    requires reset { HasItsReset nodes.now.version nodes.now.index nodes.now.first.items }
    requires wired { All (IsWiredAmong nodes.now.index nodes.now.first.items) channels.now }
    ensures { IfOk result (λ driven.
        AreDriven (nodes.now.version == 2) (map (λ (w : WiresValue). w.channel) channels.now) nodes.now.index
        driven.items) }
{
    let mut driven = own_driven(alloc, nodes)?;
    for wires in channels {
        mark_wires(&mut driven, wires);
    }
    Ok(driven)
}
