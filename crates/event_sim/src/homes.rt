//! Which channel a node is a wire of.

ghost use Rattle.std.specs.Prelude.{◌≡◌, ℕ, ◌<◌, length, vec_len, All, slice_index_or, if◌then◌else◌, ◌==◌, Some, None, replicate, IfOk};
ghost use Rattle.std.specs.List.{list_any};
ghost use Rattle.event_sim.specs.Locality.{IsHomes};

use prs_core::Net;
use std::alloc::{AllocError, Global};

fn no_homes(alloc: Global, nodes: usize) -> Result<Vec<Option<u32>>, AllocError>
    ensures { IfOk result (λ v. v.items ≡ replicate nodes None) }
{
    let mut homes = Vec::with_capacity(alloc, nodes)?;
    for _node in 0..nodes {
        homes.push(None)?;
    }
    Ok(homes)
}

/// Makes the channel the home of the nodes.
fn settle(homes: &mut Vec<Option<u32>>, nodes: &[u32], chan: u32)
    requires { All (λ n. n < vec_len homes.old) nodes.now }
    ensures count { vec_len homes.new ≡ vec_len homes.old }
    ensures each { (n : ℕ) → n < vec_len homes.old → slice_index_or homes.new.items n None ≡
        (if list_any (λ m. n == m) nodes.now then Some chan else slice_index_or homes.old.items n None) }
{
    for node in nodes {
        homes[*node as usize] = Some(chan);
    }
}

/// For each node of the net the channel that it is a wire of, where there is one.
pub(crate) fn homes_of(alloc: Global, net: &Net) -> Result<Vec<Option<u32>>, AllocError>
    ensures { IfOk result (λ v. IsHomes net.now v.items) }
{
    let mut homes = no_homes(alloc, net.first().len())?;
    let channels = net.channels();
    for chan in 0..channels.len() {
        let wires = &channels[chan];
        settle(&mut homes, wires.rails.nodes(), chan as u32);
        homes[wires.ack as usize] = Some(chan as u32);
    }
    Ok(homes)
}
