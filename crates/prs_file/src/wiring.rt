//! The nodes of a channel's wires.

ghost use Rattle.std.specs.Prelude.{◌≡◌, ◌≢◌, ◌<◌, ℕ, List, Bool, false, length, All, AllPairs, slice_index_or, IfOk, IfErr, Some};
ghost use Rattle.std.specs.List.{list_any};
ghost use Rattle.prs_file.specs.WiresFound.{IsWiredAmong, wires_fault_of};

use crate::fault::NetFault;
use crate::lookup::{find_ack, find_rails};
use crate::nodes::Nodes;
use chp_base::Channel;
use prs_core::{Rails, Wires};
use std::alloc::{AllocError, Global};

fn any_high(first: &[bool], nodes: &[u32]) -> bool
    requires { All (λ n. n < length first.now) nodes.now }
    ensures { result ≡ list_any (λ n. slice_index_or first.now n false) nodes.now }
{
    nodes.iter().any(|node| first[*node as usize])
}

/// The channel with the nodes of its wires, or why there are none.
pub fn wire(
    alloc: Global,
    nodes: &Nodes,
    channel: Channel,
) -> Result<Result<Wires, NetFault>, AllocError>
    requires count { length nodes.now.first.items ≡ length nodes.now.index }
    requires distinct { AllPairs (λ (a b : List ℕ). a ≢ b) nodes.now.index }
    ensures channel { IfOk result (λ r. IfOk r (λ w. w.channel ≡ channel)) }
    ensures wired { IfOk result (λ r. IfOk r (IsWiredAmong nodes.now.index nodes.now.first.items)) }
    ensures fault { IfOk result
        (λ r. IfErr r (λ fault. wires_fault_of nodes.now.index nodes.now.first.items channel ≡ Some fault)) }
{
    let name = channel.name.bytes();
    let Some(rails) = find_rails(alloc, &nodes.index, name, channel.width)? else {
        return Ok(Err(NetFault::UnknownNode));
    };
    let Some(ack) = find_ack(alloc, &nodes.index, name)? else {
        return Ok(Err(NetFault::UnknownNode));
    };
    if any_high(&nodes.first, &rails) || nodes.first[ack as usize] {
        return Ok(Err(NetFault::BadFirst));
    }
    let rails = Rails::new(rails);
    Ok(Ok(Wires {
        channel,
        rails,
        ack,
    }))
}
