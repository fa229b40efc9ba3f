//! The wires of channels, found among the nodes.

ghost use Rattle.std.specs.Prelude.{◌≡◌, ◌||◌, is_none, Some, ℕ, ◌++◌, List, Bool, true, [], length, codes, decimal, IfOk, IfSome, IfNone};
ghost use Rattle.prs_core.specs.Nets.{rail_names, true_rail, false_rail, ack_name};
ghost use Rattle.prs_file.specs.Indexes.{place_in};
ghost use Rattle.prs_file.specs.WiresFound.{AreFound, some_unknown};

use crate::index::NodeIndex;
use itoa::Buffer;
use std::alloc::{AllocError, Global};

/// The number of the node that carries a rail.
fn find_rail(
    alloc: Global,
    index: &NodeIndex,
    channel: &[u8],
    bit: u8,
    rail: &[u8],
) -> Result<Option<u32>, AllocError>
    ensures { IfOk result
        (λ o. o ≡ place_in index.now (channel.now ++ codes "." ++ decimal bit ++ rail.now)) }
{
    let mut number = Buffer::new();
    let mut name = Vec::from_slice(alloc, channel)?;
    name.extend_from_slice(b".")?;
    name.extend_from_slice(number.format(bit).as_bytes())?;
    name.extend_from_slice(rail)?;
    Ok(index.find(&name))
}

/// The numbers of the two rails of a bit, or None where one of them is no node.
fn find_pair(
    alloc: Global,
    index: &NodeIndex,
    channel: &[u8],
    bit: u8,
) -> Result<Option<(u32, u32)>, AllocError>
    ensures rails { IfOk result
        (λ o. IfSome o (λ pair. (place_in index.now (true_rail channel.now bit) ≡ Some pair.0)
        × (place_in index.now (false_rail channel.now bit) ≡ Some pair.1))) }
    ensures none { IfOk result
        (λ o. IfNone o
        ((is_none (place_in index.now (true_rail channel.now bit))
        || is_none (place_in index.now (false_rail channel.now bit))) ≡ true)) }
{
    let Some(t) = find_rail(alloc, index, channel, bit, b".t")? else {
        return Ok(None);
    };
    let Some(f) = find_rail(alloc, index, channel, bit, b".f")? else {
        return Ok(None);
    };
    Ok(Some((t, f)))
}

/// The numbers of the rails of a channel, or None where one of them is no node.
pub fn find_rails(
    alloc: Global,
    index: &NodeIndex,
    channel: &[u8],
    width: u8,
) -> Result<Option<Vec<u32>>, AllocError>
    ensures found { IfOk result
        (λ o. IfSome o (λ rails. AreFound index.now (rail_names channel.now width) rails.items)) }
    ensures none { IfOk result
        (λ o. IfNone o (some_unknown index.now (rail_names channel.now width) ≡ true)) }
{
    let mut rails = Vec::new(alloc);
    for bit in 0..width {
        let Some((t, f)) = find_pair(alloc, index, channel, bit)? else {
            return Ok(None);
        };
        rails.push(t)?;
        rails.push(f)?;
    }
    Ok(Some(rails))
}

/// The number of the node that carries the acknowledge of a channel.
pub fn find_ack(alloc: Global, index: &NodeIndex, channel: &[u8]) -> Result<Option<u32>, AllocError>
    ensures { IfOk result (λ o. o ≡ place_in index.now (ack_name channel.now)) }
{
    let mut name = Vec::from_slice(alloc, channel)?;
    name.extend_from_slice(b".a")?;
    Ok(index.find(&name))
}
