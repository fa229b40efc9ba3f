//! The blocks of channels and variables.

ghost use Rattle.std.specs.Prelude.{◌≡◌, ◌+◌, ◌^◌, ◌<◌, ◌++◌, ◌∷◌, List, [], map, IfOk, OnOk};
ghost use Rattle.width_check.specs.Processes.{TypedProgram};
ghost use Rattle.width_check.specs.Typed.{program_of};
ghost use Rattle.handshake_expand.specs.declared.site.SiteNode.{SiteNode as Site};
ghost use Rattle.handshake_expand.specs.Expansions.{block_value, channel_blocks, var_blocks};
ghost use Rattle.handshake_expand.specs.Layout.{vars_from, root_request};

use crate::count::block_nodes;
use crate::parts::Block;
use crate::site::{SiteKind, SiteNode};
use std::alloc::{AllocError, Global};
use width_check::Typed;

/// A block of `count` nodes, still without sites.
fn empty_block(alloc: Global, from: u32, count: u32) -> Block
    ensures { block_value result ≡ record { from = from; count = count; sends = []; receives = []; writes = [] } }
{
    Block {
        from,
        count,
        sends: Vec::new(alloc),
        receives: Vec::new(alloc),
        writes: Vec::new(alloc),
    }
}

/// The blocks of the channels, still without sites, and the first node after them.
pub(crate) fn channel_blocks(
    alloc: Global,
    program: &Typed,
) -> Result<(Vec<Block>, u32), AllocError>
    requires { vars_from (program_of program.now) < 2 ^ 32 }
    ensures blocks { IfOk result (λ r. map block_value r.0.items ≡ channel_blocks (program_of program.now) []) }
    ensures next { IfOk result (λ r. r.1 ≡ vars_from (program_of program.now)) }
{
    let mut blocks = Vec::new(alloc);
    let mut next = 2;
    for channel in program.channels() {
        let wires = 2 * u32::from(channel.width) + 1;
        blocks.push(empty_block(alloc, next, wires))?;
        next += wires;
    }
    Ok((blocks, next))
}

/// The blocks of the variables, still without sites, and the first node after them.
pub(crate) fn var_blocks(
    alloc: Global,
    program: &Typed,
    from: u32,
) -> Result<(Vec<Block>, u32), AllocError>
    requires from { from ≡ vars_from (program_of program.now) }
    requires room { root_request (program_of program.now) < 2 ^ 32 }
    ensures blocks { IfOk result (λ r. map block_value r.0.items ≡ var_blocks (program_of program.now) []) }
    ensures next { IfOk result (λ r. r.1 ≡ root_request (program_of program.now)) }
{
    let mut blocks = Vec::new(alloc);
    let mut next = from;
    for var in program.vars() {
        let nodes = block_nodes(var.width) as u32;
        blocks.push(empty_block(alloc, next, nodes))?;
        next += nodes;
    }
    Ok((blocks, next))
}

/// Records a site in the block of its channel or variable.
fn place_site(site: SiteNode, channels: &mut [Block], vars: &mut [Block]) -> Result<(), AllocError>
    ensures channels { OnOk result ((p : TypedProgram) (before : List Site) →
        map block_value channels.old ≡ channel_blocks p before →
        map block_value channels.new ≡ channel_blocks p (before ++ site ∷ [])) }
    ensures vars { OnOk result ((p : TypedProgram) (before : List Site) → map block_value vars.old ≡ var_blocks p before
        → map block_value vars.new ≡ var_blocks p (before ++ site ∷ [])) }
{
    match site.kind {
        SiteKind::Send(chan) => {
            if (chan as usize) < channels.len() {
                channels[chan as usize].sends.push(site.node)?;
            }
        }
        SiteKind::Receive(chan) => {
            if (chan as usize) < channels.len() {
                channels[chan as usize].receives.push(site.node)?;
            }
        }
        SiteKind::Write(var) => {
            if (var as usize) < vars.len() {
                vars[var as usize].writes.push(site.node)?;
            }
        }
    }
    Ok(())
}

/// Records each site in the block of its channel or variable.
pub(crate) fn place_sites(
    sites: &[SiteNode],
    channels: &mut [Block],
    vars: &mut [Block],
) -> Result<(), AllocError>
    ensures channels { OnOk result ((p : TypedProgram) → map block_value channels.old ≡ channel_blocks p [] →
        map block_value channels.new ≡ channel_blocks p sites.now) }
    ensures vars { OnOk result ((p : TypedProgram) → map block_value vars.old ≡ var_blocks p [] →
        map block_value vars.new ≡ var_blocks p sites.now) }
{
    for site in sites {
        place_site(*site, channels, vars)?;
    }
    Ok(())
}
