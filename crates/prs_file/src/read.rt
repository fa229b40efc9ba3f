//! Reading a net.

ghost use Rattle.std.specs.Prelude.{◌≡◌, ◌≤◌, ◌==◌, length, IfOk, IfErr};
ghost use Rattle.prs_core.specs.Nets.{NetValue, IsNet, net_of};
ghost use Rattle.prs_file.specs.Openings.{OfRefusal};
ghost use Rattle.prs_file.specs.Reading.{IsRefused};
ghost use Rattle.prs_file.specs.Spelling.{NetText};
ghost use Rattle.prs_file.specs.Tables.{reset_by};

use crate::channels::read_channels;
use crate::fault::NetReadError;
use crate::nodes::{Nodes, read_nodes};
use crate::opening::read_opening;
use crate::table::read_rules;
use prs_core::{Net, Rules, Wires};
use std::alloc::Global;

/// The net of these parts, in version 2 with its last node as its reset node.
fn made(nodes: Nodes, channels: Vec<Wires>, rules: Rules) -> Net
    requires { IsNet (net_of nodes.index nodes.first.items rules channels.items
        (reset_by (nodes.version == 2) nodes.first.items)) }
    ensures { result ≡ net_of nodes.index nodes.first.items rules channels.items
        (reset_by (nodes.version == 2) nodes.first.items) }
{
    let Nodes {
        version,
        index,
        first,
    } = nodes;
    if version == 2 {
        Net::new_reset(index.into_names(), first, rules, channels)
    } else {
        Net::new(index.into_names(), first, rules, channels)
    }
}

/// The net that the text spells, read stage by stage.
fn read_in_stages(alloc: Global, text: &[u8]) -> Result<Net, NetReadError>
    requires { length text.now ≤ 268435456 }
    ensures net { IfOk result IsNet }
    ensures text { IfOk result (NetText text.now) }
    ensures refused { IfErr result (OfRefusal (IsRefused text.now)) }
{
    let (version, behind_opening) = read_opening(text)?;
    let (nodes, behind_nodes) = read_nodes(alloc, version, behind_opening)?;
    let (channels, behind_channels) = read_channels(alloc, &nodes, behind_nodes)?;
    let rules = read_rules(alloc, &nodes, &channels, behind_channels)?;
    Ok(made(nodes, channels, rules))
}

/// The one net that the text of a rule file spells. A text that spells none is refused at its first line with a fault,
/// or at its end if a file may not end there.
pub fn read_net(alloc: Global, text: &[u8]) -> Result<Net, NetReadError>
    requires { length text.now ≤ 268435456 }
    ensures net { IfOk result IsNet }
    ensures text { IfOk result (NetText text.now) }
    ensures only { IfOk result (λ net. (other : NetValue) → IsNet other → NetText text.now other → other ≡ net) }
    ensures refused { IfErr result (OfRefusal (IsRefused text.now)) }
    ensures never { IfErr result
        (OfRefusal (λ _fault _line. (other : NetValue) → IsNet other → ¬ NetText text.now other)) }
{
    read_in_stages(alloc, text)
}
