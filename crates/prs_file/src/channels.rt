//! The lines of channels, one after another.

ghost use Rattle.std.specs.Prelude.{◌≡◌, ◌≢◌, ◌≤◌, ◌<◌, ◌+◌, ◌^◌, ◌++◌, ℕ, List, Bool, true, length, IfOk, IfErr, IfSome, IfNone, is_some};
ghost use Rattle.chp_base.specs.Names.{IsNodeName};
ghost use Rattle.chp_base.specs.declared.channel.Channel.{Channel as ChannelValue};
ghost use Rattle.prs_file.specs.ChannelsTold.{IsChannelsRead};
ghost use Rattle.prs_file.specs.Indexes.{place_in};
ghost use Rattle.prs_file.specs.Lines.{first_line};
ghost use Rattle.prs_file.specs.NodesTold.{IsNodesRead, nodes_told};
ghost use Rattle.prs_file.specs.Openings.{text_behind, OfRefusal};
ghost use Rattle.prs_file.specs.Reading.{IsChannelForm, IsRefused};
ghost use Rattle.prs_file.specs.Spelling.{node_spelling, channel_spelling};

use crate::channel::channel_form;
use crate::fault::{NetFault, NetReadError};
use crate::index::NodeIndex;
use crate::nodes::Nodes;
use crate::spelled::cut_line;
use crate::wiring::wire;
use chp_base::Channel;
use prs_core::Wires;
use std::alloc::{AllocError, Global};

/// The channel in the first line, and the text after the line, or None if the line is no channel's.
fn next_channel(alloc: Global, text: &[u8]) -> Result<Option<(Channel, &[u8])>, AllocError>
    ensures line { IfOk result (λ o. IfSome o (λ form. first_line text.now ≡ channel_spelling form.0)) }
    ensures rest { IfOk result (λ o. IfSome o (λ form. text.now ≡ first_line text.now ++ form.1.now)) }
    ensures form { IfOk result (λ o. IfSome o (λ form. IsChannelForm form.0)) }
    ensures some { IfOk result (λ o. IfSome o (λ form. length form.1.now < length text.now)) }
    ensures none { IfOk result
        (λ o. IfNone o ((c : ChannelValue) → IsChannelForm c → first_line text.now ≢ channel_spelling c)) }
{
    let (line, behind) = cut_line(text);
    let Some(channel) = channel_form(alloc, line)? else {
        return Ok(None);
    };
    Ok(Some((channel, behind)))
}

/// The channels of a file, read after its nodes, and the text after them.
pub fn read_channels<'a>(
    alloc: Global,
    nodes: &Nodes,
    text: &'a [u8],
) -> Result<(Vec<Wires>, &'a [u8]), NetReadError>
    requires short { length text.now ≤ 268435456 }
    requires read { IsNodesRead nodes.now.version nodes.now.index nodes.now.first.items true
        (text_behind (nodes_told nodes.now.version nodes.now.index nodes.now.first.items) text.now) text.now }
    requires over { (name : List ℕ) (first : Bool) → IsNodeName name → first_line text.now ≢ node_spelling name first }
    ensures read { IfOk result
        (λ r. IsChannelsRead nodes.now.version nodes.now.index nodes.now.first.items r.0.items
        (text_behind (nodes_told nodes.now.version nodes.now.index nodes.now.first.items) text.now) r.1.now) }
    ensures over { IfOk result
        (λ r. (c : ChannelValue) → IsChannelForm c → first_line r.1.now ≢ channel_spelling c) }
    ensures room { IfOk result (λ r. length r.0.items + length r.1.now ≤ length text.now) }
    ensures refused { IfErr result
        (OfRefusal (λ fault line. IsRefused
        (text_behind (nodes_told nodes.now.version nodes.now.index nodes.now.first.items) text.now) fault line)) }
{
    let mut channels: Vec<Wires> = Vec::new(alloc);
    let mut names = NodeIndex::new(alloc, nodes.index.len() / 2)?;
    let mut rest = text;
    while let Some((channel, behind)) = next_channel(alloc, rest)? {
        let line = (nodes.index.len() + channels.len()) as u32 + 2;
        if names.find(channel.name.bytes()).is_some() {
            let fault = NetFault::DoubleName;
            return Err(NetReadError::Refused { fault, line });
        }
        let name = channel.name.copy()?;
        match wire(alloc, nodes, channel)? {
            Ok(wires) => channels.push(wires)?,
            Err(fault) => return Err(NetReadError::Refused { fault, line }),
        }
        names.add(name)?;
        rest = behind;
    }
    Ok((channels, rest))
}
