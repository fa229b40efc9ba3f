//! The rules of a file, made into the guards of its nodes.

ghost use Rattle.std.specs.Prelude.{◌≡◌, ◌≢◌, ◌<◌, ◌≤◌, ◌+◌, ◌==◌, [], map, length, IfOk, IfErr};
ghost use Rattle.chp_base.specs.declared.channel.Channel.{Channel as ChannelValue};
ghost use Rattle.prs_core.specs.declared.wires.Wires.{Wires as WiresValue};
ghost use Rattle.prs_core.specs.Nets.{IsBelow};
ghost use Rattle.prs_file.specs.ChannelsTold.{IsChannelsRead, channels_told};
ghost use Rattle.prs_file.specs.DrivenTold.{HasItsReset};
ghost use Rattle.prs_file.specs.Lines.{first_line};
ghost use Rattle.prs_file.specs.NodesTold.{IsNodes};
ghost use Rattle.prs_file.specs.Openings.{text_behind, OfRefusal};
ghost use Rattle.prs_file.specs.Reading.{IsChannelForm, IsTaken, IsRefused};
ghost use Rattle.prs_file.specs.Spelling.{channel_spelling};
ghost use Rattle.prs_file.specs.Tables.{with_guard, net_forms, IsWholeTable};

use crate::driven::driven_nodes;
use crate::fault::{NetFault, NetReadError};
use crate::nodes::Nodes;
use crate::turns::{Progress, Turn, next_rule, place_of, turn_of};
use prs_core::{Rules, Wires};
use std::alloc::Global;

/// Sets the guard of a rule at its node.
fn set_guard(rules: &mut Rules, up: bool, turn: Turn)
    requires node { turn.node < length rules.old.up }
    requires within { IsBelow (length rules.old.up) turn.guard }
    ensures { rules.new ≡ with_guard turn.node up turn.guard rules.old }
{
    if up {
        rules.set_up(turn.node, turn.guard);
    } else {
        rules.set_down(turn.node, turn.guard);
    }
}

/// The rules of a file, read after its channels, up to the end of the text.
pub fn read_rules(
    alloc: Global,
    nodes: &Nodes,
    channels: &[Wires],
    text: &[u8],
) -> Result<Rules, NetReadError>
    requires room { length channels.now + length text.now ≤ 268435456 }
    requires nodes { IsNodes nodes.now.version nodes.now.index nodes.now.first.items }
    requires reset { HasItsReset nodes.now.version nodes.now.index nodes.now.first.items }
    requires read { IsChannelsRead nodes.now.version nodes.now.index nodes.now.first.items channels.now
        (text_behind (channels_told nodes.now.version nodes.now.index nodes.now.first.items channels.now) text.now)
        text.now }
    requires over { (c : ChannelValue) → IsChannelForm c → first_line text.now ≢ channel_spelling c }
    ensures table { IfOk result
        (λ rules. IsWholeTable (nodes.now.version == 2) (map (λ (w : WiresValue). w.channel) channels.now)
        nodes.now.index rules) }
    ensures taken { IfOk result
        (λ rules. IsTaken (text_behind (channels_told nodes.now.version nodes.now.index nodes.now.first.items
        channels.now) text.now) (net_forms nodes.now.version nodes.now.index nodes.now.first.items channels.now
        rules) []) }
    ensures refused { IfErr result
        (OfRefusal (λ fault line. IsRefused
        (text_behind (channels_told nodes.now.version nodes.now.index nodes.now.first.items channels.now) text.now)
        fault line)) }
{
    let driven = driven_nodes(alloc, nodes, channels)?;
    let mut rules = Rules::new(alloc, nodes.index.len() as u32)?;
    let mut so_far = Progress {
        place: None,
        literals: 0,
    };
    let mut line = (nodes.index.len() + channels.len()) as u32 + 2;
    let mut rest = text;
    while !rest.is_empty() {
        let Some((form, behind)) = next_rule(alloc, rest)? else {
            let fault = NetFault::BadLine;
            return Err(NetReadError::Refused { fault, line });
        };
        let turn = match turn_of(alloc, nodes, &driven, so_far, &form)? {
            Ok(turn) => turn,
            Err(fault) => return Err(NetReadError::Refused { fault, line }),
        };
        so_far = Progress {
            place: Some(place_of(turn.node, form.up)),
            literals: so_far.literals + form.leds.len(),
        };
        set_guard(&mut rules, form.up, turn);
        line += 1;
        rest = behind;
    }
    Ok(rules)
}
