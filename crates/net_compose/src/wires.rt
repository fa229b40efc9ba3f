//! The channels of a net, with their wires.

ghost use Rattle.std.specs.Prelude.{◌≡◌, ◌+◌, ◌*◌, ◌^◌, ◌<◌, IfOk};
ghost use Rattle.prs_core.specs.Pairs.{pairs_from, rails_of};
ghost use Rattle.width_check.specs.Typed.{program_of};
ghost use Rattle.handshake_expand.specs.Layout.{vars_from};
ghost use Rattle.net_compose.specs.Translation.{wires_from};

use crate::ends::rails_from;
use chp_base::Channel;
use prs_core::{Rails, Wires};
use std::alloc::{AllocError, Global};
use width_check::Typed;

/// The channel with its wires, which are numbered from `first` on.
fn wired(alloc: Global, channel: &Channel, first: u32) -> Result<Wires, AllocError>
    requires { first + 2 * channel.now.width + 1 < 2 ^ 32 }
    ensures { IfOk result (λ wires. wires ≡ record {
      channel = channel.now;
      rails = rails_of (pairs_from channel.now.width first);
      ack = first + 2 * channel.now.width;
    }) }
{
    let rails = rails_from(alloc, channel.width, first)?;
    let name = channel.name.copy()?;
    let channel = Channel {
        name,
        kind: channel.kind,
        width: channel.width,
    };
    let ack = first + 2 * u32::from(channel.width);
    Ok(Wires {
        channel,
        rails: Rails::new(rails),
        ack,
    })
}

/// The channels of a program with their wires, in order of declaration.
pub fn wires_of(alloc: Global, program: &Typed) -> Result<Vec<Wires>, AllocError>
    requires { vars_from (program_of program.now) < 2 ^ 32 }
    ensures { IfOk result (λ wires. wires.items ≡ wires_from (program_of program.now) 0 program.now.channels) }
{
    let mut wires = Vec::new(alloc);
    let mut next = 2;
    for channel in program.channels() {
        wires.push(wired(alloc, channel, next)?)?;
        next += 2 * u32::from(channel.width) + 1;
    }
    Ok(wires)
}
