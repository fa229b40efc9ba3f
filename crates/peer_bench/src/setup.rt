//! Where a run on a bench begins.

ghost use Rattle.std.specs.Prelude.{◌≡◌, ◌≤◌, ℕ, [], map, IfOk};
ghost use Rattle.prs_core.specs.declared.wires.Wires.{Wires};
ghost use Rattle.env_script.specs.Offers.{offered};
ghost use Rattle.peer_bench.specs.Growing.{offer_by};

use crate::channel_set::ChannelSet;
use chp_base::Kind;
use env_script::{Count, Offer, Script};
use event_sim::{Stage, power_state};
use prs_core::{Net, Wires};
use std::alloc::{AllocError, Global};
use std::marker::Model;

/// A net on a stage on which nothing has been offered yet, how many moves may be made, and a set of channels that has
/// all idle ones. All memory of the run is allocated.
#[derive(Drop)]
pub(crate) struct Setup {
    pub(crate) stage: Stage,
    pub(crate) steps: u32,
    pub(crate) idle: ChannelSet,
}

impl Model for Setup {
    ghost use Rattle.event_sim.specs.Stages.{now_of};
    ghost use Rattle.peer_bench.specs.Benches.{SetupValue, IsUnasked};
    ghost use Rattle.peer_bench.specs.Sets.{HasIdle};

    ghost Value = { SetupValue };

    ghost view = { λ s. record { net = s.stage.net; steps = s.steps } };

    ghost invariant = { λ s. IsUnasked s.stage s.steps × HasIdle s.stage.net s.stage.script (now_of s.stage) s.idle };
}

/// Nothing is offered yet on a channel of this kind.
fn no_offer(alloc: Global, kind: Kind) -> Offer
    ensures { (chan : ℕ) → offered result ≡ offer_by kind chan [] }
{
    match kind {
        Kind::In => Offer::Values(Vec::new(alloc)),
        Kind::Out => Offer::Accept(Count::Times(0)),
        Kind::Chan => Offer::Nothing,
    }
}

/// The script of these channels that offers nothing.
fn no_script(alloc: Global, channels: &[Wires]) -> Result<Script, AllocError>
    ensures { IfOk result (λ s. s ≡ map (λ (w : Wires). offer_by w.channel.kind 0 []) channels.now) }
{
    let mut offers = Vec::with_capacity(alloc, channels.len())?;
    for wires in channels {
        offers.push(no_offer(alloc, wires.channel.kind))?;
    }
    Ok(Script::new(offers))
}

impl Setup {
    ghost use Rattle.peer_bench.specs.Benches.{SetupValue};

    /// The net at power-up, for so many moves at most. Where it has a reset node, the nodes that have rules are low.
    pub(crate) fn new(alloc: Global, net: Net, steps: u32) -> Result<Setup, AllocError>
        requires { steps ≤ 1000000 }
        ensures { IfOk result (λ s. s ≡ record { net = net; steps = steps }) }
    {
        let script = no_script(alloc, net.channels())?;
        let state = power_state(alloc, &net, false)?;
        let stage = Stage::new(alloc, net, script, state, steps)?;
        let idle = ChannelSet::all(alloc, stage.net().channels().len())?;
        Ok(Setup { stage, steps, idle })
    }
}
