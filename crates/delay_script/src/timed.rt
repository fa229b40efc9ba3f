//! Timed runs.

ghost use Rattle.std.specs.Prelude.{◌≡◌, ◌≤◌, List, length, false, IsSome, IfOk};
ghost use Rattle.env_script.specs.Scripts.{IsScript};
ghost use Rattle.env_script.specs.Environment.{net_channels};
ghost use Rattle.delay_script.specs.declared.noted.NotedMove.{NotedMove};
ghost use Rattle.delay_script.specs.DelayTables.{IsDelayTable};

use crate::delays::Delays;
use crate::noted::{Noted, TimedRan};
use env_script::Script;
use prs_core::Net;
use std::alloc::{AllocError, Global};
use std::marker::Model;

/// A timed run that hasn't begun. All memory of the run is allocated.
#[derive(Drop)]
pub struct Timed {
    noted: Noted,
}

impl Model for Timed {
    ghost use Rattle.delay_script.specs.TimedRuns.{TimedValue};

    ghost Value = { TimedValue };

    ghost view = { λ t. t.noted };
}

impl Timed {
    ghost use Rattle.delay_script.specs.TimedRuns.{timed_value, IsTimedRan};

    /// The timed run of the net under the script by these delays, for at most `steps` moves (up to 1,000,000). Where
    /// the net has a reset node, the nodes that have rules are low at power-up.
    pub fn new(
        alloc: Global,
        net: Net,
        script: Script,
        steps: u32,
        delays: Delays,
    ) -> Result<Timed, AllocError>
        requires script { IsScript (net_channels net) script }
        requires delays { IsDelayTable (length net.first) delays }
        requires steps { steps ≤ 1000000 }
        ensures { IfOk result (λ t. t ≡ timed_value net script steps delays false) }
    {
        let noted = Noted::begin(alloc, net, script, steps, delays, false)?;
        Ok(Timed { noted })
    }

    /// The timed run of a net that has a reset node, where the nodes that have rules have this value at power-up.
    pub fn powered(
        alloc: Global,
        net: Net,
        script: Script,
        steps: u32,
        delays: Delays,
        high: bool,
    ) -> Result<Timed, AllocError>
        requires script { IsScript (net_channels net) script }
        requires delays { IsDelayTable (length net.first) delays }
        requires steps { steps ≤ 1000000 }
        requires reset { IsSome net.reset }
        ensures { IfOk result (λ t. t ≡ timed_value net script steps delays high) }
    {
        let noted = Noted::begin(alloc, net, script, steps, delays, high)?;
        Ok(Timed { noted })
    }

    /// Runs the net as a `Noted` does, without recording its moves. It allocates no memory.
    pub fn run(self) -> TimedRan
        ensures { (ms : List NotedMove) × IsTimedRan self ms result.ran result.time }
    {
        self.noted.run().timed
    }
}
