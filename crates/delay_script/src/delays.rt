//! The delays of a net's nodes.

ghost use Rattle.std.specs.Prelude.{◌≡◌, ◌<◌, length, replicate, IfOk};

use std::alloc::{AllocError, Global};
use std::marker::Model;

/// For each node of a net how long its rise takes and how long its fall takes, whoever moves it: 0 to 1,000,000 units
/// of time.
#[derive(Drop)]
pub struct Delays {
    up: Vec<u32>,
    down: Vec<u32>,
}

impl Model for Delays {
    ghost use Rattle.std.specs.Prelude.{length};
    ghost use Rattle.delay_script.specs.DelayTables.{DelayTable, IsDelayTable, delay_table};

    ghost Value = { DelayTable };

    ghost view = { λ d. delay_table d.up.items d.down.items };

    ghost invariant = { λ d. IsDelayTable (length d.up.items) (delay_table d.up.items d.down.items) };
}

impl Delays {
    ghost use Rattle.delay_script.specs.DelayTables.{IsDelayTable, delay_table, unit_delays, rise_delay, fall_delay};

    /// The delays of these rises and falls, one of each for each node in order.
    pub(crate) fn new(up: Vec<u32>, down: Vec<u32>) -> Delays
        requires { IsDelayTable (length up.items) (delay_table up.items down.items) }
        ensures { result ≡ delay_table up.items down.items }
    {
        Delays { up, down }
    }

    /// The delays of so many nodes, each of which is 1.
    pub fn units(alloc: Global, nodes: usize) -> Result<Delays, AllocError>
        ensures units { IfOk result (λ d. d ≡ unit_delays nodes) }
        ensures table { IfOk result (IsDelayTable nodes) }
    {
        let up = vec![in alloc; 1; nodes]?;
        let down = vec![in alloc; 1; nodes]?;
        Ok(Delays::new(up, down))
    }

    /// A copy of the table.
    pub fn copy(&self) -> Result<Delays, AllocError>
        ensures { IfOk result (λ d. d ≡ self.now) }
    {
        let up = self.up.clone()?;
        let down = self.down.clone()?;
        Ok(Delays { up, down })
    }

    /// How long the node's rise takes, from 0 to 1,000,000 units of time.
    pub fn up(&self, node: u32) -> u32
        requires { node < length self.now.up }
        ensures rise { result ≡ rise_delay self.now node }
        ensures table { IsDelayTable (length self.now.up) self.now }
    {
        self.up[node as usize]
    }

    /// How long the node's fall takes, from 0 to 1,000,000 units of time.
    pub fn down(&self, node: u32) -> u32
        requires { node < length self.now.up }
        ensures fall { result ≡ fall_delay self.now node }
        ensures table { IsDelayTable (length self.now.up) self.now }
    {
        self.down[node as usize]
    }
}
