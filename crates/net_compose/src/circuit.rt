//! A program's circuit, given by the drivers of its nodes.

ghost use Rattle.std.specs.Prelude.{◌≡◌, ◌<◌, ◌≤◌, true, length, if◌then◌else◌, IfOk, OnOk, IfErr, [], ◌∷◌, ◌++◌, Some, None};
ghost use Rattle.chp_base.specs.Names.{IsNodeName};
ghost use Rattle.prs_core.specs.Nets.{IsBelow, IsNet, name_at, up_of, down_of};
ghost use Rattle.prs_core.specs.Pairs.{no_rules};
ghost use Rattle.reset_net.specs.Resets.{reset_of};
ghost use Rattle.width_check.specs.Typed.{program_of};
ghost use Rattle.handshake_expand.specs.Layout.{node_count, nodes_of};
ghost use Rattle.net_compose.specs.Points.{IsTranslated};
ghost use Rattle.net_compose.specs.Errors.{IfTooMany};
ghost use Rattle.net_compose.specs.Translation.{translation};
ghost use Rattle.net_compose.specs.Circuits.{IsEnding, with_ending, side};

use crate::declared::drivers_of;
use crate::driver::Driver;
use crate::ending::{Ending, ending_of, leads_back};
use crate::first::declared_values;
use crate::firsts::firsts_of;
use crate::laws::{all_counted, whole_nets};
use crate::names::{Names, names_of};
use crate::net::NetError;
use crate::wires::wires_of;
use handshake_expand::count_nodes;
use prs_core::Wires;
use sharing_check::Disjoint;
use std::alloc::{AllocError, Global};
use std::marker::Model;
use width_check::Typed;

/// How many nodes a net has at most that a rule file can hold.
pub const MOST_NODES: u64 = 65_536;

/// A circuit: the names and first values of its nodes, what drives each of them, and its channels. Contracts see the
/// net.
#[derive(Drop)]
pub struct Circuit {
    pub names: Names,
    pub first: Vec<bool>,
    pub drivers: Vec<Driver>,
    pub channels: Vec<Wires>,
    pub reset: Option<u32>,
}

impl Model for Circuit {
    ghost use Rattle.std.specs.Prelude.{◌≡◌, length};
    ghost use Rattle.prs_core.specs.Nets.{NetValue, IsNet};
    ghost use Rattle.net_compose.specs.Circuits.{circuit_net};

    ghost Value = { NetValue };

    ghost view = { λ c. circuit_net c.names c.first.items c.drivers.items c.channels.items c.reset };

    ghost invariant = { λ c. (length c.drivers.items ≡ length c.first.items)
        × IsNet (circuit_net c.names c.first.items c.drivers.items c.channels.items c.reset) };
}

impl Circuit {
    /// The name of a node.
    pub fn name(&self, node: u32) -> &[u8]
        requires { node < length self.now.first }
        ensures value { result.now ≡ name_at self.now node }
        ensures name { IsNodeName result.now }
    {
        self.names.at(node as usize)
    }

    /// The first values of the nodes.
    pub fn first(&self) -> &[bool]
        ensures first { result.now ≡ self.now.first }
        ensures net { IsNet self.now }
    {
        &self.first
    }

    /// The channels with their wires.
    pub fn channels(&self) -> &[Wires]
        ensures channels { result.now ≡ self.now.channels }
        ensures net { IsNet self.now }
    {
        &self.channels
    }

    /// The number of the reset node, or None where there is none.
    pub fn reset(&self) -> Option<u32>
        ensures reset { result ≡ self.now.reset }
        ensures net { IsNet self.now }
    {
        self.reset
    }

    /// What drives a node of a circuit without a reset node.
    pub(crate) fn driver(&self, node: u32) -> &Driver
        requires node { node < length self.now.first }
        requires plain { self.now.reset ≡ None }
        ensures up { result.now.up ≡ up_of self.now node }
        ensures down { result.now.down ≡ down_of self.now node }
    {
        &self.drivers[node as usize]
    }

    /// What drives a node, and what a reset adds to its rule in this direction.
    pub fn rule(&self, node: u32, up: bool) -> (&Driver, Ending)
        requires { node < length self.now.first }
        ensures rule { (if up then up_of self.now node else down_of self.now node)
            ≡ with_ending result.1 (side up result.0.now) }
        ensures up { IsBelow (length self.now.first) result.0.now.up }
        ensures down { IsBelow (length self.now.first) result.0.now.down }
        ensures ending { IsEnding (length self.now.first) result.1 }
    {
        let driver = &self.drivers[node as usize];
        let back = leads_back(self.first[node as usize], up);
        let ending = ending_of(self.reset, driver.has_rules(), back);
        (driver, ending)
    }
}

/// Adds a reset node, where one is asked for, and returns its number.
pub fn add_reset(
    reset: bool,
    first: &mut Vec<bool>,
    drivers: &mut Vec<Driver>,
) -> Result<Option<u32>, AllocError>
    requires { length first.old.items ≤ 65536 }
    ensures at { IfOk result (λ at. at ≡ if reset then Some (length first.old.items) else None) }
    ensures first { OnOk result (first.new.items ≡ first.old.items ++ (if reset then true ∷ [] else [])) }
    ensures drivers { OnOk result (drivers.new.items ≡ drivers.old.items ++ (if reset then no_rules ∷ [] else [])) }
{
    if !reset {
        return Ok(None);
    }
    let node = first.len() as u32;
    first.push(true)?;
    drivers.push(Driver::undriven())?;
    Ok(Some(node))
}

/// The circuit of a program that has at most 65,536 nodes, with a reset node where one is asked for.
fn make(alloc: Global, program: &Typed, reset: bool) -> Result<Circuit, AllocError>
    requires { nodes_of (program_of program.now) ≤ 65536 }
    ensures { IfOk result (λ net. net
        ≡ if reset then reset_of (translation (program_of program.now)) else translation (program_of program.now)) }
{
    whole_nets();
    all_counted();
    // the contract of `body` says what holds of a checked program
    let _kept = program.body();
    let count = count_nodes(program) as u32;
    let firsts = firsts_of(alloc, program)?;
    let mut first = declared_values(alloc, program, &firsts.vars, count)?;
    let mut drivers = drivers_of(alloc, program, &firsts, &mut first)?;
    let names = names_of(alloc, program, count, reset)?;
    let channels = wires_of(alloc, program)?;
    let at = add_reset(reset, &mut first, &mut drivers)?;
    Ok(Circuit {
        names,
        first,
        drivers,
        channels,
        reset: at,
    })
}

/// The circuit of a program, with a reset node where one is asked for. One that would have more than 65,536 nodes, the
/// reset node left out of the count, is refused with their number.
pub fn circuit_of(alloc: Global, program: &Disjoint, reset: bool) -> Result<Circuit, NetError>
    ensures net { IfOk result (λ net. net
        ≡ if reset then reset_of (translation (program_of program.now)) else translation (program_of program.now)) }
    ensures translated { OnOk result (IsTranslated (program_of program.now)) }
    ensures fits { OnOk result (nodes_of (program_of program.now) ≤ 65536) }
    ensures count { IfErr result (IfTooMany (λ count. count ≡ node_count (program_of program.now))) }
    ensures too_many { IfErr result (IfTooMany (λ _. 65536 < nodes_of (program_of program.now))) }
{
    let typed = program.typed();
    // the contract of `body` says what holds of a checked program
    let _kept = typed.body();
    let count = count_nodes(typed);
    if count > MOST_NODES {
        return Err(NetError::TooManyNodes(count));
    }
    match make(alloc, typed, reset) {
        Ok(circuit) => Ok(circuit),
        Err(e) => Err(NetError::NoMemory(e)),
    }
}
