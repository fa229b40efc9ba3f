//! Nets.

ghost use Rattle.std.specs.Prelude.{◌≡◌, ◌-◌, ◌<◌, length, Some, None};

use crate::rule::Guard;
use crate::rules::Rules;
use crate::wires::Wires;
use chp_base::Name;
use std::marker::Model;

/// A net: for each node a name, a first value and two guards, the channels with their wires, and maybe a reset
/// node. Node 0 is go and node 1 is done. It keeps all that a rule file asks for.
#[derive(Drop)]
pub struct Net {
    names: Vec<Name>,
    first: Vec<bool>,
    rules: Rules,
    channels: Vec<Wires>,
    reset: Option<u32>,
}

impl Model for Net {
    ghost use Rattle.prs_core.specs.Nets.{NetValue, IsNet, net_of};

    ghost Value = { NetValue };

    ghost view = { λ n. net_of n.names.items n.first.items n.rules n.channels.items n.reset };

    ghost invariant = { λ n. IsNet (net_of n.names.items n.first.items n.rules n.channels.items n.reset) };
}

impl Net {
    ghost use Rattle.prs_core.specs.Nets.{IsNet, net_of, net_rules, up_of, down_of};

    /// The net of these parts, with no reset node.
    pub fn new(names: Vec<Name>, first: Vec<bool>, rules: Rules, channels: Vec<Wires>) -> Net
        requires { IsNet (net_of names.items first.items rules channels.items None) }
        ensures { result ≡ net_of names.items first.items rules channels.items None }
    {
        Net {
            names,
            first,
            rules,
            channels,
            reset: None,
        }
    }

    /// The net of these parts, whose last node is its reset node.
    pub fn new_reset(names: Vec<Name>, first: Vec<bool>, rules: Rules, channels: Vec<Wires>) -> Net
        requires { IsNet (net_of names.items first.items rules channels.items (Some (length first.items - 1))) }
        ensures { result ≡ net_of names.items first.items rules channels.items (Some (length first.items - 1)) }
    {
        let reset = Some(first.len() as u32 - 1);
        Net {
            names,
            first,
            rules,
            channels,
            reset,
        }
    }

    /// The parts that the net was made of.
    pub fn into_parts(self) -> (Vec<Name>, Vec<bool>, Rules, Vec<Wires>)
        ensures names { result.0.items ≡ self.names }
        ensures first { result.1.items ≡ self.first }
        ensures rules { result.2 ≡ net_rules self }
        ensures channels { result.3.items ≡ self.channels }
    {
        (self.names, self.first, self.rules, self.channels)
    }

    /// The names of the nodes.
    pub fn names(&self) -> &[Name]
        ensures names { result.now ≡ self.now.names }
        ensures net { IsNet self.now }
    {
        &self.names
    }

    /// The first values of the nodes.
    pub fn first(&self) -> &[bool]
        ensures first { result.now ≡ self.now.first }
        ensures net { IsNet self.now }
    {
        &self.first
    }

    /// The channels with their wires.
    pub fn channels(&self) -> &[Wires]
        ensures channels { result.now ≡ self.now.channels }
        ensures net { IsNet self.now }
    {
        &self.channels
    }

    /// The node's up guard.
    pub fn up(&self, node: u32) -> &Guard
        requires { node < length self.now.first }
        ensures { result.now ≡ up_of self.now node }
    {
        self.rules.up(node)
    }

    /// The node's down guard.
    pub fn down(&self, node: u32) -> &Guard
        requires { node < length self.now.first }
        ensures { result.now ≡ down_of self.now node }
    {
        self.rules.down(node)
    }

    /// The number of the reset node, or None where the net has none.
    pub fn reset(&self) -> Option<u32>
        ensures reset { result ≡ self.now.reset }
        ensures net { IsNet self.now }
    {
        self.reset
    }
}
