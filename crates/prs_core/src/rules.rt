//! The rules of a net while it is made.

ghost use Rattle.std.specs.Prelude.{◌≡◌, ◌<◌, ◌≤◌, [], length, replicate, slice_index_or, slice_set, IfOk};

use crate::rule::Guard;
use std::alloc::{AllocError, Global};
use std::marker::Model;
use std::mem;

/// The guards of a net that isn't finished: for each node the one that raises it and the one that lowers it.
#[derive(Drop)]
pub struct Rules {
    up: Vec<Guard>,
    down: Vec<Guard>,
}

impl Model for Rules {
    ghost use Rattle.prs_core.specs.Nets.{RulesValue, IsRules};

    ghost Value = { RulesValue };

    ghost view = { λ r. record { up = r.up.items; down = r.down.items } };

    ghost invariant = { λ r. IsRules (record { up = r.up.items; down = r.down.items }) };
}

fn no_guards(alloc: Global, nodes: u32) -> Result<Vec<Guard>, AllocError>
    ensures { IfOk result (λ v. v.items ≡ replicate nodes []) }
{
    let mut guards = Vec::with_capacity(alloc, nodes as usize)?;
    for _node in 0..nodes {
        guards.push(Guard::new(Vec::new(alloc)))?;
    }
    Ok(guards)
}

impl Rules {
    ghost use Rattle.prs_core.specs.Nets.{RulesValue, IsRules, IsBelow};

    /// The rules of this number of nodes, all guards empty.
    pub fn new(alloc: Global, nodes: u32) -> Result<Rules, AllocError>
        ensures { IfOk result (λ r. r ≡ record { up = replicate nodes []; down = replicate nodes [] }) }
    {
        let up = no_guards(alloc, nodes)?;
        let down = no_guards(alloc, nodes)?;
        Ok(Rules { up, down })
    }

    /// How many nodes the rules are for.
    pub fn nodes(&self) -> u32
        ensures { result ≡ length self.now.up }
    {
        self.up.len() as u32
    }

    /// Replaces the node's up guard.
    pub fn set_up(&mut self, node: u32, guard: Guard)
        requires node { node < length self.old.up }
        requires within { IsBelow (length self.old.up) guard }
        ensures { self.new ≡ record self.old { up = slice_set self.old.up node guard } }
    {
        self.up[node as usize] = guard;
    }

    /// Replaces the node's down guard.
    pub fn set_down(&mut self, node: u32, guard: Guard)
        requires node { node < length self.old.up }
        requires within { IsBelow (length self.old.up) guard }
        ensures { self.new ≡ record self.old { down = slice_set self.old.down node guard } }
    {
        self.down[node as usize] = guard;
    }

    /// Takes the node's up guard out, and leaves one with no terms.
    pub fn take_up(&mut self, node: u32) -> Guard
        requires { node < length self.old.up }
        ensures guard { result ≡ slice_index_or self.old.up node [] }
        ensures left { self.new ≡ record self.old { up = slice_set self.old.up node [] } }
    {
        let none = Guard::new(Vec::new(*self.up.allocator()));
        mem::replace(&mut self.up[node as usize], none)
    }

    /// Takes the node's down guard out, and leaves one with no terms.
    pub fn take_down(&mut self, node: u32) -> Guard
        requires { node < length self.old.up }
        ensures guard { result ≡ slice_index_or self.old.down node [] }
        ensures left { self.new ≡ record self.old { down = slice_set self.old.down node [] } }
    {
        let none = Guard::new(Vec::new(*self.down.allocator()));
        mem::replace(&mut self.down[node as usize], none)
    }

    /// The node's up guard.
    pub fn up(&self, node: u32) -> &Guard
        requires { node < length self.now.up }
        ensures guard { result.now ≡ slice_index_or self.now.up node [] }
        ensures rules { IsRules self.now }
    {
        &self.up[node as usize]
    }

    /// The node's down guard.
    pub fn down(&self, node: u32) -> &Guard
        requires { node < length self.now.up }
        ensures guard { result.now ≡ slice_index_or self.now.down node [] }
        ensures rules { IsRules self.now }
    {
        &self.down[node as usize]
    }
}
