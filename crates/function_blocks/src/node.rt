//! What is made of an expression: the guards of its nodes, and its bits on two rails each.

ghost use Rattle.std.specs.Prelude.{◌≡◌, ◌+◌, ◌*◌, ◌<◌, ◌≤◌, ◌^◌, [], ◌∷◌, if◌then◌else◌, length, IfOk};
ghost use Rattle.prs_core.specs.Nets.{is_low};
ghost use Rattle.prs_core.specs.Pairs.{no_rules, pair_at, exchanged, rails_of};
ghost use Rattle.function_blocks.specs.Expressions.{following, read_rail};
ghost use Rattle.function_blocks.specs.Blocks.{bits_apart};

use prs_core::{Guard, all_of, high, low};
use std::alloc::{AllocError, Global};
use std::marker::Model;

/// The two guards of a node.
#[derive(Drop)]
pub struct NodeGuards {
    pub up: Guard,
    pub down: Guard,
}

impl Model for NodeGuards {
    ghost use Rattle.prs_core.specs.Nets.{NodeRules};

    ghost Value = { NodeRules };

    ghost view = { λ g. record { up = g.up; down = g.down } };
}

/// The two rails of a bit: `t` is high for 1, `f` for 0.
#[derive(Clone, Copy)]
pub struct Bit {
    pub t: u32,
    pub f: u32,
}

impl Model for Bit {
    ghost use Rattle.prs_core.specs.Pairs.{Pair};

    ghost Value = { Pair };

    ghost view = { λ b. record { t = b.t; f = b.f } };

    ghost inverse = { λ p. record { t = p.t; f = p.f } };
}

impl Bit {
    /// The bit whose rails have this number and the next one.
    pub fn at(node: u32) -> Bit
        requires { node + 1 < 2 ^ 32 }
        ensures { result ≡ pair_at node }
    {
        Bit {
            t: node,
            f: node + 1,
        }
    }

    /// The rail that is high for this value.
    pub fn rail(&self, one: bool) -> u32
        ensures { result ≡ if one then self.now.t else self.now.f }
    {
        if one { self.t } else { self.f }
    }

    /// The negated bit.
    pub fn exchanged(&self) -> Bit
        ensures { result ≡ exchanged self.now }
    {
        Bit {
            t: self.f,
            f: self.t,
        }
    }
}

/// So many bits, the first one's rails at `from`, and each further one's `step` nodes after those of the one before.
pub fn bits_apart(alloc: Global, step: u32, count: u8, from: u32) -> Result<Vec<Bit>, AllocError>
    requires { from + step * count + 2 ≤ 2 ^ 32 + step }
    ensures { IfOk result (λ bits. bits.items ≡ bits_apart step count from) }
{
    let mut bits = Vec::new(alloc);
    for place in 0..count {
        bits.push(Bit::at(from + step * u32::from(place)))?;
    }
    Ok(bits)
}

/// The two rails of each bit, in order.
pub fn rails_of(alloc: Global, bits: &[Bit]) -> Result<Vec<u32>, AllocError>
    ensures { IfOk result (λ rails. rails.items ≡ rails_of bits.now) }
{
    let mut rails = Vec::new(alloc);
    for bit in bits {
        rails.push(bit.rail(true))?;
        rails.push(bit.rail(false))?;
    }
    Ok(rails)
}

/// The guards of a node that no rule moves.
pub fn without_rules(alloc: Global) -> NodeGuards
    ensures { result ≡ no_rules }
{
    NodeGuards {
        up: Guard::new(Vec::new(alloc)),
        down: Guard::new(Vec::new(alloc)),
    }
}

/// The guards of a rail that follows the request.
pub fn following(alloc: Global, request: u32) -> Result<NodeGuards, AllocError>
    ensures { IfOk result (λ guards. guards ≡ following request) }
{
    let up = all_of(alloc, &[high(request)])?;
    let down = all_of(alloc, &[low(request)])?;
    Ok(NodeGuards { up, down })
}

/// The guards of a rail that follows a variable's rail under the request, and falls with the request alone.
pub fn read_rail(alloc: Global, request: u32, rail: u32) -> Result<NodeGuards, AllocError>
    ensures { IfOk result (λ guards. guards ≡ read_rail request rail) }
{
    let rises = all_of(alloc, &[high(request), high(rail)])?;
    let falls = all_of(alloc, &[low(request)])?;
    Ok(NodeGuards {
        up: rises,
        down: falls,
    })
}
