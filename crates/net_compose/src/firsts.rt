//! Where the wires of channels and the blocks of variables begin.

ghost use Rattle.std.specs.Prelude.{◌≡◌, ◌+◌, ◌^◌, ◌<◌, IfOk};
ghost use Rattle.width_check.specs.Typed.{program_of};
ghost use Rattle.handshake_expand.specs.Layout.{block_size, vars_from, root_request};
ghost use Rattle.net_compose.specs.Begins.{channel_firsts, var_firsts};

use std::alloc::{AllocError, Global};
use width_check::Typed;

/// The first wire of each channel, and the first node of the block of each variable.
#[derive(Drop)]
pub struct Firsts {
    /// Rail t of the lowest bit of each channel, in order of declaration.
    pub channels: Vec<u32>,
    /// Rail t of the lowest bit of each variable, in order of declaration.
    pub vars: Vec<u32>,
}

/// The first wire of each channel, and the first node after all of them.
fn channel_firsts(alloc: Global, program: &Typed) -> Result<(Vec<u32>, u32), AllocError>
    requires { vars_from (program_of program.now) < 2 ^ 32 }
    ensures firsts { IfOk result (λ r. r.0.items ≡ channel_firsts (program_of program.now)) }
    ensures next { IfOk result (λ r. r.1 ≡ vars_from (program_of program.now)) }
{
    let mut firsts = Vec::new(alloc);
    let mut next = 2;
    for channel in program.channels() {
        firsts.push(next)?;
        next += 2 * u32::from(channel.width) + 1;
    }
    Ok((firsts, next))
}

/// The first node of the block of each variable, where the first block begins at `from`, and the first node after all
/// of them.
fn var_firsts(alloc: Global, program: &Typed, from: u32) -> Result<(Vec<u32>, u32), AllocError>
    requires from { from ≡ vars_from (program_of program.now) }
    requires room { root_request (program_of program.now) < 2 ^ 32 }
    ensures firsts { IfOk result (λ r. r.0.items ≡ var_firsts (program_of program.now)) }
    ensures next { IfOk result (λ r. r.1 ≡ root_request (program_of program.now)) }
{
    let mut firsts = Vec::new(alloc);
    let mut next = from;
    for var in program.vars() {
        firsts.push(next)?;
        next += block_nodes(var.width);
    }
    Ok((firsts, next))
}

/// How many nodes the block of a variable of the width has.
pub(crate) fn block_nodes(width: u8) -> u32
    ensures { result ≡ block_size width }
{
    (6 * u32::from(width)).saturating_sub(1)
}

/// Where the wires of channels and the blocks of variables begin.
pub fn firsts_of(alloc: Global, program: &Typed) -> Result<Firsts, AllocError>
    requires { root_request (program_of program.now) < 2 ^ 32 }
    ensures channels { IfOk result (λ firsts. firsts.channels.items ≡ channel_firsts (program_of program.now)) }
    ensures vars { IfOk result (λ firsts. firsts.vars.items ≡ var_firsts (program_of program.now)) }
{
    let (channels, next) = channel_firsts(alloc, program)?;
    let (vars, _next) = var_firsts(alloc, program, next)?;
    Ok(Firsts { channels, vars })
}
