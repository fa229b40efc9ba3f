//! The numbers of the wires of channels and of the nodes of variables.

ghost use Rattle.std.specs.Prelude.{◌≡◌, ◌+◌, ◌*◌, ◌^◌, ◌<◌, length, slice_index_or, IfOk};
ghost use Rattle.prs_core.specs.Pairs.{pairs_from, rails_of};
ghost use Rattle.width_check.specs.Typed.{program_of};
ghost use Rattle.width_check.specs.Typing.{channel_width, var_width};
ghost use Rattle.handshake_expand.specs.Layout.{root_request};
ghost use Rattle.net_compose.specs.Begins.{channel_firsts, var_firsts};
ghost use Rattle.net_compose.specs.Translation.{ack_at, written_at};

use std::alloc::{AllocError, Global};
use width_check::Typed;

/// Rail t and rail f of so many bits, numbered from `from` on.
pub(crate) fn rails_from(alloc: Global, width: u8, from: u32) -> Result<Vec<u32>, AllocError>
    requires { from + 2 * width < 2 ^ 32 }
    ensures { IfOk result (λ rails. rails.items ≡ rails_of (pairs_from width from)) }
{
    let mut rails = Vec::new(alloc);
    let mut node = from;
    for _bit in 0..width {
        rails.push(node)?;
        rails.push(node + 1)?;
        node += 2;
    }
    Ok(rails)
}

/// The number at an index of a list, counted from 0, as the first node of the channel or the variable of that number; 0
/// where the list ends before it.
#[tactic(auto, using(crate::proofs::EndsReady::first_found, crate::proofs::EndsReady::no_first))]
pub(crate) fn first_of(firsts: &[u32], place: u32) -> u32
    ensures { result ≡ slice_index_or firsts.now place 0 }
{
    match firsts.get(place as usize) {
        Some(first) => *first,
        None => 0,
    }
}

/// The number of bits of the channel number `chan`: channels are numbered from 0 in order of declaration. 0
/// where there is none.
#[tactic(auto, using(crate::proofs::EndsReady::channel_declared, crate::proofs::EndsReady::channel_missing))]
pub(crate) fn channel_bits(program: &Typed, chan: u32) -> u8
    ensures { result ≡ channel_width program.now.channels chan }
{
    match program.channels().get(chan as usize) {
        Some(channel) => channel.width,
        None => 0,
    }
}

/// The number of bits of the variable number `var`: variables are numbered from 0 in order of declaration. 0
/// where there is none.
#[tactic(auto, using(crate::proofs::EndsReady::var_declared, crate::proofs::EndsReady::var_missing))]
pub(crate) fn var_bits(program: &Typed, var: u32) -> u8
    ensures { result ≡ var_width program.now.vars var }
{
    match program.vars().get(var as usize) {
        Some(declared) => declared.width,
        None => 0,
    }
}

/// The acknowledge of the channel number `chan`: the node after its rails. `channels` are the first wires of all
/// channels, as `firsts_of` returns them.
pub(crate) fn ack_node(program: &Typed, chan: u32, channels: &[u32]) -> u32
    requires channels { channels.now ≡ channel_firsts (program_of program.now) }
    requires within { chan < length program.now.channels }
    requires room { root_request (program_of program.now) < 2 ^ 32 }
    ensures ack { result ≡ ack_at (program_of program.now) chan }
    ensures before { result < root_request (program_of program.now) }
{
    first_of(channels, chan) + 2 * u32::from(channel_bits(program, chan))
}

/// The node that says that all bits of the variable number `var` are written: the last one of its block. `vars` are the
/// first nodes of the blocks of all variables, as `firsts_of` returns them.
pub(crate) fn written_node(program: &Typed, var: u32, vars: &[u32]) -> u32
    requires vars { vars.now ≡ var_firsts (program_of program.now) }
    requires within { var < length program.now.vars }
    requires room { root_request (program_of program.now) < 2 ^ 32 }
    ensures written { result ≡ written_at (program_of program.now) var }
    ensures before { result < root_request (program_of program.now) }
{
    // the contract of `body` says what holds of a checked program
    let _kept = program.body();
    first_of(vars, var) + (6 * u32::from(var_bits(program, var)) - 2)
}
