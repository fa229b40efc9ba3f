//! What is declared of channels and variables.

ghost use Rattle.std.specs.Prelude.{◌≡◌};
ghost use Rattle.width_check.specs.Typed.{program_of};
ghost use Rattle.width_check.specs.Typing.{channel_width, var_width, kind_at};
ghost use Rattle.round_time.specs.Longest.{tree_height, var_height};

use crate::height::tree_height;
use chp_base::Kind;
use width_check::Typed;

/// Who is at the ends of a channel; of one that the program doesn't have, the program.
#[tactic(auto, using(crate::proofs::Declared::kind_found, crate::proofs::Declared::no_kind))]
pub(crate) fn kind_of(program: &Typed, chan: usize) -> Kind
    ensures { result ≡ kind_at program.now.channels chan }
{
    match program.channels().get(chan) {
        Some(channel) => channel.kind,
        None => Kind::Chan,
    }
}

/// The number of bits of a channel; 0 for a channel that the program doesn't have.
#[tactic(auto, using(handshake_expand::proofs::Rows::channel_found, handshake_expand::proofs::Rows::no_channel))]
fn channel_bits(program: &Typed, chan: u32) -> u8
    ensures { result ≡ channel_width program.now.channels chan }
{
    match program.channels().get(chan as usize) {
        Some(channel) => channel.width,
        None => 0,
    }
}

/// The number of bits of a variable; 0 for a variable that the program doesn't have.
#[tactic(auto, using(handshake_expand::proofs::Rows::var_found, handshake_expand::proofs::Rows::no_var))]
fn var_bits(program: &Typed, var: usize) -> u8
    ensures { result ≡ var_width program.now.vars var }
{
    match program.vars().get(var) {
        Some(declared) => declared.width,
        None => 0,
    }
}

/// The height of the completion tree over a variable's bits.
pub(crate) fn var_height(program: &Typed, var: usize) -> u64
    ensures { result ≡ var_height (program_of program.now) var }
{
    tree_height(u64::from(var_bits(program, var)))
}

/// The height of a completion tree over as many bits as a channel has.
pub(crate) fn channel_height(program: &Typed, chan: u32) -> u64
    ensures { result ≡ tree_height (channel_width program.now.channels chan) }
{
    tree_height(u64::from(channel_bits(program, chan)))
}
