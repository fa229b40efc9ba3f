//! Checks of declarations.

ghost use Rattle.std.specs.Prelude.{◌≡◌, ◌≢◌, ℕ, List, All, AllPairs};
ghost use Rattle.std.specs.Bool.{Decides};
ghost use Rattle.std.specs.List.{list_any};
ghost use Rattle.std.specs.Str.{bytes_eq};
ghost use Rattle.chp_base.specs.Names.{IsName, is_keyword};
ghost use Rattle.width_check.specs.Typing.{IsDeclaredChannel, IsDeclaredVar, names_of};

use crate::typed::Var;
use chp_base::{Bits, Channel, Name};

/// Whether these bytes are a keyword.
fn is_reserved(text: &[u8]) -> bool
    ensures { result ≡ is_keyword text.now }
{
    text == b"in".as_slice()
        || text == b"out".as_slice()
        || text == b"chan".as_slice()
        || text == b"var".as_slice()
        || text == b"begin".as_slice()
        || text == b"end".as_slice()
        || text == b"skip".as_slice()
        || text == b"proc".as_slice()
        || text == b"call".as_slice()
}

/// Whether a name is one that a program may declare: names of nodes may be longer and have dots.
fn is_name(name: &Name) -> bool
    ensures { Decides result (IsName name.now) }
{
    let bytes = name.bytes();
    bytes.len() <= 24 && !bytes.contains(&b'.') && !is_reserved(bytes)
}

fn is_channel(channel: &Channel) -> bool
    ensures { Decides result (IsDeclaredChannel channel.now) }
{
    is_name(&channel.name) && 1 <= channel.width && channel.width <= 64
}

fn is_var(var: &Var) -> bool
    ensures { Decides result (IsDeclaredVar var.now) }
{
    is_name(&var.name) && Bits::new(var.width, var.first).is_some()
}

/// Whether each channel and each variable is one that a program may declare.
pub(crate) fn are_declared(channels: &[Channel], vars: &[Var]) -> bool
    ensures { Decides result (All IsDeclaredChannel channels.now × All IsDeclaredVar vars.now) }
{
    channels.iter().all(|channel| is_channel(channel)) && vars.iter().all(|var| is_var(var))
}

fn has_channel(channels: &[Channel], name: &Name) -> bool
    ensures { result ≡ list_any (λ channel. bytes_eq name.now channel.name) channels.now }
{
    channels.iter().any(|channel| *name == channel.name)
}

fn has_var(vars: &[Var], name: &Name) -> bool
    ensures { result ≡ list_any (λ var. bytes_eq name.now var.name) vars.now }
{
    vars.iter().any(|var| *name == var.name)
}

/// Whether one of the channels or variables has the name.
fn is_among(channels: &[Channel], vars: &[Var], name: &Name) -> bool
    ensures { result ≡ list_any (bytes_eq name.now) (names_of channels.now vars.now) }
{
    has_channel(channels, name) || has_var(vars, name)
}

/// Whether no name is declared twice.
pub(crate) fn are_distinct(channels: &[Channel], vars: &[Var]) -> bool
    ensures { Decides result (AllPairs (λ (a b : List ℕ). a ≢ b) (names_of channels.now vars.now)) }
{
    for (place, channel) in channels.iter().enumerate() {
        if is_among(&channels[place + 1..], vars, &channel.name) {
            return false;
        }
    }
    for (place, var) in vars.iter().enumerate() {
        if is_among(&[], &vars[place + 1..], &var.name) {
            return false;
        }
    }
    true
}
