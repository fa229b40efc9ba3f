//! The names of a buffer's channel and variable.

ghost use Rattle.std.specs.Prelude.{◌≡◌, ◌<◌, ◌^◌, ◌∷◌, ◌||◌, true, decimal, IfOk};
ghost use Rattle.std.specs.List.{list_any};
ghost use Rattle.std.specs.Str.{bytes_eq};
ghost use Rattle.chp_base.specs.Names.{letter};
ghost use Rattle.slack_buffer.specs.Buffers.{copy_name, slot_name};
ghost use Rattle.slack_buffer.specs.BufferedTrees.{IsFreeNumber};

use chp_base::{Name, name_of};
use chp_syntax::Decl;
use itoa::Buffer;
use std::alloc::{AllocError, Global};

/// The names that a buffer adds to a program.
#[derive(Drop)]
pub(crate) struct BufferNames {
    /// Of the channel after the buffer.
    pub copy: Name,
    /// Of its variable.
    pub slot: Name,
}

/// The name made of a letter and a number.
fn numbered(alloc: Global, first: u8, number: u64) -> Result<Name, AllocError>
    requires { letter first ≡ true }
    ensures { IfOk result (λ name. name ≡ first ∷ decimal number) }
{
    let mut text = Vec::new(alloc);
    text.push(first)?;
    text.extend_from_slice(Buffer::new().format(number).as_bytes())?;
    Ok(name_of(alloc, &text)?.unwrap())
}

fn names_of(alloc: Global, number: u64) -> Result<BufferNames, AllocError>
    ensures copy { IfOk result (λ names. names.copy ≡ copy_name number) }
    ensures slot { IfOk result (λ names. names.slot ≡ slot_name number) }
{
    Ok(BufferNames {
        copy: numbered(alloc, b'B', number)?,
        slot: numbered(alloc, b'b', number)?,
    })
}

/// One of the names is declared.
fn is_taken(decls: &[Decl], names: &BufferNames) -> bool
    ensures { result ≡ list_any (λ d. bytes_eq d.name.name names.now.copy || bytes_eq d.name.name names.now.slot)
        decls.now }
{
    decls.iter().any(|decl| decl.name.name == names.copy || decl.name.name == names.slot)
}

/// The names with the least number for which neither is declared.
pub(crate) fn free_names(alloc: Global, decls: &[Decl]) -> Result<(u64, BufferNames), AllocError>
    ensures free { IfOk result (λ found. IsFreeNumber decls.now found.0) }
    ensures small { IfOk result (λ found. found.0 < 2 ^ 64) }
    ensures copy { IfOk result (λ found. found.1.copy ≡ copy_name found.0) }
    ensures slot { IfOk result (λ found. found.1.slot ≡ slot_name found.0) }
{
    let most = decls.len() as u64;
    for number in 0..most {
        let names = names_of(alloc, number)?;
        if !is_taken(decls, &names) {
            return Ok((number, names));
        }
    }
    Ok((most, names_of(alloc, most)?))
}
