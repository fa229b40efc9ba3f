//! Identifiers of nodes: their numbers in base 94, the lowest digit first.

ghost use Rattle.std.specs.Prelude.{◌≡◌, ◌≤◌, ◌<◌, ◌++◌, true, OnOk, IfSome, IfNone};
ghost use Rattle.std.specs.List.{list_all};
ghost use Rattle.wave_file.specs.Waves.{id_digit, id_of};
ghost use Rattle.wave_file.specs.WaveLines.{id_part, has_high_digit, is_id, id_value};

use std::alloc::AllocError;

const ZERO: u8 = b'!';

/// The character of a digit.
fn character(digit: u32) -> u8
    requires { digit < 94 }
    ensures { result ≡ id_digit digit }
{
    ZERO + digit as u8
}

/// Appends the identifier of the node.
pub fn id_text(node: u32, to: &mut Vec<u8>) -> Result<(), AllocError>
    requires { node < 830584 }
    ensures { OnOk result (to.new.items ≡ to.old.items ++ id_of node) }
{
    to.push(character(node % 94))?;
    if node < 94 {
        return Ok(());
    }
    to.push(character(node / 94 % 94))?;
    if node < 8836 {
        return Ok(());
    }
    to.push(character(node / 8836))?;
    Ok(())
}

fn is_id_part(byte: u8) -> bool
    ensures { result ≡ id_part byte }
{
    matches!(byte, b'!'..=b'~')
}

fn are_id_parts(text: &[u8]) -> bool
    ensures { result ≡ list_all id_part text.now }
{
    text.iter().all(|byte| is_id_part(*byte))
}

/// Whether the highest digit is not zero.
fn has_high_digit(text: &[u8]) -> bool
    ensures { result ≡ has_high_digit text.now }
{
    !text.is_empty() && text[text.len() - 1] != ZERO
}

/// Whether the text has the form of an identifier.
pub fn is_id(text: &[u8]) -> bool
    ensures { result ≡ is_id text.now }
{
    are_id_parts(text) && (text.len() == 1 || has_high_digit(text))
}

/// The node of the identifier, or None where it is not that of one of so many nodes.
pub fn node_of(id: &[u8], nodes: usize) -> Option<u32>
    requires id { is_id id.now ≡ true }
    requires nodes { nodes ≤ 65537 }
    ensures some { IfSome result (λ n. n ≡ id_value id.now) }
    ensures below { IfSome result (λ n. n < nodes) }
    ensures none { IfNone result (nodes ≤ id_value id.now) }
{
    let mut number = 0u32;
    for at in 0..id.len() {
        number = number * 94 + u32::from(id[id.len() - 1 - at] - ZERO);
        if number as usize >= nodes {
            return None;
        }
    }
    Some(number)
}
