//! The names of nodes where they stand in a text.

ghost use Rattle.std.specs.Prelude.{◌≡◌, IfSome, IfNone};
ghost use Rattle.std.specs.List.{list_all};
ghost use Rattle.chp_base.specs.Names.{IsNodeName, begins_with_letter, letter, node_part};

use std::marker::Model;

/// A node's name in a text, of which contracts see the bytes. Unlike a `Name` it takes no memory of its own.
#[derive(Drop)]
pub struct Word<'a> {
    bytes: &'a [u8],
}

impl<'a> Model for Word<'a> {
    ghost use Rattle.std.specs.Prelude.{List, ℕ};
    ghost use Rattle.chp_base.specs.Names.{IsNodeName};

    ghost Value = { List ℕ };

    ghost view = { λ w. w.bytes.now };

    ghost invariant = { λ w. IsNodeName w.bytes.now };
}

impl<'a> Word<'a> {
    /// The bytes of the name.
    pub fn bytes(&self) -> &[u8]
        ensures { result.now ≡ self.now }
    {
        self.bytes
    }
}

const MOST_BYTES: usize = 32;

fn is_letter(byte: u8) -> bool
    ensures { result ≡ letter byte }
{
    matches!(byte, b'a'..=b'z' | b'A'..=b'Z')
}

fn is_part(byte: u8) -> bool
    ensures { result ≡ node_part byte }
{
    is_letter(byte) || matches!(byte, b'0'..=b'9' | b'_' | b'.')
}

fn starts_with_letter(text: &[u8]) -> bool
    ensures { result ≡ begins_with_letter text.now }
{
    match text {
        [first, ..] => is_letter(*first),
        [] => false,
    }
}

fn are_parts(text: &[u8]) -> bool
    ensures { result ≡ list_all node_part text.now }
{
    text.iter().all(|byte| is_part(*byte))
}

/// The node's name that these bytes are, or None where they are none.
pub fn node_word(text: &[u8]) -> Option<Word>
    ensures some { IfSome result (λ w. (w ≡ text.now) × IsNodeName text.now) }
    ensures none { IfNone result (¬ IsNodeName text.now) }
{
    if text.len() > MOST_BYTES || !starts_with_letter(text) || !are_parts(text) {
        return None;
    }
    Some(Word { bytes: text })
}
