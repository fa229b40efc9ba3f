//! Names of channels, variables and procedures, and of nodes.

ghost use Rattle.std.specs.Prelude.{◌≡◌, IfOk, IfSome, IfNone};
ghost use Rattle.std.specs.List.{list_all};
ghost use Rattle.chp_base.specs.Names.{IsName, IsNodeName, begins_with_letter, letter, word_part, node_part, is_keyword};

use std::alloc::{AllocError, Global};
use std::marker::Model;

/// A name, of which contracts see the bytes. `name_of` makes those of channels, variables and procedures, and
/// `node_name_of` those of nodes, which may be longer and have dots.
#[derive(Drop)]
pub struct Name {
    bytes: Vec<u8>,
}

impl Model for Name {
    ghost use Rattle.std.specs.Prelude.{List, ℕ};
    ghost use Rattle.chp_base.specs.Names.{IsNodeName};

    ghost Value = { List ℕ };

    ghost view = { λ n. n.bytes.items };

    ghost invariant = { λ n. IsNodeName n.bytes.items };
}

impl Name {
    /// The bytes of the name.
    pub fn bytes(&self) -> &[u8]
        ensures bytes { result.now ≡ self.now }
        ensures name { IsNodeName self.now }
    {
        &self.bytes
    }

    /// A second name of the same bytes.
    pub fn copy(&self) -> Result<Name, AllocError>
        ensures { IfOk result (λ n. n ≡ self.now) }
    {
        let bytes = self.bytes.clone()?;
        Ok(Name { bytes })
    }
}

const MOST_OF_NAME: usize = 24;

const MOST_OF_NODE_NAME: usize = 32;

fn is_letter(byte: u8) -> bool
    ensures { result ≡ letter byte }
{
    matches!(byte, b'a'..=b'z' | b'A'..=b'Z')
}

fn is_word_part(byte: u8) -> bool
    ensures { result ≡ word_part byte }
{
    is_letter(byte) || matches!(byte, b'0'..=b'9' | b'_')
}

fn is_node_part(byte: u8) -> bool
    ensures { result ≡ node_part byte }
{
    is_word_part(byte) || byte == b'.'
}

fn starts_with_letter(text: &[u8]) -> bool
    ensures { result ≡ begins_with_letter text.now }
{
    match text {
        [first, ..] => is_letter(*first),
        [] => false,
    }
}

fn are_word_parts(text: &[u8]) -> bool
    ensures { result ≡ list_all word_part text.now }
{
    text.iter().all(|byte| is_word_part(*byte))
}

fn are_node_parts(text: &[u8]) -> bool
    ensures { result ≡ list_all node_part text.now }
{
    text.iter().all(|byte| is_node_part(*byte))
}

fn is_reserved(text: &[u8]) -> bool
    ensures { result ≡ is_keyword text.now }
{
    text == b"in".as_slice()
        || text == b"out".as_slice()
        || text == b"chan".as_slice()
        || text == b"var".as_slice()
        || text == b"begin".as_slice()
        || text == b"end".as_slice()
        || text == b"skip".as_slice()
        || text == b"proc".as_slice()
        || text == b"call".as_slice()
}

/// The name in a program that these bytes are, or None where they are none: a name has at most 24 letters,
/// digits and underscores, begins with a letter, and is no keyword.
#[tactic(auto, using(crate::proofs::NameLemmas::node_parts))]
pub fn name_of(alloc: Global, text: &[u8]) -> Result<Option<Name>, AllocError>
    ensures some { IfOk result (λ o. IfSome o (λ n. (n ≡ text.now) × IsName text.now)) }
    ensures none { IfOk result (λ o. IfNone o (¬ IsName text.now)) }
{
    if text.len() > MOST_OF_NAME
        || !starts_with_letter(text)
        || !are_word_parts(text)
        || is_reserved(text)
    {
        return Ok(None);
    }
    let bytes = Vec::from_slice(alloc, text)?;
    Ok(Some(Name { bytes }))
}

/// The node's name that these bytes are, or None where they are none: a node's name has at most 32 letters,
/// digits, underscores and dots, and begins with a letter.
pub fn node_name_of(alloc: Global, text: &[u8]) -> Result<Option<Name>, AllocError>
    ensures some { IfOk result (λ o. IfSome o (λ n. (n ≡ text.now) × IsNodeName text.now)) }
    ensures none { IfOk result (λ o. IfNone o (¬ IsNodeName text.now)) }
{
    if text.len() > MOST_OF_NODE_NAME || !starts_with_letter(text) || !are_node_parts(text) {
        return Ok(None);
    }
    let bytes = Vec::from_slice(alloc, text)?;
    Ok(Some(Name { bytes }))
}
