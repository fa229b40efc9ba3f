//! The lines of nodes, one after another.

ghost use Rattle.std.specs.Prelude.{◌≡◌, ◌≢◌, ◌≤◌, ◌<◌, ◌+◌, ◌==◌, ◌&&◌, ◌++◌, ◌∷◌, ℕ, List, Bool, true, false, [], length, codes, bytes_eq, IfOk, IfErr, IfSome, IfNone, Some};
ghost use Rattle.chp_base.specs.Names.{IsNodeName};
ghost use Rattle.prs_file.specs.Lines.{first_line};
ghost use Rattle.prs_file.specs.Openings.{opening, text_behind, OfRefusal};
ghost use Rattle.prs_file.specs.NodesTold.{node_fault_of, node_most, IsNodesRead};
ghost use Rattle.prs_file.specs.Reading.{IsRefused, AllStand, ends_nodes};
ghost use Rattle.prs_file.specs.Reading.Form.{node};
ghost use Rattle.prs_file.specs.Spelling.{node_spelling};

use crate::fault::{NetFault, NetReadError};
use crate::form::node_form;
use crate::index::NodeIndex;
use crate::spelled::cut_line;
use chp_base::{Name, node_name_of};
use std::alloc::{AllocError, Global};

/// The nodes of a file: their names, and for each its first value.
#[derive(Drop)]
pub struct Nodes {
    /// The version of the file.
    pub version: u8,
    pub index: NodeIndex,
    pub first: Vec<bool>,
}

fn fixed_name(alloc: Global, text: &[u8]) -> Result<Name, AllocError>
    requires { IsNodeName text.now }
    ensures { IfOk result (λ name. name ≡ text.now) }
{
    match node_name_of(alloc, text)? {
        Some(name) => Ok(name),
        None => unreachable!(),
    }
}

/// The nodes that each file begins with, with slots for about so many.
fn first_nodes(alloc: Global, version: u8, count: usize) -> Result<Nodes, AllocError>
    ensures version { IfOk result (λ nodes. nodes.version ≡ version) }
    ensures names { IfOk result (λ nodes. nodes.index ≡ codes "go" ∷ codes "done" ∷ []) }
    ensures low { IfOk result (λ nodes. nodes.first.items ≡ false ∷ false ∷ []) }
{
    let mut index = NodeIndex::new(alloc, count)?;
    index.add(fixed_name(alloc, b"go")?)?;
    index.add(fixed_name(alloc, b"done")?)?;
    let first = Vec::from_slice(alloc, &[false, false])?;
    Ok(Nodes {
        version,
        index,
        first,
    })
}

/// Whether the node lines may end after this one: in version 2 the reset node is the last one.
fn may_be_last(version: u8, name: &[u8], first: bool) -> bool
    ensures { result ≡ ends_nodes (version == 2) (Some (node name.now first)) }
{
    version != 2 || (name == b"reset".as_slice() && first)
}

/// There is a slot for so many bytes of the text. Ordinary files have two to three times as many for each node.
const NODE_BYTES: usize = 32;

fn most_nodes(version: u8) -> usize
    ensures { result ≡ node_most version }
{
    if version == 2 { 65537 } else { 65536 }
}

/// Why a further node of this name is refused, or None where it isn't.
fn node_fault(version: u8, index: &NodeIndex, name: &[u8]) -> Option<NetFault>
    requires { length index.now ≤ node_most version }
    ensures { result ≡ node_fault_of version index.now name.now }
{
    if index.find(name).is_some() {
        return Some(NetFault::DoubleName);
    }
    if most_nodes(version) < index.len() + 1 {
        return Some(NetFault::TooMany);
    }
    None
}

/// The node in the first line, and the text after the line, or None if the line is no node's.
fn next_node(alloc: Global, text: &[u8]) -> Result<Option<(Name, bool, &[u8])>, AllocError>
    ensures line { IfOk result (λ o. IfSome o (λ form. first_line text.now ≡ node_spelling form.0 form.1)) }
    ensures rest { IfOk result (λ o. IfSome o (λ form. text.now ≡ first_line text.now ++ form.2.now)) }
    ensures name { IfOk result (λ o. IfSome o (λ form. IsNodeName form.0)) }
    ensures none { IfOk result
        (λ o. IfNone o
        ((name : List ℕ) (first : Bool) → IsNodeName name → first_line text.now ≢ node_spelling name first)) }
{
    let (line, behind) = cut_line(text);
    let Some((name, first)) = node_form(alloc, line)? else {
        return Ok(None);
    };
    Ok(Some((name, first, behind)))
}

/// The nodes of a file, read after its first three lines, and the text after them. The file is refused at a node that
/// has a fault, or if the node lines end where they may not.
pub fn read_nodes(alloc: Global, version: u8, text: &[u8]) -> Result<(Nodes, &[u8]), NetReadError>
    requires { AllStand [] (opening version) }
    ensures version { IfOk result (λ r. r.0.version ≡ version) }
    ensures read { IfOk result
        (λ r. IsNodesRead version r.0.index r.0.first.items true (text_behind (opening version) text.now) r.1.now) }
    ensures over { IfOk result
        (λ r. (name : List ℕ) (first : Bool) → IsNodeName name → first_line r.1.now ≢ node_spelling name first) }
    ensures refused { IfErr result
        (OfRefusal (λ fault line. IsRefused (text_behind (opening version) text.now) fault line)) }
{
    let mut nodes = first_nodes(alloc, version, text.len() / NODE_BYTES)?;
    let mut ends = may_be_last(version, b"done", false);
    let mut rest = text;
    while let Some((name, first, behind)) = next_node(alloc, rest)? {
        if let Some(fault) = node_fault(version, &nodes.index, name.bytes()) {
            let line = nodes.index.len() as u32 + 2;
            return Err(NetReadError::Refused { fault, line });
        }
        ends = may_be_last(version, name.bytes(), first);
        nodes.first.push(first)?;
        nodes.index.add(name)?;
        rest = behind;
    }
    if !ends {
        let fault = NetFault::BadLine;
        let line = nodes.index.len() as u32 + 2;
        return Err(NetReadError::Refused { fault, line });
    }
    Ok((nodes, rest))
}
