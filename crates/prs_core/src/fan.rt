//! An index of readers: which nodes have a guard that names a node.

ghost use Rattle.std.specs.Prelude.{◌≡◌, ◌≢◌, ℕ, Bool, List, [], ◌<◌, length, vec_len, slice_index_or, All, Contains, replicate, IfOk, OnOk};
ghost use Rattle.prs_core.specs.declared.rule.Literal.{Literal};
ghost use Rattle.prs_core.specs.Nets.{NetValue, IsBelow};
ghost use Rattle.prs_core.specs.Moves.{high, rule_enabled, fired};
ghost use Rattle.prs_core.specs.Fans.{term_names, guard_names, fan_value, ends_in, with_reader, IsNoted};

use crate::net::Net;
use crate::rule::{Guard, Term};
use std::alloc::{AllocError, Global};
use std::marker::Model;

/// The readers of one node, seen as the list of them.
#[derive(Drop)]
struct Readers {
    nodes: Vec<u32>,
}

impl Model for Readers {
    ghost use Rattle.std.specs.Prelude.{List, ℕ};

    ghost Value = { List ℕ };

    ghost view = { λ r. r.nodes.items };
}

/// For each node of a net its readers, seen as the list of these lists.
#[derive(Drop)]
pub struct Fan {
    readers: Vec<Readers>,
}

impl Model for Fan {
    ghost use Rattle.std.specs.Prelude.{List, ℕ};

    ghost Value = { List (List ℕ) };

    ghost view = { λ f. f.readers.items };
}

fn is_last(nodes: &[u32], node: u32) -> bool
    ensures { result ≡ ends_in node nodes.now }
{
    match nodes {
        [.., last] => *last == node,
        [] => false,
    }
}

impl Readers {
    /// Adds a reader, unless it is the last one already.
    fn add(&mut self, reader: u32) -> Result<(), AllocError>
        ensures { OnOk result (self.new ≡ with_reader reader self.old) }
    {
        if !is_last(&self.nodes, reader) {
            self.nodes.push(reader)?;
        }
        Ok(())
    }
}

/// Adds the reader to the readers of the nodes that the term names.
fn note_term(readers: &mut Vec<Readers>, term: &Term, reader: u32) -> Result<(), AllocError>
    requires { All (λ (l : Literal). l.node < vec_len readers.old) term.now }
    ensures { OnOk result (IsNoted (λ node. term_names node term.now) reader readers.old.items readers.new.items) }
{
    for literal in term.literals() {
        readers[literal.node as usize].add(reader)?;
    }
    Ok(())
}

/// Adds the reader to the readers of the nodes that the guard names.
fn note_guard(readers: &mut Vec<Readers>, guard: &Guard, reader: u32) -> Result<(), AllocError>
    requires { IsBelow (vec_len readers.old) guard.now }
    ensures { OnOk result (IsNoted (λ node. guard_names node guard.now) reader readers.old.items readers.new.items) }
{
    for term in guard.terms() {
        note_term(readers, term, reader)?;
    }
    Ok(())
}

fn no_readers(alloc: Global, nodes: usize) -> Result<Vec<Readers>, AllocError>
    ensures { IfOk result (λ v. v.items ≡ replicate nodes []) }
{
    let mut readers = Vec::with_capacity(alloc, nodes)?;
    for _node in 0..nodes {
        readers.push(Readers {
            nodes: Vec::new(alloc),
        })?;
    }
    Ok(readers)
}

/// The index of the net: each node's readers, in ascending order.
pub fn fan_of(alloc: Global, net: &Net) -> Result<Fan, AllocError>
    ensures fan { IfOk result (λ fan. fan ≡ fan_value net.now) }
    ensures count { IfOk result (λ fan. length fan ≡ length net.now.first) }
{
    let nodes = net.first().len();
    let mut readers = no_readers(alloc, nodes)?;
    for reader in 0..nodes as u32 {
        note_guard(&mut readers, net.up(reader), reader)?;
        note_guard(&mut readers, net.down(reader), reader)?;
    }
    Ok(Fan { readers })
}

impl Fan {
    /// The nodes with a guard that names the node, in ascending order.
    pub fn readers(&self, node: u32) -> &[u32]
        requires { node < length self.now }
        ensures { result.now ≡ slice_index_or self.now node [] }
    {
        &self.readers[node as usize].nodes
    }
}

/// Law: when a node fires, only the node and its readers can become enabled or stop being so.
pub fn only_readers()
    ensures { (net : NetValue) (state : List Bool) (moved node : ℕ)
        → moved < length net.first
        → node < length net.first
        → node ≢ moved
        → ¬ Contains (slice_index_or (fan_value net) moved []) node
        → rule_enabled net (high (fired state moved)) node ≡ rule_enabled net (high state) node }
{}
