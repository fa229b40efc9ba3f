//! For each node its edges: the nodes that read it, each with what a turn of the node adds to the reader's place.

ghost use Rattle.std.specs.Prelude.{◌≡◌, ℕ, ◌+◌, ◌-◌, ◌*◌, ◌^◌, ◌<◌, ◌≤◌, ◌==◌, Bool, List, [], ◌∷◌, ◌++◌, if◌then◌else◌, length, take, drop, vec_len, slice_index_or, All, replicate, IfOk, IfSome, OnOk};
ghost use Rattle.prs_core.specs.declared.rule.Literal.{Literal};
ghost use Rattle.prs_core.specs.Nets.{IsBelow};
ghost use Rattle.prs_core.specs.Fans.{term_names, guard_names, is_reader};
ghost use Rattle.guard_rows.specs.Places.{weight_of, times_in, override_step, is_over, is_one_of, readers_in, total_to, ends_at, AreAdded};

use prs_core::{Guard, Net, Term};
use std::alloc::{AllocError, Global};
use std::marker::Model;

/// What the node that overrides a row's nodes adds to its place, more than all of these together.
pub(crate) const OVER: u32 = 536_870_912;

/// The edges of one node, while those of a net are made.
#[derive(Drop)]
pub(crate) struct NodeEdges {
    list: Vec<(u32, u32)>,
}

impl Model for NodeEdges {
    ghost use Rattle.std.specs.Prelude.{List, ℕ};

    ghost Value = { List (ℕ × ℕ) };

    ghost view = { λ e. e.list.items };
}

/// Whether the last of these edges leads to the reader.
fn is_last(edges: &[(u32, u32)], reader: u32) -> bool
    ensures { result ≡ ends_at reader edges.now }
{
    match edges {
        [.., last] => last.0 == reader,
        [] => false,
    }
}

impl NodeEdges {
    /// A turn of the node adds so much more to the reader's place. Where the reader has an edge, it is the last one.
    fn add(&mut self, reader: u32, weight: u32) -> Result<(), AllocError>
        requires { total_to reader self.old + weight < 2 ^ 32 }
        ensures total { OnOk result ((r : ℕ) → total_to r self.new ≡
            total_to r self.old + (if reader == r then weight else 0)) }
        ensures readers { OnOk result ((below : List ℕ) (is_there : Bool) → All (λ k. k < reader) below
            → readers_in self.old ≡ below ++ (if is_there then reader ∷ [] else [])
            → readers_in self.new ≡ below ++ reader ∷ []) }
    {
        if is_last(&self.list, reader) {
            let last = self.list.len() - 1;
            self.list[last].1 += weight;
        } else {
            self.list.push((reader, weight))?;
        }
        Ok(())
    }
}

pub(crate) fn no_edges(alloc: Global, nodes: usize) -> Result<Vec<NodeEdges>, AllocError>
    ensures { IfOk result (λ v. v.items ≡ replicate nodes []) }
{
    let mut edges = Vec::with_capacity(alloc, nodes)?;
    for _node in 0..nodes {
        edges.push(NodeEdges {
            list: Vec::new(alloc),
        })?;
    }
    Ok(edges)
}

/// The reader has an edge from each node that the term names.
fn add_term(edges: &mut Vec<NodeEdges>, term: &Term, reader: u32) -> Result<(), AllocError>
    requires within { All (λ (l : Literal). l.node < vec_len edges.old) term.now }
    requires room { (m : ℕ) → m < vec_len edges.old → total_to reader (slice_index_or edges.old.items m []) < 2 ^ 32 }
    ensures count { vec_len edges.new ≡ vec_len edges.old }
    ensures added { OnOk result (AreAdded reader (λ m. term_names m term.now) (λ m. 0)
        edges.old.items edges.new.items) }
{
    for literal in term.literals() {
        edges[literal.node as usize].add(reader, 0)?;
    }
    Ok(())
}

/// The reader has an edge from each node that the guard names.
fn add_guard(edges: &mut Vec<NodeEdges>, guard: &Guard, reader: u32) -> Result<(), AllocError>
    requires within { IsBelow (vec_len edges.old) guard.now }
    requires room { (m : ℕ) → m < vec_len edges.old → total_to reader (slice_index_or edges.old.items m []) < 2 ^ 32 }
    ensures count { vec_len edges.new ≡ vec_len edges.old }
    ensures added { OnOk result (AreAdded reader (λ m. guard_names m guard.now) (λ m. 0)
        edges.old.items edges.new.items) }
{
    for term in guard.terms() {
        add_term(edges, term, reader)?;
    }
    Ok(())
}

/// The reader has an edge from each node that its guards name.
pub(crate) fn add_reader(
    edges: &mut Vec<NodeEdges>,
    net: &Net,
    reader: u32,
) -> Result<(), AllocError>
    requires reader { reader < length net.now.first }
    requires all { vec_len edges.old ≡ length net.now.first }
    requires room { (m : ℕ) → m < vec_len edges.old → total_to reader (slice_index_or edges.old.items m []) < 2 ^ 32 }
    ensures count { vec_len edges.new ≡ vec_len edges.old }
    ensures added { OnOk result (AreAdded reader (λ m. is_reader net.now m reader) (λ m. 0)
        edges.old.items edges.new.items) }
{
    let _net = net.first();
    add_guard(edges, net.up(reader), reader)?;
    add_guard(edges, net.down(reader), reader)
}

/// The row reads these nodes, the first of them as the lowest bit of its place.
pub(crate) fn add_bits(
    edges: &mut Vec<NodeEdges>,
    inputs: &[u32],
    row: u32,
) -> Result<(), AllocError>
    requires few { length inputs.now ≤ 6 }
    requires within { All (λ n. n < vec_len edges.old) inputs.now }
    requires fresh { (m : ℕ) → m < vec_len edges.old → total_to row (slice_index_or edges.old.items m []) ≡ 0 }
    ensures count { vec_len edges.new ≡ vec_len edges.old }
    ensures added { OnOk result (AreAdded row (is_one_of inputs.now) (λ m. weight_of m inputs.now)
        edges.old.items edges.new.items) }
{
    let mut weight = 1;
    for input in inputs {
        edges[*input as usize].add(row, weight)?;
        weight *= 2;
    }
    Ok(())
}

/// The row counts which of these nodes are high.
pub(crate) fn add_counts(
    edges: &mut Vec<NodeEdges>,
    nodes: &[u32],
    row: u32,
) -> Result<(), AllocError>
    requires few { length nodes.now < 2 ^ 29 }
    requires within { All (λ n. n < vec_len edges.old) nodes.now }
    requires fresh { (m : ℕ) → m < vec_len edges.old → total_to row (slice_index_or edges.old.items m []) ≡ 0 }
    ensures count { vec_len edges.new ≡ vec_len edges.old }
    ensures added { OnOk result (AreAdded row (is_one_of nodes.now) (λ m. times_in m nodes.now)
        edges.old.items edges.new.items) }
{
    for node in nodes {
        edges[*node as usize].add(row, 1)?;
    }
    Ok(())
}

/// This node, if there is one, overrides those that the row counts.
pub(crate) fn add_over(
    edges: &mut Vec<NodeEdges>,
    over: Option<u32>,
    row: u32,
) -> Result<(), AllocError>
    requires within { IfSome over (λ n. n < vec_len edges.old) }
    requires room { (m : ℕ) → m < vec_len edges.old → total_to row (slice_index_or edges.old.items m []) < 2 ^ 29 }
    ensures count { vec_len edges.new ≡ vec_len edges.old }
    ensures added { OnOk result (AreAdded row (λ m. is_over m over) (λ m. 2 ^ 29 * override_step m over)
        edges.old.items edges.new.items) }
{
    if let Some(node) = over {
        edges[node as usize].add(row, OVER)?;
    }
    Ok(())
}

/// The part of the list that begins and ends there.
fn part(list: &[(u32, u32)], from: usize, to: usize) -> &[(u32, u32)]
    requires ascend { from ≤ to }
    requires within { to ≤ length list.now }
    ensures { result.now ≡ take (to - from) (drop from list.now) }
{
    &list[from..to]
}

/// The edges of all nodes in one list, those of a node behind those of the one before it.
#[derive(Drop)]
pub(crate) struct Edges {
    list: Vec<(u32, u32)>,
    /// Where the edges of each node begin, and the last ones end.
    starts: Vec<usize>,
}

impl Model for Edges {
    ghost use Rattle.std.specs.Prelude.{List, ℕ, length};
    ghost use Rattle.guard_rows.specs.Places.{parts_by, AreStarts};

    ghost Value = { List (List (ℕ × ℕ)) };

    ghost view = { λ e. parts_by e.starts.items e.list.items };

    ghost invariant = { λ e. AreStarts e.starts.items (length e.list.items) };
}

impl Edges {
    /// The edges of these nodes.
    pub(crate) fn of(alloc: Global, nodes: &[NodeEdges]) -> Result<Edges, AllocError>
        requires { length nodes.now < 2 ^ 32 }
        ensures { IfOk result (λ e. e ≡ nodes.now) }
    {
        let mut list = Vec::new(alloc);
        let mut starts = Vec::with_capacity(alloc, nodes.len() + 1)?;
        starts.push(0)?;
        for node in nodes {
            list.extend_from_slice(&node.list)?;
            starts.push(list.len())?;
        }
        Ok(Edges { list, starts })
    }

    /// The edges of the node.
    pub(crate) fn node(&self, node: u32) -> &[(u32, u32)]
        requires { node < length self.now }
        ensures { result.now ≡ slice_index_or self.now node [] }
    {
        let place = node as usize;
        part(&self.list, self.starts[place], self.starts[place + 1])
    }
}
