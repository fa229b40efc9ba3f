//! The tree of parts of a program.

ghost use Rattle.std.specs.Prelude.{◌≡◌, ◌+◌, ◌-◌, ◌^◌, ◌<◌, ◌≤◌, [], ◌∷◌, ◌++◌, IfOk, IsOkAnd, OnOk};
ghost use Rattle.width_check.specs.Processes.{in_turn, side_by_side, choosing};
ghost use Rattle.width_check.specs.Typed.{program_of};
ghost use Rattle.width_check.specs.Typing.{IsProcess};
ghost use Rattle.width_check.specs.View.{process_of, members_in, choices_in};
ghost use Rattle.handshake_expand.specs.declared.parts.Part.{out-Part};
ghost use Rattle.handshake_expand.specs.Layout.{size_of, nodes_of, node_count, root_request};
ghost use Rattle.handshake_expand.specs.Expansions.{expansion, expansion_of};
ghost use Rattle.handshake_expand.specs.PartTree.{part_kind, part_over, expanded, root_part, tree_of, part_of, no_children};
ghost use Rattle.handshake_expand.specs.Sites.{own_sites, sites_in, in_body};

use crate::answer::answer_node;
use crate::blocks::{channel_blocks, place_sites, var_blocks};
use crate::count::{guard_nodes, own_nodes, statement_nodes};
use crate::expr::reads;
use crate::parts::{Part, PartKind, Parts};
use crate::site::{SiteNode, note_sites};
use std::alloc::{AllocError, Global};
use width_check::{TArm, TStmt, Typed};

/// What the part of a statement is.
fn part_kind(s: &TStmt) -> PartKind
    ensures { result ≡ part_kind (process_of s.now) }
{
    match s {
        TStmt::Skip => PartKind::Skip,
        TStmt::Assign { var, value, .. } => {
            if reads(value, *var) {
                PartKind::Through
            } else {
                PartKind::Assign
            }
        }
        TStmt::Send { .. } => PartKind::Send,
        TStmt::Receive { .. } => PartKind::Receive,
        TStmt::Then { .. } => PartKind::Sequence,
        TStmt::Beside { .. } => PartKind::Parallel,
        TStmt::Select { again, .. } => {
            if *again {
                PartKind::Again
            } else {
                PartKind::Select
            }
        }
        TStmt::Repeat { .. } => PartKind::Loop,
    }
}

/// The part of a statement that contains no other.
fn single(
    alloc: Global,
    program: &Typed,
    s: &TStmt,
    request: u32,
    from: u32,
    sites: &mut Vec<SiteNode>,
) -> Result<Part, AllocError>
    requires process { IsProcess program.now.channels program.now.vars (process_of s.now) }
    requires room { from + size_of (program_of program.now) (process_of s.now) < 2 ^ 32 }
    ensures part { IfOk result (λ part. tree_of part ≡ part_over (program_of program.now) (process_of s.now) request
        from no_children) }
    ensures sites { OnOk result (sites.new.items ≡ sites.old.items
        ++ own_sites (program_of program.now) (process_of s.now) from) }
{
    note_sites(program, s, from, sites)?;
    Ok(Part {
        kind: part_kind(s),
        request,
        answer: answer_node(program, s, from),
        from,
        count: statement_nodes(program, s) as u32,
        children: Vec::new(alloc),
    })
}

// What follows takes a child as it was made, so that the function that makes it owns no part where it may be left.

/// Adds the part of a child, and returns how many nodes it has.
#[inline(never)]
fn add_child(children: &mut Vec<Part>, child: Result<Part, AllocError>) -> Result<u32, AllocError>
    ensures { IfOk result (λ count. IsOkAnd child (λ made. (children.new.items ≡ children.old.items ++ made ∷ [])
        × (count ≡ (out-Part made).count))) }
{
    let child = child?;
    let count = child.count;
    children.push(child)?;
    Ok(count)
}

/// The part around another one, whose own two nodes come first: a loop, or the root.
#[inline(never)]
fn around(
    alloc: Global,
    kind: PartKind,
    request: u32,
    answer: u32,
    from: u32,
    inner: Result<Part, AllocError>,
) -> Result<Part, AllocError>
    requires { IfOk inner (λ made. (out-Part made).count + 2 < 2 ^ 32) }
    ensures { IfOk result (λ whole. IsOkAnd inner (λ made.
        tree_of whole ≡ part_of kind request answer from (2 + (out-Part made).count) (made ∷ []))) }
{
    let mut children = Vec::new(alloc);
    let count = add_child(&mut children, inner)?;
    Ok(Part {
        kind,
        request,
        answer,
        from,
        count: 2 + count,
        children,
    })
}

/// The part of a sequence, of which all members but the last one were made. The nodes of that one begin at `next`.
#[inline(never)]
fn finished(
    request: u32,
    from: u32,
    next: u32,
    mut children: Vec<Part>,
    last: Result<Part, AllocError>,
) -> Result<Part, AllocError>
    requires low { from ≤ next }
    requires room { IfOk last (λ made. next - from + (out-Part made).count < 2 ^ 32) }
    ensures { IfOk result (λ whole. IsOkAnd last (λ made. tree_of whole ≡ part_of PartKind.Sequence request
        (out-Part made).answer from (next - from + (out-Part made).count) (children.items ++ made ∷ []))) }
{
    let last = last?;
    let answer = last.answer;
    let count = next - from + last.count;
    children.push(last)?;
    Ok(Part {
        kind: PartKind::Sequence,
        request,
        answer,
        from,
        count,
        children,
    })
}

/// The part of a sequence. Each member but the last is the child of a Q-element of three nodes: the child's request,
/// the latch, and the request of what follows.
#[cycle(parts)]
fn sequence(
    alloc: Global,
    program: &Typed,
    members: &[TStmt],
    request: u32,
    from: u32,
    sites: &mut Vec<SiteNode>,
) -> Result<Part, AllocError>
    requires process { IsProcess program.now.channels program.now.vars (in_turn (members_in members.now)) }
    requires room { from + size_of (program_of program.now) (in_turn (members_in members.now)) < 2 ^ 32 }
    ensures part { IfOk result (λ part. tree_of part ≡
        expanded (program_of program.now) (in_turn (members_in members.now)) request from) }
    ensures sites { OnOk result (sites.new.items ≡ sites.old.items
        ++ sites_in (program_of program.now) (own_sites (program_of program.now)) (in_turn (members_in members.now))
        from) }
{
    let last = members.len() - 1;
    let mut children = Vec::new(alloc);
    let mut asked = request;
    let mut next = from;
    for place in 0..last {
        let child = part(alloc, program, &members[place], next, next + 3, sites);
        asked = next + 2;
        next += 3 + add_child(&mut children, child)?;
    }
    let child = part(alloc, program, &members[last], asked, next, sites);
    finished(request, from, next, children, child)
}

/// The part of a parallel composition. Each branch is the child of a Q-element; a completion tree over the branches
/// comes last, with one node fewer than there are branches.
#[cycle(parts)]
fn parallel(
    alloc: Global,
    program: &Typed,
    branches: &[TStmt],
    request: u32,
    from: u32,
    sites: &mut Vec<SiteNode>,
) -> Result<Part, AllocError>
    requires process { IsProcess program.now.channels program.now.vars (side_by_side (members_in branches.now)) }
    requires room { from + size_of (program_of program.now) (side_by_side (members_in branches.now)) < 2 ^ 32 }
    ensures part { IfOk result (λ part. tree_of part ≡
        expanded (program_of program.now) (side_by_side (members_in branches.now)) request from) }
    ensures sites { OnOk result (sites.new.items ≡ sites.old.items
        ++ sites_in (program_of program.now) (own_sites (program_of program.now))
        (side_by_side (members_in branches.now)) from) }
{
    let mut children = Vec::new(alloc);
    let mut next = from;
    for branch in branches {
        let child = part(alloc, program, branch, next, next + 3, sites);
        next += 3 + add_child(&mut children, child)?;
    }
    let count = next - from + (branches.len() as u32 - 1);
    Ok(Part {
        kind: PartKind::Parallel,
        request,
        answer: from + count - 1,
        from,
        count,
        children,
    })
}

/// The part of a selection or a guarded repetition. Its own nodes come first, then the guards, then the branches.
#[cycle(parts)]
fn selection(
    alloc: Global,
    program: &Typed,
    again: bool,
    arms: &[TArm],
    request: u32,
    from: u32,
    sites: &mut Vec<SiteNode>,
) -> Result<Part, AllocError>
    requires process { IsProcess program.now.channels program.now.vars (choosing again (choices_in arms.now)) }
    requires room { from + size_of (program_of program.now) (choosing again (choices_in arms.now)) < 2 ^ 32 }
    ensures part { IfOk result (λ part. tree_of part ≡
        expanded (program_of program.now) (choosing again (choices_in arms.now)) request from) }
    ensures sites { OnOk result (sites.new.items ≡ sites.old.items
        ++ sites_in (program_of program.now) (own_sites (program_of program.now)) (choosing again (choices_in arms.now))
        from) }
{
    let guards = arms.len() as u32;
    let mut start = from + own_nodes(again) as u32 + guards;
    let mut next = start + guards + guard_nodes(arms) as u32;
    let mut children = Vec::new(alloc);
    for arm in arms {
        let child = part(alloc, program, &arm.body, start, next, sites);
        start += 1;
        next += add_child(&mut children, child)?;
    }
    Ok(Part {
        kind: if again {
            PartKind::Again
        } else {
            PartKind::Select
        },
        request,
        answer: from,
        from,
        count: next - from,
        children,
    })
}

/// The part of a statement with this request node, whose nodes are numbered from `from` on; its sites are recorded.
#[cycle(parts)]
fn part(
    alloc: Global,
    program: &Typed,
    s: &TStmt,
    request: u32,
    from: u32,
    sites: &mut Vec<SiteNode>,
) -> Result<Part, AllocError>
    requires process { IsProcess program.now.channels program.now.vars (process_of s.now) }
    requires room { from + size_of (program_of program.now) (process_of s.now) < 2 ^ 32 }
    ensures part { IfOk result (λ part. tree_of part ≡ expanded (program_of program.now) (process_of s.now) request
        from) }
    ensures sites { OnOk result (sites.new.items ≡ sites.old.items
        ++ sites_in (program_of program.now) (own_sites (program_of program.now)) (process_of s.now) from) }
{
    match s {
        TStmt::Then { parts } => sequence(alloc, program, parts, request, from, sites),
        TStmt::Beside { parts } => parallel(alloc, program, parts, request, from, sites),
        TStmt::Select { again, arms } => {
            selection(alloc, program, *again, arms, request, from, sites)
        }
        TStmt::Repeat { body } => {
            let inner = part(alloc, program, body, from + 1, from + 2, sites);
            around(alloc, PartKind::Loop, request, from, from, inner)
        }
        _ => single(alloc, program, s, request, from, sites),
    }
}

/// The root, whose child request and latch come before the nodes of the body; the sites are recorded.
fn root(
    alloc: Global,
    program: &Typed,
    from: u32,
    sites: &mut Vec<SiteNode>,
) -> Result<Part, AllocError>
    requires from { from ≡ root_request (program_of program.now) }
    requires room { nodes_of (program_of program.now) < 2 ^ 32 }
    ensures part { IfOk result (λ part. tree_of part ≡ root_part (program_of program.now)) }
    ensures sites { OnOk result (sites.new.items ≡ sites.old.items
        ++ in_body (program_of program.now) (own_sites (program_of program.now))) }
{
    let body = part(alloc, program, program.body(), from, from + 2, sites);
    around(alloc, PartKind::Root, 0, 1, from, body)
}

/// The parts of a program of at most 65,536 nodes: a block for each channel and each variable, and the tree of parts.
pub fn expand(alloc: Global, program: &Typed) -> Result<Parts, AllocError>
    requires { node_count (program_of program.now) ≤ 65536 }
    ensures { IfOk result (λ parts. expansion_of parts ≡ expansion (program_of program.now)) }
{
    let (mut channels, next) = channel_blocks(alloc, program)?;
    let (mut vars, next) = var_blocks(alloc, program, next)?;
    let mut sites = Vec::new(alloc);
    let root = root(alloc, program, next, &mut sites)?;
    place_sites(&sites, &mut channels, &mut vars)?;
    Ok(Parts {
        channels,
        vars,
        root,
    })
}
