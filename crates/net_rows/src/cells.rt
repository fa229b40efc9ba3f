//! The calls of the cells, at the nodes of worked programs.

ghost use Rattle.std.specs.Prelude.{◌≡◌, ◌≢◌, ◌<◌, ◌==◌, not, nat_lt, All, IsTrue, IfOk};
ghost use Rattle.std.specs.List.{list_all};
ghost use Rattle.cell_select.specs.PortNodes.{IsSelect, IsAgain};

use crate::parts::put_node;
use case_text::Page;
use cell_channel::{emit_end, emit_receive_port};
use cell_parallel::emit_tree;
use cell_select::{AgainPorts, SelectPorts, emit_again, emit_select};
use cell_sequence::{QPorts, emit_loop, emit_q, emit_skip};
use cell_variable::{emit_or, emit_variable, emit_write_site};
use chp_base::Span;
use function_blocks::emit_expr;
use prs_core::{Guard, Rules, Term};
use std::alloc::{AllocError, Global};
use width_check::TExpr;

fn pass_below(nodes: &[u32], count: u32) -> bool
    ensures { result ≡ list_all (λ node. nat_lt node count) nodes.now }
{
    nodes.iter().all(|node| *node < count)
}

/// Whether all of these are below the count.
#[tactic(auto, using(crate::proofs::Tested::below))]
fn are_below(nodes: &[u32], count: u32) -> bool
    ensures { IsTrue result → All (λ node. node < count) nodes.now }
{
    pass_below(nodes, count)
}

fn pass_other(nodes: &[u32], node: u32) -> bool
    ensures { result ≡ list_all (λ other. not (other == node)) nodes.now }
{
    nodes.iter().all(|other| *other != node)
}

/// Whether none of these is the node.
#[tactic(auto, using(crate::proofs::Tested::apart))]
fn are_other(nodes: &[u32], node: u32) -> bool
    ensures { IsTrue result → All (λ other. other ≢ node) nodes.now }
{
    pass_other(nodes, node)
}

/// The cells with three nodes: the end of a channel (its request, the acknowledge, and its answer), a loop (its
/// request, and its body's request and answer), and a write (its request, the node that says that all bits are
/// written, and its answer).
fn three(alloc: Global, rules: &mut Rules, cell: &str, nodes: &[u32], page: &mut Page) -> bool {
    let count = rules.nodes();
    match nodes {
        [one, two, three]
            if *one < count
                && *two < count
                && *three < count
                && one != two
                && one != three
                && two != three => {
            page.note(match cell {
                "end" => emit_end(alloc, *one, *two, *three, rules),
                "loop" => emit_loop(alloc, *one, *two, *three, rules),
                _ => emit_write_site(alloc, *one, *two, *three, rules),
            });
            true
        }
        _ => false,
    }
}

/// The port of a receive: its request, its first node, and the rails that it takes.
fn port(alloc: Global, rules: &mut Rules, nodes: &[u32], page: &mut Page) -> bool {
    let count = rules.nodes();
    let [request, from, rails @ ..] = nodes else {
        return false;
    };
    if *request < count
        && are_below(rails, count)
        && rails.len() <= count as usize
        && *from as usize + rails.len() <= count as usize
    {
        page.note(emit_receive_port(alloc, *request, rails, *from, rules));
        return true;
    }
    false
}

/// A completion tree: its first node, and the leaves.
fn tree(alloc: Global, rules: &mut Rules, nodes: &[u32], page: &mut Page) -> bool {
    let count = rules.nodes();
    let [from, leaves @ ..] = nodes else {
        return false;
    };
    if !leaves.is_empty()
        && are_below(leaves, count)
        && leaves.len() <= count as usize
        && *from as usize + leaves.len() <= count as usize + 1
    {
        page.note(emit_tree(alloc, leaves, *from, rules));
        return true;
    }
    false
}

/// A Q-element: its request, its child's request and answer, its latch, and the next request.
fn q(alloc: Global, rules: &mut Rules, nodes: &[u32], page: &mut Page) -> bool {
    let count = rules.nodes();
    match nodes {
        [request, child_request, child_answer, latch, next]
            if *request < count
                && *child_request < count
                && *child_answer < count
                && *latch < count
                && *next < count
                && child_request != request
                && child_request != child_answer
                && child_request != latch
                && child_request != next
                && latch != request
                && latch != child_answer
                && latch != next
                && next != request
                && next != child_answer => {
            let ports = QPorts {
                request: *request,
                child_request: *child_request,
                child_answer: *child_answer,
                latch: *latch,
                next: *next,
            };
            page.note(emit_q(alloc, &ports, rules));
            true
        }
        _ => false,
    }
}

/// A skip: its request and its answer.
fn skip(alloc: Global, rules: &mut Rules, nodes: &[u32], page: &mut Page) -> bool {
    let count = rules.nodes();
    match nodes {
        [request, answer] if *request < count && *answer < count && request != answer => {
            page.note(emit_skip(alloc, *request, *answer, rules));
            true
        }
        _ => false,
    }
}

/// A merge: its node, and its inputs.
fn merge(alloc: Global, rules: &mut Rules, nodes: &[u32], page: &mut Page) -> bool {
    let count = rules.nodes();
    let [node, inputs @ ..] = nodes else {
        return false;
    };
    if *node < count && are_below(inputs, count) && are_other(inputs, *node) {
        page.note(emit_or(alloc, inputs, *node, rules));
        return true;
    }
    false
}

/// A variable: its first node, and its width.
fn variable(alloc: Global, rules: &mut Rules, nodes: &[u32], page: &mut Page) -> bool {
    let count = rules.nodes();
    let [from, width] = nodes else {
        return false;
    };
    let Ok(width) = u8::try_from(*width) else {
        return false;
    };
    if width < 1 || width > 64 || *from > count {
        return false;
    }
    if u64::from(*from) + 6 * u64::from(width) <= u64::from(count) + 1 {
        page.note(emit_variable(alloc, *from, width, rules));
        return true;
    }
    false
}

/// The selection of `out A : 1; out B : 1; var x : 2; begin [x = 0 -> A!1 [] x < 2 -> B!1] end`.
fn selection(alloc: Global) -> Result<SelectPorts, AllocError>
    ensures { IfOk result (λ p. IsSelect 60 p) }
{
    Ok(SelectPorts {
        request: 19,
        answer: 21,
        eval: 22,
        any: 23,
        latches: Vec::from_slice(alloc, &[24, 25])?,
        starts: Vec::from_slice(alloc, &[26, 27])?,
        answers: Vec::from_slice(alloc, &[54, 57])?,
        guard_rails: Vec::from_slice(alloc, &[40, 41, 52, 53])?,
    })
}

/// The guarded repetition of `var x : 1 = 1; begin *[x = 0 -> skip] end`.
fn repetition(alloc: Global) -> Result<AgainPorts, AllocError>
    ensures { IfOk result (λ p. IsAgain 24 p) }
{
    Ok(AgainPorts {
        request: 7,
        answer: 9,
        loop_request: 10,
        joined: 11,
        eval: 12,
        any: 13,
        leave: 14,
        latches: Vec::from_slice(alloc, &[15])?,
        starts: Vec::from_slice(alloc, &[16])?,
        answers: Vec::from_slice(alloc, &[23])?,
        guard_rails: Vec::from_slice(alloc, &[21, 22])?,
    })
}

/// The rules of the selection alone.
pub fn put_select(alloc: Global, page: &mut Page) {
    let Some(ports) = page.taken(selection(alloc)) else {
        return;
    };
    if let Some(mut rules) = page.taken(Rules::new(alloc, 60)) {
        page.note(emit_select(alloc, &ports, &mut rules));
        put_rules(page, &rules);
    }
}

/// The rules of the guarded repetition alone.
pub fn put_again(alloc: Global, page: &mut Page) {
    let Some(ports) = page.taken(repetition(alloc)) else {
        return;
    };
    if let Some(mut rules) = page.taken(Rules::new(alloc, 24)) {
        page.note(emit_again(alloc, &ports, &mut rules));
        put_rules(page, &rules);
    }
}

/// Puts the rails.
fn put_rails(page: &mut Page, rails: &[u32]) {
    for rail in rails {
        page.put("rail");
        put_node(page, *rail);
        page.put("\n");
    }
}

/// The rails and the rules of the expression that reads a variable of one bit, whose block begins at node 3, under the
/// request 2, with its own nodes from 8 on.
pub fn put_expression(alloc: Global, page: &mut Page) {
    let Some(mut rules) = page.taken(Rules::new(alloc, 10)) else {
        return;
    };
    let read = TExpr::Read {
        var: 0,
        high: 0,
        low: 0,
        at: Span { from: 0, to: 1 },
    };
    if let Some(rails) = page.taken(emit_expr(alloc, &read, 2, 8, &[3], &mut rules)) {
        put_rails(page, &rails);
    }
    put_rules(page, &rules);
}

/// Lets the named cell write its rules at these nodes. It says whether there is such a cell, and whether the nodes are
/// some that it may be given.
pub fn emit(alloc: Global, rules: &mut Rules, cell: &str, nodes: &[u32], page: &mut Page) -> bool {
    match cell {
        "port" => port(alloc, rules, nodes, page),
        "tree" => tree(alloc, rules, nodes, page),
        "q" => q(alloc, rules, nodes, page),
        "skip" => skip(alloc, rules, nodes, page),
        "or" => merge(alloc, rules, nodes, page),
        "variable" => variable(alloc, rules, nodes, page),
        "end" | "loop" | "write-site" => three(alloc, rules, cell, nodes, page),
        _ => false,
    }
}

/// The literals of a term, as `1 & ~2`.
fn put_term(page: &mut Page, term: &Term) {
    let mut before = "";
    for literal in term.literals() {
        page.put(before);
        page.put(if literal.high { "" } else { "~" });
        page.number(u64::from(literal.node));
        before = " & ";
    }
}

/// The guard with its literals, as ` 1 & ~2 | 3`.
fn put_guard(page: &mut Page, guard: &Guard) {
    let mut before = " ";
    for term in guard.terms() {
        page.put(before);
        put_term(page, term);
        before = " | ";
    }
}

/// The guards of a node: where it rises, and where it falls.
pub fn put_guards(page: &mut Page, up: &Guard, down: &Guard) {
    page.put(" up");
    put_guard(page, up);
    page.put(" down");
    put_guard(page, down);
    page.put("\n");
}

/// The guards of each node that has any.
pub fn put_rules(page: &mut Page, rules: &Rules) {
    for node in 0..rules.nodes() {
        let (up, down) = (rules.up(node), rules.down(node));
        if !up.terms().is_empty() || !down.terms().is_empty() {
            page.number(u64::from(node));
            put_guards(page, up, down);
        }
    }
}
