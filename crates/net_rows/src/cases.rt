//! The lines of a case.

use crate::bench::NetBench;
use crate::cells::{emit, put_again, put_expression, put_rules, put_select};
use crate::names::{bits, name, symbols};
use crate::nets::tell_net;
use crate::orders::orders;
use crate::reading::{show, show_tokens};
use crate::rounds::rounds_within;
use crate::runs::moved;
use crate::scripts::offers;
use crate::streamed::{circuit, stream};
use crate::waves::unwave;
use case_text::{Page, is_spelled};
use prs_core::Rules;
use std::alloc::Global;

/// Begins the rules of so many nodes, and says whether the word is a number.
fn set_rules(alloc: Global, bench: &mut NetBench, count: &str, page: &mut Page) -> bool {
    let Ok(count) = count.parse::<u32>() else {
        return false;
    };
    if let Some(rules) = page.taken(Rules::new(alloc, count)) {
        bench.rules = rules;
    }
    true
}

/// Does what a line sets out, and says whether it is such a line.
fn set_out(alloc: Global, bench: &mut NetBench, word: &str, rest: &str, page: &mut Page) -> bool {
    match word {
        "net" => {
            bench.take_net();
            true
        }
        "script" => {
            bench.take_script();
            true
        }
        "rules" => set_rules(alloc, bench, rest, page),
        "circuit" => circuit(alloc, &mut bench.files, page),
        _ => bench.files.obey(alloc, word, rest, page),
    }
}

/// Tells what a line asks for of the last file, and says whether it is such a line.
fn tell(alloc: Global, text: &[u8], word: &str, rest: &str, page: &mut Page) -> bool {
    match word {
        "show" => show(alloc, text, page),
        "tokens" => show_tokens(alloc, text, page),
        "stream" => stream(alloc, text, page),
        "unwave" => unwave(alloc, text, page),
        "rounds-within" => return rounds_within(alloc, text, rest, page),
        _ => return false,
    }
    true
}

/// Tells what a line asks for of names, scripts, cells and nets, and says whether it is such a line.
fn tell_below(alloc: Global, bench: &NetBench, word: &str, rest: &str, page: &mut Page) -> bool {
    match word {
        "name" => name(alloc, rest, false, page),
        "node-name" => name(alloc, rest, true, page),
        "symbols" => symbols(alloc, rest, page),
        "bits" => bits(rest, page),
        "offers" => offers(alloc, bench, page),
        "written" => put_rules(page, &bench.rules),
        "selection" => put_select(alloc, page),
        "repetition" => put_again(alloc, page),
        "expression" => put_expression(alloc, page),
        "show-net" | "readers" | "first" => tell_net(alloc, bench, word, page),
        "moves" => return moved(alloc, bench, rest, page),
        "orders" => return orders(alloc, bench, rest, page),
        _ => return false,
    }
    true
}

/// The nodes of the line, or None where a word is no number.
fn nodes_of(alloc: Global, line: &str, page: &mut Page) -> Option<Vec<u32>> {
    let mut nodes = Vec::new(alloc);
    for word in line.split_whitespace() {
        match word.parse::<u32>() {
            Ok(node) => page.note(nodes.push(node)),
            Err(_) => return None,
        }
    }
    Some(nodes)
}

/// Lets the cell write its rules at the nodes of the line, and says whether it can.
fn write_cell(alloc: Global, rules: &mut Rules, cell: &str, line: &str, page: &mut Page) -> bool {
    match nodes_of(alloc, line, page) {
        Some(nodes) => emit(alloc, rules, cell, &nodes, page),
        None => false,
    }
}

/// Does what a line says, and says whether it is understood.
fn act(alloc: Global, bench: &mut NetBench, word: &str, rest: &str, page: &mut Page) -> bool {
    set_out(alloc, bench, word, rest, page)
        || tell(alloc, bench.files.last(), word, rest, page)
        || tell_below(alloc, bench, word, rest, page)
        || write_cell(alloc, &mut bench.rules, word, rest, page)
}

/// Does what the line says. A line that can't be understood is printed after a question mark.
pub fn obey(alloc: Global, bench: &mut NetBench, line: &str, page: &mut Page) {
    let (word, rest) = line.split_once(' ').unwrap_or((line, ""));
    if word.is_empty() || word == "#" {
        return;
    }
    if word == "case" {
        bench.begin(alloc, page);
        page.put(line);
        return page.put("\n");
    }
    if !is_spelled(line) || !act(alloc, bench, word, rest, page) {
        page.put("? ");
        page.put(line);
        page.put("\n");
    }
}
