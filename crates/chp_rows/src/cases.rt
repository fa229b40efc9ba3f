//! The lines of a case.

use crate::bench::{Bench, Plan};
use crate::drops::count_drops;
use crate::edge::{read, read_disk, read_surely, write, write_narrowly};
use crate::run::{
    keep, run, run_count, run_orders, run_passed, run_shelf_faults, run_sink_faults, run_surely,
};
use case_text::{Page, is_spelled, numbers_of};
use std::alloc::Global;
use std::rt::Files;

/// Plans a sink by the numbers of the line, and says whether it is such a line.
fn plan(alloc: Global, sink: &mut Plan, line: &str, page: &mut Page) -> bool {
    match numbers_of(alloc, line, page) {
        Some(numbers) => sink.set(alloc, &numbers, page),
        None => false,
    }
}

/// Does what a line sets out, and says whether it is such a line.
fn set_out(alloc: Global, bench: &mut Bench, word: &str, rest: &str, page: &mut Page) -> bool {
    match word {
        "shelf" => bench.fail(alloc, rest, page),
        "out" => plan(alloc, &mut bench.out, rest, page),
        "say" => plan(alloc, &mut bench.say, rest, page),
        _ => bench.files.obey(alloc, word, rest, page),
    }
}

/// Runs a command or writes texts as a line asks for, and says whether it is such a line.
fn command(alloc: Global, bench: &mut Bench, word: &str, rest: &str, page: &mut Page) -> bool {
    let (first, more) = rest.split_once(' ').unwrap_or((rest, ""));
    match word {
        "run" => run(alloc, bench, rest, page),
        "run-count" => run_count(alloc, bench, first, more, page),
        "run-passed" => run_passed(alloc, bench, rest, page),
        "run-surely" => run_surely(alloc, bench, rest, page),
        "run-orders" => run_orders(alloc, bench, rest, page),
        "run-shelf-faults" => run_shelf_faults(alloc, bench, rest, page),
        "run-sink-faults" => run_sink_faults(alloc, bench, rest, page),
        "drops" => count_drops(alloc, bench, rest, page),
        "keep" => keep(alloc, bench, first, more, page),
        "write" => write(alloc, bench, rest, page),
        _ => return false,
    }
    true
}

/// Reads or writes as a line that begins with a number asks for, and says whether it is such a line.
fn read_or_write<R: Files + AllocGlobal>(
    rt: &R,
    bench: &Bench,
    word: &str,
    rest: &str,
    page: &mut Page,
) -> bool {
    let (number, more) = rest.split_once(' ').unwrap_or((rest, ""));
    let Ok(number) = number.parse::<u32>() else {
        return false;
    };
    let limit = number as usize;
    match word {
        "read" => read(rt.alloc(), bench, limit, more, page),
        "read-surely" => read_surely(rt.alloc(), bench, limit, page),
        "read-disk" => read_disk(rt, limit, more, page),
        "write-narrowly" => write_narrowly(rt.alloc(), u64::from(number), more, page),
        _ => return false,
    }
    true
}

/// Does what a line says, and says whether it is understood.
fn act<R: Files + AllocGlobal>(
    rt: &R,
    bench: &mut Bench,
    word: &str,
    rest: &str,
    page: &mut Page,
) -> bool {
    let alloc = rt.alloc();
    set_out(alloc, bench, word, rest, page)
        || command(alloc, bench, word, rest, page)
        || read_or_write(rt, bench, word, rest, page)
}

/// Does what the line says. A line that can't be understood is printed after a question mark.
pub fn obey<R: Files + AllocGlobal>(rt: &R, bench: &mut Bench, line: &str, page: &mut Page) {
    let (word, rest) = line.split_once(' ').unwrap_or((line, ""));
    if word.is_empty() || word == "#" {
        return;
    }
    if word == "case" {
        bench.begin(rt.alloc());
        page.put(line);
        return page.put("\n");
    }
    if !is_spelled(line) || !act(rt, bench, word, rest, page) {
        page.put("? ");
        page.put(line);
        page.put("\n");
    }
}
