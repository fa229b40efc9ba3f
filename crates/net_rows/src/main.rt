//! Worked cases of the calls below the top call: texts, rule files in pieces, rounds, names, scripts, cells, nets and
//! their runs, and waves. They are in data/, and the output that they must give in the file stdout; docs/TESTS.md says
//! how they are written.
#![tactic(auto)]

mod bench;
mod cases;
mod cells;
mod names;
mod nets;
mod orders;
mod parts;
mod printer;
mod reading;
mod rounds;
mod runs;
mod scripts;
mod streamed;
mod waves;

use bench::NetBench;
use case_text::Page;
use cases::obey;
use std::alloc::Global;
use std::{fs, io};

const TOPICS: [&str; 9] = [
    "texts", "stream", "rounds", "names", "scripts", "cells", "nets", "ages", "waves",
];

fn tell(alloc: Global, cases: &str, page: &mut Page) {
    if let Some(mut bench) = page.taken(NetBench::new(alloc)) {
        for line in cases.lines() {
            obey(alloc, &mut bench, line, page);
        }
    }
}

fn main(rt: HostRuntime) -> io::Result<()> {
    let mut page = Page::new(rt.alloc());
    for topic in TOPICS {
        let cases = fs::read_to_string(&rt, topic)?;
        tell(rt.alloc(), &cases, &mut page);
    }
    rt.print(page.whole()?)
}
