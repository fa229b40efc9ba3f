//! Worked cases over devices in memory. They are in data/, and the output that they must give in the file stdout;
//! docs/TESTS.md says how they are written.
#![tactic(auto)]

mod bench;
mod cases;
mod drops;
mod edge;
mod peers;
mod pickers;
mod run;

use bench::Bench;
use case_text::Page;
use cases::obey;
use std::rt::Files;
use std::{fs, io};

const TOPICS: [&str; 5] = ["edge", "shelves", "sinks", "picks", "devices"];

fn tell<R: Files + AllocGlobal>(rt: &R, cases: &str, page: &mut Page) {
    let mut bench = Bench::new(rt.alloc());
    for line in cases.lines() {
        obey(rt, &mut bench, line, page);
    }
}

fn main(rt: HostRuntime) -> io::Result<()> {
    let mut page = Page::new(rt.alloc());
    for topic in TOPICS {
        let cases = fs::read_to_string(&rt, topic)?;
        tell(&rt, &cases, &mut page);
    }
    rt.print(page.whole()?)
}
