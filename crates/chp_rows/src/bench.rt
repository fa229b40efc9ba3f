//! What a case sets out: files, and devices with their planned faults.

use case_text::{CaseFiles, Page, numbers_of};
use chp_edge::{MemShelf, MemSink};
use std::alloc::Global;

/// A sink to be made: what it takes in a call, what it has room for, and the numbers of the calls that fail.
#[derive(Drop)]
pub struct Plan {
    most: usize,
    room: usize,
    failing: Vec<u64>,
}

const WIDE: usize = 1 << 23;

impl Plan {
    /// A sink that takes all at once.
    fn wide(alloc: Global) -> Plan {
        Plan {
            most: WIDE,
            room: WIDE,
            failing: Vec::new(alloc),
        }
    }

    /// The sink of these numbers: what it takes in a call, its room, and the calls that fail.
    pub fn set(&mut self, alloc: Global, numbers: &[u64], page: &mut Page) -> bool {
        let [most, room, failing @ ..] = numbers else {
            return false;
        };
        let (Ok(most), Ok(room)) = (usize::try_from(*most), usize::try_from(*room)) else {
            return false;
        };
        self.most = most;
        self.room = room;
        self.failing = page.copied(alloc, failing);
        true
    }

    pub fn sink(&self, alloc: Global, page: &mut Page) -> Option<MemSink> {
        let failing = page.copied(alloc, &self.failing);
        page.taken(MemSink::new(alloc, self.most.max(1), self.room, failing))
    }
}

/// What a case has set out so far.
#[derive(Drop)]
pub struct Bench {
    pub files: CaseFiles,
    failing: Vec<u64>,
    pub out: Plan,
    pub say: Plan,
}

impl Bench {
    pub fn new(alloc: Global) -> Bench {
        Bench {
            files: CaseFiles::new(alloc),
            failing: Vec::new(alloc),
            out: Plan::wide(alloc),
            say: Plan::wide(alloc),
        }
    }

    /// Forgets all that was set out.
    pub fn begin(&mut self, alloc: Global) {
        *self = Bench::new(alloc);
    }

    /// The calls of the shelf that fail, and whether these words are numbers.
    pub fn fail(&mut self, alloc: Global, line: &str, page: &mut Page) -> bool {
        match numbers_of(alloc, line, page) {
            Some(failing) => {
                self.failing = failing;
                true
            }
            None => false,
        }
    }

    /// This call of the shelf fails.
    pub fn fail_at(&mut self, alloc: Global, call: u64, page: &mut Page) {
        self.failing = page.copied(alloc, &[call]);
    }

    /// A shelf of the files.
    pub fn shelf(&self, alloc: Global, page: &mut Page) -> MemShelf {
        MemShelf::new(
            self.files.copied(alloc, page),
            page.copied(alloc, &self.failing),
        )
    }
}
