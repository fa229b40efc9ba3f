//! Reading and writing whole, under faults, and the adapters over real files and writers.

use crate::bench::Bench;
use case_text::{Page, bytes_of};
use chp_edge::{
    ErrSink, Failed, FileShelf, OutSink, ReadEnd, Shelf, Sink, SureShelf, read_all, write_all,
};
use std::alloc::Global;
use std::io;
use std::io::Write as IoWrite;
use std::rt::Files;

fn put_read<S: Shelf>(alloc: Global, shelf: &mut S, name: &str, limit: usize, page: &mut Page) {
    if limit == usize::MAX {
        return page.put("?\n");
    }
    match read_all(alloc, shelf, name, limit) {
        Ok(text) => {
            page.put("read ");
            page.bytes(&text);
            page.put("\n");
        }
        Err(ReadEnd::Failed) => page.put("failed\n"),
        Err(ReadEnd::TooLong) => page.put("too long\n"),
        Err(ReadEnd::NoMemory) => page.give_up(),
    }
}

/// Reads the named files one after the other from one shelf.
pub fn read(alloc: Global, bench: &Bench, limit: usize, names: &str, page: &mut Page) {
    let mut shelf = bench.shelf(alloc, page);
    for name in names.split_whitespace() {
        put_read(alloc, &mut shelf, name, limit, page);
    }
}

/// Reads the last file from a shelf that never fails.
pub fn read_surely(alloc: Global, bench: &Bench, limit: usize, page: &mut Page) {
    let text = page.copied(alloc, bench.files.last());
    put_read(alloc, &mut SureShelf::new(text), "any", limit, page);
}

/// Reads a real file of data/.
pub fn read_disk<R: Files + AllocGlobal>(rt: &R, limit: usize, name: &str, page: &mut Page) {
    let mut shelf = FileShelf::new(rt);
    put_read(rt.alloc(), &mut shelf, name, limit, page);
}

fn put_write<K: Sink>(sink: &mut K, text: &[u8], page: &mut Page) {
    page.put(match write_all(sink, text) {
        Ok(()) => "written ",
        Err(Failed) => "failed ",
    });
}

fn put_writes<K: Sink>(alloc: Global, sink: &mut K, texts: &str, page: &mut Page) {
    for text in texts.split(' ') {
        let text = bytes_of(alloc, text, page);
        put_write(sink, &text, page);
    }
}

/// Writes the texts one after the other to the sink of the case.
pub fn write(alloc: Global, bench: &Bench, texts: &str, page: &mut Page) {
    let Some(mut sink) = bench.out.sink(alloc, page) else {
        return;
    };
    put_writes(alloc, &mut sink, texts, page);
    page.bytes(sink.written());
    page.put("\n");
}

/// A writer that takes two bytes a call, so many calls long, and then nothing. It prints what it takes.
#[derive(Drop)]
struct Narrow<'a> {
    calls: u64,
    taken: &'a mut Page,
}

impl IoWrite for Narrow<'_> {
    fn write(&mut self, piece: &[u8]) -> io::Result<usize> {
        if self.calls == 0 {
            return Ok(0);
        }
        self.calls -= 1;
        let n = piece.len().min(2);
        self.taken.bytes(&piece[..n]);
        Ok(n)
    }

    fn flush(&mut self) -> io::Result<()> {
        Ok(())
    }
}

/// Writes the texts one after the other to a writer that stops after so many calls, as to standard output, and as to
/// standard error.
pub fn write_narrowly(alloc: Global, calls: u64, texts: &str, page: &mut Page) {
    for is_out in [true, false] {
        let mut taken = Page::new(alloc);
        let writer = Narrow {
            calls,
            taken: &mut taken,
        };
        if is_out {
            put_writes(alloc, &mut OutSink::new(writer), texts, page);
        } else {
            put_writes(alloc, &mut ErrSink::new(writer), texts, page);
        }
        if let Some(taken) = page.taken(taken.whole()) {
            page.put(&taken);
        }
        page.put("\n");
    }
}
