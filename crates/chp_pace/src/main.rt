//! The program: the call over the files and the standard streams of the system.
#![tactic(auto)]

use chp_edge::{ErrSink, FileShelf, OutSink, write_all};
use pace_command::{Status, pace_main};
use std::alloc::AllocError;
use std::env;
use std::io::{BufWriter, ErrorKind, Write};
use std::process::ExitCode;
use std::rt::{Env, Files};

/// The words after the program's name. No words where one of them isn't UTF-8, since a call without words is refused.
fn words<R: Env + AllocGlobal>(rt: &R) -> Result<Vec<String>, AllocError> {
    let mut words = match env::args(rt) {
        Ok(args) => args,
        Err(e) if e.kind() == ErrorKind::OutOfMemory => return Err(AllocError),
        Err(_) => return Ok(Vec::new(rt.alloc())),
    };
    let _program = words.next();
    words.collect(rt.alloc())
}

/// Runs the words, or says out of memory where there is none for them.
fn run<R: Env + AllocGlobal + Files, O: Write + Drop, E: Write + Drop>(
    rt: &R,
    out: O,
    say: E,
) -> Status {
    let mut out = OutSink::new(out);
    let mut say = ErrSink::new(say);
    match words(rt) {
        Ok(words) => pace_main(
            rt.alloc(),
            &words,
            &mut FileShelf::new(rt),
            &mut out,
            &mut say,
        ),
        Err(AllocError) => {
            let _ = write_all(&mut say, b"chp: 6 no memory\n");
            Status::NoMemory
        }
    }
}

/// The line on standard error is written at once, so that programs which share it don't mix their lines. Only a line
/// of more than 8,192 bytes, or without memory for the buffer, goes out in pieces.
fn main(rt: HostRuntime) -> ExitCode {
    let status = match BufWriter::new(rt.alloc(), rt.stderr()) {
        Ok(say) => run(&rt, rt.stdout(), say),
        Err(_) => run(&rt, rt.stdout(), rt.stderr()),
    };
    ExitCode::from(status.number())
}
