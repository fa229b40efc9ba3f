//! Files and the standard streams. Their bytes are not observable: what a real file or stream holds is trusted, and
//! covered by tests only.

ghost use Rattle.std.specs.Prelude.{◌≡◌, ◌^◌, ◌<◌, ◌≤◌, [], None, false, length, IfOk, OnOk, OnErr};
ghost use Rattle.chp_edge.specs.Faults.{Rose, one_higher};

use crate::count::count_up;
use crate::shelf::Shelf;
use crate::sink::{Failed, Sink};
use std::fs;
use std::io::{Read, Write};
use std::rt::Files;

/// The files of the system. Each error of the system is a fault, including a name that can't be opened.
#[derive(Drop)]
pub struct FileShelf<'a, R: Files> {
    rt: &'a R,
    begun: Option<R::File>,
    faults: u64,
}

impl<'a, R: Files> FileShelf<'a, R> {
    pub fn new(rt: &'a R) -> FileShelf<'a, R>
        ensures { result.faults ≡ 0 }
    {
        FileShelf {
            rt,
            begun: None,
            faults: 0,
        }
    }
}

impl<'a, R: Files> Shelf for FileShelf<'a, R> {
    ghost faults = { λ s. s.faults };

    ghost tells = { λ _. false };

    ghost holds = { λ _ _. None };

    ghost rest = { λ _. [] };

    fn begin(&mut self, name: &str) -> Result<(), Failed>
        ensures faults { self.old.faults ≤ self.new.faults }
        ensures counted { self.new.faults < 2 ^ 64 }
        ensures unfailed { OnOk result (self.new.faults ≡ self.old.faults) }
        ensures failed { OnErr result (Rose self.old.faults self.new.faults) }
        ensures exact { OnErr result (self.new.faults ≡ one_higher self.old.faults) }
    {
        let _count = self.faults;
        self.begun = None;
        match fs::open(self.rt, name) {
            Ok(file) => {
                self.begun = Some(file);
                Ok(())
            }
            Err(_) => {
                count_up(&mut self.faults);
                Err(Failed)
            }
        }
    }

    fn next(&mut self, piece: &mut [u8]) -> Result<usize, Failed>
        requires { 0 < length piece.old }
        ensures within { IfOk result (λ n. n ≤ length piece.new) }
        ensures faults { self.old.faults ≤ self.new.faults }
        ensures counted { self.new.faults < 2 ^ 64 }
        ensures unfailed { OnOk result (self.new.faults ≡ self.old.faults) }
        ensures failed { OnErr result (Rose self.old.faults self.new.faults) }
        ensures exact { OnErr result (self.new.faults ≡ one_higher self.old.faults) }
    {
        let _count = self.faults;
        let Some(file) = &mut self.begun else {
            return Ok(0);
        };
        match file.read(piece) {
            Ok(n) => Ok(n),
            Err(_) => {
                count_up(&mut self.faults);
                Err(Failed)
            }
        }
    }
}

/// Writes some bytes of the piece, and returns how many. An error is a fault, and so is a writer that takes nothing.
fn put_some<W: Write>(writer: &mut W, faults: &mut u64, piece: &[u8]) -> Result<usize, Failed>
    requires { 0 < length piece.now }
    ensures faults { faults.old ≤ faults.new }
    ensures counted { faults.new < 2 ^ 64 }
    ensures some { IfOk result (λ n. 0 < n) }
    ensures within { IfOk result (λ n. n ≤ length piece.now) }
    ensures unfailed { OnOk result (faults.new ≡ faults.old) }
    ensures failed { OnErr result (Rose faults.old faults.new) }
    ensures exact { OnErr result (faults.new ≡ one_higher faults.old) }
{
    let _count = *faults;
    match writer.write(piece) {
        Ok(n) if n > 0 => Ok(n),
        _ => {
            count_up(faults);
            Err(Failed)
        }
    }
}

/// Standard output, or any other writer that is given in its place.
#[derive(Drop)]
pub struct OutSink<W: Write + Drop> {
    writer: W,
    faults: u64,
}

impl<W: Write + Drop> OutSink<W> {
    pub fn new(writer: W) -> OutSink<W>
        ensures { result.faults ≡ 0 }
    {
        OutSink { writer, faults: 0 }
    }
}

impl<W: Write + Drop> Sink for OutSink<W> {
    ghost faults = { λ s. s.faults };

    ghost tells = { λ _. false };

    ghost written = { λ _. [] };

    fn put(&mut self, piece: &[u8]) -> Result<usize, Failed>
        requires { 0 < length piece.now }
        ensures some { IfOk result (λ n. 0 < n) }
        ensures within { IfOk result (λ n. n ≤ length piece.now) }
        ensures faults { self.old.faults ≤ self.new.faults }
        ensures counted { self.new.faults < 2 ^ 64 }
        ensures unfailed { OnOk result (self.new.faults ≡ self.old.faults) }
        ensures failed { OnErr result (Rose self.old.faults self.new.faults) }
        ensures exact { OnErr result (self.new.faults ≡ one_higher self.old.faults) }
    {
        put_some(&mut self.writer, &mut self.faults, piece)
    }
}

/// Standard error, or any other writer that is given in its place.
#[derive(Drop)]
pub struct ErrSink<W: Write + Drop> {
    writer: W,
    faults: u64,
}

impl<W: Write + Drop> ErrSink<W> {
    pub fn new(writer: W) -> ErrSink<W>
        ensures { result.faults ≡ 0 }
    {
        ErrSink { writer, faults: 0 }
    }
}

impl<W: Write + Drop> Sink for ErrSink<W> {
    ghost faults = { λ s. s.faults };

    ghost tells = { λ _. false };

    ghost written = { λ _. [] };

    fn put(&mut self, piece: &[u8]) -> Result<usize, Failed>
        requires { 0 < length piece.now }
        ensures some { IfOk result (λ n. 0 < n) }
        ensures within { IfOk result (λ n. n ≤ length piece.now) }
        ensures faults { self.old.faults ≤ self.new.faults }
        ensures counted { self.new.faults < 2 ^ 64 }
        ensures unfailed { OnOk result (self.new.faults ≡ self.old.faults) }
        ensures failed { OnErr result (Rose self.old.faults self.new.faults) }
        ensures exact { OnErr result (self.new.faults ≡ one_higher self.old.faults) }
    {
        put_some(&mut self.writer, &mut self.faults, piece)
    }
}
