//! Shelves and a sink in memory, whose bytes are observable.

ghost use Rattle.std.specs.Prelude.{◌≡◌, ℕ, ◌≤◌, ◌<◌, [], Some, None, length, take, drop, min, vec_len, vec_capacity, IfOk, IsOk, OnOk, IsErr, OnErr, Contains, ◌+◌, ◌-◌, ◌^◌, ◌++◌, ◌↔◌, ◌⊎◌, true, false, position, if◌then◌else◌};
ghost use Rattle.chp_edge.specs.Faults.{Rose, IsReadFault, one_higher};
ghost use Rattle.chp_edge.specs.Files.{held_by, left_at, is_named};

use crate::plan::Plan;
use crate::shelf::Shelf;
use crate::sink::{Failed, Sink};
use std::alloc::{AllocError, Global};

/// Copies the first bytes to the beginning of the piece, up to the shorter length of the two, and returns how many.
fn copy_front(bytes: &[u8], piece: &mut [u8]) -> usize
    ensures count { result ≡ min (length piece.old) (length bytes.now) }
    ensures bytes { take result piece.new ≡ take result bytes.now }
{
    let n = piece.len().min(bytes.len());
    piece[..n].copy_from_slice(&bytes[..n]);
    n
}

/// The bytes after the first `done`, none if there are no more than these.
fn behind(bytes: &[u8], done: usize) -> &[u8]
    ensures { result.now ≡ drop done bytes.now }
{
    if done < bytes.len() {
        &bytes[done..]
    } else {
        &[]
    }
}

/// A shelf of files in memory, on which chosen calls fail: `begin` and `next` share one count, and the first call is
/// number 1.
#[derive(Drop)]
pub struct MemShelf {
    files: Vec<(String, Vec<u8>)>,
    plan: Plan,
    begun: Option<usize>,
    done: usize,
}

impl MemShelf {
    /// The shelf of these files, each with its name; of several with one name only the first is found. `failing` has
    /// the numbers of the calls that fail, each of which is a fault. Beginning an unknown name fails without a fault.
    pub fn new(files: Vec<(String, Vec<u8>)>, failing: Vec<u64>) -> MemShelf
        ensures files { result.files.items ≡ files.items }
        ensures failing { result.plan.failing.items ≡ failing.items }
        ensures calls { result.plan.calls ≡ 0 }
        ensures faults { result.plan.faults ≡ 0 }
        ensures begun { result.begun ≡ None }
    {
        MemShelf {
            files,
            plan: Plan::new(failing),
            begun: None,
            done: 0,
        }
    }

    fn place_of(&self, name: &str) -> Option<usize>
        ensures { result ≡ position (is_named name.now) self.now.files.items }
    {
        self.files.iter().position(|file| file.0.as_str() == name)
    }

    fn left(&self) -> &[u8]
        ensures { result.now ≡ left_at self.now.files.items self.now.begun self.now.done }
    {
        match self.begun {
            None => &[],
            Some(place) => match self.files.get(place) {
                None => &[],
                Some(file) => behind(&file.1, self.done),
            },
        }
    }
}

impl Shelf for MemShelf {
    ghost faults = { λ s. s.plan.faults };

    ghost tells = { λ _. true };

    ghost holds = { λ s. held_by s.files.items };

    ghost rest = { λ s. left_at s.files.items s.begun s.done };

    fn begin(&mut self, name: &str) -> Result<(), Failed>
        ensures faults { self.old.plan.faults ≤ self.new.plan.faults }
        ensures counted { self.new.plan.faults < 2 ^ 64 }
        ensures files { self.new.files ≡ self.old.files }
        ensures calls { self.new.plan.calls ≡ one_higher self.old.plan.calls }
        ensures failing { self.new.plan.failing ≡ self.old.plan.failing }
        ensures begun { OnOk result (held_by self.old.files.items name.now ≡
            Some (left_at self.new.files.items self.new.begun self.new.done)) }
        ensures emptied { OnErr result (left_at self.new.files.items self.new.begun self.new.done ≡ []) }
        ensures fails { IsErr result ↔ (Contains self.old.plan.failing.items self.new.plan.calls ⊎
            (held_by self.old.files.items name.now ≡ None)) }
        ensures failed { OnErr result (IsReadFault self.old.plan.faults self.new.plan.faults true
            (held_by self.old.files.items name.now)) }
        ensures planned { Contains self.old.plan.failing.items self.new.plan.calls →
            self.new.plan.faults ≡ one_higher self.old.plan.faults }
        ensures unplanned { (Contains self.old.plan.failing.items self.new.plan.calls → ⊥) →
            self.new.plan.faults ≡ self.old.plan.faults }
    {
        self.begun = None;
        self.done = 0;
        if self.plan.fails() {
            return Err(Failed);
        }
        self.begun = self.place_of(name);
        if self.begun.is_none() {
            return Err(Failed);
        }
        Ok(())
    }

    fn next(&mut self, piece: &mut [u8]) -> Result<usize, Failed>
        requires { 0 < length piece.old }
        ensures faults { self.old.plan.faults ≤ self.new.plan.faults }
        ensures counted { self.new.plan.faults < 2 ^ 64 }
        ensures files { self.new.files ≡ self.old.files }
        ensures calls { self.new.plan.calls ≡ one_higher self.old.plan.calls }
        ensures failing { self.new.plan.failing ≡ self.old.plan.failing }
        ensures count { IfOk result (λ n. n ≡
            min (length piece.old) (length (left_at self.old.files.items self.old.begun self.old.done))) }
        ensures bytes { IfOk result (λ n. left_at self.old.files.items self.old.begun self.old.done ≡ take n piece.new
            ++ left_at self.new.files.items self.new.begun self.new.done) }
        ensures within { IfOk result (λ n. n ≤ length piece.new) }
        ensures end { IfOk result (λ n. (n ≡ 0) ↔ (left_at self.old.files.items self.old.begun self.old.done ≡ [])) }
        ensures fails { IsErr result ↔ Contains self.old.plan.failing.items self.new.plan.calls }
        ensures failed { OnErr result (Rose self.old.plan.faults self.new.plan.faults) }
        ensures exact { OnErr result (self.new.plan.faults ≡ one_higher self.old.plan.faults) }
        ensures stays { OnErr result (left_at self.new.files.items self.new.begun self.new.done ≡
            left_at self.old.files.items self.old.begun self.old.done) }
        ensures unplanned { IsOk result → self.new.plan.faults ≡ self.old.plan.faults }
    {
        if self.plan.fails() {
            return Err(Failed);
        }
        let n = copy_front(self.left(), piece);
        self.done += n;
        Ok(n)
    }
}

/// A shelf that holds the same bytes under every name. No call on it fails.
#[derive(Drop)]
pub struct SureShelf {
    bytes: Vec<u8>,
    begun: bool,
    done: usize,
}

impl SureShelf {
    pub fn new(bytes: Vec<u8>) -> SureShelf
        ensures bytes { result.bytes.items ≡ bytes.items }
        ensures begun { result.begun ≡ false }
    {
        SureShelf {
            bytes,
            begun: false,
            done: 0,
        }
    }
}

impl Shelf for SureShelf {
    ghost faults = { λ _. 0 };

    ghost tells = { λ _. true };

    ghost holds = { λ s _. Some s.bytes.items };

    ghost rest = { λ s. if s.begun then drop s.done s.bytes.items else [] };

    fn begin(&mut self, _name: &str) -> Result<(), Failed> {
        self.begun = true;
        self.done = 0;
        Ok(())
    }

    fn next(&mut self, piece: &mut [u8]) -> Result<usize, Failed> {
        if !self.begun {
            return Ok(0);
        }
        let n = copy_front(behind(&self.bytes, self.done), piece);
        self.done += n;
        Ok(n)
    }
}

/// A sink in memory. It takes at most `most` bytes a call and `room` bytes in all, and chosen calls on it fail.
#[derive(Drop)]
pub struct MemSink {
    most: usize,
    room: usize,
    written: Vec<u8>,
    plan: Plan,
    ghost some: { 0 < most },
    ghost fits: { vec_len written ≤ room },
    ghost taken: { room ≤ vec_capacity written },
}

impl MemSink {
    /// An empty sink; all its memory, for `room` bytes, is allocated here. A call of `put` is a fault if its number,
    /// counted from 1, is in `failing`, or if the room is used up. Otherwise it takes as much of the piece as `most`
    /// and the room that is left allow.
    pub fn new(
        alloc: Global,
        most: usize,
        room: usize,
        failing: Vec<u64>,
    ) -> Result<MemSink, AllocError>
        requires { 0 < most }
        ensures most { IfOk result (λ sink. sink.most ≡ most) }
        ensures room { IfOk result (λ sink. sink.room ≡ room) }
        ensures written { IfOk result (λ sink. sink.written.items ≡ []) }
        ensures failing { IfOk result (λ sink. sink.plan.failing.items ≡ failing.items) }
        ensures calls { IfOk result (λ sink. sink.plan.calls ≡ 0) }
        ensures faults { IfOk result (λ sink. sink.plan.faults ≡ 0) }
    {
        let written = Vec::with_capacity(alloc, room)?;
        Ok(MemSink {
            most,
            room,
            written,
            plan: Plan::new(failing),
        })
    }

    /// All bytes that were taken.
    pub fn written(&self) -> &[u8]
        ensures { result.now ≡ self.now.written.items }
    {
        &self.written
    }
}

impl Sink for MemSink {
    ghost faults = { λ s. s.plan.faults };

    ghost tells = { λ _. true };

    ghost written = { λ s. s.written.items };

    fn put(&mut self, piece: &[u8]) -> Result<usize, Failed>
        requires { 0 < length piece.now }
        ensures faults { self.old.plan.faults ≤ self.new.plan.faults }
        ensures counted { self.new.plan.faults < 2 ^ 64 }
        ensures limits { (self.new.most ≡ self.old.most) × (self.new.room ≡ self.old.room) }
        ensures calls { self.new.plan.calls ≡ one_higher self.old.plan.calls }
        ensures failing { self.new.plan.failing ≡ self.old.plan.failing }
        ensures count { IfOk result (λ n. n ≡ min (min self.old.most (self.old.room - vec_len self.old.written))
            (length piece.now)) }
        ensures some { IfOk result (λ n. 0 < n) }
        ensures bytes { IfOk result (λ n. self.new.written.items ≡ self.old.written.items ++ take n piece.now) }
        ensures fails { IsErr result ↔ (Contains self.old.plan.failing.items self.new.plan.calls ⊎
            (self.old.room ≤ vec_len self.old.written)) }
        ensures failed { OnErr result (Rose self.old.plan.faults self.new.plan.faults) }
        ensures exact { OnErr result (self.new.plan.faults ≡ one_higher self.old.plan.faults) }
        ensures stays { OnErr result (self.new.written.items ≡ self.old.written.items) }
        ensures unplanned { IsOk result → self.new.plan.faults ≡ self.old.plan.faults }
    {
        if self.plan.fails() {
            return Err(Failed);
        }
        let left = self.room - self.written.len();
        if left == 0 {
            self.plan.fault();
            return Err(Failed);
        }
        let n = self.most.min(left).min(piece.len());
        match self.written.extend_from_slice(&piece[..n]) {
            Ok(()) => Ok(n),
            Err(AllocError) => unreachable!(),
        }
    }
}
