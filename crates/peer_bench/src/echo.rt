//! The device that sends what it took, and one more.

ghost use Rattle.std.specs.Prelude.{◌≡◌, ℕ, ◌+◌, ◌^◌, ◌≤◌, ◌<◌, [], ◌∷◌, ◌++◌, length, codes, true, false, Some, None, OnOk, IfSome};
ghost use Rattle.peer_bench.specs.declared.note.Note.TheVariants.{Offered, Ready, Took};
ghost use Rattle.peer_bench.specs.Devices.{echo_due};

use crate::note::Note;
use crate::peer::Peer;
use crate::ramp::low_bits;
use std::alloc::{AllocError, Global};
use std::marker::Model;

/// Holds at first the value 0, and offers what it holds, modulo 2 to the width, on the first channel on which it is
/// asked; then it holds nothing, until it takes a value and holds the next number. It offers ten values, and takes
/// whatever comes.
#[derive(Drop)]
pub struct Echo {
    log: Vec<Note>,
    held: Option<u64>,
    offers: u64,
}

impl Model for Echo {
    ghost use Rattle.std.specs.Prelude.{◌-◌, length, vec_capacity};
    ghost use Rattle.peer_bench.specs.Devices.{NotedValue, IsEcho};

    ghost Value = { NotedValue };

    ghost view = { λ p. record { log = p.log.items; spare = vec_capacity p.log - length p.log.items } };

    ghost invariant = { λ p. IsEcho p.log.items p.held p.offers };
}

impl Echo {
    /// A device that has done nothing. It allocates no memory.
    pub fn new(alloc: Global) -> Echo
        ensures { result.log ≡ [] }
    {
        Echo {
            log: Vec::new(alloc),
            held: Some(0),
            offers: 0,
        }
    }

    /// What is due on a channel of this width.
    fn due(&self, width: u8) -> Option<u64>
        requires { width ≤ 64 }
        ensures due { result ≡ echo_due self.now.log width }
        ensures below { IfSome result (λ v. v < 2 ^ width) }
    {
        match self.held {
            Some(value) if self.offers < 10 => Some(low_bits(value, width)),
            _ => None,
        }
    }
}

impl Peer for Echo {
    ghost name = { λ p. codes "echo" };

    ghost log = { λ p. p.log };

    ghost spare = { λ p. p.spare };

    ghost due = { λ p chan. echo_due p.log };

    ghost willing = { λ p chan. true };

    fn name(&self) -> &str {
        "echo"
    }

    fn make_room(&mut self, notes: u32) -> Result<(), AllocError>
        ensures log { self.new.log ≡ self.old.log }
        ensures room { OnOk result (notes ≤ self.new.spare) }
    {
        self.log.reserve_exact(notes as usize)
    }

    fn offer(&mut self, chan: u32, width: u8, at: u32) -> Option<u64>
        requires room { 1 ≤ self.old.spare }
        requires some { 1 ≤ width }
        requires most { width ≤ 64 }
        ensures due { result ≡ echo_due self.old.log width }
        ensures below { IfSome result (λ v. v < 2 ^ width) }
        ensures noted { IfSome result (λ v. self.new.log ≡ self.old.log ++ Offered at chan v ∷ []) }
        ensures spare { IfSome result (λ v. self.new.spare + 1 ≡ self.old.spare) }
        ensures same { result ≡ None → self.new ≡ self.old }
    {
        match self.due(width) {
            None => None,
            Some(value) => {
                self.held = None;
                self.offers += 1;
                self.log.push_reserved(Note::Offered { at, chan, value });
                Some(value)
            }
        }
    }

    fn ready(&mut self, chan: u32, at: u32) -> bool
        requires room { 1 ≤ self.old.spare }
        ensures willing { result ≡ true }
        ensures noted { self.new.log ≡ self.old.log ++ Ready at chan ∷ [] }
        ensures spare { self.new.spare + 1 ≡ self.old.spare }
    {
        self.log.push_reserved(Note::Ready { at, chan });
        true
    }

    fn took(&mut self, chan: u32, value: u64, at: u32)
        requires room { 1 ≤ self.old.spare }
        ensures noted { self.new.log ≡ self.old.log ++ Took at chan value ∷ [] }
        ensures spare { self.new.spare + 1 ≡ self.old.spare }
    {
        self.held = Some(value.wrapping_add(1));
        self.log.push_reserved(Note::Took { at, chan, value });
    }
}
