//! Adversarial devices, and one that counts its drops.

ghost use Rattle.std.specs.Prelude.{◌≡◌, ◌-◌, ◌%◌, ◌^◌, ◌<◌, ◌≤◌, length, codes, true, None, vec_capacity};
ghost use Rattle.chp_rows.specs.Moods.{mood_due, mood_name, mood_willing};

use peer_bench::{Note, Peer};
use square_device::low_bits;
use std::alloc::{AllocError, Global};
use std::cell::Cell;
use std::rc::Rc;

/// How a device is.
#[derive(Clone, Copy)]
pub enum Mood {
    /// It never offers a value.
    Mute,
    /// It never takes one.
    Deaf,
    /// It takes whatever comes, and offers the largest value again and again.
    Greedy,
    /// It changes its mind with each note.
    Fickle,
}

/// A device of such a mood.
#[derive(Drop)]
pub struct Moody {
    mood: Mood,
    log: Vec<Note>,
}

/// The largest value of this width.
fn largest(width: u8) -> u64
    requires { width ≤ 64 }
    ensures value { result ≡ 2 ^ width - 1 }
    ensures below { result < 2 ^ width }
{
    if width == 64 {
        u64::MAX
    } else {
        (1 << width) - 1
    }
}

impl Moody {
    pub fn new(alloc: Global, mood: Mood) -> Moody {
        Moody {
            mood,
            log: Vec::new(alloc),
        }
    }

    /// What is due on a channel of this width.
    fn due(&self, width: u8) -> Option<u64>
        requires { width ≤ 64 }
        ensures { result ≡ mood_due self.now.mood (length self.now.log.items) width }
    {
        let notes = self.log.len() as u64;
        match self.mood {
            Mood::Mute => None,
            Mood::Deaf => Some(low_bits(notes, width)),
            Mood::Greedy => Some(largest(width)),
            Mood::Fickle if notes % 3 == 0 => None,
            Mood::Fickle => Some(low_bits(notes, width)),
        }
    }

    fn is_willing(&self) -> bool
        ensures { result ≡ mood_willing self.now.mood (length self.now.log.items) }
    {
        match self.mood {
            Mood::Mute | Mood::Greedy => true,
            Mood::Deaf => false,
            Mood::Fickle => self.log.len() % 2 == 0,
        }
    }
}

impl Peer for Moody {
    ghost name = { λ p. mood_name p.mood };

    ghost log = { λ p. p.log.items };

    ghost spare = { λ p. vec_capacity p.log - length p.log.items };

    ghost due = { λ p chan width. mood_due p.mood (length p.log.items) width };

    ghost willing = { λ p chan. mood_willing p.mood (length p.log.items) };

    fn name(&self) -> &str {
        match self.mood {
            Mood::Mute => "mute",
            Mood::Deaf => "deaf",
            Mood::Greedy => "greedy",
            Mood::Fickle => "fickle",
        }
    }

    fn make_room(&mut self, notes: u32) -> Result<(), AllocError> {
        self.log.reserve_exact(notes as usize)
    }

    fn offer(&mut self, chan: u32, width: u8, at: u32) -> Option<u64> {
        let value = self.due(width)?;
        self.log.push_reserved(Note::Offered { at, chan, value });
        Some(value)
    }

    fn ready(&mut self, chan: u32, at: u32) -> bool {
        let is_ready = self.is_willing();
        if is_ready {
            self.log.push_reserved(Note::Ready { at, chan });
        }
        is_ready
    }

    fn took(&mut self, chan: u32, value: u64, at: u32) {
        self.log.push_reserved(Note::Took { at, chan, value });
    }
}

/// A device that has no part in anything, and counts how often a device that shares its count is dropped.
pub struct Dropped {
    drops: Rc<Cell<u32>>,
    log: Vec<Note>,
}

impl Dropped {
    pub fn new(alloc: Global, drops: Rc<Cell<u32>>) -> Dropped {
        Dropped {
            drops,
            log: Vec::new(alloc),
        }
    }
}

impl Drop for Dropped {
    fn drop(self) {
        self.drops.set(self.drops.get().wrapping_add(1));
        let Dropped { drops: _, log: _ } = self;
    }
}

impl Peer for Dropped {
    ghost name = { λ p. codes "dropped" };

    ghost log = { λ p. p.log.items };

    ghost spare = { λ p. vec_capacity p.log - length p.log.items };

    ghost due = { λ p chan width. None };

    ghost willing = { λ p chan. true };

    fn name(&self) -> &str {
        "dropped"
    }

    fn make_room(&mut self, notes: u32) -> Result<(), AllocError> {
        self.log.reserve_exact(notes as usize)
    }

    fn offer(&mut self, _chan: u32, _width: u8, _at: u32) -> Option<u64> {
        None
    }

    fn ready(&mut self, chan: u32, at: u32) -> bool {
        self.log.push_reserved(Note::Ready { at, chan });
        true
    }

    fn took(&mut self, chan: u32, value: u64, at: u32) {
        self.log.push_reserved(Note::Took { at, chan, value });
    }
}
