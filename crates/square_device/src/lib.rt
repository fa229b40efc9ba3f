//! A device of one's own: it answers each number with its square. The page docs/DEVICES.md tells how a program hands it
//! in.
#![tactic(auto)]

ghost use Rattle.std.specs.Prelude.{◌≡◌, ◌-◌, ◌%◌, ◌^◌, ◌<◌, ◌≤◌, length, codes, option_map, true, vec_capacity};

use peer_bench::{Note, Peer};
use std::alloc::{AllocError, Global};

/// The number of the channel on which it is asked, the first one of the program.
const ASKING: u32 = 0;

/// Owes the square of the last number that it was asked for, until it has sent it.
#[derive(Drop)]
pub struct Square {
    log: Vec<Note>,
    owed: Option<u64>,
}

/// The lowest bits of a number, so many of them.
pub fn low_bits(value: u64, width: u8) -> u64
    requires { width ≤ 64 }
    ensures value { result ≡ value % 2 ^ width }
    ensures below { result < 2 ^ width }
{
    if width == 64 {
        value
    } else {
        value % (1 << width)
    }
}

impl Square {
    pub fn new(alloc: Global) -> Square {
        Square {
            log: Vec::new(alloc),
            owed: None,
        }
    }
}

impl Peer for Square {
    ghost name = { λ p. codes "square" };

    ghost log = { λ p. p.log.items };

    ghost spare = { λ p. vec_capacity p.log - length p.log.items };

    ghost due = { λ p chan width. option_map (λ v. v % 2 ^ width) p.owed };

    ghost willing = { λ p chan. true };

    fn name(&self) -> &str {
        "square"
    }

    fn make_room(&mut self, notes: u32) -> Result<(), AllocError> {
        self.log.reserve_exact(notes as usize)
    }

    fn offer(&mut self, chan: u32, width: u8, at: u32) -> Option<u64> {
        let value = low_bits(self.owed?, width);
        self.owed = None;
        self.log.push_reserved(Note::Offered { at, chan, value });
        Some(value)
    }

    fn ready(&mut self, chan: u32, at: u32) -> bool {
        self.log.push_reserved(Note::Ready { at, chan });
        true
    }

    fn took(&mut self, chan: u32, value: u64, at: u32) {
        if chan == ASKING {
            self.owed = Some(value.wrapping_mul(value));
        }
        self.log.push_reserved(Note::Took { at, chan, value });
    }
}
