//! The scheduler that takes the first move of each list.

ghost use Rattle.std.specs.Prelude.{◌≡◌, ℕ, ◌-◌, ◌^◌, [], length, codes, Some, None};
ghost use Rattle.std.specs.Prelude.{vec_capacity};

use crate::picker::Picker;
use std::alloc::{AllocError, Global};

/// Chooses the least node.
#[derive(Drop)]
pub struct Lowest {
    log: Vec<usize>,
    seeded: Option<(u64, usize)>,
}

impl Lowest {
    /// A scheduler that has made no pick. It allocates no memory.
    pub fn new(alloc: Global) -> Lowest
        ensures log { result.log.items ≡ [] }
        ensures seeded { result.seeded ≡ None }
    {
        Lowest {
            log: Vec::new(alloc),
            seeded: None,
        }
    }
}

impl Picker for Lowest {
    ghost name = { λ p. codes "lowest" };

    ghost log = { λ p. p.log.items };

    ghost spare = { λ p. vec_capacity p.log - length p.log.items };

    ghost nodes = { λ p. 2 ^ 32 };

    ghost seeded = { λ p. p.seeded };

    ghost choice = { λ p list. 0 };

    fn name(&self) -> &str {
        "lowest"
    }

    fn seed(&mut self, seed: u64) {
        self.seeded = Some((seed, self.log.len()));
    }

    fn make_room(&mut self, picks: u32, _node_count: u32) -> Result<(), AllocError> {
        self.log.reserve_exact(picks as usize)
    }

    fn pick(&mut self, _enabled: &[u32]) -> usize {
        self.log.push_reserved(0);
        0
    }

    fn log(&self) -> &[usize] {
        &self.log
    }
}
