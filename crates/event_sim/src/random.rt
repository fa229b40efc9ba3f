//! The scheduler that chooses at random.

ghost use Rattle.std.specs.Prelude.{◌≡◌, ℕ, ◌-◌, ◌^◌, ◌≤◌, [], length, codes, Some, None, vec_capacity};
ghost use Rattle.rand_pcg.specs.Lcg.{started, advance, increment_of};
ghost use Rattle.rand_pcg.specs.Pcg.{multiplier_64};
ghost use Rattle.event_sim.specs.Picking.{random_choice, seed_of, since_of};

use crate::picker::Picker;
use rand_core::utils::NextWord;
use rand_pcg::Lcg64Xsh32;
use std::alloc::{AllocError, Global};

/// The stream of the generator (the one of PCG's own examples).
const STREAM: u64 = 54;

/// Chooses by the words of a generator, one word for each pick, modulo the length of the list.
#[derive(Drop)]
pub struct Random {
    words: Lcg64Xsh32,
    log: Vec<usize>,
    seeded: Option<(u64, usize)>,
    ghost since: { since_of seeded ≤ length log.items },
    ghost drawn: { words ≡ advance 64 multiplier_64 (length log.items - since_of seeded)
        (started 64 multiplier_64 (seed_of seeded) (increment_of 64 54)) },
}

impl Random {
    /// A scheduler that has made no pick, as if it had the seed 0. It allocates no memory.
    pub fn new(alloc: Global) -> Random
        ensures log { result.log.items ≡ [] }
        ensures seeded { result.seeded ≡ None }
    {
        Random {
            words: Lcg64Xsh32::new(0, STREAM),
            log: Vec::new(alloc),
            seeded: None,
        }
    }
}

impl Picker for Random {
    ghost name = { λ p. codes "random" };

    ghost log = { λ p. p.log.items };

    ghost spare = { λ p. vec_capacity p.log - length p.log.items };

    ghost nodes = { λ p. 2 ^ 32 };

    ghost seeded = { λ p. p.seeded };

    ghost choice = { λ p list. random_choice p.seeded (length p.log.items) list };

    fn name(&self) -> &str {
        "random"
    }

    fn seed(&mut self, seed: u64) {
        self.words = Lcg64Xsh32::new(seed, STREAM);
        self.seeded = Some((seed, self.log.len()));
    }

    fn make_room(&mut self, picks: u32, _node_count: u32) -> Result<(), AllocError> {
        self.log.reserve_exact(picks as usize)
    }

    fn pick(&mut self, enabled: &[u32]) -> usize {
        let place = self.words.next_word() as usize % enabled.len();
        self.log.push_reserved(place);
        place
    }

    fn log(&self) -> &[usize] {
        &self.log
    }
}
