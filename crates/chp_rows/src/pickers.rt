//! Adversarial schedulers.

ghost use Rattle.std.specs.Prelude.{◌≡◌, ℕ, ◌-◌, ◌^◌, ◌<◌, length, vec_capacity};
ghost use Rattle.chp_rows.specs.Ways.{way_choice, way_name};

use event_sim::Picker;
use std::alloc::{AllocError, Global};

/// How a scheduler chooses.
#[derive(Clone, Copy)]
pub enum Way {
    /// The last entry of a list, then the first one of the next list, and so on.
    Swing,
    /// The last entry but one where there is one, so the node with the highest number waits as long as it can.
    Starve,
    /// By the bytes of its text, one for each choice, in order and cyclically: the index is the byte modulo the length
    /// of the list.
    ByText,
}

/// A scheduler that chooses in such a way.
#[derive(Drop)]
pub struct Adversary {
    way: Way,
    text: Vec<u8>,
    log: Vec<usize>,
    seeded: Option<(u64, usize)>,
    ghost some: { 0 < length text.items },
}

impl Adversary {
    pub fn new(alloc: Global, way: Way, text: Vec<u8>) -> Adversary
        requires { 0 < length text.items }
    {
        Adversary {
            way,
            text,
            log: Vec::new(alloc),
            seeded: None,
        }
    }

    /// Whether it got a seed since it last chose.
    fn is_seeded_now(&self) -> bool {
        match self.seeded {
            Some((_, at)) => at == self.log.len(),
            None => false,
        }
    }

    /// The index of its choice from a list of so many entries.
    fn choose(&self, count: usize) -> usize
        requires { 0 < count }
        ensures choice { result ≡ way_choice self.now.way self.now.text.items (length self.now.log.items) count }
        ensures within { result < count }
    {
        let picks = self.log.len();
        match self.way {
            Way::Swing if picks % 2 == 0 => count - 1,
            Way::Swing => 0,
            Way::Starve => count.saturating_sub(2),
            Way::ByText => usize::from(self.text[picks % self.text.len()]) % count,
        }
    }
}

impl Picker for Adversary {
    ghost name = { λ p. way_name p.way };

    ghost log = { λ p. p.log.items };

    ghost spare = { λ p. vec_capacity p.log - length p.log.items };

    ghost nodes = { λ p. 2 ^ 32 };

    ghost seeded = { λ p. p.seeded };

    ghost choice = { λ p list. way_choice p.way p.text.items (length p.log.items) (length list) };

    fn name(&self) -> &str {
        match self.way {
            Way::Swing => "swing",
            Way::Starve => "starve",
            Way::ByText => "by-text",
        }
    }

    fn seed(&mut self, seed: u64) {
        self.seeded = Some((seed, self.log.len()));
    }

    fn make_room(&mut self, picks: u32, _node_count: u32) -> Result<(), AllocError> {
        // a call gives the seed first
        if !self.is_seeded_now() {
            return Err(AllocError);
        }
        self.log.reserve_exact(picks as usize)
    }

    fn pick(&mut self, enabled: &[u32]) -> usize {
        let place = self.choose(enabled.len());
        self.log.push_reserved(place);
        place
    }

    fn log(&self) -> &[usize] {
        &self.log
    }
}
