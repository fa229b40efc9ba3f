//! The scheduler that takes the move which was enabled last.

ghost use Rattle.std.specs.Prelude.{◌≡◌, ◌+◌, ◌<◌, ◌≤◌, [], ◌∷◌, ◌++◌, length, replicate, codes, None, Some, OnOk, OnErr};
ghost use Rattle.event_sim.specs.Ages.{aged, ages_in, first_least};
ghost use Rattle.event_sim.specs.Picking.{IsChoiceList};

use crate::ages::{Position, Presence};
use crate::picker::Picker;
use std::alloc::{AllocError, Global};
use std::marker::Model;

/// Chooses the node that was in the fewest lists in a row, this one included; among equals the least.
#[derive(Drop)]
pub struct Newest {
    log: Vec<usize>,
    seeded: Option<(u64, usize)>,
    presence: Presence,
    last: Position,
}

impl Model for Newest {
    ghost use Rattle.std.specs.Prelude.{◌-◌, length, vec_capacity};
    ghost use Rattle.event_sim.specs.Ages.{AgedValue, ages_at, IsPresence};

    ghost Value = { AgedValue };

    ghost view = { λ p. record {
      log = p.log.items;
      spare = vec_capacity p.log - length p.log.items;
      seeded = p.seeded;
      ages = ages_at (length p.log.items) p.presence.since.items p.presence.list.items;
    } };

    ghost invariant = { λ p. IsPresence (length p.log.items) p.presence };
}

impl Newest {
    /// A scheduler that has made no pick. It allocates no memory.
    pub fn new(alloc: Global) -> Newest
        ensures log { result.log ≡ [] }
        ensures seeded { result.seeded ≡ None }
        ensures ages { result.ages ≡ [] }
    {
        Newest {
            log: Vec::new(alloc),
            seeded: None,
            presence: Presence::new(alloc),
            last: Position { index: 0, place: 0 },
        }
    }
}

impl Picker for Newest {
    ghost name = { λ p. codes "newest" };

    ghost log = { λ p. p.log };

    ghost spare = { λ p. p.spare };

    ghost nodes = { λ p. length p.ages };

    ghost seeded = { λ p. p.seeded };

    ghost choice = { λ p list. first_least (ages_in list p.ages) };

    fn name(&self) -> &str {
        "newest"
    }

    fn seed(&mut self, seed: u64)
        ensures { self.new ≡ record self.old { seeded = Some (seed, length self.old.log) } }
    {
        self.seeded = Some((seed, self.log.len()));
    }

    fn make_room(&mut self, picks: u32, node_count: u32) -> Result<(), AllocError>
        ensures log { self.new.log ≡ self.old.log }
        ensures seeded { self.new.seeded ≡ self.old.seeded }
        ensures picks { OnOk result (picks ≤ self.new.spare) }
        ensures ages { OnOk result (self.new.ages ≡ replicate node_count 0) }
        ensures kept { OnErr result (self.new ≡ self.old) }
    {
        self.presence.reserve(node_count)?;
        self.log.reserve_exact(picks as usize)?;
        self.presence.reset(node_count);
        Ok(())
    }

    fn pick(&mut self, enabled: &[u32]) -> usize
        requires list { IsChoiceList (length self.old.ages) enabled.now }
        requires room { 1 ≤ self.old.spare }
        ensures choice { result ≡ first_least (ages_in enabled.now self.old.ages) }
        ensures within { result < length enabled.now }
        ensures log { self.new.log ≡ self.old.log ++ result ∷ [] }
        ensures spare { self.new.spare + 1 ≡ self.old.spare }
        ensures ages { self.new.ages ≡ aged enabled.now self.old.ages }
        ensures nodes { length self.new.ages ≡ length self.old.ages }
        ensures seeded { self.new.seeded ≡ self.old.seeded }
    {
        let guess = self
            .presence
            .note(enabled, self.log.len() as u64, self.last);
        let found = self.presence.newest(guess);
        self.last = found;
        self.log.push_reserved(found.index);
        found.index
    }

    fn log(&self) -> &[usize] {
        &self.log
    }
}
