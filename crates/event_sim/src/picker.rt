//! Schedulers: who chooses the moves.

ghost use Rattle.std.specs.Prelude.{◌≡◌, ℕ, ◌+◌, ◌≤◌, ◌<◌, List, [], ◌∷◌, ◌++◌, length, Option, Some, OnOk, OnErr};
ghost use Rattle.event_sim.specs.Picking.{IsChoiceList};

use std::alloc::AllocError;

/// A scheduler: chooses one of the enabled moves, again and again, and keeps a log of its choices.
pub trait Picker: Drop {
    // Its name, which never changes.
    ghost name: { Self → List ℕ };

    // All indexes that it returned.
    ghost log: { Self → List ℕ };

    // How many more picks it has room for.
    ghost spare: { Self → ℕ };

    // It has room for lists of nodes below this number.
    ghost nodes: { Self → ℕ };

    // The last seed that it was given, and the length of the log at that moment.
    ghost seeded: { Self → Option (ℕ × ℕ) };

    // The index that it would return for a list now.
    ghost choice: { Self → List ℕ → ℕ };

    /// The name by which it is requested.
    fn name(&self) -> &str
        ensures { result.now ≡ name self.now };

    /// Begins again with this seed.
    fn seed(&mut self, seed: u64)
        ensures seeded { seeded self.new ≡ Some (seed, length (log self.old)) }
        ensures name { name self.new ≡ name self.old }
        ensures log { log self.new ≡ log self.old }
        ensures spare { spare self.new ≡ spare self.old }
        ensures nodes { nodes self.new ≡ nodes self.old };

    /// Makes room for so many more picks from lists of nodes below this number. When out of memory it keeps the room
    /// that it had.
    fn make_room(&mut self, picks: u32, node_count: u32) -> Result<(), AllocError>
        ensures name { name self.new ≡ name self.old }
        ensures log { log self.new ≡ log self.old }
        ensures seeded { seeded self.new ≡ seeded self.old }
        ensures picks { OnOk result (picks ≤ spare self.new) }
        ensures wide { OnOk result (node_count ≤ nodes self.new) }
        ensures spare { OnErr result (spare self.new ≡ spare self.old) }
        ensures kept { OnErr result (nodes self.new ≡ nodes self.old) };

    /// The index of the move that it chooses of these, which is appended to the log.
    fn pick(&mut self, enabled: &[u32]) -> usize
        requires list { IsChoiceList (nodes self.old) enabled.now }
        requires room { 1 ≤ spare self.old }
        ensures choice { result ≡ choice self.old enabled.now }
        ensures within { result < length enabled.now }
        ensures log { log self.new ≡ log self.old ++ result ∷ [] }
        ensures spare { spare self.new + 1 ≡ spare self.old }
        ensures name { name self.new ≡ name self.old }
        ensures nodes { nodes self.new ≡ nodes self.old }
        ensures seeded { seeded self.new ≡ seeded self.old };

    /// All indexes that it returned, the first one first.
    fn log(&self) -> &[usize]
        ensures { result.now ≡ log self.now };
}
