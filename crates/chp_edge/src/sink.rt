//! Where bytes go.

ghost use Rattle.std.specs.Prelude.{◌≡◌, ℕ, ◌<◌, ◌≤◌, ◌^◌, List, ◌++◌, length, take, Bool, true, OnErr, IfOk};
ghost use Rattle.chp_edge.specs.Faults.{Rose};

/// A call on a device failed.
#[derive(Clone, Copy)]
pub struct Failed;

/// A destination for bytes. What it took may be observable; the clauses on bytes hold only then.
pub trait Sink {
    // The number of faults so far. It never falls, and saturates at 2^64 - 1.
    ghost faults: { Self → ℕ };

    // Whether its bytes are observable.
    ghost tells: { Self → Bool };

    // All bytes that were taken, if they are observable.
    ghost written: { Self → List ℕ };

    /// Takes some bytes from the beginning of the piece, at least one, and returns how many. It fails only on a fault;
    /// an observable sink then takes none.
    fn put(&mut self, piece: &[u8]) -> Result<usize, Failed>
        requires { 0 < length piece.now }
        ensures faults { faults self.old ≤ faults self.new }
        ensures counted { faults self.new < 2 ^ 64 }
        ensures same { tells self.new ≡ tells self.old }
        ensures some { IfOk result (λ n. 0 < n) }
        ensures within { IfOk result (λ n. n ≤ length piece.now) }
        ensures bytes { IfOk result (λ n. tells self.old ≡ true →
            written self.new ≡ written self.old ++ take n piece.now) }
        ensures failed { OnErr result (Rose (faults self.old) (faults self.new)) }
        ensures stays { OnErr result (tells self.old ≡ true → written self.new ≡ written self.old) };
}
