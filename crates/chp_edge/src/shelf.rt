//! Where bytes come from.

ghost use Rattle.std.specs.Prelude.{◌≡◌, ℕ, ◌<◌, ◌≤◌, ◌^◌, ◌↔◌, List, [], ◌++◌, Option, Some, length, take, Bool, true, OnOk, IfOk, OnErr};
ghost use Rattle.chp_edge.specs.Faults.{Rose, IsReadFault};

use crate::sink::Failed;

/// A source of files. What it holds may be observable; the clauses on bytes hold only then.
pub trait Shelf {
    // The number of faults so far. It never falls, and saturates at 2^64 - 1.
    ghost faults: { Self → ℕ };

    // Whether its bytes are observable.
    ghost tells: { Self → Bool };

    // The contents of the file of a name, if there is one. No call changes them.
    ghost holds: { Self → List ℕ → Option (List ℕ) };

    // What is still to be read of the begun file.
    ghost rest: { Self → List ℕ };

    /// Opens the file of this name, at its beginning. It fails only on a fault, or if an observable shelf holds no such
    /// file.
    fn begin(&mut self, name: &str) -> Result<(), Failed>
        ensures faults { faults self.old ≤ faults self.new }
        ensures counted { faults self.new < 2 ^ 64 }
        ensures same { tells self.new ≡ tells self.old }
        ensures kept { holds self.new ≡ holds self.old }
        ensures begun { OnOk result (tells self.old ≡ true → holds self.old name.now ≡ Some (rest self.new)) }
        ensures failed { OnErr result (IsReadFault (faults self.old) (faults self.new) (tells self.old)
            (holds self.old name.now)) }
        ensures emptied { OnErr result (tells self.old ≡ true → rest self.new ≡ []) };

    /// Writes the next bytes of the begun file at the beginning of the piece, and returns how many: 0 exactly at
    /// the file's end. It fails only on a fault.
    fn next(&mut self, piece: &mut [u8]) -> Result<usize, Failed>
        requires { 0 < length piece.old }
        ensures faults { faults self.old ≤ faults self.new }
        ensures counted { faults self.new < 2 ^ 64 }
        ensures same { tells self.new ≡ tells self.old }
        ensures kept { holds self.new ≡ holds self.old }
        ensures within { IfOk result (λ n. n ≤ length piece.new) }
        ensures bytes { IfOk result (λ n. tells self.old ≡ true → rest self.old ≡ take n piece.new ++ rest self.new) }
        ensures end { IfOk result (λ n. tells self.old ≡ true → ((n ≡ 0) ↔ (rest self.old ≡ []))) }
        ensures failed { OnErr result (Rose (faults self.old) (faults self.new)) }
        ensures stays { OnErr result (tells self.old ≡ true → rest self.new ≡ rest self.old) };
}
