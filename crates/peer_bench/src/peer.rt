//! Devices.

ghost use Rattle.std.specs.Prelude.{◌≡◌, ℕ, ◌+◌, ◌^◌, ◌≤◌, ◌<◌, Bool, true, false, List, [], ◌∷◌, ◌++◌, Option, Some, None, OnOk, IfSome};
ghost use Rattle.peer_bench.specs.declared.note.Note.{Note};
ghost use Rattle.peer_bench.specs.declared.note.Note.TheVariants.{Offered, Ready, Took};

use std::alloc::AllocError;

/// A device on the external channels of a circuit. It is asked for values on the `in` channels and whether it takes
/// one on the `out` channels, is notified of what it took, and keeps a list of its answers and of these notifications.
pub trait Peer: Drop {
    // Its name, which never changes.
    ghost name: { Self → List ℕ };

    // All its notes, the first one first.
    ghost log: { Self → List Note };

    // How many more notes it has room for.
    ghost spare: { Self → ℕ };

    // The value that it offers now on the `in` channel of this number and width, where it offers one.
    ghost due: { Self → ℕ → ℕ → Option ℕ };

    // Whether it would take a value now on the `out` channel of this number.
    ghost willing: { Self → ℕ → Bool };

    /// The name by which it is requested.
    fn name(&self) -> &str
        ensures { result.now ≡ name self.now };

    /// Makes room for so many more notes.
    fn make_room(&mut self, notes: u32) -> Result<(), AllocError>
        ensures name { name self.new ≡ name self.old }
        ensures log { log self.new ≡ log self.old }
        ensures due { due self.new ≡ due self.old }
        ensures willing { willing self.new ≡ willing self.old }
        ensures room { OnOk result (notes ≤ spare self.new) };

    /// The value that it offers on the `in` channel of this number and width (1 to 64), after so many moves: below 2 to
    /// the width, or None where it offers none. It logs an offer.
    fn offer(&mut self, chan: u32, width: u8, at: u32) -> Option<u64>
        requires room { 1 ≤ spare self.old }
        requires some { 1 ≤ width }
        requires most { width ≤ 64 }
        ensures due { result ≡ due self.old chan width }
        ensures below { IfSome result (λ v. v < 2 ^ width) }
        ensures noted { IfSome result (λ v. log self.new ≡ log self.old ++ Offered at chan v ∷ []) }
        ensures spare { IfSome result (λ v. spare self.new + 1 ≡ spare self.old) }
        ensures name { name self.new ≡ name self.old }
        ensures same_log { result ≡ None → log self.new ≡ log self.old }
        ensures same_spare { result ≡ None → spare self.new ≡ spare self.old }
        ensures same_due { result ≡ None → due self.new ≡ due self.old }
        ensures same_willing { result ≡ None → willing self.new ≡ willing self.old };

    /// Whether it takes a value on the `out` channel of this number, after so many moves. If so, it logs `Ready`.
    fn ready(&mut self, chan: u32, at: u32) -> bool
        requires room { 1 ≤ spare self.old }
        ensures willing { result ≡ willing self.old chan }
        ensures noted { result ≡ true → log self.new ≡ log self.old ++ Ready at chan ∷ [] }
        ensures spare { result ≡ true → spare self.new + 1 ≡ spare self.old }
        ensures name { name self.new ≡ name self.old }
        ensures same_log { result ≡ false → log self.new ≡ log self.old }
        ensures same_spare { result ≡ false → spare self.new ≡ spare self.old }
        ensures same_due { result ≡ false → due self.new ≡ due self.old }
        ensures same_willing { result ≡ false → willing self.new ≡ willing self.old };

    /// Notifies it of the value that passed on the `out` channel of this number, by the move of this number. It logs
    /// `Took`.
    fn took(&mut self, chan: u32, value: u64, at: u32)
        requires room { 1 ≤ spare self.old }
        ensures noted { log self.new ≡ log self.old ++ Took at chan value ∷ [] }
        ensures spare { spare self.new + 1 ≡ spare self.old }
        ensures name { name self.new ≡ name self.old };
}
