//! A file and a text as a whole.

ghost use Rattle.std.specs.Prelude.{◌≡◌, ℕ, ◌+◌, ◌-◌, ◌<◌, ◌≤◌, ◌^◌, List, [], ◌++◌, Option, Some, length, take, true, IfOk, OnOk, OnErr, IsErrOf};
ghost use Rattle.chp_edge.specs.Faults.{Rose, IsReadFault};
ghost use Rattle.chp_edge.specs.Reading.{IsLeft};

use crate::shelf::Shelf;
use crate::sink::{Failed, Sink};
use std::alloc::{AllocError, Global};

/// Why a file wasn't read whole.
#[derive(Clone, Copy)]
pub enum ReadEnd {
    /// A call on the shelf failed.
    Failed,
    /// The file has more bytes than the limit.
    TooLong,
    /// Out of memory.
    NoMemory,
}

const PIECE: usize = 4096;

/// All bytes of the named file, which has at most `limit` bytes. What is said of its bytes is proved for an observable
/// shelf.
///
/// It is `Failed` only if the shelf's count of faults rose or is saturated, or an observable shelf holds no such file.
/// `TooLong` means that the file exceeds the limit: `limit` + 1 bytes were read, and the rest is still on the shelf.
/// After `NoMemory` some of its bytes were read, or none, and the rest is still on the shelf.
pub fn read_all<S: Shelf>(
    alloc: Global,
    shelf: &mut S,
    name: &str,
    limit: usize,
) -> Result<Vec<u8>, ReadEnd>
    requires { limit < 2 ^ 64 - 1 }
    ensures faults { S.faults shelf.old ≤ S.faults shelf.new }
    ensures same { S.tells shelf.new ≡ S.tells shelf.old }
    ensures kept { S.holds shelf.new ≡ S.holds shelf.old }
    ensures read { IfOk result (λ all. S.tells shelf.old ≡ true → S.holds shelf.old name.now ≡ Some all.items) }
    ensures short { IfOk result (λ all. length all.items ≤ limit) }
    ensures emptied { OnOk result (S.tells shelf.old ≡ true → S.rest shelf.new ≡ []) }
    ensures failed { IsErrOf result ReadEnd.Failed →
        IsReadFault (S.faults shelf.old) (S.faults shelf.new) (S.tells shelf.old) (S.holds shelf.old name.now) }
    ensures too_long { IsErrOf result ReadEnd.TooLong → S.tells shelf.old ≡ true →
        (taken : List ℕ) × IsLeft (S.holds shelf.old name.now) (S.rest shelf.new) taken × (length taken ≡ limit + 1) }
    ensures no_memory { IsErrOf result ReadEnd.NoMemory → S.tells shelf.old ≡ true →
        (taken : List ℕ) × IsLeft (S.holds shelf.old name.now) (S.rest shelf.new) taken }
{
    if let Err(Failed) = shelf.begin(name) {
        return Err(ReadEnd::Failed);
    }
    let mut all = Vec::new(alloc);
    let mut piece = [0u8; PIECE];
    while all.len() <= limit {
        let want = PIECE.min(limit + 1 - all.len());
        match shelf.next(&mut piece[..want]) {
            Err(Failed) => return Err(ReadEnd::Failed),
            Ok(0) => return Ok(all),
            Ok(n) => {
                if let Err(AllocError) = all.extend_from_slice(&piece[..n]) {
                    return Err(ReadEnd::NoMemory);
                }
            }
        }
    }
    Err(ReadEnd::TooLong)
}

/// Writes the whole text, piece by piece. After `Failed` the sink has taken a prefix of it that is not the whole.
pub fn write_all<K: Sink>(sink: &mut K, text: &[u8]) -> Result<(), Failed>
    ensures faults { K.faults sink.old ≤ K.faults sink.new }
    ensures same { K.tells sink.new ≡ K.tells sink.old }
    ensures whole { OnOk result (K.tells sink.old ≡ true → K.written sink.new ≡ K.written sink.old ++ text.now) }
    ensures failed { OnErr result (Rose (K.faults sink.old) (K.faults sink.new)) }
    ensures prefix { OnErr result ((n : ℕ) × (n < length text.now)
        × (K.tells sink.old ≡ true → K.written sink.new ≡ K.written sink.old ++ take n text.now)) }
{
    let mut done = 0;
    while done < text.len() {
        done += sink.put(&text[done..])?;
    }
    Ok(())
}
