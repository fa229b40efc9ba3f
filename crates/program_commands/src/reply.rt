//! What a call writes, with all the memory that writing it takes.

ghost use Rattle.std.specs.Prelude.{◌≡◌, ℕ, ◌<◌, ◌≤◌, ◌++◌, true, length, take, IfOk, OnOk, OnErr};
ghost use Rattle.chp_edge.specs.Faults.{Rose};
ghost use Rattle.program_commands.specs.RepliesTold.{reply_bytes, reply_end};

use chp_edge::{Failed, Sink, write_all};
use command_answers::{Ending, Output};
use net_stream::Streamer;
use std::alloc::{AllocError, Global};
use std::marker::Model;

/// How many bytes of a text that is made piece by piece are held at a time.
const PIECE: usize = 65_536;

/// Room for the next bytes of a text that is made piece by piece.
#[derive(Drop)]
pub struct Piece {
    bytes: Vec<u8>,
}

impl Model for Piece {
    ghost use Rattle.std.specs.Prelude.{List, ℕ, ◌<◌, length};

    ghost Value = { List ℕ };

    ghost view = { λ p. p.bytes.items };

    ghost invariant = { λ p. 0 < length p.bytes.items };
}

impl Piece {
    /// A piece of 65,536 bytes, which are 0. `compile` writes its rule file through it.
    pub fn new(alloc: Global) -> Result<Piece, AllocError>
        ensures { IfOk result (λ piece. length piece ≡ 65536) }
    {
        let bytes = vec![in alloc; 0; PIECE]?;
        Ok(Piece { bytes })
    }
}

/// What is to be written.
#[derive(Drop)]
pub enum Reply {
    /// A text that is held.
    Held(Output),
    /// A rule file, which the streamer makes while it is written, in this piece.
    Made { streamer: Streamer, piece: Piece },
}

/// Puts what is left of the streamer's text, piece by piece. After `Failed` less than all of it was taken, a prefix.
fn pour<K: Sink>(sink: &mut K, streamer: &mut Streamer, piece: &mut [u8]) -> Result<(), Failed>
    requires { 0 < length piece.old }
    ensures faults { K.faults sink.old ≤ K.faults sink.new }
    ensures same { K.tells sink.new ≡ K.tells sink.old }
    ensures whole { OnOk result (K.tells sink.old ≡ true → K.written sink.new ≡ K.written sink.old ++ streamer.old) }
    ensures failed { OnErr result (Rose (K.faults sink.old) (K.faults sink.new)) }
    ensures prefix { OnErr result ((n : ℕ) × (n < length streamer.old)
        × (K.tells sink.old ≡ true → K.written sink.new ≡ K.written sink.old ++ take n streamer.old)) }
{
    let mut count = streamer.next(piece);
    while count > 0 {
        write_all(sink, &piece[..count])?;
        count = streamer.next(piece);
    }
    Ok(())
}

impl Reply {
    /// How the command ends once all of it is written: a rule file always well.
    pub fn end(&self) -> Ending
        ensures { result ≡ reply_end self.now }
    {
        match self {
            Reply::Held(output) => output.end,
            Reply::Made { .. } => Ending::Done,
        }
    }

    /// Puts all of it, and takes no memory. After `Failed` less than all of it was taken, a prefix.
    pub fn write<K: Sink>(&mut self, sink: &mut K) -> Result<(), Failed>
        ensures faults { K.faults sink.old ≤ K.faults sink.new }
        ensures same { K.tells sink.new ≡ K.tells sink.old }
        ensures whole { OnOk result (K.tells sink.old ≡ true →
            K.written sink.new ≡ K.written sink.old ++ reply_bytes self.old) }
        ensures failed { OnErr result (Rose (K.faults sink.old) (K.faults sink.new)) }
        ensures prefix { OnErr result ((n : ℕ) × (n < length (reply_bytes self.old))
            × (K.tells sink.old ≡ true →
            K.written sink.new ≡ K.written sink.old ++ take n (reply_bytes self.old))) }
    {
        match self {
            Reply::Held(output) => write_all(sink, &output.text),
            Reply::Made { streamer, piece } => pour(sink, streamer, &mut piece.bytes),
        }
    }
}
