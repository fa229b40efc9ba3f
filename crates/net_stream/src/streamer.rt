//! Streaming a program's rule file.

ghost use Rattle.std.specs.Prelude.{◌≡◌, ◌↔◌, ◌<◌, ◌≤◌, [], ◌++◌, length, take, min, if◌then◌else◌, IfOk, OnOk, IfErr};
ghost use Rattle.prs_core.specs.Nets.{IsNet};
ghost use Rattle.prs_file.specs.Spelling.{NetText};
ghost use Rattle.reset_net.specs.Resets.{reset_of};
ghost use Rattle.width_check.specs.Typed.{program_of};
ghost use Rattle.handshake_expand.specs.Layout.{node_count, nodes_of};
ghost use Rattle.net_compose.specs.Carries.{Carries, CarriesReset};
ghost use Rattle.net_compose.specs.Errors.{IfTooMany};
ghost use Rattle.net_compose.specs.Points.{IsTranslated};
ghost use Rattle.net_compose.specs.Progress.{Progresses, ProgressesReset};
ghost use Rattle.net_compose.specs.Translation.{translation};

use crate::buffer::line_buffer;
use crate::cursor::{Cursor, give};
use crate::place::Place;
use net_compose::laws::{carries, carries_reset, runs_end, runs_end_reset, whole_nets};
use net_compose::{Circuit, NetError, circuit_of};
use sharing_check::Disjoint;
use std::alloc::{AllocError, Global};
use std::marker::Model;

/// What is left to be given out of a rule file. Contracts see these bytes. All memory is taken when it is made; one
/// line at a time is held, in a buffer that is large enough for each line of the file.
#[derive(Drop)]
pub struct Streamer {
    net: Circuit,
    cursor: Cursor,
}

impl Model for Streamer {
    ghost use Rattle.std.specs.Prelude.{List, ℕ};
    ghost use Rattle.net_stream.specs.Cursors.{IsCursor, text_left};

    ghost Value = { List ℕ };

    ghost view = { λ s. text_left s.net s.cursor };

    ghost invariant = { λ s. IsCursor s.net s.cursor };
}

/// The streamer of the program's file, with a reset node where one is asked for.
fn stream_program(alloc: Global, program: &Disjoint, reset: bool) -> Result<Streamer, NetError>
    ensures text { IfOk result (λ s. NetText s (if reset then reset_of (translation (program_of program.now))
        else translation (program_of program.now))) }
    ensures translated { OnOk result (IsTranslated (program_of program.now)) }
    ensures carries { OnOk result (Carries (translation (program_of program.now)) (program_of program.now)) }
    ensures progresses { OnOk result (Progresses (translation (program_of program.now)) (program_of program.now)) }
    ensures net { OnOk result (IsNet (translation (program_of program.now))) }
    ensures fits { OnOk result (nodes_of (program_of program.now) ≤ 65536) }
    ensures count { IfErr result (IfTooMany (λ count. count ≡ node_count (program_of program.now))) }
    ensures too_many { IfErr result (IfTooMany (λ _. 65536 < nodes_of (program_of program.now))) }
{
    carries();
    runs_end();
    whole_nets();
    let net = circuit_of(alloc, program, reset)?;
    match Streamer::of_circuit(alloc, net) {
        Ok(streamer) => Ok(streamer),
        Err(e) => Err(NetError::NoMemory(e)),
    }
}

impl Streamer {
    /// The streamer of the one text of the circuit's net.
    pub fn of_circuit(alloc: Global, net: Circuit) -> Result<Streamer, AllocError>
        ensures { IfOk result (λ s. NetText s net) }
    {
        let _net = net.first();
        let line = line_buffer(alloc, &net)?;
        let cursor = Cursor {
            line,
            given: 0,
            place: Place::Head,
        };
        Ok(Streamer { net, cursor })
    }

    /// The streamer of the program's rule file: of the one text of the net that `translate` returns, which carries the
    /// program. A program whose circuit has more than 65,536 nodes is refused with their number.
    pub fn new(alloc: Global, program: &Disjoint) -> Result<Streamer, NetError>
        ensures text { IfOk result (λ s. NetText s (translation (program_of program.now))) }
        ensures translated { OnOk result (IsTranslated (program_of program.now)) }
        ensures carries { OnOk result (Carries (translation (program_of program.now)) (program_of program.now)) }
        ensures progresses { OnOk result (Progresses (translation (program_of program.now)) (program_of program.now)) }
        ensures net { OnOk result (IsNet (translation (program_of program.now))) }
        ensures fits { OnOk result (nodes_of (program_of program.now) ≤ 65536) }
        ensures count { IfErr result (IfTooMany (λ count. count ≡ node_count (program_of program.now))) }
        ensures too_many { IfErr result (IfTooMany (λ _. 65536 < nodes_of (program_of program.now))) }
    {
        stream_program(alloc, program, false)
    }

    /// The same with a reset node: that net carries the program from every power-up state.
    pub fn new_reset(alloc: Global, program: &Disjoint) -> Result<Streamer, NetError>
        ensures text { IfOk result (λ s. NetText s (reset_of (translation (program_of program.now)))) }
        ensures translated { OnOk result (IsTranslated (program_of program.now)) }
        ensures carries { OnOk result
            (CarriesReset (reset_of (translation (program_of program.now))) (program_of program.now)) }
        ensures progresses { OnOk result
            (ProgressesReset (reset_of (translation (program_of program.now))) (program_of program.now)) }
        ensures net { OnOk result (IsNet (translation (program_of program.now))) }
        ensures fits { OnOk result (nodes_of (program_of program.now) ≤ 65536) }
        ensures count { IfErr result (IfTooMany (λ count. count ≡ node_count (program_of program.now))) }
        ensures too_many { IfErr result (IfTooMany (λ _. 65536 < nodes_of (program_of program.now))) }
    {
        carries_reset();
        runs_end_reset();
        stream_program(alloc, program, true)
    }

    /// Writes the next bytes of the file to the start of the piece, as many as it takes and as are left, and returns
    /// their number. The piece must not be empty; 0 is returned exactly at the end of the file. It takes no memory.
    pub fn next(&mut self, piece: &mut [u8]) -> usize
        requires { 0 < length piece.old }
        ensures text { self.old ≡ take result piece.new ++ self.new }
        ensures count { result ≡ min (length piece.old) (length self.old) }
        ensures end { (result ≡ 0) ↔ (self.old ≡ []) }
    {
        let mut done = 0;
        while done < piece.len() {
            let n = give(&self.net, &mut self.cursor, &mut piece[done..]);
            if n == 0 {
                return done;
            }
            done += n;
        }
        done
    }
}
