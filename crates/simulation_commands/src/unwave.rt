//! `unwave FILE`: from a wave file to the changes that it reports.

ghost use Rattle.std.specs.Prelude.{◌≡◌, ◌≤◌, ◌∷◌, [], length, IfOk, IfErr};
ghost use Rattle.command_answers.specs.Answers.{given_by};
ghost use Rattle.command_answers.specs.Replies.{Halts, Stops, told_answer};
ghost use Rattle.simulation_commands.specs.Unwaving.{FromWave, PrintsChanges, Unwaves, most_of_wave};

use chp_edge::Shelf;
use command_answers::{Ending, Output, Stop, bad_wave};
use command_steps::text_of_file;
use std::alloc::Global;
use wave_file::laws::{one_wave, one_wave_refusal};
use wave_file::{WaveError, changes_text};

/// The most bytes of a wave file.
const MOST_OF_WAVE: usize = 268_435_456;

/// The changes of the wave whose text this is.
fn told_text<'a>(alloc: Global, text: &[u8]) -> Result<Output, Stop<'a>>
    requires { length text.now ≤ most_of_wave }
    ensures answered { IfOk result (λ output. FromWave text.now PrintsChanges (told_answer output)) }
    ensures stopped { IfErr result (Halts (FromWave text.now PrintsChanges)) }
{
    one_wave();
    one_wave_refusal();
    match changes_text(alloc, text) {
        Ok(text) => Ok(Output {
            text,
            end: Ending::Done,
        }),
        Err(WaveError::Refused { fault, line }) => Err(Stop::Refused(bad_wave(fault, line))),
        Err(WaveError::NoMemory(_)) => Err(Stop::NoMemory),
    }
}

/// What `unwave` answers for the file of this name.
pub fn unwave<'a, S: Shelf>(alloc: Global, shelf: &mut S, file: &'a str) -> Result<Output, Stop<'a>>
    ensures answered { IfOk result (λ output. Unwaves (given_by (S.tells shelf.old) (S.holds shelf.old)) file.entry.now
        (told_answer output)) }
    ensures stopped { IfErr result (Stops (Unwaves (given_by (S.tells shelf.old) (S.holds shelf.old)) file.entry.now)
        (file.entry.now ∷ []) (given_by (S.tells shelf.old) (S.holds shelf.old)) (S.faults shelf.old)
        (S.faults shelf.new)) }
    ensures same { S.tells shelf.new ≡ S.tells shelf.old }
    ensures kept { S.holds shelf.new ≡ S.holds shelf.old }
    ensures faults { S.faults shelf.old ≤ S.faults shelf.new }
{
    let text = text_of_file(alloc, shelf, file, MOST_OF_WAVE)?;
    told_text(alloc, &text)
}
