//! The step from the name of a file to the delays of a net's nodes.

ghost use Rattle.std.specs.Prelude.{◌≡◌, ◌≤◌, ◌∷◌, [], length, IfOk, IfErr, option_to_list};
ghost use Rattle.delay_script.specs.DelayTables.{IsDelayTable};
ghost use Rattle.command_answers.specs.Answers.{given_by};
ghost use Rattle.command_answers.specs.Replies.{Halts, Stops};
ghost use Rattle.command_words.specs.SimulateWords.{text_given};
ghost use Rattle.command_steps.specs.Steps.{FromFile, Never};
ghost use Rattle.command_steps.specs.DelaySteps.{AreDelaysOf, FromDelays, HoldsDelays, most_of_delays, FromDelayFile, HoldsDelayFile};

use crate::files::text_of_file;
use chp_edge::Shelf;
use command_answers::{Stop, bad_delays};
use delay_script::{DelayError, Delays, read_delays};
use prs_core::Net;
use std::alloc::Global;

/// The most bytes of a delay file.
const MOST_OF_DELAYS: usize = 4_194_304;

/// The delays that the text gives for the net's nodes.
fn delays_of_text<'a>(alloc: Global, text: &[u8], net: &Net) -> Result<Delays, Stop<'a>>
    requires { length text.now ≤ most_of_delays }
    ensures read { IfOk result (AreDelaysOf net.now.names text.now) }
    ensures table { IfOk result (IsDelayTable (length net.now.first)) }
    ensures stopped { IfErr result (Halts (FromDelays net.now.names text.now Never)) }
{
    match read_delays(alloc, text, net) {
        Ok(delays) => Ok(delays),
        Err(DelayError::Refused { fault, line }) => Err(Stop::Refused(bad_delays(fault, line))),
        Err(DelayError::NoMemory(_)) => Err(Stop::NoMemory),
    }
}

/// The delays of the net's nodes whose file has this name.
pub fn delays_in<'a, S: Shelf>(
    alloc: Global,
    shelf: &mut S,
    file: &'a str,
    net: &Net,
) -> Result<Delays, Stop<'a>>
    ensures read { IfOk result (λ delays.
        HoldsDelays (given_by (S.tells shelf.old) (S.holds shelf.old)) file.entry.now net.now.names delays) }
    ensures table { IfOk result (IsDelayTable (length net.now.first)) }
    ensures stopped { IfErr result (Stops
        (FromFile (given_by (S.tells shelf.old) (S.holds shelf.old)) file.entry.now most_of_delays
        (λ text. FromDelays net.now.names text Never))
        (file.entry.now ∷ []) (given_by (S.tells shelf.old) (S.holds shelf.old)) (S.faults shelf.old)
        (S.faults shelf.new)) }
    ensures same { S.tells shelf.new ≡ S.tells shelf.old }
    ensures kept { S.holds shelf.new ≡ S.holds shelf.old }
    ensures faults { S.faults shelf.old ≤ S.faults shelf.new }
{
    let text = text_of_file(alloc, shelf, file, MOST_OF_DELAYS)?;
    delays_of_text(alloc, &text, net)
}

/// The delays of the net's nodes whose file has this name; where no file is named each is 1.
pub fn delays_if<'a, S: Shelf>(
    alloc: Global,
    shelf: &mut S,
    file: Option<&'a str>,
    net: &Net,
) -> Result<Delays, Stop<'a>>
    ensures read { IfOk result (HoldsDelayFile (given_by (S.tells shelf.old) (S.holds shelf.old))
        (text_given file.entry) net.now.names) }
    ensures table { IfOk result (IsDelayTable (length net.now.first)) }
    ensures stopped { IfErr result (Stops
        (FromDelayFile (given_by (S.tells shelf.old) (S.holds shelf.old)) (text_given file.entry) net.now.names Never)
        (option_to_list (text_given file.entry)) (given_by (S.tells shelf.old) (S.holds shelf.old))
        (S.faults shelf.old) (S.faults shelf.new)) }
    ensures same { S.tells shelf.new ≡ S.tells shelf.old }
    ensures kept { S.holds shelf.new ≡ S.holds shelf.old }
    ensures faults { S.faults shelf.old ≤ S.faults shelf.new }
{
    match file {
        None => match Delays::units(alloc, net.names().len()) {
            Ok(delays) => Ok(delays),
            Err(_) => Err(Stop::NoMemory),
        },
        Some(file) => delays_in(alloc, shelf, file, net),
    }
}
