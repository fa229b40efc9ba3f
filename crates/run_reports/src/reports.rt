//! What is reported of a run.

ghost use Rattle.std.specs.Prelude.{◌≡◌, IfOk, List, None, Some, false, option_map, true};
ghost use Rattle.env_script.specs.Environment.{net_channels};
ghost use Rattle.env_script.specs.Offers.{offered};
ghost use Rattle.env_script.specs.Scripts.{IsScript, OfferValue};
ghost use Rattle.width_check.specs.Typed.{program_of as typed_of};
ghost use Rattle.command_answers.specs.Replies.{told_answer};
ghost use Rattle.run_reports.specs.RunReporting.{IsReported, ending_against, ending_for};

use command_answers::{Ending, Output};
use env_script::{Offer, Script};
use event_sim::{End, Ran};
use history_report::{Against, against_text, compare, report_text};
use sharing_check::Disjoint;
use std::alloc::{AllocError, Global};

/// Whether a run that ended so has a hazard.
fn is_hazard(end: End) -> bool
    ensures hazard { result ≡ true → ending_for end ≡ Ending.Hazard }
    ensures calm { result ≡ false → ending_for end ≡ Ending.Done }
{
    match end {
        End::AtRest | End::Spent => false,
        End::Unstable { .. } | End::BothWays { .. } | End::Protocol { .. } => true,
    }
}

/// How a command ends that reports a run which ended so.
pub fn ending_for(end: End) -> Ending
    ensures { result ≡ ending_for end }
{
    if is_hazard(end) {
        Ending::Hazard
    } else {
        Ending::Done
    }
}

/// How a command ends that reports a run's comparison with a program.
fn ending_against(against: Against) -> Ending
    ensures { result ≡ ending_against against }
{
    match against {
        Against::Agrees => Ending::Done,
        Against::Channels | Against::Differs { .. } => Ending::Differs,
    }
}

fn copied_offer(alloc: Global, offer: &Offer) -> Result<Offer, AllocError>
    ensures { IfOk result (λ copy. offered copy ≡ offered offer.now) }
{
    match offer {
        Offer::Values(values) => {
            let values = Vec::from_slice(alloc, values)?;
            Ok(Offer::Values(values))
        }
        Offer::Accept(count) => Ok(Offer::Accept(*count)),
        Offer::Nothing => Ok(Offer::Nothing),
    }
}

/// A copy of the script.
pub fn copied_script(alloc: Global, script: &Script) -> Result<Script, AllocError>
    ensures { IfOk result (λ copy. copy ≡ script.now) }
{
    let mut offers = Vec::new(alloc);
    for offer in script.offers() {
        offers.push(copied_offer(alloc, offer)?)?;
    }
    Ok(Script::new(offers))
}

/// The report of a run, and after it, if the run has no hazard, its comparison with the program's rounds under this
/// script.
fn compared(
    alloc: Global,
    ran: &Ran,
    time: Option<u64>,
    script: &Script,
    program: &Disjoint,
) -> Result<Output, AllocError>
    requires { IsScript (net_channels ran.now.net) script.now }
    ensures { IfOk result (λ output.
        IsReported script.now time ran.now (Some (typed_of program.now)) (told_answer output)) }
{
    let mut text = report_text(alloc, ran, time)?;
    if is_hazard(ran.end()) {
        return Ok(Output {
            text,
            end: Ending::Hazard,
        });
    }
    let against = compare(alloc, ran, program.typed(), script)?;
    let line = against_text(alloc, ran, against)?;
    text.extend_from_slice(&line)?;
    Ok(Output {
        text,
        end: ending_against(against),
    })
}

/// The report of a run that isn't compared, with its time if it has one.
pub fn uncompared(alloc: Global, ran: &Ran, time: Option<u64>) -> Result<Output, AllocError>
    ensures { IfOk result (λ output. (script : List OfferValue) →
        IsReported script time ran.now None (told_answer output)) }
{
    let text = report_text(alloc, ran, time)?;
    Ok(Output {
        text,
        end: ending_for(ran.end()),
    })
}

/// The report of a run under this script, with its time if it has one, and of its comparison with the program, if there
/// is one.
pub fn reported(
    alloc: Global,
    ran: &Ran,
    time: Option<u64>,
    script: &Script,
    program: &Option<Disjoint>,
) -> Result<Output, AllocError>
    requires { IsScript (net_channels ran.now.net) script.now }
    ensures { IfOk result (λ output.
        IsReported script.now time ran.now (option_map typed_of program.now) (told_answer output)) }
{
    match program {
        None => uncompared(alloc, ran, time),
        Some(program) => compared(alloc, ran, time, script, program),
    }
}
