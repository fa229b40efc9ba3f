//! `simulate PRS SCRIPT --delays FILE`: one timed run of a net under a script. The delays say when each move comes.

ghost use Rattle.std.specs.Prelude.{◌≡◌, ◌≤◌, ◌∷◌, false, length, IfOk, IfErr, option_map, option_to_list};
ghost use Rattle.delay_script.specs.DelayTables.{IsDelayTable};
ghost use Rattle.env_script.specs.Environment.{net_channels};
ghost use Rattle.env_script.specs.Scripts.{IsScript};
ghost use Rattle.width_check.specs.Typed.{program_of as typed_of};
ghost use Rattle.command_answers.specs.Answers.{given_by};
ghost use Rattle.command_words.specs.CommandWords.{timing_asked};
ghost use Rattle.command_answers.specs.Replies.{Stops, told_answer};
ghost use Rattle.command_steps.specs.RunSteps.{lacks_reset};
ghost use Rattle.command_words.specs.SimulateWords.{text_given};
ghost use Rattle.simulation_commands.specs.Timing.{SimulatesTimed, TimesNet, timing_for};

use crate::simulate::is_powerless;
use chp_edge::Shelf;
use command_answers::{Output, Refusal, Stop};
use command_steps::{delays_in, net_in, net_script_in, reference_in};
use command_words::Timing;
use delay_script::{Delays, Timed};
use env_script::Script;
use prs_core::Net;
use run_reports::{copied_script, reported};
use sharing_check::Disjoint;
use std::alloc::{AllocError, Global};

/// The timed simulation of the net under the script by these delays. A power asks for a net with a reset node.
fn timed(
    alloc: Global,
    net: Net,
    script: Script,
    delays: Delays,
    timing: &Timing,
) -> Result<Timed, AllocError>
    requires script { IsScript (net_channels net) script }
    requires delays { IsDelayTable (length net.first) delays }
    requires steps { timing.now.steps ≤ 1000000 }
    requires power { lacks_reset timing.now.power net.reset ≡ false }
    ensures { IfOk result (λ t. t ≡ timing_for (timing_asked timing.now) net script delays) }
{
    match timing.power {
        None => Timed::new(alloc, net, script, timing.steps, delays),
        Some(high) => Timed::powered(alloc, net, script, timing.steps, delays, high),
    }
}

/// Makes the timed run of the net under the script by these delays, and reports it.
fn report_timed(
    alloc: Global,
    net: Net,
    script: Script,
    delays: Delays,
    program: &Option<Disjoint>,
    timing: &Timing,
) -> Result<Output, AllocError>
    requires script { IsScript (net_channels net) script }
    requires delays { IsDelayTable (length net.first) delays }
    requires steps { timing.now.steps ≤ 1000000 }
    requires power { lacks_reset timing.now.power net.reset ≡ false }
    ensures { IfOk result (λ output. TimesNet (timing_for (timing_asked timing.now) net script delays)
        (option_map typed_of program.now) (told_answer output)) }
{
    let told = copied_script(alloc, &script)?;
    let run = timed(alloc, net, script, delays, timing)?.run();
    reported(alloc, &run.ran, Some(run.time), &told, program)
}

/// What `simulate` answers, where delays say when each move comes.
pub fn time<'a, S: Shelf>(
    alloc: Global,
    shelf: &mut S,
    timing: &Timing<'a>,
) -> Result<Output, Stop<'a>>
    requires { timing.now.steps ≤ 1000000 }
    ensures answered { IfOk result (λ output. SimulatesTimed (timing_asked timing.now)
        (given_by (S.tells shelf.old) (S.holds shelf.old)) (told_answer output)) }
    ensures stopped { IfErr result (Stops (SimulatesTimed (timing_asked timing.now)
        (given_by (S.tells shelf.old) (S.holds shelf.old)))
        (timing.now.net.now ∷ timing.now.script.now ∷ timing.now.delays.now
        ∷ option_to_list (text_given timing.now.against)) (given_by (S.tells shelf.old) (S.holds shelf.old))
        (S.faults shelf.old) (S.faults shelf.new)) }
    ensures same { S.tells shelf.new ≡ S.tells shelf.old }
    ensures kept { S.holds shelf.new ≡ S.holds shelf.old }
    ensures faults { S.faults shelf.old ≤ S.faults shelf.new }
{
    let net = net_in(alloc, shelf, timing.net)?;
    if is_powerless(&net, timing.power) {
        return Err(Stop::Refused(Refusal::NoReset));
    }
    let script = net_script_in(alloc, shelf, timing.script, &net)?;
    let delays = delays_in(alloc, shelf, timing.delays, &net)?;
    let program = reference_in(alloc, shelf, timing.against)?;
    match report_timed(alloc, net, script, delays, &program, timing) {
        Ok(output) => Ok(output),
        Err(_) => Err(Stop::NoMemory),
    }
}
