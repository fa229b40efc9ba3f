//! `waves PRS SCRIPT`: the moves of one timed run of a net under a script, as a wave or as the causes of the last one.

ghost use Rattle.std.specs.Prelude.{◌≡◌, ◌≤◌, ◌<◌, ◌∷◌, length, All, IfOk, IfErr, option_to_list};
ghost use Rattle.delay_script.specs.declared.noted.NotedMove.{NotedMove};
ghost use Rattle.delay_script.specs.DelayTables.{IsDelayTable};
ghost use Rattle.delay_script.specs.TimedRuns.{time_behind};
ghost use Rattle.env_script.specs.Environment.{net_channels};
ghost use Rattle.env_script.specs.Scripts.{IsScript};
ghost use Rattle.event_sim.specs.Following.{power_of};
ghost use Rattle.prs_core.specs.Nets.{IsNet};
ghost use Rattle.wave_file.specs.CauseChains.{AreCaused, values_given};
ghost use Rattle.wave_file.specs.RunWaves.{wave_of_run};
ghost use Rattle.wave_file.specs.WaveReading.{IsWaveText};
ghost use Rattle.wave_file.specs.Waves.{IsKeptWave, IsWave};
ghost use Rattle.command_answers.specs.Answers.{given_by};
ghost use Rattle.command_words.specs.CommandWords.{waves_asked};
ghost use Rattle.command_answers.specs.Replies.{Stops, told_answer};
ghost use Rattle.command_words.specs.SimulateWords.{text_given};
ghost use Rattle.simulation_commands.specs.Tracing.{IsTraceText, Traces, TracesNet, trace_for};

use chp_edge::Shelf;
use command_answers::{Output, Stop};
use command_steps::{delays_if, net_in, net_script_in};
use command_words::Waves;
use delay_script::{Delays, Noted, NotedRan};
use env_script::Script;
use prs_core::Net;
use run_reports::ending_for;
use std::alloc::{AllocError, Global};
use wave_file::laws::timed_runs_are_waves;
use wave_file::{causes_text, run_wave, write_wave};

/// The wave of the run.
fn wave_text(alloc: Global, ran: &NotedRan, high: bool) -> Result<Vec<u8>, AllocError>
    requires wave { IsWave (wave_of_run ran.now.timed.ran.net high ran.now.moves.items) }
    requires kept { IsKeptWave (wave_of_run ran.now.timed.ran.net high ran.now.moves.items) }
    ensures { IfOk result (λ text.
        IsWaveText text.items (wave_of_run ran.now.timed.ran.net high ran.now.moves.items)) }
{
    let wave = run_wave(alloc, ran, high)?;
    write_wave(alloc, &wave)
}

/// What is reported of the moves of the run: the causes of the last one, or all of them.
fn trace_text(
    alloc: Global,
    ran: &NotedRan,
    high: bool,
    delays: &Delays,
    causes: bool,
) -> Result<Vec<u8>, AllocError>
    requires wave { IsWave (wave_of_run ran.now.timed.ran.net high ran.now.moves.items) }
    requires kept { IsKeptWave (wave_of_run ran.now.timed.ran.net high ran.now.moves.items) }
    requires delays { IsDelayTable (length ran.now.timed.ran.net.first) delays.now }
    requires nodes { All (λ (m : NotedMove). m.node < length ran.now.timed.ran.net.first) ran.now.moves.items }
    requires caused { AreCaused delays.now
        (values_given (power_of ran.now.timed.ran.net high) ran.now.moves.items) ran.now.moves.items }
    requires time { ran.now.timed.time ≡ time_behind ran.now.moves.items (length ran.now.moves.items) }
    ensures { IfOk result (λ text.
        IsTraceText ran.now.timed.ran.net high delays.now ran.now.moves.items causes text.items) }
{
    if causes {
        causes_text(alloc, ran.timed.ran.net(), high, ran, delays)
    } else {
        wave_text(alloc, ran, high)
    }
}

/// Makes the timed run of the net under the script by these delays, and reports its moves.
fn trace(
    alloc: Global,
    net: Net,
    script: Script,
    delays: Delays,
    asked: &Waves,
) -> Result<Output, AllocError>
    requires script { IsScript (net_channels net) script }
    requires delays { IsDelayTable (length net.first) delays }
    requires steps { asked.now.steps ≤ 1000000 }
    requires net { IsNet net }
    ensures { IfOk result (λ output.
        TracesNet (trace_for (waves_asked asked.now) net script delays) asked.now.causes (told_answer output)) }
{
    timed_runs_are_waves();
    let kept = delays.copy()?;
    let ran = Noted::new(alloc, net, script, asked.steps, delays)?.run();
    let text = trace_text(alloc, &ran, false, &kept, asked.causes)?;
    Ok(Output {
        text,
        end: ending_for(ran.timed.ran.end()),
    })
}

/// What `waves` answers.
pub fn waves<'a, S: Shelf>(
    alloc: Global,
    shelf: &mut S,
    asked: &Waves<'a>,
) -> Result<Output, Stop<'a>>
    requires { asked.now.steps ≤ 1000000 }
    ensures answered { IfOk result (λ output. Traces (waves_asked asked.now)
        (given_by (S.tells shelf.old) (S.holds shelf.old)) (told_answer output)) }
    ensures stopped { IfErr result (Stops (Traces (waves_asked asked.now)
        (given_by (S.tells shelf.old) (S.holds shelf.old)))
        (asked.now.net.now ∷ asked.now.script.now ∷ option_to_list (text_given asked.now.delays))
        (given_by (S.tells shelf.old) (S.holds shelf.old)) (S.faults shelf.old) (S.faults shelf.new)) }
    ensures same { S.tells shelf.new ≡ S.tells shelf.old }
    ensures kept { S.holds shelf.new ≡ S.holds shelf.old }
    ensures faults { S.faults shelf.old ≤ S.faults shelf.new }
{
    let net = net_in(alloc, shelf, asked.net)?;
    let script = net_script_in(alloc, shelf, asked.script, &net)?;
    let delays = delays_if(alloc, shelf, asked.delays, &net)?;
    match trace(alloc, net, script, delays, asked) {
        Ok(output) => Ok(output),
        Err(_) => Err(Stop::NoMemory),
    }
}
