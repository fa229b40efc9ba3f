//! Rounds of a program within a limit of values that the case gives. The command `run` has one limit alone, and refuses
//! where a round would bring more values.

ghost use Rattle.env_script.specs.Scripts.{IsScript};
ghost use Rattle.width_check.specs.Sharing.{MeetsSharing};
ghost use Rattle.width_check.specs.View.{process_of};

use crate::parts::put_cause;
use crate::reading::accepted;
use case_text::{Page, bytes_of};
use chp_meaning::{Config, RunEnd, run_rounds, start};
use env_script::{Script, ScriptError, read_script};
use std::alloc::Global;
use width_check::Typed;

/// The most bytes of a script.
const MOST_OF_SCRIPT: usize = 2_097_152;

/// How the rounds ended, whether the program has, and what has passed on each channel.
fn put_end(page: &mut Page, program: &Typed, config: &Config, end: RunEnd) {
    page.put(match end {
        RunEnd::Rest => "rest",
        RunEnd::Spent => "spent",
        RunEnd::TooMany => "too many",
    });
    page.put(if config.is_done() {
        ", done 1\n"
    } else {
        ", done 0\n"
    });
    for (channel, history) in program.channels().iter().zip(config.histories()) {
        page.bytes(channel.name.bytes());
        page.put(":");
        page.numbers(history);
        page.put("\n");
    }
}

/// Makes `n` rounds of the program under the script, but none that would bring the values over `most`, and prints how
/// they ended and what has passed.
fn make_rounds(alloc: Global, program: &Typed, script: &Script, n: u32, most: u32, page: &mut Page)
    requires sharing { MeetsSharing (process_of program.now.body) }
    requires script { IsScript program.now.channels script.now }
{
    let Some(mut config) = page.taken(start(alloc, program, script)) else {
        return;
    };
    let made = run_rounds(alloc, &mut config, program, n, most);
    if let Some(end) = page.taken(made) {
        put_end(page, program, &config, end);
    }
}

/// The same under the script that the text is, or why it is refused.
fn make_by(alloc: Global, program: &Typed, script: &[u8], n: u32, most: u32, page: &mut Page)
    requires { MeetsSharing (process_of program.now.body) }
{
    if script.len() > MOST_OF_SCRIPT {
        return page.put("too long\n");
    }
    // brings the invariant of the program's type into scope, for its channels
    let _kept = program.body();
    match read_script(alloc, script, program.channels()) {
        Ok(script) => make_rounds(alloc, program, &script, n, most, page),
        Err(ScriptError::Refused { fault, line }) => put_cause(page, fault.number(), line),
        Err(ScriptError::NoMemory(_)) => page.give_up(),
    }
}

/// Rounds of the program that the text is, under a script of one line: the words are the most values that may pass, how
/// many rounds are wanted, and that line. Says whether the words are these.
pub fn rounds_within(alloc: Global, text: &[u8], words: &str, page: &mut Page) -> bool {
    let (most, words) = words.split_once(' ').unwrap_or((words, ""));
    let (n, script) = words.split_once(' ').unwrap_or((words, ""));
    let (Ok(most), Ok(n)) = (most.parse::<u32>(), n.parse::<u32>()) else {
        return false;
    };
    let script = bytes_of(alloc, script, page);
    match accepted(alloc, text, page) {
        Some(program) => make_by(alloc, program.typed(), &script, n, most, page),
        None => page.put("no program\n"),
    }
    true
}
