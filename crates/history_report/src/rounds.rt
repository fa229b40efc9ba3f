//! The report of a program's rounds.

ghost use Rattle.std.specs.Prelude.{◌≡◌, ◌≢◌, ◌++◌, length, IfOk, OnOk};
ghost use Rattle.chp_meaning.specs.Ends.{seen, IsOf};
ghost use Rattle.chp_meaning.specs.Standing.{items_of};
ghost use Rattle.history_report.specs.Reports.{value_words, channel_line};
ghost use Rattle.history_report.specs.RoundsReports.{rounds_ending, rounds_line, passed_lines, rounds_report_of};

use crate::report::{append, done_line, value_word};
use chp_base::{Channel, Name};
use chp_meaning::{Config, RunEnd};
use itoa::Buffer;
use std::alloc::{AllocError, Global};
use width_check::Typed;

/// Appends the line that says how the rounds ended.
fn rounds_ending(end: RunEnd, to: &mut Vec<u8>) -> Result<(), AllocError>
    requires { end ≢ RunEnd.TooMany }
    ensures { OnOk result (to.new.items ≡ to.old.items ++ rounds_ending end) }
{
    match end {
        RunEnd::Rest => append(to, &[b"end rest\n"]),
        RunEnd::Spent => append(to, &[b"end spent\n"]),
        RunEnd::TooMany => unreachable!(),
    }
}

/// Appends how many rounds were asked for.
fn rounds_line(n: u32, to: &mut Vec<u8>) -> Result<(), AllocError>
    ensures { OnOk result (to.new.items ≡ to.old.items ++ rounds_line n) }
{
    let mut buffer = Buffer::new();
    let number = buffer.format(n).as_bytes();
    append(to, &[b"rounds ", number, b"\n"])
}

/// Appends the values, each after a blank.
fn words_of(values: &[u64], to: &mut Vec<u8>) -> Result<(), AllocError>
    ensures { OnOk result (to.new.items ≡ to.old.items ++ value_words values.now) }
{
    for value in values {
        value_word(*value, to)?;
    }
    Ok(())
}

/// Appends the line of the channel of this name, on which these values have passed.
pub(crate) fn passed_line(name: &Name, values: &[u64], to: &mut Vec<u8>) -> Result<(), AllocError>
    ensures { OnOk result (to.new.items ≡ to.old.items ++ channel_line name.now values.now) }
{
    append(to, &[name.bytes(), b":"])
        .and(words_of(values, to))
        .and(append(to, &[b"\n"]))
}

/// Appends a line for each channel, with its history.
fn passed_lines(
    channels: &[Channel],
    histories: &[Vec<u64>],
    to: &mut Vec<u8>,
) -> Result<(), AllocError>
    requires { length histories.now ≡ length channels.now }
    ensures { OnOk result (to.new.items ≡ to.old.items ++ passed_lines channels.now (items_of histories.now)) }
{
    for chan in 0..channels.len() {
        passed_line(&channels[chan].name, &histories[chan], to)?;
    }
    Ok(())
}

/// The report of `n` rounds of the program, which ended so in this configuration: how they ended, how many were asked
/// for, whether the program has ended, and for each channel the values that have passed on it. (The format is our
/// profile.)
pub fn rounds_text(
    alloc: Global,
    config: &Config,
    program: &Typed,
    n: u32,
    end: RunEnd,
) -> Result<Vec<u8>, AllocError>
    requires of { IsOf program.now config.now }
    requires end { end ≢ RunEnd.TooMany }
    ensures { IfOk result (λ v. v.items ≡ rounds_report_of program.now.channels n end (seen program.now config.now)) }
{
    let mut text = Vec::new(alloc);
    rounds_lines(config, program, n, end, &mut text).and(Ok(text))
}

/// Appends the lines of that report. They go on for nothing where memory has run out, so that there is one way out.
fn rounds_lines(
    config: &Config,
    program: &Typed,
    n: u32,
    end: RunEnd,
    to: &mut Vec<u8>,
) -> Result<(), AllocError>
    requires of { IsOf program.now config.now }
    requires end { end ≢ RunEnd.TooMany }
    ensures { OnOk result (to.new.items ≡ to.old.items
        ++ rounds_report_of program.now.channels n end (seen program.now config.now)) }
{
    rounds_ending(end, to)
        .and(rounds_line(n, to))
        .and(done_line(config.is_done(), to))
        .and(passed_lines(program.channels(), config.histories(), to))
}
