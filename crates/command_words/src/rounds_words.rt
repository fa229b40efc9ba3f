//! The words of `run`.

ghost use Rattle.std.specs.Prelude.{◌≡◌, IfSome, option_map};
ghost use Rattle.clap.specs.Words.{found_of};
ghost use Rattle.command_words.specs.BuiltForms.{texts_found};
ghost use Rattle.command_words.specs.CommandWords.{IsWithinBounds, asked, runs};
ghost use Rattle.command_words.specs.RoundsWords.{rounds_by, run_arguments};

use crate::arguments::Argument;
use crate::command::Command;
use crate::run_words::number_or;
use clap::ArgMatches;

/// The arguments of `run`.
pub(crate) const RUN: &[Argument<'static>] = &[
    Argument::Word("FILE"),
    Argument::Word("SCRIPT"),
    Argument::Value("rounds"),
    Argument::Value("buffer"),
];

/// How many rounds are made where no number is given.
const ROUNDS: u64 = 1000;

/// The most rounds that may be asked for.
const MOST_OF_ROUNDS: u64 = 1_000_000;

/// What a run of rounds is asked for.
#[derive(Clone, Copy)]
pub struct Rounds<'a> {
    /// The name of the file with the program text.
    pub file: &'a str,
    /// The name of the script.
    pub script: &'a str,
    /// How many rounds, at most 1,000,000.
    pub rounds: u32,
    /// The name of the channel that is to get a buffer, which may be any text.
    pub buffer: Option<&'a str>,
}

/// What the matches of `run` ask for, where both files are given and the number is one of rounds.
pub(crate) fn run_with<'a>(matches: &ArgMatches<'a>) -> Option<Command<'a>>
    ensures asked { option_map asked result
        ≡ option_map runs (rounds_by (texts_found run_arguments (found_of matches.now))) }
    ensures bounds { IfSome result IsWithinBounds }
{
    let Some(file) = matches.get_str("FILE") else {
        return None;
    };
    let Some(script) = matches.get_str("SCRIPT") else {
        return None;
    };
    let Some(rounds) = number_or(matches.get_str("rounds"), ROUNDS, MOST_OF_ROUNDS) else {
        return None;
    };
    Some(Command::Run(Rounds {
        file,
        script,
        rounds: rounds as u32,
        buffer: matches.get_str("buffer"),
    }))
}
