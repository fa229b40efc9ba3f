//! The words of `waves`.

ghost use Rattle.std.specs.Prelude.{◌≡◌, IfSome, option_map};
ghost use Rattle.clap.specs.Words.{found_of};
ghost use Rattle.command_words.specs.BuiltForms.{texts_found};
ghost use Rattle.command_words.specs.CommandWords.{IsWithinBounds, asked, traces};
ghost use Rattle.command_words.specs.WavesWords.{waves_arguments, waves_by};

use crate::arguments::Argument;
use crate::command::Command;
use crate::run_words::{MOST_OF_STEPS, STEPS, is_set, number_or};
use clap::ArgMatches;

/// The arguments of `waves`.
pub(crate) const WAVES: &[Argument<'static>] = &[
    Argument::Word("PRS"),
    Argument::Word("SCRIPT"),
    Argument::Value("steps"),
    Argument::Value("delays"),
    Argument::Flag("causes"),
];

/// What `waves` is asked for: a timed run whose moves are reported.
#[derive(Clone, Copy)]
pub struct Waves<'a> {
    /// The name of the rule file.
    pub net: &'a str,
    /// The name of the script.
    pub script: &'a str,
    /// The most moves, at most 1,000,000.
    pub steps: u32,
    /// The name of the delay file, where there is one.
    pub delays: Option<&'a str>,
    /// Whether the causes of the last move are wanted in place of the wave.
    pub causes: bool,
}

/// What the matches of `waves` ask for, where both files are given and the number is one of moves.
pub(crate) fn waves_with<'a>(matches: &ArgMatches<'a>) -> Option<Command<'a>>
    ensures asked { option_map asked result
        ≡ option_map traces (waves_by (texts_found waves_arguments (found_of matches.now))) }
    ensures bounds { IfSome result IsWithinBounds }
{
    let Some(net) = matches.get_str("PRS") else {
        return None;
    };
    let Some(script) = matches.get_str("SCRIPT") else {
        return None;
    };
    let Some(steps) = number_or(matches.get_str("steps"), STEPS, MOST_OF_STEPS) else {
        return None;
    };
    Some(Command::Waves(Waves {
        net,
        script,
        steps: steps as u32,
        delays: matches.get_str("delays"),
        causes: is_set(matches.get_str("causes")),
    }))
}
