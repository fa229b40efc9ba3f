//! The words of `grow`.

ghost use Rattle.std.specs.Prelude.{◌≡◌, IfSome, option_map};
ghost use Rattle.clap.specs.Words.{found_of};
ghost use Rattle.command_words.specs.BuiltForms.{texts_found};
ghost use Rattle.command_words.specs.CommandWords.{IsWithinBounds, asked, grows};
ghost use Rattle.command_words.specs.GrowWords.{IsGrowable, grow_arguments, grow_by, growth_in};

use crate::arguments::Argument;
use crate::command::Command;
use crate::run_words::{is_set, number_up_to};
use clap::ArgMatches;

/// The arguments of `grow`.
pub(crate) const GROW: &[Argument<'static>] = &[
    Argument::Word("SEED"),
    Argument::Word("STAGES"),
    Argument::Flag("sum"),
];

/// The most stages of a generated program.
const MOST_OF_STAGES: u64 = 400;

/// What `grow` is asked for.
#[derive(Clone, Copy)]
pub struct Growth {
    pub seed: u64,
    /// The number of stages, from 1 to 400.
    pub stages: u32,
    /// Whether its summary is wanted in place of its text.
    pub sum: bool,
}

/// What the matches of `grow` ask for.
pub(crate) fn grow_with<'a>(matches: &ArgMatches<'a>) -> Option<Command<'a>>
    ensures asked { option_map asked result
        ≡ option_map grows (grow_by (texts_found grow_arguments (found_of matches.now))) }
    ensures bounds { IfSome result IsWithinBounds }
{
    let Some(seed) = matches.get_str("SEED") else {
        return None;
    };
    let Some(stages) = matches.get_str("STAGES") else {
        return None;
    };
    match growth_in(seed, stages, is_set(matches.get_str("sum"))) {
        Some(growth) => Some(Command::Grow(growth)),
        None => None,
    }
}

/// What is asked for by the words of both numbers.
fn growth_in(seed: &str, stages: &str, sum: bool) -> Option<Growth>
    ensures value { result ≡ growth_in seed.now stages.now sum }
    ensures bounds { IfSome result IsGrowable }
{
    match (
        number_up_to(seed, u64::MAX),
        number_up_to(stages, MOST_OF_STAGES),
    ) {
        (Some(seed), Some(stages)) if stages != 0 => Some(Growth {
            seed,
            stages: stages as u32,
            sum,
        }),
        _ => None,
    }
}
