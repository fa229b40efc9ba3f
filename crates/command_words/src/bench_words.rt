//! The words of `bench`.

ghost use Rattle.std.specs.Prelude.{◌≡◌, IfSome, option_map};
ghost use Rattle.clap.specs.Words.{found_of};
ghost use Rattle.command_words.specs.BenchWords.{bench_arguments, bench_by};
ghost use Rattle.command_words.specs.BuiltForms.{texts_found};
ghost use Rattle.command_words.specs.CommandWords.{IsWithinBounds, asked, benches};

use crate::arguments::Argument;
use crate::command::Command;
use crate::run_words::{MOST_OF_STEPS, STEPS, number_or, order_or_lowest};
use clap::ArgMatches;

/// The arguments of `bench`.
pub(crate) const BENCH: &[Argument<'static>] = &[
    Argument::Word("PRS"),
    Argument::Needed("peer"),
    Argument::Value("order"),
    Argument::Value("seed"),
    Argument::Value("steps"),
];

/// What a run on a bench is asked for.
#[derive(Clone, Copy)]
pub struct Benching<'a> {
    /// The name of the rule file.
    pub net: &'a str,
    /// The name of the device against which the net is run.
    pub peer: &'a str,
    /// The name of the order that chooses the moves.
    pub order: &'a str,
    /// What the order begins with.
    pub seed: u64,
    /// The most moves, at most 1,000,000.
    pub steps: u32,
}

/// What the matches of `bench` ask for, where the file and the device are named and each number is one of its kind.
pub(crate) fn bench_with<'a>(matches: &ArgMatches<'a>) -> Option<Command<'a>>
    ensures asked { option_map asked result
        ≡ option_map benches (bench_by (texts_found bench_arguments (found_of matches.now))) }
    ensures bounds { IfSome result IsWithinBounds }
{
    let Some(net) = matches.get_str("PRS") else {
        return None;
    };
    let Some(peer) = matches.get_str("peer") else {
        return None;
    };
    let Some(seed) = number_or(matches.get_str("seed"), 0, u64::MAX) else {
        return None;
    };
    let Some(steps) = number_or(matches.get_str("steps"), STEPS, MOST_OF_STEPS) else {
        return None;
    };
    Some(Command::Bench(Benching {
        net,
        peer,
        order: order_or_lowest(matches.get_str("order")),
        seed,
        steps: steps as u32,
    }))
}
