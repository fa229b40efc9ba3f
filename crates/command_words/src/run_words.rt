//! The words of `simulate`.

ghost use Rattle.std.specs.Prelude.{◌≡◌, ◌≤◌, ◌^◌, IfNone, IfSome, option_map, true};
ghost use Rattle.std.specs.List.{list_all};
ghost use Rattle.chp_base.specs.Names.{digit};
ghost use Rattle.clap.specs.Words.{found_of};
ghost use Rattle.env_script.specs.Numbers.{digit_of_word, number_of_word};
ghost use Rattle.command_words.specs.BuiltForms.{texts_found};
ghost use Rattle.command_words.specs.CommandWords.{IsWithinBounds, asked, simulate_asked, simulates, times};
ghost use Rattle.command_words.specs.SimulateWords.{number_or, number_up_to, order_or, power_of_words, run_with, simulate_arguments, simulate_by, simulation_with, timing_with};
ghost use Rattle.command_words.specs.Words.{is_set};

use crate::arguments::Argument;
use crate::command::Command;
use crate::simulation::{Simulation, Timing};
use clap::ArgMatches;

/// The arguments of `simulate`.
pub(crate) const SIMULATE: &[Argument<'static>] = &[
    Argument::Word("PRS"),
    Argument::Word("SCRIPT"),
    Argument::Value("order"),
    Argument::Value("seed"),
    Argument::Value("steps"),
    Argument::Value("power"),
    Argument::Value("against"),
    Argument::Value("delays"),
];

/// The most digits of a number.
const MOST_OF_DIGITS: usize = 20;

/// The base of decimal numbers.
const BASE: u64 = 10;

/// The most moves that may be asked for.
pub(crate) const MOST_OF_STEPS: u64 = 1_000_000;

/// The most moves, where no number is given.
pub(crate) const STEPS: u64 = 100_000;

/// What the matches of `simulate` ask for. With delays there is no order and no seed.
pub(crate) fn simulate_with<'a>(matches: &ArgMatches<'a>) -> Option<Command<'a>>
    ensures asked { option_map asked result
        ≡ option_map simulate_asked (simulate_by (texts_found simulate_arguments (found_of matches.now))) }
    ensures bounds { IfSome result IsWithinBounds }
{
    Texts::of(matches).asked()
}

/// The texts that the words give, each if it is given.
#[derive(Clone, Copy)]
struct Texts<'a> {
    net: Option<&'a str>,
    script: Option<&'a str>,
    order: Option<&'a str>,
    seed: Option<&'a str>,
    steps: Option<&'a str>,
    power: Option<&'a str>,
    against: Option<&'a str>,
    delays: Option<&'a str>,
}

impl<'a> Texts<'a> {
    ghost use Rattle.command_words.specs.SimulateWords.{texts_given};

    fn of(matches: &ArgMatches<'a>) -> Texts<'a>
        ensures { simulation_with (texts_given result)
            ≡ simulate_by (texts_found simulate_arguments (found_of matches.now)) }
    {
        Texts {
            net: matches.get_str("PRS"),
            script: matches.get_str("SCRIPT"),
            order: matches.get_str("order"),
            seed: matches.get_str("seed"),
            steps: matches.get_str("steps"),
            power: matches.get_str("power"),
            against: matches.get_str("against"),
            delays: matches.get_str("delays"),
        }
    }

    /// What they ask for.
    fn asked(self) -> Option<Command<'a>>
        ensures asked { option_map asked result
            ≡ option_map simulate_asked (simulation_with (texts_given self.entry)) }
        ensures bounds { IfSome result IsWithinBounds }
    {
        match self.delays {
            None => self.simulation(),
            Some(delays) => self.timing(delays),
        }
    }

    /// What they ask for with these delays, where both other files are given, each option has a value of its kind, and
    /// no order and no seed is given.
    fn timing(self, delays: &'a str) -> Option<Command<'a>>
        ensures asked { option_map asked result
            ≡ option_map times (timing_with (texts_given self.entry) delays.entry.now) }
        ensures bounds { IfSome result IsWithinBounds }
    {
        let steps = number_or(self.steps, STEPS, MOST_OF_STEPS);
        match (
            self.order,
            self.seed,
            self.net,
            self.script,
            steps,
            power_of(self.power),
        ) {
            (None, None, Some(net), Some(script), Some(steps), Some(power)) => Some(Command::Time(
                Timing {
                    net,
                    script,
                    delays,
                    steps: steps as u32,
                    power,
                    against: self.against,
                },
            )),
            _ => None,
        }
    }

    /// What they ask for where no delays are given, if both files are given and each option has a value of its kind.
    fn simulation(self) -> Option<Command<'a>>
        ensures asked { option_map asked result ≡ option_map simulates (run_with (texts_given self.entry)) }
        ensures bounds { IfSome result IsWithinBounds }
    {
        // A `?` is two calls more in the proof, so this and the other commands end by `else` instead.
        let Some(net) = self.net else {
            return None;
        };
        let Some(script) = self.script else {
            return None;
        };
        let Some(seed) = number_or(self.seed, 0, u64::MAX) else {
            return None;
        };
        let Some(steps) = number_or(self.steps, STEPS, MOST_OF_STEPS) else {
            return None;
        };
        let Some(power) = power_of(self.power) else {
            return None;
        };
        Some(Command::Simulate(Simulation {
            net,
            script,
            order: order_or_lowest(self.order),
            seed,
            steps: steps as u32,
            power,
            against: self.against,
        }))
    }
}

/// Whether the text that `clap` keeps for a flag says that it was given.
pub(crate) fn is_set(text: Option<&str>) -> bool
    ensures { result ≡ is_set (option_map (λ t. t.now) text.entry) }
{
    match text {
        Some(text) => text == "true",
        None => false,
    }
}

/// The name of the order, or of the default order where none is given.
pub(crate) fn order_or_lowest<'a>(text: Option<&'a str>) -> &'a str
    ensures { result.now ≡ order_or (option_map (λ t. t.now) text.entry) }
{
    match text {
        Some(text) => text,
        None => "lowest",
    }
}

/// The power: none where no text is given, and `None` where the text is neither `low` nor `high`.
fn power_of(text: Option<&str>) -> Option<Option<bool>>
    ensures { result ≡ power_of_words (option_map (λ t. t.now) text.entry) }
{
    match text {
        None => Some(None),
        Some("low") => Some(Some(false)),
        Some("high") => Some(Some(true)),
        Some(_) => None,
    }
}

/// The text's number, where it is at most so much; the default where no text is given.
pub(crate) fn number_or(text: Option<&str>, otherwise: u64, most: u64) -> Option<u64>
    requires { otherwise ≤ most }
    ensures number { result ≡ number_or otherwise most (option_map (λ t. t.now) text.entry) }
    ensures within { IfSome result (λ n. n ≤ most) }
{
    match text {
        None => Some(otherwise),
        Some(text) => number_up_to(text, most),
    }
}

/// The text's number, where it is at most so much and has 1 to 20 decimal digits.
pub(crate) fn number_up_to(text: &str, most: u64) -> Option<u64>
    ensures number { result ≡ number_up_to most text.now }
    ensures within { IfSome result (λ n. n ≤ most) }
{
    let digits = text.as_bytes();
    if digits.is_empty() || digits.len() > MOST_OF_DIGITS || !are_digits(digits) {
        return None;
    }
    match value_of(digits) {
        Some(value) if value <= most => Some(value),
        _ => None,
    }
}

fn are_digits(text: &[u8]) -> bool
    ensures { result ≡ list_all digit text.now }
{
    text.iter().all(|byte| is_digit(*byte))
}

fn is_digit(byte: u8) -> bool
    ensures { result ≡ digit byte }
{
    byte.is_ascii_digit()
}

/// The value of a digit.
fn value_of_digit(byte: u8) -> u8
    requires { digit byte ≡ true }
    ensures { result ≡ digit_of_word byte }
{
    byte - b'0'
}

/// The value of decimal digits, the highest first, or None where that is above 2^64 - 1.
fn value_of(digits: &[u8]) -> Option<u64>
    requires { list_all digit digits.now ≡ true }
    ensures some { IfSome result (λ n. n ≡ number_of_word 10 digits.now) }
    ensures none { IfNone result (2 ^ 64 ≤ number_of_word 10 digits.now) }
{
    let mut value: u64 = 0;
    for digit in digits {
        let shifted = BASE.checked_mul(value)?;
        value = shifted.checked_add(u64::from(value_of_digit(*digit)))?;
    }
    Some(value)
}
