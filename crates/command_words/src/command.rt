//! The words of a command.

ghost use Rattle.std.specs.Prelude.{◌≡◌, IfOk, IfSome, map, option_map};
ghost use Rattle.clap.specs.Words.{found_of};
ghost use Rattle.command_words.specs.BuiltForms.{argument_of, texts_found};
ghost use Rattle.command_words.specs.CommandWords.{IsWithinBounds, arguments_of, asked, asked_of, asks_by, command_of, file_arguments, file_by, plain_command, plain_with, verb_of};
ghost use Rattle.command_words.specs.Forms.{texts_of};
ghost use Rattle.command_words.specs.PlainForms.{plain_words};

use crate::arguments::{Argument, form_of, matches_in};
use crate::bench_words::{BENCH, Benching, bench_with};
use crate::compile_words::{COMPILE, Compilation, compile_with};
use crate::grow_words::{GROW, Growth, grow_with};
use crate::laws::words_ask_plainly;
use crate::rounds_words::{RUN, Rounds, run_with};
use crate::run_words::{SIMULATE, simulate_with};
use crate::simulation::{Simulation, Timing};
use crate::waves_words::{WAVES, Waves, waves_with};
use clap::ArgMatches;
use std::alloc::{AllocError, Global};

/// The arguments of a command with one file and nothing besides.
const ONE_FILE: &[Argument<'static>] = &[Argument::Word("FILE")];

/// What the words ask for. The commands are this project's own.
#[derive(Clone, Copy)]
pub enum Command<'a> {
    /// `compile FILE [--reset] [--buffer X]`: write the rule file of the program text in this file, with a reset node
    /// and with a buffer on a channel where these are asked for.
    Compile(Compilation<'a>),
    /// `migrate FILE`: write the rule file of this name as one of version 2.
    Migrate { net: &'a str },
    /// `check FILE`: write that the program text in this file is accepted.
    Check { file: &'a str },
    /// `expand FILE`: write the tree of parts of the program text in this file.
    Expand { file: &'a str },
    /// `simulate PRS SCRIPT`: make one run of a net under a script, and write its report.
    Simulate(Simulation<'a>),
    /// `simulate PRS SCRIPT --delays FILE`: make one timed run of a net under a script, and write its report.
    Time(Timing<'a>),
    /// `bench PRS --peer NAME`: make one run of a net against a device, and write its report.
    Bench(Benching<'a>),
    /// `waves PRS SCRIPT`: make one timed run of a net under a script, and write its moves as a wave, or the causes of
    /// the last one.
    Waves(Waves<'a>),
    /// `unwave FILE`: write the changes of the wave in this file.
    Unwave { file: &'a str },
    /// `run FILE SCRIPT`: report rounds of the program text in this file under this script.
    Run(Rounds<'a>),
    /// `grow SEED STAGES [--sum]`: write the text of the program that is generated from these numbers, or its summary.
    Grow(Growth),
}

/// The first word of a command.
#[derive(Clone, Copy)]
enum Verb {
    Compile,
    Migrate,
    Check,
    Expand,
    Simulate,
    Bench,
    Waves,
    Unwave,
    Run,
    Grow,
}

/// The first word of a command with one file and nothing besides.
#[derive(Clone, Copy)]
enum FileVerb {
    Migrate,
    Check,
    Expand,
    Unwave,
}

/// The command that the words ask for, or `None` where they aren't a command's form. The words are those after the
/// program's name.
///
/// The first word names the command. The words after it are read by `clap`, by the form of that command: one file and,
/// for `compile`, the flag `--reset` and the option `--buffer` with a value, each at most once, before the file or
/// after it; for `simulate` and `run` two files and such options, for `waves` the flag `--causes` besides; and for
/// `bench` one file and such options, of which `--peer` has to be there.
/// A file is one word, which may be empty or `-`.
/// Any other word that begins with a hyphen and has more is taken for a flag and refused, a call for help too, but
/// after `--` any word is allowed; `--` may also end the words.
///
/// `Err` means out of memory; the contract leaves open when that comes.
pub fn command_in<'a>(alloc: Global, words: &'a [String]) -> Result<Option<Command<'a>>, AllocError>
    ensures form { IfOk result (λ found.
        option_map asked found ≡ command_of (texts_of words.now)) }
    ensures plain { IfOk result (λ found.
        option_map asked found ≡ plain_command (texts_of words.now)) }
    ensures bounds { IfOk result (λ found. IfSome found IsWithinBounds) }
{
    words_ask_plainly();
    let [first, rest @ ..] = words else {
        return Ok(None);
    };
    match verb_in(first.as_str()) {
        Some(verb) => command_with(alloc, verb, first.as_str(), rest),
        None => Ok(None),
    }
}

/// What the words after the one that names this command ask for.
fn command_with<'a>(
    alloc: Global,
    verb: Verb,
    word: &'a str,
    rest: &'a [String],
) -> Result<Option<Command<'a>>, AllocError>
    ensures plain { IfOk result (λ found.
        option_map asked found ≡ plain_with verb (texts_of rest.entry.now)) }
    ensures bounds { IfOk result (λ found. IfSome found IsWithinBounds) }
{
    match matches_with(alloc, verb, word, rest) {
        Ok(Some(matches)) => Ok(asked_with(verb, &matches)),
        Ok(None) => Ok(None),
        Err(error) => Err(error),
    }
}

/// What the words give each argument of this command, where they are its form.
fn matches_with<'a>(
    alloc: Global,
    verb: Verb,
    word: &'a str,
    rest: &'a [String],
) -> Result<Option<ArgMatches<'a>>, AllocError>
    ensures { IfOk result (λ found. option_map (λ m. texts_found (arguments_of verb) (found_of m)) found
        ≡ plain_words (arguments_of verb) (texts_of rest.entry.now)) }
{
    let form = form_of(alloc, word, arguments_of(verb))?;
    matches_in(form, rest)
}

/// The arguments of this command.
fn arguments_of(verb: Verb) -> &'static [Argument<'static>]
    ensures { map argument_of result.now ≡ arguments_of verb }
{
    match verb {
        Verb::Compile => COMPILE,
        Verb::Migrate | Verb::Check | Verb::Expand | Verb::Unwave => ONE_FILE,
        Verb::Simulate => SIMULATE,
        Verb::Bench => BENCH,
        Verb::Waves => WAVES,
        Verb::Run => RUN,
        Verb::Grow => GROW,
    }
}

/// What the matches of this command's form ask for.
fn asked_with<'a>(verb: Verb, matches: &ArgMatches<'a>) -> Option<Command<'a>>
    ensures asked { option_map asked result ≡ asks_by verb (texts_found (arguments_of verb) (found_of matches.now)) }
    ensures bounds { IfSome result IsWithinBounds }
{
    match verb {
        Verb::Compile => compile_with(matches),
        Verb::Migrate => file_with(FileVerb::Migrate, matches),
        Verb::Check => file_with(FileVerb::Check, matches),
        Verb::Expand => file_with(FileVerb::Expand, matches),
        Verb::Simulate => simulate_with(matches),
        Verb::Bench => bench_with(matches),
        Verb::Waves => waves_with(matches),
        Verb::Unwave => file_with(FileVerb::Unwave, matches),
        Verb::Run => run_with(matches),
        Verb::Grow => grow_with(matches),
    }
}

/// The command that the first word names.
fn verb_in(word: &str) -> Option<Verb>
    ensures { result ≡ verb_of word.now }
{
    match word {
        "compile" => Some(Verb::Compile),
        "migrate" => Some(Verb::Migrate),
        "check" => Some(Verb::Check),
        "expand" => Some(Verb::Expand),
        "simulate" => Some(Verb::Simulate),
        "bench" => Some(Verb::Bench),
        "waves" => Some(Verb::Waves),
        "unwave" => Some(Verb::Unwave),
        "run" => Some(Verb::Run),
        "grow" => Some(Verb::Grow),
        _ => None,
    }
}

/// What the matches of a command with one file ask for.
fn file_with<'a>(verb: FileVerb, matches: &ArgMatches<'a>) -> Option<Command<'a>>
    ensures asked { option_map asked result
        ≡ option_map (asked_of verb) (file_by (texts_found file_arguments (found_of matches.now))) }
    ensures bounds { IfSome result IsWithinBounds }
{
    match matches.get_str("FILE") {
        Some(file) => Some(command_on(verb, file)),
        None => None,
    }
}

/// This command on this file.
fn command_on<'a>(verb: FileVerb, file: &'a str) -> Command<'a>
    ensures asked { asked result ≡ asked_of verb file.entry.now }
    ensures bounds { IsWithinBounds result }
{
    match verb {
        FileVerb::Migrate => Command::Migrate { net: file },
        FileVerb::Check => Command::Check { file },
        FileVerb::Expand => Command::Expand { file },
        FileVerb::Unwave => Command::Unwave { file },
    }
}
