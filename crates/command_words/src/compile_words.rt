//! The words of `compile`.

ghost use Rattle.std.specs.Prelude.{◌≡◌, IfSome, option_map};
ghost use Rattle.clap.specs.Words.{found_of};
ghost use Rattle.command_words.specs.BuiltForms.{texts_found};
ghost use Rattle.command_words.specs.CommandWords.{IsWithinBounds, asked, compiles};
ghost use Rattle.command_words.specs.CompileWords.{compile_arguments, compile_by};

use crate::arguments::Argument;
use crate::command::Command;
use crate::run_words::is_set;
use clap::ArgMatches;

/// The arguments of `compile`.
pub(crate) const COMPILE: &[Argument<'static>] = &[
    Argument::Word("FILE"),
    Argument::Flag("reset"),
    Argument::Value("buffer"),
];

/// What `compile` is asked for.
#[derive(Clone, Copy)]
pub struct Compilation<'a> {
    /// The name of the file with the program text.
    pub file: &'a str,
    /// Whether the net is to have a reset node.
    pub reset: bool,
    /// The name of the channel that is to get a buffer, which may be any text.
    pub buffer: Option<&'a str>,
}

/// What the matches of `compile` ask for.
pub(crate) fn compile_with<'a>(matches: &ArgMatches<'a>) -> Option<Command<'a>>
    ensures asked { option_map asked result
        ≡ option_map compiles (compile_by (texts_found compile_arguments (found_of matches.now))) }
    ensures bounds { IfSome result IsWithinBounds }
{
    let Some(file) = matches.get_str("FILE") else {
        return None;
    };
    Some(Command::Compile(Compilation {
        file,
        reset: is_set(matches.get_str("reset")),
        buffer: matches.get_str("buffer"),
    }))
}
