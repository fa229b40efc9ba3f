//! The arguments of a command, and how `clap` reads words by them.

ghost use Rattle.std.specs.Prelude.{◌≡◌, IfOk, IfSome, Some, false, is_some, map, true};
ghost use Rattle.clap.specs.Words.{app_of, found_of, matches_of, new_rule, rows_of, rule_of, takes};
ghost use Rattle.command_words.specs.BuiltForms.{argument_of, form_of, rule_for};
ghost use Rattle.command_words.specs.Forms.{is_form, texts_of};

use clap::error::ErrorKind;
use clap::{Arg, ArgAction, ArgMatches, Command};
use std::alloc::{AllocError, Global};

/// An argument of a command, by its name. It is given once at most.
pub(crate) enum Argument<'a> {
    /// A word, which has to be there.
    Word(&'a str),
    /// A flag.
    Flag(&'a str),
    /// An option with a value.
    Value(&'a str),
    /// An option with a value, which has to be there.
    Needed(&'a str),
}

/// What the argument is to `clap`.
fn arg_of<'a>(alloc: Global, argument: &Argument<'a>) -> Arg<'a>
    ensures rule { rule_of result ≡ rule_for (argument_of argument.now) }
    ensures local { result.global ≡ false }
{
    match argument {
        Argument::Word(name) => arg_for(alloc, name, true, ArgAction::Set),
        Argument::Flag(name) => called_arg(alloc, name, false, ArgAction::SetTrue),
        Argument::Value(name) => called_arg(alloc, name, false, ArgAction::Set),
        Argument::Needed(name) => called_arg(alloc, name, true, ArgAction::Set),
    }
}

/// What an argument that is called by its name is to `clap`.
fn called_arg<'a>(alloc: Global, name: &'a str, needed: bool, action: ArgAction) -> Arg<'a>
    ensures rule { rule_of result
        ≡ record (new_rule name.entry.now) { long = Some name.entry.now; action = Some action; required = needed } }
    ensures local { result.global ≡ false }
{
    arg_for(alloc, name, needed, action).long(name)
}

/// What an argument of this name with this action is to `clap` before it is called by its name.
fn arg_for<'a>(alloc: Global, name: &'a str, needed: bool, action: ArgAction) -> Arg<'a>
    ensures rule { rule_of result
        ≡ record (new_rule name.entry.now) { action = Some action; required = needed } }
    ensures local { result.global ≡ false }
{
    Arg::new(alloc, name).required(needed).action(action)
}

/// The form of a command of this name with these arguments, and no flag for help.
pub(crate) fn form_of<'a>(
    alloc: Global,
    name: &'a str,
    arguments: &[Argument<'a>],
) -> Result<Command<'a>, AllocError>
    ensures { IfOk result (λ form. app_of form ≡ form_of name.entry.now (map argument_of arguments.now)) }
{
    let mut form = Command::new(alloc, name)
        .no_binary_name(true)
        .disable_help_flag(true);
    for argument in arguments {
        form = form.arg(arg_of(alloc, argument))?;
    }
    Ok(form)
}

/// What the words give each argument of the form, or `None` where the form doesn't take them, for whatever cause. It
/// serves every form without commands below it.
pub(crate) fn matches_in<'a>(
    form: Command<'a>,
    words: &'a [String],
) -> Result<Option<ArgMatches<'a>>, AllocError>
    requires { is_form (app_of form) ≡ true }
    ensures taken { IfOk result (λ found.
        is_some found ≡ takes (app_of form.entry) (texts_of words.entry.now)) }
    ensures matches { IfOk result (λ found. IfSome found (λ m.
        rows_of (found_of m) ≡ matches_of (app_of form.entry) (texts_of words.entry.now))) }
{
    match form.try_get_matches_from(words) {
        Ok(matches) => Ok(Some(matches)),
        Err(error) if error.kind() == ErrorKind::OutOfMemory => Err(AllocError),
        Err(_) => Ok(None),
    }
}
