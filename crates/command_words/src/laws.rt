//! Laws of the words of commands.

ghost use Rattle.std.specs.Prelude.{◌≡◌, ◌∷◌, List, Option, Some};
ghost use Rattle.std.specs.declared.alloc.Global.{Global};
ghost use Rattle.std.specs.declared.string.String.{String};
ghost use Rattle.clap.specs.Walk.{Text};
ghost use Rattle.command_words.specs.CommandWords.{arguments_of, asks_by, command_of, plain_command, verb_of};
ghost use Rattle.command_words.specs.declared.command.Verb.{Verb as VerbValue};
ghost use Rattle.command_words.specs.Forms.{texts_of};
ghost use Rattle.command_words.specs.WrittenForms.{AreTexts, written_words};

/// What words ask for, as `clap` takes them, is what they ask for in plain words.
pub fn words_ask_plainly()
    ensures { (words : List (String Global)) → command_of (texts_of words) ≡ plain_command (texts_of words) }
{}

/// The words of a command that are written in the order of its arguments ask for just what their texts do.
pub fn written_words_ask()
    ensures { (word : Text) (v : VerbValue) (texts : List (Option Text)) → verb_of word ≡ Some v →
        AreTexts (arguments_of v) texts →
        plain_command (word ∷ written_words (arguments_of v) texts) ≡ asks_by v texts }
{}
