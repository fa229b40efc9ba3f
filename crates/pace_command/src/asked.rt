//! What the words ask for.

ghost use Rattle.std.specs.Prelude.{◌≡◌, option_map};
ghost use Rattle.pace_command.specs.Ends.{words_ask};
ghost use Rattle.pace_command.specs.Names.{pace_asked};

/// The names of the files.
#[derive(Clone, Copy)]
pub(crate) struct Asked<'a> {
    /// That of the program.
    pub(crate) file: &'a str,
    /// That of a script for it, if one is given.
    pub(crate) script: Option<&'a str>,
}

/// What the words ask for, if they are one name or two.
pub(crate) fn files_named(words: &[String]) -> Option<Asked<'_>>
    ensures { option_map pace_asked result ≡ words_ask words.entry.now }
{
    match words {
        [file] => Some(Asked {
            file: file.as_str(),
            script: None,
        }),
        [file, script] => Some(Asked {
            file: file.as_str(),
            script: Some(script.as_str()),
        }),
        _ => None,
    }
}
