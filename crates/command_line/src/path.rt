//! The path of a broker's file, as the command line names it.
ghost use Rattle.std.specs.Prelude.{◌≡◌, codes, option_map};
ghost use Rattle.clap.specs.Words.{first_of, found_of, rows_of};
ghost use Rattle.command_line.specs.Lines.{path_of};

use crate::options::text_of;
use clap::ArgMatches;

/// The path of a broker's file: the value of a command's option `--file`. Only the words of a command line make one, so
/// that no other of their texts can be opened in its place.
#[derive(Clone, Copy)]
pub struct FilePath<'a> {
    text: &'a str,
}

impl<'a> FilePath<'a> {
    /// The path as text.
    pub fn as_str(self) -> &'a str
        ensures { result.now ≡ path_of self.entry }
    {
        self.text
    }
}

/// The path that the option `--file` has.
pub(crate) fn file_of<'a>(matches: &ArgMatches<'a>) -> Option<FilePath<'a>>
    ensures { option_map path_of result ≡ first_of (codes "file") (rows_of (found_of matches.now)) }
{
    match text_of(matches, "file") {
        Some(text) => Some(FilePath { text }),
        None => None,
    }
}
