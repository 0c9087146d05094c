//! The names of the commands.
ghost use Rattle.std.specs.Prelude.{◌≡◌, MatchOption, None, map, option_map};
ghost use Rattle.command_line.specs.Lines.{BeginsWithName, command_among, command_named, named_in, texts_of};

use crate::descriptions::description;

/// A command of the program, without its options.
#[derive(Clone, Copy)]
pub(crate) enum CommandName {
    Replay,
    Init,
    Migrate,
    Audit,
    Serve,
    Normalise,
    Check,
    CanIDeploy,
}

/// The commands, in the order in which the help lists them.
pub(crate) const COMMANDS: [CommandName; 8] = [
    CommandName::Init,
    CommandName::Migrate,
    CommandName::Audit,
    CommandName::Serve,
    CommandName::CanIDeploy,
    CommandName::Normalise,
    CommandName::Check,
    CommandName::Replay,
];

/// The first of the commands that the word names.
fn named_by(word: &str, commands: &[CommandName]) -> Option<CommandName>
    ensures { option_map command_named result ≡ command_among word.now (map command_named commands.now) }
{
    for name in commands {
        if word == description(*name).name {
            return Some(*name);
        }
    }
    None
}

/// The command that the first of the words names.
pub(crate) fn named(words: &[&str]) -> Option<CommandName>
    ensures { MatchOption result (named_in (texts_of words.now) ≡ None) (BeginsWithName (texts_of words.now)) }
{
    match words.split_first() {
        Some((word, _)) => named_by(word, &COMMANDS),
        None => None,
    }
}
