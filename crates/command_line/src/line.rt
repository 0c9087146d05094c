//! Reading the words of the command line.
ghost use Rattle.std.specs.Prelude.{◌≡◌, IfErr, IfOk, true};
ghost use Rattle.clap.specs.Words.{HasKind, fault_of, kind_of};
ghost use Rattle.command_line.specs.Lines.{HasOptions, Says, command_named, command_of, is_line, is_taken, mistakes};
ghost use Rattle.command_line.specs.Lines.{texts_of, unnamed_mistakes};

use crate::commands::{command_named, program};
use crate::names::{CommandName, named};
use crate::options::line_in;
use crate::path::FilePath;
use clap::Error;
use clap::error::ErrorKind;
use std::alloc::{AllocError, Global};

/// A command of the program, with the values of its options.
#[derive(Clone, Copy)]
pub enum Line<'a> {
    /// Serves the requests on standard input over tables in memory, and writes the answers to standard output.
    Replay {
        /// The token of the office of the new broker.
        office_token: &'a str,
    },
    /// Makes the file of a new broker.
    Init {
        /// The file's path.
        file: FilePath<'a>,
        /// The token of the office of the new broker.
        office_token: &'a str,
    },
    /// Makes today's database of a broker's file of format 1.
    Migrate {
        /// The file's path.
        file: FilePath<'a>,
    },
    /// Says whether the tables of a broker's file hold a state of the broker.
    Audit {
        /// The file's path.
        file: FilePath<'a>,
    },
    /// Serves connections over the broker in a file, one after the other.
    Serve {
        /// The file's path.
        file: FilePath<'a>,
        /// An address of loopback, with its port.
        listen: &'a str,
        /// How many connections are served, from 1 to 1,000,000.
        connections: u32,
    },
    /// Writes the normal text of the pact file on standard input.
    Normalise,
    /// Compares recorded replies with a pact file.
    Check {
        /// The path of the pact file.
        pact: &'a str,
        /// The path of the file of recorded replies.
        replies: &'a str,
    },
    /// Asks the broker in a file whether a version may be deployed.
    CanIDeploy {
        /// The file's path.
        file: FilePath<'a>,
        /// The caller's token.
        token: &'a str,
        /// The pacticipant's name.
        pacticipant: &'a str,
        /// The version's name.
        version: &'a str,
        /// The environment's name.
        environment: &'a str,
    },
}

/// The command that the words name: the program's own name, a command and its options. An error is one
/// of `clap`, with its text and its exit status. It comes exactly if the words are no command line of the
/// program, or if there is no memory; its kind is then one of those that `clap` finds in the words.
pub fn read_line<'a>(alloc: Global, words: &'a [&'a str]) -> Result<Line<'a>, Error>
    ensures ok { IfOk result (Says (texts_of words.entry.now)) }
    ensures only { IfOk result (λ _. is_line (texts_of words.entry.now) ≡ true) }
    ensures err { IfErr result (λ e. is_line (texts_of words.entry.now) ≡ true
        → kind_of e ≡ ErrorKind.OutOfMemory) }
    ensures kind { IfErr result (HasKind (mistakes (texts_of words.entry.now))) }
{
    match words.split_first() {
        Some((_, rest)) => match named(rest) {
            Some(name) => read_command(alloc, name, rest),
            None => Err(no_command(alloc, words)?),
        },
        None => Err(no_command(alloc, words)?),
    }
}

/// The command of this name, with the values that the words after it give its options.
fn read_command<'a>(
    alloc: Global,
    name: CommandName,
    words: &'a [&'a str],
) -> Result<Line<'a>, Error>
    ensures ok { IfOk result (λ line. (command_of line ≡ command_named name)
        × HasOptions (texts_of words.entry.now) line) }
    ensures err { IfErr result (λ e. is_taken (command_named name) (texts_of words.entry.now) ≡ true
        → kind_of e ≡ ErrorKind.OutOfMemory) }
    ensures kind { IfErr result (HasKind (fault_of (command_named name) (texts_of words.entry.now))) }
{
    match command_named(alloc, name)?.try_get_matches_from(words) {
        Ok(matches) => match line_in(name, &matches) {
            Some(line) => Ok(line),
            None => Err(Error::from(AllocError)),
        },
        Err(error) => Err(error),
    }
}

/// What `clap` says of words that name no command.
fn no_command<'a>(alloc: Global, words: &'a [&'a str]) -> Result<Error, AllocError>
    ensures { IfOk result (HasKind (unnamed_mistakes (texts_of words.entry.now))) }
{
    let mut program = program(alloc)?;
    match program.try_get_matches_from_mut(words) {
        Ok(_) => program.error(ErrorKind::InvalidSubcommand, "no command is named"),
        Err(error) => Ok(error),
    }
}
