//! The values of a command's options, as `clap` found them.
ghost use Rattle.std.specs.Prelude.{◌≡◌, MatchOption, codes, option_map};
ghost use Rattle.clap.specs.Words.{first_of, found_of, rows_of};
ghost use Rattle.command_line.specs.Lines.{HasNoNumber, HasNumberOption, IsLineOf};

use crate::line::Line;
use crate::names::CommandName;
use crate::path::file_of;
use clap::ArgMatches;

/// The text of an option.
pub(crate) fn text_of<'a>(matches: &ArgMatches<'a>, name: &str) -> Option<&'a str>
    ensures { option_map (λ text. text.now) result ≡ first_of name.now (rows_of (found_of matches.now)) }
{
    matches.get_str(name)
}

/// The number of an option, from 1 to 1,000,000, if it has one.
fn number_of(matches: &ArgMatches<'_>, name: &str) -> Option<u32>
    ensures { MatchOption result (HasNoNumber (rows_of (found_of matches.now)) name.now)
        (HasNumberOption (rows_of (found_of matches.now)) name.now) }
{
    match matches.get_one::<u32>(name) {
        Some(number) if number >= 1 && number <= 1_000_000 => Some(number),
        _ => None,
    }
}

fn replay_in<'a>(matches: &ArgMatches<'a>) -> Option<Line<'a>>
    ensures { IsLineOf CommandName.Replay (rows_of (found_of matches.now)) result }
{
    let office_token = text_of(matches, "office-token")?;
    Some(Line::Replay { office_token })
}

fn init_in<'a>(matches: &ArgMatches<'a>) -> Option<Line<'a>>
    ensures { IsLineOf CommandName.Init (rows_of (found_of matches.now)) result }
{
    let file = file_of(matches)?;
    let office_token = text_of(matches, "office-token")?;
    Some(Line::Init { file, office_token })
}

fn migrate_in<'a>(matches: &ArgMatches<'a>) -> Option<Line<'a>>
    ensures { IsLineOf CommandName.Migrate (rows_of (found_of matches.now)) result }
{
    let file = file_of(matches)?;
    Some(Line::Migrate { file })
}

fn audit_in<'a>(matches: &ArgMatches<'a>) -> Option<Line<'a>>
    ensures { IsLineOf CommandName.Audit (rows_of (found_of matches.now)) result }
{
    let file = file_of(matches)?;
    Some(Line::Audit { file })
}

fn serve_in<'a>(matches: &ArgMatches<'a>) -> Option<Line<'a>>
    ensures { IsLineOf CommandName.Serve (rows_of (found_of matches.now)) result }
{
    let file = file_of(matches)?;
    let listen = text_of(matches, "listen")?;
    let connections = number_of(matches, "connections")?;
    Some(Line::Serve {
        file,
        listen,
        connections,
    })
}

fn check_in<'a>(matches: &ArgMatches<'a>) -> Option<Line<'a>>
    ensures { IsLineOf CommandName.Check (rows_of (found_of matches.now)) result }
{
    let pact = text_of(matches, "pact")?;
    let replies = text_of(matches, "replies")?;
    Some(Line::Check { pact, replies })
}

fn can_i_deploy_in<'a>(matches: &ArgMatches<'a>) -> Option<Line<'a>>
    ensures { IsLineOf CommandName.CanIDeploy (rows_of (found_of matches.now)) result }
{
    let file = file_of(matches)?;
    let token = text_of(matches, "token")?;
    let pacticipant = text_of(matches, "pacticipant")?;
    let version = text_of(matches, "version")?;
    let environment = text_of(matches, "to-environment")?;
    Some(Line::CanIDeploy {
        file,
        token,
        pacticipant,
        version,
        environment,
    })
}

/// The line of the command of this name, with the values of its options. None if one of them has no value.
pub(crate) fn line_in<'a>(name: CommandName, matches: &ArgMatches<'a>) -> Option<Line<'a>>
    ensures { IsLineOf name (rows_of (found_of matches.now)) result }
{
    match name {
        CommandName::Replay => replay_in(matches),
        CommandName::Init => init_in(matches),
        CommandName::Migrate => migrate_in(matches),
        CommandName::Audit => audit_in(matches),
        CommandName::Serve => serve_in(matches),
        CommandName::Normalise => Some(Line::Normalise),
        CommandName::Check => check_in(matches),
        CommandName::CanIDeploy => can_i_deploy_in(matches),
    }
}
