//! The commands of the program, as `clap` reads them.
ghost use Rattle.std.specs.Prelude.{◌≡◌, IfOk, false, fold, map};
ghost use Rattle.clap.specs.Words.{app_of, new_app, rule_of};
ghost use Rattle.command_line.specs.Lines.{bare_program, command_named, option as option_of, option_rule};
ghost use Rattle.command_line.specs.Lines.{whole_program, with_command, with_option};

use crate::descriptions::{CommandOption, description};
use crate::help;
use crate::names::{COMMANDS, CommandName};
use clap::builder::ValueParser;
use clap::{Arg, Command};
use std::alloc::{AllocError, Global};

/// An option whose value is a text.
fn text_arg<'a>(alloc: Global, name: &'a str, help: &'a str) -> Arg<'a>
    ensures rule { rule_of result ≡ option_of name.entry.now }
    ensures local { result.global ≡ false }
{
    Arg::new(alloc, name).long(name).help(help).required(true)
}

/// An option, as `clap` reads it.
fn option_arg<'a>(alloc: Global, option: CommandOption<'a>) -> Arg<'a>
    ensures rule { rule_of result ≡ option_rule option.entry }
    ensures local { result.global ≡ false }
{
    match option {
        CommandOption::Text(name, help) => text_arg(alloc, name, help),
        CommandOption::Number(name, help) => {
            text_arg(alloc, name, help).value_parser(ValueParser::Signed(1, 1_000_000))
        }
    }
}

/// A command without options, with what it says of itself. Its usage names it by these words.
fn bare<'a>(
    alloc: Global,
    name: &'a str,
    words: &str,
    about: &'a str,
    after: &'a str,
) -> Result<Command<'a>, AllocError>
    ensures { IfOk result (λ command. app_of command ≡ new_app name.entry.now) }
{
    Command::new(alloc, name)
        .about(about)
        .after_help(after)
        .bin_name(words)
}

/// The command with these options, one after the other.
fn with_options<'a>(
    alloc: Global,
    plain: Command<'a>,
    options: &[CommandOption<'a>],
) -> Result<Command<'a>, AllocError>
    ensures { IfOk result (λ command. app_of command ≡ fold with_option (app_of plain.entry) options.now) }
{
    let mut command = plain;
    for option in options {
        command = command.arg(option_arg(alloc, *option))?;
    }
    Ok(command)
}

/// The command of this name, with its options.
pub(crate) fn command_named<'a>(alloc: Global, name: CommandName) -> Result<Command<'a>, AllocError>
    ensures { IfOk result (λ command. app_of command ≡ command_named name) }
{
    let text = description(name);
    let plain = bare(alloc, text.name, text.words, text.about, text.after)?;
    with_options(alloc, plain, text.options)
}

/// The program without its commands, of which one is required.
fn bare_program<'a>(alloc: Global) -> Result<Command<'a>, AllocError>
    ensures { IfOk result (λ program. app_of program ≡ bare_program) }
{
    let program = bare(alloc, "broker", "broker", help::ABOUT, help::AFTER)?
        .version(help::VERSION)
        .subcommand_required(true);
    Ok(program)
}

/// The program with these commands, one after the other.
fn with_commands<'a>(
    alloc: Global,
    plain: Command<'a>,
    commands: &[CommandName],
) -> Result<Command<'a>, AllocError>
    ensures { IfOk result (λ program.
        app_of program ≡ fold with_command (app_of plain.entry) (map command_named commands.now)) }
{
    let mut program = plain;
    for name in commands {
        program = program.subcommand(command_named(alloc, *name)?)?;
    }
    Ok(program)
}

/// The whole program, which explains its commands and says what is wrong with words that name none.
pub(crate) fn program<'a>(alloc: Global) -> Result<Command<'a>, AllocError>
    ensures { IfOk result (λ program. app_of program ≡ whole_program) }
{
    let plain = bare_program(alloc)?;
    with_commands(alloc, plain, &COMMANDS)
}
