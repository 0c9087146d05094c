//! What the program's commands are: their names, what their help says, and their options.
ghost use Rattle.std.specs.Prelude.{◌≡◌};
ghost use Rattle.command_line.specs.Lines.{command_named, described};

use crate::help;
use crate::names::CommandName;

/// An option of a command with its name and its help. It is required: `--name VALUE`.
#[derive(Clone, Copy)]
pub(crate) enum CommandOption<'a> {
    /// The value is a text.
    Text(&'a str, &'a str),
    /// The value is a whole number from 1 to 1,000,000.
    Number(&'a str, &'a str),
}

use CommandOption::{Number, Text};

/// A command, as the program describes it.
#[derive(Clone, Copy)]
pub(crate) struct CommandText<'a> {
    pub(crate) name: &'a str,
    /// The words by which its usage names it.
    pub(crate) words: &'a str,
    pub(crate) about: &'a str,
    /// What its help says after its options.
    pub(crate) after: &'a str,
    pub(crate) options: &'a [CommandOption<'a>],
}

const OFFICE_TOKEN: CommandOption<'static> = Text(
    "office-token",
    "The token of the new broker's office",
);

const FILE: CommandOption<'static> = Text("file", "The broker's file");

const REPLAY: CommandText<'static> = CommandText {
    name: "replay",
    words: "broker replay",
    about: help::REPLAY,
    after: help::AFTER_REPLAY,
    options: &[OFFICE_TOKEN],
};

const INIT: CommandText<'static> = CommandText {
    name: "init",
    words: "broker init",
    about: help::INIT,
    after: help::AFTER_INIT,
    options: &[Text("file", "The file to make"), OFFICE_TOKEN],
};

const MIGRATE: CommandText<'static> = CommandText {
    name: "migrate",
    words: "broker migrate",
    about: help::MIGRATE,
    after: help::AFTER_MIGRATE,
    options: &[FILE],
};

const AUDIT: CommandText<'static> = CommandText {
    name: "audit",
    words: "broker audit",
    about: help::AUDIT,
    after: help::AFTER_AUDIT,
    options: &[FILE],
};

const SERVE: CommandText<'static> = CommandText {
    name: "serve",
    words: "broker serve",
    about: help::SERVE,
    after: help::AFTER_SERVE,
    options: &[
        FILE,
        Text("listen", "The address, as 127.0.0.1:9292"),
        Number(
            "connections",
            "How many connections to serve, from 1 to 1000000",
        ),
    ],
};

const NORMALISE: CommandText<'static> = CommandText {
    name: "normalise",
    words: "broker normalise",
    about: help::NORMALISE,
    after: help::AFTER_NORMALISE,
    options: &[],
};

const CHECK: CommandText<'static> = CommandText {
    name: "check",
    words: "broker check",
    about: help::CHECK,
    after: help::AFTER_CHECK,
    options: &[
        Text("pact", "The pact file"),
        Text("replies", "The file of recorded replies"),
    ],
};

const CAN_I_DEPLOY: CommandText<'static> = CommandText {
    name: "can-i-deploy",
    words: "broker can-i-deploy",
    about: help::CAN_I_DEPLOY,
    after: help::AFTER_CAN_I_DEPLOY,
    options: &[
        FILE,
        Text(
            "token",
            "The token of the team that owns the pacticipant, or the office's",
        ),
        Text("pacticipant", "The pacticipant's name"),
        Text("version", "The version's name"),
        Text("to-environment", "The environment's name"),
    ],
};

/// The command of this name, as data.
pub(crate) fn description<'a>(name: CommandName) -> CommandText<'a>
    ensures name { result.name.now ≡ (command_named name).top.name }
    ensures command { described result ≡ command_named name }
{
    match name {
        CommandName::Replay => REPLAY,
        CommandName::Init => INIT,
        CommandName::Migrate => MIGRATE,
        CommandName::Audit => AUDIT,
        CommandName::Serve => SERVE,
        CommandName::Normalise => NORMALISE,
        CommandName::Check => CHECK,
        CommandName::CanIDeploy => CAN_I_DEPLOY,
    }
}
