//! Answers: one variant per answer.
ghost use Rattle.std.specs.Prelude.{◌≡◌};

use crate::command::{FormFault, Marks, Version};
use crate::need::{Latest, PairFault};
use crate::policy::Rule;
use broker_names::name::{Name, Text};
use std::fmt;
use std::marker::Model;

/// What is deployed: a version of a pacticipant, in an instance, whose absent name is the empty
/// text.
#[derive(Debug, Drop)]
pub struct DeployedItem {
    pub pacticipant: Name,
    pub instance: Text,
    pub version: Name,
}

/// A contract, a version of its provider and the latest result, if there is one.
#[derive(Debug, Drop)]
pub struct MatrixRow {
    pub consumer: Name,
    pub consumer_version: Name,
    pub provider: Name,
    /// None if no version of the provider has a result for the contract's content.
    pub verified: Option<Verified>,
}

/// A version of the provider, with its latest result.
#[derive(Debug, Drop)]
pub struct Verified {
    pub provider_version: Name,
    /// The result's number, from 1.
    pub result: u64,
    pub latest: Latest,
}

/// Items in an order that is said where they are used. What a contract sees of them is the list.
#[derive(Debug, Drop)]
pub struct Items<T> {
    items: Vec<T>,
}

impl<T> Model for Items<T> {
    ghost use Rattle.std.specs.Prelude.{List};

    ghost Value = { List T };

    ghost view = { λ i. i.items.items };
}

impl<T> Items<T> {
    /// The vector as such a list.
    pub fn new(items: Vec<T>) -> Items<T>
        ensures { result ≡ items.items }
    {
        Items { items }
    }

    /// The items, lent.
    pub fn as_slice(&self) -> &[T]
        ensures { result.now ≡ self.now }
    {
        self.items.as_slice()
    }
}

/// Faults in their order.
pub type Faults = Items<PairFault>;

/// The places of the interactions that fail, from 0 and ascending, in the order of the normal pact.
pub type Places = Items<u64>;

/// What is deployed in an environment, in order of pacticipant and instance.
pub type DeployedItems = Items<DeployedItem>;

/// What is released in an environment, in order of pacticipant and version.
pub type Versions = Items<Version>;

/// The rows of a matrix, in the order of faults.
pub type MatrixRows = Items<MatrixRow>;

/// What `done` and `already` say besides the word.
#[derive(Debug, Drop)]
pub enum Detail {
    Plain,
    /// The number of a published pact's content, from 1.
    Content(u64),
    /// The number of a result, from 1.
    Result(u64),
    /// What replies came to: which interactions fail, the result's number, from 1, and whether it
    /// is a pass.
    Replies {
        failing: Places,
        result: u64,
        success: bool,
    },
}

/// What a command that shows something shows.
#[derive(Debug, Drop)]
pub enum Shown {
    /// A pact, as its normal text.
    Pact(Text),
    /// What is in an environment.
    Environment {
        environment: Name,
        marks: Marks,
        deployed: DeployedItems,
        released: Versions,
    },
    /// What can-i-deploy says. The faults are listed also if the environment isn't gated.
    Gate {
        environment: Name,
        marks: Marks,
        permitted: bool,
        faults: Faults,
    },
    /// The matrix of a version.
    Matrix(MatrixRows),
}

/// What isn't known.
#[derive(Clone, Copy, Debug, PartialEq, Eq)]
pub enum Missing {
    Team,
    /// A pacticipant, as the provider or the consumer of a path too.
    Pacticipant,
    Environment,
    Version,
    Contract,
    Grant,
    /// The version isn't deployed in that instance.
    Deployed,
    /// The version isn't released there.
    Released,
}

impl Missing {
    ghost use Rattle.broker_core.specs.Words.{missing_text};

    /// The word in answers.
    pub const fn as_str(self) -> &'static str
        ensures { result.now ≡ missing_text self }
    {
        match self {
            Missing::Team => "team",
            Missing::Pacticipant => "pacticipant",
            Missing::Environment => "environment",
            Missing::Version => "version",
            Missing::Contract => "contract",
            Missing::Grant => "grant",
            Missing::Deployed => "deployed",
            Missing::Released => "released",
        }
    }
}

impl fmt::Display for Missing {
    ghost use Rattle.std.specs.Prelude.{Some};
    ghost use Rattle.broker_core.specs.Words.{missing_text};

    ghost output = { λ missing. Some (missing_text missing) };

    fn fmt<W: fmt::Write>(&self, f: &mut fmt::Formatter<W>) -> fmt::Result {
        f.write_str(self.as_str())
    }
}

/// What is there already, with something else.
#[derive(Clone, Copy, Debug, PartialEq, Eq)]
pub enum Clash {
    /// The name is there, with something else beside it.
    Name,
    /// The token is another caller's.
    Token,
    /// The version has a contract of another content with that provider.
    OtherContent,
    /// The provider has used the run for another result.
    Run,
}

impl Clash {
    ghost use Rattle.broker_core.specs.Words.{clash_text};

    /// The words in answers.
    pub const fn as_str(self) -> &'static str
        ensures { result.now ≡ clash_text self }
    {
        match self {
            Clash::Name => "name",
            Clash::Token => "token",
            Clash::OtherContent => "other content",
            Clash::Run => "run",
        }
    }
}

impl fmt::Display for Clash {
    ghost use Rattle.std.specs.Prelude.{Some};
    ghost use Rattle.broker_core.specs.Words.{clash_text};

    ghost output = { λ clash. Some (clash_text clash) };

    fn fmt<W: fmt::Write>(&self, f: &mut fmt::Formatter<W>) -> fmt::Result {
        f.write_str(self.as_str())
    }
}

/// The answer to a command. Only `Done` reports a change.
#[derive(Debug, Drop)]
pub enum Answer {
    /// The command did what it asks for.
    Done(Detail),
    /// What it asks for was there already.
    Already(Detail),
    /// What it asked to see.
    Shown(Shown),
    /// The policy denies it, by this rule.
    Denied(Rule),
    /// Something that it names isn't there.
    Unknown(Missing),
    /// Its form is at fault.
    BadForm(FormFault),
    /// Something else is in its place.
    Taken(Clash),
    /// It would need a number over 1,000,000,000.
    Full,
    /// The gate doesn't permit it: all faults.
    NotPermitted(Faults),
    /// A stored pact's pattern was refused.
    Pattern,
    /// Out of memory.
    Memory,
    /// The store failed.
    Store,
    /// The store failed before, so the broker takes no command until it is opened again.
    Stopped,
}
