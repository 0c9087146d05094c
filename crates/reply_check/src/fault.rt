//! Why replies are refused, or can't be checked.

ghost use Rattle.std.specs.Prelude.{◌≡◌, string_bytes, IfOk};
ghost use Rattle.pact_file.specs.Words.{parts_text};
ghost use Rattle.reply_check.specs.Words.{check_text, number_text};

use pact_file::{Part, TextParts};
use pact_rules::MatchFault;
use pact_trees::NoTree;
use std::alloc::{AllocError, AllocFailed, Global};
use std::fmt;
use thiserror::Error;

/// Where a file hasn't the shape of replies.
#[derive(Clone, Copy, Debug, PartialEq, Eq)]
pub enum Place {
    /// The file isn't an object.
    File,
    /// `replies` isn't a list.
    Replies,
    /// The reply at an index of the list, from 0, and its part, which is never `Request`.
    Reply(usize, Part),
}

/// The first fault of a file of replies, in this order: no JSON, no tree, no object, no list, reply by reply its
/// parts, and two replies for one interaction.
#[derive(Clone, Copy, Debug, PartialEq, Eq, Error)]
pub enum RepliesFault {
    /// The bytes aren't UTF-8, or no JSON text, or nest over 127 deep.
    NotJson,
    /// A part is absent or has another form.
    Shape(Place),
    /// A number isn't whole, or lists and objects nest over 100 deep.
    Tree(NoTree),
    /// Two replies have one description and one list of states.
    SameReplyTwice,
    /// No memory was left.
    Memory,
}

impl fmt::Display for RepliesFault {
    ghost use Rattle.std.specs.Prelude.{Some};
    ghost use Rattle.reply_check.specs.Words.{replies_text};

    ghost output = { λ fault. Some (replies_text fault) };

    fn fmt<W: fmt::Write>(&self, f: &mut fmt::Formatter<W>) -> fmt::Result {
        match self {
            RepliesFault::Memory => f.write_str("memory"),
            fault => write!(f, "replies {}", fault.parts()),
        }
    }
}

impl RepliesFault {
    /// The fault's number and, if it helps, the place after a space: what follows `replies ` in the fault's text.
    pub fn parts(&self) -> TextParts<'static>
        ensures { parts_text result ≡ number_text self.now }
    {
        match self {
            RepliesFault::NotJson => TextParts::Plain("1"),
            RepliesFault::Shape(Place::File) => TextParts::Plain("2 file"),
            RepliesFault::Shape(Place::Replies) => TextParts::Plain("2 replies"),
            RepliesFault::Shape(Place::Reply(index, part)) => {
                TextParts::Numbered("2 replies[", *index, "]", part.text())
            }
            RepliesFault::Tree(NoTree::NotWhole) => TextParts::Plain("3.1"),
            RepliesFault::Tree(NoTree::TooDeep) => TextParts::Plain("3.2"),
            RepliesFault::SameReplyTwice => TextParts::Plain("4"),
            RepliesFault::Memory => TextParts::Plain("5"),
        }
    }

    /// The text of the parts. An error means out of memory.
    pub fn number(&self, alloc: Global) -> Result<String, AllocError>
        ensures { IfOk result (λ s. string_bytes s ≡ number_text self.now) }
    {
        format!(in alloc; "{}", self.parts())
    }
}

impl From<AllocError> for RepliesFault {
    ghost use Rattle.reply_check.specs.declared.fault.RepliesFault.TheVariants.{Memory};

    ghost from_gives = { λ _ e. e ≡ Memory };

    fn from(_e: AllocError) -> RepliesFault {
        RepliesFault::Memory
    }
}

impl<T: Drop> From<AllocFailed<T>> for RepliesFault {
    ghost use Rattle.reply_check.specs.declared.fault.RepliesFault.TheVariants.{Memory};

    ghost from_gives = { λ _ e. e ≡ Memory };

    fn from(_e: AllocFailed<T>) -> RepliesFault {
        RepliesFault::Memory
    }
}

/// Why replies can't be checked against a pact. An unknown interaction is looked for first.
#[derive(Clone, Copy, Debug, PartialEq, Eq, Error)]
pub enum CheckFault {
    /// The reply at this index of the file, from 0, belongs to no interaction of the pact; it is the first such reply.
    UnknownInteraction(usize),
    /// The crate `regex` refuses a pattern of an interaction that has a reply, for another cause than memory.
    Pattern,
    /// No memory was left.
    Memory,
}

impl fmt::Display for CheckFault {
    ghost use Rattle.std.specs.Prelude.{Some};
    ghost use Rattle.reply_check.specs.Words.{check_text};

    ghost output = { λ fault. Some (check_text fault) };

    fn fmt<W: fmt::Write>(&self, f: &mut fmt::Formatter<W>) -> fmt::Result {
        f.write_str(self.text())
    }
}

impl CheckFault {
    /// The fault's text. It doesn't name the reply.
    pub fn text(&self) -> &'static str
        ensures { result.now ≡ check_text self.now }
    {
        match self {
            CheckFault::UnknownInteraction(_) => "check 1",
            CheckFault::Pattern => "check 2",
            CheckFault::Memory => "memory",
        }
    }
}

impl From<MatchFault> for CheckFault {
    ghost use Rattle.reply_check.specs.PartsView.{as_check_fault};

    ghost from_gives = { λ fault e. e ≡ as_check_fault fault };

    fn from(fault: MatchFault) -> CheckFault {
        match fault {
            MatchFault::Memory => CheckFault::Memory,
            MatchFault::Pattern => CheckFault::Pattern,
        }
    }
}
