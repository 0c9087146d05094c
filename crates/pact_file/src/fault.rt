//! Why a pact file is refused.

ghost use Rattle.std.specs.Prelude.{◌≡◌, ◌++◌, codes, string_bytes, IfOk};
ghost use Rattle.pact_file.specs.Words.{number_text, part_text, parts_text, place_text};

use pact_rules::RuleFault;
use pact_trees::NoTree;
use std::alloc::{AllocError, AllocFailed, Global};
use std::fmt;
use thiserror::Error;

/// A text in parts, so that writing it takes no memory.
#[derive(Clone, Copy, Drop)]
pub enum TextParts<'a> {
    /// A text without a number.
    Plain(&'a str),
    /// What is before a number, the number, what is after it, and the end.
    Numbered(&'static str, usize, &'static str, &'a str),
}

impl fmt::Display for TextParts<'_> {
    ghost use Rattle.std.specs.Prelude.{Some};
    ghost use Rattle.pact_file.specs.Words.{parts_text};

    ghost output = { λ parts. Some (parts_text parts) };

    fn fmt<W: fmt::Write>(&self, f: &mut fmt::Formatter<W>) -> fmt::Result {
        match self {
            TextParts::Plain(text) => f.write_str(text),
            TextParts::Numbered(front, number, following, end) => {
                write!(f, "{}{}{}{}", *front, *number, *following, *end)
            }
        }
    }
}

/// A part of an interaction, or of a recorded reply.
#[derive(Clone, Copy, Debug, PartialEq, Eq)]
pub enum Part {
    /// It isn't an object.
    Whole,
    /// `description` isn't a text.
    Description,
    /// `providerStates`, or `providerState` in its place, isn't as it must be.
    States,
    /// `request` isn't an object.
    Request,
    /// `response` isn't an object.
    Response,
    /// The response's `status` isn't a whole number from 100 to 999.
    Status,
    /// The response's `headers` aren't texts or lists of texts, or two names are equal without ASCII case.
    Headers,
}

impl Part {
    /// The part's name after a dot; empty for the whole.
    pub fn text(self) -> &'static str
        ensures { result.now ≡ part_text self }
    {
        match self {
            Part::Whole => "",
            Part::Description => ".description",
            Part::States => ".providerStates",
            Part::Request => ".request",
            Part::Response => ".response",
            Part::Status => ".status",
            Part::Headers => ".headers",
        }
    }
}

/// Where a file hasn't the shape of a pact.
#[derive(Clone, Copy, Debug, PartialEq, Eq)]
pub enum Place {
    /// The file isn't an object.
    File,
    /// `consumer` isn't an object.
    Consumer,
    /// The consumer's `name` isn't a name: 1 to 100 bytes without ASCII control characters.
    ConsumerName,
    /// `provider` isn't an object.
    Provider,
    /// The provider's `name` isn't a name.
    ProviderName,
    /// `interactions` isn't a list.
    Interactions,
    /// The interaction at a place in the file, from 0, and its part.
    Interaction(usize, Part),
}

/// The first fault of a pact file, in this order: too long, no JSON, no tree, no object, the version, messages, the
/// consumer, the provider, both of one name, no list of interactions, too many of them, interaction by interaction its
/// parts and its rules, two that clash, and a normal text that is too long.
#[derive(Debug, Drop, Error)]
pub enum PactFault {
    /// The file or its normal text is over 1,048,576 bytes.
    TooLong,
    /// The bytes aren't UTF-8, or no JSON text, or nest over 127 deep.
    NotJson,
    /// A part is absent or has another form.
    Shape(Place),
    /// The specification version, if the file names one, isn't 3.
    Version,
    /// The file has messages.
    Messages,
    /// A number isn't whole, or lists and objects nest over 100 deep.
    Tree(NoTree),
    /// The matching rules of the interaction at a place in the file, from 0, have a fault.
    Rules(usize, RuleFault),
    /// Two interactions of one description and one list of states differ in their normal form.
    SameInteraction,
    /// There are over 512 interactions.
    TooMany,
    /// The consumer's and the provider's name are equal.
    SelfContract,
    /// No memory was left.
    Memory,
}

/// The number of a place where a file hasn't the shape of a pact, and the place.
fn place_parts(place: Place) -> TextParts<'static>
    ensures { parts_text result ≡ codes "3 " ++ place_text place }
{
    match place {
        Place::File => TextParts::Plain("3 file"),
        Place::Consumer => TextParts::Plain("3 consumer"),
        Place::ConsumerName => TextParts::Plain("3 consumer.name"),
        Place::Provider => TextParts::Plain("3 provider"),
        Place::ProviderName => TextParts::Plain("3 provider.name"),
        Place::Interactions => TextParts::Plain("3 interactions"),
        Place::Interaction(index, part) => {
            TextParts::Numbered("3 interactions[", index, "]", part.text())
        }
    }
}

/// The number of a fault of an interaction's rules, the interaction's place, and the name of what isn't supported.
fn rules_parts(index: usize, fault: &RuleFault) -> TextParts<'_>
    ensures { parts_text result ≡ number_text (PactFault.Rules index fault.now) }
{
    let front = match fault {
        RuleFault::Form => "7.1 interactions[",
        RuleFault::OldRules => "7.2 interactions[",
        RuleFault::BadPath => "7.3 interactions[",
        RuleFault::SamePathTwice => "7.4 interactions[",
        RuleFault::Unsupported(name) => {
            return TextParts::Numbered("7.5 interactions[", index, "] ", name.as_str());
        }
        RuleFault::BadBound => "7.6 interactions[",
        RuleFault::Pattern => "7.7 interactions[",
        RuleFault::BadCombine => "7.8 interactions[",
        RuleFault::Memory => "7.9 interactions[",
    };
    TextParts::Numbered(front, index, "]", "")
}

impl fmt::Display for PactFault {
    ghost use Rattle.std.specs.Prelude.{Some};
    ghost use Rattle.pact_file.specs.Words.{fault_text};

    ghost output = { λ fault. Some (fault_text fault) };

    fn fmt<W: fmt::Write>(&self, f: &mut fmt::Formatter<W>) -> fmt::Result {
        match self {
            PactFault::Memory => f.write_str("memory"),
            fault => write!(f, "pact {}", fault.parts()),
        }
    }
}

impl PactFault {
    /// The fault's number and, if it helps, the place after a space: what follows `pact ` in the fault's text.
    pub fn parts(&self) -> TextParts<'_>
        ensures { parts_text result ≡ number_text self.now }
    {
        match self {
            PactFault::TooLong => TextParts::Plain("1"),
            PactFault::NotJson => TextParts::Plain("2"),
            PactFault::Shape(place) => place_parts(*place),
            PactFault::Version => TextParts::Plain("4"),
            PactFault::Messages => TextParts::Plain("5"),
            PactFault::Tree(NoTree::NotWhole) => TextParts::Plain("6.1"),
            PactFault::Tree(NoTree::TooDeep) => TextParts::Plain("6.2"),
            PactFault::Rules(index, fault) => rules_parts(*index, fault),
            PactFault::SameInteraction => TextParts::Plain("8"),
            PactFault::TooMany => TextParts::Plain("9"),
            PactFault::SelfContract => TextParts::Plain("10"),
            PactFault::Memory => TextParts::Plain("11"),
        }
    }

    /// The text of the parts. An error means out of memory.
    pub fn number(&self, alloc: Global) -> Result<String, AllocError>
        ensures { IfOk result (λ s. string_bytes s ≡ number_text self.now) }
    {
        format!(in alloc; "{}", self.parts())
    }
}

impl From<AllocError> for PactFault {
    ghost use Rattle.pact_file.specs.declared.fault.PactFault.TheVariants.{Memory};

    ghost from_gives = { λ _ e. e ≡ Memory };

    fn from(_e: AllocError) -> PactFault {
        PactFault::Memory
    }
}

impl<T: Drop> From<AllocFailed<T>> for PactFault {
    ghost use Rattle.pact_file.specs.declared.fault.PactFault.TheVariants.{Memory};

    ghost from_gives = { λ _ e. e ≡ Memory };

    fn from(_e: AllocFailed<T>) -> PactFault {
        PactFault::Memory
    }
}
