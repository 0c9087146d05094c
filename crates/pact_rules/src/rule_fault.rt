//! The first fault of a table of rules.

ghost use Rattle.std.specs.Prelude.{◌≡◌, string_bytes};
ghost use Rattle.pact_rules.specs.declared.rule_fault.RuleFault.TheVariants.{Memory};

use std::alloc::{AllocError, AllocFailed};
use std::fmt;
use std::marker::Model;
use thiserror::Error;

/// A text that a fault names; two of them are the same if their bytes are.
#[derive(Debug, Drop)]
pub struct Word {
    text: String,
}

impl Model for Word {
    ghost use Rattle.std.specs.Prelude.{ℕ, List, string_bytes};

    ghost Value = { List ℕ };

    ghost view = { λ a. string_bytes a.text };
}

impl Word {
    pub(crate) fn new(text: String) -> Word
        ensures { result ≡ string_bytes text }
    {
        Word { text }
    }

    /// The text.
    pub fn as_str(&self) -> &str
        ensures { result.now ≡ self.now }
    {
        self.text.as_str()
    }
}

impl fmt::Display for Word {
    ghost use Rattle.std.specs.Prelude.{Some};

    ghost output = { λ word. Some word };

    fn fmt<W: fmt::Write>(&self, f: &mut fmt::Formatter<W>) -> Result<(), fmt::Error> {
        f.write_str(self.text.as_str())
    }
}

/// Why a tree is no table of rules: the first fault, in the order of the table's keys.
#[derive(Debug, Drop, Error)]
pub enum RuleFault {
    /// The table, a category, an entry or a matcher isn't an object, `matchers` isn't a list, or `match`, or the
    /// `value` of `include`, isn't a text.
    #[error("a part has another form")]
    Form,
    /// A key of the table begins with `$`, as in version 2 of the Pact Specification.
    #[error("rules of an older version")]
    OldRules,
    /// A key of the category `body` isn't a path expression.
    #[error("a key is no path")]
    BadPath,
    /// Two keys are one path, or two header names differ only in ASCII case.
    #[error("two keys are one path")]
    SamePathTwice,
    /// The text under `match`, the name of a category, or `?` for a matcher with neither `match`, `regex`, `min` nor
    /// `max`.
    #[error("{0} isn't supported")]
    Unsupported(Word),
    /// A bound isn't a whole number from 0 to 2^64 - 1, or the least is over the greatest.
    #[error("a bound is out of range")]
    BadBound,
    /// `regex` isn't a text, or the pattern is refused for another cause than memory.
    #[error("a pattern is refused")]
    Pattern,
    /// `combine` is neither `AND` nor `OR`.
    #[error("combine is neither AND nor OR")]
    BadCombine,
    /// No memory was left.
    #[error("out of memory")]
    Memory,
}

impl From<AllocError> for RuleFault {
    ghost from_gives = { λ _ fault. fault ≡ Memory };

    fn from(_: AllocError) -> RuleFault {
        RuleFault::Memory
    }
}

impl<T: Drop> From<AllocFailed<T>> for RuleFault {
    ghost from_gives = { λ _ fault. fault ≡ Memory };

    fn from(_: AllocFailed<T>) -> RuleFault {
        RuleFault::Memory
    }
}

impl From<regex::Error> for RuleFault {
    ghost use Rattle.pact_rules.specs.RegexRefusals.{as_rule_fault};

    ghost from_gives = { λ error fault. fault ≡ as_rule_fault error };

    fn from(error: regex::Error) -> RuleFault {
        match error {
            regex::Error::OutOfMemory => RuleFault::Memory,
            regex::Error::Syntax(_) | regex::Error::CompiledTooBig | regex::Error::Internal =>
                RuleFault::Pattern,
        }
    }
}
