//! The patterns of a file.

ghost use Rattle.std.specs.Prelude.{◌≡◌, true, IfOk, IfErr};
ghost use Rattle.pact_rules.specs.Matching.{is_pattern};
ghost use Rattle.pact_rules.specs.RegexRefusals.{IsRefused};

use crate::rule_fault::RuleFault;
use pact_patterns::parts_of;
use std::alloc::Global;
use std::collections::BTreeSet;
use std::marker::Model;

/// As many bytes has the text of a pattern at most.
const MOST_BYTES: usize = 2_048;

/// As many parts has a pattern at most.
const MOST_PARTS: u64 = 131_072;

/// As many parts have the patterns of a file, each different one counted once.
const ROOM: u64 = 2_500_000;

/// The patterns of the tables of a file that were read so far: equal ones are read once, and for all of them together
/// there is only so much room.
#[derive(Drop)]
pub struct Patterns {
    sources: BTreeSet<String>,
    room: u64,
}

impl Model for Patterns {
    ghost use Rattle.std.specs.Prelude.{◌≡◌, true, string_bytes};
    ghost use Rattle.std.specs.List.{AllByRecursion};
    ghost use Rattle.pact_rules.specs.Matching.{is_pattern};

    ghost Value = { Unit {0} };

    ghost view = { λ p. tt };

    ghost invariant = { λ p. AllByRecursion (λ s. is_pattern (string_bytes s) ≡ true) p.sources.keys };
}

impl Patterns {
    /// No pattern was read yet. Takes no memory.
    pub fn new(alloc: Global) -> Patterns {
        Patterns {
            sources: BTreeSet::new(alloc),
            room: ROOM,
        }
    }

    /// Reads the pattern, unless an equal one was read, so that a refused one is a fault of the table. One that has too
    /// many parts, or more than there is room for, is refused too.
    pub(crate) fn accept(&mut self, alloc: Global, source: &str) -> Result<(), RuleFault>
        ensures read { IfOk result (λ _. is_pattern source.now ≡ true) }
        ensures fails { IfErr result (IsRefused source.now) }
    {
        if self.sources.contains(source) {
            return Ok(());
        }
        if source.len() > MOST_BYTES {
            return Err(RuleFault::Pattern);
        }
        let parts = parts_of(alloc, source)?;
        if parts > MOST_PARTS || parts > self.room {
            return Err(RuleFault::Pattern);
        }
        self.room -= parts;
        self.sources.insert(String::from_str(alloc, source)?)?;
        Ok(())
    }
}
