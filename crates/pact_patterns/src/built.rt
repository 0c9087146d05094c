//! A pattern that was built, and a search for it.

ghost use Rattle.std.specs.Prelude.{◌≡◌, ◌≤◌, ◌+◌, ◌-◌, ◌^◌, min, IfOk, IfErr, IsTrue};
ghost use Rattle.pact_patterns.specs.Weights.{steps_of, most_steps};
ghost use Rattle.regex.specs.Patterns.{default_config};
ghost use Rattle.regex.specs.Strings.{regex_source, regex_config, IsReadFromSource};
ghost use Rattle.pact_patterns.specs.Patterns.{is_found, pattern_of, IsCause};

use crate::weights::weight;
use regex::{Matcher as Searcher, Regex, RegexBuilder};
use std::alloc::{AllocError, Global};
use std::marker::Model;

/// How many bytes a built pattern may take. None is known that a table may have and that takes more.
const MOST_BUILT_BYTES: usize = 67_108_864;

/// A pattern as the crate `regex` builds it, with the options that it has unless they are set.
#[derive(Drop)]
pub(crate) struct Built {
    regex: Regex,
    weight: u64,
}

impl Model for Built {
    ghost use Rattle.std.specs.Prelude.{◌≡◌, ℕ, List};
    ghost use Rattle.regex.specs.Patterns.{default_config};
    ghost use Rattle.regex.specs.Strings.{regex_source, regex_config, IsReadFromSource};

    ghost Value = { List ℕ };

    ghost view = { λ b. regex_source b.regex };

    ghost use Rattle.pact_patterns.specs.Weights.{weight as weight_of};

    ghost invariant = { λ b. (regex_config b.regex ≡ default_config)
        × (IsReadFromSource b.regex × (b.weight ≡ weight_of (regex_source b.regex))) };
}

impl Built {
    pub(crate) fn new(alloc: Global, source: &str) -> Result<Built, regex::Error>
        ensures source { IfOk result (λ b. b ≡ source.now) }
        ensures fails { IfErr result (IsCause source.now) }
    {
        let regex = RegexBuilder::new(source)
            .size_limit(MOST_BUILT_BYTES)
            .build(alloc)?;
        let weight = weight(regex.as_str());
        Ok(Built { regex, weight })
    }
}

/// A search for a pattern, with what it learned of the texts that it went through.
#[derive(Drop)]
pub(crate) struct Search<'p> {
    regex: &'p Regex,
    searcher: Searcher<'p>,
    weight: u64,
}

impl<'p> Model for Search<'p> {
    ghost use Rattle.std.specs.Prelude.{◌≡◌, ℕ, List};
    ghost use Rattle.regex.specs.Patterns.{default_config};
    ghost use Rattle.regex.specs.Strings.{regex_pattern, regex_source, regex_config};
    ghost use Rattle.regex.specs.Strings.{matcher_pattern, IsReadFromSource};

    ghost Value = { List ℕ };

    ghost view = { λ s. regex_source s.regex.now };

    ghost use Rattle.pact_patterns.specs.Weights.{weight as weight_of};

    ghost invariant = { λ s. (regex_config s.regex.now ≡ default_config)
        × (IsReadFromSource s.regex.now
        × ((matcher_pattern s.searcher ≡ regex_pattern s.regex.now)
        × (s.weight ≡ weight_of (regex_source s.regex.now)))) };
}

impl<'p> Search<'p> {
    pub(crate) fn new(alloc: Global, built: &'p Built) -> Result<Search<'p>, AllocError>
        ensures { IfOk result (λ s. s ≡ built.now) }
    {
        let regex = &built.regex;
        let searcher = regex.matcher(alloc)?;
        let weight = built.weight;
        Ok(Search {
            regex,
            searcher,
            weight,
        })
    }

    /// Whether it is for the pattern of this text.
    pub(crate) fn is_for(&self, source: &str) -> bool
        ensures { IsTrue result → self.now ≡ source.now }
    {
        self.regex.as_str() == source
    }

    /// Whether the pattern matches somewhere in the text.
    pub(crate) fn matches(&mut self, text: &str) -> bool
        ensures { result ≡ is_found (pattern_of self.old) text.now }
    {
        self.searcher.is_match(text)
    }

    /// The same, and how many of the steps are left that there are: a search for which there aren't enough is refused
    /// before it begins.
    pub(crate) fn ask(&mut self, steps: u64, text: &str) -> Result<(bool, u64), regex::Error>
        requires { steps ≤ most_steps }
        ensures found { IfOk result (λ r. r.0 ≡ is_found (pattern_of self.old) text.now) }
        ensures left { IfOk result (λ r. r.1 + steps_of self.old text.now ≡ steps) }
        ensures fails { IfErr result (IsCause self.old) }
    {
        let taken = self.steps(text);
        if taken > steps {
            return Err(too_much(self.regex));
        }
        Ok((self.matches(text), steps - taken))
    }

    /// How many steps a search in the text counts, as many as a number holds at most.
    fn steps(&self, text: &str) -> u64
        ensures { result ≡ min (steps_of self.now text.now) (2 ^ 64 - 1) }
    {
        let bytes = (text.len() as u64).max(1);
        self.weight.saturating_mul(bytes)
    }
}

/// The error for a pattern that asks for too much.
fn too_much(regex: &Regex) -> regex::Error
    requires { (regex_config regex.now ≡ default_config) × IsReadFromSource regex.now }
    ensures { IsCause (regex_source regex.now) result }
{
    regex::Error::CompiledTooBig
}
