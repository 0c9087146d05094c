//! Patterns that were built, each once, and the searches for them.

ghost use Rattle.std.specs.Prelude.{◌≡◌, ◌≤◌, ◌+◌, IfOk, IfErr};
ghost use Rattle.pact_patterns.specs.Weights.{steps_of, most_steps};
ghost use Rattle.pact_patterns.specs.Patterns.{is_found, pattern_of, IsCause};

use crate::built::{Built, Search};
use std::alloc::{AllocError, Global};
use std::collections::BTreeMap;
use std::marker::Model;

/// What a search is counted with as it is made, in bytes.
const LEARNED_AT_FIRST: u64 = 32_768;

/// What a search is counted with for each byte of the texts that it went through: it may learn a state for each.
const LEARNED_OF_BYTE: u64 = 4_096;

/// What one search has learned at most: the crate `regex` forgets all beyond.
const MOST_LEARNED: u64 = 33_554_432;

/// Once all searches are counted with more than this, what they learned is forgotten.
const MOST_KEPT: u64 = 402_653_184;

/// The searches for so many patterns are never counted with more than that.
const ALWAYS_KEPT: usize = 12;

/// So many steps the searches of a check take together: some two seconds.
const MOST_STEPS: u64 = 300_000_000;

/// A pattern that was built, and how many were built before it.
#[derive(Drop)]
struct Numbered {
    number: usize,
    built: Built,
}

/// Patterns that were built, each once, so that a check doesn't build one again at each value.
#[derive(Drop)]
pub struct BuiltPatterns {
    built: BTreeMap<String, Numbered>,
}

impl Model for BuiltPatterns {
    ghost Value = { Unit {0} };

    ghost view = { λ p. tt };
}

impl BuiltPatterns {
    /// No pattern was built yet. Takes no memory.
    pub fn new(alloc: Global) -> BuiltPatterns {
        BuiltPatterns {
            built: BTreeMap::new(alloc),
        }
    }

    /// Builds the pattern of a text, unless it was built.
    pub fn build(&mut self, alloc: Global, source: &str) -> Result<(), regex::Error>
        ensures { IfErr result (IsCause source.now) }
    {
        if self.built.contains_key(source) {
            return Ok(());
        }
        let built = Built::new(alloc, source)?;
        self.put(alloc, source, built)?;
        Ok(())
    }

    fn put(&mut self, alloc: Global, source: &str, built: Built) -> Result<(), AllocError> {
        let number = self.built.len();
        let source = String::from_str(alloc, source)?;
        drop(self.built.insert(source, Numbered { number, built })?);
        Ok(())
    }
}

/// A search that is kept, and how many bytes of texts it went through; none is kept if what was learned was forgotten.
#[derive(Drop)]
struct Kept<'p> {
    search: Option<Search<'p>>,
    read: u64,
    /// The number of the pattern that was asked for after this one.
    after: usize,
}

/// The searches that are kept with what they learned, as long as that may be held.
#[derive(Drop)]
struct KeptSearches<'p> {
    patterns: &'p BuiltPatterns,
    /// By the numbers of their patterns.
    kept: Vec<Kept<'p>>,
    /// The number of the pattern that was asked for last.
    last: usize,
    learned: u64,
}

/// Searches for patterns: for one that was built without building it again. All of them together take so many steps.
#[derive(Drop)]
pub struct Searches<'p> {
    kept: KeptSearches<'p>,
    /// How many steps are left.
    steps: u64,
}

impl<'p> Model for Searches<'p> {
    ghost use Rattle.std.specs.Prelude.{ℕ, ◌≤◌};
    ghost use Rattle.pact_patterns.specs.Weights.{most_steps};

    ghost Value = { ℕ };

    ghost view = { λ s. s.steps };

    ghost invariant = { λ s. s.steps ≤ most_steps };
}

impl<'p> Searches<'p> {
    /// Searches for these patterns, and for others, each of which is built at each use. Takes no memory.
    pub fn new(alloc: Global, patterns: &'p BuiltPatterns) -> Searches<'p>
        ensures { result ≡ most_steps }
    {
        let kept = KeptSearches {
            patterns,
            kept: Vec::new(alloc),
            last: 0,
            learned: 0,
        };
        Searches {
            kept,
            steps: MOST_STEPS,
        }
    }

    /// Whether there are so many patterns that what the searches learned may be forgotten. Then it is better to ask one
    /// pattern of all texts before the next one. Takes no memory.
    pub fn may_forget(&self) -> bool {
        let patterns = self.kept.patterns;
        patterns.built.len() > ALWAYS_KEPT
    }

    /// Whether the pattern of a text matches somewhere in another. It fails only as the crate `regex` refuses a
    /// pattern, which it does too if fewer steps are left than the search counts, or if memory runs out.
    pub fn finds(&mut self, alloc: Global, source: &str, text: &str) -> Result<bool, regex::Error>
        ensures found { IfOk result (λ b. b ≡ is_found (pattern_of source.now) text.now) }
        ensures left { IfOk result (λ b. self.new + steps_of source.now text.now ≡ self.old) }
        ensures fails { IfErr result (IsCause source.now) }
    {
        let (is_found, left) = self.kept.asks(alloc, self.steps, source, text)?;
        self.steps = left;
        Ok(is_found)
    }
}

impl<'p> KeptSearches<'p> {
    /// Whether the pattern is found, and how many of the steps are left.
    fn asks(
        &mut self,
        alloc: Global,
        steps: u64,
        source: &str,
        text: &str,
    ) -> Result<(bool, u64), regex::Error>
        requires { steps ≤ most_steps }
        ensures found { IfOk result (λ r. r.0 ≡ is_found (pattern_of source.now) text.now) }
        ensures left { IfOk result (λ r. r.1 + steps_of source.now text.now ≡ steps) }
        ensures fails { IfErr result (IsCause source.now) }
    {
        self.forget_too_much();
        let number = self.number_of(alloc, source)?;
        self.count(number, text.len() as u64);
        match self.search_of(number) {
            Some(search) if search.is_for(source) => search.ask(steps, text),
            _ => asks_anew(alloc, steps, source, text),
        }
    }

    /// The number of a pattern, with a search for it; or one that no search has, if the pattern wasn't built.
    fn number_of(&mut self, alloc: Global, source: &str) -> Result<usize, AllocError> {
        let guess = self.guess();
        if self.is_kept(guess, source) {
            self.last = guess;
            return Ok(guess);
        }
        let patterns = self.patterns;
        match patterns.built.get(source) {
            Some(it) => {
                self.keep(alloc, it.number, &it.built)?;
                self.follow(it.number);
                Ok(it.number)
            }
            None => Ok(self.kept.len()),
        }
    }

    /// The number that was asked for after the last one before.
    fn guess(&self) -> usize {
        match self.kept.get(self.last) {
            Some(kept) => kept.after,
            None => 0,
        }
    }

    fn is_kept(&self, number: usize, source: &str) -> bool {
        match self.kept.get(number) {
            Some(
                Kept {
                    search: Some(search),
                    ..
                },
            ) => search.is_for(source),
            _ => false,
        }
    }

    /// Notes that a pattern was asked for after the last one.
    fn follow(&mut self, number: usize) {
        if self.last < self.kept.len() {
            self.kept[self.last].after = number;
        }
        self.last = number;
    }

    /// Makes and keeps a search, unless one is kept.
    fn keep(&mut self, alloc: Global, number: usize, built: &'p Built) -> Result<(), AllocError> {
        self.make_room(number)?;
        if let Some(kept) = self.kept.get_mut(number) {
            if kept.search.is_none() {
                kept.search = Some(Search::new(alloc, built)?);
                self.learned = self.learned.saturating_add(LEARNED_AT_FIRST);
            }
        }
        Ok(())
    }

    fn make_room(&mut self, number: usize) -> Result<(), AllocError> {
        for _ in self.kept.len()..number.saturating_add(1) {
            self.kept.push(Kept {
                search: None,
                read: 0,
                after: 0,
            })?;
        }
        Ok(())
    }

    fn search_of(&mut self, number: usize) -> Option<&mut Search<'p>> {
        match self.kept.get_mut(number) {
            Some(kept) => kept.search.as_mut(),
            None => None,
        }
    }

    /// Counts what a search may learn of a text of so many bytes.
    fn count(&mut self, number: usize, bytes: u64) {
        if let Some(kept) = self.kept.get_mut(number) {
            let before = learned_of(kept.read);
            kept.read = kept.read.saturating_add(bytes);
            let more = learned_of(kept.read).saturating_sub(before);
            self.learned = self.learned.saturating_add(more);
        }
    }

    /// Forgets what all searches learned, if it may be too much.
    fn forget_too_much(&mut self) {
        if self.learned > MOST_KEPT {
            self.kept.clear();
            self.learned = 0;
        }
    }
}

/// What a search may have learned of so many bytes.
fn learned_of(bytes: u64) -> u64 {
    LEARNED_OF_BYTE.saturating_mul(bytes).min(MOST_LEARNED)
}

/// The same by a pattern that is built for this once.
fn asks_anew(
    alloc: Global,
    steps: u64,
    source: &str,
    text: &str,
) -> Result<(bool, u64), regex::Error>
    requires { steps ≤ most_steps }
    ensures found { IfOk result (λ r. r.0 ≡ is_found (pattern_of source.now) text.now) }
    ensures left { IfOk result (λ r. r.1 + steps_of source.now text.now ≡ steps) }
    ensures fails { IfErr result (IsCause source.now) }
{
    let built = Built::new(alloc, source)?;
    let mut search = Search::new(alloc, &built)?;
    search.ask(steps, text)
}
