//! What the matchers of an entry ask, each thing once.

ghost use Rattle.std.specs.Prelude.{◌≡◌, ◌||◌, ℕ, Bool, [], List, map, option_map, string_bytes, IfOk, OnOk, IsTrue};
ghost use Rattle.std.specs.List.{list_any};
ghost use Rattle.serde_json.specs.Data.{Data};
ghost use Rattle.pact_rules.specs.Gathered.{SaysAs, joined, judged, gathered_hold, has_pattern};
ghost use Rattle.pact_rules.specs.Gathered.{IsGatheredOf, HasItsPatterns, bounds_hold, part_holds};
ghost use Rattle.pact_rules.specs.Matching.{holds, contains};
ghost use Rattle.pact_rules.specs.MatcherView.{matcher_view};
ghost use Rattle.pact_rules.specs.Rules.{is_regex, same_type};

use crate::many::Many;
use crate::parts::{are_apart, without_longer};
use crate::table::Matcher;
use std::alloc::{AllocError, Global};

/// An entry with more matchers than this is gathered, as one with a pattern is.
const FEW: usize = 16;

/// The bounds of a `SameType` matcher.
#[derive(Drop)]
pub(crate) struct Bounds {
    pub(crate) min: Option<u64>,
    pub(crate) max: Option<u64>,
}

/// What matchers ask, each thing once: a flag for each kind that has no more to it, and the texts of the others.
#[derive(Drop)]
pub(crate) struct Gathered {
    pub(crate) equality: bool,
    pub(crate) integer: bool,
    pub(crate) null: bool,
    pub(crate) bounds: Vec<Bounds>,
    pub(crate) parts: Vec<String>,
    pub(crate) patterns: Vec<String>,
}

/// What the matchers ask, if they are many, or one is a pattern.
pub(crate) fn gathered_of_many(
    alloc: Global,
    any: bool,
    matchers: &Vec<Matcher>,
) -> Result<Option<Many>, AllocError>
    ensures says { IfOk result (λ many. IsGatheredOf any matchers.now.items (option_map (λ m. m.gathered) many)) }
    ensures patterns { IfOk result (λ many. HasItsPatterns matchers.now.items (option_map (λ m. m.gathered) many)) }
{
    if matchers.len() > FEW || have_pattern(matchers) {
        let gathered = gather(alloc, any, matchers)?;
        let are_apart = are_apart(&gathered.parts);
        Ok(Some(Many {
            gathered,
            are_apart,
        }))
    } else {
        Ok(None)
    }
}

fn have_pattern(matchers: &Vec<Matcher>) -> bool {
    for matcher in matchers {
        if let Matcher::Regex(_) = matcher {
            return true;
        }
    }
    false
}

/// What the matchers ask, each thing once.
fn gather(alloc: Global, any: bool, matchers: &Vec<Matcher>) -> Result<Gathered, AllocError>
    ensures says { IfOk result (λ g. SaysAs any g (map matcher_view matchers.now.items)) }
    ensures patterns { IfOk result (λ g. has_pattern g ≡ list_any is_regex (map matcher_view matchers.now.items)) }
{
    let all = all_of(alloc, matchers)?;
    all.without_repetition(alloc, any)
}

/// What the matchers ask, as often as they ask it.
fn all_of(alloc: Global, matchers: &Vec<Matcher>) -> Result<Gathered, AllocError>
    ensures says { IfOk result (λ g. (any : Bool) → SaysAs any g (map matcher_view matchers.now.items)) }
    ensures patterns { IfOk result (λ g. has_pattern g ≡ list_any is_regex (map matcher_view matchers.now.items)) }
{
    let mut all = Gathered::new(alloc);
    for matcher in matchers {
        all.add(matcher)?;
    }
    Ok(all)
}

impl Gathered {
    fn new(alloc: Global) -> Gathered
        ensures says { (any : Bool) → SaysAs any result [] }
        ensures patterns { has_pattern result ≡ list_any is_regex [] }
    {
        Gathered {
            equality: false,
            integer: false,
            null: false,
            bounds: Vec::new(alloc),
            parts: Vec::new(alloc),
            patterns: Vec::new(alloc),
        }
    }

    /// Adds what a matcher asks.
    fn add(&mut self, matcher: &Matcher) -> Result<(), AllocError>
        ensures says { OnOk result ((any : Bool) (x y : Data) (own : Bool) → gathered_hold any self.new x y own
            ≡ joined any (gathered_hold any self.old x y own) (holds (matcher_view matcher.now) x y own)) }
        ensures patterns { OnOk result (has_pattern self.new
            ≡ (has_pattern self.old || is_regex (matcher_view matcher.now))) }
    {
        match matcher {
            Matcher::Equality => self.equality = true,
            Matcher::Integer => self.integer = true,
            Matcher::IsNull => self.null = true,
            Matcher::SameType { min, max } => add_bounds(&mut self.bounds, *min, *max)?,
            Matcher::Include(part) => self.parts.push(copy_of(part)?)?,
            Matcher::Regex(source) => self.patterns.push(copy_of(source)?)?,
        }
        Ok(())
    }

    /// The same, each text once.
    fn without_repetition(self, alloc: Global, any: bool) -> Result<Gathered, AllocError>
        ensures says { IfOk result (λ g. (x y : Data) (own : Bool)
            → gathered_hold any g x y own ≡ gathered_hold any self x y own) }
        ensures patterns { IfOk result (λ g. has_pattern g ≡ has_pattern self) }
    {
        let Gathered {
            equality,
            integer,
            null,
            bounds,
            parts,
            patterns,
        } = self;
        Ok(Gathered {
            equality,
            integer,
            null,
            bounds,
            parts: distinct_parts(alloc, any, parts)?,
            patterns: distinct(alloc, patterns)?,
        })
    }
}

/// Each text once, in their order.
fn distinct(alloc: Global, texts: Vec<String>) -> Result<Vec<String>, AllocError>
    ensures { IfOk result (λ v. (any : Bool) (test : List ℕ → Bool)
        → judged any (λ s. test (string_bytes s)) v.items ≡ judged any (λ s. test (string_bytes s)) texts.items) }
{
    let mut sorted = texts;
    sorted.sort_unstable();
    Ok(without_neighbours(alloc, &sorted)?)
}

/// The parts to look for: each once, and if one is enough, none that begins with another one.
fn distinct_parts(alloc: Global, any: bool, texts: Vec<String>) -> Result<Vec<String>, AllocError>
    ensures { IfOk result (λ v. (x y : Data) (own : Bool)
        → judged any (part_holds x y own) v.items ≡ judged any (part_holds x y own) texts.items) }
{
    if any {
        Ok(shortest_parts(alloc, texts)?)
    } else {
        Ok(distinct(alloc, texts)?)
    }
}

/// None that begins with another one: a text that has the one has the other.
fn shortest_parts(alloc: Global, texts: Vec<String>) -> Result<Vec<String>, AllocError>
    ensures { IfOk result (λ v. (t : List ℕ)
        → list_any (λ s. contains (string_bytes s) t) v.items ≡ list_any (λ s. contains (string_bytes s) t) texts.items) }
{
    let mut sorted = texts;
    sorted.sort_unstable();
    Ok(without_longer(alloc, &sorted)?)
}

/// Each text but one that is equal to the text before it.
fn without_neighbours(alloc: Global, texts: &Vec<String>) -> Result<Vec<String>, AllocError>
    ensures { IfOk result (λ v. (any : Bool) (test : List ℕ → Bool)
        → judged any (λ s. test (string_bytes s)) v.items ≡ judged any (λ s. test (string_bytes s)) texts.now.items) }
{
    let mut kept: Vec<String> = Vec::new(alloc);
    for text in texts {
        if !ends_with(&kept, text) {
            kept.push(copy_of(text)?)?;
        }
    }
    Ok(kept)
}

/// Whether a text is the last one that was kept.
fn ends_with(kept: &Vec<String>, text: &String) -> bool
    ensures { IsTrue result → (any : Bool) (test : List ℕ → Bool)
        → joined any (judged any (λ s. test (string_bytes s)) kept.now.items) (test (string_bytes text.now))
        ≡ judged any (λ s. test (string_bytes s)) kept.now.items }
{
    match kept.last() {
        Some(last) => is_same_text(last, text),
        None => false,
    }
}

fn is_same_text(a: &String, b: &String) -> bool
    ensures { IsTrue result → string_bytes a.now ≡ string_bytes b.now }
{
    a.as_str() == b.as_str()
}

fn copy_of(text: &String) -> Result<String, AllocError>
    ensures { IfOk result (λ s. string_bytes s ≡ string_bytes text.now) }
{
    text.clone()
}

/// Adds bounds, unless they are those that were added last.
fn add_bounds(
    bounds: &mut Vec<Bounds>,
    min: Option<u64>,
    max: Option<u64>,
) -> Result<(), AllocError>
    ensures { OnOk result ((any : Bool) (x y : Data) (own : Bool) → judged any (bounds_hold x y own) bounds.new.items
        ≡ joined any (judged any (bounds_hold x y own) bounds.old.items) (holds (same_type min max) x y own)) }
{
    if !were_last(bounds, min, max) {
        bounds.push(Bounds { min, max })?;
    }
    Ok(())
}

/// Whether these bounds are the last ones.
fn were_last(bounds: &Vec<Bounds>, min: Option<u64>, max: Option<u64>) -> bool
    ensures { IsTrue result → (any : Bool) (x y : Data) (own : Bool)
        → joined any (judged any (bounds_hold x y own) bounds.now.items) (holds (same_type min max) x y own)
        ≡ judged any (bounds_hold x y own) bounds.now.items }
{
    match bounds.last() {
        Some(last) => are_bounds(last, min, max),
        None => false,
    }
}

fn are_bounds(bounds: &Bounds, min: Option<u64>, max: Option<u64>) -> bool
    ensures { IsTrue result → (bounds.now.min ≡ min) × (bounds.now.max ≡ max) }
{
    bounds.min == min && bounds.max == max
}
