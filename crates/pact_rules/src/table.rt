//! Rule tables: what they hold, and the entry that is chosen at a location.

ghost use Rattle.std.specs.Prelude.{slice_get, Some, true, ◌≡◌, ◌<◌, length, map, ℕ, IfErr, IfSome, option_map};
ghost use Rattle.std.specs.Char.{to_ascii_lowercase};
ghost use Rattle.std.specs.Cmp.Lexicographic.{slice_cmp};
ghost use Rattle.std.specs.Ordering.{nat_cmp};
ghost use Rattle.std.specs.Str.{str_to_ascii_lowercase};
ghost use Rattle.pact_paths.specs.Locations.{step_view};
ghost use Rattle.pact_rules.specs.Candidates.{outweighs, better_of};
ghost use Rattle.pact_rules.specs.Choice.{IsChosen, IsChoice, chosen};
ghost use Rattle.std.specs.List.{list_any};
ghost use Rattle.pact_rules.specs.RuleViews.{rule_view, header_view, entry_view, matcher_view};
ghost use Rattle.pact_rules.specs.Rules.{IsInOrder, no_rules, is_regex as is_regex_of, entry_has_regex};
ghost use Rattle.pact_rules.specs.Rules.{IsOrderedBy, name_key, has_regex as has_regex_of};
ghost use Rattle.pact_rules.specs.Tables.{header_entry};
ghost use Rattle.pact_rules.specs.declared.matching.MatchFault.TheVariants.{Pattern};

use crate::entry::Entry;
use crate::matching::MatchFault;
use pact_paths::{Path, Step, weight};
use pact_patterns::BuiltPatterns;
use std::alloc::Global;
use std::cmp::Ordering;
use std::marker::Model;

/// What an actual value is compared with; the names are those of the Pact Specification, what they ask is this
/// project's own choice.
#[derive(Drop)]
pub enum Matcher {
    /// The same kind, and equal scalars, lists of one length, or objects of one key set.
    Equality,
    /// The same kind; at its own place a list's length is at least `min` and at most `max`.
    SameType { min: Option<u64>, max: Option<u64> },
    /// A text, whole number or truth value in whose text the pattern is found.
    Regex(String),
    /// A text, whole number or truth value whose text has this part.
    Include(String),
    /// A whole number.
    Integer,
    /// Null.
    IsNull,
}

#[derive(Drop)]
pub(crate) struct BodyRule {
    pub(crate) path: Path,
    pub(crate) entry: Entry,
}

#[derive(Drop)]
pub(crate) struct HeaderRule {
    pub(crate) name: String,
    pub(crate) entry: Entry,
}

/// The matching rules of a response: body entries in order of their paths' canonical text, and header entries. Each
/// has at least one matcher, no two header names are equal without ASCII case, and the grammar of `regex` reads each
/// pattern.
#[derive(Drop)]
pub struct RuleTable {
    pub(crate) body: Vec<BodyRule>,
    pub(crate) headers: Vec<HeaderRule>,
}

impl Model for RuleTable {
    ghost use Rattle.std.specs.Prelude.{slice_get, Some, map};
    ghost use Rattle.pact_rules.specs.Rules.{Rules};
    ghost use Rattle.pact_rules.specs.Tables.{IsTable};

    ghost Value = { Rules };

    ghost use Rattle.pact_rules.specs.RuleViews.{table_view};

    ghost view = { λ t. table_view t.body.items t.headers.items };

    ghost invariant = { λ t. IsTable (table_view t.body.items t.headers.items) };
}

impl RuleTable {
    /// The table without entries. Takes no memory.
    pub fn none(alloc: Global) -> RuleTable
        ensures { result ≡ no_rules }
    {
        RuleTable {
            body: Vec::new(alloc),
            headers: Vec::new(alloc),
        }
    }

    /// The index of the body entry that is chosen at a location: of those whose path has a positive weight there the
    /// heaviest, then the one with more tokens, then the one whose canonical text is least; none if no weight is
    /// positive. Weights are those of the Pact Specification, version 2; how ties are broken is this project's own
    /// choice. Takes no memory.
    pub fn choose(&self, location: &[Step]) -> Option<usize>
        ensures choice { IsChoice self.now.body (map step_view location.now) result }
        ensures computed { result ≡ chosen self.now.body (map step_view location.now) }
        ensures only { (i : ℕ) → IsChosen self.now.body (map step_view location.now) i
            → result ≡ Some i }
        ensures within { IfSome result (λ index. index < length self.now.body) }
    {
        best_of(&self.body, location)
    }

    /// The path of the body entry at an index of the table. Takes no memory.
    pub fn path(&self, index: usize) -> &Path
        requires { index < length self.now.body }
        ensures { slice_get (map (λ r. r.path) self.now.body) index ≡ Some result.now }
    {
        &self.body[index].path
    }

    /// The body entry at an index of the table. Takes no memory.
    pub fn entry(&self, index: usize) -> &Entry
        requires { index < length self.now.body }
        ensures { slice_get (map (λ r. r.entry) self.now.body) index
            ≡ Some (entry_view result.now) }
    {
        &self.body[index].entry
    }

    /// The entry of a header by its name, without ASCII case; none if the table has none. Takes no memory.
    pub fn header(&self, name: &str) -> Option<&Entry>
        ensures { option_map (λ e. entry_view e.now) result
            ≡ header_entry self.now.headers name.now }
    {
        entry_named(&self.headers, name)
    }

    /// Whether a body or header entry has a Regex matcher, so that `holds` may answer `Pattern`. Takes no memory.
    pub fn has_regex(&self) -> bool
        ensures { result ≡ has_regex_of self.now }
    {
        body_has_regex(&self.body) || headers_have_regex(&self.headers)
    }

    /// Builds the patterns of the table that weren't built yet. Memory may run out, and `Pattern` comes only if the
    /// table has a Regex matcher whose pattern is refused.
    pub fn build_patterns(
        &self,
        alloc: Global,
        patterns: &mut BuiltPatterns,
    ) -> Result<(), MatchFault>
        ensures { IfErr result (λ e. e ≡ Pattern → has_regex_of self.now ≡ true) }
    {
        if !self.has_regex() {
            return Ok(());
        }
        build_body(alloc, patterns, &self.body)?;
        build_headers(alloc, patterns, &self.headers)
    }
}

fn build_body(
    alloc: Global,
    patterns: &mut BuiltPatterns,
    rules: &[BodyRule],
) -> Result<(), MatchFault> {
    for rule in rules {
        rule.entry.build(alloc, patterns)?;
    }
    Ok(())
}

fn build_headers(
    alloc: Global,
    patterns: &mut BuiltPatterns,
    rules: &[HeaderRule],
) -> Result<(), MatchFault> {
    for rule in rules {
        rule.entry.build(alloc, patterns)?;
    }
    Ok(())
}

/// The entry of the header of this name, among rules in the order of their names, both in lower case.
fn entry_named<'a>(rules: &'a [HeaderRule], name: &str) -> Option<&'a Entry>
    requires { IsOrderedBy name_key (map header_view rules.now) }
    ensures { option_map (λ e. entry_view e.now) result
        ≡ header_entry (map header_view rules.now) name.now }
{
    match rules.binary_search_by(|rule| name_order(rule, name)) {
        Ok(index) => Some(&rules[index].entry),
        Err(_) => None,
    }
}

/// How the name of a header entry compares with a name, both in lower case.
fn name_order(rule: &HeaderRule, name: &str) -> Ordering
    ensures { result
        ≡ slice_cmp nat_cmp (name_key (header_view rule.now)) (str_to_ascii_lowercase name.now) }
{
    lower_order(rule.name.as_str().as_bytes(), name.as_bytes())
}

/// How two texts compare in lower case, byte by byte.
fn lower_order(left: &[u8], right: &[u8]) -> Ordering
    ensures { result
        ≡ slice_cmp nat_cmp (map to_ascii_lowercase left.now) (map to_ascii_lowercase right.now) }
{
    for (index, byte) in left.iter().enumerate() {
        if index >= right.len() {
            return Ordering::Greater;
        }
        let order = byte
            .to_ascii_lowercase()
            .cmp(&right[index].to_ascii_lowercase());
        if order.is_ne() {
            return order;
        }
    }
    if left.len() < right.len() {
        Ordering::Less
    } else {
        Ordering::Equal
    }
}

fn body_has_regex(rules: &[BodyRule]) -> bool
    ensures { result ≡ list_any (λ r. entry_has_regex r.entry) (map rule_view rules.now) }
{
    for rule in rules {
        if rule.entry.has_regex() {
            return true;
        }
    }
    false
}

fn headers_have_regex(rules: &[HeaderRule]) -> bool
    ensures { result ≡ list_any (λ h. entry_has_regex h.entry) (map header_view rules.now) }
{
    for rule in rules {
        if rule.entry.has_regex() {
            return true;
        }
    }
    false
}

impl Entry {
    fn has_regex(&self) -> bool
        ensures { result ≡ entry_has_regex (entry_view self.now) }
    {
        for matcher in &self.matchers {
            if matcher.is_regex() {
                return true;
            }
        }
        false
    }

    fn build(&self, alloc: Global, patterns: &mut BuiltPatterns) -> Result<(), MatchFault> {
        for matcher in &self.matchers {
            if let Matcher::Regex(source) = matcher {
                patterns.build(alloc, source)?;
            }
        }
        Ok(())
    }
}

impl Matcher {
    fn is_regex(&self) -> bool
        ensures { result ≡ is_regex_of (matcher_view self.now) }
    {
        match self {
            Matcher::Regex(_) => true,
            Matcher::Equality
            | Matcher::SameType { .. }
            | Matcher::Include(_)
            | Matcher::Integer
            | Matcher::IsNull => false,
        }
    }
}

/// A rule that may be chosen.
#[derive(Clone, Copy)]
pub(crate) struct Candidate {
    pub(crate) index: usize,
    pub(crate) weight: u64,
    pub(crate) tokens: usize,
}

/// The index of the heaviest rule, then of the longest path, then of the first.
fn best_of(rules: &[BodyRule], location: &[Step]) -> Option<usize>
    requires { IsInOrder (map rule_view rules.now) }
    ensures { result ≡ chosen (map rule_view rules.now) (map step_view location.now) }
{
    let mut found: Option<Candidate> = None;
    for index in (0..rules.len()).rev() {
        let path = &rules[index].path;
        let candidate = Candidate {
            index,
            weight: weight(path, location),
            tokens: path.len(),
        };
        found = better(candidate, found);
    }
    found.map(|candidate| candidate.index)
}

/// The earlier rule, unless the one found after it is heavier, or as heavy and longer.
fn better(earlier: Candidate, found: Option<Candidate>) -> Option<Candidate>
    ensures { result ≡ better_of earlier found }
{
    match found {
        Some(best) if is_better(&best, &earlier) => Some(best),
        Some(_) => Some(earlier),
        None if earlier.weight > 0 => Some(earlier),
        None => None,
    }
}

fn is_better(a: &Candidate, b: &Candidate) -> bool
    ensures { result ≡ outweighs a.now b.now }
{
    a.weight > b.weight || a.weight == b.weight && a.tokens > b.tokens
}
