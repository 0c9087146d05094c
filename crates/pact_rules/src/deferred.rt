//! Many patterns of an entry, asked of many texts: each pattern of all of them before the next one, so that what the
//! search for it has learned is used.

ghost use Rattle.std.specs.Prelude.{◌≡◌, ◌&&◌, ◌||◌, true, Bool, String, IfOk, IfErr};
ghost use Rattle.std.specs.List.{list_all, list_any};
ghost use Rattle.serde_json.specs.View.{view};
ghost use Rattle.pact_rules.specs.Gathered.{gathered_hold, has_pattern};
ghost use Rattle.pact_rules.specs.Deferred.{is_matched, deferred_hold as deferred_hold_of, gathered_deferred_hold};
ghost use Rattle.std.specs.declared.alloc.Global.{Global};
ghost use Rattle.pact_rules.specs.Matching.{entry_holds};
ghost use Rattle.pact_rules.specs.Rules.{entry_has_regex};
ghost use Rattle.pact_rules.specs.RuleViews.{entry_view};
ghost use Rattle.pact_rules.specs.declared.matching.MatchFault.TheVariants.{Pattern};

use crate::entry::Entry;
use crate::gathered::Gathered;
use crate::judging::{join, nothing_holds, parts_hold};
use crate::many::Many;
use crate::matching::{MatchFault, text_form};
use pact_patterns::Searches;
use serde_json::Value;
use std::alloc::{AllocError, Global};

impl Entry {
    /// Whether it has patterns. Takes no memory.
    pub fn has_patterns(&self) -> bool {
        match &self.many {
            Some(many) => many.gathered.patterns.len() > 0,
            None => false,
        }
    }

    /// Whether it holds of an expected and an actual value, but for its patterns: if these have to be asked, their text
    /// is added to those of which they are asked later. Memory may run out, and `Pattern` comes only if the entry has
    /// a Regex matcher whose pattern is refused.
    pub fn holds_or_defers(
        &self,
        alloc: Global,
        searches: &mut Searches<'_>,
        texts: &mut Vec<String>,
        expected: &Value,
        actual: &Value,
        own_place: bool,
    ) -> Result<bool, MatchFault>
        ensures value { IfOk result (λ b. (b && deferred_hold_of self.now texts.new.items)
            ≡ (deferred_hold_of self.now texts.old.items
            && entry_holds (entry_view self.now) (view expected.now) (view actual.now) own_place)) }
        ensures pattern { IfErr result (λ e. e ≡ Pattern → entry_has_regex (entry_view self.now) ≡ true) }
    {
        match &self.many {
            Some(many) => Ok(many.holds_or_defers(
                alloc, self.any, texts, expected, actual, own_place,
            )?),
            None => self.each_holds(alloc, searches, expected, actual, own_place),
        }
    }

    /// Whether its patterns hold of each of these texts, which `holds_or_defers` added: each pattern is asked of all of
    /// them before the next one. It fails as that does.
    pub fn deferred_hold(
        &self,
        alloc: Global,
        searches: &mut Searches<'_>,
        texts: Vec<String>,
    ) -> Result<bool, MatchFault>
        ensures value { IfOk result (λ b. b ≡ deferred_hold_of self.now texts.items) }
        ensures pattern { IfErr result (λ e. e ≡ Pattern → entry_has_regex (entry_view self.now) ≡ true) }
    {
        match &self.many {
            Some(many) => many
                .gathered
                .deferred_hold(alloc, searches, self.any, texts),
            None => Ok(true),
        }
    }
}

impl Many {
    /// Whether what is asked holds, but for the patterns: if these have to be asked, their text is added.
    fn holds_or_defers(
        &self,
        alloc: Global,
        any: bool,
        texts: &mut Vec<String>,
        expected: &Value,
        actual: &Value,
        own_place: bool,
    ) -> Result<bool, AllocError>
        ensures { IfOk result (λ b. (b && gathered_deferred_hold any self.now.gathered texts.new.items)
            ≡ (gathered_deferred_hold any self.now.gathered texts.old.items
            && gathered_hold any self.now.gathered (view expected.now) (view actual.now) own_place)) }
    {
        let asked = &self.gathered;
        if asked.plain_hold(any, expected, actual, own_place) == any {
            return Ok(any);
        }
        let Some(text) = text_form(alloc, actual)? else {
            return Ok(join(
                any,
                nothing_holds(&asked.parts, any),
                nothing_holds(&asked.patterns, any),
            ));
        };
        if parts_hold(&asked.parts, any, self.are_apart, &text) == any {
            return Ok(any);
        }
        texts.push(text)?;
        Ok(true)
    }
}

impl Gathered {
    /// Whether the patterns hold of each of these texts.
    fn deferred_hold(
        &self,
        alloc: Global,
        searches: &mut Searches<'_>,
        any: bool,
        texts: Vec<String>,
    ) -> Result<bool, MatchFault>
        ensures value { IfOk result (λ b. b ≡ gathered_deferred_hold any self.now texts.items) }
        ensures pattern { IfErr result (λ e. e ≡ Pattern → has_pattern self.now ≡ true) }
    {
        if any {
            one_is_found(alloc, searches, &self.patterns, texts)
        } else {
            all_are_found(alloc, searches, &self.patterns, &texts)
        }
    }
}

/// Whether all patterns are found in each of the texts.
fn all_are_found(
    alloc: Global,
    searches: &mut Searches<'_>,
    patterns: &Vec<String>,
    texts: &Vec<String>,
) -> Result<bool, MatchFault>
    ensures value { IfOk result (λ b. b
        ≡ list_all (λ t. list_all (is_matched t) patterns.now.items) texts.now.items) }
    ensures pattern { IfErr result (λ e. e ≡ Pattern → list_any (λ s. true) patterns.now.items ≡ true) }
{
    for pattern in patterns {
        if !is_found_in_each(alloc, searches, pattern, texts)? {
            return Ok(false);
        }
    }
    Ok(true)
}

fn is_found_in_each(
    alloc: Global,
    searches: &mut Searches<'_>,
    pattern: &String,
    texts: &Vec<String>,
) -> Result<bool, MatchFault>
    ensures { IfOk result (λ b. b ≡ list_all (λ t. is_matched t pattern.now) texts.now.items) }
{
    for text in texts {
        if !searches.finds(alloc, pattern, text)? {
            return Ok(false);
        }
    }
    Ok(true)
}

/// Whether one of the patterns is found in each of the texts.
fn one_is_found(
    alloc: Global,
    searches: &mut Searches<'_>,
    patterns: &Vec<String>,
    texts: Vec<String>,
) -> Result<bool, MatchFault>
    ensures value { IfOk result (λ b. b ≡ list_all (λ t. list_any (is_matched t) patterns.now.items) texts.items) }
    ensures pattern { IfErr result (λ e. e ≡ Pattern → list_any (λ s. true) patterns.now.items ≡ true) }
{
    let mut left = texts;
    for pattern in patterns {
        left = without_found(alloc, searches, pattern, left)?;
    }
    Ok(left.is_empty())
}

/// The texts in which the pattern isn't found.
fn without_found(
    alloc: Global,
    searches: &mut Searches<'_>,
    pattern: &String,
    texts: Vec<String>,
) -> Result<Vec<String>, MatchFault>
    ensures { IfOk result (λ v. (holds : String Global → Bool)
        → list_all holds v.items ≡ list_all (λ t. is_matched t pattern.now || holds t) texts.items) }
{
    let mut left = Vec::new(alloc);
    for text in texts {
        if !searches.finds(alloc, pattern, &text)? {
            left.push(text)?;
        }
    }
    Ok(left)
}
