//! The texts that patterns are still to be asked of: of all of them one pattern after the other.

ghost use Rattle.std.specs.Prelude.{◌≡◌, ◌<◌, ◌&&◌, true, Some, length, map, slice_get, IfOk, IfErr, OnOk};
ghost use Rattle.pact_rules.specs.Matching.{entry_holds};
ghost use Rattle.pact_rules.specs.Rules.{Rules as RulesModel, Entry as EntryModel, has_regex, entry_has_regex};
ghost use Rattle.pact_rules.specs.RuleViews.{entry_view};
ghost use Rattle.pact_rules.specs.declared.matching.MatchFault.TheVariants.{Pattern};
ghost use Rattle.serde_json.specs.View.{view};
ghost use Rattle.reply_check.specs.Deferred.{AreOf, AreTextsAt, Defers, texts_hold, deferred_holds};

use pact_rules::{Entry, MatchFault, RuleTable, Searches};
use serde_json::Value;
use std::alloc::{AllocError, Global};

/// An entry, by its index in the table, and the texts that its patterns are still to be asked of.
#[derive(Drop)]
struct DeferredTexts<'r> {
    index: usize,
    entry: &'r Entry,
    texts: Vec<String>,
}

impl<'r> DeferredTexts<'r> {
    /// Whether the entry holds, but for its patterns: if these have to be asked, their text is added.
    fn holds_or_defers(
        &mut self,
        alloc: Global,
        searches: &mut Searches<'_>,
        expected: &Value,
        actual: &Value,
        own_place: bool,
    ) -> Result<bool, MatchFault>
        ensures same { (self.new.index ≡ self.old.index) × (self.new.entry ≡ self.old.entry) }
        ensures value { IfOk result (λ b. (b && texts_hold self.new)
            ≡ (texts_hold self.old
            && entry_holds (entry_view self.old.entry.now) (view expected.now) (view actual.now) own_place)) }
        ensures pattern { IfErr result (λ e. e ≡ Pattern → entry_has_regex (entry_view self.old.entry.now) ≡ true) }
    {
        self.entry.holds_or_defers(
            alloc,
            searches,
            &mut self.texts,
            expected,
            actual,
            own_place,
        )
    }
}

/// What is still to be asked: the patterns of some entries, each of its texts.
#[derive(Drop)]
pub(crate) struct Deferred<'r> {
    groups: Vec<DeferredTexts<'r>>,
}

impl<'r> Deferred<'r> {
    /// Nothing is deferred. Takes no memory.
    pub(crate) fn nothing(alloc: Global) -> Deferred<'r>
        ensures of { (rules : RulesModel) → AreOf rules result }
        ensures holds { deferred_holds result ≡ true }
    {
        Deferred {
            groups: Vec::new(alloc),
        }
    }

    /// Whether the entry of this index holds, but for its patterns: these are still to be asked then.
    pub(crate) fn holds_or_defers(
        &mut self,
        alloc: Global,
        searches: &mut Searches<'_>,
        rules: &'r RuleTable,
        index: usize,
        expected: &Value,
        actual: &Value,
        own_place: bool,
    ) -> Result<bool, MatchFault>
        requires of { AreOf rules.now self.old }
        requires within { index < length rules.now.body }
        ensures of { OnOk result (AreOf rules.now self.new) }
        ensures value { IfOk result (λ b. (e : EntryModel)
            → slice_get (map (λ r. r.entry) rules.now.body) index ≡ Some e
            → Defers self.old self.new b (entry_holds e (view expected.now) (view actual.now) own_place)) }
        ensures pattern { IfErr result (λ e. e ≡ Pattern → has_regex rules.now ≡ true) }
    {
        let place = self.place_of(alloc, rules, index)?;
        self.groups[place].holds_or_defers(alloc, searches, expected, actual, own_place)
    }

    /// The place of the group of this entry, which is there then.
    fn place_of(
        &mut self,
        alloc: Global,
        rules: &'r RuleTable,
        index: usize,
    ) -> Result<usize, AllocError>
        requires of { AreOf rules.now self.old }
        requires within { index < length rules.now.body }
        ensures of { OnOk result (AreOf rules.now self.new) }
        ensures place { IfOk result (AreTextsAt index self.new) }
        ensures same { OnOk result (deferred_holds self.new ≡ deferred_holds self.old) }
    {
        for place in 0..self.groups.len() {
            if self.groups[place].index == index {
                return Ok(place);
            }
        }
        let place = self.groups.len();
        self.groups.push(DeferredTexts {
            index,
            entry: rules.entry(index),
            texts: Vec::new(alloc),
        })?;
        Ok(place)
    }

    /// Whether all that was deferred holds.
    pub(crate) fn holds(
        self,
        alloc: Global,
        searches: &mut Searches<'_>,
        rules: &RuleTable,
    ) -> Result<bool, MatchFault>
        requires of { AreOf rules.now self }
        ensures value { IfOk result (λ b. b ≡ deferred_holds self.entry) }
        ensures pattern { IfErr result (λ e. e ≡ Pattern → has_regex rules.now ≡ true) }
    {
        for group in self.groups {
            if !group.entry.deferred_hold(alloc, searches, group.texts)? {
                return Ok(false);
            }
        }
        Ok(true)
    }
}
