//! A walk down a tree with the rules that no step has ruled out.

ghost use Rattle.std.specs.Prelude.{◌≡◌, ◌≤◌, ◌<◌, ◌++◌, ◌∷◌, [], ℕ, length, map, option_map, slice_get, Some};
ghost use Rattle.std.specs.Prelude.{IfOk, IfSome, IsTrue, ◌↔◌};
ghost use Rattle.std.specs.List.{Contains};
ghost use Rattle.std.specs.List.Sorted.{IsSortedByKey};
ghost use Rattle.pact_paths.specs.Paths.{Location};
ghost use Rattle.pact_paths.specs.Locations.{step_view};
ghost use Rattle.pact_paths.specs.Asked.{asked_cmp};
ghost use Rattle.pact_paths.specs.AskedView.{asked_view};
ghost use Rattle.pact_paths.specs.Weights.{weight as weight_of};
ghost use Rattle.pact_rules.specs.Rules.{IsInOrder, BodyRule as TableRule};
ghost use Rattle.pact_rules.specs.RuleViews.{rule_view};
ghost use Rattle.pact_rules.specs.Candidates.{outdoes as outdoes_of, preferred as preferred_of};
ghost use Rattle.pact_rules.specs.Choice.{IsChoice, IsOwnPlace, chosen as chosen_of};
ghost use Rattle.pact_rules.specs.Walks.{HasReached, WasStarted, IsAlive, step_count, rule_asks, survivor};
ghost use Rattle.pact_rules.specs.Walks.{own_place as own_place_of};
ghost use Rattle.pact_rules.specs.Survivors.{survivor_view, AreLeftAt, IsLeftAt, IsLeftOf, IsRunOf};

use crate::table::{BodyRule, Candidate, RuleTable};
use pact_paths::{Asked, Path, Step};
use std::alloc::{AllocError, Global};
use std::cmp::Ordering;
use std::marker::Model;

/// An entry that no step has ruled out, with how many of its tokens equal the step of the same index.
#[derive(Clone, Copy)]
struct Survivor {
    index: usize,
    exact: u32,
}

/// The body entries of one table that no step of a walk has ruled out, and how many steps were taken. It is started by
/// `RuleTable::start`, and each of its calls asks for the table that it was started on.
#[derive(Drop)]
pub struct Alive {
    entries: Vec<Survivor>,
    steps: usize,
}

impl Model for Alive {
    ghost use Rattle.std.specs.Prelude.{map};
    ghost use Rattle.pact_rules.specs.Walks.{Walk};
    ghost use Rattle.pact_rules.specs.Survivors.{survivor_view};

    ghost Value = { Walk };

    ghost view = { λ a. record { steps = a.steps; alive = map survivor_view a.entries.items } };
}

impl RuleTable {
    /// A walk that has taken no step; `Err` if no memory is left.
    pub fn start(&self, alloc: Global) -> Result<Alive, AllocError>
        ensures walk { IfOk result (λ a. HasReached self.now a []) }

        // The entries are in the order of their canonical texts.
        ensures order { IsInOrder self.now.body }
    {
        let mut entries = first_survivors(alloc, &self.body)?;
        sort_by_asked(&mut entries, &self.body, 0);
        Ok(Alive { entries, steps: 0 })
    }
}

impl Alive {
    /// The walk after one more step, on the table that it was started on; `Err` if no memory is left.
    pub fn step(&self, alloc: Global, table: &RuleTable, step: &Step) -> Result<Alive, AllocError>
        requires started { WasStarted table.now self.now }
        ensures { IfOk result (λ a. (at : Location) → HasReached table.now self.now at
            → HasReached table.now a (at ++ step_view step.now ∷ [])) }
    {
        let mut entries = survivors_of_step(alloc, &self.entries, &table.body, self.steps, step)?;
        let steps = self.steps.saturating_add(1);
        sort_by_asked(&mut entries, &table.body, steps);
        Ok(Alive { entries, steps })
    }

    /// The index of the entry that `choose` chooses at the steps taken, on the table that the walk was started on.
    /// Takes no memory.
    pub fn chosen(&self, table: &RuleTable) -> Option<usize>
        requires started { WasStarted table.now self.now }
        ensures computed { (at : Location) → HasReached table.now self.now at
            → result ≡ chosen_of table.now.body at }
        ensures choice { (at : Location) → HasReached table.now self.now at
            → IsChoice table.now.body at result }
        ensures within { IfSome result (λ index. index < length table.now.body) }
    {
        best_alive(&self.entries, &table.body, self.steps)
    }

    /// Whether the path of the chosen entry has as many tokens as steps were taken; false if none is chosen. Takes no
    /// memory.
    pub fn own_place(&self, table: &RuleTable) -> bool
        requires started { WasStarted table.now self.now }
        ensures computed { (at : Location) → HasReached table.now self.now at
            → result ≡ own_place_of table.now.body at }
        ensures place { (at : Location) → HasReached table.now self.now at
            → IsTrue result ↔ IsOwnPlace table.now.body at }
    {
        match self.chosen(table) {
            Some(index) => table.path(index).len() == self.steps,
            None => false,
        }
    }
}

/// All entries of a table: no step was taken yet.
fn first_survivors(alloc: Global, rules: &[BodyRule]) -> Result<Vec<Survivor>, AllocError>
    ensures { IfOk result (λ v. (e : ℕ × ℕ)
        → Contains (map survivor_view v.items) e ↔ ((e.0 < length rules.now) × (e.1 ≡ 0))) }
{
    let mut entries = Vec::new(alloc);
    for index in 0..rules.len() {
        entries.push(Survivor { index, exact: 0 })?;
    }
    Ok(entries)
}

/// Puts the entries in the order of what they ask of the next step.
fn sort_by_asked(entries: &mut Vec<Survivor>, rules: &[BodyRule], steps: usize)
    ensures same { (e : ℕ × ℕ) → Contains (map survivor_view entries.new.items) e
        ↔ Contains (map survivor_view entries.old.items) e }
    ensures order { (at : Location) → steps ≡ step_count at
        → IsSortedByKey (rule_asks (map rule_view rules.now) (length at)) asked_cmp
        (map survivor_view entries.new.items) }
{
    entries.sort_unstable_by(|left, right| asked_order(left, right, rules, steps));
}

/// How what two entries ask of the step after so many compares.
fn asked_order(left: &Survivor, right: &Survivor, rules: &[BodyRule], steps: usize) -> Ordering
    ensures { (at : Location) → steps ≡ step_count at
        → result ≡ asked_cmp (rule_asks (map rule_view rules.now) (length at) (survivor_view left.now))
        (rule_asks (map rule_view rules.now) (length at) (survivor_view right.now)) }
{
    asked_by(left, rules, steps).compare(asked_by(right, rules, steps))
}

/// What an entry asks of the step after so many.
fn asked_by<'a>(entry: &Survivor, rules: &'a [BodyRule], steps: usize) -> Asked<'a>
    ensures { (at : Location) → steps ≡ step_count at
        → asked_view result ≡ rule_asks (map rule_view rules.now) (length at) (survivor_view entry.now) }
{
    match rules.get(entry.index) {
        Some(rule) if steps < rule.path.len() => rule.path.asked(steps),
        Some(_) | None => Asked::Nothing,
    }
}

/// The entries that one step more leaves: only those can be left that ask nothing of the step, or this very step.
fn survivors_of_step(
    alloc: Global,
    entries: &[Survivor],
    rules: &[BodyRule],
    steps: usize,
    step: &Step,
) -> Result<Vec<Survivor>, AllocError>
    requires { (at : Location) × AreLeftAt rules.now steps entries.now at }
    ensures { IfOk result (λ v. (at : Location) → AreLeftAt rules.now steps entries.now at → (e : ℕ × ℕ)
        → Contains (map survivor_view v.items) e
        ↔ IsAlive (map rule_view rules.now) (at ++ step_view step.now ∷ []) e) }
{
    let free = run_of(entries, rules, steps, Asked::Nothing);
    let mut left = survivors_of_run(alloc, entries, rules, steps, step, free)?;
    let asking = run_of(entries, rules, steps, step.as_asked());
    let mut more = survivors_of_run(alloc, entries, rules, steps, step, asking)?;
    left.append(&mut more)?;
    Ok(left)
}

/// Some entries of a walk, by the places of the first and of the one after the last.
#[derive(Clone, Copy)]
struct Run {
    from: usize,
    to: usize,
}

/// The run of the entries that ask this.
fn run_of(entries: &[Survivor], rules: &[BodyRule], steps: usize, wanted: Asked<'_>) -> Run
    ensures within { result.to ≤ length entries.now }
    ensures run { (at : Location) → AreLeftAt rules.now steps entries.now at
        → IsRunOf rules.now entries.now (asked_view wanted.entry) result.from result.to at }
{
    Run {
        from: entries.partition_point(|entry| order_to(entry, rules, steps, wanted).is_lt()),
        to: entries.partition_point(|entry| order_to(entry, rules, steps, wanted).is_le()),
    }
}

/// How what an entry asks of the step after so many compares with this.
fn order_to(entry: &Survivor, rules: &[BodyRule], steps: usize, wanted: Asked<'_>) -> Ordering
    ensures { (at : Location) → steps ≡ step_count at
        → result ≡ asked_cmp (rule_asks (map rule_view rules.now) (length at) (survivor_view entry.now))
        (asked_view wanted.entry) }
{
    asked_by(entry, rules, steps).compare(wanted)
}

/// What one step more leaves of a run.
fn survivors_of_run(
    alloc: Global,
    entries: &[Survivor],
    rules: &[BodyRule],
    steps: usize,
    step: &Step,
    run: Run,
) -> Result<Vec<Survivor>, AllocError>
    requires within { run.to ≤ length entries.now }
    requires started { (at : Location) × AreLeftAt rules.now steps entries.now at }
    ensures { IfOk result (λ v. (at : Location) → AreLeftAt rules.now steps entries.now at → (e : ℕ × ℕ)
        → Contains (map survivor_view v.items) e
        ↔ IsLeftOf rules.now entries.now run.from run.to (at ++ step_view step.now ∷ []) e) }
{
    let mut left = Vec::new(alloc);
    for index in run.from..run.to {
        let entry = entries[index];
        let path = path_at(rules, entry.index);
        if let Some(next) = survivor_after(entry, path, steps, step) {
            left.push(next)?;
        }
    }
    Ok(left)
}

/// The path of an entry.
fn path_at(rules: &[BodyRule], index: usize) -> &Path
    requires { index < length rules.now }
    ensures { (r : TableRule) → slice_get (map rule_view rules.now) index ≡ Some r
        → result.now ≡ r.path }
{
    &rules[index].path
}

/// An entry after one step more, unless the step rules it out.
fn survivor_after(entry: Survivor, path: &Path, steps: usize, step: &Step) -> Option<Survivor>
    requires { entry.exact ≤ length path.now }
    ensures { (at : Location) → IsLeftAt path.now steps entry.exact at
        → option_map survivor_view result ≡ survivor entry.index path.now (at ++ step_view step.now ∷ []) }
{
    if path.len() <= steps {
        return Some(entry);
    }
    match path.weigh_token(steps, step) {
        0 => None,
        2 => Some(Survivor {
            index: entry.index,
            exact: entry.exact + 1,
        }),
        _ => Some(entry),
    }
}

/// The index of the best entry that is no longer than the steps taken.
fn best_alive(entries: &[Survivor], rules: &[BodyRule], steps: usize) -> Option<usize>
    requires order { IsInOrder (map rule_view rules.now) }
    requires started { (at : Location) × AreLeftAt rules.now steps entries.now at }
    ensures { (at : Location) → AreLeftAt rules.now steps entries.now at
        → IsChoice (map rule_view rules.now) at result }
{
    let mut found: Option<Candidate> = None;
    for entry in entries {
        let path = path_at(rules, entry.index);
        found = preferred(candidate(*entry, path, steps), found);
    }
    found.map(|candidate| candidate.index)
}

/// The one that is heavier, or as heavy and longer, or else the one whose index is less; a weight of 0 is none.
fn preferred(one: Candidate, found: Option<Candidate>) -> Option<Candidate>
    ensures { result ≡ preferred_of one found }
{
    match found {
        Some(best) if !outdoes(&one, &best) => Some(best),
        Some(_) => Some(one),
        None if one.weight > 0 => Some(one),
        None => None,
    }
}

fn outdoes(a: &Candidate, b: &Candidate) -> bool
    ensures { result ≡ outdoes_of a.now b.now }
{
    a.weight > b.weight
        || a.weight == b.weight
            && (a.tokens > b.tokens || a.tokens == b.tokens && a.index < b.index)
}

/// An entry beside its weight, which is 0 while its path is longer than the steps taken.
fn candidate(entry: Survivor, path: &Path, steps: usize) -> Candidate
    requires { entry.exact ≤ length path.now }
    ensures index { result.index ≡ entry.index }
    ensures tokens { result.tokens ≡ length path.now }
    ensures weight { (at : Location) → IsLeftAt path.now steps entry.exact at
        → result.weight ≡ weight_of path.now at }
{
    let tokens = path.len();
    Candidate {
        index: entry.index,
        weight: if tokens <= steps {
            2u64.pow(entry.exact + 1)
        } else {
            0
        },
        tokens,
    }
}
