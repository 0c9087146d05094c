//! Whether the expected headers were sent.

ghost use Rattle.std.specs.Prelude.{◌≡◌, ◌↔◌, true, MatchOption, IfOk, IfErr, IsTrue};
ghost use Rattle.std.specs.Cmp.Lexicographic.{slice_cmp};
ghost use Rattle.std.specs.Ordering.{nat_cmp};
ghost use Rattle.pact_file.specs.Pact.{name_cmp};
ghost use Rattle.pact_file.specs.Sets.{IsRising};
ghost use Rattle.pact_rules.specs.Lists.{OneOf, IsIn};
ghost use Rattle.pact_rules.specs.Rules.{has_regex};
ghost use Rattle.pact_rules.specs.declared.matching.MatchFault.TheVariants.{Pattern};
ghost use Rattle.reply_check.specs.Meeting.{FitsHeader};
ghost use Rattle.reply_check.specs.Sent.{WasSent, WereSent};

use crate::fit::entry_holds;
use crate::header_value::has_value;
use pact_file::Header;
use pact_rules::{MatchFault, RuleTable, Searches};
use serde_json::Value;
use std::alloc::Global;
use std::cmp::Ordering;

/// Whether each expected header was sent with a value that fits, if those that were sent are in the order of their
/// names. Other headers are allowed.
pub(crate) fn headers_meet(
    alloc: Global,
    searches: &mut Searches<'_>,
    rules: &RuleTable,
    expected: &[Header],
    sent: &[Header],
) -> Result<bool, MatchFault>
    requires { IsRising name_cmp sent.now }
    ensures value { IfOk result (λ b. IsTrue b ↔ WereSent rules.now sent.now expected.now) }
    ensures pattern { IfErr result (λ e. e ≡ Pattern → has_regex rules.now ≡ true) }
{
    for header in expected {
        if !was_sent(alloc, searches, rules, header, sent)? {
            return Ok(false);
        }
    }
    Ok(true)
}

fn was_sent(
    alloc: Global,
    searches: &mut Searches<'_>,
    rules: &RuleTable,
    expected: &Header,
    sent: &[Header],
) -> Result<bool, MatchFault>
    requires { IsRising name_cmp sent.now }
    ensures value { IfOk result (λ b. IsTrue b ↔ WasSent rules.now sent.now expected.now) }
    ensures pattern { IfErr result (λ e. e ≡ Pattern → has_regex rules.now ≡ true) }
{
    match sent_as(expected.name(), sent) {
        Some(header) => value_fits(alloc, searches, rules, expected, header.value()),
        None => Ok(false),
    }
}

/// The header that was sent under a name.
fn sent_as<'a>(name: &str, sent: &'a [Header]) -> Option<&'a Header>
    requires { IsRising name_cmp sent.now }
    ensures { MatchOption result (¬ OneOf (λ g. g.name ≡ name.now) sent.now)
        (λ h. IsIn h.now sent.now × (h.now.name ≡ name.now)) }
{
    match sent.binary_search_by(|header| name_order(header, name)) {
        Ok(place) => Some(&sent[place]),
        Err(_) => None,
    }
}

fn name_order(header: &Header, name: &str) -> Ordering
    ensures { result ≡ slice_cmp nat_cmp header.now.name name.now }
{
    header.name().cmp(name)
}

/// Whether a value that was sent fits: the matchers of the header's entry hold on the two texts as read, or without
/// an entry the values are the same but for what doesn't count.
fn value_fits(
    alloc: Global,
    searches: &mut Searches<'_>,
    rules: &RuleTable,
    expected: &Header,
    sent: &str,
) -> Result<bool, MatchFault>
    ensures value { IfOk result (λ b. IsTrue b ↔ FitsHeader rules.now expected.now sent.now) }
    ensures pattern { IfErr result (λ e. e ≡ Pattern → has_regex rules.now ≡ true) }
{
    match rules.header(expected.name()) {
        None => Ok(has_value(alloc, expected.name(), expected.value(), sent)?),
        Some(entry) => {
            let expected = Value::String(String::from_str(alloc, expected.value())?);
            let sent = Value::String(String::from_str(alloc, sent)?);
            entry_holds(alloc, searches, entry, &expected, &sent, false)
        }
    }
}
