//! Whether a reply's body meets the one that is expected.

ghost use Rattle.std.specs.Prelude.{◌≡◌, ◌↔◌, true, IfOk, IfErr, IsTrue, option_map};
ghost use Rattle.pact_rules.specs.Rules.{has_regex};
ghost use Rattle.serde_json.specs.View.{view};
ghost use Rattle.pact_rules.specs.declared.matching.MatchFault.TheVariants.{Pattern};
ghost use Rattle.reply_check.specs.Bodies.{is_empty as is_empty_of, MeetsBody};

use crate::fit::fits;
use pact_rules::{MatchFault, RuleTable, Searches, are_alike};
use serde_json::Value;
use std::alloc::Global;

/// Whether a reply's body meets the expected one: none asks for nothing, null and the empty text for no body or the
/// same, and any other must be there and fit at the root. Memory may run out, and `Pattern` comes only if the table has
/// a Regex matcher whose pattern is refused.
#[tactic(auto, using(crate::proofs::BodyLemmas::meets_any, crate::proofs::BodyLemmas::meets_none, crate::proofs::BodyLemmas::meets_empty, crate::proofs::BodyLemmas::meets_full))]
pub fn body_meets(
    alloc: Global,
    searches: &mut Searches<'_>,
    rules: &RuleTable,
    expected: Option<&Value>,
    actual: Option<&Value>,
) -> Result<bool, MatchFault>
    ensures value { IfOk result (λ b. IsTrue b
        ↔ MeetsBody rules.now (option_map (λ v. view v.now) expected.entry) (option_map (λ v. view v.now) actual.entry)) }
    ensures pattern { IfErr result (λ e. e ≡ Pattern → has_regex rules.now ≡ true) }
{
    let Some(expected) = expected else {
        return Ok(true);
    };
    let Some(actual) = actual else {
        return Ok(is_empty(expected));
    };
    if is_empty(expected) {
        return Ok(are_alike(expected, actual));
    }
    fits(alloc, searches, rules, expected, actual)
}

/// Whether a body is null or the empty text.
fn is_empty(body: &Value) -> bool
    ensures { result ≡ is_empty_of (view body.now) }
{
    match body {
        Value::Null => true,
        Value::String(text) => text.is_empty(),
        Value::Bool(_) | Value::Number(_) | Value::Array(_) | Value::Object(_) => false,
    }
}
