//! Names in a query.
ghost use Rattle.std.specs.Prelude.{◌≡◌, IfOk, IfErr, List, ℕ};
ghost use Rattle.form_urlencoded.specs.Form.{raw_pairs};
ghost use Rattle.http_requests.specs.Queries.{values_at, AreValues, IsOnce, IsOneName, IsQueryName};

use crate::names::{Parsed, name_of};
use broker_core::command::FormFault;
use broker_names::name::{Name, Text};
use form_urlencoded::{decode, raw_pairs};
use std::alloc::{AllocError, Global};

/// The values under one key.
#[derive(Drop)]
pub(crate) enum Values {
    Absent,
    /// One value.
    Once(String),
    Repeated,
}

/// The values that a query has under a key.
fn values_at(alloc: Global, query: &[u8], key: &str) -> Result<Values, AllocError>
    ensures { IfOk result (AreValues (values_at key.now (raw_pairs query.now))) }
{
    let mut found = Values::Absent;
    let mut pairs = raw_pairs(query);
    while let Some((name, value)) = pairs.next() {
        if decode(alloc, name)?.as_str() == key {
            found = match found {
                Values::Absent => Values::Once(decode(alloc, value)?.into_owned(alloc)?),
                _ => Values::Repeated,
            };
        }
    }
    Ok(found)
}

/// The name that the only value is. Memory is taken only for a name.
fn only_name(alloc: Global, values: Values) -> Result<Option<Name>, AllocError>
    ensures named { IfOk result (λ name. (all : List (List ℕ)) → AreValues all values → IsOnce all name) }
    ensures memory { IfErr result (λ _. (all : List (List ℕ)) → AreValues all values → IsOneName all) }
{
    match values {
        Values::Once(value) => name_of(alloc, value.as_str()),
        Values::Absent => Ok(None),
        Values::Repeated => Ok(None),
    }
}

/// The name under a key, which must be there exactly once.
pub(crate) fn query_name(alloc: Global, query: &[u8], key: &str) -> Parsed<Name>
    ensures { IfOk result (IsQueryName key.now query.now) }
{
    let values = values_at(alloc, query, key)?;
    match only_name(alloc, values)? {
        Some(name) => Ok(Ok(name)),
        None => Ok(Err(FormFault::Query(Text::new(String::from_str(alloc, key)?)))),
    }
}
