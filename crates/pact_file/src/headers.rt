//! The headers of a response.

ghost use Rattle.std.specs.Prelude.{◌≡◌, map, option_map, string_bytes, IfOk};
ghost use Rattle.std.specs.Prelude.{MatchOption, Some, None};
ghost use Rattle.std.specs.List.{IsAllAdjacentAnswer};
ghost use Rattle.std.specs.List.Sorted.{IsPermutation, IsSorted};
ghost use Rattle.std.specs.Ordering.{is_lt};
ghost use Rattle.serde_json.specs.Find.{as_str};
ghost use Rattle.serde_json.specs.View.{view, members_view};
ghost use Rattle.pact_file.specs.Headers.{HasTwins, HasHeaders, LacksHeaders};
ghost use Rattle.pact_file.specs.Pact.{name_cmp};
ghost use Rattle.pact_file.specs.Parts.{all_of, joined, header_value, header_in, members_listed, headers_found};
ghost use Rattle.pact_file.specs.Sets.{IsSetInOrder};

use crate::pact::Header;
use crate::parts::optional_member;
use crate::texts::push_separated;
use serde_json::{Map, Value};
use std::alloc::{AllocError, Global};

/// The texts of a list, with a comma and a space between each two.
fn read_joined(alloc: Global, items: &[Value]) -> Result<Option<String>, AllocError>
    ensures { IfOk result (λ o.
        option_map string_bytes o ≡ option_map joined (all_of as_str (map view items.now))) }
{
    let mut text = String::new(alloc);
    for (index, item) in items.iter().enumerate() {
        match item.as_str() {
            Some(part) => push_separated(&mut text, index, ", ", part)?,
            None => return Ok(None),
        }
    }
    Ok(Some(text))
}

#[tactic(auto, using(crate::proofs::Lists::listed_view))]
fn read_value(alloc: Global, value: &Value) -> Result<Option<String>, AllocError>
    ensures { IfOk result (λ o. option_map string_bytes o ≡ header_value (view value.now)) }
{
    match value.as_str() {
        Some(text) => Ok(Some(String::from_str(alloc, text)?)),
        None => match value.as_array() {
            Some(items) => read_joined(alloc, items),
            None => Ok(None),
        },
    }
}

fn read_header(alloc: Global, key: &String, value: &Value) -> Result<Option<Header>, AllocError>
    ensures { IfOk result (λ o. o ≡ header_in (string_bytes key.now, view value.now)) }
{
    let Some(value) = read_value(alloc, value)? else {
        return Ok(None);
    };
    let mut name = key.clone()?;
    name.make_ascii_lowercase();
    Ok(Some(Header { name, value }))
}

fn read_members(
    alloc: Global,
    members: &Map<String, Value>,
) -> Result<Option<Vec<Header>>, AllocError>
    ensures { IfOk result (λ o. option_map (λ v. v.items) o
        ≡ all_of header_in (members_listed (members_view members.now.entries))) }
{
    let mut headers = Vec::new(alloc);
    for (key, member) in members.iter() {
        match read_header(alloc, key, member)? {
            Some(header) => headers.push(header)?,
            None => return Ok(None),
        }
    }
    Ok(Some(headers))
}

/// The headers in the order of the file.
#[tactic(auto, unfolding(crate::specs::Parts::headers_found))]
fn find_headers(alloc: Global, response: &Value) -> Result<Option<Vec<Header>>, AllocError>
    ensures { IfOk result (λ o. option_map (λ v. v.items) o ≡ headers_found (view response.now)) }
{
    let Some(found) = optional_member(response, "headers") else {
        return Ok(Some(Vec::new(alloc)));
    };
    match found.as_object() {
        Some(members) => read_members(alloc, members),
        None => Ok(None),
    }
}

fn sort_by_name(headers: &mut Vec<Header>)
    ensures moved { IsPermutation headers.old.items headers.new.items }
    ensures sorted { IsSorted name_cmp headers.new.items }
{
    headers.sort_unstable_by(|left, right| left.name.cmp(&right.name));
}

/// Whether each name is below the next one.
fn names_rise(headers: &[Header]) -> bool
    ensures { IsAllAdjacentAnswer (λ x y b. b ≡ is_lt (name_cmp x y)) headers.now result }
{
    headers.is_sorted_by(|left, right| left.name.cmp(&right.name).is_lt())
}

/// The headers in the order of their names, unless two have one name.
fn in_name_order(found: Vec<Header>) -> Option<Vec<Header>>
    ensures { MatchOption result (HasTwins found.items)
        (λ v. (¬ HasTwins found.items) × IsSetInOrder name_cmp found.items v.items) }
{
    let mut headers = found;
    sort_by_name(&mut headers);
    if names_rise(&headers) {
        Some(headers)
    } else {
        None
    }
}

/// The headers of a response or a reply: an object whose values are texts or lists of texts, which are joined by a
/// comma and a space; no two names equal without ASCII case. They are in the order of their names in lower case; absent
/// headers are none. All else is None. An error means out of memory. (Pact Specification, version 3; the order is this
/// project's own choice.)
pub fn read_headers(alloc: Global, response: &Value) -> Result<Option<Vec<Header>>, AllocError>
    ensures { IfOk result (λ o. MatchOption o
        (LacksHeaders (view response.now)) (λ v. HasHeaders (view response.now) v.items)) }
{
    match find_headers(alloc, response)? {
        Some(found) => Ok(in_name_order(found)),
        None => Ok(None),
    }
}
