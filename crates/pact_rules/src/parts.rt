//! Whether one of many texts is a part of another: one search for all of them.

ghost use Rattle.std.specs.Prelude.{◌≡◌, ◌≤◌, ◌||◌, length, ℕ, List, string_bytes, IfOk, IsTrue};
ghost use Rattle.std.specs.Cmp.Lexicographic.{slice_cmp};
ghost use Rattle.std.specs.List.{list_any};
ghost use Rattle.std.specs.Ordering.{nat_cmp};
ghost use Rattle.pact_rules.specs.Gathered.{AreApart, IsApart, Splits};
ghost use Rattle.pact_rules.specs.Matching.{begins, contains};

use std::alloc::{AllocError, Global};
use std::cmp::Ordering;

/// Whether one of the texts is a part of this one.
pub(crate) fn has_one(parts: &[String], text: &str) -> bool
    requires { AreApart parts.now }
    ensures { result ≡ list_any (λ s. contains (string_bytes s) text.now) parts.now }
{
    let bytes = text.as_bytes();
    for at in 0..bytes.len() {
        if begins_one(parts, &bytes[at..]) {
            return true;
        }
    }
    begins_one(parts, &[])
}

/// Whether one of the texts begins these bytes: only the last one that is below them may.
fn begins_one(parts: &[String], rest: &[u8]) -> bool
    requires { AreApart parts.now }
    ensures { result ≡ list_any (λ s. begins (string_bytes s) rest.now) parts.now }
{
    match parts.binary_search_by(|part| order(part, rest)) {
        Ok(_) => true,
        Err(place) => begins_before(parts, place, rest),
    }
}

/// The same, if those before the place are below these bytes and those from it on are above.
fn begins_before(parts: &[String], place: usize, rest: &[u8]) -> bool
    requires apart { AreApart parts.now }
    requires within { place ≤ length parts.now }
    requires split { Splits parts.now rest.now place }
    ensures { result ≡ list_any (λ s. begins (string_bytes s) rest.now) parts.now }
{
    if place == 0 {
        return false;
    }
    begins_with(rest, &parts[place - 1])
}

fn order(part: &String, rest: &[u8]) -> Ordering
    ensures { result ≡ slice_cmp nat_cmp (string_bytes part.now) rest.now }
{
    part.as_bytes().cmp(rest)
}

fn begins_with(rest: &[u8], part: &String) -> bool
    ensures { result ≡ begins (string_bytes part.now) rest.now }
{
    rest.starts_with(part.as_bytes())
}

/// Whether each text is at most the next, and doesn't begin it.
pub(crate) fn are_apart(texts: &[String]) -> bool
    ensures { IsTrue result → AreApart texts.now }
{
    for index in 1..texts.len() {
        if !is_apart(&texts[index - 1], &texts[index]) {
            return false;
        }
    }
    true
}

fn is_apart(a: &String, b: &String) -> bool
    ensures { IsTrue result → IsApart a.now b.now }
{
    !order(b, a.as_bytes()).is_lt() && !begins_with(b.as_bytes(), a)
}

/// Each text but those that begin with the one that was kept before them.
pub(crate) fn without_longer(alloc: Global, texts: &[String]) -> Result<Vec<String>, AllocError>
    ensures { IfOk result (λ v. (t : List ℕ)
        → list_any (λ s. contains (string_bytes s) t) v.items ≡ list_any (λ s. contains (string_bytes s) t) texts.now) }
{
    let mut kept: Vec<String> = Vec::new(alloc);
    for text in texts {
        if !is_longer(&kept, text) {
            kept.push(text.clone()?)?;
        }
    }
    Ok(kept)
}

/// Whether a text begins with the last one that was kept.
fn is_longer(kept: &[String], text: &String) -> bool
    ensures { IsTrue result → (t : List ℕ)
        → (list_any (λ s. contains (string_bytes s) t) kept.now || contains (string_bytes text.now) t)
        ≡ list_any (λ s. contains (string_bytes s) t) kept.now }
{
    match kept.last() {
        Some(last) => begins_with(text.as_bytes(), last),
        None => false,
    }
}
