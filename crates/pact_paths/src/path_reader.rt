//! Reading a path expression, from left to right.

ghost use Rattle.std.specs.Prelude.{◌≡◌, ◌⊎◌, ◌↔◌, ◌<◌, IsTrue, ◌≤◌, IfOk, option_map, length, map, IsCharBoundary};
ghost use Rattle.std.specs.Prelude.{IfSome, Some, None, if◌then◌else◌};
ghost use Rattle.std.specs.List.{position_or_len};
ghost use Rattle.pact_paths.specs.TokenView.{token_view, seen_view};
ghost use Rattle.pact_paths.specs.Spelling.{is_special, is_index};
ghost use Rattle.pact_paths.specs.PathReading.{token_in, dotted as dotted_in, bracketed as bracketed_in};
ghost use Rattle.pact_paths.specs.PathReading.{plain as plain_in, quoted as quoted_in, index as index_in};
ghost use Rattle.pact_paths.specs.PathReading.{following as after_of, cut as cut_of, closed_star as closed_star_in};
ghost use Rattle.pact_paths.specs.PathReading.{tokens_in, with_all};
ghost use Rattle.pact_paths.specs.Outcome.{Gives, checked};
ghost use Rattle.pact_paths.specs.Readings.{IsReading, IsTheReading};
ghost use Rattle.pact_paths.specs.Paths.{named, indexed, any};
ghost use Rattle.pact_paths.specs.declared.path_reader.PathFault.{PathFault as PathFaultModel};
ghost use Rattle.pact_paths.specs.declared.path_reader.PathFault.TheVariants.{Memory};
ghost use Rattle.std.specs.Str.Parse.{digits_value};
ghost use Rattle.std.specs.Str.{all_ascii_digits};

use crate::path::{Path, Token};
use std::alloc::{AllocError, AllocFailed, Global};
use thiserror::Error;

/// Why a text was not read as a path: its first fault from left to right, or no memory was left.
#[derive(Clone, Copy, Debug, PartialEq, Eq, Error)]
pub enum PathFault {
    /// The text doesn't begin with `$`.
    #[error("no `$` at the front")]
    NoRoot,
    /// No token begins at this byte, counted from 0: reading stops here, before it has 60 tokens.
    #[error("no token at byte {0}")]
    BadToken(usize),
    /// Text is left after 60 tokens.
    #[error("too many tokens")]
    TooManyTokens,
    /// No memory was left.
    #[error("out of memory")]
    Memory,
}

impl From<AllocError> for PathFault {
    ghost from_gives = { λ _ fault. fault ≡ Memory };

    fn from(_: AllocError) -> PathFault {
        PathFault::Memory
    }
}

impl<T: Drop> From<AllocFailed<T>> for PathFault {
    ghost from_gives = { λ _ fault. fault ≡ Memory };

    fn from(_: AllocFailed<T>) -> PathFault {
        PathFault::Memory
    }
}

/// How many tokens a path has at most.
const MAX_TOKENS: usize = 60;

impl Path {
    /// Reads a path: the root `$`, and then at most 60 tokens, each `.name`, `['name']`, `[n]`, `.*` or `[*]`. A name
    /// after a dot has one or more characters, none of them `.` `[` `]` `'` `*`; a name in quotes has any but `'`, or
    /// none; an index has one to nine digits. Each token takes what it can, and the error is the first fault from the
    /// left. Memory may run out only for a text that has no fault.
    pub fn read(alloc: Global, text: &str) -> Result<Path, PathFault>
        // The result is the one reading of the text, unless memory runs out.
        ensures reading { (result ≡ Err Memory) ⊎ IsTheReading text.now result }

        // A fault is found before any memory is taken.
        ensures faults { (e : PathFaultModel) → IsReading text.now (Err e) → result ≡ Err e }
    {
        let Some(rest) = following(text, '$') else {
            return Err(PathFault::NoRoot);
        };
        check_tokens(text.len(), MAX_TOKENS, rest)?;
        let tokens = tokens_of(alloc, text.len(), MAX_TOKENS, rest, Vec::new(alloc))?;
        Ok(Path { tokens })
    }
}

/// Whether what is left of a text of `total` bytes is at most so many tokens, or the first fault. Takes no memory.
fn check_tokens(total: usize, limit: usize, text: &str) -> Result<(), PathFault>
    requires { length text.now ≤ total }
    ensures { result ≡ checked (tokens_in total limit text.now) }
{
    if text.is_empty() {
        return Ok(());
    }
    if limit == 0 {
        return Err(PathFault::TooManyTokens);
    }
    match token_at(text) {
        Some((_, rest)) => check_tokens(total, limit - 1, rest),
        None => Err(PathFault::BadToken(total - text.len())),
    }
}

/// The tokens so far, and at most so many more in what is left of a text of `total` bytes.
fn tokens_of(
    alloc: Global,
    total: usize,
    limit: usize,
    text: &str,
    tokens: Vec<Token>,
) -> Result<Vec<Token>, PathFault>
    requires { length text.now ≤ total }
    ensures { Gives Memory (λ v. map token_view v.items) result
        (with_all (map token_view tokens.items) (tokens_in total limit text.now)) }
{
    if text.is_empty() {
        return Ok(tokens);
    }
    if limit == 0 {
        return Err(PathFault::TooManyTokens);
    }
    match token_at(text) {
        Some((seen, rest)) => {
            let mut tokens = tokens;
            tokens.push(kept(alloc, seen)?)?;
            tokens_of(alloc, total, limit - 1, rest, tokens)
        }
        None => Err(PathFault::BadToken(total - text.len())),
    }
}

/// A token as it is written in a text.
#[derive(Clone, Copy)]
pub(crate) enum Seen<'a> {
    Name(&'a str),
    Index(u64),
    Any,
}

fn kept(alloc: Global, seen: Seen<'_>) -> Result<Token, AllocError>
    ensures { IfOk result (λ token. token_view token ≡ seen_view seen.entry) }
{
    match seen {
        Seen::Name(name) => Ok(Token::Name(String::from_str(alloc, name)?)),
        Seen::Index(index) => Ok(Token::Index(index)),
        Seen::Any => Ok(Token::Any),
    }
}

/// The token at the front, and what follows it.
fn token_at(text: &str) -> Option<(Seen<'_>, &str)>
    ensures value { option_map (λ x. (seen_view x.0, x.1.now)) result ≡ token_in text.now }
    ensures no_longer { IfSome result (λ x. length x.1.now ≤ length text.now) }
{
    if let Some(rest) = following(text, '.') {
        return dotted(rest);
    }
    if let Some(rest) = following(text, '[') {
        return bracketed(rest);
    }
    None
}

fn dotted(text: &str) -> Option<(Seen<'_>, &str)>
    ensures value { option_map (λ x. (seen_view x.0, x.1.now)) result ≡ dotted_in text.now }
    ensures no_longer { IfSome result (λ x. length x.1.now ≤ length text.now) }
{
    if let Some(rest) = following(text, '*') {
        return Some((Seen::Any, rest));
    }
    let end = plain_len(text);
    if end == 0 {
        return None;
    }
    let (name, rest) = text.split_at(end);
    Some((Seen::Name(name), rest))
}

fn bracketed(text: &str) -> Option<(Seen<'_>, &str)>
    ensures value { option_map (λ x. (seen_view x.0, x.1.now)) result ≡ bracketed_in text.now }
    ensures no_longer { IfSome result (λ x. length x.1.now ≤ length text.now) }
{
    if let Some(rest) = closed_star(text) {
        return Some((Seen::Any, rest));
    }
    if let Some((name, rest)) = quoted(text) {
        return Some((Seen::Name(name), rest));
    }
    match index(text) {
        Some((index, rest)) => Some((Seen::Index(index), rest)),
        None => None,
    }
}

/// What is after a mark at the front.
#[tactic(auto, using(std::proofs::lemmas::Str::Pattern::strip_prefix_char, crate::proofs::PathLemmas::after_is))]
fn following(text: &str, mark: char) -> Option<&str>
    requires { mark < 128 }
    ensures value { option_map (λ r. r.now) result ≡ after_of mark text.now }
    ensures no_longer { IfSome result (λ r. length r.now ≤ length text.now) }
{
    text.strip_prefix(mark)
}

/// What is before and after the first mark.
fn cut(text: &str, mark: char) -> Option<(&str, &str)>
    requires { mark < 128 }
    ensures value { option_map (λ r. (r.0.now, r.1.now)) result ≡ cut_of mark text.now }
    ensures no_longer { IfSome result (λ r. length r.1.now ≤ length text.now) }
{
    text.split_once(mark)
}

/// What is after `*]` at the front.
fn closed_star(text: &str) -> Option<&str>
    ensures value { option_map (λ r. (any, r.now)) result ≡ closed_star_in text.now }
    ensures no_longer { IfSome result (λ r. length r.now ≤ length text.now) }
{
    following(following(text, '*')?, ']')
}

/// The name in quotes at the front, and what follows the bracket after it.
fn quoted(text: &str) -> Option<(&str, &str)>
    ensures value { option_map (λ x. (named x.0.now, x.1.now)) result ≡ quoted_in text.now }
    ensures no_longer { IfSome result (λ x. length x.1.now ≤ length text.now) }
{
    let (name, rest) = cut(following(text, '\'')?, '\'')?;
    let rest = following(rest, ']')?;
    Some((name, rest))
}

/// The index up to the bracket, and what follows it.
fn index(text: &str) -> Option<(u64, &str)>
    ensures value { option_map (λ x. (indexed x.0, x.1.now)) result ≡ index_in text.now }
    ensures no_longer { IfSome result (λ x. length x.1.now ≤ length text.now) }
{
    let (digits, rest) = cut(text, ']')?;
    Some((number(digits)?, rest))
}

/// The number that 1 to 9 digits write.
fn number(digits: &str) -> Option<u64>
    ensures { result ≡ (if is_index digits.now then Some (digits_value 10 digits.now) else None) }
{
    if are_digits(digits) && !digits.is_empty() && digits.len() <= 9 {
        digits.parse().ok()
    } else {
        None
    }
}

fn are_digits(text: &str) -> bool
    ensures { result ≡ all_ascii_digits text.now }
{
    text.as_bytes().iter().all(|byte| byte.is_ascii_digit())
}

/// How many bytes are before the first that is in no name without quotes.
pub(crate) fn plain_len(text: &str) -> usize
    ensures value { result ≡ position_or_len is_special text.now }
    ensures boundary { IsCharBoundary text.now result }
{
    text.as_bytes()
        .iter()
        .position(|byte| is_special_byte(*byte))
        .unwrap_or(text.len())
}

fn is_special_byte(byte: u8) -> bool
    ensures value { result ≡ is_special byte }
    ensures ascii { IsTrue result → byte < 128 }
{
    matches!(byte, b'.' | b'[' | b']' | b'\'' | b'*')
}
