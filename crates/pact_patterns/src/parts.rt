//! How much a pattern asks for: its parts.

ghost use Rattle.std.specs.Prelude.{◌≡◌, ℕ, List, true, IfOk, IfErr};
ghost use Rattle.regex.specs.Patterns.{default_config, Refuses};
ghost use Rattle.pact_patterns.specs.Patterns.{is_pattern, IsCause};

use regex_hir::Hir;
use regex_syntax::{Config, ErrorKind, Parsed, parse};
use std::alloc::Global;

/// What reading a byte of a pattern counts.
const PARTS_OF_BYTE: u64 = 10;

/// What reading a bracket or a backslash counts besides that: a class may be there.
const PARTS_OF_MARK: u64 = 250;

/// How many times as much a text counts that sets flags: each letter may also match in its other cases.
const TIMES_WITH_FLAGS: u64 = 5;

/// What a class of characters counts, besides one for each four of its ranges.
const PARTS_OF_CLASS: u64 = 8;

/// The parts of the pattern of a text: those of the text, and what it asks for with its repetitions written out. They
/// are a measure of the time that reading and building it takes, and of the memory of what is built. (This project's
/// own choice.)
pub fn parts_of(alloc: Global, source: &str) -> Result<u64, regex::Error>
    ensures read { IfOk result (λ _. is_pattern source.now ≡ true) }
    ensures fails { IfErr result (IsCause source.now) }
{
    let parsed = parsed(alloc, source)?;
    Ok(parts_of_text(source).saturating_add(parts_of_tree(&parsed.hir)))
}

/// The tree of a pattern.
fn parsed(alloc: Global, source: &str) -> Result<Parsed, regex::Error>
    ensures read { IfOk result (λ _. is_pattern source.now ≡ true) }
    ensures fails { IfErr result (IsCause source.now) }
{
    match parse(alloc, source, &Config::default()) {
        Ok(parsed) => Ok(parsed),
        Err(error) => Err(error_of(error)),
    }
}

/// An error of the parser as one of the crate `regex`.
fn error_of(error: regex_syntax::Error) -> regex::Error
    ensures { (source : List ℕ) → Refuses default_config source error.kind → IsCause source result }
{
    match error.kind {
        ErrorKind::OutOfMemory => regex::Error::OutOfMemory,
        _ => regex::Error::Syntax(error),
    }
}

/// What reading the text counts.
fn parts_of_text(source: &str) -> u64 {
    let mut parts = PARTS_OF_BYTE.saturating_mul(source.len() as u64);
    for byte in source.as_bytes() {
        if *byte == b'[' || *byte == b'\\' {
            parts = parts.saturating_add(PARTS_OF_MARK);
        }
    }
    if sets_flags(source.as_bytes()) {
        parts.saturating_mul(TIMES_WITH_FLAGS)
    } else {
        parts
    }
}

/// Whether the text has `(?` before something else than what begins a group without a number or with a name.
fn sets_flags(source: &[u8]) -> bool {
    for place in 2..source.len() {
        let is_open = source[place - 2] == b'(' && source[place - 1] == b'?';
        if is_open && !matches!(source[place], b':' | b'P' | b'<') {
            return true;
        }
    }
    false
}

/// What a pattern asks for, with its repetitions written out.
#[cycle(counting)]
fn parts_of_tree(tree: &Hir) -> u64 {
    match tree {
        Hir::Empty | Hir::Look(_) => 1,
        Hir::Literal(bytes) => bytes.len() as u64,
        Hir::Bytes(class) => parts_of_class(class.ranges.len()),
        Hir::Chars(class) => parts_of_class(class.ranges.len()),
        Hir::Repetition { min, max, sub, .. } => copies(*min, *max).saturating_mul(parts_of_tree(
            sub,
        ).saturating_add(1)),
        Hir::Capture { sub, .. } => parts_of_tree(sub).saturating_add(2),
        Hir::Concat(trees) => parts_of_trees(trees),
        Hir::Alternation(trees) => parts_of_trees(trees),
    }
}

#[cycle(counting)]
fn parts_of_trees(trees: &[Hir]) -> u64 {
    let mut parts = 1u64;
    for tree in trees {
        parts = parts.saturating_add(parts_of_tree(tree));
    }
    parts
}

/// What a class of so many ranges counts.
fn parts_of_class(ranges: usize) -> u64 {
    (ranges as u64 / 4).saturating_add(PARTS_OF_CLASS)
}

/// How often a repetition is written out.
fn copies(min: u32, max: Option<u32>) -> u64 {
    match max {
        Some(max) => max as u64,
        None => min as u64 + 1,
    }
}
