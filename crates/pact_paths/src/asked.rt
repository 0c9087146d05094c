//! What a path asks of a step.

ghost use Rattle.std.specs.Prelude.{◌≡◌, Some};
ghost use Rattle.pact_paths.specs.Asked.{asked as asked_of, asked_cmp};
ghost use Rattle.pact_paths.specs.AskedView.{asked_view};
ghost use Rattle.pact_paths.specs.Locations.{step_view};

use crate::path::{Path, Step, Token};
use std::cmp::Ordering;

/// What a path asks of the step at an index. In order: nothing, then keys by their bytes, then indexes. (This project's
/// own choice.)
#[derive(Clone, Copy)]
pub enum Asked<'a> {
    /// Any step will do: the token is Any, or the path has ended.
    Nothing,
    /// This key, and no other step.
    Key(&'a str),
    /// This index, and no other step.
    Index(u64),
}

impl Path {
    /// What the path asks of the step at an index, from 0: a step that it doesn't ask for rules the path out. Takes no
    /// memory.
    pub fn asked(&self, index: usize) -> Asked<'_>
        ensures { asked_view result ≡ asked_of self.now index }
    {
        match self.tokens.get(index) {
            Some(Token::Name(name)) => Asked::Key(name.as_str()),
            Some(Token::Index(index)) => Asked::Index(*index),
            Some(Token::Any) | None => Asked::Nothing,
        }
    }
}

impl Step {
    /// What asks for this step. Takes no memory.
    pub fn as_asked(&self) -> Asked<'_>
        ensures { asked_view result ≡ Some (step_view self.now) }
    {
        match self {
            Step::Key(key) => Asked::Key(key.as_str()),
            Step::Index(index) => Asked::Index(*index),
        }
    }
}

impl<'a> Asked<'a> {
    /// How the two compare. Takes no memory.
    pub fn compare(self, other: Asked<'_>) -> Ordering
        ensures { result ≡ asked_cmp (asked_view self.entry) (asked_view other.entry) }
    {
        match (self, other) {
            (Asked::Nothing, Asked::Nothing) => Ordering::Equal,
            (Asked::Key(left), Asked::Key(right)) => left.cmp(right),
            (Asked::Index(left), Asked::Index(right)) => left.cmp(&right),
            (Asked::Nothing, _) | (Asked::Key(_), Asked::Index(_)) => Ordering::Less,
            (_, Asked::Nothing) | (Asked::Index(_), Asked::Key(_)) => Ordering::Greater,
        }
    }
}
