//! Steps down a tree, path expressions, and how much a path weighs at a location.

ghost use Rattle.std.specs.Prelude.{◌≡◌, ◌≤◌, ◌^◌, ◌*◌, ◌<◌, length, map, slice_get, IsTrue, ◌↔◌, []};
ghost use Rattle.pact_paths.specs.Locations.{step_view};
ghost use Rattle.pact_paths.specs.TokenView.{token_view};
ghost use Rattle.pact_paths.specs.Weights.{token_weight, product_over, weight as weight_of};

use std::marker::Model;

/// A step down a tree. A location is a list of steps, from the root down.
#[derive(Drop)]
pub enum Step {
    /// Into an object, to the member under this key.
    Key(String),
    /// Into a list, to the item at this index, from 0.
    Index(u64),
}

/// A part of a path expression.
#[derive(Drop)]
pub(crate) enum Token {
    Name(String),
    Index(u64),
    Any,
}

/// A path expression of a matching rule, such as `$.items[*].id`: at most 60 tokens after the root `$`. A token is a
/// name without `'`, an index of at most nine digits, or Any. (Pact Specification, version 3; the limits are this
/// project's own choice.)
#[derive(Drop)]
pub struct Path {
    pub(crate) tokens: Vec<Token>,
}

impl Model for Path {
    ghost use Rattle.std.specs.Prelude.{List, map};
    ghost use Rattle.pact_paths.specs.Paths.{Token as PathToken};

    ghost Value = { List PathToken };

    ghost use Rattle.pact_paths.specs.TokenView.{token_view};
    ghost use Rattle.pact_paths.specs.Spelling.{IsPath};

    ghost view = { λ p. map token_view p.tokens.items };

    ghost invariant = { λ p. IsPath (map token_view p.tokens.items) };
}

impl Path {
    /// How many tokens the path has, the root not counted: at most 60.
    pub fn len(&self) -> usize
        ensures value { result ≡ length self.now }
        ensures few { result ≤ 60 }
    {
        self.tokens.len()
    }

    /// Whether the path is only the root.
    pub fn is_empty(&self) -> bool
        ensures { IsTrue result ↔ (self.now ≡ []) }
    {
        self.tokens.is_empty()
    }

    /// How much the token at an index, from 0, counts at a step: 2 for a name that equals a key or an index that
    /// equals an index, 1 for Any, and else 0. Takes no memory.
    pub fn weigh_token(&self, index: usize, step: &Step) -> u64
        requires { index < length self.now }
        ensures value { slice_get (map (λ t. token_weight t (step_view step.now)) self.now) index
            ≡ Some result }
        ensures bounded { result ≤ 2 }
    {
        weight_at(&self.tokens[index], step)
    }
}

/// How much a path counts at a location: 0 if the path has more tokens than the location has steps, and else 2 for the
/// root times what each token counts at the step of the same index. So it is 0 if a token doesn't fit, a shorter path
/// reaches down to all that is below it, and the greatest weight is 2^61. Takes no memory. (Pact Specification, version
/// 2, kept in version 3.)
pub fn weight(path: &Path, location: &[Step]) -> u64
    ensures value { result ≡ weight_of path.now (map step_view location.now) }
    ensures bounded { result ≤ 2 ^ 61 }
{
    if path.tokens.len() > location.len() {
        return 0;
    }
    2 * product_of(&path.tokens, location)
}

/// The product over the tokens, each with the step of the same index.
fn product_of(tokens: &[Token], location: &[Step]) -> u64
    requires few { length tokens.now ≤ 60 }
    requires long_enough { length tokens.now ≤ length location.now }
    ensures value { result ≡ product_over (map token_view tokens.now) (map step_view location.now) }
    ensures bounded { result ≤ 2 ^ 60 }
{
    let mut product = 1;
    for (index, token) in tokens.iter().enumerate() {
        product *= weight_at(token, &location[index]);
    }
    product
}

fn weight_at(token: &Token, step: &Step) -> u64
    ensures value { result ≡ token_weight (token_view token.now) (step_view step.now) }
    ensures bounded { result ≤ 2 }
{
    match (token, step) {
        (Token::Any, _) => 1,
        (Token::Name(name), Step::Key(key)) => if name.as_str() == key.as_str() { 2 } else { 0 },
        (Token::Index(index), Step::Index(other)) => if index == other { 2 } else { 0 },
        (Token::Name(_), Step::Index(_)) | (Token::Index(_), Step::Key(_)) => 0,
    }
}
