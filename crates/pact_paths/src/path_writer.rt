//! The canonical text of a path.

ghost use Rattle.std.specs.Prelude.{◌≡◌, ◌++◌, List, map, IfOk, OnOk, string_bytes};
ghost use Rattle.pact_paths.specs.Paths.{Token as PathToken};
ghost use Rattle.pact_paths.specs.Readings.{IsTheReading};
ghost use Rattle.pact_paths.specs.TokenView.{token_view};
ghost use Rattle.pact_paths.specs.Spelling.{IsPath, is_plain, path_text, token_text, name_text};

use crate::path::{Path, Token};
use crate::path_reader::plain_len;
use std::alloc::{AllocError, Global};

impl Path {
    /// The canonical text, which reads as this path and which no other path has: `.name` if a dot can be before the
    /// name and else `['name']`, an index without leading zeros, and `[*]` for Any.
    pub fn text(&self, alloc: Global) -> Result<String, AllocError>
        ensures canonical { IfOk result (λ s. string_bytes s ≡ path_text self.now) }

        // The text reads as this path.
        ensures reading { IfOk result (λ s. IsTheReading (string_bytes s) (Ok self.now)) }

        // No other path has this canonical text.
        ensures own { IfOk result (λ s. (p : List PathToken) →
            IsPath p → path_text p ≡ string_bytes s → p ≡ self.now) }
    {
        text_of(alloc, &self.tokens)
    }
}

fn text_of(alloc: Global, tokens: &[Token]) -> Result<String, AllocError>
    ensures { IfOk result (λ s. string_bytes s ≡ path_text (map token_view tokens.now)) }
{
    let mut text = String::from_str(alloc, "$")?;
    for token in tokens {
        push_token(&mut text, token)?;
    }
    Ok(text)
}

fn push_token(text: &mut String, token: &Token) -> Result<(), AllocError>
    ensures { OnOk result
        (string_bytes text.new ≡ string_bytes text.old ++ token_text (token_view token.now)) }
{
    match token {
        Token::Name(name) => push_name(text, name),
        Token::Index(index) => write!(text, "[{index}]"),
        Token::Any => text.push_str("[*]"),
    }
}

fn push_name(text: &mut String, name: &str) -> Result<(), AllocError>
    ensures { OnOk result (string_bytes text.new ≡ string_bytes text.old ++ name_text name.now) }
{
    if is_plain_name(name) {
        write!(text, ".{name}")
    } else {
        write!(text, "['{name}']")
    }
}

#[tactic(auto, using(crate::proofs::Spellings::is_plain_by_position))]
fn is_plain_name(name: &str) -> bool
    ensures { result ≡ is_plain name.now }
{
    !name.is_empty() && plain_len(name) == name.len()
}
