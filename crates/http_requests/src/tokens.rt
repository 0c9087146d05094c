//! The token of a request.
ghost use Rattle.std.specs.Prelude.{◌≡◌, ℕ, List, drop, IfOk, IfErr, Option, Some, None, MatchOption};
ghost use Rattle.std.specs.Option.{option_map};
ghost use Rattle.broker_names.specs.Name.{IsToken};
ghost use Rattle.http_messages.specs.Fields.{IsField, same_name};
ghost use Rattle.http_requests.specs.Tokens.{skip_spaces, after_spaces, credentials, only_credentials, IsTokenOf, HasTokenIn};

use broker_names::name::{Token, TokenFault};
use http_messages::fields::Field;
use std::alloc::{AllocError, Global};

/// The bytes from the first that is no space.
fn skip_spaces(text: &[u8]) -> &[u8]
    ensures { result.now ≡ skip_spaces text.now }
{
    let mut rest = text;
    while let Some((first, more)) = rest.split_first() {
        if *first != b' ' {
            return rest;
        }
        rest = more;
    }
    rest
}

/// What is after one or more spaces.
fn after_spaces(text: &[u8]) -> Option<&[u8]>
    ensures { option_map (λ t. t.now) result ≡ after_spaces text.now }
{
    match text.split_first() {
        Some((first, rest)) if *first == b' ' => Some(skip_spaces(rest)),
        _ => None,
    }
}

/// What is after the scheme Bearer.
#[tactic(auto, unfolding(http_messages::specs::Fields::same_name))]
fn credentials(value: &[u8]) -> Option<&[u8]>
    ensures { option_map (λ t. t.now) result ≡ credentials value.now }
{
    let (scheme, rest) = value.split_at(value.len().min(6));
    if scheme.eq_ignore_ascii_case(b"Bearer") {
        after_spaces(rest)
    } else {
        None
    }
}

/// The token that some bytes are, if they are one. Memory is taken only for a token.
fn token_of(alloc: Global, bytes: &[u8]) -> Result<Option<Token>, AllocError>
    ensures token { IfOk result (λ token.
        MatchOption token (¬ (IsToken bytes.now)) (λ t. (t ≡ bytes.now) × IsToken bytes.now)) }
    ensures memory { IfErr result (λ _. IsToken bytes.now) }
{
    let Ok(text) = str::from_utf8(bytes) else {
        return Ok(None);
    };
    match Token::new(alloc, text) {
        Ok(token) => Ok(Some(token)),
        Err(TokenFault::BadToken) => Ok(None),
        Err(TokenFault::Memory) => Err(AllocError),
    }
}

/// The credentials of exactly one field.
fn only_credentials(field: Field<'_>) -> Option<&[u8]>
    ensures { (values : List (List ℕ)) → IsField values field.entry
        → option_map (λ t. t.now) result ≡ only_credentials values }
{
    match field {
        Field::Once(value) => credentials(value),
        Field::Absent => None,
        Field::Repeated => None,
    }
}

/// The token of the field authorization, if it is there once with the scheme Bearer, one or more spaces and a token;
/// the scheme is compared without ASCII case. An `Err` means out of memory, which only a token takes.
pub fn caller_token(alloc: Global, field: Field<'_>) -> Result<Option<Token>, AllocError>
    ensures token { (values : List (List ℕ)) → IsField values field.entry → IfOk result (IsTokenOf values) }
    ensures memory { (values : List (List ℕ)) → IsField values field.entry → IfErr result (λ _. HasTokenIn values) }
{
    match only_credentials(field) {
        Some(text) => token_of(alloc, text),
        None => Ok(None),
    }
}
