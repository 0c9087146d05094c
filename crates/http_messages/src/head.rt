//! The head of a message.
ghost use Rattle.std.specs.Prelude.{All, bytes_eq, codes, ◌≡◌, ℕ, ◌≤◌, ◌==◌, Bool, true, List, length, take, map, Option, Ok, Err, false, IfOk, IfErr, IfSome, IfNone, is_some, Some};
ghost use Rattle.httparse.specs.Grammar.{RequestHead};
ghost use Rattle.httparse.specs.Spans.{IsHeaderWithin, header_bytes, IsRequestAt, IsRequestWithin};
ghost use Rattle.http_messages.specs.Fields.{IsField, values_named};
ghost use Rattle.http_messages.specs.Heads.{served_method, body_length, first_failing, length_checks, AreChecked, IsHeadText, is_too_large, is_last, unread};
ghost use Rattle.http_messages.specs.Limits.{body_limit};
ghost use Rattle.http_messages.specs.Views.{judgement_of, length_found, IsHeadRead, announced};

use crate::fields::{Field, field_of, short_number};
use crate::lines::{head_len, line_count};
use crate::options::closes;
use http::Method;
use httparse::Status;
use httparse::spans::{EMPTY_HEADER_SPAN, HeaderSpan, RequestSpans, parse_request};

/// How many fields a head may have (this project's own limit).
pub const FIELD_LIMIT: usize = 64;

/// How many bytes a body may have (this project's own limit).
pub const BODY_LIMIT: usize = 1_048_576;

/// Why a head is refused.
#[derive(Clone, Copy, Debug, PartialEq, Eq)]
pub enum Refusal {
    /// It is no head, its target or host is wrong, or its content-length isn't one number of 1 to 10 digits.
    BadRequest,
    /// Its content-length is over the limit.
    BodyTooLarge,
    /// It doesn't end within the limit, or has too many lines.
    HeadTooLarge,
    /// Its method isn't served, or it has a transfer-encoding.
    NotImplemented,
}

/// Whether these bytes are the method.
fn is_method(bytes: &[u8], method: &Method) -> bool
    ensures { result ≡ bytes_eq bytes.now method.now }
{
    bytes == method.as_str().as_bytes()
}

/// The method, if it is served: one of four constants, so that it takes no memory (RFC 9110, section 9.3).
#[tactic(auto, unfolding(crate::specs::Heads::served_method))]
pub fn served_method(method: &[u8]) -> Option<Method>
    ensures { result ≡ served_method method.now }
{
    if is_method(method, &Method::GET) {
        Some(Method::GET)
    } else if is_method(method, &Method::PUT) {
        Some(Method::PUT)
    } else if is_method(method, &Method::POST) {
        Some(Method::POST)
    } else if is_method(method, &Method::DELETE) {
        Some(Method::DELETE)
    } else {
        None
    }
}

/// The length of the body by its content-length.
#[tactic(auto, unfolding(crate::specs::Heads::body_length))]
fn body_length(field: Field<'_>) -> Result<usize, Refusal>
    ensures length { (values : List (List ℕ)) → IsField values field.entry → result ≡ first_failing (length_checks values) (body_length values) }
    ensures small { IfOk result (λ n. n ≤ body_limit) }
{
    match field {
        Field::Absent => Ok(0),
        Field::Repeated => Err(Refusal::BadRequest),
        Field::Once(value) => match short_number(value) {
            None => Err(Refusal::BadRequest),
            Some(length) if length > BODY_LIMIT as u64 => Err(Refusal::BodyTooLarge),
            Some(length) => Ok(length as usize),
        },
    }
}

/// The checks on the parts of a head, and what they find: its method, and the length of the body.
#[tactic(auto, unfolding(crate::specs::Heads::judge))]
fn judge(
    method: &[u8],
    target: &[u8],
    minor: u8,
    host: Field<'_>,
    coding: Field<'_>,
    length: Field<'_>,
) -> Result<(Method, usize), Refusal>
    ensures judged { AreChecked method.now target.now minor host.entry coding.entry length.entry (length_found result) }
    ensures served { IfOk result (λ found. served_method method.now ≡ Some found.0) }
    ensures small { IfOk result (λ found. found.1 ≤ body_limit) }
{
    if target.is_empty() || target[0] != b'/' {
        return Err(Refusal::BadRequest);
    }
    if minor == 1 && !matches!(host, Field::Once(_)) {
        return Err(Refusal::BadRequest);
    }
    let Some(served) = served_method(method) else {
        return Err(Refusal::NotImplemented);
    };
    if !matches!(coding, Field::Absent) {
        return Err(Refusal::NotImplemented);
    }
    match body_length(length) {
        Ok(body_len) => Ok((served, body_len)),
        Err(refusal) => Err(refusal),
    }
}

/// Parses a head that is the whole text.
fn parse_head(text: &[u8], spans: &mut [HeaderSpan; FIELD_LIMIT]) -> Option<RequestSpans>
    ensures within { IfSome result (IsRequestWithin text.now spans.new) }
    ensures found { IfSome result (λ parsed. (h : RequestHead) × IsHeadText text.now h
        × IsRequestAt text.now spans.new parsed h) }
    ensures none { IfNone result ((h : RequestHead) → ¬ (IsHeadText text.now h)) }
{
    match parse_request(text, spans) {
        Ok(Status::Complete(parsed)) if parsed.len == text.len() => Some(parsed),
        _ => None,
    }
}

/// A head that passed the checks on it, in the bytes that it was read from.
#[derive(Drop)]
pub struct Head {
    pub parsed: RequestSpans,
    pub spans: [HeaderSpan; FIELD_LIMIT],
    pub method: Method,
    /// How many bytes of body follow.
    pub body_len: usize,
    /// Whether the connection closes after the answer.
    pub closes: bool,
}

/// Why a head is refused, and whether its answer goes without a body, as the method HEAD asks.
#[derive(Clone, Copy, Debug, PartialEq, Eq)]
pub struct Refused {
    pub refusal: Refusal,
    pub is_bodiless: bool,
}

impl Refused {
    /// A refusal before there is a head.
    fn unread(refusal: Refusal) -> Refused
        ensures { judgement_of result ≡ unread refusal }
    {
        Refused {
            refusal,
            is_bodiless: false,
        }
    }
}

/// Whether no head text is there, or one of too many lines.
fn is_too_large(text: &[u8]) -> bool
    ensures { result ≡ is_too_large text.now }
{
    head_len(text).is_none() || line_count(text) > FIELD_LIMIT + 2
}

/// Whether the connection closes after the answer to a head of this minor version with these fields.
fn is_last(text: &[u8], minor: u8, fields: &[HeaderSpan]) -> bool
    requires { All (IsHeaderWithin (length text.now)) fields.now }
    ensures { result ≡ is_last minor
        (values_named (codes "connection") (map (header_bytes text.now) fields.now)) }
{
    minor == 0 || closes(text, fields)
}

/// Reads a head and makes the checks on it.
///
/// `text` is a head text, or as many bytes as a head may have in which none ends.
/// The first check that fails is reported.
pub fn read_head(text: &[u8]) -> Result<Head, Refused>
    ensures small { announced result ≤ body_limit }
    ensures read { IsHeadRead text.now result }
{
    if is_too_large(text) {
        return Err(Refused::unread(Refusal::HeadTooLarge));
    }
    let mut spans = [EMPTY_HEADER_SPAN; FIELD_LIMIT];
    let Some(parsed) = parse_head(text, &mut spans) else {
        return Err(Refused::unread(Refusal::BadRequest));
    };
    let fields = &spans[..parsed.headers];
    let method = parsed.method.of(text);
    let judged = judge(
        method,
        parsed.path.of(text),
        parsed.version,
        field_of(text, fields, b"host"),
        field_of(text, fields, b"transfer-encoding"),
        field_of(text, fields, b"content-length"),
    );
    let closes = is_last(text, parsed.version, fields);
    match judged {
        Ok((served, body_len)) => Ok(Head {
            parsed,
            spans,
            method: served,
            body_len,
            closes,
        }),
        Err(refusal) => Err(Refused {
            refusal,
            is_bodiless: is_method(method, &Method::HEAD),
        }),
    }
}
