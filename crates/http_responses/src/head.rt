//! The head of a response by HTTP/1.1, written into a buffer that was made before.
ghost use Rattle.std.specs.Prelude.{◌≡◌, ◌+◌, ◌≤◌, ◌&&◌, true, not, [], ◌++◌, codes, decimal, is_some, if◌then◌else◌, length, vec_len, vec_capacity};
ghost use Rattle.http_routes.specs.Methods.{allow, operation_at};
ghost use Rattle.http_responses.specs.Head.{has_phrase, phrase, line_end, status_line, content_fields, listed_next, allow_of, own_field, close_field, head};

use http::{Method, StatusCode};
use http_routes::{Resource, operation_at};
use itoa::Buffer;

/// How many bytes a phrase has at most.
const PHRASE_LIMIT: usize = 32;

/// How many bytes the line with the status has at most: the version, 3 digits, and the phrase.
const STATUS_LINE_LIMIT: usize = 15 + PHRASE_LIMIT;

/// How many bytes the fields that describe the body have at most, with 20 digits of its length.
const CONTENT_LIMIT: usize = 70;

/// How many bytes the methods of a resource have at most, each with what parts it from the one before.
const ALLOW_LIMIT: usize = 32;

/// How many bytes the field that a status asks for has at most: its name, its line's end, and the methods.
const OWN_FIELD_LIMIT: usize = 10 + ALLOW_LIMIT;

/// How many bytes the field that closes the connection has at most.
const CLOSE_LIMIT: usize = 19;

/// How many bytes the head of a response has at most.
pub const HEAD_CAPACITY: usize = STATUS_LINE_LIMIT
    + CONTENT_LIMIT
    + OWN_FIELD_LIMIT
    + CLOSE_LIMIT
    + 2;

/// The digits of a status that a response may have.
fn digits(status: StatusCode) -> &'static str
    requires { has_phrase status ≡ true }
    ensures text { result.now ≡ decimal status }
    ensures len { length result.now ≡ 3 }
{
    status.as_str()
}

/// The phrase of a status that a response may have.
fn phrase(status: StatusCode) -> &'static str
    requires { has_phrase status ≡ true }
    ensures text { result.now ≡ phrase status }
    ensures short { length result.now ≤ PHRASE_LIMIT }
{
    status.canonical_reason().unwrap_or("")
}

/// Appends within the capacity, which takes no memory.
fn append(text: &mut Vec<u8>, part: &str)
    requires { vec_len text.old + length part.now ≤ vec_capacity text.old }
    ensures items { text.new.items ≡ text.old.items ++ part.now }
    ensures len { vec_len text.new ≡ vec_len text.old + length part.now }
    ensures capacity { vec_capacity text.old ≤ vec_capacity text.new }
{
    let _ = text.extend_from_slice(part.as_bytes());
}

/// Appends the line with the status.
#[tactic(auto, unfolding(crate::specs::Head::status_line))]
fn append_status(text: &mut Vec<u8>, status: StatusCode)
    requires known { has_phrase status ≡ true }
    requires fits { vec_len text.old + STATUS_LINE_LIMIT ≤ vec_capacity text.old }
    ensures items { text.new.items ≡ text.old.items ++ status_line status }
    ensures len { vec_len text.new ≤ vec_len text.old + STATUS_LINE_LIMIT }
    ensures capacity { vec_capacity text.old ≤ vec_capacity text.new }
{
    append(text, "HTTP/1.1 ");
    append(text, digits(status));
    append(text, " ");
    append(text, phrase(status));
    append(text, "\r\n");
}

/// Appends a method if the resource has it, after those before it, and gives whether there is none yet.
fn append_method(text: &mut Vec<u8>, resource: Resource, method: &Method, is_first: bool) -> bool
    requires fits { vec_len text.old + 2 + length method.now ≤ vec_capacity text.old }
    ensures items { text.new.items ≡ text.old.items
        ++ (if is_some (operation_at resource method.now) then listed_next is_first method.now else []) }
    ensures first { result ≡ (is_first && not (is_some (operation_at resource method.now))) }
    ensures len { vec_len text.new ≤ vec_len text.old + 2 + length method.now }
    ensures capacity { vec_capacity text.old ≤ vec_capacity text.new }
{
    if operation_at(resource, method).is_none() {
        return is_first;
    }
    if !is_first {
        append(text, ", ");
    }
    append(text, method.as_str());
    false
}

/// Appends the methods that a resource has, in the order of their bytes, with a comma and a space between each two.
fn append_methods(text: &mut Vec<u8>, resource: Resource)
    requires fits { vec_len text.old + ALLOW_LIMIT ≤ vec_capacity text.old }
    ensures items { text.new.items ≡ text.old.items ++ allow resource }
    ensures len { vec_len text.new ≤ vec_len text.old + ALLOW_LIMIT }
    ensures capacity { vec_capacity text.old ≤ vec_capacity text.new }
{
    let served = [Method::DELETE, Method::GET, Method::POST, Method::PUT];
    let mut is_first = true;
    for method in &served {
        is_first = append_method(text, resource, method, is_first);
    }
}

/// Appends the field with the methods that a resource has.
fn append_allow(text: &mut Vec<u8>, resource: Option<Resource>)
    requires fits { vec_len text.old + OWN_FIELD_LIMIT ≤ vec_capacity text.old }
    ensures items { text.new.items ≡ text.old.items ++ (codes "allow: " ++ (allow_of resource ++ line_end)) }
    ensures len { vec_len text.new ≤ vec_len text.old + OWN_FIELD_LIMIT }
    ensures capacity { vec_capacity text.old ≤ vec_capacity text.new }
{
    append(text, "allow: ");
    if let Some(resource) = resource {
        append_methods(text, resource);
    }
    append(text, "\r\n");
}

/// Appends the field that a status asks for.
#[tactic(auto, unfolding(crate::specs::Head::own_field))]
fn append_own_field(text: &mut Vec<u8>, status: StatusCode, resource: Option<Resource>)
    requires fits { vec_len text.old + OWN_FIELD_LIMIT ≤ vec_capacity text.old }
    ensures items { text.new.items ≡ text.old.items ++ own_field status (allow_of resource) }
    ensures len { vec_len text.new ≤ vec_len text.old + OWN_FIELD_LIMIT }
    ensures capacity { vec_capacity text.old ≤ vec_capacity text.new }
{
    if status == StatusCode::METHOD_NOT_ALLOWED {
        append_allow(text, resource);
    } else if status == StatusCode::UNAUTHORIZED {
        append(text, "www-authenticate: Bearer\r\n");
    }
}

/// Appends the fields that describe the body.
#[tactic(auto, unfolding(crate::specs::Head::content_fields))]
fn append_content(text: &mut Vec<u8>, size: usize)
    requires fits { vec_len text.old + CONTENT_LIMIT ≤ vec_capacity text.old }
    ensures items { text.new.items ≡ text.old.items ++ content_fields size }
    ensures len { vec_len text.new ≤ vec_len text.old + CONTENT_LIMIT }
    ensures capacity { vec_capacity text.old ≤ vec_capacity text.new }
{
    append(text, "content-type: application/json\r\ncontent-length: ");
    append(text, Buffer::new().format(size));
    append(text, "\r\n");
}

/// Appends the field that closes the connection, if it does.
#[tactic(auto, unfolding(crate::specs::Head::close_field))]
fn append_close(text: &mut Vec<u8>, closes: bool)
    requires fits { vec_len text.old + CLOSE_LIMIT ≤ vec_capacity text.old }
    ensures items { text.new.items ≡ text.old.items ++ close_field closes }
    ensures len { vec_len text.new ≤ vec_len text.old + CLOSE_LIMIT }
    ensures capacity { vec_capacity text.old ≤ vec_capacity text.new }
{
    if closes {
        append(text, "connection: close\r\n");
    }
}

/// Writes the head of a response into an empty buffer that has the capacity for it. This takes no memory, so
/// it can't fail.
///
/// The methods of `resource` are written only for the status 405, `size` is the length of the body in bytes, also if it
/// isn't sent.
pub fn write_head(
    text: &mut Vec<u8>,
    status: StatusCode,
    resource: Option<Resource>,
    closes: bool,
    size: usize,
)
    requires empty { text.old.items ≡ [] }
    requires capacity { HEAD_CAPACITY ≤ vec_capacity text.old }
    requires known { has_phrase status ≡ true }
    ensures items { text.new.items ≡ head status (allow_of resource) closes size }
    ensures capacity { vec_capacity text.old ≤ vec_capacity text.new }
{
    append_status(text, status);
    append_content(text, size);
    append_own_field(text, status, resource);
    append_close(text, closes);
    append(text, "\r\n");
}
