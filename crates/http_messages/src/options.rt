//! The options of a connection.
ghost use Rattle.std.specs.Prelude.{◌≡◌, ◌≤◌, codes, length, map, All};
ghost use Rattle.std.specs.List.{list_any};
ghost use Rattle.httparse.specs.Grammar.{trim_ows, is_ows};
ghost use Rattle.httparse.specs.Spans.{IsHeaderWithin, header_bytes};
ghost use Rattle.http_messages.specs.Fields.{values_named};
ghost use Rattle.http_messages.specs.Options.{is_close, has_close};

use crate::fields::same_name;
use httparse::spans::HeaderSpan;

fn is_space_or_tab(byte: u8) -> bool
    ensures { result ≡ is_ows byte }
{
    byte == b' ' || byte == b'\t'
}

/// The bytes without the spaces and tabs at both ends.
fn trimmed(bytes: &[u8]) -> &[u8]
    ensures { result.now ≡ trim_ows bytes.now }
{
    let mut start = 0;
    let mut end = bytes.len();
    while start < end && is_space_or_tab(bytes[start]) {
        start += 1;
    }
    while start < end && is_space_or_tab(bytes[end - 1]) {
        end -= 1;
    }
    &bytes[start..end]
}

fn is_close(option: &[u8]) -> bool
    ensures { result ≡ is_close option.now }
{
    same_name(trimmed(option), b"close")
}

/// Whether close is one of the options.
fn has_close(value: &[u8]) -> bool
    ensures { result ≡ has_close value.now }
{
    let mut rest = value;
    while let Some(comma) = rest.iter().position(|byte| *byte == b',') {
        if is_close(&rest[..comma]) {
            return true;
        }
        rest = &rest[comma + 1..];
    }
    is_close(rest)
}

/// Whether one of the fields named connection has the option close.
pub(crate) fn closes(text: &[u8], fields: &[HeaderSpan]) -> bool
    requires { All (IsHeaderWithin (length text.now)) fields.now }
    ensures { result ≡ list_any has_close
        (values_named (codes "connection") (map (header_bytes text.now) fields.now)) }
{
    let mut found = false;
    for field in fields {
        if same_name(field.name.of(text), b"connection") && has_close(field.value.of(text)) {
            found = true;
        }
    }
    found
}
