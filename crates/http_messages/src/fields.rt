//! The fields of a head by their names.
ghost use Rattle.std.specs.Prelude.{◌≡◌, ◌≤◌, ◌<◌, ◌^◌, length, map, All, Some, None, if◌then◌else◌};
ghost use Rattle.std.specs.Str.Parse.{digits_value};
ghost use Rattle.httparse.specs.Spans.{IsHeaderWithin, header_bytes};
ghost use Rattle.http_messages.specs.Fields.{same_name, values_named, IsField, is_short_number};

use httparse::spans::HeaderSpan;

/// The fields with one name.
#[derive(Clone, Copy, Debug)]
pub enum Field<'a> {
    Absent,
    /// One, with this value.
    Once(&'a [u8]),
    Repeated,
}

/// Whether two names are the same without ASCII case.
#[tactic(auto, unfolding(crate::specs::Fields::same_name))]
pub(crate) fn same_name(a: &[u8], b: &[u8]) -> bool
    ensures { result ≡ same_name a.now b.now }
{
    a.eq_ignore_ascii_case(b)
}

/// The fields with this name.
pub fn field_of<'a>(text: &'a [u8], spans: &[HeaderSpan], name: &[u8]) -> Field<'a>
    requires { All (IsHeaderWithin (length text.now)) spans.now }
    ensures { IsField (values_named name.now (map (header_bytes text.now) spans.now)) result }
{
    let mut found = Field::Absent;
    for span in spans {
        if same_name(span.name.of(text), name) {
            found = match found {
                Field::Absent => Field::Once(span.value.of(text)),
                _ => Field::Repeated,
            };
        }
    }
    found
}

/// A number of 1 to 10 digits.
pub(crate) fn short_number(text: &[u8]) -> Option<u64>
    ensures { result ≡ (if is_short_number text.now then Some (digits_value 10 text.now) else None) }
{
    if text.is_empty() || text.len() > 10 {
        return None;
    }
    let mut n: u64 = 0;
    for b in text {
        if !b.is_ascii_digit() {
            return None;
        }
        n = n * 10 + u64::from(*b - b'0');
    }
    Some(n)
}
