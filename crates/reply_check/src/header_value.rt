//! Whether a header has the value that is expected if no rule speaks of it.

ghost use Rattle.std.specs.Prelude.{◌≡◌, ◌↔◌, IfOk, IsTrue, string_bytes};
ghost use Rattle.std.specs.Str.{str_to_ascii_lowercase};
ghost use Rattle.reply_check.specs.HeaderValues.{is_blank as is_blank_byte, without_end as without_end_of};
ghost use Rattle.reply_check.specs.HeaderValues.{parts_between, counting_parts};
ghost use Rattle.reply_check.specs.HeaderValues.{before_semicolon as before_semicolon_of};
ghost use Rattle.reply_check.specs.HeaderValues.{is_plain_type as is_plain_type_of, HasValue};

use std::alloc::{AllocError, Global};

/// Whether what was sent under a header's name, which is in lower case, is the expected value if no rule speaks of it:
/// spaces and tabs at both ends and after commas don't count; and if a media type is expected without parameters, those
/// of the reply and the case of letters don't count either. An error means out of memory.
pub(crate) fn has_value(
    alloc: Global,
    name: &str,
    expected: &str,
    sent: &str,
) -> Result<bool, AllocError>
    ensures { IfOk result (λ b. IsTrue b ↔ HasValue name.now expected.now sent.now) }
{
    if !is_plain_type(name, expected) {
        return are_same(alloc, expected.as_bytes(), sent.as_bytes());
    }
    let expected = in_lower_case(alloc, expected)?;
    let sent = in_lower_case(alloc, sent)?;
    are_same(
        alloc,
        before_semicolon(expected.as_bytes()),
        before_semicolon(sent.as_bytes()),
    )
}

fn is_plain_type(name: &str, expected: &str) -> bool
    ensures { result ≡ is_plain_type_of name.now expected.now }
{
    name == "content-type" && !expected.as_bytes().contains(&b';')
}

fn in_lower_case(alloc: Global, text: &str) -> Result<String, AllocError>
    ensures { IfOk result (λ s. string_bytes s ≡ str_to_ascii_lowercase text.now) }
{
    let mut lower = String::from_str(alloc, text)?;
    lower.make_ascii_lowercase();
    Ok(lower)
}

/// Whether what counts of two values is the same.
#[tactic(auto, using(crate::proofs::ValueLemmas::same_counting_parts))]
fn are_same(alloc: Global, expected: &[u8], sent: &[u8]) -> Result<bool, AllocError>
    ensures { IfOk result (λ b. IsTrue b ↔ (counting_parts expected.now ≡ counting_parts sent.now)) }
{
    let expected = counting_bytes(alloc, expected)?;
    let sent = counting_bytes(alloc, sent)?;
    Ok(expected.as_slice() == sent.as_slice())
}

/// The value without the blanks that don't count.
fn counting_bytes(alloc: Global, value: &[u8]) -> Result<Vec<u8>, AllocError>
    ensures { IfOk result (λ v. parts_between v.items ≡ counting_parts value.now) }
{
    let mut kept = Vec::new(alloc);
    let mut begins = true;
    for byte in without_end(value) {
        if !(begins && is_blank(*byte)) {
            kept.push(*byte)?;
            begins = *byte == b',';
        }
    }
    Ok(kept)
}

fn without_end(value: &[u8]) -> &[u8]
    ensures { result.now ≡ without_end_of value.now }
{
    let mut end = value.len();
    while end > 0 && is_blank(value[end - 1]) {
        end -= 1;
    }
    &value[..end]
}

fn before_semicolon(value: &[u8]) -> &[u8]
    ensures { result.now ≡ before_semicolon_of value.now }
{
    for (index, byte) in value.iter().enumerate() {
        if *byte == b';' {
            return &value[..index];
        }
    }
    value
}

fn is_blank(byte: u8) -> bool
    ensures { result ≡ is_blank_byte byte }
{
    byte == b' ' || byte == b'\t'
}
