//! Writing JSON values token by token, so that a list of many items takes no memory but its text.
ghost use Rattle.std.specs.Prelude.{◌≡◌, [], string_bytes, IfOk, OnOk};
ghost use Rattle.json.specs.Print.{print};
ghost use Rattle.serde_json.specs.Data.{Data};
ghost use Rattle.answer_texts.specs.Data as spec;
ghost use Rattle.answer_texts.specs.Tokens.{tokens_of, Adds};

use json::Writer;
use std::alloc::{AllocError, Global};

/// How many bytes a text has room for before it grows: most answers fit.
const SHORT_TEXT: usize = 128;

/// What can be written as a JSON value.
pub(crate) trait ToJson {
    /// The value.
    ghost as_json: { Self → Data };

    /// Writes it after what is written. An `Err` means out of memory.
    fn write(&self, out: &mut Writer) -> Result<(), AllocError>
        ensures { OnOk result (Adds (tokens_of (as_json self.now)) out.old out.new) };
}

impl ToJson for u64 {
    ghost as_json = { spec.whole };

    fn write(&self, out: &mut Writer) -> Result<(), AllocError> {
        out.u64(*self)
    }
}

/// Writes a list.
pub(crate) fn write_items<T: ToJson>(out: &mut Writer, list: &[T]) -> Result<(), AllocError>
    ensures { OnOk result (Adds (tokens_of (spec.items T.as_json list.now)) out.old out.new) }
{
    out.begin_array()?;
    for item in list {
        item.write(out)?;
    }
    out.end_array()
}

/// Writes an object of members with these keys.
pub(crate) fn write_object<T: ToJson>(
    out: &mut Writer,
    members: &[(&str, T)],
) -> Result<(), AllocError>
    ensures { OnOk result (Adds (tokens_of (spec.object_of T.as_json members.now)) out.old out.new) }
{
    out.begin_object()?;
    for (key, value) in members {
        out.key(key)?;
        value.write(out)?;
    }
    out.end_object()
}

/// The text that is written.
fn finished(out: Writer) -> String
    requires { out.before ≡ [] }
    ensures { string_bytes result ≡ print out.tokens }
{
    String::from_utf8(out.into_inner()).unwrap()
}

/// The compact text of an object of members with these keys.
pub(crate) fn object_text<T: ToJson>(
    alloc: Global,
    members: &[(&str, T)],
) -> Result<String, AllocError>
    ensures { IfOk result (spec.IsJsonText (spec.object_of T.as_json members.now)) }
{
    let mut out = Writer::new(Vec::with_capacity(alloc, SHORT_TEXT)?);
    write_object(&mut out, members)?;
    Ok(finished(out))
}
