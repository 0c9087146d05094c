//! The fields of a body.
ghost use Rattle.std.specs.Prelude.{◌≡◌, ◌↔◌, ◌<◌, length, IsUtf8, IsOk, IfOk, IfErr, codes, Option, None, Ok, Err, ok_or, option_map};
ghost use Rattle.serde_json.specs.Errors.{IsMemory};
ghost use Rattle.serde_json.specs.View.{view};
ghost use Rattle.http_requests.specs.Views.{object_in, IsObjectRead};
ghost use Rattle.http_requests.specs.Bodies.{IsData, IsTextNamed, HasName, IsNameField, IsGivenName, IsOptionalName, IsTokenText, IsTokenField};
ghost use Rattle.http_requests.specs.Bodies.{IsTruthField, IsGivenTruth, IsOptionalTruth, non_null, or_empty};

use crate::names::{Parsed, name_of};
use broker_core::command::FormFault;
use broker_names::name::{Name, Text, Token, TokenFault};
use serde_json::{Error, Value};
use std::alloc::{AllocError, Global};

/// The fields of a body that is an object of JSON.
#[derive(Drop)]
pub(crate) struct Fields {
    object: Value,
}

/// Whether a fault of the text ended its reading. An `Err` means out of memory, and nothing else.
fn of_text(error: &Error) -> Result<(), AllocError>
    ensures { IsOk result ↔ (¬ (IsMemory error.now)) }
{
    if error.is_memory() {
        Err(AllocError)
    } else {
        Ok(())
    }
}

/// The value that a body is, if it is one. That a body is empty or not UTF-8 is found before memory is taken.
fn read_value(alloc: Global, body: &[u8]) -> Result<Option<Value>, AllocError>
    ensures value { IfOk result (λ value. IsData body.now (option_map view value)) }
    ensures memory { IfErr result (λ _. IsUtf8 body.now × (0 < length body.now)) }
{
    let Ok(text) = str::from_utf8(body) else {
        return Ok(None);
    };
    match Value::from_str(alloc, text) {
        Ok(value) => Ok(Some(value)),
        Err(error) => {
            of_text(&error)?;
            Ok(None)
        }
    }
}

/// A body that has no bytes counts as an object without fields.
pub(crate) fn or_empty(body: &[u8]) -> &[u8]
    ensures { result.now ≡ or_empty body.now }
{
    if body.is_empty() { b"{}" } else { body }
}

/// The fault of a field.
fn field_fault(alloc: Global, key: &str) -> Result<FormFault, AllocError>
    ensures { IfOk result (λ fault. fault ≡ FormFault.Field key.now) }
{
    Ok(FormFault::Field(Text::new(String::from_str(alloc, key)?)))
}

/// The name that a text is, if there is one. Memory is taken only for a name.
fn text_named(alloc: Global, text: Option<&str>) -> Result<Option<Name>, AllocError>
    ensures named { IfOk result (IsTextNamed (option_map (λ t. t.now) text.entry)) }
    ensures memory { IfErr result (λ _. HasName (option_map (λ t. t.now) text.entry)) }
{
    match text {
        Some(text) => name_of(alloc, text),
        None => Ok(None),
    }
}

/// The truth value that is found, or the fault of the field; only the fault takes memory.
fn truth_or(alloc: Global, key: &str, truth: Option<bool>) -> Parsed<bool>
    ensures truth { IfOk result (λ r. r ≡ ok_or truth (FormFault.Field key.now)) }
    ensures memory { IfErr result (λ _. truth ≡ None) }
{
    match truth {
        Some(truth) => Ok(Ok(truth)),
        None => Ok(Err(field_fault(alloc, key)?)),
    }
}

/// A value that isn't null.
fn non_null(value: Option<&Value>) -> Option<&Value>
    ensures { option_map (λ v. view v.now) result ≡ non_null (option_map (λ v. view v.now) value.entry) }
{
    match value {
        Some(value) if !value.is_null() => Some(value),
        _ => None,
    }
}

/// The token that a text is. A text that is none takes no memory.
fn body_token(alloc: Global, text: Option<&str>) -> Parsed<Token>
    ensures token { IfOk result (IsTokenText (option_map (λ t. t.now) text.entry)) }
    ensures memory { IfErr result (λ _. ¬ (IsTokenText (option_map (λ t. t.now) text.entry) (Err FormFault.Token))) }
{
    let Some(text) = text else {
        return Ok(Err(field_fault(alloc, "token")?));
    };
    match Token::new(alloc, text) {
        Ok(token) => Ok(Ok(token)),
        Err(TokenFault::BadToken) => Ok(Err(FormFault::Token)),
        Err(TokenFault::Memory) => Err(AllocError),
    }
}

/// The name in a value that is given. Without one no memory is taken.
fn given_name(alloc: Global, value: Option<&Value>, key: &str) -> Parsed<Option<Name>>
    ensures named { IfOk result (IsGivenName key.now (option_map (λ v. view v.now) value.entry)) }
    ensures memory { IfErr result (λ _. ¬ (IsGivenName key.now (option_map (λ v. view v.now) value.entry) (Ok None))) }
{
    let Some(value) = value else {
        return Ok(Ok(None));
    };
    match text_named(alloc, value.as_str())? {
        Some(name) => Ok(Ok(Some(name))),
        None => Ok(Err(field_fault(alloc, key)?)),
    }
}

/// The truth value in a value that is given, or the fault of the field; only the fault takes memory.
fn given_truth(alloc: Global, value: Option<&Value>, key: &str) -> Parsed<bool>
    ensures truth { IfOk result (IsGivenTruth key.now (option_map (λ v. view v.now) value.entry)) }
    ensures memory { IfErr result
        (λ _. IsGivenTruth key.now (option_map (λ v. view v.now) value.entry) (Err (FormFault.Field key.now))) }
{
    let Some(value) = value else {
        return Ok(Ok(false));
    };
    truth_or(alloc, key, value.as_bool())
}

impl Fields {
    /// Reads the fields of a body. That it is empty or not UTF-8 takes no memory to say.
    pub(crate) fn read(alloc: Global, body: &[u8]) -> Parsed<Fields>
        ensures object { IfOk result (IsObjectRead body.now) }
        ensures memory { IfErr result (λ _. IsUtf8 body.now × (0 < length body.now)) }
    {
        match read_value(alloc, body)? {
            Some(object) if object.is_object() => Ok(Ok(Fields { object })),
            _ => Ok(Err(FormFault::Json)),
        }
    }

    /// A name that must be there.
    pub(crate) fn name(&self, alloc: Global, key: &str) -> Parsed<Name>
        ensures { IfOk result (IsNameField key.now (object_in self.now)) }
    {
        match text_named(alloc, self.object.get(key).and_then(Value::as_str))? {
            Some(name) => Ok(Ok(name)),
            None => Ok(Err(field_fault(alloc, key)?)),
        }
    }

    /// A name that may be absent. That it is takes no memory to say.
    pub(crate) fn optional_name(&self, alloc: Global, key: &str) -> Parsed<Option<Name>>
        ensures named { IfOk result (IsOptionalName key.now (object_in self.now)) }
        ensures absent { IfErr result (λ _. ¬ (IsOptionalName key.now (object_in self.now) (Ok None))) }
    {
        given_name(alloc, non_null(self.object.get(key)), key)
    }

    /// The token. That it has a wrong form takes no memory to say.
    pub(crate) fn token(&self, alloc: Global) -> Parsed<Token>
        ensures token { IfOk result (IsTokenField (object_in self.now)) }
        ensures form { IfErr result (λ _. ¬ (IsTokenField (object_in self.now) (Err FormFault.Token))) }
    {
        body_token(alloc, self.object.get("token").and_then(Value::as_str))
    }

    /// A truth value that must be there. Only the fault of the field takes memory.
    pub(crate) fn truth(&self, alloc: Global, key: &str) -> Parsed<bool>
        ensures truth { IfOk result (IsTruthField key.now (object_in self.now)) }
        ensures memory { IfErr result (λ _. IsTruthField key.now (object_in self.now) (Err (FormFault.Field key.now))) }
    {
        truth_or(alloc, key, self.object.get(key).and_then(Value::as_bool))
    }

    /// A truth value that may be absent, which counts as false. Only the fault of the field takes memory.
    pub(crate) fn optional_truth(&self, alloc: Global, key: &str) -> Parsed<bool>
        ensures truth { IfOk result (IsOptionalTruth key.now (object_in self.now)) }
        ensures memory { IfErr result
            (λ _. IsOptionalTruth key.now (object_in self.now) (Err (FormFault.Field key.now))) }
    {
        given_truth(alloc, non_null(self.object.get(key)), key)
    }
}
