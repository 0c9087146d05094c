//! The items of lists in the bodies of answers.
ghost use Rattle.std.specs.Prelude.{◌≡◌, OnOk};
ghost use Rattle.serde_json.specs.Data.{string};
ghost use Rattle.answer_texts.specs.Data as spec;
ghost use Rattle.answer_texts.specs.Parts.{scalar_data};
ghost use Rattle.answer_texts.specs.Tokens.{tokens_of, Adds};

use crate::writing::{ToJson, write_object};
use broker_core::answer::{DeployedItem, MatrixRow, Verified};
use broker_core::command::Version;
use broker_core::need::PairFault;
use broker_names::name::Name;
use json::Writer;
use std::alloc::AllocError;

/// What is under a key of an item.
#[derive(Clone, Copy, Drop)]
pub(crate) enum Scalar<'a> {
    Null,
    Text(&'a str),
    Number(u64),
    Truth(bool),
}

impl ToJson for Scalar<'_> {
    ghost as_json = { scalar_data };

    fn write(&self, out: &mut Writer) -> Result<(), AllocError> {
        match self {
            Scalar::Null => out.null(),
            Scalar::Text(text) => out.string(text),
            Scalar::Number(number) => out.u64(*number),
            Scalar::Truth(truth) => out.boolean(*truth),
        }
    }
}

fn evidence(checked: bool) -> &'static str
    ensures { result.now ≡ spec.evidence checked }
{
    if checked { "checked" } else { "claimed" }
}

fn name_or_null(name: &Option<Name>) -> Scalar<'_>
    ensures { scalar_data result ≡ spec.or_null string name.now }
{
    match name {
        Some(name) => Scalar::Text(name.as_str()),
        None => Scalar::Null,
    }
}

impl ToJson for PairFault {
    ghost as_json = { spec.pair_fault };

    fn write(&self, out: &mut Writer) -> Result<(), AllocError> {
        let members = [
            ("consumer", Scalar::Text(self.consumer.as_str())),
            (
                "consumerVersion",
                Scalar::Text(self.consumer_version.as_str()),
            ),
            ("kind", Scalar::Text(self.kind.as_str())),
            ("provider", Scalar::Text(self.provider.as_str())),
            ("providerVersion", name_or_null(&self.provider_version)),
        ];
        write_object(out, &members)
    }
}

impl ToJson for DeployedItem {
    ghost as_json = { spec.deployed_item };

    fn write(&self, out: &mut Writer) -> Result<(), AllocError> {
        let members = [
            ("instance", Scalar::Text(self.instance.as_str())),
            ("pacticipant", Scalar::Text(self.pacticipant.as_str())),
            ("version", Scalar::Text(self.version.as_str())),
        ];
        write_object(out, &members)
    }
}

impl ToJson for Version {
    ghost as_json = { spec.version_item };

    fn write(&self, out: &mut Writer) -> Result<(), AllocError> {
        let members = [
            ("pacticipant", Scalar::Text(self.pacticipant.as_str())),
            ("version", Scalar::Text(self.name.as_str())),
        ];
        write_object(out, &members)
    }
}

fn write_verified<'a>(
    out: &mut Writer,
    row: &'a MatrixRow,
    verified: &'a Verified,
) -> Result<(), AllocError>
    ensures { OnOk result (Adds (tokens_of (spec.matrix_row
        (record row.now { verified = Some verified.now }))) out.old out.new) }
{
    let members = [
        ("consumer", Scalar::Text(row.consumer.as_str())),
        (
            "consumerVersion",
            Scalar::Text(row.consumer_version.as_str()),
        ),
        ("evidence", Scalar::Text(evidence(verified.latest.checked))),
        ("provider", Scalar::Text(row.provider.as_str())),
        (
            "providerVersion",
            Scalar::Text(verified.provider_version.as_str()),
        ),
        ("result", Scalar::Number(verified.result)),
        ("success", Scalar::Truth(verified.latest.pass)),
    ];
    write_object(out, &members)
}

fn write_unverified(out: &mut Writer, row: &MatrixRow) -> Result<(), AllocError>
    ensures { OnOk result (Adds (tokens_of (spec.matrix_row
        (record row.now { verified = None }))) out.old out.new) }
{
    let members = [
        ("consumer", Scalar::Text(row.consumer.as_str())),
        (
            "consumerVersion",
            Scalar::Text(row.consumer_version.as_str()),
        ),
        ("evidence", Scalar::Null),
        ("provider", Scalar::Text(row.provider.as_str())),
        ("providerVersion", Scalar::Null),
        ("result", Scalar::Null),
        ("success", Scalar::Null),
    ];
    write_object(out, &members)
}

impl ToJson for MatrixRow {
    ghost as_json = { spec.matrix_row };

    fn write(&self, out: &mut Writer) -> Result<(), AllocError> {
        match &self.verified {
            Some(verified) => write_verified(out, self, verified),
            None => write_unverified(out, self),
        }
    }
}
