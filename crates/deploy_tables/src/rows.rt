//! The rows of a matrix, as they are paired from what is read, and in their order.
ghost use Rattle.std.specs.Prelude.{◌≡◌, ◌↔◌, IfOk, Contains, map};
ghost use Rattle.std.specs.Option.{option_cmp};
ghost use Rattle.broker_core.specs.declared.answer.MatrixRow.{MatrixRow as RowModel};
ghost use Rattle.broker_core.specs.declared.command.Version.{Version as VersionModel};
ghost use Rattle.broker_core.specs.Listing.{Lists};
ghost use Rattle.broker_core.specs.Machine.{IsMatrixRow, matrix_cmp, verified_version};
ghost use Rattle.broker_core.specs.State.{State as Broker};
ghost use Rattle.broker_core.specs.Text.{text_cmp};
ghost use Rattle.deploy_tables.specs.Matrix.{row_of, row_with, rows_with, row_used};

use broker_core::answer::{MatrixRow, Verified};
use broker_core::command::Version;
use broker_names::name::Name;
use contract_tables::{Contract, LatestResult};
use std::alloc::{AllocError, Global};
use std::cmp::Ordering;

/// The contract of this consumer with this provider, and what is said of a version of the provider, if anything.
fn row_of(
    consumer: &Version,
    provider: &Name,
    verified: Option<Verified>,
) -> Result<MatrixRow, AllocError>
    ensures { IfOk result (λ row. row ≡ row_of consumer.now provider.now verified) }
{
    Ok(MatrixRow {
        consumer: consumer.pacticipant.clone()?,
        consumer_version: consumer.name.clone()?,
        provider: provider.clone()?,
        verified,
    })
}

/// The contract of the version, and this version of its provider.
fn row_with(
    version: &Version,
    contract: &Contract,
    verified: &Verified,
) -> Result<MatrixRow, AllocError>
    ensures { IfOk result (λ row. row ≡ row_with version.now contract.now verified.now) }
{
    let verified = Verified {
        provider_version: verified.provider_version.clone()?,
        result: verified.result,
        latest: verified.latest,
    };
    row_of(version, &contract.provider, Some(verified))
}

/// The contract of the version, and each of these versions of its provider.
fn each_with(
    alloc: Global,
    version: &Version,
    contract: &Contract,
    verified: &[Verified],
) -> Result<Vec<MatrixRow>, AllocError>
    ensures { IfOk result (λ rows. rows.items ≡ map (row_with version.now contract.now) verified.now) }
{
    let mut rows = Vec::new(alloc);
    for one in verified {
        rows.push(row_with(version, contract, one)?)?;
    }
    Ok(rows)
}

/// The contract of the version, and each of these versions of its provider, or none.
pub fn rows_with(
    alloc: Global,
    version: &Version,
    contract: &Contract,
    verified: &[Verified],
) -> Result<Vec<MatrixRow>, AllocError>
    ensures { IfOk result (λ rows. rows.items ≡ rows_with version.now contract.now verified.now) }
{
    let mut rows = each_with(alloc, version, contract, verified)?;
    if rows.is_empty() {
        rows.push(row_of(version, &contract.provider, None)?)?;
    }
    Ok(rows)
}

/// The contract of this consumer, and the version as its provider, with its result for the content.
fn row_used(
    version: &Version,
    latest: &LatestResult,
    consumer: &Version,
) -> Result<MatrixRow, AllocError>
    ensures { IfOk result (λ row. row ≡ row_used version.now latest.now consumer.now) }
{
    let verified = Verified {
        provider_version: version.name.clone()?,
        result: u64::from(latest.result),
        latest: latest.latest,
    };
    row_of(consumer, &version.pacticipant, Some(verified))
}

/// The contracts of these consumers, and the version as their provider, with its result for the content.
pub fn rows_used(
    alloc: Global,
    version: &Version,
    latest: &LatestResult,
    consumers: &[Version],
) -> Result<Vec<MatrixRow>, AllocError>
    ensures { IfOk result (λ rows. rows.items ≡ map (row_used version.now latest.now) consumers.now) }
{
    let mut rows = Vec::new(alloc);
    for consumer in consumers {
        rows.push(row_used(version, latest, consumer)?)?;
    }
    Ok(rows)
}

/// The order of the versions of a provider: none first.
fn version_order(one: &Option<Verified>, other: &Option<Verified>) -> Ordering
    ensures { result ≡ option_cmp text_cmp (verified_version one.now) (verified_version other.now) }
{
    match (one, other) {
        (None, None) => Ordering::Equal,
        (None, Some(_)) => Ordering::Less,
        (Some(_), None) => Ordering::Greater,
        (Some(one), Some(other)) => one.provider_version.cmp(&other.provider_version),
    }
}

/// The order of two rows.
fn row_order(one: &MatrixRow, other: &MatrixRow) -> Ordering
    ensures { result ≡ matrix_cmp one.now other.now }
{
    let version = version_order(&one.verified, &other.verified);
    one.consumer.cmp(&other.consumer).then(
        one.consumer_version
            .cmp(&other.consumer_version)
            .then(one.provider.cmp(&other.provider).then(version)),
    )
}

/// The rows of a matrix, each once, in their order.
pub fn each_row_once(rows: Vec<MatrixRow>) -> Vec<MatrixRow>
    ensures { (s : Broker) (v : VersionModel) →
        ((x : RowModel) → Contains rows.items x ↔ IsMatrixRow s v x) →
        Lists matrix_cmp (IsMatrixRow s v) result.items }
{
    let mut rows = rows;
    rows.sort_unstable_by(|one, other| row_order(one, other));
    rows.dedup_by(|one, other| row_order(one, other).is_eq());
    rows
}
