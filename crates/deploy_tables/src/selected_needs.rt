//! The needs of a version in an environment: all of them, or those that aren't good. Each is decided on numbers; names
//! are looked up only for those that are returned.
ghost use Rattle.std.specs.Prelude.{◌≡◌, ◌∷◌, [], ◌++◌, ◌↔◌, IfOk, IsTrue, Contains, option_to_list};
ghost use Rattle.broker_core.specs.declared.need.Need.{Need as NeedModel};
ghost use Rattle.broker_tables.specs.Failures.{LooksUp, FailsByStoreFrom};
ghost use Rattle.broker_tables.specs.Holds.{Queries};
ghost use Rattle.deploy_tables.specs.AnyThere.{AnswersOnlyIf, EachReleasedIsThere, IsOfAVersionUnless};
ghost use Rattle.deploy_tables.specs.Matrix.{IsOfSome};
ghost use Rattle.deploy_tables.specs.Releases.{IsVersion};
ghost use Rattle.deploy_tables.specs.Partners.{AreNumbersOfVersions, AreReleasedThere, AreNumbered};
ghost use Rattle.deploy_tables.specs.Needs.{AreLatestOf, AreOfVersions, IsSaidOf, is_good, is_left_out, IsLeftOutBy, need_with, need_used, HasItsNumber, AddsNeeds, IsWithPartner, IsNeedOfContract, IsOwnNeed, IsUsed, IsNeedOfOthers, IsWantedNeed};

use crate::contracts_there::{NumberedContract, contracts_there};
use crate::partners::{partners, released_numbers};
use crate::version_names::version_numbered;
use broker_core::command::Version;
use broker_core::need::{Latest, Need};
use broker_names::name::Name;
use contract_tables::{
    Contract, LatestResult, NumberedName, contracts_of, latest_among, latest_of, latest_results,
};
use sqlite::{Alter, Connection};
use std::alloc::{AllocError, Global};
use table_access::StoreFault;

/// Which needs are looked for.
#[derive(Clone, Copy, Debug)]
pub(crate) enum Selection {
    /// All of them.
    All,
    /// Those that aren't good in an environment that is strict or not.
    Open { strict: bool },
}

/// What is asked: the needs of the version of this number in the environment, all or some. A need is wanted if it is one
/// of these.
#[derive(Clone, Copy)]
pub(crate) struct Question<'a> {
    pub number: u32,
    pub version: &'a Version,
    pub environment: &'a str,
    pub selection: Selection,
}

/// Whether a need is good whose provider has a version there, by what the latest result says.
fn is_good(latest: Option<Latest>, strict: bool) -> bool
    ensures { result ≡ is_good strict latest }
{
    match latest {
        Some(latest) => latest.pass && (latest.checked || !strict),
        None => false,
    }
}

/// Whether a need isn't wanted whose provider has a version there, by what the latest result says.
fn is_left_out(latest: Option<Latest>, selection: Selection) -> bool
    ensures { result ≡ is_left_out selection latest }
{
    match selection {
        Selection::All => false,
        Selection::Open { strict } => is_good(latest, strict),
    }
}

/// Adds the need of a consumer's contract with a provider: with this version of it, and what the latest result says.
fn push_need(
    found: &mut Vec<Need>,
    consumer: &Version,
    provider: &Name,
    partner: Option<Name>,
    latest: Option<Latest>,
) -> Result<(), AllocError>
    ensures { IfOk result
        (λ _. found.new.items ≡ found.old.items ++ need_with consumer.now provider.now partner latest ∷ []) }
{
    found.push(Need {
        consumer: consumer.pacticipant.clone()?,
        consumer_version: consumer.name.clone()?,
        provider: provider.clone()?,
        provider_version: partner,
        latest,
    })?;
    Ok(())
}

// ---- the version's own contracts

/// The version's name.
fn name_of(version: Version) -> Name
    ensures { result ≡ version.name }
{
    let Version {
        pacticipant: _pacticipant,
        name,
    } = version;
    name
}

/// Adds the need of the contract with the version of this number, of which the latest result says this, if it is wanted.
/// `StoreFault::Store` if it is and there is no such version, as in a database that breaks the tables' rules.
fn with_latest<S: Alter>(
    alloc: Global,
    conn: &mut Connection<S>,
    question: &Question<'_>,
    contract: &Contract,
    partner: u32,
    latest: Option<Latest>,
    found: &mut Vec<Need>,
) -> Result<(), StoreFault>
    ensures answers { Queries S.Store conn.old conn.new result
        (λ _ s. IsSaidOf s contract.now partner latest →
        AddsNeeds found.old.items found.new.items (IsWithPartner s question.now contract.now partner)) }
    ensures failure { FailsByStoreFrom S.Store conn.old conn.new result (IsVersion partner) }
    ensures named { AnswersOnlyIf S.Store conn.old conn.new result
        (IsOfAVersionUnless (IsTrue (is_left_out question.now.selection latest)) partner) }
{
    if is_left_out(latest, question.selection) {
        return Ok(());
    }
    let partner = Some(name_of(done!(version_numbered(alloc, conn, partner))));
    match push_need(found, question.version, &contract.provider, partner, latest) {
        Ok(()) => Ok(()),
        Err(_) => Err(StoreFault::Memory),
    }
}

/// Adds the need of the contract with the version of this number, if it is wanted. `StoreFault::Store` if it is and there
/// is no such version, as in a database that breaks the tables' rules.
fn with_partner<S: Alter>(
    alloc: Global,
    conn: &mut Connection<S>,
    question: &Question<'_>,
    contract: &Contract,
    partner: u32,
    found: &mut Vec<Need>,
) -> Result<(), StoreFault>
    ensures answers { Queries S.Store conn.old conn.new result
        (λ _ s. AddsNeeds found.old.items found.new.items (IsWithPartner s question.now contract.now partner)) }
    ensures failure { FailsByStoreFrom S.Store conn.old conn.new result (IsVersion partner) }
{
    let latest = done!(latest_of(conn, contract.content, partner));
    with_latest(alloc, conn, question, contract, partner, latest, found)
}

/// Adds the needs of the contract with the versions of these numbers that are wanted.
fn with_partners<S: Alter>(
    alloc: Global,
    conn: &mut Connection<S>,
    question: &Question<'_>,
    contract: &Contract,
    there: &[u32],
    found: &mut Vec<Need>,
) -> Result<(), StoreFault>
    ensures answers { Queries S.Store conn.old conn.new result
        (λ _ s. AddsNeeds found.old.items found.new.items
        (λ x. IsOfSome (λ n. IsWithPartner s question.now contract.now n x) there.now)) }
    ensures failure { FailsByStoreFrom S.Store conn.old conn.new result (λ s. AreNumbersOfVersions s there.now) }
{
    for partner in there {
        done!(with_partner(alloc, conn, question, contract, *partner, found));
    }
    Ok(())
}

/// Adds the needs of the contract that are wanted, if these versions are released in the environment.
fn needs_of_contract<S: Alter>(
    alloc: Global,
    conn: &mut Connection<S>,
    question: &Question<'_>,
    released: &[NumberedName],
    contract: &Contract,
    found: &mut Vec<Need>,
) -> Result<(), StoreFault>
    ensures answers { Queries S.Store conn.old conn.new result
        (λ _ s. AreReleasedThere s question.now.environment.now released.now →
        AddsNeeds found.old.items found.new.items (IsNeedOfContract s question.now contract.now)) }
    ensures failure { FailsByStoreFrom S.Store conn.old conn.new result
        (λ s. AreReleasedThere s question.now.environment.now released.now) }
{
    let provider = &contract.provider;
    let there = done!(partners(alloc, conn, question.environment, released, provider));
    if there.is_empty() {
        match push_need(found, question.version, provider, None, None) {
            Ok(()) => Ok(()),
            Err(_) => Err(StoreFault::Memory),
        }
    } else {
        with_partners(alloc, conn, question, contract, &there, found)
    }
}

/// Adds the needs of these contracts that are wanted, if these versions are released in the environment.
fn needs_of_contracts<S: Alter>(
    alloc: Global,
    conn: &mut Connection<S>,
    question: &Question<'_>,
    released: &[NumberedName],
    contracts: &[Contract],
    found: &mut Vec<Need>,
) -> Result<(), StoreFault>
    ensures answers { Queries S.Store conn.old conn.new result
        (λ _ s. AreReleasedThere s question.now.environment.now released.now →
        AddsNeeds found.old.items found.new.items
        (λ x. IsOfSome (λ c. IsNeedOfContract s question.now c x) contracts.now)) }
    ensures failure { FailsByStoreFrom S.Store conn.old conn.new result
        (λ s. AreReleasedThere s question.now.environment.now released.now) }
{
    for contract in contracts {
        done!(needs_of_contract(alloc, conn, question, released, contract, found));
    }
    Ok(())
}

/// Adds the needs of the version as a consumer that are wanted. An answer comes only if each row of what is released in the
/// environment names a version, also if no CHECK or reference asks for it.
fn own_needs<S: Alter>(
    alloc: Global,
    conn: &mut Connection<S>,
    question: &Question<'_>,
    found: &mut Vec<Need>,
) -> Result<(), StoreFault>
    ensures answers { LooksUp S.Store conn.old conn.new result
        (λ _ s. AreNumbered s question.now.environment.now × (HasItsNumber s question.now →
        AddsNeeds found.old.items found.new.items (IsOwnNeed s question.now))) }
    ensures named { AnswersOnlyIf S.Store conn.old conn.new result (EachReleasedIsThere question.now.environment.now) }
{
    let released = done!(released_numbers(alloc, conn, question.environment));
    let contracts = done!(contracts_of(alloc, conn, question.number));
    needs_of_contracts(alloc, conn, question, &released, &contracts, found)
}

// ---- the contracts with its pacticipant

/// Adds the need of the contract that this consumer has with the version's pacticipant, if it is a version of another.
fn push_used(
    found: &mut Vec<Need>,
    version: &Version,
    consumer: &Version,
    latest: Option<Latest>,
) -> Result<(), AllocError>
    ensures { IfOk result
        (λ _. found.new.items ≡ found.old.items ++ option_to_list (need_used version.now latest consumer.now)) }
{
    if consumer.pacticipant == version.pacticipant {
        return Ok(());
    }
    let partner = Some(version.name.clone()?);
    push_need(found, consumer, &version.pacticipant, partner, latest)
}

/// Adds the need of this contract with the version's pacticipant, if it is wanted. These are the latest results of the
/// version. `StoreFault::Store` if it is and the contract is of no version, as in a database that breaks the tables'
/// rules.
fn used_by<S: Alter>(
    alloc: Global,
    conn: &mut Connection<S>,
    question: &Question<'_>,
    results: &[LatestResult],
    contract: NumberedContract,
    found: &mut Vec<Need>,
) -> Result<(), StoreFault>
    ensures answers { Queries S.Store conn.old conn.new result
        (λ _ s. AreLatestOf s question.now.version.now results.now →
        AddsNeeds found.old.items found.new.items (IsUsed s question.now contract)) }
    ensures failure { FailsByStoreFrom S.Store conn.old conn.new result (IsVersion contract.number) }
    ensures named { AnswersOnlyIf S.Store conn.old conn.new result
        (IsOfAVersionUnless (IsLeftOutBy results.now question.now.selection contract.content) contract.number) }
{
    let latest = latest_among(results, contract.content);
    if is_left_out(latest, question.selection) {
        return Ok(());
    }
    let consumer = done!(version_numbered(alloc, conn, contract.number));
    match push_used(found, question.version, &consumer, latest) {
        Ok(()) => Ok(()),
        Err(_) => Err(StoreFault::Memory),
    }
}

/// Adds the needs of these contracts with the version's pacticipant that are wanted. These are the latest results of the
/// version.
fn used_by_each<S: Alter>(
    alloc: Global,
    conn: &mut Connection<S>,
    question: &Question<'_>,
    results: &[LatestResult],
    contracts: &[NumberedContract],
    found: &mut Vec<Need>,
) -> Result<(), StoreFault>
    ensures answers { Queries S.Store conn.old conn.new result
        (λ _ s. AreLatestOf s question.now.version.now results.now →
        AddsNeeds found.old.items found.new.items (λ x. IsOfSome (λ c. IsUsed s question.now c x) contracts.now)) }
    ensures failure { FailsByStoreFrom S.Store conn.old conn.new result (λ s. AreOfVersions s contracts.now) }
{
    for contract in contracts {
        done!(used_by(alloc, conn, question, results, *contract, found));
    }
    Ok(())
}

/// Adds the needs of the version as a provider that are wanted.
fn needs_of_others<S: Alter>(
    alloc: Global,
    conn: &mut Connection<S>,
    question: &Question<'_>,
    found: &mut Vec<Need>,
) -> Result<(), StoreFault>
    ensures { LooksUp S.Store conn.old conn.new result (λ _ s. HasItsNumber s question.now →
        AddsNeeds found.old.items found.new.items (IsNeedOfOthers s question.now)) }
{
    let provider = question.version.pacticipant.as_str();
    let contracts = done!(contracts_there(alloc, conn, question.environment, provider));
    let results = done!(latest_results(alloc, conn, question.number));
    used_by_each(alloc, conn, question, &results, &contracts, found)
}

/// The needs of the version that are wanted, in no order. An answer comes only if each row of what is released in the
/// environment names a version, also if no CHECK or reference asks for it.
pub(crate) fn selected_needs<S: Alter>(
    alloc: Global,
    conn: &mut Connection<S>,
    question: &Question<'_>,
) -> Result<Vec<Need>, StoreFault>
    ensures answers { LooksUp S.Store conn.old conn.new result (λ found s. HasItsNumber s question.now →
        (x : NeedModel) → Contains found.items x ↔ IsWantedNeed s question.now x) }
    ensures named { AnswersOnlyIf S.Store conn.old conn.new result (EachReleasedIsThere question.now.environment.now) }
{
    let mut found = Vec::new(alloc);
    done!(own_needs(alloc, conn, question, &mut found));
    done!(needs_of_others(alloc, conn, question, &mut found));
    Ok(found)
}
