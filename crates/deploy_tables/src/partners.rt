//! The versions of a provider that are in an environment, by their numbers.
ghost use Rattle.std.specs.Prelude.{◌≡◌, ◌++◌, ◌↔◌, IfOk, filter_map};
ghost use Rattle.broker_core.specs.Gate.{IsPresent};
ghost use Rattle.broker_tables.specs.Failures.{LooksUp};
ghost use Rattle.deploy_tables.specs.AnyThere.{AnswersOnlyIf, EachReleasedIsThere};
ghost use Rattle.deploy_tables.specs.ContractsThere.{IsDeployedIn};
ghost use Rattle.deploy_tables.specs.Partners.{ArePartners, AreReleasedThere, number_if};

use crate::lists::each_number_once;
use broker_names::name::Name;
use contract_tables::{NumberedName, NumberedNameRow};
use sqlite::{Alter, Connection, params};
use std::alloc::{AllocError, Global};
use table_access::{NumberRow, StoreFault, list_of};

/// The versions of the provider that are deployed in the environment, in no order; one that is in two instances is there
/// twice.
fn deployed_partners<S: Alter>(
    alloc: Global,
    conn: &mut Connection<S>,
    environment: &str,
    provider: &str,
) -> Result<Vec<u32>, StoreFault>
    ensures { LooksUp S.Store conn.old conn.new result
        (λ found s. ArePartners s provider.now (IsDeployedIn s environment.now) found.items) }
{
    list_of::<NumberRow, S>(
        alloc,
        conn,
        "SELECT version_number FROM deployed WHERE environment = ?1 AND pacticipant = ?2",
        params![environment, provider],
    )
}

/// The versions that are released in the environment, in no order: the number of each, and its pacticipant. They come only
/// if each row of what is released there names a version, also if no CHECK or reference asks for it.
pub(crate) fn released_numbers<S: Alter>(
    alloc: Global,
    conn: &mut Connection<S>,
    environment: &str,
) -> Result<Vec<NumberedName>, StoreFault>
    ensures answers { LooksUp S.Store conn.old conn.new result
        (λ found s. AreReleasedThere s environment.now found.items) }
    ensures named { AnswersOnlyIf S.Store conn.old conn.new result (EachReleasedIsThere environment.now) }
{
    list_of::<NumberedNameRow, S>(
        alloc,
        conn,
        "SELECT r.version_number, v.pacticipant FROM released r LEFT JOIN versions v ON v.number = r.version_number WHERE r.environment = ?1",
        params![environment],
    )
}

/// The number of the version, if it is one of the provider.
fn number_if(released: &NumberedName, provider: &Name) -> Option<u32>
    ensures { result ≡ number_if provider.now released.now }
{
    if released.name == *provider {
        Some(released.number)
    } else {
        None
    }
}

/// These numbers, and after them those of the provider's versions among the released ones.
fn with_released(
    deployed: Vec<u32>,
    released: &[NumberedName],
    provider: &Name,
) -> Result<Vec<u32>, AllocError>
    ensures { IfOk result
        (λ found. found.items ≡ deployed.items ++ filter_map (number_if provider.now) released.now) }
{
    let mut found = deployed;
    for one in released {
        if let Some(number) = number_if(one, provider) {
            found.push(number)?;
        }
    }
    Ok(found)
}

/// The versions of the provider that are in the environment, each once, if these are released there.
pub(crate) fn partners<S: Alter>(
    alloc: Global,
    conn: &mut Connection<S>,
    environment: &str,
    released: &[NumberedName],
    provider: &Name,
) -> Result<Vec<u32>, StoreFault>
    ensures { LooksUp S.Store conn.old conn.new result
        (λ found s. AreReleasedThere s environment.now released.now →
        ArePartners s provider.now (IsPresent s environment.now) found.items) }
{
    let deployed = done!(deployed_partners(alloc, conn, environment, provider.as_str()));
    match with_released(deployed, released, provider) {
        Ok(found) => Ok(each_number_once(found)),
        Err(_) => Err(StoreFault::Memory),
    }
}
