//! The versions that are in an environment.
ghost use Rattle.std.specs.Prelude.{◌≡◌, IfOk, Contains, map};
ghost use Rattle.broker_core.specs.Gate.{IsPresent};
ghost use Rattle.broker_core.specs.Listing.{Lists};
ghost use Rattle.broker_core.specs.Machine.{version_cmp};
ghost use Rattle.broker_tables.specs.Failures.{LooksUp};
ghost use Rattle.deploy_tables.specs.AnyThere.{AnswersOnlyIf, EachDeployedIsThere, EachReleasedIsThere};
ghost use Rattle.deploy_tables.specs.Listings.{deployed_version};

use crate::listings::{deployed, released};
use crate::lists::add;
use broker_core::answer::DeployedItem;
use broker_core::command::Version;
use sqlite::{Alter, Connection};
use std::alloc::{AllocError, Global};
use std::cmp::Ordering;
use table_access::StoreFault;

/// The version that is deployed.
fn deployed_version(item: &DeployedItem) -> Result<Version, AllocError>
    ensures { IfOk result (λ version. version ≡ deployed_version item.now) }
{
    Ok(Version {
        pacticipant: item.pacticipant.clone()?,
        name: item.version.clone()?,
    })
}

/// The versions that are deployed; one that is in two instances is there twice.
fn deployed_versions(alloc: Global, deployed: &[DeployedItem]) -> Result<Vec<Version>, AllocError>
    ensures { IfOk result (λ found. found.items ≡ map deployed_version deployed.now) }
{
    let mut found = Vec::new(alloc);
    for item in deployed {
        found.push(deployed_version(item)?)?;
    }
    Ok(found)
}

/// The order of two versions, by their names.
fn names_order(one: &Version, other: &Version) -> Ordering
    ensures { result ≡ version_cmp one.now other.now }
{
    one.pacticipant
        .cmp(&other.pacticipant)
        .then(one.name.cmp(&other.name))
}

/// These versions, each once, in the order of pacticipants and versions.
fn each_version_once(versions: Vec<Version>) -> Vec<Version>
    ensures { Lists version_cmp (Contains versions.items) result.items }
{
    let mut versions = versions;
    versions.sort_unstable_by(|one, other| names_order(one, other));
    versions.dedup_by(|one, other| names_order(one, other).is_eq());
    versions
}

/// The versions that are in the environment, deployed there in some instance or released there: each once, in the order
/// of pacticipants and versions. An answer comes only if each row of what is deployed in the environment, and of what is
/// released there, names a version, also if no CHECK or reference of the tables asks for it.
///
/// # Errors
/// `StoreFault::Memory` if the database is out of memory, or there is none for the answer; `StoreFault::Store` if it
/// refused a query, or if a row holds a text that is no name, or names no version.
pub fn standing<S: Alter>(
    alloc: Global,
    conn: &mut Connection<S>,
    environment: &str,
) -> Result<Vec<Version>, StoreFault>
    ensures answers { LooksUp S.Store conn.old conn.new result
        (λ found s. Lists version_cmp (IsPresent s environment.now) found.items) }
    ensures named { AnswersOnlyIf S.Store conn.old conn.new result
        (λ db. EachDeployedIsThere environment.now db × EachReleasedIsThere environment.now db) }
{
    let deployed = done!(deployed(alloc, conn, environment));
    let released = done!(released(alloc, conn, environment));
    let mut all = match deployed_versions(alloc, &deployed) {
        Ok(found) => found,
        Err(_) => return Err(StoreFault::Memory),
    };
    done!(add(&mut all, released));
    Ok(each_version_once(all))
}
