//! The versions of a provider that have a result for a content, with what the latest of them says.
ghost use Rattle.std.specs.Prelude.{◌≡◌, IfOk, IfErr, IfSome, IfNone, IsSorted, Some, Err, Contains, option_map};
ghost use Rattle.std.specs.Ordering.{nat_cmp};
ghost use Rattle.table_access.specs.Reading.{AreRead};
ghost use Rattle.broker_core.specs.Listing.{Lists};
ghost use Rattle.broker_core.specs.Machine.{IsLatest};
ghost use Rattle.broker_core.specs.State.{latest_result};
ghost use Rattle.broker_core.specs.Text.{version as version_named};
ghost use Rattle.broker_tables.specs.Failures.{LooksUp};
ghost use Rattle.contract_tables.specs.declared.listings.NumberedName.{NumberedName as NamedModel};
ghost use Rattle.contract_tables.specs.ResultsByVersion.{verified_cmp, named_cmp, AgreeOnPasses, SaysPass, AgreeOnChecked, ArePassesByNumber, IsUnlisted, FailsIfNamed, IsSaidBy, IsVerifiedAs};

use crate::listings::{NumberedName, NumberedNameRow};
use crate::version_results::{ContentPass, PassRow, is_among};
use broker_core::answer::Verified;
use broker_core::need::Latest;
use sqlite::{Alter, Connection, params};
use std::alloc::Global;
use table_access::{NumberRow, StoreFault, list_of};

/// The versions of the provider that have a result for this content, each once, in the order of their names, with the
/// number of the latest result.
fn named_results<S: Alter>(
    alloc: Global,
    conn: &mut Connection<S>,
    provider: &str,
    content: u32,
) -> Result<Vec<NumberedName>, StoreFault>
    ensures { LooksUp S.Store conn.old conn.new result
        (λ found s. Lists named_cmp
        (λ x. option_map (λ e. e.0) (latest_result s content (version_named provider.now x.name)) ≡ Some x.number)
        found.items) }
{
    list_of::<NumberedNameRow, S>(
        alloc,
        conn,
        "SELECT l.result, v.version FROM latest l JOIN versions v ON v.number = l.provider_version WHERE l.content = ?1 AND v.pacticipant = ?2 ORDER BY v.version",
        params![content, provider],
    )
}

/// Whether each latest result for the content is a pass, in the order of the results' numbers. `StoreFault::Store` also
/// if a result of another content or version is said to be one of them.
fn passes_for<S: Alter>(
    alloc: Global,
    conn: &mut Connection<S>,
    content: u32,
) -> Result<Vec<ContentPass>, StoreFault>
    ensures { LooksUp S.Store conn.old conn.new result
        (λ found s. ArePassesByNumber found.items × AgreeOnPasses s content found.items) }
{
    let mut found = done!(list_of::<PassRow, S>(
        alloc,
        conn,
        "SELECT r.number, r.pass, l.content, r.content, l.provider_version, r.provider_version FROM latest l JOIN results r ON r.number = l.result WHERE l.content = ?1",
        params![content],
    ));
    found.sort_unstable_by_key(|one| one.result);
    Ok(found)
}

/// The latest results for the content that the broker checked, in the order of their numbers.
fn checked_for<S: Alter>(
    alloc: Global,
    conn: &mut Connection<S>,
    content: u32,
) -> Result<Vec<u32>, StoreFault>
    ensures { LooksUp S.Store conn.old conn.new result
        (λ found s. IsSorted nat_cmp found.items × AgreeOnChecked s content found.items) }
{
    let mut found = done!(list_of::<NumberRow, S>(
        alloc,
        conn,
        "SELECT l.result FROM latest l JOIN checked_results c ON c.result = l.result WHERE l.content = ?1",
        params![content],
    ));
    found.sort_unstable();
    Ok(found)
}

/// Whether the result with this number is a pass, or `None` if it isn't one of these, which are in the order of their
/// numbers.
fn pass_among(passes: &[ContentPass], number: u32) -> Option<bool>
    ensures some { IfSome result (SaysPass passes.now number) }
    ensures none { ArePassesByNumber passes.now → IfNone result (IsUnlisted passes.now number) }
{
    match passes.binary_search_by_key(&number, |one| one.result) {
        Ok(at) => Some(passes[at].pass),
        Err(_) => None,
    }
}

/// The version with what its result says.
/// `StoreFault::Store` comes if no pass says anything of the result, since a row names one that isn't there;
/// `StoreFault::Memory` for no other cause than that there is none for the name.
fn returned(
    named: &NumberedName,
    passes: &[ContentPass],
    checked: &[u32],
) -> Result<Verified, StoreFault>
    ensures found { IfOk result
        (λ found. (found.provider_version ≡ named.now.name) × (found.result ≡ named.now.number)
        × (IsSorted nat_cmp checked.now → IsSaidBy passes.now checked.now found)) }
    ensures cause { ArePassesByNumber passes.now →
        IfErr result (λ f. FailsIfNamed f (IsUnlisted passes.now named.now.number)) }
    ensures silent { IsUnlisted passes.now named.now.number → result ≡ Err StoreFault.Store }
{
    let Some(pass) = pass_among(passes, named.number) else {
        return Err(StoreFault::Store);
    };
    let checked = is_among(checked, named.number);
    match named.name.clone() {
        Ok(provider_version) => Ok(Verified {
            provider_version,
            result: u64::from(named.number),
            latest: Latest { pass, checked },
        }),
        Err(_) => Err(StoreFault::Memory),
    }
}

/// These versions with what their results say.
fn all_returned(
    alloc: Global,
    named: &[NumberedName],
    passes: &[ContentPass],
    checked: &[u32],
) -> Result<Vec<Verified>, StoreFault>
    ensures all { IfOk result
        (λ all. IsSorted nat_cmp checked.now → AreRead (IsVerifiedAs passes.now checked.now) named.now all.items) }
    ensures cause { ArePassesByNumber passes.now →
        IfErr result (λ f. FailsIfNamed f
        ((x : NamedModel) × Contains named.now x × IsUnlisted passes.now x.number)) }
{
    let mut all = Vec::new(alloc);
    for one in named {
        let found = done!(returned(one, passes, checked));
        match all.push(found) {
            Ok(()) => {}
            Err(_) => return Err(StoreFault::Memory),
        }
    }
    Ok(all)
}

/// The versions of the provider that have a result for this content, each once, in the order of their names, with the
/// number of the latest result and what it says.
///
/// # Errors
/// `StoreFault::Memory` if the database is out of memory, or there is none for the answer; `StoreFault::Store` if it
/// refused a query, or if a row doesn't read.
pub fn verified_versions<S: Alter>(
    alloc: Global,
    conn: &mut Connection<S>,
    provider: &str,
    content: u32,
) -> Result<Vec<Verified>, StoreFault>
    ensures { LooksUp S.Store conn.old conn.new result
        (λ found s. Lists verified_cmp (λ x. IsLatest s content (version_named provider.now x.provider_version) x)
        found.items) }
{
    let named = done!(named_results(alloc, conn, provider, content));
    let passes = done!(passes_for(alloc, conn, content));
    let checked = done!(checked_for(alloc, conn, content));
    all_returned(alloc, &named, &passes, &checked)
}
