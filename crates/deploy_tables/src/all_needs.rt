//! All needs of a version in an environment.
ghost use Rattle.std.specs.Prelude.{◌≡◌, ◌↔◌, Some, Contains, pos};
ghost use Rattle.sqlite.specs.declared.types.Value.TheVariants.{Int};
ghost use Rattle.broker_core.specs.declared.command.Version.{Version as VersionModel};
ghost use Rattle.broker_core.specs.declared.need.Need.{Need as NeedModel};
ghost use Rattle.broker_core.specs.Gate.{IsNeed};
ghost use Rattle.broker_core.specs.Listing.{Lists};
ghost use Rattle.broker_core.specs.State.{State as Broker};
ghost use Rattle.broker_core.specs.Text.{Text};
ghost use Rattle.broker_tables.specs.Numbers.{number_of};
ghost use Rattle.broker_tables.specs.Failures.{LooksUp};
ghost use Rattle.deploy_tables.specs.AnyThere.{AnswersOnlyIf, IsOfAVersion, EachReleasedIsThere};
ghost use Rattle.deploy_tables.specs.Needs.{need_cmp, ListsNeeds};

use crate::selected_needs::{Question, Selection, selected_needs};
use crate::version_names::find_version;
use broker_core::command::Version;
use broker_core::need::Need;
use sqlite::{Alter, Connection};
use std::alloc::Global;
use std::cmp::Ordering;
use table_access::StoreFault;

/// The order of two needs.
fn need_order(one: &Need, other: &Need) -> Ordering
    ensures { result ≡ need_cmp one.now other.now }
{
    one.consumer.cmp(&other.consumer).then(
        one.consumer_version.cmp(&other.consumer_version).then(
            one.provider
                .cmp(&other.provider)
                .then(one.provider_version.cmp(&other.provider_version)),
        ),
    )
}

/// The needs of a version, each once, in their order.
fn each_need_once(needs: Vec<Need>) -> Vec<Need>
    ensures { (s : Broker) (v : VersionModel) (e : Text) →
        ((x : NeedModel) → Contains needs.items x ↔ IsNeed s v e x) →
        Lists need_cmp (IsNeed s v e) result.items }
{
    let mut needs = needs;
    needs.sort_unstable_by(|one, other| need_order(one, other));
    needs.dedup_by(|one, other| need_order(one, other).is_eq());
    needs
}

/// The needs of the version of this number. An answer comes only if each row of what is released in the
/// environment names a version, also if no CHECK or reference asks for it.
fn needs_numbered<S: Alter>(
    alloc: Global,
    conn: &mut Connection<S>,
    number: u32,
    version: &Version,
    environment: &str,
) -> Result<Vec<Need>, StoreFault>
    ensures answers { LooksUp S.Store conn.old conn.new result
        (λ found s. number_of s.versions version.now ≡ Some number →
        Lists need_cmp (IsNeed s version.now environment.now) found.items) }
    ensures named { AnswersOnlyIf S.Store conn.old conn.new result (EachReleasedIsThere environment.now) }
{
    let question = Question {
        number,
        version,
        environment,
        selection: Selection::All,
    };
    let found = done!(selected_needs(alloc, conn, &question));
    Ok(each_need_once(found))
}

/// The needs in the environment of the version of this number, with what the latest result says beside each: of its
/// contracts with each version of their providers that is there, or with none, and of the contracts that versions of
/// other pacticipants which are there have with its pacticipant. Each need is there once, in the order of faults. The
/// list is empty if no version has this number. If one has it, an answer comes only if each row of what is
/// released in the environment names a version, also if no CHECK or reference of the tables asks for it.
///
/// # Errors
/// `StoreFault::Memory` if the database is out of memory, or there is none for the answer; `StoreFault::Store` if it
/// refused a query, or if a row doesn't read, or names no version.
pub fn needs<S: Alter>(
    alloc: Global,
    conn: &mut Connection<S>,
    number: u32,
    environment: &str,
) -> Result<Vec<Need>, StoreFault>
    ensures answers { LooksUp S.Store conn.old conn.new result
        (λ found s. ListsNeeds s number environment.now found.items) }
    ensures named { AnswersOnlyIf S.Store conn.old conn.new result
        (λ db. IsOfAVersion db (Int (pos number)) → EachReleasedIsThere environment.now db) }
{
    match done!(find_version(alloc, conn, number)) {
        Some(version) => needs_numbered(alloc, conn, number, &version, environment),
        None => Ok(Vec::new(alloc)),
    }
}
