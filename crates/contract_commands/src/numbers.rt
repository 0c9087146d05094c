//! The numbers that versions and results have or get.
ghost use Rattle.std.specs.Prelude.{Some, [], ◌∷◌};
ghost use Rattle.broker_core.specs.Text.{version as version_named};
ghost use Rattle.broker_tables.specs.Holds.{ChangesAndAnswers};
ghost use Rattle.broker_tables.specs.Failures.{LooksUpInPlace};
ghost use Rattle.broker_tables.specs.ChangeRefusals.{FailsByStoreStoring};
ghost use Rattle.contract_commands.specs.Numbering.{IsNextNumber, IsNextOf, IsNumberFor, CanName, NamesAs};

use broker_core::limit::room;
use broker_names::name::Name;
use broker_tables::next_number;
use contract_tables::result_count;
use registry_tables::{insert_version, version_count};
use sqlite::{Alter, Connection};
use table_access::StoreFault;

/// The number of a version.
#[derive(Clone, Copy)]
pub(crate) enum VersionNumber {
    /// The one that it has.
    Old(u32),
    /// The one that it gets, since it isn't named yet: the next.
    New(u32),
}

/// The number after so many, if there is room for one more.
fn number_with_room(count: u64) -> Option<u32>
    ensures { IsNextNumber count result }
{
    if room(count) {
        next_number(count)
    } else {
        None
    }
}

/// The number that the next version gets, if there is room for one more.
fn next_version<S: Alter>(conn: &mut Connection<S>) -> Result<Option<u32>, StoreFault>
    ensures { LooksUpInPlace S.Store conn.old conn.new result (λ next s. IsNextOf s.versions next) }
{
    let count = done!(version_count(conn));
    Ok(number_with_room(count))
}

/// The number that the next result gets, if there is room for one more.
pub(crate) fn next_result<S: Alter>(conn: &mut Connection<S>) -> Result<Option<u32>, StoreFault>
    ensures { LooksUpInPlace S.Store conn.old conn.new result (λ next s. IsNextOf s.results next) }
{
    let count = done!(result_count(conn));
    Ok(number_with_room(count))
}

/// The number of a version that has this one, or of one that has none; `None` if it has none and there is no room for
/// one more version. How many there are is asked only for a version that has no number.
pub(crate) fn number_for<S: Alter>(
    conn: &mut Connection<S>,
    number: Option<u32>,
) -> Result<Option<VersionNumber>, StoreFault>
    ensures { LooksUpInPlace S.Store conn.old conn.new result (λ found s. IsNumberFor s.versions number found) }
{
    match number {
        Some(number) => Ok(Some(VersionNumber::Old(number))),
        None => match done!(next_version(conn)) {
            Some(next) => Ok(Some(VersionNumber::New(next))),
            None => Ok(None),
        },
    }
}

/// The version is named if it isn't yet, and has this number.
pub(crate) fn ensure_named<S: Alter>(
    conn: &mut Connection<S>,
    pacticipant: &Name,
    name: &Name,
    number: VersionNumber,
) -> Result<u32, StoreFault>
    ensures answers { ChangesAndAnswers S.Store conn.old conn.new result
        (λ s. CanName s (version_named pacticipant.now name.now) number)
        (NamesAs (version_named pacticipant.now name.now)) }
    ensures failure { FailsByStoreStoring S.Store conn.old conn.new result [] (pacticipant.now ∷ name.now ∷ [])
        (λ s. CanName s (version_named pacticipant.now name.now) number) }
{
    match number {
        VersionNumber::Old(number) => Ok(number),
        VersionNumber::New(number) => {
            done!(insert_version(conn, number, pacticipant.as_str(), name.as_str()));
            Ok(number)
        }
    }
}
