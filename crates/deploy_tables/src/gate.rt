//! What the gate lacks of a version in an environment.
ghost use Rattle.broker_tables.specs.Failures.{LooksUp};
ghost use Rattle.deploy_tables.specs.AnyThere.{AnswersOnlyIf, EachReleasedIsThere};
ghost use Rattle.deploy_tables.specs.Needs.{ListsFaults};

use crate::selected_needs::{Question, Selection, selected_needs};
use broker_core::command::Version;
use broker_core::gate::decide;
use broker_core::need::PairFault;
use sqlite::{Alter, Connection};
use std::alloc::Global;
use table_access::StoreFault;

/// The faults of the version, which has this number, in the environment, which is strict or not: of its contracts with
/// each version of their providers that is there, or with none, and of the contracts that versions of other pacticipants
/// which are there have with its pacticipant. Each fault is there once, in the order of faults. Nothing is said if the
/// version has another number, or if the environment is strict where it should not be: a caller has asked for both.
/// Names are looked up only for the faults that are returned. An answer, also that nothing is lacking, comes only if each
/// row of what is released in the environment names a version, also if no CHECK or reference of the tables asks for it.
///
/// # Errors
/// `StoreFault::Memory` if the database is out of memory, or there is none for the answer; `StoreFault::Store` if it
/// refused a query, or if a row doesn't read, or names no version.
pub fn faults<S: Alter>(
    alloc: Global,
    conn: &mut Connection<S>,
    number: u32,
    version: &Version,
    environment: &str,
    strict: bool,
) -> Result<Vec<PairFault>, StoreFault>
    ensures answers { LooksUp S.Store conn.old conn.new result
        (λ found s. ListsFaults s number version.now environment.now strict found.items) }
    ensures named { AnswersOnlyIf S.Store conn.old conn.new result (EachReleasedIsThere environment.now) }
{
    let question = Question {
        number,
        version,
        environment,
        selection: Selection::Open { strict },
    };
    let needs = done!(selected_needs(alloc, conn, &question));
    match decide(alloc, &needs, strict) {
        Ok(faults) => Ok(faults),
        Err(_) => Err(StoreFault::Memory),
    }
}
