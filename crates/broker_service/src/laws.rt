//! The laws of what the calls on a broker promise. The program calls none of these.
ghost use Rattle.sqlite.specs.Held.{state};
ghost use Rattle.broker_database.specs.Life.{LivesRun, PeriodsLead};

pub use broker_database::laws::{gate_locality, retry};
use broker_database::laws::{period_leads, sessions_done};
use sqlite::Alter;

/// What the calls on a broker promise, one by one, is of every list of sessions what the machine does. From what is kept
/// as a database is opened, its calls up to its end lead to what a crash may leave then (`periods`). And if such
/// periods follow one another, any of them stopped or cut anywhere, the state that is kept is one after these sessions:
/// of each exactly a prefix is done, which holds every command that was answered by a step (`run`).
pub fn sessions<S: Alter>()
    ensures periods { PeriodsLead (state S.Store) }
    ensures run { LivesRun }
{
    period_leads::<S>();
    sessions_done()
}
