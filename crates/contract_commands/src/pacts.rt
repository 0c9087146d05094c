//! Contracts, shown by their version.
ghost use Rattle.std.specs.Prelude.{◌≡◌, ℕ, List, Some, Ok, IfErr};
ghost use Rattle.broker_core.specs.Change.{text_of};
ghost use Rattle.contract_commands.specs.Pacts.{ShowsReached, HasContent, HasReachedContent};
ghost use Rattle.broker_core.specs.declared.command.Command.TheVariants.{GetPact};
ghost use Rattle.broker_core.specs.declared.answer.Answer.TheVariants as returned;
ghost use Rattle.broker_core.specs.declared.answer.Shown.TheVariants as shown;
ghost use Rattle.broker_tables.specs.Holds.{Queries};
ghost use Rattle.broker_tables.specs.Failures.{FailsByStoreFrom};
ghost use Rattle.command_facts.specs.Performs.{CarriesUnrefused};

use crate::sides::{read_contract_to_show, read_text};
use broker_core::answer::{Answer, Shown};
use broker_core::command::PactPath;
use broker_core::policy::Caller;
use sqlite::{Alter, Connection};
use table_access::StoreFault;

/// Shows the text of a content.
fn show_pact_text<S: Alter>(conn: &mut Connection<S>, content: u32) -> Result<Answer, StoreFault>
    ensures answers { Queries S.Store conn.old conn.new result
        (λ answer s. (text : List ℕ) × (text_of s content ≡ Some text)
        × (answer ≡ returned.Shown (shown.Pact text))) }
    ensures failure { FailsByStoreFrom S.Store conn.old conn.new result (λ s. HasContent s content) }
{
    let text = done!(read_text(conn, content));
    Ok(Answer::Shown(Shown::Pact(text)))
}

/// Shows the text of a contract's content, or gives the refusal, for which nothing is asked.
pub(crate) fn show_pact<S: Alter>(
    conn: &mut Connection<S>,
    place: Result<u32, Answer>,
) -> Result<Answer, StoreFault>
    ensures answers { Queries S.Store conn.old conn.new result (λ answer s. ShowsReached s place answer) }
    ensures failure { FailsByStoreFrom S.Store conn.old conn.new result (λ s. HasReachedContent s place) }
    ensures refused { IfErr place (λ answer. (result ≡ Ok answer) × (conn.new ≡ conn.old)) }
{
    match place {
        Ok(content) => show_pact_text(conn, content),
        Err(answer) => Ok(answer),
    }
}

/// Shows a contract, or says why not.
pub fn get_pact<S: Alter>(
    conn: &mut Connection<S>,
    caller: &Caller,
    path: &PactPath,
) -> Result<Answer, StoreFault>
    ensures { CarriesUnrefused S.Store conn.old conn.new result caller.now (GetPact path.now) }
{
    let place = done!(read_contract_to_show(conn, caller, path));
    show_pact(conn, place)
}
