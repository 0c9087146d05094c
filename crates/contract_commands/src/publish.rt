//! Publication of a pact.
ghost use Rattle.std.specs.Prelude.{◌≡◌, ◌&&◌, [], ◌∷◌, Some, IfOk, IfErr, ⊤};
ghost use Rattle.broker_core.specs.State.{State as BrokerState};
ghost use Rattle.broker_core.specs.Text.{same_text};
ghost use Rattle.broker_core.specs.Change.{text_of, republished};
ghost use Rattle.broker_core.specs.Machine.{FindsFault};
ghost use Rattle.broker_core.specs.Machine.Reading.{IsPact};
ghost use Rattle.broker_core.specs.declared.command.Command.TheVariants.{PutPact};
ghost use Rattle.broker_core.specs.declared.command.FormFault.{FormFault as FormFaultModel};
ghost use Rattle.broker_tables.specs.Holds.{Queries, ChangesAndAnswers, AnswersTaking};
ghost use Rattle.broker_tables.specs.Failures.{FailsByStoreFrom};
ghost use Rattle.broker_tables.specs.ChangeRefusals.{AreShort, FailsByStoreTaking};
ghost use Rattle.command_facts.specs.declared.reading.FileReadFault.TheVariants.{Form};
ghost use Rattle.command_facts.specs.Primitives.{broker_primitives};
ghost use Rattle.command_facts.specs.Performs.{Carries, CarriesTo, CarriesWhere, PerformsWhere, FailsOnlyAt, FailsToChangeFrom};
ghost use Rattle.content_store.specs.Contents.{CanBeAdded, StoresIfRoom};
ghost use Rattle.contract_commands.specs.Pacts.{names_in, HasContent, HasSides, HasNoContract, CanPublish, CanRecord, RecordsContract, PutsPact, Publishes, answer_to};

use crate::numbers::{VersionNumber, ensure_named, number_for};
use crate::sides::{read_contract, read_sides_to_publish, read_text, refuse_sides};
use broker_core::answer::{Answer, Clash, Detail};
use broker_core::command::{FormFault, PactPath};
use broker_core::policy::{Caller, Rule};
use broker_names::name::{Body, Text};
use command_facts::{FileReadFault, ReadPact, read_pact_file};
use content_store::{Sha256Digester, put_if_room};
use contract_tables::add_contract;
use sqlite::{Alter, Connection};
use std::alloc::Global;
use table_access::StoreFault;

/// Whether the pact's names are those of the path.
fn has_names(pact: &ReadPact, path: &PactPath) -> bool
    ensures { result ≡ (same_text pact.now.consumer path.now.consumer
        && same_text pact.now.provider path.now.provider) }
{
    pact.consumer.as_str() == path.consumer.as_str()
        && pact.provider.as_str() == path.provider.as_str()
}

/// A file that is a pact of the path's two names.
fn read_form(alloc: Global, path: &PactPath, file: &Body) -> Result<ReadPact, FileReadFault>
    ensures pact { IfOk result (λ p. broker_primitives.Reads file.now
        (IsPact path.now.consumer path.now.provider p.text)) }
    ensures fault { IfErr result (λ e. (f : FormFaultModel) → e ≡ Form f
        → FindsFault broker_primitives (PutPact path.now file.now) (Some f)) }
{
    let pact = done!(read_pact_file(alloc, file.as_slice()));
    if has_names(&pact, path) {
        Ok(pact)
    } else {
        Err(FileReadFault::Form(FormFault::Names))
    }
}

/// What is reported if the contract has this text already.
fn returned_again(old: &Text, text: &Text, content: u32) -> Answer
    ensures { (s : BrokerState) → text_of s content ≡ Some old.now → result ≡ republished s text.now content }
{
    if old.as_str() == text.as_str() {
        Answer::Already(Detail::Content(content as u64))
    } else {
        Answer::Taken(Clash::OtherContent)
    }
}

/// What is reported of a contract that is there with this content.
fn publish_again<S: Alter>(
    conn: &mut Connection<S>,
    content: u32,
    text: &Text,
) -> Result<Answer, StoreFault>
    ensures answers { Queries S.Store conn.old conn.new result
        (λ answer s. answer ≡ republished s text.now content) }
    ensures failure { FailsByStoreFrom S.Store conn.old conn.new result (λ s. HasContent s content) }
{
    let old = done!(read_text(conn, content));
    Ok(returned_again(&old, text, content))
}

/// The number of the text, which is stored if it wasn't; `None` if it isn't and there is no room for one more content,
/// and then nothing changes.
fn put_text<S: Alter>(conn: &mut Connection<S>, text: &Text) -> Result<Option<u32>, StoreFault>
    ensures answers { ChangesAndAnswers S.Store conn.old conn.new result (λ s. ⊤) (StoresIfRoom text.now) }
    ensures failure { FailsOnlyAt S.Store conn.old conn.new result (¬ AreShort (text.now ∷ []))
        (λ s. CanBeAdded text.now s.contents) }
{
    put_if_room(conn, &Sha256Digester, text.as_str())
}

/// Names the consumer's version if it isn't named, and makes the content of this number that of its contract.
fn record_contract<S: Alter>(
    conn: &mut Connection<S>,
    path: &PactPath,
    version: VersionNumber,
    content: u32,
) -> Result<(), StoreFault>
    ensures answers { AnswersTaking S.Store conn.old conn.new 4 result
        (CanRecord path.now version content) (λ _. RecordsContract path.now content) }
    ensures failure { FailsByStoreTaking S.Store conn.old conn.new 3 result (names_in path.now) (CanRecord path.now version content) }
{
    let number = done!(ensure_named(conn, &path.consumer, &path.version, version));
    add_contract(conn, number, path.provider.as_str(), content)
}

/// Publishes the text as a contract that isn't there yet, of a version that has this number or gets it.
fn publish_numbered<S: Alter>(
    conn: &mut Connection<S>,
    path: &PactPath,
    text: &Text,
    version: VersionNumber,
) -> Result<Answer, StoreFault>
    ensures answers { PerformsWhere S.Store conn.old conn.new result
        (CanPublish path.now version) (PutsPact path.now text.now) }
    ensures failure { FailsToChangeFrom S.Store conn.old conn.new result (¬ AreShort (text.now ∷ names_in path.now))
        (CanPublish path.now version) (PutsPact path.now text.now) }
{
    match done!(put_text(conn, text)) {
        Some(content) => {
            done!(record_contract(conn, path, version, content));
            Ok(Answer::Done(Detail::Content(content as u64)))
        }
        None => Ok(Answer::Full),
    }
}

/// Publishes the text as a contract that isn't there yet, of a version that has this number, if it has one. Nothing is
/// stored if there is no room for the version.
fn publish_first<S: Alter>(
    conn: &mut Connection<S>,
    path: &PactPath,
    text: &Text,
    number: Option<u32>,
) -> Result<Answer, StoreFault>
    ensures { CarriesWhere S.Store conn.old conn.new result (HasNoContract path.now number)
        (¬ AreShort (text.now ∷ names_in path.now)) (PutsPact path.now text.now) }
{
    match done!(number_for(conn, number)) {
        Some(version) => publish_numbered(conn, path, text, version),
        None => Ok(Answer::Full),
    }
}

/// Publishes the text as the contract of the path, whose two sides are there.
fn publish_between<S: Alter>(
    conn: &mut Connection<S>,
    path: &PactPath,
    text: &Text,
) -> Result<Answer, StoreFault>
    ensures { CarriesWhere S.Store conn.old conn.new result (λ s. HasSides s path.now)
        (¬ AreShort (text.now ∷ names_in path.now)) (PutsPact path.now text.now) }
{
    let contract = done!(read_contract(conn, &path.provider, &path.consumer, &path.version));
    match contract.content {
        Some(content) => publish_again(conn, content, text),
        None => publish_first(conn, path, text, contract.version),
    }
}

/// Publishes the text of a file that is well formed, or says why not.
fn publish<S: Alter>(
    conn: &mut Connection<S>,
    caller: &Caller,
    path: &PactPath,
    text: &Text,
) -> Result<Answer, StoreFault>
    ensures { CarriesTo S.Store conn.old conn.new result (¬ AreShort (text.now ∷ names_in path.now))
        (λ s out. Publishes s caller.now path.now text.now out) }
{
    let sides = done!(read_sides_to_publish(conn, caller, &path.provider, &path.consumer));
    match refuse_sides(Rule::OwnerToPublish, sides) {
        Some(answer) => Ok(answer),
        None => publish_between(conn, path, text),
    }
}

/// What is reported of a file or of replies that weren't read.
pub(crate) fn report_unread(fault: FileReadFault) -> Result<Answer, StoreFault>
    ensures { result ≡ answer_to fault }
{
    match fault {
        FileReadFault::Form(fault) => Ok(Answer::BadForm(fault)),
        FileReadFault::Memory => Err(StoreFault::Memory),
    }
}

/// Publishes a pact file as the contract of a consumer's version with a provider, or says why not.
pub fn put_pact<S: Alter>(
    alloc: Global,
    conn: &mut Connection<S>,
    caller: &Caller,
    path: &PactPath,
    file: &Body,
) -> Result<Answer, StoreFault>
    ensures { Carries S.Store conn.old conn.new result caller.now (PutPact path.now file.now) }
{
    match read_form(alloc, path, file) {
        Ok(pact) => publish(conn, caller, path, &pact.text),
        Err(fault) => report_unread(fault),
    }
}
