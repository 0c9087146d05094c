//! Making the file of a new broker.
ghost use Rattle.std.specs.Prelude.{IfErr, IfOk};
ghost use Rattle.sqlite.specs.WalFiles.{image_at};
ghost use Rattle.broker_names.specs.Name.{IsToken};
ghost use Rattle.broker_program.specs.Files.{OpensOn};
ghost use Rattle.broker_program.specs.Making.{BrokerIsMade, MakesThere};
ghost use Rattle.broker_program.specs.Reasons.{FailsToMake, FailsToMakeIn};
ghost use Rattle.broker_program.specs.FileRefusals.{IsOfDatabase, MakesNone};

use crate::files::{Failed, FileBroker, FileConnection, close, connect, give_up};
use crate::run_end::FileAfter;
use broker_names::name::Token;
use broker_service::Broker;
use command_line::FilePath;
use program_io::forms::token_of;
use sqlite::{FileFrom, Files, Start};
use sqlite_disk::Disk;
use std::alloc::Global;

/// A new broker in the database of the connection, whose office has the token.
fn create<S: Start>(
    alloc: Global,
    connection: FileConnection<S>,
    office: &Token,
) -> Result<FileBroker<S>, Failed<S>>
    requires { OpensOn (image_at S.Start) connection }
    ensures made { IfOk result (MakesThere ⟦<FileFrom<S> as Disk>⟧ (image_at S.Start) office.now) }
    ensures cause { IfErr result (λ failed. IsOfDatabase (image_at S.Start) (MakesNone office.now) failed.0 failed.1) }
{
    match Broker::create(alloc, connection, office) {
        Ok(broker) => Ok(broker),
        Err(refused) => Err(give_up(refused.connection, refused.fault)),
    }
}

/// Makes the file of a new broker, whose office has the token.
fn make<S: Start>(
    rt: &HostRuntime,
    file: FilePath<'_>,
    office: &Token,
    start: S,
) -> Result<Files<FileFrom<S>>, Failed<S>>
    ensures made { IfOk result (BrokerIsMade ⟦<FileFrom<S> as Disk>⟧ (image_at S.Start) office.now) }
    ensures cause { IfErr result (λ failed. FailsToMakeIn (image_at S.Start) office.now failed.0 failed.1) }
{
    let connection = connect(rt, file, start)?;
    let broker = create(rt.alloc(), connection, office)?;
    match close(broker) {
        Ok(files) => Ok(files),
        Err((fault, store)) => Err((fault, FileAfter::GivenUp(store))),
    }
}

/// Makes the file of a new broker, whose office has the token. A file that is there is taken if it has no table.
pub(crate) fn init<S: Start>(
    rt: &HostRuntime,
    file: FilePath<'_>,
    office_token: &str,
    start: S,
) -> Result<Files<FileFrom<S>>, Failed<S>>
    ensures token { IfOk result (λ _. IsToken office_token.now) }
    ensures made { IfOk result (BrokerIsMade ⟦<FileFrom<S> as Disk>⟧ (image_at S.Start) office_token.now) }
    ensures cause { IfErr result (λ failed. FailsToMake (image_at S.Start) office_token.now failed.0 failed.1) }
{
    match token_of(rt.alloc(), office_token) {
        Ok(office) => make(rt, file, &office, start),
        Err(fault) => Err((fault, FileAfter::Nothing)),
    }
}
