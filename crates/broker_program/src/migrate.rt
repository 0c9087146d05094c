//! Making today's database of a file of format 1.
ghost use Rattle.std.specs.Prelude.{IfErr, IfOk};
ghost use Rattle.sqlite.specs.WalFiles.{image_at};
ghost use Rattle.broker_program.specs.Files.{OpensOn};
ghost use Rattle.broker_program.specs.Making.{FileIsMigrated, MigratesThere};
ghost use Rattle.broker_program.specs.Reasons.{FailsToMigrate};
ghost use Rattle.broker_program.specs.FileRefusals.{IsOfDatabase, MigratesNone};

use crate::files::{Failed, FileConnection, connect_existing, disconnect, give_up};
use crate::run_end::FileAfter;
use command_line::FilePath;
use sqlite::{FileFrom, Files, Start};
use sqlite_disk::Disk;

/// Makes today's database of the connection's.
fn migrated<S: Start>(connection: FileConnection<S>) -> Result<FileConnection<S>, Failed<S>>
    requires { OpensOn (image_at S.Start) connection }
    ensures ok { IfOk result (MigratesThere ⟦<FileFrom<S> as Disk>⟧ (image_at S.Start)) }
    ensures cause { IfErr result (λ failed. IsOfDatabase (image_at S.Start) MigratesNone failed.0 failed.1) }
{
    let mut connection = connection;
    match broker_service::migrate(&mut connection) {
        Ok(()) => Ok(connection),
        Err(fault) => Err(give_up(connection, fault)),
    }
}

/// Makes today's database of the file of this path, which has to be there and of format 1. Else the file is given up as
/// it is.
pub(crate) fn migrate<S: Start>(
    rt: &HostRuntime,
    file: FilePath<'_>,
    start: S,
) -> Result<Files<FileFrom<S>>, Failed<S>>
    ensures ok { IfOk result (FileIsMigrated ⟦<FileFrom<S> as Disk>⟧ (image_at S.Start)) }
    ensures cause { IfErr result (λ failed. FailsToMigrate (image_at S.Start) failed.0 failed.1) }
{
    let connection = connect_existing(rt, file, start)?;
    let connection = migrated(connection)?;
    match disconnect(connection) {
        Ok(files) => Ok(files),
        Err((fault, store)) => Err((fault, FileAfter::GivenUp(store))),
    }
}
