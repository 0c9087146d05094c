//! A broker over files that is closed and opened again.
ghost use Rattle.std.specs.Prelude.{◌≡◌, false, IfErr, IfOk, IsTrue};
ghost use Rattle.sqlite.specs.Files.{file_state, Finds, IsOpened};
ghost use Rattle.sqlite.specs.State.{HasCleanDisk};
ghost use Rattle.sqlite.specs.WalReads.{AreClean};
ghost use Rattle.worked_examples.specs.Reopening.{AreClosed, IsOpenedAgain, IsOpenedOver, KeepsAsFiles, LosesNothing};

use broker_database::laws::kept_files;
use broker_service::{Broker, Refused};
use sqlite::{Connection, Error, FileStore, Files, Leftover, Options};
use sqlite_disk::Disk;
use std::alloc::Global;

/// Why a broker wasn't opened again, with what is left of its files.
pub enum NotReopened<D: Disk> {
    /// The files couldn't be closed.
    Unclosed(Error, FileStore<D>),
    /// The files were closed, and couldn't be opened.
    Unopened(Error, Leftover<D>),
    /// The files were opened, and then the database failed or isn't a broker's.
    NoBroker(Refused<FileStore<D>>),
}

/// Closes a broker's files.
fn close<D: Disk + Drop>(broker: Broker<FileStore<D>>) -> Result<Files<D>, NotReopened<D>>
    ensures usable { IfOk result (λ files. IsTrue (D.Disk.is_usable files.log) × IsTrue (D.Disk.is_usable files.db)) }
    ensures closed { IfOk result (λ files. AreClean D.Disk files.log files.db → AreClosed broker files) }
    ensures kept { IfErr result (LosesNothing broker) }
{
    kept_files::<D>();
    match broker.close().close_files() {
        Ok(files) => Ok(files),
        Err((error, store)) => Err(NotReopened::Unclosed(error, store)),
    }
}

/// Opens a connection over files.
fn connect<D: Disk + Drop>(
    alloc: Global,
    files: Files<D>,
    options: Options,
) -> Result<Connection<FileStore<D>>, NotReopened<D>>
    requires log { IsTrue (D.Disk.is_usable files.log) }
    requires db { IsTrue (D.Disk.is_usable files.db) }
    ensures found { IfOk result (λ conn. HasCleanDisk (file_state conn) → IsOpened conn × Finds files conn) }
    ensures kept { IfErr result (KeepsAsFiles files) }
{
    kept_files::<D>();
    match Connection::open_files(alloc, files, options) {
        Ok(conn) => Ok(conn),
        Err((error, left)) => Err(NotReopened::Unopened(error, left)),
    }
}

/// Opens the broker over files.
fn open<D: Disk + Drop>(
    alloc: Global,
    files: Files<D>,
    options: Options,
) -> Result<Broker<FileStore<D>>, NotReopened<D>>
    requires log { IsTrue (D.Disk.is_usable files.log) }
    requires db { IsTrue (D.Disk.is_usable files.db) }
    ensures runs { IfOk result (λ new. new.is_stopped ≡ false) }
    ensures over { IfOk result (λ new. HasCleanDisk (file_state new.connection) → IsOpenedOver files new) }
    ensures kept { IfErr result (KeepsAsFiles files) }
{
    let conn = connect(alloc, files, options)?;
    match Broker::open(conn) {
        Ok(broker) => Ok(broker),
        Err(refused) => Err(NotReopened::NoBroker(refused)),
    }
}

/// Closes a broker's files and opens the broker again. The new one runs, also if the old one was stopped, and it holds
/// what the old one held. If there is none, what is left of the files is handed back, to be opened once more or given
/// up. A crash leaves the state in it; after an opening that failed, if that did no harm that `open_files` of `sqlite`
/// doesn't exclude (`IsUnharmed`).
pub fn reopen<D: Disk + Drop>(
    alloc: Global,
    broker: Broker<FileStore<D>>,
    options: Options,
) -> Result<Broker<FileStore<D>>, NotReopened<D>>
    ensures opened { IfOk result (IsOpenedAgain broker) }
    ensures kept { IfErr result (LosesNothing broker) }
{
    let files = close(broker)?;
    open(alloc, files, options)
}
