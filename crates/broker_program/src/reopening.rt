//! Opening a broker's files again once it stopped.
ghost use Rattle.std.specs.Prelude.{◌≡◌, false, None, Some, Ok, IfErr, IfOk, IfSome, IsTrue};
ghost use Rattle.sqlite.specs.WalFiles.{image_at};
ghost use Rattle.program_io.specs.Reported.{IsFromOutside};
ghost use Rattle.broker_program.specs.Cuts.{StaysShut};
ghost use Rattle.broker_program.specs.FileRefusals.{IsReopeningFault};
ghost use Rattle.broker_program.specs.Reopening.{EmptiesLog, FailsToReopen, KeepsServing, OpensBrokerAgain};
ghost use Rattle.broker_program.specs.Reopening.{OpensFilesAgain};

use crate::files::{FileBroker, broker_of, release, returned_of};
use crate::seed::{NoSeed, store_options};
use program_io::fault::RunFault;
use sqlite::{Connection, FileFrom, FileStore, Leftover, Options, Start};
use sqlite_disk::Disk;
use sqlite_trees::store::Store;
use std::alloc::Global;

/// Why a broker's files aren't opened again, what is left of them, and that there is no seed, if that is why.
pub(crate) type NotReopened<S> = (RunFault, Leftover<FileFrom<S>>, Option<NoSeed>);

/// Copies the log of a store that was given up into the database file, so that the log has room again, and says whether
/// the store broke in that. One that is broken already is left as it is, and so is one of which this fails at once.
fn empty_log<D: Disk + Drop>(store: FileStore<D>) -> (FileStore<D>, bool)
    ensures { EmptiesLog store result }
{
    let mut store = store;
    if store.is_broken() {
        return (store, false);
    }
    match store.checkpoint() {
        Ok(()) => (store, false),
        Err(_) => {
            let broke = store.is_broken();
            (store, broke)
        }
    }
}

/// A connection over the files of a store that was given up. None if a sync of them failed: then nothing more may be
/// asked of them. `File`: they can't be read or written; what is left of them comes with it.
fn connect_again<D: Disk + Drop>(
    alloc: Global,
    store: FileStore<D>,
    options: Options,
) -> Result<Option<Connection<FileStore<D>>>, (RunFault, Leftover<D>)>
    ensures ok { IfOk result (OpensFilesAgain store) }
    ensures shut { IfErr result (λ failed. StaysShut store failed.0 failed.1 None) }
    ensures cause { IfErr result (λ failed. IsFromOutside failed.0) }
{
    let (store, broke) = empty_log(store);
    let files = store.close();
    if !files.may_be_used() {
        return Ok(None);
    }
    if broke {
        return Err((RunFault::File, Leftover::Files(files)));
    }
    match Connection::open_files_with(alloc, files, options, true) {
        Ok(connection) => Ok(Some(connection)),
        Err((error, rest)) => Err((returned_of(&error), rest)),
    }
}

/// The broker of a stopped broker's files, opened again. None if a sync of them failed.
fn reopen<S: Start>(
    rt: &HostRuntime,
    broker: FileBroker<S>,
) -> Result<Option<FileBroker<S>>, NotReopened<S>>
    requires { IsTrue broker.is_stopped }
    ensures runs { IfOk result (λ found. IfSome found (λ b. b.is_stopped ≡ false)) }
    ensures again { IfOk result (OpensBrokerAgain broker) }
    ensures shut { IfErr result (λ failed. FailsToReopen broker failed.0 failed.1 failed.2) }
    ensures cause { IfErr result (λ failed. IsReopeningFault failed.0) }
{
    // First, so that no broker is dropped where what follows fails.
    let store = release(broker);
    let options = match store_options(rt) {
        Ok(options) => options,
        Err(seed) => return Err((RunFault::File, Leftover::Store(store), Some(seed))),
    };
    match connect_again(rt.alloc(), store, options) {
        Ok(Some(connection)) => match broker_of(connection) {
            Ok(broker) => Ok(Some(broker)),
            Err((fault, store)) => Err((RunFault::Open(fault), Leftover::Store(store), None)),
        },
        Ok(None) => Ok(None),
        Err((fault, rest)) => Err((fault, rest, None)),
    }
}

/// The broker, or if it is stopped the one of its files, opened again. None if a sync of them failed.
pub(crate) fn ensure_running<S: Start>(
    rt: &HostRuntime,
    broker: FileBroker<S>,
) -> Result<Option<FileBroker<S>>, NotReopened<S>>
    ensures same { broker.is_stopped ≡ false → result ≡ Ok (Some broker) }
    ensures runs { IfOk result (λ found. IfSome found (λ b. b.is_stopped ≡ false)) }
    ensures goes { KeepsServing (image_at S.Start) broker result }
    ensures cause { IfErr result (λ failed. IsReopeningFault failed.0) }
{
    if broker.is_stopped() {
        reopen(rt, broker)
    } else {
        Ok(Some(broker))
    }
}
