//! A broker in a file.
ghost use Rattle.std.specs.Prelude.{◌≡◌, ◌↔◌, ◌+◌, ◌*◌, ◌/◌, ◌<◌, ◌≤◌, true, false, Ok, IfErr, IfOk, IsTrue};
ghost use Rattle.sqlite_std_file.specs.File.{file_is_usable, IsFresh};
ghost use Rattle.sqlite.specs.Files.{file_state};
ghost use Rattle.sqlite.specs.WalFiles.{image_at};
ghost use Rattle.broker_database.specs.Calls.{Opened};
ghost use Rattle.broker_program.specs.Files.{ClosesAs, GivesUpAs, LeavesStore, OpensBroker, OpensOn};
ghost use Rattle.broker_program.specs.Reasons.{FailsToOpen};
ghost use Rattle.program_io.specs.Reported.{IsFromOutside};
ghost use Rattle.broker_program.specs.FileRefusals.{FailsToConnect, GivesUpUnopened, IsNotClosed, returned_of};

use crate::run_end::FileAfter;
use crate::seed::{store_options, with_pages};
use broker_service::{Broker, OpenFault};
use command_line::FilePath;
use program_io::fault::RunFault;
use sqlite::{Connection, Error, ErrorCode, FileFrom, FileStore, Files, Leftover, Options, Start};
use sqlite_std_file::OpenError;
use std::io::Read;
use std::{fs, io};

/// A connection over a file that held what `S` says.
pub(crate) type FileConnection<S> = Connection<FileStore<FileFrom<S>>>;

/// A broker over a file that held what `S` says. It ends by `close` or `release`, and is nowhere dropped: its drop is
/// proved again in each function that has one.
pub(crate) type FileBroker<S> = Broker<FileStore<FileFrom<S>>>;

/// The file of a path isn't there, or couldn't be taken, so that nothing was done on it. Only `connect` and
/// `connect_existing` make one, so that who hands one on has asked.
#[derive(Clone, Copy, Debug, PartialEq, Eq)]
pub struct Untaken(());

/// Why a command over a file failed, and what it left of the file.
pub(crate) type Failed<S> = (RunFault, FileAfter<FileFrom<S>>);

/// Why a file isn't closed, and its store, which was given up.
pub(crate) type Unclosed<S> = (RunFault, FileStore<FileFrom<S>>);

/// Why it failed, without what is left of the file.
pub(crate) fn fault_of<S: Start>(failed: Failed<S>) -> RunFault
    ensures { result ≡ failed.0 }
{
    let (fault, left) = failed;
    drop(left);
    fault
}

/// The fault that reports an error of the files.
pub(crate) fn returned_of(error: &Error) -> RunFault
    ensures same { result ≡ returned_of error.now }
    ensures outside { IsFromOutside result }
{
    match *error {
        Error::SqliteFailure(ErrorCode::OutOfMemory) => RunFault::Memory,
        _ => RunFault::File,
    }
}

/// How many pages the file of this path has, which a database's file says in its first bytes; none if it isn't there, or
/// is something else.
fn pages_in(rt: &HostRuntime, path: &str) -> io::Result<usize> {
    if !fs::metadata(rt, path)?.is_file() {
        return Ok(0);
    }
    let mut file = fs::open(rt, path)?;
    let mut head = [0; 18];
    file.read_exact(&mut head)?;
    Ok(pages_of(file.metadata()?.len() as usize, head[16], head[17]))
}

/// How many pages a file of so many bytes has, whose header has these two bytes as the size of one. 1 is 65,536.
fn pages_of(bytes: usize, high: u8, low: u8) -> usize
    ensures sized { 512 ≤ 256 * high + low → result ≡ bytes / (256 * high + low) }
    ensures largest { 256 * high + low < 512 → result ≡ bytes / 65536 }
{
    let size = 256 * high as usize + low as usize;
    if size < 512 {
        bytes / 65536
    } else {
        bytes / size
    }
}

/// The options of a store over the file of this path.
fn options_for(rt: &HostRuntime, path: &str) -> Result<Options, RunFault>
    ensures { IfErr result (λ fault. fault ≡ RunFault.File) }
{
    let options = store_options(rt).map_err(|_| RunFault::File)?;
    Ok(with_pages(options, pages_in(rt, path).unwrap_or(0)))
}

/// The database file of this path and its log, which are made if they aren't there. `File`: they can't be read or
/// written, another program has them open, or the path is one that SQLite takes for no file; `Memory`: there was no
/// memory for it.
fn take_files<S: Start>(
    rt: &HostRuntime,
    path: &str,
    start: S,
) -> Result<Files<FileFrom<S>>, RunFault>
    ensures usable { IfOk result (λ files. IsTrue (file_is_usable S.Start files.log) × IsTrue (file_is_usable S.Start files.db)) }
    ensures fresh { IfOk result (λ files. IsFresh true files.log × IsFresh false files.db) }
    ensures cause { IfErr result IsFromOutside }
{
    if path == ":memory:" || path.starts_with("file:") {
        return Err(RunFault::File);
    }
    match sqlite_std_file::open(rt, path, start) {
        Ok(files) => Ok(files),
        Err(OpenError::OutOfMemory) => Err(RunFault::Memory),
        Err(OpenError::Io(error)) if error.kind() == io::ErrorKind::OutOfMemory => {
            Err(RunFault::Memory)
        },
        Err(_) => Err(RunFault::File),
    }
}

/// A connection over the file of this path, which is made with page sums if it isn't there. `File`: it can't be read or
/// written, another program has it open, or it is no database; `Memory`: there was no memory to open it.
pub(crate) fn connect<S: Start>(
    rt: &HostRuntime,
    path: FilePath<'_>,
    start: S,
) -> Result<FileConnection<S>, Failed<S>>
    ensures ok { IfOk result (OpensOn (image_at S.Start)) }
    ensures cause { IfErr result (λ failed. FailsToConnect (image_at S.Start) failed.0 failed.1) }
{
    let options = match options_for(rt, path.as_str()) {
        Ok(options) => options,
        Err(fault) => return Err((fault, FileAfter::Untaken(Untaken(())))),
    };
    let files = match take_files(rt, path.as_str(), start) {
        Ok(files) => files,
        Err(fault) => return Err((fault, FileAfter::Untaken(Untaken(())))),
    };
    match Connection::open_files_with(rt.alloc(), files, options, true) {
        Ok(mut connection) => {
            connection.set_clock(rt);
            Ok(connection)
        },
        Err((error, rest)) => Err((returned_of(&error), FileAfter::Unopened(rest))),
    }
}

/// Whether a file is there, by what the system says of it.
fn is_there(found: io::Result<bool>) -> bool
    ensures { IsTrue result ↔ (found ≡ Ok true) }
{
    match found {
        Ok(found) => found,
        Err(_) => false,
    }
}

/// The same over a file that has to be there. `File` if it isn't.
pub(crate) fn connect_existing<S: Start>(
    rt: &HostRuntime,
    path: FilePath<'_>,
    start: S,
) -> Result<FileConnection<S>, Failed<S>>
    ensures ok { IfOk result (OpensOn (image_at S.Start)) }
    ensures cause { IfErr result (λ failed. FailsToConnect (image_at S.Start) failed.0 failed.1) }
{
    if is_there(fs::exists(rt, path.as_str())) {
        connect(rt, path, start)
    } else {
        Err((RunFault::File, FileAfter::Untaken(Untaken(()))))
    }
}

/// Closes the file, so that all of it is in the file itself. `File`: what is in its log couldn't be copied; `Memory`:
/// there was no memory for that. Then it is given up.
pub(crate) fn disconnect<S: Start>(
    connection: FileConnection<S>,
) -> Result<Files<FileFrom<S>>, Unclosed<S>>
    ensures ok { IfOk result (ClosesAs connection) }
    ensures cause { IfErr result (λ failed. IsFromOutside failed.0) }
    ensures unclosed { IfErr result (λ failed. IsNotClosed connection failed.0 failed.1) }
{
    match connection.close_files() {
        Ok(files) => Ok(files),
        Err((error, store)) => Err((returned_of(&error), store)),
    }
}

/// Gives the file up as it is: what is in its log stays there.
pub(crate) fn leave<S: Start>(connection: FileConnection<S>) -> FileStore<FileFrom<S>>
    ensures { GivesUpAs connection result }
{
    connection.into_store()
}

/// Gives the file up in which no broker is made, opened or migrated, and says why.
pub(crate) fn give_up<S: Start>(connection: FileConnection<S>, fault: OpenFault) -> Failed<S>
    ensures { (result.0 ≡ RunFault.Open fault) × LeavesStore (GivesUpAs connection) result.1 }
{
    (RunFault::Open(fault), FileAfter::GivenUp(leave(connection)))
}

/// The broker in the database of the connection. If none is opened the file is given up.
pub(crate) fn broker_of<S: Start>(
    connection: FileConnection<S>,
) -> Result<FileBroker<S>, (OpenFault, FileStore<FileFrom<S>>)>
    ensures runs { IfOk result (λ b. b.is_stopped ≡ false) }
    ensures opened { IfOk result (λ b. Opened file_state connection (Ok b)) }
    ensures refused { IfErr result (λ failed. GivesUpUnopened connection failed.0 failed.1) }
{
    match Broker::open(connection) {
        Ok(broker) => Ok(broker),
        Err(refused) => Err((refused.fault, leave(refused.connection))),
    }
}

/// The broker in the file of this path, which has to be there.
pub(crate) fn open_broker<S: Start>(
    rt: &HostRuntime,
    path: FilePath<'_>,
    start: S,
) -> Result<FileBroker<S>, Failed<S>>
    ensures runs { IfOk result (λ b. b.is_stopped ≡ false) }
    ensures opened { IfOk result (OpensBroker (image_at S.Start)) }
    ensures cause { IfErr result (λ failed. FailsToOpen (image_at S.Start) failed.0 failed.1) }
{
    let connection = connect_existing(rt, path, start)?;
    match broker_of(connection) {
        Ok(broker) => Ok(broker),
        Err((fault, store)) => Err((RunFault::Open(fault), FileAfter::GivenUp(store))),
    }
}

/// The broker's connection.
pub(crate) fn connection_of<S: Start>(broker: FileBroker<S>) -> FileConnection<S>
    ensures { result ≡ broker.connection }
{
    broker.close()
}

/// Gives the broker's file up, as it is.
pub(crate) fn release<S: Start>(broker: FileBroker<S>) -> FileStore<FileFrom<S>>
    ensures { GivesUpAs broker.connection result }
{
    leave(connection_of(broker))
}

/// Closes the broker's file.
pub(crate) fn close<S: Start>(broker: FileBroker<S>) -> Result<Files<FileFrom<S>>, Unclosed<S>>
    ensures ok { IfOk result (ClosesAs broker.connection) }
    ensures cause { IfErr result (λ failed. IsFromOutside failed.0) }
    ensures unclosed { IfErr result (λ failed. IsNotClosed broker.connection failed.0 failed.1) }
{
    disconnect(connection_of(broker))
}
