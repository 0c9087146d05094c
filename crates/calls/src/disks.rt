//! Sessions over two files in memory, a log and a database, each of which refuses all calls after so many.
//!
//! What is done with a connection is written over `S: Alter`, and is called at a store over files in one place, since a
//! proof takes long at each: no broker and no connection over files is dropped.
use crate::scripts::{Course, Script};
use broker_names::name::Token;
use broker_service::{Broker, OpenFault, migrate};
use sqlite::{Alter, Connection, FileStore, Files, Options};
use sqlite_disk::{Crash, Disk, Fuse, Memory};
use std::alloc::Global;
use std::test::Fail;

type File = Fuse<Memory>;

/// What the two files hold.
#[derive(Drop)]
pub(crate) struct Held {
    pub(crate) log: Vec<u8>,
    pub(crate) db: Vec<u8>,
}

impl Held {
    /// Nothing.
    pub(crate) fn new(alloc: Global) -> Held {
        Held {
            log: Vec::new(alloc),
            db: Vec::new(alloc),
        }
    }
}

/// How many calls each of them passes on.
#[derive(Clone, Copy)]
pub(crate) struct Fuses {
    pub(crate) log: u64,
    pub(crate) db: u64,
}

/// More calls than anybody makes.
pub(crate) const NEVER: Fuses = Fuses {
    log: 1_000_000,
    db: 1_000_000,
};

/// A file that holds these bytes, all of them synced.
fn file(alloc: Global, bytes: &[u8], calls: u64) -> Result<File, Fail> {
    let mut memory = Memory::new(alloc);
    memory.write_at(0, bytes)?;
    memory.sync()?;
    Ok(Fuse::new(memory, calls))
}

fn files(alloc: Global, held: &Held, fuses: Fuses) -> Result<Files<File>, Fail> {
    let log = file(alloc, &held.log, fuses.log)?;
    let db = file(alloc, &held.db, fuses.db)?;
    Ok(Files { log, db })
}

/// What there is of a file: what was written, which the end of a process leaves, and what was last synced, which a loss
/// of power may leave.
#[derive(Drop)]
pub(crate) struct Kept {
    pub(crate) written: Vec<u8>,
    pub(crate) synced: Vec<u8>,
}

impl Kept {
    /// Whether the two differ.
    pub(crate) fn has_unsynced(&self) -> bool {
        self.written != self.synced
    }

    /// What is left.
    fn left(&self, alloc: Global, is_lost: bool) -> Result<Vec<u8>, Fail> {
        copy(alloc, if is_lost { &self.synced } else { &self.written })
    }
}

fn copy(alloc: Global, bytes: &[u8]) -> Result<Vec<u8>, Fail> {
    let mut all = Vec::new(alloc);
    all.extend_from_slice(bytes)?;
    Ok(all)
}

fn keep(alloc: Global, mut file: File) -> Result<Kept, Fail> {
    let written = copy(alloc, file.inner().bytes())?;
    file.crash();
    let synced = copy(alloc, file.inner().bytes())?;
    Ok(Kept { written, synced })
}

/// What there is of both.
#[derive(Drop)]
pub(crate) struct Left {
    /// Whether a call was refused, or the next would be.
    pub(crate) is_stopped: bool,
    pub(crate) log: Kept,
    pub(crate) db: Kept,
}

impl Left {
    /// What the files hold then, if all that wasn't synced is lost of these.
    pub(crate) fn held(
        &self,
        alloc: Global,
        loses_log: bool,
        loses_db: bool,
    ) -> Result<Held, Fail> {
        let log = self.log.left(alloc, loses_log)?;
        let db = self.db.left(alloc, loses_db)?;
        Ok(Held { log, db })
    }
}

/// Whether the next call is refused.
fn refuses(file: &mut File) -> bool {
    !file.may_be_used() || file.len().is_err()
}

fn left_of(alloc: Global, files: Files<File>) -> Result<Left, Fail> {
    let Files { mut log, mut db } = files;
    let is_stopped = refuses(&mut log) || refuses(&mut db);
    Ok(Left {
        is_stopped,
        log: keep(alloc, log)?,
        db: keep(alloc, db)?,
    })
}

/// All of a database of these tests is kept in memory, as the program keeps it. A log of 24 pages is copied into the
/// database: a command writes a few pages, so logs of several commands are met, and copying too.
const OPTIONS: Options = Options {
    cache_pages: 64,
    spill_pages: 64,
    checkpoint_frames: 24,
    seed: 7,
};

fn connect<D: Disk + Drop>(
    alloc: Global,
    files: Files<D>,
) -> Result<Connection<FileStore<D>>, Files<D>> {
    if !files.may_be_used() {
        return Err(files);
    }
    match Connection::open_files(alloc, files, OPTIONS) {
        Ok(conn) => Ok(conn),
        Err((_, left)) => Err(left.into_files()),
    }
}

/// A broker, or why there is none.
type Opened<S> = Result<Broker<S>, (OpenFault, Connection<S>)>;

fn make<S: Alter>(alloc: Global, conn: Connection<S>, office: &Token) -> Opened<S> {
    match Broker::create(alloc, conn, office) {
        Ok(broker) => Ok(broker),
        Err(refused) => Err((refused.fault, refused.connection)),
    }
}

fn find<S: Alter>(conn: Connection<S>) -> Opened<S> {
    match Broker::open(conn) {
        Ok(broker) => Ok(broker),
        Err(refused) => Err((refused.fault, refused.connection)),
    }
}

fn find_or_make<S: Alter>(alloc: Global, conn: Connection<S>, office: &Token) -> Opened<S> {
    match find(conn) {
        Err((OpenFault::NotABroker, conn)) => make(alloc, conn, office),
        found => found,
    }
}

/// What is done in a session.
#[derive(Clone, Copy)]
pub(crate) enum Act<'a> {
    /// These statements are run.
    Run(&'a [&'a str]),
    /// A scenario goes on, with a broker whose office has this token; it is made if there is none.
    Play(&'a Script, &'a Token),
    /// The tables are migrated if they are of format 1. Then the questions of the scenario are asked, whose one step
    /// that is.
    Renew(&'a Script),
}

/// Whether the answers were right, or why there was no broker; `Store` also if the files weren't opened.
pub(crate) type Returned = Result<bool, OpenFault>;

fn run<S: Alter>(conn: &mut Connection<S>, statements: &[&str]) -> Returned {
    for statement in statements {
        if conn.execute_batch(statement).is_err() {
            return Err(OpenFault::Store);
        }
    }
    Ok(true)
}

fn play<S: Alter>(
    alloc: Global,
    opened: Opened<S>,
    script: &Script,
    course: &mut Course,
) -> (Returned, Connection<S>) {
    match opened {
        Ok(mut broker) => {
            let is_right = script.play(alloc, &mut broker, course);
            (Ok(is_right), broker.close())
        },
        Err((fault, conn)) => (Err(fault), conn),
    }
}

fn upgrade<S: Alter>(conn: Connection<S>, course: &mut Course) -> Opened<S> {
    let mut conn = conn;
    match migrate(&mut conn) {
        Ok(()) => {
            course.done = 1;
            find(conn)
        },
        Err(fault) => Err((fault, conn)),
    }
}

/// The broker, whose tables are migrated if that isn't done.
fn find_or_upgrade<S: Alter>(conn: Connection<S>, course: &mut Course) -> Opened<S> {
    match find(conn) {
        Err((OpenFault::Format(1), conn)) if course.done == 0 => upgrade(conn, course),
        found => found,
    }
}

fn act_on<S: Alter>(
    alloc: Global,
    conn: Connection<S>,
    act: Act<'_>,
    course: &mut Course,
) -> (Returned, Connection<S>) {
    let mut conn = conn;
    match act {
        Act::Run(statements) => (run(&mut conn, statements), conn),
        Act::Play(script, office) => {
            play(alloc, find_or_make(alloc, conn, office), script, course)
        },
        Act::Renew(script) => play(alloc, find_or_upgrade(conn, course), script, course),
    }
}

/// Does this, and gives the store back as it is.
fn done<S: Alter + Drop>(
    alloc: Global,
    conn: Connection<S>,
    act: Act<'_>,
    course: &mut Course,
) -> (Returned, S) {
    let (returned, conn) = act_on(alloc, conn, act, course);
    (returned, conn.into_store())
}

/// Does this over files, and gives them back as they are.
fn done_over<D: Disk + Drop>(
    alloc: Global,
    files: Files<D>,
    act: Act<'_>,
    course: &mut Course,
) -> (Returned, Files<D>) {
    match connect(alloc, files) {
        Ok(conn) => {
            let (returned, store) = done(alloc, conn, act, course);
            (returned, store.close())
        },
        Err(files) => (Err(OpenFault::Store), files),
    }
}

/// A session over files that hold this, and what is there then.
pub(crate) fn session(
    alloc: Global,
    held: &Held,
    fuses: Fuses,
    act: Act<'_>,
    course: &mut Course,
) -> Result<(Returned, Left), Fail> {
    let files = files(alloc, held, fuses)?;
    let (returned, files) = done_over(alloc, files, act, course);
    Ok((returned, left_of(alloc, files)?))
}
