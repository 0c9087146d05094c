//! How a run of the program ended, and what a command leaves of the file that it worked on.
use crate::files::Untaken;
use crate::seed::NoSeed;
use http_responses::WriteFault;
use program_io::check::FilesRead;
use sqlite::{FileStore, Files, Leftover};
use sqlite_disk::Disk;
use std::io;

/// Connections that were served over the broker in a file.
#[derive(Drop)]
pub struct ServiceEnd<D: Disk> {
    /// How many were served,
    pub served: u32,
    /// and how many were lost as they came in.
    pub lost: u32,
    /// The files, closed: all of it is in the file itself. None if a sync of them failed.
    pub files: Option<Files<D>>,
}

/// Connections that were served over the broker in a file, up to a fault of it.
#[derive(Drop)]
pub struct CutService<D: Disk> {
    /// How many were served,
    pub served: u32,
    /// and how many were lost as they came in.
    pub lost: u32,
    /// What is left of the file. None if a sync of it failed: then the fault is of the file that its path had afterwards.
    pub rest: Option<Leftover<D>>,
    /// That the system gave no seed to open it again, if that is the fault.
    pub seed: Option<NoSeed>,
}

/// What a command left of the file that it worked on.
#[derive(Drop)]
pub enum FileAfter<D: Disk> {
    /// It worked on none.
    Nothing,
    /// It isn't there, or couldn't be taken.
    Untaken(Untaken),
    /// Files were read, and this is what they had.
    Read(FilesRead),
    /// It was taken and couldn't be opened.
    Unopened(Leftover<D>),
    /// It was closed, so that all of it is in the file itself.
    Closed(Files<D>),
    /// It was given up as it was: what is in its log stays there.
    GivenUp(FileStore<D>),
    /// It was served.
    Served(ServiceEnd<D>),
    /// It was served, up to a fault.
    Cut(CutService<D>),
}

/// How a run of the program ended.
#[derive(Drop)]
pub struct RunEnd<D: Disk> {
    /// The status that the program ends with.
    pub status: u8,
    /// Whether standard error took all that it was to take. It did if that was nothing.
    pub line: Result<(), WriteFault>,
    /// What is left of the file that the command worked on.
    pub left: FileAfter<D>,
}

/// A run of the words of a process.
#[derive(Drop)]
pub struct ProcessEnd<D: Disk> {
    /// The words, the program's own name first.
    pub words: Vec<String>,
    /// How it ended.
    pub ended: RunEnd<D>,
}

/// The words of a process that can't be read.
#[derive(Drop)]
pub struct Unread {
    /// Why: one isn't UTF-8, or there is no memory for them.
    pub error: io::Error,
    /// Whether standard error took the line that says so.
    pub line: Result<(), WriteFault>,
}
