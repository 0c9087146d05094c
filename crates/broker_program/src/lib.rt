//! The program's commands over any reader and writers, and over the words and the streams of its process.
#![tactic(auto)]

mod audit;
mod can_i_deploy;
mod commands;
mod files;
mod init;
pub mod laws;
mod migrate;
mod process;
mod reopening;
mod replay;
mod routes;
mod run_end;
mod seed;
mod serve;

pub use command_line::{FilePath, Line, read_line};
pub use commands::{run, run_from};
pub use files::Untaken;
pub use process::{process_words, run_over};
pub use run_end::{CutService, FileAfter, ProcessEnd, RunEnd, ServiceEnd, Unread};
pub use seed::NoSeed;
pub use serve::serve_each;
