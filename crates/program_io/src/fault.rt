//! Why a command fails.
use answer_texts::RenderedAnswer;
use broker_database::OpenFault;
use broker_http::StreamFault;
use pact_file::PactFault;
use reply_check::{CheckFault, RepliesFault};

/// Why a command fails.
#[derive(Drop)]
pub enum RunFault {
    /// The token isn't one.
    Token,
    /// A name isn't one.
    Name,
    /// A file, standard input or standard output can't be read or written.
    File,
    /// The broker couldn't be made or opened.
    Open(OpenFault),
    /// The address can't be listened on, or isn't one of loopback.
    Listen,
    /// Serving failed.
    Serve(StreamFault),
    /// The pact file is refused.
    Pact(PactFault),
    /// The recorded replies are refused.
    Replies(RepliesFault),
    /// The replies can't be checked against the pact.
    Check(CheckFault),
    /// The broker answered otherwise than asked.
    Answer(RenderedAnswer),
    /// There was no memory.
    Memory,
}
