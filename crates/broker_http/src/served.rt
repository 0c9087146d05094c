//! How serving ends, and why it stops.
ghost use Rattle.std.specs.Prelude.{◌≡◌};
ghost use Rattle.broker_http.specs.Faults.{fault_of_read, returned_as};

use http_messages::device::ReaderFailed;
use http_messages::reading::ReadFault;
use http_messages::turn::TurnOver;
use http_responses::WriteFault;
use thiserror::Error;

/// How serving ended.
#[derive(Clone, Copy, Debug, PartialEq, Eq)]
pub enum Ended {
    /// The stream ended after a whole message.
    AtEnd,
    /// The stream ended in an unfinished message, which gets no answer.
    Rest,
    /// An answer closed the stream.
    Closed,
}

/// A stream that was served to its end.
#[derive(Clone, Copy, Debug, PartialEq, Eq)]
pub struct Served {
    /// How many messages were answered.
    pub answered: u64,
    pub ended: Ended,
}

/// Why serving stopped, with what the failing call gave.
#[derive(Clone, Copy, Debug, PartialEq, Eq, Error)]
pub enum StreamFault {
    /// The reader failed. All answers are out.
    #[error("the reader failed")]
    Read(ReaderFailed),
    /// The peer's turn is over, between two of its messages. All answers are out. Only a peer that others wait for has a
    /// turn.
    #[error("the peer's turn is over")]
    Turn(TurnOver),
    /// 2^64-1 messages were answered, and all answers are out.
    #[error("no more messages can be counted")]
    Count,
    /// The writer failed, or took none of the bytes that were left. The last answer is out in part or not at
    /// all.
    #[error("the writer failed")]
    Write(WriteFault),
    /// There was no memory for a message or its answer, and nothing was done for it. All answers before are
    /// out.
    #[error("out of memory")]
    Memory,
}

/// Why serving stopped.
#[derive(Clone, Copy, Debug, PartialEq, Eq, Error)]
pub enum ServeFault {
    /// The reader failed, or no more messages can be counted. All answers are out.
    #[error("the reader failed")]
    Read,
    /// The writer failed, or took none of the bytes that were left. The last answer is out in part or not at all.
    #[error("the writer failed")]
    Write,
    /// There was no memory, and nothing was done for the message that lacked it. All answers before are out.
    #[error("out of memory")]
    Memory,
}

impl From<StreamFault> for ServeFault {
    ghost from_gives = { λ fault served. served ≡ returned_as fault };

    fn from(fault: StreamFault) -> ServeFault {
        match fault {
            StreamFault::Read(_) | StreamFault::Turn(_) | StreamFault::Count => ServeFault::Read,
            StreamFault::Write(_) => ServeFault::Write,
            StreamFault::Memory => ServeFault::Memory,
        }
    }
}

impl From<ReadFault> for StreamFault {
    ghost from_gives = { λ fault served. served ≡ fault_of_read fault };

    fn from(fault: ReadFault) -> StreamFault {
        match fault {
            ReadFault::Reader(failed) => StreamFault::Read(failed),
            ReadFault::Memory => StreamFault::Memory,
        }
    }
}

impl From<WriteFault> for StreamFault {
    ghost use Rattle.broker_http.specs.declared.served.StreamFault.{StreamFault};

    ghost from_gives = { λ fault served. served ≡ StreamFault.Write fault };

    fn from(fault: WriteFault) -> StreamFault {
        StreamFault::Write(fault)
    }
}
