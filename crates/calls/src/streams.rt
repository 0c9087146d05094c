//! Streams of requests: however they are cut, and where their reader or their writer fails.
use broker_http::{Ended, ServeFault, Served, serve};
use broker_names::name::Token;
use broker_service::Broker;
use sqlite::{Alter, Connection, MemStore};
use std::alloc::Global;
use std::io::{self, ErrorKind, Read, Write};
use std::process::Abort;
use std::test::Fail;

pub(crate) const OFFICE: &str = "office-token-0001";

pub(crate) const RED: &str = "red-team-token-01";

/// A reader that gives the bytes in pieces, and fails after so many calls.
#[derive(Drop)]
struct Pieces<'a> {
    rest: &'a [u8],
    /// How many bytes the first call gives at most, and how many each later one.
    first: usize,
    size: usize,
    calls: usize,
}

impl Read for Pieces<'_> {
    fn read(&mut self, buf: &mut [u8]) -> io::Result<usize> {
        if self.calls == 0 {
            return Err(io::Error::from(ErrorKind::Other));
        }
        self.calls -= 1;
        let most = self.first.min(buf.len());
        self.first = self.size;
        self.rest.read(&mut buf[..most])
    }
}

/// A writer that takes one byte a call, and fails after so many.
#[derive(Drop)]
struct Taken {
    bytes: Vec<u8>,
    size: usize,
    calls: usize,
}

impl Write for Taken {
    fn write(&mut self, buf: &[u8]) -> io::Result<usize> {
        if self.calls == 0 {
            return Err(io::Error::from(ErrorKind::Other));
        }
        self.calls -= 1;
        let most = self.size.min(buf.len());
        self.bytes.write(&buf[..most])
    }

    fn flush(&mut self) -> io::Result<()> {
        Ok(())
    }
}

/// As many calls as anybody makes.
const MANY: usize = 1_000_000;

/// All of these bytes, in pieces.
fn in_pieces(bytes: &[u8], first: usize, size: usize) -> Pieces<'_> {
    Pieces {
        rest: bytes,
        first,
        size,
        calls: MANY,
    }
}

/// How a stream ended, and what was written.
#[derive(Drop)]
pub(crate) struct Outcome {
    served: Result<Served, ServeFault>,
    pub(crate) written: Vec<u8>,
}

/// Serves a stream.
fn served<S: Alter>(
    alloc: Global,
    broker: &mut Broker<S>,
    reader: &mut Pieces<'_>,
    size: usize,
    calls: usize,
) -> Outcome {
    let mut writer = Taken {
        bytes: Vec::new(alloc),
        size,
        calls,
    };
    let served = serve(alloc, broker, reader, &mut writer);
    let Taken { bytes, .. } = writer;
    Outcome {
        served,
        written: bytes,
    }
}

/// Serves a stream that comes in one piece and is taken in one.
pub(crate) fn served_at_once<S: Alter>(
    alloc: Global,
    broker: &mut Broker<S>,
    stream: &[u8],
) -> Outcome {
    let mut reader = in_pieces(stream, 9999, 9999);
    served(alloc, broker, &mut reader, 9999, MANY)
}

/// A new broker over tables in memory.
fn new_broker(alloc: Global) -> Result<Broker<MemStore>, Fail> {
    let office = Token::new(alloc, OFFICE)?;
    match Broker::create(alloc, Connection::open_in_memory(alloc)?, &office) {
        Ok(broker) => Ok(broker),
        Err(refused) => Err(Fail::from(refused.fault)),
    }
}

/// A request: the token of the caller, its line and its body.
pub(crate) type Request = (&'static str, &'static str, &'static str);

/// A first deployment, and what is there then.
const FIRST: [Request; 7] = [
    (OFFICE, "PUT /teams/red", TEAM),
    (OFFICE, "PUT /environments/dev", "{\"gated\":false}"),
    (OFFICE, "PUT /pacticipants/shop", "{\"team\":\"red\"}"),
    (OFFICE, "PUT /grants/team/red/environment/dev", ""),
    (RED, "PUT /pacticipants/shop/versions/1", ""),
    (RED, "POST /environments/dev/deployments", SHOP_1),
    (RED, "GET /environments/dev", ""),
];

/// The body that names a team.
pub(crate) const TEAM: &str = "{\"token\":\"red-team-token-01\"}";

/// The body that names a version.
pub(crate) const SHOP_1: &str = "{\"pacticipant\":\"shop\",\"version\":\"1\"}";

/// The request that asks what is in the environment.
const LISTING: &str =
    "GET /environments/dev HTTP/1.1\r\nhost: b\r\nauthorization: Bearer red-team-token-01\r\n\r\n";

/// The bytes of requests, and where each ends.
#[derive(Drop)]
pub(crate) struct Run {
    pub(crate) text: String,
    pub(crate) ends: Vec<usize>,
}

impl Run {
    /// Adds a request with a body.
    fn add(&mut self, token: &str, line: &str, body: &str) -> Result<(), Fail> {
        let length = body.len();
        write!(
            self.text,
            "{line} HTTP/1.1\r\nhost: b\r\nauthorization: Bearer {token}\r\ncontent-length: {length}\r\n\r\n{body}"
        )?;
        self.ends.push(self.text.len())?;
        Ok(())
    }

    /// How many of the requests are whole within so many bytes.
    fn whole_within(&self, bytes: usize) -> usize {
        let mut count: usize = 0;
        for end in &self.ends {
            if *end <= bytes {
                count = count.saturating_add(1);
            }
        }
        count
    }
}

/// The bytes of these requests.
pub(crate) fn run_of(alloc: Global, requests: &[Request]) -> Result<Run, Fail> {
    let mut run = Run {
        text: String::new(alloc),
        ends: Vec::new(alloc),
    };
    for (token, line, body) in requests {
        run.add(token, line, body)?;
    }
    Ok(run)
}

/// A new broker that has done these requests.
pub(crate) fn world(alloc: Global, requests: &[Request]) -> Result<Broker<MemStore>, Fail> {
    let run = run_of(alloc, requests)?;
    let mut broker = new_broker(alloc)?;
    drop(served_at_once(alloc, &mut broker, run.text.as_bytes()));
    Ok(broker)
}

const DONE: &str =
    "HTTP/1.1 200 OK\r\ncontent-type: application/json\r\ncontent-length: 17\r\n\r\n{\"answer\":\"done\"}";

const ALREADY: &str =
    "HTTP/1.1 200 OK\r\ncontent-type: application/json\r\ncontent-length: 20\r\n\r\n{\"answer\":\"already\"}";

const SHOWN: &str =
    "HTTP/1.1 200 OK\r\ncontent-type: application/json\r\ncontent-length: 130\r\n\r\n{\"answer\":\"shown\",\"deployed\":[{\"instance\":\"\",\"pacticipant\":\"shop\",\"version\":\"1\"}],\"environment\":\"dev\",\"gated\":false,\"released\":[]}";

/// The answers to the first run, of whose six changes so many were made before.
fn answers(alloc: Global, before: usize) -> Result<String, Fail> {
    let mut text = String::new(alloc);
    for change in 0..6 {
        text.push_str(if change < before { ALREADY } else { DONE })?;
    }
    text.push_str(SHOWN)?;
    Ok(text)
}

/// Whether a stream ended so, with these bytes out.
fn is_outcome(outcome: &Outcome, answered: u64, ended: Ended, written: &str) -> bool {
    outcome.served == Ok(Served { answered, ended })
        && outcome.written.as_slice() == written.as_bytes()
}

/// A stream is answered in the same way in any pieces in which it comes and is taken; sent again it changes nothing.
#[test]
fn first_runs(rt: HostRuntime) -> Result<(), Fail> {
    let alloc = rt.alloc();
    let run = run_of(alloc, &FIRST)?;
    let mut broker = new_broker(alloc)?;
    for (first, size, taken, before) in [(9, 70, 11, 0), (1, 1, 9999, 6)] {
        let mut reader = in_pieces(run.text.as_bytes(), first, size);
        let outcome = served(alloc, &mut broker, &mut reader, taken, MANY);
        assert!(rt; is_outcome(&outcome, 7, Ended::AtEnd, answers(alloc, before)?.as_str()));
    }
    drop(broker);
    Ok(())
}

/// Two listings and the front of a request, cut in two at every place.
#[test]
fn cut_listings(rt: HostRuntime) -> Result<(), Fail> {
    let alloc = rt.alloc();
    let mut broker = world(alloc, &FIRST)?;
    let stream = format!(in alloc; "{LISTING}{LISTING}GET /env")?;
    let twice = format!(in alloc; "{SHOWN}{SHOWN}")?;
    for cut in 1..stream.len() {
        let mut reader = in_pieces(stream.as_bytes(), cut, 9999);
        let outcome = served(alloc, &mut broker, &mut reader, 9999, MANY);
        assert!(rt;
            is_outcome(&outcome, 2, Ended::Rest, twice.as_str()),
            "{cut}"
        );
    }
    drop(broker);
    Ok(())
}

/// The first request cut before each of its bytes is a rest, and nothing is answered; nor does it do anything, since it
/// is done as it comes whole.
#[test]
fn cut_requests(rt: HostRuntime) -> Result<(), Fail> {
    let alloc = rt.alloc();
    let run = run_of(alloc, &FIRST[..1])?;
    let request = run.text.as_bytes();
    let mut broker = new_broker(alloc)?;
    for end in 0..=request.len() {
        let outcome = served_at_once(alloc, &mut broker, &request[..end]);
        let (answered, ended, written) = if end == 0 {
            (0, Ended::AtEnd, "")
        } else if end < request.len() {
            (0, Ended::Rest, "")
        } else {
            (1, Ended::AtEnd, DONE)
        };
        assert!(rt; is_outcome(&outcome, answered, ended, written), "{end}");
    }
    drop(broker);
    Ok(())
}

/// Whether exactly so many of the run's changes were made: sent again, the run finds them.
fn has_made<S: Alter>(
    alloc: Global,
    broker: &mut Broker<S>,
    run: &Run,
    made: usize,
) -> Result<bool, Fail> {
    let outcome = served_at_once(alloc, broker, run.text.as_bytes());
    Ok(is_outcome(&outcome, 7, Ended::AtEnd, answers(alloc, made)?.as_str()))
}

/// Whether a stream stopped with this fault, and with exactly so many bytes of these out.
fn is_stopped(outcome: &Outcome, fault: ServeFault, answers: &str, written: usize) -> bool {
    outcome.served == Err(fault)
        && outcome.written.len() == written
        && answers.as_bytes().starts_with(outcome.written.as_slice())
}

/// Whether a stream whose reader fails ends with that: the requests that were read whole are done and answered, and no
/// other is. `None` if the reader gave all.
fn survives_reader<S: Alter>(
    alloc: Global,
    broker: &mut Broker<S>,
    run: &Run,
    calls: usize,
) -> Result<Option<bool>, Fail> {
    let all = answers(alloc, 0)?;
    let mut reader = Pieces {
        rest: run.text.as_bytes(),
        first: PIECE,
        size: PIECE,
        calls,
    };
    let outcome = served(alloc, broker, &mut reader, 9999, MANY);
    if outcome.served.is_ok() {
        return Ok(None);
    }
    let whole = run.whole_within(run.text.len().saturating_sub(reader.rest.len()));
    let written = if whole < 7 {
        DONE.len().saturating_mul(whole)
    } else {
        all.len()
    };
    Ok(Some(
        is_stopped(&outcome, ServeFault::Read, all.as_str(), written)
            && has_made(alloc, broker, run, whole)?,
    ))
}

/// The reader fails in each of its calls, one after another, until a stream meets no failure.
#[test]
fn failing_readers(rt: HostRuntime) -> Result<(), Fail> {
    let alloc = rt.alloc();
    let run = run_of(alloc, &FIRST)?;
    let mut failed: usize = 0;
    for calls in 0..MANY {
        let mut broker = new_broker(alloc)?;
        let survived = survives_reader(alloc, &mut broker, &run, calls)?;
        drop(broker);
        let Some(survived) = survived else {
            break;
        };
        assert!(rt; survived, "{calls}");
        failed = failed.saturating_add(1);
    }
    assert!(rt; failed > run.text.len() / PIECE);
    Ok(())
}

/// How many bytes a reader gives in a call that is to fail, and a writer takes.
const PIECE: usize = 24;

/// Whether a stream whose writer fails after so many calls ends with that: the request in whose answer it fails is done,
/// as are those before it, and no other is. `None` if the writer took all.
fn survives_writer<S: Alter>(
    alloc: Global,
    broker: &mut Broker<S>,
    run: &Run,
    calls: usize,
) -> Result<Option<bool>, Fail> {
    let all = answers(alloc, 0)?;
    let mut reader = in_pieces(run.text.as_bytes(), 9999, 9999);
    let outcome = served(alloc, broker, &mut reader, PIECE, calls);
    if outcome.served.is_ok() {
        return Ok(None);
    }
    let written = outcome.written.len();
    let begun = written
        .checked_div(DONE.len())
        .unwrap_or(0)
        .saturating_add(1);
    Ok(Some(
        written < all.len()
            && is_stopped(&outcome, ServeFault::Write, all.as_str(), written)
            && has_made(alloc, broker, run, begun)?,
    ))
}

/// The writer fails in each of its calls, one after another, until a stream meets no failure.
#[test]
fn failing_writers(rt: HostRuntime) -> Result<(), Fail> {
    let alloc = rt.alloc();
    let run = run_of(alloc, &FIRST)?;
    let mut failed: usize = 0;
    for calls in 0..MANY {
        let mut broker = new_broker(alloc)?;
        let survived = survives_writer(alloc, &mut broker, &run, calls)?;
        drop(broker);
        let Some(survived) = survived else {
            break;
        };
        assert!(rt; survived, "{calls}");
        failed = failed.saturating_add(1);
    }
    assert!(rt; failed > answers(alloc, 0)?.len() / PIECE);
    Ok(())
}
