//! Serving peers over the broker in a file.
ghost use Rattle.std.specs.Prelude.{◌≡◌, ◌<◌, length, is_none, false, None, Ok, Err, IfErr, IfOk, IfSome, MatchResult, OnOk};
ghost use Rattle.sqlite.specs.WalFiles.{image_at};
ghost use Rattle.program_io.specs.Entrance.{NoneIsIn, IsNewQueue};
ghost use Rattle.program_io.specs.Listening.{ListensOn};
ghost use Rattle.broker_program.specs.Cuts.{CutsService};
ghost use Rattle.broker_program.specs.Files.{OpensBroker};
ghost use Rattle.broker_program.specs.Reasons.{FailsToServe};
ghost use Rattle.broker_program.specs.FileRefusals.{IsReopeningFault};
ghost use Rattle.broker_program.specs.Reopening.{CutsAll, ServesAll, ServesBetween};
ghost use Rattle.broker_program.specs.Serving.{ServesFile, ServesNext, ServesQueue};

use crate::files::{Failed, FileBroker, close, fault_of, open_broker, release};
use crate::reopening::{NotReopened, ensure_running};
use crate::routes::route_table;
use crate::run_end::{CutService, FileAfter, ServiceEnd};
use crate::seed::NoSeed;
use broker_http::RouteTable;
use broker_http::patience::serve_peer;
use command_line::FilePath;
use program_io::entrance::{Peers, Sockets};
use program_io::fault::RunFault;
use program_io::listening::listen_on;
use sqlite::{FileFrom, Files, Leftover, Start, Unknown};
use sqlite_disk::Disk;

/// Serves the next peer, once it has come in, and lets it go. If that fails it ends, and nothing is reported.
fn serve_next<S: Start, P: Peers>(
    rt: &HostRuntime,
    routes: &RouteTable,
    broker: &mut FileBroker<S>,
    peers: &mut P,
)
    requires runs { broker.old.is_stopped ≡ false }
    requires some { 0 < length (P.queue peers.old).coming }
    requires idle { NoneIsIn (P.queue peers.old) }
    ensures { ServesNext broker.old broker.new (P.queue peers.old) (P.queue peers.new) }
{
    if let Some((reader, writer)) = peers.next() {
        let waited = peers.others_wait();
        let (_, reader, writer) = serve_peer(
            rt.alloc(),
            routes,
            broker,
            reader,
            writer,
            peers.door(),
            rt,
            waited,
        );
        peers.let_go(reader, writer);
    }
}

/// Serves the peers that are to come, one after the other, over the broker of the file, and closes it. If the broker
/// stops, its files are opened again before the next peer. None if a sync of them failed: then some are still to come.
/// If they aren't opened again or closed, what is left of them comes with the fault.
fn serve_opened<S: Start, P: Peers>(
    rt: &HostRuntime,
    routes: &RouteTable,
    broker: FileBroker<S>,
    peers: &mut P,
) -> Result<Option<Files<FileFrom<S>>>, NotReopened<S>>
    requires runs { broker.is_stopped ≡ false }
    requires opened { OpensBroker (image_at S.Start) broker }
    requires idle { NoneIsIn (P.queue peers.old) }
    ensures done { IfOk result (λ found. IfSome found (λ _. length (P.queue peers.new).coming ≡ 0)) }
    ensures fewer { IfOk result (λ found. found ≡ None
        → length (P.queue peers.new).coming < length (P.queue peers.old).coming) }
    ensures idle { NoneIsIn (P.queue peers.new) }
    ensures ok { IfOk result (ServesAll ⟦<FileFrom<S> as Disk>⟧ (image_at S.Start)
        (P.queue peers.old) (P.queue peers.new)) }
    ensures cut { IfErr result (λ failed. CutsAll ⟦<FileFrom<S> as Disk>⟧ (image_at S.Start)
        (P.queue peers.old) (P.queue peers.new) failed.0 failed.1 failed.2) }
    ensures cause { IfErr result (λ failed. IsReopeningFault failed.0) }
{
    let mut broker = broker;
    while peers.left() > 0 {
        broker = match ensure_running(rt, broker) {
            Ok(Some(broker)) => broker,
            Ok(None) => return Ok(None),
            Err(failed) => return Err(failed),
        };
        serve_next(rt, routes, &mut broker, peers);
    }
    match close(broker) {
        Ok(files) => Ok(Some(files)),
        Err((fault, store)) => Err((fault, Leftover::Store(store), None)),
    }
}

/// The broker in the file that has this path now.
fn open_again(rt: &HostRuntime, file: FilePath<'_>) -> Result<FileBroker<Unknown>, RunFault>
    ensures runs { IfOk result (λ b. b.is_stopped ≡ false) }
    ensures opened { IfOk result (OpensBroker (image_at ⟦<Unknown as Start>⟧)) }
    ensures cause { IfErr result IsReopeningFault }
{
    match open_broker(rt, file, Unknown) {
        Ok(broker) => Ok(broker),
        Err(failed) => Err(fault_of(failed)),
    }
}

/// Whether a sync of the files failed. What is left of them isn't looked at.
fn is_lost<D: Disk + Drop>(
    served: Result<Option<Files<D>>, (RunFault, Leftover<D>, Option<NoSeed>)>,
) -> Result<bool, RunFault>
    ensures { MatchResult served (λ found. result ≡ Ok (is_none found)) (λ failed. result ≡ Err failed.0) }
{
    match served {
        Ok(found) => Ok(found.is_none()),
        Err((fault, _, _)) => Err(fault),
    }
}

/// Serves the peers that are to come over the file that has this path then.
fn serve_reopened<P: Peers>(
    rt: &HostRuntime,
    routes: &RouteTable,
    file: FilePath<'_>,
    peers: &mut P,
) -> Result<(), RunFault>
    requires idle { NoneIsIn (P.queue peers.old) }
    ensures done { OnOk result (length (P.queue peers.new).coming ≡ 0) }
    ensures served { ServesBetween ⟦<FileFrom<Unknown> as Disk>⟧ (P.queue peers.old) (P.queue peers.new) }
    ensures cause { IfErr result IsReopeningFault }
{
    let mut broker = open_again(rt, file)?;
    while is_lost(serve_opened(rt, routes, broker, peers))? {
        broker = open_again(rt, file)?;
    }
    Ok(())
}

/// What was served, and what is left of the files.
fn service_of<P: Peers, D: Disk>(peers: &P, files: Option<Files<D>>) -> ServiceEnd<D>
    ensures { (result.served ≡ length (P.queue peers.now).went) × (result.lost ≡ (P.queue peers.now).lost)
        × (result.files ≡ files) }
{
    ServiceEnd {
        served: peers.gone(),
        lost: peers.lost(),
        files,
    }
}

/// What was served up to a fault, and what is left of the files.
fn cut_of<P: Peers, D: Disk>(
    peers: &P,
    rest: Option<Leftover<D>>,
    seed: Option<NoSeed>,
) -> CutService<D>
    ensures { (result.served ≡ length (P.queue peers.now).went) × (result.lost ≡ (P.queue peers.now).lost)
        × (result.rest ≡ rest) × (result.seed ≡ seed) }
{
    CutService {
        served: peers.gone(),
        lost: peers.lost(),
        rest,
        seed,
    }
}

/// Serves the peers, one after the other, over the broker of the file that was opened, and closes it: what each sends is
/// answered by what it takes, as the broker there answers it. If the broker stops, its files are opened again before the
/// next peer; and once a sync of them failed, those of the path.
///
/// How serving a peer failed isn't said: its connection is over then, and the next one comes in. If the files can't be
/// opened again or closed, the fault is the reason (`File`, `Open`, `Memory`), and the other peers aren't served. What was
/// served up to there comes with it, and what is left of the files (`FileAfter::Cut`).
pub fn serve_each<S: Start, P: Peers>(
    rt: &HostRuntime,
    routes: &RouteTable,
    broker: FileBroker<S>,
    file: FilePath<'_>,
    peers: &mut P,
) -> Result<ServiceEnd<FileFrom<S>>, Failed<S>>
    requires runs { broker.is_stopped ≡ false }
    requires opened { OpensBroker (image_at S.Start) broker }
    requires fresh { IsNewQueue (P.queue peers.old) }
    ensures ok { IfOk result (λ it. ServesQueue ⟦<FileFrom<S> as Disk>⟧ ⟦<FileFrom<Unknown> as Disk>⟧
        (image_at S.Start) (P.queue peers.old) (P.queue peers.new) it.files) }
    ensures counts { IfOk result (λ service. (service.served ≡ length (P.queue peers.new).went)
        × (service.lost ≡ (P.queue peers.new).lost)) }
    ensures cut { IfErr result (CutsService ⟦<FileFrom<S> as Disk>⟧ ⟦<FileFrom<Unknown> as Disk>⟧ (image_at S.Start)
        (P.queue peers.old) (P.queue peers.new)) }
{
    match serve_opened(rt, routes, broker, peers) {
        Ok(Some(files)) => Ok(service_of(peers, Some(files))),
        Ok(None) => match serve_reopened(rt, routes, file, peers) {
            Ok(()) => Ok(service_of(peers, None)),
            Err(fault) => Err((fault, FileAfter::Cut(cut_of(peers, None, None)))),
        },
        Err((fault, rest, seed)) => Err((fault, FileAfter::Cut(cut_of(peers, Some(rest), seed)))),
    }
}

/// Makes the table of routes, and serves so many connections over the broker in the file.
pub(crate) fn serve_file<S: Start>(
    rt: &HostRuntime,
    file: FilePath<'_>,
    listen: &str,
    connections: u32,
    start: S,
) -> Result<ServiceEnd<FileFrom<S>>, Failed<S>>
    ensures said { IfOk result (λ _. ListensOn listen.now) }
    ensures ok { IfOk result (ServesFile ⟦<FileFrom<S> as Disk>⟧ (image_at S.Start) connections) }
    ensures cause { IfErr result (λ failed. FailsToServe (image_at S.Start) listen.now connections failed.0 failed.1) }
{
    let routes = match route_table(rt.alloc()) {
        Ok(routes) => routes,
        Err(fault) => return Err((fault, FileAfter::Nothing)),
    };
    let broker = open_broker(rt, file, start)?;
    match listen_on(rt, listen, connections) {
        Ok(connections) => serve_each(rt, &routes, broker, file, &mut Sockets::new(connections)),
        Err(fault) => Err((fault, FileAfter::GivenUp(release(broker)))),
    }
}
