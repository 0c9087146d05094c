//! A listener on an address of loopback.
ghost use Rattle.std.specs.Prelude.{◌≡◌, IfErr, IfNone, IfOk, IfSome};
ghost use Rattle.program_io.specs.Listening.{HasPortOf, IsBoundAs, IsLoopback, IsOfLoopback, ListensOn};

use crate::fault::RunFault;
use std::io;
use std::net::{SocketAddr, TcpListener, TcpStream};

/// What listens at an address.
trait Listening {
    ghost use Rattle.std.specs.Prelude.{Option, None, IfSome};
    ghost use Rattle.std.specs.declared.net.socket_addr.SocketAddr.{SocketAddr};

    /// The address, if it is known.
    ghost address: { Self → Option SocketAddr } = { λ _. None };

    /// The address.
    fn own_address(&self) -> io::Result<SocketAddr>
        ensures { IfOk result (λ own. IfSome (address self.now) (λ known. own ≡ known)) };
}

impl Listening for TcpListener {
    fn own_address(&self) -> io::Result<SocketAddr> {
        self.local_addr()
    }
}

/// A listener on an address of loopback, which is the one that was asked for. Only `bound_to` makes one, which can't
/// listen on anything itself.
#[derive(Drop)]
pub(crate) struct OnLoopback<L> {
    listener: L,
}

/// One of the system.
pub(crate) type LoopbackListener = OnLoopback<TcpListener>;

impl OnLoopback<TcpListener> {
    /// The next connection, with its address.
    pub(crate) fn accept(&self) -> io::Result<(TcpStream, SocketAddr)> {
        self.listener.accept()
    }

    /// Whether `accept` comes back at once if nobody is there.
    pub(crate) fn set_nonblocking(&self, nonblocking: bool) -> io::Result<()> {
        self.listener.set_nonblocking(nonblocking)
    }
}

/// The address, if it is one of loopback.
fn if_loopback(address: SocketAddr) -> Option<SocketAddr>
    ensures some { IfSome result (λ found. (found ≡ address) × IsOfLoopback found) }
    ensures none { IfNone result (¬ (IsOfLoopback address)) }
{
    if address.ip().is_loopback() {
        Some(address)
    } else {
        None
    }
}

/// The address that the text says, if it is one of loopback.
fn loopback_of(listen: &str) -> Option<SocketAddr>
    ensures some { IfSome result (IsLoopback listen.now) }
    ensures none { IfNone result (¬ (ListensOn listen.now)) }
{
    match listen.parse::<SocketAddr>() {
        Ok(address) => if_loopback(address),
        Err(_) => None,
    }
}

/// The address, if it is one of loopback with the port that was asked for. Port 0 asks for any.
fn if_asked(found: SocketAddr, asked: SocketAddr) -> Option<SocketAddr>
    ensures { IfSome result (λ bound. (bound ≡ found) × IsOfLoopback bound × HasPortOf asked bound) }
{
    let bound = if_loopback(found)?;
    if asked.port() == 0 || bound.port() == asked.port() {
        Some(bound)
    } else {
        None
    }
}

/// The listener, if it says that it listens on the address that was asked for, and that address, which is its own.
fn bound_to<L: Listening + Drop>(
    listener: L,
    asked: SocketAddr,
) -> Option<(OnLoopback<L>, SocketAddr)>
    ensures bound { IfSome result (λ found. IsOfLoopback found.1 × HasPortOf asked found.1) }
    ensures own { IfSome result (λ found. IfSome (L.address listener) (λ known. found.1 ≡ known)) }
    ensures same { IfSome result (λ found. found.0.listener ≡ listener) }
{
    let own = listener.own_address().ok()?;
    let bound = if_asked(own, asked)?;
    Some((OnLoopback { listener }, bound))
}

/// A listener on the address of loopback that the text says, and that address as the system says it.
pub(crate) fn listener_on(
    rt: &HostRuntime,
    listen: &str,
) -> Result<(LoopbackListener, SocketAddr), RunFault>
    ensures bound { IfOk result (λ found. IsBoundAs listen.now found.1) }
    ensures cause { IfErr result (λ fault. fault ≡ RunFault.Listen) }
{
    let Some(address) = loopback_of(listen) else {
        return Err(RunFault::Listen);
    };
    let Ok(listener) = TcpListener::bind(rt, address) else {
        return Err(RunFault::Listen);
    };
    match bound_to(listener, address) {
        Some(found) => Ok(found),
        None => Err(RunFault::Listen),
    }
}
