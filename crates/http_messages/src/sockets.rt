//! A socket as a peer: no call waits longer than the limit that was set.
ghost use Rattle.std.specs.Prelude.{◌≡◌, ◌≤◌, ℕ, List, Option, None, OnOk};
ghost use Rattle.std.specs.Duration.{as_nanos};
ghost use Rattle.std.specs.Io.{ReadsAtMost, WritesAtMost};
ghost use Rattle.std.specs.Io.KnownBytes.{Keeps, ReadConsumes, WriteAppends};
ghost use Rattle.http_messages.specs.Waits.{Waits};

use crate::patience::{PeerReader, PeerWriter};
use std::io::{self, Read, Write};
use std::net::TcpStream;
use std::time::Duration;

/// The reading side of a socket: a read waits no longer than a limit that was set before.
trait Source {
    /// The bytes that are still to come, if they are known.
    ghost remaining: { Self → Option (List ℕ) } = { λ _. None };

    /// How long it was waited for in vain, in nanoseconds, if that is known.
    ghost waited: { Self → ℕ } = { λ _. 0 };

    /// How long a read waits at most, in nanoseconds, if that is known.
    ghost limit: { Self → ℕ } = { λ _. 0 };

    /// Sets the limit.
    fn limit_reads(&mut self, within: Duration) -> io::Result<()>
        ensures bytes { Keeps (remaining self.old) (remaining self.new) }
        ensures wait { waited self.new ≡ waited self.old }
        ensures limit { OnOk result (limit self.new ≤ as_nanos within) };

    /// Reads once.
    fn read_limited(&mut self, buf: &mut [u8]) -> io::Result<usize>
        ensures bound { ReadsAtMost result buf.new }
        ensures bytes { ReadConsumes (remaining self.old) (remaining self.new) result buf.new }
        ensures wait { Waits (waited self.old) (waited self.new) result (limit self.old) };
}

/// The writing side of a socket: a write waits no longer than a limit that was set before.
trait Sink {
    /// The bytes that it has taken, if they are known.
    ghost contents: { Self → Option (List ℕ) } = { λ _. None };

    /// How long it was waited for in vain, in nanoseconds, if that is known.
    ghost waited: { Self → ℕ } = { λ _. 0 };

    /// How long a write waits at most, in nanoseconds, if that is known.
    ghost limit: { Self → ℕ } = { λ _. 0 };

    /// Sets the limit.
    fn limit_writes(&mut self, within: Duration) -> io::Result<()>
        ensures bytes { Keeps (contents self.old) (contents self.new) }
        ensures wait { waited self.new ≡ waited self.old }
        ensures limit { OnOk result (limit self.new ≤ as_nanos within) };

    /// Writes once.
    fn write_limited(&mut self, buf: &[u8]) -> io::Result<usize>
        ensures bound { WritesAtMost result buf.now }
        ensures bytes { WriteAppends (contents self.old) (contents self.new) result buf.now }
        ensures wait { Waits (waited self.old) (waited self.new) result (limit self.old) };
}

impl Source for TcpStream {
    fn limit_reads(&mut self, within: Duration) -> io::Result<()> {
        self.set_read_timeout(Some(within))
    }

    fn read_limited(&mut self, buf: &mut [u8]) -> io::Result<usize> {
        self.read(buf)
    }
}

impl Sink for TcpStream {
    fn limit_writes(&mut self, within: Duration) -> io::Result<()> {
        self.set_write_timeout(Some(within))
    }

    fn write_limited(&mut self, buf: &[u8]) -> io::Result<usize> {
        self.write(buf)
    }
}

/// Reads once, and waits no longer than that.
fn receive_within<S: Source>(source: &mut S, buf: &mut [u8], within: Duration) -> io::Result<usize>
    ensures bound { ReadsAtMost result buf.new }
    ensures bytes { ReadConsumes (S.remaining source.old) (S.remaining source.new) result buf.new }
    ensures wait { Waits (S.waited source.old) (S.waited source.new) result (as_nanos within) }
{
    source.limit_reads(within)?;
    source.read_limited(buf)
}

/// Writes once, and waits no longer than that.
fn send_within<S: Sink>(sink: &mut S, buf: &[u8], within: Duration) -> io::Result<usize>
    ensures bound { WritesAtMost result buf.now }
    ensures bytes { WriteAppends (S.contents sink.old) (S.contents sink.new) result buf.now }
    ensures wait { Waits (S.waited sink.old) (S.waited sink.new) result (as_nanos within) }
{
    sink.limit_writes(within)?;
    sink.write_limited(buf)
}

impl PeerReader for TcpStream {
    fn receive(&mut self, buf: &mut [u8], within: Duration) -> io::Result<usize> {
        receive_within(self, buf, within)
    }
}

impl PeerWriter for TcpStream {
    fn send(&mut self, buf: &[u8], within: Duration) -> io::Result<usize> {
        send_within(self, buf, within)
    }
}
