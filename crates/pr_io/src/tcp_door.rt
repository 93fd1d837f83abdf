ghost use Rattle.std.specs.Prelude.{◌≡◌, ◌≤◌, ◌<◌, None, length, IfOk};
ghost use Rattle.pr_io.specs.Causes.{HasCause};
ghost use Rattle.pr_io.specs.Doors.{Counts, Takes};
ghost use Rattle.pr_io.specs.Streams.{HasEnded, MovesInto, Reaches};

use crate::faults::Faults;
use crate::standard::{put_some, read_some};
use crate::{Door, Failed, Sink, Source};
use std::alloc::Global;
use std::io;
use std::io::ErrorKind;
use std::net::{Net, SocketAddr, TcpListener, TcpStream};
use std::sync::Arc;

/// How many connections in a row may have ended before they are taken.
const TRIES: u32 = 1000;

/// A door over TCP. What its connections hold isn't told, as what a real one will give can't be.
///
/// What is put into a connection goes out at once, since the delay that joins small segments
/// (Nagle's) is off.
#[derive(Drop)]
pub struct TcpDoor {
    alloc: Global,
    listener: TcpListener,
    taken: u64,
    faults: Faults,
}

impl TcpDoor {
    /// A door at this address, which is `HOST:PORT`. Port 0 is a free one, which `address` tells.
    /// It takes a few bytes of memory from `alloc` for each connection.
    ///
    /// # Errors
    ///
    /// Where the address has another form, or can't be listened on.
    pub fn listen<R: Net<Listener = TcpListener, Stream = TcpStream>>(
        net: &R,
        alloc: Global,
        address: &str,
    ) -> io::Result<TcpDoor>
        ensures taken { IfOk result (λ d. d.taken ≡ 0) }
        ensures faults { IfOk result (λ d. d.faults.count ≡ 0) }
    {
        Ok(TcpDoor {
            alloc,
            listener: TcpListener::bind(net, address)?,
            taken: 0,
            faults: Faults::new(),
        })
    }

    /// The address at which connections come in.
    ///
    /// # Errors
    ///
    /// Where the system doesn't tell it.
    pub fn address(&self) -> io::Result<SocketAddr> {
        self.listener.local_addr()
    }

    /// How many connections were taken.
    pub fn taken(&self) -> u64
        ensures { result ≡ self.now.taken }
    {
        self.taken
    }

    /// How often the door has failed so far. The count stands still at 2^64 - 1.
    pub fn faults(&self) -> u64
        ensures { result ≡ self.now.faults.count }
    {
        self.faults.count()
    }

    /// The next connection that hasn't ended yet.
    fn next_stream(&self) -> Option<TcpStream> {
        for _ in 0..TRIES {
            match self.listener.accept() {
                Ok((stream, _)) => {
                    if stream.set_nodelay(true).is_ok() {
                        return Some(stream);
                    }
                }
                Err(error) => {
                    if !has_ended(error.kind()) {
                        return None;
                    }
                }
            }
        }
        None
    }

    /// The next connection, as its two ends.
    fn next_ends(&self) -> Option<(TcpSource, TcpSink)> {
        let read = Arc::new(self.alloc, self.next_stream()?).ok()?;
        let written = Arc::try_clone(&read).ok()?;
        let source = TcpSource {
            stream: read,
            faults: Faults::new(),
        };
        let sink = TcpSink {
            stream: written,
            faults: Faults::new(),
        };
        Some((source, sink))
    }
}

/// The error is that of a connection that ended while it waited, and not the listener's.
fn has_ended(kind: ErrorKind) -> bool {
    matches!(
        kind,
        ErrorKind::Interrupted
            | ErrorKind::ConnectionAborted
            | ErrorKind::ConnectionReset
            | ErrorKind::HostUnreachable
            | ErrorKind::NetworkUnreachable
            | ErrorKind::NetworkDown
    )
}

impl Door for TcpDoor {
    type In = TcpSource;

    type Out = TcpSink;

    ghost waiting = { λ _. None };

    ghost taken = { λ d. d.taken };

    ghost faults = { λ d. d.faults.count };

    fn accept(&mut self) -> Result<(TcpSource, TcpSink), Failed> {
        let ends = self.next_ends();
        match (ends, self.taken.checked_add(1)) {
            (Some(ends), Some(taken)) => {
                self.taken = taken;
                Ok(ends)
            }
            _ => Err(self.faults.raise()),
        }
    }
}

/// What comes in on a connection over TCP. Its rest isn't told.
///
/// Each take is one call of the system, into the caller's buffer.
#[derive(Drop)]
pub struct TcpSource {
    stream: Arc<TcpStream, Global>,
    faults: Faults,
}

impl Source for TcpSource {
    ghost rest = { λ _. None };

    ghost faults = { λ s. s.faults.count };

    fn take(&mut self, buf: &mut [u8]) -> Result<usize, Failed>
        ensures count { IfOk result (λ n. n ≤ length buf.old) }
        ensures bytes { MovesInto None None result buf.new }
        ensures end { IfOk result (λ n. HasEnded None n (length buf.old)) }
        ensures cause { HasCause self.old.faults.count self.new.faults.count result }
    {
        read_some(&mut &*self.stream, buf, &mut self.faults)
    }
}

/// What goes out on a connection over TCP. What was put isn't told.
///
/// Each piece goes out at once, in one call of the system.
#[derive(Drop)]
pub struct TcpSink {
    stream: Arc<TcpStream, Global>,
    faults: Faults,
}

impl Sink for TcpSink {
    ghost written = { λ _. None };

    ghost faults = { λ s. s.faults.count };

    fn put(&mut self, piece: &[u8]) -> Result<usize, Failed>
        ensures count { IfOk result (λ n. n ≤ length piece.now) }
        ensures some { IfOk result (λ n. 0 < length piece.now → 0 < n) }
        ensures bytes { Reaches None None result piece.now }
        ensures cause { HasCause self.old.faults.count self.new.faults.count result }
    {
        put_some(&mut &*self.stream, piece, &mut self.faults)
    }
}
