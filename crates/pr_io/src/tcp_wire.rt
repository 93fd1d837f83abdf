ghost use Rattle.std.specs.Prelude.{◌≡◌, ◌≤◌, None, length, IfOk};
ghost use Rattle.pr_io.specs.Causes.{HasCause};
ghost use Rattle.pr_io.specs.Talks.{Dials, Sends, Receives};

use crate::faults::Faults;
use crate::standard::read_some;
use crate::{Failed, Wire};
use std::io::Write;
use std::net::{Net, OpenStream, TcpStream};

/// A wire over TCP. An address is `HOST:PORT`. Its talk isn't told, as what a real connection takes
/// can't be.
///
/// Each send goes out at once, since the delay that joins small segments (Nagle's) is off.
#[derive(Drop)]
pub struct TcpWire<'a, R: Net> {
    net: &'a R,
    stream: Option<R::Stream>,
    faults: Faults,
}

impl<'a, R: Net> TcpWire<'a, R> {
    /// A wire that isn't connected yet.
    pub fn new(net: &'a R) -> TcpWire<'a, R>
        ensures faults { result.faults.count ≡ 0 }
    {
        TcpWire {
            net,
            stream: None,
            faults: Faults::new(),
        }
    }
}

impl<'a, R: Net> Wire for TcpWire<'a, R> {
    ghost talk = { λ _. None };

    ghost reference = { λ _. None };

    ghost faults = { λ w. w.faults.count };

    ghost comes = { λ _ _. Unit {0} };

    ghost comes_at_once = { λ _. tt };

    ghost comes_later = { λ _ _ _ _ _. tt };

    fn dial(&mut self, address: &str) -> Result<(), Failed>
        ensures talk { Dials None None result address.now }
        ensures cause { HasCause self.old.faults.count self.new.faults.count result }
    {
        self.stream = None;
        match connect(self.net, address) {
            Some(stream) => {
                self.stream = Some(stream);
                Ok(())
            }
            None => Err(self.faults.raise()),
        }
    }

    fn send(&mut self, bytes: &[u8]) -> Result<(), Failed>
        ensures talk { Sends None None result bytes.now }
        ensures cause { HasCause self.old.faults.count self.new.faults.count result }
    {
        if let Some(stream) = &mut self.stream {
            if stream.write_all(bytes).is_ok() {
                return Ok(());
            }
        }
        Err(self.faults.raise())
    }

    fn receive(&mut self, buf: &mut [u8]) -> Result<usize, Failed>
        ensures count { IfOk result (λ n. n ≤ length buf.old) }
        ensures talk { Receives None None result buf.new }
        ensures cause { HasCause self.old.faults.count self.new.faults.count result }
    {
        match &mut self.stream {
            Some(stream) => read_some(stream, buf, &mut self.faults),
            None => Err(self.faults.raise()),
        }
    }
}

/// A connection that sends at once.
fn connect<R: Net>(net: &R, address: &str) -> Option<R::Stream> {
    let stream = TcpStream::connect(net, address).ok()?;
    stream.set_nodelay(true).ok()?;
    Some(stream)
}
