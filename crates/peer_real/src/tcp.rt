//! Links over TCP.

ghost use Rattle.std.specs.Prelude.{◌≡◌, ◌-◌, ◌^◌, None, IfOk};
ghost use Rattle.willow_outside.specs.Counts.{CountsFault};
ghost use Rattle.willow_outside.specs.Links.{HandsOutLink, IsFresh};

use crate::faults::{counted, raised};
use std::alloc::Global;
use std::io;
use std::io::{BufReader, ErrorKind, Read, Write};
use std::net::{Net, TcpListener, TcpStream};
use std::time::Duration;
use willow_outside::{Door, Fault, Link};

/// How many seconds a read or a write of a link waits for the other side before it fails.
const PATIENCE: u64 = 60;

/// A connection over TCP, with counts of its faults and of its ends. A write of nothing counts as a fault, and so does a
/// read or a write that waited for 60 seconds, as for a peer that went away without closing the connection.
/// What it gives and takes is not told. A read takes what an earlier one left over of the bytes that had come, and only
/// where that is nothing waits for more.
#[derive(Drop)]
pub struct TcpLink {
    stream: BufReader<TcpStream>,
    read_faults: u64,
    write_faults: u64,
    ends: u64,
}

impl TcpLink {
    /// A link over the connection, with counts 0, where the machine sets its limits of time and has memory for the bytes
    /// that come before they are asked for. What is written goes out at once, where the machine offers that.
    pub fn new(alloc: Global, stream: TcpStream) -> io::Result<TcpLink>
        ensures { IfOk result (λ link. ⟦<TcpLink as Link>⟧.facts link ≡ record { left = None; taken = None; held = None; read_faults = 0; write_faults = 0; ends = 0 }) }
    {
        TcpLink::within(alloc, stream, Duration::from_secs(PATIENCE))
    }

    // A link that waits for so long.
    fn within(alloc: Global, stream: TcpStream, limit: Duration) -> io::Result<TcpLink>
        ensures { IfOk result (λ link. ⟦<TcpLink as Link>⟧.facts link ≡ record { left = None; taken = None; held = None; read_faults = 0; write_faults = 0; ends = 0 }) }
    {
        stream.set_read_timeout(Some(limit))?;
        stream.set_write_timeout(Some(limit))?;
        let _ = stream.set_nodelay(true);
        Ok(TcpLink {
            stream: BufReader::new(alloc, stream)?,
            read_faults: 0,
            write_faults: 0,
            ends: 0,
        })
    }
}

impl Link for TcpLink {
    ghost facts = { λ s. record { left = None; taken = None; held = None; read_faults = s.read_faults; write_faults = s.write_faults; ends = s.ends } };

    ghost most = { λ _. 2 ^ 64 - 1 };

    fn read(&mut self, buf: &mut [u8]) -> Result<usize, Fault> {
        // Without room a socket would wait for bytes, of which none could be given.
        if buf.is_empty() {
            return Ok(0);
        }
        match self.stream.read(buf) {
            Ok(0) => {
                self.ends = raised(self.ends);
                Ok(0)
            }
            Ok(count) => Ok(count),
            Err(error) => { Err(counted(&mut self.read_faults, &error)) }
        }
    }

    fn write(&mut self, piece: &[u8]) -> Result<usize, Fault> {
        if piece.is_empty() {
            return Ok(0);
        }
        let mut stream = self.stream.get_ref();
        match stream.write(piece) {
            Ok(0) => {
                self.write_faults = raised(self.write_faults);
                Err(Fault::Failed)
            }
            Ok(count) => Ok(count),
            Err(error) => { Err(counted(&mut self.write_faults, &error)) }
        }
    }
}

/// The network, with counts of the faults and of the accepts. The places asked for and the links that came back are not told.
/// `accept` waits until somebody asks for a link, and `connect` for as long as the machine does.
#[derive(Drop)]
pub struct TcpDoor<N> {
    net: N,
    listener: Option<TcpListener>,
    accepts: u64,
    faults: u64,
    out: u64,
}

impl<N: Net<Listener = TcpListener, Stream = TcpStream> + AllocGlobal + Drop> TcpDoor<N> {
    /// The network `net`, with counts 0, which listens at no place yet.
    pub fn new(net: N) -> TcpDoor<N>
        ensures { ⟦<TcpDoor<N> as Door>⟧.facts result ≡ record { faults = 0; accepts = 0; out = 0; asked = None; back = None } }
    {
        TcpDoor {
            net,
            listener: None,
            accepts: 0,
            faults: 0,
            out: 0,
        }
    }

    // A link over the connection, counted as handed out. One too many for the count is closed.
    fn hand_out(&mut self, stream: io::Result<TcpStream>) -> Result<TcpLink, Fault>
        ensures fresh { IfOk result (λ link. IsFresh (⟦<TcpLink as Link>⟧.facts link)) }
        ensures out { HandsOutLink self.old.out self.new.out result }
        ensures cause { CountsFault self.old.faults self.new.faults result }
        ensures accepts { self.new.accepts ≡ self.old.accepts }
    {
        let link = match stream {
            Ok(stream) => TcpLink::new(self.net.alloc(), stream),
            Err(error) => Err(error),
        };
        match (link, self.out.checked_add(1)) {
            (Ok(link), Some(out)) => {
                self.out = out;
                Ok(link)
            }
            (Ok(_), None) => {
                self.faults = raised(self.faults);
                Err(Fault::Failed)
            }
            (Err(error), _) => { Err(counted(&mut self.faults, &error)) }
        }
    }
}

impl<N: Net<Listener = TcpListener, Stream = TcpStream> + AllocGlobal + Drop> Door for TcpDoor<N> {
    type L = TcpLink;

    ghost facts = { λ s. record { faults = s.faults; accepts = s.accepts; out = s.out; asked = None; back = None } };

    /// Listens at `place` from now on, in place of an earlier one.
    fn listen(&mut self, place: &str) -> Result<(), Fault> {
        match TcpListener::bind(&self.net, place) {
            Ok(listener) => {
                self.listener = Some(listener);
                Ok(())
            }
            Err(error) => { Err(counted(&mut self.faults, &error)) }
        }
    }

    fn accept(&mut self) -> Result<TcpLink, Fault> {
        self.accepts = raised(self.accepts);
        let stream = match &self.listener {
            Some(listener) => listener.accept().map(|(stream, _)| stream),
            None => Err(io::Error::from(ErrorKind::NotConnected)),
        };
        self.hand_out(stream)
    }

    fn connect(&mut self, place: &str) -> Result<TcpLink, Fault> {
        let stream = TcpStream::connect(&self.net, place);
        self.hand_out(stream)
    }

    fn give_back(&mut self, _link: TcpLink) {
        self.out -= 1;
    }
}

#[cfg(test)]
mod tests;
