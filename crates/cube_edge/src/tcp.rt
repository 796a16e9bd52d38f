// The sockets of the machine.
ghost use Rattle.std.specs.Prelude.{◌≡◌, ◌<◌, ◌≤◌, false, length, IfOk, IfSome};
ghost use Rattle.cube_io.specs.Causes.{Rose};
ghost use Rattle.cube_edge.specs.Sockets.{silent_sockets};

use crate::hub::MAX_LINKS;
use crate::sockets::{Gone, Sockets};
use cube_io::Failed;
use cube_model::{NoMemory, Text};
use mio::event::Event;
use mio::net::{TcpListener, TcpStream};
use mio::{Events, Interest, Poll, Token};
use std::alloc::Global;
use std::io::{ErrorKind, Read, Write};
use std::net::{Net, Shutdown, ToSocketAddrs};
use std::time::{Clock, Duration};
use std::{io, str};

/// What the listening socket is called where the connections are called by their numbers.
const LISTENER: Token = Token(MAX_LINKS);

/// The numbers of the errors behind which an accept can go well later: not permitted, no memory, too many open files of the
/// system and of the program, no space for one more that is watched, those of the new connection and of its network, no buffers.
const PASSING: [i32; 14] = [1, 12, 23, 24, 28, 64, 71, 92, 100, 101, 103, 105, 112, 113];

/// The system tells of room on a connection only once a third of all is free. So it is also tried, each time that so many
/// milliseconds went by.
const TRYING: u64 = 250;

/// The listening socket.
#[derive(Drop)]
struct Door {
    listener: TcpListener,
    poll: Poll,
    /// Whether a connection may be there.
    is_ready: bool,
}

/// A connection.
#[derive(Drop)]
struct Stream {
    socket: TcpStream,
    /// Whether bytes may be there.
    is_readable: bool,
    /// Whether it may take bytes.
    is_writable: bool,
    /// Whether the other side sends no more than what is there.
    is_ended: bool,
}

/// The TCP sockets of the machine. They tell no content.
///
/// Where it listens they say so in their notes, with the port, in a line; or why not, with the address.
#[derive(Drop)]
pub struct TcpSockets<'a, R: Net + Clock, N: Write + Drop> {
    rt: &'a R,
    notes: N,
    door: Option<Door>,
    streams: Vec<Option<Stream>>,
    events: Events,
    /// Whether a call since the last wait left something to be done that no event will tell of.
    is_more: bool,
    /// When it began to listen.
    begun: u64,
    now: u64,
    /// When connections were last tried that took no more.
    tried: u64,
    faults: u64,
}

/// An address as it is resolved.
fn address_of(address: &Text) -> &str {
    str::from_utf8(address.as_slice()).unwrap_or("an address that is no UTF-8")
}

/// A listening socket on the first address that can be had.
fn bind<R: Net>(rt: &R, address: &str) -> io::Result<TcpListener> {
    let mut refused = io::Error::from(ErrorKind::AddrNotAvailable);
    for address in address.to_socket_addrs(rt)? {
        match TcpListener::bind(rt, address) {
            Ok(listener) => return Ok(listener),
            Err(error) => refused = error,
        }
    }
    Err(refused)
}

/// A listening socket that is watched.
fn open<R: Net>(rt: &R, address: &str) -> io::Result<Door> {
    let mut listener = bind(rt, address)?;
    let poll = Poll::new(rt)?;
    poll.registry()
        .register(&mut listener, LISTENER, Interest::READABLE)?;
    Ok(Door {
        listener,
        poll,
        is_ready: true,
    })
}

/// Whether a call moved nothing, and may move something later.
fn is_idle(error: &io::Error) -> bool {
    matches!(error.kind(), ErrorKind::WouldBlock | ErrorKind::Interrupted)
}

/// Whether an accept that failed may go well later.
fn is_passing(error: &io::Error) -> bool {
    match error.raw_os_error() {
        Some(number) => is_idle(error) || PASSING.contains(&number),
        None => false,
    }
}

impl Door {
    /// The next connection, if one is there and can be taken now.
    fn accept(&mut self, c: u32) -> io::Result<Option<Stream>> {
        if !self.is_ready {
            return Ok(None);
        }
        match self.take(c) {
            Ok(stream) => Ok(Some(stream)),
            Err(error) => {
                self.is_ready = error.kind() != ErrorKind::WouldBlock;
                if is_passing(&error) {
                    Ok(None)
                } else {
                    Err(error)
                }
            }
        }
    }

    // The next connection, watched under its number.
    fn take(&mut self, c: u32) -> io::Result<Stream> {
        let (mut socket, _) = self.listener.accept()?;
        // The head and the body of a reply are two sends: the second must not wait until the first is acknowledged.
        let _ = socket.set_nodelay(true);
        let interests = Interest::READABLE | Interest::WRITABLE;
        self.poll
            .registry()
            .register(&mut socket, Token(c as usize), interests)?;
        Ok(Stream {
            socket,
            is_readable: true,
            is_writable: true,
            is_ended: false,
        })
    }
}

impl Stream {
    /// Notes what an event tells.
    fn mark(&mut self, event: &Event) {
        let is_broken = event.is_error();
        let is_ended = is_broken || event.is_read_closed();
        self.is_readable = self.is_readable || is_ended || event.is_readable();
        self.is_writable = self.is_writable || is_broken || event.is_writable();
        self.is_ended = self.is_ended || is_ended;
    }

    /// Reads what is there. A read that does not fill the buffer has taken all, but for the end.
    fn read(&mut self, buf: &mut [u8]) -> Result<Option<usize>, Gone>
        ensures size { length buf.new ≡ length buf.old }
        ensures fits { IfOk result (λ count. IfSome count (λ n. (0 < n) × (n ≤ length buf.new))) }
    {
        if !self.is_readable {
            return Ok(None);
        }
        match self.socket.read(buf) {
            Ok(0) => Err(Gone),
            Ok(count) => {
                self.is_readable = self.is_ended || count == buf.len();
                Ok(Some(count))
            }
            Err(error) => {
                self.is_readable = error.kind() == ErrorKind::Interrupted;
                if is_idle(&error) { Ok(None) } else { Err(Gone) }
            }
        }
    }

    /// Writes a front of the piece. A write that does not take all has filled the room that there was.
    fn write(&mut self, piece: &[u8]) -> Result<usize, Gone>
        ensures fits { IfOk result (λ n. n ≤ length piece.now) }
    {
        if !self.is_writable {
            return Ok(0);
        }
        match self.socket.write(piece) {
            Ok(count) => {
                self.is_writable = count == piece.len();
                Ok(count)
            }
            Err(error) => {
                self.is_writable = error.kind() == ErrorKind::Interrupted;
                if is_idle(&error) { Ok(0) } else { Err(Gone) }
            }
        }
    }
}

/// Room for connections, of which none is there.
fn make_streams(alloc: Global) -> Result<Vec<Option<Stream>>, NoMemory> {
    let mut streams = Vec::with_capacity(alloc, MAX_LINKS)?;
    for _place in 0..MAX_LINKS {
        streams.push_reserved(None);
    }
    Ok(streams)
}

/// Has each connection be tried that took no more.
fn try_all(streams: &mut [Option<Stream>]) {
    for place in streams {
        if let Some(stream) = place {
            stream.is_writable = true;
        }
    }
}

/// Whole milliseconds.
fn millis_of(time: Duration) -> u64 {
    let millis = u64::from(time.subsec_millis());
    time.as_secs().saturating_mul(1_000).saturating_add(millis)
}

/// Notes what an event tells, of the listening socket or of a connection.
fn mark(door: &mut Door, streams: &mut [Option<Stream>], event: &Event) {
    match streams.get_mut(event.token().0) {
        Some(Some(stream)) => stream.mark(event),
        Some(None) => {}
        None => door.is_ready = true,
    }
}

impl<'a, R: Net + Clock, N: Write + Drop> TcpSockets<'a, R, N> {
    /// Sockets of which none listens.
    pub fn new(alloc: Global, rt: &'a R, notes: N) -> Result<Self, NoMemory>
        ensures told { IfOk result (λ sockets. (⟦<TcpSockets<'a, R, N> as Sockets>⟧.state sockets).told ≡ false) }
    {
        Ok(TcpSockets {
            rt,
            notes,
            door: None,
            streams: make_streams(alloc)?,
            events: Events::with_capacity(alloc, MAX_LINKS)?,
            is_more: false,
            begun: 0,
            now: 0,
            tried: 0,
            faults: 0,
        })
    }

    /// The port that it listens on, where it listens.
    pub fn port(&self) -> Option<u16> {
        match &self.door {
            Some(door) => match door.listener.local_addr() {
                Ok(address) => Some(address.port()),
                Err(_) => None,
            },
            None => None,
        }
    }

    // Says where it listens.
    fn note_listening(&mut self, door: &Door)
        ensures { self.new.faults ≡ self.old.faults }
    {
        if let Ok(address) = door.listener.local_addr() {
            let _ = writeln!(self.notes, "listening on {address}");
        }
    }

    // Keeps a connection under its number.
    fn put(&mut self, c: u32, stream: Stream)
        ensures { self.new.faults ≡ self.old.faults }
    {
        self.is_more = true;
        if let Some(place) = self.streams.get_mut(c as usize) {
            *place = Some(stream);
        }
    }

    // Counts a fault.
    fn fail(&mut self) -> Failed
        ensures later { self.old.faults ≤ self.new.faults }
        ensures rose { Rose self.old.faults self.new.faults }
    {
        self.faults = self.faults.saturating_add(1);
        Failed
    }

    // Waits for events, and notes what they tell.
    fn poll(&mut self, time: Duration) -> io::Result<()>
        ensures faults { self.new.faults ≡ self.old.faults }
    {
        let Some(door) = &mut self.door else {
            return Ok(());
        };
        door.poll.poll(&mut self.events, Some(time))?;
        for event in &self.events {
            mark(door, &mut self.streams, event);
        }
        self.now = millis_of(self.rt.monotonic()?).saturating_sub(self.begun);
        if self.now.saturating_sub(self.tried) >= TRYING {
            self.tried = self.now;
            try_all(&mut self.streams);
        }
        Ok(())
    }
}

impl<R: Net + Clock, N: Write + Drop> Sockets for TcpSockets<'_, R, N> {
    ghost state = { λ s. silent_sockets s.faults };

    fn listen(&mut self, address: &Text) -> Result<(), Failed> {
        let address = address_of(address);
        match open(self.rt, address) {
            Ok(door) => {
                if let Ok(time) = self.rt.monotonic() {
                    self.begun = millis_of(time);
                }
                self.note_listening(&door);
                self.door = Some(door);
                Ok(())
            }
            Err(error) => {
                let _ = writeln!(self.notes, "{address}: {error}");
                Err(self.fail())
            }
        }
    }

    fn accept(&mut self, c: u32) -> Result<bool, Failed> {
        let accepted = match &mut self.door {
            Some(door) => door.accept(c),
            None => Err(io::Error::from(ErrorKind::NotConnected)),
        };
        match accepted {
            Ok(Some(stream)) => {
                self.put(c, stream);
                Ok(true)
            }
            Ok(None) => Ok(false),
            Err(_) => Err(self.fail()),
        }
    }

    fn wait(&mut self, millis: u64) -> Result<u64, Failed> {
        let millis = if self.is_more { 0 } else { millis };
        self.is_more = false;
        match self.poll(Duration::from_millis(millis)) {
            Ok(()) => Ok(self.now),
            Err(_) => Err(self.fail()),
        }
    }

    fn read(&mut self, c: u32, buf: &mut [u8]) -> Result<Option<usize>, Gone> {
        match self.streams.get_mut(c as usize) {
            Some(Some(stream)) => {
                let count = stream.read(buf)?;
                self.is_more = self.is_more || stream.is_readable;
                Ok(count)
            }
            _ => Err(Gone),
        }
    }

    fn write(&mut self, c: u32, piece: &[u8]) -> Result<usize, Gone> {
        match self.streams.get_mut(c as usize) {
            Some(Some(stream)) => stream.write(piece),
            _ => Err(Gone),
        }
    }

    fn finish(&mut self, c: u32) {
        if let Some(Some(stream)) = self.streams.get(c as usize) {
            let _ = stream.socket.shutdown(Shutdown::Write);
        }
    }

    fn close(&mut self, c: u32) {
        if let Some(place) = self.streams.get_mut(c as usize) {
            *place = None;
        }
    }
}
