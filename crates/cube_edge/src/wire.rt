// The wire over sockets.
ghost use Rattle.std.specs.Prelude.{◌≡◌, ◌<◌, ◌≤◌, ⊤, [], length, IsTrue, IfOk, IfSome};
ghost use Rattle.cube_io.specs.Causes.{HasCause, Rose};
ghost use Rattle.cube_io.specs.Wires.{FitsBuffer, IsOpen};
ghost use Rattle.cube_io.specs.Wires.LogEntry.{Shut};
ghost use Rattle.cube_edge.specs.Ends.{Closes, LetsGo, NoneOpen, Settles, idle_of};
ghost use Rattle.cube_edge.specs.Flows.{AreTied};
ghost use Rattle.cube_edge.specs.Lines.{GivesLine};
ghost use Rattle.cube_edge.specs.Sockets.{SameTime};
ghost use Rattle.cube_edge.specs.Watches.{Notes, NotesNext, wire_over};

use crate::hub::{Hub, MAX_LINKS};
use crate::sockets::Sockets;
use crate::watch::Watch;
use cube_io::{Event, Failed, Store, Wire};
use cube_model::{NoMemory, Text};
use std::alloc::Global;

/// How long is waited at once, in milliseconds. So exact are the times after which a connection is closed, and so long an
/// accept is put off that cannot be done now.
const TICK: u64 = 250;

/// How long the last replies may take when the run ends, in milliseconds.
const SETTLING: u64 = 2_000;

/// The connections of sockets, side by side in one thread. Its watch is told of each event, send and close, and it tells what
/// the watch tells. One that tells stands over sockets that tell their bytes, and then these are at any time the same: which
/// connections are open by the log, and which are; of each that is there, what went out by the log since it was opened, and what
/// its socket was given, followed by what waits; and while it is open, what came by the log, followed by what is unread, and what
/// was taken from its socket.
///
/// A number belongs to one open connection, and another one gets it only once that one was closed. What is sent waits, and no
/// socket is touched until the next event is looked for. What a connection does not take of a reply then still waits, and no piece
/// of it is given meanwhile; the others do not wait for it. A piece ends behind the first line feed of what came. The rest is unread,
/// and while something is, the socket is not read. Behind a piece the same connection has the next turn if a line of what is unread
/// ends and nothing was sent on it; else the others have theirs first, so that each is looked at between two requests of one. A
/// connection whose read or write fails, or for whose unread bytes there is no memory, counts as closed by the other side, and one
/// that for too long was sent nothing and took nothing is closed. What is unread of a connection that is closed is dropped. The wire
/// has no end. Where the watch has no space for what is to come, `next`, `listen` and `send` fail.
#[derive(Drop)]
pub struct SocketWire<S: Sockets + Drop, N: Watch + Drop> {
    hub: Hub<S>,
    watch: N,
    send_faults: u64,
    ghost tells: { IsTrue (N.state watch).told → IsTrue (S.state hub.sockets).told },
    ghost heeds: { IsTrue (N.state watch).told → hub.idle ≡ idle_of 0 (N.state watch).heard },
    ghost tied: { IsTrue (N.state watch).told → AreTied (S.state hub.sockets) (N.state watch).log hub.links.items },
}

impl<S: Sockets + Drop, N: Watch + Drop> SocketWire<S, N> {
    /// A wire that does not listen yet. Sockets that tell told no time yet, and a watch that tells was told of nothing yet.
    pub fn new(alloc: Global, sockets: S, watch: N) -> Result<Self, NoMemory>
        requires tells { IsTrue (N.state watch).told → IsTrue (S.state sockets).told }
        requires clock { IsTrue (S.state sockets).told → (S.state sockets).clock ≡ 0 }
        requires fresh { IsTrue (N.state watch).told → ((N.state watch).log ≡ []) × ((N.state watch).heard ≡ []) }
        ensures { IfOk result (λ wire. ⟦<SocketWire<S, N> as Wire>⟧.state wire ≡ wire_over (S.state sockets) (N.state watch) 0) }
    {
        Ok(SocketWire {
            hub: Hub::new(alloc, sockets)?,
            watch,
            send_faults: 0,
        })
    }

    /// The sockets that it stands over.
    pub fn sockets(&self) -> &S
        ensures { result.now ≡ self.now.hub.sockets }
    {
        &self.hub.sockets
    }

    /// Its watch.
    pub fn watch(&self) -> &N
        ensures { result.now ≡ self.now.watch }
    {
        &self.watch
    }

    /// Closes each connection behind what waits, and waits until they are closed, for at most two seconds.
    pub fn settle(&mut self)
        ensures closes { IsTrue (S.state self.old.hub.sockets).told → NoneOpen self.new.hub.links.items }
        ensures settles { IsTrue (S.state self.old.hub.sockets).told → Settles (S.state self.old.hub.sockets).clock (S.state self.old.hub.sockets).faults (S.state self.new.hub.sockets) self.new.hub.links.items (N.state self.new.watch).capacity }
    {
        self.close_all();
        if self.wait(0).is_ok() {
            self.drain(self.hub.now);
        }
    }

    // Closes each connection behind what waits.
    fn close_all(&mut self)
        ensures closes { NoneOpen self.new.hub.links.items }
        ensures told { (S.state self.new.hub.sockets).told ≡ (S.state self.old.hub.sockets).told }
        ensures faults { (S.state self.new.hub.sockets).faults ≡ (S.state self.old.hub.sockets).faults }
        ensures time { SameTime (S.state self.old.hub.sockets) (S.state self.new.hub.sockets) }
    {
        for c in 0..MAX_LINKS {
            if self.hub.is_open(c) {
                self.shut(c as u32);
            }
        }
    }

    // Closes a connection.
    fn shut(&mut self, c: u32)
        requires { IsTrue (N.state self.old.watch).told → IsOpen c (N.state self.old.watch).log }
        ensures closes { Closes c self.old.hub.links.items self.new.hub.links.items }
        ensures told { (S.state self.new.hub.sockets).told ≡ (S.state self.old.hub.sockets).told }
        ensures faults { (S.state self.new.hub.sockets).faults ≡ (S.state self.old.hub.sockets).faults }
        ensures time { SameTime (S.state self.old.hub.sockets) (S.state self.new.hub.sockets) }
        ensures sends { self.new.send_faults ≡ self.old.send_faults }
        ensures notes { Notes (Shut c) (N.state self.old.watch) (N.state self.new.watch) }
    {
        self.hub.close(c);
        self.watch.shut(c);
    }

    // Waits until no connection is left, for at most two seconds from a time on.
    fn drain(&mut self, start: u64)
        requires { IsTrue (S.state self.old.hub.sockets).told → NoneOpen self.old.hub.links.items }
        ensures closes { IsTrue (S.state self.old.hub.sockets).told → NoneOpen self.new.hub.links.items }
        ensures settles { IsTrue (S.state self.old.hub.sockets).told → Settles start (S.state self.old.hub.sockets).faults (S.state self.new.hub.sockets) self.new.hub.links.items (N.state self.new.watch).capacity }
    {
        let mut buf = [0u8; 4_096];
        'waits: for _wait in 0..u64::MAX {
            if !self.watch.takes(buf.len()) {
                return;
            }
            self.pass(&mut buf);
            if self.hub.is_settled() || self.hub.now.saturating_sub(start) >= SETTLING {
                return;
            }
            if self.wait(TICK).is_err() {
                return;
            }
        }
    }

    // Looks at the connections whose turn it is, up to one of which there is something to say. The watch is told of it.
    fn pass(&mut self, buf: &mut [u8])
        requires buf { 0 < length buf.old }
        requires capacity { length buf.old < (N.state self.old.watch).capacity }
        ensures size { length buf.new ≡ length buf.old }
        ensures told { (S.state self.new.hub.sockets).told ≡ (S.state self.old.hub.sockets).told }
        ensures faults { (S.state self.new.hub.sockets).faults ≡ (S.state self.old.hub.sockets).faults }
        ensures time { SameTime (S.state self.old.hub.sockets) (S.state self.new.hub.sockets) }
        ensures lets { IsTrue (S.state self.old.hub.sockets).told → LetsGo self.old.hub.idle (S.state self.old.hub.sockets) self.old.hub.links.items (S.state self.new.hub.sockets) self.new.hub.links.items }
    {
        let Some(event) = self.hub.pass(buf) else {
            return;
        };
        self.watch.hear(event, buf);
    }

    // Waits for something to do.
    fn wait(&mut self, millis: u64) -> Result<(), Failed>
        ensures cause { HasCause (S.state self.old.hub.sockets).faults (S.state self.new.hub.sockets).faults result }
        ensures told { (S.state self.new.hub.sockets).told ≡ (S.state self.old.hub.sockets).told }
        ensures later { IsTrue (S.state self.old.hub.sockets).told → (S.state self.old.hub.sockets).clock ≤ (S.state self.new.hub.sockets).clock }
        ensures counted { IsTrue (S.state self.old.hub.sockets).told → Rose (S.state self.old.hub.sockets).waits (S.state self.new.hub.sockets).waits }
        ensures links { self.new.hub.links ≡ self.old.hub.links }
        ensures sends { self.new.send_faults ≡ self.old.send_faults }
        ensures quiet { N.state self.new.watch ≡ N.state self.old.watch }
    {
        self.hub.wait(millis)
    }

    // The next event, where there is one now. The watch is told of it.
    fn find(&mut self, buf: &mut [u8]) -> Result<Option<Event>, Failed>
        requires buf { 0 < length buf.old }
        requires capacity { length buf.old < (N.state self.old.watch).capacity }
        ensures size { length buf.new ≡ length buf.old }
        ensures fits { IfOk result (λ found. IfSome found (λ event. FitsBuffer event buf.new)) }
        ensures line { IfOk result (λ found. IfSome found (λ event. GivesLine event buf.new)) }
        ensures cause { HasCause (S.state self.old.hub.sockets).faults (S.state self.new.hub.sockets).faults result }
        ensures faults { (N.state self.new.watch).faults ≡ (N.state self.old.watch).faults }
        ensures sends { self.new.send_faults ≡ self.old.send_faults }
        ensures notes { NotesNext result buf.new (N.state self.old.watch) (N.state self.new.watch) }
    {
        match self.hub.find(buf) {
            Ok(Some(event)) => {
                self.watch.hear(event, buf);
                Ok(Some(event))
            }
            Ok(None) => Ok(None),
            Err(Failed) => Err(Failed),
        }
    }
}

impl<S: Sockets + Drop, N: Watch + Drop> Wire for SocketWire<S, N> {
    ghost state = { λ w. wire_over (S.state w.hub.sockets) (N.state w.watch) w.send_faults };

    ghost allows = { λ store log. ⊤ };

    fn listen(&mut self, address: &Text, idle: u32) -> Result<(), Failed> {
        match self.watch.listen(address, idle) {
            Ok(()) => self.hub.listen(address, idle),
            Err(Failed) => Err(Failed),
        }
    }

    fn next<D: Store>(&mut self, _store: &D, buf: &mut [u8]) -> Result<Event, Failed> {
        match self.watch.expect_event(buf.len()) {
            Ok(()) => {}
            Err(Failed) => return Err(Failed),
        }
        'waits: for _ in 0..u64::MAX {
            if let Some(event) = self.find(buf)? {
                return Ok(event);
            }
            self.wait(TICK)?;
        }
        self.watch.hear(Event::End, buf);
        Ok(Event::End)
    }

    fn send(&mut self, c: u32, piece: &[u8]) -> Result<(), Failed> {
        if !self.watch.takes(piece.len()) {
            self.watch.torn(c, b"", piece.len());
            self.send_faults = self.send_faults.saturating_add(1);
            return Err(Failed);
        }
        match self.hub.send(c, piece) {
            Ok(()) => {
                self.watch.sent(c, piece);
                Ok(())
            }
            Err(Failed) => {
                self.watch.torn(c, b"", piece.len());
                self.send_faults = self.send_faults.saturating_add(1);
                Err(Failed)
            }
        }
    }

    fn close(&mut self, c: u32) {
        self.shut(c);
    }
}
