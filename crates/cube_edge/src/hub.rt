// The connections over sockets, side by side.
ghost use Rattle.std.specs.Prelude.{◌≡◌, ◌≢◌, ◌<◌, ◌≤◌, ℕ, ◌+◌, ◌*◌, ◌==◌, if◌then◌else◌, [], length, vec_len, slice_get, true, false, All, IsTrue, IfOk, IfSome, IsSomeAnd};
ghost use Rattle.cube_io.specs.Causes.{HasCause, Rose};
ghost use Rattle.cube_io.specs.Wires.{FitsBuffer};
ghost use Rattle.cube_io.specs.Wires.LogEntry.{Shut};
ghost use Rattle.cube_edge.specs.Ends.{AreThere, Closes, LetsGo, are_free};
ghost use Rattle.cube_edge.specs.Flows.{Keeps, Takes, TakesAccept, TakesEvent, TakesNext, TakesSend, AreTied};
ghost use Rattle.cube_edge.specs.Lines.{GivesLine};
ghost use Rattle.cube_edge.specs.Links.{is_open, is_there};
ghost use Rattle.cube_edge.specs.Sockets.{Elsewhere, SameTime};
ghost use Rattle.cube_edge.specs.declared.link.Stage.TheVariants as stage;

use crate::link::{Link, Look, Stage};
use crate::sockets::Sockets;
use cube_io::{Event, Failed};
use cube_model::{NoMemory, Text};
use std::alloc::Global;

/// Room for connections: 64 that are open, and as many that are told that there are too many or that are being closed.
pub(crate) const MAX_LINKS: usize = 128;

/// The connections over sockets, each by its number. What a call does to each of them is said of every log that is true of them
/// before: it is true of them behind the call too, with what the call tells at its end.
#[derive(Drop)]
pub struct Hub<S: Sockets + Drop> {
    alloc: Global,
    pub sockets: S,
    pub links: Vec<Link>,
    /// Whose turn it is.
    turn: usize,
    /// The connection of the last send since an event was looked for.
    sent: usize,
    pub now: u64,
    pub idle: u64,
    ghost capacity: { vec_len links ≡ 128 },
    ghost clock: { IsTrue (S.state sockets).told → now ≡ (S.state sockets).clock },
}

// Room for connections.
fn make_links(alloc: Global) -> Result<Vec<Link>, NoMemory>
    ensures capacity { IfOk result (λ links. vec_len links ≡ 128) }
    ensures free { IfOk result (λ links. All (λ link. link.stage ≡ stage.Free) links.items) }
{
    let mut links = Vec::with_capacity(alloc, MAX_LINKS)?;
    for _place in 0..MAX_LINKS {
        links.push_reserved(Link::new(alloc, Stage::Free));
    }
    Ok(links)
}

// The first number that no connection has.
fn free_number(links: &[Link]) -> Option<usize>
    ensures within { IfSome result (λ place. place < length links.now) }
    ensures free { IfSome result (λ place. IsSomeAnd (slice_get links.now place) (λ link. is_there link.stage ≡ false)) }
{
    links.iter().position(|link| link.stage == Stage::Free)
}

// Whose turn is next once something was sent on a connection: if it was its turn, that has passed.
fn turn_past(turn: usize, place: usize) -> usize
    requires { place < 128 }
    ensures { result ≡ (if turn == place then place + 1 else turn) }
{
    if turn == place { place + 1 } else { turn }
}

impl<S: Sockets + Drop> Hub<S> {
    /// No connection. The sockets told no time yet.
    pub fn new(alloc: Global, sockets: S) -> Result<Self, NoMemory>
        requires { IsTrue (S.state sockets).told → (S.state sockets).clock ≡ 0 }
        ensures idle { IfOk result (λ hub. hub.idle ≡ 0) }
        ensures sockets { IfOk result (λ hub. S.state hub.sockets ≡ S.state sockets) }
        ensures tied { IfOk result (λ hub. AreTied (S.state hub.sockets) [] hub.links.items) }
    {
        Ok(Hub {
            alloc,
            sockets,
            links: make_links(alloc)?,
            turn: 0,
            sent: MAX_LINKS,
            now: 0,
            idle: 0,
        })
    }

    /// Whether there is no connection.
    pub fn is_settled(&self) -> bool
        ensures { result ≡ are_free self.entry.now.links.items }
    {
        self.links.iter().all(|link| !link.is_there())
    }

    // Whether a connection has unread bytes that it gives at its turn.
    fn has_piece(&self) -> bool {
        self.links.iter().any(|link| link.has_piece())
    }

    /// Waits for something to do, for at most so many milliseconds; for none where unread bytes can be given.
    pub fn wait(&mut self, millis: u64) -> Result<(), Failed>
        ensures cause { HasCause (S.state self.old.sockets).faults (S.state self.new.sockets).faults result }
        ensures told { (S.state self.new.sockets).told ≡ (S.state self.old.sockets).told }
        ensures idle { self.new.idle ≡ self.old.idle }
        ensures later { IsTrue (S.state self.old.sockets).told → (S.state self.old.sockets).clock ≤ (S.state self.new.sockets).clock }
        ensures counted { IsTrue (S.state self.old.sockets).told → Rose (S.state self.old.sockets).waits (S.state self.new.sockets).waits }
        ensures links { self.new.links ≡ self.old.links }
        ensures keeps { Keeps (S.state self.old.sockets) self.old.links.items (S.state self.new.sockets) self.new.links.items }
    {
        let millis = if self.has_piece() { 0 } else { millis };
        self.now = self.sockets.wait(millis)?;
        Ok(())
    }

    /// Listens on an address. A connection that is still for so many seconds is closed; none where they are 0.
    pub fn listen(&mut self, address: &Text, idle: u32) -> Result<(), Failed>
        ensures cause { HasCause (S.state self.old.sockets).faults (S.state self.new.sockets).faults result }
        ensures told { (S.state self.new.sockets).told ≡ (S.state self.old.sockets).told }
        ensures idle { self.new.idle ≡ idle * 1000 }
        ensures keeps { Keeps (S.state self.old.sockets) self.old.links.items (S.state self.new.sockets) self.new.links.items }
    {
        self.idle = u64::from(idle) * 1_000;
        self.sockets.listen(address)
    }

    // Writes of what waits on the connection of the last send as much as it takes, and its end behind that where it is closed. If it
    // has its turn, that has passed.
    fn flush(&mut self)
        ensures faults { (S.state self.new.sockets).faults ≡ (S.state self.old.sockets).faults }
        ensures told { (S.state self.new.sockets).told ≡ (S.state self.old.sockets).told }
        ensures idle { self.new.idle ≡ self.old.idle }
        ensures time { SameTime (S.state self.old.sockets) (S.state self.new.sockets) }
        ensures lets { IsTrue (S.state self.old.sockets).told → LetsGo self.old.idle (S.state self.old.sockets) self.old.links.items (S.state self.new.sockets) self.new.links.items }
        ensures keeps { Keeps (S.state self.old.sockets) self.old.links.items (S.state self.new.sockets) self.new.links.items }
    {
        let place = self.sent;
        self.sent = MAX_LINKS;
        let Some(link) = self.links.get_mut(place) else {
            return;
        };
        let _ = link.flush(&mut self.sockets, place as u32);
        self.turn = turn_past(self.turn, place);
    }

    /// Sends a piece on a connection: it waits behind what waits, and no socket is touched. It fails where the connection is not
    /// open, where there is no memory for the piece, or where more would wait than may; nothing of it goes out then.
    pub fn send(&mut self, c: u32, piece: &[u8]) -> Result<(), Failed>
        ensures sockets { self.new.sockets ≡ self.old.sockets }
        ensures idle { self.new.idle ≡ self.old.idle }
        ensures there { AreThere self.old.links.items self.new.links.items }
        ensures takes { TakesSend result c piece.now (S.state self.old.sockets) self.old.links.items (S.state self.new.sockets) self.new.links.items }
    {
        let Some(link) = self.links.get_mut(c as usize) else {
            return Err(Failed);
        };
        if !link.is_open() {
            return Err(Failed);
        }
        self.sent = c as usize;
        match link.send(piece) {
            Ok(()) => Ok(()),
            Err(NoMemory) => Err(Failed),
        }
    }

    /// Whether a connection is open.
    pub fn is_open(&self, place: usize) -> bool
        requires { place < 128 }
        ensures opens { IsTrue result → IsSomeAnd (slice_get self.entry.now.links.items place) (λ link. is_open link.stage ≡ true) }
        ensures closed { result ≡ false → IfSome (slice_get self.entry.now.links.items place) (λ link. is_open link.stage ≡ false) }
    {
        self.links[place].is_open()
    }

    /// Closes a connection behind what waits, where it is open. It is there still.
    pub fn close(&mut self, c: u32)
        ensures faults { (S.state self.new.sockets).faults ≡ (S.state self.old.sockets).faults }
        ensures told { (S.state self.new.sockets).told ≡ (S.state self.old.sockets).told }
        ensures idle { self.new.idle ≡ self.old.idle }
        ensures time { SameTime (S.state self.old.sockets) (S.state self.new.sockets) }
        ensures closes { Closes c self.old.links.items self.new.links.items }
        ensures takes { Takes (Shut c) (S.state self.old.sockets) self.old.links.items (S.state self.new.sockets) self.new.links.items }
    {
        if let Some(link) = self.links.get_mut(c as usize) {
            if link.is_open() {
                link.close(&mut self.sockets, c);
            }
        }
    }

    // Looks at a connection.
    fn visit(&mut self, place: usize, buf: &mut [u8]) -> Option<Event>
        requires place { place < 128 }
        requires buf { 0 < length buf.old }
        ensures size { length buf.new ≡ length buf.old }
        ensures fits { IfSome result (λ event. FitsBuffer event buf.new) }
        ensures line { IfSome result (λ event. GivesLine event buf.new) }
        ensures faults { (S.state self.new.sockets).faults ≡ (S.state self.old.sockets).faults }
        ensures told { (S.state self.new.sockets).told ≡ (S.state self.old.sockets).told }
        ensures idle { self.new.idle ≡ self.old.idle }
        ensures time { SameTime (S.state self.old.sockets) (S.state self.new.sockets) }
        ensures rest { (d : ℕ) → d ≢ place → slice_get self.new.links.items d ≡ slice_get self.old.links.items d }
        ensures others { IsTrue (S.state self.old.sockets).told → Elsewhere place (S.state self.old.sockets) (S.state self.new.sockets) }
        ensures lets { IsTrue (S.state self.old.sockets).told → LetsGo self.old.idle (S.state self.old.sockets) self.old.links.items (S.state self.new.sockets) self.new.links.items }
        ensures takes { TakesEvent result buf.new (S.state self.old.sockets) self.old.links.items (S.state self.new.sockets) self.new.links.items }
    {
        let c = place as u32;
        let link = &mut self.links[place];
        let was_open = link.is_open();
        let look = link.turn(self.alloc, &mut self.sockets, c, buf, self.now, self.idle);
        match look {
            Look::Piece(count) => Some(Event::Piece(c, count)),
            Look::Gone if was_open => Some(Event::Closed(c)),
            Look::Gone => None,
            Look::Quiet => None,
        }
    }

    // Whose turn is next behind a piece of a connection: its own while a line of what is unread ends.
    fn turn_behind(&self, place: usize) -> usize
        requires { place < 128 }
    {
        if self.links[place].has_line() {
            place
        } else {
            place + 1
        }
    }

    /// Looks at the connections whose turn it is, up to one of which there is something to say. Of that it is the turn still while a
    /// line of what is unread ends, until something is sent on it. A connection is let go only for a cause.
    pub fn pass(&mut self, buf: &mut [u8]) -> Option<Event>
        requires { 0 < length buf.old }
        ensures size { length buf.new ≡ length buf.old }
        ensures fits { IfSome result (λ event. FitsBuffer event buf.new) }
        ensures line { IfSome result (λ event. GivesLine event buf.new) }
        ensures faults { (S.state self.new.sockets).faults ≡ (S.state self.old.sockets).faults }
        ensures told { (S.state self.new.sockets).told ≡ (S.state self.old.sockets).told }
        ensures idle { self.new.idle ≡ self.old.idle }
        ensures time { SameTime (S.state self.old.sockets) (S.state self.new.sockets) }
        ensures lets { IsTrue (S.state self.old.sockets).told → LetsGo self.old.idle (S.state self.old.sockets) self.old.links.items (S.state self.new.sockets) self.new.links.items }
        ensures takes { TakesEvent result buf.new (S.state self.old.sockets) self.old.links.items (S.state self.new.sockets) self.new.links.items }
    {
        'links: for place in self.turn..MAX_LINKS {
            self.turn = place + 1;
            if let Some(event) = self.visit(place, buf) {
                self.turn = self.turn_behind(place);
                return Some(event);
            }
        }
        self.turn = 0;
        None
    }

    // Accepts a connection, where one is there and there is a number for it.
    fn admit(&mut self) -> Result<Option<u32>, Failed>
        ensures free { IfOk result (λ found. IfSome found (λ c. IsSomeAnd (slice_get self.old.links.items c) (λ link. is_there link.stage ≡ false))) }
        ensures cause { HasCause (S.state self.old.sockets).faults (S.state self.new.sockets).faults result }
        ensures told { (S.state self.new.sockets).told ≡ (S.state self.old.sockets).told }
        ensures idle { self.new.idle ≡ self.old.idle }
        ensures time { SameTime (S.state self.old.sockets) (S.state self.new.sockets) }
        ensures takes { TakesAccept result (S.state self.old.sockets) self.old.links.items (S.state self.new.sockets) self.new.links.items }
    {
        let Some(place) = free_number(&self.links) else {
            return Ok(None);
        };
        let c = place as u32;
        match self.sockets.accept(c) {
            Ok(true) => {
                self.links[place] = Link::new(self.alloc, Stage::Open);
                Ok(Some(c))
            }
            Ok(false) => Ok(None),
            Err(failed) => Err(failed),
        }
    }

    /// The next event, where there is one now. Before it is looked for, what waits on the connection of the last send is handed to
    /// its socket.
    pub fn find(&mut self, buf: &mut [u8]) -> Result<Option<Event>, Failed>
        requires { 0 < length buf.old }
        ensures size { length buf.new ≡ length buf.old }
        ensures fits { IfOk result (λ found. IfSome found (λ event. FitsBuffer event buf.new)) }
        ensures line { IfOk result (λ found. IfSome found (λ event. GivesLine event buf.new)) }
        ensures cause { HasCause (S.state self.old.sockets).faults (S.state self.new.sockets).faults result }
        ensures told { (S.state self.new.sockets).told ≡ (S.state self.old.sockets).told }
        ensures idle { self.new.idle ≡ self.old.idle }
        ensures time { SameTime (S.state self.old.sockets) (S.state self.new.sockets) }
        ensures takes { TakesNext result buf.new (S.state self.old.sockets) self.old.links.items (S.state self.new.sockets) self.new.links.items }
    {
        self.flush();
        if let Some(event) = self.pass(buf) {
            return Ok(Some(event));
        }
        match self.admit() {
            Ok(Some(c)) => Ok(Some(Event::Opened(c))),
            Ok(None) => Ok(None),
            Err(failed) => Err(failed),
        }
    }
}
