// A wire in memory that plays some events.
ghost use Rattle.std.specs.Prelude.{◌≡◌, ⊤, [], ◌∷◌, ◌++◌, true, length, IfOk, OnOk, OnErr};
ghost use Rattle.cube_io.specs.Scrolls.{entry_of, is_event};
ghost use Rattle.cube_io.specs.Wires.{NextTells, FitsBuffer, arrival_of, no_plan};
ghost use Rattle.cube_io.specs.Wires.LogEntry.{Heard};

use crate::scroll::Note;
use crate::wire_log::WireLog;
use crate::{Event, Failed, Store, Wire};
use cube_model::{NoMemory, Text};
use std::alloc::Global;

/// An event that a wire in memory plays.
#[derive(Drop)]
pub enum Play {
    /// A connection is opened.
    Opened(u32),
    /// Bytes come, from 1 to 65,536 of them.
    Piece(u32, Text),
    /// The other side closes it.
    Closed(u32),
}

/// A send that is to fail: its number, counted from 0, and how many of its bytes go out before.
#[derive(Clone, Copy, Debug, PartialEq, Eq)]
pub struct FailingSend {
    pub send: u64,
    pub bytes: u64,
}

/// A wire in memory. It plays its events, of which the last is the end, and tells its log. It fails at the calls that it is
/// told, and where its space is used up or there is no memory for an address.
#[derive(Drop)]
pub struct MemWire {
    alloc: Global,
    plays: Vec<Play>,
    at: usize,
    log: WireLog,
    heard: Vec<(Text, u32)>,
    failing_nexts: Vec<u64>,
    failing_sends: Vec<FailingSend>,
    nexts: u64,
    sends: u64,
    faults: u64,
    send_faults: u64,
}

impl MemWire {
    /// A wire that plays these events, with space for so many entries of its log and for so many bytes of them. A `next` with
    /// one of the numbers fails, counted from 0, and so do these sends.
    pub fn with_capacity(
        alloc: Global,
        plays: Vec<Play>,
        failing_nexts: Vec<u64>,
        failing_sends: Vec<FailingSend>,
        entries: usize,
        bytes: usize,
    ) -> Result<MemWire, NoMemory>
        ensures told { IfOk result (λ wire. (⟦<MemWire as Wire>⟧.state wire).told ≡ true) }
        ensures log { IfOk result (λ wire. (⟦<MemWire as Wire>⟧.state wire).log ≡ []) }
        ensures heard { IfOk result (λ wire. (⟦<MemWire as Wire>⟧.state wire).heard ≡ []) }
        ensures faults { IfOk result (λ wire. (⟦<MemWire as Wire>⟧.state wire).faults ≡ 0) }
        ensures send_faults { IfOk result (λ wire. (⟦<MemWire as Wire>⟧.state wire).send_faults ≡ 0) }
    {
        Ok(MemWire {
            alloc,
            plays,
            at: 0,
            log: WireLog::with_capacity(alloc, entries, bytes)?,
            heard: Vec::new(alloc),
            failing_nexts,
            failing_sends,
            nexts: 0,
            sends: 0,
            faults: 0,
            send_faults: 0,
        })
    }
}

// How many bytes go out of the send with the number before it fails, if it is to fail.
fn failing_of(failing: &[FailingSend], send: u64) -> Option<u64> {
    let found = failing.iter().find(|failing| failing.send == send)?;
    Some(found.bytes)
}

// Notes an event, where there is space.
fn note(log: &mut WireLog, note: Note, event: Event, buf: &[u8]) -> Result<Event, Failed>
    requires event { is_event note ≡ true }
    requires same { entry_of note [] ≡ Heard (arrival_of event buf.now) }
    ensures event { IfOk result (λ e. e ≡ event) }
    ensures log { NextTells result buf.now log.old.scroll.log log.new.scroll.log }
{
    if log.hear(note, b"") {
        Ok(event)
    } else {
        Err(Failed)
    }
}

// Notes a piece, where there is space, and puts it at the front of the buffer.
fn note_piece(log: &mut WireLog, c: u32, bytes: &[u8], buf: &mut [u8]) -> Result<Event, Failed>
    requires { length buf.old ≡ 65536 }
    ensures fits { IfOk result (λ event. FitsBuffer event buf.new) }
    ensures log { NextTells result buf.new log.old.scroll.log log.new.scroll.log }
{
    let n = bytes.len();
    if n == 0 || n > buf.len() {
        return Err(Failed);
    }
    if !log.hear(Note::Came(c), bytes) {
        return Err(Failed);
    }
    buf[..n].copy_from_slice(bytes);
    Ok(Event::Piece(c, n))
}

// Remembers an address, and how many seconds a connection may be still there.
fn hear_address(
    alloc: Global,
    heard: &mut Vec<(Text, u32)>,
    address: &Text,
    idle: u32,
) -> Result<(), NoMemory>
    ensures ok { OnOk result (heard.new.items ≡ heard.old.items ++ (address.now, idle) ∷ []) }
    ensures err { OnErr result (heard.new.items ≡ heard.old.items) }
{
    let name = Text::from_bytes(alloc, address.as_slice())?;
    heard.push((name, idle))?;
    Ok(())
}

// Plays an event.
fn play_next(log: &mut WireLog, play: Option<&Play>, buf: &mut [u8]) -> Result<Event, Failed>
    requires { length buf.old ≡ 65536 }
    ensures fits { IfOk result (λ event. FitsBuffer event buf.new) }
    ensures log { NextTells result buf.new log.old.scroll.log log.new.scroll.log }
{
    match play {
        Some(Play::Opened(c)) => note(log, Note::Opened(*c), Event::Opened(*c), buf),
        Some(Play::Piece(c, bytes)) => note_piece(log, *c, bytes.as_slice(), buf),
        Some(Play::Closed(c)) => note(log, Note::Closed(*c), Event::Closed(*c), buf),
        None => note(log, Note::End, Event::End, buf),
    }
}

impl Wire for MemWire {
    ghost state = { λ w. record { faults = w.faults; send_faults = w.send_faults; told = true; log = w.log.scroll.log; heard = w.heard.items; plan = no_plan } };

    ghost allows = { λ store log. ⊤ };

    fn listen(&mut self, address: &Text, idle: u32) -> Result<(), Failed> {
        match hear_address(self.alloc, &mut self.heard, address, idle) {
            Ok(()) => Ok(()),
            Err(NoMemory) => {
                self.faults = self.faults.saturating_add(1);
                Err(Failed)
            }
        }
    }

    fn next<S: Store>(&mut self, _store: &S, buf: &mut [u8]) -> Result<Event, Failed> {
        let call = self.nexts;
        self.nexts = self.nexts.saturating_add(1);
        let played = if self.failing_nexts.contains(&call) {
            Err(Failed)
        } else {
            play_next(&mut self.log, self.plays.get(self.at), buf)
        };
        match played {
            Ok(event) => {
                self.at = self.at.saturating_add(1);
                Ok(event)
            }
            Err(failed) => {
                self.faults = self.faults.saturating_add(1);
                Err(failed)
            }
        }
    }

    fn send(&mut self, c: u32, piece: &[u8]) -> Result<(), Failed> {
        let failing = failing_of(&self.failing_sends, self.sends);
        self.sends = self.sends.saturating_add(1);
        if self.log.send(c, piece, failing) {
            return Ok(());
        }
        self.send_faults = self.send_faults.saturating_add(1);
        Err(Failed)
    }

    fn close(&mut self, c: u32) {
        self.log.shut(c);
    }
}
