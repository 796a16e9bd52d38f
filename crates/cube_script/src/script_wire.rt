// A wire that plays a script.
ghost use Rattle.std.specs.Prelude.{◌≡◌, ◌<◌, ◌+◌, ◌-◌, ◌^◌, ◌++◌, ◌∷◌, [], ◌↔◌, ⊤, true, false, min, length, is_ok, is_err, Some, None, Ok, IsTrue, IfOk, OnOk, OnErr, MatchResult};
ghost use Rattle.std.specs.Io.KnownBytes.{Appends};
ghost use Rattle.cube_model.specs.Answers.{Answers};
ghost use Rattle.cube_io.specs.Causes.{HasCause};
ghost use Rattle.cube_io.specs.Content.{AppendsPrefix};
ghost use Rattle.cube_io.specs.Told.{ListensOn};
ghost use Rattle.cube_io.specs.Wires.{FitsBuffer, IsOpen, IsSound, SendTells, NextTells, arrival_of, render, events_in};
ghost use Rattle.cube_io.specs.Wires.LogEntry.{Heard, Sent, Torn, Shut};
ghost use Rattle.cube_script.specs.Playing.{Playing, IsPlaying, IsFresh, started, has_torn, next_of, is_refused, has_capacity_for};
ghost use Rattle.cube_script.specs.Scripts.{script_of};
ghost use Rattle.cube_script.specs.declared.play.ScriptFault.TheVariants.{NoMemory};

use crate::capacity::{capacity_for, entries_owed, next_play, play_event};
use crate::play::{Play, ScriptFault};
use crate::read::read_script;
use crate::render::put_log;
use cube_io::{Event, Failed, Note, Scroll, Sink, Store, Wire};
use cube_model::Text;
use std::alloc::Global;
use std::marker::Model;

/// The most sends that go well.
pub const MAX_SENDS: usize = 4_194_304;

/// The most bytes of all sends that go well.
pub const MAX_SENT_BYTES: usize = 268_435_456;

/// Room for sends that go well.
#[derive(Clone, Copy, Debug, PartialEq, Eq)]
pub struct SendCapacity {
    /// How many of them.
    pub sends: usize,
    /// How many bytes of them all.
    pub bytes: usize,
}

// Room for how many addresses, and for how many bytes of them.
const ADDRESSES: usize = 8;

const ADDRESS_BYTES: usize = 1_024;

/// A wire that plays a script: its events in order, and then once the end. It tells its log, and keeps all of it in space that is
/// taken when it is made.
///
/// A send that would pass the space for sends fails, and no other does that is the first to fail. Nothing of it goes out; the log says
/// how long its piece was. Behind it every send and every `next` fails. A `next` behind the end fails too, and so does a `listen` at a
/// ninth address, or at more than 1,024 bytes of addresses. There is always space for a close.
#[derive(Drop)]
pub struct ScriptWire {
    plays: Vec<Play>,
    at: usize,
    scroll: Scroll,
    owed: usize,
    left: SendCapacity,
    most: SendCapacity,
    overrun: bool,
    addresses: Scroll,
    spilled: bool,
    faults: u64,
    send_faults: u64,
}

impl Model for ScriptWire {
    ghost use Rattle.std.specs.Prelude.{map};
    ghost use Rattle.cube_script.specs.Playing.{Playing};
    ghost use Rattle.cube_script.specs.Plays.{played};
    ghost use Rattle.cube_script.specs.Capacity.{IsReady, IsListening, address_in};

    ghost Value = { Playing };

    ghost view = { λ w. record { script = map played w.plays.items; log = w.scroll.log; heard = map address_in w.addresses.log; most = w.most; spilled = w.spilled; faults = w.faults; send_faults = w.send_faults } };

    ghost invariant = { λ w. IsReady (map played w.plays.items) (record { taken = w.at; roll = w.scroll; owed = w.owed; left = w.left; most = w.most; overrun = w.overrun; spilled = w.spilled; faults = w.faults; send_faults = w.send_faults }) × IsListening w.addresses };
}

impl ScriptWire {
    /// The wire that plays a script, or the first line that is refused. A script has the lines `open C`, `data C HEX` and
    /// `close C`, each ended by a line feed, with single spaces: C is a number below 2^32 in decimal digits without leading
    /// zeros, and HEX an even number of hexadecimal digits in either case, for 1 to 65,536 bytes.
    pub fn new(alloc: Global, script: &Text) -> Result<ScriptWire, ScriptFault>
        ensures plays { Answers NoMemory result (started (script_of script.now) (record { sends = MAX_SENDS; bytes = MAX_SENT_BYTES })) }
        ensures fresh { IfOk result (λ wire. IsFresh (⟦<ScriptWire as Wire>⟧.state wire)) }
    {
        let most = SendCapacity {
            sends: MAX_SENDS,
            bytes: MAX_SENT_BYTES,
        };
        ScriptWire::with_capacity(alloc, script, most)
    }

    /// The same wire, with this space for sends.
    pub fn with_capacity(
        alloc: Global,
        script: &Text,
        most: SendCapacity,
    ) -> Result<ScriptWire, ScriptFault>
        ensures plays { Answers NoMemory result (started (script_of script.now) most) }
        ensures fresh { IfOk result (λ wire. IsFresh (⟦<ScriptWire as Wire>⟧.state wire)) }
    {
        let mut plays = read_script(alloc, script.as_slice())?;
        plays.push(Play::End)?;
        let Some((events, pieces)) = capacity_for(&plays) else {
            return Err(ScriptFault::NoMemory);
        };
        let Some(entries) = events.checked_add(most.sends) else {
            return Err(ScriptFault::NoMemory);
        };
        let Some(capacity) = pieces.checked_add(most.bytes) else {
            return Err(ScriptFault::NoMemory);
        };
        Ok(ScriptWire {
            plays,
            at: 0,
            scroll: Scroll::with_capacity(alloc, entries, capacity)?,
            owed: 0,
            left: most,
            most,
            overrun: false,
            addresses: Scroll::with_capacity(alloc, ADDRESSES, ADDRESS_BYTES)?,
            spilled: false,
            faults: 0,
            send_faults: 0,
        })
    }

    /// How many events were taken, the end among them.
    pub fn taken(&self) -> u64
        ensures taken { result ≡ length (events_in self.now.log) }
        ensures playing { IsPlaying self.now }
    {
        self.at as u64
    }

    /// Whether a send failed.
    pub fn overrun(&self) -> bool
        ensures overrun { result ≡ has_torn self.now.log }
        ensures failed { IsTrue result ↔ (0 < self.now.send_faults) }
        ensures playing { IsPlaying self.now }
    {
        self.overrun
    }

    /// Puts the text of the log: `sent C N` and a line feed, the N bytes and a line feed for each send that went well, and
    /// `shut C` and a line feed for each close. After a put that failed it puts nothing more.
    pub fn write_log<O: Sink>(&self, out: &mut O) -> Result<(), Failed>
        ensures ok { OnOk result (Appends (O.state out.old).written (O.state out.new).written (render self.now.log)) }
        ensures err { OnErr result (AppendsPrefix (O.state out.old).written (O.state out.new).written (render self.now.log)) }
        ensures cause { HasCause (O.state out.old).faults (O.state out.new).faults result }
    {
        put_log(&self.scroll, out)
    }
}

impl Wire for ScriptWire {
    ghost state = { λ w. record { faults = w.faults; send_faults = w.send_faults; told = true; log = w.log; heard = w.heard; plan = record { events = w.script; sends = w.most.sends; bytes = w.most.bytes; refused = w.spilled } } };

    ghost allows = { λ store log. ⊤ };

    fn listen(&mut self, address: &Text, idle: u32) -> Result<(), Failed>
        ensures cause { HasCause self.old.faults self.new.faults result }
        ensures sends { self.new.send_faults ≡ self.old.send_faults }
        ensures log { self.new.log ≡ self.old.log }
        ensures heard { ListensOn result self.old.heard self.new.heard address.now idle }
        ensures capacity { is_ok result ≡ has_capacity_for self.old address.now }
        ensures ok { OnOk result (self.new ≡ record self.old { heard = self.old.heard ++ (address.now, idle) ∷ [] }) }
        ensures err { OnErr result (self.new ≡ record self.old { spilled = true; faults = min (self.old.faults + 1) (2 ^ 64 - 1) }) }
    {
        let name = address.as_slice();
        if self.addresses.entries_left() == 0 || self.addresses.bytes_left() < name.len() {
            self.spilled = true;
            self.faults = self.faults.saturating_add(1);
            return Err(Failed);
        }
        self.addresses.add(Note::Came(idle), name);
        Ok(())
    }

    fn next<S: Store>(&mut self, _store: &S, buf: &mut [u8]) -> Result<Event, Failed>
        requires { length buf.old ≡ 65536 }
        ensures cause { HasCause self.old.faults self.new.faults result }
        ensures sends { self.new.send_faults ≡ self.old.send_faults }
        ensures fits { IfOk result (λ event. FitsBuffer event buf.new) }
        ensures log { NextTells result buf.new self.old.log self.new.log }
        ensures heard { self.new.heard ≡ self.old.heard }
        ensures plays { MatchResult result (λ event. next_of self.old ≡ Some (arrival_of event buf.new)) (λ _. next_of self.old ≡ None) }
        ensures ok { IfOk result (λ event. self.new ≡ record self.old { log = self.old.log ++ Heard (arrival_of event buf.new) ∷ [] }) }
        ensures err { OnErr result (self.new ≡ record self.old { faults = min (self.old.faults + 1) (2 ^ 64 - 1) }) }
    {
        match next_play(&self.plays, self.at, self.overrun) {
            Some(play) => {
                let event = play_event(&mut self.scroll, play, buf);
                self.owed += entries_owed(play);
                self.at += 1;
                Ok(event)
            }
            None => {
                self.faults = self.faults.saturating_add(1);
                Err(Failed)
            }
        }
    }

    fn send(&mut self, c: u32, piece: &[u8]) -> Result<(), Failed>
        requires { IsSound c self.old.log }
        ensures cause { HasCause self.old.send_faults self.new.send_faults result }
        ensures faults { self.new.faults ≡ self.old.faults }
        ensures log { SendTells c piece.now result self.old.log self.new.log }
        ensures heard { self.new.heard ≡ self.old.heard }
        ensures refused { is_err result ≡ is_refused self.old piece.now }
        ensures ok { OnOk result (self.new ≡ record self.old { log = self.old.log ++ Sent c piece.now ∷ [] }) }
        ensures err { OnErr result (self.new ≡ record self.old { log = self.old.log ++ Torn c [] (length piece.now) ∷ []; send_faults = min (self.old.send_faults + 1) (2 ^ 64 - 1) }) }
    {
        if self.overrun || self.left.sends == 0 || self.left.bytes < piece.len() {
            self.scroll.add(Note::Torn(c, piece.len()), b"");
            self.owed -= 1;
            self.overrun = true;
            self.send_faults = self.send_faults.saturating_add(1);
            return Err(Failed);
        }
        self.scroll.add(Note::Sent(c), piece);
        self.left.sends -= 1;
        self.left.bytes -= piece.len();
        Ok(())
    }

    fn close(&mut self, c: u32)
        requires { IsOpen c self.old.log }
        ensures faults { self.new.faults ≡ self.old.faults }
        ensures sends { self.new.send_faults ≡ self.old.send_faults }
        ensures log { self.new.log ≡ self.old.log ++ Shut c ∷ [] }
        ensures heard { self.new.heard ≡ self.old.heard }
        ensures same { self.new ≡ record self.old { log = self.old.log ++ Shut c ∷ [] } }
    {
        self.scroll.add(Note::Shut(c), b"");
        self.owed -= 1;
    }
}
