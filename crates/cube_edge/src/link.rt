// One connection over sockets.
ghost use Rattle.std.specs.Prelude.{◌≡◌, ◌⊎◌, List, ℕ, ◌≢◌, ◌<◌, ◌≤◌, ◌-◌, ◌++◌, ◌==◌, ◌&&◌, not, if◌then◌else◌, [], length, take, position, is_some, true, false, IsTrue, IfOk, OnOk, OnErr, Some, None, unwrap_or};
ghost use Rattle.cube_edge.specs.declared.link.Look.TheVariants as look;
ghost use Rattle.cube_edge.specs.Ends.{EndsWell, Finds, Reads, Drops, Sees, IsUnmoved};
ghost use Rattle.cube_edge.specs.Flows.{TurnTies};
ghost use Rattle.cube_edge.specs.Lines.{is_feed};
ghost use Rattle.cube_edge.specs.Links.{patience, is_late, is_there, is_open, closed_behind};
ghost use Rattle.cube_edge.specs.Sockets.{OnlyOn, Elsewhere, SameTime, LookFits, LookTells, outgoing, shut_if};

use crate::lines::{first_line, has_line};
use crate::sink::behind;
use crate::sockets::{Gone, Sockets};
use crate::waiting::Waiting;
use cube_model::NoMemory;
use std::alloc::Global;

/// How many bytes are dropped that come behind the last reply, before a connection is closed.
const MAX_DROPPED: usize = 1_048_576;

/// How long they may come, in milliseconds.
const DROPPING: u64 = 2_000;

/// How far a connection is.
#[derive(Clone, Copy, Debug, PartialEq, Eq)]
pub enum Stage {
    /// There is none.
    Free,
    /// It is open.
    Open,
    /// It is closed behind what waits.
    Closing,
    /// Nothing more is sent, and what still comes is dropped.
    Finished,
}

/// What a look at a connection gave.
#[derive(Clone, Copy, Debug, PartialEq, Eq)]
pub enum Look {
    /// Nothing.
    Quiet,
    /// So many bytes, at the front of the buffer: a line, or what there is of one.
    Piece(usize),
    /// It is no more.
    Gone,
}

/// A connection, or space for one.
#[derive(Drop)]
pub struct Link {
    pub stage: Stage,
    pub waiting: Waiting,
    /// What came and was not heard yet: no more than one read gives.
    pub unread: Waiting,
    /// Since when it is known to be still, in milliseconds: nothing was sent on it, and it took nothing. None where that is not
    /// so since the last look.
    pub still_since: Option<u64>,
    dropped: usize,
}

impl Link {
    /// A connection that is as far.
    pub fn new(alloc: Global, stage: Stage) -> Self
        ensures stage { result.stage ≡ stage }
        ensures waiting { result.waiting ≡ [] }
        ensures unread { result.unread ≡ [] }
        ensures still { result.still_since ≡ None }
    {
        Link {
            stage,
            waiting: Waiting::new(alloc),
            unread: Waiting::new(alloc),
            still_since: None,
            dropped: 0,
        }
    }

    /// Whether there is one.
    pub fn is_there(&self) -> bool
        ensures { result ≡ is_there self.now.stage }
    {
        self.stage != Stage::Free
    }

    /// Whether it is open.
    pub fn is_open(&self) -> bool
        ensures { result ≡ is_open self.now.stage }
    {
        self.stage == Stage::Open
    }

    /// Whether it was still for too long. No time is too long where `idle` is 0 milliseconds. Where it was sent something, or
    /// took some of it, since the last look, the time counts from now on.
    pub fn is_late(&mut self, now: u64, idle: u64) -> bool
        ensures late { result ≡ is_late self.old.still_since now (patience self.old.stage idle) }
        ensures since { self.new.still_since ≡ Some (unwrap_or self.old.still_since now) }
        ensures waiting { self.new.waiting ≡ self.old.waiting }
        ensures unread { self.new.unread ≡ self.old.unread }
        ensures stage { self.new.stage ≡ self.old.stage }
    {
        let limit = match self.stage {
            Stage::Free => 0,
            Stage::Open | Stage::Closing => idle,
            Stage::Finished => DROPPING,
        };
        match self.still_since {
            Some(since) => limit > 0 && now.saturating_sub(since) >= limit,
            None => {
                self.still_since = Some(now);
                false
            }
        }
    }

    /// Sends a piece: it waits behind what waits, until `push` writes it. Where there is no memory for it, or more would wait than
    /// may, nothing of it waits.
    pub fn send(&mut self, piece: &[u8]) -> Result<(), NoMemory>
        ensures ok { OnOk result (self.new.waiting ≡ self.old.waiting ++ piece.now) }
        ensures err { OnErr result (self.new.waiting ≡ self.old.waiting) }
        ensures unread { self.new.unread ≡ self.old.unread }
        ensures stage { self.new.stage ≡ self.old.stage }
        ensures still { self.new.still_since ≡ None }
    {
        self.still_since = None;
        self.waiting.add(piece)
    }

    /// Writes of what waits as much as the connection takes.
    pub fn push<S: Sockets>(&mut self, sockets: &mut S, c: u32) -> Result<(), Gone>
        ensures only { OnlyOn c (S.state sockets.old) (S.state sockets.new) }
        ensures goes { IsTrue (S.state sockets.old).told
            → outgoing c (S.state sockets.new) self.new.waiting ≡ outgoing c (S.state sockets.old) self.old.waiting }
        ensures taken { IsTrue (S.state sockets.old).told → ((S.state sockets.new).socket c).taken ≡ ((S.state sockets.old).socket c).taken }
        ensures gone { IsTrue (S.state sockets.old).told → OnErr result (((S.state sockets.new).socket c).gone ≡ true) }
        ensures shut { IsTrue (S.state sockets.old).told → ((S.state sockets.new).socket c).shut ≡ ((S.state sockets.old).socket c).shut }
        ensures none { self.old.waiting ≡ [] → self.new.waiting ≡ [] }
        ensures unread { self.new.unread ≡ self.old.unread }
        ensures moved { self.new.waiting ≢ self.old.waiting → self.new.still_since ≡ None }
        ensures still { (self.new.still_since ≡ None) ⊎ (self.new.still_since ≡ self.old.still_since) }
        ensures stage { self.new.stage ≡ self.old.stage }
    {
        if self.waiting.is_empty() {
            return Ok(());
        }
        let count = sockets.write(c, self.waiting.as_slice())?;
        if count > 0 {
            self.waiting.shorten(count);
            self.still_since = None;
        }
        Ok(())
    }

    /// Writes of what waits as much as the connection takes. Where it is closed, and nothing waits then, the other side is told at
    /// once that nothing more is written.
    pub fn flush<S: Sockets>(&mut self, sockets: &mut S, c: u32) -> Result<(), Gone>
        ensures only { OnlyOn c (S.state sockets.old) (S.state sockets.new) }
        ensures goes { IsTrue (S.state sockets.old).told
            → outgoing c (S.state sockets.new) self.new.waiting ≡ outgoing c (S.state sockets.old) self.old.waiting }
        ensures taken { IsTrue (S.state sockets.old).told → ((S.state sockets.new).socket c).taken ≡ ((S.state sockets.old).socket c).taken }
        ensures gone { IsTrue (S.state sockets.old).told → OnErr result (((S.state sockets.new).socket c).gone ≡ true) }
        ensures ends { IsTrue (S.state sockets.old).told → EndsWell c (S.state sockets.old) self.old (S.state sockets.new) self.new }
        ensures unread { is_open self.old.stage ≡ true → self.new.unread ≡ self.old.unread }
        ensures still { IsUnmoved self.old self.new }
        ensures there { is_there self.new.stage ≡ is_there self.old.stage }
        ensures opens { is_open self.new.stage ≡ is_open self.old.stage }
    {
        match self.stage {
            Stage::Open => self.push(sockets, c),
            Stage::Closing => {
                let pushed = self.push(sockets, c);
                self.close(sockets, c);
                pushed
            }
            Stage::Free | Stage::Finished => Ok(()),
        }
    }

    /// Whether a line of what is unread ends.
    pub fn has_line(&self) -> bool
        ensures { result ≡ is_some (position is_feed self.now.unread) }
    {
        has_line(self.unread.as_slice())
    }

    /// Whether it has unread bytes that it gives at its turn: none waits to be sent.
    pub fn has_piece(&self) -> bool
        ensures { result ≡ (length self.now.waiting == 0) && not (length self.now.unread == 0) }
    {
        self.waiting.is_empty() && !self.unread.is_empty()
    }

    // Puts the first line of what is unread at the front of the buffer. Tells how many bytes it has.
    fn give(&mut self, buf: &mut [u8]) -> usize
        requires some { 0 < length self.old.unread }
        requires buf { 0 < length buf.old }
        ensures size { length buf.new ≡ length buf.old }
        ensures fits { LookFits (look.Piece result) buf.new }
        ensures unread { self.old.unread ≡ take result buf.new ++ self.new.unread }
        ensures waiting { self.new.waiting ≡ self.old.waiting }
        ensures still { self.new.still_since ≡ self.old.still_since }
        ensures stage { self.new.stage ≡ self.old.stage }
    {
        let line = first_line(self.unread.as_slice(), buf.len());
        let count = line.len();
        buf[..count].copy_from_slice(line);
        self.unread.shorten(count);
        count
    }

    // Keeps what stands behind the first line of what came. Tells how many bytes that has.
    fn keep(&mut self, came: &[u8]) -> Result<usize, NoMemory>
        requires some { 0 < length came.now }
        requires none { self.old.unread ≡ [] }
        ensures fits { IfOk result (λ n. LookFits (look.Piece n) came.now) }
        ensures unread { IfOk result (λ n. came.now ≡ take n came.now ++ self.new.unread) }
        ensures waiting { self.new.waiting ≡ self.old.waiting }
        ensures still { self.new.still_since ≡ self.old.still_since }
        ensures stage { self.new.stage ≡ self.old.stage }
    {
        let count = first_line(came, came.len()).len();
        match self.unread.add(behind(came, count)) {
            Ok(()) => Ok(count),
            Err(NoMemory) => Err(NoMemory),
        }
    }

    // Reads what is there, gives the first line of it, and keeps the rest. Where there is no memory for that, it is no more.
    fn fetch<S: Sockets>(&mut self, sockets: &mut S, c: u32, buf: &mut [u8]) -> Look
        requires buf { 0 < length buf.old }
        requires none { self.old.unread ≡ [] }
        ensures size { length buf.new ≡ length buf.old }
        ensures only { OnlyOn c (S.state sockets.old) (S.state sockets.new) }
        ensures fits { LookFits result buf.new }
        ensures hears { IsTrue (S.state sockets.old).told → LookTells c result buf.new (S.state sockets.old) self.old.unread (S.state sockets.new) self.new.unread }
        ensures sees { IsTrue (S.state sockets.old).told → Reads c result (S.state sockets.old) (S.state sockets.new) }
        ensures waiting { self.new.waiting ≡ self.old.waiting }
        ensures still { self.new.still_since ≡ self.old.still_since }
        ensures stage { self.new.stage ≡ self.old.stage }
    {
        match sockets.read(c, buf) {
            Ok(Some(count)) => match self.keep(&buf[..count]) {
                Ok(line) => Look::Piece(line),
                Err(NoMemory) => Look::Gone,
            },
            Ok(None) => Look::Quiet,
            Err(Gone) => Look::Gone,
        }
    }

    // The next line: of what is unread where something is, and else of what is there.
    fn next_line<S: Sockets>(&mut self, sockets: &mut S, c: u32, buf: &mut [u8]) -> Look
        requires { 0 < length buf.old }
        ensures size { length buf.new ≡ length buf.old }
        ensures only { OnlyOn c (S.state sockets.old) (S.state sockets.new) }
        ensures fits { LookFits result buf.new }
        ensures hears { IsTrue (S.state sockets.old).told → LookTells c result buf.new (S.state sockets.old) self.old.unread (S.state sockets.new) self.new.unread }
        ensures sees { IsTrue (S.state sockets.old).told → Reads c result (S.state sockets.old) (S.state sockets.new) }
        ensures waiting { self.new.waiting ≡ self.old.waiting }
        ensures still { self.new.still_since ≡ self.old.still_since }
        ensures stage { self.new.stage ≡ self.old.stage }
    {
        if self.unread.is_empty() {
            return self.fetch(sockets, c, buf);
        }
        Look::Piece(self.give(buf))
    }

    // Writes what waits, and gives the next line where nothing does.
    fn hear<S: Sockets>(&mut self, sockets: &mut S, c: u32, buf: &mut [u8]) -> Look
        requires buf { 0 < length buf.old }
        requires opens { is_open self.old.stage ≡ true }
        ensures size { length buf.new ≡ length buf.old }
        ensures only { OnlyOn c (S.state sockets.old) (S.state sockets.new) }
        ensures fits { LookFits result buf.new }
        ensures hears { IsTrue (S.state sockets.old).told → LookTells c result buf.new (S.state sockets.old) self.old.unread (S.state sockets.new) self.new.unread }
        ensures goes { IsTrue (S.state sockets.old).told
            → outgoing c (S.state sockets.new) self.new.waiting ≡ outgoing c (S.state sockets.old) self.old.waiting }
        ensures sees { IsTrue (S.state sockets.old).told → Sees c result (S.state sockets.old) self.old (S.state sockets.new) self.new }
        ensures ends { IsTrue (S.state sockets.old).told → EndsWell c (S.state sockets.old) self.old (S.state sockets.new) self.new }
        ensures moved { self.new.waiting ≢ self.old.waiting → self.new.still_since ≡ None }
        ensures still { IsUnmoved self.old self.new }
        ensures stage { self.new.stage ≡ self.old.stage }
    {
        if self.push(sockets, c).is_err() {
            return Look::Gone;
        }
        if !self.waiting.is_empty() {
            return Look::Quiet;
        }
        self.next_line(sockets, c, buf)
    }

    /// Closes it behind what waits; where nothing does, the other side is told that nothing more is written. What is unread is dropped.
    pub fn close<S: Sockets>(&mut self, sockets: &mut S, c: u32)
        ensures only { OnlyOn c (S.state sockets.old) (S.state sockets.new) }
        ensures shut { IsTrue (S.state sockets.old).told → (S.state sockets.new).socket c ≡ shut_if (length self.old.waiting == 0) ((S.state sockets.old).socket c) }
        ensures still { (self.new.still_since ≡ None) ⊎ ((self.new.still_since ≡ self.old.still_since) × (0 < length self.old.waiting)) }
        ensures waiting { self.new.waiting ≡ self.old.waiting }
        ensures unread { self.new.unread ≡ [] }
        ensures stage { self.new.stage ≡ closed_behind self.old.waiting }
    {
        self.unread.clear();
        self.stage = Stage::Closing;
        if self.waiting.is_empty() {
            sockets.finish(c);
            self.stage = Stage::Finished;
            self.still_since = None;
        }
    }

    // Drops what comes, until it was too much. It is no more where nothing waits and nothing comes, or too much came.
    fn drop_bytes<S: Sockets>(&mut self, sockets: &mut S, c: u32, buf: &mut [u8]) -> Look
        requires { 0 < length buf.old }
        ensures size { length buf.new ≡ length buf.old }
        ensures only { OnlyOn c (S.state sockets.old) (S.state sockets.new) }
        ensures sees { IsTrue (S.state sockets.old).told → Drops c result (S.state sockets.old) self.old.waiting (S.state sockets.new) }
        ensures none { (bytes : List ℕ) → LookFits result bytes }
        ensures waiting { self.new.waiting ≡ self.old.waiting }
        ensures still { self.new.still_since ≡ self.old.still_since }
        ensures stage { self.new.stage ≡ self.old.stage }
    {
        if self.dropped > MAX_DROPPED {
            return self.look_waiting();
        }
        match sockets.read(c, buf) {
            Ok(Some(count)) => {
                self.dropped = self.dropped.saturating_add(count);
                Look::Quiet
            }
            Ok(None) => Look::Quiet,
            Err(Gone) => self.look_waiting(),
        }
    }

    // It is no more where nothing waits.
    fn look_waiting(&self) -> Look
        ensures { result ≡ (if length self.now.waiting == 0 then look.Gone else look.Quiet) }
    {
        if self.waiting.is_empty() {
            Look::Gone
        } else {
            Look::Quiet
        }
    }

    // Writes what waits, tells the other side behind it that nothing more is written, and drops what comes.
    fn wind_up<S: Sockets>(&mut self, sockets: &mut S, c: u32, buf: &mut [u8]) -> Look
        requires buf { 0 < length buf.old }
        requires closed { is_open self.old.stage ≡ false }
        ensures size { length buf.new ≡ length buf.old }
        ensures only { OnlyOn c (S.state sockets.old) (S.state sockets.new) }
        ensures goes { IsTrue (S.state sockets.old).told
            → outgoing c (S.state sockets.new) self.new.waiting ≡ outgoing c (S.state sockets.old) self.old.waiting }
        ensures sees { IsTrue (S.state sockets.old).told → Sees c result (S.state sockets.old) self.old (S.state sockets.new) self.new }
        ensures ends { IsTrue (S.state sockets.old).told → EndsWell c (S.state sockets.old) self.old (S.state sockets.new) self.new }
        ensures none { (bytes : List ℕ) → LookFits result bytes }
        ensures still { IsUnmoved self.old self.new }
        ensures there { is_there self.new.stage ≡ is_there self.old.stage }
        ensures opens { is_open self.new.stage ≡ false }
    {
        if self.flush(sockets, c).is_err() {
            return Look::Gone;
        }
        self.drop_bytes(sockets, c, buf)
    }

    /// Writes what waits. An open connection gives its next line where nothing waits, and of another what comes is dropped.
    pub fn visit<S: Sockets>(&mut self, sockets: &mut S, c: u32, buf: &mut [u8]) -> Look
        requires { 0 < length buf.old }
        ensures size { length buf.new ≡ length buf.old }
        ensures only { OnlyOn c (S.state sockets.old) (S.state sockets.new) }
        ensures fits { LookFits result buf.new }
        ensures goes { IsTrue (S.state sockets.old).told
            → outgoing c (S.state sockets.new) self.new.waiting ≡ outgoing c (S.state sockets.old) self.old.waiting }
        ensures hears { IsTrue (S.state sockets.old).told → is_open self.old.stage ≡ true
            → LookTells c result buf.new (S.state sockets.old) self.old.unread (S.state sockets.new) self.new.unread }
        ensures sees { IsTrue (S.state sockets.old).told → Sees c result (S.state sockets.old) self.old (S.state sockets.new) self.new }
        ensures ends { IsTrue (S.state sockets.old).told → EndsWell c (S.state sockets.old) self.old (S.state sockets.new) self.new }
        ensures none { is_open self.old.stage ≡ false → (bytes : List ℕ) → LookFits result bytes }
        ensures still { IsUnmoved self.old self.new }
        ensures there { is_there self.new.stage ≡ is_there self.old.stage }
        ensures opens { is_open self.new.stage ≡ is_open self.old.stage }
    {
        match self.stage {
            Stage::Free => Look::Quiet,
            Stage::Open => self.hear(sockets, c, buf),
            Stage::Closing | Stage::Finished => self.wind_up(sockets, c, buf),
        }
    }

    /// Looks at it, and lets it go where it is at its end or was still for too long; `now` is the time that the sockets told last.
    pub fn turn<S: Sockets>(
        &mut self,
        alloc: Global,
        sockets: &mut S,
        c: u32,
        buf: &mut [u8],
        now: u64,
        idle: u64,
    ) -> Look
        requires buf { 0 < length buf.old }
        requires clock { IsTrue (S.state sockets.old).told → now ≡ (S.state sockets.old).clock }
        ensures size { length buf.new ≡ length buf.old }
        ensures fits { LookFits result buf.new }
        ensures faults { (S.state sockets.new).faults ≡ (S.state sockets.old).faults }
        ensures told { (S.state sockets.new).told ≡ (S.state sockets.old).told }
        ensures time { SameTime (S.state sockets.old) (S.state sockets.new) }
        ensures finds { IsTrue (S.state sockets.old).told → Finds c idle result (S.state sockets.old) self.old (S.state sockets.new) self.new }
        ensures others { IsTrue (S.state sockets.old).told → Elsewhere c (S.state sockets.old) (S.state sockets.new) }
        ensures ties { IsTrue (S.state sockets.old).told → TurnTies c result buf.new (S.state sockets.old) self.old (S.state sockets.new) self.new }
    {
        match self.visit(sockets, c, buf) {
            Look::Piece(count) => return Look::Piece(count),
            Look::Quiet if !self.is_late(now, idle) => return Look::Quiet,
            Look::Quiet | Look::Gone => {}
        }
        *self = Link::new(alloc, Stage::Free);
        sockets.close(c);
        Look::Gone
    }
}
