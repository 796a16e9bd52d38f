// The log of a wire in memory, with space for each close and each failed send that may come.
ghost use Rattle.std.specs.Prelude.{◌≡◌, ◌<◌, ◌≤◌, length, ◌++◌, ◌∷◌, [], ℕ, List, true, false, IfOk};
ghost use Rattle.cube_io.specs.Scrolls.{entry_of, is_event, owes, owed_by};
ghost use Rattle.cube_io.specs.Wires.{IsOpen, IsSound};
ghost use Rattle.cube_io.specs.Wires.LogEntry.{Sent, Torn, Shut};

use crate::scroll::{Note, Scroll};
use cube_model::NoMemory;
use std::alloc::Global;

/// The log of a wire. So many entries are owed to connections: one for the close of each that is open, and one for the
/// failed send of each on which a send may go out.
#[derive(Drop)]
pub struct WireLog {
    scroll: Scroll,
    owed: usize,
    ghost enough: { owed_by scroll.log ≤ owed },
    ghost capacity: { owed ≤ scroll.entries_left },
}

// How many entries more are owed behind an event.
fn owes(note: Note) -> usize
    ensures { result ≡ owes note }
{
    match note {
        Note::Opened(_) => 2,
        _ => 0,
    }
}

impl WireLog {
    /// An empty log, with space for so many entries and for so many bytes of them.
    pub fn with_capacity(alloc: Global, entries: usize, bytes: usize) -> Result<WireLog, NoMemory>
        ensures { IfOk result (λ log. log.scroll.log ≡ []) }
    {
        let scroll = Scroll::with_capacity(alloc, entries, bytes)?;
        Ok(WireLog { scroll, owed: 0 })
    }

    /// Notes an event, where there is space. Tells whether it did.
    #[tactic(auto, using(crate::proofs::Scrolled::event_owes))]
    pub fn hear(&mut self, note: Note, piece: &[u8]) -> bool
        requires { is_event note ≡ true }
        ensures heard { result ≡ true → self.new.scroll.log ≡ self.old.scroll.log ++ entry_of note piece.now ∷ [] }
        ensures full { result ≡ false → self.new.scroll.log ≡ self.old.scroll.log }
    {
        let more = owes(note);
        let left = self.scroll.entries_left() - self.owed;
        if left < more + 1 || self.scroll.bytes_left() < piece.len() {
            return false;
        }
        self.scroll.add(note, piece);
        self.owed += more;
        true
    }

    /// Notes a close.
    #[tactic(auto, using(crate::proofs::Scrolled::shut_pays))]
    pub fn shut(&mut self, c: u32)
        requires { IsOpen c self.old.scroll.log }
        ensures { self.new.scroll.log ≡ self.old.scroll.log ++ Shut c ∷ [] }
    {
        self.scroll.add(Note::Shut(c), b"");
        self.owed -= 1;
    }

    /// Notes a send. It fails where there is no space, or where it is told to: then so many bytes at most go out before. Tells
    /// whether all of it went out.
    pub fn send(&mut self, c: u32, piece: &[u8], failing: Option<u64>) -> bool
        requires { IsSound c self.old.scroll.log }
        ensures sent { result ≡ true → self.new.scroll.log ≡ self.old.scroll.log ++ Sent c piece.now ∷ [] }
        ensures torn { result ≡ false → (said : List ℕ) × (unsaid : List ℕ) × (piece.now ≡ said ++ unsaid) × (self.new.scroll.log ≡ self.old.scroll.log ++ Torn c said (length piece.now) ∷ []) }
    {
        match failing {
            Some(goes) => self.tear(c, piece, goes),
            None => self.put(c, piece),
        }
    }

    // Notes a send that goes well where there is space.
    fn put(&mut self, c: u32, piece: &[u8]) -> bool
        requires { IsSound c self.old.scroll.log }
        ensures sent { result ≡ true → self.new.scroll.log ≡ self.old.scroll.log ++ Sent c piece.now ∷ [] }
        ensures torn { result ≡ false → (said : List ℕ) × (unsaid : List ℕ) × (piece.now ≡ said ++ unsaid) × (self.new.scroll.log ≡ self.old.scroll.log ++ Torn c said (length piece.now) ∷ []) }
    {
        if self.scroll.entries_left() == self.owed || self.scroll.bytes_left() < piece.len() {
            return self.tear(c, piece, 0);
        }
        self.write_sent(c, piece);
        true
    }

    // Notes a send that went well.
    #[tactic(auto, using(crate::proofs::Scrolled::sent_owes))]
    fn write_sent(&mut self, c: u32, piece: &[u8])
        requires entry { self.old.owed < self.old.scroll.entries_left }
        requires bytes { length piece.now ≤ self.old.scroll.bytes_left }
        ensures { self.new.scroll.log ≡ self.old.scroll.log ++ Sent c piece.now ∷ [] }
    {
        self.scroll.add(Note::Sent(c), piece);
    }

    // Notes a send that failed, with at most so many bytes of it.
    #[tactic(auto, using(crate::proofs::Scrolled::torn_pays))]
    fn tear(&mut self, c: u32, piece: &[u8], goes: u64) -> bool
        requires { IsSound c self.old.scroll.log }
        ensures torn { (said : List ℕ) × (unsaid : List ℕ) × (piece.now ≡ said ++ unsaid) × (self.new.scroll.log ≡ self.old.scroll.log ++ Torn c said (length piece.now) ∷ []) }
        ensures fails { result ≡ false }
    {
        let said = front(piece, goes, self.scroll.bytes_left());
        self.scroll.add(Note::Torn(c, piece.len()), said);
        self.owed -= 1;
        false
    }
}

// The first bytes of a piece, no more than either number.
fn front(piece: &[u8], goes: u64, capacity: usize) -> &[u8]
    ensures front { (unsaid : List ℕ) × (piece.now ≡ result.now ++ unsaid) }
    ensures short { length result.now ≤ capacity }
{
    if goes < piece.len() as u64 && goes <= capacity as u64 {
        &piece[..goes as usize]
    } else if piece.len() <= capacity && goes > 0 {
        piece
    } else {
        &piece[..0]
    }
}
