// A watch that keeps in memory what it is told of.
ghost use Rattle.std.specs.Prelude.{◌≡◌, ◌<◌, ◌≤◌, ◌+◌, ◌++◌, ◌∷◌, [], true, nat_le, length, if◌then◌else◌, IfOk};
ghost use Rattle.cube_io.specs.Causes.{Rose};
ghost use Rattle.cube_io.specs.Scrolls.{entry_of, is_event, owes, owed_by};

use crate::watch::Watch;
use cube_io::{Event, Failed, Note, Scroll};
use cube_model::{NoMemory, Text};
use std::alloc::Global;

/// A watch that keeps the log in memory, in space that is taken when it is made, and tells it. Entries are free
/// that are owed to no connection: one is owed to each that is open, for its close, and one to each on which a send may go out, for
/// one that fails.
#[derive(Drop)]
pub struct MemWatch {
    alloc: Global,
    scroll: Scroll,
    free: usize,
    heard: Vec<(Text, u32)>,
    faults: u64,
    ghost owing: { owed_by scroll.log + free ≤ scroll.entries_left },
}

impl MemWatch {
    /// An empty log, with space for so many entries and for so many bytes of them.
    pub fn with_capacity(alloc: Global, entries: usize, bytes: usize) -> Result<MemWatch, NoMemory>
        ensures told { IfOk result (λ watch. (⟦<MemWatch as Watch>⟧.state watch).told ≡ true) }
        ensures log { IfOk result (λ watch. (⟦<MemWatch as Watch>⟧.state watch).log ≡ []) }
        ensures heard { IfOk result (λ watch. (⟦<MemWatch as Watch>⟧.state watch).heard ≡ []) }
    {
        Ok(MemWatch {
            alloc,
            scroll: Scroll::with_capacity(alloc, entries, bytes)?,
            free: entries,
            heard: Vec::new(alloc),
            faults: 0,
        })
    }

    /// The log.
    pub fn scroll(&self) -> &Scroll
        ensures { result.now ≡ self.now.scroll }
    {
        &self.scroll
    }

    // Counts a fault.
    fn fail(&mut self) -> Failed
        ensures later { self.old.faults ≤ self.new.faults }
        ensures rose { Rose self.old.faults self.new.faults }
        ensures log { self.new.scroll ≡ self.old.scroll }
        ensures heard { self.new.heard ≡ self.old.heard }
    {
        self.faults = self.faults.saturating_add(1);
        Failed
    }

    // Notes an event.
    #[tactic(auto, using(cube_io::proofs::Scrolled::event_owes))]
    fn note(&mut self, note: Note, more: usize, piece: &[u8])
        requires event { is_event note ≡ true }
        requires owes { owes note ≡ more }
        requires entries { more < self.old.free }
        requires bytes { length piece.now ≤ self.old.scroll.bytes_left }
        ensures log { self.new.scroll.log ≡ self.old.scroll.log ++ entry_of note piece.now ∷ [] }
        ensures heard { self.new.heard ≡ self.old.heard }
        ensures faults { self.new.faults ≡ self.old.faults }
    {
        self.scroll.add(note, piece);
        self.free -= more + 1;
    }
}

impl Watch for MemWatch {
    ghost state = { λ w. record { faults = w.faults; told = true; log = w.scroll.log; heard = w.heard.items; capacity = (if nat_le 3 w.free then w.scroll.bytes_left + 1 else 0) } };

    fn takes(&self, len: usize) -> bool {
        self.free >= 3 && len <= self.scroll.bytes_left()
    }

    fn expect_event(&mut self, len: usize) -> Result<(), Failed> {
        if self.takes(len) {
            Ok(())
        } else {
            Err(self.fail())
        }
    }

    fn listen(&mut self, address: &Text, idle: u32) -> Result<(), Failed> {
        let name = match Text::from_bytes(self.alloc, address.as_slice()) {
            Ok(name) => name,
            Err(_) => return Err(self.fail()),
        };
        match self.heard.push((name, idle)) {
            Ok(()) => Ok(()),
            Err(_) => Err(self.fail()),
        }
    }

    fn hear(&mut self, event: Event, buf: &[u8]) {
        match event {
            Event::Opened(c) => self.note(Note::Opened(c), 2, b""),
            Event::Piece(c, n) => self.note(Note::Came(c), 0, &buf[..n]),
            Event::Closed(c) => self.note(Note::Closed(c), 0, b""),
            Event::End => self.note(Note::End, 0, b""),
        }
    }

    #[tactic(auto, using(cube_io::proofs::Scrolled::sent_owes))]
    fn sent(&mut self, c: u32, piece: &[u8]) {
        self.scroll.add(Note::Sent(c), piece);
        self.free -= 1;
    }

    #[tactic(auto, using(cube_io::proofs::Scrolled::torn_pays))]
    fn torn(&mut self, c: u32, said: &[u8], len: usize) {
        self.scroll.add(Note::Torn(c, len), said);
    }

    #[tactic(auto, using(cube_io::proofs::Scrolled::shut_pays))]
    fn shut(&mut self, c: u32) {
        self.scroll.add(Note::Shut(c), b"");
    }
}
