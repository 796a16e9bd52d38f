// What a wire in memory keeps of its log, in space that was taken when it was made.
ghost use Rattle.std.specs.Prelude.{◌≡◌, ◌<◌, ◌≤◌, ◌+◌, ◌-◌, ◌++◌, [], ◌∷◌, length, map, slice_get, vec_len, vec_capacity, Some, IfOk};
ghost use Rattle.cube_io.specs.Scrolls.{entry_of};

use cube_model::NoMemory;
use std::alloc::Global;
use std::marker::Model;

/// What an entry is, but for its bytes.
#[derive(Clone, Copy, Debug, PartialEq, Eq)]
pub enum Note {
    /// A connection was opened.
    Opened(u32),
    /// Bytes came.
    Came(u32),
    /// The other side closed it.
    Closed(u32),
    /// Nothing more comes.
    End,
    /// Bytes were sent.
    Sent(u32),
    /// Bytes went out of a send that failed, which had so many.
    Torn(u32, usize),
    /// It was closed.
    Shut(u32),
}

/// An entry, whose bytes stand in a buffer from a place on.
#[derive(Clone, Copy, Debug, PartialEq, Eq)]
pub struct Written {
    pub note: Note,
    pub start: usize,
    pub len: usize,
}

/// The entries of a log, and their bytes.
#[derive(Drop)]
pub struct Scroll {
    entries: Vec<Written>,
    bytes: Vec<u8>,
    most_entries: usize,
    most_bytes: usize,
}

impl Model for Scroll {
    ghost use Rattle.cube_io.specs.Scrolls.{Roll, roll_of, IsRoomy};

    ghost Value = { Roll };

    ghost view = { λ s. roll_of s.entries.items s.bytes.items s.most_entries s.most_bytes };

    ghost invariant = { λ s. IsRoomy s.entries s.bytes s.most_entries s.most_bytes };
}

// Puts an entry at the end.
fn write(entries: &mut Vec<Written>, bytes: &mut Vec<u8>, note: Note, piece: &[u8])
    requires entries { vec_len entries.old < vec_capacity entries.old }
    requires bytes { length bytes.old.items + length piece.now ≤ vec_capacity bytes.old }
    ensures entries { entries.new.items ≡ entries.old.items ++ record { note = note; start = length bytes.old.items; len = length piece.now } ∷ [] }
    ensures bytes { bytes.new.items ≡ bytes.old.items ++ piece.now }
    ensures entries_room { vec_capacity entries.new ≡ vec_capacity entries.old }
    ensures bytes_room { vec_capacity bytes.old ≤ vec_capacity bytes.new }
{
    let start = bytes.len();
    match bytes.extend_from_slice(piece) {
        Ok(()) => {}
        Err(_) => unreachable!(),
    }
    entries.push_reserved(Written {
        note,
        start,
        len: piece.len(),
    });
}

impl Scroll {
    /// No entry, with space for so many and for so many bytes of them.
    pub fn with_capacity(alloc: Global, entries: usize, bytes: usize) -> Result<Scroll, NoMemory>
        ensures { IfOk result (λ made. (made.log ≡ []) × (made.entries_left ≡ entries) × (made.bytes_left ≡ bytes)) }
    {
        Ok(Scroll {
            entries: Vec::with_capacity(alloc, entries)?,
            bytes: Vec::with_capacity(alloc, bytes)?,
            most_entries: entries,
            most_bytes: bytes,
        })
    }

    /// Room for how many entries is left.
    pub fn entries_left(&self) -> usize
        ensures { result ≡ self.now.entries_left }
    {
        self.most_entries - self.entries.len()
    }

    /// Room for how many bytes is left.
    pub fn bytes_left(&self) -> usize
        ensures { result ≡ self.now.bytes_left }
    {
        self.most_bytes - self.bytes.len()
    }

    /// How many entries there are.
    pub fn len(&self) -> usize
        ensures { result ≡ length self.now.log }
    {
        self.entries.len()
    }

    /// The entry at a place, counted from 0, and its bytes.
    pub fn entry(&self, place: usize) -> (Note, &[u8])
        requires { place < length self.now.log }
        ensures { slice_get self.now.log place ≡ Some (entry_of result.0 result.1.now) }
    {
        let written = self.entries[place];
        let end = written.start + written.len;
        (written.note, &self.bytes[written.start..end])
    }

    /// Puts an entry at the end.
    pub fn add(&mut self, note: Note, piece: &[u8])
        requires entry { 0 < self.old.entries_left }
        requires bytes { length piece.now ≤ self.old.bytes_left }
        ensures log { self.new.log ≡ self.old.log ++ entry_of note piece.now ∷ [] }
        ensures entries { self.new.entries_left + 1 ≡ self.old.entries_left }
        ensures bytes { self.new.bytes_left + length piece.now ≡ self.old.bytes_left }
    {
        write(&mut self.entries, &mut self.bytes, note, piece);
    }
}
