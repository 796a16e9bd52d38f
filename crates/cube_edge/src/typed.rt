// For a person who types queries: a mark under the byte at which one is wrong.
ghost use Rattle.std.specs.Prelude.{◌≡◌};

use cube_io::{Failed, Sink, Source, Store};
use std::cell::Cell;
use std::io::Write;

// What stands before the text of a cell in a line that asks for changes.
const WITNESS: &[u8] = b"witness ";

// What stands before the number of a byte in a reply.
const AT_BYTE: &[u8] = b" at byte ";

// A mark farther to the right is not written.
const WIDEST: usize = 1000;

/// A source over another that notes where, in what was read last, the text of a query begins.
#[derive(Drop)]
pub struct TypedSource<'a, I: Source + Drop> {
    inner: I,
    start: &'a Cell<usize>,
}

impl<'a, I: Source + Drop> TypedSource<'a, I> {
    /// A source that gives what the other gives.
    pub fn new(inner: I, start: &'a Cell<usize>) -> Self
        ensures { ⟦<TypedSource<'a, I> as Source>⟧.state result ≡ I.state inner }
    {
        TypedSource { inner, start }
    }
}

impl<'a, I: Source + Drop> Source for TypedSource<'a, I> {
    ghost state = { λ s. I.state s.inner };

    fn read(&mut self, buf: &mut [u8]) -> Result<usize, Failed> {
        let result = self.inner.read(buf);
        self.start.set(if buf.starts_with(WITNESS) {
            WITNESS.len()
        } else {
            0
        });
        result
    }
}

/// A sink over another, for a person at a terminal: before a reply that names a byte of the line that was just typed it writes a mark
/// under that byte to the notes.
#[derive(Drop)]
pub struct MarkingSink<'a, O: Sink + Drop, W: Write + Drop> {
    inner: O,
    notes: W,
    start: &'a Cell<usize>,
    marks: bool,
}

impl<'a, O: Sink + Drop, W: Write + Drop> MarkingSink<'a, O, W> {
    /// A sink onto the other, with marks or without any.
    pub fn new(inner: O, notes: W, start: &'a Cell<usize>, marks: bool) -> Self
        ensures { ⟦<MarkingSink<'a, O, W> as Sink>⟧.state result ≡ O.state inner }
    {
        MarkingSink {
            inner,
            notes,
            start,
            marks,
        }
    }
}

// The number that digits write, where it is no more than the widest place of a mark.
fn place_of(digits: &[u8]) -> Option<usize> {
    let mut place = 0usize;
    for digit in digits {
        if !digit.is_ascii_digit() || place > WIDEST {
            return None;
        }
        place = place * 10 + usize::from(*digit - b'0');
    }
    Some(place)
}

// The byte that the body of a reply names.
fn named_byte(body: &[u8]) -> Option<usize> {
    let line = body.strip_suffix(b"\n")?;
    let at = line
        .windows(AT_BYTE.len())
        .rposition(|part| part == AT_BYTE)?;
    place_of(line.get(at + AT_BYTE.len()..)?)
}

// The body of a reply of status 400 or 404, where a piece is one reply.
fn lone_body(piece: &[u8]) -> Option<&[u8]> {
    let rest = match piece.strip_prefix(b"400 ") {
        Some(rest) => rest,
        None => piece.strip_prefix(b"404 ")?,
    };
    let feed = rest.iter().position(|byte| *byte == b'\n')?;
    let body = rest.get(feed + 1..)?;
    if place_of(rest.get(..feed)?)? == body.len() {
        Some(body)
    } else {
        None
    }
}

// Writes the mark; where that fails there is none.
fn write_mark<W: Write>(notes: &mut W, place: usize) {
    for _ in 0..place {
        if notes.write_all(b" ").is_err() {
            return;
        }
    }
    let _ = notes.write_all(b"^\n");
}

impl<'a, O: Sink + Drop, W: Write + Drop> Sink for MarkingSink<'a, O, W> {
    ghost state = { λ s. O.state s.inner };

    ghost allows = { O.allows };

    fn put<S: Store>(&mut self, store: &S, piece: &[u8]) -> Result<(), Failed> {
        if self.marks {
            if let Some(place) = lone_body(piece).and_then(named_byte) {
                write_mark(&mut self.notes, place.saturating_add(self.start.get()));
            }
        }
        self.inner.put(store, piece)
    }
}
