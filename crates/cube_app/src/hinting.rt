// For a person who types queries: a prompt, and ahead of the reply which members a range picks, or what to write in the place of a query
// that is none.
ghost use Rattle.std.specs.Prelude.{◌≡◌};

use cube_io::{Failed, Source};
use cube_model::Dims;
use cube_notes::note_on_query;
use std::alloc::Global;
use std::cell::Cell;
use std::io::Write;

// What stands before each line that is typed.
const PROMPT: &[u8] = b"cube> ";

// What may be typed.
const HELP: &[u8] = b"cell MEASURE DIMENSION.LEVEL=MEMBER, ..     one sum
slice MEASURE by DIMENSION.LEVEL, ..        a table of sums
range MEASURE DIMENSION.LEVEL=FIRST..LAST   one sum over members in turn
witness cell ..                             the change that hides a cell
shape                                       dimensions, levels and measures
Control-D ends it
";

// What ends it.
const END: &[u8] = b"Control-D ends it\n";

/// A source over another for a person, where there are dimensions: in the notes stand a prompt for each line, which members a range in
/// it picks, and what may be typed.
#[derive(Drop)]
pub struct HintingSource<'a, I: Source + Drop, W: Write + Drop> {
    inner: I,
    alloc: Global,
    dims: Option<Dims>,
    notes: W,
    start: &'a Cell<usize>,
}

impl<'a, I: Source + Drop, W: Write + Drop> HintingSource<'a, I, W> {
    /// A source that gives what the other gives. It counts the prompt to what stands before the text of a query.
    pub fn new(
        inner: I,
        alloc: Global,
        dims: Option<Dims>,
        notes: W,
        start: &'a Cell<usize>,
    ) -> Self
        ensures { ⟦<HintingSource<'a, I, W> as Source>⟧.state result ≡ I.state inner }
    {
        HintingSource {
            inner,
            alloc,
            dims,
            notes,
            start,
        }
    }
}

// Says of a line that was typed what a person may want to know ahead of its reply.
fn hint<W: Write>(alloc: Global, dims: &Dims, piece: &[u8], notes: &mut W) {
    let Some(line) = piece.strip_suffix(b"\n") else {
        return;
    };
    if line == b"help".as_slice() || line == b"?".as_slice() {
        let _ = notes.write_all(HELP);
    } else if line == b"quit".as_slice() || line == b"exit".as_slice() {
        let _ = notes.write_all(END);
    } else if let Ok(note) = note_on_query(alloc, dims, line) {
        let _ = notes.write_all(note.as_slice());
    }
}

// Says that a line may be typed.
fn prompt<W: Write>(notes: &mut W) {
    let _ = notes.write_all(PROMPT);
}

// Behind the end of what was typed a new line begins.
fn end_line<W: Write>(notes: &mut W) {
    let _ = notes.write_all(b"\n");
}

impl<'a, I: Source + Drop, W: Write + Drop> Source for HintingSource<'a, I, W> {
    ghost state = { λ s. I.state s.inner };

    fn read(&mut self, buf: &mut [u8]) -> Result<usize, Failed> {
        if self.dims.is_some() {
            prompt(&mut self.notes);
        }
        let result = self.inner.read(buf);
        if let (Some(dims), Ok(count)) = (&self.dims, result) {
            self.start
                .set(self.start.get().saturating_add(PROMPT.len()));
            if count == 0 {
                end_line(&mut self.notes);
            } else if let Some(piece) = buf.get(..count) {
                hint(self.alloc, dims, piece, &mut self.notes);
            }
        }
        result
    }
}
