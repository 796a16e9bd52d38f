// Sinks of bytes outside the program.
ghost use Rattle.std.specs.Prelude.{◌≡◌, ◌≤◌, ⊤, length, drop};
ghost use Rattle.std.specs.Io.{WritesAtMost};
ghost use Rattle.std.specs.Io.KnownBytes.{WriteAppends};
ghost use Rattle.cube_io.specs.Content.{PutAppends};

use cube_io::{Failed, Sink, Store};
use std::io;
use std::io::{ErrorKind, Write};

/// Any writer, as a sink. It tells what the writer tells.
#[derive(Drop)]
pub struct WriterSink<W: Write + Drop> {
    inner: W,
    faults: u64,
}

impl<W: Write + Drop> WriterSink<W> {
    /// A sink onto the writer.
    pub fn new(inner: W) -> Self
        ensures { (⟦<WriterSink<W> as Sink>⟧.state result).written ≡ W.contents inner }
    {
        WriterSink { inner, faults: 0 }
    }
}

// Writes a front of the bytes, and says how many: none where the call was interrupted.
pub(crate) fn write_some<W: Write>(out: &mut W, bytes: &[u8]) -> io::Result<usize>
    ensures bound { WritesAtMost result bytes.now }
    ensures bytes { WriteAppends (W.contents out.old) (W.contents out.new) result bytes.now }
{
    match out.write(bytes) {
        Ok(0) => Err(io::Error::from(ErrorKind::WriteZero)),
        Ok(count) => Ok(count),
        Err(error) if error.kind() == ErrorKind::Interrupted => Ok(0),
        Err(error) => Err(error),
    }
}

// What stands behind so many bytes.
pub(crate) fn behind(bytes: &[u8], count: usize) -> &[u8]
    requires { count ≤ length bytes.now }
    ensures { result.now ≡ drop count bytes.now }
{
    &bytes[count..]
}

// Writes all of the piece, or a front of it where that fails.
fn write_whole<W: Write>(out: &mut W, piece: &[u8]) -> Result<(), Failed>
    ensures { PutAppends (W.contents out.old) (W.contents out.new) result piece.now }
{
    let mut rest = piece;
    'writes: for _ in 0..u64::MAX {
        if rest.is_empty() {
            return Ok(());
        }
        let Ok(count) = write_some(out, rest) else {
            return Err(Failed);
        };
        rest = behind(rest, count);
    }
    Err(Failed)
}

impl<W: Write + Drop> Sink for WriterSink<W> {
    ghost state = { λ s. record { written = W.contents s.inner; faults = s.faults; loose = 0 } };

    ghost allows = { λ store bytes piece. ⊤ };

    fn put<S: Store>(&mut self, _store: &S, piece: &[u8]) -> Result<(), Failed> {
        if piece.is_empty() {
            return Ok(());
        }
        let result = write_whole(&mut self.inner, piece);
        if result.is_err() {
            self.faults = self.faults.saturating_add(1);
        }
        result
    }
}
