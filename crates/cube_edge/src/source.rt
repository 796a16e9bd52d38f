// Sources of bytes outside the program.
ghost use Rattle.std.specs.Prelude.{◌≡◌, [], true, false, IfSome};
ghost use Rattle.std.proofs.Props.{props};

use cube_io::{Failed, Source};
use std::io::Read;

/// Any reader, as a source. It tells what the reader tells.
#[derive(Drop)]
pub struct ReaderSource<R: Read + Drop> {
    inner: R,
    faults: u64,
    ended: bool,
    ghost done: { ended ≡ true → IfSome (R.remaining inner) (λ bytes. bytes ≡ []) } by { Prim.hlevel props },
}

impl<R: Read + Drop> ReaderSource<R> {
    /// A source of what the reader gives from here on.
    pub fn new(inner: R) -> Self
        ensures left { (⟦<ReaderSource<R> as Source>⟧.state result).left ≡ R.remaining inner }
        ensures fresh { (⟦<ReaderSource<R> as Source>⟧.state result).ended ≡ false }
    {
        ReaderSource {
            inner,
            faults: 0,
            ended: false,
        }
    }
}

impl<R: Read + Drop> Source for ReaderSource<R> {
    ghost state = { λ s. record { left = R.remaining s.inner; ended = s.ended; faults = s.faults } };

    fn read(&mut self, buf: &mut [u8]) -> Result<usize, Failed> {
        if self.ended {
            return Ok(0);
        }
        match self.inner.read(buf) {
            Ok(count) => {
                self.ended = count == 0;
                Ok(count)
            }
            Err(_) => {
                self.faults = self.faults.saturating_add(1);
                Err(Failed)
            }
        }
    }
}
