// The files of the machine as a folder reads them, by its own calls. All that is said of them here is said by the machine.
ghost use Rattle.std.specs.Prelude.{◌≡◌};
ghost use Rattle.cube_edge.specs.Shelves.{silent_shelf};

use crate::shelf::Shelf;
use crate::store::counted;
use cube_model::Text;
use std::io::{ErrorKind, Read};
use std::rt::Files;
use std::{fs, io, str};

/// The files of the machine, by their paths. It tells none of them.
#[derive(Drop)]
pub struct MachineShelf<'a, R: Files> {
    rt: &'a R,
    refused: u64,
}

impl<'a, R: Files> MachineShelf<'a, R> {
    pub fn new(rt: &'a R) -> Self
        ensures { ⟦<MachineShelf<'a, R> as Shelf>⟧.state result ≡ silent_shelf 0 }
    {
        MachineShelf { rt, refused: 0 }
    }
}

// Opens a file of the machine. That the machine opens the file of this path, at its first byte, is trusted.
fn open<R: Files>(rt: &R, name: &Text) -> io::Result<R::File> {
    match str::from_utf8(name.as_slice()) {
        Ok(path) => fs::open(rt, path),
        Err(_) => Err(io::Error::from(ErrorKind::InvalidInput)),
    }
}

impl<R: Files> Shelf for MachineShelf<'_, R> {
    type File = R::File;

    ghost state = { λ s. silent_shelf s.refused };

    ghost left = { λ file. R.File.remaining file };

    fn open(&mut self, name: &Text) -> io::Result<R::File> {
        let opened = open(self.rt, name);
        counted(&mut self.refused, opened)
    }

    // That the machine gives the next bytes of the open file, and none only at its end, is trusted.
    fn read(&mut self, file: &mut R::File, buf: &mut [u8]) -> io::Result<usize> {
        let read = file.read(buf);
        counted(&mut self.refused, read)
    }
}
