// The files of a shelf.
ghost use Rattle.std.specs.Prelude.{◌≡◌, ◌<◌, ◌≤◌, length, IfOk, IfSome, Err};
ghost use Rattle.std.specs.Io.KnownBytes.{Consumes, IsAtEnd};
ghost use Rattle.cube_io.specs.Causes.{ReadCause};
ghost use Rattle.cube_io.specs.Files.{max_file, file_of, GivesFile};
ghost use Rattle.cube_io.specs.declared.faults.ReadFault.TheVariants as faults;
ghost use Rattle.cube_edge.specs.Shelves.{folder_over};

use crate::machine_shelf::MachineShelf;
use crate::shelf::Shelf;
use cube_io::{Folder, MAX_FILE, ReadFault};
use cube_model::Text;
use std::alloc::Global;
use std::io::Write;
use std::rt::Files;
use std::{io, str};

/// The files of a shelf. It tells what the shelf tells of them, and fails where the shelf refuses. Its notes say why a file was
/// not read, in a line.
#[derive(Drop)]
pub struct FileFolder<S: Shelf + Drop, N: Write + Drop> {
    shelf: S,
    notes: N,
}

impl<'a, R: Files, N: Write + Drop> FileFolder<MachineShelf<'a, R>, N> {
    /// The files of the machine.
    pub fn new(rt: &'a R, notes: N) -> Self {
        FileFolder::over(MachineShelf::new(rt), notes)
    }
}

impl<S: Shelf + Drop, N: Write + Drop> FileFolder<S, N> {
    /// The files of a shelf.
    pub fn over(shelf: S, notes: N) -> Self
        ensures { ⟦<FileFolder<S, N> as Folder>⟧.state result ≡ folder_over (S.state shelf) }
    {
        FileFolder { shelf, notes }
    }
}

// So many bytes of a file are read at once.
const PIECE: usize = 65_536;

// All bytes that a file still gives, where they are no more than this. Where a read is refused it is told why.
pub(crate) fn read_rest<S: Shelf>(
    shelf: &mut S,
    file: &mut S::File,
    alloc: Global,
    most: usize,
    why: &mut Option<io::Error>,
) -> Result<Text, ReadFault>
    requires { 65536 ≤ most }
    ensures same { (S.state shelf.new).files ≡ (S.state shelf.old).files }
    ensures cause { ReadCause (S.state shelf.old).refused (S.state shelf.new).refused result }
    ensures short { IfOk result (λ text. length text ≤ most) }
    ensures bytes { IfOk result (λ text. Consumes (S.left file.old) (S.left file.new) text × IsAtEnd (S.left file.new)) }
    ensures long { result ≡ Err faults.TooLong → IfSome (S.left file.old) (λ bytes. most < length bytes) }
{
    let mut text = Text::new(alloc);
    let mut buf = [0u8; PIECE];
    'pieces: loop {
        let count = match shelf.read(file, &mut buf) {
            Ok(count) => count,
            Err(error) => {
                *why = Some(error);
                return Err(ReadFault::Failed);
            }
        };
        if count == 0 {
            return Ok(text);
        }
        if text.len() > most - count {
            return Err(ReadFault::TooLong);
        }
        text.extend(&buf[..count])?;
    }
}

// All bytes of a file. Where it is not opened, or a read is refused, it is told why.
fn read_whole<S: Shelf>(
    shelf: &mut S,
    alloc: Global,
    name: &Text,
    why: &mut Option<io::Error>,
) -> Result<Text, ReadFault>
    ensures same { (S.state shelf.new).files ≡ (S.state shelf.old).files }
    ensures cause { ReadCause (S.state shelf.old).refused (S.state shelf.new).refused result }
    ensures short { IfOk result (λ text. length text ≤ max_file) }
    ensures gives { IfSome (S.state shelf.old).files (λ known. GivesFile (file_of known name.now) result) }
{
    match shelf.open(name) {
        Ok(mut file) => read_rest(shelf, &mut file, alloc, MAX_FILE, why),
        Err(error) => {
            *why = Some(error);
            Err(ReadFault::Failed)
        }
    }
}

// Says in the notes why a file was not read.
fn note_unread<N: Write>(notes: &mut N, name: &Text, error: &io::Error) {
    if let Ok(path) = str::from_utf8(name.as_slice()) {
        let _ = writeln!(notes, "{path}: {error}");
    }
}

impl<S: Shelf + Drop, N: Write + Drop> Folder for FileFolder<S, N> {
    ghost state = { λ s. folder_over (S.state s.shelf) };

    fn read_file(&mut self, alloc: Global, name: &Text) -> Result<Text, ReadFault> {
        let mut why = None;
        let read = read_whole(&mut self.shelf, alloc, name, &mut why);
        if let Some(error) = why {
            note_unread(&mut self.notes, name, &error);
        }
        read
    }
}
