// A disk in memory with two files, whose calls fail where they are told to.
ghost use Rattle.cube_io.specs.Causes.{Rose};
ghost use Rattle.std.specs.Prelude.{◌≡◌, ◌≤◌, ◌<◌, ◌++◌, [], Some, None, IfNone, true, false, drop, length, IfSome, if◌then◌else◌};
ghost use Rattle.trial_worlds.specs.Pairs.{disk_over, files_whole};

use crate::file_pair::{FilePair, no_space};
use crate::mem_log::{Deed, MemLog};
use cube_edge::{Disk, Extent, Trouble};
use cube_io::{Failed, ReadFault};
use cube_model::{Text, Texts};
use std::alloc::Global;

/// The most bytes of a file that are read.
const MAX_READ: usize = 268_435_456;

/// The file that was opened by a path.
#[derive(Drop)]
pub struct MemFile {
    path: Text,
}

/// The path that was seen last, if any was.
#[derive(Drop)]
pub struct Seen {
    any: bool,
    path: Text,
}

/// A disk with two files, of which one may take the place of the other. Both begin with nothing. It tells all, and takes the
/// name of the first. A write takes no more than so many bytes, and the calls with these numbers, counted from 0, fail. A
/// replacing counts as two calls: one that fails before the file has taken its place, and one behind that.
#[derive(Drop)]
pub struct MemDisk {
    alloc: Global,
    files: FilePair,
    names: Texts,
    seen: Seen,
    most: usize,
    failing: Vec<u64>,
    calls: u64,
    refused: u64,
    ghost some: { 0 < most },
}

impl MemDisk {
    pub fn new(alloc: Global, name: Text, beside: Text, most: usize, failing: Vec<u64>) -> Self
        requires { 0 < most }
        ensures { (⟦<MemDisk as Disk>⟧.state result).told ≡ true }
    {
        MemDisk {
            alloc,
            files: FilePair {
                name,
                file: MemLog::new(alloc),
                beside,
                other: MemLog::new(alloc),
            },
            names: Texts::new(alloc),
            seen: Seen {
                any: false,
                path: Text::new(alloc),
            },
            most,
            failing,
            calls: 0,
            refused: 0,
        }
    }

    /// What a read of a path gives, if it is one of the two.
    pub fn bytes_at(&self, path: &[u8]) -> Option<&[u8]>
        ensures { IfSome result (λ bytes. bytes.now ≡ ((⟦<MemDisk as Disk>⟧.state self.now).logs path.now).state.now) }
    {
        self.files.bytes_at(path)
    }

    // Counts a call, and says whether it is to fail. If so, it counts as refused.
    fn fails(&mut self) -> bool
        ensures files { self.new.files ≡ self.old.files }
        ensures names { self.new.names ≡ self.old.names }
        ensures seen { self.new.seen ≡ self.old.seen }
        ensures most { self.new.most ≡ self.old.most }
        ensures well { result ≡ false → self.new.refused ≡ self.old.refused }
        ensures later { self.old.refused ≤ self.new.refused }
        ensures rose { result ≡ true → Rose self.old.refused self.new.refused }
    {
        let call = self.calls;
        self.calls = call.saturating_add(1);
        let fails = self.failing.contains(&call);
        if fails {
            self.refuse();
        }
        fails
    }

    // Why a path does not stand for a file as it was left, if it does not.
    fn trouble_with(&self, file: &MemFile, path: &str, left: Extent) -> Option<Trouble>
        ensures { IfNone result (file.now.path ≡ path.now) }
    {
        if file.path.as_slice() != path.as_bytes() {
            return Some(Trouble::Moved);
        }
        match self.files.bytes_at(path.as_bytes()) {
            Some(bytes) if left.allows(bytes.len() as u64) => None,
            Some(_) => Some(Trouble::Changed),
            None => Some(Trouble::Moved),
        }
    }

    // Counts a call that is refused.
    fn refuse(&mut self)
        ensures files { self.new.files ≡ self.old.files }
        ensures names { self.new.names ≡ self.old.names }
        ensures seen { self.new.seen ≡ self.old.seen }
        ensures most { self.new.most ≡ self.old.most }
        ensures later { self.old.refused ≤ self.new.refused }
        ensures rose { Rose self.old.refused self.new.refused }
    {
        self.refused = self.refused.saturating_add(1);
    }
}

// The first bytes of a piece, at most so many.
pub(crate) fn front(piece: &[u8], most: usize) -> &[u8]
    ensures rest { piece.now ≡ result.now ++ drop (length result.now) piece.now }
    ensures short { length result.now ≤ length piece.now }
    ensures some { 0 < most → 0 < length piece.now → 0 < length result.now }
{
    match piece.get(..most) {
        Some(front) => front,
        None => piece,
    }
}

impl Disk for MemDisk {
    type Opened = MemFile;

    type File = MemFile;

    ghost state = { λ s. disk_over s.files s.names (if s.seen.any then Some s.seen.path else None) s.refused };

    ghost place = { λ file. file.path };

    ghost whole = { λ s p told. files_whole s.files p };

    fn attach(&mut self, name: &str) -> Result<(), Failed> {
        if self.fails() {
            return Err(Failed);
        }
        if name.as_bytes() != self.files.name.as_slice() {
            self.refuse();
            return Err(Failed);
        }
        let Ok(name) = Text::from_bytes(self.alloc, name.as_bytes()) else {
            self.refuse();
            return Err(Failed);
        };
        match self.names.push(name) {
            Ok(()) => Ok(()),
            Err(_) => {
                self.refuse();
                Err(Failed)
            }
        }
    }

    fn open(&mut self, path: &str) -> Result<MemFile, Trouble> {
        if self.fails() {
            return Err(no_space());
        }
        match Text::from_bytes(self.alloc, path.as_bytes()) {
            Ok(path) => Ok(MemFile { path }),
            Err(_) => {
                self.refuse();
                Err(no_space())
            }
        }
    }

    fn lock(&mut self, file: MemFile, _path: &str) -> Result<MemFile, Trouble> {
        if self.fails() {
            return Err(Trouble::InUse);
        }
        Ok(file)
    }

    fn length(&mut self, file: &MemFile) -> Result<u64, Trouble> {
        if self.fails() {
            return Err(no_space());
        }
        match self.files.bytes_at(file.path.as_slice()) {
            Some(bytes) => Ok(bytes.len() as u64),
            None => {
                self.refuse();
                Err(Trouble::NoFile)
            }
        }
    }

    fn look(&mut self, file: &MemFile, path: &str, left: Extent) -> Result<(), Trouble> {
        if self.fails() {
            return Err(Trouble::Moved);
        }
        if let Some(trouble) = self.trouble_with(file, path, left) {
            self.refuse();
            return Err(trouble);
        }
        match Text::from_bytes(self.alloc, path.as_bytes()) {
            Ok(path) => {
                self.seen = Seen { any: true, path };
                Ok(())
            }
            Err(_) => {
                self.refuse();
                Err(no_space())
            }
        }
    }

    fn read(&mut self, file: &mut MemFile, alloc: Global) -> Result<Text, ReadFault> {
        if self.fails() {
            return Err(ReadFault::Failed);
        }
        match self.files.bytes_at(file.path.as_slice()) {
            Some(bytes) => {
                if bytes.len() > MAX_READ {
                    self.refuse();
                    return Err(ReadFault::TooLong);
                }
                match Text::from_bytes(alloc, bytes) {
                    Ok(text) => Ok(text),
                    Err(_) => {
                        self.refuse();
                        Err(ReadFault::NoMemory)
                    }
                }
            }
            None => {
                self.refuse();
                Err(ReadFault::Failed)
            }
        }
    }

    fn write(&mut self, file: &mut MemFile, piece: &[u8]) -> Result<usize, Trouble> {
        if self.fails() {
            return Err(no_space());
        }
        let front = front(piece, self.most);
        let Ok(text) = Text::from_bytes(self.alloc, front) else {
            self.refuse();
            return Err(no_space());
        };
        match self
            .files
            .perform(self.alloc, file.path.as_slice(), Deed::Put(text))
        {
            Ok(()) => Ok(front.len()),
            Err(trouble) => {
                self.refuse();
                Err(trouble)
            }
        }
    }

    fn cut(&mut self, file: &MemFile, len: u64) -> Result<(), Trouble> {
        if self.fails() {
            return Err(no_space());
        }
        let done = self
            .files
            .perform(self.alloc, file.path.as_slice(), Deed::Cut(len));
        if done.is_err() {
            self.refuse();
        }
        done
    }

    fn sync(&mut self, _file: &MemFile, path: &str, _left: Extent) -> Result<(), Trouble> {
        if self.fails() {
            return Err(no_space());
        }
        let done = self.files.perform(self.alloc, path.as_bytes(), Deed::Sync);
        if done.is_err() {
            self.refuse();
        }
        done
    }

    fn replace(&mut self, _file: MemFile, from: &str, to: &str) -> Result<(), Trouble> {
        if self.fails() {
            return Err(no_space());
        }
        let done = self
            .files
            .replace(self.alloc, from.as_bytes(), to.as_bytes());
        if done.is_err() {
            self.refuse();
            return done;
        }
        if self.fails() {
            return Err(no_space());
        }
        Ok(())
    }
}
