// A shelf in memory, whose calls fail where they are told to.
ghost use Rattle.std.specs.Prelude.{◌≡◌, ◌≤◌, ◌<◌, ◌++◌, [], Some, drop, take, length, option_copied};
ghost use Rattle.cube_io.specs.Causes.{Rose};
ghost use Rattle.cube_io.specs.Files.{file_of};

use cube_edge::Shelf;
use cube_model::Text;
use std::alloc::Global;
use std::io;
use std::io::ErrorKind;

/// A file that was opened, and how many of its bytes were read.
#[derive(Drop)]
pub struct MemOpen {
    bytes: Text,
    at: usize,
    ghost within: { at ≤ length bytes },
}

/// A shelf of these files, each a name and its content; of two with one name the first counts. It tells all. A read gives no
/// more than so many bytes, one where that is 0, and the calls with these numbers, counted from 0, are refused.
#[derive(Drop)]
pub struct MemShelf {
    alloc: Global,
    files: Vec<(Text, Text)>,
    most: usize,
    failing: Vec<u64>,
    calls: u64,
    refused: u64,
}

impl MemShelf {
    pub fn new(alloc: Global, files: Vec<(Text, Text)>, most: usize, failing: Vec<u64>) -> Self
        ensures files { (⟦<MemShelf as Shelf>⟧.state result).files ≡ Some files.items }
        ensures refused { (⟦<MemShelf as Shelf>⟧.state result).refused ≡ 0 }
    {
        MemShelf {
            alloc,
            files,
            most,
            failing,
            calls: 0,
            refused: 0,
        }
    }

    // Counts a call, and says whether it is to fail.
    fn fails(&mut self) -> bool
        ensures files { self.new.files ≡ self.old.files }
        ensures refused { self.new.refused ≡ self.old.refused }
    {
        let call = self.calls;
        self.calls = call.saturating_add(1);
        self.failing.contains(&call)
    }

    // Counts a call that is refused.
    fn refuse(&mut self, kind: ErrorKind) -> io::Error
        ensures files { self.new.files ≡ self.old.files }
        ensures refused { Rose self.old.refused self.new.refused }
        ensures later { self.old.refused ≤ self.new.refused }
    {
        self.refused = self.refused.saturating_add(1);
        io::Error::from(kind)
    }
}

// The content of the first file of a name.
fn find_file<'a>(files: &'a [(Text, Text)], name: &[u8]) -> Option<&'a Text>
    ensures { option_copied result ≡ file_of files.now name.now }
{
    let found = files.iter().find(|file| file.0.as_slice() == name)?;
    Some(&found.1)
}

// Copies a front of the bytes to the front of a buffer, at most so many, and says how many.
fn copy_front(bytes: &[u8], buf: &mut [u8], most: usize) -> usize
    requires capacity { 0 < length buf.old }
    requires some { 0 < most }
    ensures bound { result ≤ length buf.new }
    ensures front { bytes.now ≡ take result buf.new ++ drop result bytes.now }
    ensures within { result ≤ length bytes.now }
    ensures end { result ≡ 0 → bytes.now ≡ [] }
{
    let count = bytes.len().min(buf.len()).min(most);
    buf[..count].copy_from_slice(&bytes[..count]);
    count
}

impl Shelf for MemShelf {
    type File = MemOpen;

    ghost state = { λ s. record { files = Some s.files.items; refused = s.refused } };

    ghost left = { λ file. Some (drop file.at file.bytes) };

    fn open(&mut self, name: &Text) -> io::Result<MemOpen> {
        if self.fails() {
            return Err(self.refuse(ErrorKind::PermissionDenied));
        }
        let Some(content) = find_file(&self.files, name.as_slice()) else {
            return Err(self.refuse(ErrorKind::NotFound));
        };
        match Text::from_bytes(self.alloc, content.as_slice()) {
            Ok(bytes) => Ok(MemOpen { bytes, at: 0 }),
            Err(_) => Err(self.refuse(ErrorKind::OutOfMemory)),
        }
    }

    fn read(&mut self, file: &mut MemOpen, buf: &mut [u8]) -> io::Result<usize> {
        if self.fails() {
            return Err(self.refuse(ErrorKind::PermissionDenied));
        }
        let rest = &file.bytes.as_slice()[file.at..];
        let count = copy_front(rest, buf, self.most.max(1));
        file.at += count;
        Ok(count)
    }
}
