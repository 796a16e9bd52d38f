// Folders of files.
ghost use Rattle.std.specs.Prelude.{◌≡◌, ◌≤◌, [], Some, length, IfSome, IfOk, option_copied};
ghost use Rattle.cube_io.specs.Causes.{ReadCause};
ghost use Rattle.cube_io.specs.Files.{max_file, file_of, GivesFile, AsksTold};
ghost use Rattle.cube_io.specs.Seen.{FolderState};

use crate::ReadFault;
use cube_model::{Items, Text};
use std::alloc::Global;

/// The most bytes that a file may have.
pub const MAX_FILE: usize = 67_108_864;

/// A folder of files.
pub trait Folder {
    /// What it tells of its files and of what it was asked for, and how often it has failed.
    ghost state: { Self → FolderState };

    /// All bytes of a file.
    fn read_file(&mut self, alloc: Global, name: &Text) -> Result<Text, ReadFault>
        ensures same { (state self.new).files ≡ (state self.old).files }
        ensures asks { AsksTold (state self.old).asked (state self.new).asked name.now result }
        ensures gives { IfSome (state self.old).files (λ known. GivesFile (file_of known name.now) result) }
        ensures short { IfOk result (λ text. length text ≤ max_file) }
        ensures cause { ReadCause (state self.old).faults (state self.new).faults result };
}

/// A folder in memory. It fails at the reads with these numbers, counted from 0, and where there is no such file.
#[derive(Drop)]
pub struct MemFolder {
    files: Vec<(Text, Text)>,
    asked: Items<Text>,
    failing: Vec<u64>,
    calls: u64,
    faults: u64,
}

impl MemFolder {
    /// A folder of these files, each a name and its content. Of two with one name the first counts.
    pub fn new(alloc: Global, files: Vec<(Text, Text)>, failing: Vec<u64>) -> Self
        ensures files { (⟦<MemFolder as Folder>⟧.state result).files ≡ Some files.items }
        ensures asked { (⟦<MemFolder as Folder>⟧.state result).asked ≡ Some [] }
        ensures faults { (⟦<MemFolder as Folder>⟧.state result).faults ≡ 0 }
    {
        MemFolder {
            files,
            asked: Items::new(alloc),
            failing,
            calls: 0,
            faults: 0,
        }
    }
}

// The content of the first file of a name.
fn find_file<'a>(files: &'a [(Text, Text)], name: &[u8]) -> Option<&'a Text>
    ensures { option_copied result ≡ file_of files.now name.now }
{
    let found = files.iter().find(|file| file.0.as_slice() == name)?;
    Some(&found.1)
}

impl Folder for MemFolder {
    ghost state = { λ s. record { files = Some s.files.items; asked = Some s.asked; faults = s.faults } };

    fn read_file(&mut self, alloc: Global, name: &Text) -> Result<Text, ReadFault> {
        self.asked.push(Text::from_bytes(alloc, name.as_slice())?)?;
        let call = self.calls;
        self.calls = self.calls.saturating_add(1);
        if self.failing.contains(&call) {
            self.faults = self.faults.saturating_add(1);
            return Err(ReadFault::Failed);
        }
        let Some(content) = find_file(&self.files, name.as_slice()) else {
            self.faults = self.faults.saturating_add(1);
            return Err(ReadFault::Failed);
        };
        if content.len() > MAX_FILE {
            return Err(ReadFault::TooLong);
        }
        Ok(Text::from_bytes(alloc, content.as_slice())?)
    }
}
