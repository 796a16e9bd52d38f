// Two files in memory, by their names.
ghost use Rattle.std.specs.Prelude.{◌≡◌, ◌≢◌, ℕ, List, IfSome, OnOk, OnErr};
ghost use Rattle.cube_io.specs.States.{Gained};
ghost use Rattle.cube_edge.specs.Disks.{IsEither};
ghost use Rattle.trial_worlds.specs.Deeds.{CanBe, stepped};
ghost use Rattle.trial_worlds.specs.Pairs.{log_at};

use crate::mem_log::{Deed, MemLog};
use cube_edge::Trouble;
use cube_model::Text;
use std::alloc::Global;
use std::io;
use std::io::ErrorKind;

/// A file of some name, and one beside it of another name.
#[derive(Drop)]
pub struct FilePair {
    pub name: Text,
    pub file: MemLog,
    pub beside: Text,
    pub other: MemLog,
}

/// The system has no space.
pub fn no_space() -> Trouble {
    Trouble::Refused(io::Error::from(ErrorKind::StorageFull))
}

impl FilePair {
    /// What a read of a path gives, if it is one of the two.
    pub fn bytes_at(&self, path: &[u8]) -> Option<&[u8]>
        ensures { IfSome result (λ bytes. bytes.now ≡ (log_at self.now path.now).state.now) }
    {
        if path == self.name.as_slice() {
            return Some(self.file.bytes());
        }
        if path == self.beside.as_slice() {
            return Some(self.other.bytes());
        }
        None
    }

    /// Does a deed to a file.
    pub fn perform(&mut self, alloc: Global, path: &[u8], deed: Deed) -> Result<(), Trouble>
        requires { CanBe (log_at self.old path.now).state.now deed }
        ensures name { self.new.name ≡ self.old.name }
        ensures others { (other : List ℕ) → other ≢ path.now → log_at self.new other ≡ log_at self.old other }
        ensures ok { OnOk result (log_at self.new path.now ≡ stepped (log_at self.old path.now) deed) }
        ensures err { OnErr result (log_at self.new path.now ≡ log_at self.old path.now) }
    {
        if path == self.name.as_slice() {
            return match self.file.perform(alloc, deed) {
                Ok(()) => Ok(()),
                Err(_) => Err(no_space()),
            };
        }
        if path == self.beside.as_slice() {
            return match self.other.perform(alloc, deed) {
                Ok(()) => Ok(()),
                Err(_) => Err(no_space()),
            };
        }
        Err(no_space())
    }

    /// Lets the file beside take the place of the other, where all of it is on the disk. It is empty then.
    pub fn replace(&mut self, alloc: Global, from: &[u8], to: &[u8]) -> Result<(), Trouble>
        ensures name { self.new.name ≡ self.old.name }
        ensures others { (other : List ℕ) → other ≢ from.now → other ≢ to.now → log_at self.new other ≡ log_at self.old other }
        ensures passes { Gained (IsEither (log_at self.old to.now).state (log_at self.old from.now).state) (log_at self.old to.now) (log_at self.new to.now) }
        ensures done { OnOk result ((log_at self.new to.now).state ≡ (log_at self.old from.now).state) }
        ensures failed { OnErr result (log_at self.new to.now ≡ log_at self.old to.now) }
    {
        if from == self.name.as_slice()
            || from != self.beside.as_slice()
            || to != self.name.as_slice()
            || !self.other.is_clean()
        {
            return Err(no_space());
        }
        let Ok(bytes) = Text::from_bytes(alloc, self.other.bytes()) else {
            return Err(no_space());
        };
        match self.file.perform(alloc, Deed::Become(bytes)) {
            Ok(()) => {
                self.other = MemLog::new(alloc);
                Ok(())
            }
            Err(_) => Err(no_space()),
        }
    }
}
