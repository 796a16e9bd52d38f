// Files by their names, as a store of logs needs them.
ghost use Rattle.std.specs.Prelude.{◌≡◌, ◌↔◌, ◌≤◌, ◌<◌, ◌+◌, ◌^◌, ℕ, List, Option, Some, drop, length, IsTrue, IfOk, OnOk, OnErr, IsErrOf};
ghost use Rattle.cube_io.specs.Causes.{HasCause};
ghost use Rattle.cube_io.specs.declared.faults.ReadFault.TheVariants as fault;
ghost use Rattle.cube_io.specs.States.{IsWhole, Appended, Cut, Synced, Gained, shortened, settled};
ghost use Rattle.cube_io.specs.Told.{AsksFor};
ghost use Rattle.cube_edge.specs.Disks.{DiskState, Rests, WorksAt, WorksAtTwo, IsEither};

use cube_io::{Failed, ReadFault};
use cube_model::Text;
use std::alloc::{AllocError, Global};
use std::{fmt, io};

/// Why a file is not worked on.
#[derive(Drop)]
pub enum Trouble {
    /// The machine refused, for this reason.
    Refused(io::Error),
    /// It is a folder, a pipe or a device.
    NoFile,
    /// Another program has the lock.
    InUse,
    /// Its name stands for another file now, or for none.
    Moved,
    /// It is longer or shorter than this program left it.
    Changed,
    /// It has another name besides, a hard link.
    TwoNames,
    /// It is a symbolic link.
    Link,
    /// Its path as it was given leads to another file than the one beside the journal itself.
    Another,
    /// It is the seal of a journal, which no output takes the place of.
    Seal,
}

impl From<AllocError> for Trouble {
    fn from(error: AllocError) -> Trouble {
        Trouble::Refused(io::Error::from(error))
    }
}

impl From<io::Error> for Trouble {
    fn from(error: io::Error) -> Trouble {
        Trouble::Refused(error)
    }
}

impl fmt::Display for Trouble {
    fn fmt<W: fmt::Write>(&self, f: &mut fmt::Formatter<W>) -> fmt::Result {
        match self {
            Trouble::Refused(error) => write!(f, "{error}"),
            Trouble::NoFile => write!(f, "no regular file"),
            Trouble::InUse => write!(f, "in use by another program"),
            Trouble::Moved => write!(f, "moved or deleted"),
            Trouble::Changed => write!(f, "changed by another program"),
            Trouble::TwoNames => write!(f, "has another name (a hard link)"),
            Trouble::Link => write!(f, "a symbolic link"),
            Trouble::Another => write!(f, "another file than the one beside the journal itself"),
            Trouble::Seal => write!(f, "the name of a seal"),
        }
    }
}

/// How long a file is, in bytes, as this program left it.
#[derive(Clone, Copy, Debug, PartialEq, Eq)]
pub struct Extent {
    /// So many bytes are surely in it.
    pub length: u64,
    /// So many more a call that failed may have left behind them.
    pub loose: u64,
}

impl Extent {
    /// Whether a file of this length is as this program left it.
    pub fn allows(&self, length: u64) -> bool
        ensures { IsTrue result ↔ ((self.now.length ≤ length) × (length ≤ self.now.length + self.now.loose)) }
    {
        self.length <= length && length - self.length <= self.loose
    }
}

/// Files by their names. Each is opened, locked and then worked on by the one who opened it. What stands under `told`
/// holds where the disk tells what it holds; a file that isn't there is told as an empty log. A call that fails is one that the
/// disk refused, and it counts it.
pub trait Disk {
    /// A file that was opened.
    type Opened: Drop;

    /// A file that was opened and locked, with its name on the disk. It is closed, and no longer locked, where it is let go.
    type File: Drop;

    /// What it tells of its files.
    ghost state: { Self → DiskState };

    /// The path by which a file was opened.
    ghost place: { Self.File → List ℕ };

    /// Takes the name of log 0. A disk that tells takes the one name whose files it tells, and no other.
    fn attach(&mut self, name: &str) -> Result<(), Failed>
        ensures refused { IsTrue (state self.old).told → HasCause (state self.old).refused (state self.new).refused result }
        ensures told { (state self.new).told ≡ (state self.old).told }
        ensures name { (state self.new).name ≡ (state self.old).name }
        ensures logs { IsTrue (state self.old).told → (path : List ℕ) → (state self.new).logs path ≡ (state self.old).logs path }
        ensures ok { IsTrue (state self.old).told → OnOk result (name.now ≡ (state self.old).name) }
        ensures names { IsTrue (state self.old).told → AsksFor result (state self.old).names (state self.new).names name.now };

    /// Opens a file to read it and to write at its end, and makes it where it isn't there. What is no regular file is refused.
    fn open(&mut self, path: &str) -> Result<Self::Opened, Trouble>
        ensures refused { IsTrue (state self.old).told → HasCause (state self.old).refused (state self.new).refused result }
        ensures rests { Rests (state self.old) (state self.new) };

    /// Locks a file until it is closed, however the program ends, and then puts its name on the disk.
    fn lock(&mut self, file: Self::Opened, path: &str) -> Result<Self::File, Trouble>
        ensures refused { IsTrue (state self.old).told → HasCause (state self.old).refused (state self.new).refused result }
        ensures rests { Rests (state self.old) (state self.new) };

    /// How many bytes a file has.
    fn length(&mut self, file: &Self::File) -> Result<u64, Trouble>
        ensures refused { IsTrue (state self.old).told → HasCause (state self.old).refused (state self.new).refused result }
        ensures rests { Rests (state self.old) (state self.new) };

    /// Sees that the path stands for the file, and that it is as this program left it.
    fn look(&mut self, file: &Self::File, path: &str, left: Extent) -> Result<(), Trouble>
        ensures refused { IsTrue (state self.old).told → HasCause (state self.old).refused (state self.new).refused result }
        ensures rests { Rests (state self.old) (state self.new) }
        ensures file { IsTrue (state self.old).told → OnOk result (place file.now ≡ path.now) }
        ensures seen { IsTrue (state self.old).told → OnOk result ((state self.new).seen ≡ Some path.now) };

    /// All the bytes of a file.
    fn read(&mut self, file: &mut Self::File, alloc: Global) -> Result<Text, ReadFault>
        requires { IsTrue (state self.old).told → (state self.old).seen ≡ Some (place file.old) }
        ensures refused { IsTrue (state self.old).told → HasCause (state self.old).refused (state self.new).refused result }
        ensures rests { Rests (state self.old) (state self.new) }
        ensures bytes { IsTrue (state self.old).told → IfOk result (λ bytes. bytes ≡ ((state self.old).logs (place file.old)).state.now) }
        ensures fits { IfOk result (λ bytes. length bytes ≤ 2 ^ 28) }
        ensures long { IsTrue (state self.old).told → IsErrOf result fault.TooLong → 2 ^ 28 < length ((state self.old).logs (place file.old)).state.now };

    /// Puts a front of a piece at the end of a file, and says how many bytes; a disk that tells puts at least one, if it has any. A
    /// failed call leaves some front of it there.
    fn write(&mut self, file: &mut Self::File, piece: &[u8]) -> Result<usize, Trouble>
        requires { IsTrue (state self.old).told → (state self.old).seen ≡ Some (place file.old) }
        ensures refused { IsTrue (state self.old).told → HasCause (state self.old).refused (state self.new).refused result }
        ensures works { WorksAt (place file.old) (state self.old) (state self.new) }
        ensures file { place file.new ≡ place file.old }
        ensures seen { (state self.new).seen ≡ (state self.old).seen }
        ensures bound { IfOk result (λ count. count ≤ length piece.now) }
        ensures some { IsTrue (state self.old).told → 0 < length piece.now → IfOk result (λ count. 0 < count) }
        ensures grows { IsTrue (state self.old).told → (unsaid : List ℕ) × IfOk result (λ count. unsaid ≡ drop count piece.now)
            × Appended piece.now unsaid ((state self.old).logs (place file.old)) ((state self.new).logs (place file.old)) };

    /// Cuts a file to a length that it has. A failed call leaves it as it was or cut.
    fn cut(&mut self, file: &Self::File, len: u64) -> Result<(), Trouble>
        requires seen { IsTrue (state self.old).told → (state self.old).seen ≡ Some (place file.now) }
        requires within { IsTrue (state self.old).told → len ≤ length ((state self.old).logs (place file.now)).state.now }
        ensures refused { IsTrue (state self.old).told → HasCause (state self.old).refused (state self.new).refused result }
        ensures works { WorksAt (place file.now) (state self.old) (state self.new) }
        ensures passes { IsTrue (state self.old).told → Cut len ((state self.old).logs (place file.now)) ((state self.new).logs (place file.now)) }
        ensures done { IsTrue (state self.old).told → OnOk result (((state self.new).logs (place file.now)).state ≡ shortened ((state self.old).logs (place file.now)).state len) };

    /// Puts on the disk all that a read of a file gives, and then looks once more: only where that went well, what was put
    /// there stands behind the path. Its path is that by which the file was opened.
    fn sync(&mut self, file: &Self::File, path: &str, left: Extent) -> Result<(), Trouble>
        requires { IsTrue (state self.old).told → place file.now ≡ path.now }
        ensures refused { IsTrue (state self.old).told → HasCause (state self.old).refused (state self.new).refused result }
        ensures works { WorksAt path.now (state self.old) (state self.new) }
        ensures passes { IsTrue (state self.old).told → Synced ((state self.old).logs path.now) ((state self.new).logs path.now) }
        ensures done { IsTrue (state self.old).told → OnOk result (((state self.new).logs path.now).state ≡ settled ((state self.old).logs path.now).state.now) }
        ensures failed { IsTrue (state self.old).told → OnErr result (((state self.new).logs path.now).state ≡ ((state self.old).logs path.now).state) };

    /// Gives a file, which was just seen behind the path `from`, the path `to`, in the place of what stood there, and puts the
    /// names on the disk. Each moment's crash leaves the old file or this one there; so it does behind a call that failed,
    /// whichever of them a read gives then. Nothing is said of what stands behind `from` afterwards.
    fn replace(&mut self, file: Self::File, from: &str, to: &str) -> Result<(), Trouble>
        requires seen { IsTrue (state self.old).told → (state self.old).seen ≡ Some (place file) }
        requires file { IsTrue (state self.old).told → place file ≡ from.now }
        ensures refused { IsTrue (state self.old).told → HasCause (state self.old).refused (state self.new).refused result }
        ensures works { WorksAtTwo from.now to.now (state self.old) (state self.new) }
        ensures passes { IsTrue (state self.old).told → Gained (IsEither ((state self.old).logs to.now).state ((state self.old).logs from.now).state)
            ((state self.old).logs to.now) ((state self.new).logs to.now) }
        ensures done { IsTrue (state self.old).told → OnOk result (((state self.new).logs to.now).state ≡ ((state self.old).logs from.now).state) }
        ensures failed { IsTrue (state self.old).told → OnErr result (IsEither ((state self.old).logs to.now).state ((state self.old).logs from.now).state ((state self.new).logs to.now).state) };

    /// What is safe, followed by some tail, is what a read gives.
    ghost whole: { (disk : Self) (path : List ℕ) → IsTrue (state disk).told → IsWhole ((state disk).logs path).state };
}
