// The files of the machine, by its own calls. All that is said of them here is said by the machine.
ghost use Rattle.std.specs.Prelude.{◌≡◌, ◌≤◌, ◌^◌, false, [], length, IfOk};
ghost use Rattle.std.proofs.Common.{rules};
ghost use Rattle.cube_edge.specs.Disks.{silent_disk};

use crate::disk::{Disk, Extent, Trouble};
use crate::folder::read_rest;
use crate::machine_shelf::MachineShelf;
use crate::names::Names;
use crate::out_file::ENDING;
use crate::sink::write_some;
use cube_io::{Failed, ReadFault};
use cube_model::Text;
use std::alloc::{AllocError, Global};
use std::fs::{File, Metadata, OpenFile, OpenOptions, TryLockError};
use std::io::{ErrorKind, Read, Seek, SeekFrom, Write};
use std::os::unix::fs::{MetadataExt, OpenOptionsExt};
use std::rt::Files;
use std::{fs, io};

/// The most bytes of a log that are read.
const MAX_LOG: usize = 268_435_456;

/// Who may read and write a file that is made: its owner alone.
const OWNER_ALONE: u32 = 0o600;

/// What the name of a seal ends with.
const SEAL: &str = ".seal";

/// A seal has fewer bytes than this.
const MAX_SEAL: usize = 128;

/// The length of the line of a seal.
const LINE: usize = 72;

/// The seal that an output takes along.
#[derive(Drop)]
enum Along {
    /// None.
    Nothing,
    /// That of the journal of this name, as it stands when the output is put in its place.
    OfJournal(String),
    /// One that has this line.
    Line([u8; LINE]),
}

/// The files of the machine. It tells nothing of them. A file that it makes is its owner's alone. No file is worked on that
/// has two names, or by a symbolic link; but the name that `attach` takes may lead over some, and then the files lie where it
/// leads. Of one for outputs each file is to take the place of another, and is made anew.
#[derive(Drop)]
pub struct MachineDisk<'a, R: Files<File = File> + AllocGlobal> {
    rt: &'a R,
    // None where there was no memory for them.
    names: Option<Names>,
    is_for_outputs: bool,
    along: Along,
}

impl<'a, R: Files<File = File> + AllocGlobal> MachineDisk<'a, R> {
    pub fn new(rt: &'a R) -> Self
        ensures told { (⟦<MachineDisk<'a, R> as Disk>⟧.state result).told ≡ false }
    {
        MachineDisk {
            rt,
            names: None,
            is_for_outputs: false,
            along: Along::Nothing,
        }
    }

    /// A disk for an `OutFile`. Each file that is opened has the path of another and `.new`, and that other is a regular file
    /// or none, and no seal.
    pub fn for_outputs(rt: &'a R) -> Self
        ensures told { (⟦<MachineDisk<'a, R> as Disk>⟧.state result).told ≡ false }
    {
        MachineDisk {
            rt,
            names: None,
            is_for_outputs: true,
            along: Along::Nothing,
        }
    }

    /// The same, where what is put goes on from a journal: before a file takes the place of another, the seal of that journal
    /// stands beside it too.
    pub fn sealed_as(self, journal: &str) -> Result<Self, AllocError>
        ensures told { IfOk result (λ disk. (⟦<MachineDisk<'a, R> as Disk>⟧.state disk).told ≡ false) }
    {
        let journal = String::from_str(self.rt.alloc(), journal)?;
        Ok(MachineDisk {
            along: Along::OfJournal(journal),
            ..self
        })
    }

    /// The same, where what is put begins a journal: a seal with this line stands beside it before.
    pub fn sealed_with(self, line: [u8; LINE]) -> Self
        ensures told { (⟦<MachineDisk<'a, R> as Disk>⟧.state result).told ≡ false }
    {
        MachineDisk {
            along: Along::Line(line),
            ..self
        }
    }

    /// Takes the name that files begin with.
    fn take(&mut self, name: &str) {
        self.names = Names::new(self.rt.alloc(), name).ok();
    }
}

/// The names that were taken.
fn taken(names: &mut Option<Names>) -> Result<&mut Names, Trouble> {
    names
        .as_mut()
        .ok_or(Trouble::Refused(io::Error::from(ErrorKind::OutOfMemory)))
}

/// Puts the names of a file's folder on the disk.
fn sync_folder<R: Files + AllocGlobal>(rt: &R, path: &str) -> io::Result<()> {
    let mut folder = fs::canonicalize(rt, path)?;
    folder.pop();
    OpenOptions::new()
        .read(true)
        .open(rt, folder.as_path())?
        .sync_all()
}

/// What is found, if it is there.
fn found(looked: io::Result<Metadata>) -> Result<Option<Metadata>, Trouble> {
    match looked {
        Ok(there) => Ok(Some(there)),
        Err(error) if error.kind() == ErrorKind::NotFound => Ok(None),
        Err(error) => Err(Trouble::Refused(error)),
    }
}

/// Finds what a name really is, and makes the file where it isn't there.
fn find<R: Files + AllocGlobal>(rt: &R, names: &mut Names) -> Result<(), Trouble> {
    if names.are_found() {
        return Ok(());
    }
    match fs::canonicalize(rt, names.given()) {
        Ok(real) => return names.set_real(real.as_path().as_str()),
        Err(error) if error.kind() == ErrorKind::NotFound => {}
        Err(error) => return Err(Trouble::Refused(error)),
    }
    // Where a link leads to no file, this makes the file that it leads to.
    OpenOptions::new()
        .append(true)
        .create(true)
        .mode(OWNER_ALONE)
        .open(rt, names.given())?;
    let real = fs::canonicalize(rt, names.given())?;
    names.set_real(real.as_path().as_str())
}

/// Finds what the name of an output really is, if it may be replaced.
fn find_output<R: Files + AllocGlobal>(rt: &R, names: &mut Names) -> Result<(), Trouble> {
    match fs::canonicalize(rt, names.given()) {
        Ok(real) => names.set_real(real.as_path().as_str())?,
        Err(error) if error.kind() == ErrorKind::NotFound => names.set_real_as_given()?,
        Err(error) => return Err(Trouble::Refused(error)),
    }
    if names.real().ends_with(SEAL) {
        return Err(Trouble::Seal);
    }
    if names.real().is_empty() || !is_free(rt, names.real())? {
        return Err(Trouble::NoFile);
    }
    Ok(())
}

/// Whether a path is that of a regular file, or of nothing.
fn is_free<R: Files>(rt: &R, path: &str) -> Result<bool, Trouble> {
    match found(fs::symlink_metadata(rt, path))? {
        Some(there) => Ok(there.is_file()),
        None => Ok(true),
    }
}

/// Makes a file.
fn make<R: Files>(rt: &R, path: &str) -> io::Result<R::File> {
    OpenOptions::new()
        .read(true)
        .append(true)
        .create_new(true)
        .mode(OWNER_ALONE)
        .open(rt, path)
}

/// Opens a file that is there to read it and to write at its end.
fn open<R: Files>(rt: &R, path: &str) -> io::Result<R::File> {
    OpenOptions::new().read(true).append(true).open(rt, path)
}

/// Opens a file to read it and to write at its end, and makes it where it isn't there. What is no regular file isn't opened.
fn open_or_make<R: Files>(rt: &R, path: &str) -> Result<R::File, Trouble> {
    match make(rt, path) {
        Ok(file) => return Ok(file),
        Err(error) if error.kind() == ErrorKind::AlreadyExists => {}
        Err(error) => return Err(Trouble::Refused(error)),
    }
    let there = fs::symlink_metadata(rt, path)?;
    if there.is_symlink() {
        return Err(Trouble::Link);
    }
    if !there.is_file() {
        return Err(Trouble::NoFile);
    }
    Ok(open(rt, path)?)
}

/// Takes away what an earlier run left of a file beside: a regular file that nobody has locked, or a link, but not what that
/// leads to.
fn clear<R: Files<File = File>>(rt: &R, path: &str) -> Result<(), Trouble> {
    let Some(there) = found(fs::symlink_metadata(rt, path))? else {
        return Ok(());
    };
    if there.is_symlink() {
        return Ok(fs::remove_file(rt, path)?);
    }
    if !there.is_file() {
        return Err(Trouble::NoFile);
    }
    let file = open(rt, path)?;
    lock(&file)?;
    Ok(fs::remove_file(rt, path)?)
}

/// Puts the seal of a journal beside an output, whole, if the output isn't the journal itself.
fn bring_seal<R: Files<File = File> + AllocGlobal>(
    rt: &R,
    journal: &str,
    output: &str,
) -> Result<(), Trouble> {
    let real = fs::canonicalize(rt, journal)?;
    if real.as_path().as_str() == output {
        return Ok(());
    }
    let from = format!(in rt.alloc(); "{}{SEAL}", real.as_path().as_str())?;
    let mut seal = [0u8; MAX_SEAL];
    let count = File::open(rt, &from)?.read(&mut seal)?;
    put_seal(rt, output, &seal[..count.min(MAX_SEAL)])
}

/// Puts a seal of these bytes beside an output, whole.
fn put_seal<R: Files<File = File> + AllocGlobal>(
    rt: &R,
    output: &str,
    seal: &[u8],
) -> Result<(), Trouble> {
    let to = format!(in rt.alloc(); "{output}{SEAL}")?;
    let beside = format!(in rt.alloc(); "{to}{ENDING}")?;
    clear(rt, &beside)?;
    write_all(make(rt, &beside)?, seal)?;
    fs::rename(rt, &beside, &to)?;
    Ok(sync_folder(rt, &to)?)
}

/// Writes bytes to a file, and puts them on the disk.
fn write_all(mut file: File, bytes: &[u8]) -> io::Result<()> {
    file.write_all(bytes)?;
    file.sync_all()
}

/// Locks a file until it is closed, however the program ends.
fn lock(file: &File) -> Result<(), Trouble> {
    match file.try_lock() {
        Ok(()) => Ok(()),
        Err(TryLockError::WouldBlock) => Err(Trouble::InUse),
        Err(TryLockError::Error(error)) => Err(Trouble::Refused(error)),
    }
}

/// Whether both tell of one file.
fn is_same(one: &Metadata, other: &Metadata) -> bool {
    one.dev() == other.dev() && one.ino() == other.ino()
}

/// How long an open file is, where its path stands for it, and no other name.
fn length_behind<R: Files>(rt: &R, real_path: &str, file: &File) -> Result<u64, Trouble> {
    let open = file.metadata()?;
    match found(fs::symlink_metadata(rt, real_path))? {
        Some(named) if open.nlink() > 0 && is_same(&open, &named) => {}
        _ => return Err(Trouble::Moved),
    }
    if open.nlink() > 1 {
        return Err(Trouble::TwoNames);
    }
    Ok(open.len())
}

/// Sees that a path as it was given leads to an open file. A path that only begins with the given name may lead nowhere:
/// where that name is a link the file isn't beside it.
fn look_as_given<R: Files>(rt: &R, given: &str, path: &str, file: &File) -> Result<(), Trouble> {
    match found(fs::metadata(rt, path))? {
        Some(there) if is_same(&file.metadata()?, &there) => Ok(()),
        Some(_) if path != given => Err(Trouble::Another),
        None if path != given => Ok(()),
        _ => Err(Trouble::Moved),
    }
}

/// All bytes of a file.
fn read_log<R: Files<File = File>>(
    rt: &R,
    file: &mut File,
    alloc: Global,
) -> Result<Text, ReadFault>
    ensures { IfOk result (λ text. length text ≤ 2 ^ 28) }
{
    if file.seek(SeekFrom::Start(0)).is_err() {
        return Err(ReadFault::Failed);
    }
    read_rest(&mut MachineShelf::new(rt), file, alloc, MAX_LOG, &mut None)
}

impl<R: Files<File = File> + AllocGlobal> MachineDisk<'_, R> {
    /// Sees that the path of a file stands for it, and that it is as this program left it.
    fn look_at(&mut self, file: &File, path: &str, left: Extent) -> Result<(), Trouble> {
        let names = taken(&mut self.names)?;
        names.turn_to(path)?;
        let length = length_behind(self.rt, names.real_path(), file)?;
        if !self.is_for_outputs {
            look_as_given(self.rt, names.given(), path, file)?;
        }
        if left.allows(length) {
            Ok(())
        } else {
            Err(Trouble::Changed)
        }
    }

    /// Makes the file that is to take the place of another.
    fn make_beside(&mut self, path: &str) -> Result<File, Trouble> {
        let Some(output) = path.strip_suffix(ENDING) else {
            return Err(Trouble::NoFile);
        };
        self.take(output);
        let names = taken(&mut self.names)?;
        find_output(self.rt, names)?;
        names.turn_to(path)?;
        clear(self.rt, names.real_path())?;
        Ok(make(self.rt, names.real_path())?)
    }
}

impl<R: Files<File = File> + AllocGlobal> Disk for MachineDisk<'_, R> {
    type Opened = File;

    type File = File;

    ghost state = { λ _. silent_disk };

    ghost place = { λ _. [] };

    ghost whole = { λ s p told. Prim.search rules };

    fn attach(&mut self, name: &str) -> Result<(), Failed> {
        self.take(name);
        Ok(())
    }

    fn open(&mut self, path: &str) -> Result<File, Trouble> {
        if self.is_for_outputs {
            return self.make_beside(path);
        }
        let names = taken(&mut self.names)?;
        find(self.rt, names)?;
        names.turn_to(path)?;
        open_or_make(self.rt, names.real_path())
    }

    fn lock(&mut self, file: File, path: &str) -> Result<File, Trouble> {
        lock(&file)?;
        let names = taken(&mut self.names)?;
        names.turn_to(path)?;
        sync_folder(self.rt, names.real_path())?;
        Ok(file)
    }

    fn length(&mut self, file: &File) -> Result<u64, Trouble> {
        Ok(file.metadata()?.len())
    }

    fn look(&mut self, file: &File, path: &str, left: Extent) -> Result<(), Trouble> {
        self.look_at(file, path, left)
    }

    fn read(&mut self, file: &mut File, alloc: Global) -> Result<Text, ReadFault> {
        read_log(self.rt, file, alloc)
    }

    fn write(&mut self, file: &mut File, piece: &[u8]) -> Result<usize, Trouble> {
        Ok(write_some(file, piece)?)
    }

    fn cut(&mut self, file: &File, len: u64) -> Result<(), Trouble> {
        Ok(file.set_len(len)?)
    }

    fn sync(&mut self, file: &File, path: &str, left: Extent) -> Result<(), Trouble> {
        file.sync_all()?;
        self.look_at(file, path, left)
    }

    fn replace(&mut self, _file: File, from: &str, to: &str) -> Result<(), Trouble> {
        let names = taken(&mut self.names)?;
        if to != names.given() || !is_free(self.rt, names.real())? {
            return Err(Trouble::NoFile);
        }
        names.turn_to(from)?;
        match &self.along {
            Along::Nothing => {}
            Along::OfJournal(journal) => bring_seal(self.rt, journal, names.real())?,
            Along::Line(line) => put_seal(self.rt, names.real(), line.as_slice())?,
        }
        fs::rename(self.rt, names.real_path(), names.real())?;
        Ok(sync_folder(self.rt, names.real())?)
    }
}
