// Logs in the files of a disk.
ghost use Rattle.std.specs.Prelude.{◌≡◌, ◌≤◌, ◌<◌, ◌^◌, ⊤, ℕ, Bool, true, false, List, [], Some, is_some, position, slice_get, ◌==◌, map, vec_len, length, string_bytes, All, IsTrue, IsOk, IfOk, OnOk, OnErr, IsErrOf, IfSome, IsSomeAnd};
ghost use Rattle.cube_io.specs.declared.faults.ReadFault.TheVariants as fault;
ghost use Rattle.cube_io.specs.Causes.{HasCause};
ghost use Rattle.cube_io.specs.States.{Appended, Cut, Synced, shortened, settled};
ghost use Rattle.cube_io.specs.Told.{AsksFor, OthersStay, Works};
ghost use Rattle.cube_edge.specs.Disks.{Rests, WorksAt, is_held, is_seal_log, journal_path, path_of, logs_of, store_over, logs_whole};

use crate::disk::{Disk, Extent, Trouble};
use crate::sink::behind;
use cube_io::{Failed, ReadFault, SEAL_LOG, Store};
use cube_model::{NoMemory, Text};
use std::alloc::{AllocError, Global};
use std::io::{ErrorKind, Write};
use std::marker::Model;
use std::{io, mem, str};

/// The longest path in bytes.
pub const MAX_PATH: usize = 4_096;

/// The file of a log: locked, so that no other program that asks for the lock has it, and as this program left it.
#[derive(Drop)]
pub(crate) struct LogFile<D: Disk> {
    pub(crate) file: D::File,
    pub(crate) left: Extent,
    // Whether it was said what stands in it.
    noted: bool,
}

/// Writes all of a piece at the end of a file, or a front of it where that fails.
fn write_whole<D: Disk>(disk: &mut D, file: &mut D::File, piece: &[u8]) -> Result<(), Trouble>
    requires { IsTrue (D.state disk.old).told → (D.state disk.old).seen ≡ Some (D.place file.old) }
    ensures works { WorksAt (D.place file.old) (D.state disk.old) (D.state disk.new) }
    ensures grows { IsTrue (D.state disk.old).told → (unsaid : List ℕ) × OnOk result (unsaid ≡ [])
        × Appended piece.now unsaid ((D.state disk.old).logs (D.place file.old)) ((D.state disk.new).logs (D.place file.old)) }
    ensures refused { IsTrue (D.state disk.old).told → HasCause (D.state disk.old).refused (D.state disk.new).refused result }
{
    let mut rest = piece;
    'writes: for _write in 0..u64::MAX {
        if rest.is_empty() {
            return Ok(());
        }
        let count = disk.write(file, rest)?;
        rest = behind(rest, count);
    }
    Err(Trouble::Refused(io::Error::from(ErrorKind::WriteZero)))
}

/// Opens the file of a path, makes it where it isn't there, and locks it before anything is read. Its name is on the disk then.
pub(crate) fn open_log<D: Disk>(disk: &mut D, path: &str) -> Result<LogFile<D>, Trouble>
    ensures rests { Rests (D.state disk.old) (D.state disk.new) }
{
    let opened = disk.open(path)?;
    let file = disk.lock(opened, path)?;
    let length = disk.length(&file)?;
    Ok(LogFile {
        file,
        left: Extent { length, loose: 0 },
        noted: false,
    })
}

impl<D: Disk> LogFile<D> {
    /// Puts a piece at the end.
    pub(crate) fn append(&mut self, disk: &mut D, path: &str, piece: &[u8]) -> Result<(), Trouble>
        ensures refused { IsTrue (D.state disk.old).told → HasCause (D.state disk.old).refused (D.state disk.new).refused result }
        ensures works { WorksAt path.now (D.state disk.old) (D.state disk.new) }
        ensures grows { IsTrue (D.state disk.old).told → (unsaid : List ℕ) × OnOk result (unsaid ≡ [])
            × Appended piece.now unsaid ((D.state disk.old).logs path.now) ((D.state disk.new).logs path.now) }
    {
        disk.look(&self.file, path, self.left)?;
        let more = piece.len() as u64;
        let written = write_whole(disk, &mut self.file, piece);
        match written {
            Ok(()) => self.left.length = self.left.length.saturating_add(more),
            Err(_) => self.left.loose = self.left.loose.saturating_add(more),
        }
        written
    }

    /// Cuts the file to a length that it has.
    pub(crate) fn cut(&mut self, disk: &mut D, path: &str, len: u64) -> Result<(), Trouble>
        requires { IsTrue (D.state disk.old).told → len ≤ length ((D.state disk.old).logs path.now).state.now }
        ensures works { WorksAt path.now (D.state disk.old) (D.state disk.new) }
        ensures passes { IsTrue (D.state disk.old).told → Cut len ((D.state disk.old).logs path.now) ((D.state disk.new).logs path.now) }
        ensures done { IsTrue (D.state disk.old).told → OnOk result (((D.state disk.new).logs path.now).state ≡ shortened ((D.state disk.old).logs path.now).state len) }
    {
        disk.look(&self.file, path, self.left)?;
        if len > self.left.length {
            return Err(Trouble::Changed);
        }
        // Where this fails the file may have either length.
        self.left.loose = self.left.loose.saturating_add(self.left.length - len);
        self.left.length = len;
        disk.cut(&self.file, len)?;
        self.left.loose = 0;
        Ok(())
    }

    /// Puts on the disk all that a read of it gives, once its path was seen to stand for it.
    pub(crate) fn sync(&self, disk: &mut D, path: &str) -> Result<(), Trouble>
        ensures refused { IsTrue (D.state disk.old).told → HasCause (D.state disk.old).refused (D.state disk.new).refused result }
        ensures works { WorksAt path.now (D.state disk.old) (D.state disk.new) }
        ensures passes { IsTrue (D.state disk.old).told → Synced ((D.state disk.old).logs path.now) ((D.state disk.new).logs path.now) }
        ensures done { IsTrue (D.state disk.old).told → OnOk result (((D.state disk.new).logs path.now).state ≡ settled ((D.state disk.old).logs path.now).state.now) }
        ensures failed { IsTrue (D.state disk.old).told → OnErr result (((D.state disk.new).logs path.now).state ≡ ((D.state disk.old).logs path.now).state) }
    {
        disk.look(&self.file, path, self.left)?;
        disk.sync(&self.file, path, self.left)
    }
}

/// Whether a log holds the seal of a journal.
fn is_seal(log: u32) -> bool
    ensures { result ≡ is_seal_log log }
{
    log >= SEAL_LOG - 15
}

/// Puts behind the name of log 0 what makes it the path of the journal in a log.
fn put_number(path: &mut String, log: u32) -> Result<(), AllocError>
    ensures { OnOk result (string_bytes path.new ≡ journal_path (string_bytes path.old) log) }
{
    match log {
        0 => Ok(()),
        _ => write!(path, ".{log}"),
    }
}

/// Puts behind the name of log 0 what makes it the path of a log.
fn put_ending(path: &mut String, log: u32) -> Result<(), AllocError>
    ensures { OnOk result (string_bytes path.new ≡ path_of (string_bytes path.old) log) }
{
    if !is_seal(log) {
        return put_number(path, log);
    }
    put_number(path, SEAL_LOG - log)?;
    path.push_str(".seal")
}

/// Says in the notes why the file of a path is not worked on.
pub(crate) fn note<N: Write>(notes: &mut N, path: &str, trouble: &Trouble) -> Failed {
    let _ = writeln!(notes, "{path}: {trouble}");
    Failed
}

/// Why the file of a log is not open.
#[derive(Drop)]
enum Unopened {
    /// It is refused.
    Failed,
    /// There was no memory for it.
    NoMemory,
}

/// What the trouble with a file comes to.
fn unopened_by(trouble: &Trouble) -> Unopened {
    match trouble {
        Trouble::Refused(error) if error.kind() == ErrorKind::OutOfMemory => Unopened::NoMemory,
        _ => Unopened::Failed,
    }
}

/// Says in the notes how many entries stand in a log that was read, on the lines behind its first; of a seal that it is new.
fn note_entries<N: Write>(notes: &mut N, path: &str, log: u32, bytes: &[u8]) {
    let mut lines = 0u64;
    for byte in bytes {
        if *byte == b'\n' {
            lines = lines.saturating_add(1);
        }
    }
    if lines == 0 {
        let _ = writeln!(notes, "{path}: new");
    } else if !is_seal(log) {
        let _ = writeln!(notes, "{path}: entries {}", lines.saturating_sub(1));
    }
}

/// A log whose file is open, and its path.
#[derive(Drop)]
struct Held {
    log: u32,
    path: String,
}

/// The place of a log among those whose file is open.
fn position_of(held: &[Held], log: u32) -> Option<usize>
    ensures place { IfSome result (λ place. IsSomeAnd (slice_get held.now place) (λ it. it.log ≡ log)) }
    ensures first { result ≡ position (λ it. it.log == log) held.now }
{
    held.iter().position(|it| it.log == log)
}

/// Where a log stands among those whose file is open.
fn place_of(held: &[Held], log: u32) -> Option<usize>
    ensures place { IfSome result (λ place. IsSomeAnd (slice_get held.now place) (λ it. it.log ≡ log)) }
    ensures held { is_some result ≡ is_held log (map (λ it. it.log) held.now) }
{
    position_of(held, log)
}

/// The path at a place.
fn path_at(held: &[Held], place: usize) -> &str
    requires { IsSomeAnd (slice_get held.now place) (λ it. ⊤) }
    ensures { IsSomeAnd (slice_get held.now place) (λ it. string_bytes it.path ≡ result.now) }
{
    held[place].path.as_str()
}

/// The open files of the logs, and the logs themselves, each at the place of its file.
#[derive(Drop)]
struct LogFiles<D: Disk + Drop, N: Write + Drop> {
    alloc: Global,
    disk: D,
    notes: N,
    name: String,
    path: String,
    held: Vec<Held>,
    files: Vec<LogFile<D>>,
    ghost together: { vec_len held ≡ vec_len files },
    ghost named: { All (λ it. string_bytes it.path ≡ path_of (string_bytes name) it.log) held.items },
}

impl<D: Disk + Drop, N: Write + Drop> LogFiles<D, N> {
    /// Takes the name of log 0, and closes the files of another name. Where it fails all is as it was.
    fn rename(&mut self, name: &[u8]) -> Result<(), Failed>
        ensures told { (D.state self.new.disk).told ≡ (D.state self.old.disk).told }
        ensures same { (D.state self.new.disk).name ≡ (D.state self.old.disk).name }
        ensures logs { IsTrue (D.state self.old.disk).told → (path : List ℕ) → (D.state self.new.disk).logs path ≡ (D.state self.old.disk).logs path }
        ensures ok { IsTrue (D.state self.old.disk).told → OnOk result (string_bytes self.new.name ≡ (D.state self.old.disk).name) }
        ensures err { OnErr result (self.new.name ≡ self.old.name) }
        ensures names { IsTrue (D.state self.old.disk).told → AsksFor result (D.state self.old.disk).names (D.state self.new.disk).names name.now }
    {
        let Ok(name) = str::from_utf8(name) else {
            return Err(Failed);
        };
        self.path.clear();
        if name.len() > MAX_PATH || self.path.push_str(name).is_err() {
            return Err(Failed);
        }
        self.disk.attach(name)?;
        self.held.clear();
        self.files.clear();
        mem::swap(&mut self.name, &mut self.path);
        Ok(())
    }

    /// Writes down the path of a log. The logs that are open stay so.
    fn find(&mut self, log: u32) -> Result<(), Failed>
        ensures disk { self.new.disk ≡ self.old.disk }
        ensures name { self.new.name ≡ self.old.name }
        ensures held { self.new.held ≡ self.old.held }
        ensures path { OnOk result (string_bytes self.new.path ≡ path_of (string_bytes self.old.name) log) }
    {
        self.path.clear();
        if self.path.push_str(&self.name).is_err() {
            return Err(Failed);
        }
        if put_ending(&mut self.path, log).is_err() || self.path.len() > MAX_PATH {
            return Err(Failed);
        }
        Ok(())
    }

    /// Opens the file of a log, where it isn't open. Tells its place.
    fn open(&mut self, log: u32) -> Result<usize, Unopened>
        ensures rests { Rests (D.state self.old.disk) (D.state self.new.disk) }
        ensures name { self.new.name ≡ self.old.name }
        ensures place { IfOk result (λ place. IsSomeAnd (slice_get self.new.held.items place) (λ it. string_bytes it.path ≡ (path_of (string_bytes self.old.name) log))) }
        ensures opens { OnOk result (is_held log (map (λ it. it.log) self.new.held.items) ≡ true) }
        ensures stays { (k : ℕ) → is_held k (map (λ it. it.log) self.old.held.items) ≡ true → is_held k (map (λ it. it.log) self.new.held.items) ≡ true }
        ensures held { is_held log (map (λ it. it.log) self.old.held.items) ≡ true → IsOk result }
        ensures still { is_held log (map (λ it. it.log) self.old.held.items) ≡ true → self.new.disk ≡ self.old.disk }
    {
        match place_of(&self.held, log) {
            Some(place) => Ok(place),
            None => self.open_anew(log),
        }
    }

    // Opens the file of a log that isn't open.
    fn open_anew(&mut self, log: u32) -> Result<usize, Unopened>
        ensures rests { Rests (D.state self.old.disk) (D.state self.new.disk) }
        ensures name { self.new.name ≡ self.old.name }
        ensures place { IfOk result (λ place. IsSomeAnd (slice_get self.new.held.items place) (λ it. string_bytes it.path ≡ (path_of (string_bytes self.old.name) log))) }
        ensures opens { OnOk result (is_held log (map (λ it. it.log) self.new.held.items) ≡ true) }
        ensures stays { (k : ℕ) → is_held k (map (λ it. it.log) self.old.held.items) ≡ true → is_held k (map (λ it. it.log) self.new.held.items) ≡ true }
    {
        if self.find(log).is_err() {
            return Err(Unopened::Failed);
        }
        match open_log(&mut self.disk, self.path.as_str()) {
            Ok(file) => self.hold(log, file),
            Err(trouble) => {
                note(&mut self.notes, self.path.as_str(), &trouble);
                Err(unopened_by(&trouble))
            }
        }
    }

    // Keeps the file of a log, whose path was written down, open.
    fn hold(&mut self, log: u32, file: LogFile<D>) -> Result<usize, Unopened>
        requires { string_bytes self.old.path ≡ (path_of (string_bytes self.old.name) log) }
        ensures disk { self.new.disk ≡ self.old.disk }
        ensures name { self.new.name ≡ self.old.name }
        ensures place { IfOk result (λ place. IsSomeAnd (slice_get self.new.held.items place) (λ it. string_bytes it.path ≡ (path_of (string_bytes self.old.name) log))) }
        ensures opens { OnOk result (is_held log (map (λ it. it.log) self.new.held.items) ≡ true) }
        ensures stays { (k : ℕ) → is_held k (map (λ it. it.log) self.old.held.items) ≡ true → is_held k (map (λ it. it.log) self.new.held.items) ≡ true }
    {
        let Ok(path) = String::from_str(self.alloc, self.path.as_str()) else {
            return Err(Unopened::NoMemory);
        };
        let place = self.held.len();
        if self.files.reserve(1).is_err() || self.held.reserve(1).is_err() {
            return Err(Unopened::NoMemory);
        }
        self.held.push_reserved(Held { log, path });
        self.files.push_reserved(file);
        Ok(place)
    }

    /// Opens the file of log 0, before that of any other log: who has it has them all. Where there is no memory for that, the
    /// first call on the log says so.
    fn begin(&mut self) -> Result<(), Failed>
        ensures rests { Rests (D.state self.old.disk) (D.state self.new.disk) }
        ensures name { self.new.name ≡ self.old.name }
        ensures stays { (k : ℕ) → is_held k (map (λ it. it.log) self.old.held.items) ≡ true → is_held k (map (λ it. it.log) self.new.held.items) ≡ true }
    {
        match self.open(0) {
            Err(Unopened::Failed) => Err(Failed),
            _ => Ok(()),
        }
    }

    fn read_all(&mut self, alloc: Global, log: u32) -> Result<Text, ReadFault>
        ensures rests { Rests (D.state self.old.disk) (D.state self.new.disk) }
        ensures name { self.new.name ≡ self.old.name }
        ensures stays { (k : ℕ) → is_held k (map (λ it. it.log) self.old.held.items) ≡ true → is_held k (map (λ it. it.log) self.new.held.items) ≡ true }
        ensures opens { OnOk result (is_held log (map (λ it. it.log) self.new.held.items) ≡ true) }
        ensures bytes { IsTrue (D.state self.old.disk).told → IfOk result (λ bytes. bytes ≡ ((D.state self.old.disk).logs (path_of (string_bytes self.old.name) log)).state.now) }
        ensures fits { IfOk result (λ text. length text ≤ 2 ^ 28) }
        ensures long { IsTrue (D.state self.old.disk).told → IsErrOf result fault.TooLong → 2 ^ 28 < length ((D.state self.old.disk).logs (path_of (string_bytes self.old.name) log)).state.now }
    {
        let place = match self.open(log) {
            Ok(place) => place,
            Err(Unopened::Failed) => return Err(ReadFault::Failed),
            Err(Unopened::NoMemory) => return Err(ReadFault::NoMemory),
        };
        let path = path_at(&self.held, place);
        let file = &mut self.files[place];
        match self.disk.look(&file.file, path, file.left) {
            Ok(()) => {}
            Err(trouble) => {
                note(&mut self.notes, path, &trouble);
                return Err(ReadFault::Failed);
            }
        }
        match self.disk.read(&mut file.file, alloc) {
            Ok(text) => {
                if !file.noted {
                    note_entries(&mut self.notes, path, log, text.as_slice());
                }
                file.noted = true;
                Ok(text)
            }
            Err(fault) => Err(fault),
        }
    }

    fn append(&mut self, log: u32, piece: &[u8]) -> Result<(), Failed>
        ensures works { WorksAt (path_of (string_bytes self.old.name) log) (D.state self.old.disk) (D.state self.new.disk) }
        ensures name { self.new.name ≡ self.old.name }
        ensures stays { (k : ℕ) → is_held k (map (λ it. it.log) self.old.held.items) ≡ true → is_held k (map (λ it. it.log) self.new.held.items) ≡ true }
        ensures opens { OnOk result (is_held log (map (λ it. it.log) self.new.held.items) ≡ true) }
        ensures refused { IsTrue (D.state self.old.disk).told → is_held log (map (λ it. it.log) self.old.held.items) ≡ true → HasCause (D.state self.old.disk).refused (D.state self.new.disk).refused result }
        ensures grows { IsTrue (D.state self.old.disk).told → (unsaid : List ℕ) × OnOk result (unsaid ≡ [])
            × Appended piece.now unsaid ((D.state self.old.disk).logs (path_of (string_bytes self.old.name) log)) ((D.state self.new.disk).logs (path_of (string_bytes self.old.name) log)) }
    {
        let Ok(place) = self.open(log) else {
            return Err(Failed);
        };
        let path = path_at(&self.held, place);
        match self.files[place].append(&mut self.disk, path, piece) {
            Ok(()) => Ok(()),
            Err(trouble) => Err(note(&mut self.notes, path, &trouble)),
        }
    }

    fn cut(&mut self, log: u32, len: u64) -> Result<(), Failed>
        requires { IsTrue (D.state self.old.disk).told → len ≤ length ((D.state self.old.disk).logs (path_of (string_bytes self.old.name) log)).state.now }
        ensures works { WorksAt (path_of (string_bytes self.old.name) log) (D.state self.old.disk) (D.state self.new.disk) }
        ensures name { self.new.name ≡ self.old.name }
        ensures stays { (k : ℕ) → is_held k (map (λ it. it.log) self.old.held.items) ≡ true → is_held k (map (λ it. it.log) self.new.held.items) ≡ true }
        ensures opens { OnOk result (is_held log (map (λ it. it.log) self.new.held.items) ≡ true) }
        ensures passes { IsTrue (D.state self.old.disk).told → Cut len ((D.state self.old.disk).logs (path_of (string_bytes self.old.name) log)) ((D.state self.new.disk).logs (path_of (string_bytes self.old.name) log)) }
        ensures done { IsTrue (D.state self.old.disk).told → OnOk result (((D.state self.new.disk).logs (path_of (string_bytes self.old.name) log)).state ≡ shortened ((D.state self.old.disk).logs (path_of (string_bytes self.old.name) log)).state len) }
    {
        let Ok(place) = self.open(log) else {
            return Err(Failed);
        };
        let path = path_at(&self.held, place);
        match self.files[place].cut(&mut self.disk, path, len) {
            Ok(()) => Ok(()),
            Err(trouble) => Err(note(&mut self.notes, path, &trouble)),
        }
    }

    /// Puts the file on the disk, behind its name: who asks for a line that was kept finds it there.
    fn sync(&mut self, log: u32) -> Result<(), Failed>
        ensures works { WorksAt (path_of (string_bytes self.old.name) log) (D.state self.old.disk) (D.state self.new.disk) }
        ensures name { self.new.name ≡ self.old.name }
        ensures stays { (k : ℕ) → is_held k (map (λ it. it.log) self.old.held.items) ≡ true → is_held k (map (λ it. it.log) self.new.held.items) ≡ true }
        ensures opens { OnOk result (is_held log (map (λ it. it.log) self.new.held.items) ≡ true) }
        ensures refused { IsTrue (D.state self.old.disk).told → is_held log (map (λ it. it.log) self.old.held.items) ≡ true → HasCause (D.state self.old.disk).refused (D.state self.new.disk).refused result }
        ensures passes { IsTrue (D.state self.old.disk).told → Synced ((D.state self.old.disk).logs (path_of (string_bytes self.old.name) log)) ((D.state self.new.disk).logs (path_of (string_bytes self.old.name) log)) }
        ensures done { IsTrue (D.state self.old.disk).told → OnOk result (((D.state self.new.disk).logs (path_of (string_bytes self.old.name) log)).state ≡ settled ((D.state self.old.disk).logs (path_of (string_bytes self.old.name) log)).state.now) }
        ensures failed { IsTrue (D.state self.old.disk).told → OnErr result (((D.state self.new.disk).logs (path_of (string_bytes self.old.name) log)).state ≡ ((D.state self.old.disk).logs (path_of (string_bytes self.old.name) log)).state) }
    {
        let Ok(place) = self.open(log) else {
            return Err(Failed);
        };
        let path = path_at(&self.held, place);
        match self.files[place].sync(&mut self.disk, path) {
            Ok(()) => Ok(()),
            Err(trouble) => Err(note(&mut self.notes, path, &trouble)),
        }
    }
}

/// Logs in the files of a disk: log 0 in the file that `attach` names, each other log k in that name followed by `.k`, and the
/// seal of each of the first sixteen in its name followed by `.seal`. A file that isn't there is made. That of log 0 is opened
/// and locked by `attach`, each other at the first call on its log, before anything is read, and stays so until the store is
/// dropped or the program ends, however it ends. A file that another program has locked, that was moved or deleted, or that
/// another program wrote to, is not worked on: nothing is read of it, written to it or cut from it. Its notes say why, in a
/// line, and of a log that is read first whether it is new or how many entries it has. Where the disk tells its files, it
/// tells the logs; and behind a call on a log that went well, an append or a sync of that log fails only where the disk refused
/// a call.
#[derive(Drop)]
pub struct FileStore<D: Disk + Drop, N: Write + Drop> {
    files: LogFiles<D, N>,
    attached: bool,
    faults: u64,
}

impl<D: Disk + Drop, N: Write + Drop> Model for FileStore<D, N> {
    ghost Value = { D × (Bool × (ℕ × List ℕ)) };

    ghost view = { λ s. (s.files.disk, (s.attached, (s.faults, map (λ it. it.log) s.files.held.items))) };

    ghost invariant = { λ s. IsTrue s.attached → IsTrue (D.state s.files.disk).told → string_bytes s.files.name ≡ (D.state s.files.disk).name };
}

impl<D: Disk + Drop, N: Write + Drop> FileStore<D, N> {
    /// A store of a disk's files, with space for a path.
    pub fn new(alloc: Global, disk: D, notes: N) -> Result<Self, NoMemory>
        ensures { IfOk result (λ store. ⟦<FileStore<D, N> as Store>⟧.state store ≡ store_over 0 false (D.state disk)) }
    {
        Ok(FileStore {
            files: LogFiles {
                alloc,
                disk,
                notes,
                name: String::with_capacity(alloc, MAX_PATH)?,
                path: String::with_capacity(alloc, MAX_PATH)?,
                held: Vec::new(alloc),
                files: Vec::new(alloc),
            },
            attached: false,
            faults: 0,
        })
    }
}

/// Counts a fault where a call failed.
pub(crate) fn counted<T, E>(faults: &mut u64, done: Result<T, E>) -> Result<T, E>
    ensures same { result ≡ done }
    ensures cause { HasCause faults.old faults.new result }
{
    if done.is_err() {
        *faults = faults.saturating_add(1);
    }
    done
}

impl<D: Disk + Drop, N: Write + Drop> Store for FileStore<D, N> {
    ghost state = { λ s. store_over s.1.1.0 s.1.0 (D.state s.0) };

    ghost whole = { λ s k told. logs_whole (D.state s.0) (λ p. D.whole s.0 p told) k };

    fn attach(&mut self, name: &Text) -> Result<(), Failed> {
        let done = match self.files.rename(name.as_slice()) {
            Ok(()) => {
                self.attached = true;
                self.files.begin()
            }
            Err(failed) => Err(failed),
        };
        counted(&mut self.faults, done)
    }

    fn read_all(&mut self, alloc: Global, log: u32) -> Result<Text, ReadFault> {
        match self.files.read_all(alloc, log) {
            Err(ReadFault::Failed) => {
                self.faults = self.faults.saturating_add(1);
                Err(ReadFault::Failed)
            }
            other => other,
        }
    }

    fn append(&mut self, log: u32, piece: &[u8]) -> Result<(), Failed>
        requires { IsTrue self.old.1.0 }
        ensures cause { HasCause self.old.1.1.0 self.new.1.1.0 result }
        ensures works { Works (store_over self.old.1.1.0 self.old.1.0 (D.state self.old.0)) (store_over self.new.1.1.0 self.new.1.0 (D.state self.new.0)) 1 }
        ensures others { OthersStay log (store_over self.old.1.1.0 self.old.1.0 (D.state self.old.0)) (store_over self.new.1.1.0 self.new.1.0 (D.state self.new.0)) }
        ensures empty { piece.now ≡ [] → IsOk result }
        ensures grows { IsTrue (D.state self.old.0).told → (unsaid : List ℕ) × OnOk result (unsaid ≡ [])
            × Appended piece.now unsaid (logs_of (D.state self.old.0) log) (logs_of (D.state self.new.0) log) }
        ensures opens { 0 < length piece.now → OnOk result (is_held log self.new.1.1.1 ≡ true) }
        ensures stays { (k : ℕ) → is_held k self.old.1.1.1 ≡ true → is_held k self.new.1.1.1 ≡ true }
        ensures refused { IsTrue (D.state self.old.0).told → is_held log self.old.1.1.1 ≡ true → HasCause (D.state self.old.0).refused (D.state self.new.0).refused result }
    {
        if piece.is_empty() {
            return Ok(());
        }
        let done = self.files.append(log, piece);
        counted(&mut self.faults, done)
    }

    fn cut(&mut self, log: u32, len: u64) -> Result<(), Failed> {
        let done = self.files.cut(log, len);
        counted(&mut self.faults, done)
    }

    fn sync(&mut self, log: u32) -> Result<(), Failed>
        requires { IsTrue self.old.1.0 }
        ensures cause { HasCause self.old.1.1.0 self.new.1.1.0 result }
        ensures works { Works (store_over self.old.1.1.0 self.old.1.0 (D.state self.old.0)) (store_over self.new.1.1.0 self.new.1.0 (D.state self.new.0)) 1 }
        ensures others { OthersStay log (store_over self.old.1.1.0 self.old.1.0 (D.state self.old.0)) (store_over self.new.1.1.0 self.new.1.0 (D.state self.new.0)) }
        ensures passes { IsTrue (D.state self.old.0).told → Synced (logs_of (D.state self.old.0) log) (logs_of (D.state self.new.0) log) }
        ensures done { IsTrue (D.state self.old.0).told → OnOk result ((logs_of (D.state self.new.0) log).state ≡ settled (logs_of (D.state self.old.0) log).state.now) }
        ensures failed { IsTrue (D.state self.old.0).told → OnErr result ((logs_of (D.state self.new.0) log).state ≡ (logs_of (D.state self.old.0) log).state) }
        ensures opens { OnOk result (is_held log self.new.1.1.1 ≡ true) }
        ensures stays { (k : ℕ) → is_held k self.old.1.1.1 ≡ true → is_held k self.new.1.1.1 ≡ true }
        ensures refused { IsTrue (D.state self.old.0).told → is_held log self.old.1.1.1 ≡ true → HasCause (D.state self.old.0).refused (D.state self.new.0).refused result }
    {
        let done = self.files.sync(log);
        counted(&mut self.faults, done)
    }
}
