// A file whose bytes are put in the place of the old ones at once.
ghost use Rattle.std.specs.Prelude.{◌≡◌, ◌≢◌, ◌++◌, ⊤, [], Some, IsTrue, IsErr, IfOk, OnOk, OnErr};
ghost use Rattle.cube_io.specs.Causes.{HasCause};
ghost use Rattle.cube_io.specs.Content.{PutAppends};
ghost use Rattle.cube_io.specs.States.{Gained, settled};
ghost use Rattle.cube_edge.specs.Disks.{WorksAt, WorksAtTwo, IsOldOrNew};
ghost use Rattle.cube_edge.specs.Outs.{OutState, HoldsAll, path_beside, no_puts, sink_of};

use crate::disk::{Disk, Trouble};
use crate::store::{LogFile, MAX_PATH, counted, note, open_log};
use cube_io::{Failed, Sink, Store};
use cube_model::{NoMemory, Text};
use std::alloc::Global;
use std::io::Write;
use std::marker::Model;
use std::str;

/// What the path of the file beside has behind the path of the file.
pub(crate) const ENDING: &str = ".new";

/// The longest path of a file in bytes: that of the file beside it is no longer than `MAX_PATH`.
const MAX_OUT_PATH: usize = MAX_PATH - 4;

/// Writes all of the bytes to an open file that holds nothing.
fn fill<D: Disk>(
    log: &mut LogFile<D>,
    disk: &mut D,
    path: &str,
    bytes: &[u8],
) -> Result<(), Trouble>
    requires { IsTrue (D.state disk.old).told → ((D.state disk.old).logs path.now).state.now ≡ [] }
    ensures works { WorksAt path.now (D.state disk.old) (D.state disk.new) }
    ensures done { IsTrue (D.state disk.old).told → OnOk result (((D.state disk.new).logs path.now).state.now ≡ bytes.now) }
{
    log.append(disk, path, bytes)
}

/// Opens the file of a path, makes it where it isn't there, leaves just these bytes in it, all of them on the disk, and sees
/// it behind the path.
#[tactic(auto, using(crate::proofs::Replacing::emptied))]
fn write_file<D: Disk>(disk: &mut D, path: &str, bytes: &[u8]) -> Result<D::File, Trouble>
    ensures works { WorksAt path.now (D.state disk.old) (D.state disk.new) }
    ensures done { IsTrue (D.state disk.old).told → OnOk result (((D.state disk.new).logs path.now).state ≡ settled bytes.now) }
    ensures seen { IsTrue (D.state disk.old).told → OnOk result ((D.state disk.new).seen ≡ Some path.now) }
    ensures file { IsTrue (D.state disk.old).told → IfOk result (λ file. D.place file ≡ path.now) }
{
    let mut log = open_log(disk, path)?;
    log.cut(disk, path, 0)?;
    fill(&mut log, disk, path, bytes)?;
    log.sync(disk, path)?;
    disk.look(&log.file, path, log.left)?;
    Ok(log.file)
}

/// Leaves just these bytes in the file of a path, all of them on the disk. They are written to the file beside, which is made
/// where it isn't there and holds nothing else; once they are on the disk it takes the place of the other. At each moment a
/// crash leaves what it could leave before, or just these bytes. Where it fails, the file beside may be left.
pub fn replace_whole<D: Disk>(
    disk: &mut D,
    path: &str,
    beside: &str,
    bytes: &[u8],
) -> Result<(), Trouble>
    requires { beside.now ≢ path.now }
    ensures works { WorksAtTwo beside.now path.now (D.state disk.old) (D.state disk.new) }
    ensures crash { IsTrue (D.state disk.old).told → Gained (IsOldOrNew bytes.now ((D.state disk.old).logs path.now).state)
        ((D.state disk.old).logs path.now) ((D.state disk.new).logs path.now) }
    ensures done { IsTrue (D.state disk.old).told → OnOk result (((D.state disk.new).logs path.now).state ≡ settled bytes.now) }
    ensures failed { IsTrue (D.state disk.old).told → OnErr result (IsOldOrNew bytes.now ((D.state disk.old).logs path.now).state ((D.state disk.new).logs path.now).state) }
{
    let file = write_file(disk, beside, bytes)?;
    disk.replace(file, beside, path)
}

/// The same where the paths can be used. A line in the notes says why the disk refuses.
fn replace_file<D: Disk, N: Write>(
    disk: &mut D,
    notes: &mut N,
    path: &Text,
    beside: &Text,
    bytes: &Text,
) -> Result<(), Failed>
    requires { beside.now ≡ path_beside path.now }
    ensures works { WorksAtTwo (path_beside path.now) path.now (D.state disk.old) (D.state disk.new) }
    ensures crash { IsTrue (D.state disk.old).told → Gained (IsOldOrNew bytes.now ((D.state disk.old).logs path.now).state)
        ((D.state disk.old).logs path.now) ((D.state disk.new).logs path.now) }
    ensures done { IsTrue (D.state disk.old).told → OnOk result (((D.state disk.new).logs path.now).state ≡ settled bytes.now) }
    ensures failed { IsTrue (D.state disk.old).told → OnErr result (IsOldOrNew bytes.now ((D.state disk.old).logs path.now).state ((D.state disk.new).logs path.now).state) }
{
    if path.len() > MAX_OUT_PATH {
        return Err(Failed);
    }
    let Ok(path) = str::from_utf8(path.as_slice()) else {
        return Err(Failed);
    };
    let Ok(beside) = str::from_utf8(beside.as_slice()) else {
        return Err(Failed);
    };
    match replace_whole(disk, path, beside, bytes.as_slice()) {
        Ok(()) => Ok(()),
        Err(trouble) => Err(note(notes, path, &trouble)),
    }
}

/// A file as a sink. Each put leaves it holding just what was put so far, all of it on the disk, by `replace_whole` with the
/// path followed by `.new` for the file beside. A put that fails leaves what stood there before it or what was put so far
/// with its piece, and each later one that is not empty fails too. So does each where the path is not UTF-8 or has more than
/// `MAX_PATH` less 4 bytes. Where the disk refuses, a line in the notes says the path and why.
#[derive(Drop)]
pub struct OutFile<D: Disk + Drop, N: Write + Drop> {
    disk: D,
    notes: N,
    path: Text,
    beside: Text,
    bytes: Text,
    faults: u64,
}

impl<D: Disk + Drop, N: Write + Drop> Model for OutFile<D, N> {
    ghost Value = { D × OutState };

    ghost view = { λ s. (s.disk, record { path = s.path; written = s.bytes; faults = s.faults }) };

    ghost invariant = { λ s. (s.beside ≡ path_beside s.path) × HoldsAll (D.state s.disk) (record { path = s.path; written = s.bytes; faults = s.faults }) };
}

impl<D: Disk + Drop, N: Write + Drop> OutFile<D, N> {
    /// The file of a path, to which nothing was put yet. Nothing is done on the disk before the first put.
    pub fn new(alloc: Global, disk: D, notes: N, path: &Text) -> Result<Self, NoMemory>
        ensures view { IfOk result (λ out. out ≡ (disk, no_puts path.now)) }
        ensures sink { IfOk result (λ out. ⟦<OutFile<D, N> as Sink>⟧.state out ≡ sink_of (no_puts path.now)) }
    {
        let mut beside = path.copied(alloc)?;
        beside.extend(ENDING.as_bytes())?;
        Ok(OutFile {
            disk,
            notes,
            path: path.copied(alloc)?,
            beside,
            bytes: Text::new(alloc),
            faults: 0,
        })
    }

    /// The disk that it stands on.
    pub fn disk(&self) -> &D
        ensures { result.now ≡ self.now.0 }
    {
        &self.disk
    }

    /// What was put so far, the piece of a put that failed perhaps at its end. If none failed, the file holds just that.
    pub fn bytes(&self) -> &[u8]
        ensures bytes { result.now ≡ self.now.1.written }
        ensures whole { HoldsAll (D.state self.now.0) self.now.1 }
    {
        self.bytes.as_slice()
    }

    /// Puts a piece at the end of what was put so far, and leaves the file holding just that. At each moment a crash leaves
    /// what it could leave before, or just that.
    pub fn put_whole(&mut self, piece: &[u8]) -> Result<(), Failed>
        ensures path { self.new.1.path ≡ self.old.1.path }
        ensures bytes { PutAppends (Some self.old.1.written) (Some self.new.1.written) result piece.now }
        ensures cause { HasCause self.old.1.faults self.new.1.faults result }
        ensures stays { self.old.1.faults ≢ 0 → IsErr result }
        ensures works { WorksAtTwo (path_beside self.old.1.path) self.old.1.path (D.state self.old.0) (D.state self.new.0) }
        ensures crash { IsTrue (D.state self.old.0).told → Gained (IsOldOrNew (self.old.1.written ++ piece.now) ((D.state self.old.0).logs self.old.1.path).state)
            ((D.state self.old.0).logs self.old.1.path) ((D.state self.new.0).logs self.old.1.path) }
        ensures done { IsTrue (D.state self.old.0).told → OnOk result (((D.state self.new.0).logs self.old.1.path).state ≡ settled (self.old.1.written ++ piece.now)) }
        ensures failed { IsTrue (D.state self.old.0).told → OnErr result (IsOldOrNew (self.old.1.written ++ piece.now) ((D.state self.old.0).logs self.old.1.path).state ((D.state self.new.0).logs self.old.1.path).state) }
    {
        if self.faults > 0 || self.bytes.extend(piece).is_err() {
            return counted(&mut self.faults, Err(Failed));
        }
        let done = replace_file(
            &mut self.disk,
            &mut self.notes,
            &self.path,
            &self.beside,
            &self.bytes,
        );
        counted(&mut self.faults, done)
    }
}

impl<D: Disk + Drop, N: Write + Drop> Sink for OutFile<D, N> {
    ghost state = { λ s. sink_of s.1 };

    ghost allows = { λ store bytes piece. ⊤ };

    fn put<S: Store>(&mut self, _store: &S, piece: &[u8]) -> Result<(), Failed> {
        if piece.is_empty() {
            return Ok(());
        }
        self.put_whole(piece)
    }
}
