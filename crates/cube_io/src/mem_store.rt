// A store in memory that keeps a record of its calls, and fails where it is told to.
ghost use Rattle.std.specs.Prelude.{◌≡◌, ◌++◌, [], ◌∷◌, length, take, true, slice_index_or, IsErr, IfOk, OnOk, OnErr};
ghost use Rattle.cube_io.specs.Causes.{HasCause};
ghost use Rattle.cube_io.specs.Mem.{store_of, begun, names_in, HasTried, IsCutChange};
ghost use Rattle.cube_io.specs.Mem.Deed.{Did, Wrote};
ghost use Rattle.cube_io.specs.Whole.{whole_after};

use crate::record::{Change, Record, Target};
use crate::{Failed, ReadFault, Store};
use cube_model::{NoMemory, Text};
use std::alloc::Global;

/// How far a call goes before it fails.
#[derive(Clone, Copy, Debug, PartialEq, Eq)]
pub enum Reach {
    /// It does nothing.
    Nothing,
    /// Of an append so many bytes go out. Of a cut a read sees nothing yet.
    Part(u64),
    /// An append and a cut do all of it, and fail nevertheless.
    All,
}

/// A call that is to fail: its number, counted from 0, and how far it goes before.
#[derive(Clone, Copy, Debug, PartialEq, Eq)]
pub struct Failing {
    pub call: u64,
    pub reach: Reach,
}

/// A store in memory. It tells what it holds. It fails at the calls that it is told, and where its space is used up.
#[derive(Drop)]
pub struct MemStore {
    begun: Vec<Text>,
    record: Record,
    failing: Vec<Failing>,
    attached: bool,
    faults: u64,
}

impl MemStore {
    /// A store whose logs begin with these contents, all of it on the disk, with space for so many calls and so many bytes
    /// of appends and names. An append of an empty piece is no call.
    pub fn with_capacity(
        alloc: Global,
        contents: Vec<Text>,
        failing: Vec<Failing>,
        calls: usize,
        bytes: usize,
    ) -> Result<MemStore, NoMemory>
        ensures told { IfOk result (λ store. (⟦<MemStore as Store>⟧.state store).told ≡ true) }
        ensures logs { IfOk result (λ store. (k : _) → (⟦<MemStore as Store>⟧.state store).logs k ≡ begun contents.items k) }
        ensures names { IfOk result (λ store. (⟦<MemStore as Store>⟧.state store).names ≡ []) }
        ensures calls { IfOk result (λ store. (⟦<MemStore as Store>⟧.state store).calls ≡ 0) }
        ensures faults { IfOk result (λ store. (⟦<MemStore as Store>⟧.state store).faults ≡ 0) }
    {
        Ok(MemStore {
            begun: contents,
            record: Record::with_capacity(alloc, calls, bytes)?,
            failing,
            attached: false,
            faults: 0,
        })
    }
}

impl MemStore {
    /// What it remembers of its calls. The states that its logs have passed follow from that.
    pub fn record(&self) -> &Record
        ensures names { (⟦<MemStore as Store>⟧.state self.now).names ≡ names_in result.now }
        ensures calls { (⟦<MemStore as Store>⟧.state self.now).calls ≡ length result.now }
    {
        &self.record
    }
}

/// How far the call with a number goes before it fails, if it is to fail.
fn reach_of(failing: &[Failing], call: usize) -> Option<Reach> {
    let found = failing.iter().find(|failing| failing.call == call as u64)?;
    Some(found.reach)
}

/// Counts a fault.
fn fail(faults: &mut u64) -> Result<(), Failed>
    ensures fails { IsErr result }
    ensures cause { HasCause faults.old faults.new result }
{
    *faults = faults.saturating_add(1);
    Err(Failed)
}

/// Remembers a call that did all of its work. It fails where there is no space.
fn perform(calls: &mut Record, faults: &mut u64, change: Change) -> Result<(), Failed>
    ensures cause { HasCause faults.old faults.new result }
    ensures ok { OnOk result (calls.new ≡ calls.old ++ Did change ∷ []) }
    ensures err { OnErr result (calls.new ≡ calls.old) }
{
    match calls.note(change) {
        Ok(()) => Ok(()),
        Err(_) => fail(faults),
    }
}

/// Fails, and remembers the call where there is space.
fn refuse(calls: &mut Record, faults: &mut u64, change: Change) -> Result<(), Failed>
    ensures fails { IsErr result }
    ensures cause { HasCause faults.old faults.new result }
    ensures tried { HasTried calls.old calls.new (Did change) }
{
    let _ = calls.note(change);
    fail(faults)
}

/// Remembers a call with its bytes. It fails where there is no space.
fn write(calls: &mut Record, faults: &mut u64, target: Target, piece: &[u8]) -> Result<(), Failed>
    ensures cause { HasCause faults.old faults.new result }
    ensures ok { OnOk result (calls.new ≡ calls.old ++ Wrote target piece.now ∷ []) }
    ensures err { OnErr result (calls.new ≡ calls.old) }
{
    match calls.write(target, piece) {
        Ok(()) => Ok(()),
        Err(_) => fail(faults),
    }
}

/// Fails, and puts the front of a piece at the end of a log where there is space.
fn write_some(
    calls: &mut Record,
    faults: &mut u64,
    log: u32,
    piece: &[u8],
    most: u64,
) -> Result<(), Failed>
    ensures fails { IsErr result }
    ensures cause { HasCause faults.old faults.new result }
    ensures tried { HasTried calls.old calls.new (Wrote (Target.End log) (take most piece.now)) }
{
    let _ = calls.write(Target::End(log), front(piece, most));
    fail(faults)
}

/// The first bytes of a piece, at most so many.
fn front(piece: &[u8], most: u64) -> &[u8]
    ensures { result.now ≡ take most piece.now }
{
    if most < piece.len() as u64 {
        &piece[..most as usize]
    } else {
        piece
    }
}

/// How many bytes go out of an append that is to fail.
fn part_of_append(reach: Reach) -> u64 {
    match reach {
        Reach::Nothing => 0,
        Reach::Part(bytes) => bytes,
        Reach::All => u64::MAX,
    }
}

/// How far a cut goes that is to fail.
fn part_of_cut(log: u32, len: u64, reach: Reach) -> Change
    ensures { IsCutChange log len result }
{
    match reach {
        Reach::Nothing => Change::Nothing,
        Reach::Part(_) => Change::HalfCut(log, len),
        Reach::All => Change::Cut(log, len),
    }
}

/// What a log began with.
fn first_bytes(begun: &[Text], log: u32) -> &[u8]
    ensures { result.now ≡ slice_index_or begun.now log [] }
{
    match begun.get(log as usize) {
        Some(bytes) => bytes.as_slice(),
        None => &[],
    }
}

impl Store for MemStore {
    ghost state = { λ s. store_of s.faults s.attached s.begun.items s.record };

    ghost whole = { λ s k told. whole_after k s.begun.items s.record };

    fn attach(&mut self, name: &Text) -> Result<(), Failed> {
        match reach_of(&self.failing, self.record.len()) {
            None => {
                match write(
                    &mut self.record,
                    &mut self.faults,
                    Target::Names,
                    name.as_slice(),
                ) {
                    Ok(()) => {}
                    Err(failed) => return Err(failed),
                }
                self.attached = true;
                Ok(())
            }
            Some(_) => refuse(&mut self.record, &mut self.faults, Change::Nothing),
        }
    }

    fn read_all(&mut self, alloc: Global, log: u32) -> Result<Text, ReadFault> {
        match reach_of(&self.failing, self.record.len()) {
            None => {}
            Some(_) => {
                let _ = refuse(&mut self.record, &mut self.faults, Change::Nothing);
                return Err(ReadFault::Failed);
            }
        }
        match perform(&mut self.record, &mut self.faults, Change::Nothing) {
            Ok(()) => {}
            Err(_) => return Err(ReadFault::Failed),
        }
        match self
            .record
            .content(alloc, first_bytes(&self.begun, log), log)
        {
            Ok(text) => {
                if text.len() > 1 << 28 {
                    return Err(ReadFault::TooLong);
                }
                Ok(text)
            }
            Err(_) => Err(ReadFault::NoMemory),
        }
    }

    fn append(&mut self, log: u32, piece: &[u8]) -> Result<(), Failed> {
        if piece.is_empty() {
            return Ok(());
        }
        match reach_of(&self.failing, self.record.len()) {
            None => write(&mut self.record, &mut self.faults, Target::End(log), piece),
            Some(reach) => write_some(
                &mut self.record,
                &mut self.faults,
                log,
                piece,
                part_of_append(reach),
            ),
        }
    }

    fn cut(&mut self, log: u32, len: u64) -> Result<(), Failed> {
        match reach_of(&self.failing, self.record.len()) {
            None => perform(&mut self.record, &mut self.faults, Change::Cut(log, len)),
            Some(reach) => refuse(
                &mut self.record,
                &mut self.faults,
                part_of_cut(log, len, reach),
            ),
        }
    }

    fn sync(&mut self, log: u32) -> Result<(), Failed> {
        match reach_of(&self.failing, self.record.len()) {
            None => perform(&mut self.record, &mut self.faults, Change::Sync(log)),
            Some(_) => refuse(&mut self.record, &mut self.faults, Change::Nothing),
        }
    }
}
