// A journal puts lines at the end of a log, each on the disk before it is acknowledged.
ghost use Rattle.std.specs.Prelude.{◌≡◌, ◌≤◌, ◌<◌, ◌+◌, ◌^◌, ◌++◌, [], ◌∷◌, length, true, false, IsTrue, OnOk, OnErr, if◌then◌else◌};
ghost use Rattle.cube_io.specs.Causes.{HasCause};
ghost use Rattle.cube_io.specs.States.{Gained, settled};
ghost use Rattle.cube_io.specs.Told.{Works, OthersStay};
ghost use Rattle.cube_journal.specs.Lines.{IsLine};
ghost use Rattle.cube_journal.specs.Keeping.{Fits, KeepsSafe, IsInKeep, LeavesKept};

use crate::Line;
use cube_io::{Failed, Store};
use std::marker::Model;

/// Where the lines are kept. It stores no byte of them.
#[derive(Drop)]
pub struct Journal {
    log: u32,
    kept: u64,
    failed: bool,
}

impl Model for Journal {
    ghost Value = { Rattle.cube_journal.specs.Keeping.Journal };

    ghost view = { λ j. record { log = j.log; kept = j.kept; failed = j.failed } };
}

/// Cuts a log back to what is safe, and syncs it.
fn mend<S: Store>(store: &mut S, log: u32, kept: u64) -> Result<(), Failed>
    requires attached { IsTrue (S.state store.old).attached }
    requires long { IsTrue (S.state store.old).told → length ((S.state store.old).logs log).state.safe ≡ kept }
    ensures cause { HasCause (S.state store.old).faults (S.state store.new).faults result }
    ensures works { Works (S.state store.old) (S.state store.new) 2 }
    ensures others { OthersStay log (S.state store.old) (S.state store.new) }
    ensures trail { IsTrue (S.state store.old).told
        → Gained (KeepsSafe [] ((S.state store.old).logs log).state) ((S.state store.old).logs log) ((S.state store.new).logs log) }
    ensures keeps { IsTrue (S.state store.old).told → KeepsSafe [] ((S.state store.old).logs log).state ((S.state store.new).logs log).state }
    ensures ok { IsTrue (S.state store.old).told
        → OnOk result (((S.state store.new).logs log).state ≡ settled ((S.state store.old).logs log).state.safe) }
{
    match store.cut(log, kept) {
        Ok(()) => store.sync(log),
        Err(failed) => Err(failed),
    }
}

/// Puts a line behind what is safe, and syncs it.
pub(crate) fn put<S: Store>(store: &mut S, log: u32, line: &[u8]) -> Result<(), Failed>
    requires attached { IsTrue (S.state store.old).attached }
    requires quiet { IsTrue (S.state store.old).told → ((S.state store.old).logs log).state.now ≡ ((S.state store.old).logs log).state.safe }
    ensures cause { HasCause (S.state store.old).faults (S.state store.new).faults result }
    ensures works { Works (S.state store.old) (S.state store.new) 2 }
    ensures others { OthersStay log (S.state store.old) (S.state store.new) }
    ensures trail { IsTrue (S.state store.old).told
        → Gained (IsInKeep line.now ((S.state store.old).logs log).state) ((S.state store.old).logs log) ((S.state store.new).logs log) }
    ensures ok { IsTrue (S.state store.old).told
        → OnOk result (((S.state store.new).logs log).state ≡ settled (((S.state store.old).logs log).state.safe ++ line.now)) }
    ensures err { IsTrue (S.state store.old).told
        → OnErr result (KeepsSafe line.now ((S.state store.old).logs log).state ((S.state store.new).logs log).state) }
{
    match store.append(log, line) {
        Ok(()) => store.sync(log),
        Err(failed) => Err(failed),
    }
}

/// Cuts back what an earlier call that failed may have left.
fn ready<S: Store>(store: &mut S, log: u32, kept: u64, failed: bool) -> Result<(), Failed>
    requires attached { IsTrue (S.state store.old).attached }
    requires long { IsTrue (S.state store.old).told → length ((S.state store.old).logs log).state.safe ≡ kept }
    requires quiet { IsTrue (S.state store.old).told → failed ≡ false
        → ((S.state store.old).logs log).state.now ≡ ((S.state store.old).logs log).state.safe }
    ensures cause { HasCause (S.state store.old).faults (S.state store.new).faults result }
    ensures works { Works (S.state store.old) (S.state store.new) (if failed then 2 else 0) }
    ensures others { OthersStay log (S.state store.old) (S.state store.new) }
    ensures trail { IsTrue (S.state store.old).told
        → Gained (KeepsSafe [] ((S.state store.old).logs log).state) ((S.state store.old).logs log) ((S.state store.new).logs log) }
    ensures keeps { IsTrue (S.state store.old).told → KeepsSafe [] ((S.state store.old).logs log).state ((S.state store.new).logs log).state }
    ensures ok { IsTrue (S.state store.old).told
        → OnOk result (((S.state store.new).logs log).state.now ≡ ((S.state store.new).logs log).state.safe) }
    ensures was { OnErr result (failed ≡ true) }
{
    if failed {
        mend(store, log, kept)
    } else {
        Ok(())
    }
}

impl Journal {
    /// A journal whose log has so many bytes, all of them kept.
    pub(crate) fn at(log: u32, kept: u64) -> Journal
        ensures { result ≡ record { log = log; kept = kept; failed = false } }
    {
        Journal {
            log,
            kept,
            failed: false,
        }
    }

    /// The length of the kept bytes.
    pub fn kept(&self) -> u64
        ensures { result ≡ self.now.kept }
    {
        self.kept
    }

    // Puts a line behind the kept ones.
    fn keep_bytes<S: Store>(&mut self, store: &mut S, line: &[u8]) -> Result<(), Failed>
        requires attached { IsTrue (S.state store.old).attached }
        requires fits { IsTrue (S.state store.old).told → Fits ((S.state store.old).logs self.old.log).state self.old }
        requires line { IsLine line.now }
        requires short { length line.now ≤ 2 ^ 14 }
        requires capacity { self.old.kept ≤ 2 ^ 40 }

        ensures cause { HasCause (S.state store.old).faults (S.state store.new).faults result }
        ensures works { Works (S.state store.old) (S.state store.new) (if self.old.failed then 4 else 2) }
        ensures others { OthersStay self.old.log (S.state store.old) (S.state store.new) }

        // The journal is that of the log afterwards too.
        ensures log { self.new.log ≡ self.old.log }
        ensures fits { IsTrue (S.state store.old).told → Fits ((S.state store.new).logs self.old.log).state self.new }

        // At Ok the kept bytes gained the line, and every crash leaves just them. At Err they stay.
        ensures ok { IsTrue (S.state store.old).told → OnOk result
            (((S.state store.new).logs self.old.log).state ≡ settled (((S.state store.old).logs self.old.log).state.safe ++ line.now)) }
        ensures longer { OnOk result (self.new.kept ≡ self.old.kept + length line.now) }
        ensures quiet { OnOk result (self.new.failed ≡ false) }
        ensures err { IsTrue (S.state store.old).told → OnErr result
            (KeepsSafe line.now ((S.state store.old).logs self.old.log).state ((S.state store.new).logs self.old.log).state) }
        ensures same { OnErr result (self.new.kept ≡ self.old.kept) }

        // At each moment of the call a crash leaves the kept lines, alone or with one more.
        ensures states { IsTrue (S.state store.old).told
            → Gained (IsInKeep line.now ((S.state store.old).logs self.old.log).state)
            ((S.state store.old).logs self.old.log) ((S.state store.new).logs self.old.log) }
        ensures crash { IsTrue (S.state store.old).told
            → Gained (LeavesKept line.now ((S.state store.old).logs self.old.log).state)
            ((S.state store.old).logs self.old.log) ((S.state store.new).logs self.old.log) }
    {
        match ready(store, self.log, self.kept, self.failed) {
            Ok(()) => {}
            Err(failed) => return Err(failed),
        }
        match put(store, self.log, line) {
            Ok(()) => {
                self.failed = false;
                self.kept += line.len() as u64;
                Ok(())
            }
            Err(failed) => {
                self.failed = true;
                Err(failed)
            }
        }
    }

    /// Puts a line behind the kept ones. At Ok it is on the disk. After a failed call the next one
    /// first cuts the log back to the kept bytes.
    pub fn keep<S: Store>(&mut self, store: &mut S, line: &Line) -> Result<(), Failed>
        requires attached { IsTrue (S.state store.old).attached }
        requires fits { IsTrue (S.state store.old).told → Fits ((S.state store.old).logs self.old.log).state self.old }
        requires capacity { self.old.kept ≤ 2 ^ 40 }

        ensures cause { HasCause (S.state store.old).faults (S.state store.new).faults result }
        ensures works { Works (S.state store.old) (S.state store.new) (if self.old.failed then 4 else 2) }
        ensures others { OthersStay self.old.log (S.state store.old) (S.state store.new) }

        // The journal is that of the log afterwards too.
        ensures log { self.new.log ≡ self.old.log }
        ensures fits { IsTrue (S.state store.old).told → Fits ((S.state store.new).logs self.old.log).state self.new }

        // At Ok the kept bytes gained the line, and every crash leaves just them. At Err they stay.
        ensures ok { IsTrue (S.state store.old).told → OnOk result
            (((S.state store.new).logs self.old.log).state ≡ settled (((S.state store.old).logs self.old.log).state.safe ++ line.now)) }
        ensures longer { OnOk result (self.new.kept ≡ self.old.kept + length line.now) }
        ensures quiet { OnOk result (self.new.failed ≡ false) }
        ensures err { IsTrue (S.state store.old).told → OnErr result
            (KeepsSafe line.now ((S.state store.old).logs self.old.log).state ((S.state store.new).logs self.old.log).state) }
        ensures same { OnErr result (self.new.kept ≡ self.old.kept) }

        // At each moment of the call a crash leaves the kept lines, alone or with one more.
        ensures states { IsTrue (S.state store.old).told
            → Gained (IsInKeep line.now ((S.state store.old).logs self.old.log).state)
            ((S.state store.old).logs self.old.log) ((S.state store.new).logs self.old.log) }
        ensures crash { IsTrue (S.state store.old).told
            → Gained (LeavesKept line.now ((S.state store.old).logs self.old.log).state)
            ((S.state store.old).logs self.old.log) ((S.state store.new).logs self.old.log) }
    {
        self.keep_bytes(store, line.as_slice())
    }
}
