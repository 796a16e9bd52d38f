// What a log gives back, and the repair of its end.
ghost use Rattle.std.specs.Prelude.{◌≡◌, ◌≢◌, ◌⊎◌, ◌≤◌, ◌<◌, ◌+◌, ◌^◌, [], List, ℕ, true, false, Ok, length, take, drop, IsTrue, IfOk, OnOk, IfErr, IsErrOf, nat_eq};
ghost use Rattle.std.specs.List.{starts_with};
ghost use Rattle.cube_io.specs.Causes.{HasCause, ReadCause};
ghost use Rattle.cube_io.specs.declared.faults.ReadFault.TheVariants as read;
ghost use Rattle.cube_io.specs.States.{Gained, IsImage, IsInSync, settled};
ghost use Rattle.cube_io.specs.Told.{Works, OthersStay};
ghost use Rattle.cube_journal.specs.Lines.{IsEnded, IsInLine, ended_lines};
ghost use Rattle.cube_journal.specs.Keeping.{IsCutShort, KeepsLines, IsBegun, Restores, IsInRecovery, Fits};
ghost use Rattle.cube_journal.specs.Opening.{OpenCause, IsFaultOf};
ghost use Rattle.cube_journal.specs.Recovery.{first_line, kept_of, recovered};
ghost use Rattle.cube_journal.specs.Sound.{IsSound};
ghost use Rattle.cube_model.specs.Cubes.{Each};

use crate::fault::{of_journal, of_store};
use crate::first::first_line;
use crate::history::read_history;
use crate::keep::put;
use crate::{Digest, Journal, OpenFault};
use cube_io::{Failed, ReadFault, Store};
use cube_model::{Dims, History, Policy, Text};
use std::alloc::Global;

/// Reads a log and syncs it. To read it comes first, since it can say that there is no memory to open the log.
fn look<S: Store>(alloc: Global, store: &mut S, log: u32) -> Result<Text, ReadFault>
    requires { IsTrue (S.state store.old).attached }
    ensures cause { ReadCause (S.state store.old).faults (S.state store.new).faults result }
    ensures works { Works (S.state store.old) (S.state store.new) 2 }
    ensures others { OthersStay log (S.state store.old) (S.state store.new) }
    ensures trail { IsTrue (S.state store.old).told
        → Gained (IsInSync ((S.state store.old).logs log).state) ((S.state store.old).logs log) ((S.state store.new).logs log) }
    ensures now { IsTrue (S.state store.old).told → ((S.state store.new).logs log).state.now ≡ ((S.state store.old).logs log).state.now }
    ensures ok { IsTrue (S.state store.old).told
        → OnOk result (((S.state store.new).logs log).state ≡ settled ((S.state store.old).logs log).state.now) }
    ensures bytes { IsTrue (S.state store.old).told → IfOk result (λ bytes. bytes ≡ ((S.state store.old).logs log).state.now) }
    ensures fits { IfOk result (λ bytes. length bytes ≤ 2 ^ 28) }
    ensures long { IsTrue (S.state store.old).told → IsErrOf result read.TooLong
        → 2 ^ 28 < length ((S.state store.old).logs log).state.now }
{
    let bytes = store.read_all(alloc, log)?;
    match store.sync(log) {
        Ok(()) => Ok(bytes),
        Err(_) => Err(ReadFault::Failed),
    }
}

/// Cuts a log to its first bytes, and syncs it.
fn trim<S: Store>(store: &mut S, log: u32, len: u64) -> Result<(), Failed>
    requires attached { IsTrue (S.state store.old).attached }
    requires settled { IsTrue (S.state store.old).told
        → ((S.state store.old).logs log).state ≡ settled ((S.state store.old).logs log).state.now }
    requires within { IsTrue (S.state store.old).told → len ≤ length ((S.state store.old).logs log).state.now }
    ensures cause { HasCause (S.state store.old).faults (S.state store.new).faults result }
    ensures works { Works (S.state store.old) (S.state store.new) 2 }
    ensures others { OthersStay log (S.state store.old) (S.state store.new) }
    ensures trail { IsTrue (S.state store.old).told
        → Gained (λ s. (b : List ℕ) → IsImage s b → IsCutShort len ((S.state store.old).logs log).state.now b)
        ((S.state store.old).logs log) ((S.state store.new).logs log) }
    ensures ok { IsTrue (S.state store.old).told
        → OnOk result (((S.state store.new).logs log).state ≡ settled (take len ((S.state store.old).logs log).state.now)) }
{
    match store.cut(log, len) {
        Ok(()) => store.sync(log),
        Err(failed) => Err(failed),
    }
}

/// The length of the ended lines.
fn ended_len(bytes: &[u8]) -> usize
    ensures within { result ≤ length bytes.now }
    ensures ended { IsEnded (take result bytes.now) }
    ensures rest { IsInLine (drop result bytes.now) }
{
    let mut end = 0;
    for (i, byte) in bytes.iter().enumerate() {
        if *byte == 10 {
            end = i + 1;
        }
    }
    end
}

/// Cuts away what stands behind the ended lines, which have this length.
fn cut_back<S: Store>(store: &mut S, log: u32, bytes: &[u8], end: usize) -> Result<(), Failed>
    requires attached { IsTrue (S.state store.old).attached }
    requires settled { IsTrue (S.state store.old).told → ((S.state store.old).logs log).state ≡ settled bytes.now }
    requires within { end ≤ length bytes.now }
    requires ended { IsEnded (take end bytes.now) }
    requires rest { IsInLine (drop end bytes.now) }
    ensures cause { HasCause (S.state store.old).faults (S.state store.new).faults result }
    ensures works { Works (S.state store.old) (S.state store.new) 2 }
    ensures others { OthersStay log (S.state store.old) (S.state store.new) }
    ensures trail { IsTrue (S.state store.old).told
        → Gained (KeepsLines bytes.now) ((S.state store.old).logs log) ((S.state store.new).logs log) }
    ensures ok { IsTrue (S.state store.old).told
        → OnOk result (((S.state store.new).logs log).state ≡ settled (take end bytes.now)) }
{
    if end == bytes.len() {
        Ok(())
    } else {
        trim(store, log, end as u64)
    }
}

/// Cuts a log that is the beginning of its first line to nothing.
fn emptied<S: Store>(store: &mut S, log: u32, bytes: &[u8], head: &[u8]) -> Result<(), Failed>
    requires attached { IsTrue (S.state store.old).attached }
    requires settled { IsTrue (S.state store.old).told → ((S.state store.old).logs log).state ≡ settled bytes.now }
    requires starts { starts_with nat_eq head.now bytes.now ≡ true }
    ensures cause { HasCause (S.state store.old).faults (S.state store.new).faults result }
    ensures works { Works (S.state store.old) (S.state store.new) 2 }
    ensures others { OthersStay log (S.state store.old) (S.state store.new) }
    ensures trail { IsTrue (S.state store.old).told
        → Gained (IsBegun head.now) ((S.state store.old).logs log) ((S.state store.new).logs log) }
    ensures ok { IsTrue (S.state store.old).told → OnOk result (((S.state store.new).logs log).state ≡ settled []) }
{
    if bytes.is_empty() {
        Ok(())
    } else {
        trim(store, log, 0)
    }
}

/// Takes a log that is the beginning of its first line, and writes that line.
fn begin<S: Store>(store: &mut S, log: u32, bytes: &[u8], head: &[u8]) -> Result<(), Failed>
    requires attached { IsTrue (S.state store.old).attached }
    requires settled { IsTrue (S.state store.old).told → ((S.state store.old).logs log).state ≡ settled bytes.now }
    requires starts { starts_with nat_eq head.now bytes.now ≡ true }
    ensures cause { HasCause (S.state store.old).faults (S.state store.new).faults result }
    ensures works { Works (S.state store.old) (S.state store.new) 4 }
    ensures others { OthersStay log (S.state store.old) (S.state store.new) }
    ensures trail { IsTrue (S.state store.old).told
        → Gained (IsBegun head.now) ((S.state store.old).logs log) ((S.state store.new).logs log) }
    ensures ok { IsTrue (S.state store.old).told → OnOk result (((S.state store.new).logs log).state ≡ settled head.now) }
{
    match emptied(store, log, bytes, head) {
        Ok(()) => put(store, log, head),
        Err(failed) => Err(failed),
    }
}

/// Repairs the end of a log, and begins it where no line ended. Gives the length that is kept.
fn repair<S: Store>(store: &mut S, log: u32, bytes: &[u8], head: &[u8]) -> Result<usize, Failed>
    requires attached { IsTrue (S.state store.old).attached }
    requires settled { IsTrue (S.state store.old).told → ((S.state store.old).logs log).state ≡ settled bytes.now }
    requires begins { ended_lines bytes.now ≡ [] → starts_with nat_eq head.now bytes.now ≡ true }
    ensures cause { HasCause (S.state store.old).faults (S.state store.new).faults result }
    ensures works { Works (S.state store.old) (S.state store.new) 4 }
    ensures others { OthersStay log (S.state store.old) (S.state store.new) }
    ensures trail { IsTrue (S.state store.old).told
        → Gained (Restores head.now bytes.now) ((S.state store.old).logs log) ((S.state store.new).logs log) }
    ensures ok { IsTrue (S.state store.old).told
        → OnOk result (((S.state store.new).logs log).state ≡ settled (kept_of head.now bytes.now)) }
    ensures kept { IfOk result (λ kept. kept ≡ length (kept_of head.now bytes.now)) }
    ensures within { IfOk result (λ kept. (kept ≤ length bytes.now) ⊎ (kept ≡ length head.now)) }
{
    let end = ended_len(bytes);
    if end == 0 {
        match begin(store, log, bytes, head) {
            Ok(()) => Ok(head.len()),
            Err(failed) => Err(failed),
        }
    } else {
        match cut_back(store, log, bytes, end) {
            Ok(()) => Ok(end),
            Err(failed) => Err(failed),
        }
    }
}

impl Journal {
    /// Opens a log as the journal of the cube with this digest, repairs its end, and gives the history that it writes. A
    /// log that is the beginning of a first line, as an empty one, gets that line.
    pub fn recover<S: Store>(
        alloc: Global,
        store: &mut S,
        log: u32,
        digest: &Digest,
        dims: &Dims,
        policy: &Policy,
        places: u32,
    ) -> Result<(Journal, History), OpenFault>
        requires { IsTrue (S.state store.old).attached }

        ensures cause { OpenCause (S.state store.old).faults (S.state store.new).faults result }
        ensures works { Works (S.state store.old) (S.state store.new) 6 }
        ensures others { OthersStay log (S.state store.old) (S.state store.new) }

        // The history is that of the bytes, and each fault comes by them.
        ensures history { IsTrue (S.state store.old).told → IfOk result (λ opened.
            recovered digest.now dims.now policy.now places ((S.state store.old).logs log).state.now ≡ Ok opened.1) }
        ensures short { IsTrue (S.state store.old).told → OnOk result (length ((S.state store.old).logs log).state.now ≤ 2 ^ 28) }
        ensures fault { IsTrue (S.state store.old).told → IfErr result (λ fault.
            IsFaultOf (recovered digest.now dims.now policy.now places ((S.state store.old).logs log).state.now) ((S.state store.old).logs log).state.now fault) }

        // What it recovers are requests of the dimensions, sources and links of the measures.
        ensures sound { IfOk result (λ opened. Each (IsSound dims.now policy.now places) opened.1) }

        // A journal that is opened keeps the ended lines, or a first line where there was none; every crash leaves just these.
        ensures ok { IsTrue (S.state store.old).told → OnOk result
            (((S.state store.new).logs log).state ≡ settled (kept_of (first_line digest.now) ((S.state store.old).logs log).state.now)) }
        ensures fits { IsTrue (S.state store.old).told → IfOk result (λ opened. Fits ((S.state store.new).logs log).state opened.0) }
        ensures log { IfOk result (λ opened. opened.0.log ≡ log) }
        ensures quiet { IfOk result (λ opened. opened.0.failed ≡ false) }
        ensures within { IfOk result (λ opened. opened.0.kept ≤ 2 ^ 28) }

        // A log that is refused reads as before.
        ensures same { IsTrue (S.state store.old).told → IfErr result (λ fault. fault ≢ OpenFault.Failed
            → ((S.state store.new).logs log).state.now ≡ ((S.state store.old).logs log).state.now) }

        // At each moment of the call the log is as at entry, or each image recovers what the log recovered at entry.
        ensures crash { IsTrue (S.state store.old).told
            → Gained (IsInRecovery (recovered digest.now dims.now policy.now places) ((S.state store.old).logs log).state)
            ((S.state store.old).logs log) ((S.state store.new).logs log) }
    {
        let _rules = dims.dimensions();
        let bytes = match look(alloc, store, log) {
            Ok(bytes) => bytes,
            Err(fault) => return Err(of_store(fault)),
        };
        let Ok(first) = first_line(alloc, digest) else {
            return Err(OpenFault::NoMemory);
        };
        let read = read_history(
            alloc,
            digest,
            dims,
            policy,
            places,
            bytes.as_slice(),
            first.as_slice(),
        );
        let history = match read {
            Ok(history) => history,
            Err(fault) => return Err(of_journal(fault)),
        };
        match repair(store, log, bytes.as_slice(), first.as_slice()) {
            Ok(kept) => Ok((Journal::at(log, kept as u64), history)),
            Err(_) => Err(OpenFault::Failed),
        }
    }
}
