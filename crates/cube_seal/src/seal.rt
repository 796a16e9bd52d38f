// A journal that is held by the seal beside it: the seal is compared before the journal is recovered, and held behind that.
ghost use Rattle.std.specs.Prelude.{◌≡◌, ◌≢◌, List, ℕ, true, IsTrue, OnOk, IfErr};
ghost use Rattle.cube_io.specs.Causes.{HasCause};
ghost use Rattle.cube_io.specs.States.{Gained};
ghost use Rattle.cube_io.specs.Told.{Works, OthersStay, SameLogs};
ghost use Rattle.cube_journal.specs.Digests.{is_digest};
ghost use Rattle.cube_seal.specs.Seals.{seal_line, seal_log as log_of, Agrees, IsSealed, IsSealable, IsEmptied, SealCause, IsSealFault};

use crate::SealFault;
use crate::fault::of_store;
use crate::reading::{Said, line_of, seal_in};
use cube_io::{Failed, SEAL_LOG, Store};
use cube_journal::Digest;
use std::alloc::Global;

/// Cuts a log to nothing, where bytes stand in it.
fn emptied<S: Store>(store: &mut S, log: u32, bytes: &[u8]) -> Result<(), Failed>
    requires attached { IsTrue (S.state store.old).attached }
    requires bytes { IsTrue (S.state store.old).told → ((S.state store.old).logs log).state.now ≡ bytes.now }
    ensures cause { HasCause (S.state store.old).faults (S.state store.new).faults result }
    ensures works { Works (S.state store.old) (S.state store.new) 1 }
    ensures others { OthersStay log (S.state store.old) (S.state store.new) }
    ensures ok { IsTrue (S.state store.old).told → OnOk result (IsEmptied ((S.state store.new).logs log).state) }
    ensures crash { IsTrue (S.state store.old).told → (digits : List ℕ) → IsSealable digits ((S.state store.old).logs log).state
        → Gained (IsSealable digits) ((S.state store.old).logs log) ((S.state store.new).logs log) }
    ensures leaves { IsTrue (S.state store.old).told → (digits : List ℕ) → IsSealable digits ((S.state store.old).logs log).state
        → IsSealable digits ((S.state store.new).logs log).state }
{
    if bytes.is_empty() {
        Ok(())
    } else {
        store.cut(log, 0)
    }
}

/// Puts the line of a seal into an empty log.
fn put<S: Store>(store: &mut S, log: u32, values: &Digest) -> Result<(), Failed>
    requires attached { IsTrue (S.state store.old).attached }
    requires emptied { IsTrue (S.state store.old).told → IsEmptied ((S.state store.old).logs log).state }
    ensures cause { HasCause (S.state store.old).faults (S.state store.new).faults result }
    ensures works { Works (S.state store.old) (S.state store.new) 1 }
    ensures others { OthersStay log (S.state store.old) (S.state store.new) }
    ensures lower { is_digest values.now ≡ true }
    ensures ok { IsTrue (S.state store.old).told → OnOk result (((S.state store.new).logs log).state.now ≡ seal_line values.now) }
    ensures crash { IsTrue (S.state store.old).told → IsSealable values.now ((S.state store.old).logs log).state
        → Gained (IsSealable values.now) ((S.state store.old).logs log) ((S.state store.new).logs log) }
    ensures leaves { IsTrue (S.state store.old).told → IsSealable values.now ((S.state store.old).logs log).state
        → IsSealable values.now ((S.state store.new).logs log).state }
{
    let line = line_of(values);
    store.append(log, line.as_slice())
}

/// Writes the seal in place of these bytes.
fn write<S: Store>(store: &mut S, log: u32, bytes: &[u8], values: &Digest) -> Result<(), Failed>
    requires attached { IsTrue (S.state store.old).attached }
    requires bytes { IsTrue (S.state store.old).told → ((S.state store.old).logs log).state.now ≡ bytes.now }
    ensures cause { HasCause (S.state store.old).faults (S.state store.new).faults result }
    ensures works { Works (S.state store.old) (S.state store.new) 2 }
    ensures others { OthersStay log (S.state store.old) (S.state store.new) }
    ensures lower { OnOk result (is_digest values.now ≡ true) }
    ensures ok { IsTrue (S.state store.old).told → OnOk result (((S.state store.new).logs log).state.now ≡ seal_line values.now) }
    ensures crash { IsTrue (S.state store.old).told → IsSealable values.now ((S.state store.old).logs log).state
        → Gained (IsSealable values.now) ((S.state store.old).logs log) ((S.state store.new).logs log) }
    ensures leaves { IsTrue (S.state store.old).told → IsSealable values.now ((S.state store.old).logs log).state
        → IsSealable values.now ((S.state store.new).logs log).state }
{
    match emptied(store, log, bytes) {
        Ok(()) => put(store, log, values),
        Err(failed) => Err(failed),
    }
}

/// Whether the values agree with what these bytes say.
fn agree(bytes: &[u8], values: &Digest) -> Result<(), SealFault>
    ensures agreed { OnOk result (Agrees values.now bytes.now) }
    ensures fault { IfErr result (IsSealFault values.now bytes.now) }
    ensures read { IfErr result (λ fault. fault ≢ SealFault.Failed) }
{
    match seal_in(bytes) {
        Said::Nothing => Ok(()),
        Said::Sealed(kept) => {
            if kept == *values {
                Ok(())
            } else {
                Err(SealFault::OtherValues { kept })
            }
        }
        Said::Damaged => Err(SealFault::Damaged),
    }
}

/// Compares the values with what these bytes say, and writes the seal where they say nothing yet.
fn compare<S: Store>(
    store: &mut S,
    log: u32,
    bytes: &[u8],
    values: &Digest,
) -> Result<(), SealFault>
    requires attached { IsTrue (S.state store.old).attached }
    requires bytes { IsTrue (S.state store.old).told → ((S.state store.old).logs log).state.now ≡ bytes.now }
    ensures cause { SealCause (S.state store.old).faults (S.state store.new).faults result }
    ensures works { Works (S.state store.old) (S.state store.new) 2 }
    ensures others { OthersStay log (S.state store.old) (S.state store.new) }
    ensures lower { OnOk result (is_digest values.now ≡ true) }
    ensures ok { IsTrue (S.state store.old).told → OnOk result (((S.state store.new).logs log).state.now ≡ seal_line values.now) }
    ensures agreed { OnOk result (Agrees values.now bytes.now) }
    ensures fault { IfErr result (IsSealFault values.now bytes.now) }
    ensures untouched { IsTrue (S.state store.old).told → IfErr result (λ fault. fault ≢ SealFault.Failed
        → (S.state store.new).logs log ≡ (S.state store.old).logs log) }
    ensures crash { IsTrue (S.state store.old).told → IsSealable values.now ((S.state store.old).logs log).state
        → Gained (IsSealable values.now) ((S.state store.old).logs log) ((S.state store.new).logs log) }
    ensures leaves { IsTrue (S.state store.old).told → IsSealable values.now ((S.state store.old).logs log).state
        → IsSealable values.now ((S.state store.new).logs log).state }
{
    match seal_in(bytes) {
        Said::Nothing => match write(store, log, bytes, values) {
            Ok(()) => Ok(()),
            Err(_) => Err(SealFault::Failed),
        },
        Said::Sealed(_) => agree(bytes, values),
        Said::Damaged => agree(bytes, values),
    }
}

/// Compares the values with the seal in a log, writes the seal where there is none yet, and puts it on the disk.
fn hold_log<S: Store>(
    alloc: Global,
    store: &mut S,
    log: u32,
    values: &Digest,
) -> Result<(), SealFault>
    requires { IsTrue (S.state store.old).attached }
    ensures cause { SealCause (S.state store.old).faults (S.state store.new).faults result }
    ensures works { Works (S.state store.old) (S.state store.new) 4 }
    ensures others { OthersStay log (S.state store.old) (S.state store.new) }
    ensures agreed { IsTrue (S.state store.old).told
        → OnOk result (Agrees values.now ((S.state store.old).logs log).state.now) }
    ensures sealed { IsTrue (S.state store.old).told
        → OnOk result (IsSealed values.now ((S.state store.new).logs log).state) }
    ensures fault { IsTrue (S.state store.old).told
        → IfErr result (IsSealFault values.now ((S.state store.old).logs log).state.now) }
    ensures untouched { IsTrue (S.state store.old).told → IfErr result (λ fault. fault ≢ SealFault.Failed
        → (S.state store.new).logs log ≡ (S.state store.old).logs log) }
    ensures crash { IsTrue (S.state store.old).told → IsSealable values.now ((S.state store.old).logs log).state
        → Gained (IsSealable values.now) ((S.state store.old).logs log) ((S.state store.new).logs log) }
    ensures leaves { IsTrue (S.state store.old).told → IsSealable values.now ((S.state store.old).logs log).state
        → IsSealable values.now ((S.state store.new).logs log).state }
{
    let bytes = match store.read_all(alloc, log) {
        Ok(bytes) => bytes,
        Err(fault) => return Err(of_store(fault)),
    };
    match compare(store, log, bytes.as_slice(), values) {
        Ok(()) => {}
        Err(fault) => return Err(fault),
    }
    match store.sync(log) {
        Ok(()) => Ok(()),
        Err(_) => Err(SealFault::Failed),
    }
}

/// The log of the seal that stands beside the journal in a log.
pub(crate) fn seal_log(journal: u32) -> u32
    ensures { result ≡ log_of journal }
{
    SEAL_LOG - journal
}

/// Compares the values with the seal of the journal in a log, before that journal is recovered. Nothing is written.
pub fn compare_seal<S: Store>(
    alloc: Global,
    store: &mut S,
    journal: u32,
    values: &Digest,
) -> Result<(), SealFault>
    requires { IsTrue (S.state store.old).attached }

    ensures cause { SealCause (S.state store.old).faults (S.state store.new).faults result }
    ensures works { Works (S.state store.old) (S.state store.new) 1 }
    ensures logs { SameLogs (S.state store.old) (S.state store.new) }

    // What agrees was not sealed yet or was sealed with these values, and each fault comes by the bytes of the seal.
    ensures agreed { IsTrue (S.state store.old).told
        → OnOk result (Agrees values.now ((S.state store.old).logs (log_of journal)).state.now) }
    ensures fault { IsTrue (S.state store.old).told
        → IfErr result (IsSealFault values.now ((S.state store.old).logs (log_of journal)).state.now) }
{
    match store.read_all(alloc, seal_log(journal)) {
        Ok(bytes) => agree(bytes.as_slice(), values),
        Err(fault) => Err(of_store(fault)),
    }
}

/// Compares the values with the seal of the journal in a log, writes the seal where there is none yet, and puts it on the disk.
pub fn hold_seal<S: Store>(
    alloc: Global,
    store: &mut S,
    journal: u32,
    values: &Digest,
) -> Result<(), SealFault>
    requires { IsTrue (S.state store.old).attached }

    ensures cause { SealCause (S.state store.old).faults (S.state store.new).faults result }
    ensures works { Works (S.state store.old) (S.state store.new) 4 }
    ensures others { OthersStay (log_of journal) (S.state store.old) (S.state store.new) }

    // A journal that is held was not sealed yet or was sealed with these values, and every crash leaves this seal.
    ensures agreed { IsTrue (S.state store.old).told
        → OnOk result (Agrees values.now ((S.state store.old).logs (log_of journal)).state.now) }
    ensures sealed { IsTrue (S.state store.old).told
        → OnOk result (IsSealed values.now ((S.state store.new).logs (log_of journal)).state) }

    // Each fault comes by the bytes of the log, and where no call of the store failed the log is as it was.
    ensures fault { IsTrue (S.state store.old).told
        → IfErr result (IsSealFault values.now ((S.state store.old).logs (log_of journal)).state.now) }
    ensures untouched { IsTrue (S.state store.old).told → IfErr result (λ fault. fault ≢ SealFault.Failed
        → (S.state store.new).logs (log_of journal) ≡ (S.state store.old).logs (log_of journal)) }

    // Where no crash leaves another seal, none does so at any moment of the call, nor after it.
    ensures crash { IsTrue (S.state store.old).told → IsSealable values.now ((S.state store.old).logs (log_of journal)).state
        → Gained (IsSealable values.now) ((S.state store.old).logs (log_of journal)) ((S.state store.new).logs (log_of journal)) }
    ensures leaves { IsTrue (S.state store.old).told → IsSealable values.now ((S.state store.old).logs (log_of journal)).state
        → IsSealable values.now ((S.state store.new).logs (log_of journal)).state }
{
    hold_log(alloc, store, seal_log(journal), values)
}
