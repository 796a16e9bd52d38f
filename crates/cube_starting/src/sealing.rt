// The seals beside journals: each is compared before its journal is recovered, and held behind that.
ghost use Rattle.std.specs.Prelude.{◌≡◌, ◌⊎◌, ◌≤◌, ◌+◌, ◌*◌, [], IsTrue, IfOk, IfErr, OnOk, length};
ghost use Rattle.cube_io.specs.Seen.{seen};
ghost use Rattle.cube_io.specs.Told.{OthersStay, SameLogs, Works};
ghost use Rattle.cube_model.specs.Cubes.{Each};
ghost use Rattle.cube_opening.specs.Reports.{IsReport, NoMessage};
ghost use Rattle.cube_seal.specs.Seals.{seal_log, Agrees, IsSealed};
ghost use Rattle.cube_starting.specs.Grouping.{AllAgree, AllSealed, AllSeals, EndsAtSeals, OnlySeals};
ghost use Rattle.cube_starting.specs.Starting.{seal_text_as as seal_words, seal_status, EndsAtSeal, IsCalm, SealsIn};

use crate::starting::other_digest;
use cube_io::Store;
use cube_journal::Digest;
use cube_model::Text;
use cube_opening::{Message, Report, statuses};
use cube_seal::{SealFault, compare_seal, hold_seal};
use std::alloc::Global;

// The report on a journal that its seal does not hold, which is called so.
fn refuse_seal(
    alloc: Global,
    message: Message,
    called: &[u8],
    fault: SealFault,
    values: &Digest,
) -> Report
    requires message { message ≡ [] }
    requires short { length called.now ≤ 40 }
    ensures { IsReport (seal_status fault) (seal_words called.now values.now fault) result ⊎ ((seal_status fault ≡ 4) × NoMessage result) }
{
    match fault {
        SealFault::Failed => message
            .with(b"store failed\n")
            .close(alloc, statuses::STORE_FAILED),
        SealFault::NoMemory => message
            .with(b"no memory\n")
            .close(alloc, statuses::NO_MEMORY),
        SealFault::Damaged => message
            .with(called)
            .with(b": seal damaged\n")
            .close(alloc, statuses::JOURNAL_REFUSED),
        SealFault::OtherValues { kept } => {
            other_digest(alloc, called, b": values ", &kept, b" are not ", values)
        }
    }
}

/// Compares the values with the seal of the journal in a log, which is called so. Nothing is written.
pub(crate) fn compare_one<S: Store>(
    alloc: Global,
    message: Message,
    called: &[u8],
    log: u32,
    values: &Digest,
    store: &mut S,
) -> Result<Message, Report>
    requires message { message ≡ [] }
    requires short { length called.now ≤ 40 }
    requires attached { IsTrue (S.state store.old).attached }
    ensures message { IfOk result (λ message. message ≡ []) }
    ensures agreed { IsTrue (S.state store.old).told → OnOk result (Agrees values.now ((S.state store.old).logs (seal_log log)).state.now) }
    ensures err { IfErr result (EndsAtSeal log called.now values.now (seen S.state store.old store.new)) }
    ensures steady { OnOk result (IsCalm (seen S.state store.old store.new)) }
    ensures logs { SameLogs (S.state store.old) (S.state store.new) }
    ensures works { Works (S.state store.old) (S.state store.new) 1 }
{
    match compare_seal(alloc, store, log, values) {
        Ok(()) => Ok(message),
        Err(fault) => Err(refuse_seal(alloc, message, called, fault, values)),
    }
}

/// Holds the journal in a log, which is called so, by the seal of the values.
pub(crate) fn hold_one<S: Store>(
    alloc: Global,
    message: Message,
    called: &[u8],
    log: u32,
    values: &Digest,
    store: &mut S,
) -> Result<Message, Report>
    requires message { message ≡ [] }
    requires short { length called.now ≤ 40 }
    requires attached { IsTrue (S.state store.old).attached }
    ensures message { IfOk result (λ message. message ≡ []) }
    ensures agreed { IsTrue (S.state store.old).told → OnOk result (Agrees values.now ((S.state store.old).logs (seal_log log)).state.now) }
    ensures sealed { IsTrue (S.state store.old).told → OnOk result (IsSealed values.now ((S.state store.new).logs (seal_log log)).state) }
    ensures seals { SealsIn log values.now (seen S.state store.old store.new) }
    ensures err { IfErr result (EndsAtSeal log called.now values.now (seen S.state store.old store.new)) }
    ensures steady { OnOk result (IsCalm (seen S.state store.old store.new)) }
    ensures others { OthersStay (seal_log log) (S.state store.old) (S.state store.new) }
    ensures works { Works (S.state store.old) (S.state store.new) 4 }
{
    match hold_seal(alloc, store, log, values) {
        Ok(()) => Ok(message),
        Err(fault) => Err(refuse_seal(alloc, message, called, fault, values)),
    }
}

/// Compares the values with the seal of each journal, which are called so, in the logs from a number on. Nothing is written.
pub(crate) fn compare_all<S: Store>(
    alloc: Global,
    message: Message,
    called: &[Text],
    log: u32,
    values: &Digest,
    store: &mut S,
) -> Result<Message, Report>
    requires message { message ≡ [] }
    requires short { Each (λ name. length name ≤ 40) called.now }
    requires few { log + length called.now ≤ 16 }
    requires attached { IsTrue (S.state store.old).attached }
    ensures message { IfOk result (λ message. message ≡ []) }
    ensures agreed { IsTrue (S.state store.old).told → OnOk result (AllAgree values.now (S.state store.old) log called.now) }
    ensures err { IfErr result (EndsAtSeals log called.now values.now (seen S.state store.old store.new)) }
    ensures steady { OnOk result (IsCalm (seen S.state store.old store.new)) }
    ensures logs { SameLogs (S.state store.old) (S.state store.new) }
    ensures works { Works (S.state store.old) (S.state store.new) (length called.now) }
{
    let [name, rest @ ..] = called else {
        return Ok(message);
    };
    match compare_one(alloc, message, name.as_slice(), log, values, store) {
        Ok(message) => compare_all(alloc, message, rest, log + 1, values, store),
        Err(report) => Err(report),
    }
}

/// Holds each journal, which are called so, in the logs from a number on, by a seal of the values.
pub(crate) fn hold_all<S: Store>(
    alloc: Global,
    message: Message,
    called: &[Text],
    log: u32,
    values: &Digest,
    store: &mut S,
) -> Result<Message, Report>
    requires message { message ≡ [] }
    requires short { Each (λ name. length name ≤ 40) called.now }
    requires few { log + length called.now ≤ 16 }
    requires attached { IsTrue (S.state store.old).attached }
    ensures message { IfOk result (λ message. message ≡ []) }
    ensures sealed { IsTrue (S.state store.old).told → OnOk result (AllSealed values.now (S.state store.new) log called.now) }
    ensures seals { AllSeals values.now (seen S.state store.old store.new) log called.now }
    ensures err { IfErr result (EndsAtSeals log called.now values.now (seen S.state store.old store.new)) }
    ensures steady { OnOk result (IsCalm (seen S.state store.old store.new)) }
    ensures others { OnlySeals log (length called.now) (S.state store.old) (S.state store.new) }
    ensures works { Works (S.state store.old) (S.state store.new) (4 * length called.now) }
{
    let [name, rest @ ..] = called else {
        return Ok(message);
    };
    match hold_one(alloc, message, name.as_slice(), log, values, store) {
        Ok(message) => hold_all(alloc, message, rest, log + 1, values, store),
        Err(report) => Err(report),
    }
}
