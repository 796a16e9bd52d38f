// The store of a command is attached, and the reports on a journal that is refused.
ghost use Rattle.std.specs.Prelude.{◌≡◌, ◌⊎◌, ◌≤◌, ◌+◌, ◌++◌, ◌∷◌, decimal, length, [], IsTrue, IfOk, IfErr, OnOk, codes};
ghost use Rattle.cube_io.specs.Causes.{Rose};
ghost use Rattle.cube_io.specs.Seen.{seen};
ghost use Rattle.cube_io.specs.Told.{SameLogs};
ghost use Rattle.cube_opening.specs.Reports.{IsReport, NoMessage};
ghost use Rattle.cube_starting.specs.Starting.{journal_text_as as journal_words, journal_status as status_for, IsCalm, AsksStore};

use cube_engine::StartFault;
use cube_io::Store;
use cube_journal::Digest;
use cube_model::{NoMemory, Text};
use cube_opening::{Message, Report, no_message, statuses, with_text};
use std::alloc::Global;

// The text on two digests of what is called so, of which the one that is kept is not that of now.
fn two_digests(
    alloc: Global,
    called: &[u8],
    front: &[u8],
    kept: &Digest,
    words: &[u8],
    now: &Digest,
) -> Result<Text, NoMemory>
    ensures { IfOk result (λ text. text ≡ called.now ++ front.now ++ kept.now ++ words.now ++ now.now ++ codes "\n") }
{
    let mut text = Text::from_bytes(alloc, called)?;
    text.extend(front)?;
    text.extend(kept.digits())?;
    text.extend(words)?;
    text.extend(now.digits())?;
    text.extend(b"\n")?;
    Ok(text)
}

/// The report on two digests of what is called so.
pub(crate) fn other_digest(
    alloc: Global,
    called: &[u8],
    front: &[u8],
    kept: &Digest,
    words: &[u8],
    now: &Digest,
) -> Report
    ensures { IsReport 4 (called.now ++ front.now ++ kept.now ++ words.now ++ now.now ++ codes "\n") result ⊎ NoMessage result }
{
    match two_digests(alloc, called, front, kept, words, now) {
        Ok(text) => with_text(alloc, statuses::JOURNAL_REFUSED, text),
        Err(_) => no_message(alloc),
    }
}

// The text on a line of a log, whose journal is called so.
fn line_message(message: Message, called: &[u8], line: u64, words: &[u8]) -> Message
    requires message { message ≡ [] }
    requires short { length called.now ≤ 40 }
    requires few { length words.now ≤ 32 }
    ensures { result ≡ called.now ++ codes ": line " ++ decimal line ++ words.now }
{
    message
        .with(called)
        .with(b": line ")
        .with_number(line)
        .with(words)
}

/// The report on a journal that was not opened, which is called so.
pub(crate) fn refuse_journal(
    alloc: Global,
    message: Message,
    called: &[u8],
    fault: StartFault,
) -> Report
    requires message { message ≡ [] }
    requires short { length called.now ≤ 40 }
    ensures { IsReport (status_for fault) (journal_words called.now fault) result ⊎ ((status_for fault ≡ 4) × NoMessage result) }
{
    match fault {
        StartFault::Failed => message
            .with(b"store failed\n")
            .close(alloc, statuses::STORE_FAILED),
        StartFault::NoMemory => message
            .with(b"no memory\n")
            .close(alloc, statuses::NO_MEMORY),
        StartFault::TooLong => message
            .with(called)
            .with(b": too long\n")
            .close(alloc, statuses::JOURNAL_REFUSED),
        StartFault::Damaged { line } => {
            line_message(message, called, line, b" damaged\n").close(
                alloc,
                statuses::JOURNAL_REFUSED,
            )
        }
        StartFault::Inadmissible { line } => {
            line_message(message, called, line, b" inadmissible\n").close(
                alloc,
                statuses::JOURNAL_REFUSED,
            )
        }
        StartFault::OtherCube { kept, now } => {
            other_digest(alloc, called, b": digest ", &kept, b" is not ", &now)
        }
    }
}

/// Attaches a store by its name.
pub(crate) fn attach_store<S: Store>(
    alloc: Global,
    message: Message,
    name: &Text,
    store: &mut S,
) -> Result<Message, Report>
    requires { message ≡ [] }
    ensures message { IfOk result (λ message. message ≡ []) }
    ensures err { IfErr result (λ r. IsReport 9 (codes "store failed\n") r × Rose (S.state store.old).faults (S.state store.new).faults) }
    ensures steady { OnOk result (IsCalm (seen S.state store.old store.new)) }
    ensures attached { OnOk result (IsTrue (S.state store.new).attached) }
    ensures names { OnOk result (IsTrue (S.state store.old).told → (S.state store.new).names ≡ (S.state store.old).names ++ name.now ∷ []) }
    ensures names_err { IfErr result (AsksStore name.now (seen S.state store.old store.new)) }
    ensures told { (S.state store.new).told ≡ (S.state store.old).told }
    ensures logs { SameLogs (S.state store.old) (S.state store.new) }
    ensures calls { IsTrue (S.state store.old).told → (S.state store.new).calls ≤ (S.state store.old).calls + 1 }
{
    match store.attach(name) {
        Ok(()) => Ok(message),
        Err(_) => Err(
            message
                .with(b"store failed\n")
                .close(alloc, statuses::STORE_FAILED),
        ),
    }
}
