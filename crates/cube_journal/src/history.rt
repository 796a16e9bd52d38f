// The history that the bytes of a journal write.
ghost use Rattle.std.specs.Prelude.{◌≡◌, ◌≤◌, ◌<◌, ◌^◌, ◌∷◌, [], ◌&&◌, ◌||◌, length, Some, ◌==◌, is_some, not, IfOk, IfSome, IfNone};
ghost use Rattle.std.specs.List.{position};
ghost use Rattle.cube_model.specs.Answers.{Answers};
ghost use Rattle.cube_journal.specs.Lines.{ended_lines};
ghost use Rattle.cube_journal.specs.Recovery.{entry_of, is_request_line, is_second, lines_in, recovered, first_line};
ghost use Rattle.cube_journal.specs.declared.fault.JournalFault.TheVariants as fault;

use crate::first::{Version, read_first};
use crate::reading::read_entry;
use crate::{Digest, JournalFault};
use cube_model::{Dims, Entry, History, NoMemory, Policy};
use std::alloc::Global;

impl From<NoMemory> for JournalFault {
    ghost from_gives = { λ _ e. e ≡ fault.NoMemory };

    fn from(_error: NoMemory) -> JournalFault {
        JournalFault::NoMemory
    }
}

fn find_feed(bytes: &[u8]) -> Option<usize>
    ensures at { result ≡ position (λ b. b == 10) bytes.now }
    ensures within { IfSome result (λ at. at < length bytes.now) }
{
    bytes.iter().position(|byte| *byte == b'\n')
}

/// The first line that ends, without its line feed, and what stands behind it.
#[tactic(auto, using(crate::proofs::Fields::line_some, crate::proofs::Fields::line_none))]
fn cut_line(bytes: &[u8]) -> Option<(&[u8], &[u8])>
    ensures some { IfSome result (λ cut. ended_lines bytes.now ≡ cut.0.now ∷ ended_lines cut.1.now) }
    ensures shorter { IfSome result (λ cut. length cut.1.now < length bytes.now) }
    ensures none { IfNone result (ended_lines bytes.now ≡ []) }
{
    match find_feed(bytes) {
        Some(at) => Some((&bytes[..at], &bytes[at + 1..])),
        None => None,
    }
}

/// The entry of a line, where it is sound behind the earlier lines: those have a request or not.
fn read_line(
    alloc: Global,
    dims: &Dims,
    policy: &Policy,
    places: u32,
    holds: bool,
    text: &[u8],
) -> Result<Option<Entry>, NoMemory>
    ensures some { IfOk result (λ entry. IfSome entry (λ e. entry_of dims.now policy.now places text.now ≡ Some e)) }
    ensures sound { IfOk result (λ entry. is_some entry ≡ (is_some (entry_of dims.now policy.now places text.now) && (is_request_line text.now || holds))) }
{
    let entry = read_entry(alloc, dims, policy, places, text)?;
    if holds || text.starts_with(b"q ") {
        Ok(entry)
    } else {
        Ok(None)
    }
}

/// Whether sources and links may stand in this version.
fn is_second(version: Version) -> bool
    ensures { result ≡ is_second version }
{
    match version {
        Version::One => false,
        Version::Two => true,
    }
}

/// Whether sources and links may stand behind a line too.
fn still_holds(holds: bool, text: &[u8]) -> bool
    ensures { result ≡ (holds && not (is_request_line text.now)) }
{
    holds && !text.starts_with(b"q ")
}

/// The entries of the lines behind the first.
fn read_lines(
    alloc: Global,
    dims: &Dims,
    policy: &Policy,
    places: u32,
    version: Version,
    bytes: &[u8],
) -> Result<History, JournalFault>
    requires { length bytes.now ≤ 2 ^ 28 }
    ensures { Answers fault.NoMemory result (lines_in dims.now policy.now places version (ended_lines bytes.now)) }
{
    let mut history = History::new(alloc);
    let mut rest = bytes;
    let mut line = 2u64;
    let mut holds = is_second(version);
    'lines: while let Some((text, more)) = cut_line(rest) {
        let Some(entry) = read_line(alloc, dims, policy, places, holds, text)? else {
            return Err(JournalFault::Damaged { line });
        };
        history.push(entry)?;
        holds = still_holds(holds, text);
        line += 1;
        rest = more;
    }
    Ok(history)
}

/// The history that the bytes of a journal write, or the first fault.
#[tactic(auto, unfolding(crate::specs::Recovery::recovered))]
pub fn read_history(
    alloc: Global,
    digest: &Digest,
    dims: &Dims,
    policy: &Policy,
    places: u32,
    bytes: &[u8],
    first: &[u8],
) -> Result<History, JournalFault>
    requires short { length bytes.now ≤ 2 ^ 28 }
    requires first { first.now ≡ first_line digest.now }
    ensures { Answers fault.NoMemory result (recovered digest.now dims.now policy.now places bytes.now) }
{
    let Some((line, rest)) = cut_line(bytes) else {
        if first.starts_with(bytes) {
            return Ok(History::new(alloc));
        }
        return Err(JournalFault::Damaged { line: 1 });
    };
    let Some((version, kept)) = read_first(line) else {
        return Err(JournalFault::Damaged { line: 1 });
    };
    if kept != *digest {
        return Err(JournalFault::OtherCube { kept, now: *digest });
    }
    read_lines(alloc, dims, policy, places, version, rest)
}
