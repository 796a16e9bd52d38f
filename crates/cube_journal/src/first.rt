// The first line of a journal.
ghost use Rattle.std.specs.Prelude.{◌≡◌, length, drop, true, false, None, Some, IfOk, OnOk, IfSome, IfNone};
ghost use Rattle.cube_journal.specs.Digests.{is_digest};
ghost use Rattle.cube_journal.specs.Lines.{IsLine};
ghost use Rattle.cube_journal.specs.Recovery.{head_words, head_line, first_line, is_first, version_of};

use crate::Digest;
use cube_model::{NoMemory, Text};
use std::alloc::Global;

/// The version of a journal's format.
#[derive(Clone, Copy, Debug, PartialEq, Eq)]
pub enum Version {
    /// It has requests alone.
    One,
    /// Sources and links may stand before its requests.
    Two,
}

/// The words that begin a journal of a version.
fn head_words(version: Version) -> &'static [u8]
    ensures { result.now ≡ head_words version }
{
    match version {
        Version::One => b"cube-journal 1 ",
        Version::Two => b"cube-journal 2 ",
    }
}

/// The line that begins a journal of a version, with its line feed.
pub fn head_line(alloc: Global, version: Version, digest: &Digest) -> Result<Text, NoMemory>
    ensures text { IfOk result (λ line. line ≡ head_line version digest.now) }
    ensures line { IfOk result (λ line. IsLine line) }
    ensures digits { OnOk result (is_digest digest.now ≡ true) }
    ensures long { IfOk result (λ line. length line ≡ 80) }
{
    let digits = digest.digits();
    let mut line = Text::from_bytes(alloc, head_words(version))?;
    line.extend(digits)?;
    line.push(b'\n')?;
    Ok(line)
}

/// The line that begins a new journal, with its line feed.
pub fn first_line(alloc: Global, digest: &Digest) -> Result<Text, NoMemory>
    ensures text { IfOk result (λ line. line ≡ first_line digest.now) }
    ensures line { IfOk result (λ line. IsLine line) }
    ensures digits { OnOk result (is_digest digest.now ≡ true) }
    ensures long { IfOk result (λ line. length line ≡ 80) }
{
    head_line(alloc, Version::One, digest)
}

/// What stands behind the words of a first line.
fn behind_words(line: &[u8]) -> &[u8]
    ensures { result.now ≡ drop 15 line.now }
{
    match line.get(15..) {
        Some(digits) => digits,
        None => &[],
    }
}

/// The digest of a first line of this version.
fn digest_in(version: Version, line: &[u8]) -> Option<Digest>
    ensures some { IfSome result (λ digest. is_first version line.now ≡ true) }
    ensures digest { IfSome result (λ digest. digest ≡ drop 15 line.now) }
    ensures none { IfNone result (is_first version line.now ≡ false) }
{
    if line.starts_with(head_words(version)) {
        Digest::from_digits(behind_words(line))
    } else {
        None
    }
}

/// The version and the digest of a first line without its line feed, where it is one.
pub fn read_first(line: &[u8]) -> Option<(Version, Digest)>
    ensures some { IfSome result (λ first. version_of line.now ≡ Some first.0) }
    ensures digest { IfSome result (λ first. first.1 ≡ drop 15 line.now) }
    ensures none { IfNone result (version_of line.now ≡ None) }
{
    if let Some(digest) = digest_in(Version::One, line) {
        return Some((Version::One, digest));
    }
    let digest = digest_in(Version::Two, line)?;
    Some((Version::Two, digest))
}
