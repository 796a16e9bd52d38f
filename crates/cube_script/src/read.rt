// What the lines of a script say.
ghost use Rattle.std.specs.Prelude.{◌≡◌, ◌<◌, ◌==◌, ◌∷◌, [], length, map, None, IfOk, IfSome, IfNone, MatchResult};
ghost use Rattle.std.specs.List.{position};
ghost use Rattle.std.specs.Option.{option_map};
ghost use Rattle.cube_script.specs.Plays.{played, Refuses};
ghost use Rattle.cube_script.specs.Scripts.{connection_of, bytes_of, event_of, words, lines, script_of};

use crate::play::{Play, ScriptFault};
use cube_model::{NoMemory, Text};
use cube_text::read_digits;
use hex::FromHexError;
use std::alloc::Global;

// A piece has no more bytes.
const MAX_PIECE: usize = 65_536;

fn find_space(line: &[u8]) -> Option<usize>
    ensures at { result ≡ position (λ b. b == 32) line.now }
    ensures within { IfSome result (λ at. at < length line.now) }
{
    line.iter().position(|byte| *byte == b' ')
}

fn find_feed(text: &[u8]) -> Option<usize>
    ensures at { result ≡ position (λ b. b == 10) text.now }
    ensures within { IfSome result (λ at. at < length text.now) }
{
    text.iter().position(|byte| *byte == b'\n')
}

// The first word of a line, and what stands behind its space.
#[tactic(auto, using(crate::proofs::Reading::words_some, crate::proofs::Reading::words_none))]
fn cut_word(line: &[u8]) -> Option<(&[u8], &[u8])>
    ensures some { IfSome result (λ cut. words line.now ≡ cut.0.now ∷ words cut.1.now) }
    ensures none { IfNone result (words line.now ≡ line.now ∷ []) }
{
    match find_space(line) {
        Some(at) => Some((&line[..at], &line[at + 1..])),
        None => None,
    }
}

// The first line of a text, and what stands behind its line feed.
#[tactic(auto, using(crate::proofs::Reading::lines_some, crate::proofs::Reading::lines_none))]
fn cut_line(text: &[u8]) -> Option<(&[u8], &[u8])>
    ensures some { IfSome result (λ cut. lines text.now ≡ cut.0.now ∷ lines cut.1.now) }
    ensures none { IfNone result (lines text.now ≡ text.now ∷ []) }
{
    match find_feed(text) {
        Some(at) => Some((&text[..at], &text[at + 1..])),
        None => None,
    }
}

// The connection that a word names.
fn read_connection(word: &[u8]) -> Option<u32>
    ensures { result ≡ connection_of word.now }
{
    let value = read_digits(word)?;
    if word.starts_with(b"0") && word.len() != 1 {
        return None;
    }
    u32::try_from(value).ok()
}

// The bytes that a word writes in hexadecimal digits.
fn read_bytes(alloc: Global, word: &[u8]) -> Result<Option<Text>, NoMemory>
    ensures { IfOk result (λ bytes. bytes ≡ bytes_of word.now) }
{
    if word.is_empty() || word.len() > 2 * MAX_PIECE {
        return Ok(None);
    }
    match hex::decode(alloc, word) {
        Ok(bytes) => Ok(Some(Text::from_vec(bytes))),
        Err(FromHexError::OutOfMemory) => Err(NoMemory),
        Err(_) => Ok(None),
    }
}

// The event of a line of two words.
fn read_short(kind: &[u8], word: &[u8]) -> Option<Play>
    ensures { option_map played result ≡ event_of (kind.now ∷ word.now ∷ []) }
{
    if kind == b"open".as_slice() {
        Some(Play::Opened(read_connection(word)?))
    } else if kind == b"close".as_slice() {
        Some(Play::Closed(read_connection(word)?))
    } else {
        None
    }
}

// The event of a line of three words.
fn read_long(
    alloc: Global,
    kind: &[u8],
    word: &[u8],
    digits: &[u8],
) -> Result<Option<Play>, NoMemory>
    ensures { IfOk result (λ play. option_map played play ≡ event_of (kind.now ∷ word.now ∷ digits.now ∷ [])) }
{
    if kind != b"data".as_slice() {
        return Ok(None);
    }
    let Some(c) = read_connection(word) else {
        return Ok(None);
    };
    match read_bytes(alloc, digits)? {
        Some(bytes) => Ok(Some(Play::Came(c, bytes))),
        None => Ok(None),
    }
}

// The event that a line without its line feed names.
#[tactic(auto, using(crate::proofs::Reading::many_words))]
fn read_line(alloc: Global, line: &[u8]) -> Result<Option<Play>, NoMemory>
    ensures { IfOk result (λ play. option_map played play ≡ event_of (words line.now)) }
{
    let Some((kind, behind)) = cut_word(line) else {
        return Ok(None);
    };
    let Some((word, digits)) = cut_word(behind) else {
        return Ok(read_short(kind, behind));
    };
    if cut_word(digits).is_some() {
        return Ok(None);
    }
    read_long(alloc, kind, word, digits)
}

/// The events of a script, or the first line that is refused.
pub(crate) fn read_script(alloc: Global, script: &[u8]) -> Result<Vec<Play>, ScriptFault>
    ensures { MatchResult result (λ plays. script_of script.now ≡ Ok (map played plays.items)) (λ fault. Refuses fault (script_of script.now)) }
{
    let mut plays = Vec::new(alloc);
    let mut rest = script;
    'lines: for line in 1..u64::MAX {
        let Some((text, more)) = cut_line(rest) else {
            return if rest.is_empty() {
                Ok(plays)
            } else {
                Err(ScriptFault::Line { line })
            };
        };
        let Some(play) = read_line(alloc, text)? else {
            return Err(ScriptFault::Line { line });
        };
        plays.push(play)?;
        rest = more;
    }
    // No text in memory has so many lines.
    Err(ScriptFault::NoMemory)
}
