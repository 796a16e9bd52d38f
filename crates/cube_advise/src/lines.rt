// The lines of a text, and the line with a number and a word.
ghost use Rattle.std.specs.Prelude.{◌≡◌, ◌<◌, [], ◌∷◌, ◌++◌, position, length, ℕ, List, IfSome, IfNone, OnOk};
ghost use Rattle.std.specs.Str.Lines.{strip_carriage_return, lines};
ghost use Rattle.cube_advise.specs.Lines.{is_feed, word_line};

use crate::Word;
use cube_model::{NoMemory, Text};

// Where the first line feed stands.
fn find_feed(bytes: &[u8]) -> Option<usize>
    ensures { result ≡ position is_feed bytes.now }
{
    bytes.iter().position(|byte| *byte == b'\n')
}

// A line without the one carriage return at its end, if it has one.
fn without_return(line: &[u8]) -> &[u8]
    ensures { result.now ≡ strip_carriage_return line.now }
{
    match line.split_last() {
        Some((b'\r', front)) => front,
        _ => line,
    }
}

#[tactic(auto, using(crate::proofs::Cutting::lines_at, crate::proofs::Cutting::lines_whole))]
/// The first line of a text, and what stands behind it.
pub(crate) fn next_line(text: &[u8]) -> Option<(&[u8], &[u8])>
    ensures some { IfSome result (λ cut. (lines text.now ≡ cut.0.now ∷ lines cut.1.now) × (length cut.1.now < length text.now)) }
    ensures none { IfNone result (lines text.now ≡ []) }
{
    match find_feed(text) {
        Some(at) => Some((without_return(&text[..at]), &text[at + 1..])),
        None if text.is_empty() => None,
        None => Some((text, b"")),
    }
}

/// How many lines a text has.
pub(crate) fn count_lines(text: &[u8]) -> usize
    ensures { result ≡ length (lines text.now) }
{
    let mut count = 0;
    let mut rest = text;
    'lines: while let Some((_, behind)) = next_line(rest) {
        count += 1;
        rest = behind;
    }
    count
}

/// Puts the line with a number and a word.
pub(crate) fn push_word(text: &mut Text, number: u64, word: Word) -> Result<(), NoMemory>
    ensures { OnOk result (text.new ≡ text.old ++ word_line number word) }
{
    text.push_number(number)?;
    text.push(b' ')?;
    text.extend(word.text())?;
    text.push(b'\n')
}
