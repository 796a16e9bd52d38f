// What a person can do where a file has more of something than is taken.
ghost use Rattle.std.specs.Prelude.{◌≢◌, []};

use cube_model::{LimitKind, NoMemory, Text};
use std::alloc::Global;

const KINDS: [LimitKind; 10] = [
    LimitKind::Dimensions,
    LimitKind::Measures,
    LimitKind::Levels,
    LimitKind::Leaves,
    LimitKind::Cuboids,
    LimitKind::Decimals,
    LimitKind::Objects,
    LimitKind::Facts,
    LimitKind::Points,
    LimitKind::File,
];

// What helps where a file of a cube has too much of this.
fn remedy_for(kind: LimitKind) -> &'static [u8]
    ensures { result.now ≢ [] }
{
    match kind {
        LimitKind::Dimensions => b"leave a dimension out, and facts are added up over it",
        LimitKind::Measures =>
            b"leave measures out, or give some of them a dimension file of their own",
        LimitKind::Levels => b"leave out a level that no query asks for, and its name in each path",
        LimitKind::Leaves =>
            b"begin the dimension with a coarser level that the fact file has a column of",
        LimitKind::Cuboids => {
            b"leave out levels or a dimension: the dimensions' numbers of levels, each and one for all, are multiplied"
        }
        LimitKind::Decimals => b"write 0 to 6, and round values that have more in the fact file",
        LimitKind::Objects => b"leave out objects whose cells another one protects too",
        LimitKind::Facts => b"split the file, as by year: each part is a cube of its own",
        LimitKind::Points => {
            b"leave a dimension out, or begin one with a coarser level that the fact file has a column of"
        }
        LimitKind::File => b"leave out what is not needed",
    }
}

// The same of a file that is too long.
fn remedy_for_file(said: &[u8]) -> &'static [u8] {
    if said.starts_with(b"facts: ") {
        b"leave out columns that are not needed, or split the file, as by year"
    } else if said.starts_with(b"dims: ") {
        b"write shorter names, or begin a dimension with a coarser level that the fact file has a column of"
    } else if said.starts_with(b"policy: ") {
        b"name a member of a coarser level in a slice for all that are below it"
    } else {
        b""
    }
}

// The same of what a draft and a groups file have too much of.
fn remedy_elsewhere(word: &[u8]) -> &'static [u8] {
    if word == b"columns".as_slice() {
        b"leave out columns of the fact file that are to be no dimension and no measure"
    } else if word == b"groups".as_slice() {
        b"let users who may hear the same share a group"
    } else {
        b""
    }
}

// What helps against the limit of a word in a report.
fn remedy_of(said: &[u8], word: &[u8]) -> &'static [u8] {
    match KINDS.iter().copied().find(|kind| kind.word() == word) {
        Some(LimitKind::File) => remedy_for_file(said),
        Some(kind) => remedy_for(kind),
        None => remedy_elsewhere(word),
    }
}

// What stands behind the first colon and blank.
fn behind_colon(text: &[u8]) -> Option<&[u8]> {
    let colon = text.iter().position(|byte| *byte == b':')?;
    let rest = text.get(colon..)?;
    rest.strip_prefix(b": ")
}

// The front of a text up to the first blank.
fn first_word(text: &[u8]) -> &[u8] {
    match text.iter().position(|byte| *byte == b' ') {
        Some(blank) => &text[..blank],
        None => text,
    }
}

// The word of a limit behind the file whose fault it is, where a text says one. A draft names a file of its own first.
fn limited(said: &[u8]) -> Option<&[u8]> {
    let words = behind_colon(said)?;
    if let Some(limit) = words.strip_prefix(b"limit ") {
        return Some(first_word(limit));
    }
    if !said.starts_with(b"draft: ") {
        return None;
    }
    let limit = behind_colon(words)?.strip_prefix(b"limit ")?;
    Some(first_word(limit))
}

/// The note on a report of a limit, as `facts: limit points 65536`: what a person can do.
pub fn note_on_limit(alloc: Global, said: &[u8]) -> Result<Text, NoMemory> {
    let mut text = Text::new(alloc);
    let word = limited(said).unwrap_or(b"");
    let remedy = remedy_of(said, word);
    if !remedy.is_empty() {
        text.extend(b"limit ")?;
        text.extend(word)?;
        text.extend(b": ")?;
        text.extend(remedy)?;
        text.push(b'\n')?;
    }
    Ok(text)
}
