// The text of a history of sources and links, as a journal of the second version.
ghost use Rattle.std.specs.Prelude.{◌≡◌, ◌++◌, ◌∷◌, [], IfOk, OnOk};
ghost use Rattle.std.specs.List.{flat_map};
ghost use Rattle.cube_model.specs.Entries.{requests};
ghost use Rattle.cube_model.specs.declared.entry.Entry.TheVariants.{Linked};
ghost use Rattle.cube_journal.specs.PublicText.{number_fields};
ghost use Rattle.cube_journal.specs.SecondText.{entry_line, journal2_text};

use crate::Digest;
use crate::first::{Version, head_line};
use crate::public::{push_number, push_numbers};
use cube_model::{Entry, Link, NoMemory, Text};
use std::alloc::Global;

/// Puts a line: a word, the number of a measure, and numbers that belong to it.
fn push_line(text: &mut Text, word: u8, measure: u32, numbers: &[u32]) -> Result<(), NoMemory>
    ensures { OnOk result (text.new ≡ text.old ++ word ∷ number_fields (measure ∷ numbers.now) ++ 10 ∷ []) }
{
    text.push(word)?;
    push_number(text, u64::from(measure))?;
    push_numbers(text, numbers)?;
    text.push(b'\n')
}

/// Puts the line of a link.
fn push_link(text: &mut Text, measure: u32, link: Link) -> Result<(), NoMemory>
    ensures { OnOk result (text.new ≡ text.old ++ entry_line (Linked measure link)) }
{
    match link {
        Link::Pair(first, second) => push_line(text, b'k', measure, &[first, second]),
        Link::Single(place) => push_line(text, b'k', measure, &[place]),
    }
}

/// Puts the line of an entry, where it has one.
fn push_entry(text: &mut Text, entry: &Entry) -> Result<(), NoMemory>
    ensures { OnOk result (text.new ≡ text.old ++ entry_line entry.now) }
{
    match entry {
        Entry::Asked(_) => Ok(()),
        Entry::Source { measure, levels } => push_line(text, b's', *measure, levels.as_slice()),
        Entry::Linked { measure, link } => push_link(text, *measure, *link),
    }
}

/// Puts the lines of entries.
#[tactic(auto, using(crate::proofs::Publics::flat_more))]
fn push_entries(text: &mut Text, entries: &[Entry]) -> Result<(), NoMemory>
    ensures { OnOk result (text.new ≡ text.old ++ flat_map entry_line entries.now) }
{
    for (i, entry) in entries.iter().enumerate() {
        push_entry(text, entry)?;
    }
    Ok(())
}

/// A history of sources and links, as the text of a journal of the second version.
pub fn journal2_text(alloc: Global, digest: &Digest, history: &[Entry]) -> Result<Text, NoMemory>
    requires { requests history.now ≡ [] }
    ensures { IfOk result (λ text. text ≡ journal2_text digest.now history.now) }
{
    let mut text = head_line(alloc, Version::Two, digest)?;
    push_entries(&mut text, history)?;
    Ok(text)
}
