// What is said of a file that is no TOML document.
ghost use Rattle.std.specs.Prelude.{◌≡◌, ◌≤◌, length};

use crate::facts::push_place;
use crate::shown::push_shown;
use cube_model::{NoMemory, Text};
use std::alloc::Global;

// The number of the line, from 1, in which a byte stands.
fn line_at(bytes: &[u8], at: usize) -> u64 {
    let mut line = 1u64;
    for byte in bytes.iter().take(at) {
        if *byte == b'\n' {
            line = line.saturating_add(1);
        }
    }
    line
}

// The line in which a byte stands, without its line feed.
fn line_around(bytes: &[u8], at: usize) -> &[u8] {
    let front = match bytes.get(..at) {
        Some(front) => front,
        None => bytes,
    };
    let start = match front.iter().rposition(|byte| *byte == b'\n') {
        Some(feed) => feed + 1,
        None => 0,
    };
    let rest = &bytes[start..];
    match rest.iter().position(|byte| *byte == b'\n') {
        Some(feed) => &rest[..feed],
        None => rest,
    }
}

/// The note on a file that is to be a TOML document: the line that is none, and why.
pub fn note_on_table(alloc: Global, name: &Text, bytes: &[u8]) -> Result<Text, NoMemory> {
    let mut text = Text::new(alloc);
    let Err(error) = toml::table_from_slice(alloc, bytes) else {
        return Ok(text);
    };
    let Some(span) = error.span() else {
        return Ok(text);
    };
    push_place(&mut text, name, line_at(bytes, span.start))?;
    push_shown(&mut text, line_around(bytes, span.start))?;
    text.extend(b": ")?;
    text.extend(error.message().as_bytes())?;
    text.push(b'\n')?;
    Ok(text)
}
