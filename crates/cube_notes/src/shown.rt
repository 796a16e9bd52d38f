// What a file holds, as it is shown to a person.
ghost use Rattle.std.specs.Prelude.{◌≡◌, ◌++◌, ◌≤◌, ◌<◌, length, map, OnOk};
ghost use Rattle.cube_notes.specs.Shown.{plain_of, shown_text, shown_front};

use cube_model::{NoMemory, Text};

// At most so many bytes of a value are shown.
const MOST: usize = 80;

// The byte itself, or a question mark in the place of one that moves a terminal.
fn plain(byte: u8) -> u8
    ensures { result ≡ plain_of byte }
{
    if byte < 0x20 || byte == 0x7F {
        b'?'
    } else {
        byte
    }
}

/// Puts bytes behind a text, a question mark for each control byte.
pub(crate) fn push_plain(text: &mut Text, bytes: &[u8]) -> Result<(), NoMemory>
    ensures { OnOk result (text.new ≡ text.old ++ map plain_of bytes.now) }
{
    for byte in bytes {
        text.push(plain(*byte))?;
    }
    Ok(())
}

fn front(value: &[u8]) -> &[u8]
    ensures { result.now ≡ shown_front value.now }
{
    &value[..value.len().min(MOST)]
}

/// Puts bytes of a file behind a text, in quotes: at most 80 of them, with `..` behind where there are more, and a question mark
/// for each control byte, so that no file moves a terminal.
pub fn push_shown(text: &mut Text, value: &[u8]) -> Result<(), NoMemory>
    ensures { OnOk result (text.new ≡ text.old ++ shown_text value.now) }
{
    text.push(b'"')?;
    push_plain(text, front(value))?;
    if value.len() > MOST {
        text.extend(b"\"..")
    } else {
        text.extend(b"\"")
    }
}
