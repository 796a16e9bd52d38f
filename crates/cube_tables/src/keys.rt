// The keys that name what is at fault.
ghost use Rattle.std.specs.Prelude.{◌≡◌, IfOk};
ghost use Rattle.cube_tables.specs.Tables.{entry_of, key_of, item_of};

use cube_model::{NoMemory, Text};
use std::alloc::Global;

/// The key of a table in a list, counted from 1.
pub fn entry_text(alloc: Global, list: &[u8], number: u64) -> Result<Text, NoMemory>
    ensures { IfOk result (λ text. text ≡ entry_of list.now number) }
{
    let mut text = Text::from_bytes(alloc, list)?;
    text.extend(b" ")?;
    text.push_number(number)?;
    Ok(text)
}

/// The key of a value in a table.
pub fn key_text(alloc: Global, entry: &Text, key: &[u8]) -> Result<Text, NoMemory>
    ensures { IfOk result (λ text. text ≡ key_of entry.now key.now) }
{
    let mut text = Text::from_bytes(alloc, entry.as_slice())?;
    text.extend(b" ")?;
    text.extend(key)?;
    Ok(text)
}

/// The key of an item, counted from 1, of an array in a table.
pub fn item_text(alloc: Global, entry: &Text, key: &[u8], number: u64) -> Result<Text, NoMemory>
    ensures { IfOk result (λ text. text ≡ item_of entry.now key.now number) }
{
    let mut text = key_text(alloc, entry, key)?;
    text.extend(b" ")?;
    text.push_number(number)?;
    Ok(text)
}
