// Lines of a word and a number.
ghost use Rattle.std.specs.Prelude.{◌≡◌, ◌++◌, OnOk};
ghost use Rattle.cube_text.specs.Counts.{count_line};

use cube_model::{NoMemory, Text};

/// Appends a word, a blank, a number in decimal digits, and a line feed.
pub fn push_count(text: &mut Text, word: &[u8], number: u64) -> Result<(), NoMemory>
    ensures { OnOk result (text.new ≡ text.old ++ count_line word.now number) }
{
    text.extend(word)?;
    text.extend(b" ")?;
    text.push_number(number)?;
    text.extend(b"\n")
}
