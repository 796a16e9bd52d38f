// The made facts.
ghost use Rattle.std.specs.Prelude.{◌≡◌, ◌+◌, ◌*◌, ◌<◌, ◌≤◌, ◌++◌, IfOk, OnOk};
ghost use Rattle.cube_gen.specs.Draws.{seed};
ghost use Rattle.cube_gen.specs.Made.{numbered, place_text, values_text, made_facts};

use crate::draws::Draws;
use cube_model::{NoMemory, Text};
use cube_text::write_units;
use std::alloc::Global;

/// Puts a word with a number behind it at the end.
pub(crate) fn push_numbered(text: &mut Text, word: &[u8], number: u64) -> Result<(), NoMemory>
    ensures { OnOk result (text.new ≡ text.old ++ numbered word.now number) }
{
    text.extend(word)?;
    text.push_number(number)
}

/// Puts the branch, the month and the grade of a fact at the end.
#[tactic(auto, unfolding(crate::specs::Made::place_text))]
fn push_place(text: &mut Text, size: u32, fact: u64) -> Result<(), NoMemory>
    requires some { 1 ≤ size }
    requires few { size ≤ 20 }
    ensures { OnOk result (text.new ≡ text.old ++ place_text size fact) }
{
    let size = u64::from(size);
    push_numbered(text, b"b", fact % (40 * size))?;
    push_numbered(text, b",m", fact / (40 * size) % 12 + 1)?;
    push_numbered(text, b",g", fact / (480 * size) % 6)
}

/// Puts drawn values at the end: pay, hours and bonus.
#[tactic(auto, unfolding(crate::specs::Made::values_text))]
fn push_values(alloc: Global, text: &mut Text, draws: &mut Draws) -> Result<(), NoMemory>
    ensures text { OnOk result (text.new ≡ text.old ++ values_text draws.old) }
    ensures draws { OnOk result (draws.new ≡ seed draws.old 3) }
{
    let pay = 100_000 + draws.below(500_000);
    text.extend(b",")?;
    text.extend(write_units(alloc, pay as i64, 2)?.as_slice())?;
    push_numbered(text, b",", draws.below(200))?;
    push_numbered(text, b",", draws.below(1_000))
}

/// The text of the fact file: 20,000 facts for each unit of size. It grows one text, a line at a time.
pub(crate) fn make_facts(alloc: Global, draws: &mut Draws, size: u32) -> Result<Text, NoMemory>
    requires some { 1 ≤ size }
    requires few { size ≤ 20 }
    ensures text { IfOk result (λ text. text ≡ made_facts draws.old size) }
    ensures draws { IfOk result (λ text. draws.new ≡ seed draws.old (3 * (20000 * size))) }
{
    let mut text = Text::from_bytes(alloc, b"branch,month,grade,pay,hours,bonus\n")?;
    'facts: for fact in 0..20_000 * u64::from(size) {
        push_place(&mut text, size, fact)?;
        push_values(alloc, &mut text, draws)?;
        text.extend(b"\n")?;
    }
    Ok(text)
}
