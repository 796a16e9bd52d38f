// The text of an answer: CSV with a header.
ghost use Rattle.std.specs.Prelude.{◌≡◌, ◌≤◌, ◌++◌, [], length, flat_map, ℤ, IfOk, OnOk};
ghost use Rattle.std.specs.List.{All};
ghost use Rattle.cube_text.specs.Keys.{KeyFits};
ghost use Rattle.cube_text.specs.Quoting.{field};
ghost use Rattle.cube_text.specs.Units.{units_text};
ghost use Rattle.cube_answers.specs.AnswerText.{what_name, sum_text, header_line, row_line, answer_text as answer_words, RowFits, IsThere, IsAnswer};

use crate::numbers::push_units;
use cube_model::{Answer, AnswerRow, Dims, NoMemory, Request, Text, What};
use cube_text::{push_field, push_heads, push_key};
use std::alloc::Global;

// How many bytes most lines have at most.
const LINE: usize = 24;

fn push_what(text: &mut Text, dims: &Dims, what: What) -> Result<(), NoMemory>
    requires { IsThere dims.now what }
    ensures { OnOk result (text.new ≡ text.old ++ field (what_name dims.now what)) }
{
    match what {
        What::Count => text.extend(b"count"),
        What::Measure(measure) => push_field(text, dims.measure(measure).name()),
    }
}

// How many decimals a sum is written with.
fn decimals_of(dims: &Dims, what: What) -> u32
    requires { IsThere dims.now what }
    ensures few { result ≤ 6 }
    ensures written { (sum : ℤ) → sum_text dims.now what sum ≡ units_text result sum }
{
    match what {
        What::Count => 0,
        What::Measure(measure) => dims.measure(measure).decimals(),
    }
}

// Puts a sum, which needs no quotes.
#[tactic(auto, using(crate::proofs::Plain::units_are_plain))]
fn push_sum(text: &mut Text, dims: &Dims, what: What, sum: i64) -> Result<(), NoMemory>
    requires { IsThere dims.now what }
    ensures { OnOk result (text.new ≡ text.old ++ field (sum_text dims.now what sum)) }
{
    push_units(text, sum, decimals_of(dims, what))
}

/// Puts the line of the header.
#[tactic(auto, using(cube_text::proofs::Lines::lines_behind))]
pub(crate) fn push_header(
    alloc: Global,
    text: &mut Text,
    dims: &Dims,
    request: &Request,
) -> Result<(), NoMemory>
    requires levels { length request.now.group ≡ length dims.now.dimensions }
    requires measure { IsThere dims.now request.now.what }
    ensures { OnOk result (text.new ≡ text.old ++ header_line dims.now request.now) }
{
    push_heads(alloc, text, dims, request.group.as_slice())?;
    push_what(text, dims, request.what)?;
    text.push(b'\n')
}

/// Puts the line of a key and its sum.
#[tactic(auto, using(cube_text::proofs::Lines::lines_behind))]
pub(crate) fn push_line(
    text: &mut Text,
    dims: &Dims,
    request: &Request,
    key: &[u32],
    sum: i64,
) -> Result<(), NoMemory>
    requires levels { length request.now.group ≡ length dims.now.dimensions }
    requires measure { IsThere dims.now request.now.what }
    requires long { length key.now ≡ length dims.now.dimensions }
    requires there { KeyFits dims.now request.now.group key.now }
    ensures { OnOk result (text.new ≡ text.old ++ row_line dims.now request.now (record { key = key.now; sum = sum })) }
{
    push_key(text, dims, request.group.as_slice(), key)?;
    push_sum(text, dims, request.what, sum)?;
    text.push(b'\n')
}

fn push_row(
    text: &mut Text,
    dims: &Dims,
    request: &Request,
    row: &AnswerRow,
) -> Result<(), NoMemory>
    requires levels { length request.now.group ≡ length dims.now.dimensions }
    requires measure { IsThere dims.now request.now.what }
    requires row { RowFits dims.now request.now row.now }
    ensures { OnOk result (text.new ≡ text.old ++ row_line dims.now request.now row.now) }
{
    push_line(text, dims, request, row.key.as_slice(), row.sum)
}

fn push_rows(
    text: &mut Text,
    dims: &Dims,
    request: &Request,
    rows: &[AnswerRow],
) -> Result<(), NoMemory>
    requires levels { length request.now.group ≡ length dims.now.dimensions }
    requires measure { IsThere dims.now request.now.what }
    requires rows { All (RowFits dims.now request.now) rows.now }
    ensures { OnOk result (text.new ≡ text.old ++ flat_map (row_line dims.now request.now) rows.now) }
{
    for row in rows {
        push_row(text, dims, request, row)?;
    }
    Ok(())
}

/// Room for so many lines, as long as most are.
pub(crate) fn room_for(alloc: Global, lines: usize) -> Result<Text, NoMemory>
    ensures { IfOk result (λ text. text ≡ []) }
{
    let room = lines.saturating_add(1).saturating_mul(LINE);
    Ok(Text::from_vec(Vec::with_capacity(alloc, room)?))
}

/// The text of the answer to a request: a line for the header, with a field `dimension.level` for each grouping level that
/// is not `all` and the measure or `count`, then one line for each row.
pub fn answer_text(
    alloc: Global,
    dims: &Dims,
    request: &Request,
    answer: &Answer,
) -> Result<Text, NoMemory>
    requires { IsAnswer dims.now request.now answer.now }
    ensures { IfOk result (λ text. text ≡ answer_words dims.now request.now answer.now) }
{
    let mut text = room_for(alloc, answer.len())?;
    push_header(alloc, &mut text, dims, request)?;
    push_rows(&mut text, dims, request, answer.as_slice())?;
    Ok(text)
}
