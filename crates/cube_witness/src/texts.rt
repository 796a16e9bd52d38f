// The text of changes.
ghost use Rattle.std.specs.Prelude.{◌≡◌, ◌<◌, ◌++◌, length, flat_map, IfOk, OnOk};
ghost use Rattle.std.specs.List.{All};
ghost use Rattle.cube_model.specs.Cubes.{Each, IsPoint};
ghost use Rattle.cube_model.specs.Dims.{plains};
ghost use Rattle.cube_witness.specs.Leaves as said;
ghost use Rattle.cube_witness.specs.WitnessText.{change_header, change_line, witness_text as words};

use crate::leaves::{finest, push_leaves};
use cube_model::{Change, Changes, Dims, Levels, NoMemory, Shape, Text};
use cube_text::{push_field, push_heads, write_units};
use std::alloc::Global;

#[tactic(auto, using(cube_text::proofs::Lines::lines_behind))]
fn push_header(alloc: Global, text: &mut Text, dims: &Dims, levels: &Levels) -> Result<(), NoMemory>
    requires { levels.now ≡ said.finest dims.now }
    ensures { OnOk result (text.new ≡ text.old ++ change_header dims.now) }
{
    push_heads(alloc, text, dims, levels.as_slice())?;
    push_field(text, b"change")?;
    text.push(b'\n')
}

#[tactic(auto, using(cube_text::proofs::Lines::lines_behind))]
fn push_change(
    alloc: Global,
    text: &mut Text,
    dims: &Dims,
    levels: &Levels,
    shape: &Shape,
    change: &Change,
) -> Result<(), NoMemory>
    requires levels { levels.now ≡ said.finest dims.now }
    requires points { Each (IsPoint (plains dims.now)) shape.now.points }
    requires place { change.now.place < length shape.now.points }
    ensures { OnOk result (text.new ≡ text.old ++ change_line dims.now shape.now change.now) }
{
    push_leaves(text, dims, levels, shape, change.place)?;
    let by = write_units(alloc, i64::from(change.by), 0)?;
    push_field(text, by.as_slice())?;
    text.push(b'\n')
}

fn push_changes(
    alloc: Global,
    text: &mut Text,
    dims: &Dims,
    levels: &Levels,
    shape: &Shape,
    changes: &[Change],
) -> Result<(), NoMemory>
    requires levels { levels.now ≡ said.finest dims.now }
    requires points { Each (IsPoint (plains dims.now)) shape.now.points }
    requires places { All (λ change. change.place < length shape.now.points) changes.now }
    ensures { OnOk result (text.new ≡ text.old ++ flat_map (change_line dims.now shape.now) changes.now) }
{
    for change in changes {
        push_change(alloc, text, dims, levels, shape, change)?;
    }
    Ok(())
}

/// The text of changes: a line for the header, with the finest level of each dimension and the word `change`, then
/// one line for each change, with the leaves of its place and `1` or `-1`.
pub fn witness_text(
    alloc: Global,
    dims: &Dims,
    shape: &Shape,
    changes: &Changes,
) -> Result<Text, NoMemory>
    requires points { Each (IsPoint (plains dims.now)) shape.now.points }
    requires places { All (λ change. change.place < length shape.now.points) changes.now }
    ensures { IfOk result (λ text. text ≡ words dims.now shape.now changes.now) }
{
    let levels = finest(alloc, dims)?;
    let mut text = Text::new(alloc);
    push_header(alloc, &mut text, dims, &levels)?;
    push_changes(alloc, &mut text, dims, &levels, shape, changes.as_slice())?;
    Ok(text)
}
