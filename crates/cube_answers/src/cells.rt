// Cuboids and cells as texts name them, and the cell of a place.
ghost use Rattle.std.specs.Prelude.{◌≡◌, ◌<◌, ◌++◌, [], length, IfOk, OnOk};
ghost use Rattle.cube_model.specs.Protection.{core_cell};
ghost use Rattle.cube_query.specs.Canonical.{behind};
ghost use Rattle.cube_text.specs.Keys.{KeyFits};
ghost use Rattle.cube_answers.specs.VerdictText.{cuboid_text, key_texts, cell_text, place_text, bracketed, unprotected, CellFits};

use cube_core::Core;
use cube_model::{Cell, Dims, Items, NoMemory, Text};
use cube_query::{groups, push_level, push_levels, push_member};
use std::alloc::Global;

/// Puts a cuboid between brackets: its levels that are not `all`, or the word `all`.
pub fn push_cuboid(text: &mut Text, dims: &Dims, levels: &[u32]) -> Result<(), NoMemory>
    requires { length levels.now ≡ length dims.now.dimensions }
    ensures { OnOk result (text.new ≡ text.old ++ bracketed (cuboid_text dims.now levels.now)) }
{
    text.push(b'(')?;
    if groups(dims, levels) {
        push_levels(text, dims, levels, b"")?;
    } else {
        text.extend(b"all")?;
    }
    text.push(b')')
}

// The members of a key at the levels that are not `all`.
fn push_members(text: &mut Text, dims: &Dims, levels: &[u32], key: &[u32]) -> Result<(), NoMemory>
    requires levels { length levels.now ≡ length dims.now.dimensions }
    requires key { length key.now ≡ length dims.now.dimensions }
    requires there { KeyFits dims.now levels.now key.now }
    ensures { OnOk result (text.new ≡ text.old ++ behind [] (key_texts dims.now.dimensions levels.now key.now)) }
{
    let mut separator = b"".as_slice();
    for (d, dimension) in dims.dimensions().iter().enumerate() {
        if (levels[d] as usize) < dimension.levels().len() {
            text.extend(separator)?;
            push_level(text, dimension, levels[d])?;
            text.push(b'=')?;
            push_member(text, dimension, levels[d], key[d])?;
            separator = b", ";
        }
    }
    Ok(())
}

/// Puts a cell between brackets: its members at the levels that are not `all`, as `(product.item=ale)`, or the word `all`.
pub fn push_cell(text: &mut Text, dims: &Dims, cell: &Cell) -> Result<(), NoMemory>
    requires { CellFits dims.now cell.now }
    ensures { OnOk result (text.new ≡ text.old ++ bracketed (cell_text dims.now cell.now)) }
{
    let levels = cell.levels.as_slice();
    text.push(b'(')?;
    if groups(dims, levels) {
        push_members(text, dims, levels, cell.key.as_slice())?;
    } else {
        text.extend(b"all")?;
    }
    text.push(b')')
}

/// The cell of a place: its members at the finest levels. Nothing of a policy enters it.
pub fn cell_at(alloc: Global, core: &Core, place: u32) -> Result<Cell, NoMemory>
    requires { place < length core.now.shape.points }
    ensures cell { IfOk result (λ cell. cell ≡ core_cell (unprotected core.now) place) }
    ensures there { IfOk result (λ cell. CellFits core.now.dims cell) }
{
    let mut levels = Items::new(alloc);
    let mut key = Items::new(alloc);
    for d in 0..core.dims().dimensions().len() as u32 {
        levels.push(0)?;
        key.push(core.key_at(place, d, 0))?;
    }
    Ok(Cell { levels, key })
}

/// Puts the cell of a place between brackets.
pub fn push_place(alloc: Global, text: &mut Text, core: &Core, place: u32) -> Result<(), NoMemory>
    requires { place < length core.now.shape.points }
    ensures { OnOk result (text.new ≡ text.old ++ bracketed (place_text core.now.dims (unprotected core.now) place)) }
{
    let cell = cell_at(alloc, core, place)?;
    push_cell(text, core.dims(), &cell)
}
