// The cells of a cuboid that make up a protected cell.
ghost use Rattle.std.specs.Prelude.{◌≡◌, ◌<◌, true, length, map, IfOk};
ghost use Rattle.std.specs.List.{list_any, list_all, zip, All};
ghost use Rattle.cube_model.specs.Cores.{shown};
ghost use Rattle.cube_model.specs.Cubes as cubes;
ghost use Rattle.cube_model.specs.Cubes.{are_levels, same};
ghost use Rattle.cube_model.specs.Dims.{plain, plains};
ghost use Rattle.cube_model.specs.Policies.{IsPolicy};
ghost use Rattle.cube_model.specs.Protection.{same_cell, protected};
ghost use Rattle.cube_model.specs.Reasons as said;
ghost use Rattle.cube_source.specs.Blocks.{bare};
ghost use Rattle.cube_reason.specs.Made.{AreRows, same_cells};

use cube_core::Core;
use cube_model::{Cell, Cells, Dimension, Levels, NoMemory, Policy, Request, Rows, What};
use cube_source::{covers, protects};
use std::alloc::Global;

/// Whether two lists of numbers are one.
fn is_same(a: &[u32], b: &[u32]) -> bool
    ensures { result ≡ same a.now b.now }
{
    a == b
}

/// Whether two cells are one.
fn is_same_cell(a: &Cell, b: &Cell) -> bool
    ensures { result ≡ same_cell a.now b.now }
{
    is_same(a.levels.as_slice(), b.levels.as_slice()) && is_same(a.key.as_slice(), b.key.as_slice())
}

/// Whether each two cells beside one another are one.
fn all_same(a: &[Cell], b: &[Cell]) -> bool
    ensures { result ≡ list_all (λ p. same_cell p.0 p.1) (zip a.now b.now) }
{
    a.iter().zip(b).all(|(a, b)| is_same_cell(a, b))
}

/// Whether two lists of cells are one.
pub(crate) fn are_same(a: &[Cell], b: &[Cell]) -> bool
    ensures { result ≡ same_cells a.now b.now }
{
    a.len() == b.len() && all_same(a, b)
}

/// Whether there is a level for each dimension, in range.
fn has_levels(dimensions: &[Dimension], levels: &[u32]) -> bool
    requires { length levels.now ≡ length dimensions.now }
    ensures { result ≡ are_levels (map plain dimensions.now) levels.now }
{
    'dimensions: for (d, dimension) in dimensions.iter().enumerate() {
        if levels[d] as usize > dimension.levels().len() {
            return false;
        }
    }
    true
}

/// Whether levels are a cuboid of the core.
fn is_cuboid(core: &Core, levels: &[u32]) -> bool
    ensures { result ≡ are_levels (plains core.now.dims) levels.now }
{
    let dimensions = core.dims().dimensions();
    levels.len() == dimensions.len() && has_levels(dimensions, levels)
}

/// Whether a cell covers one of some places.
fn covers_any(core: &Core, cell: &Cell, places: &[u32]) -> bool
    requires places { All (λ place. place < length core.now.shape.points) places.now }
    requires levels { are_levels (plains core.now.dims) cell.now.levels ≡ true }
    ensures { result ≡ list_any (cubes.covers (bare core.now) cell.now) places.now }
{
    places.iter().any(|place| covers(core, cell, *place))
}

/// The rows of all places at a cuboid, in the order of their keys.
fn rows_at(alloc: Global, core: &Core, levels: &Levels) -> Result<Rows, NoMemory>
    requires { are_levels (plains core.now.dims) levels.now ≡ true }
    ensures { IfOk result (λ rows. AreRows core.now levels.now rows) }
{
    let request = Request::whole(alloc, What::Count, levels)?;
    let rows = core.rows(alloc, &request)?;
    Ok(rows)
}

/// The cells of a cuboid that cover a place of a cell, by key.
pub(crate) fn blocks_of(
    alloc: Global,
    core: &Core,
    levels: &Levels,
    cell: &Cell,
) -> Result<Cells, NoMemory>
    requires levels { are_levels (plains core.now.dims) levels.now ≡ true }
    requires cell { are_levels (plains core.now.dims) cell.now.levels ≡ true }
    ensures { IfOk result (λ blocks. blocks ≡ said.blocks_of (bare core.now) levels.now cell.now) }
{
    let rows = rows_at(alloc, core, levels)?;
    let mut blocks = Cells::new(alloc);
    'rows: for row in rows.as_slice() {
        if covers_any(core, cell, row.places.as_slice()) {
            blocks.push(Cell {
                levels: levels.copied(alloc)?,
                key: row.key.copied(alloc)?,
            })?;
        }
    }
    Ok(blocks)
}

/// Whether a cell is a protected one of a measure. Its levels and its key may be any numbers.
pub(crate) fn is_protected(core: &Core, policy: &Policy, measure: u32, cell: &Cell) -> bool
    requires policy { IsPolicy core.now.dims policy.now }
    requires measure { measure < length core.now.dims.measures }
    ensures protected { result ≡ list_any (same_cell cell.now) (protected (shown core.now policy.now) measure) }
    ensures levels { result ≡ true → are_levels (plains core.now.dims) cell.now.levels ≡ true }
{
    is_cuboid(core, cell.levels.as_slice()) && protects(core, policy, measure, cell)
}
