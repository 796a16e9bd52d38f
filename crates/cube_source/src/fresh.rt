// The protected cells of one cuboid that no earlier object protects.
ghost use Rattle.std.specs.Prelude.{◌≡◌, ◌<◌, ◌≤◌, ◌++◌, true, not, ◌&&◌, filter, take, length, OnOk};
ghost use Rattle.cube_model.specs.Cubes.{Each, are_levels};
ghost use Rattle.cube_model.specs.Dims.{plains};
ghost use Rattle.cube_model.specs.Policies.{IsWithin};
ghost use Rattle.cube_model.specs.Protection.{touched};
ghost use Rattle.cube_core.specs.Rows.{ArePlaces};
ghost use Rattle.cube_source.specs.Blocks.{bare};
ghost use Rattle.cube_source.specs.Few as few;
ghost use Rattle.cube_source.specs.Fresh as said;
ghost use Rattle.cube_source.specs.Fresh.{is_fresh};
ghost use Rattle.cube_source.specs.Objects.{IsPlaced};

use crate::blocks::rows_at;
use crate::few::guards_row;
use crate::judging::make_cell;
use cube_core::Core;
use cube_lattice::finer_or_equal;
use cube_model::{Cells, Levels, NoMemory, Object, Row};
use std::alloc::Global;

/// Whether an earlier object of the measure stands at or above the cuboid and guards a row.
fn is_repeated(core: &Core, earlier: &[Object], measure: u32, levels: &Levels, row: &Row) -> bool
    requires places { ArePlaces (length core.now.shape.points) row.now.places }
    requires earlier { Each (IsPlaced core.now.dims) earlier.now }
    ensures { result ≡ said.is_repeated (bare core.now) earlier.now measure levels.now row.now.places }
{
    'objects: for object in earlier {
        if object.measure == measure
            && finer_or_equal(levels, &object.levels)
            && guards_row(core, object, row)
        {
            return true;
        }
    }
    false
}

/// Whether an object guards a row and no earlier one repeats it.
fn is_new(core: &Core, earlier: &[Object], object: &Object, levels: &Levels, row: &Row) -> bool
    requires places { ArePlaces (length core.now.shape.points) row.now.places }
    requires earlier { Each (IsPlaced core.now.dims) earlier.now }
    requires slice { Each (IsWithin core.now.dims) object.now.slice }
    ensures { result ≡ (few.guards_row (bare core.now) object.now row.now.places && not (said.is_repeated (bare core.now) earlier.now object.now.measure levels.now row.now.places)) }
{
    guards_row(core, object, row) && !is_repeated(core, earlier, object.measure, levels, row)
}

/// Puts the cells of a cuboid that an object protects, and no earlier one of its measure, behind
/// cells, up to so many of all.
pub(crate) fn add_fresh(
    alloc: Global,
    core: &Core,
    earlier: &[Object],
    object: &Object,
    levels: &Levels,
    most: u64,
    cells: &mut Cells,
) -> Result<(), NoMemory>
    requires room { length cells.old ≤ most }
    requires levels { are_levels (plains core.now.dims) levels.now ≡ true }
    requires earlier { Each (IsPlaced core.now.dims) earlier.now }
    requires slice { Each (IsWithin core.now.dims) object.now.slice }
    ensures { OnOk result (cells.new ≡ take most (cells.old ++ filter (is_fresh (bare core.now) earlier.now object.now.measure) (touched (bare core.now) object.now levels.now))) }
{
    if cells.len() as u64 >= most {
        return Ok(());
    }
    let rows = rows_at(alloc, core, levels)?;
    'rows: for row in rows.as_slice() {
        if cells.len() as u64 >= most {
            return Ok(());
        }
        if is_new(core, earlier, object, levels, row) {
            cells.push(make_cell(alloc, levels, &row.key)?)?;
        }
    }
    Ok(())
}
