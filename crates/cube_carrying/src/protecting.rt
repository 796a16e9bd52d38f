// Whether a new cube protects a cell of an old one, under the same names.
ghost use Rattle.std.specs.Prelude.{◌≡◌, ◌<◌, true, length, slice_index_or, IfOk};
ghost use Rattle.std.specs.List.{list_any, All};
ghost use Rattle.cube_model.specs.Cubes as cubes;
ghost use Rattle.cube_model.specs.Cubes.{are_levels};
ghost use Rattle.cube_model.specs.Dims.{plains};
ghost use Rattle.cube_source.specs.Blocks.{bare};
ghost use Rattle.cube_carry.specs.Names as names;
ghost use Rattle.cube_carrying.specs.Shields as shields;
ghost use Rattle.cube_carrying.specs.Crossings.{keeps, Crosses, StandsAreEnough};

use crate::carried_cells::carried_cell;
use crate::crossings::Crossing;
use crate::slices::is_shielded_over;
use cube_model::{Cell, Levels, NoMemory};
use cube_source::protects;
use std::alloc::Global;

/// Whether the new cube protects a cell of the old one. It looks at each place of the new cube.
pub(crate) fn is_protected(
    alloc: Global,
    crossing: &Crossing,
    cell: &Cell,
) -> Result<bool, NoMemory>
    requires carries { Crosses crossing.now }
    requires cell { are_levels (plains crossing.now.new.now.dims) (names.carried_levels crossing.now.old.now.dims crossing.now.new.now.dims cell.now.levels) ≡ true }
    ensures { IfOk result (λ kept. kept ≡ keeps crossing.now cell.now) }
{
    let carried = carried_cell(alloc, crossing.old.dims(), crossing.new.dims(), cell)?;
    Ok(protects(
        crossing.new,
        crossing.new_policy,
        crossing.measure,
        &carried,
    ))
}

/// Whether the new place of one of the places is in the slice of an object of the measure at or above the levels that names
/// no number of facts.
fn any_under(crossing: &Crossing, levels: &Levels, covered: &[u32]) -> bool
    requires carries { Crosses crossing.now }
    requires covered { All (λ place. place < length crossing.now.places.now) covered.now }
    ensures { result ≡ list_any (λ place. shields.is_shielded_over (bare crossing.now.new.now) crossing.now.new_policy.now.objects crossing.now.measure levels.now (slice_index_or crossing.now.places.now place 0)) covered.now }
{
    'covered: for place in covered {
        if is_shielded_over(
            crossing.new,
            crossing.new_policy,
            crossing.measure,
            levels,
            crossing.places[*place as usize],
        ) {
            return true;
        }
    }
    false
}

/// Whether the new cube protects a cell of the old one that covers these places. Only where none of them stands under a
/// new object at or above the cell it looks at each place of the new cube.
pub(crate) fn is_kept(
    alloc: Global,
    crossing: &Crossing,
    levels: &Levels,
    cell: &Cell,
    covered: &[u32],
) -> Result<bool, NoMemory>
    requires carries { Crosses crossing.now }
    requires suffice { StandsAreEnough crossing.now }
    requires cell { are_levels (plains crossing.now.old.now.dims) cell.now.levels ≡ true }
    requires levels { levels.now ≡ names.carried_levels crossing.now.old.now.dims crossing.now.new.now.dims cell.now.levels }
    requires below { All (λ place. place < length crossing.now.old.now.shape.points) covered.now }
    requires covered { All (λ place. cubes.covers (bare crossing.now.old.now) cell.now place ≡ true) covered.now }
    ensures { IfOk result (λ kept. kept ≡ keeps crossing.now cell.now) }
{
    if any_under(crossing, levels, covered) {
        return Ok(true);
    }
    is_protected(alloc, crossing, cell)
}
