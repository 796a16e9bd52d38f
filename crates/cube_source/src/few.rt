// Whether the places of a row, or those of a cell, have few enough facts for an object.
ghost use Rattle.std.specs.Prelude.{◌≡◌, ◌<◌, ◌&&◌, true, length};
ghost use Rattle.cube_core.specs.Rows.{ArePlaces};
ghost use Rattle.cube_model.specs.Cubes as cubes;
ghost use Rattle.cube_model.specs.Cubes.{Each, are_levels};
ghost use Rattle.cube_model.specs.Dims.{plains};
ghost use Rattle.cube_model.specs.Policies.{IsWithin};
ghost use Rattle.cube_model.specs.Protection as protection;
ghost use Rattle.cube_model.specs.Protection.{core_cell, facts_in};
ghost use Rattle.cube_source.specs.Blocks.{bare};
ghost use Rattle.cube_source.specs.Few as said;

use crate::places::{covers, in_slice, touches};
use cube_core::Core;
use cube_model::{Cell, Object, Row};

/// Whether the places of a row have fewer facts than a number, if one is given.
fn are_few(core: &Core, fewer: Option<u32>, row: &Row) -> bool
    requires { ArePlaces (length core.now.shape.points) row.now.places }
    ensures { result ≡ said.are_few (bare core.now) fewer row.now.places }
{
    match fewer {
        None => true,
        Some(number) => core.count_row(row) < number as u64,
    }
}

/// Whether one of the places of a row is in the slice of an object, and the row has few enough facts for it.
pub(crate) fn guards_row(core: &Core, object: &Object, row: &Row) -> bool
    requires places { ArePlaces (length core.now.shape.points) row.now.places }
    requires slice { Each (IsWithin core.now.dims) object.now.slice }
    ensures { result ≡ said.guards_row (bare core.now) object.now row.now.places }
{
    touches(core, object, row.places.as_slice()) && are_few(core, object.fewer, row)
}

/// Whether a place has fewer facts than a number, if one is given.
fn is_few(core: &Core, fewer: Option<u32>, place: u32) -> bool
    requires { place < length core.now.shape.points }
    ensures { result ≡ protection.has_fewer (bare core.now) fewer (core_cell (bare core.now) place) }
{
    let _rules = core.dims();
    match fewer {
        None => true,
        Some(number) => core.shape().facts.as_slice()[place as usize] < number as u64,
    }
}

/// Whether a place is in the slice of an object, and has few enough facts for it.
pub(crate) fn guards_place(core: &Core, object: &Object, place: u32) -> bool
    requires place { place < length core.now.shape.points }
    requires slice { Each (IsWithin core.now.dims) object.now.slice }
    ensures { result ≡ protection.guards (bare core.now) object.now (cubes.core (bare core.now)) place }
{
    in_slice(core, object, place) && is_few(core, object.fewer, place)
}

/// How many facts stand at the places of a cell.
fn facts_of(core: &Core, cell: &Cell) -> u64
    requires levels { are_levels (plains core.now.dims) cell.now.levels ≡ true }
    ensures { result ≡ facts_in (bare core.now) cell.now }
{
    let _rules = core.dims();
    let facts = core.shape().facts.as_slice();
    let mut total = 0;
    'places: for place in 0..core.len() {
        if covers(core, cell, place) {
            total += facts[place as usize];
        }
    }
    total
}

/// Whether a cell has fewer facts than a number, if one is given.
pub(crate) fn has_fewer(core: &Core, fewer: Option<u32>, cell: &Cell) -> bool
    requires levels { are_levels (plains core.now.dims) cell.now.levels ≡ true }
    ensures { result ≡ protection.has_fewer (bare core.now) fewer cell.now }
{
    match fewer {
        None => true,
        Some(number) => facts_of(core, cell) < number as u64,
    }
}
