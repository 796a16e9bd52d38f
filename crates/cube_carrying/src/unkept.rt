// The first cell of a measure that an old cube protects and a new one does not.
ghost use Rattle.std.specs.Prelude.{◌≡◌, ◌<◌, true, not, ◌&&◌, find, filter, flat_map, map, length, Some, None, if◌then◌else◌, IfOk};
ghost use Rattle.std.specs.List.{All};
ghost use Rattle.std.specs.Option.{option_map};
ghost use Rattle.cube_core.specs.Rows.{ArePlaces};
ghost use Rattle.cube_model.specs.Cubes as cubes;
ghost use Rattle.cube_model.specs.Cubes.{Each, are_levels, places as places_of};
ghost use Rattle.cube_model.specs.Dims.{plains};
ghost use Rattle.cube_model.specs.Policies.{IsPolicy, IsWithin};
ghost use Rattle.cube_model.specs.Protection as protection;
ghost use Rattle.cube_model.specs.Protection.{touched, under};
ghost use Rattle.cube_model.specs.Requests as requests;
ghost use Rattle.cube_source.specs.Blocks.{bare, whole, row_cell, AreBlocks};
ghost use Rattle.cube_source.specs.Few.{guards_row};
ghost use Rattle.cube_source.specs.Objects.{IsPlaced, of_measure};
ghost use Rattle.cube_carry.specs.Names as names;
ghost use Rattle.cube_carrying.specs.Crossings.{keeps, Crosses, StandsAreEnough, GuardsAreEnough};

use crate::carried_cells::carried_levels;
use crate::crossings::Crossing;
use crate::exposed::{is_exposed, is_exposed_somewhere, is_unguarded_at};
use crate::protecting::{is_kept, is_protected};
use crate::slices::guards_row;
use cube_core::Core;
use cube_lattice::cuboids_below;
use cube_model::{Cell, Key, Levels, NoMemory, Object, Request, Row, Rows, What};
use std::alloc::Global;

/// The rows of all places at a cuboid, in the order of their keys.
fn rows_at(alloc: Global, core: &Core, levels: &Levels) -> Result<Rows, NoMemory>
    requires { are_levels (plains core.now.dims) levels.now ≡ true }
    ensures rows { IfOk result (λ rows. rows ≡ requests.rows (bare core.now) (whole levels.now)) }
    ensures places { IfOk result (λ rows. AreBlocks (length core.now.shape.points) rows) }
{
    let request = Request::whole(alloc, What::Count, levels)?;
    core.rows(alloc, &request)
}

/// A cell of a cuboid.
fn make_cell(alloc: Global, levels: &Levels, key: &Key) -> Result<Cell, NoMemory>
    ensures { IfOk result (λ cell. cell ≡ record { levels = levels.now; key = key.now }) }
{
    Ok(Cell {
        levels: levels.copied(alloc)?,
        key: key.copied(alloc)?,
    })
}

/// The cell of a row that an old object guards, where the new cube does not protect it.
fn unkept_cell(
    alloc: Global,
    crossing: &Crossing,
    object: &Object,
    levels: &Levels,
    carried: &Levels,
    row: &Row,
) -> Result<Option<Cell>, NoMemory>
    requires carries { Crosses crossing.now }
    requires suffice { StandsAreEnough crossing.now }
    requires slice { Each (IsWithin crossing.now.old.now.dims) object.now.slice }
    requires levels { are_levels (plains crossing.now.old.now.dims) levels.now ≡ true }
    requires carried { carried.now ≡ names.carried_levels crossing.now.old.now.dims crossing.now.new.now.dims levels.now }
    requires below { ArePlaces (length crossing.now.old.now.shape.points) row.now.places }
    requires covered { All (λ place. cubes.covers (bare crossing.now.old.now) (row_cell levels.now row.now) place ≡ true) row.now.places }
    ensures { IfOk result (λ found. found ≡ (if guards_row (bare crossing.now.old.now) object.now row.now.places && not (keeps crossing.now (row_cell levels.now row.now)) then Some (row_cell levels.now row.now) else None)) }
{
    if !guards_row(crossing.old, object, row) {
        return Ok(None);
    }
    let cell = make_cell(alloc, levels, &row.key)?;
    if is_kept(alloc, crossing, carried, &cell, row.places.as_slice())? {
        return Ok(None);
    }
    Ok(Some(cell))
}

/// The first such cell of the rows of a cuboid.
fn unkept_row(
    alloc: Global,
    crossing: &Crossing,
    object: &Object,
    levels: &Levels,
    carried: &Levels,
    rows: &[Row],
) -> Result<Option<Cell>, NoMemory>
    requires carries { Crosses crossing.now }
    requires suffice { StandsAreEnough crossing.now }
    requires slice { Each (IsWithin crossing.now.old.now.dims) object.now.slice }
    requires levels { are_levels (plains crossing.now.old.now.dims) levels.now ≡ true }
    requires carried { carried.now ≡ names.carried_levels crossing.now.old.now.dims crossing.now.new.now.dims levels.now }
    requires rows { rows.now ≡ requests.rows (bare crossing.now.old.now) (whole levels.now) }
    requires below { AreBlocks (length crossing.now.old.now.shape.points) rows.now }
    ensures { IfOk result (λ found. found ≡ option_map (row_cell levels.now) (find (λ row. guards_row (bare crossing.now.old.now) object.now row.places && not (keeps crossing.now (row_cell levels.now row))) rows.now)) }
{
    'rows: for row in rows {
        let found = unkept_cell(alloc, crossing, object, levels, carried, row)?;
        if let Some(cell) = found {
            return Ok(Some(cell));
        }
    }
    Ok(None)
}

/// The first cell of one cuboid that an old object protects and the new cube does not. The places are grouped by their
/// keys only where one in the slice stands under no new object at or above the cuboid.
fn unkept_at(
    alloc: Global,
    crossing: &Crossing,
    object: &Object,
    levels: &Levels,
) -> Result<Option<Cell>, NoMemory>
    requires carries { Crosses crossing.now }
    requires suffice { StandsAreEnough crossing.now }
    requires slice { Each (IsWithin crossing.now.old.now.dims) object.now.slice }
    requires levels { are_levels (plains crossing.now.old.now.dims) levels.now ≡ true }
    ensures { IfOk result (λ found. found ≡ find (λ cell. not (keeps crossing.now cell)) (touched (bare crossing.now.old.now) object.now levels.now)) }
{
    let carried = carried_levels(
        alloc,
        crossing.old.dims(),
        crossing.new.dims(),
        levels.as_slice(),
    )?;
    if !is_exposed_somewhere(crossing, object, &carried) {
        return Ok(None);
    }
    let rows = rows_at(alloc, crossing.old, levels)?;
    unkept_row(alloc, crossing, object, levels, &carried, rows.as_slice())
}

/// The first cell that an old object protects and the new cube does not, cuboid by cuboid.
fn unkept_below(
    alloc: Global,
    crossing: &Crossing,
    object: &Object,
) -> Result<Option<Cell>, NoMemory>
    requires carries { Crosses crossing.now }
    requires suffice { StandsAreEnough crossing.now }
    requires slice { Each (IsWithin crossing.now.old.now.dims) object.now.slice }
    requires levels { are_levels (plains crossing.now.old.now.dims) object.now.levels ≡ true }
    ensures { IfOk result (λ found. found ≡ find (λ cell. not (keeps crossing.now cell)) (under (bare crossing.now.old.now) object.now)) }
{
    let cuboids = cuboids_below(alloc, &object.levels)?;
    'levels: for levels in cuboids.as_slice() {
        let found = unkept_at(alloc, crossing, object, levels)?;
        if let Some(cell) = found {
            return Ok(Some(cell));
        }
    }
    Ok(None)
}

/// The same. An object is passed over where each place of its slice stands under a new object at or above it.
fn unkept_under(
    alloc: Global,
    crossing: &Crossing,
    object: &Object,
) -> Result<Option<Cell>, NoMemory>
    requires carries { Crosses crossing.now }
    requires suffice { StandsAreEnough crossing.now }
    requires slice { Each (IsWithin crossing.now.old.now.dims) object.now.slice }
    requires levels { are_levels (plains crossing.now.old.now.dims) object.now.levels ≡ true }
    ensures { IfOk result (λ found. found ≡ find (λ cell. not (keeps crossing.now cell)) (under (bare crossing.now.old.now) object.now)) }
{
    if !is_exposed(alloc, crossing, object)? {
        return Ok(None);
    }
    unkept_below(alloc, crossing, object)
}

/// The first cell that objects of a measure of the old cube protect and the new one does not.
pub(crate) fn unkept_lattice(
    alloc: Global,
    crossing: &Crossing,
    objects: &[Object],
    old_measure: u32,
) -> Result<Option<Cell>, NoMemory>
    requires carries { Crosses crossing.now }
    requires suffice { StandsAreEnough crossing.now }
    requires objects { Each (IsPlaced crossing.now.old.now.dims) objects.now }
    ensures { IfOk result (λ found. found ≡ find (λ cell. not (keeps crossing.now cell)) (flat_map (under (bare crossing.now.old.now)) (of_measure old_measure objects.now))) }
{
    'objects: for object in objects {
        if object.measure == old_measure {
            let found = unkept_under(alloc, crossing, object)?;
            if let Some(cell) = found {
                return Ok(Some(cell));
            }
        }
    }
    Ok(None)
}

/// The finest levels.
fn finest(alloc: Global, core: &Core) -> Result<Levels, NoMemory>
    ensures { IfOk result (λ levels. levels ≡ cubes.core (bare core.now)) }
{
    let mut levels = Levels::new(alloc);
    'dimensions: for _dimension in core.dims().dimensions() {
        levels.push(0)?;
    }
    Ok(levels)
}

/// The core cell of a place: its key is the point.
fn core_cell(alloc: Global, core: &Core, place: u32) -> Result<Cell, NoMemory>
    requires { place < length core.now.shape.points }
    ensures { IfOk result (λ cell. cell ≡ protection.core_cell (bare core.now) place) }
{
    let points = core.shape().points.as_slice();
    let key = points[place as usize].copied(alloc)?;
    let levels = finest(alloc, core)?;
    Ok(Cell { levels, key })
}

/// The core cell of a place, where it is guarded in the old cube and the new one does not protect it. The cell is only
/// looked for where the new place is not guarded.
fn unkept_core(
    alloc: Global,
    crossing: &Crossing,
    old_measure: u32,
    place: u32,
) -> Result<Option<Cell>, NoMemory>
    requires old_policy { IsPolicy crossing.now.old.now.dims crossing.now.old_policy.now }
    requires carries { Crosses crossing.now }
    requires suffice { GuardsAreEnough crossing.now }
    requires place { place < length crossing.now.old.now.shape.points }
    ensures { IfOk result (λ found. found ≡ (if protection.is_guarded (bare crossing.now.old.now) (of_measure old_measure crossing.now.old_policy.now.objects) place && not (keeps crossing.now (protection.core_cell (bare crossing.now.old.now) place)) then Some (protection.core_cell (bare crossing.now.old.now) place) else None)) }
{
    if !is_unguarded_at(crossing, old_measure, place) {
        return Ok(None);
    }
    let cell = core_cell(alloc, crossing.old, place)?;
    if is_protected(alloc, crossing, &cell)? {
        return Ok(None);
    }
    Ok(Some(cell))
}

/// The first guarded core cell of the old cube that the new one does not protect.
pub(crate) fn unkept_parity(
    alloc: Global,
    crossing: &Crossing,
    old_measure: u32,
) -> Result<Option<Cell>, NoMemory>
    requires old_policy { IsPolicy crossing.now.old.now.dims crossing.now.old_policy.now }
    requires carries { Crosses crossing.now }
    requires suffice { GuardsAreEnough crossing.now }
    ensures { IfOk result (λ found. found ≡ find (λ cell. not (keeps crossing.now cell)) (map (protection.core_cell (bare crossing.now.old.now)) (filter (protection.is_guarded (bare crossing.now.old.now) (of_measure old_measure crossing.now.old_policy.now.objects)) (places_of (bare crossing.now.old.now))))) }
{
    'places: for place in 0..crossing.old.len() {
        let found = unkept_core(alloc, crossing, old_measure, place)?;
        if let Some(cell) = found {
            return Ok(Some(cell));
        }
    }
    Ok(None)
}
