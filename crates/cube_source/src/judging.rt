// Whether a source cuboid cuts each protected cell of a measure.
ghost use Rattle.std.specs.Prelude.{◌≡◌, ◌<◌, true, false, not, ◌&&◌, find, flat_map, filter, map, length, slice_index_or, None, IfOk};
ghost use Rattle.std.specs.List.{list_any};
ghost use Rattle.std.specs.Option.{option_map};
ghost use Rattle.cube_core.specs.Rows.{ArePlaces};
ghost use Rattle.cube_model.specs.Cores.{shown};
ghost use Rattle.cube_model.specs.Cubes.{Each, are_levels, places};
ghost use Rattle.cube_model.specs.Dims.{plains};
ghost use Rattle.cube_model.specs.Policies.{IsPolicy, IsWithin};
ghost use Rattle.cube_model.specs.Protection.{in_slice, touched, under, uncut, core_cell};
ghost use Rattle.cube_model.specs.Protection as protection;
ghost use Rattle.cube_source.specs.Blocks.{bare, is_mixed, is_parted, row_cell, AreBlocks, AreFlags};
ghost use Rattle.cube_source.specs.Few.{guards_row};
ghost use Rattle.cube_source.specs.Judged.{judged_of};
ghost use Rattle.cube_source.specs.Objects.{IsPlaced, of_measure};

use crate::blocks::{meets, mixed_places, rows_at};
use crate::containing::is_contained;
use crate::few::guards_row;
use crate::parting::{Mixed, first_mixed, is_all_parted};
use crate::places::{finest, in_slice, key_of};
use crate::protecting::is_guarded;
use cube_core::Core;
use cube_lattice::cuboids_below;
use cube_model::{Cell, Key, Levels, Method, NoMemory, Object, Policy, Row};
use std::alloc::Global;

/// The verdict on a source cuboid.
#[derive(Drop)]
pub enum Judged {
    /// The cuboid cuts each protected cell.
    Safe,
    /// The cuboid does not cut this protected cell, the first such.
    Uncut {
        /// The cell.
        cell: Cell,
    },
}

/// Whether an object guards a row and none of its places is flagged.
fn passes(core: &Core, object: &Object, row: &Row, mixed: &[bool]) -> bool
    requires places { ArePlaces (length core.now.shape.points) row.now.places }
    requires mixed { length mixed.now ≡ length core.now.shape.points }
    requires slice { Each (IsWithin core.now.dims) object.now.slice }
    ensures { result ≡ (guards_row (bare core.now) object.now row.now.places && not (list_any (λ place. slice_index_or mixed.now place false) row.now.places)) }
{
    guards_row(core, object, row) && !meets(mixed, row.places.as_slice())
}

/// A cell of a cuboid.
pub(crate) fn make_cell(alloc: Global, levels: &Levels, key: &Key) -> Result<Cell, NoMemory>
    ensures { IfOk result (λ cell. cell ≡ record { levels = levels.now; key = key.now }) }
{
    Ok(Cell {
        levels: levels.copied(alloc)?,
        key: key.copied(alloc)?,
    })
}

/// The cell of the first row that an object guards and that has no flagged place.
fn uncut_row(
    alloc: Global,
    core: &Core,
    object: &Object,
    levels: &Levels,
    rows: &[Row],
    mixed: &[bool],
) -> Result<Option<Cell>, NoMemory>
    requires rows { AreBlocks (length core.now.shape.points) rows.now }
    requires mixed { length mixed.now ≡ length core.now.shape.points }
    requires slice { Each (IsWithin core.now.dims) object.now.slice }
    ensures { IfOk result (λ found. found ≡ option_map (row_cell levels.now) (find (λ row. guards_row (bare core.now) object.now row.places && not (list_any (λ place. slice_index_or mixed.now place false) row.places)) rows.now)) }
{
    'rows: for row in rows {
        if passes(core, object, row, mixed) {
            return Ok(Some(make_cell(alloc, levels, &row.key)?));
        }
    }
    Ok(None)
}

/// Whether one of the places that are not flagged is in the slice of an object.
pub(crate) fn any_unmixed(core: &Core, object: &Object, mixed: &[bool]) -> bool
    requires mixed { length mixed.now ≡ length core.now.shape.points }
    requires slice { Each (IsWithin core.now.dims) object.now.slice }
    ensures { result ≡ list_any (λ place. not (slice_index_or mixed.now place false) && in_slice (bare core.now) object.now place) (places (bare core.now)) }
{
    'places: for place in 0..core.len() {
        if !mixed[place as usize] && in_slice(core, object, place) {
            return true;
        }
    }
    false
}

/// The first cell of one cuboid that an object protects and no block parts. The places are grouped by their
/// keys only where one in the slice is not flagged: each cell with a flagged place is parted.
fn uncut_at(
    alloc: Global,
    core: &Core,
    blocks: &[Row],
    object: &Object,
    levels: &Levels,
) -> Result<Option<Cell>, NoMemory>
    requires blocks { AreBlocks (length core.now.shape.points) blocks.now }
    requires levels { are_levels (plains core.now.dims) levels.now ≡ true }
    requires slice { Each (IsWithin core.now.dims) object.now.slice }
    ensures { IfOk result (λ found. found ≡ find (λ cell. not (is_parted (bare core.now) blocks.now cell)) (touched (bare core.now) object.now levels.now)) }
{
    let mixed = mixed_places(alloc, core, blocks, levels)?;
    if !any_unmixed(core, object, mixed.as_slice()) {
        return Ok(None);
    }
    let rows = rows_at(alloc, core, levels)?;
    uncut_row(
        alloc,
        core,
        object,
        levels,
        rows.as_slice(),
        mixed.as_slice(),
    )
}

/// The first cell that an object protects and no block parts.
fn uncut_under(
    alloc: Global,
    core: &Core,
    blocks: &[Row],
    object: &Object,
) -> Result<Option<Cell>, NoMemory>
    requires blocks { AreBlocks (length core.now.shape.points) blocks.now }
    requires levels { are_levels (plains core.now.dims) object.now.levels ≡ true }
    requires slice { Each (IsWithin core.now.dims) object.now.slice }
    ensures { IfOk result (λ found. found ≡ find (λ cell. not (is_parted (bare core.now) blocks.now cell)) (under (bare core.now) object.now)) }
{
    let cuboids = cuboids_below(alloc, &object.levels)?;
    'levels: for levels in cuboids.as_slice() {
        if let Some(cell) = uncut_at(alloc, core, blocks, object, levels)? {
            return Ok(Some(cell));
        }
    }
    Ok(None)
}

/// The same, where each cell is parted that earlier objects of the measure protect: an object that one of these contains is
/// passed over. So is one of which all cells are parted.
fn uncut_new(
    alloc: Global,
    core: &Core,
    blocks: &[Row],
    mixed: &Mixed,
    earlier: &[Object],
    object: &Object,
) -> Result<Option<Cell>, NoMemory>
    requires blocks { AreBlocks (length core.now.shape.points) blocks.now }
    requires mixed { AreFlags (length core.now.shape.points) (is_mixed (bare core.now) mixed.now.levels blocks.now) mixed.now.flags.items }
    requires earlier { Each (IsPlaced core.now.dims) earlier.now }
    requires levels { are_levels (plains core.now.dims) object.now.levels ≡ true }
    requires slice { Each (IsWithin core.now.dims) object.now.slice }
    requires passed { find (λ cell. not (is_parted (bare core.now) blocks.now cell)) (flat_map (under (bare core.now)) (of_measure object.now.measure earlier.now)) ≡ None }
    ensures { IfOk result (λ found. found ≡ find (λ cell. not (is_parted (bare core.now) blocks.now cell)) (under (bare core.now) object.now)) }
{
    if is_contained(core, earlier, object) {
        return Ok(None);
    }
    if is_all_parted(alloc, core, blocks, mixed, object)? {
        return Ok(None);
    }
    uncut_under(alloc, core, blocks, object)
}

/// The first cell that objects of a measure protect and no block parts.
fn uncut_lattice(
    alloc: Global,
    core: &Core,
    blocks: &[Row],
    objects: &[Object],
    measure: u32,
) -> Result<Option<Cell>, NoMemory>
    requires blocks { AreBlocks (length core.now.shape.points) blocks.now }
    requires objects { Each (IsPlaced core.now.dims) objects.now }
    ensures { IfOk result (λ found. found ≡ find (λ cell. not (is_parted (bare core.now) blocks.now cell)) (flat_map (under (bare core.now)) (of_measure measure objects.now))) }
{
    let mixed = first_mixed(alloc, core, blocks, objects)?;
    'objects: for number in 0..objects.len() {
        let object = &objects[number];
        if object.measure == measure {
            if let Some(cell) = uncut_new(
                alloc,
                core,
                blocks,
                &mixed,
                &objects[..number],
                object,
            )? {
                return Ok(Some(cell));
            }
        }
    }
    Ok(None)
}

/// The first guarded place that is not flagged.
fn unmixed_place(core: &Core, objects: &[Object], measure: u32, mixed: &[bool]) -> Option<u32>
    requires mixed { length mixed.now ≡ length core.now.shape.points }
    requires objects { Each (IsPlaced core.now.dims) objects.now }
    ensures { result ≡ find (λ place. protection.is_guarded (bare core.now) (of_measure measure objects.now) place && not (slice_index_or mixed.now place false)) (places (bare core.now)) }
{
    'places: for place in 0..core.len() {
        if is_guarded(core, objects, measure, place) && !mixed[place as usize] {
            return Some(place);
        }
    }
    None
}

/// The first guarded core cell that no block parts.
fn uncut_parity(
    alloc: Global,
    core: &Core,
    blocks: &[Row],
    objects: &[Object],
    measure: u32,
) -> Result<Option<Cell>, NoMemory>
    requires blocks { AreBlocks (length core.now.shape.points) blocks.now }
    requires objects { Each (IsPlaced core.now.dims) objects.now }
    ensures { IfOk result (λ found. found ≡ find (λ cell. not (is_parted (bare core.now) blocks.now cell)) (map (core_cell (bare core.now)) (filter (protection.is_guarded (bare core.now) (of_measure measure objects.now)) (places (bare core.now))))) }
{
    let _rules = core.dims();
    let levels = finest(alloc, core)?;
    let mixed = mixed_places(alloc, core, blocks, &levels)?;
    match unmixed_place(core, objects, measure, mixed.as_slice()) {
        None => Ok(None),
        Some(place) => {
            let key = key_of(alloc, core, levels.as_slice(), place)?;
            Ok(Some(Cell { levels, key }))
        }
    }
}

/// The first protected cell of a measure that a cuboid does not cut.
fn first_uncut(
    alloc: Global,
    core: &Core,
    policy: &Policy,
    measure: u32,
    levels: &Levels,
) -> Result<Option<Cell>, NoMemory>
    requires policy { IsPolicy core.now.dims policy.now }
    requires measure { measure < length core.now.dims.measures }
    requires levels { are_levels (plains core.now.dims) levels.now ≡ true }
    ensures { IfOk result (λ found. found ≡ uncut (shown core.now policy.now) levels.now measure) }
{
    let objects = policy.objects.as_slice();
    match policy.method(measure) {
        Method::Plain => Ok(None),
        Method::Lattice => {
            let blocks = rows_at(alloc, core, levels)?;
            uncut_lattice(alloc, core, blocks.as_slice(), objects, measure)
        }
        Method::Parity => {
            let blocks = rows_at(alloc, core, levels)?;
            uncut_parity(alloc, core, blocks.as_slice(), objects, measure)
        }
    }
}

/// Whether a cuboid cuts each protected cell of a measure, or else the first protected cell that it
/// does not cut: in the order of the objects, then of the cuboids by number, then of the keys; of a
/// measure under the parity rule in the order of the places.
///
/// It groups all places once by the cuboid, and looks at them once for each object that no earlier one contains: that tells
/// whether a cell of it is not cut. The first of which one is not is searched cuboid by cuboid. It lists no protected cells.
pub fn judge(
    alloc: Global,
    core: &Core,
    policy: &Policy,
    measure: u32,
    levels: &Levels,
) -> Result<Judged, NoMemory>
    requires policy { IsPolicy core.now.dims policy.now }
    requires measure { measure < length core.now.dims.measures }
    requires levels { are_levels (plains core.now.dims) levels.now ≡ true }
    ensures { IfOk result (λ judged. judged ≡ judged_of (uncut (shown core.now policy.now) levels.now measure)) }
{
    match first_uncut(alloc, core, policy, measure, levels)? {
        None => Ok(Judged::Safe),
        Some(cell) => Ok(Judged::Uncut { cell }),
    }
}
