// Which places are in the slices of objects, and how many cells of a cuboid the objects of measures at or above it protect.
ghost use Rattle.std.specs.Prelude.{◌≡◌, ◌<◌, ◌≤◌, ◌==◌, ◌&&◌, ℕ, true, false, filter, map, length, replicate, slice_index_or, nat_lt, if◌then◌else◌, IfOk};
ghost use Rattle.std.specs.List.{list_any, All};
ghost use Rattle.cube_model.specs.Cubes.{Each, are_levels, is_finer, places};
ghost use Rattle.cube_model.specs.Dims.{plains};
ghost use Rattle.cube_model.specs.Policies.{IsWithin};
ghost use Rattle.cube_model.specs.Requests as requests;
ghost use Rattle.cube_source.specs.Blocks.{bare, whole, AreBlocks};
ghost use Rattle.cube_source.specs.Bounds as said;
ghost use Rattle.cube_source.specs.Bounds.{raised, bound_over, is_below_bound, AreBounds};
ghost use Rattle.cube_source.specs.Counts.{count_over};
ghost use Rattle.cube_source.specs.Objects.{IsPlaced, slice_of, cells_over};

use crate::blocks::rows_at;
use crate::places::in_slice;
use cube_core::Core;
use cube_lattice::finer_or_equal;
use cube_model::{Items, Levels, NoMemory, Object, Row};
use std::alloc::Global;

/// A flag for each place.
pub(crate) type Flags = Items<bool>;

/// For each place, whether it is in the slice of an object.
fn slice_flags(alloc: Global, core: &Core, object: &Object) -> Result<Flags, NoMemory>
    requires slice { Each (IsWithin core.now.dims) object.now.slice }
    ensures { IfOk result (λ flags. flags ≡ slice_of (bare core.now) object.now) }
{
    let mut flags = Flags::new(alloc);
    'places: for place in 0..core.len() {
        flags.push(in_slice(core, object, place))?;
    }
    Ok(flags)
}

/// The flags of each object.
pub(crate) fn slices_of(
    alloc: Global,
    core: &Core,
    objects: &[Object],
) -> Result<Items<Flags>, NoMemory>
    requires objects { Each (IsPlaced core.now.dims) objects.now }
    ensures { IfOk result (λ slices. slices ≡ map (slice_of (bare core.now)) objects.now) }
{
    let mut slices = Items::new(alloc);
    'objects: for number in 0..objects.len() {
        slices.push(slice_flags(alloc, core, &objects[number])?)?;
    }
    Ok(slices)
}

/// The number of facts from which on an object does not protect a cell: one that no cell has, where it says none.
fn limit(fewer: Option<u32>) -> u32
    ensures { result ≡ said.limit fewer }
{
    match fewer {
        None => u32::MAX,
        Some(number) => number,
    }
}

/// So many bounds of 0.
fn no_bounds(alloc: Global, many: usize) -> Result<Vec<u32>, NoMemory>
    ensures { IfOk result (λ bounds. bounds.items ≡ replicate many 0) }
{
    Ok(vec![in alloc; 0; many]?)
}

/// Raises the bounds of the flagged places to a limit, where they are less.
fn raise(bounds: &mut [u32], slice: &[bool], limit: u32)
    requires { length slice.now ≡ length bounds.old }
    ensures long { length bounds.new ≡ length bounds.old }
    ensures raised { (k : ℕ) → k < length bounds.old → slice_index_or bounds.new k 0 ≡ raised (slice_index_or bounds.old k 0) (if slice_index_or slice.now k false then limit else 0) }
{
    'places: for place in 0..slice.len() {
        let own = if slice[place] { limit } else { 0 };
        if bounds[place] < own {
            bounds[place] = own;
        }
    }
}

/// Raises the bounds in the slice of an object, where it is of the measure and stands at or above a cuboid.
fn add_slice(bounds: &mut [u32], object: &Object, slice: &[bool], measure: u32, levels: &Levels)
    requires { length slice.now ≡ length bounds.old }
    ensures long { length bounds.new ≡ length bounds.old }
    ensures added { (k : ℕ) → k < length bounds.old → slice_index_or bounds.new k 0 ≡ raised (slice_index_or bounds.old k 0) (if object.now.measure == measure && is_finer levels.now object.now.levels && slice_index_or slice.now k false then said.limit object.now.fewer else 0) }
{
    if object.measure == measure && finer_or_equal(levels, &object.levels) {
        raise(bounds, slice, limit(object.fewer));
    }
}

/// For each place, the greatest limit of the objects of the measure at or above a cuboid in whose slices it is.
fn bounds_over(
    alloc: Global,
    core: &Core,
    objects: &[Object],
    slices: &[Flags],
    measure: u32,
    levels: &Levels,
) -> Result<Vec<u32>, NoMemory>
    requires slices { slices.now ≡ map (slice_of (bare core.now)) objects.now }
    ensures { IfOk result (λ bounds. AreBounds (length core.now.shape.points) (bound_over (bare core.now) objects.now measure levels.now) bounds.items) }
{
    let mut bounds = no_bounds(alloc, core.len() as usize)?;
    'objects: for number in 0..objects.len() {
        let slice = slices[number].as_slice();
        add_slice(
            bounds.as_mut_slice(),
            &objects[number],
            slice,
            measure,
            levels,
        );
    }
    Ok(bounds)
}

/// Whether a number is below the bound of one of the places.
fn is_below_any(bounds: &[u32], places: &[u32], number: u64) -> bool
    requires { All (λ place. place < length bounds.now) places.now }
    ensures { result ≡ list_any (λ place. nat_lt number (slice_index_or bounds.now place 0)) places.now }
{
    places
        .iter()
        .any(|place| number < bounds[*place as usize] as u64)
}

/// How many rows have a place whose bound is above the facts of the row.
fn count_below(core: &Core, rows: &[Row], bounds: &[u32]) -> usize
    requires rows { AreBlocks (length core.now.shape.points) rows.now }
    requires bounds { length bounds.now ≡ length core.now.shape.points }
    ensures count { result ≡ length (filter (is_below_bound (bare core.now) bounds.now) rows.now) }
{
    let mut total = 0;
    'rows: for row in rows {
        if is_below_any(bounds, row.places.as_slice(), core.count_row(row)) {
            total += 1;
        }
    }
    total
}

/// Whether an object of the measure stands at or above a cuboid.
fn is_below(objects: &[Object], measure: u32, levels: &Levels) -> bool
    ensures { result ≡ list_any (λ object. object.measure == measure && is_finer levels.now object.levels) objects.now }
{
    objects.iter().any(|object| object.measure == measure && finer_or_equal(levels, &object.levels))
}

/// Whether an object of one of the measures stands at or above a cuboid.
fn is_any_below(objects: &[Object], measures: &[u32], levels: &Levels) -> bool
    ensures { result ≡ list_any (λ measure. list_any (λ object. object.measure == measure && is_finer levels.now object.levels) objects.now) measures.now }
{
    measures
        .iter()
        .any(|measure| is_below(objects, *measure, levels))
}

/// How many cells of a cuboid objects of the measure protect; the rows are those of the cuboid.
fn count_among(
    alloc: Global,
    core: &Core,
    objects: &[Object],
    slices: &[Flags],
    measure: u32,
    levels: &Levels,
    rows: &[Row],
) -> Result<u64, NoMemory>
    requires slices { slices.now ≡ map (slice_of (bare core.now)) objects.now }
    requires rows { rows.now ≡ requests.rows (bare core.now) (whole levels.now) }
    requires places { AreBlocks (length core.now.shape.points) rows.now }
    ensures count { IfOk result (λ count. count ≡ length (cells_over (bare core.now) objects.now measure levels.now)) }
    ensures small { IfOk result (λ count. count ≤ 65536) }
{
    let _rules = core.dims();
    if !is_below(objects, measure, levels) {
        return Ok(0);
    }
    let bounds = bounds_over(alloc, core, objects, slices, measure, levels)?;
    Ok(count_below(core, rows, bounds.as_slice()) as u64)
}

/// How many cells of a cuboid objects of each of the measures protect. The places are grouped by their keys once for all
/// measures, and only where an object of one of them stands at or above the cuboid.
pub(crate) fn count_at(
    alloc: Global,
    core: &Core,
    objects: &[Object],
    slices: &[Flags],
    measures: &[u32],
    levels: &Levels,
) -> Result<u64, NoMemory>
    requires levels { are_levels (plains core.now.dims) levels.now ≡ true }
    requires slices { slices.now ≡ map (slice_of (bare core.now)) objects.now }
    requires few { length measures.now ≤ 16 }
    ensures count { IfOk result (λ count. count ≡ count_over (bare core.now) objects.now measures.now levels.now) }
    ensures small { IfOk result (λ count. count ≤ 1048576) }
{
    if !is_any_below(objects, measures, levels) {
        return Ok(0);
    }
    let rows = rows_at(alloc, core, levels)?;
    let mut total = 0;
    'measures: for measure in measures {
        total += count_among(
            alloc,
            core,
            objects,
            slices,
            *measure,
            levels,
            rows.as_slice(),
        )?;
    }
    Ok(total)
}
