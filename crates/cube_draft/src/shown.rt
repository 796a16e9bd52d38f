// Whether what a scan has seen shows that the fact file is accepted under dimensions that were drafted.
ghost use Rattle.std.specs.Prelude.{◌≡◌, ◌<◌, ◌≤◌, ◌==◌, ℕ, List, [], true, false, length, map, count_by, unwrap_or, slice_index_or, ◌++◌, ◌∷◌, IfOk, OnOk};
ghost use Rattle.std.specs.List.{list_all};
ghost use Rattle.std.specs.Str.{bytes_eq};
ghost use Rattle.csv.specs.Reading.{strip_bom};
ghost use Rattle.cube_model.specs.Dims.{found, measure_at};
ghost use Rattle.cube_model.specs.Names.{begins_with_mark};
ghost use Rattle.cube_draft.specs.Drafts.{AreTrue, AreFine, IsFilled};
ghost use Rattle.cube_draft.specs.Kept.{AreFew, Counts, HasFewPoints, IsAlike, IsMeasured, Shown, leaf_points};

use crate::check::{are_marked, have_same, number_in};
use crate::columns::place_of;
use crate::hierarchy::count_of;
use crate::table::Table;
use cube_model::{Dimension, Dims, Items, Measure, NoMemory, Text};
use std::alloc::Global;

// The most points of a fact file.
const MAX_POINTS: usize = 65_536;

// How many slots there are for the points: 2 to the power of so many, four times as many as points.
const SLOT_BITS: u32 = 18;

const SLOTS: usize = 262_144;

// The most slots in which a point is looked for.
const MAX_TURNS: usize = 32;

// An odd number that spreads codes over the slots.
const SPREAD: u64 = 11_400_714_819_323_198_485;

// Whether a name stands once in a header.
fn stands_once(header: &[Text], name: &[u8]) -> bool
    ensures { result ≡ (count_by (bytes_eq name.now) header.now == 1) }
{
    header.iter().filter(|x| name == x.as_slice()).count() == 1
}

// Whether the column of each dimension does.
fn leaves_stand_once(dimensions: &[Dimension], header: &[Text]) -> bool
    ensures { result ≡ list_all (λ d. count_by (bytes_eq d.column) header.now == 1) dimensions.now }
{
    dimensions.iter().all(|d| stands_once(header, d.column()))
}

// Whether the column of each measure does.
fn numbers_stand_once(measures: &[Measure], header: &[Text]) -> bool
    ensures { result ≡ list_all (λ m. count_by (bytes_eq m.column) header.now == 1) measures.now }
{
    measures.iter().all(|m| stands_once(header, m.column()))
}

// Whether a column of numbers has so many decimals.
fn has_decimals(table: &Table, place: usize, decimals: u32) -> bool
    ensures within { result ≡ true → place < length table.now.members.items }
    ensures unmarked { result ≡ true → slice_index_or table.now.members.items place false ≡ false }
    ensures same { result ≡ true → slice_index_or table.now.decimals.items place 0 ≡ decimals }
{
    if place >= table.members.len() || place >= table.decimals.len() {
        return false;
    }
    !table.members[place] && table.decimals[place] == decimals
}

// Whether a measure is of a column of numbers, of the decimals that they have.
fn is_measured(measure: &Measure, table: &Table) -> bool
    ensures { result ≡ true → IsMeasured table.now.header table.now.members.items table.now.decimals.items measure.now }
{
    match place_of(table.header.as_slice(), measure.column()) {
        Some(place) => has_decimals(table, place, measure.decimals()),
        None => false,
    }
}

// Whether all measures are.
fn are_measured(dims: &Dims, table: &Table) -> bool
    ensures { result ≡ true → (k : ℕ) → k < length dims.now.measures → IsMeasured table.now.header table.now.members.items table.now.decimals.items (measure_at dims.now k) }
{
    let measures = dims.measures();
    for number in 0..measures.len() {
        if !is_measured(&measures[number], table) {
            return false;
        }
    }
    true
}

/// Whether each measure has the decimals that a sound scan has seen in its column.
pub(crate) fn are_fine(dims: &Dims, table: &Table) -> bool
    ensures { result ≡ true → (bytes : List ℕ) → (table.now.sound ≡ true → Shown bytes table.now.header table.now.members.items table.now.fields.items table.now.rows table.now.decimals.items) → AreFine bytes dims.now }
{
    if !table.sound {
        return false;
    }
    are_measured(dims, table)
}

// The places of the columns in which the leaves stand.
fn leaf_places(alloc: Global, dims: &Dims, header: &[Text]) -> Result<Items<usize>, NoMemory>
    ensures { IfOk result (λ places. places ≡ map (λ d. unwrap_or (found d.column header.now) 0) dims.now.dimensions) }
{
    let mut places = Items::new(alloc);
    for dimension in dims.dimensions() {
        places.push(place_of(header, dimension.column()).unwrap_or(0))?;
    }
    Ok(places)
}

// What a point is looked for by: rows that are not alike have mostly not the same code.
fn code_of(table: &Table, places: &[usize], row: usize) -> u64 {
    let mut code = 0u64;
    for place in places {
        code = code
            .wrapping_mul(count_of(table, *place) as u64)
            .wrapping_add(number_in(table, *place, row) as u64);
    }
    code
}

/// The rows at which a point was met first, and guesses where to find them.
#[derive(Drop)]
struct Points {
    firsts: Vec<usize>,
    codes: Vec<u64>,
    // The number of a point and 1 more, or 0.
    slots: Vec<u32>,
}

// The number of the point that is noted in a slot, or of none.
fn noted(slots: &[u32], slot: usize) -> usize {
    match slots.get(slot) {
        Some(above) => (*above as usize).wrapping_sub(1),
        None => usize::MAX,
    }
}

// The slot in which a point with a code stands, or else one in which none does, or the last one
// that was looked at.
fn slot_of(points: &Points, code: u64) -> usize {
    let mut slot = (code.wrapping_mul(SPREAD) >> (64 - SLOT_BITS)) as usize;
    for _ in 0..MAX_TURNS {
        match points.codes.get(noted(points.slots.as_slice(), slot)) {
            Some(other) if *other != code => slot = slot.wrapping_add(1) % SLOTS,
            _ => return slot,
        }
    }
    slot
}

// Whether a row is alike to one of some rows, in some columns.
fn is_alike(table: &Table, places: &[usize], firsts: &[usize], number: usize, row: usize) -> bool
    ensures { result ≡ true → IsAlike table.now.fields.items places.now firsts.now row }
{
    number < firsts.len() && have_same(table, places, firsts[number], row)
}

// Adds a row at which a point is met first.
fn add_first(points: &mut Points, slot: usize, code: u64, row: usize) -> Result<(), NoMemory>
    requires { length points.old.firsts.items < 65536 }
    ensures { OnOk result (points.new.firsts.items ≡ points.old.firsts.items ++ row ∷ []) }
{
    points.firsts.push(row)?;
    points.codes.push(code)?;
    if slot < points.slots.len() {
        points.slots[slot] = points.firsts.len() as u32;
    }
    Ok(())
}

// Notes the point of a row, and whether there are few as yet.
fn note_row(
    points: &mut Points,
    table: &Table,
    places: &[usize],
    row: usize,
) -> Result<bool, NoMemory>
    requires { length points.old.firsts.items ≤ 65536 }
    ensures { IfOk result (λ few. few ≡ true → Counts table.now.fields.items places.now points.old.firsts.items points.new.firsts.items row) }
{
    let code = code_of(table, places, row);
    let slot = slot_of(points, code);
    let number = noted(points.slots.as_slice(), slot);
    if is_alike(table, places, points.firsts.as_slice(), number, row) {
        return Ok(true);
    }
    if points.firsts.len() >= MAX_POINTS {
        return Ok(false);
    }
    add_first(points, slot, code, row)?;
    Ok(true)
}

// Whether the rows have few points.
fn are_few(alloc: Global, table: &Table, places: &[usize]) -> Result<bool, NoMemory>
    ensures { IfOk result (λ few. few ≡ true → AreFew table.now.fields.items places.now table.now.rows) }
{
    let mut points = Points {
        firsts: Vec::new(alloc),
        codes: Vec::new(alloc),
        slots: vec![in alloc; 0u32; SLOTS]?,
    };
    for row in 0..table.rows {
        if !note_row(&mut points, table, places, row)? {
            return Ok(false);
        }
    }
    Ok(true)
}

// Whether all combinations of a leaf of each dimension are few.
fn have_few_leaves(dimensions: &[Dimension]) -> bool
    ensures { result ≡ true → leaf_points dimensions.now ≤ 65536 }
{
    let mut many = 1usize;
    for dimension in dimensions {
        let Some(more) = many.checked_mul(dimension.paths().len()) else {
            return false;
        };
        many = more;
    }
    many <= MAX_POINTS
}

// Whether there are few points. They are counted only where neither the rows nor the leaves are
// few.
fn has_few_points(
    alloc: Global,
    dims: &Dims,
    table: &Table,
    places: &[usize],
) -> Result<bool, NoMemory>
    ensures { IfOk result (λ few. few ≡ true → HasFewPoints dims.now.dimensions table.now.fields.items places.now table.now.rows) }
{
    if table.rows <= MAX_POINTS {
        return Ok(true);
    }
    if have_few_leaves(dims.dimensions()) {
        return Ok(true);
    }
    are_few(alloc, table, places)
}

/// Whether what a scan has seen shows that the fact file is accepted under dimensions that are true
/// of it. Where it does not, the file may be accepted all the same.
pub(crate) fn is_shown(alloc: Global, dims: &Dims, table: &Table) -> Result<bool, NoMemory>
    ensures { IfOk result (λ yes. yes ≡ true → (bytes : List ℕ) → (table.now.sound ≡ true → Shown bytes table.now.header table.now.members.items table.now.fields.items table.now.rows table.now.decimals.items) → begins_with_mark (strip_bom bytes) ≡ false → AreTrue bytes dims.now → IsFilled dims.now bytes) }
{
    let header = table.header.as_slice();
    if !leaves_stand_once(dims.dimensions(), header)
        || !numbers_stand_once(dims.measures(), header)
    {
        return Ok(false);
    }
    if !table.sound || !are_measured(dims, table) {
        return Ok(false);
    }
    let places = leaf_places(alloc, dims, header)?;
    if !are_marked(table.members.as_slice(), places.as_slice()) {
        return Ok(false);
    }
    has_few_points(alloc, dims, table, places.as_slice())
}
