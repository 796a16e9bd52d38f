// Sums of changes over places.
ghost use Rattle.std.specs.Ordering.{int_eq};
ghost use Rattle.std.specs.Prelude.{◌≡◌, ◌<◌, ◌≤◌, true, length, slice_index_or, pos, IfOk};
ghost use Rattle.std.specs.List.{All, list_all};
ghost use Rattle.cube_model.specs.declared.policy.Policy.{Policy};
ghost use Rattle.cube_model.specs.Cores.{shown, IsSumOf};
ghost use Rattle.cube_model.specs.Cubes.{are_levels, covered};
ghost use Rattle.cube_model.specs.Dims.{plains};
ghost use Rattle.cube_model.specs.Requests.{total};
ghost use Rattle.cube_core.specs.Rows.{ArePlaces};
ghost use Rattle.cube_demo.specs.Hiding as said;
ghost use Rattle.cube_demo.specs.Hiding.{cancel_in as all_cancel};

use cube_core::Core;
use cube_model::{Cell, NoMemory, Places, Row, Rows};
use cube_source::covers;
use std::alloc::Global;

/// The change at a place.
fn sign_at(signs: &[i8], place: u32) -> i64
    requires { place < length signs.now }
    ensures sign { result ≡ slice_index_or signs.now place (pos 0) }
    ensures small { IsSumOf 1 result }
{
    i64::from(signs[place as usize])
}

/// The sum of changes over places.
fn sum_at(signs: &[i8], places: &[u32]) -> i64
    requires below { All (λ place. place < length signs.now) places.now }
    requires few { length places.now ≤ 65536 }
    ensures { result ≡ total signs.now places.now }
{
    let mut sum = 0;
    'places: for place in places {
        sum += sign_at(signs, *place);
    }
    sum
}

/// Whether changes add to 0 over a row.
fn cancels(signs: &[i8], row: &Row) -> bool
    requires places { ArePlaces (length signs.now) row.now.places }
    requires few { length signs.now ≤ 65536 }
    ensures { result ≡ int_eq (total signs.now row.now.places) (pos 0) }
{
    sum_at(signs, row.places.as_slice()) == 0
}

/// Whether changes add to 0 over each row.
fn cancel_in(signs: &[i8], rows: &[Row]) -> bool
    requires places { All (λ row. ArePlaces (length signs.now) row.places) rows.now }
    requires few { length signs.now ≤ 65536 }
    ensures { result ≡ all_cancel signs.now rows.now }
{
    'rows: for row in rows {
        if !cancels(signs, row) {
            return false;
        }
    }
    true
}

/// Whether changes add to 0 over each row of each table.
fn cancel_in_all(signs: &[i8], tables: &[Rows]) -> bool
    requires places { All (λ rows. All (λ row. ArePlaces (length signs.now) row.places) rows) tables.now }
    requires few { length signs.now ≤ 65536 }
    ensures { result ≡ list_all (all_cancel signs.now) tables.now }
{
    'tables: for rows in tables {
        if !cancel_in(signs, rows.as_slice()) {
            return false;
        }
    }
    true
}

/// The places that a cell covers.
fn covered_places(alloc: Global, core: &Core, cell: &Cell) -> Result<Places, NoMemory>
    requires { are_levels (plains core.now.dims) cell.now.levels ≡ true }
    ensures places { IfOk result (λ places. (p : Policy) → places ≡ covered (shown core.now p) cell.now) }
    ensures below { IfOk result (All (λ place. place < length core.now.shape.points)) }
    ensures few { IfOk result (λ places. length places ≤ 65536) }
{
    let mut found = Places::new(alloc);
    'places: for place in 0..core.len() {
        if covers(core, cell, place) {
            found.push(place)?;
        }
    }
    Ok(found)
}

/// Whether changes hide a cell: they add to 0 over each row of each table, and to 1 over the cell.
pub(crate) fn hides(
    alloc: Global,
    core: &Core,
    tables: &[Rows],
    signs: &[i8],
    cell: &Cell,
) -> Result<bool, NoMemory>
    requires levels { are_levels (plains core.now.dims) cell.now.levels ≡ true }
    requires places { All (λ rows. All (λ row. ArePlaces (length core.now.shape.points) row.places) rows) tables.now }
    requires long { length signs.now ≡ length core.now.shape.points }
    ensures { IfOk result (λ found. (p : Policy) → found ≡ said.hides (shown core.now p) tables.now signs.now cell.now) }
{
    let _rules = core.dims();
    if !cancel_in_all(signs, tables) {
        return Ok(false);
    }
    let places = covered_places(alloc, core, cell)?;
    Ok(sum_at(signs, places.as_slice()) == 1)
}
