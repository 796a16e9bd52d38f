// Whether a cell is among the protected cells of a measure.
ghost use Rattle.std.specs.Prelude.{◌≡◌, ◌<◌, ◌==◌, ◌&&◌, true, length};
ghost use Rattle.std.specs.List.{list_any, list_all};
ghost use Rattle.cube_model.specs.Cores.{shown};
ghost use Rattle.cube_model.specs.Cubes as cubes;
ghost use Rattle.cube_model.specs.Cubes.{Each, are_levels, is_finer, places};
ghost use Rattle.cube_model.specs.Dims.{plains};
ghost use Rattle.cube_model.specs.Policies.{IsPolicy, IsWithin};
ghost use Rattle.cube_model.specs.Protection as protection;
ghost use Rattle.cube_model.specs.Protection.{protected, same_cell};
ghost use Rattle.cube_source.specs.Blocks.{bare};
ghost use Rattle.cube_source.specs.Objects.{IsPlaced, of_measure, covers_slice};

use crate::few::{guards_place, has_fewer};
use crate::places::{covers, in_slice};
use cube_core::Core;
use cube_lattice::finer_or_equal;
use cube_model::{Cell, Method, Object, Policy};

/// Whether one of the objects is of the measure.
fn has_measure(objects: &[Object], measure: u32) -> bool
    ensures { result ≡ list_any (λ object. object.measure == measure) objects.now }
{
    objects.iter().any(|object| object.measure == measure)
}

/// Whether an object of the measure guards a place.
fn is_guarded_by(core: &Core, objects: &[Object], measure: u32, place: u32) -> bool
    requires place { place < length core.now.shape.points }
    requires objects { Each (IsPlaced core.now.dims) objects.now }
    ensures { result ≡ list_any (λ object. object.measure == measure && protection.guards (bare core.now) object (cubes.core (bare core.now)) place) objects.now }
{
    'objects: for object in objects {
        if object.measure == measure && guards_place(core, object, place) {
            return true;
        }
    }
    false
}

/// Whether an object of the measure guards a place, or the measure has no object.
pub(crate) fn is_guarded(core: &Core, objects: &[Object], measure: u32, place: u32) -> bool
    requires place { place < length core.now.shape.points }
    requires objects { Each (IsPlaced core.now.dims) objects.now }
    ensures { result ≡ protection.is_guarded (bare core.now) (of_measure measure objects.now) place }
{
    !has_measure(objects, measure) || is_guarded_by(core, objects, measure, place)
}

/// Whether a cell covers a place of the slice of an object.
fn covers_slice(core: &Core, object: &Object, cell: &Cell) -> bool
    requires levels { are_levels (plains core.now.dims) cell.now.levels ≡ true }
    requires slice { Each (IsWithin core.now.dims) object.now.slice }
    ensures { result ≡ list_any (λ place. cubes.covers (bare core.now) cell.now place && protection.in_slice (bare core.now) object.now place) (places (bare core.now)) }
{
    'places: for place in 0..core.len() {
        if covers(core, cell, place) && in_slice(core, object, place) {
            return true;
        }
    }
    false
}

/// Whether an object of the measure stands at or above the cell, and the cell covers a place of its
/// slice and has few enough facts for it.
fn stands_under(core: &Core, objects: &[Object], measure: u32, cell: &Cell) -> bool
    requires levels { are_levels (plains core.now.dims) cell.now.levels ≡ true }
    requires objects { Each (IsPlaced core.now.dims) objects.now }
    ensures { result ≡ list_any (λ object. object.measure == measure && is_finer cell.now.levels object.levels && (covers_slice (bare core.now) cell.now object && protection.has_fewer (bare core.now) object.fewer cell.now)) objects.now }
{
    'objects: for object in objects {
        if object.measure == measure
            && finer_or_equal(&cell.levels, &object.levels)
            && covers_slice(core, object, cell)
            && has_fewer(core, object.fewer, cell)
        {
            return true;
        }
    }
    false
}

/// Whether each level is the finest.
fn is_finest(levels: &[u32]) -> bool
    ensures { result ≡ list_all (λ level. level == 0) levels.now }
{
    levels.iter().all(|level| *level == 0)
}

/// Whether a cell covers a guarded place.
fn covers_guarded(core: &Core, objects: &[Object], measure: u32, cell: &Cell) -> bool
    requires levels { are_levels (plains core.now.dims) cell.now.levels ≡ true }
    requires objects { Each (IsPlaced core.now.dims) objects.now }
    ensures { result ≡ list_any (λ place. cubes.covers (bare core.now) cell.now place && protection.is_guarded (bare core.now) (of_measure measure objects.now) place) (places (bare core.now)) }
{
    'places: for place in 0..core.len() {
        if covers(core, cell, place) && is_guarded(core, objects, measure, place) {
            return true;
        }
    }
    false
}

/// Whether a cell is at the finest levels and covers a guarded place.
fn is_guarded_core(core: &Core, objects: &[Object], measure: u32, cell: &Cell) -> bool
    requires levels { are_levels (plains core.now.dims) cell.now.levels ≡ true }
    requires objects { Each (IsPlaced core.now.dims) objects.now }
    ensures { result ≡ (list_all (λ level. level == 0) cell.now.levels && list_any (λ place. cubes.covers (bare core.now) cell.now place && protection.is_guarded (bare core.now) (of_measure measure objects.now) place) (places (bare core.now))) }
{
    is_finest(cell.levels.as_slice()) && covers_guarded(core, objects, measure, cell)
}

/// Whether a cell is a protected cell of a measure. Its key may be one of no place. Takes no memory.
pub fn protects(core: &Core, policy: &Policy, measure: u32, cell: &Cell) -> bool
    requires policy { IsPolicy core.now.dims policy.now }
    requires measure { measure < length core.now.dims.measures }
    requires cell { are_levels (plains core.now.dims) cell.now.levels ≡ true }
    ensures { result ≡ list_any (same_cell cell.now) (protected (shown core.now policy.now) measure) }
{
    let objects = policy.objects.as_slice();
    match policy.method(measure) {
        Method::Plain => false,
        Method::Lattice => stands_under(core, objects, measure, cell),
        Method::Parity => is_guarded_core(core, objects, measure, cell),
    }
}
