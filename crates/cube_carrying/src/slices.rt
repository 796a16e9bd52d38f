// Whether places are in the slices of objects, and have few enough facts for them.
ghost use Rattle.std.specs.Prelude.{◌≡◌, ◌<◌, ◌==◌, ◌&&◌, true, length};
ghost use Rattle.std.specs.List.{list_any, All};
ghost use Rattle.cube_core.specs.Rows.{ArePlaces};
ghost use Rattle.cube_model.specs.Cubes as cubes;
ghost use Rattle.cube_model.specs.Cubes.{Each};
ghost use Rattle.cube_model.specs.Policies.{IsPolicy, IsWithin, are_rising};
ghost use Rattle.cube_model.specs.Protection as protection;
ghost use Rattle.cube_model.specs.Protection.{listed, core_cell};
ghost use Rattle.cube_source.specs.Blocks.{bare};
ghost use Rattle.cube_source.specs.Few as few;
ghost use Rattle.cube_source.specs.Objects.{IsPlaced, of_measure};
ghost use Rattle.cube_carrying.specs.Shields as said;

use cube_core::Core;
use cube_lattice::finer_or_equal;
use cube_model::{Levels, Object, Policy, Row, Within};

/// Whether a member is among members in increasing order. Takes the logarithm of their number.
fn is_listed(members: &[u32], member: u32) -> bool
    requires { are_rising members.now ≡ true }
    ensures { result ≡ listed member members.now }
{
    members.binary_search(&member).is_ok()
}

/// Whether the ancestor of a place is listed.
fn is_within(core: &Core, within: &Within, place: u32) -> bool
    requires place { place < length core.now.shape.points }
    requires rules { IsWithin core.now.dims within.now }
    ensures { result ≡ protection.is_within (bare core.now) place within.now }
{
    let member = core.key_at(place, within.dimension, within.level);
    is_listed(within.members.as_slice(), member)
}

/// Whether a place is in the slice of an object.
pub(crate) fn in_slice(core: &Core, object: &Object, place: u32) -> bool
    requires place { place < length core.now.shape.points }
    requires slice { Each (IsWithin core.now.dims) object.now.slice }
    ensures { result ≡ protection.in_slice (bare core.now) object.now place }
{
    'slice: for within in object.slice.as_slice() {
        if !is_within(core, within, place) {
            return false;
        }
    }
    true
}

/// Whether one of the places is in the slice of an object.
pub(crate) fn touches(core: &Core, object: &Object, places: &[u32]) -> bool
    requires places { All (λ place. place < length core.now.shape.points) places.now }
    requires slice { Each (IsWithin core.now.dims) object.now.slice }
    ensures { result ≡ list_any (protection.in_slice (bare core.now) object.now) places.now }
{
    places.iter().any(|place| in_slice(core, object, *place))
}

/// Whether the places of a row have fewer facts than a number, if one is given.
fn are_few(core: &Core, fewer: Option<u32>, row: &Row) -> bool
    requires { ArePlaces (length core.now.shape.points) row.now.places }
    ensures { result ≡ few.are_few (bare core.now) fewer row.now.places }
{
    match fewer {
        None => true,
        Some(number) => core.count_row(row) < number as u64,
    }
}

/// Whether one of the places of a row is in the slice of an object, and the row has few enough facts for it.
pub(crate) fn guards_row(core: &Core, object: &Object, row: &Row) -> bool
    requires places { ArePlaces (length core.now.shape.points) row.now.places }
    requires slice { Each (IsWithin core.now.dims) object.now.slice }
    ensures { result ≡ few.guards_row (bare core.now) object.now row.now.places }
{
    touches(core, object, row.places.as_slice()) && are_few(core, object.fewer, row)
}

/// Whether a place has fewer facts than a number, if one is given.
fn is_few(core: &Core, fewer: Option<u32>, place: u32) -> bool
    requires { place < length core.now.shape.points }
    ensures { result ≡ protection.has_fewer (bare core.now) fewer (core_cell (bare core.now) place) }
{
    let _rules = core.dims();
    match fewer {
        None => true,
        Some(number) => core.shape().facts.as_slice()[place as usize] < number as u64,
    }
}

/// Whether a place is in the slice of an object, and has few enough facts for it.
fn guards_place(core: &Core, object: &Object, place: u32) -> bool
    requires place { place < length core.now.shape.points }
    requires slice { Each (IsWithin core.now.dims) object.now.slice }
    ensures { result ≡ protection.guards (bare core.now) object.now (cubes.core (bare core.now)) place }
{
    in_slice(core, object, place) && is_few(core, object.fewer, place)
}

/// Whether an object is of the measure and names no number of facts, and a place is in its slice.
fn is_shielded(core: &Core, object: &Object, measure: u32, place: u32) -> bool
    requires place { place < length core.now.shape.points }
    requires slice { Each (IsWithin core.now.dims) object.now.slice }
    ensures { result ≡ said.is_shielded (bare core.now) measure object.now place }
{
    object.measure == measure && object.fewer.is_none() && in_slice(core, object, place)
}

/// Whether one of the objects is of the measure and names no number of facts, stands at or above a cuboid and has a place
/// in its slice.
fn any_over(core: &Core, objects: &[Object], measure: u32, levels: &Levels, place: u32) -> bool
    requires place { place < length core.now.shape.points }
    requires objects { Each (IsPlaced core.now.dims) objects.now }
    ensures { result ≡ said.is_shielded_over (bare core.now) objects.now measure levels.now place }
{
    'objects: for object in objects {
        if finer_or_equal(levels, &object.levels) && is_shielded(core, object, measure, place) {
            return true;
        }
    }
    false
}

/// Whether an object of the measure that names no number of facts stands at or above a cuboid and has a place in its slice.
pub(crate) fn is_shielded_over(
    core: &Core,
    policy: &Policy,
    measure: u32,
    levels: &Levels,
    place: u32,
) -> bool
    requires place { place < length core.now.shape.points }
    requires policy { IsPolicy core.now.dims policy.now }
    ensures { result ≡ said.is_shielded_over (bare core.now) policy.now.objects measure levels.now place }
{
    any_over(core, policy.objects.as_slice(), measure, levels, place)
}

/// Whether one of the objects is of the measure.
fn has_object(objects: &[Object], measure: u32) -> bool
    ensures { result ≡ list_any (λ object. object.measure == measure) objects.now }
{
    objects.iter().any(|object| object.measure == measure)
}

/// Whether an object of the measure guards a place.
fn is_guarded_place(core: &Core, objects: &[Object], measure: u32, place: u32) -> bool
    requires place { place < length core.now.shape.points }
    requires objects { Each (IsPlaced core.now.dims) objects.now }
    ensures { result ≡ list_any (λ object. object.measure == measure && protection.guards (bare core.now) object (cubes.core (bare core.now)) place) objects.now }
{
    'objects: for object in objects {
        if object.measure == measure && guards_place(core, object, place) {
            return true;
        }
    }
    false
}

/// Whether one of the objects that is of the measure guards a place, or none is.
fn is_guarded_by(core: &Core, objects: &[Object], measure: u32, place: u32) -> bool
    requires place { place < length core.now.shape.points }
    requires objects { Each (IsPlaced core.now.dims) objects.now }
    ensures { result ≡ protection.is_guarded (bare core.now) (of_measure measure objects.now) place }
{
    !has_object(objects, measure) || is_guarded_place(core, objects, measure, place)
}

/// Whether an object of the measure guards a place, or the measure has no object.
pub(crate) fn is_guarded(core: &Core, policy: &Policy, measure: u32, place: u32) -> bool
    requires place { place < length core.now.shape.points }
    requires policy { IsPolicy core.now.dims policy.now }
    ensures { result ≡ protection.is_guarded (bare core.now) (of_measure measure policy.now.objects) place }
{
    is_guarded_by(core, policy.objects.as_slice(), measure, place)
}
