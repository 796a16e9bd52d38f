// Which places that an old cube protects no object of a new one protects.
ghost use Rattle.std.specs.Prelude.{◌≡◌, ◌<◌, length, IfOk};
ghost use Rattle.std.specs.List.{list_any};
ghost use Rattle.cube_model.specs.Cubes.{Each, places as places_of};
ghost use Rattle.cube_model.specs.Policies.{IsPolicy, IsWithin};
ghost use Rattle.cube_source.specs.Blocks.{bare};
ghost use Rattle.cube_carrying.specs.Crossings.{Crosses};
ghost use Rattle.cube_carrying.specs.Exposed as said;

use crate::carried_cells::carried_levels;
use crate::crossings::Crossing;
use crate::slices::{in_slice, is_guarded, is_shielded_over};
use cube_model::{Levels, NoMemory, Object};
use std::alloc::Global;

/// Whether a place is in the slice of an old object, and no new object of the measure at or above the levels that names no
/// number of facts has its new place in its slice.
fn is_exposed_at(crossing: &Crossing, object: &Object, levels: &Levels, place: u32) -> bool
    requires place { place < length crossing.now.old.now.shape.points }
    requires slice { Each (IsWithin crossing.now.old.now.dims) object.now.slice }
    requires carries { Crosses crossing.now }
    ensures { result ≡ said.is_exposed_at crossing.now.old.now object.now crossing.now.new.now crossing.now.new_policy.now.objects crossing.now.measure levels.now crossing.now.places.now place }
{
    in_slice(crossing.old, object, place)
        && !is_shielded_over(
            crossing.new,
            crossing.new_policy,
            crossing.measure,
            levels,
            crossing.places[place as usize],
        )
}

/// The same of some place.
pub(crate) fn is_exposed_somewhere(crossing: &Crossing, object: &Object, levels: &Levels) -> bool
    requires slice { Each (IsWithin crossing.now.old.now.dims) object.now.slice }
    requires carries { Crosses crossing.now }
    ensures { result ≡ list_any (said.is_exposed_at crossing.now.old.now object.now crossing.now.new.now crossing.now.new_policy.now.objects crossing.now.measure levels.now crossing.now.places.now) (places_of (bare crossing.now.old.now)) }
{
    'places: for place in 0..crossing.old.len() {
        if is_exposed_at(crossing, object, levels, place) {
            return true;
        }
    }
    false
}

/// The same for the levels of the old object.
pub(crate) fn is_exposed(
    alloc: Global,
    crossing: &Crossing,
    object: &Object,
) -> Result<bool, NoMemory>
    requires slice { Each (IsWithin crossing.now.old.now.dims) object.now.slice }
    requires carries { Crosses crossing.now }
    ensures { IfOk result (λ exposed. exposed ≡ said.is_exposed crossing.now.old.now crossing.now.new.now crossing.now.new_policy.now.objects crossing.now.measure crossing.now.places.now object.now) }
{
    let levels = carried_levels(
        alloc,
        crossing.old.dims(),
        crossing.new.dims(),
        object.levels.as_slice(),
    )?;
    Ok(is_exposed_somewhere(crossing, object, &levels))
}

/// Whether a place is guarded in the old cube and its new place is not in the new one.
pub(crate) fn is_unguarded_at(crossing: &Crossing, old_measure: u32, place: u32) -> bool
    requires place { place < length crossing.now.old.now.shape.points }
    requires old_policy { IsPolicy crossing.now.old.now.dims crossing.now.old_policy.now }
    requires carries { Crosses crossing.now }
    ensures { result ≡ said.is_unguarded_at crossing.now.old.now crossing.now.old_policy.now.objects old_measure crossing.now.new.now crossing.now.new_policy.now.objects crossing.now.measure crossing.now.places.now place }
{
    is_guarded(crossing.old, crossing.old_policy, old_measure, place)
        && !is_guarded(
            crossing.new,
            crossing.new_policy,
            crossing.measure,
            crossing.places[place as usize],
        )
}
