// Whether each cell that an object protects is parted, found at one cuboid.
ghost use Rattle.std.specs.Prelude.{◌≡◌, true, false, not, ◌&&◌, find, length, slice_index_or, None, IfOk};
ghost use Rattle.std.specs.List.{list_any};
ghost use Rattle.cube_model.specs.Cubes.{Each, are_levels, is_finer, places};
ghost use Rattle.cube_model.specs.Dims.{plains};
ghost use Rattle.cube_model.specs.Policies.{IsWithin};
ghost use Rattle.cube_model.specs.Protection.{in_slice, under};
ghost use Rattle.cube_source.specs.Blocks.{bare, is_mixed, is_parted, AreBlocks, AreFlags};
ghost use Rattle.cube_source.specs.Objects.{IsPlaced};

use crate::blocks::mixed_places;
use crate::judging::any_unmixed;
use crate::places::finest;
use cube_core::Core;
use cube_lattice::finer_or_equal;
use cube_model::{Levels, NoMemory, Object, Row};
use std::alloc::Global;

/// The places that stand in a block whose places do not all have one key at a cuboid.
#[derive(Drop)]
pub(crate) struct Mixed {
    levels: Levels,
    flags: Vec<bool>,
}

/// The levels of the first object, or the finest where there is none.
fn first_levels(alloc: Global, core: &Core, objects: &[Object]) -> Result<Levels, NoMemory>
    requires objects { Each (IsPlaced core.now.dims) objects.now }
    ensures { IfOk result (λ levels. are_levels (plains core.now.dims) levels ≡ true) }
{
    match objects.first() {
        Some(object) => Ok(object.levels.copied(alloc)?),
        None => finest(alloc, core),
    }
}

/// The places that are mixed at the cuboid of the first object. Many objects of a policy often stand at one.
pub(crate) fn first_mixed(
    alloc: Global,
    core: &Core,
    blocks: &[Row],
    objects: &[Object],
) -> Result<Mixed, NoMemory>
    requires blocks { AreBlocks (length core.now.shape.points) blocks.now }
    requires objects { Each (IsPlaced core.now.dims) objects.now }
    ensures { IfOk result (λ mixed. AreFlags (length core.now.shape.points) (is_mixed (bare core.now) mixed.levels blocks.now) mixed.flags.items) }
{
    let levels = first_levels(alloc, core, objects)?;
    let flags = mixed_places(alloc, core, blocks, &levels)?;
    Ok(Mixed { levels, flags })
}

/// Whether an object stands at or below the cuboid of some mixed places, and each place in its slice is one of these.
fn is_mixed_above(core: &Core, mixed: &Mixed, object: &Object) -> bool
    requires mixed { length mixed.now.flags.items ≡ length core.now.shape.points }
    requires slice { Each (IsWithin core.now.dims) object.now.slice }
    ensures { result ≡ (is_finer object.now.levels mixed.now.levels && not (list_any (λ place. not (slice_index_or mixed.now.flags.items place false) && in_slice (bare core.now) object.now place) (places (bare core.now)))) }
{
    finer_or_equal(&object.levels, &mixed.levels)
        && !any_unmixed(core, object, mixed.flags.as_slice())
}

/// Whether each cell that an object protects is parted, as far as the mixed places tell or else the object's own cuboid.
///
/// A block whose places do not all have one key at a cuboid has places apart at each finer one too. So the places are looked at
/// once, for all cuboids at or below the object.
pub(crate) fn is_all_parted(
    alloc: Global,
    core: &Core,
    blocks: &[Row],
    mixed: &Mixed,
    object: &Object,
) -> Result<bool, NoMemory>
    requires blocks { AreBlocks (length core.now.shape.points) blocks.now }
    requires mixed { AreFlags (length core.now.shape.points) (is_mixed (bare core.now) mixed.now.levels blocks.now) mixed.now.flags.items }
    requires levels { are_levels (plains core.now.dims) object.now.levels ≡ true }
    requires slice { Each (IsWithin core.now.dims) object.now.slice }
    ensures { IfOk result (λ all. all ≡ true → find (λ cell. not (is_parted (bare core.now) blocks.now cell)) (under (bare core.now) object.now) ≡ None) }
{
    let _rules = core.dims();
    if is_mixed_above(core, mixed, object) {
        return Ok(true);
    }
    let own = mixed_places(alloc, core, blocks, &object.levels)?;
    Ok(!any_unmixed(core, object, own.as_slice()))
}
