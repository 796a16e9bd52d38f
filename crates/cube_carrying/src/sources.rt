// What stands for an old source in the new cube.
ghost use Rattle.std.specs.Prelude.{◌≡◌, ◌<◌, true, length, map, slice_index_or, IfOk};
ghost use Rattle.std.specs.List.{All};
ghost use Rattle.cube_model.specs.Cores.{shown};
ghost use Rattle.cube_model.specs.Cubes.{are_levels};
ghost use Rattle.cube_model.specs.Cubes as cubes;
ghost use Rattle.cube_model.specs.Dims.{plains};
ghost use Rattle.cube_model.specs.Policies.{IsPolicy};
ghost use Rattle.cube_carry.specs.Names as names;
ghost use Rattle.cube_carrying.specs.Standing as said;

use crate::apart::stays_apart;
use crate::carried_cells::carried_levels;
use crate::crossings::Crossing;
use cube_core::Core;
use cube_lattice::cuboids_below;
use cube_model::{Levels, NoMemory, Policy};
use cube_source::{Judged, judge};
use std::alloc::Global;

/// Whether a cuboid cuts each protected cell of a measure.
fn is_safe(
    alloc: Global,
    core: &Core,
    policy: &Policy,
    measure: u32,
    levels: &Levels,
) -> Result<bool, NoMemory>
    requires policy { IsPolicy core.now.dims policy.now }
    requires measure { measure < length core.now.dims.measures }
    requires levels { are_levels (plains core.now.dims) levels.now ≡ true }
    ensures { IfOk result (λ safe. safe ≡ said.is_safe (shown core.now policy.now) measure levels.now) }
{
    match judge(alloc, core, policy, measure, levels)? {
        Judged::Safe => Ok(true),
        Judged::Uncut { .. } => Ok(false),
    }
}

/// Whether a cuboid cuts each protected cell of a measure, and no cell of it covers a flagged place and one that is not.
fn can_stand(
    alloc: Global,
    core: &Core,
    policy: &Policy,
    flags: &[bool],
    measure: u32,
    levels: &Levels,
) -> Result<bool, NoMemory>
    requires policy { IsPolicy core.now.dims policy.now }
    requires flags { length flags.now ≡ length core.now.shape.points }
    requires measure { measure < length core.now.dims.measures }
    requires levels { are_levels (plains core.now.dims) levels.now ≡ true }
    ensures { IfOk result (λ can. can ≡ said.can_stand (shown core.now policy.now) flags.now measure levels.now) }
{
    if !stays_apart(alloc, core, flags, levels)? {
        return Ok(false);
    }
    is_safe(alloc, core, policy, measure, levels)
}

/// The last of some cuboids that can stand. The later ones are looked at first.
fn last_standing(
    alloc: Global,
    core: &Core,
    policy: &Policy,
    flags: &[bool],
    measure: u32,
    cuboids: &[Levels],
) -> Result<Option<Levels>, NoMemory>
    requires policy { IsPolicy core.now.dims policy.now }
    requires flags { length flags.now ≡ length core.now.shape.points }
    requires measure { measure < length core.now.dims.measures }
    requires levels { All (λ levels. are_levels (plains core.now.dims) levels ≡ true) cuboids.now }
    ensures { IfOk result (λ found. found ≡ said.last_standing (shown core.now policy.now) flags.now measure cuboids.now) }
{
    'cuboids: for number in (0..cuboids.len()).rev() {
        let levels = &cuboids[number];
        if can_stand(alloc, core, policy, flags, measure, levels)? {
            return Ok(Some(levels.copied(alloc)?));
        }
    }
    Ok(None)
}

/// What stands for an old source: the last of the cuboids as fine as it that can.
pub(crate) fn stand_in(
    alloc: Global,
    crossing: &Crossing,
    flags: &[bool],
    source: &Levels,
) -> Result<Option<Levels>, NoMemory>
    requires policy { IsPolicy crossing.now.new.now.dims crossing.now.new_policy.now }
    requires measure { crossing.now.measure < length crossing.now.new.now.dims.measures }
    requires flags { length flags.now ≡ length crossing.now.new.now.shape.points }
    requires source { are_levels (plains crossing.now.new.now.dims) (names.carried_levels crossing.now.old.now.dims crossing.now.new.now.dims source.now) ≡ true }
    ensures { IfOk result (λ found. found ≡ said.last_standing (shown crossing.now.new.now crossing.now.new_policy.now) flags.now crossing.now.measure (cubes.cuboids_below (names.carried_levels crossing.now.old.now.dims crossing.now.new.now.dims source.now))) }
{
    let new = crossing.new;
    let levels = carried_levels(alloc, crossing.old.dims(), new.dims(), source.as_slice())?;
    let cuboids = cuboids_below(alloc, &levels)?;
    last_standing(
        alloc,
        new,
        crossing.new_policy,
        flags,
        crossing.measure,
        cuboids.as_slice(),
    )
}
