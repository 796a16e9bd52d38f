// Whether a place is in a slice or in a cell, and whether a cuboid has two places together.
ghost use Rattle.std.specs.Prelude.{◌≡◌, ◌+◌, ◌<◌, ◌∷◌, true, length, IfOk};
ghost use Rattle.std.specs.List.{list_any, All};
ghost use Rattle.cube_model.specs.Cubes as cubes;
ghost use Rattle.cube_model.specs.Cubes.{Each, same, key_at, are_levels};
ghost use Rattle.cube_model.specs.Dims.{plains};
ghost use Rattle.cube_model.specs.Policies.{IsWithin, are_rising};
ghost use Rattle.cube_model.specs.Protection as protection;
ghost use Rattle.cube_model.specs.Protection.{listed};
ghost use Rattle.cube_source.specs.Blocks.{bare};
ghost use Rattle.cube_source.specs.Keys.{key_from};

use cube_core::Core;
use cube_model::{Cell, Key, Levels, NoMemory, Object, Within};
use std::alloc::Global;

/// Whether a member is among members in increasing order. Takes the logarithm of their number.
pub(crate) fn is_listed(members: &[u32], member: u32) -> bool
    requires { are_rising members.now ≡ true }
    ensures { result ≡ listed member members.now }
{
    members.binary_search(&member).is_ok()
}

/// Whether the ancestor of a place is listed.
fn is_within(core: &Core, within: &Within, place: u32) -> bool
    requires place { place < length core.now.shape.points }
    requires rules { IsWithin core.now.dims within.now }
    ensures { result ≡ protection.is_within (bare core.now) place within.now }
{
    let member = core.key_at(place, within.dimension, within.level);
    is_listed(within.members.as_slice(), member)
}

/// Whether a place is in the slice of an object.
pub(crate) fn in_slice(core: &Core, object: &Object, place: u32) -> bool
    requires place { place < length core.now.shape.points }
    requires slice { Each (IsWithin core.now.dims) object.now.slice }
    ensures { result ≡ protection.in_slice (bare core.now) object.now place }
{
    'slice: for within in object.slice.as_slice() {
        if !is_within(core, within, place) {
            return false;
        }
    }
    true
}

/// Whether one of the places is in the slice of an object.
pub(crate) fn touches(core: &Core, object: &Object, places: &[u32]) -> bool
    requires places { All (λ place. place < length core.now.shape.points) places.now }
    requires slice { Each (IsWithin core.now.dims) object.now.slice }
    ensures { result ≡ list_any (protection.in_slice (bare core.now) object.now) places.now }
{
    places.iter().any(|place| in_slice(core, object, *place))
}

/// The member of the key of a place in one dimension.
fn member_at(core: &Core, levels: &[u32], place: u32, number: usize) -> u32
    requires place { place < length core.now.shape.points }
    requires levels { are_levels (plains core.now.dims) levels.now ≡ true }
    requires number { number < length levels.now }
    ensures { key_from core.now levels.now place number ≡ result ∷ key_from core.now levels.now place (number + 1) }
{
    let _rules = core.dims();
    core.key_at(place, number as u32, levels[number])
}

/// Whether a place has a key at some levels.
fn has_key(core: &Core, levels: &[u32], key: &[u32], place: u32) -> bool
    requires place { place < length core.now.shape.points }
    requires levels { are_levels (plains core.now.dims) levels.now ≡ true }
    requires even { length key.now ≡ length levels.now }
    ensures { result ≡ same (key_at (bare core.now) levels.now place) key.now }
{
    'dimensions: for number in 0..levels.len() {
        if member_at(core, levels, place, number) != key[number] {
            return false;
        }
    }
    true
}

/// Whether a cell covers a place.
pub fn covers(core: &Core, cell: &Cell, place: u32) -> bool
    requires place { place < length core.now.shape.points }
    requires levels { are_levels (plains core.now.dims) cell.now.levels ≡ true }
    ensures { result ≡ cubes.covers (bare core.now) cell.now place }
{
    let _rules = core.dims();
    cell.key.len() == cell.levels.len()
        && has_key(core, cell.levels.as_slice(), cell.key.as_slice(), place)
}

/// Whether a cuboid has two places together.
pub(crate) fn together(core: &Core, levels: &[u32], place: u32, other: u32) -> bool
    requires place { place < length core.now.shape.points }
    requires other { other < length core.now.shape.points }
    requires levels { are_levels (plains core.now.dims) levels.now ≡ true }
    ensures { result ≡ cubes.together (bare core.now) levels.now place other }
{
    'dimensions: for number in 0..levels.len() {
        if member_at(core, levels, place, number) != member_at(core, levels, other, number) {
            return false;
        }
    }
    true
}

/// The key of a place at some levels.
pub(crate) fn key_of(
    alloc: Global,
    core: &Core,
    levels: &[u32],
    place: u32,
) -> Result<Key, NoMemory>
    requires place { place < length core.now.shape.points }
    requires levels { are_levels (plains core.now.dims) levels.now ≡ true }
    ensures { IfOk result (λ key. key ≡ key_at (bare core.now) levels.now place) }
{
    let mut key = Key::new(alloc);
    'dimensions: for number in 0..levels.len() {
        key.push(member_at(core, levels, place, number))?;
    }
    Ok(key)
}

/// The finest levels.
pub(crate) fn finest(alloc: Global, core: &Core) -> Result<Levels, NoMemory>
    ensures { IfOk result (λ levels. levels ≡ cubes.core (bare core.now)) }
{
    let mut levels = Levels::new(alloc);
    'dimensions: for _dimension in core.dims().dimensions() {
        levels.push(0)?;
    }
    Ok(levels)
}
