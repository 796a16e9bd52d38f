// The places that the points of an old cube have in a new one.
ghost use Rattle.std.specs.Prelude.{◌≡◌, ◌<◌, length, true, IfOk};
ghost use Rattle.std.specs.List.{list_all};
ghost use Rattle.cube_model.specs.Cubes.{IsPoint};
ghost use Rattle.cube_model.specs.Dims.{plains, dimension_at};
ghost use Rattle.cube_carry.specs.Continues as continues;
ghost use Rattle.cube_carry.specs.Names as names;
ghost use Rattle.cube_carrying.specs.Leaves as tables;
ghost use Rattle.cube_carrying.specs.Places as said;

use crate::dimensions::dimension_in;
use crate::keys::place_in;
use crate::leaves::carried_leaves;
use cube_core::Core;
use cube_model::{Dims, Items, Key, NoMemory, Places};
use std::alloc::Global;

/// For each dimension of the new cube the number of the old cube's dimension of that name.
fn numbers_in(alloc: Global, old: &Dims, new: &Dims) -> Result<Items<u32>, NoMemory>
    ensures { IfOk result (λ numbers. numbers ≡ said.numbers_in old.now new.now) }
{
    let _rules = old.dimensions();
    let all = new.dimensions();
    let mut numbers = Items::new(alloc);
    'each: for number in 0..all.len() {
        numbers.push(dimension_in(old, new.dimension(number as u32)) as u32)?;
    }
    Ok(numbers)
}

/// The leaf that a point has in a dimension of the new cube.
fn leaf_in(
    old: &Dims,
    new: &Dims,
    numbers: &[u32],
    leaves: &[Places],
    point: &[u32],
    number: usize,
) -> u32
    requires all { list_all (continues.has_dimension old.now) new.now.dimensions ≡ true }
    requires numbers { numbers.now ≡ said.numbers_in old.now new.now }
    requires leaves { leaves.now ≡ tables.carried_leaves old.now new.now }
    requires point { IsPoint (plains old.now) point.now }
    requires number { number < length new.now.dimensions }
    ensures { result ≡ said.leaf_in old.now point.now (dimension_at new.now number) }
{
    let (_old, _new) = (old, new);
    let leaf = point[numbers[number] as usize];
    leaves[number].as_slice()[leaf as usize]
}

/// The point of the new cube with the leaves of a point of the old one.
fn carried_point(
    alloc: Global,
    old: &Dims,
    new: &Dims,
    numbers: &[u32],
    leaves: &[Places],
    point: &[u32],
) -> Result<Key, NoMemory>
    requires all { list_all (continues.has_dimension old.now) new.now.dimensions ≡ true }
    requires numbers { numbers.now ≡ said.numbers_in old.now new.now }
    requires leaves { leaves.now ≡ tables.carried_leaves old.now new.now }
    requires point { IsPoint (plains old.now) point.now }
    ensures { IfOk result (λ key. key ≡ names.carried_point old.now new.now point.now) }
{
    let all = new.dimensions();
    let mut key = Key::new(alloc);
    'each: for number in 0..all.len() {
        key.push(leaf_in(old, new, numbers, leaves, point, number))?;
    }
    Ok(key)
}

/// The place in the new cube of the point with the leaves of an old place, or how many points that has where none has them.
fn carried_place(
    alloc: Global,
    old: &Core,
    new: &Core,
    numbers: &[u32],
    leaves: &[Places],
    place: usize,
) -> Result<u32, NoMemory>
    requires all { list_all (continues.has_dimension old.now.dims) new.now.dims.dimensions ≡ true }
    requires numbers { numbers.now ≡ said.numbers_in old.now.dims new.now.dims }
    requires leaves { leaves.now ≡ tables.carried_leaves old.now.dims new.now.dims }
    requires place { place < length old.now.shape.points }
    ensures { IfOk result (λ there. there ≡ said.place_in old.now new.now place) }
{
    let point = old.shape().points.as_slice()[place].as_slice();
    let key = carried_point(alloc, old.dims(), new.dims(), numbers, leaves, point)?;
    Ok(place_in(new.shape().points.as_slice(), key.as_slice()) as u32)
}

/// For each place of the old cube that of the point with the same leaves in the new one, or how many points that has
/// where none has them. Takes a binary search for each.
pub fn carried_places(alloc: Global, old: &Core, new: &Core) -> Result<Places, NoMemory>
    requires { list_all (continues.has_dimension old.now.dims) new.now.dims.dimensions ≡ true }
    ensures { IfOk result (λ places. places ≡ said.carried_places old.now new.now) }
{
    let numbers = numbers_in(alloc, old.dims(), new.dims())?;
    let leaves = carried_leaves(alloc, old.dims(), new.dims())?;
    let mut places = Places::new(alloc);
    'places: for place in 0..old.len() {
        places.push(carried_place(
            alloc,
            old,
            new,
            numbers.as_slice(),
            leaves.as_slice(),
            place as usize,
        )?)?;
    }
    Ok(places)
}
