// What a cell of an old cube is in a new one, by the names of its members.
ghost use Rattle.std.specs.Prelude.{◌≡◌, [], true, slice_index_or, IfOk};
ghost use Rattle.std.specs.List.{list_all};
ghost use Rattle.cube_model.specs.Cubes.{place_of};
ghost use Rattle.cube_model.specs.Dims.{members};
ghost use Rattle.cube_carry.specs.Continues as continues;
ghost use Rattle.cube_carry.specs.Names as names;

use crate::dimensions::{dimension_in, same_dimension};
use crate::leaves::number_of;
use cube_model::{Cell, Dimension, Dims, Key, Levels, NoMemory};
use std::alloc::Global;

/// The number at a place of a list, or 0 where the list ends before it.
fn number_at(numbers: &[u32], place: usize) -> u32
    ensures { result ≡ slice_index_or numbers.now place 0 }
{
    match numbers.get(place) {
        Some(number) => *number,
        None => 0,
    }
}

/// The name of a member of a level, or no bytes where there is no such member. The member of `all` has no bytes too.
fn member_name(dimension: &Dimension, level: u32, member: u32) -> &[u8]
    ensures { result.now ≡ slice_index_or (members dimension.now level) member [] }
{
    let level = level as usize;
    if level >= dimension.levels().len() {
        return &[];
    }
    let names = dimension.members(level);
    if member as usize >= names.count() {
        return &[];
    }
    names.name(member as usize)
}

/// The number of the member of a level with a name, or how many members there are where none has it.
fn member_named(dimension: &Dimension, level: u32, name: &[u8]) -> usize
    ensures { result ≡ place_of name.now (members dimension.now level) }
{
    let level = level as usize;
    if level < dimension.levels().len() {
        return number_of(dimension.members(level), name);
    }
    if name.is_empty() { 0 } else { 1 }
}

/// The number that a member of a level has in another dimension, by its name, or how many members there are where none has it.
fn carried_member(dimension: &Dimension, other: &Dimension, level: u32, member: u32) -> u32
    ensures { result ≡ names.carried_member dimension.now other.now level member }
{
    let _rules = other.paths();
    member_named(other, level, member_name(dimension, level, member)) as u32
}

/// What a list with a number for each old dimension has for the one that is named as a dimension.
fn number_for(old: &Dims, dimension: &Dimension, numbers: &[u32]) -> u32
    ensures { result ≡ slice_index_or numbers.now (names.dimension_in old.now dimension.now) 0 }
{
    number_at(numbers, dimension_in(old, dimension))
}

/// Levels of the old dimensions, in the order of the new ones.
pub(crate) fn carried_levels(
    alloc: Global,
    old: &Dims,
    new: &Dims,
    levels: &[u32],
) -> Result<Levels, NoMemory>
    ensures { IfOk result (λ carried. carried ≡ names.carried_levels old.now new.now levels.now) }
{
    let mut carried = Levels::new(alloc);
    'dimensions: for dimension in new.dimensions() {
        carried.push(number_for(old, dimension, levels))?;
    }
    Ok(carried)
}

/// The member that the key of a carried cell has in a dimension of the new cube.
fn carried_key_member(old: &Dims, dimension: &Dimension, cell: &Cell) -> u32
    requires { continues.has_dimension old.now dimension.now ≡ true }
    ensures { result ≡ names.carried_member (names.same_dimension old.now dimension.now) dimension.now (slice_index_or cell.now.levels (names.dimension_in old.now dimension.now) 0) (slice_index_or cell.now.key (names.dimension_in old.now dimension.now) 0) }
{
    let level = number_for(old, dimension, cell.levels.as_slice());
    let member = number_for(old, dimension, cell.key.as_slice());
    carried_member(same_dimension(old, dimension), dimension, level, member)
}

/// The key of a carried cell.
fn carried_key(alloc: Global, old: &Dims, new: &Dims, cell: &Cell) -> Result<Key, NoMemory>
    requires { list_all (continues.has_dimension old.now) new.now.dimensions ≡ true }
    ensures { IfOk result (λ key. key ≡ (names.carried_cell old.now new.now cell.now).key) }
{
    let mut key = Key::new(alloc);
    'dimensions: for dimension in new.dimensions() {
        key.push(carried_key_member(old, dimension, cell))?;
    }
    Ok(key)
}

/// The cell with the same names. No list of names is walked but that of the dimensions.
pub(crate) fn carried_cell(
    alloc: Global,
    old: &Dims,
    new: &Dims,
    cell: &Cell,
) -> Result<Cell, NoMemory>
    requires { list_all (continues.has_dimension old.now) new.now.dimensions ≡ true }
    ensures { IfOk result (λ carried. carried ≡ names.carried_cell old.now new.now cell.now) }
{
    let levels = carried_levels(alloc, old, new, cell.levels.as_slice())?;
    let key = carried_key(alloc, old, new, cell)?;
    Ok(Cell { levels, key })
}
