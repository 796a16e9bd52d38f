// The numbers that the leaves of a cube have in another, by their names.
ghost use Rattle.std.specs.Prelude.{◌≡◌, ◌<◌, length, true, IfOk};
ghost use Rattle.std.specs.List.{list_all};
ghost use Rattle.cube_model.specs.Cubes.{place_of, distinct};
ghost use Rattle.cube_carry.specs.Continues as continues;
ghost use Rattle.cube_carry.specs.Names.{carried_member};
ghost use Rattle.cube_carrying.specs.Leaves as said;

use crate::dimensions::same_dimension;
use cube_model::{Dimension, Dims, Items, NoMemory, NumberedNames, Places};
use std::alloc::Global;

/// The number of a name among names, or how many there are where it does not stand.
pub(crate) fn number_of(names: &NumberedNames, name: &[u8]) -> usize
    ensures { result ≡ place_of name.now (distinct names.now) }
{
    match names.find(name) {
        Some(number) => number,
        None => names.count(),
    }
}

/// The number that a leaf has in another dimension, by its name, or how many leaves there are where none has it.
fn carried_leaf(dimension: &Dimension, other: &Dimension, leaf: usize) -> u32
    requires { leaf < length dimension.now.paths }
    ensures { result ≡ carried_member dimension.now other.now 0 leaf }
{
    let _rules = dimension.paths();
    let _others = other.paths();
    let names = other.members(0);
    let own = dimension.members(0);
    let leaf_name = own.name(leaf);
    number_of(names, leaf_name) as u32
}

/// The numbers that all leaves of a dimension have in another.
fn leaves_of(alloc: Global, dimension: &Dimension, other: &Dimension) -> Result<Places, NoMemory>
    ensures { IfOk result (λ leaves. leaves ≡ said.leaves_in dimension.now other.now) }
{
    let paths = dimension.paths();
    let mut numbers = Places::new(alloc);
    'leaves: for leaf in 0..paths.len() {
        numbers.push(carried_leaf(dimension, other, leaf))?;
    }
    Ok(numbers)
}

/// For each dimension of the new cube, the numbers there of the leaves that the old cube has in it. It is made
/// once, so that no name is looked at where a point is carried over.
pub fn carried_leaves(alloc: Global, old: &Dims, new: &Dims) -> Result<Items<Places>, NoMemory>
    requires { list_all (continues.has_dimension old.now) new.now.dimensions ≡ true }
    ensures { IfOk result (λ leaves. leaves ≡ said.carried_leaves old.now new.now) }
{
    let all = new.dimensions();
    let mut table = Items::new(alloc);
    'each: for number in 0..all.len() {
        let dimension = new.dimension(number as u32);
        table.push(leaves_of(alloc, same_dimension(old, dimension), dimension)?)?;
    }
    Ok(table)
}
