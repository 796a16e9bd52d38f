// Whether a cube has the dimensions of another, by their names, with the same levels.
ghost use Rattle.std.specs.Prelude.{◌≡◌, length, map, position, true};
ghost use Rattle.std.specs.List.{list_any};
ghost use Rattle.std.specs.Str.{bytes_eq};
ghost use Rattle.cube_model.specs.Cubes.{place_of};
ghost use Rattle.cube_carry.specs.Continues as continues;
ghost use Rattle.cube_carry.specs.Names as names;
ghost use Rattle.cube_carrying.specs.Firsts.{first_failing};

use crate::texts::same_texts;
use cube_model::{Dimension, Dims};

/// Whether one of the dimensions has a name.
fn any_named(dimensions: &[Dimension], name: &[u8]) -> bool
    ensures { result ≡ list_any (λ d. bytes_eq name.now d.name) dimensions.now }
{
    dimensions.iter().any(|d| d.name() == name)
}

/// Whether there is a dimension of the same name.
fn has_dimension(dims: &Dims, dimension: &Dimension) -> bool
    ensures { result ≡ continues.has_dimension dims.now dimension.now }
{
    any_named(dims.dimensions(), dimension.name())
}

/// The number of the first dimension of a cube whose name no dimension of another has.
pub fn missing_dimension(dims: &Dims, other: &Dims) -> Option<usize>
    ensures { result ≡ first_failing (continues.has_dimension other.now) dims.now.dimensions }
{
    dims.dimensions()
        .iter()
        .position(|d| !has_dimension(other, d))
}

/// The place of the dimension with a name.
fn place_named(dimensions: &[Dimension], name: &[u8]) -> Option<usize>
    ensures { result ≡ position (λ d. bytes_eq name.now d.name) dimensions.now }
{
    dimensions.iter().position(|d| d.name() == name)
}

/// The number of the dimension with a name, or how many there are where none has it.
fn number_named(dimensions: &[Dimension], name: &[u8]) -> usize
    ensures { result ≡ place_of name.now (map (λ d. d.name) dimensions.now) }
{
    match place_named(dimensions, name) {
        Some(number) => number,
        None => dimensions.len(),
    }
}

/// The number of the dimension of the same name, or how many there are where none has it.
pub(crate) fn dimension_in(dims: &Dims, dimension: &Dimension) -> usize
    ensures { result ≡ names.dimension_in dims.now dimension.now }
{
    number_named(dims.dimensions(), dimension.name())
}

/// The dimension of the same name.
pub(crate) fn same_dimension<'a>(dims: &'a Dims, dimension: &Dimension) -> &'a Dimension
    requires { continues.has_dimension dims.now dimension.now ≡ true }
    ensures { result.now ≡ names.same_dimension dims.now dimension.now }
{
    let _rules = dims.dimensions();
    let number = dimension_in(dims, dimension);
    dims.dimension(number as u32)
}

/// Whether the dimension of the same name has the same levels.
fn has_levels(dims: &Dims, dimension: &Dimension) -> bool
    ensures { result ≡ continues.has_levels dims.now dimension.now }
{
    let levels = dimension.levels();
    let dimensions = dims.dimensions();
    let number = dimension_in(dims, dimension);
    if number >= dimensions.len() {
        return false;
    }
    same_texts(levels, dimensions[number].levels())
}

/// The number of the first dimension of a cube that has other levels in another, or is not there.
pub fn other_levels(dims: &Dims, other: &Dims) -> Option<usize>
    ensures { result ≡ first_failing (continues.has_levels other.now) dims.now.dimensions }
{
    dims.dimensions().iter().position(|d| !has_levels(other, d))
}
