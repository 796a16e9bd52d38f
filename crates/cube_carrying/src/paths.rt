// Whether a cube has the paths of another, by the names of their leaves.
ghost use Rattle.std.specs.Prelude.{◌≡◌, ◌<◌, [], length, slice_index_or, true};
ghost use Rattle.std.specs.List.{list_any, list_all};
ghost use Rattle.cube_model.specs.Cubes.{count_from};
ghost use Rattle.cube_model.specs.Dims.{dimension_at};
ghost use Rattle.cube_carry.specs.Continues as continues;
ghost use Rattle.cube_carrying.specs.Firsts.{first_failing, first_with};

use crate::dimensions::same_dimension;
use crate::texts::same_texts;
use cube_model::{Dimension, Dims, Texts};

/// The name of the leaf of a path, or no bytes where it names none.
pub(crate) fn leaf_of(path: &Texts) -> &[u8]
    ensures { result.now ≡ slice_index_or path.now 0 [] }
{
    match path.get(0) {
        Some(name) => name.as_slice(),
        None => &[],
    }
}

/// Whether a dimension has a path. The leaf is found by its name, and no other path is looked at.
fn has_path(dimension: &Dimension, path: &Texts) -> bool
    ensures { result ≡ list_any (continues.same_texts path.now) dimension.now.paths }
{
    let paths = dimension.paths();
    match dimension.members(0).find(leaf_of(path)) {
        Some(leaf) => same_texts(path.as_slice(), paths[leaf].as_slice()),
        None => false,
    }
}

/// The number of the first path that a dimension has not.
fn first_missing(paths: &[Texts], dimension: &Dimension) -> Option<usize>
    ensures { result ≡ first_failing (λ path. list_any (continues.same_texts path) dimension.now.paths) paths.now }
{
    paths.iter().position(|path| !has_path(dimension, path))
}

/// The number of the first path of a dimension that the other cube has not.
fn missing_in(dims: &Dims, other: &Dims, number: u32) -> Option<usize>
    requires number { number < length dims.now.dimensions }
    requires all { list_all (continues.has_dimension other.now) dims.now.dimensions ≡ true }
    ensures { result ≡ first_failing (continues.has_path other.now (dimension_at dims.now number)) (dimension_at dims.now number).paths }
{
    let dimension = dims.dimension(number);
    first_missing(dimension.paths(), same_dimension(other, dimension))
}

/// The first path of a cube that another has not: the number of its dimension, and its own.
pub fn missing_path(dims: &Dims, other: &Dims) -> Option<(u32, usize)>
    requires { list_all (continues.has_dimension other.now) dims.now.dimensions ≡ true }
    ensures { result ≡ first_with (λ d. first_failing (continues.has_path other.now (dimension_at dims.now d)) (dimension_at dims.now d).paths) (count_from 0 (length dims.now.dimensions)) }
{
    let many = dims.dimensions().len() as u32;
    'each: for number in 0..many {
        if let Some(path) = missing_in(dims, other, number) {
            return Some((number, path));
        }
    }
    None
}
