// The leaves of places, by name.
ghost use Rattle.std.specs.Prelude.{◌≡◌, ◌<◌, ◌++◌, length, flat_map, slice_index_or, IfOk, OnOk, []};
ghost use Rattle.cube_model.specs.Cubes.{Each, IsPoint};
ghost use Rattle.cube_model.specs.Dims.{plains};
ghost use Rattle.cube_text.specs.Keys.{closed};
ghost use Rattle.cube_witness.specs.Leaves as said;
ghost use Rattle.cube_witness.specs.Leaves.{leaf_names};

use cube_model::{Dims, Levels, NoMemory, Shape, Text};
use cube_text::push_key;
use std::alloc::Global;

/// The finest level of each dimension.
pub(crate) fn finest(alloc: Global, dims: &Dims) -> Result<Levels, NoMemory>
    ensures { IfOk result (λ levels. levels ≡ said.finest dims.now) }
{
    let mut levels = Levels::new(alloc);
    'dimensions: for _dimension in dims.dimensions() {
        levels.push(0)?;
    }
    Ok(levels)
}

/// The leaves of a place.
fn leaves(shape: &Shape, place: u32) -> &[u32]
    requires { place < length shape.now.points }
    ensures { result.now ≡ said.leaves shape.now place }
{
    shape.points.as_slice()[place as usize].as_slice()
}

/// Puts the names of the leaves of a place, each with a comma behind it. The levels are the finest.
pub(crate) fn push_leaves(
    text: &mut Text,
    dims: &Dims,
    levels: &Levels,
    shape: &Shape,
    place: u32,
) -> Result<(), NoMemory>
    requires levels { levels.now ≡ said.finest dims.now }
    requires points { Each (IsPoint (plains dims.now)) shape.now.points }
    requires place { place < length shape.now.points }
    ensures { OnOk result (text.new ≡ text.old ++ flat_map closed (leaf_names dims.now shape.now place)) }
{
    let _rules = dims.dimensions();
    push_key(text, dims, levels.as_slice(), leaves(shape, place))
}
