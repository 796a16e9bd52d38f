// The rows of all places at a cuboid, and the places of rows that another cuboid tells apart.
ghost use Rattle.std.specs.Prelude.{◌≡◌, ◌<◌, ℕ, true, false, ◌||◌, length, replicate, slice_index_or, IfOk};
ghost use Rattle.std.specs.List.{list_any, All};
ghost use Rattle.cube_model.specs.Cubes.{are_levels};
ghost use Rattle.cube_model.specs.Dims.{plains};
ghost use Rattle.cube_model.specs.Protection.{listed};
ghost use Rattle.cube_model.specs.Requests as requests;
ghost use Rattle.cube_source.specs.Blocks as said;
ghost use Rattle.cube_source.specs.Blocks.{bare, AreBlocks, AreFlags};

use crate::places::together;
use cube_core::Core;
use cube_model::{Levels, NoMemory, Request, Row, Rows, What};
use std::alloc::Global;

/// The rows of all places at a cuboid, in the order of their keys.
pub(crate) fn rows_at(alloc: Global, core: &Core, levels: &Levels) -> Result<Rows, NoMemory>
    requires { are_levels (plains core.now.dims) levels.now ≡ true }
    ensures rows { IfOk result (λ rows. rows ≡ requests.rows (bare core.now) (said.whole levels.now)) }
    ensures places { IfOk result (λ rows. AreBlocks (length core.now.shape.points) rows) }
{
    let request = Request::whole(alloc, What::Count, levels)?;
    core.rows(alloc, &request)
}

/// Whether places do not all have one key at a cuboid.
fn is_split(core: &Core, levels: &[u32], places: &[u32]) -> bool
    requires places { All (λ place. place < length core.now.shape.points) places.now }
    requires levels { are_levels (plains core.now.dims) levels.now ≡ true }
    ensures { result ≡ said.is_split (bare core.now) levels.now places.now }
{
    match places.first() {
        None => false,
        Some(first) => places
            .iter()
            .any(|place| !together(core, levels, *first, *place)),
    }
}

/// So many flags, none of them set.
pub(crate) fn no_flags(alloc: Global, many: usize) -> Result<Vec<bool>, NoMemory>
    ensures { IfOk result (λ flags. flags.items ≡ replicate many false) }
{
    Ok(vec![in alloc; false; many]?)
}

/// Sets the flags of places.
fn mark(flags: &mut [bool], places: &[u32])
    requires { All (λ place. place < length flags.old) places.now }
    ensures long { length flags.new ≡ length flags.old }
    ensures marked { (k : ℕ) → k < length flags.old → slice_index_or flags.new k false ≡ (slice_index_or flags.old k false || listed k places.now) }
{
    'places: for place in places {
        flags[*place as usize] = true;
    }
}

/// For each place, whether it stands in a block whose places do not all have one key at a cuboid.
pub(crate) fn mixed_places(
    alloc: Global,
    core: &Core,
    blocks: &[Row],
    levels: &Levels,
) -> Result<Vec<bool>, NoMemory>
    requires blocks { AreBlocks (length core.now.shape.points) blocks.now }
    requires levels { are_levels (plains core.now.dims) levels.now ≡ true }
    ensures { IfOk result (λ flags. AreFlags (length core.now.shape.points) (said.is_mixed (bare core.now) levels.now blocks.now) flags.items) }
{
    let mut flags = no_flags(alloc, core.len() as usize)?;
    'rows: for block in blocks {
        let places = block.places.as_slice();
        if is_split(core, levels.as_slice(), places) {
            mark(flags.as_mut_slice(), places);
        }
    }
    Ok(flags)
}

/// Whether one of the places is flagged.
pub(crate) fn meets(flags: &[bool], places: &[u32]) -> bool
    requires { All (λ place. place < length flags.now) places.now }
    ensures { result ≡ list_any (λ place. slice_index_or flags.now place false) places.now }
{
    places.iter().any(|place| flags[*place as usize])
}
