// The first pair of places by which a cuboid cuts a cell.
ghost use Rattle.std.specs.Prelude.{◌≡◌, ◌<◌, true, not, find, length, IfOk, ℕ};
ghost use Rattle.std.specs.List.{All};
ghost use Rattle.cube_model.specs.declared.policy.Policy.{Policy};
ghost use Rattle.cube_model.specs.Cores.{shown};
ghost use Rattle.cube_model.specs.Cubes as cubes;
ghost use Rattle.cube_model.specs.Cubes.{are_levels};
ghost use Rattle.cube_model.specs.Dims.{plains};
ghost use Rattle.cube_model.specs.Protection.{first, cutting_pairs};
ghost use Rattle.cube_source.specs.Blocks.{bare, AreBlocks};
ghost use Rattle.cube_source.specs.Pairs as pairs;

use crate::blocks::rows_at;
use crate::places::covers;
use cube_core::Core;
use cube_model::{Cell, Levels, NoMemory, Row};
use std::alloc::Global;

/// The first of the places that a cell covers.
fn first_covered(core: &Core, cell: &Cell, places: &[u32]) -> Option<u32>
    requires places { All (λ place. place < length core.now.shape.points) places.now }
    requires levels { are_levels (plains core.now.dims) cell.now.levels ≡ true }
    ensures { result ≡ find (cubes.covers (bare core.now) cell.now) places.now }
{
    places
        .iter()
        .copied()
        .find(|place| covers(core, cell, *place))
}

/// The first of the places that a cell does not cover.
fn first_uncovered(core: &Core, cell: &Cell, places: &[u32]) -> Option<u32>
    requires places { All (λ place. place < length core.now.shape.points) places.now }
    requires levels { are_levels (plains core.now.dims) cell.now.levels ≡ true }
    ensures { result ≡ find (λ place. not (cubes.covers (bare core.now) cell.now place)) places.now }
{
    places
        .iter()
        .copied()
        .find(|place| !covers(core, cell, *place))
}

/// The first covered one of the places of a block and the first other one.
fn block_pair(core: &Core, cell: &Cell, places: &[u32]) -> Option<(u32, u32)>
    requires places { All (λ place. place < length core.now.shape.points) places.now }
    requires levels { are_levels (plains core.now.dims) cell.now.levels ≡ true }
    ensures { result ≡ pairs.block_pair (bare core.now) cell.now places.now }
{
    match first_covered(core, cell, places) {
        None => None,
        Some(place) => match first_uncovered(core, cell, places) {
            None => None,
            Some(other) => Some((place, other)),
        },
    }
}

/// Of two pairs the one with the lesser covered place.
fn lesser(least: Option<(u32, u32)>, pair: Option<(u32, u32)>) -> Option<(u32, u32)>
    ensures { result ≡ pairs.lesser least pair }
{
    match (least, pair) {
        (None, pair) => pair,
        (Some(least), None) => Some(least),
        (Some(least), Some(pair)) => {
            if pair.0 < least.0 {
                Some(pair)
            } else {
                Some(least)
            }
        }
    }
}

/// The least of the pairs of blocks.
fn least_pair(core: &Core, cell: &Cell, blocks: &[Row]) -> Option<(u32, u32)>
    requires blocks { AreBlocks (length core.now.shape.points) blocks.now }
    requires levels { are_levels (plains core.now.dims) cell.now.levels ≡ true }
    ensures { result ≡ pairs.least_pair (bare core.now) cell.now blocks.now }
{
    let mut least = None;
    'rows: for block in blocks {
        least = lesser(least, block_pair(core, cell, block.places.as_slice()));
    }
    least
}

/// The first pair of a place that a cell covers and one that it does not, which a cuboid has
/// together: with the least covered place, and then the least other one. There is none exactly where
/// the cuboid does not cut the cell.
pub fn cutting_pair(
    alloc: Global,
    core: &Core,
    levels: &Levels,
    cell: &Cell,
) -> Result<Option<(u32, u32)>, NoMemory>
    requires levels { are_levels (plains core.now.dims) levels.now ≡ true }
    requires cell { are_levels (plains core.now.dims) cell.now.levels ≡ true }
    ensures { IfOk result (λ found. (p : Policy) → found ≡ first (cutting_pairs (shown core.now p) levels.now cell.now)) }
{
    let blocks = rows_at(alloc, core, levels)?;
    Ok(least_pair(core, cell, blocks.as_slice()))
}
