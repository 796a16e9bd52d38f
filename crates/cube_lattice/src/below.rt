// The cuboids below one, and all cuboids.
ghost use Rattle.std.specs.Prelude.{◌≡◌, ℕ, suc, List, [], ◌∷◌, ◌++◌, map, flat_map, length, IfOk, OnOk};
ghost use Rattle.cube_model.specs.Cubes as cubes;
ghost use Rattle.cube_model.specs.Cubes.{count_from};
ghost use Rattle.cube_model.specs.Dims.{plains};

use cube_model::{Cuboids, Dims, Levels, NoMemory};
use std::alloc::Global;

// A level, and those of further dimensions behind it.
fn with_first(alloc: Global, first: u32, others: &[u32]) -> Result<Levels, NoMemory>
    ensures { IfOk result (λ levels. levels ≡ first ∷ others.now) }
{
    let mut levels = Vec::new(alloc);
    levels.reserve_exact(others.len() + 1)?;
    levels.push(first)?;
    levels.extend_from_slice(others)?;
    Ok(Levels::from_vec(levels))
}

// Puts a level before each of some cuboids, and these behind the list.
fn push_all(
    alloc: Global,
    list: &mut Cuboids,
    first: u32,
    cuboids: &[Levels],
) -> Result<(), NoMemory>
    ensures { OnOk result (list.new ≡ list.old ++ map (λ others. first ∷ others) cuboids.now) }
{
    'cuboids: for others in cuboids {
        list.push(with_first(alloc, first, others.as_slice())?)?;
    }
    Ok(())
}

// Puts each level up to this one before each of some cuboids.
fn with_levels(alloc: Global, level: u32, cuboids: &[Levels]) -> Result<Cuboids, NoMemory>
    ensures { IfOk result (λ all. all ≡ flat_map (λ first. map (λ others. first ∷ others) cuboids.now) (count_from 0 (suc level))) }
{
    let mut all = Cuboids::new(alloc);
    'firsts: for first in 0..u64::from(level) + 1 {
        push_all(alloc, &mut all, first as u32, cuboids)?;
    }
    Ok(all)
}

/// The cuboids finer than or equal to one, in the order of their numbers: as many as the product of
/// its levels, each raised by 1.
pub fn cuboids_below(alloc: Global, levels: &Levels) -> Result<Cuboids, NoMemory>
    ensures { IfOk result (λ below. below ≡ cubes.cuboids_below levels.now) }
{
    let mut below = Cuboids::new(alloc);
    below.push(Levels::new(alloc))?;
    let levels = levels.as_slice();
    'levels: for place in (0..levels.len()).rev() {
        below = with_levels(alloc, levels[place], below.as_slice())?;
    }
    Ok(below)
}

// The coarsest cuboid: each dimension at `all`.
fn coarsest(alloc: Global, dims: &Dims) -> Result<Levels, NoMemory>
    ensures { IfOk result (λ levels. levels ≡ map (λ d. d.levels) (plains dims.now)) }
{
    let mut levels = Levels::new(alloc);
    'dimensions: for dimension in dims.dimensions() {
        levels.push(dimension.levels().len() as u32)?;
    }
    Ok(levels)
}

/// All cuboids, by number.
pub fn cuboids(alloc: Global, dims: &Dims) -> Result<Cuboids, NoMemory>
    ensures { IfOk result (λ all. all ≡ cubes.cuboids_below (map (λ d. d.levels) (plains dims.now))) }
{
    cuboids_below(alloc, &coarsest(alloc, dims)?)
}
