// The grain of a request.
ghost use Rattle.std.specs.Prelude.{◌≡◌, map, IfOk};
ghost use Rattle.std.specs.List.{zip};
ghost use Rattle.cube_model.specs.Requests as requests;

use cube_model::{Levels, NoMemory, Pick, Request};
use std::alloc::{AllocError, Global};

// The lesser of a grouping level and a pick's level.
fn lesser(level: u32, pick: Option<Pick>) -> u32
    ensures { result ≡ requests.lesser level pick }
{
    match pick {
        None => level,
        Some(pick) => level.min(pick.level),
    }
}

// The same of each level and the pick beside it.
fn lesser_levels(
    alloc: Global,
    levels: &[u32],
    picks: &[Option<Pick>],
) -> Result<Vec<u32>, AllocError>
    ensures { IfOk result (λ least. least.items ≡ map (λ p. requests.lesser p.0 p.1) (zip levels.now picks.now)) }
{
    levels
        .iter()
        .zip(picks)
        .map(|(level, pick)| lesser(*level, *pick))
        .collect(alloc)
}

/// The grain of a request: for each dimension the lesser of its grouping level and its pick's level.
pub fn grain(alloc: Global, request: &Request) -> Result<Levels, NoMemory>
    ensures { IfOk result (λ levels. levels ≡ requests.grain request.now) }
{
    let levels = lesser_levels(alloc, request.group.as_slice(), request.picks.as_slice())?;
    Ok(Levels::from_vec(levels))
}
