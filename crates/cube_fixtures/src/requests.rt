// Requests, cells and keys over two dimensions.
ghost use Rattle.std.specs.Prelude.{◌≡◌, ◌∷◌, [], true, IfOk};
ghost use Rattle.cube_fixtures.specs.Worked.{two};
ghost use Rattle.cube_model.specs.Requests.{asks};

use cube_model::{Cell, Levels, NoMemory, Pick, Picks, Request, What};
use std::alloc::Global;

/// A level or a member for each of two dimensions.
pub fn two(alloc: Global, first: u32, second: u32) -> Result<Levels, NoMemory>
    ensures { IfOk result (λ made. made ≡ two first second) }
{
    let mut list = Levels::new(alloc);
    list.push(first)?;
    list.push(second)?;
    Ok(list)
}

/// A cell of a leaf in each of two dimensions.
pub fn finest_cell(alloc: Global, first: u32, second: u32) -> Result<Cell, NoMemory>
    ensures { IfOk result (λ made. made ≡ record { levels = two 0 0; key = two first second }) }
{
    let levels = two(alloc, 0, 0)?;
    let key = two(alloc, first, second)?;
    Ok(Cell { levels, key })
}

/// A request for the first measure, with a level to group by and perhaps a pick in each of two dimensions.
pub fn request(
    alloc: Global,
    group: (u32, u32),
    picks: (Option<Pick>, Option<Pick>),
) -> Result<Request, NoMemory>
    ensures group { IfOk result (λ made. made.group ≡ two group.0 group.1) }
    ensures picks { IfOk result (λ made. made.picks ≡ picks.0 ∷ picks.1 ∷ []) }
    ensures asks { IfOk result (λ made. asks 0 made ≡ true) }
{
    let group = two(alloc, group.0, group.1)?;
    let mut chosen = Picks::new(alloc);
    chosen.push(picks.0)?;
    chosen.push(picks.1)?;
    Ok(Request {
        what: What::Measure(0),
        group,
        picks: chosen,
    })
}
