// What is kept of a history to find changes by, and the sign of the change at each place.
ghost use Rattle.std.specs.Prelude.{◌≡◌, ◌<◌, ℕ, true, length, map, IfOk};
ghost use Rattle.cube_model.specs.declared.policy.Policy.{Policy};
ghost use Rattle.cube_model.specs.Cores.{shown};
ghost use Rattle.cube_model.specs.Cubes.{are_levels, count_from};
ghost use Rattle.cube_model.specs.Dims.{plains};
ghost use Rattle.cube_model.specs.Twins as twins;
ghost use Rattle.cube_model.specs.Twins.{with_first};
ghost use Rattle.cube_witness.specs.Grounds.{change_by, CanTell};

use cube_colour::Colouring;
use cube_core::Core;
use cube_model::{Cell, Levels, NoMemory, Signs};
use cube_source::cutting_pair;
use std::alloc::Global;

/// What is kept of a history to find changes by, for the method of a measure.
#[derive(Clone, Copy)]
pub enum Grounds<'a> {
    /// Nothing: the measure is open.
    Plain,
    /// The source of a lattice measure, where its history has one.
    Source(Option<&'a Levels>),
    /// The colouring of a parity measure.
    Pairs(&'a Colouring),
}

/// +1 at one place.
fn plus_sign(at: u32, place: u32) -> i8
    ensures { result ≡ twins.plus_at at place }
{
    if place == at { 1 } else { 0 }
}

/// +1 at the first place of a pair and -1 at the other; nothing where there is no pair.
fn moved_sign(pair: Option<(u32, u32)>, place: u32) -> i8
    ensures { result ≡ with_first twins.moved pair place }
{
    match pair {
        None => 0,
        Some((plus, minus)) => {
            if place == plus {
                1
            } else if place == minus {
                -1
            } else {
                0
            }
        }
    }
}

/// +1 at one of so many places.
fn plus_signs(alloc: Global, places: u32, at: u32) -> Result<Signs, NoMemory>
    ensures { IfOk result (λ signs. signs ≡ map (twins.plus_at at) (count_from 0 places)) }
{
    let mut signs = Signs::new(alloc);
    'places: for place in 0..places {
        signs.push(plus_sign(at, place))?;
    }
    Ok(signs)
}

/// +1 at the first place of a pair and -1 at the other, among so many places.
fn moved_signs(alloc: Global, places: u32, pair: Option<(u32, u32)>) -> Result<Signs, NoMemory>
    ensures { IfOk result (λ signs. signs ≡ map (with_first twins.moved pair) (count_from 0 places)) }
{
    let mut signs = Signs::new(alloc);
    'places: for place in 0..places {
        signs.push(moved_sign(pair, place))?;
    }
    Ok(signs)
}

/// The sign of the change at each place, by the grounds, for a cell with this first place.
pub(crate) fn signs_by(
    alloc: Global,
    core: &Core,
    grounds: &Grounds,
    cell: &Cell,
    place: u32,
) -> Result<Signs, NoMemory>
    requires cell { are_levels (plains core.now.dims) cell.now.levels ≡ true }
    requires grounds { CanTell (plains core.now.dims) (length core.now.shape.points) place grounds.now }
    ensures { IfOk result (λ signs. (p : Policy) → signs ≡ map (change_by grounds.now (shown core.now p) cell.now place) (count_from 0 (length core.now.shape.points))) }
{
    let places = core.len();
    match grounds {
        Grounds::Plain => moved_signs(alloc, places, None),
        Grounds::Source(None) => plus_signs(alloc, places, place),
        Grounds::Source(Some(levels)) => {
            let pair = cutting_pair(alloc, core, levels, cell)?;
            moved_signs(alloc, places, pair)
        }
        Grounds::Pairs(colouring) => colouring.signs_from(alloc, place),
    }
}
