// A walk that shows why a place is fixed.
ghost use Rattle.std.specs.Prelude.{◌≡◌, true, IfOk};
ghost use Rattle.cube_model.specs.Reasons as said;
ghost use Rattle.cube_reason.specs.Found.{HasWalk, CanWalk, WalksTo};
ghost use Rattle.cube_reason.specs.Cases.{public_of, IsCase};
ghost use Rattle.cube_reason.specs.Views.{steps_view, end_view};

use crate::cases::Case;
use crate::finding::{end_at, first_end, singles_of};
use crate::joints::joints_of;
use crate::searching::{Visit, search, visit_with};
use crate::ties::{Bringer, ties};
use crate::trails::steps_to;
use crate::{End, StepList};
use cube_model::NoMemory;
use std::alloc::Global;

/// The walk to the first visit that one ends at.
fn walk_by(
    alloc: Global,
    visits: &[Visit],
    singles: &[Option<Bringer>],
    start: u32,
) -> Result<(StepList, Option<End>), NoMemory>
    requires { CanWalk visits.now singles.now start }
    ensures { IfOk result (λ found. WalksTo visits.now singles.now start found.0 found.1) }
{
    match first_end(visits, start, singles) {
        None => unreachable!(),
        Some(number) => {
            let visit = visit_with(visits, number);
            let steps = steps_to(alloc, visits, number)?;
            let end = end_at(visit, start, singles);
            Ok((steps, end))
        }
    }
}

/// A walk from a place from which there is one: a shortest, by a search in breadth. Takes as many steps as the history and the
/// request have links.
pub(crate) fn find_walk(
    alloc: Global,
    case: &Case,
    measure: u32,
    place: u32,
) -> Result<(StepList, Option<End>), NoMemory>
    requires case { IsCase case.now }
    requires walk { HasWalk (public_of case.now) case.now.history.now case.now.request.now measure place }
    ensures { IfOk result (λ found. said.is_walk (public_of case.now) case.now.history.now case.now.request.now measure place (steps_view found.0) (end_view found.1) ≡ true) }
{
    let many = case.core.len();
    let ties = ties(alloc, case, measure)?;
    let all = ties.as_slice();
    let joints = joints_of(alloc, many, all)?;
    let pairs = joints.as_slice();
    let visits = search(alloc, pairs, place)?;
    let singles = singles_of(alloc, many, all)?;
    walk_by(alloc, visits.as_slice(), singles.as_slice(), place)
}
