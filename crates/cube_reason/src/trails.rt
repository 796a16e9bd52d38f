// The steps that led a search to a visit.
ghost use Rattle.std.specs.Prelude.{◌≡◌, ◌<◌, ℕ, List, length, reverse, IfOk};
ghost use Rattle.cube_model.specs.declared.link.Link.{Link};
ghost use Rattle.cube_model.specs.Reasons as said;
ghost use Rattle.cube_reason.specs.Searched.{visit_at};
ghost use Rattle.cube_reason.specs.Tied.{bringer_view};
ghost use Rattle.cube_reason.specs.Trails.{AreBack, AreJoined, LeadsTo};
ghost use Rattle.cube_reason.specs.Views.{origin_by, origin_view};

use crate::searching::{Visit, visit_with};
use crate::ties::Bringer;
use crate::{Origin, StepList, WalkStep};
use cube_model::NoMemory;
use std::alloc::{AllocError, Global};

/// Where a link comes from, as a reason names it.
pub(crate) fn origin(by: Bringer) -> Origin
    ensures is { result ≡ origin_by by }
    ensures view { origin_view result ≡ bringer_view by }
{
    match by {
        Bringer::Entry(number) => Origin::Entry(number),
        Bringer::Own(number) => Origin::Own(number),
    }
}

/// The step that led to a visit.
fn step(from: Visit, to: Visit) -> WalkStep
    ensures from { result.from ≡ from.place }
    ensures to { result.to ≡ to.place }
    ensures by { origin_view result.by ≡ bringer_view to.by }
{
    WalkStep {
        from: from.place,
        to: to.place,
        by: origin(to.by),
    }
}

/// The same steps, the last one first.
fn turned(alloc: Global, steps: &[WalkStep]) -> Result<Vec<WalkStep>, AllocError>
    ensures { IfOk result (λ turned. turned.items ≡ reverse steps.now) }
{
    steps.iter().rev().copied().collect(alloc)
}

/// The steps that led to a visit, the first one first.
pub(crate) fn steps_to(alloc: Global, visits: &[Visit], number: usize) -> Result<StepList, NoMemory>
    requires number { number < length visits.now }
    requires back { AreBack visits.now }
    ensures { IfOk result (λ steps. (named : said.Origin → List Link) → AreJoined named visits.now → LeadsTo named visits.now number steps) }
{
    let mut steps = Vec::new(alloc);
    let mut at = number;
    while at > 0 {
        let to = visit_with(visits, at);
        let from = visit_with(visits, to.back);
        steps.push(step(from, to))?;
        at = to.back;
    }
    let turned = turned(alloc, steps.as_slice())?;
    Ok(StepList::from_vec(turned))
}
