// The reason for a refusal.
ghost use Rattle.std.specs.Prelude.{◌≡◌, ◌<◌, true, length, IfOk};
ghost use Rattle.std.specs.List.{All};
ghost use Rattle.cube_model.specs.declared.request.What.TheVariants as what;
ghost use Rattle.cube_model.specs.Cores.{shown};
ghost use Rattle.cube_model.specs.Policies.{IsPolicy};
ghost use Rattle.cube_model.specs.Reasons as said;
ghost use Rattle.cube_model.specs.Requests.{grain, is_valid};
ghost use Rattle.cube_model.specs.Verdicts.{narrowed, source, verdict as verdict_of, IsAdmissible};
ghost use Rattle.cube_reason.specs.Found.{HasBlocks, WouldSource, Fixes, Refuses, IsAbout};
ghost use Rattle.cube_reason.specs.Cases.{public_of, IsCase, IsJudged};
ghost use Rattle.cube_answers.specs.VerdictText.{CellFits};
ghost use Rattle.cube_reason.specs.ReasonText.{CanBeTold};
ghost use Rattle.cube_reason.specs.Views.{reason_view};

use crate::Reason;
use crate::blocks::blocks_of;
use crate::cases::Case;
use crate::narrowing::next_source;
use crate::walking::find_walk;
use cube_core::Core;
use cube_model::{Cell, Cells, Entry, NoMemory, Policy, Request, Verdict, What};
use std::alloc::Global;

/// The same cell again.
fn copy_cell(alloc: Global, cell: &Cell) -> Result<Cell, NoMemory>
    ensures { IfOk result (λ copy. copy ≡ cell.now) }
{
    Ok(Cell {
        levels: cell.levels.copied(alloc)?,
        key: cell.key.copied(alloc)?,
    })
}

/// The cells of the cuboid that the source would become, which make up a cell.
fn find_blocks(alloc: Global, case: &Case, measure: u32, cell: &Cell) -> Result<Cells, NoMemory>
    requires case { IsCase case.now }
    requires blocks { HasBlocks (public_of case.now) case.now.history.now case.now.request.now measure cell.now }
    ensures blocks { IfOk result (λ blocks. said.are_blocks (public_of case.now) measure (narrowed (source case.now.history.now measure) (grain case.now.request.now)) cell.now blocks ≡ true) }
    ensures told { IfOk result (All (CellFits case.now.core.now.dims)) }
{
    let _rules = case.core.dims();
    let levels = next_source(alloc, case, measure)?;
    let blocks = blocks_of(alloc, case.core, &levels, cell)?;
    Ok(blocks)
}

/// The reason that blocks are.
fn reason_by_blocks(
    alloc: Global,
    case: &Case,
    measure: u32,
    verdict: &Verdict,
    cell: &Cell,
) -> Result<Reason, NoMemory>
    requires case { IsCase case.now }
    requires what { case.now.request.now.what ≡ what.Measure measure }
    requires judged { IsJudged case.now verdict.now }
    requires cell { WouldSource verdict.now cell.now }
    ensures reason { IfOk result (λ reason. said.is_reason (public_of case.now) case.now.history.now case.now.request.now (reason_view reason) ≡ true) }
    ensures about { IfOk result (IsAbout verdict.now) }
    ensures told { IfOk result (CanBeTold case.now.core.now) }
{
    let blocks = find_blocks(alloc, case, measure, cell)?;
    let cell = copy_cell(alloc, cell)?;
    Ok(Reason::Blocks { cell, blocks })
}

/// The reason that a walk is.
fn reason_by_walk(
    alloc: Global,
    case: &Case,
    measure: u32,
    verdict: &Verdict,
    place: u32,
) -> Result<Reason, NoMemory>
    requires case { IsCase case.now }
    requires what { case.now.request.now.what ≡ what.Measure measure }
    requires judged { IsJudged case.now verdict.now }
    requires place { Fixes verdict.now place }
    ensures reason { IfOk result (λ reason. said.is_reason (public_of case.now) case.now.history.now case.now.request.now (reason_view reason) ≡ true) }
    ensures about { IfOk result (IsAbout verdict.now) }
    ensures told { IfOk result (CanBeTold case.now.core.now) }
{
    let found = find_walk(alloc, case, measure, place)?;
    let (steps, end) = found;
    Ok(Reason::Walk { place, steps, end })
}

/// The reason for the verdict on a request on a measure.
fn reason_on(
    alloc: Global,
    case: &Case,
    measure: u32,
    verdict: &Verdict,
) -> Result<Reason, NoMemory>
    requires case { IsCase case.now }
    requires what { case.now.request.now.what ≡ what.Measure measure }
    requires judged { IsJudged case.now verdict.now }
    requires refuses { Refuses verdict.now }
    ensures reason { IfOk result (λ reason. said.is_reason (public_of case.now) case.now.history.now case.now.request.now (reason_view reason) ≡ true) }
    ensures about { IfOk result (IsAbout verdict.now) }
    ensures told { IfOk result (CanBeTold case.now.core.now) }
{
    match verdict {
        Verdict::Answer { .. } | Verdict::Full { .. } => unreachable!(),
        Verdict::SourceWould { cell, .. } => reason_by_blocks(alloc, case, measure, verdict, cell),
        Verdict::Pair { cell, .. } => reason_by_walk(alloc, case, measure, verdict, *cell),
        Verdict::Single { cell, .. } => reason_by_walk(alloc, case, measure, verdict, *cell),
    }
}

/// The reason for a verdict that refuses a case, other than for want of room.
pub(crate) fn find_reason(alloc: Global, case: &Case, verdict: &Verdict) -> Result<Reason, NoMemory>
    requires case { IsCase case.now }
    requires judged { IsJudged case.now verdict.now }
    requires refuses { Refuses verdict.now }
    ensures reason { IfOk result (λ reason. said.is_reason (public_of case.now) case.now.history.now case.now.request.now (reason_view reason) ≡ true) }
    ensures about { IfOk result (IsAbout verdict.now) }
    ensures told { IfOk result (CanBeTold case.now.core.now) }
{
    match case.request.what {
        What::Count => unreachable!(),
        What::Measure(measure) => reason_on(alloc, case, measure, verdict),
    }
}

/// The reason for a verdict that refuses a request behind a history, other than for want of room.
///
/// Where the source would not cut a cell: the cells that make it up, by key. Where a link would fix a place: a walk, one of the
/// shortest, found by a search in breadth over the links of the history and the request, in as many steps as there are links.
pub fn reason(
    alloc: Global,
    core: &Core,
    policy: &Policy,
    history: &[Entry],
    request: &Request,
    verdict: &Verdict,
) -> Result<Reason, NoMemory>
    requires policy { IsPolicy core.now.dims policy.now }
    requires admissible { IsAdmissible (shown core.now policy.now) history.now }
    requires valid { is_valid (shown core.now policy.now) request.now ≡ true }
    requires verdict { verdict.now ≡ verdict_of (shown core.now policy.now) history.now request.now }
    requires refuses { Refuses verdict.now }
    ensures reason { IfOk result (λ reason. said.is_reason (shown core.now policy.now) history.now request.now (reason_view reason) ≡ true) }
    ensures about { IfOk result (IsAbout verdict.now) }
    ensures told { IfOk result (CanBeTold core.now) }
{
    let case = Case {
        core,
        policy,
        history,
        request,
    };
    find_reason(alloc, &case, verdict)
}
