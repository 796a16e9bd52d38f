// Whether a reason is one, checked without judging the request again.
ghost use Rattle.std.specs.Prelude.{◌≡◌, ◌<◌, true, ℕ, length, IfOk};
ghost use Rattle.std.specs.List.{list_any};
ghost use Rattle.cube_model.specs.declared.request.What.TheVariants as what;
ghost use Rattle.cube_model.specs.Cores.{shown};
ghost use Rattle.cube_model.specs.Policies.{IsPolicy};
ghost use Rattle.cube_model.specs.Protection as protection;
ghost use Rattle.cube_model.specs.Reasons as said;
ghost use Rattle.cube_model.specs.Requests.{grain, is_valid};
ghost use Rattle.cube_model.specs.Verdicts.{narrowed, source};
ghost use Rattle.cube_reason.specs.Cases.{public_of, IsCase};
ghost use Rattle.cube_reason.specs.Given.{AreAllowed, RefusesWhere};
ghost use Rattle.cube_reason.specs.Stepped.{ends_at};
ghost use Rattle.cube_reason.specs.Views.{reason_view, steps_view, end_view};

use crate::blocks::{are_same, blocks_of, is_protected};
use crate::cases::Case;
use crate::joints::joints_of;
use crate::narrowing::next_source;
use crate::stepping::{has_single, led};
use crate::ties::{Tie, ties};
use crate::{End, Reason, WalkStep};
use cube_core::Core;
use cube_model::{Cell, Entry, Method, NoMemory, Policy, Request, What};
use cube_source::{cutting_pair, guarded};
use std::alloc::Global;

/// Whether cells are those of the cuboid that the source would become, by key, that cover just the places of a protected cell.
fn accept_blocks(
    alloc: Global,
    case: &Case,
    measure: u32,
    cell: &Cell,
    blocks: &[Cell],
) -> Result<bool, NoMemory>
    requires case { IsCase case.now }
    requires measure { measure < length case.now.core.now.dims.measures }
    ensures { IfOk result (λ taken. taken ≡ said.are_blocks (public_of case.now) measure (narrowed (source case.now.history.now measure) (grain case.now.request.now)) cell.now blocks.now) }
{
    if !is_protected(case.core, case.policy, measure, cell) {
        return Ok(false);
    }
    let levels = next_source(alloc, case, measure)?;
    match cutting_pair(alloc, case.core, &levels, cell)? {
        Some(_) => Ok(false),
        None => {
            let own = blocks_of(alloc, case.core, &levels, cell)?;
            Ok(are_same(own.as_slice(), blocks))
        }
    }
}

/// Whether a place is guarded.
fn is_guarded(alloc: Global, case: &Case, measure: u32, place: u32) -> Result<bool, NoMemory>
    requires case { IsCase case.now }
    ensures { IfOk result (λ found. found ≡ protection.listed place (protection.guarded (public_of case.now) measure)) }
{
    let places = guarded(alloc, case.core, case.policy, measure)?;
    Ok(is_listed(places.as_slice(), place))
}

/// Whether a place is listed.
fn is_listed(places: &[u32], place: u32) -> bool
    ensures { result ≡ protection.listed place places.now }
{
    places.iter().any(|other| place == *other)
}

/// Whether the number of steps is odd.
fn is_odd(steps: &[WalkStep]) -> bool
    ensures { result ≡ said.is_odd (steps_view steps.now) }
{
    steps.len() % 2 == 1
}

/// Whether a walk that leads to a place ends there: back where it began and at odd length, or at a place alone.
fn ends(ties: &[Tie], start: u32, steps: &[WalkStep], end: Option<End>, at: u32) -> bool
    ensures { result ≡ ends_at ties.now start steps.now end at }
{
    match end {
        None => is_odd(steps) && at == start,
        Some(end) => end.place == at && has_single(ties, end.place, end.by),
    }
}

/// Whether steps and an end are a walk from a guarded place.
fn accept_walk(
    alloc: Global,
    case: &Case,
    measure: u32,
    place: u32,
    steps: &[WalkStep],
    end: Option<End>,
) -> Result<bool, NoMemory>
    requires case { IsCase case.now }
    ensures { IfOk result (λ taken. taken ≡ said.is_walk (public_of case.now) case.now.history.now case.now.request.now measure place (steps_view steps.now) (end_view end)) }
{
    if !is_guarded(alloc, case, measure, place)? {
        return Ok(false);
    }
    let ties = ties(alloc, case, measure)?;
    let joints = joints_of(alloc, case.core.len(), ties.as_slice())?;
    match led(joints.as_slice(), place, steps) {
        None => Ok(false),
        Some(at) => Ok(ends(ties.as_slice(), place, steps, end, at)),
    }
}

/// Whether a reason is one for a request on a measure.
fn accept_on(alloc: Global, case: &Case, measure: u32, reason: &Reason) -> Result<bool, NoMemory>
    requires case { IsCase case.now }
    requires measure { measure < length case.now.core.now.dims.measures }
    ensures { IfOk result (λ taken. taken ≡ said.is_reason_by (protection.method (public_of case.now) measure) (public_of case.now) case.now.history.now case.now.request.now measure (reason_view reason.now)) }
{
    match case.policy.method(measure) {
        Method::Plain => Ok(false),
        Method::Lattice => match reason {
            Reason::Blocks { cell, blocks } => accept_blocks(
                alloc,
                case,
                measure,
                cell,
                blocks.as_slice(),
            ),
            Reason::Walk { .. } => Ok(false),
        },
        Method::Parity => match reason {
            Reason::Blocks { .. } => Ok(false),
            Reason::Walk { place, steps, end } => accept_walk(
                alloc,
                case,
                measure,
                *place,
                steps.as_slice(),
                *end,
            ),
        },
    }
}

/// Whether a reason is one for the refusal of a request behind a history. What is named in it need not be there: cells, places
/// and numbers may be any.
///
/// It does not judge the request. Where it answers true behind an admissible history, the request may not be answered.
/// Blocks take a few looks at each place. A walk takes as many steps as its history and its request have links, and for each step
/// of its own a look at the links of one place.
pub fn accept(
    alloc: Global,
    core: &Core,
    policy: &Policy,
    history: &[Entry],
    request: &Request,
    reason: &Reason,
) -> Result<bool, NoMemory>
    requires policy { IsPolicy core.now.dims policy.now }
    requires allowed { AreAllowed (shown core.now policy.now) history.now }
    requires valid { is_valid (shown core.now policy.now) request.now ≡ true }
    ensures exact { IfOk result (λ taken. taken ≡ said.is_reason (shown core.now policy.now) history.now request.now (reason_view reason.now)) }
    ensures refuses { IfOk result (RefusesWhere (shown core.now policy.now) history.now request.now) }
{
    let case = Case {
        core,
        policy,
        history,
        request,
    };
    match request.what {
        What::Count => Ok(false),
        What::Measure(measure) => accept_on(alloc, &case, measure, reason),
    }
}
