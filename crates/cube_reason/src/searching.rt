// A search in breadth along pairs, by evenly and oddly many steps.
ghost use Rattle.std.specs.Prelude.{◌≡◌, ◌+◌, ◌*◌, ◌<◌, ◌++◌, ◌∷◌, ℕ, [], false, true, length, replicate, slice_index_or, slice_set, if◌then◌else◌, IfOk, OnOk};
ghost use Rattle.cube_reason.specs.Searched as searched;
ghost use Rattle.cube_reason.specs.Searched.{state_of, visit_at, visited, marked, AreWithin, IsSearch, WentOn, HasSearched};

use crate::joints::Joint;
use crate::ties::Bringer;
use cube_model::{Items, NoMemory};
use std::alloc::Global;

/// A place that the search has reached, at evenly or at oddly many steps.
#[derive(Clone, Copy)]
pub(crate) struct Visit {
    pub place: u32,
    pub odd: bool,
    /// The number of the visit before it.
    pub back: usize,
    /// Where the pair of the step between the two comes from.
    pub by: Bringer,
}

/// The number of a place, at evenly or at oddly many steps.
fn state(place: u32, odd: bool) -> usize
    ensures { result ≡ state_of place odd }
{
    let even = 2 * place as usize;
    if odd { even + 1 } else { even }
}

/// Puts a visit at the end, unless its place was seen at as many steps, and marks it as seen.
fn visit_once(visits: &mut Vec<Visit>, seen: &mut Vec<bool>, next: Visit) -> Result<(), NoMemory>
    requires { state_of next.place next.odd < length seen.old.items }
    ensures visits { OnOk result (visits.new.items ≡ visited visits.old.items seen.old.items next) }
    ensures seen { OnOk result (seen.new.items ≡ marked seen.old.items next) }
{
    let state = state(next.place, next.odd);
    if !seen[state] {
        seen[state] = true;
        visits.push(next)?;
    }
    Ok(())
}

/// The visit with a number.
pub(crate) fn visit_with(visits: &[Visit], number: usize) -> Visit
    requires { number < length visits.now }
    ensures { result ≡ visit_at visits.now number }
{
    visits[number]
}

/// Visits each place that a pair joins to the place of a visit.
fn go_on(
    visits: &mut Vec<Visit>,
    seen: &mut Vec<bool>,
    joints: &[Items<Joint>],
    at: usize,
) -> Result<(), NoMemory>
    requires within { AreWithin joints.now }
    requires search { IsSearch joints.now visits.old.items seen.old.items }
    requires at { at < length visits.old.items }
    ensures { OnOk result (WentOn joints.now at visits.old.items visits.new.items seen.new.items) }
{
    let from = visit_with(visits.as_slice(), at);
    let here = joints[from.place as usize].as_slice();
    'joints: for joint in here {
        let next = Visit {
            place: joint.to,
            odd: !from.odd,
            back: at,
            by: joint.by,
        };
        visit_once(visits, seen, next)?;
    }
    Ok(())
}

/// Where a search from a place begins.
fn first_visit(place: u32) -> Visit
    ensures { result ≡ searched.first_visit place }
{
    Visit {
        place,
        odd: false,
        back: 0,
        by: Bringer::Own(0),
    }
}

/// So many marks, none of them set.
fn no_marks(alloc: Global, many: usize) -> Result<Vec<bool>, NoMemory>
    ensures { IfOk result (λ marks. marks.items ≡ replicate many false) }
{
    Ok(vec![in alloc; false; many]?)
}

/// The places that walks from a place reach, each at evenly or at oddly many steps, the nearest first. Takes as many steps as there
/// are joints.
pub(crate) fn search(
    alloc: Global,
    joints: &[Items<Joint>],
    start: u32,
) -> Result<Vec<Visit>, NoMemory>
    requires within { AreWithin joints.now }
    requires start { start < length joints.now }
    requires few { length joints.now < 4294967296 }
    ensures { IfOk result (λ visits. HasSearched joints.now start visits.items) }
{
    let mut seen = no_marks(alloc, 2 * joints.len())?;
    let mut visits = Vec::new(alloc);
    visit_once(&mut visits, &mut seen, first_visit(start))?;
    let mut at = 0;
    while at < visits.len() {
        go_on(&mut visits, &mut seen, joints, at)?;
        at += 1;
    }
    Ok(visits)
}
