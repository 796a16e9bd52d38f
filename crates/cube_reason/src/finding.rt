// A walk that shows why a place is fixed.
ghost use Rattle.std.specs.Prelude.{◌≡◌, ◌<◌, ℕ, true, false, length, replicate, None, IfOk, IfSome};
ghost use Rattle.cube_model.specs.LinkLaws.{IsOfPlaces};
ghost use Rattle.cube_reason.specs.Found.{AreSingles, EndsAt, set_single, is_last};
ghost use Rattle.cube_reason.specs.Searched.{visit_at};
ghost use Rattle.cube_reason.specs.Tied.{OfPlaces};

use crate::End;
use crate::searching::{Visit, visit_with};
use crate::ties::{Bringer, Tie};
use crate::trails::origin;
use cube_model::{Link, NoMemory};
use std::alloc::Global;

/// Nothing for each of so many places.
fn no_singles(alloc: Global, many: usize) -> Result<Vec<Option<Bringer>>, NoMemory>
    ensures { IfOk result (λ singles. singles.items ≡ replicate many None) }
{
    Ok(vec![in alloc; None; many]?)
}

/// Sets where a place alone comes from.
fn put_single(singles: &mut Vec<Option<Bringer>>, tie: Tie)
    requires { IsOfPlaces (length singles.old.items) tie.link }
    ensures { singles.new.items ≡ set_single singles.old.items tie }
{
    if let Link::Single(place) = tie.link {
        singles[place as usize] = Some(tie.by);
    }
}

/// For each of so many places where it comes from as a place alone, if it does.
pub(crate) fn singles_of(
    alloc: Global,
    many: u32,
    ties: &[Tie],
) -> Result<Vec<Option<Bringer>>, NoMemory>
    requires { OfPlaces many ties.now }
    ensures { IfOk result (λ singles. AreSingles many ties.now singles.items) }
{
    let mut singles = no_singles(alloc, many as usize)?;
    'ties: for tie in ties {
        put_single(&mut singles, *tie);
    }
    Ok(singles)
}

/// Whether a walk that leads to a visit ends there: back where it began at oddly many steps, or at a place alone.
fn is_end(visit: Visit, start: u32, singles: &[Option<Bringer>]) -> bool
    requires { visit.place < length singles.now }
    ensures { result ≡ is_last start singles.now visit }
{
    visit.odd && visit.place == start || singles[visit.place as usize].is_some()
}

/// The first visit that a walk ends at.
pub(crate) fn first_end(visits: &[Visit], start: u32, singles: &[Option<Bringer>]) -> Option<usize>
    requires { (k : ℕ) → k < length visits.now → (visit_at visits.now k).place < length singles.now }
    ensures below { IfSome result (λ k. k < length visits.now) }
    ensures last { IfSome result (λ k. is_last start singles.now (visit_at visits.now k) ≡ true) }
    ensures none { result ≡ None → (k : ℕ) → k < length visits.now → is_last start singles.now (visit_at visits.now k) ≡ false }
{
    'visits: for number in 0..visits.len() {
        if is_end(visit_with(visits, number), start, singles) {
            return Some(number);
        }
    }
    None
}

/// Where a walk to a visit ends, unless it is back where it began.
pub(crate) fn end_at(visit: Visit, start: u32, singles: &[Option<Bringer>]) -> Option<End>
    requires place { visit.place < length singles.now }
    requires last { is_last start singles.now visit ≡ true }
    ensures { EndsAt start singles.now visit result }
{
    if visit.odd && visit.place == start {
        return None;
    }
    match singles[visit.place as usize] {
        None => None,
        Some(by) => Some(End {
            place: visit.place,
            by: origin(by),
        }),
    }
}
