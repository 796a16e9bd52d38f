// The parity rule: what the links of one more request make of those that are kept of its measure.
ghost use Rattle.std.specs.Prelude.{◌≡◌, ◌<◌, ◌≤◌, ◌^◌, length, IfOk, OnErr};
ghost use Rattle.cube_model.specs.LinkLaws.{AreOfPlaces, IsOfPlaces};
ghost use Rattle.cube_model.specs.Verdicts.{fixes};
ghost use Rattle.cube_admit.specs.Linking.{IsLinks, Does, ColouringJudged, HeldJudged};

use crate::Held;
use crate::state::MOST_HELD;
use cube_colour::{Added, Colouring};
use cube_model::{Link, LinkList, NoMemory, Verdict};
use std::alloc::Global;

/// What the links of a request do.
#[derive(Clone, Copy, Debug, PartialEq, Eq)]
enum Effect {
    /// Each of them follows: they bring nothing.
    Follow,
    /// They leave each guarded place free, and were added behind so many links.
    Fit { mark: u64 },
    /// Up to the link with this number, counted from 1, they fix this guarded place, the first one that
    /// they fix. None was added.
    Stop { index: u32, place: u32 },
}

// Adds links, all or none of them.
#[tactic(auto, using(crate::proofs::Colours::stop_does, crate::proofs::Colours::follow_does, crate::proofs::Colours::fit_does))]
fn add_links(alloc: Global, colouring: &mut Colouring, links: &LinkList) -> Result<Effect, NoMemory>
    requires of_places { AreOfPlaces colouring.old.places links.now }
    requires few { length links.now < 2 ^ 32 }
    ensures does { IfOk result (Does colouring.old colouring.new links.now) }
    ensures err { OnErr result (colouring.new ≡ colouring.old) }
{
    let mark = colouring.mark();
    match colouring.try_add(alloc, links)? {
        Added::Stops { index, place } => Ok(Effect::Stop { index, place }),
        Added::Fits => {
            if colouring.mark() == mark {
                Ok(Effect::Follow)
            } else {
                Ok(Effect::Fit { mark })
            }
        }
    }
}

// The verdict where a link, counted from 1, fixes a guarded place.
fn stopped(link: Link, index: u32, cell: u32) -> Verdict
    ensures { result ≡ fixes index link cell }
{
    match link {
        Link::Pair(first, second) => Verdict::Pair {
            index,
            first,
            second,
            cell,
        },
        Link::Single(place) => Verdict::Single { index, place, cell },
    }
}

/// The verdict on the links of a request on a parity measure, behind so many requests. Where it is a fresh
/// answer the links are added, and the mark before them is given.
#[tactic(auto, using(crate::proofs::Colours::fit_full, crate::proofs::Colours::fit_fresh, crate::proofs::Colours::stop_full, crate::proofs::Colours::stop_fixes))]
fn judge_colouring(
    alloc: Global,
    colouring: &mut Colouring,
    asked: u32,
    links: &LinkList,
) -> Result<(Verdict, Option<u64>), NoMemory>
    requires of_places { AreOfPlaces colouring.old.places links.now }
    requires few { length links.now < 2 ^ 32 }
    ensures judged { IfOk result (ColouringJudged colouring.old colouring.new asked links.now) }
    ensures err { OnErr result (colouring.new ≡ colouring.old) }
{
    match add_links(alloc, colouring, links)? {
        Effect::Follow => Ok((Verdict::Answer { fresh: false }, None)),
        Effect::Fit { mark } => {
            if asked >= MOST_HELD {
                colouring.back_to(mark);
                Ok((Verdict::Full { held: asked }, None))
            } else {
                Ok((Verdict::Answer { fresh: true }, Some(mark)))
            }
        }
        Effect::Stop { index, place } => {
            if asked >= MOST_HELD {
                Ok((Verdict::Full { held: asked }, None))
            } else {
                let link = links.as_slice()[index as usize - 1];
                Ok((stopped(link, index, place), None))
            }
        }
    }
}

/// The same of what is kept of the measure.
pub(crate) fn judge_held(
    alloc: Global,
    held: &mut Held,
    asked: u32,
    links: &LinkList,
) -> Result<(Verdict, Option<u64>), NoMemory>
    requires links { IsLinks held.old links.now }
    requires few { length links.now < 2 ^ 32 }
    ensures judged { IfOk result (HeldJudged held.old held.new asked links.now) }
    ensures err { OnErr result (held.new ≡ held.old) }
{
    match held {
        Held::Links(colouring) => judge_colouring(alloc, colouring, asked, links),
        Held::Open | Held::Source(_) => unreachable!(),
    }
}
