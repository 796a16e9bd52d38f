// Whether steps are those of a walk, where they lead, and whether a place stands alone.
ghost use Rattle.std.specs.Prelude.{◌≡◌, ◌<◌, ◌&&◌, ◌==◌, ℕ, List, length};
ghost use Rattle.std.specs.List.{list_any};
ghost use Rattle.cube_model.specs.declared.link.Link.{Link};
ghost use Rattle.cube_model.specs.Reasons as said;
ghost use Rattle.cube_reason.specs.Stepped as stepped;
ghost use Rattle.cube_reason.specs.Stepped.{TellSteps, goes_by, is_single, led_if};

use crate::joints::Joint;
use crate::ties::{Bringer, Tie};
use crate::{Origin, WalkStep};
use cube_model::{Items, Link};

/// Whether a link comes from there.
fn is_from(bringer: Bringer, origin: Origin) -> bool
    ensures { result ≡ stepped.is_from bringer origin }
{
    match (bringer, origin) {
        (Bringer::Entry(number), Origin::Entry(named)) => number == named,
        (Bringer::Entry(_), Origin::Own(_)) => false,
        (Bringer::Own(_), Origin::Entry(_)) => false,
        (Bringer::Own(number), Origin::Own(named)) => number == named,
    }
}

/// Whether a joint is one to a place, that comes from there.
fn is_joint(joint: Joint, to: u32, by: Origin) -> bool
    ensures { result ≡ (joint.to == to && stepped.is_from joint.by by) }
{
    joint.to == to && is_from(joint.by, by)
}

/// Whether one of some joints leads to a place, and comes from there.
fn leads_to(joints: &[Joint], to: u32, by: Origin) -> bool
    ensures { result ≡ list_any (λ j. j.to == to && stepped.is_from j.by by) joints.now }
{
    joints.iter().any(|joint| is_joint(*joint, to, by))
}

/// Whether a joint of its first place is the step.
fn goes(joints: &[Items<Joint>], step: &WalkStep) -> bool
    ensures { result ≡ goes_by joints.now step.now }
{
    match joints.get(step.from as usize) {
        None => false,
        Some(joints) => leads_to(joints.as_slice(), step.to, step.by),
    }
}

/// Whether a step begins at a place, and a joint of the place is the step.
fn goes_on(joints: &[Items<Joint>], at: u32, step: &WalkStep) -> bool
    ensures { result ≡ (step.now.from == at && goes_by joints.now step.now) }
{
    step.from == at && goes(joints, step)
}

/// Where steps lead from a place, if each is a step and goes on where the last one ended.
pub(crate) fn led(joints: &[Items<Joint>], from: u32, steps: &[WalkStep]) -> Option<u32>
    ensures { (named : said.Origin → List Link) → TellSteps named joints.now → result ≡ led_if named from steps.now }
{
    let mut at = from;
    'steps: for step in steps {
        if !goes_on(joints, at, step) {
            return None;
        }
        at = step.to;
    }
    Some(at)
}

/// Whether a link is the place alone.
pub(crate) fn is_at(link: Link, place: u32) -> bool
    ensures { result ≡ said.is_at place link }
{
    match link {
        Link::Pair(..) => false,
        Link::Single(single) => single == place,
    }
}

/// Whether a tie is the place alone, and comes from there.
fn ends(tie: Tie, place: u32, by: Origin) -> bool
    ensures { result ≡ is_single place by tie }
{
    is_at(tie.link, place) && is_from(tie.by, by)
}

/// Whether one of some ties is the place alone, and comes from there.
pub(crate) fn has_single(ties: &[Tie], place: u32, by: Origin) -> bool
    ensures { result ≡ list_any (is_single place by) ties.now }
{
    ties.iter().any(|tie| ends(*tie, place, by))
}
