// The lines of a walk, read back line by line.
ghost use Rattle.std.specs.Prelude.{◌≡◌, ◌↔◌, ◌<◌, ◌≤◌, ◌++◌, ◌&&◌, ◌==◌, ℕ, List, Some, None, true, false, length, drop, IfOk, IfSome};
ghost use Rattle.std.specs.List.{list_any};
ghost use Rattle.cube_model.specs.declared.link.Link.{Link};
ghost use Rattle.cube_model.specs.Cubes.{IsIn};
ghost use Rattle.cube_model.specs.Reasons as said;
ghost use Rattle.cube_source.specs.Blocks.{bare};
ghost use Rattle.cube_reason.specs.declared.joints.Joint as joint;
ghost use Rattle.cube_reason.specs.Read.{AreFew, BeginsWith, BeginsWithNone, GoesOn, ends_by, step_by};
ghost use Rattle.cube_reason.specs.ReasonText.{step_line as line_of_step};
ghost use Rattle.cube_reason.specs.Tied.{AreJoints, AreTies, OfPlaces};

use crate::joints::Joint;
use crate::stepping::is_at;
use crate::texts::{push_end, push_step};
use crate::ties::Tie;
use crate::trails::origin;
use crate::{End, WalkStep};
use cube_core::Core;
use cube_model::{Items, NoMemory, Text};
use std::alloc::Global;

/// Whether a text begins with another.
fn begins(text: &[u8], front: &[u8]) -> bool
    ensures yes { result ≡ true → text.now ≡ front.now ++ drop (length front.now) text.now }
    ensures no { result ≡ false → (rest : List ℕ) → text.now ≡ front.now ++ rest → ⊥ }
{
    text.starts_with(front)
}

/// The line of the step from a place along a joint.
fn step_line(alloc: Global, core: &Core, from: u32, joint: Joint) -> Result<Text, NoMemory>
    requires from { from < length core.now.shape.points }
    requires to { joint.to < length core.now.shape.points }
    ensures { IfOk result (λ line. line ≡ line_of_step core.now.dims (bare core.now) (step_by from joint)) }
{
    let mut line = Text::new(alloc);
    let step = WalkStep {
        from,
        to: joint.to,
        by: origin(joint.by),
    };
    push_step(alloc, &mut line, core, &step)?;
    Ok(line)
}

/// Where the first joint of a place leads whose step some lines begin with, and how long the line of the step is.
fn find_step(
    alloc: Global,
    core: &Core,
    joints: &[Joint],
    from: u32,
    lines: &[u8],
) -> Result<Option<(u32, usize)>, NoMemory>
    requires from { from < length core.now.shape.points }
    requires within { (x : joint.Joint) → IsIn x joints.now → x.to < length core.now.shape.points }
    ensures found { IfOk result (λ found. IfSome found (λ step. BeginsWith core.now.dims (bare core.now) joints.now from lines.now step.0 step.1)) }
    ensures none { IfOk result (λ found. found ≡ None → BeginsWithNone core.now.dims (bare core.now) joints.now from lines.now) }
{
    'joints: for joint in joints {
        let line = step_line(alloc, core, from, *joint)?;
        if begins(lines, line.as_slice()) {
            return Ok(Some((joint.to, line.len())));
        }
    }
    Ok(None)
}

/// Whether a tie is a place alone, and lines are that of an end there by it.
fn is_end(alloc: Global, core: &Core, tie: Tie, at: u32, lines: &[u8]) -> Result<bool, NoMemory>
    requires { at < length core.now.shape.points }
    ensures { IfOk result (λ is. is ≡ ends_by core.now.dims (bare core.now) at lines.now tie) }
{
    if !is_at(tie.link, at) {
        return Ok(false);
    }
    let mut line = Text::new(alloc);
    let end = End {
        place: at,
        by: origin(tie.by),
    };
    push_end(alloc, &mut line, core, Some(end))?;
    Ok(lines == line.as_slice())
}

/// Whether lines are that of an end at a place by one of some ties.
fn has_end(
    alloc: Global,
    core: &Core,
    ties: &[Tie],
    at: u32,
    lines: &[u8],
) -> Result<bool, NoMemory>
    requires { at < length core.now.shape.points }
    ensures { IfOk result (λ found. found ≡ list_any (ends_by core.now.dims (bare core.now) at lines.now) ties.now) }
{
    'ties: for tie in ties {
        if is_end(alloc, core, *tie, at, lines)? {
            return Ok(true);
        }
    }
    Ok(false)
}

/// What stands in a text behind so many bytes.
fn after(text: &[u8], long: usize) -> &[u8]
    requires { long ≤ length text.now }
    ensures { result.now ≡ drop long text.now }
{
    &text[long..]
}

/// Whether oddly many steps came back to where they began.
fn is_back(odd: bool, at: u32, start: u32) -> bool
    ensures { result ≡ (odd && at == start) }
{
    odd && at == start
}

/// Whether lines are those of a walk from a place, along pairs and to a place alone among the ties. Reads each line once, and for a
/// line looks at the joints of one place.
pub(crate) fn reads_walk(
    alloc: Global,
    core: &Core,
    ties: &[Tie],
    joints: &[Items<Joint>],
    start: u32,
    lines: &[u8],
) -> Result<bool, NoMemory>
    requires start { start < length core.now.shape.points }
    requires places { OfPlaces (length core.now.shape.points) ties.now }
    requires joints { AreJoints (length core.now.shape.points) ties.now joints.now }
    requires few { AreFew ties.now }
    ensures { IfOk result (λ taken. (named : said.Origin → List Link) → AreTies named ties.now → (taken ≡ true) ↔ GoesOn core.now.dims (bare core.now) named start false start lines.now) }
{
    let _rules = core.dims();
    let mut at = start;
    let mut odd = false;
    let mut rest = lines;
    'steps: while !rest.is_empty() {
        let Some((to, long)) = find_step(alloc, core, joints[at as usize].as_slice(), at, rest)?
        else {
            return has_end(alloc, core, ties, at, rest);
        };
        at = to;
        odd = !odd;
        rest = after(rest, long);
    }
    Ok(is_back(odd, at, start))
}
