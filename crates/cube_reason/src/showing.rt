// What is said why a request is refused, and whether a text is that.
ghost use Rattle.std.specs.Prelude.{◌≡◌, ◌↔◌, ◌++◌, List, ℕ, true, None, length, IfOk, IfSome};
ghost use Rattle.cube_model.specs.declared.request.What.TheVariants as what;
ghost use Rattle.cube_model.specs.Cores.{shown};
ghost use Rattle.cube_model.specs.Policies.{IsPolicy};
ghost use Rattle.cube_model.specs.Requests.{is_valid};
ghost use Rattle.cube_model.specs.Verdicts.{verdict as verdict_of, IsAdmissible};
ghost use Rattle.cube_answers.specs.VerdictText.{verdict_text as verdict_words, IsVerdict};
ghost use Rattle.cube_reason.specs.Cases.{public_of, IsCase, IsJudged};
ghost use Rattle.cube_reason.specs.Found.{Fixes, Refuses};
ghost use Rattle.cube_reason.specs.Showing.{HasLines, Shows, IsSource, IsWhy};

use crate::cases::Case;
use crate::joints::joints_of;
use crate::reading::reads_walk;
use crate::reasoning::find_reason;
use crate::texts::reason_text;
use crate::ties::ties;
use cube_answers::verdict_text;
use cube_core::Core;
use cube_model::{Entry, NoMemory, Policy, Request, Text, Verdict, What};
use std::alloc::Global;

/// The lines of a reason for a verdict that refuses a request, other than for want of room.
fn reason_lines(alloc: Global, case: &Case, verdict: &Verdict) -> Result<Text, NoMemory>
    requires case { IsCase case.now }
    requires judged { IsJudged case.now verdict.now }
    requires refuses { Refuses verdict.now }
    ensures { IfOk result (λ lines. HasLines case.now.core.now.dims (public_of case.now) case.now.history.now case.now.request.now verdict.now lines) }
{
    let reason = find_reason(alloc, case, verdict)?;
    let lines = reason_text(alloc, case.core, &reason)?;
    Ok(lines)
}

/// The line of a refusal, and behind it the lines of a reason.
fn shown_text(alloc: Global, case: &Case, verdict: &Verdict) -> Result<Text, NoMemory>
    requires case { IsCase case.now }
    requires judged { IsJudged case.now verdict.now }
    requires there { IsVerdict case.now.core.now verdict.now }
    requires refuses { Refuses verdict.now }
    ensures { IfOk result (λ text. Shows case.now.core.now.dims (public_of case.now) case.now.history.now case.now.request.now verdict.now text) }
{
    let lines = reason_lines(alloc, case, verdict)?;
    let mut text = verdict_text(alloc, case.core, verdict)?;
    text.extend(lines.as_slice())?;
    Ok(text)
}

/// What is said why a request is refused behind a history, by its verdict: the line of the refusal, and behind it the lines of a
/// reason, unless the history is full. Of a request that is answered it is said that it is admitted.
pub fn why_text(
    alloc: Global,
    core: &Core,
    policy: &Policy,
    history: &[Entry],
    request: &Request,
    verdict: &Verdict,
) -> Result<Text, NoMemory>
    requires policy { IsPolicy core.now.dims policy.now }
    requires admissible { IsAdmissible (shown core.now policy.now) history.now }
    requires valid { is_valid (shown core.now policy.now) request.now ≡ true }
    requires verdict { verdict.now ≡ verdict_of (shown core.now policy.now) history.now request.now }
    requires there { IsVerdict core.now verdict.now }
    ensures { IfOk result (λ text. IsWhy core.now.dims (shown core.now policy.now) history.now request.now verdict.now text) }
{
    let case = Case {
        core,
        policy,
        history,
        request,
    };
    match verdict {
        Verdict::Answer { .. } => Text::from_bytes(alloc, b"admitted\n"),
        Verdict::Full { .. } => verdict_text(alloc, core, verdict),
        Verdict::SourceWould { .. } => shown_text(alloc, &case, verdict),
        Verdict::Pair { .. } => shown_text(alloc, &case, verdict),
        Verdict::Single { .. } => shown_text(alloc, &case, verdict),
    }
}

/// Whether lines are those of the blocks that make up the cell of a verdict: there is only one such reason.
fn accept_blocks(
    alloc: Global,
    case: &Case,
    verdict: &Verdict,
    lines: &[u8],
) -> Result<bool, NoMemory>
    requires case { IsCase case.now }
    requires judged { IsJudged case.now verdict.now }
    requires source { IsSource verdict.now }
    ensures { IfOk result (λ taken. (taken ≡ true) ↔ HasLines case.now.core.now.dims (public_of case.now) case.now.history.now case.now.request.now verdict.now lines.now) }
{
    let own = reason_lines(alloc, case, verdict)?;
    Ok(own.as_slice() == lines)
}

/// How many entries a history has.
fn count(history: &[Entry]) -> usize
    ensures { result ≡ length history.now }
{
    history.len()
}

/// Whether lines are those of a walk from the place of a verdict on a measure.
fn accept_walk(
    alloc: Global,
    case: &Case,
    measure: u32,
    verdict: &Verdict,
    place: u32,
    lines: &[u8],
) -> Result<bool, NoMemory>
    requires case { IsCase case.now }
    requires what { case.now.request.now.what ≡ what.Measure measure }
    requires judged { IsJudged case.now verdict.now }
    requires place { Fixes verdict.now place }
    ensures { IfOk result (λ taken. (taken ≡ true) ↔ HasLines case.now.core.now.dims (public_of case.now) case.now.history.now case.now.request.now verdict.now lines.now) }
{
    let _many = count(case.history);
    let ties = ties(alloc, case, measure)?;
    let all = ties.as_slice();
    let joints = joints_of(alloc, case.core.len(), all)?;
    reads_walk(alloc, case.core, all, joints.as_slice(), place, lines)
}

/// Whether lines are those of a reason for a verdict on a measure.
fn accept_lines(
    alloc: Global,
    case: &Case,
    measure: u32,
    verdict: &Verdict,
    lines: &[u8],
) -> Result<bool, NoMemory>
    requires case { IsCase case.now }
    requires what { case.now.request.now.what ≡ what.Measure measure }
    requires judged { IsJudged case.now verdict.now }
    ensures { IfOk result (λ taken. (taken ≡ true) ↔ HasLines case.now.core.now.dims (public_of case.now) case.now.history.now case.now.request.now verdict.now lines.now) }
{
    match verdict {
        Verdict::Answer { .. } | Verdict::Full { .. } => Ok(false),
        Verdict::SourceWould { .. } => { accept_blocks(alloc, case, verdict, lines) }
        Verdict::Pair { cell, .. } => accept_walk(alloc, case, measure, verdict, *cell, lines),
        Verdict::Single { cell, .. } => accept_walk(alloc, case, measure, verdict, *cell, lines),
    }
}

/// What stands in a text behind another that it begins with.
fn behind<'a>(text: &'a [u8], front: &[u8]) -> Option<&'a [u8]>
    ensures some { IfSome result (λ rest. text.now ≡ front.now ++ rest.now) }
    ensures none { result ≡ None → (rest : List ℕ) → text.now ≡ front.now ++ rest → ⊥ }
{
    text.strip_prefix(front)
}

/// Whether a text is the line of a refusal and behind it the lines of a reason for it, about the cell or the place that the line
/// names. Such a text is what `why_text` gives, but that it may give another walk.
///
/// Where it is, behind an admissible history, the request may not be answered. For a walk the request is not judged again.
pub fn accept_text(
    alloc: Global,
    core: &Core,
    policy: &Policy,
    history: &[Entry],
    request: &Request,
    verdict: &Verdict,
    text: &[u8],
) -> Result<bool, NoMemory>
    requires policy { IsPolicy core.now.dims policy.now }
    requires admissible { IsAdmissible (shown core.now policy.now) history.now }
    requires valid { is_valid (shown core.now policy.now) request.now ≡ true }
    requires verdict { verdict.now ≡ verdict_of (shown core.now policy.now) history.now request.now }
    requires there { IsVerdict core.now verdict.now }
    ensures exact { IfOk result (λ taken. (taken ≡ true) ↔ Shows core.now.dims (shown core.now policy.now) history.now request.now verdict.now text.now) }
    ensures refuses { IfOk result (λ taken. taken ≡ true → Refuses verdict.now) }
{
    let What::Measure(measure) = request.what else {
        return Ok(false);
    };
    let line = verdict_text(alloc, core, verdict)?;
    let Some(lines) = behind(text, line.as_slice()) else {
        return Ok(false);
    };
    let case = Case {
        core,
        policy,
        history,
        request,
    };
    accept_lines(alloc, &case, measure, verdict, lines)
}
