// The lines of the summary.
ghost use Rattle.std.specs.Prelude.{◌≡◌, ◌*◌, ◌++◌, length, count_by, true, IfOk, OnOk};
ghost use Rattle.std.specs.List.{All};
ghost use Rattle.cube_model.specs.Cores.{shown};
ghost use Rattle.cube_model.specs.Policies.{IsPolicy};
ghost use Rattle.cube_query.specs.Canonical.{is_request};
ghost use Rattle.cube_engine.specs.Books.{is_answer as is_answered};
ghost use Rattle.cube_demo.specs.Counting as said;
ghost use Rattle.cube_demo.specs.Summary.{verdict_lines, summary_text};

use crate::answers::is_answer;
use crate::hiding::count_witnesses;
use crate::judging::judge_all;
use cube_core::Core;
use cube_model::{NoMemory, Policy, Request, Text, Verdict};
use cube_text::push_count;
use std::alloc::Global;

fn is_source(verdict: &Verdict) -> bool
    ensures { result ≡ said.is_source verdict.now }
{
    matches!(verdict, Verdict::SourceWould { .. })
}

fn is_single(verdict: &Verdict) -> bool
    ensures { result ≡ said.is_single verdict.now }
{
    matches!(verdict, Verdict::Single { .. })
}

fn is_pair(verdict: &Verdict) -> bool
    ensures { result ≡ said.is_pair verdict.now }
{
    matches!(verdict, Verdict::Pair { .. })
}

fn is_full(verdict: &Verdict) -> bool
    ensures { result ≡ said.is_full verdict.now }
{
    matches!(verdict, Verdict::Full { .. })
}

fn count_answers(verdicts: &[Verdict]) -> usize
    ensures { result ≡ count_by is_answered verdicts.now }
{
    verdicts.iter().filter(|verdict| is_answer(verdict)).count()
}

fn count_sources(verdicts: &[Verdict]) -> usize
    ensures { result ≡ count_by said.is_source verdicts.now }
{
    verdicts.iter().filter(|verdict| is_source(verdict)).count()
}

fn count_singles(verdicts: &[Verdict]) -> usize
    ensures { result ≡ count_by said.is_single verdicts.now }
{
    verdicts.iter().filter(|verdict| is_single(verdict)).count()
}

fn count_pairs(verdicts: &[Verdict]) -> usize
    ensures { result ≡ count_by said.is_pair verdicts.now }
{
    verdicts.iter().filter(|verdict| is_pair(verdict)).count()
}

fn count_full(verdicts: &[Verdict]) -> usize
    ensures { result ≡ count_by said.is_full verdicts.now }
{
    verdicts.iter().filter(|verdict| is_full(verdict)).count()
}

/// How many verdicts are of each kind.
#[tactic(auto, unfolding(crate::specs::Summary::verdict_lines))]
fn push_verdicts(text: &mut Text, verdicts: &[Verdict]) -> Result<(), NoMemory>
    ensures { OnOk result (text.new ≡ text.old ++ verdict_lines verdicts.now) }
{
    push_count(text, b"answered", count_answers(verdicts) as u64)?;
    push_count(text, b"source", count_sources(verdicts) as u64)?;
    push_count(text, b"single", count_singles(verdicts) as u64)?;
    push_count(text, b"pair", count_pairs(verdicts) as u64)?;
    push_count(text, b"full", count_full(verdicts) as u64)
}

/// The summary of a cube of this size with requests.
#[tactic(auto, unfolding(crate::specs::Summary::summary_text))]
pub(crate) fn summary(
    alloc: Global,
    size: u32,
    core: &Core,
    policy: &Policy,
    requests: &[Request],
) -> Result<Text, NoMemory>
    requires policy { IsPolicy core.now.dims policy.now }
    requires valid { All (λ request. is_request core.now.dims request ≡ true) requests.now }
    requires size { length requests.now ≡ 200 * size }
    ensures { IfOk result (λ text. text ≡ summary_text size (shown core.now policy.now) requests.now) }
{
    let (state, verdicts) = judge_all(alloc, core, policy, requests)?;
    let verdicts = verdicts.as_slice();
    let pay = count_witnesses(alloc, core, policy, &state, requests, verdicts, 0)?;
    let hours = count_witnesses(alloc, core, policy, &state, requests, verdicts, 1)?;
    let mut text = Text::new(alloc);
    push_count(&mut text, b"facts", 20_000 * u64::from(size))?;
    push_count(&mut text, b"points", u64::from(core.len()))?;
    push_count(&mut text, b"queries", requests.len() as u64)?;
    push_verdicts(&mut text, verdicts)?;
    push_count(&mut text, b"witnesses", pay + hours)?;
    Ok(text)
}
