// All that is told of a cube before anything is asked, or behind a history.
ghost use Rattle.std.specs.Prelude.{◌≡◌, ◌++◌, IfOk};
ghost use Rattle.cube_model.specs.Cores.{shown};
ghost use Rattle.cube_model.specs.Policies.{IsPolicy};
ghost use Rattle.cube_model.specs.Verdicts.{IsAdmissible};
ghost use Rattle.cube_admit.specs.States.{IsStateOf};
ghost use Rattle.cube_advise.specs.Telling.{HasFewLines, words_for, first_text, later_text};

use crate::{Workload, advice, advice_behind, workload_behind, workload_text};
use cube_core::Core;
use cube_model::{Entry, NoMemory, Policy, Text};
use std::alloc::Global;

// A text, and behind it the words for the lines of a workload, where there is one.
fn with_words(
    alloc: Global,
    core: &Core,
    policy: &Policy,
    text: Text,
    behind: Workload,
    workload: &Option<Text>,
) -> Result<Text, NoMemory>
    requires policy { IsPolicy core.now.dims policy.now }
    requires stands { IsStateOf (shown core.now policy.now) behind }
    requires few { HasFewLines workload.now }
    ensures { IfOk result (λ all. all ≡ text ++ words_for core.now policy.now behind.history workload.now) }
{
    let Some(lines) = workload else {
        return Ok(text);
    };
    let words = workload_text(alloc, core, policy, behind, lines.as_slice())?;
    let mut text = text;
    text.extend(words.as_slice())?;
    Ok(text)
}

/// All that is told of a cube before anything is asked: what can be released, and the words for the lines of a workload, where there is
/// one.
pub fn told_first(
    alloc: Global,
    core: &Core,
    policy: &Policy,
    workload: &Option<Text>,
) -> Result<Text, NoMemory>
    requires policy { IsPolicy core.now.dims policy.now }
    requires few { HasFewLines workload.now }
    ensures { IfOk result (λ text. text ≡ first_text core.now policy.now workload.now) }
{
    let behind = Workload::new(alloc, core, policy)?;
    let text = advice(alloc, core, policy, behind.state())?;
    with_words(alloc, core, policy, text, behind, workload)
}

/// All that is told of a cube behind a history: what can be released, how much the history holds, and the words for the lines of a
/// workload, where there is one.
pub fn told_later(
    alloc: Global,
    core: &Core,
    policy: &Policy,
    history: &[Entry],
    workload: &Option<Text>,
) -> Result<Text, NoMemory>
    requires policy { IsPolicy core.now.dims policy.now }
    requires admissible { IsAdmissible (shown core.now policy.now) history.now }
    requires few { HasFewLines workload.now }
    ensures { IfOk result (λ text. text ≡ later_text core.now policy.now history.now workload.now) }
{
    let behind = workload_behind(alloc, core, policy, history)?;
    let text = advice_behind(alloc, core, policy, behind.state())?;
    with_words(alloc, core, policy, text, behind, workload)
}
