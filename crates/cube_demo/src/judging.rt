// Requests that are judged one behind another.
ghost use Rattle.std.specs.Prelude.{◌≡◌, [], true, None, IfOk};
ghost use Rattle.std.specs.List.{All};
ghost use Rattle.cube_model.specs.Cores.{shown};
ghost use Rattle.cube_model.specs.Policies.{IsPolicy};
ghost use Rattle.cube_model.specs.Requests.{is_valid};
ghost use Rattle.cube_model.specs.Runs.{entered};
ghost use Rattle.cube_model.specs.Verdicts.{verdict};
ghost use Rattle.cube_admit.specs.States.{IsStateOf};
ghost use Rattle.cube_query.specs.Canonical.{is_request};
ghost use Rattle.cube_demo.specs.Counting.{verdicts, history_behind};

use cube_admit::State;
use cube_core::Core;
use cube_model::{Items, NoMemory, Policy, Request, Verdict};
use std::alloc::Global;

/// The verdict on a request. A fresh answer enters the history.
fn judge(
    alloc: Global,
    core: &Core,
    policy: &Policy,
    state: &mut State,
    request: &Request,
) -> Result<Verdict, NoMemory>
    requires policy { IsPolicy core.now.dims policy.now }
    requires stands { IsStateOf (shown core.now policy.now) state.old }
    requires valid { is_valid (shown core.now policy.now) request.now ≡ true }
    ensures verdict { IfOk result (λ judged. judged ≡ verdict (shown core.now policy.now) state.old.history request.now) }
    ensures history { IfOk result (λ judged. state.new.history ≡ entered state.old.history request.now judged) }
    ensures none { state.new.pending ≡ None }
    ensures stands { IsStateOf (shown core.now policy.now) state.new }
{
    let verdict = state.verdict(alloc, core, policy, request)?;
    state.commit();
    Ok(verdict)
}

/// The verdicts on requests from the empty history on, and what they leave.
pub(crate) fn judge_all(
    alloc: Global,
    core: &Core,
    policy: &Policy,
    requests: &[Request],
) -> Result<(State, Items<Verdict>), NoMemory>
    requires policy { IsPolicy core.now.dims policy.now }
    requires valid { All (λ request. is_request core.now.dims request ≡ true) requests.now }
    ensures verdicts { IfOk result (λ judged. judged.1 ≡ verdicts (shown core.now policy.now) [] requests.now) }
    ensures history { IfOk result (λ judged. judged.0.history ≡ history_behind (shown core.now policy.now) [] requests.now) }
    ensures none { IfOk result (λ judged. judged.0.pending ≡ None) }
    ensures stands { IfOk result (λ judged. IsStateOf (shown core.now policy.now) judged.0) }
{
    let mut state = State::new(alloc, core, policy)?;
    let mut verdicts = Items::new(alloc);
    'requests: for request in requests {
        verdicts.push(judge(alloc, core, policy, &mut state, request)?)?;
    }
    Ok((state, verdicts))
}
