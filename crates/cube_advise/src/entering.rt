// A workload behind a history that is given by its entries.
ghost use Rattle.std.specs.Prelude.{◌≡◌, IfOk};
ghost use Rattle.cube_model.specs.Cores.{shown};
ghost use Rattle.cube_model.specs.Policies.{IsPolicy};
ghost use Rattle.cube_model.specs.Verdicts.{IsAdmissible};
ghost use Rattle.cube_admit.specs.States.{IsStateOf};

use crate::Workload;
use cube_admit::State;
use cube_core::Core;
use cube_model::{Entry, NoMemory, Policy};
use std::alloc::Global;

/// A workload behind the history of these entries, each of which is taken behind those before it.
pub fn workload_behind(
    alloc: Global,
    core: &Core,
    policy: &Policy,
    history: &[Entry],
) -> Result<Workload, NoMemory>
    requires policy { IsPolicy core.now.dims policy.now }
    requires admissible { IsAdmissible (shown core.now policy.now) history.now }
    ensures history { IfOk result (λ workload. workload.history ≡ history.now) }
    ensures stands { IfOk result (λ workload. IsStateOf (shown core.now policy.now) workload) }
{
    let mut state = State::new(alloc, core, policy)?;
    'entries: for entry in history {
        state.take(alloc, core, policy, entry)?;
    }
    Ok(Workload::behind(state))
}
