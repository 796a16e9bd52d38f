// The history of a log: its entries, judged one behind another.
ghost use Rattle.std.specs.Prelude.{◌≡◌, ◌⊎◌, ◌≢◌, ◌≤◌, ◌+◌, ◌^◌, [], false, None, Ok, Err, length, IsTrue, IfOk, OnOk, IfErr};
ghost use Rattle.cube_model.specs.Cores.{shown};
ghost use Rattle.cube_model.specs.Cubes.{Each};
ghost use Rattle.cube_model.specs.Logs.{left};
ghost use Rattle.cube_model.specs.Logs.Left.{Leaves};
ghost use Rattle.cube_model.specs.Policies.{IsPolicy};
ghost use Rattle.cube_admit.specs.States.{IsStateOf};
ghost use Rattle.cube_io.specs.States.{Gained};
ghost use Rattle.cube_io.specs.Told.{Works, OthersStay};
ghost use Rattle.cube_journal.specs.Keeping.{IsInRecovery};
ghost use Rattle.cube_journal.specs.Sound.{IsSound};
ghost use Rattle.cube_engine.specs.declared.fault.StartFault.TheVariants as fault;
ghost use Rattle.cube_engine.specs.Kept.{digest_for, first_entry, by_left, history_of, IsKept, IsExact};
ghost use Rattle.cube_engine.specs.Opening.{StartCause, IsStartFault};

use crate::StartFault;
use crate::fault::of_open;
use cube_admit::State;
use cube_core::Core;
use cube_io::Store;
use cube_journal::{Digest, Journal, digest_of, public_text};
use cube_model::{Entry, NoMemory, Policy, Taken};
use std::alloc::Global;

impl From<NoMemory> for StartFault {
    ghost from_gives = { λ _ e. e ≡ fault.NoMemory };

    fn from(_error: NoMemory) -> StartFault {
        StartFault::NoMemory
    }
}

/// The digest of what is public of a cube.
pub(crate) fn digest_for(alloc: Global, core: &Core, policy: &Policy) -> Result<Digest, NoMemory>
    requires { IsPolicy core.now.dims policy.now }
    ensures { IfOk result (λ digest. digest ≡ digest_for core.now policy.now) }
{
    let text = public_text(alloc, core.dims(), policy, core.shape())?;
    Ok(digest_of(text.as_slice()))
}

// Judges the entries of a log one behind another.
fn judge_all(
    alloc: Global,
    core: &Core,
    policy: &Policy,
    entries: &[Entry],
) -> Result<State, StartFault>
    requires policy { IsPolicy core.now.dims policy.now }
    requires sound { Each (IsSound core.now.dims policy.now (length core.now.shape.points)) entries.now }
    ensures left { IfOk result (λ state. left (shown core.now policy.now) [] first_entry entries.now ≡ Leaves state.history) }
    ensures none { IfOk result (λ state. state.pending ≡ None) }
    ensures stands { IfOk result (λ state. IsStateOf (shown core.now policy.now) state) }
    ensures err { IfErr result (λ e. (e ≡ fault.NoMemory) ⊎ (by_left (left (shown core.now policy.now) [] first_entry entries.now) ≡ Err e)) }
{
    let mut state = State::new(alloc, core, policy)?;
    'entries: for (number, entry) in entries.iter().enumerate() {
        if state.take(alloc, core, policy, entry)? == Taken::Refused {
            let line = number as u64 + 2;
            return Err(StartFault::Inadmissible { line });
        }
    }
    Ok(state)
}

/// Opens a log of a cube as its journal, and judges what it recovers.
pub(crate) fn open_log<S: Store>(
    alloc: Global,
    core: &Core,
    policy: &Policy,
    store: &mut S,
    log: u32,
) -> Result<(Journal, State), StartFault>
    requires attached { IsTrue (S.state store.old).attached }
    requires policy { IsPolicy core.now.dims policy.now }
    ensures cause { StartCause (S.state store.old).faults (S.state store.new).faults result }
    ensures works { Works (S.state store.old) (S.state store.new) 6 }
    ensures others { OthersStay log (S.state store.old) (S.state store.new) }
    ensures history { IsTrue (S.state store.old).told → IfOk result (λ opened. history_of core.now policy.now ((S.state store.old).logs log).state.now ≡ Ok opened.1.history) }
    ensures fault { IsTrue (S.state store.old).told → IfErr result (IsStartFault (history_of core.now policy.now ((S.state store.old).logs log).state.now) ((S.state store.old).logs log).state.now) }
    ensures kept { IsTrue (S.state store.old).told → IfOk result (λ opened. IsKept core.now policy.now opened.1.history opened.0 ((S.state store.new).logs log).state) }
    ensures exact { IsTrue (S.state store.old).told → IfOk result (λ opened. IsExact core.now policy.now opened.1.history ((S.state store.new).logs log).state) }
    ensures crash { IsTrue (S.state store.old).told → Gained (IsInRecovery (history_of core.now policy.now) ((S.state store.old).logs log).state) ((S.state store.old).logs log) ((S.state store.new).logs log) }
    ensures log { IfOk result (λ opened. opened.0.log ≡ log) }
    ensures quiet { IfOk result (λ opened. opened.0.failed ≡ false) }
    ensures within { IfOk result (λ opened. opened.0.kept ≤ 2 ^ 28) }
    ensures none { IfOk result (λ opened. opened.1.pending ≡ None) }
    ensures stands { IfOk result (λ opened. IsStateOf (shown core.now policy.now) opened.1) }
{
    let digest = digest_for(alloc, core, policy)?;
    let _digits = digest.digits();
    let places = core.len();
    let opened = Journal::recover(alloc, store, log, &digest, core.dims(), policy, places);
    let (journal, entries) = match opened {
        Ok(opened) => opened,
        Err(fault) => return Err(of_open(fault)),
    };
    match judge_all(alloc, core, policy, entries.as_slice()) {
        Ok(state) => Ok((journal, state)),
        Err(fault) => Err(fault),
    }
}
