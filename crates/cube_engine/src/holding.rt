// One cube with its policy and its history, and what is kept of that to judge and to answer by.
ghost use Rattle.std.specs.Prelude.{◌≡◌, ◌≤◌, ◌++◌, true, false, None, length, IfOk, OnErr};
ghost use Rattle.cube_model.specs.declared.verdict.Verdict.TheVariants as verdicts;
ghost use Rattle.cube_model.specs.Cores.{IsCore, shown};
ghost use Rattle.cube_model.specs.Entries.{requests};
ghost use Rattle.cube_model.specs.Policies.{IsPolicy};
ghost use Rattle.cube_model.specs.Verdicts.{verdict as verdict_of, IsAdmissible};
ghost use Rattle.cube_admit.specs.States.{waiting as waiting_in, waits_for, IsStateOf};
ghost use Rattle.cube_query.specs.Canonical.{is_request};
ghost use Rattle.cube_rollup.specs.Rollups.{entry_of};
ghost use Rattle.cube_engine.specs.Books.{that_waits};

use crate::SharedCore;
use crate::rolling::{hold_next, roll_all};
use cube_admit::State;
use cube_core::{Core, Steps};
use cube_model::{NoMemory, Policy, Request, Verdict};
use cube_rollup::Rollups;
use std::alloc::Global;
use std::marker::{Brand, Model};
use std::sync::ledger::{Blank, Ledger};

/// One cube with its policy, its history, and the cuboid at the source of each lattice measure, from which its requests are
/// answered. A request that is answered first waits, and enters the history once its line is kept.
#[derive(Drop)]
pub(crate) struct Holding {
    pub(crate) core: SharedCore,
    pub(crate) policy: Policy,
    pub(crate) state: State,
    pub(crate) rollups: Rollups,
}

impl Model for Holding {
    ghost use Rattle.std.specs.Prelude.{◌≡◌};
    ghost use Rattle.cube_model.specs.Cores.{shown};
    ghost use Rattle.cube_model.specs.Policies.{IsPolicy};
    ghost use Rattle.cube_admit.specs.States.{waiting as waiting_in, IsStateOf};
    ghost use Rattle.cube_rollup.specs.Rollups.{RollupsStand};
    ghost use Rattle.cube_engine.specs.Books as said;

    ghost Value = { said.Holding };

    ghost view = { λ b. record { core = b.core; policy = b.policy; history = b.state.history; waiting = waiting_in b.state } };

    ghost invariant = { λ b. IsPolicy b.core.dims b.policy × IsStateOf (shown b.core b.policy) b.state × RollupsStand b.core b.policy b.state.history (waiting_in b.state) b.rollups };
}

impl Holding {
    /// A cube under a policy, with the history of a state behind which nothing waits.
    pub(crate) fn start(
        alloc: Global,
        core: SharedCore,
        policy: Policy,
        state: State,
    ) -> Result<Holding, NoMemory>
        requires policy { IsPolicy core.dims policy }
        requires stands { IsStateOf (shown core policy) state }
        requires none { state.pending ≡ None }
        ensures { IfOk result (λ holding. holding ≡ record { core = core; policy = policy; history = state.history; waiting = None }) }
    {
        let rollups = roll_all::<Brand>(alloc, core.get(), &policy, &state, Blank::new(1))?;
        Ok(Holding {
            core,
            policy,
            state,
            rollups,
        })
    }

    /// The core, and what always holds of a cube with its policy and its history.
    pub(crate) fn core(&self) -> &Core
        ensures core { result.now ≡ self.now.core }
        ensures rules { IsCore self.now.core }
        ensures policy { IsPolicy self.now.core.dims self.now.policy }
        ensures admissible { IsAdmissible (shown self.now.core self.now.policy) self.now.history }
        ensures few { length (requests self.now.history) ≤ 16384 }
    {
        let _few = self.state.history();
        let core = self.core.get();
        let _rules = core.dims();
        core
    }

    /// The policy.
    pub(crate) fn policy(&self) -> &Policy
        ensures policy { result.now ≡ self.now.policy }
        ensures rules { IsPolicy self.now.core.dims self.now.policy }
    {
        &self.policy
    }

    /// The history and what is kept of it.
    pub(crate) fn state(&self) -> &State
        ensures history { result.now.history ≡ self.now.history }
        ensures stands { IsStateOf (shown self.now.core self.now.policy) result.now }
        ensures waits { waiting_in result.now ≡ self.now.waiting }
    {
        &self.state
    }

    /// Judges a request. Where it waits from then on, the cuboid that it makes is there too.
    pub(crate) fn judge<L: Ledger>(
        &mut self,
        alloc: Global,
        request: &Request,
        steps: &mut Steps<L>,
    ) -> Result<Verdict, NoMemory>
        requires none { self.old.waiting ≡ None }
        requires request { is_request self.old.core.dims request.now ≡ true }
        ensures verdict { IfOk result (λ verdict. verdict ≡ verdict_of (shown self.old.core self.old.policy) self.old.history request.now) }
        ensures waits { IfOk result (λ verdict. self.new.waiting ≡ waits_for verdict request.now) }
        ensures err { OnErr result (self.new.waiting ≡ None) }
        ensures same { self.new ≡ that_waits self.new.waiting self.old }
        ensures few { verdict_of (shown self.old.core self.old.policy) self.old.history request.now ≡ verdicts.Answer false → steps.new ≡ steps.old }
    {
        let verdict = self
            .state
            .verdict(alloc, self.core.get(), &self.policy, request)?;
        let held = hold_next(
            alloc,
            self.core.get(),
            &self.policy,
            &self.state,
            &mut self.rollups,
            steps,
        );
        if held.is_err() {
            self.state.drop_pending();
            self.rollups.drop_next();
            return Err(NoMemory);
        }
        Ok(verdict)
    }

    /// The verdict on a request behind the history. It doesn't wait.
    pub(crate) fn verdict(&mut self, alloc: Global, request: &Request) -> Result<Verdict, NoMemory>
        requires none { self.old.waiting ≡ None }
        requires request { is_request self.old.core.dims request.now ≡ true }
        ensures verdict { IfOk result (λ verdict. verdict ≡ verdict_of (shown self.old.core self.old.policy) self.old.history request.now) }
        ensures same { self.new ≡ self.old }
    {
        let verdict = self
            .state
            .verdict(alloc, self.core.get(), &self.policy, request);
        self.state.drop_pending();
        verdict
    }

    /// Lets the request that waits enter the history.
    pub(crate) fn commit(&mut self)
        ensures { self.new ≡ record { core = self.old.core; policy = self.old.policy; history = self.old.history ++ entry_of self.old.waiting; waiting = None } }
    {
        self.state.commit();
        self.rollups.commit();
    }

    /// Lets the request that waits go.
    pub(crate) fn let_go(&mut self)
        ensures { self.new ≡ that_waits None self.old }
    {
        self.state.drop_pending();
        self.rollups.drop_next();
    }
}
