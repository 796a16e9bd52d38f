// One cube with its policy, its history, and the log that keeps it.
ghost use Rattle.std.specs.Prelude.{◌≡◌, ◌≤◌, ◌+◌, ◌^◌, ◌++◌, true, false, None, Ok, length, IsTrue, IfOk, OnOk, IfErr, OnErr, if◌then◌else◌};
ghost use Rattle.cube_model.specs.declared.ask.Question.TheVariants as asked;
ghost use Rattle.cube_model.specs.Cores.{shown, world};
ghost use Rattle.cube_model.specs.Policies.{IsPolicy};
ghost use Rattle.cube_model.specs.Verdicts.{verdict as verdict_of};
ghost use Rattle.cube_admit.specs.States.{waiting as waiting_in, IsStateOf};
ghost use Rattle.cube_answers.specs.VerdictText.{IsVerdict};
ghost use Rattle.cube_io.specs.Causes.{HasCause};
ghost use Rattle.cube_io.specs.States.{Gained};
ghost use Rattle.cube_io.specs.Told.{Works, OthersStay};
ghost use Rattle.cube_journal.specs.Keeping.{IsInRecovery};
ghost use Rattle.cube_query.specs.Canonical.{is_request};
ghost use Rattle.cube_engine.specs.Books.{IsWaiting, entry_waiting, with_waiting, KeepsInHand};
ghost use Rattle.cube_engine.specs.Changes.{Refuses, changes_for, text_of, twin_for};
ghost use Rattle.cube_engine.specs.Compacting.{compacted_text};
ghost use Rattle.cube_engine.specs.Kept.{history_of, IsKept, IsExact, IsWithin};
ghost use Rattle.cube_engine.specs.Opening.{StartCause, IsStartFault};
ghost use Rattle.cube_engine.specs.Prepared.{QuestionComes};
ghost use Rattle.cube_engine.specs.Reads.{AskReadsFew};
ghost use Rattle.cube_engine.specs.Worlds.{IsRuled};

use crate::holding::Holding;
use crate::opening::open_log;
use crate::prepared::Prepared;
use crate::witness::NoChanges;
use crate::{SharedCore, StartFault};
use cube_admit::State;
use cube_core::{Core, Steps};
use cube_io::{Failed, Store};
use cube_journal::{Journal, Line};
use cube_model::{NoMemory, Policy, Question, Request, Text, Verdict};
use std::alloc::Global;
use std::marker::Model;
use std::sync::ledger::Ledger;

/// One cube with its policy and its history, and the journal of that.
#[derive(Drop)]
pub struct Book {
    holding: Holding,
    journal: Journal,
}

impl Model for Book {
    ghost use Rattle.std.specs.Prelude.{◌≤◌, ◌+◌, ◌*◌, ◌^◌, length};
    ghost use Rattle.cube_model.specs.Entries.{requests};
    ghost use Rattle.cube_engine.specs.Books as said;

    ghost Value = { said.Book };

    ghost view = { λ b. record { core = b.holding.core; policy = b.holding.policy; history = b.holding.history; waiting = b.holding.waiting; journal = b.journal } };

    // A journal has at most 2^14 bytes for each request, behind those that it was opened with.
    ghost invariant = { λ b. b.journal.kept ≤ 2 ^ 28 + 2 ^ 14 * length (requests b.holding.history) };
}

impl Book {
    /// The book of a core under a policy, with the history that the log recovers.
    pub fn start<S: Store>(
        alloc: Global,
        core: SharedCore,
        policy: Policy,
        store: &mut S,
        log: u32,
    ) -> Result<Book, StartFault>
        requires attached { IsTrue (S.state store.old).attached }
        requires policy { IsPolicy core.dims policy }
        ensures cause { StartCause (S.state store.old).faults (S.state store.new).faults result }
        ensures works { Works (S.state store.old) (S.state store.new) 6 }
        ensures others { OthersStay log (S.state store.old) (S.state store.new) }
        ensures history { IsTrue (S.state store.old).told → IfOk result (λ book. history_of core policy ((S.state store.old).logs log).state.now ≡ Ok book.history) }
        ensures fault { IsTrue (S.state store.old).told → IfErr result (IsStartFault (history_of core policy ((S.state store.old).logs log).state.now) ((S.state store.old).logs log).state.now) }
        ensures kept { IsTrue (S.state store.old).told → IfOk result (λ book. IsKept core policy book.history book.journal ((S.state store.new).logs log).state) }
        ensures exact { IsTrue (S.state store.old).told → IfOk result (λ book. IsExact core policy book.history ((S.state store.new).logs log).state) }
        ensures crash { IsTrue (S.state store.old).told → Gained (IsInRecovery (history_of core policy) ((S.state store.old).logs log).state) ((S.state store.old).logs log) ((S.state store.new).logs log) }
        ensures log { IfOk result (λ book. book.journal.log ≡ log) }
        ensures quiet { IfOk result (λ book. book.journal.failed ≡ false) }
        ensures core { IfOk result (λ book. book.core ≡ core) }
        ensures policy { IfOk result (λ book. book.policy ≡ policy) }
        ensures none { IfOk result (λ book. book.waiting ≡ None) }
    {
        let (journal, state) = match open_log(alloc, core.get(), &policy, store, log) {
            Ok(opened) => opened,
            Err(fault) => return Err(fault),
        };
        match Holding::start(alloc, core, policy, state) {
            Ok(holding) => Ok(Book { holding, journal }),
            Err(_) => Err(StartFault::NoMemory),
        }
    }

    /// The core.
    pub fn core(&self) -> &Core
        ensures core { result.now ≡ self.now.core }
        ensures rules { IsRuled self.now }
    {
        self.holding.core()
    }

    /// The policy.
    pub fn policy(&self) -> &Policy
        ensures policy { result.now ≡ self.now.policy }
        ensures rules { IsPolicy self.now.core.dims self.now.policy }
    {
        self.holding.policy()
    }

    /// The history and what is kept of it.
    #[tactic(auto, using(crate::proofs::KeepsAll::pending_is))]
    pub fn state(&self) -> &State
        ensures history { result.now.history ≡ self.now.history }
        ensures stands { IsStateOf (shown self.now.core self.now.policy) result.now }
        ensures waits { waiting_in result.now ≡ self.now.waiting }
        ensures none { self.now.waiting ≡ None → result.now.pending ≡ None }
    {
        self.holding.state()
    }

    /// The verdict on a request behind the history, which it doesn't enter.
    pub fn verdict(&mut self, alloc: Global, request: &Request) -> Result<Verdict, NoMemory>
        requires none { self.old.waiting ≡ None }
        requires request { is_request self.old.core.dims request.now ≡ true }
        ensures verdict { IfOk result (λ verdict. verdict ≡ verdict_of (shown self.old.core self.old.policy) self.old.history request.now) }
        ensures there { IfOk result (IsVerdict self.old.core) }
        ensures same { self.new ≡ self.old }
    {
        let _rules = self.holding.core();
        self.holding.verdict(alloc, request)
    }

    /// The changes that hide the cell that a text names, in words.
    pub fn changes_text(&self, alloc: Global, text: &[u8]) -> Result<Text, NoChanges>
        requires { self.now.waiting ≡ None }
        ensures ok { IfOk result (λ words. text_of self.now.core.dims (shown self.now.core self.now.policy) (changes_for self.now.core.dims (shown self.now.core self.now.policy) self.now.history text.now) ≡ Ok words) }
        ensures err { IfErr result (λ why. Refuses why (text_of self.now.core.dims (shown self.now.core self.now.policy) (changes_for self.now.core.dims (shown self.now.core self.now.policy) self.now.history text.now))) }
    {
        self.holding.changes_text(alloc, text)
    }

    /// The fact file of the twin for the cell that a text names.
    pub fn twin_text(&self, alloc: Global, text: &[u8]) -> Result<Text, NoChanges>
        requires { self.now.waiting ≡ None }
        ensures ok { IfOk result (λ file. twin_for self.now.core self.now.policy self.now.history text.now ≡ Ok file) }
        ensures err { IfErr result (λ why. Refuses why (twin_for self.now.core self.now.policy self.now.history text.now)) }
    {
        self.holding.twin_text(alloc, text)
    }

    /// The text of a journal that holds what the history holds, by no request.
    pub fn compacted_text(&self, alloc: Global) -> Result<Text, NoMemory>
        requires { self.now.waiting ≡ None }
        ensures { IfOk result (λ text. text ≡ compacted_text self.now.core self.now.policy self.now.history) }
    {
        self.holding.compacted_text(alloc)
    }

    // What a query comes to.
    pub(crate) fn query<L: Ledger>(
        &mut self,
        alloc: Global,
        text: &[u8],
        steps: &mut Steps<L>,
    ) -> Prepared
        requires { self.old.waiting ≡ None }
        ensures comes { QuestionComes self.old.core.dims (world self.old.core self.old.policy) self.old.history (asked.Query text.now) self.new.waiting result }
        ensures same { self.new ≡ with_waiting self.new.waiting self.old }
        ensures few { AskReadsFew self.old.core.dims (shown self.old.core self.old.policy) self.old.history (asked.Query text.now) steps.old steps.new }
    {
        self.holding.query(alloc, text, steps)
    }

    // What a question for the changes that hide a cell comes to.
    pub(crate) fn witness(&mut self, alloc: Global, text: &[u8]) -> Prepared
        requires { self.old.waiting ≡ None }
        ensures comes { QuestionComes self.old.core.dims (world self.old.core self.old.policy) self.old.history (asked.Witness text.now) self.new.waiting result }
        ensures same { self.new ≡ with_waiting self.new.waiting self.old }
    {
        self.holding.witness(alloc, text)
    }

    // What a question for the public shape comes to.
    pub(crate) fn shape(&mut self, alloc: Global) -> Prepared
        requires { self.old.waiting ≡ None }
        ensures comes { QuestionComes self.old.core.dims (world self.old.core self.old.policy) self.old.history asked.Shape self.new.waiting result }
        ensures same { self.new ≡ with_waiting self.new.waiting self.old }
    {
        self.holding.shape(alloc)
    }

    // What a question comes to.
    pub(crate) fn prepare<L: Ledger>(
        &mut self,
        alloc: Global,
        question: &Question,
        steps: &mut Steps<L>,
    ) -> Prepared
        requires { self.old.waiting ≡ None }
        ensures comes { QuestionComes self.old.core.dims (world self.old.core self.old.policy) self.old.history question.now self.new.waiting result }
        ensures same { self.new ≡ with_waiting self.new.waiting self.old }
        ensures few { AskReadsFew self.old.core.dims (shown self.old.core self.old.policy) self.old.history question.now steps.old steps.new }
    {
        match question {
            Question::Query(text) => self.query(alloc, text.as_slice(), steps),
            Question::Witness(text) => self.witness(alloc, text.as_slice()),
            Question::Shape => self.shape(alloc),
        }
    }

    // Keeps the line of the request that waits, and only then lets it enter the history. After a failure it waits no longer.
    pub(crate) fn keep<S: Store>(&mut self, store: &mut S, line: &Line) -> Result<(), Failed>
        requires attached { IsTrue (S.state store.old).attached }
        requires kept { IsTrue (S.state store.old).told → IsKept self.old.core self.old.policy self.old.history self.old.journal ((S.state store.old).logs self.old.journal.log).state }
        requires waits { IsWaiting self.old line.now }
        ensures cause { HasCause (S.state store.old).faults (S.state store.new).faults result }
        ensures works { Works (S.state store.old) (S.state store.new) (if self.old.journal.failed then 4 else 2) }
        ensures others { OthersStay self.old.journal.log (S.state store.old) (S.state store.new) }
        ensures ok { OnOk result (self.new.history ≡ self.old.history ++ entry_waiting self.old) }
        ensures quiet { OnOk result (self.new.journal.failed ≡ false) }
        ensures err { OnErr result (self.new.history ≡ self.old.history) }
        ensures core { self.new.core ≡ self.old.core }
        ensures policy { self.new.policy ≡ self.old.policy }
        ensures log { self.new.journal.log ≡ self.old.journal.log }
        ensures none { self.new.waiting ≡ None }
        ensures kept { IsTrue (S.state store.old).told → IsKept self.old.core self.old.policy self.new.history self.new.journal ((S.state store.new).logs self.old.journal.log).state }
        ensures exact { IsTrue (S.state store.old).told → OnOk result (IsExact self.old.core self.old.policy self.new.history ((S.state store.new).logs self.old.journal.log).state) }
        ensures crash { IsTrue (S.state store.old).told → Gained (IsWithin self.old.core self.old.policy self.old.history) ((S.state store.old).logs self.old.journal.log) ((S.state store.new).logs self.old.journal.log) }
        ensures in_hand { IsTrue (S.state store.old).told → KeepsInHand self.old (self.old.history ++ entry_waiting self.old) ((S.state store.old).logs self.old.journal.log) ((S.state store.new).logs self.old.journal.log) }
    {
        let _rules = self.holding.core();
        let _short = line.as_slice();
        match self.journal.keep(store, line) {
            Ok(()) => {
                self.holding.commit();
                Ok(())
            }
            Err(failed) => {
                self.holding.let_go();
                Err(failed)
            }
        }
    }
}
