// The answer of a book to a question.
ghost use Rattle.std.specs.Prelude.{◌≡◌, ◌≢◌, ◌<◌, true, None, IsTrue, if◌then◌else◌};
ghost use Rattle.cube_model.specs.declared.outcome.Outcome.TheVariants as outcome;
ghost use Rattle.cube_model.specs.Cores.{shown, world};
ghost use Rattle.cube_io.specs.States.{Gained};
ghost use Rattle.cube_io.specs.Told.{Works, OthersStay};
ghost use Rattle.cube_engine.specs.Books.{book_reply, book_history, AnswersOne, StaysExact, KeepsInHand, IsRenewed};
ghost use Rattle.cube_engine.specs.Kept.{IsKept, IsWithin};
ghost use Rattle.cube_engine.specs.Prepared.{QuestionComes, SettleCause};
ghost use Rattle.cube_engine.specs.Reads.{AskReadsFew};
ghost use Rattle.cube_engine.specs.Worlds.{HidesCells};

use crate::Book;
use crate::prepared::Prepared;
use cube_core::Steps;
use cube_io::Store;
use cube_model::{Fixed, Outcome, Question, Reply};
use std::alloc::Global;
use std::marker::Brand;
use std::sync::ledger::{Blank, Ledger};

// Keeps what is to be kept of a question, behind which its reply stands.
#[tactic(auto, using(crate::proofs::Alone::entered))]
fn conclude_question<S: Store>(
    book: &mut Book,
    store: &mut S,
    question: &Question,
    prepared: Prepared,
) -> (Reply, Outcome)
    requires attached { IsTrue (S.state store.old).attached }
    requires kept { IsTrue (S.state store.old).told → IsKept book.old.core book.old.policy book.old.history book.old.journal ((S.state store.old).logs book.old.journal.log).state }
    requires comes { QuestionComes book.old.core.dims (world book.old.core book.old.policy) book.old.history question.now book.old.waiting prepared }
    ensures reply { result.0 ≡ book_reply result.1 book.old question.now }
    ensures history { book.new.history ≡ book_history result.1 book.old question.now }
    ensures core { book.new.core ≡ book.old.core }
    ensures policy { book.new.policy ≡ book.old.policy }
    ensures log { book.new.journal.log ≡ book.old.journal.log }
    ensures none { book.new.waiting ≡ None }
    ensures cause { SettleCause result.1 (book_history outcome.Given book.old question.now ≢ book.old.history) (S.state store.old).faults (S.state store.new).faults }
    ensures untouched { book_history outcome.Given book.old question.now ≡ book.old.history → (store.new ≡ store.old) × (book.new.journal ≡ book.old.journal) }
    ensures works { Works (S.state store.old) (S.state store.new) (if book.old.journal.failed then 4 else 2) }
    ensures quiet { result.1 ≢ outcome.JournalFault → book.new.journal.failed ≡ true → book.old.journal.failed ≡ true }
    ensures memory { result.1 ≡ outcome.NoMemory → store.new ≡ store.old }
    ensures others { OthersStay book.old.journal.log (S.state store.old) (S.state store.new) }
    ensures kept { IsTrue (S.state store.old).told → IsKept book.old.core book.old.policy book.new.history book.new.journal ((S.state store.new).logs book.old.journal.log).state }
    ensures exact { result.1 ≢ outcome.JournalFault → StaysExact book.old book.new.history (S.state store.old) (S.state store.new) }
    ensures crash { IsTrue (S.state store.old).told → Gained (IsWithin book.old.core book.old.policy book.old.history) ((S.state store.old).logs book.old.journal.log) ((S.state store.new).logs book.old.journal.log) }
    ensures in_hand { IsTrue (S.state store.old).told → KeepsInHand book.old (book_history outcome.Given book.old question.now) ((S.state store.old).logs book.old.journal.log) ((S.state store.new).logs book.old.journal.log) }
    ensures renewed { result.1 ≢ outcome.JournalFault → IsTrue (S.state store.old).told → IsRenewed book.old book.new.history ((S.state store.old).logs book.old.journal.log) ((S.state store.new).logs book.old.journal.log) }
{
    let _question = question;
    match prepared {
        Prepared::Said(reply, outcome) => (reply, outcome),
        Prepared::Waits(reply, line) => match book.keep(store, &line) {
            Ok(()) => (reply, Outcome::Given),
            Err(_) => (Reply::Fixed(Fixed::JournalFault), Outcome::JournalFault),
        },
    }
}

impl Book {
    /// Answers a question: the request is judged, all memory for the reply is taken, a request that enters the history is kept in the
    /// journal, and only then it enters. What became of it is handed back. The reply tells nothing of a protected cell: with the changes for
    /// the cell by the history behind it, the same reply comes.
    pub fn answer<S: Store>(
        &mut self,
        alloc: Global,
        store: &mut S,
        question: &Question,
    ) -> (Reply, Outcome)
        requires none { self.old.waiting ≡ None }
        requires attached { IsTrue (S.state store.old).attached }
        requires kept { IsTrue (S.state store.old).told → IsKept self.old.core self.old.policy self.old.history self.old.journal ((S.state store.old).logs self.old.journal.log).state }
        ensures answers { AnswersOne self.old self.new question.now result.0 result.1 (S.state store.old) (S.state store.new) }
        ensures two_worlds { HidesCells self.old self.new question.now result.0 result.1 }

        // A question that adds nothing to the history leaves the store alone, and so does want of memory.
        ensures untouched { book_history outcome.Given self.old question.now ≡ self.old.history → store.new ≡ store.old }
        ensures memory { result.1 ≡ outcome.NoMemory → store.new ≡ store.old }
    {
        self.answer_over::<S, Brand>(alloc, store, question, Blank::new(1))
    }

    // Answers a question with a count that is dropped.
    fn answer_over<S: Store, L: Ledger>(
        &mut self,
        alloc: Global,
        store: &mut S,
        question: &Question,
        blank: Blank,
    ) -> (Reply, Outcome)
        requires name { blank.name ≡ L.name }
        requires parts { blank.parts ≡ L.parts }
        requires some { 0 < L.parts }
        requires none { self.old.waiting ≡ None }
        requires attached { IsTrue (S.state store.old).attached }
        requires kept { IsTrue (S.state store.old).told → IsKept self.old.core self.old.policy self.old.history self.old.journal ((S.state store.old).logs self.old.journal.log).state }
        ensures answers { AnswersOne self.old self.new question.now result.0 result.1 (S.state store.old) (S.state store.new) }
        ensures two_worlds { HidesCells self.old self.new question.now result.0 result.1 }
        ensures untouched { book_history outcome.Given self.old question.now ≡ self.old.history → store.new ≡ store.old }
        ensures memory { result.1 ≡ outcome.NoMemory → store.new ≡ store.old }
    {
        let mut steps = Steps::<L>::new(blank);
        self.answer_counted(alloc, store, question, &mut steps)
    }

    /// Answers a question, and counts what is read of the cube.
    pub fn answer_counted<S: Store, L: Ledger>(
        &mut self,
        alloc: Global,
        store: &mut S,
        question: &Question,
        steps: &mut Steps<L>,
    ) -> (Reply, Outcome)
        requires none { self.old.waiting ≡ None }
        requires attached { IsTrue (S.state store.old).attached }
        requires kept { IsTrue (S.state store.old).told → IsKept self.old.core self.old.policy self.old.history self.old.journal ((S.state store.old).logs self.old.journal.log).state }
        ensures answers { AnswersOne self.old self.new question.now result.0 result.1 (S.state store.old) (S.state store.new) }
        ensures two_worlds { HidesCells self.old self.new question.now result.0 result.1 }

        // A question that adds nothing to the history leaves the store alone, and so does want of memory.
        ensures untouched { book_history outcome.Given self.old question.now ≡ self.old.history → store.new ≡ store.old }
        ensures memory { result.1 ≡ outcome.NoMemory → store.new ≡ store.old }

        // A request on a lattice measure that adds nothing to the history is answered from the source cuboid.
        ensures few_reads { AskReadsFew self.old.core.dims (shown self.old.core self.old.policy) self.old.history question.now steps.old steps.new }
    {
        let prepared = self.prepare(alloc, question, steps);
        let told = conclude_question(self, store, question, prepared);
        let _rules = self.core();
        told
    }
}
