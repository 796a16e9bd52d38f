// What a question comes to, before anything is kept: the reply, and for a request that enters the history its line.
ghost use Rattle.std.specs.Prelude.{◌≡◌, true, None, is_some, IfOk, OnErr};
ghost use Rattle.cube_model.specs.declared.ask.Question.TheVariants as question;
ghost use Rattle.cube_model.specs.declared.policy.Policy.{Policy};
ghost use Rattle.cube_model.specs.declared.reply.Kind.TheVariants as kind;
ghost use Rattle.cube_model.specs.declared.reply.Reply.TheVariants as made;
ghost use Rattle.cube_model.specs.Cores.{shown, world};
ghost use Rattle.cube_model.specs.Requests.{answer as answer_of};
ghost use Rattle.cube_model.specs.Verdicts.{verdict as verdict_of};
ghost use Rattle.cube_model.specs.declared.verdict.Verdict.TheVariants as verdicts;
ghost use Rattle.cube_admit.specs.States.{waits_for};
ghost use Rattle.cube_journal.specs.RequestLines.{request_line};
ghost use Rattle.cube_query.specs.Canonical.{is_request};
ghost use Rattle.cube_answers.specs.AnswerText.{answer_text as answer_words};
ghost use Rattle.cube_engine.specs.Books.{is_answer, that_waits};
ghost use Rattle.cube_engine.specs.Prepared.{given_as, Comes, QuestionComes};
ghost use Rattle.cube_engine.specs.Reads.{AskReadsFew, ReadsFew};
ghost use Rattle.cube_answers.specs.VerdictText.{verdict_text as verdict_words, IsVerdict};

use crate::holding::Holding;
use crate::rolling::answer_request;
use cube_answers::verdict_text;
use cube_core::{Core, Steps};
use cube_journal::{Line, line_of};
use cube_model::{Fixed, Kind, NoMemory, Outcome, Reply, Request, Verdict};
use cube_query::{RequestFault, read_request};
use std::alloc::Global;
use std::sync::ledger::Ledger;

/// What a question comes to.
#[derive(Drop)]
pub(crate) enum Prepared {
    /// The reply, where nothing is to be kept, and what became of the question.
    Said(Reply, Outcome),
    /// The reply to a request that waits to enter the history, and the line that keeps it.
    Waits(Reply, Line),
}

// Whether the request is answered.
fn answers(verdict: &Verdict) -> bool
    ensures { result ≡ is_answer verdict.now }
{
    matches!(verdict, Verdict::Answer { .. })
}

// The reply to a refusal.
fn refuse(alloc: Global, core: &Core, verdict: &Verdict) -> Result<Reply, NoMemory>
    requires { IsVerdict core.now verdict.now }
    ensures { IfOk result (λ reply. (p : Policy) → reply ≡ made.Made 403 kind.Plain (verdict_words core.now.dims (shown core.now p) verdict.now)) }
{
    Ok(Reply::Made {
        status: 403,
        kind: Kind::Plain,
        body: verdict_text(alloc, core, verdict)?,
    })
}

impl Holding {
    // The reply to a request that is answered, with its line where it waits.
    fn give<L: Ledger>(
        &self,
        alloc: Global,
        request: &Request,
        steps: &mut Steps<L>,
    ) -> Result<Prepared, NoMemory>
        requires request { is_request self.now.core.dims request.now ≡ true }
        requires answered { verdict_of (shown self.now.core self.now.policy) self.now.history request.now ≡ verdicts.Answer (is_some self.now.waiting) }
        requires waits { self.now.waiting ≡ waits_for (verdicts.Answer (is_some self.now.waiting)) request.now }
        ensures prepared { IfOk result (λ prepared. prepared ≡ given_as (is_some self.now.waiting) (made.Made 200 kind.Csv (answer_words self.now.core.dims request.now (answer_of (world self.now.core self.now.policy) request.now))) (request_line self.now.core.dims request.now)) }
        ensures few { ReadsFew (shown self.now.core self.now.policy) self.now.history request.now steps.old steps.new }
    {
        let body = answer_request(alloc, self.core.get(), &self.rollups, request, steps)?;
        let reply = Reply::Made {
            status: 200,
            kind: Kind::Csv,
            body,
        };
        if !self.state.pending() {
            return Ok(Prepared::Said(reply, Outcome::Given));
        }
        let line = line_of(alloc, self.core.get().dims(), request)?;
        Ok(Prepared::Waits(reply, line))
    }

    // What a request comes to.
    fn prepare_request<L: Ledger>(
        &mut self,
        alloc: Global,
        request: &Request,
        steps: &mut Steps<L>,
    ) -> Result<Prepared, NoMemory>
        requires none { self.old.waiting ≡ None }
        requires request { is_request self.old.core.dims request.now ≡ true }
        ensures comes { IfOk result (λ prepared. Comes self.old.core.dims (world self.old.core self.old.policy) self.old.history request.now self.new.waiting prepared) }
        ensures same { self.new ≡ that_waits self.new.waiting self.old }
        ensures err { OnErr result (self.new.waiting ≡ None) }
        ensures few { ReadsFew (shown self.old.core self.old.policy) self.old.history request.now steps.old steps.new }
    {
        let verdict = self.judge(alloc, request, steps)?;
        if !answers(&verdict) {
            let reply = refuse(alloc, self.core(), &verdict)?;
            return Ok(Prepared::Said(reply, Outcome::Given));
        }
        match self.give(alloc, request, steps) {
            Ok(prepared) => Ok(prepared),
            Err(_) => {
                self.let_go();
                Err(NoMemory)
            }
        }
    }

    // What a query comes to: its request, or the fault of its text.
    fn prepare_text<L: Ledger>(
        &mut self,
        alloc: Global,
        query: &[u8],
        steps: &mut Steps<L>,
    ) -> Result<Prepared, NoMemory>
        requires none { self.old.waiting ≡ None }
        ensures comes { IfOk result (λ prepared. QuestionComes self.old.core.dims (world self.old.core self.old.policy) self.old.history (question.Query query.now) self.new.waiting prepared) }
        ensures same { self.new ≡ that_waits self.new.waiting self.old }
        ensures err { OnErr result (self.new.waiting ≡ None) }
        ensures few { AskReadsFew self.old.core.dims (shown self.old.core self.old.policy) self.old.history (question.Query query.now) steps.old steps.new }
    {
        match read_request(alloc, self.core().dims(), query) {
            Ok(request) => self.prepare_request(alloc, &request, steps),
            Err(RequestFault::NoMemory) => Err(NoMemory),
            Err(fault) => {
                let reply = Reply::Made {
                    status: fault.status(),
                    kind: Kind::Plain,
                    body: fault.body(alloc)?,
                };
                Ok(Prepared::Said(reply, Outcome::Given))
            }
        }
    }

    /// What a query comes to.
    pub(crate) fn query<L: Ledger>(
        &mut self,
        alloc: Global,
        query: &[u8],
        steps: &mut Steps<L>,
    ) -> Prepared
        requires none { self.old.waiting ≡ None }
        ensures comes { QuestionComes self.old.core.dims (world self.old.core self.old.policy) self.old.history (question.Query query.now) self.new.waiting result }
        ensures same { self.new ≡ that_waits self.new.waiting self.old }
        ensures few { AskReadsFew self.old.core.dims (shown self.old.core self.old.policy) self.old.history (question.Query query.now) steps.old steps.new }
    {
        match self.prepare_text(alloc, query, steps) {
            Ok(prepared) => prepared,
            Err(_) => Prepared::Said(Reply::Fixed(Fixed::NoMemory), Outcome::NoMemory),
        }
    }
}
