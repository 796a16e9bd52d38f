// The lines of a workload, judged one behind another.
ghost use Rattle.std.specs.Prelude.{◌≡◌, ◌≢◌, [], ◌∷◌, ◌++◌, ◌≤◌, suc, true, None, ℕ, List, length, IfOk, IfSome, OnErr};
ghost use Rattle.std.specs.Str.Lines.{lines};
ghost use Rattle.cube_model.specs.Cores.{shown};
ghost use Rattle.cube_model.specs.Cubes.{Public};
ghost use Rattle.cube_model.specs.Policies.{IsPolicy};
ghost use Rattle.cube_model.specs.Requests.{is_valid};
ghost use Rattle.cube_model.specs.Runs.{entered};
ghost use Rattle.cube_model.specs.Verdicts.{verdict as verdict_of};
ghost use Rattle.cube_admit.specs.States.{IsStateOf};
ghost use Rattle.cube_query.specs.Canonical.{is_request};
ghost use Rattle.cube_advise.specs.Words.{asked_in, word_on, behind, words_of};
ghost use Rattle.cube_advise.specs.Lines.{is_workload as is_one, workload_words};

use crate::Word;
use crate::lines::{count_lines, next_line, push_word};
use crate::word::word_of;
use cube_admit::State;
use cube_core::Core;
use cube_model::{Dims, NoMemory, Policy, Request, Text, Verdict};
use cube_query::{RequestFault, read_request};
use std::alloc::Global;
use std::marker::Model;

/// The most bytes of a line that is read.
const MAX_LINE: usize = 65_536;

/// The most lines of a workload.
const MAX_LINES: usize = 1_000_000;

// The request that a line names, if any.
fn read_line(alloc: Global, dims: &Dims, line: &[u8]) -> Result<Option<Request>, NoMemory>
    ensures asked { IfOk result (λ asked. asked ≡ asked_in dims.now line.now) }
    ensures valid { IfOk result (λ asked. IfSome asked (λ request. is_request dims.now request ≡ true)) }
{
    if line.len() > MAX_LINE {
        return Ok(None);
    }
    match read_request(alloc, dims, line) {
        Ok(request) => Ok(Some(request)),
        Err(RequestFault::NoMemory) => Err(NoMemory),
        Err(_) => Ok(None),
    }
}

/// A history behind which the lines of a workload are judged, each behind those before it.
///
/// It holds no core and no policy: each call has to be given those that it was made with.
#[derive(Drop)]
pub struct Workload {
    state: State,
}

impl Model for Workload {
    ghost use Rattle.std.specs.Prelude.{◌≡◌, None};
    ghost use Rattle.cube_admit.specs.States as said;

    ghost Value = { said.State };

    ghost view = { λ w. w.state };

    ghost invariant = { λ w. w.state.pending ≡ None };
}

impl Workload {
    /// Behind an empty history.
    pub fn new(alloc: Global, core: &Core, policy: &Policy) -> Result<Workload, NoMemory>
        requires policy { IsPolicy core.now.dims policy.now }
        ensures empty { IfOk result (λ workload. workload.history ≡ []) }
        ensures stands { IfOk result (λ workload. IsStateOf (shown core.now policy.now) workload) }
    {
        Ok(Workload {
            state: State::new(alloc, core, policy)?,
        })
    }

    /// Behind the history of a state. A request that waits there goes.
    pub fn behind(state: State) -> Workload
        ensures history { result.history ≡ state.history }
        ensures stands { (g : Public) → IsStateOf g state → IsStateOf g result }
    {
        let mut state = state;
        state.drop_pending();
        Workload { state }
    }

    /// The history as the lines so far left it, and what is kept of it.
    pub fn state(&self) -> &State
        ensures state { result.now ≡ self.now }
        ensures none { result.now.pending ≡ None }
    {
        &self.state
    }

    // The verdict on a request. A fresh answer enters the history.
    fn judge_request(
        &mut self,
        alloc: Global,
        core: &Core,
        policy: &Policy,
        request: &Request,
    ) -> Result<Verdict, NoMemory>
        requires policy { IsPolicy core.now.dims policy.now }
        requires stands { IsStateOf (shown core.now policy.now) self.old }
        requires valid { is_valid (shown core.now policy.now) request.now ≡ true }
        ensures verdict { IfOk result (λ verdict. verdict ≡ verdict_of (shown core.now policy.now) self.old.history request.now) }
        ensures history { IfOk result (λ verdict. self.new.history ≡ entered self.old.history request.now verdict) }
        ensures stands { IsStateOf (shown core.now policy.now) self.new }
        ensures err { OnErr result (self.new.history ≡ self.old.history) }
    {
        let verdict = self.state.verdict(alloc, core, policy, request)?;
        self.state.commit();
        Ok(verdict)
    }

    /// Judges the next line of a workload: the word for it, by the verdict behind the history that the earlier lines left. A fresh
    /// answer enters the history, which anything else leaves as it was.
    pub fn judge(
        &mut self,
        alloc: Global,
        core: &Core,
        policy: &Policy,
        line: &[u8],
    ) -> Result<Word, NoMemory>
        requires policy { IsPolicy core.now.dims policy.now }
        requires stands { IsStateOf (shown core.now policy.now) self.old }
        ensures word { IfOk result (λ word. word ≡ word_on (shown core.now policy.now) self.old.history (asked_in core.now.dims line.now)) }
        ensures history { IfOk result (λ word. self.new.history ≡ behind (shown core.now policy.now) self.old.history (asked_in core.now.dims line.now)) }
        ensures step { IfOk result (λ word. (more : List (List ℕ)) → words_of core.now.dims (shown core.now policy.now) self.old.history (line.now ∷ more) ≡ word ∷ words_of core.now.dims (shown core.now policy.now) self.new.history more) }
        ensures stands { IsStateOf (shown core.now policy.now) self.new }
        ensures err { OnErr result (self.new.history ≡ self.old.history) }
    {
        match read_line(alloc, core.dims(), line)? {
            None => Ok(Word::Unread),
            Some(request) => {
                let verdict = self.judge_request(alloc, core, policy, &request)?;
                Ok(word_of(&verdict))
            }
        }
    }
}

/// Whether a text has at most 1,000,000 lines, as a workload does.
pub fn is_workload(text: &[u8]) -> bool
    ensures { result ≡ is_one text.now }
{
    count_lines(text) <= MAX_LINES
}

/// The words for the lines of a workload, a line with its number and its word for each, judged behind the history of one.
pub fn workload_text(
    alloc: Global,
    core: &Core,
    policy: &Policy,
    workload: Workload,
    text: &[u8],
) -> Result<Text, NoMemory>
    requires policy { IsPolicy core.now.dims policy.now }
    requires stands { IsStateOf (shown core.now policy.now) workload }
    requires few { is_one text.now ≡ true }
    ensures { IfOk result (λ words. words ≡ workload_words core.now.dims (shown core.now policy.now) workload.history text.now) }
{
    let mut workload = workload;
    let mut words = Text::new(alloc);
    let mut number = 0;
    let mut rest = text;
    'lines: loop {
        let Some((line, behind)) = next_line(rest) else {
            return Ok(words);
        };
        let word = workload.judge(alloc, core, policy, line)?;
        number += 1;
        push_word(&mut words, number, word)?;
        rest = behind;
    }
}
