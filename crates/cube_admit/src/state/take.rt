// Entries of a log: which are taken into the history, passed over, or refused.
ghost use Rattle.std.specs.Prelude.{◌≡◌, ◌<◌, ◌++◌, ◌∷◌, [], true, length, slice_index_or, slice_set, is_none, None, Some, IfOk, OnErr, OnOk, if◌then◌else◌};
ghost use Rattle.std.specs.Vec.{vec_capacity};
ghost use Rattle.cube_model.specs.declared.entry.Entry.TheVariants as entries;
ghost use Rattle.cube_model.specs.Cores.{shown};
ghost use Rattle.cube_model.specs.Cubes.{are_levels};
ghost use Rattle.cube_model.specs.Dims.{plains};
ghost use Rattle.cube_model.specs.Entries.{is_allowed};
ghost use Rattle.cube_model.specs.Logs.{is_taken};
ghost use Rattle.cube_model.specs.Policies.{IsPolicy};
ghost use Rattle.cube_model.specs.Protection.{uncut};
ghost use Rattle.cube_model.specs.Requests.{is_valid};
ghost use Rattle.cube_model.specs.Verdicts.{taken as taken_of, taken_by as taken_by_verdict};
ghost use Rattle.cube_admit.specs.Needs.{CanEnd};
ghost use Rattle.cube_admit.specs.States.{IsTableOf, IsStateOf};
ghost use Rattle.cube_admit.specs.Taking.{behind};
ghost use Rattle.cube_admit.specs.declared.held.Next.TheVariants as next;
ghost use Rattle.cube_admit.specs.declared.held.Held.TheVariants as kinds;

use super::{State, enter, judge_at, keep_at};
use crate::Next;
use crate::source::Step;
use cube_core::Core;
use cube_model::{Entry, Levels, Link, LinkList, NoMemory, Policy, Request, Taken, Verdict};
use cube_source::Judged;
use std::alloc::Global;

// What becomes of a request with this verdict.
fn taken_by(verdict: &Verdict) -> Taken
    ensures { result ≡ taken_by_verdict verdict.now }
{
    match verdict {
        Verdict::Answer { fresh: true } => Taken::Taken,
        Verdict::Answer { fresh: false } => Taken::Passed,
        Verdict::Full { .. }
        | Verdict::SourceWould { .. }
        | Verdict::Pair { .. }
        | Verdict::Single { .. } => Taken::Refused,
    }
}

fn one_link(alloc: Global, link: Link) -> Result<LinkList, NoMemory>
    ensures { IfOk result (λ links. links ≡ link ∷ []) }
{
    let mut links = LinkList::new(alloc);
    links.push(link)?;
    Ok(links)
}

// Puts an entry that is taken at the end of a history that has space for it.
fn enter_taken(history: &mut Vec<Entry>, entry: Entry, taken: Taken)
    requires { length history.old.items < vec_capacity history.old }
    ensures { history.new.items ≡ behind history.old.items entry taken }
{
    if taken == Taken::Taken {
        enter(history, entry);
    }
}

impl State {
    // Whether levels cut each protected cell of a measure.
    fn is_safe(
        &mut self,
        alloc: Global,
        core: &Core,
        policy: &Policy,
        measure: u32,
        levels: &Levels,
    ) -> Result<bool, NoMemory>
        requires policy { IsPolicy core.now.dims policy.now }
        requires measure { measure < length core.now.dims.measures }
        requires levels { are_levels (plains core.now.dims) levels.now ≡ true }
        requires table { IsTableOf (shown core.now policy.now) self.old.table }
        ensures safe { IfOk result (λ safe. safe ≡ is_none (uncut (shown core.now policy.now) levels.now measure)) }
        ensures history { self.new.history ≡ self.old.history }
        ensures held { self.new.held ≡ self.old.held }
        ensures pending { self.new.pending ≡ self.old.pending }
        ensures table { IsTableOf (shown core.now policy.now) self.new.table }
    {
        match self.judge(alloc, core, policy, measure, levels)? {
            Judged::Safe => Ok(true),
            Judged::Uncut { .. } => Ok(false),
        }
    }

    // Takes a request with a fresh answer.
    fn take_request(
        &mut self,
        alloc: Global,
        core: &Core,
        policy: &Policy,
        request: &Request,
    ) -> Result<Taken, NoMemory>
        requires policy { IsPolicy core.now.dims policy.now }
        requires stands { IsStateOf (shown core.now policy.now) self.old }
        requires valid { is_valid (shown core.now policy.now) request.now ≡ true }
        ensures taken { IfOk result (λ taken. taken ≡ taken_of (shown core.now policy.now) self.old.history (entries.Asked request.now)) }
        ensures history { IfOk result (λ taken. self.new.history ≡ behind self.old.history (entries.Asked request.now) taken) }
        ensures err { OnErr result (self.new.history ≡ self.old.history) }
        ensures none { self.new.pending ≡ None }
        ensures stands { IsStateOf (shown core.now policy.now) self.new }
    {
        let verdict = self.verdict(alloc, core, policy, request)?;
        self.commit();
        Ok(taken_by(&verdict))
    }

    // Puts the levels of a source behind the history, and the narrower source in place.
    fn put_source(
        &mut self,
        alloc: Global,
        measure: u32,
        levels: &Levels,
        narrower: Levels,
    ) -> Result<(), NoMemory>
        requires measure { measure < length self.old.held }
        requires suits { CanEnd (next.Source narrower) (slice_index_or self.old.held measure kinds.Open) }
        requires none { self.old.pending ≡ None }
        ensures history { OnOk result (self.new.history ≡ self.old.history ++ entries.Source measure levels.now ∷ []) }
        ensures held { OnOk result (self.new.held ≡ slice_set self.old.held measure (kinds.Source (Some narrower))) }
        ensures none { self.new.pending ≡ None }
        ensures table { self.new.table ≡ self.old.table }
        ensures err { OnErr result (self.new ≡ self.old) }
    {
        self.history.reserve(1)?;
        let levels = levels.copied(alloc)?;
        enter(&mut self.history, Entry::Source { measure, levels });
        keep_at(&mut self.held, measure, Next::Source(narrower));
        Ok(())
    }

    // Takes a source that narrows the one that is kept and leaves each protected cell cut.
    fn take_source(
        &mut self,
        alloc: Global,
        core: &Core,
        policy: &Policy,
        measure: u32,
        levels: &Levels,
    ) -> Result<Taken, NoMemory>
        requires policy { IsPolicy core.now.dims policy.now }
        requires stands { IsStateOf (shown core.now policy.now) self.old }
        requires none { self.old.pending ≡ None }
        requires allowed { is_allowed (shown core.now policy.now) (entries.Source measure levels.now) ≡ true }
        ensures taken { IfOk result (λ taken. taken ≡ taken_of (shown core.now policy.now) self.old.history (entries.Source measure levels.now)) }
        ensures history { IfOk result (λ taken. self.new.history ≡ behind self.old.history (entries.Source measure levels.now) taken) }
        ensures err { OnErr result (self.new.history ≡ self.old.history) }
        ensures none { self.new.pending ≡ None }
        ensures stands { IsStateOf (shown core.now policy.now) self.new }
    {
        let _rules = core.dims();
        let asked = levels.copied(alloc)?;
        let narrower = match self.step_with(measure, asked) {
            Step::Stays => return Ok(Taken::Passed),
            Step::Would(narrower) => narrower,
        };
        if !self.is_safe(alloc, core, policy, measure, &narrower)? {
            return Ok(Taken::Refused);
        }
        self.put_source(alloc, measure, levels, narrower)?;
        Ok(Taken::Taken)
    }

    // Takes a link that does not follow and leaves each guarded place free.
    fn take_link(
        &mut self,
        alloc: Global,
        core: &Core,
        policy: &Policy,
        measure: u32,
        link: Link,
    ) -> Result<Taken, NoMemory>
        requires stands { IsStateOf (shown core.now policy.now) self.old }
        requires none { self.old.pending ≡ None }
        requires allowed { is_allowed (shown core.now policy.now) (entries.Linked measure link) ≡ true }
        ensures taken { IfOk result (λ taken. taken ≡ taken_of (shown core.now policy.now) self.old.history (entries.Linked measure link)) }
        ensures history { IfOk result (λ taken. self.new.history ≡ behind self.old.history (entries.Linked measure link) taken) }
        ensures err { OnErr result (self.new.history ≡ self.old.history) }
        ensures none { self.new.pending ≡ None }
        ensures stands { IsStateOf (shown core.now policy.now) self.new }
    {
        let (_core, _policy) = (core, policy);
        let links = one_link(alloc, link)?;
        self.history.reserve(1)?;
        let (verdict, _mark) = judge_at(alloc, &mut self.held, measure, 0, &links)?;
        let taken = taken_by(&verdict);
        enter_taken(&mut self.history, Entry::Linked { measure, link }, taken);
        Ok(taken)
    }

    /// Judges an entry of a log behind the history: it becomes the last of it, or is passed over, or may not stand
    /// there. A request that waits goes, also where there is no memory.
    pub fn take(
        &mut self,
        alloc: Global,
        core: &Core,
        policy: &Policy,
        entry: &Entry,
    ) -> Result<Taken, NoMemory>
        requires policy { IsPolicy core.now.dims policy.now }
        requires stands { IsStateOf (shown core.now policy.now) self.old }
        requires allowed { is_allowed (shown core.now policy.now) entry.now ≡ true }
        ensures taken { IfOk result (λ taken. taken ≡ taken_of (shown core.now policy.now) self.old.history entry.now) }
        ensures history { IfOk result (λ taken. self.new.history ≡ behind self.old.history entry.now taken) }
        ensures err { OnErr result (self.new.history ≡ self.old.history) }
        ensures none { self.new.pending ≡ None }
        ensures stands { IsStateOf (shown core.now policy.now) self.new }
    {
        self.drop_pending();
        match entry {
            Entry::Asked(request) => self.take_request(alloc, core, policy, request),
            Entry::Source { measure, levels } => {
                self.take_source(alloc, core, policy, *measure, levels)
            }
            Entry::Linked { measure, link } => {
                self.take_link(alloc, core, policy, *measure, *link)
            }
        }
    }
}
