// The state of a cube: its history, and what is kept of it.
ghost use Rattle.std.specs.Prelude.{◌≡◌, ◌<◌, ◌^◌, ◌≤◌, ◌++◌, ◌∷◌, [], true, ℕ, ◌≢◌, length, map, slice_index_or, slice_set, None, Some, IfOk, OnErr, OnOk, is_some, option_copied};
ghost use Rattle.std.specs.List.{All};
ghost use Rattle.std.specs.Vec.{vec_capacity};
ghost use Rattle.cube_model.specs.Cores.{shown};
ghost use Rattle.cube_model.specs.declared.policy.Policy.{Policy};
ghost use Rattle.cube_model.specs.Cubes.{Public, count_from};
ghost use Rattle.cube_model.specs.Policies.{IsPolicy};
ghost use Rattle.cube_model.specs.Protection.{method, uncut};
ghost use Rattle.cube_model.specs.Links.{links as links_of};
ghost use Rattle.cube_model.specs.Requests.{is_valid, fits, grain as grain_of};
ghost use Rattle.cube_model.specs.Entries.{requests};
ghost use Rattle.cube_model.specs.Cubes.{are_levels};
ghost use Rattle.cube_model.specs.Dims.{plains};
ghost use Rattle.cube_model.specs.Verdicts.{verdict as verdict_of};
ghost use Rattle.cube_admit.specs.Boxes.{AnswersEvenBoxes};
ghost use Rattle.cube_admit.specs.Linking.{is_linked, marked, IsLinks, HeldJudged, LinksJudged};
ghost use Rattle.cube_admit.specs.Needs.{CanEnd};
ghost use Rattle.cube_admit.specs.Sources.{IsLong, step_by, judged_as};
ghost use Rattle.cube_admit.specs.States.{whole, waiting, waits_by, waits_for, source_in, colouring_in, started, entered, given_back, IsTableOf, IsStateOf};
ghost use Rattle.cube_admit.specs.declared.held.Next.TheVariants as next;
ghost use Rattle.cube_admit.specs.declared.held.Held.TheVariants as kinds;
ghost use Rattle.cube_source.specs.Judged.{judged_of};

use crate::parity::judge_held;
use crate::source::{Step, step_at};
use crate::{Held, Next, Pending};
use cube_colour::Colouring;
use cube_core::Core;
use cube_lattice::grain;
use cube_model::{Entry, Levels, LinkList, Method, NoMemory, Policy, Request, Verdict, What};
use cube_pairs::links;
use cube_source::{JudgeTable, Judged, guarded};
use std::alloc::Global;
use std::marker::Model;

mod compact;
mod take;

/// The most requests that a history holds.
pub(crate) const MOST_HELD: u32 = 16_384;

/// The history of a cube, perhaps a request that waits to enter it, what is kept of each measure, and the
/// verdicts on the sources that were judged.
///
/// A state holds no core and no policy: it stands for those that it was made with, and each call that
/// takes them has to be given the same.
#[derive(Drop)]
pub struct State {
    history: Vec<Entry>,
    asked: u32,
    held: Vec<Held>,
    pending: Option<Pending>,
    table: JudgeTable,
}

impl Model for State {
    ghost use Rattle.std.specs.Prelude.{◌≡◌, ◌≤◌, length};
    ghost use Rattle.std.specs.Vec.{vec_capacity};
    ghost use Rattle.cube_model.specs.Entries.{requests};
    ghost use Rattle.cube_admit.specs.Needs.{CanEnter};
    ghost use Rattle.cube_admit.specs.States as said;

    ghost Value = { said.State };

    ghost view = { λ s. record { history = s.history.items; pending = s.pending; held = s.held.items; table = s.table } };

    ghost invariant = { λ s. (length (requests s.history.items) ≡ s.asked) × (s.asked ≤ 16384) × CanEnter s.asked (length s.history.items) (vec_capacity s.history) s.held.items s.pending };
}

// What is kept of a measure at first.
#[tactic(auto, using(crate::proofs::Standing::guarded_below))]
fn start(alloc: Global, core: &Core, policy: &Policy, measure: u32) -> Result<Held, NoMemory>
    requires policy { IsPolicy core.now.dims policy.now }
    requires measure { measure < length core.now.dims.measures }
    ensures { IfOk result (λ held. held ≡ started (shown core.now policy.now) (method (shown core.now policy.now) measure) measure) }
{
    match policy.methods.as_slice()[measure as usize] {
        Method::Plain => Ok(Held::Open),
        Method::Lattice => Ok(Held::Source(None)),
        Method::Parity => {
            let guarded = guarded(alloc, core, policy, measure)?;
            Ok(Held::Links(Colouring::new(alloc, core.len(), &guarded)?))
        }
    }
}

fn start_all(alloc: Global, core: &Core, policy: &Policy) -> Result<Vec<Held>, NoMemory>
    requires { IsPolicy core.now.dims policy.now }
    ensures { IfOk result (λ held. held.items ≡ map (λ m. started (shown core.now policy.now) (method (shown core.now policy.now) m) m) (count_from 0 (length policy.now.methods))) }
{
    let _rules = core.dims();
    let mut held = Vec::new(alloc);
    'measures: for measure in 0..policy.methods.len() {
        held.push(start(alloc, core, policy, measure as u32)?)?;
    }
    Ok(held)
}

// Puts an entry at the end of a history that has space for it.
fn enter(history: &mut Vec<Entry>, entry: Entry)
    requires { length history.old.items < vec_capacity history.old }
    ensures { history.new.items ≡ history.old.items ++ entry ∷ [] }
{
    match history.push(entry) {
        Ok(()) => {}
        Err(_) => unreachable!(),
    }
}

// What is kept of a measure behind a request.
fn keep(held: &mut Held, next: Next)
    ensures { held.new ≡ entered next held.old }
{
    match next {
        Next::Source(levels) => *held = Held::Source(Some(levels)),
        Next::Mark(_) => {}
    }
}

fn keep_at(held: &mut Vec<Held>, measure: u32, next: Next)
    requires { measure < length held.old.items }
    ensures { held.new.items ≡ slice_set held.old.items measure (entered next (slice_index_or held.old.items measure kinds.Open)) }
{
    keep(&mut held[measure as usize], next);
}

// What is kept of a measure where the request goes.
fn give_back(held: &mut Held, next: Next)
    requires { CanEnd next held.old }
    ensures { held.new ≡ given_back next held.old }
{
    if let Next::Mark(mark) = next {
        if let Held::Links(colouring) = held {
            colouring.back_to(mark);
        }
    }
}

fn give_back_at(held: &mut Vec<Held>, measure: u32, next: Next)
    requires measure { measure < length held.old.items }
    requires suits { CanEnd next (slice_index_or held.old.items measure kinds.Open) }
    ensures { held.new.items ≡ slice_set held.old.items measure (given_back next (slice_index_or held.old.items measure kinds.Open)) }
{
    give_back(&mut held[measure as usize], next);
}

// A request on a parity measure waits where there is a mark to go back to.
fn wait(request: Request, measure: u32, mark: Option<u64>) -> Option<Pending>
    ensures { result ≡ marked request measure mark }
{
    match mark {
        None => None,
        Some(mark) => Some(Pending {
            request,
            measure,
            next: Next::Mark(mark),
        }),
    }
}

// The verdict on links by what is kept of their measure.
fn judge_at(
    alloc: Global,
    held: &mut Vec<Held>,
    measure: u32,
    asked: u32,
    links: &LinkList,
) -> Result<(Verdict, Option<u64>), NoMemory>
    requires measure { measure < length held.old.items }
    requires links { IsLinks (slice_index_or held.old.items measure kinds.Open) links.now }
    requires few { length links.now < 2 ^ 32 }
    ensures judged { IfOk result (HeldJudged (slice_index_or held.old.items measure kinds.Open) (slice_index_or held.new.items measure kinds.Open) asked links.now) }
    ensures others { held.new.items ≡ slice_set held.old.items measure (slice_index_or held.new.items measure kinds.Open) }
    ensures err { OnErr result (held.new.items ≡ held.old.items) }
{
    judge_held(alloc, &mut held[measure as usize], asked, links)
}

impl State {
    /// The state of an empty history.
    pub fn new(alloc: Global, core: &Core, policy: &Policy) -> Result<State, NoMemory>
        requires policy { IsPolicy core.now.dims policy.now }
        ensures empty { IfOk result (λ state. state.history ≡ []) }
        ensures none { IfOk result (λ state. state.pending ≡ None) }
        ensures stands { IfOk result (λ state. IsStateOf (shown core.now policy.now) state) }
    {
        Ok(State {
            history: Vec::new(alloc),
            asked: 0,
            held: start_all(alloc, core, policy)?,
            pending: None,
            table: JudgeTable::new(alloc, core.dims(), policy)?,
        })
    }

    /// The entries of the history, the earliest first.
    pub fn history(&self) -> &[Entry]
        ensures history { result.now ≡ self.now.history }
        ensures few { length (requests self.now.history) ≤ 16384 }
    {
        self.history.as_slice()
    }

    /// Whether a request waits to enter.
    pub fn pending(&self) -> bool
        ensures { result ≡ is_some self.now.pending }
    {
        self.pending.is_some()
    }

    /// The request that waits to enter the history, if any, and what becomes of its measure then.
    pub fn waiting(&self) -> Option<&Pending>
        ensures { option_copied result ≡ self.now.pending }
    {
        self.pending.as_ref()
    }

    /// Lets the request that waits go, if any.
    pub fn drop_pending(&mut self)
        ensures history { self.new.history ≡ self.old.history }
        ensures none { self.new.pending ≡ None }
        ensures stands { (g : Public) → IsStateOf g self.old → IsStateOf g self.new }
    {
        if let Some(pending) = self.pending.take() {
            give_back_at(&mut self.held, pending.measure, pending.next);
        }
    }

    /// Makes the request that waits, if any, the last of the history.
    pub fn commit(&mut self)
        ensures history { self.new.history ≡ whole self.old }
        ensures none { self.new.pending ≡ None }
        ensures stands { (g : Public) → IsStateOf g self.old → IsStateOf g self.new }
    {
        if let Some(pending) = self.pending.take() {
            let Pending {
                request,
                measure,
                next,
            } = pending;
            keep_at(&mut self.held, measure, next);
            enter(&mut self.history, Entry::Asked(request));
            self.asked += 1;
        }
    }

    /// The source of a measure: none where it is not under the source rule, or where nothing has entered
    /// on it.
    pub fn source(&self, measure: u32) -> Option<&Levels>
        requires { measure < length self.now.held }
        ensures { option_copied result ≡ source_in (slice_index_or self.now.held measure kinds.Open) }
    {
        match &self.held[measure as usize] {
            Held::Open | Held::Links(_) => None,
            Held::Source(source) => source.as_ref(),
        }
    }

    /// The colouring of a parity measure, by the links of its history: none of another measure. Where a
    /// request on it waits, its links are there too.
    pub fn colouring(&self, measure: u32) -> Option<&Colouring>
        requires { measure < length self.now.held }
        ensures { option_copied result ≡ colouring_in (slice_index_or self.now.held measure kinds.Open) }
    {
        match &self.held[measure as usize] {
            Held::Open | Held::Source(_) => None,
            Held::Links(colouring) => Some(colouring),
        }
    }

    // Lets a request on a lattice measure wait, with space for it in the history.
    fn hold(
        &mut self,
        alloc: Global,
        request: &Request,
        measure: u32,
        next: Next,
    ) -> Result<(), NoMemory>
        requires measure { measure < length self.old.held }
        requires few { length (requests self.old.history) < 16384 }
        requires suits { CanEnd next (slice_index_or self.old.held measure kinds.Open) }
        ensures history { self.new.history ≡ self.old.history }
        ensures held { self.new.held ≡ self.old.held }
        ensures table { self.new.table ≡ self.old.table }
        ensures pending { OnOk result (self.new.pending ≡ Some (record { request = request.now; measure = measure; next = next })) }
        ensures none { OnErr result (self.new.pending ≡ self.old.pending) }
    {
        self.history.reserve(1)?;
        let request = request.copied(alloc)?;
        self.pending = Some(Pending {
            request,
            measure,
            next,
        });
        Ok(())
    }

    // Whether links are kept of the measure.
    fn is_linked(&self, measure: u32) -> bool
        requires { measure < length self.now.held }
        ensures { result ≡ is_linked (slice_index_or self.now.held measure kinds.Open) }
    {
        match &self.held[measure as usize] {
            Held::Open | Held::Source(_) => false,
            Held::Links(_) => true,
        }
    }

    // What levels do to the source of a measure; any other measure stays.
    fn step_with(&self, measure: u32, levels: Levels) -> Step
        requires measure { measure < length self.now.held }
        requires long { IsLong (length levels) (source_in (slice_index_or self.now.held measure kinds.Open)) }
        ensures { result ≡ step_by (slice_index_or self.now.held measure kinds.Open) levels }
    {
        step_at(&self.held[measure as usize], levels)
    }

    // What the grain of a request does to the source of its measure; any other measure stays.
    fn step(&self, alloc: Global, request: &Request, measure: u32) -> Result<Step, NoMemory>
        requires measure { measure < length self.now.held }
        requires long { IsLong (length (grain_of request.now)) (source_in (slice_index_or self.now.held measure kinds.Open)) }
        ensures { IfOk result (λ step. step ≡ step_by (slice_index_or self.now.held measure kinds.Open) (grain_of request.now)) }
    {
        Ok(self.step_with(measure, grain(alloc, request)?))
    }

    // The verdict on levels as the source of a measure, which the table keeps.
    #[tactic(auto, using(crate::proofs::Tables::stands_by, crate::proofs::Tables::stands_back))]
    fn judge(
        &mut self,
        alloc: Global,
        core: &Core,
        policy: &Policy,
        measure: u32,
        levels: &Levels,
    ) -> Result<Judged, NoMemory>
        requires policy { IsPolicy core.now.dims policy.now }
        requires measure { measure < length core.now.dims.measures }
        requires levels { are_levels (plains core.now.dims) levels.now ≡ true }
        requires table { IsTableOf (shown core.now policy.now) self.old.table }
        ensures judged { IfOk result (λ judged. judged ≡ judged_of (uncut (shown core.now policy.now) levels.now measure)) }
        ensures history { self.new.history ≡ self.old.history }
        ensures held { self.new.held ≡ self.old.held }
        ensures pending { self.new.pending ≡ self.old.pending }
        ensures table { IsTableOf (shown core.now policy.now) self.new.table }
    {
        self.table.judge(alloc, core, policy, measure, levels)
    }

    // The verdict on a request that would narrow the source of its measure to these levels.
    fn judge_source(
        &mut self,
        alloc: Global,
        core: &Core,
        policy: &Policy,
        request: &Request,
        measure: u32,
        levels: Levels,
    ) -> Result<Verdict, NoMemory>
        requires policy { IsPolicy core.now.dims policy.now }
        requires measure { measure < length core.now.dims.measures }
        requires kept { measure < length self.old.held }
        requires levels { are_levels (plains core.now.dims) levels ≡ true }
        requires none { self.old.pending ≡ None }
        requires table { IsTableOf (shown core.now policy.now) self.old.table }
        requires source { CanEnd (next.Source levels) (slice_index_or self.old.held measure kinds.Open) }
        ensures verdict { IfOk result (λ verdict. verdict ≡ judged_as (shown core.now policy.now) (length (requests self.old.history)) measure levels) }
        ensures history { self.new.history ≡ self.old.history }
        ensures held { self.new.held ≡ self.old.held }
        ensures table { IsTableOf (shown core.now policy.now) self.new.table }
        ensures waits { IfOk result (λ verdict. self.new.pending ≡ waits_by verdict (record { request = request.now; measure = measure; next = next.Source levels })) }
        ensures err { OnErr result (self.new.pending ≡ None) }
    {
        if self.asked >= MOST_HELD {
            return Ok(Verdict::Full { held: self.asked });
        }
        match self.judge(alloc, core, policy, measure, &levels)? {
            Judged::Uncut { cell } => Ok(Verdict::SourceWould { levels, cell }),
            Judged::Safe => {
                self.hold(alloc, request, measure, Next::Source(levels))?;
                Ok(Verdict::Answer { fresh: true })
            }
        }
    }

    // The verdict on a request on a parity measure.
    #[tactic(auto, using(crate::proofs::Few::links_few))]
    fn judge_links(
        &mut self,
        alloc: Global,
        core: &Core,
        request: &Request,
        measure: u32,
    ) -> Result<Verdict, NoMemory>
        requires measure { measure < length self.old.held }
        requires fits { fits (plains core.now.dims) request.now.group request.now.picks ≡ true }
        requires links { (p : Policy) → IsLinks (slice_index_or self.old.held measure kinds.Open) (links_of (shown core.now p) request.now) }
        requires none { self.old.pending ≡ None }
        ensures judged { IfOk result (λ verdict. (p : Policy) → LinksJudged (length (requests self.old.history)) measure request.now (links_of (shown core.now p) request.now) self.old self.new verdict) }
        ensures err { OnErr result (self.new ≡ self.old) }
    {
        let _rules = core.dims();
        let rows = core.rows(alloc, request)?;
        let links = links(alloc, &rows)?;
        let request = request.copied(alloc)?;
        self.history.reserve(1)?;
        let asked = self.asked;
        let (verdict, mark) = judge_at(alloc, &mut self.held, measure, asked, &links)?;
        self.pending = wait(request, measure, mark);
        Ok(verdict)
    }

    // The verdict on a request on a measure.
    fn judge_on(
        &mut self,
        alloc: Global,
        core: &Core,
        policy: &Policy,
        request: &Request,
        measure: u32,
    ) -> Result<Verdict, NoMemory>
        requires policy { IsPolicy core.now.dims policy.now }
        requires stands { IsStateOf (shown core.now policy.now) self.old }
        requires none { self.old.pending ≡ None }
        requires valid { is_valid (shown core.now policy.now) request.now ≡ true }
        requires what { request.now.what ≡ What.Measure measure }
        ensures verdict { IfOk result (λ verdict. verdict ≡ verdict_of (shown core.now policy.now) self.old.history request.now) }
        ensures history { self.new.history ≡ self.old.history }
        ensures stands { IsStateOf (shown core.now policy.now) self.new }
        ensures waits { IfOk result (λ verdict. waiting self.new ≡ waits_for verdict request.now) }
        ensures err { OnErr result (self.new.pending ≡ None) }
    {
        if self.is_linked(measure) {
            return self.judge_links(alloc, core, request, measure);
        }
        match self.step(alloc, request, measure)? {
            Step::Stays => Ok(Verdict::Answer { fresh: false }),
            Step::Would(levels) => self.judge_source(alloc, core, policy, request, measure, levels),
        }
    }

    /// The verdict on a request, behind the history. A request with a fresh answer waits from then on, and
    /// one that waited before goes, also where there is no memory.
    pub fn verdict(
        &mut self,
        alloc: Global,
        core: &Core,
        policy: &Policy,
        request: &Request,
    ) -> Result<Verdict, NoMemory>
        requires policy { IsPolicy core.now.dims policy.now }
        requires stands { IsStateOf (shown core.now policy.now) self.old }
        requires valid { is_valid (shown core.now policy.now) request.now ≡ true }
        ensures verdict { IfOk result (λ verdict. verdict ≡ verdict_of (shown core.now policy.now) self.old.history request.now) }
        ensures history { self.new.history ≡ self.old.history }
        ensures stands { IsStateOf (shown core.now policy.now) self.new }
        ensures waits { IfOk result (λ verdict. waiting self.new ≡ waits_for verdict request.now) }
        ensures even_boxes { IfOk result (λ verdict. AnswersEvenBoxes (shown core.now policy.now) self.old.history request.now verdict) }
        ensures err { OnErr result (self.new.pending ≡ None) }
    {
        let _rules = core.dims();
        self.drop_pending();
        match request.what {
            What::Count => Ok(Verdict::Answer { fresh: false }),
            What::Measure(measure) => self.judge_on(alloc, core, policy, request, measure),
        }
    }
}
