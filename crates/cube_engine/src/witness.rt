// What a question for the changes that hide a cell comes to, and one for the public shape.
ghost use Rattle.std.specs.Prelude.{◌≡◌, ◌<◌, ℕ, List, true, None, Ok, Err, Result, length, map, IfOk, IfErr};
ghost use Rattle.std.specs.List.{All};
ghost use Rattle.cube_model.specs.declared.ask.Question.TheVariants as question;
ghost use Rattle.cube_model.specs.declared.request.What.TheVariants as what;
ghost use Rattle.cube_model.specs.Cores.{shown, world};
ghost use Rattle.cube_model.specs.Cubes.{are_levels};
ghost use Rattle.cube_model.specs.Dims.{plains};
ghost use Rattle.cube_admit.specs.States.{IsStateOf};
ghost use Rattle.cube_query.specs.Canonical.{is_request};
ghost use Rattle.cube_query.specs.Faults.{fault_status, fault_body};
ghost use Rattle.cube_witness.specs.Grounds.{IsGrounds};
ghost use Rattle.cube_engine.specs.Changes as said;
ghost use Rattle.cube_engine.specs.Changes.{Found, Refuses, found_at, found_by, text_of, twin_for};
ghost use Rattle.cube_engine.specs.Prepared.{QuestionComes};
ghost use Rattle.cube_engine.specs.declared.witness.NoChanges.TheVariants as nothing;

use crate::holding::Holding;
use crate::prepared::Prepared;
use cube_admit::State;
use cube_core::Core;
use cube_lattice::grain;
use cube_model::{
    Cell, Changes, Dims, Fixed, Key, Kind, Method, NoMemory, Outcome, Pick, Policy, Reply, Request,
    Text, What,
};
use cube_query::{RequestFault, all_one, groups, read_request};
use cube_shape::shape_text;
use cube_witness::{Grounds, TwinFault, WitnessFault, changes, twin_facts, witness_text};
use std::alloc::{AllocError, Global};

/// Why there are no changes, or no fact file of a twin.
#[derive(Debug, Drop)]
pub enum NoChanges {
    /// This line says so, under a status of HTTP.
    Said {
        /// The status.
        status: u16,
        /// The line, with its line feed.
        line: Text,
    },
    /// Memory ran out.
    NoMemory,
}

impl From<NoMemory> for NoChanges {
    ghost from_gives = { λ _ e. e ≡ nothing.NoMemory };

    fn from(_error: NoMemory) -> NoChanges {
        NoChanges::NoMemory
    }
}

// A line that says why there are no changes.
fn refuse(alloc: Global, status: u16, line: &[u8]) -> NoChanges
    ensures changes { (found : Found) → found ≡ Err (status, line.now) → Refuses result found }
    ensures file { (file : Result (List ℕ) (ℕ × List ℕ)) → file ≡ Err (status, line.now) → Refuses result file }
{
    match Text::from_bytes(alloc, line) {
        Ok(line) => NoChanges::Said { status, line },
        Err(_) => NoChanges::NoMemory,
    }
}

// The line on a text that names no request.
fn refuse_text(alloc: Global, fault: RequestFault) -> NoChanges
    ensures { (found : Found) → found ≡ Err (fault_status fault, fault_body fault) → Refuses result found }
{
    match fault.body(alloc) {
        Ok(line) => NoChanges::Said {
            status: fault.status(),
            line,
        },
        Err(_) => NoChanges::NoMemory,
    }
}

// Whether the request names one cell.
fn is_cell(dims: &Dims, request: &Request) -> bool
    requires { length request.now.group ≡ length dims.now.dimensions }
    ensures { result ≡ said.is_cell dims.now request.now }
{
    !groups(dims, request.group.as_slice()) && all_one(request.picks.as_slice())
}

fn member_of(pick: Option<Pick>) -> u32
    ensures { result ≡ said.member_of pick }
{
    match pick {
        None => 0,
        Some(pick) => pick.first,
    }
}

fn members_of(alloc: Global, picks: &[Option<Pick>]) -> Result<Vec<u32>, AllocError>
    ensures { IfOk result (λ members. members.items ≡ map said.member_of picks.now) }
{
    picks.iter().map(|pick| member_of(*pick)).collect(alloc)
}

// The cell that the request names.
fn cell_of(alloc: Global, request: &Request) -> Result<Cell, NoMemory>
    ensures { IfOk result (λ cell. cell ≡ said.cell_of request.now) }
{
    let members = members_of(alloc, request.picks.as_slice())?;
    Ok(Cell {
        levels: grain(alloc, request)?,
        key: Key::from_vec(members),
    })
}

/// What is kept of the history of a measure, by its method.
pub fn grounds_of<'a>(core: &Core, policy: &Policy, state: &'a State, measure: u32) -> Grounds<'a>
    requires stands { IsStateOf (shown core.now policy.now) state.now }
    requires none { state.now.pending ≡ None }
    requires measure { measure < length policy.now.methods }
    ensures { IsGrounds (shown core.now policy.now) state.now.history measure result }
{
    let _core = core;
    match policy.method(measure) {
        Method::Plain => Grounds::Plain,
        Method::Lattice => Grounds::Source(state.source(measure)),
        Method::Parity => match state.colouring(measure) {
            Some(colouring) => Grounds::Pairs(colouring),
            None => unreachable!(),
        },
    }
}

impl Holding {
    // What is kept of the history of a measure, by its method.
    fn grounds(&self, measure: u32) -> Grounds<'_>
        requires none { self.now.waiting ≡ None }
        requires measure { measure < length self.now.policy.methods }
        ensures { IsGrounds (shown self.now.core self.now.policy) self.now.history measure result }
    {
        grounds_of(self.core.get(), &self.policy, &self.state, measure)
    }

    // The changes for a cell of a measure.
    fn changes_at(
        &self,
        alloc: Global,
        measure: u32,
        cell: &Cell,
    ) -> Result<(u32, Changes), NoChanges>
        requires none { self.now.waiting ≡ None }
        requires measure { measure < length self.now.core.dims.measures }
        requires cell { are_levels (plains self.now.core.dims) cell.now.levels ≡ true }
        ensures ok { IfOk result (λ found. found_at (shown self.now.core self.now.policy) self.now.history (what.Measure measure) cell.now ≡ Ok found) }
        ensures places { IfOk result (λ found. (found.0 < length self.now.core.dims.measures) × All (λ change. change.place < length self.now.core.shape.points) found.1) }
        ensures err { IfErr result (λ why. Refuses why (found_at (shown self.now.core self.now.policy) self.now.history (what.Measure measure) cell.now)) }
    {
        let core = self.core();
        let grounds = self.grounds(measure);
        match changes(alloc, core, self.policy(), measure, &grounds, cell) {
            Ok(changes) => Ok((measure, changes)),
            Err(WitnessFault::Empty) => Err(refuse(alloc, 404, b"empty cell\n")),
            Err(WitnessFault::NotProtected) => Err(refuse(alloc, 404, b"not protected\n")),
            Err(WitnessFault::NoMemory) => Err(NoChanges::NoMemory),
        }
    }

    // The changes for the cell that a request names.
    fn changes_of(&self, alloc: Global, request: &Request) -> Result<(u32, Changes), NoChanges>
        requires none { self.now.waiting ≡ None }
        requires request { is_request self.now.core.dims request.now ≡ true }
        ensures ok { IfOk result (λ found. found_by self.now.core.dims (shown self.now.core self.now.policy) self.now.history (Ok request.now) ≡ Ok found) }
        ensures places { IfOk result (λ found. (found.0 < length self.now.core.dims.measures) × All (λ change. change.place < length self.now.core.shape.points) found.1) }
        ensures err { IfErr result (λ why. Refuses why (found_by self.now.core.dims (shown self.now.core self.now.policy) self.now.history (Ok request.now))) }
    {
        let What::Measure(measure) = request.what else {
            return Err(refuse(alloc, 400, b"not a cell of a measure\n"));
        };
        if !is_cell(self.core().dims(), request) {
            return Err(refuse(alloc, 400, b"not a cell of a measure\n"));
        }
        let cell = cell_of(alloc, request)?;
        self.changes_at(alloc, measure, &cell)
    }

    // The changes for the cell that a text names.
    fn changes_for(&self, alloc: Global, text: &[u8]) -> Result<(u32, Changes), NoChanges>
        requires none { self.now.waiting ≡ None }
        ensures ok { IfOk result (λ found. said.changes_for self.now.core.dims (shown self.now.core self.now.policy) self.now.history text.now ≡ Ok found) }
        ensures places { IfOk result (λ found. (found.0 < length self.now.core.dims.measures) × All (λ change. change.place < length self.now.core.shape.points) found.1) }
        ensures err { IfErr result (λ why. Refuses why (said.changes_for self.now.core.dims (shown self.now.core self.now.policy) self.now.history text.now)) }
    {
        match read_request(alloc, self.core().dims(), text) {
            Ok(request) => self.changes_of(alloc, &request),
            Err(RequestFault::NoMemory) => Err(NoChanges::NoMemory),
            Err(fault) => Err(refuse_text(alloc, fault)),
        }
    }

    /// The changes for the cell that a text names, in words.
    pub(crate) fn changes_text(&self, alloc: Global, text: &[u8]) -> Result<Text, NoChanges>
        requires none { self.now.waiting ≡ None }
        ensures ok { IfOk result (λ words. text_of self.now.core.dims (shown self.now.core self.now.policy) (said.changes_for self.now.core.dims (shown self.now.core self.now.policy) self.now.history text.now) ≡ Ok words) }
        ensures err { IfErr result (λ why. Refuses why (text_of self.now.core.dims (shown self.now.core self.now.policy) (said.changes_for self.now.core.dims (shown self.now.core self.now.policy) self.now.history text.now))) }
    {
        let (_, changes) = match self.changes_for(alloc, text) {
            Ok(found) => found,
            Err(why) => return Err(why),
        };
        let core = self.core();
        Ok(witness_text(alloc, core.dims(), core.shape(), &changes)?)
    }

    /// The fact file of the twin for the cell that a text names.
    pub(crate) fn twin_text(&self, alloc: Global, text: &[u8]) -> Result<Text, NoChanges>
        requires none { self.now.waiting ≡ None }
        ensures ok { IfOk result (λ file. twin_for self.now.core self.now.policy self.now.history text.now ≡ Ok file) }
        ensures err { IfErr result (λ why. Refuses why (twin_for self.now.core self.now.policy self.now.history text.now)) }
    {
        let (measure, changes) = match self.changes_for(alloc, text) {
            Ok(found) => found,
            Err(why) => return Err(why),
        };
        match twin_facts(alloc, self.core(), measure, &changes) {
            Ok(file) => Ok(file),
            Err(TwinFault::Beyond { .. }) => Err(refuse(alloc, 404, b"beyond the bound\n")),
            Err(TwinFault::NoMemory) => Err(NoChanges::NoMemory),
        }
    }

    /// What a question for the changes that hide a cell comes to.
    pub(crate) fn witness(&self, alloc: Global, text: &[u8]) -> Prepared
        requires none { self.now.waiting ≡ None }
        ensures { QuestionComes self.now.core.dims (world self.now.core self.now.policy) self.now.history (question.Witness text.now) None result }
    {
        match self.changes_text(alloc, text) {
            Ok(body) => Prepared::Said(
                Reply::Made {
                    status: 200,
                    kind: Kind::Csv,
                    body,
                },
                Outcome::Given,
            ),
            Err(NoChanges::Said { status, line }) => Prepared::Said(
                Reply::Made {
                    status,
                    kind: Kind::Plain,
                    body: line,
                },
                Outcome::Given,
            ),
            Err(NoChanges::NoMemory) => {
                Prepared::Said(Reply::Fixed(Fixed::NoMemory), Outcome::NoMemory)
            }
        }
    }

    /// What a question for the public shape comes to.
    pub(crate) fn shape(&self, alloc: Global) -> Prepared
        ensures { QuestionComes self.now.core.dims (world self.now.core self.now.policy) self.now.history question.Shape None result }
    {
        match shape_text(alloc, self.core(), self.policy()) {
            Ok(body) => Prepared::Said(
                Reply::Made {
                    status: 200,
                    kind: Kind::Json,
                    body,
                },
                Outcome::Given,
            ),
            Err(_) => Prepared::Said(Reply::Fixed(Fixed::NoMemory), Outcome::NoMemory),
        }
    }
}
