// Which protected cells have a witness.
ghost use Rattle.std.specs.Prelude.{◌≡◌, ◌<◌, ◌≤◌, [], fold, count_by, length, true, None, IfOk};
ghost use Rattle.std.specs.List.{All};
ghost use Rattle.cube_model.specs.Cores.{shown};
ghost use Rattle.cube_model.specs.Cubes.{IsIn};
ghost use Rattle.cube_model.specs.Policies.{IsPolicy};
ghost use Rattle.cube_model.specs.Protection as protection;
ghost use Rattle.cube_model.specs.Twins as twins;
ghost use Rattle.cube_admit.specs.States.{IsStateOf};
ghost use Rattle.cube_core.specs.Rows.{ArePlaces};
ghost use Rattle.cube_query.specs.Canonical.{is_request};
ghost use Rattle.cube_witness.specs.TwinFile as file;
ghost use Rattle.cube_demo.specs.Counting.{verdicts as verdicts_of, history_behind};
ghost use Rattle.cube_demo.specs.Hiding.{hides as is_hidden, witness_count};

use crate::answers::rows_on;
use crate::sums::hides;
use cube_admit::State;
use cube_core::Core;
use cube_engine::grounds_of;
use cube_model::{Cell, Change, NoMemory, Policy, Request, Rows, Verdict};
use cube_source::protected;
use cube_witness::{WitnessFault, changes};
use std::alloc::Global;

/// How many protected cells of a measure are looked at.
const FIRST_CELLS: u64 = 100;

/// Puts each change in its place.
fn put_signs(signs: &mut [i8], changes: &[Change])
    requires { All (λ change. change.place < length signs.old) changes.now }
    ensures { signs.new ≡ fold file.set_sign signs.old changes.now }
{
    'changes: for change in changes {
        signs[change.place as usize] = change.by;
    }
}

/// The change at each of so many places, 0 where there is none.
fn signs_of(alloc: Global, places: u32, changes: &[Change]) -> Result<Vec<i8>, NoMemory>
    requires { All (λ change. change.place < places) changes.now }
    ensures { IfOk result (λ signs. signs.items ≡ file.signs_of places changes.now) }
{
    let mut signs = vec![in alloc; 0i8; places as usize]?;
    put_signs(signs.as_mut_slice(), changes);
    Ok(signs)
}

/// The change at each place for a protected cell, by the history.
fn signs_for(
    alloc: Global,
    core: &Core,
    policy: &Policy,
    state: &State,
    measure: u32,
    cell: &Cell,
) -> Result<Vec<i8>, NoMemory>
    requires policy { IsPolicy core.now.dims policy.now }
    requires stands { IsStateOf (shown core.now policy.now) state.now }
    requires none { state.now.pending ≡ None }
    requires measure { measure < length core.now.dims.measures }
    requires protected { IsIn cell.now (protection.protected (shown core.now policy.now) measure) }
    ensures { IfOk result (λ signs. signs.items ≡ twins.changes (shown core.now policy.now) state.now.history measure cell.now) }
{
    let _rules = core.dims();
    let grounds = grounds_of(core, policy, state, measure);
    match changes(alloc, core, policy, measure, &grounds, cell) {
        Ok(changes) => signs_of(alloc, core.len(), changes.as_slice()),
        Err(WitnessFault::NoMemory) => Err(NoMemory),
        Err(WitnessFault::Empty) => unreachable!(),
        Err(WitnessFault::NotProtected) => unreachable!(),
    }
}

/// Whether the changes for a protected cell, by the history, hide it from rows.
fn has_witness(
    alloc: Global,
    core: &Core,
    policy: &Policy,
    state: &State,
    tables: &[Rows],
    measure: u32,
    cell: &Cell,
) -> Result<bool, NoMemory>
    requires policy { IsPolicy core.now.dims policy.now }
    requires stands { IsStateOf (shown core.now policy.now) state.now }
    requires none { state.now.pending ≡ None }
    requires places { All (λ rows. All (λ row. ArePlaces (length core.now.shape.points) row.places) rows) tables.now }
    requires measure { measure < length core.now.dims.measures }
    requires protected { IsIn cell.now (protection.protected (shown core.now policy.now) measure) }
    ensures { IfOk result (λ found. found ≡ is_hidden (shown core.now policy.now) tables.now (twins.changes (shown core.now policy.now) state.now.history measure cell.now) cell.now) }
{
    let _rules = core.dims();
    let signs = signs_for(alloc, core, policy, state, measure, cell)?;
    hides(alloc, core, tables, signs.as_slice(), cell)
}

/// How many of some protected cells of a measure the changes hide from rows.
fn count_hidden(
    alloc: Global,
    core: &Core,
    policy: &Policy,
    state: &State,
    tables: &[Rows],
    measure: u32,
    cells: &[Cell],
) -> Result<u64, NoMemory>
    requires policy { IsPolicy core.now.dims policy.now }
    requires stands { IsStateOf (shown core.now policy.now) state.now }
    requires none { state.now.pending ≡ None }
    requires places { All (λ rows. All (λ row. ArePlaces (length core.now.shape.points) row.places) rows) tables.now }
    requires measure { measure < length core.now.dims.measures }
    requires protected { All (λ cell. IsIn cell (protection.protected (shown core.now policy.now) measure)) cells.now }
    ensures count { IfOk result (λ count. count ≡ count_by (λ cell. is_hidden (shown core.now policy.now) tables.now (twins.changes (shown core.now policy.now) state.now.history measure cell) cell) cells.now) }
    ensures few { IfOk result (λ count. count ≤ length cells.now) }
{
    let mut count = 0;
    'cells: for cell in cells {
        if has_witness(alloc, core, policy, state, tables, measure, cell)? {
            count += 1;
        }
    }
    Ok(count)
}

/// How many of the first 100 protected cells of a measure have a witness behind the requests, given their verdicts and
/// what they leave. A measure that there is none of has no protected cell.
pub(crate) fn count_witnesses(
    alloc: Global,
    core: &Core,
    policy: &Policy,
    state: &State,
    requests: &[Request],
    verdicts: &[Verdict],
    measure: u32,
) -> Result<u64, NoMemory>
    requires policy { IsPolicy core.now.dims policy.now }
    requires stands { IsStateOf (shown core.now policy.now) state.now }
    requires none { state.now.pending ≡ None }
    requires valid { All (λ request. is_request core.now.dims request ≡ true) requests.now }
    requires verdicts { verdicts.now ≡ verdicts_of (shown core.now policy.now) [] requests.now }
    requires history { state.now.history ≡ history_behind (shown core.now policy.now) [] requests.now }
    ensures count { IfOk result (λ count. count ≡ witness_count (shown core.now policy.now) requests.now measure) }
    ensures few { IfOk result (λ count. count ≤ 100) }
{
    if measure as usize >= core.dims().measures().len() {
        return Ok(0);
    }
    let tables = rows_on(alloc, core, requests, verdicts, measure)?;
    let cells = protected(alloc, core, policy, measure, FIRST_CELLS)?;
    let (tables, cells) = (tables.as_slice(), cells.as_slice());
    count_hidden(alloc, core, policy, state, tables, measure, cells)
}
