// Whether a cuboid of the new cube keeps the places that the old one had apart from the others.
ghost use Rattle.std.specs.Prelude.{◌≡◌, ◌<◌, ℕ, true, false, not, ◌||◌, length, replicate, slice_index_or, IfOk};
ghost use Rattle.std.specs.List.{list_any, All};
ghost use Rattle.cube_model.specs.declared.policy.Policy.{Policy as Rules};
ghost use Rattle.cube_model.specs.declared.request.What.TheVariants.{Count};
ghost use Rattle.cube_model.specs.Cores.{shown};
ghost use Rattle.cube_model.specs.Cubes.{are_levels};
ghost use Rattle.cube_model.specs.Dims.{plains};
ghost use Rattle.cube_model.specs.Protection.{listed};
ghost use Rattle.cube_model.specs.Requests as requests;
ghost use Rattle.cube_model.specs.Requests.{whole};
ghost use Rattle.cube_source.specs.Blocks.{AreBlocks, AreFlags};
ghost use Rattle.cube_carrying.specs.Standing as said;

use cube_core::Core;
use cube_model::{Levels, NoMemory, Request, Row, Rows, What};
use std::alloc::Global;

/// So many flags, none of them set.
fn no_flags(alloc: Global, many: usize) -> Result<Vec<bool>, NoMemory>
    ensures { IfOk result (λ flags. flags.items ≡ replicate many false) }
{
    Ok(vec![in alloc; false; many]?)
}

/// Sets the flags of places.
fn mark(flags: &mut [bool], places: &[u32])
    requires { All (λ place. place < length flags.old) places.now }
    ensures long { length flags.new ≡ length flags.old }
    ensures marked { (k : ℕ) → k < length flags.old → slice_index_or flags.new k false ≡ (slice_index_or flags.old k false || listed k places.now) }
{
    'places: for place in places {
        flags[*place as usize] = true;
    }
}

/// For each of so many places, whether it is one of some.
pub(crate) fn flags_of(alloc: Global, many: usize, places: &[u32]) -> Result<Vec<bool>, NoMemory>
    requires { All (λ place. place < many) places.now }
    ensures { IfOk result (λ flags. AreFlags many (λ k. listed k places.now) flags.items) }
{
    let mut flags = no_flags(alloc, many)?;
    mark(flags.as_mut_slice(), places);
    Ok(flags)
}

/// Whether one of the places is flagged.
fn has_flagged(flags: &[bool], places: &[u32]) -> bool
    requires { All (λ place. place < length flags.now) places.now }
    ensures { result ≡ list_any (λ place. slice_index_or flags.now place false) places.now }
{
    places.iter().any(|place| flags[*place as usize])
}

/// Whether one of the places is not flagged.
fn has_other(flags: &[bool], places: &[u32]) -> bool
    requires { All (λ place. place < length flags.now) places.now }
    ensures { result ≡ list_any (λ place. not (slice_index_or flags.now place false)) places.now }
{
    places.iter().any(|place| !flags[*place as usize])
}

/// Whether there are flagged places and others among these.
fn is_mixed(flags: &[bool], places: &[u32]) -> bool
    requires { All (λ place. place < length flags.now) places.now }
    ensures { result ≡ said.is_mixed flags.now places.now }
{
    has_flagged(flags, places) && has_other(flags, places)
}

/// Whether a row has both.
fn any_mixed(flags: &[bool], rows: &[Row]) -> bool
    requires { AreBlocks (length flags.now) rows.now }
    ensures { result ≡ list_any (λ row. said.is_mixed flags.now row.places) rows.now }
{
    'rows: for row in rows {
        if is_mixed(flags, row.places.as_slice()) {
            return true;
        }
    }
    false
}

/// The rows of all places at a cuboid, in the order of their keys.
fn rows_at(alloc: Global, core: &Core, levels: &Levels) -> Result<Rows, NoMemory>
    requires { are_levels (plains core.now.dims) levels.now ≡ true }
    ensures rows { IfOk result (λ rows. (p : Rules) → rows ≡ requests.rows (shown core.now p) (whole Count levels.now)) }
    ensures places { IfOk result (λ rows. AreBlocks (length core.now.shape.points) rows) }
{
    let request = Request::whole(alloc, What::Count, levels)?;
    core.rows(alloc, &request)
}

/// Whether no cell of a cuboid covers a flagged place and one that is not.
///
/// It groups the places once, and looks at each of them at most twice.
pub(crate) fn stays_apart(
    alloc: Global,
    core: &Core,
    flags: &[bool],
    levels: &Levels,
) -> Result<bool, NoMemory>
    requires flags { length flags.now ≡ length core.now.shape.points }
    requires levels { are_levels (plains core.now.dims) levels.now ≡ true }
    ensures { IfOk result (λ apart. (p : Rules) → apart ≡ said.stays_apart (shown core.now p) flags.now levels.now) }
{
    let rows = rows_at(alloc, core, levels)?;
    Ok(!any_mixed(flags, rows.as_slice()))
}
