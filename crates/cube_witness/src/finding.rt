// The changes for a protected cell.
ghost use Rattle.std.specs.Ordering.{int_eq};
ghost use Rattle.std.specs.Prelude.{◌≡◌, ◌<◌, ℕ, true, false, not, is_none, List, length, slice_index_or, IfOk, IfErr, OnOk, Some, pos};
ghost use Rattle.std.specs.List.{list_any, All};
ghost use Rattle.cube_model.specs.declared.entry.Entry.{Entry};
ghost use Rattle.cube_model.specs.declared.policy.Policy.{Policy};
ghost use Rattle.cube_model.specs.Cores.{shown};
ghost use Rattle.cube_model.specs.Cubes.{are_levels, covered};
ghost use Rattle.cube_model.specs.Dims.{plains};
ghost use Rattle.cube_model.specs.Policies.{IsPolicy};
ghost use Rattle.cube_model.specs.Protection.{protected, same_cell, first};
ghost use Rattle.cube_model.specs.Twins.{moves, changes as changes_of};
ghost use Rattle.cube_model.specs.Verdicts.{IsAdmissible};
ghost use Rattle.cube_witness.specs.Grounds.{IsGrounds, HasHistory, HasNone, moves_in};
ghost use Rattle.cube_witness.specs.declared.finding.WitnessFault.TheVariants as fault;

use crate::Grounds;
use crate::grounds::signs_by;
use cube_core::Core;
use cube_model::{Cell, Change, Changes, NoMemory, Policy};
use cube_source::{covers, protects};
use std::alloc::Global;

/// Why a cell has no changes.
#[derive(Clone, Copy, Debug, PartialEq, Eq)]
pub enum WitnessFault {
    /// It covers no place.
    Empty,
    /// It covers a place and is not protected.
    NotProtected,
    /// Memory ran out.
    NoMemory,
}

impl From<NoMemory> for WitnessFault {
    ghost from_gives = { λ _ e. e ≡ fault.NoMemory };

    fn from(_error: NoMemory) -> WitnessFault {
        WitnessFault::NoMemory
    }
}

/// The first place that a cell covers.
fn first_covered(core: &Core, cell: &Cell) -> Option<u32>
    requires { are_levels (plains core.now.dims) cell.now.levels ≡ true }
    ensures { (p : Policy) → result ≡ first (covered (shown core.now p) cell.now) }
{
    'places: for place in 0..core.len() {
        if covers(core, cell, place) {
            return Some(place);
        }
    }
    None
}

/// The sign at a place.
pub(crate) fn sign_at(signs: &[i8], place: usize) -> i8
    requires { place < length signs.now }
    ensures { result ≡ slice_index_or signs.now place (pos 0) }
{
    signs[place]
}

/// Whether a sign is a change.
fn is_move(by: i8) -> bool
    ensures { result ≡ not (int_eq by (pos 0)) }
{
    by != 0
}

/// The change at a place.
fn move_at(place: usize, by: i8) -> Change
    requires { place < 4294967296 }
    ensures { result ≡ record { place = place; by = by } }
{
    Change {
        place: place as u32,
        by,
    }
}

/// The signs that are not 0, each with its place.
fn moves_of(alloc: Global, signs: &[i8]) -> Result<Changes, NoMemory>
    requires { length signs.now < 4294967296 }
    ensures moves { IfOk result (λ made. made ≡ moves_in signs.now (length signs.now)) }
    ensures places { IfOk result (All (λ change. change.place < length signs.now)) }
{
    let mut made = Changes::new(alloc);
    'signs: for place in 0..signs.len() {
        let by = sign_at(signs, place);
        if is_move(by) {
            made.push(move_at(place, by))?;
        }
    }
    Ok(made)
}

/// The first place that a protected cell covers.
fn protected_place(
    core: &Core,
    policy: &Policy,
    measure: u32,
    cell: &Cell,
) -> Result<u32, WitnessFault>
    requires policy { IsPolicy core.now.dims policy.now }
    requires measure { measure < length core.now.dims.measures }
    requires cell { are_levels (plains core.now.dims) cell.now.levels ≡ true }
    ensures first { IfOk result (λ place. Some place ≡ first (covered (shown core.now policy.now) cell.now)) }
    ensures protected { OnOk result (list_any (same_cell cell.now) (protected (shown core.now policy.now) measure) ≡ true) }
    ensures err { IfErr result (λ fault. HasNone (shown core.now policy.now) measure cell.now fault) }
{
    let Some(place) = first_covered(core, cell) else {
        return Err(WitnessFault::Empty);
    };
    if !protects(core, policy, measure, cell) {
        return Err(WitnessFault::NotProtected);
    }
    Ok(place)
}

/// The changes for a protected cell, in the order of places: added to the measure they leave each answer of the
/// history and make the sum of the cell greater by one.
///
/// The grounds are those of the history: the source or the colouring that is kept of the measure.
pub fn changes(
    alloc: Global,
    core: &Core,
    policy: &Policy,
    measure: u32,
    grounds: &Grounds,
    cell: &Cell,
) -> Result<Changes, WitnessFault>
    requires policy { IsPolicy core.now.dims policy.now }
    requires measure { measure < length core.now.dims.measures }
    requires cell { are_levels (plains core.now.dims) cell.now.levels ≡ true }
    requires grounds { HasHistory (shown core.now policy.now) measure grounds.now }
    ensures changes { IfOk result (λ made. (h : List Entry) → IsAdmissible (shown core.now policy.now) h → IsGrounds (shown core.now policy.now) h measure grounds.now → made ≡ moves (shown core.now policy.now) (changes_of (shown core.now policy.now) h measure cell.now)) }
    ensures places { IfOk result (All (λ change. change.place < length core.now.shape.points)) }
    ensures there { OnOk result (is_none (first (covered (shown core.now policy.now) cell.now)) ≡ false) }
    ensures protected { OnOk result (list_any (same_cell cell.now) (protected (shown core.now policy.now) measure) ≡ true) }
    ensures err { IfErr result (λ fault. HasNone (shown core.now policy.now) measure cell.now fault) }
{
    let _rules = core.dims();
    let place = protected_place(core, policy, measure, cell)?;
    let signs = signs_by(alloc, core, grounds, cell, place)?;
    Ok(moves_of(alloc, signs.as_slice())?)
}
