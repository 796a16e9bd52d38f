// The values of a twin, and the first one that no fact file has.
ghost use Rattle.std.specs.Prelude.{◌≡◌, ◌<◌, ◌≤◌, ◌*◌, ◌+ℤ◌, ℕ, List, [], length, find, fold, sum, replicate, slice_index_or, slice_set, unsigned_abs, pos, IfOk, IfErr, OnOk, None, Ok};
ghost use Rattle.std.specs.List.{All};
ghost use Rattle.cube_model.specs.Cubes.{Each, count_from};
ghost use Rattle.cube_model.specs.Twins.{added};
ghost use Rattle.cube_facts.specs.FactFile.{filled_of};
ghost use Rattle.cube_witness.specs.declared.twin.TwinFault.TheVariants as fault;
ghost use Rattle.cube_witness.specs.TwinFile as file;
ghost use Rattle.cube_witness.specs.TwinFile.{set_sign, twin_cube, facts_text, first_beyond, facts_at, IsRefused};

use crate::file::{Twin, write_facts};
use crate::finding::sign_at;
use crate::leaves::finest;
use crate::shares::is_beyond;
use cube_core::{Core, Steps};
use cube_model::{Change, Changes, NoMemory, Shape, Text, Values};
use std::alloc::Global;
use std::marker::Brand;
use std::sync::ledger::{Blank, Ledger};

/// Why there is no fact file of a twin.
#[derive(Clone, Copy, Debug, PartialEq, Eq)]
pub enum TwinFault {
    /// The value of this place is more than 10^12 for each of its facts, the first such.
    Beyond {
        /// The place.
        place: u32,
    },
    /// Memory ran out.
    NoMemory,
}

impl From<NoMemory> for TwinFault {
    ghost from_gives = { λ _ e. e ≡ fault.NoMemory };

    fn from(_error: NoMemory) -> TwinFault {
        TwinFault::NoMemory
    }
}

/// Puts each change in its place.
fn put_signs(signs: &mut [i8], changes: &[Change])
    requires { All (λ change. change.place < length signs.old) changes.now }
    ensures { signs.new ≡ fold set_sign signs.old changes.now }
{
    'changes: for change in changes {
        signs[change.place as usize] = change.by;
    }
}

/// The change at each of so many places.
fn signs_of(alloc: Global, places: u32, changes: &[Change]) -> Result<Vec<i8>, NoMemory>
    requires { All (λ change. change.place < places) changes.now }
    ensures { IfOk result (λ signs. signs.items ≡ file.signs_of places changes.now) }
{
    let mut signs = vec![in alloc; 0i8; places as usize]?;
    put_signs(signs.as_mut_slice(), changes);
    Ok(signs)
}

/// A value of few enough facts with a sign added.
fn add_sign(value: i64, sign: i8) -> i64
    requires { unsigned_abs value ≤ 1000000000000000000 }
    ensures { result ≡ value +ℤ sign }
{
    value + i64::from(sign)
}

/// The value of a measure at a place, and what is added there.
fn sum_at<L: Ledger>(
    core: &Core,
    measure: u32,
    signs: &[i8],
    place: u32,
    steps: &mut Steps<L>,
) -> i64
    requires measure { measure < length core.now.dims.measures }
    requires place { place < length core.now.shape.points }
    requires long { length signs.now ≡ length core.now.shape.points }
    ensures { result ≡ slice_index_or (slice_index_or core.now.cube measure []) place (pos 0) +ℤ slice_index_or signs.now place (pos 0) }
{
    let value = core.value(place, measure, steps);
    let sign = sign_at(signs, place as usize);
    add_sign(value, sign)
}

/// The values of a measure with what is added at each place.
fn add_signs<L: Ledger>(
    alloc: Global,
    core: &Core,
    measure: u32,
    signs: &[i8],
    steps: &mut Steps<L>,
) -> Result<Values, NoMemory>
    requires measure { measure < length core.now.dims.measures }
    requires long { length signs.now ≡ length core.now.shape.points }
    ensures { IfOk result (λ values. values ≡ added (slice_index_or core.now.cube measure []) signs.now) }
{
    let mut values = Values::new(alloc);
    'places: for place in 0..core.len() {
        values.push(sum_at(core, measure, signs, place, steps))?;
    }
    Ok(values)
}

/// The value at a place.
fn value_in(values: &[i64], place: usize) -> i64
    requires { place < length values.now }
    ensures { result ≡ slice_index_or values.now place (pos 0) }
{
    values[place]
}

/// The first place where so many facts cannot carry the value.
fn find_beyond(shape: &Shape, values: &[i64]) -> Option<u32>
    requires long { length values.now ≡ length shape.now.points }
    requires facts { length shape.now.facts ≡ length shape.now.points }
    requires few { sum shape.now.facts ≤ 1000000 }
    requires small { length shape.now.points ≤ 65536 }
    ensures { result ≡ find (λ i. file.is_beyond (facts_at shape.now i) (slice_index_or values.now i (pos 0))) (count_from 0 (length shape.now.points)) }
{
    'places: for place in 0..values.len() {
        if is_beyond(shape.facts.as_slice()[place], value_in(values, place)) {
            return Some(place as u32);
        }
    }
    None
}

/// The fact file of the twin, with a count of reads that is dropped.
fn write_twin<L: Ledger>(
    alloc: Global,
    core: &Core,
    measure: u32,
    changes: &Changes,
    blank: Blank,
) -> Result<Text, TwinFault>
    requires name { blank.name ≡ L.name }
    requires parts { blank.parts ≡ L.parts }
    requires some { 0 < L.parts }
    requires measure { measure < length core.now.dims.measures }
    requires places { All (λ change. change.place < length core.now.shape.points) changes.now }
    ensures text { IfOk result (λ text. text ≡ facts_text core.now.dims core.now.shape (twin_cube core.now measure changes.now)) }
    ensures within { OnOk result (first_beyond core.now.shape (twin_cube core.now measure changes.now) measure ≡ None) }
    ensures err { IfErr result (λ fault. IsRefused core.now.shape (twin_cube core.now measure changes.now) measure fault) }
{
    let mut steps = Steps::<L>::new(blank);
    let signs = signs_of(alloc, core.len(), changes.as_slice())?;
    let values = add_signs(alloc, core, measure, signs.as_slice(), &mut steps)?;
    if let Some(place) = find_beyond(core.shape(), values.as_slice()) {
        return Err(TwinFault::Beyond { place });
    }
    let levels = finest(alloc, core.dims())?;
    let twin = Twin {
        core,
        levels,
        measure,
        values,
    };
    Ok(write_facts(alloc, &twin, &mut steps)?)
}

/// The fact file of the twin: of the cube with changes added to a measure. Each place has as many facts as in the
/// core; they share its value, so that each carries the value divided by their number, rounded down, and the first
/// ones one more, as many as the rest.
///
/// `read_facts` reads the file as the same points with the same numbers of facts, and the twin's values.
pub fn twin_facts(
    alloc: Global,
    core: &Core,
    measure: u32,
    changes: &Changes,
) -> Result<Text, TwinFault>
    requires measure { measure < length core.now.dims.measures }
    requires places { All (λ change. change.place < length core.now.shape.points) changes.now }
    ensures text { IfOk result (λ text. text ≡ facts_text core.now.dims core.now.shape (twin_cube core.now measure changes.now)) }
    ensures within { OnOk result (first_beyond core.now.shape (twin_cube core.now measure changes.now) measure ≡ None) }
    ensures reads_back { IfOk result (λ text. filled_of core.now.dims text ≡ Ok (core.now.shape, twin_cube core.now measure changes.now)) }
    ensures err { IfErr result (λ fault. IsRefused core.now.shape (twin_cube core.now measure changes.now) measure fault) }
{
    let _rules = core.dims();
    write_twin::<Brand>(alloc, core, measure, changes, Blank::new(1))
}
