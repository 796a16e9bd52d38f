// Whether a cube has the points of another, with as many facts and the same values.
ghost use Rattle.std.specs.Prelude.{◌≡◌, ◌<◌, ◌&&◌, true, length, IfOk};
ghost use Rattle.std.specs.List.{list_all};
ghost use Rattle.cube_model.specs.Cubes.{count_from};
ghost use Rattle.cube_carry.specs.Continues as continues;
ghost use Rattle.cube_carry.specs.Names.{named, measure_in};
ghost use Rattle.cube_carrying.specs.Firsts.{first_number};
ghost use Rattle.cube_carrying.specs.Places.{carried_places, place_in};
ghost use Rattle.cube_carrying.specs.Points as said;

use crate::measures::measure_in;
use cube_core::{Core, Steps};
use cube_model::{Dims, Items, NoMemory, Places, Policy};
use std::alloc::Global;
use std::marker::Brand;
use std::sync::ledger::{Blank, Ledger};

/// For each measure of the old cube the number of the new cube's measure of that name.
fn measures_in(alloc: Global, old: &Dims, new: &Dims) -> Result<Items<u32>, NoMemory>
    ensures { IfOk result (λ numbers. numbers ≡ said.measures_in old.now new.now) }
{
    let _rules = new.measures();
    let many = old.measures().len() as u32;
    let mut numbers = Items::new(alloc);
    'each: for measure in 0..many {
        numbers.push(measure_in(old, new, measure) as u32)?;
    }
    Ok(numbers)
}

/// Whether there is a point at a place of the new cube, with as many facts as at a place of the old one.
fn has_facts(old: &Core, new: &Core, place: u32, there: u32) -> bool
    requires { place < length old.now.shape.points }
    ensures { result ≡ said.has_facts old.now new.now place there }
{
    let facts = old.shape().facts.as_slice();
    let others = new.shape().facts.as_slice();
    (there as usize) < others.len() && facts[place as usize] == others[there as usize]
}

/// Whether a measure has the same value at a place of the new cube as at a place of the old one. The last number is that
/// of the measure in the new cube.
fn has_value<L: Ledger>(
    old: &Core,
    new: &Core,
    place: u32,
    there: u32,
    measure: u32,
    number: u32,
    steps: &mut Steps<L>,
) -> bool
    requires place { place < length old.now.shape.points }
    requires there { there < length new.now.shape.points }
    requires measure { measure < length old.now.dims.measures }
    requires within { number < length new.now.dims.measures }
    requires number { number ≡ measure_in old.now.dims new.now.dims measure }
    ensures { result ≡ said.has_value old.now new.now place there measure }
{
    new.value(there, number, steps) == old.value(place, measure, steps)
}

/// Whether each measure has the same value at a place of the new cube as at a place of the old one.
fn has_values<L: Ledger>(
    old: &Core,
    new: &Core,
    numbers: &[u32],
    place: u32,
    there: u32,
    steps: &mut Steps<L>,
) -> bool
    requires measures { said.HasMeasures old.now.dims new.now.dims }
    requires numbers { numbers.now ≡ said.measures_in old.now.dims new.now.dims }
    requires place { place < length old.now.shape.points }
    requires there { there < length new.now.shape.points }
    ensures { result ≡ said.has_values old.now new.now place there }
{
    let many = old.dims().measures().len() as u32;
    'measures: for measure in 0..many {
        let number = numbers[measure as usize];
        if !has_value(old, new, place, there, measure, number, steps) {
            return false;
        }
    }
    true
}

/// Whether the point of an old place stands at a place of the new cube, with its facts and its values.
fn has_point<L: Ledger>(
    old: &Core,
    new: &Core,
    numbers: &[u32],
    place: u32,
    there: u32,
    steps: &mut Steps<L>,
) -> bool
    requires measures { said.HasMeasures old.now.dims new.now.dims }
    requires numbers { numbers.now ≡ said.measures_in old.now.dims new.now.dims }
    requires place { place < length old.now.shape.points }
    ensures { result ≡ (said.has_facts old.now new.now place there && said.has_values old.now new.now place there) }
{
    has_facts(old, new, place, there) && has_values(old, new, numbers, place, there, steps)
}

/// The first place of the old cube whose point the new one has not.
fn first_missing<L: Ledger>(
    old: &Core,
    new: &Core,
    numbers: &[u32],
    places: &[u32],
    blank: Blank,
) -> Option<u32>
    requires name { blank.name ≡ L.name }
    requires parts { blank.parts ≡ L.parts }
    requires some { 0 < L.parts }
    requires measures { said.HasMeasures old.now.dims new.now.dims }
    requires numbers { numbers.now ≡ said.measures_in old.now.dims new.now.dims }
    requires places { places.now ≡ carried_places old.now new.now }
    ensures { result ≡ first_number (λ i. said.has_facts old.now new.now i (place_in old.now new.now i) && said.has_values old.now new.now i (place_in old.now new.now i)) (length old.now.shape.points) }
{
    let mut steps = Steps::<L>::new(blank);
    'places: for place in 0..old.len() {
        let there = places[place as usize];
        if !has_point(old, new, numbers, place, there, &mut steps) {
            return Some(place);
        }
    }
    None
}

/// The first place of the old cube whose point the new one has not, with its facts and its values.
pub fn missing_point(
    alloc: Global,
    old: &Core,
    old_policy: &Policy,
    new: &Core,
    new_policy: &Policy,
    places: &Places,
) -> Result<Option<u32>, NoMemory>
    requires measures { list_all (continues.has_measure (named old.now old_policy.now) (named new.now new_policy.now)) (count_from 0 (length old.now.dims.measures)) ≡ true }
    requires places { places.now ≡ carried_places old.now new.now }
    ensures { IfOk result (λ found. found ≡ first_number (λ i. continues.has_point (named old.now old_policy.now) (named new.now new_policy.now) i && continues.has_values (named old.now old_policy.now) (named new.now new_policy.now) old.now.cube new.now.cube i) (length old.now.shape.points)) }
{
    let _old_policy = old_policy;
    let _new_policy = new_policy;
    let numbers = measures_in(alloc, old.dims(), new.dims())?;
    let (numbers, places) = (numbers.as_slice(), places.as_slice());
    Ok(first_missing::<Brand>(old, new, numbers, places, Blank::new(1)))
}
