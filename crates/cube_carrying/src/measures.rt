// Whether a cube has the measures of another, by their names, with the same decimals and the same method.
ghost use Rattle.std.specs.Prelude.{◌≡◌, ◌<◌, length, map, position};
ghost use Rattle.std.specs.Str.{bytes_eq};
ghost use Rattle.cube_model.specs.Cubes.{place_of};
ghost use Rattle.cube_carry.specs.Continues as continues;
ghost use Rattle.cube_carry.specs.Names as names;
ghost use Rattle.cube_carry.specs.Names.{named};
ghost use Rattle.cube_carrying.specs.Firsts.{first_number};

use cube_core::Core;
use cube_model::{Dims, Measure, Method, Policy};

/// The place of the measure with a name.
fn place_named(measures: &[Measure], name: &[u8]) -> Option<usize>
    ensures { result ≡ position (λ m. bytes_eq name.now m.name) measures.now }
{
    measures.iter().position(|m| m.name() == name)
}

/// The number of the measure with a name, or how many there are where none has it.
fn number_named(measures: &[Measure], name: &[u8]) -> usize
    ensures { result ≡ place_of name.now (map (λ m. m.name) measures.now) }
{
    match place_named(measures, name) {
        Some(number) => number,
        None => measures.len(),
    }
}

/// The number of the measure of the same name, or how many there are where none has it.
pub(crate) fn measure_in(dims: &Dims, other: &Dims, measure: u32) -> usize
    requires { measure < length dims.now.measures }
    ensures { result ≡ names.measure_in dims.now other.now measure }
{
    number_named(other.measures(), dims.measure(measure).name())
}

/// Whether two methods are the same.
fn same_method(method: Method, other: Method) -> bool
    ensures { result ≡ continues.same_method method other }
{
    match method {
        Method::Plain => matches!(other, Method::Plain),
        Method::Lattice => matches!(other, Method::Lattice),
        Method::Parity => matches!(other, Method::Parity),
    }
}

/// Whether there is a measure of the same name with the same decimals and the same method.
fn has_measure(
    old: &Core,
    old_policy: &Policy,
    new: &Core,
    new_policy: &Policy,
    measure: u32,
) -> bool
    requires { measure < length old.now.dims.measures }
    ensures { result ≡ continues.has_measure (named old.now old_policy.now) (named new.now new_policy.now) measure }
{
    let measures = new.dims().measures();
    let number = measure_in(old.dims(), new.dims(), measure);
    number < measures.len()
        && old.dims().measure(measure).decimals() == new.dims().measure(number as u32).decimals()
        && same_method(old_policy.method(measure), new_policy.method(number as u32))
}

/// The first measure of a cube that another has not, with its decimals and its method.
pub fn missing_measure(
    old: &Core,
    old_policy: &Policy,
    new: &Core,
    new_policy: &Policy,
) -> Option<u32>
    ensures { result ≡ first_number (continues.has_measure (named old.now old_policy.now) (named new.now new_policy.now)) (length old.now.dims.measures) }
{
    let many = old.dims().measures().len() as u32;
    'each: for measure in 0..many {
        if !has_measure(old, old_policy, new, new_policy, measure) {
            return Some(measure);
        }
    }
    None
}
