// Whether a cube protects what another does.
ghost use Rattle.std.specs.Prelude.{◌≡◌, ◌<◌, not, true, find, length, IfOk};
ghost use Rattle.std.specs.List.{list_all};
ghost use Rattle.cube_model.specs.Cubes as cubes;
ghost use Rattle.cube_model.specs.Cubes.{count_from};
ghost use Rattle.cube_model.specs.Policies.{IsPolicy};
ghost use Rattle.cube_model.specs.Protection.{protected};
ghost use Rattle.cube_carry.specs.Continues as continues;
ghost use Rattle.cube_carry.specs.Names.{named, known};
ghost use Rattle.cube_carrying.specs.Firsts.{first_with};
ghost use Rattle.cube_carrying.specs.Exposed.{HasParts};
ghost use Rattle.cube_carrying.specs.Places.{carried_places};

use crate::crossings::Crossing;
use crate::measures::measure_in;
use crate::unkept::{unkept_lattice, unkept_parity};
use cube_core::Core;
use cube_model::{Cell, Method, NoMemory, Places, Policy};
use std::alloc::Global;

/// The first cell that the old cube protects on a measure and the new one does not.
fn unprotected_on(
    alloc: Global,
    old: &Core,
    old_policy: &Policy,
    new: &Core,
    new_policy: &Policy,
    places: &Places,
    measure: u32,
) -> Result<Option<Cell>, NoMemory>
    requires old_policy { IsPolicy old.now.dims old_policy.now }
    requires new_policy { IsPolicy new.now.dims new_policy.now }
    requires parts { HasParts (named old.now old_policy.now) (named new.now new_policy.now) }
    requires places { places.now ≡ carried_places old.now new.now }
    requires measure { measure < length old.now.dims.measures }
    ensures { IfOk result (λ found. found ≡ find (λ t. not (continues.protects (named old.now old_policy.now) (named new.now new_policy.now) measure t)) (protected (known (named old.now old_policy.now)) measure)) }
{
    let old_dims = old.dims();
    let new_dims = new.dims();
    let number = measure_in(old_dims, new_dims, measure) as u32;
    let objects = old_policy.objects.as_slice();
    let places = places.as_slice();
    let crossing = Crossing {
        old,
        old_policy,
        new,
        new_policy,
        places,
        measure: number,
    };
    match old_policy.method(measure) {
        Method::Plain => Ok(None),
        Method::Lattice => unkept_lattice(alloc, &crossing, objects, measure),
        Method::Parity => unkept_parity(alloc, &crossing, measure),
    }
}

/// The first measure of the old cube with a cell that it protects there and the new one does not, and the first such cell.
pub fn unprotected_cell(
    alloc: Global,
    old: &Core,
    old_policy: &Policy,
    new: &Core,
    new_policy: &Policy,
    places: &Places,
) -> Result<Option<(u32, Cell)>, NoMemory>
    requires old_policy { IsPolicy old.now.dims old_policy.now }
    requires new_policy { IsPolicy new.now.dims new_policy.now }
    requires dimensions { list_all (continues.has_dimension new.now.dims) old.now.dims.dimensions ≡ true }
    requires no_other { list_all (continues.has_dimension old.now.dims) new.now.dims.dimensions ≡ true }
    requires levels { list_all (continues.has_levels new.now.dims) old.now.dims.dimensions ≡ true }
    requires paths { list_all (continues.has_paths new.now.dims) old.now.dims.dimensions ≡ true }
    requires measures { list_all (continues.has_measure (named old.now old_policy.now) (named new.now new_policy.now)) (count_from 0 (length old.now.dims.measures)) ≡ true }
    requires points { list_all (continues.has_point (named old.now old_policy.now) (named new.now new_policy.now)) (cubes.places (known (named old.now old_policy.now))) ≡ true }
    requires places { places.now ≡ carried_places old.now new.now }
    ensures { IfOk result (λ found. found ≡ first_with (λ m. find (λ t. not (continues.protects (named old.now old_policy.now) (named new.now new_policy.now) m t)) (protected (known (named old.now old_policy.now)) m)) (count_from 0 (length old.now.dims.measures))) }
{
    let many = old.dims().measures().len() as u32;
    'each: for measure in 0..many {
        let found = unprotected_on(alloc, old, old_policy, new, new_policy, places, measure)?;
        if let Some(cell) = found {
            return Ok(Some((measure, cell)));
        }
    }
    Ok(None)
}
