// The protected cells of a measure, as a list.
ghost use Rattle.std.specs.Prelude.{◌≡◌, ◌<◌, ◌≤◌, ◌++◌, true, filter, flat_map, map, take, length, IfOk, OnOk};
ghost use Rattle.cube_model.specs.Cores.{shown};
ghost use Rattle.cube_model.specs.Cubes.{Each, are_levels, places};
ghost use Rattle.cube_model.specs.Dims.{plains};
ghost use Rattle.cube_model.specs.Policies.{IsPolicy, IsWithin};
ghost use Rattle.cube_model.specs.Protection as protection;
ghost use Rattle.cube_model.specs.Protection.{under, each_once, core_cell};
ghost use Rattle.cube_source.specs.Blocks.{bare};
ghost use Rattle.cube_source.specs.Fresh.{is_fresh};
ghost use Rattle.cube_source.specs.Objects.{IsPlaced, of_measure};

use crate::fresh::add_fresh;
use crate::places::{finest, key_of};
use crate::protecting::is_guarded;
use cube_core::Core;
use cube_lattice::cuboids_below;
use cube_model::{Cell, Cells, Method, NoMemory, Object, Places, Policy};
use std::alloc::Global;

/// Puts the cells that an object protects, and no earlier one of its measure, behind cells, up to so
/// many of all.
fn add_under(
    alloc: Global,
    core: &Core,
    earlier: &[Object],
    object: &Object,
    most: u64,
    cells: &mut Cells,
) -> Result<(), NoMemory>
    requires room { length cells.old ≤ most }
    requires earlier { Each (IsPlaced core.now.dims) earlier.now }
    requires levels { are_levels (plains core.now.dims) object.now.levels ≡ true }
    requires slice { Each (IsWithin core.now.dims) object.now.slice }
    ensures { OnOk result (cells.new ≡ take most (cells.old ++ filter (is_fresh (bare core.now) earlier.now object.now.measure) (under (bare core.now) object.now))) }
{
    let cuboids = cuboids_below(alloc, &object.levels)?;
    'levels: for levels in cuboids.as_slice() {
        add_fresh(alloc, core, earlier, object, levels, most, cells)?;
    }
    Ok(())
}

/// The first so many cells that objects of a measure protect.
fn lattice_cells(
    alloc: Global,
    core: &Core,
    objects: &[Object],
    measure: u32,
    most: u64,
) -> Result<Cells, NoMemory>
    requires objects { Each (IsPlaced core.now.dims) objects.now }
    ensures { IfOk result (λ cells. cells ≡ take most (each_once (flat_map (under (bare core.now)) (of_measure measure objects.now)))) }
{
    let mut cells = Cells::new(alloc);
    'objects: for number in 0..objects.len() {
        let object = &objects[number];
        if object.measure == measure {
            add_under(alloc, core, &objects[..number], object, most, &mut cells)?;
        }
    }
    Ok(cells)
}

/// The core cell of a place.
fn finest_cell(alloc: Global, core: &Core, place: u32) -> Result<Cell, NoMemory>
    requires { place < length core.now.shape.points }
    ensures { IfOk result (λ cell. cell ≡ core_cell (bare core.now) place) }
{
    let levels = finest(alloc, core)?;
    let key = key_of(alloc, core, levels.as_slice(), place)?;
    Ok(Cell { levels, key })
}

/// The first so many guarded core cells.
fn parity_cells(
    alloc: Global,
    core: &Core,
    objects: &[Object],
    measure: u32,
    most: u64,
) -> Result<Cells, NoMemory>
    requires objects { Each (IsPlaced core.now.dims) objects.now }
    ensures { IfOk result (λ cells. cells ≡ take most (map (core_cell (bare core.now)) (filter (protection.is_guarded (bare core.now) (of_measure measure objects.now)) (places (bare core.now))))) }
{
    let mut cells = Cells::new(alloc);
    'places: for place in 0..core.len() {
        if cells.len() as u64 >= most {
            return Ok(cells);
        }
        if is_guarded(core, objects, measure, place) {
            cells.push(finest_cell(alloc, core, place)?)?;
        }
    }
    Ok(cells)
}

/// The places that objects of a measure guard: those of their slices, or all where it has none. In
/// order. The parity rule protects their core cells.
pub fn guarded(
    alloc: Global,
    core: &Core,
    policy: &Policy,
    measure: u32,
) -> Result<Places, NoMemory>
    requires policy { IsPolicy core.now.dims policy.now }
    ensures { IfOk result (λ places. places ≡ protection.guarded (shown core.now policy.now) measure) }
{
    let objects = policy.objects.as_slice();
    let mut found = Places::new(alloc);
    'places: for place in 0..core.len() {
        if is_guarded(core, objects, measure, place) {
            found.push(place)?;
        }
    }
    Ok(found)
}

/// The protected cells of a measure, or the first so many of them, each once: in the order of the
/// objects, then of the cuboids by number, then of the keys; of a measure under the parity rule in
/// the order of the places.
pub fn protected(
    alloc: Global,
    core: &Core,
    policy: &Policy,
    measure: u32,
    most: u64,
) -> Result<Cells, NoMemory>
    requires policy { IsPolicy core.now.dims policy.now }
    requires measure { measure < length core.now.dims.measures }
    ensures { IfOk result (λ cells. cells ≡ take most (protection.protected (shown core.now policy.now) measure)) }
{
    let objects = policy.objects.as_slice();
    match policy.method(measure) {
        Method::Plain => Ok(Cells::new(alloc)),
        Method::Lattice => lattice_cells(alloc, core, objects, measure, most),
        Method::Parity => parity_cells(alloc, core, objects, measure, most),
    }
}
