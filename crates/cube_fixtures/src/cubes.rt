// The parts of cores: dimensions, points with their numbers of facts, and values.
ghost use Rattle.std.specs.Prelude.{◌≡◌, ◌∷◌, ◌++◌, [], IfOk, OnOk};
ghost use Rattle.cube_fixtures.specs.Worked.{two, pay_core, pay_cube, full_core, day_core, some_fields, all_fields};
ghost use Rattle.cube_model.specs.Cores.{IsCore};

use crate::dimensions::{day_dims, field_dims, pay_dims};
use cube_model::{Cube, Dims, Items, Key, NoMemory, Shape, Values};
use std::alloc::Global;

/// What a core is made of.
#[derive(Drop)]
pub struct Parts {
    /// The dimensions and the measures.
    pub dims: Dims,
    /// The points, with their numbers of facts.
    pub shape: Shape,
    /// The values of each measure.
    pub cube: Cube,
}

fn put(alloc: Global, points: &mut Items<Key>, first: u32, second: u32) -> Result<(), NoMemory>
    ensures { OnOk result (points.new ≡ points.old ++ two first second ∷ []) }
{
    let mut point = Key::new(alloc);
    point.push(first)?;
    point.push(second)?;
    points.push(point)
}

/// The points of the pay cube: nobody works in Nice in February.
fn pay_points(alloc: Global) -> Result<Items<Key>, NoMemory>
    ensures { IfOk result (λ made. made ≡ pay_core.shape.points) }
{
    let mut points = Items::new(alloc);
    put(alloc, &mut points, 0, 0)?;
    put(alloc, &mut points, 0, 1)?;
    put(alloc, &mut points, 1, 0)?;
    put(alloc, &mut points, 2, 0)?;
    put(alloc, &mut points, 2, 1)?;
    Ok(points)
}

/// The values of pay and of hours at these points.
fn pay_values(alloc: Global) -> Result<Cube, NoMemory>
    ensures { IfOk result (λ made. made ≡ pay_core.cube) }
{
    let mut cube = Cube::new(alloc);
    cube.push(Values::from_vec(vec![in alloc; 10, 20, 30, 40, 50]?))?;
    cube.push(Values::from_vec(vec![in alloc; 1, 2, 3, 4, 5]?))?;
    Ok(cube)
}

/// The pay cube, with two people in Paris in February.
#[tactic(auto, using(crate::proofs::Worked::is_pay_core))]
pub fn pay(alloc: Global) -> Result<Parts, NoMemory>
    ensures is { IfOk result (λ made. pay_core ≡ record { dims = made.dims; shape = made.shape; cube = made.cube }) }
    ensures rules { IfOk result (λ made. IsCore (record { dims = made.dims; shape = made.shape; cube = made.cube })) }
{
    let points = pay_points(alloc)?;
    let facts = Items::from_vec(vec![in alloc; 1, 1, 1, 1, 2]?);
    Ok(Parts {
        dims: pay_dims(alloc)?,
        shape: Shape { points, facts },
        cube: pay_values(alloc)?,
    })
}

/// The pay cube with one fact at each point.
#[tactic(auto, using(crate::proofs::Worked::is_pay_cube))]
pub fn pay_of_one_each(alloc: Global) -> Result<Parts, NoMemory>
    ensures is { IfOk result (λ made. pay_cube ≡ record { dims = made.dims; shape = made.shape; cube = made.cube }) }
    ensures rules { IfOk result (λ made. IsCore (record { dims = made.dims; shape = made.shape; cube = made.cube })) }
{
    let points = pay_points(alloc)?;
    let facts = Items::from_vec(vec![in alloc; 1, 1, 1, 1, 1]?);
    Ok(Parts {
        dims: pay_dims(alloc)?,
        shape: Shape { points, facts },
        cube: pay_values(alloc)?,
    })
}

/// The points of all cities in all months.
fn full_points(alloc: Global) -> Result<Items<Key>, NoMemory>
    ensures { IfOk result (λ made. made ≡ full_core.shape.points) }
{
    let mut points = Items::new(alloc);
    put(alloc, &mut points, 0, 0)?;
    put(alloc, &mut points, 0, 1)?;
    put(alloc, &mut points, 1, 0)?;
    put(alloc, &mut points, 1, 1)?;
    put(alloc, &mut points, 2, 0)?;
    put(alloc, &mut points, 2, 1)?;
    Ok(points)
}

/// The same dimensions with a fact in each city in each month.
#[tactic(auto, using(crate::proofs::Worked::is_full_core))]
pub fn full(alloc: Global) -> Result<Parts, NoMemory>
    ensures is { IfOk result (λ made. full_core ≡ record { dims = made.dims; shape = made.shape; cube = made.cube }) }
    ensures rules { IfOk result (λ made. IsCore (record { dims = made.dims; shape = made.shape; cube = made.cube })) }
{
    let points = full_points(alloc)?;
    let facts = Items::from_vec(vec![in alloc; 1, 1, 1, 1, 1, 1]?);
    let mut cube = Cube::new(alloc);
    cube.push(Values::from_vec(vec![in alloc; 1, 2, 3, 4, 5, 6]?))?;
    cube.push(Values::from_vec(vec![in alloc; 0, 0, 0, 0, 0, 0]?))?;
    Ok(Parts {
        dims: pay_dims(alloc)?,
        shape: Shape { points, facts },
        cube,
    })
}

/// Puts the points of a city at the end: Monday, one day in the midst, Thursday and Friday.
fn put_days(alloc: Global, points: &mut Items<Key>, city: u32, midst: u32) -> Result<(), NoMemory>
    ensures { OnOk result (points.new ≡ points.old ++ two city 0 ∷ two city midst ∷ two city 3 ∷ two city 4 ∷ []) }
{
    put(alloc, points, city, 0)?;
    put(alloc, points, city, midst)?;
    put(alloc, points, city, 3)?;
    put(alloc, points, city, 4)
}

/// The cube of days: values are powers of two, so that each sum tells what was added.
#[tactic(auto, using(crate::proofs::Worked::is_day_core))]
pub fn days(alloc: Global) -> Result<Parts, NoMemory>
    ensures is { IfOk result (λ made. day_core ≡ record { dims = made.dims; shape = made.shape; cube = made.cube }) }
    ensures rules { IfOk result (λ made. IsCore (record { dims = made.dims; shape = made.shape; cube = made.cube })) }
{
    let mut points = Items::new(alloc);
    put_days(alloc, &mut points, 0, 1)?;
    put_days(alloc, &mut points, 1, 2)?;
    put_days(alloc, &mut points, 2, 1)?;
    let facts = Items::from_vec(vec![in alloc; 1, 1, 1, 1, 1, 1, 1, 1, 1, 1, 1, 1]?);
    let values = vec![in alloc; 1, 2, 4, 8, 16, 32, 64, 128, 256, 512, 1024, 2048]?;
    let mut cube = Cube::new(alloc);
    cube.push(Values::from_vec(values))?;
    Ok(Parts {
        dims: day_dims(alloc)?,
        shape: Shape { points, facts },
        cube,
    })
}

/// Fields of two rows and three columns, of which some have a fact.
#[tactic(auto, using(crate::proofs::Worked::are_some_fields))]
pub fn some_fields(alloc: Global) -> Result<Parts, NoMemory>
    ensures is { IfOk result (λ made. some_fields ≡ record { dims = made.dims; shape = made.shape; cube = made.cube }) }
    ensures rules { IfOk result (λ made. IsCore (record { dims = made.dims; shape = made.shape; cube = made.cube })) }
{
    let mut points = Items::new(alloc);
    put(alloc, &mut points, 0, 1)?;
    put(alloc, &mut points, 1, 0)?;
    put(alloc, &mut points, 1, 2)?;
    let facts = Items::from_vec(vec![in alloc; 1, 1, 1]?);
    let mut cube = Cube::new(alloc);
    cube.push(Values::from_vec(vec![in alloc; 7, 8, 9]?))?;
    Ok(Parts {
        dims: field_dims(alloc)?,
        shape: Shape { points, facts },
        cube,
    })
}

/// Puts the points of a row at the end.
fn put_row(alloc: Global, points: &mut Items<Key>, row: u32) -> Result<(), NoMemory>
    ensures { OnOk result (points.new ≡ points.old ++ two row 0 ∷ two row 1 ∷ two row 2 ∷ []) }
{
    put(alloc, points, row, 0)?;
    put(alloc, points, row, 1)?;
    put(alloc, points, row, 2)
}

/// Fields of two rows and three columns, each with a fact.
#[tactic(auto, using(crate::proofs::Worked::are_all_fields))]
pub fn all_fields(alloc: Global) -> Result<Parts, NoMemory>
    ensures is { IfOk result (λ made. all_fields ≡ record { dims = made.dims; shape = made.shape; cube = made.cube }) }
    ensures rules { IfOk result (λ made. IsCore (record { dims = made.dims; shape = made.shape; cube = made.cube })) }
{
    let mut points = Items::new(alloc);
    put_row(alloc, &mut points, 0)?;
    put_row(alloc, &mut points, 1)?;
    let facts = Items::from_vec(vec![in alloc; 1, 1, 1, 1, 1, 1]?);
    let mut cube = Cube::new(alloc);
    cube.push(Values::from_vec(vec![in alloc; 1, 2, 3, 4, 5, 6]?))?;
    Ok(Parts {
        dims: field_dims(alloc)?,
        shape: Shape { points, facts },
        cube,
    })
}
