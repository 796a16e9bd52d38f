// The cells of a core.
ghost use Rattle.std.specs.Prelude.{◌≡◌, ◌+◌, ◌<◌, ◌≤◌, ℕ, [], true, length, map, slice_index_or, IfOk};
ghost use Rattle.std.specs.List.{sum_by, AllByRecursion};
ghost use Rattle.cube_core.specs.Rows.{ArePlaces};
ghost use Rattle.cube_model.specs.Cubes.{are_levels};
ghost use Rattle.cube_model.specs.Dims.{plains};
ghost use Rattle.cube_rollup.specs.Cuboids.{first_of_row, sums_of, AreRowsOf, IsCuboidOf};
ghost use Rattle.cube_core.specs.Tallies.{summed_row};

use crate::Cuboid;
use cube_core::{Core, Steps};
use cube_model::{
    Answer, AnswerRow, Items, Key, Levels, NoMemory, Request, Row, Rows, Values, What,
};
use std::alloc::Global;
use std::sync::ledger::Ledger;

/// The point of the first place of a row.
fn first_point(alloc: Global, core: &Core, row: &Row) -> Result<Key, NoMemory>
    requires places { AreRowsOf (length core.now.shape.points) row.now }
    ensures { IfOk result (λ point. point ≡ first_of_row core.now row.now) }
{
    let place = row.places.as_slice()[0];
    core.shape().points.as_slice()[place as usize].copied(alloc)
}

/// The point of the first place of each row.
fn first_points(alloc: Global, core: &Core, rows: &[Row]) -> Result<Items<Key>, NoMemory>
    requires { AllByRecursion (AreRowsOf (length core.now.shape.points)) rows.now }
    ensures { IfOk result (λ points. points ≡ map (first_of_row core.now) rows.now) }
{
    let mut points = Items::new(alloc);
    'rows: for row in rows {
        points.push(first_point(alloc, core, row)?)?;
    }
    Ok(points)
}

/// The sums of a measure over the places of each row.
fn sum_rows<L: Ledger>(
    alloc: Global,
    core: &Core,
    measure: u32,
    rows: Rows,
    steps: &mut Steps<L>,
) -> Result<Answer, NoMemory>
    requires measure { measure < length core.now.dims.measures }
    requires rows { AllByRecursion (AreRowsOf (length core.now.shape.points)) rows }
    ensures sums { IfOk result (λ cells. cells ≡ map (summed_row (slice_index_or core.now.cube measure [])) rows) }
    ensures steps { steps.new ≤ steps.old + sum_by (λ row. length row.places) rows }
{
    let mut cells = Answer::new(alloc);
    'rows: for row in rows.into_vec() {
        let sum = core.sum_row(&row, measure, steps);
        cells.push(AnswerRow { key: row.key, sum })?;
    }
    Ok(cells)
}

/// The sums of cells by themselves.
fn sums_in(alloc: Global, cells: &[AnswerRow]) -> Result<Values, NoMemory>
    ensures { IfOk result (λ sums. sums ≡ sums_of cells.now) }
{
    let mut sums = Items::new(alloc);
    'cells: for cell in cells {
        sums.push(cell.sum)?;
    }
    Ok(sums)
}

impl Cuboid {
    /// The nonempty cells of a core at some levels, with the sums of a measure. It reads each value
    /// of the measure at most once.
    pub fn build<L: Ledger>(
        alloc: Global,
        core: &Core,
        levels: &Levels,
        measure: u32,
        steps: &mut Steps<L>,
    ) -> Result<Self, NoMemory>
        requires levels { are_levels (plains core.now.dims) levels.now ≡ true }
        requires measure { measure < length core.now.dims.measures }
        ensures levels { IfOk result (λ cuboid. cuboid.levels ≡ levels.now) }
        ensures measure { IfOk result (λ cuboid. cuboid.measure ≡ measure) }
        ensures stands { IfOk result (λ cuboid. IsCuboidOf core.now cuboid) }
        ensures steps { steps.new ≤ steps.old + length core.now.shape.points }
    {
        let _rules = core.dims();
        let kept = levels.copied(alloc)?;
        let request = Request::whole(alloc, What::Measure(measure), levels)?;
        let rows = core.rows(alloc, &request)?;
        let points = first_points(alloc, core, rows.as_slice())?;
        let cells = sum_rows(alloc, core, measure, rows, steps)?;
        let sums = sums_in(alloc, cells.as_slice())?;
        Ok(Cuboid::from_parts(kept, measure, cells, sums, points))
    }
}
