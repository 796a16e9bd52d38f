// The cells of a cuboid.
ghost use Rattle.std.specs.Prelude.{◌≡◌, ◌+◌, ◌<◌, ◌≤◌, length, slice_index_or, pos};
ghost use Rattle.cube_rollup.specs.Cuboids.{sums_of};
ghost use Rattle.cube_core.specs.Tallies.{AreBounded};

use cube_core::Steps;
use cube_model::{Answer, Items, Key, Levels, Values};
use std::marker::Model;
use std::sync::ledger::Ledger;

/// The nonempty cells of a cuboid, in the order of their keys, each with the sum of one measure over
/// the places that it covers.
///
/// A contract sees the levels, the measure, the cells with their sums, and a point of each cell.
#[derive(Drop)]
pub struct Cuboid {
    levels: Levels,
    measure: u32,
    cells: Answer,
    // The sums of the cells by themselves, side by side.
    sums: Values,
    points: Items<Key>,
}

impl Model for Cuboid {
    ghost use Rattle.std.specs.Prelude.{◌≡◌, ◌≤◌, length};
    ghost use Rattle.cube_rollup.specs.Cuboids as said;
    ghost use Rattle.cube_rollup.specs.Cuboids.{sums_of};
    ghost use Rattle.cube_core.specs.Tallies.{AreBounded};

    ghost Value = { said.Cuboid };

    ghost view = { λ s. record { levels = s.levels; measure = s.measure; cells = s.cells; points = s.points } };

    ghost invariant = { λ s. (length s.cells ≤ 65536) × AreBounded (sums_of s.cells) × (s.sums ≡ sums_of s.cells) };
}

impl Cuboid {
    /// A cuboid of its parts.
    pub(crate) fn from_parts(
        levels: Levels,
        measure: u32,
        cells: Answer,
        sums: Values,
        points: Items<Key>,
    ) -> Self
        requires few { length cells ≤ 65536 }
        requires sums { sums ≡ sums_of cells }
        requires bounded { AreBounded (sums_of cells) }
        ensures { result ≡ record { levels = levels; measure = measure; cells = cells; points = points } }
    {
        Cuboid {
            levels,
            measure,
            cells,
            sums,
            points,
        }
    }

    /// The level of each dimension.
    pub fn levels(&self) -> &Levels
        ensures { result.now ≡ self.now.levels }
    {
        &self.levels
    }

    /// The measure that is summed.
    pub fn measure(&self) -> u32
        ensures { result ≡ self.now.measure }
    {
        self.measure
    }

    /// A point of each cell.
    pub fn points(&self) -> &[Key]
        ensures { result.now ≡ self.now.points }
    {
        self.points.as_slice()
    }

    /// The sum of each cell.
    pub(crate) fn sums(&self) -> &[i64]
        ensures { result.now ≡ sums_of self.now.cells }
    {
        self.sums.as_slice()
    }

    /// How many cells there are.
    pub fn cells(&self) -> u32
        ensures cells { result ≡ length self.now.cells }
        ensures few { result ≤ 65536 }
        ensures bounded { AreBounded (sums_of self.now.cells) }
    {
        self.cells.len() as u32
    }

    /// The cells with their sums, as they stand. One step for each.
    pub(crate) fn all_cells<L: Ledger>(&self, steps: &mut Steps<L>) -> &Answer
        ensures cells { result.now ≡ self.now.cells }
        ensures steps { steps.new ≡ steps.old + length self.now.cells }
    {
        'cells: for _cell in self.cells.as_slice() {
            steps.tick();
        }
        &self.cells
    }

    /// The sum of a cell. One step.
    pub fn cell<L: Ledger>(&self, i: u32, steps: &mut Steps<L>) -> i64
        requires { i < length self.now.cells }
        ensures sum { result ≡ slice_index_or (sums_of self.now.cells) i (pos 0) }
        ensures step { steps.new ≡ steps.old + 1 }
    {
        steps.tick();
        self.cells.as_slice()[i as usize].sum
    }
}
