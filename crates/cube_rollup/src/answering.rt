// Answers from cells.
ghost use Rattle.std.specs.Prelude.{◌≡◌, ◌+◌, ◌≤◌, true, None, length, map, flat_map, is_none, is_some, option_copied, IfOk};
ghost use Rattle.std.specs.List.{list_all, sum_by, AllByRecursion};
ghost use Rattle.std.specs.Option.{ForNone, IfSome};
ghost use Rattle.cube_core.specs.Rows.{ArePlaces};
ghost use Rattle.cube_model.specs.Cores.{Core, world};
ghost use Rattle.cube_model.specs.Cubes.{is_finer, same};
ghost use Rattle.cube_model.specs.Dims.{plains};
ghost use Rattle.cube_model.specs.Requests as requests;
ghost use Rattle.cube_model.specs.Requests.{asks, fits, grain, total};
ghost use Rattle.cube_model.specs.declared.policy.Policy.{Policy};
ghost use Rattle.cube_rollup.specs.Cuboids as said;
ghost use Rattle.cube_rollup.specs.Cuboids.{sums_of, IsCuboidOf, StandsWith};
ghost use Rattle.cube_core.specs.Grouping.{pointed, ArePoints};
ghost use Rattle.cube_core.specs.Tallies.{row_of_tally, summed_row};

use crate::Cuboid;
use cube_core::{Steps, Tally, rows_of, sums_of as sums_over, tallies_of};
use cube_model::{Answer, AnswerRow, Dims, NoMemory, Pick, Request, Row, Rows};
use std::alloc::Global;
use std::sync::ledger::Ledger;

/// Whether no dimension is picked from.
fn are_none(picks: &[Option<Pick>]) -> bool
    ensures { result ≡ list_all is_none picks.now }
{
    picks.iter().all(|pick| pick.is_none())
}

/// Whether two cuboids have the same levels.
fn are_same(levels: &[u32], others: &[u32]) -> bool
    ensures { result ≡ same levels.now others.now }
{
    levels == others
}

/// Whether a request groups at just some levels and picks nothing.
fn takes_all(levels: &[u32], request: &Request) -> bool
    ensures { result ≡ said.takes_all levels.now request.now }
{
    are_same(levels, request.group.as_slice()) && are_none(request.picks.as_slice())
}

impl Cuboid {
    /// The sum over the cells of a row, whose places are the numbers of cells. One step for each.
    fn sum_row<L: Ledger>(&self, row: &Row, steps: &mut Steps<L>) -> i64
        requires { ArePlaces (length self.now.cells) row.now.places }
        ensures sum { result ≡ total (sums_of self.now.cells) row.now.places }
        ensures steps { steps.new ≡ steps.old + length row.now.places }
    {
        let _bounds = self.cells();
        let mut sum = 0;
        'cells: for place in row.places.as_slice() {
            sum += self.cell(*place, steps);
        }
        sum
    }

    /// The sums over the cells of each row.
    fn sum_rows<L: Ledger>(
        &self,
        alloc: Global,
        rows: Rows,
        steps: &mut Steps<L>,
    ) -> Result<Answer, NoMemory>
        requires { AllByRecursion (λ row. ArePlaces (length self.now.cells) row.places) rows }
        ensures sums { IfOk result (λ answer. answer ≡ map (summed_row (sums_of self.now.cells)) rows) }
        ensures steps { steps.new ≤ steps.old + sum_by (λ row. length row.places) rows }
    {
        let mut answer = Answer::new(alloc);
        'rows: for row in rows.into_vec() {
            let sum = self.sum_row(&row, steps);
            answer.push(AnswerRow { key: row.key, sum })?;
        }
        Ok(answer)
    }

    /// The answer to a request for the cuboid's measure whose grain the cuboid is finer than or equal
    /// to: the rows that the request has in a core for which the cuboid stands, with their plain sums.
    ///
    /// It groups the cells and reads each at most once.
    pub fn answer<L: Ledger>(
        &self,
        alloc: Global,
        dims: &Dims,
        request: &Request,
        steps: &mut Steps<L>,
    ) -> Result<Answer, NoMemory>
        requires measure { asks self.now.measure request.now ≡ true }
        requires fits { fits (plains dims.now) request.now.group request.now.picks ≡ true }
        requires finer { is_finer self.now.levels (grain request.now) ≡ true }
        requires stands { StandsWith dims.now self.now }
        ensures answer { IfOk result (λ answer. (core : Core) (p : Policy) → core.dims ≡ dims.now → IsCuboidOf core self.now → answer ≡ requests.answer (world core p) request.now) }
        ensures steps { steps.new ≤ steps.old + length self.now.cells }
    {
        let _bounds = self.cells();
        let points = self.points();
        let found = sums_over(alloc, dims, points, request, self.sums(), steps)?;
        if let Some(answer) = found {
            return Ok(answer);
        }
        let rows = rows_of(alloc, dims, points, request)?;
        self.sum_rows(alloc, rows, steps)
    }

    /// The tallies of the keys of a request for the cuboid's measure whose grain the cuboid is finer than or equal to, over
    /// the cells with their points, if the grouping levels have at most four keys for each cell: their rows are the answer.
    ///
    /// It reads each cell at most once.
    pub fn tallies<L: Ledger>(
        &self,
        alloc: Global,
        dims: &Dims,
        request: &Request,
        steps: &mut Steps<L>,
    ) -> Result<Option<Vec<Tally>>, NoMemory>
        requires measure { asks self.now.measure request.now ≡ true }
        requires fits { fits (plains dims.now) request.now.group request.now.picks ≡ true }
        requires finer { is_finer self.now.levels (grain request.now) ≡ true }
        requires stands { StandsWith dims.now self.now }
        ensures answer { IfOk result (λ found. IfSome found (λ tallies. (core : Core) (p : Policy) → core.dims ≡ dims.now → IsCuboidOf core self.now → flat_map (row_of_tally (pointed dims.now self.now.points) request.now) tallies.items ≡ requests.answer (world core p) request.now)) }
        ensures marks { IfOk result (λ found. IfSome found (λ tallies. AllByRecursion (λ tally. tally.mark ≤ length self.now.points) tallies.items)) }
        ensures points { ArePoints (plains dims.now) self.now.points }
        ensures steps { steps.new ≤ steps.old + length self.now.cells }
        ensures none { IfOk result (λ found. found ≡ None → steps.new ≡ steps.old) }
    {
        let _bounds = self.cells();
        let points = self.points();
        tallies_of(alloc, dims, points, request, self.sums(), steps)
    }

    /// The answer to a request for the cuboid's measure, where the cells are the answer as they stand:
    /// where the request groups at just the cuboid's levels and picks nothing.
    ///
    /// One step for each cell, and none where there is nothing.
    #[tactic(auto, using(crate::proofs::Cells::kept_is))]
    pub fn kept_answer<L: Ledger>(&self, request: &Request, steps: &mut Steps<L>) -> Option<&Answer>
        requires measure { asks self.now.measure request.now ≡ true }
        ensures answer { IfSome (option_copied result) (λ answer. (core : Core) (p : Policy) → IsCuboidOf core self.now → answer ≡ requests.answer (world core p) request.now) }
        ensures some { is_some result ≡ said.takes_all self.now.levels request.now }
        ensures steps { steps.new ≤ steps.old + length self.now.cells }
        ensures none { ForNone (option_copied result) (steps.new ≡ steps.old) }
    {
        if takes_all(self.levels().as_slice(), request) {
            Some(self.all_cells(steps))
        } else {
            None
        }
    }
}
