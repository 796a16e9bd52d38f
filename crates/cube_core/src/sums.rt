// Plain sums over the places of a row.
ghost use Rattle.std.specs.Prelude.{◌≡◌, ◌+◌, ◌<◌, ◌≤◌, [], length, map, slice_index_or, pos};
ghost use Rattle.cube_model.specs.Cores.{IsSumOf};
ghost use Rattle.cube_model.specs.Requests.{total};
ghost use Rattle.cube_core.specs.Rows.{ArePlaces};

use crate::{Core, Steps};
use cube_model::Row;
use std::sync::ledger::Ledger;

impl Core {
    /// The sum of a measure over the places of a row. One step for each place.
    pub fn sum_row<L: Ledger>(&self, row: &Row, measure: u32, steps: &mut Steps<L>) -> i64
        requires measure { measure < length self.now.dims.measures }
        requires places { ArePlaces (length self.now.shape.points) row.now.places }
        ensures sum { result ≡ total (slice_index_or self.now.cube measure []) row.now.places }
        ensures bound { IsSumOf 1000000 result }
        ensures steps { steps.new ≡ steps.old + length row.now.places }
    {
        let values = self.values(measure);
        let mut sum = 0;
        'places: for place in row.places.as_slice() {
            sum += steps.read(values, *place);
        }
        sum
    }

    /// The number of facts at the places of a row.
    pub fn count_row(&self, row: &Row) -> u64
        requires { ArePlaces (length self.now.shape.points) row.now.places }
        ensures count { pos result ≡ total (map pos self.now.shape.facts) row.now.places }
        ensures small { result ≤ 1000000 }
    {
        let facts = self.shape().facts.as_slice();
        let mut count = 0;
        'places: for place in row.places.as_slice() {
            count += facts[*place as usize];
        }
        count
    }
}
