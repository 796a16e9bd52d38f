// Which columns determine which, and the hierarchies that they make.
ghost use Rattle.std.specs.Prelude.{◌≡◌, ◌<◌, [], length, not, slice_index_or};
ghost use Rattle.std.specs.Str.{bytes_eq};
ghost use Rattle.cube_model.specs.Cubes.{place_of};

use crate::apart::is_under;
use crate::table::Table;
use cube_model::{Items, NoMemory, NumberedNames};
use std::alloc::Global;

/// The most named levels of a dimension.
pub(crate) const MAX_LEVELS: usize = 5;

// Whether a row has another name above than the first row with its name below.
fn has_other_parent(below: &NumberedNames, above: &NumberedNames, row: usize) -> bool
    requires below { row < length below.now }
    requires above { length above.now ≡ length below.now }
    ensures { result ≡ not (bytes_eq (slice_index_or above.now row []) (slice_index_or above.now (place_of (slice_index_or below.now row []) below.now) [])) }
{
    above.number(row) != above.number(below.first_alike(row) as usize)
}

/// Whether no two records that agree below differ above.
pub(crate) fn determines(below: &NumberedNames, above: &NumberedNames) -> bool {
    if above.len() != below.len() || above.count() > below.count() {
        return false;
    }
    for row in 0..below.len() {
        if has_other_parent(below, above, row) {
            return false;
        }
    }
    true
}

/// For each column which others it determines. What is constant is determined by each, and is noted only where it is plainly above.
#[derive(Drop)]
pub(crate) struct Determined {
    rows: Items<Items<bool>>,
}

// Which of the marked columns a column determines, where it is marked itself.
fn determined_by(
    alloc: Global,
    table: &Table,
    marks: &[bool],
    below: usize,
) -> Result<Items<bool>, NoMemory> {
    let mut row = Items::new(alloc);
    for above in 0..marks.len() {
        row.push(
            has_mark(marks, below)
                && marks[above]
                && may_be_above(table, below, above)
                && column_determines(table, below, above),
        )?;
    }
    Ok(row)
}

// Whether each name of a column begins with the one of another, that is constant.
fn are_under(lower: &NumberedNames, upper: &NumberedNames) -> bool {
    for number in 0..lower.count() {
        if upper.count() != 1 || !is_under(upper.name(0), lower.name(number)) {
            return false;
        }
    }
    true
}

// Whether a column may be a level above another one: it is not constant, or it is plainly above.
fn may_be_above(table: &Table, below: usize, above: usize) -> bool {
    match (table.fields.get(below), table.fields.get(above)) {
        (Some(lower), Some(upper)) => upper.count() > 1 || are_under(lower, upper),
        _ => false,
    }
}

// Whether there are both columns, and one determines the other.
pub(crate) fn column_determines(table: &Table, below: usize, above: usize) -> bool {
    match (table.fields.get(below), table.fields.get(above)) {
        (Some(lower), Some(upper)) => determines(lower, upper),
        _ => false,
    }
}

/// Whether a place is marked.
pub(crate) fn has_mark(marks: &[bool], place: usize) -> bool {
    match marks.get(place) {
        Some(mark) => *mark,
        None => false,
    }
}

impl Determined {
    /// What the marked columns determine.
    pub(crate) fn of(alloc: Global, table: &Table, marks: &[bool]) -> Result<Self, NoMemory> {
        let mut rows = Items::new(alloc);
        for below in 0..marks.len() {
            rows.push(determined_by(alloc, table, marks, below)?)?;
        }
        Ok(Determined { rows })
    }

    // Whether one column determines another.
    fn holds(&self, below: usize, above: usize) -> bool {
        match self.rows.get(below) {
            Some(row) => has_mark(row.as_slice(), above),
            None => false,
        }
    }

    // Whether a column is finer than another. Of two that determine each other the earlier one is.
    fn is_finer(&self, below: usize, above: usize) -> bool {
        below != above && self.holds(below, above) && (!self.holds(above, below) || below < above)
    }

    // Whether none of the columns that are left is finer than one.
    fn is_finest(&self, left: &[bool], column: usize) -> bool {
        for other in 0..left.len() {
            if left[other] && self.is_finer(other, column) {
                return false;
            }
        }
        true
    }

    /// The first of the columns that are left than which no other is finer.
    pub(crate) fn finest(&self, left: &[bool]) -> Option<usize> {
        for column in 0..left.len() {
            if left[column] && self.is_finest(left, column) {
                return Some(column);
            }
        }
        None
    }

    // Of the columns that are left and that one determines, the first with the most members.
    fn next_upper(&self, table: &Table, left: &[bool], last: usize) -> Option<usize> {
        let mut best = None;
        let mut most = 0;
        for column in 0..left.len() {
            let many = count_of(table, column);
            if left[column] && self.holds(last, column) && many > most {
                best = Some(column);
                most = many;
            }
        }
        best
    }

    /// The hierarchy that begins with a column. Its columns are left no longer.
    pub(crate) fn chain(
        &self,
        alloc: Global,
        table: &Table,
        left: &mut Vec<bool>,
        finest: usize,
    ) -> Result<Items<usize>, NoMemory> {
        let mut columns = Items::new(alloc);
        columns.push(finest)?;
        take_mark(left, finest);
        let mut last = finest;
        for _ in 1..MAX_LEVELS {
            let Some(upper) = self.next_upper(table, left.as_slice(), last) else {
                return Ok(columns);
            };
            columns.push(upper)?;
            take_mark(left, upper);
            last = upper;
        }
        Ok(columns)
    }
}

/// Takes the mark of a place away.
pub(crate) fn take_mark(marks: &mut Vec<bool>, place: usize)
    ensures { length marks.new.items ≡ length marks.old.items }
{
    if place < marks.len() {
        marks[place] = false;
    }
}

/// How many members a column has.
pub(crate) fn count_of(table: &Table, column: usize) -> usize {
    match table.fields.get(column) {
        Some(names) => names.count(),
        None => 0,
    }
}
