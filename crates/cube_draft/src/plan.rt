// The dimensions and measures of a draft.
ghost use Rattle.std.specs.Prelude.{◌≡◌, ◌<◌, ◌-◌, ◌^◌, length, IfSome};

use crate::choices::{Choices, Stated};
use crate::columns::{copy_name, name_at, place_of, places_of};
use crate::fault::DraftFault;
use crate::hierarchy::{Determined, column_determines, count_of, has_mark, take_mark};
use crate::order::Order;
use crate::table::Table;
use cube_dims::is_name;
use cube_model::{Items, LimitKind, NoMemory, NumberedNames, Text};
use std::alloc::Global;

const MAX_DIMENSIONS: usize = 8;

const MAX_MEASURES: usize = 16;

const MAX_LEAVES: usize = 65_536;

const MAX_CUBOIDS: usize = 256;

/// A dimension of a draft: its name, the places of its columns, the finest first, and the order of
/// its paths.
#[derive(Drop)]
pub(crate) struct Planned {
    pub(crate) name: Text,
    pub(crate) columns: Items<usize>,
    pub(crate) order: Order,
}

/// The dimensions of a draft, and the places of the columns of its measures.
#[derive(Drop)]
pub(crate) struct Plan {
    pub(crate) dimensions: Items<Planned>,
    pub(crate) measures: Items<usize>,
}

// The first row in which a field is no name.
fn bad_row(names: &NumberedNames) -> Option<usize>
    ensures { IfSome result (λ row. row < 2 ^ 64 - 1) }
{
    for number in 0..names.count() {
        if !is_name(names.name(number)) {
            return first_row(names, number);
        }
    }
    None
}

// The first row in which the name with a number stands.
fn first_row(names: &NumberedNames, number: usize) -> Option<usize>
    ensures { IfSome result (λ row. row < 2 ^ 64 - 1) }
{
    for row in 0..names.len() {
        if names.number(row) as usize == number {
            return Some(row);
        }
    }
    None
}

// Checks that the fields of a column may be the names of members, and are not too many.
fn check_members(
    alloc: Global,
    table: &Table,
    place: usize,
    names: &NumberedNames,
) -> Result<(), DraftFault> {
    let header = table.header.as_slice();
    if let Some(row) = bad_row(names) {
        return Err(DraftFault::BadMember {
            row: row as u64 + 1,
            column: copy_name(alloc, name_at(header, place))?,
        });
    }
    if names.count() > MAX_LEAVES {
        return Err(DraftFault::Leaves {
            column: copy_name(alloc, name_at(header, place))?,
        });
    }
    Ok(())
}

// The columns with members that are not left out.
fn used_marks(alloc: Global, table: &Table, choices: &Choices) -> Result<Vec<bool>, DraftFault> {
    let mut marks = Vec::from_slice(alloc, table.members.as_slice())?;
    for name in choices.skipped.as_slice() {
        if let Some(place) = place_of(table.header.as_slice(), name.as_slice()) {
            take_mark(&mut marks, place);
        }
    }
    Ok(marks)
}

// Checks the columns that are marked.
fn check_columns(alloc: Global, table: &Table, marks: &[bool]) -> Result<(), DraftFault> {
    for (place, names) in table.fields.iter().enumerate() {
        if has_mark(marks, place) {
            check_members(alloc, table, place, names)?;
        }
    }
    Ok(())
}

// Checks that each of the columns determines the next.
fn check_parents(alloc: Global, table: &Table, columns: &[usize]) -> Result<(), DraftFault> {
    for upper in 1..columns.len() {
        if !column_determines(table, columns[upper - 1], columns[upper]) {
            let name = name_at(table.header.as_slice(), columns[upper - 1]);
            return Err(DraftFault::TwoParents {
                column: copy_name(alloc, name)?,
            });
        }
    }
    Ok(())
}

// A dimension of some columns.
fn plan_columns(
    alloc: Global,
    table: &Table,
    name: &[u8],
    columns: Items<usize>,
) -> Result<Planned, NoMemory> {
    Ok(Planned {
        name: copy_name(alloc, name)?,
        order: Order::of(alloc, table, columns.as_slice())?,
        columns,
    })
}

// A dimension that is stated.
fn plan_stated(alloc: Global, table: &Table, stated: &Stated) -> Result<Planned, DraftFault> {
    let columns = places_of(alloc, table.header.as_slice(), stated)?;
    check_parents(alloc, table, columns.as_slice())?;
    Ok(plan_columns(alloc, table, stated.name.as_slice(), columns)?)
}

// Takes the marks of some places away.
fn take_marks(marks: &mut Vec<bool>, places: &[usize])
    ensures { length marks.new.items ≡ length marks.old.items }
{
    for place in places {
        take_mark(marks, *place);
    }
}

// The dimensions that are stated. Their columns are left no longer.
fn plan_all_stated(
    alloc: Global,
    table: &Table,
    choices: &Choices,
    left: &mut Vec<bool>,
) -> Result<Items<Planned>, DraftFault> {
    let mut dimensions = Items::new(alloc);
    for stated in choices.dimensions.as_slice() {
        let planned = plan_stated(alloc, table, stated)?;
        take_marks(left, planned.columns.as_slice());
        dimensions.push(planned)?;
    }
    Ok(dimensions)
}

fn limit(which: LimitKind, number: usize) -> DraftFault {
    DraftFault::Limit {
        which,
        number: number as u64,
    }
}

// The dimension that is found next among the columns that are left.
fn plan_found(
    alloc: Global,
    table: &Table,
    determined: &Determined,
    left: &mut Vec<bool>,
    finest: usize,
) -> Result<Planned, DraftFault> {
    let columns = determined.chain(alloc, table, left, finest)?;
    let name = name_at(table.header.as_slice(), finest);
    Ok(plan_columns(alloc, table, name, columns)?)
}

// All dimensions, of the columns that are marked.
fn plan_dimensions(
    alloc: Global,
    table: &Table,
    choices: &Choices,
    marks: Vec<bool>,
) -> Result<Items<Planned>, DraftFault> {
    let mut left = marks;
    let mut dimensions = plan_all_stated(alloc, table, choices, &mut left)?;
    let determined = Determined::of(alloc, table, left.as_slice())?;
    for _ in 0..=MAX_DIMENSIONS {
        let Some(finest) = determined.finest(left.as_slice()) else {
            return Ok(dimensions);
        };
        let planned = plan_found(alloc, table, &determined, &mut left, finest)?;
        dimensions.push(planned)?;
    }
    Err(limit(LimitKind::Dimensions, MAX_DIMENSIONS))
}

// The places of the columns with numbers.
fn plan_measures(alloc: Global, members: &[bool]) -> Result<Items<usize>, NoMemory> {
    let mut measures = Items::new(alloc);
    for (place, mark) in members.iter().enumerate() {
        if !*mark {
            measures.push(place)?;
        }
    }
    Ok(measures)
}

// Checks how many dimensions, measures and cuboids there are.
fn check_size(plan: &Plan) -> Result<(), DraftFault> {
    if plan.dimensions.is_empty() {
        return Err(DraftFault::NoDimension);
    }
    if plan.measures.is_empty() {
        return Err(DraftFault::NoMeasure);
    }
    if plan.dimensions.len() > MAX_DIMENSIONS {
        return Err(limit(LimitKind::Dimensions, MAX_DIMENSIONS));
    }
    if plan.measures.len() > MAX_MEASURES {
        return Err(limit(LimitKind::Measures, MAX_MEASURES));
    }
    check_cuboids(plan.dimensions.as_slice())
}

fn check_cuboids(dimensions: &[Planned]) -> Result<(), DraftFault> {
    let mut count = 1usize;
    for dimension in dimensions {
        count = count.saturating_mul(dimension.columns.len().saturating_add(1));
        if count > MAX_CUBOIDS {
            return Err(limit(LimitKind::Cuboids, MAX_CUBOIDS));
        }
    }
    Ok(())
}

/// The dimensions that are stated, then those that are found, and the measures.
pub(crate) fn make_plan(
    alloc: Global,
    table: &Table,
    choices: &Choices,
) -> Result<Plan, DraftFault> {
    let marks = used_marks(alloc, table, choices)?;
    check_columns(alloc, table, marks.as_slice())?;
    let dimensions = plan_dimensions(alloc, table, choices, marks)?;
    let measures = plan_measures(alloc, table.members.as_slice())?;
    let plan = Plan {
        dimensions,
        measures,
    };
    check_size(&plan)?;
    Ok(plan)
}
