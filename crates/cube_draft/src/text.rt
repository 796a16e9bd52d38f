// The texts of a draft.
ghost use Rattle.std.specs.Prelude.{◌≡◌, ◌<◌, [], length, slice_index_or};
ghost use Rattle.cube_draft.specs.Drafts.{level_name as level_words};
ghost use Rattle.cube_draft.specs.Leaves.{is_first_row};

use crate::columns::{finest_of, name_at};
use crate::hierarchy::has_mark;
use crate::plan::{Plan, Planned};
use crate::table::Table;
use cube_model::{NoMemory, NumberedNames, Text};
use cube_text::push_quoted;
use std::alloc::Global;

/// The name of a level of a column: the column's, with `_` behind `all`, which no level may be named.
pub(crate) fn level_name(column: &[u8]) -> &[u8]
    ensures { result.now ≡ level_words column.now }
{
    if column == b"all".as_slice() {
        b"all_"
    } else {
        column
    }
}

/// The name of a measure of a column: the column's, with `_` behind `count`, which no measure may be named.
pub(crate) fn measure_name(column: &[u8]) -> &[u8] {
    if column == b"count".as_slice() {
        b"count_"
    } else {
        column
    }
}

// Puts a key with a text on a line of its own.
fn push_line(text: &mut Text, key: &[u8], value: &[u8]) -> Result<(), NoMemory> {
    text.extend(key)?;
    text.extend(b" = ")?;
    push_quoted(text, value)?;
    text.extend(b"\n")
}

// Puts the names of the levels of some columns, with commas between.
fn push_levels(text: &mut Text, table: &Table, columns: &[usize]) -> Result<(), NoMemory> {
    for (level, place) in columns.iter().enumerate() {
        if level > 0 {
            text.extend(b", ")?;
        }
        push_quoted(text, level_name(name_at(table.header.as_slice(), *place)))?;
    }
    Ok(())
}

/// The field of a column in a row, or no bytes where there is none.
pub(crate) fn field_in(table: &Table, place: usize, row: usize) -> &[u8]
    ensures { result.now ≡ slice_index_or (slice_index_or table.now.fields.items place []) row [] }
{
    match table.fields.get(place) {
        Some(names) if row < names.len() => name_in(names, row),
        _ => &[],
    }
}

// The name in a place.
fn name_in(names: &NumberedNames, place: usize) -> &[u8]
    requires { place < length names.now }
    ensures { result.now ≡ slice_index_or names.now place [] }
{
    names.name(names.number(place) as usize)
}

// Puts the path that a row has in some columns on a line of its own.
fn push_path(
    text: &mut Text,
    table: &Table,
    columns: &[usize],
    row: usize,
) -> Result<(), NoMemory> {
    text.extend(b"  [")?;
    for (level, place) in columns.iter().enumerate() {
        if level > 0 {
            text.extend(b", ")?;
        }
        push_quoted(text, field_in(table, *place, row))?;
    }
    text.extend(b"],\n")
}

/// Whether a row is the first with its field in a column.
pub(crate) fn is_first(table: &Table, place: usize, row: usize) -> bool
    ensures { result ≡ is_first_row (slice_index_or table.now.fields.items place []) row }
{
    match table.fields.get(place) {
        Some(names) => row < names.len() && names.first_alike(row) as usize == row,
        None => false,
    }
}

// Says of which levels the members stand as they appear.
fn push_unordered(text: &mut Text, table: &Table, places: &[usize]) -> Result<(), NoMemory> {
    for place in places {
        text.extend(b"# the members of ")?;
        text.extend(level_name(name_at(table.header.as_slice(), *place)))?;
        text.extend(b" stand as they appear\n")?;
    }
    Ok(())
}

// Puts a path for each leaf, in their order.
fn push_paths(
    text: &mut Text,
    table: &Table,
    columns: &[usize],
    rows: &[usize],
) -> Result<(), NoMemory> {
    text.extend(b"paths = [\n")?;
    for row in rows {
        push_path(text, table, columns, *row)?;
    }
    text.extend(b"]\n")
}

// Puts the table of a dimension.
fn push_dimension(text: &mut Text, table: &Table, dimension: &Planned) -> Result<(), NoMemory> {
    let columns = dimension.columns.as_slice();
    let finest = finest_of(columns);
    let column = name_at(table.header.as_slice(), finest);
    text.extend(b"[[dimension]]\n")?;
    push_line(text, b"name", dimension.name.as_slice())?;
    if level_name(column) != column {
        push_line(text, b"column", column)?;
    }
    text.extend(b"levels = [")?;
    push_levels(text, table, columns)?;
    text.extend(b"]\n")?;
    push_unordered(text, table, dimension.order.unordered.as_slice())?;
    push_paths(text, table, columns, dimension.order.rows.as_slice())?;
    text.extend(b"\n")
}

// How many decimals the numbers of a column have.
fn decimals_of(table: &Table, place: usize) -> u32 {
    match table.decimals.get(place) {
        Some(decimals) => *decimals,
        None => 0,
    }
}

// Puts the table of a measure.
fn push_measure(text: &mut Text, table: &Table, place: usize) -> Result<(), NoMemory> {
    let column = name_at(table.header.as_slice(), place);
    let name = measure_name(column);
    text.extend(b"[[measure]]\n")?;
    push_line(text, b"name", name)?;
    if name != column {
        push_line(text, b"column", column)?;
    }
    text.extend(b"decimals = ")?;
    text.push_number(u64::from(decimals_of(table, place)))?;
    text.extend(b"\n")
}

/// The dimension file of a plan.
pub(crate) fn dims_text(alloc: Global, table: &Table, plan: &Plan) -> Result<Text, NoMemory> {
    let mut text = Text::new(alloc);
    for dimension in plan.dimensions.as_slice() {
        push_dimension(&mut text, table, dimension)?;
    }
    for (number, place) in plan.measures.as_slice().iter().enumerate() {
        if number > 0 {
            text.extend(b"\n")?;
        }
        push_measure(&mut text, table, *place)?;
    }
    Ok(text)
}

// Puts the method of a measure.
fn push_method(text: &mut Text, table: &Table, place: usize) -> Result<(), NoMemory> {
    text.extend(b"[[measure]]\n")?;
    push_line(
        text,
        b"name",
        measure_name(name_at(table.header.as_slice(), place)),
    )?;
    push_line(text, b"method", b"lattice")?;
    text.extend(b"\n")
}

// The name of the finest level of a dimension.
fn finest_name<'a>(table: &'a Table, dimension: &Planned) -> &'a [u8] {
    let finest = finest_of(dimension.columns.as_slice());
    level_name(name_at(table.header.as_slice(), finest))
}

// Puts the finest level of each dimension that is named.
fn push_below(
    text: &mut Text,
    table: &Table,
    dimensions: &[Planned],
    named: &[bool],
) -> Result<(), NoMemory> {
    text.extend(b"below = {")?;
    let mut gap = b" ".as_slice();
    for (number, dimension) in dimensions.iter().enumerate() {
        if has_mark(named, number) {
            text.extend(gap)?;
            push_quoted(text, dimension.name.as_slice())?;
            text.extend(b" = ")?;
            push_quoted(text, finest_name(table, dimension))?;
            gap = b", ".as_slice();
        }
    }
    text.extend(b" }\n")
}

// Puts the object that protects a measure.
fn push_object(
    text: &mut Text,
    table: &Table,
    plan: &Plan,
    named: &[bool],
    place: usize,
) -> Result<(), NoMemory> {
    text.extend(b"[[object]]\n")?;
    push_line(
        text,
        b"measure",
        measure_name(name_at(table.header.as_slice(), place)),
    )?;
    push_below(text, table, plan.dimensions.as_slice(), named)
}

// For each dimension whether an object names it: those that are not plainly time, or all where
// each is.
fn named_of(alloc: Global, dimensions: &[Planned]) -> Result<Vec<bool>, NoMemory> {
    let all = dimensions.iter().all(|dimension| dimension.order.is_time);
    let mut named = Vec::new(alloc);
    for dimension in dimensions {
        named.push(all || !dimension.order.is_time)?;
    }
    Ok(named)
}

// Puts the finest level of each dimension that is named, with commas between.
fn push_cells(
    text: &mut Text,
    table: &Table,
    dimensions: &[Planned],
    named: &[bool],
) -> Result<(), NoMemory> {
    let mut gap = b" ".as_slice();
    for (number, dimension) in dimensions.iter().enumerate() {
        if has_mark(named, number) {
            text.extend(gap)?;
            text.extend(dimension.name.as_slice())?;
            text.extend(b".")?;
            text.extend(finest_name(table, dimension))?;
            gap = b", ".as_slice();
        }
    }
    Ok(())
}

// Puts the names of the dimensions that are not named by an object, with commas between.
fn push_times(text: &mut Text, dimensions: &[Planned], named: &[bool]) -> Result<(), NoMemory> {
    let mut gap = b" ".as_slice();
    for (number, dimension) in dimensions.iter().enumerate() {
        if !has_mark(named, number) {
            text.extend(gap)?;
            text.extend(dimension.name.as_slice())?;
            gap = b", ".as_slice();
        }
    }
    Ok(())
}

// Says which dimensions are time, and whether sums over it are protected.
fn push_time_note(text: &mut Text, dimensions: &[Planned], named: &[bool]) -> Result<(), NoMemory> {
    if named.contains(&false) {
        text.extend(b", at each time and over all time.\n")?;
        text.extend(b"# Time is left out of \"below\", so that sums over it are protected too:")?;
        push_times(text, dimensions, named)?;
        text.extend(b".\n")
    } else if dimensions.iter().any(|dimension| dimension.order.is_time) {
        text.extend(b".\n# Each dimension is time, so that sums over time are not protected.\n")
    } else {
        text.extend(b".\n# No dimension is plainly time.\n")
    }
}

// Says which cells are protected, and which are not.
fn push_notes(
    text: &mut Text,
    table: &Table,
    dimensions: &[Planned],
    named: &[bool],
) -> Result<(), NoMemory> {
    text.extend(b"# Protected: the sum of each measure at each cell of")?;
    push_cells(text, table, dimensions, named)?;
    push_time_note(text, dimensions, named)?;
    text.extend(b"# Not protected: sums over several of these cells.\n")?;
    text.extend(
        b"# Facts are counted, people are not: a sum of many facts of few people may be told.\n\n",
    )
}

/// The policy file of a plan: under it each measure is protected at each combination of leaves,
/// and so are its sums over time.
pub(crate) fn policy_text(alloc: Global, table: &Table, plan: &Plan) -> Result<Text, NoMemory> {
    let mut text = Text::new(alloc);
    let named = named_of(alloc, plan.dimensions.as_slice())?;
    push_notes(
        &mut text,
        table,
        plan.dimensions.as_slice(),
        named.as_slice(),
    )?;
    for place in plan.measures.as_slice() {
        push_method(&mut text, table, *place)?;
    }
    for (number, place) in plan.measures.as_slice().iter().enumerate() {
        if number > 0 {
            text.extend(b"\n")?;
        }
        push_object(&mut text, table, plan, named.as_slice(), *place)?;
    }
    Ok(text)
}
