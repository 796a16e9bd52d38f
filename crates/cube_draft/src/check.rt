// Whether dimensions that were read are true of the columns that they were drafted from.
ghost use Rattle.std.specs.Prelude.{◌≡◌, ◌<◌, ℕ, List, [], length, true, slice_index_or};
ghost use Rattle.std.specs.List.{list_all, list_any};
ghost use Rattle.std.specs.Str.{bytes_eq};
ghost use Rattle.cube_model.specs.Dims.{IsDims};
ghost use Rattle.cube_draft.specs.Drafts.{IsAmong, AreTrue, IsCovered, is_used, is_covered};
ghost use Rattle.cube_draft.specs.Kept.{IsMarked, Holds, IsKept, kept_path, level_names};

use crate::columns::{finest_of, name_at};
use crate::hierarchy::has_mark;
use crate::plan::Planned;
use crate::table::Table;
use crate::text::{field_in, level_name};
use cube_model::{Dimension, Dims, Measure, NumberedNames, Text, Texts};

// Whether two texts are the same.
fn are_same(one: &[u8], other: &[u8]) -> bool
    ensures { result ≡ true → one.now ≡ other.now }
{
    one == other
}

// Whether levels are named as some columns are.
fn are_named(levels: &[Text], header: &[Text], columns: &[usize]) -> bool
    ensures { result ≡ true → levels.now ≡ level_names header.now columns.now }
{
    if levels.len() != columns.len() {
        return false;
    }
    for level in 0..levels.len() {
        let name = level_name(name_at(header, columns[level]));
        if !are_same(levels[level].as_slice(), name) {
            return false;
        }
    }
    true
}

// Whether a path has the fields of a row in some columns.
fn is_path(path: &[Text], table: &Table, columns: &[usize], row: usize) -> bool
    ensures { result ≡ true → path.now ≡ kept_path table.now.fields.items columns.now row }
{
    if path.len() != columns.len() {
        return false;
    }
    for level in 0..path.len() {
        let field = field_in(table, columns[level], row);
        if !are_same(path[level].as_slice(), field) {
            return false;
        }
    }
    true
}

/// The number of the member of a row in a column.
pub(crate) fn number_in(table: &Table, place: usize, row: usize) -> usize {
    match table.fields.get(place) {
        Some(names) if row < names.len() => names.number(row) as usize,
        _ => 0,
    }
}

// Whether the fields of a row in some columns are a path among others, that of its leaf.
fn has_path(paths: &[Texts], table: &Table, columns: &[usize], leaf: usize, row: usize) -> bool
    ensures { result ≡ true → IsAmong paths.now (kept_path table.now.fields.items columns.now row) }
{
    leaf < paths.len() && is_path(paths[leaf].as_slice(), table, columns, row)
}

// The first row that has the field of a row in a column.
fn first_in(table: &Table, place: usize, row: usize) -> usize {
    match table.fields.get(place) {
        Some(names) if row < names.len() => names.first_alike(row) as usize,
        _ => row,
    }
}

// Whether the same name stands in two places.
fn are_alike(names: &NumberedNames, one: usize, other: usize) -> bool
    ensures { result ≡ true → slice_index_or names.now one [] ≡ slice_index_or names.now other [] }
{
    if one >= names.len() {
        return false;
    }
    if other >= names.len() {
        return false;
    }
    names.number(one) == names.number(other)
}

// Whether a column has the same field in two rows.
fn has_same(table: &Table, place: usize, one: usize, other: usize) -> bool
    ensures { result ≡ true → slice_index_or (slice_index_or table.now.fields.items place []) one [] ≡ slice_index_or (slice_index_or table.now.fields.items place []) other [] }
{
    place < table.fields.len() && are_alike(&table.fields[place], one, other)
}

/// Whether some columns have the same fields in two rows.
pub(crate) fn have_same(table: &Table, columns: &[usize], one: usize, other: usize) -> bool
    ensures { result ≡ true → kept_path table.now.fields.items columns.now one ≡ kept_path table.now.fields.items columns.now other }
{
    for level in 0..columns.len() {
        if !has_same(table, columns[level], one, other) {
            return false;
        }
    }
    true
}

// The place in which the path of a leaf is expected.
fn expected_at(places: &[usize], leaf: usize) -> usize {
    match places.get(leaf) {
        Some(place) => *place,
        None => leaf,
    }
}

// Whether the fields of a row in some columns are a path among others, where those of the earlier rows are. Only the first row of
// a leaf is compared byte by byte, with the path in the place that is expected.
fn goes_on(paths: &[Texts], table: &Table, columns: &[usize], places: &[usize], row: usize) -> bool
    requires { (k : ℕ) → k < row → IsAmong paths.now (kept_path table.now.fields.items columns.now k) }
    ensures { result ≡ true → IsAmong paths.now (kept_path table.now.fields.items columns.now row) }
{
    let finest = finest_of(columns);
    let first = first_in(table, finest, row);
    if first < row && have_same(table, columns, first, row) {
        return true;
    }
    let leaf = number_in(table, finest, row);
    has_path(paths, table, columns, expected_at(places, leaf), row)
}

// Whether the fields of each row in some columns are a path among others.
fn have_paths(paths: &[Texts], table: &Table, columns: &[usize], places: &[usize]) -> bool
    ensures { result ≡ true → (row : ℕ) → row < table.now.rows → IsAmong paths.now (kept_path table.now.fields.items columns.now row) }
{
    for row in 0..table.rows {
        if !goes_on(paths, table, columns, places, row) {
            return false;
        }
    }
    true
}

/// Whether some columns are marked.
pub(crate) fn are_marked(members: &[bool], columns: &[usize]) -> bool
    ensures { result ≡ true → (k : ℕ) → k < length columns.now → (slice_index_or columns.now k 0 < length members.now) × IsMarked members.now (slice_index_or columns.now k 0) }
{
    for level in 0..columns.len() {
        if !is_marked(members, columns[level]) {
            return false;
        }
    }
    true
}

// Whether a place is marked.
fn is_marked(members: &[bool], place: usize) -> bool
    ensures { result ≡ true → (place < length members.now) × IsMarked members.now place }
{
    place < members.len() && members[place]
}

// Whether some columns make a dimension, its paths in these places.
fn are_levels(dimension: &Dimension, table: &Table, columns: &[usize], places: &[usize]) -> bool
    ensures { result ≡ true → IsKept table.now.header table.now.members.items table.now.fields.items table.now.rows dimension.now }
{
    let [finest, ..] = columns else {
        return false;
    };
    let header = table.header.as_slice();
    are_same(dimension.column(), name_at(header, *finest))
        && are_named(dimension.levels(), header, columns)
        && are_marked(table.members.as_slice(), columns)
        && have_paths(dimension.paths(), table, columns, places)
}

// Whether a name is one of these.
fn is_among(names: &[Text], name: &[u8]) -> bool
    ensures { result ≡ list_any (bytes_eq name.now) names.now }
{
    names.iter().any(|other| name == other.as_slice())
}

/// Whether a dimension has a level of this name.
pub(crate) fn has_level(dimensions: &[Dimension], name: &[u8]) -> bool
    ensures { result ≡ list_any (λ d. list_any (bytes_eq name.now) d.levels) dimensions.now }
{
    dimensions.iter().any(|d| is_among(d.levels(), name))
}

// Whether a measure has this column.
fn has_measure(measures: &[Measure], column: &[u8]) -> bool
    ensures { result ≡ list_any (λ m. bytes_eq column.now m.column) measures.now }
{
    measures.iter().any(|m| column == m.column())
}

/// Whether a column is a level of a dimension, or that of a measure.
pub(crate) fn is_used(dims: &Dims, column: &[u8]) -> bool
    ensures { result ≡ is_used dims.now column.now }
{
    has_level(dims.dimensions(), level_name(column)) || has_measure(dims.measures(), column)
}

// Whether a column is used, or is one of those that are left out.
fn is_covered(dims: &Dims, skipped: &[Text], column: &[u8]) -> bool
    ensures { result ≡ is_covered skipped.now dims.now column.now }
{
    is_used(dims, column) || is_among(skipped, column)
}

// Whether all columns are.
fn are_covered(dims: &Dims, skipped: &[Text], header: &[Text]) -> bool
    ensures { result ≡ list_all (is_covered skipped.now dims.now) header.now }
{
    header
        .iter()
        .all(|column| is_covered(dims, skipped, column.as_slice()))
}

/// Whether no column is left out but these.
pub(crate) fn covers(dims: &Dims, table: &Table, skipped: &[Text]) -> bool
    ensures { (bytes : List ℕ) → Holds bytes table.now.header table.now.members.items table.now.fields.items table.now.rows → result ≡ true → IsCovered skipped.now bytes dims.now }
{
    are_covered(dims, skipped, table.header.as_slice())
}

/// Whether the dimensions are made of the columns that were planned for them.
pub(crate) fn are_true(dims: &Dims, table: &Table, planned: &[Planned]) -> bool
    ensures { (bytes : List ℕ) → Holds bytes table.now.header table.now.members.items table.now.fields.items table.now.rows → result ≡ true → AreTrue bytes dims.now }
{
    let dimensions = dims.dimensions();
    if dimensions.len() != planned.len() {
        return false;
    }
    for number in 0..dimensions.len() {
        let columns = planned[number].columns.as_slice();
        let places = planned[number].order.places.as_slice();
        if !are_levels(&dimensions[number], table, columns, places) {
            return false;
        }
    }
    true
}
