// One measure of a dimension file.
ghost use Rattle.std.specs.Prelude.{◌≡◌, ◌<◌, ◌^◌, ◌||◌, not, length, codes, is_none, unwrap_or, IfOk};
ghost use Rattle.std.specs.List.{list_any};
ghost use Rattle.std.specs.Str.{bytes_eq};
ghost use Rattle.toml.specs.View.{table_view};
ghost use Rattle.cube_model.specs.Answers.{Answers};
ghost use Rattle.cube_model.specs.Checks.{check, unless};
ghost use Rattle.cube_model.specs.Names.{is_measure_name};
ghost use Rattle.cube_tables.specs.Tables.{key_of, under};
ghost use Rattle.cube_dims.specs.DimsFile.{measure_of, measure_kinds, bad_measure_names, measure_names_twice, measure_naming, measure_faults};
ghost use Rattle.cube_dims.specs.MeasureParts.{parts_in};
ghost use Rattle.cube_dims.specs.declared.fault.DimsFault.TheVariants as fault;
ghost use Rattle.cube_model.specs.declared.limit.LimitKind.TheVariants as limit;

use crate::dimension::{check_free, check_name, has_column};
use crate::fault::DimsFault;
use crate::names::is_measure_name;
use crate::table::read_decimals;
use cube_model::{Dimension, LimitKind, Measure, NoMemory, Text};
use cube_tables::{entry_text, key_text, read_optional_text, read_text};
use std::alloc::Global;
use toml::Table;

/// The column that is stated, or else the name.
fn column_or(alloc: Global, column: Option<Text>, name: &Text) -> Result<Text, NoMemory>
    ensures { IfOk result (λ text. text ≡ unwrap_or column name.now) }
{
    match column {
        Some(column) => Ok(column),
        None => Text::from_bytes(alloc, name.as_slice()),
    }
}

/// What the table of a measure has, before its names are looked at.
#[derive(Drop)]
struct Parts {
    name: Text,
    column: Text,
    decimals: Option<u32>,
}

/// The parts of a measure, each of its kind.
fn read_parts(alloc: Global, table: &Table, entry: &Text) -> Result<Parts, DimsFault>
    ensures { Answers fault.NoMemory result (unless (measure_kinds entry.now (under (codes "name") (table_view table.now)) (under (codes "column") (table_view table.now)) (under (codes "decimals") (table_view table.now))) (parts_in (table_view table.now))) }
{
    let name = read_text::<DimsFault>(alloc, table, entry, "name")?;
    let column = read_optional_text::<DimsFault>(alloc, table, entry, "column")?;
    let decimals = read_decimals(alloc, table, entry, "decimals")?;
    let column = column_or(alloc, column, &name)?;
    Ok(Parts {
        name,
        column,
        decimals,
    })
}

/// Checks that a text is the name of a measure.
fn check_measure_name(alloc: Global, entry: &Text, name: &Text) -> Result<(), DimsFault>
    ensures { Answers fault.NoMemory result (unless (check (not (is_measure_name name.now)) (fault.BadName (key_of entry.now (codes "name")))) tt) }
{
    if !is_measure_name(name.as_slice()) {
        return Err(DimsFault::BadName {
            key: key_text(alloc, entry, b"name")?,
        });
    }
    Ok(())
}

/// Whether a measure has the name.
fn has_name(measures: &[Measure], name: &[u8]) -> bool
    ensures { result ≡ list_any (λ m. bytes_eq name.now m.name) measures.now }
{
    measures.iter().any(|m| m.name() == name)
}

/// Whether a measure has the column.
fn is_column(measures: &[Measure], column: &[u8]) -> bool
    ensures { result ≡ list_any (λ m. bytes_eq column.now m.column) measures.now }
{
    measures.iter().any(|m| m.column() == column)
}

/// Whether a dimension or a measure has the column.
fn is_taken(dimensions: &[Dimension], measures: &[Measure], column: &[u8]) -> bool
    ensures { result ≡ (list_any (λ d. bytes_eq column.now d.column) dimensions.now || list_any (λ m. bytes_eq column.now m.column) measures.now) }
{
    has_column(dimensions, column) || is_column(measures, column)
}

/// Checks that the name and the column of a measure are names.
fn check_names(alloc: Global, entry: &Text, name: &Text, column: &Text) -> Result<(), DimsFault>
    ensures { Answers fault.NoMemory result (unless (bad_measure_names entry.now name.now column.now) tt) }
{
    check_measure_name(alloc, entry, name)?;
    check_name(alloc, entry, "column", column)
}

/// Checks that no dimension and no measure has the column.
fn check_column_free(
    alloc: Global,
    entry: &Text,
    dimensions: &[Dimension],
    earlier: &[Measure],
    column: &Text,
) -> Result<(), DimsFault>
    ensures { Answers fault.NoMemory result (unless (check (list_any (λ d. bytes_eq column.now d.column) dimensions.now || list_any (λ e. bytes_eq column.now e.column) earlier.now) (fault.NameTwice (key_of entry.now (codes "column")))) tt) }
{
    let taken = is_taken(dimensions, earlier, column.as_slice());
    check_free(alloc, entry, "column", taken)
}

/// Checks that the name and the column of a measure are not taken.
fn check_names_free(
    alloc: Global,
    entry: &Text,
    dimensions: &[Dimension],
    earlier: &[Measure],
    name: &Text,
    column: &Text,
) -> Result<(), DimsFault>
    ensures { Answers fault.NoMemory result (unless (measure_names_twice entry.now dimensions.now earlier.now name.now column.now) tt) }
{
    check_free(alloc, entry, "name", has_name(earlier, name.as_slice()))?;
    check_column_free(alloc, entry, dimensions, earlier, column)
}

/// Checks that the name and the column of a measure are names, and are not taken.
fn check_naming(
    alloc: Global,
    entry: &Text,
    dimensions: &[Dimension],
    earlier: &[Measure],
    name: &Text,
    column: &Text,
) -> Result<(), DimsFault>
    ensures { Answers fault.NoMemory result (unless (measure_naming entry.now dimensions.now earlier.now name.now column.now) tt) }
{
    check_names(alloc, entry, name, column)?;
    check_names_free(alloc, entry, dimensions, earlier, name, column)
}

/// The decimals, where there are some.
fn some_decimals(decimals: Option<u32>) -> Result<u32, DimsFault>
    ensures { Answers fault.NoMemory result (unless (check (is_none decimals) (fault.Limit limit.Decimals 6)) (unwrap_or decimals 0)) }
{
    match decimals {
        Some(decimals) => Ok(decimals),
        None => Err(DimsFault::Limit {
            which: LimitKind::Decimals,
            number: 6,
        }),
    }
}

/// The measure that a table says, behind these dimensions and measures.
pub(crate) fn read_measure(
    alloc: Global,
    table: &Table,
    dimensions: &[Dimension],
    earlier: &[Measure],
) -> Result<Measure, DimsFault>
    requires { length earlier.now < 2 ^ 32 }
    ensures { Answers fault.NoMemory result (unless (measure_faults dimensions.now earlier.now (table_view table.now)) (measure_of (table_view table.now))) }
{
    let entry = entry_text(alloc, b"measure", earlier.len() as u64 + 1)?;
    let parts = read_parts(alloc, table, &entry)?;
    check_naming(
        alloc,
        &entry,
        dimensions,
        earlier,
        &parts.name,
        &parts.column,
    )?;
    let decimals = some_decimals(parts.decimals)?;
    let Parts { name, column, .. } = parts;
    Ok(Measure::from_parts(name, column, decimals))
}
