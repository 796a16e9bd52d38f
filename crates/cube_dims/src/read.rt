// The dimension file as a whole.
ghost use Rattle.std.specs.Prelude.{◌≤◌, length, map, nat_lt};
ghost use Rattle.toml.specs.View.{view, table_view};
ghost use Rattle.cube_model.specs.Answers.{Answers};
ghost use Rattle.cube_model.specs.Checks.{check, unless};
ghost use Rattle.cube_model.specs.Cubes.{cuboid_count};
ghost use Rattle.cube_model.specs.Dims.{plain};
ghost use Rattle.cube_tables.specs.Tables.{table_in, under};
ghost use Rattle.cube_dims.specs.DimsFile.{dimension_of, measure_of, dimensions_faults, measures_faults, dims_faults, dims_in, dims_of};
ghost use Rattle.cube_dims.specs.declared.fault.DimsFault.TheVariants as fault;
ghost use Rattle.cube_model.specs.declared.limit.LimitKind.TheVariants as limit;

use crate::dimension::read_dimension;
use crate::fault::DimsFault;
use crate::measure::read_measure;
use crate::table::check_some_tables;
use cube_model::{Dimension, Dims, Items, LimitKind, Measure};
use cube_tables::{items_under, read_table};
use std::alloc::Global;
use toml::{Table, Value};

/// The dimensions that tables say.
fn read_dimensions(alloc: Global, items: &[Value]) -> Result<Items<Dimension>, DimsFault>
    requires { length items.now ≤ 8 }
    ensures { Answers fault.NoMemory result (unless (dimensions_faults (map table_in (map view items.now))) (map dimension_of (map table_in (map view items.now)))) }
{
    let mut dimensions = Items::new(alloc);
    for item in items {
        let Some(table) = item.as_table() else {
            return Err(DimsFault::NoMemory);
        };
        let dimension = read_dimension(alloc, table, dimensions.as_slice())?;
        dimensions.push(dimension)?;
    }
    Ok(dimensions)
}

/// Checks how many cuboids the dimensions have.
fn check_cuboids(dimensions: &[Dimension]) -> Result<(), DimsFault>
    ensures { Answers fault.NoMemory result (unless (check (nat_lt 256 (cuboid_count (map plain dimensions.now))) (fault.Limit limit.Cuboids 256)) tt) }
{
    let mut count = 1;
    for dimension in dimensions {
        count *= dimension.levels().len() + 1;
        if 256 < count {
            return Err(DimsFault::Limit {
                which: LimitKind::Cuboids,
                number: 256,
            });
        }
    }
    Ok(())
}

/// The measures that tables say, beside these dimensions.
fn read_measures(
    alloc: Global,
    items: &[Value],
    dimensions: &[Dimension],
) -> Result<Items<Measure>, DimsFault>
    requires { length items.now ≤ 16 }
    ensures { Answers fault.NoMemory result (unless (measures_faults dimensions.now (map table_in (map view items.now))) (map measure_of (map table_in (map view items.now)))) }
{
    let mut measures = Items::new(alloc);
    for item in items {
        let Some(table) = item.as_table() else {
            return Err(DimsFault::NoMemory);
        };
        let measure = read_measure(alloc, table, dimensions, measures.as_slice())?;
        measures.push(measure)?;
    }
    Ok(measures)
}

/// The dimensions and measures that a table says.
fn read_in(alloc: Global, table: &Table) -> Result<Dims, DimsFault>
    ensures { Answers fault.NoMemory result (unless (dims_faults (table_view table.now)) (dims_in (table_view table.now))) }
{
    check_some_tables(alloc, table, "dimension", LimitKind::Dimensions, 8)?;
    check_some_tables(alloc, table, "measure", LimitKind::Measures, 16)?;
    let dimensions = read_dimensions(alloc, items_under(table, "dimension"))?;
    check_cuboids(dimensions.as_slice())?;
    let measures = read_measures(alloc, items_under(table, "measure"), dimensions.as_slice())?;
    Ok(Dims::from_parts(dimensions, measures))
}

/// Reads a dimension file: what its bytes say, or its first fault. The time grows in step with the
/// size of the file.
pub fn read_dims(alloc: Global, bytes: &[u8]) -> Result<Dims, DimsFault>
    ensures { Answers fault.NoMemory result (dims_of bytes.now) }
{
    match read_table(alloc, bytes)? {
        Some(table) => read_in(alloc, &table),
        None => Err(DimsFault::NotToml),
    }
}
