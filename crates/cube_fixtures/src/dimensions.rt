// Dimensions and measures.
ghost use Rattle.std.specs.Prelude.{◌≡◌, ◌∷◌, [], length, IfOk};
ghost use Rattle.cube_fixtures.specs.Worked.{region, time, day, row, column, measure, pay_core, day_core, some_fields};
ghost use Rattle.cube_model.specs.Dims.{IsDimension, IsMeasure};

use cube_model::{Dimension, Dims, Items, Measure, NoMemory, NumberedNames, Text, Texts};
use std::alloc::Global;

fn path(alloc: Global, below: &[u8], above: &[u8]) -> Result<Texts, NoMemory>
    ensures { IfOk result (λ names. names ≡ below.now ∷ above.now ∷ []) }
{
    let mut names = Texts::new(alloc);
    names.push(Text::from_bytes(alloc, below)?)?;
    names.push(Text::from_bytes(alloc, above)?)?;
    Ok(names)
}

/// A dimension of two levels.
fn dimension(
    alloc: Global,
    name: &[u8],
    levels: Texts,
    paths: Items<Texts>,
    column: &[u8],
) -> Result<Dimension, NoMemory>
    requires rules { IsDimension (record { name = name.now; column = column.now; levels = levels; paths = paths }) }
    requires two { length levels ≡ 2 }
    ensures { IfOk result (λ made. made ≡ record { name = name.now; column = column.now; levels = levels; paths = paths }) }
{
    let mut members = Items::new(alloc);
    members.push(NumberedNames::at_level(alloc, paths.as_slice(), 0)?)?;
    members.push(NumberedNames::at_level(alloc, paths.as_slice(), 1)?)?;
    let name = Text::from_bytes(alloc, name)?;
    let column = Text::from_bytes(alloc, column)?;
    Ok(Dimension::from_parts(name, column, levels, paths, members))
}

fn make_region(alloc: Global) -> Result<Dimension, NoMemory>
    ensures { IfOk result (λ made. made ≡ region) }
{
    let mut paths = Items::new(alloc);
    paths.push(path(alloc, b"Lyon", b"South")?)?;
    paths.push(path(alloc, b"Nice", b"South")?)?;
    paths.push(path(alloc, b"Paris", b"North")?)?;
    dimension(
        alloc,
        b"region",
        path(alloc, b"city", b"area")?,
        paths,
        b"city",
    )
}

fn make_time(alloc: Global) -> Result<Dimension, NoMemory>
    ensures { IfOk result (λ made. made ≡ time) }
{
    let mut paths = Items::new(alloc);
    paths.push(path(alloc, b"Jan", b"Q1")?)?;
    paths.push(path(alloc, b"Feb", b"Q1")?)?;
    dimension(
        alloc,
        b"time",
        path(alloc, b"month", b"quarter")?,
        paths,
        b"month",
    )
}

fn make_day(alloc: Global) -> Result<Dimension, NoMemory>
    ensures { IfOk result (λ made. made ≡ day) }
{
    let mut paths = Items::new(alloc);
    paths.push(path(alloc, b"Mo", b"A")?)?;
    paths.push(path(alloc, b"Tu", b"B")?)?;
    paths.push(path(alloc, b"We", b"B")?)?;
    paths.push(path(alloc, b"Th", b"C")?)?;
    paths.push(path(alloc, b"Fr", b"C")?)?;
    dimension(alloc, b"day", path(alloc, b"day", b"part")?, paths, b"day")
}

fn make_measure(alloc: Global, name: &[u8]) -> Result<Measure, NoMemory>
    requires { IsMeasure (measure name.now) }
    ensures { IfOk result (λ made. made ≡ measure name.now) }
{
    let column = Text::from_bytes(alloc, name)?;
    Ok(Measure::from_parts(Text::from_bytes(alloc, name)?, column, 0))
}

/// Cities in areas, months in a quarter, pay and hours.
pub fn pay_dims(alloc: Global) -> Result<Dims, NoMemory>
    ensures { IfOk result (λ made. made ≡ pay_core.dims) }
{
    let mut dimensions = Items::new(alloc);
    dimensions.push(make_region(alloc)?)?;
    dimensions.push(make_time(alloc)?)?;
    let mut measures = Items::new(alloc);
    measures.push(make_measure(alloc, b"pay")?)?;
    measures.push(make_measure(alloc, b"hours")?)?;
    Ok(Dims::from_parts(dimensions, measures))
}

/// Cities in areas, days in parts of a week, and pay.
pub(crate) fn day_dims(alloc: Global) -> Result<Dims, NoMemory>
    ensures { IfOk result (λ made. made ≡ day_core.dims) }
{
    let mut dimensions = Items::new(alloc);
    dimensions.push(make_region(alloc)?)?;
    dimensions.push(make_day(alloc)?)?;
    let mut measures = Items::new(alloc);
    measures.push(make_measure(alloc, b"pay")?)?;
    Ok(Dims::from_parts(dimensions, measures))
}

/// One name on a path, or one level.
fn alone(alloc: Global, name: &[u8]) -> Result<Texts, NoMemory>
    ensures { IfOk result (λ names. names ≡ name.now ∷ []) }
{
    let mut names = Texts::new(alloc);
    names.push(Text::from_bytes(alloc, name)?)?;
    Ok(names)
}

/// A dimension of one level.
fn flat_dimension(
    alloc: Global,
    name: &[u8],
    levels: Texts,
    paths: Items<Texts>,
    column: &[u8],
) -> Result<Dimension, NoMemory>
    requires rules { IsDimension (record { name = name.now; column = column.now; levels = levels; paths = paths }) }
    requires one { length levels ≡ 1 }
    ensures { IfOk result (λ made. made ≡ record { name = name.now; column = column.now; levels = levels; paths = paths }) }
{
    let mut members = Items::new(alloc);
    members.push(NumberedNames::at_level(alloc, paths.as_slice(), 0)?)?;
    let name = Text::from_bytes(alloc, name)?;
    let column = Text::from_bytes(alloc, column)?;
    Ok(Dimension::from_parts(name, column, levels, paths, members))
}

fn make_row(alloc: Global) -> Result<Dimension, NoMemory>
    ensures { IfOk result (λ made. made ≡ row) }
{
    let mut paths = Items::new(alloc);
    paths.push(alone(alloc, b"r0")?)?;
    paths.push(alone(alloc, b"r1")?)?;
    flat_dimension(alloc, b"row", alone(alloc, b"r")?, paths, b"r")
}

fn make_column(alloc: Global) -> Result<Dimension, NoMemory>
    ensures { IfOk result (λ made. made ≡ column) }
{
    let mut paths = Items::new(alloc);
    paths.push(alone(alloc, b"c0")?)?;
    paths.push(alone(alloc, b"c1")?)?;
    paths.push(alone(alloc, b"c2")?)?;
    flat_dimension(alloc, b"col", alone(alloc, b"c")?, paths, b"c")
}

/// Two rows, three columns, and one measure.
pub(crate) fn field_dims(alloc: Global) -> Result<Dims, NoMemory>
    ensures { IfOk result (λ made. made ≡ some_fields.dims) }
{
    let mut dimensions = Items::new(alloc);
    dimensions.push(make_row(alloc)?)?;
    dimensions.push(make_column(alloc)?)?;
    let mut measures = Items::new(alloc);
    measures.push(make_measure(alloc, b"v")?)?;
    Ok(Dims::from_parts(dimensions, measures))
}
