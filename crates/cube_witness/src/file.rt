// The fact file of a twin.
ghost use Rattle.std.specs.Prelude.{◌≡◌, ◌<◌, ◌≤◌, ◌-◌, ◌*◌, ◌++◌, ◌∷◌, [], length, map, flat_map, take, slice_index_or, slice_set, unsigned_abs, pos, IfOk, OnOk};
ghost use Rattle.cube_model.specs.Cubes.{count_from};
ghost use Rattle.cube_model.specs.Dims.{column_names};
ghost use Rattle.cube_text.specs.Keys.{closed};
ghost use Rattle.cube_text.specs.Quoting.{csv_line};
ghost use Rattle.cube_witness.specs.TwinFile.{facts_at, value_at, share_text, fact_line, place_lines, facts_text};
ghost use Rattle.cube_witness.specs.Twinned.{cube_of, IsTwin};

use crate::leaves::push_leaves;
use crate::shares::share;
use cube_core::{Core, Steps};
use cube_model::{Dimension, Dims, Levels, Measure, NoMemory, Text, Values};
use cube_text::{push_field, write_units};
use std::alloc::Global;
use std::sync::ledger::Ledger;

/// A core, and the values that one of its measures gets.
#[derive(Drop)]
pub(crate) struct Twin<'a> {
    /// The core.
    pub core: &'a Core,
    /// The finest levels.
    pub levels: Levels,
    /// The number of the measure.
    pub measure: u32,
    /// Its values, one for each place.
    pub values: Values,
}

/// Puts a field with a comma behind it.
fn push_closed(text: &mut Text, name: &[u8]) -> Result<(), NoMemory>
    ensures { OnOk result (text.new ≡ text.old ++ closed name.now) }
{
    push_field(text, name)?;
    text.push(b',')
}

/// Puts the columns of dimensions, each with a comma behind it.
fn push_dimension_columns(text: &mut Text, dimensions: &[Dimension]) -> Result<(), NoMemory>
    ensures { OnOk result (text.new ≡ text.old ++ flat_map closed (map (λ d. d.column) dimensions.now)) }
{
    for dimension in dimensions {
        push_closed(text, dimension.column())?;
    }
    Ok(())
}

/// Puts the columns of measures, each with a comma behind it.
fn push_measure_columns(text: &mut Text, measures: &[Measure]) -> Result<(), NoMemory>
    ensures { OnOk result (text.new ≡ text.old ++ flat_map closed (map (λ m. m.column) measures.now)) }
{
    for measure in measures {
        push_closed(text, measure.column())?;
    }
    Ok(())
}

/// Puts the line of the columns.
fn push_columns(text: &mut Text, dims: &Dims) -> Result<(), NoMemory>
    ensures { OnOk result (text.new ≡ text.old ++ csv_line (column_names dims.now)) }
{
    let measures = dims.measures();
    let last = measures.len() - 1;
    push_dimension_columns(text, dims.dimensions())?;
    push_measure_columns(text, &measures[..last])?;
    push_field(text, measures[last].column())?;
    text.push(b'\n')
}

/// The value of a measure of the twin at a place.
fn value_of<L: Ledger>(twin: &Twin, measure: u32, place: u32, steps: &mut Steps<L>) -> i64
    requires twin { IsTwin twin.now }
    requires measure { measure < length twin.now.core.now.dims.measures }
    requires place { place < length twin.now.core.now.shape.points }
    ensures value { result ≡ value_at (cube_of twin.now) measure place }
    ensures within { unsigned_abs result ≤ 1000000000000 * facts_at twin.now.core.now.shape place }
{
    if measure == twin.measure {
        twin.values.as_slice()[place as usize]
    } else {
        twin.core.value(place, measure, steps)
    }
}

/// What a fact of a place carries of a measure.
fn share_of<L: Ledger>(
    alloc: Global,
    twin: &Twin,
    measure: u32,
    place: u32,
    number: u64,
    steps: &mut Steps<L>,
) -> Result<Text, NoMemory>
    requires twin { IsTwin twin.now }
    requires measure { measure < length twin.now.core.now.dims.measures }
    requires place { place < length twin.now.core.now.shape.points }
    ensures { IfOk result (λ text. text ≡ share_text twin.now.core.now.dims twin.now.core.now.shape (cube_of twin.now) place number measure) }
{
    let decimals = twin.core.dims().measure(measure).decimals();
    let facts = twin.core.shape().facts.as_slice()[place as usize];
    let value = value_of(twin, measure, place, steps);
    write_units(alloc, share(value, facts, number), decimals)
}

/// Puts what a fact of a place carries of the first measures, so many of them, each with a comma behind it.
fn push_shares<L: Ledger>(
    alloc: Global,
    text: &mut Text,
    twin: &Twin,
    measures: u32,
    place: u32,
    number: u64,
    steps: &mut Steps<L>,
) -> Result<(), NoMemory>
    requires twin { IsTwin twin.now }
    requires measures { measures ≤ length twin.now.core.now.dims.measures }
    requires place { place < length twin.now.core.now.shape.points }
    ensures { OnOk result (text.new ≡ text.old ++ flat_map closed (map (share_text twin.now.core.now.dims twin.now.core.now.shape (cube_of twin.now) place number) (count_from 0 measures))) }
{
    'measures: for measure in 0..measures {
        let share = share_of(alloc, twin, measure, place, number, steps)?;
        push_closed(text, share.as_slice())?;
    }
    Ok(())
}

/// Puts the line of a fact.
fn push_fact<L: Ledger>(
    alloc: Global,
    text: &mut Text,
    twin: &Twin,
    place: u32,
    number: u64,
    steps: &mut Steps<L>,
) -> Result<(), NoMemory>
    requires twin { IsTwin twin.now }
    requires place { place < length twin.now.core.now.shape.points }
    ensures { OnOk result (text.new ≡ text.old ++ fact_line twin.now.core.now.dims twin.now.core.now.shape (cube_of twin.now) place number) }
{
    let last = twin.core.dims().measures().len() as u32 - 1;
    push_leaves(
        text,
        twin.core.dims(),
        &twin.levels,
        twin.core.shape(),
        place,
    )?;
    push_shares(alloc, text, twin, last, place, number, steps)?;
    let share = share_of(alloc, twin, last, place, number, steps)?;
    push_field(text, share.as_slice())?;
    text.push(b'\n')
}

/// Puts the lines of a place.
fn push_place<L: Ledger>(
    alloc: Global,
    text: &mut Text,
    twin: &Twin,
    place: u32,
    steps: &mut Steps<L>,
) -> Result<(), NoMemory>
    requires twin { IsTwin twin.now }
    requires place { place < length twin.now.core.now.shape.points }
    ensures { OnOk result (text.new ≡ text.old ++ place_lines twin.now.core.now.dims twin.now.core.now.shape (cube_of twin.now) place) }
{
    let facts = twin.core.shape().facts.as_slice()[place as usize];
    'facts: for number in 0..facts {
        push_fact(alloc, text, twin, place, number, steps)?;
    }
    Ok(())
}

/// The fact file of a twin.
pub(crate) fn write_facts<L: Ledger>(
    alloc: Global,
    twin: &Twin,
    steps: &mut Steps<L>,
) -> Result<Text, NoMemory>
    requires { IsTwin twin.now }
    ensures { IfOk result (λ text. text ≡ facts_text twin.now.core.now.dims twin.now.core.now.shape (cube_of twin.now)) }
{
    let mut text = Text::new(alloc);
    push_columns(&mut text, twin.core.dims())?;
    'places: for place in 0..twin.core.len() {
        push_place(alloc, &mut text, twin, place, steps)?;
    }
    Ok(text)
}
