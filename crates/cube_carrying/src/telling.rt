// The lines on what keeps a cube from continuing another, and on what stops a history.
ghost use Rattle.std.specs.Prelude.{◌≡◌, ◌<◌, ◌++◌, codes, length, IfOk, OnOk};
ghost use Rattle.cube_model.specs.Policies.{IsPolicy};
ghost use Rattle.cube_answers.specs.VerdictText.{unprotected, bracketed, cell_text, place_text, CellFits};
ghost use Rattle.cube_carry.specs.Names.{named};
ghost use Rattle.cube_carrying.specs.Comparing as comparing;
ghost use Rattle.cube_carrying.specs.Histories as histories;
ghost use Rattle.cube_carrying.specs.Telling.{leaf_text, dimension_name, measure_name, breach_text as breach_line, stop_text as stop_line};

use crate::breach::Breach;
use crate::histories::Stop;
use crate::paths::leaf_of;
use cube_answers::{push_cell, push_place};
use cube_core::Core;
use cube_model::{Cell, Dimension, Dims, NoMemory, Policy, Text};
use cube_query::push_level;
use cube_text::push_name;
use std::alloc::Global;

// Puts the name of a dimension.
fn push_dimension(text: &mut Text, dims: &Dims, number: u32) -> Result<(), NoMemory>
    requires { number < length dims.now.dimensions }
    ensures { OnOk result (text.new ≡ text.old ++ dimension_name dims.now number) }
{
    push_name(text, dims.dimension(number).name())
}

// Puts the name of a measure.
fn push_measure(text: &mut Text, dims: &Dims, number: u32) -> Result<(), NoMemory>
    requires { number < length dims.now.measures }
    ensures { OnOk result (text.new ≡ text.old ++ measure_name dims.now number) }
{
    push_name(text, dims.measure(number).name())
}

// Puts the leaf of a path.
fn push_leaf(text: &mut Text, dimension: &Dimension, path: usize) -> Result<(), NoMemory>
    requires { path < length dimension.now.paths }
    ensures { OnOk result (text.new ≡ text.old ++ leaf_text dimension.now path) }
{
    let paths = dimension.paths();
    text.push(b'(')?;
    push_level(text, dimension, 0)?;
    text.push(b'=')?;
    push_name(text, leaf_of(&paths[path]))?;
    text.push(b')')
}

// A line on a dimension.
fn dimension_line(alloc: Global, dims: &Dims, number: u32, end: &[u8]) -> Result<Text, NoMemory>
    requires { number < length dims.now.dimensions }
    ensures { IfOk result (λ text. text ≡ codes "the dimension " ++ dimension_name dims.now number ++ end.now) }
{
    let mut text = Text::from_bytes(alloc, b"the dimension ")?;
    push_dimension(&mut text, dims, number)?;
    text.extend(end)?;
    Ok(text)
}

// The line on a path.
fn path_line(alloc: Global, dimension: &Dimension, path: usize) -> Result<Text, NoMemory>
    requires { path < length dimension.now.paths }
    ensures { IfOk result (λ text. text ≡ codes "the path of " ++ leaf_text dimension.now path ++ codes " is missing\n") }
{
    let mut text = Text::from_bytes(alloc, b"the path of ")?;
    push_leaf(&mut text, dimension, path)?;
    text.extend(b" is missing\n")?;
    Ok(text)
}

// The line on a measure.
fn measure_line(alloc: Global, dims: &Dims, measure: u32) -> Result<Text, NoMemory>
    requires { measure < length dims.now.measures }
    ensures { IfOk result (λ text. text ≡ codes "the measure " ++ measure_name dims.now measure ++ codes " is missing, or has other decimals or another method\n") }
{
    let mut text = Text::from_bytes(alloc, b"the measure ")?;
    push_measure(&mut text, dims, measure)?;
    text.extend(b" is missing, or has other decimals or another method\n")?;
    Ok(text)
}

// The line on a point.
fn point_line(alloc: Global, core: &Core, place: u32) -> Result<Text, NoMemory>
    requires { place < length core.now.shape.points }
    ensures { IfOk result (λ text. text ≡ codes "the point " ++ bracketed (place_text core.now.dims (unprotected core.now) place) ++ codes " is missing, or has other facts or values\n") }
{
    let mut text = Text::from_bytes(alloc, b"the point ")?;
    push_place(alloc, &mut text, core, place)?;
    text.extend(b" is missing, or has other facts or values\n")?;
    Ok(text)
}

// A line on a cell of a measure, with these words before it and behind it.
fn cell_line(
    alloc: Global,
    dims: &Dims,
    measure: u32,
    cell: &Cell,
    before: &[u8],
    behind: &[u8],
) -> Result<Text, NoMemory>
    requires measure { measure < length dims.now.measures }
    requires cell { CellFits dims.now cell.now }
    ensures { IfOk result (λ text. text ≡ measure_name dims.now measure ++ before.now ++ bracketed (cell_text dims.now cell.now) ++ behind.now) }
{
    let mut text = Text::new(alloc);
    push_measure(&mut text, dims, measure)?;
    text.extend(before)?;
    push_cell(&mut text, dims, cell)?;
    text.extend(behind)?;
    Ok(text)
}

// The line on a measure whose source nothing can stand for.
fn source_line(alloc: Global, dims: &Dims, measure: u32) -> Result<Text, NoMemory>
    requires { measure < length dims.now.measures }
    ensures { IfOk result (λ text. text ≡ measure_name dims.now measure ++ codes ": no cuboid can stand for the source\n") }
{
    let mut text = Text::new(alloc);
    push_measure(&mut text, dims, measure)?;
    text.extend(b": no cuboid can stand for the source\n")?;
    Ok(text)
}

/// The line on what keeps a new cube from continuing an old one.
#[tactic(auto, using(crate::proofs::Told::breach_cell))]
pub fn breach_text(
    alloc: Global,
    old: &Core,
    old_policy: &Policy,
    new: &Core,
    new_policy: &Policy,
    breach: &Breach,
) -> Result<Text, NoMemory>
    requires policy { IsPolicy old.now.dims old_policy.now }
    requires there { comparing.IsThere (named old.now old_policy.now) (named new.now new_policy.now) breach.now }
    ensures { IfOk result (λ text. text ≡ breach_line old.now.dims new.now.dims (unprotected old.now) breach.now) }
{
    let _rules = old.dims();
    let dims = old.dims();
    match breach {
        Breach::NoDimension(number) => dimension_line(alloc, dims, *number, b" is missing\n"),
        Breach::OtherDimension(number) => dimension_line(alloc, new.dims(), *number, b" is new\n"),
        Breach::OtherLevels(number) => {
            dimension_line(alloc, dims, *number, b" has other levels\n")
        }
        Breach::NoPath(number, path) => path_line(alloc, dims.dimension(*number), *path),
        Breach::NoMeasure(measure) => measure_line(alloc, dims, *measure),
        Breach::NoPoint(place) => point_line(alloc, old, *place),
        Breach::NotProtected(measure, cell) => cell_line(
            alloc,
            dims,
            *measure,
            cell,
            b": the cell ",
            b" is not protected\n",
        ),
    }
}

/// The line on what stops a history.
pub fn stop_text(
    alloc: Global,
    new: &Core,
    new_policy: &Policy,
    stop: &Stop,
) -> Result<Text, NoMemory>
    requires { histories.IsThere (named new.now new_policy.now) stop.now }
    ensures { IfOk result (λ text. text ≡ stop_line new.now.dims stop.now) }
{
    let _policy = new_policy;
    let dims = new.dims();
    match stop {
        Stop::NoSource(measure) => source_line(alloc, dims, *measure),
        Stop::Fixes(measure, cell) => cell_line(
            alloc,
            dims,
            *measure,
            cell,
            b": the carried links fix the cell ",
            b"\n",
        ),
    }
}
