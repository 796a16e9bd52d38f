// What everybody knows of a cube, as a text.
ghost use Rattle.std.specs.Prelude.{◌≡◌, ◌++◌, ◌∷◌, [], length, zip, IfOk, OnOk};
ghost use Rattle.std.specs.List.{flat_map};
ghost use Rattle.cube_model.specs.Dims.{measure_at};
ghost use Rattle.cube_journal.specs.PublicText.{name_fields, number_fields, level_line, path_line, dimension_lines, method_word, measure_line, within_line, fewer_line, object_lines, point_line, public_text_of};

use cube_model::{
    Dimension, Dims, Key, Measure, Method, NoMemory, Object, Policy, Shape, Text, Texts, Within,
};
use cube_text::push_quoted;
use std::alloc::Global;

/// Puts a name in quotes behind a blank.
fn push_name(text: &mut Text, name: &[u8]) -> Result<(), NoMemory>
    ensures { OnOk result (text.new ≡ text.old ++ name_fields (name.now ∷ [])) }
{
    text.push(b' ')?;
    push_quoted(text, name)
}

#[tactic(auto, using(crate::proofs::Publics::flat_more))]
fn push_names(text: &mut Text, names: &[Text]) -> Result<(), NoMemory>
    ensures { OnOk result (text.new ≡ text.old ++ name_fields names.now) }
{
    for (i, name) in names.iter().enumerate() {
        push_name(text, name.as_slice())?;
    }
    Ok(())
}

/// Puts a number behind a blank.
pub(crate) fn push_number(text: &mut Text, number: u64) -> Result<(), NoMemory>
    ensures { OnOk result (text.new ≡ text.old ++ number_fields (number ∷ [])) }
{
    text.push(b' ')?;
    text.push_number(number)
}

/// Puts numbers, each behind a blank.
#[tactic(auto, using(crate::proofs::Publics::flat_more))]
pub(crate) fn push_numbers(text: &mut Text, numbers: &[u32]) -> Result<(), NoMemory>
    ensures { OnOk result (text.new ≡ text.old ++ number_fields numbers.now) }
{
    for (i, number) in numbers.iter().enumerate() {
        push_number(text, u64::from(*number))?;
    }
    Ok(())
}

fn push_level(text: &mut Text, name: &[u8]) -> Result<(), NoMemory>
    ensures { OnOk result (text.new ≡ text.old ++ level_line name.now) }
{
    text.push(b'l')?;
    push_name(text, name)?;
    text.push(b'\n')
}

#[tactic(auto, using(crate::proofs::Publics::flat_more))]
fn push_levels(text: &mut Text, names: &[Text]) -> Result<(), NoMemory>
    ensures { OnOk result (text.new ≡ text.old ++ flat_map level_line names.now) }
{
    for (i, name) in names.iter().enumerate() {
        push_level(text, name.as_slice())?;
    }
    Ok(())
}

fn push_path(text: &mut Text, path: &[Text]) -> Result<(), NoMemory>
    ensures { OnOk result (text.new ≡ text.old ++ path_line path.now) }
{
    text.push(b'p')?;
    push_names(text, path)?;
    text.push(b'\n')
}

#[tactic(auto, using(crate::proofs::Publics::flat_more))]
fn push_paths(text: &mut Text, paths: &[Texts]) -> Result<(), NoMemory>
    ensures { OnOk result (text.new ≡ text.old ++ flat_map path_line paths.now) }
{
    for (i, path) in paths.iter().enumerate() {
        push_path(text, path.as_slice())?;
    }
    Ok(())
}

fn push_dimension(text: &mut Text, dimension: &Dimension) -> Result<(), NoMemory>
    ensures { OnOk result (text.new ≡ text.old ++ dimension_lines dimension.now) }
{
    text.push(b'd')?;
    push_name(text, dimension.name())?;
    text.push(b'\n')?;
    push_levels(text, dimension.levels())?;
    push_paths(text, dimension.paths())
}

#[tactic(auto, using(crate::proofs::Publics::flat_more))]
fn push_dimensions(text: &mut Text, dimensions: &[Dimension]) -> Result<(), NoMemory>
    ensures { OnOk result (text.new ≡ text.old ++ flat_map dimension_lines dimensions.now) }
{
    for (i, dimension) in dimensions.iter().enumerate() {
        push_dimension(text, dimension)?;
    }
    Ok(())
}

fn method_word(method: Method) -> &'static [u8]
    ensures { result.now ≡ method_word method }
{
    match method {
        Method::Plain => b" open\n",
        Method::Lattice => b" lattice\n",
        Method::Parity => b" parity\n",
    }
}

fn push_measure(text: &mut Text, measure: &Measure, method: Method) -> Result<(), NoMemory>
    ensures { OnOk result (text.new ≡ text.old ++ measure_line (measure.now, method)) }
{
    text.push(b'm')?;
    push_name(text, measure.name())?;
    push_number(text, u64::from(measure.decimals()))?;
    text.extend(method_word(method))
}

fn push_measures(text: &mut Text, measures: &[Measure], methods: &[Method]) -> Result<(), NoMemory>
    requires { length methods.now ≡ length measures.now }
    ensures { OnOk result (text.new ≡ text.old ++ flat_map measure_line (zip measures.now methods.now)) }
{
    for (i, measure) in measures.iter().enumerate() {
        push_measure(text, measure, methods[i])?;
    }
    Ok(())
}

fn push_within(text: &mut Text, within: &Within) -> Result<(), NoMemory>
    ensures { OnOk result (text.new ≡ text.old ++ within_line within.now) }
{
    text.push(b's')?;
    push_number(text, u64::from(within.dimension))?;
    push_number(text, u64::from(within.level))?;
    push_numbers(text, within.members.as_slice())?;
    text.push(b'\n')
}

#[tactic(auto, using(crate::proofs::Publics::flat_more))]
fn push_slice(text: &mut Text, slice: &[Within]) -> Result<(), NoMemory>
    ensures { OnOk result (text.new ≡ text.old ++ flat_map within_line slice.now) }
{
    for (i, within) in slice.iter().enumerate() {
        push_within(text, within)?;
    }
    Ok(())
}

/// The name of a measure, or no bytes where there is none with that number.
fn measure_name(dims: &Dims, measure: u32) -> &[u8]
    ensures { result.now ≡ (measure_at dims.now measure).name }
{
    match dims.measures().get(measure as usize) {
        Some(measure) => measure.name(),
        None => &[],
    }
}

fn push_fewer(text: &mut Text, fewer: Option<u32>) -> Result<(), NoMemory>
    ensures { OnOk result (text.new ≡ text.old ++ fewer_line fewer) }
{
    match fewer {
        Some(number) => {
            text.push(b'n')?;
            push_number(text, u64::from(number))?;
            text.push(b'\n')
        }
        None => Ok(()),
    }
}

fn push_object(text: &mut Text, dims: &Dims, object: &Object) -> Result<(), NoMemory>
    ensures { OnOk result (text.new ≡ text.old ++ object_lines dims.now object.now) }
{
    text.push(b'o')?;
    push_name(text, measure_name(dims, object.measure))?;
    push_numbers(text, object.levels.as_slice())?;
    text.push(b'\n')?;
    push_fewer(text, object.fewer)?;
    push_slice(text, object.slice.as_slice())
}

#[tactic(auto, using(crate::proofs::Publics::flat_more))]
fn push_objects(text: &mut Text, dims: &Dims, objects: &[Object]) -> Result<(), NoMemory>
    ensures { OnOk result (text.new ≡ text.old ++ flat_map (object_lines dims.now) objects.now) }
{
    for (i, object) in objects.iter().enumerate() {
        push_object(text, dims, object)?;
    }
    Ok(())
}

fn push_point(text: &mut Text, point: &[u32], facts: u64) -> Result<(), NoMemory>
    ensures { OnOk result (text.new ≡ text.old ++ point_line (point.now, facts)) }
{
    text.push(b'f')?;
    push_numbers(text, point)?;
    push_number(text, facts)?;
    text.push(b'\n')
}

fn push_points(text: &mut Text, points: &[Key], facts: &[u64]) -> Result<(), NoMemory>
    requires { length facts.now ≡ length points.now }
    ensures { OnOk result (text.new ≡ text.old ++ flat_map point_line (zip points.now facts.now)) }
{
    for (i, point) in points.iter().enumerate() {
        push_point(text, point.as_slice(), facts[i])?;
    }
    Ok(())
}

/// What everybody knows of a cube: dimensions, measures with their methods, objects, and where there are facts. It has no
/// value of a measure and no name of a column.
#[tactic(auto, unfolding(crate::specs::PublicText::public_text_of))]
pub fn public_text(
    alloc: Global,
    dims: &Dims,
    policy: &Policy,
    shape: &Shape,
) -> Result<Text, NoMemory>
    requires methods { length policy.now.methods ≡ length dims.now.measures }
    requires facts { length shape.now.facts ≡ length shape.now.points }
    ensures { IfOk result (λ text. text ≡ public_text_of dims.now policy.now shape.now) }
{
    let mut text = Text::new(alloc);
    push_dimensions(&mut text, dims.dimensions())?;
    push_measures(&mut text, dims.measures(), policy.methods.as_slice())?;
    push_objects(&mut text, dims, policy.objects.as_slice())?;
    push_points(&mut text, shape.points.as_slice(), shape.facts.as_slice())?;
    Ok(text)
}
