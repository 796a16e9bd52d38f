// The parts of a shape: dimensions and measures.
ghost use Rattle.std.specs.Prelude.{◌≡◌, ◌<◌, length, map, zip, slice_index_or, codes, IfOk};
ghost use Rattle.serde_json.specs.Data.{array, object, member, no_members, string};
ghost use Rattle.serde_json.specs.View.{view, items_of};
ghost use Rattle.cube_model.specs.Dims.{no_measure};
ghost use Rattle.cube_shape.specs.ShapeText as said;
ghost use Rattle.cube_shape.specs.ShapeText.{texts_data, number_data, paths_data, dimension_data, measure_data};

use cube_model::{Dimension, Measure, Method, NoMemory, Text, Texts};
use serde_json::{Value, json};
use std::alloc::Global;
use std::str::from_utf8;

/// A text. A name is UTF-8, so the other answer never comes of a name.
fn text_value(alloc: Global, text: &[u8]) -> Result<Value, NoMemory>
    ensures { IfOk result (λ value. view value ≡ string text.now) }
{
    let Ok(text) = from_utf8(text) else {
        return Err(NoMemory);
    };
    match Value::try_from_str(alloc, text) {
        Ok(value) => Ok(value),
        Err(_) => Err(NoMemory),
    }
}

/// A list of texts.
fn texts_value(alloc: Global, texts: &[Text]) -> Result<Value, NoMemory>
    ensures { IfOk result (λ value. view value ≡ texts_data texts.now) }
{
    let mut values = Vec::new(alloc);
    for text in texts {
        values.push(text_value(alloc, text.as_slice())?)?;
    }
    Ok(Value::Array(values))
}

/// The names of each path.
fn paths_value(alloc: Global, paths: &[Texts]) -> Result<Value, NoMemory>
    ensures { IfOk result (λ value. view value ≡ paths_data paths.now) }
{
    let mut values = Vec::new(alloc);
    for path in paths {
        values.push(texts_value(alloc, path.as_slice())?)?;
    }
    Ok(Value::Array(values))
}

/// An object of the parts of a dimension.
fn dimension_object(
    alloc: Global,
    levels: Value,
    name: Value,
    paths: Value,
) -> Result<Value, NoMemory>
    ensures { IfOk result (λ value. view value ≡ object (member (codes "levels") (view levels) (member (codes "name") (view name) (member (codes "paths") (view paths) no_members)))) }
{
    match json!(in alloc; {"levels": levels, "name": name, "paths": paths}) {
        Ok(value) => Ok(value),
        Err(_) => Err(NoMemory),
    }
}

fn dimension_value(alloc: Global, dimension: &Dimension) -> Result<Value, NoMemory>
    ensures { IfOk result (λ value. view value ≡ dimension_data dimension.now) }
{
    let levels = texts_value(alloc, dimension.levels())?;
    let name = text_value(alloc, dimension.name())?;
    let paths = paths_value(alloc, dimension.paths())?;
    dimension_object(alloc, levels, name, paths)
}

/// The dimensions, in their order.
pub(crate) fn dimensions_value(alloc: Global, dimensions: &[Dimension]) -> Result<Value, NoMemory>
    ensures { IfOk result (λ value. view value ≡ array (items_of (map dimension_data dimensions.now))) }
{
    let mut values = Vec::new(alloc);
    for dimension in dimensions {
        values.push(dimension_value(alloc, dimension)?)?;
    }
    Ok(Value::Array(values))
}

/// The word of a method.
fn method_word(method: Method) -> &'static [u8]
    ensures { result.now ≡ said.method_word method }
{
    match method {
        Method::Plain => b"open",
        Method::Lattice => b"lattice",
        Method::Parity => b"parity",
    }
}

/// An object of the parts of a measure.
fn measure_object(
    alloc: Global,
    decimals: u64,
    method: Value,
    name: Value,
) -> Result<Value, NoMemory>
    ensures { IfOk result (λ value. view value ≡ object (member (codes "decimals") (number_data decimals) (member (codes "method") (view method) (member (codes "name") (view name) no_members)))) }
{
    match json!(in alloc; {"decimals": decimals, "method": method, "name": name}) {
        Ok(value) => Ok(value),
        Err(_) => Err(NoMemory),
    }
}

fn measure_value(alloc: Global, measure: &Measure, method: Method) -> Result<Value, NoMemory>
    ensures { IfOk result (λ value. view value ≡ measure_data (measure.now, method)) }
{
    let decimals = u64::from(measure.decimals());
    let word = text_value(alloc, method_word(method))?;
    let name = text_value(alloc, measure.name())?;
    measure_object(alloc, decimals, word, name)
}

/// The measure with a number, and its method.
fn measure_at(
    alloc: Global,
    measures: &[Measure],
    methods: &[Method],
    number: usize,
) -> Result<Value, NoMemory>
    requires measure { number < length measures.now }
    requires method { number < length methods.now }
    ensures { IfOk result (λ value. view value ≡ measure_data (slice_index_or measures.now number no_measure, slice_index_or methods.now number Method.Plain)) }
{
    measure_value(alloc, &measures[number], methods[number])
}

fn array_value(values: Vec<Value>) -> Value
    ensures { view result ≡ array (items_of (map view values.items)) }
{
    Value::Array(values)
}

/// The measures with their methods, in their order.
pub(crate) fn measures_value(
    alloc: Global,
    measures: &[Measure],
    methods: &[Method],
) -> Result<Value, NoMemory>
    requires { length methods.now ≡ length measures.now }
    ensures { IfOk result (λ value. view value ≡ array (items_of (map measure_data (zip measures.now methods.now)))) }
{
    let mut values = Vec::new(alloc);
    'measures: for number in 0..measures.len() {
        values.push(measure_at(alloc, measures, methods, number)?)?;
    }
    Ok(array_value(values))
}
