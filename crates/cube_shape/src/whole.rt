// The whole shape.
ghost use Rattle.std.specs.Prelude.{◌≡◌, codes, IfOk};
ghost use Rattle.serde_json.specs.Data.{object, member, no_members};
ghost use Rattle.serde_json.specs.View.{view};
ghost use Rattle.cube_model.specs.Cores.{shown};
ghost use Rattle.cube_model.specs.Policies.{IsPolicy};
ghost use Rattle.cube_shape.specs.ShapeText.{number_data, shape_data, shape_text as words};

use crate::parts::{dimensions_value, measures_value};
use cube_core::Core;
use cube_model::{NoMemory, Policy, Text};
use serde_json::{Value, json};
use std::alloc::Global;

/// An object of the parts of a shape.
fn shape_object(
    alloc: Global,
    dimensions: Value,
    facts: u64,
    measures: Value,
    points: u64,
) -> Result<Value, NoMemory>
    ensures { IfOk result (λ value. view value ≡ object (member (codes "dimensions") (view dimensions) (member (codes "facts") (number_data facts) (member (codes "measures") (view measures) (member (codes "points") (number_data points) no_members))))) }
{
    match json!(in alloc; {"dimensions": dimensions, "facts": facts, "measures": measures, "points": points})
    {
        Ok(value) => Ok(value),
        Err(_) => Err(NoMemory),
    }
}

fn shape_value(alloc: Global, core: &Core, policy: &Policy) -> Result<Value, NoMemory>
    requires { IsPolicy core.now.dims policy.now }
    ensures { IfOk result (λ value. view value ≡ shape_data core.now.dims (shown core.now policy.now)) }
{
    let dims = core.dims();
    let dimensions = dimensions_value(alloc, dims.dimensions())?;
    let facts = core.facts();
    let measures = measures_value(alloc, dims.measures(), policy.methods.as_slice())?;
    let points = u64::from(core.len());
    shape_object(alloc, dimensions, facts, measures, points)
}

/// The public shape as compact JSON, with its keys in the order of their bytes and no line feed: the dimensions with
/// their levels and paths, the measures with their decimals and methods, and the numbers of facts and of points.
pub fn shape_text(alloc: Global, core: &Core, policy: &Policy) -> Result<Text, NoMemory>
    requires { IsPolicy core.now.dims policy.now }
    ensures { IfOk result (λ text. text ≡ words core.now.dims (shown core.now policy.now)) }
{
    let value = shape_value(alloc, core, policy)?;
    Ok(Text::from_vec(value.to_vec(alloc)?))
}
