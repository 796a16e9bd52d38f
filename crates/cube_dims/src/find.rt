// Look-ups by name, and ancestors.
ghost use Rattle.std.specs.Prelude.{◌≡◌, ◌<◌, ◌≤◌, length, position};
ghost use Rattle.std.specs.Str.{bytes_eq};
ghost use Rattle.cube_model.specs.Cubes.{up};
ghost use Rattle.cube_model.specs.Dims.{plain, members, found, dimension_at, dimension_names, measure_names};

use cube_model::{Dimension, Dims, Measure, Text};

/// The place of the dimension with a name.
fn place_of_dimension(dimensions: &[Dimension], name: &[u8]) -> Option<usize>
    ensures { result ≡ position (λ d. bytes_eq name.now d.name) dimensions.now }
{
    dimensions.iter().position(|d| d.name() == name)
}

/// The place of the measure with a name.
fn place_of_measure(measures: &[Measure], name: &[u8]) -> Option<usize>
    ensures { result ≡ position (λ m. bytes_eq name.now m.name) measures.now }
{
    measures.iter().position(|m| m.name() == name)
}

/// The place of a name among names.
fn place_of_name(names: &[Text], name: &[u8]) -> Option<usize>
    ensures { result ≡ position (bytes_eq name.now) names.now }
{
    names.iter().position(|x| x.as_slice() == name)
}

/// The number of the dimension with a name, counted from 0; `None` where no dimension has it.
pub fn find_dimension(dims: &Dims, name: &[u8]) -> Option<u32>
    ensures { result ≡ found name.now (dimension_names dims.now) }
{
    match place_of_dimension(dims.dimensions(), name) {
        Some(place) => Some(place as u32),
        None => None,
    }
}

/// The number of the measure with a name, counted from 0; `None` where no measure has it.
pub fn find_measure(dims: &Dims, name: &[u8]) -> Option<u32>
    ensures { result ≡ found name.now (measure_names dims.now) }
{
    match place_of_measure(dims.measures(), name) {
        Some(place) => Some(place as u32),
        None => None,
    }
}

/// The number of a dimension's named level with a name, 0 for the finest; `None` where no named
/// level has it, as for `all`.
pub fn find_level(dims: &Dims, d: u32, name: &[u8]) -> Option<u32>
    requires { d < length dims.now.dimensions }
    ensures { result ≡ found name.now (dimension_at dims.now d).levels }
{
    match place_of_name(dims.dimension(d).levels(), name) {
        Some(place) => Some(place as u32),
        None => None,
    }
}

/// The number of the member with a name at a named level; `None` where no member has it. No list
/// of members is walked.
pub fn find_member(dims: &Dims, d: u32, l: u32, name: &[u8]) -> Option<u32>
    requires dimension { d < length dims.now.dimensions }
    requires level { l < length (dimension_at dims.now d).levels }
    ensures { result ≡ found name.now (members (dimension_at dims.now d) l) }
{
    match dims.dimension(d).members(l as usize).find(name) {
        Some(number) => Some(number as u32),
        None => None,
    }
}

/// The number at a level of the ancestor of a leaf, 0 at the level `all`.
pub fn up(dims: &Dims, d: u32, l: u32, x: u32) -> u32
    requires dimension { d < length dims.now.dimensions }
    requires level { l ≤ length (dimension_at dims.now d).levels }
    requires leaf { x < length (dimension_at dims.now d).paths }
    ensures { result ≡ up (plain (dimension_at dims.now d)) l x }
{
    dims.dimension(d).up(l, x)
}
