// Whether a cube continues another.
ghost use Rattle.std.specs.Prelude.{IfOk};
ghost use Rattle.cube_model.specs.Policies.{IsPolicy};
ghost use Rattle.cube_carry.specs.Names.{named};
ghost use Rattle.cube_carrying.specs.Comparing.{AreDimsComparedBy, IsComparedBy};

use crate::cells::unprotected_cell;
use crate::dimensions::{missing_dimension, other_levels};
use crate::measures::missing_measure;
use crate::paths::missing_path;
use crate::places::carried_places;
use crate::points::missing_point;
use cube_core::Core;
use cube_model::{Cell, Dims, NoMemory, Places, Policy};
use std::alloc::Global;

/// What keeps a new cube from continuing an old one. Numbers of measures, places and cells are those of the old cube.
#[derive(Drop)]
pub enum Breach {
    /// The new cube has not the dimension of the old one with this number.
    NoDimension(u32),
    /// The old cube has not the dimension of the new one with this number.
    OtherDimension(u32),
    /// The dimension of the old cube with this number has other levels in the new one.
    OtherLevels(u32),
    /// The dimension of the old cube with the first number has not, in the new one, its path with the second.
    NoPath(u32, usize),
    /// The new cube has not this measure, with its decimals and its method.
    NoMeasure(u32),
    /// The new cube has not the point at this place, with its facts and its values.
    NoPoint(u32),
    /// The new cube does not protect, on the measure with this number, this cell.
    NotProtected(u32, Cell),
}

/// What is found where two cubes are compared.
#[derive(Drop)]
pub enum Compared {
    /// The new cube continues the old one: for each place of the old cube that in the new one.
    Continues(Places),
    /// It does not: the first thing that keeps it from that.
    Differs(Breach),
}

/// The first thing in its dimensions that keeps a new cube from continuing an old one.
fn dims_breach(old: &Dims, new: &Dims) -> Option<Breach>
    ensures { AreDimsComparedBy old.now new.now result }
{
    let _rules = old.dimensions();
    let _others = new.dimensions();
    if let Some(number) = missing_dimension(old, new) {
        return Some(Breach::NoDimension(number as u32));
    }
    if let Some(number) = missing_dimension(new, old) {
        return Some(Breach::OtherDimension(number as u32));
    }
    if let Some(number) = other_levels(old, new) {
        return Some(Breach::OtherLevels(number as u32));
    }
    if let Some((number, path)) = missing_path(old, new) {
        return Some(Breach::NoPath(number, path));
    }
    None
}

/// Whether a new cube under its policy continues an old one, with its values.
pub fn compare(
    alloc: Global,
    old: &Core,
    old_policy: &Policy,
    new: &Core,
    new_policy: &Policy,
) -> Result<Compared, NoMemory>
    requires old_policy { IsPolicy old.now.dims old_policy.now }
    requires new_policy { IsPolicy new.now.dims new_policy.now }
    ensures { IfOk result (IsComparedBy (named old.now old_policy.now) (named new.now new_policy.now) old.now.cube new.now.cube) }
{
    if let Some(breach) = dims_breach(old.dims(), new.dims()) {
        return Ok(Compared::Differs(breach));
    }
    if let Some(measure) = missing_measure(old, old_policy, new, new_policy) {
        return Ok(Compared::Differs(Breach::NoMeasure(measure)));
    }
    let places = carried_places(alloc, old, new)?;
    if let Some(place) = missing_point(alloc, old, old_policy, new, new_policy, &places)? {
        return Ok(Compared::Differs(Breach::NoPoint(place)));
    }
    match unprotected_cell(alloc, old, old_policy, new, new_policy, &places)? {
        Some((measure, cell)) => Ok(Compared::Differs(Breach::NotProtected(measure, cell))),
        None => Ok(Compared::Continues(places)),
    }
}
