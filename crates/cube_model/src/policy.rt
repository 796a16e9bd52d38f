// What an owner writes down of protection.
ghost use Rattle.std.specs.Prelude.{◌≡◌, slice_index_or};
ghost use Rattle.cube_model.specs.declared.policy.Method.TheVariants as method;

use crate::{Items, Levels};

/// How the sums of a measure are controlled.
#[derive(Clone, Copy, Debug, PartialEq, Eq)]
pub enum Method {
    /// Not at all: the measure is open.
    Plain,
    /// By one source cuboid, which cuts each protected cell.
    Lattice,
    /// By links between places, from which each protected place is free.
    Parity,
}

/// One method for each measure.
pub type Methods = Items<Method>;

/// The method of a measure; a measure that there is not is open.
pub fn method_of(methods: &[Method], measure: u32) -> Method
    ensures { result ≡ slice_index_or methods.now measure method.Plain }
{
    match methods.get(measure as usize) {
        Some(method) => *method,
        None => Method::Plain,
    }
}

/// The members of one level of a dimension that a slice lists.
#[derive(Drop)]
pub struct Within {
    /// The number of the dimension.
    pub dimension: u32,
    /// The level, counted from 0, the finest.
    pub level: u32,
    /// The numbers of the members, in increasing order.
    pub members: Items<u32>,
}

/// What an object protects of a cube: the places whose ancestors are listed, in each dimension
/// that is named here. An empty slice is the whole cube.
pub type Slice = Items<Within>;

/// A protected object: the cells at these levels and below that cover a place of the slice, and have
/// fewer facts than a number, where one is given.
#[derive(Drop)]
pub struct Object {
    /// The number of the measure that is protected.
    pub measure: u32,
    /// A level for each dimension.
    pub levels: Levels,
    /// Where the measure is protected.
    pub slice: Slice,
    /// Of these cells those with fewer facts than this, or all.
    pub fewer: Option<u32>,
}

/// A list of objects.
pub type Objects = Items<Object>;

/// A policy: how each measure is controlled, and what is protected.
#[derive(Drop)]
pub struct Policy {
    /// One method for each measure.
    pub methods: Methods,
    /// The protected objects, in the order of the policy.
    pub objects: Objects,
}

impl Policy {
    /// How a measure is controlled; a measure that there is not is open.
    pub fn method(&self, measure: u32) -> Method
        ensures { result ≡ slice_index_or self.now.methods measure method.Plain }
    {
        method_of(self.methods.as_slice(), measure)
    }
}
