// A core, with what is read of it in constant time.
ghost use Rattle.std.specs.Prelude.{◌≡◌, ◌+◌, ◌<◌, ◌≤◌, ◌==◌, [], length, sum, slice_index_or, pos, IfOk};
ghost use Rattle.std.specs.List.{AllByRecursion};
ghost use Rattle.cube_model.specs.Cubes.{up};
ghost use Rattle.cube_model.specs.Dims.{plain, dimension_at, IsDimension};
ghost use Rattle.cube_model.specs.Cores.{IsCore, IsSumOf};
ghost use Rattle.cube_core.specs.Full.{vector_count, is_full};
ghost use Rattle.cube_core.specs.Index.{IsIndex};

use crate::Steps;
use crate::index::{Index, Order, index_of};
use cube_model::{Cube, Dimension, Dims, Items, NoMemory, Shape};
use std::alloc::Global;
use std::marker::Model;
use std::sync::ledger::Ledger;

/// A core: dimensions and measures, the nonempty points with their numbers of facts, and for each
/// measure a value at each point.
#[derive(Drop)]
pub struct Core {
    dims: Dims,
    shape: Shape,
    cube: Cube,
    facts: u64,
    index: Index,
}

impl Model for Core {
    ghost use Rattle.std.specs.Prelude.{◌≡◌, sum};
    ghost use Rattle.cube_model.specs.Cores as said;
    ghost use Rattle.cube_model.specs.Cores.{IsCore};
    ghost use Rattle.cube_core.specs.Index.{IsIndex};

    ghost Value = { said.Core };

    ghost view = { λ c. record { dims = c.dims; shape = c.shape; cube = c.cube } };

    ghost invariant = { λ c. IsCore (record { dims = c.dims; shape = c.shape; cube = c.cube }) × (c.facts ≡ sum c.shape.facts) × IsIndex c.dims.dimensions c.shape.points c.index };
}

/// The sum of numbers of facts.
fn sum_facts(facts: &[u64]) -> u64
    requires { sum facts.now ≤ 1000000 }
    ensures { result ≡ sum facts.now }
{
    facts.iter().sum()
}

/// Whether there are so many vectors of leaves.
fn has_vectors(dimensions: &[Dimension], number: u64) -> bool
    requires rules { AllByRecursion IsDimension dimensions.now }
    requires number { number ≤ 65536 }
    ensures { result ≡ (number == vector_count dimensions.now) }
{
    let mut vectors = 1;
    'dimensions: for dimension in dimensions {
        vectors *= dimension.paths().len() as u64;
        if vectors > number {
            return false;
        }
    }
    number == vectors
}

impl Core {
    /// A core of parts that keep the rules. Takes one sort of the places for each named level.
    pub fn new(alloc: Global, dims: Dims, shape: Shape, cube: Cube) -> Result<Self, NoMemory>
        requires { IsCore (record { dims = dims; shape = shape; cube = cube }) }
        ensures { IfOk result (λ core. core ≡ record { dims = dims; shape = shape; cube = cube }) }
    {
        let facts = sum_facts(shape.facts.as_slice());
        let index = index_of(alloc, dims.dimensions(), shape.points.as_slice())?;
        Ok(Core {
            dims,
            shape,
            cube,
            facts,
            index,
        })
    }

    /// The dimensions and the measures.
    pub fn dims(&self) -> &Dims
        ensures dims { result.now ≡ self.now.dims }
        ensures rules { IsCore self.now }
    {
        &self.dims
    }

    /// The points, with their numbers of facts.
    pub fn shape(&self) -> &Shape
        ensures shape { result.now ≡ self.now.shape }
        ensures rules { IsCore self.now }
    {
        &self.shape
    }

    /// How many points there are.
    pub fn len(&self) -> u32
        ensures len { result ≡ length self.now.shape.points }
        ensures rules { IsCore self.now }
    {
        self.shape.points.len() as u32
    }

    /// Whether there is no point.
    pub fn is_empty(&self) -> bool
        ensures { result ≡ (length self.now.shape.points == 0) }
    {
        self.shape.points.is_empty()
    }

    /// How many facts there are at all points together.
    pub fn facts(&self) -> u64
        ensures facts { result ≡ sum self.now.shape.facts }
        ensures rules { IsCore self.now }
    {
        self.facts
    }

    /// Whether there are as many points as vectors of leaves.
    pub fn is_full(&self) -> bool
        ensures { result ≡ is_full self.now }
    {
        has_vectors(self.dims.dimensions(), u64::from(self.len()))
    }

    /// The number, at a level of a dimension, of the ancestor of a place. Takes constant time.
    pub fn key_at(&self, place: u32, dimension: u32, level: u32) -> u32
        requires place { place < length self.now.shape.points }
        requires dimension { dimension < length self.now.dims.dimensions }
        requires level { level ≤ length (dimension_at self.now.dims dimension).levels }
        ensures ancestor { result ≡ up (plain (dimension_at self.now.dims dimension)) level (slice_index_or (slice_index_or self.now.shape.points place []) dimension 0) }
        ensures small { result < 65536 }
    {
        let leaf = self.shape.points.as_slice()[place as usize].as_slice()[dimension as usize];
        self.dims.dimension(dimension).up(level, leaf)
    }

    /// For each dimension the orders of all places, one for each named level.
    pub(crate) fn index(&self) -> &[Items<Order>]
        ensures index { IsIndex self.now.dims.dimensions self.now.shape.points result.now }
        ensures rules { IsCore self.now }
    {
        self.index.as_slice()
    }

    /// The values of a measure, one for each place.
    pub(crate) fn values(&self, measure: u32) -> &[i64]
        requires { measure < length self.now.dims.measures }
        ensures values { result.now ≡ slice_index_or self.now.cube measure [] }
        ensures rules { IsCore self.now }
    {
        self.cube.as_slice()[measure as usize].as_slice()
    }

    /// The value of a measure at a place. One step.
    pub fn value<L: Ledger>(&self, place: u32, measure: u32, steps: &mut Steps<L>) -> i64
        requires place { place < length self.now.shape.points }
        requires measure { measure < length self.now.dims.measures }
        ensures value { result ≡ slice_index_or (slice_index_or self.now.cube measure []) place (pos 0) }
        ensures bound { IsSumOf (slice_index_or self.now.shape.facts place 0) result }
        ensures step { steps.new ≡ steps.old + 1 }
        ensures rules { IsCore self.now }
    {
        steps.read(self.values(measure), place)
    }
}
