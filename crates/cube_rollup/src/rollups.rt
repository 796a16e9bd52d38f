// The cuboids that are kept to answer from.
ghost use Rattle.std.specs.Prelude.{◌≡◌, ◌<◌, ◌++◌, ◌∷◌, [], Some, None, length, slice_index_or, option_copied, IfOk, OnOk, OnErr};
ghost use Rattle.cube_rollup.specs.Rollups.{entered};

use crate::Cuboid;
use cube_model::NoMemory;
use std::alloc::Global;
use std::marker::Model;

/// For each measure the cuboid that its requests are answered from, where there is one, and perhaps one that takes its
/// place among them once the request that waits has entered the history.
///
/// A contract sees them as a list and an option. Which cuboids they are is said by a relation, since they hold no core.
#[derive(Drop)]
pub struct Rollups {
    kept: Vec<Option<Cuboid>>,
    next: Option<Cuboid>,
}

impl Model for Rollups {
    ghost use Rattle.std.specs.Prelude.{◌<◌, length};
    ghost use Rattle.std.specs.Option.{IfSome};
    ghost use Rattle.cube_rollup.specs.Rollups as said;

    ghost Value = { said.Rollups };

    ghost view = { λ s. record { kept = s.kept.items; next = s.next } };

    ghost invariant = { λ s. IfSome s.next (λ k. k.measure < length s.kept.items) };
}

impl Rollups {
    /// Of no measure.
    pub fn new(alloc: Global) -> Self
        ensures { result ≡ record { kept = []; next = None } }
    {
        Rollups {
            kept: Vec::new(alloc),
            next: None,
        }
    }

    /// Adds one more measure, with its cuboid where it has one.
    pub fn push(&mut self, cuboid: Option<Cuboid>) -> Result<(), NoMemory>
        ensures kept { OnOk result (self.new.kept ≡ self.old.kept ++ cuboid ∷ []) }
        ensures next { self.new.next ≡ self.old.next }
        ensures err { OnErr result (self.new ≡ self.old) }
    {
        self.kept.push(cuboid)?;
        Ok(())
    }

    /// Holds the cuboid that takes its place once the request that waits has entered.
    pub fn hold(&mut self, cuboid: Cuboid)
        requires { cuboid.measure < length self.old.kept }
        ensures { self.new ≡ record { kept = self.old.kept; next = Some cuboid } }
    {
        self.next = Some(cuboid);
    }

    /// Puts the cuboid that is held, if any, in its place.
    pub fn commit(&mut self)
        ensures { self.new ≡ record { kept = entered self.old; next = None } }
    {
        if let Some(cuboid) = self.next.take() {
            let measure = cuboid.measure() as usize;
            self.kept[measure] = Some(cuboid);
        }
    }

    /// Lets the cuboid that is held, if any, go.
    pub fn drop_next(&mut self)
        ensures { self.new ≡ record { kept = self.old.kept; next = None } }
    {
        self.next = None;
    }

    /// The cuboid of a measure, where there is one: the one that is held, if it is of this measure, and else the one that
    /// is kept.
    pub fn at(&self, measure: u32) -> Option<&Cuboid>
        requires { measure < length self.now.kept }
        ensures { option_copied result ≡ slice_index_or (entered self.now) measure None }
    {
        if let Some(cuboid) = &self.next {
            if cuboid.measure() == measure {
                return Some(cuboid);
            }
        }
        self.kept[measure as usize].as_ref()
    }
}
