// A table of judged cuboids.
ghost use Rattle.std.specs.Prelude.{◌≡◌, ◌+◌, ◌*◌, ◌⊎◌, ◌<◌, ◌≤◌, true, Some, None, [], length, replicate, IfOk, OnErr};
ghost use Rattle.cube_model.specs.Cores.{Core, shown};
ghost use Rattle.cube_model.specs.Cubes as cubes;
ghost use Rattle.cube_model.specs.Cubes.{are_levels, cuboid_count, IsIn};
ghost use Rattle.cube_model.specs.Dims.{plains};
ghost use Rattle.cube_model.specs.Policies.{IsPolicy};
ghost use Rattle.cube_model.specs.Protection.{uncut};
ghost use Rattle.cube_source.specs.Judged.{judged_of};
ghost use Rattle.cube_source.specs.Tables.{Found, found_at, IsSlot, TableStands};

use crate::judging::{Judged, judge, make_cell};
use cube_core::Core;
use cube_lattice::{cuboid_number, cuboids};
use cube_model::{Dims, Levels, NoMemory, Policy};
use std::alloc::Global;
use std::marker::Model;

/// The verdicts on source cuboids that were found, so that no cuboid of a measure is judged twice.
///
/// A contract sees how many measures and cuboids there are, and the verdicts kept.
#[derive(Drop)]
pub struct JudgeTable {
    measures: u32,
    cuboids: u32,
    slots: Vec<Option<Judged>>,
}

impl Model for JudgeTable {
    ghost use Rattle.std.specs.Prelude.{◌≡◌, ◌*◌, ◌≤◌, length};
    ghost use Rattle.cube_source.specs.Tables.{Table, found_from};

    ghost Value = { Table };

    ghost view = { λ t. record { measures = t.measures; cuboids = t.cuboids; found = found_from t.cuboids 0 t.slots.items } };

    ghost invariant = { λ t. (length t.slots.items ≡ t.measures * t.cuboids) × (t.measures ≤ 16) × (t.cuboids ≤ 256) };
}

/// So many slots with no verdict.
fn no_slots(alloc: Global, many: u32) -> Result<Vec<Option<Judged>>, NoMemory>
    ensures { IfOk result (λ slots. slots.items ≡ replicate many None) }
{
    let mut slots = Vec::new(alloc);
    'slots: for _slot in 0..many {
        slots.push(None)?;
    }
    Ok(slots)
}

/// How many cuboids there are.
fn count_cuboids(alloc: Global, dims: &Dims) -> Result<u32, NoMemory>
    ensures count { IfOk result (λ count. count ≡ cuboid_count (plains dims.now)) }
    ensures few { IfOk result (λ count. count ≤ 256) }
{
    let _rules = dims.dimensions();
    Ok(cuboids(alloc, dims)?.len() as u32)
}

/// A copy of a verdict.
fn copy_judged(alloc: Global, judged: &Judged) -> Result<Judged, NoMemory>
    ensures { IfOk result (λ copy. copy ≡ judged.now) }
{
    match judged {
        Judged::Safe => Ok(Judged::Safe),
        Judged::Uncut { cell } => Ok(Judged::Uncut {
            cell: make_cell(alloc, &cell.levels, &cell.key)?,
        }),
    }
}

impl JudgeTable {
    /// A table that keeps no verdict.
    pub fn new(alloc: Global, dims: &Dims, _policy: &Policy) -> Result<Self, NoMemory>
        ensures empty { IfOk result (λ table. table ≡ record { measures = length dims.now.measures; cuboids = cuboid_count (plains dims.now); found = [] }) }
        ensures stands { IfOk result (λ table. (core : Core) → core.dims ≡ dims.now → TableStands core _policy.now table) }
    {
        let measures = dims.measures().len() as u32;
        let cuboids = count_cuboids(alloc, dims)?;
        let slots = no_slots(alloc, measures * cuboids)?;
        Ok(JudgeTable {
            measures,
            cuboids,
            slots,
        })
    }

    /// The slot of a cuboid of a measure.
    fn slot(&self, dims: &Dims, measure: u32, levels: &Levels) -> usize
        requires measures { self.now.measures ≡ length dims.now.measures }
        requires cuboids { self.now.cuboids ≡ cuboid_count (plains dims.now) }
        requires measure { measure < length dims.now.measures }
        requires levels { are_levels (plains dims.now) levels.now ≡ true }
        ensures { IsSlot dims.now self.now measure levels.now result }
    {
        let number = cuboid_number(dims, levels);
        (measure * self.cuboids + number) as usize
    }

    /// A copy of the verdict in a slot, where there is one.
    fn kept(&self, alloc: Global, slot: usize) -> Result<Option<Judged>, NoMemory>
        requires { slot < self.now.measures * self.now.cuboids }
        ensures { IfOk result (λ kept. (judged : Judged) → kept ≡ Some judged → IsIn (found_at self.now.cuboids slot judged) self.now.found) }
    {
        match &self.slots[slot] {
            Some(judged) => Ok(Some(copy_judged(alloc, judged)?)),
            None => Ok(None),
        }
    }

    /// Keeps a verdict in a slot.
    fn keep(&mut self, slot: usize, judged: Judged)
        requires { slot < self.old.measures * self.old.cuboids }
        ensures measures { self.new.measures ≡ self.old.measures }
        ensures cuboids { self.new.cuboids ≡ self.old.cuboids }
        ensures kept { IsIn (found_at self.old.cuboids slot judged) self.new.found }
        ensures others { (f : Found) → IsIn f self.new.found → IsIn f self.old.found ⊎ (f ≡ found_at self.old.cuboids slot judged) }
    {
        self.slots[slot] = Some(judged);
    }

    /// The verdict of `judge` on a cuboid of a measure. It is found once, and then kept.
    pub fn judge(
        &mut self,
        alloc: Global,
        core: &Core,
        policy: &Policy,
        measure: u32,
        levels: &Levels,
    ) -> Result<Judged, NoMemory>
        requires policy { IsPolicy core.now.dims policy.now }
        requires measure { measure < length core.now.dims.measures }
        requires levels { are_levels (plains core.now.dims) levels.now ≡ true }
        requires stands { TableStands core.now policy.now self.old }
        ensures judged { IfOk result (λ judged. judged ≡ judged_of (uncut (shown core.now policy.now) levels.now measure)) }
        ensures stands { TableStands core.now policy.now self.new }
        ensures kept { IfOk result (λ judged. IsIn (record { measure = measure; cuboid = cubes.cuboid_number (plains core.now.dims) levels.now; judged = judged }) self.new.found) }
        ensures err { OnErr result (self.new ≡ self.old) }
    {
        let slot = self.slot(core.dims(), measure, levels);
        if let Some(judged) = self.kept(alloc, slot)? {
            return Ok(judged);
        }
        let judged = judge(alloc, core, policy, measure, levels)?;
        let copy = copy_judged(alloc, &judged)?;
        self.keep(slot, copy);
        Ok(judged)
    }
}
