// Policies over the pay cube and over fields.
ghost use Rattle.std.specs.Prelude.{◌≡◌, ◌≤◌, ◌∷◌, [], length, map, IfOk};
ghost use Rattle.cube_fixtures.specs.Policies.{object_of, policy_of, within, field_policy, IsGuard};
ghost use Rattle.cube_fixtures.specs.Worked.{pay_core, some_fields};
ghost use Rattle.cube_model.specs.Cubes.{Each};
ghost use Rattle.cube_model.specs.Policies.{IsPolicy};

use crate::requests::two;
use cube_model::{Items, Method, Methods, NoMemory, Object, Objects, Policy, Slice, Within};
use std::alloc::Global;

/// What an object protects of the pay cube: the cells of a measure at a level of regions and at months, in one area or
/// everywhere, and all below them.
#[derive(Clone, Copy, Debug, PartialEq, Eq)]
pub struct Guard {
    /// The number of the measure, 0 for pay and 1 for hours.
    pub measure: u32,
    /// The level of regions.
    pub level: u32,
    /// The number of the area, 0 for the South and 1 for the North.
    pub area: Option<u32>,
}

fn slice(alloc: Global, area: Option<u32>) -> Result<Slice, NoMemory>
    ensures { IfOk result (λ made. made ≡ within area) }
{
    let mut slice = Slice::new(alloc);
    if let Some(area) = area {
        let mut members = Items::new(alloc);
        members.push(area)?;
        slice.push(Within {
            dimension: 0,
            level: 1,
            members,
        })?;
    }
    Ok(slice)
}

fn object(alloc: Global, guard: &Guard) -> Result<Object, NoMemory>
    ensures { IfOk result (λ made. made ≡ object_of guard.now) }
{
    let levels = two(alloc, guard.level, 0)?;
    let slice = slice(alloc, guard.area)?;
    Ok(Object {
        measure: guard.measure,
        levels,
        slice,
        fewer: None,
    })
}

fn objects(alloc: Global, guards: &[Guard]) -> Result<Objects, NoMemory>
    ensures { IfOk result (λ made. made ≡ map object_of guards.now) }
{
    let mut objects = Objects::new(alloc);
    'guards: for guard in guards {
        objects.push(object(alloc, guard)?)?;
    }
    Ok(objects)
}

/// A policy over the pay cube: the methods of pay and of hours, and at most 64 objects that may stand under these.
#[tactic(auto, using(crate::proofs::Guarded::guarded))]
pub fn policy(
    alloc: Global,
    pay: Method,
    hours: Method,
    guards: &[Guard],
) -> Result<Policy, NoMemory>
    requires few { length guards.now ≤ 64 }
    requires guards { Each (IsGuard pay hours) guards.now }
    ensures is { IfOk result (λ made. made ≡ policy_of pay hours guards.now) }
    ensures rules { IfOk result (IsPolicy pay_core.dims) }
{
    let mut methods = Methods::new(alloc);
    methods.push(pay)?;
    methods.push(hours)?;
    let objects = objects(alloc, guards)?;
    Ok(Policy { methods, objects })
}

/// The policy over fields: their measure is under the parity rule, and each place is guarded.
#[tactic(auto, using(crate::proofs::Guarded::fields_guarded))]
pub fn field_policy(alloc: Global) -> Result<Policy, NoMemory>
    ensures is { IfOk result (λ made. made ≡ field_policy) }
    ensures rules { IfOk result (IsPolicy some_fields.dims) }
{
    let mut methods = Methods::new(alloc);
    methods.push(Method::Parity)?;
    let objects = Objects::new(alloc);
    Ok(Policy { methods, objects })
}
