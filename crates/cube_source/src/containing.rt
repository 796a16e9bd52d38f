// Whether an object protects only cells that an earlier one protects.
ghost use Rattle.std.specs.Prelude.{◌≡◌, ◌==◌, ◌&&◌, true};
ghost use Rattle.std.specs.List.{list_any, list_all};
ghost use Rattle.cube_model.specs.Cubes.{Each, is_finer};
ghost use Rattle.cube_model.specs.Dims.{Dims};
ghost use Rattle.cube_model.specs.Policies.{IsWithin, are_rising};
ghost use Rattle.cube_model.specs.Protection.{listed};
ghost use Rattle.cube_source.specs.Containing as said;
ghost use Rattle.cube_source.specs.Objects.{IsPlaced};

use crate::places::is_listed;
use cube_core::Core;
use cube_lattice::finer_or_equal;
use cube_model::{Object, Within};

/// Whether each of some members is among others.
fn are_listed(members: &[u32], others: &[u32]) -> bool
    requires { are_rising others.now ≡ true }
    ensures { result ≡ list_all (λ member. listed member others.now) members.now }
{
    members.iter().all(|member| is_listed(others, *member))
}

/// Whether one list of a slice is of the same level as another, and has only members that this has.
fn lists_fewer(within: &Within, wide: &Within) -> bool
    requires { are_rising wide.now.members ≡ true }
    ensures { result ≡ said.lists_fewer wide.now within.now }
{
    within.dimension == wide.dimension
        && within.level == wide.level
        && are_listed(within.members.as_slice(), wide.members.as_slice())
}

/// Whether a slice has such a list.
fn has_fewer(slice: &[Within], wide: &Within) -> bool
    requires { are_rising wide.now.members ≡ true }
    ensures { result ≡ list_any (said.lists_fewer wide.now) slice.now }
{
    slice.iter().any(|within| lists_fewer(within, wide))
}

/// Whether the slice of an object is within that of another, list by list.
fn is_narrower(core: &Core, object: &Object, wide: &Object) -> bool
    requires { Each (IsWithin core.now.dims) wide.now.slice }
    ensures { result ≡ said.is_narrower object.now.slice wide.now.slice }
{
    let _core = core;
    'slice: for within in wide.slice.as_slice() {
        if !has_fewer(object.slice.as_slice(), within) {
            return false;
        }
    }
    true
}

/// Whether what has fewer facts than one number has fewer than another, where numbers are given.
fn is_wider(few: Option<u32>, wide: Option<u32>) -> bool
    ensures { result ≡ said.is_wider few wide }
{
    match wide {
        None => true,
        Some(most) => match few {
            None => false,
            Some(number) => number <= most,
        },
    }
}

/// Whether an earlier object of the same measure stands at or above an object, with as wide a slice and as great a number
/// of facts.
pub(crate) fn is_contained(core: &Core, earlier: &[Object], object: &Object) -> bool
    requires { Each (IsPlaced core.now.dims) earlier.now }
    ensures { result ≡ said.is_contained earlier.now object.now }
{
    'objects: for other in earlier {
        if other.measure == object.measure
            && finer_or_equal(&object.levels, &other.levels)
            && is_narrower(core, object, other)
            && is_wider(object.fewer, other.fewer)
        {
            return true;
        }
    }
    false
}
