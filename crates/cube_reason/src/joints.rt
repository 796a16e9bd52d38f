// Where the pairs among ties lead from each place.
ghost use Rattle.std.specs.Prelude.{◌≡◌, ◌<◌, ◌++◌, ◌∷◌, ℕ, [], length, replicate, slice_index_or, IfOk, OnOk, slice_set};
ghost use Rattle.cube_reason.specs.Tied.{AreJoints, OfPlaces, led_by};
ghost use Rattle.cube_model.specs.LinkLaws.{IsOfPlaces};

use crate::ties::{Bringer, Tie};
use cube_model::{Items, Link, NoMemory};
use std::alloc::Global;

/// Where a pair leads, and where it comes from.
#[derive(Clone, Copy)]
pub(crate) struct Joint {
    pub to: u32,
    pub by: Bringer,
}

/// Nothing for each of so many places.
fn no_joints(alloc: Global, many: u32) -> Result<Vec<Items<Joint>>, NoMemory>
    ensures { IfOk result (λ joints. joints.items ≡ replicate many []) }
{
    let mut joints = Vec::with_capacity(alloc, many as usize)?;
    'places: for _place in 0..many {
        joints.push(Items::new(alloc))?;
    }
    Ok(joints)
}

/// Puts a joint at the end of those of a place.
fn put_joint(joints: &mut Vec<Items<Joint>>, place: u32, joint: Joint) -> Result<(), NoMemory>
    requires { place < length joints.old.items }
    ensures { OnOk result (joints.new.items ≡ slice_set joints.old.items place (slice_index_or joints.old.items place [] ++ joint ∷ [])) }
{
    joints[place as usize].push(joint)
}

/// Puts where a tie leads at the end of the joints of its places.
fn put_tie(joints: &mut Vec<Items<Joint>>, tie: Tie) -> Result<(), NoMemory>
    requires { IsOfPlaces (length joints.old.items) tie.link }
    ensures long { OnOk result (length joints.new.items ≡ length joints.old.items) }
    ensures at { OnOk result ((a : ℕ) → a < length joints.old.items → slice_index_or joints.new.items a [] ≡ slice_index_or joints.old.items a [] ++ led_by a tie.link tie.by) }
{
    let by = tie.by;
    match tie.link {
        Link::Pair(i, j) => {
            put_joint(joints, i, Joint { to: j, by })?;
            put_joint(joints, j, Joint { to: i, by })
        }
        Link::Single(_) => Ok(()),
    }
}

/// For each of so many places where the pairs among ties lead from it. Takes as many steps as there are ties.
pub(crate) fn joints_of(
    alloc: Global,
    many: u32,
    ties: &[Tie],
) -> Result<Vec<Items<Joint>>, NoMemory>
    requires { OfPlaces many ties.now }
    ensures { IfOk result (λ joints. AreJoints many ties.now joints.items) }
{
    let mut joints = no_joints(alloc, many)?;
    'ties: for tie in ties {
        put_tie(&mut joints, *tie)?;
    }
    Ok(joints)
}
