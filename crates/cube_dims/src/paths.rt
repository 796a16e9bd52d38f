// The paths of a dimension: their leaves, and the parents of their members.
ghost use Rattle.std.specs.Prelude.{◌≡◌, ◌<◌, ◌≤◌, [], length, take, not, slice_index_or, IfOk};
ghost use Rattle.std.specs.List.{list_all, list_any};
ghost use Rattle.std.specs.Str.{bytes_eq};
ghost use Rattle.cube_model.specs.Answers.{Answers};
ghost use Rattle.cube_model.specs.Checks.{in_turn, unless};
ghost use Rattle.cube_model.specs.Cubes.{place_of};
ghost use Rattle.cube_model.specs.Names.{is_name};
ghost use Rattle.cube_model.specs.Dims.{ancestor_names};
ghost use Rattle.cube_dims.specs.DimsFile.{stands_in, parts_ways, path_faults, AreHierarchy};
ghost use Rattle.cube_dims.specs.declared.fault.DimsFault.TheVariants as fault;

use crate::dimension::Parts;
use crate::fault::DimsFault;
use crate::names::is_name;
use cube_model::{Items, NoMemory, NumberedNames, Text};
use cube_tables::item_text;
use std::alloc::Global;

/// For each named level the ancestors of the leaves.
pub(crate) fn members_of(alloc: Global, parts: &Parts) -> Result<Items<NumberedNames>, NoMemory>
    requires { length parts.now.paths ≤ 65536 }
    ensures { IfOk result (λ members. members ≡ ancestor_names parts.now) }
{
    let mut members = Items::new(alloc);
    for level in 0..parts.levels().len() {
        members.push(NumberedNames::at_level(alloc, parts.paths(), level)?)?;
    }
    Ok(members)
}

/// Whether all texts are names.
fn are_names(texts: &[Text]) -> bool
    ensures { result ≡ list_all is_name texts.now }
{
    texts.iter().all(|text| is_name(text.as_slice()))
}

/// Whether the name at a place stands at an earlier one.
fn stood_before(names: &NumberedNames, place: usize) -> bool
    requires { place < length names.now }
    ensures { result ≡ stands_in (slice_index_or names.now place []) (take place names.now) }
{
    (names.first_alike(place) as usize) < place
}

/// Whether the member of a leaf at a level has another parent than it has at its first leaf.
fn has_other_parent(below: &NumberedNames, above: &NumberedNames, leaf: usize) -> bool
    requires below { leaf < length below.now }
    requires above { length above.now ≡ length below.now }
    ensures { result ≡ not (bytes_eq (slice_index_or above.now leaf []) (slice_index_or above.now (place_of (slice_index_or below.now leaf []) below.now) [])) }
{
    above.number(leaf) != above.number(below.first_alike(leaf) as usize)
}

/// Whether the path of a leaf gives a member another parent than an earlier path does, which all
/// agree. One look-up for each level decides it.
fn has_two_parents(parts: &Parts, members: &[NumberedNames], leaf: usize) -> bool
    requires leaf { leaf < length parts.now.paths }
    requires members { members.now ≡ ancestor_names parts.now }
    requires even { length (slice_index_or parts.now.paths leaf []) ≡ length parts.now.levels }
    requires earlier { AreHierarchy (length parts.now.levels) (take leaf parts.now.paths) }
    ensures { result ≡ list_any (parts_ways (slice_index_or parts.now.paths leaf [])) (take leaf parts.now.paths) }
{
    for level in 1..members.len() {
        if has_other_parent(&members[level - 1], &members[level], leaf) {
            return true;
        }
    }
    false
}

/// Checks the path of a leaf, where the earlier ones have no fault.
fn check_path(
    alloc: Global,
    entry: &Text,
    parts: &Parts,
    members: &[NumberedNames],
    leaf: usize,
) -> Result<(), DimsFault>
    requires leaf { leaf < length parts.now.paths }
    requires levels { 0 < length parts.now.levels }
    requires members { members.now ≡ ancestor_names parts.now }
    requires earlier { in_turn (path_faults entry.now (length parts.now.levels)) [] (take leaf parts.now.paths) ≡ [] }
    ensures { Answers fault.NoMemory result (unless (path_faults entry.now (length parts.now.levels) (take leaf parts.now.paths) (slice_index_or parts.now.paths leaf [])) tt) }
{
    let path = &parts.paths()[leaf];
    if path.len() != parts.levels().len() {
        return Err(DimsFault::Uneven {
            key: item_text(alloc, entry, b"paths", leaf as u64 + 1)?,
        });
    }
    if !are_names(path.as_slice()) {
        return Err(DimsFault::BadName {
            key: item_text(alloc, entry, b"paths", leaf as u64 + 1)?,
        });
    }
    if stood_before(&members[0], leaf) {
        return Err(DimsFault::LeafTwice {
            key: item_text(alloc, entry, b"paths", leaf as u64 + 1)?,
        });
    }
    if has_two_parents(parts, members, leaf) {
        return Err(DimsFault::TwoParents {
            key: item_text(alloc, entry, b"paths", leaf as u64 + 1)?,
        });
    }
    Ok(())
}

/// Checks the paths of a dimension in turn.
pub(crate) fn check_paths(
    alloc: Global,
    entry: &Text,
    parts: &Parts,
    members: &[NumberedNames],
) -> Result<(), DimsFault>
    requires levels { 0 < length parts.now.levels }
    requires members { members.now ≡ ancestor_names parts.now }
    ensures { Answers fault.NoMemory result (unless (in_turn (path_faults entry.now (length parts.now.levels)) [] parts.now.paths) tt) }
{
    for leaf in 0..parts.paths().len() {
        check_path(alloc, entry, parts, members, leaf)?;
    }
    Ok(())
}
