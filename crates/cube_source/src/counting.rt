// How many protected cells measures have.
ghost use Rattle.std.specs.Prelude.{◌≡◌, ◌<◌, ◌≤◌, ◌∷◌, true, [], filter, length, IfOk};
ghost use Rattle.std.specs.List.{sum_by};
ghost use Rattle.cube_model.specs.Cores.{shown};
ghost use Rattle.cube_model.specs.Cubes.{Each, count_from, places};
ghost use Rattle.cube_model.specs.Policies.{IsPolicy};
ghost use Rattle.cube_model.specs.Protection as protection;
ghost use Rattle.cube_source.specs.Blocks.{bare};
ghost use Rattle.cube_source.specs.Counts.{has_source, other_count, protected_count, under_count};
ghost use Rattle.cube_source.specs.Objects.{IsPlaced, of_measure};

use crate::protecting::is_guarded;
use crate::slices::{count_at, slices_of};
use cube_core::Core;
use cube_lattice::cuboids;
use cube_model::{Method, NoMemory, Object, Policy};
use std::alloc::Global;

/// How many cells objects of each of the measures protect: cuboid by cuboid, each cell of it once for a measure.
fn count_lattice(
    alloc: Global,
    core: &Core,
    objects: &[Object],
    measures: &[u32],
) -> Result<u64, NoMemory>
    requires objects { Each (IsPlaced core.now.dims) objects.now }
    requires few { length measures.now ≤ 16 }
    ensures count { IfOk result (λ count. count ≡ sum_by (under_count (bare core.now) objects.now) measures.now) }
    ensures small { IfOk result (λ count. count ≤ 268435456) }
{
    let dims = core.dims();
    let slices = slices_of(alloc, core, objects)?;
    let cuboids = cuboids(alloc, dims)?;
    let mut total = 0;
    'levels: for levels in cuboids.as_slice() {
        total += count_at(alloc, core, objects, slices.as_slice(), measures, levels)?;
    }
    Ok(total)
}

/// How many cells objects of the measure protect.
fn count_one(alloc: Global, core: &Core, objects: &[Object], measure: u32) -> Result<u64, NoMemory>
    requires objects { Each (IsPlaced core.now.dims) objects.now }
    ensures count { IfOk result (λ count. count ≡ under_count (bare core.now) objects.now measure) }
    ensures small { IfOk result (λ count. count ≤ 268435456) }
{
    count_lattice(alloc, core, objects, &[measure])
}

/// How many places are guarded.
fn count_parity(core: &Core, objects: &[Object], measure: u32) -> u64
    requires objects { Each (IsPlaced core.now.dims) objects.now }
    ensures count { result ≡ length (filter (protection.is_guarded (bare core.now) (of_measure measure objects.now)) (places (bare core.now))) }
    ensures small { result ≤ 65536 }
{
    let _rules = core.dims();
    let mut total = 0;
    'places: for place in 0..core.len() {
        if is_guarded(core, objects, measure, place) {
            total += 1;
        }
    }
    total
}

/// How many protected cells a measure has, each counted once.
pub fn count_protected(
    alloc: Global,
    core: &Core,
    policy: &Policy,
    measure: u32,
) -> Result<u64, NoMemory>
    requires policy { IsPolicy core.now.dims policy.now }
    requires measure { measure < length core.now.dims.measures }
    ensures count { IfOk result (λ count. count ≡ length (protection.protected (shown core.now policy.now) measure)) }
    ensures small { IfOk result (λ count. count ≤ 1073741824) }
{
    let objects = policy.objects.as_slice();
    match policy.method(measure) {
        Method::Plain => Ok(0),
        Method::Lattice => count_one(alloc, core, objects, measure),
        Method::Parity => Ok(count_parity(core, objects, measure)),
    }
}

/// Whether a measure is under the source rule.
fn is_source(policy: &Policy, measure: u32) -> bool
    ensures { result ≡ has_source policy.now measure }
{
    match policy.method(measure) {
        Method::Plain => false,
        Method::Lattice => true,
        Method::Parity => false,
    }
}

/// The measures under the source rule.
fn source_measures(alloc: Global, policy: &Policy) -> Result<Vec<u32>, NoMemory>
    requires { length policy.now.methods ≤ 16 }
    ensures { IfOk result (λ measures. measures.items ≡ filter (has_source policy.now) (count_from 0 (length policy.now.methods))) }
{
    let mut measures = Vec::new(alloc);
    'each: for measure in 0..policy.methods.len() {
        if is_source(policy, measure as u32) {
            measures.push(measure as u32)?;
        }
    }
    Ok(measures)
}

/// How many protected cells a measure has, if it is not under the source rule.
fn count_other(core: &Core, policy: &Policy, measure: u32) -> u64
    requires policy { IsPolicy core.now.dims policy.now }
    ensures count { result ≡ other_count core.now policy.now measure }
    ensures small { result ≤ 65536 }
{
    match policy.method(measure) {
        Method::Plain => 0,
        Method::Lattice => 0,
        Method::Parity => count_parity(core, policy.objects.as_slice(), measure),
    }
}

/// How many protected cells all measures have that are not under the source rule.
fn count_others(core: &Core, policy: &Policy) -> u64
    requires { IsPolicy core.now.dims policy.now }
    ensures count { result ≡ sum_by (other_count core.now policy.now) (count_from 0 (length policy.now.methods)) }
    ensures small { result ≤ 1048576 }
{
    let _rules = core.dims();
    let mut total = 0;
    'measures: for measure in 0..policy.methods.len() {
        total += count_other(core, policy, measure as u32);
    }
    total
}

/// How many protected cells all measures have, each counted once for each measure.
///
/// Cuboid by cuboid the places are grouped once for all measures under the source rule.
pub fn count_protected_all(alloc: Global, core: &Core, policy: &Policy) -> Result<u64, NoMemory>
    requires { IsPolicy core.now.dims policy.now }
    ensures { IfOk result (λ count. count ≡ protected_count core.now policy.now) }
{
    let _rules = core.dims();
    let objects = policy.objects.as_slice();
    let measures = source_measures(alloc, policy)?;
    let cells = count_lattice(alloc, core, objects, measures.as_slice())?;
    Ok(cells + count_others(core, policy))
}
