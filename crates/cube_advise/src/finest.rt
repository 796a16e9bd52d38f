// The finest cuboids that a source leaves open.
ghost use Rattle.std.specs.Prelude.{◌≡◌, ◌<◌, ◌++◌, ◌∷◌, [], true, None, not, ◌&&◌, if◌then◌else◌, filter, length, IfOk, OnOk, option_copied, is_none, Option};
ghost use Rattle.cube_model.specs.Cores.{shown};
ghost use Rattle.cube_model.specs.Cubes.{are_levels, same};
ghost use Rattle.cube_model.specs.Dims.{plains};
ghost use Rattle.cube_model.specs.Policies.{IsPolicy};
ghost use Rattle.cube_model.specs.Safe.{finest, has_finer as finer_test};
ghost use Rattle.cube_model.specs.declared.cell.Cell.{Cell};
ghost use Rattle.cube_source.specs.Judged.{judged_of};
ghost use Rattle.cube_source.specs.Tables.{TableStands};
ghost use Rattle.cube_advise.specs.Open.{is_open_by, finest_by, InRange};

use cube_core::Core;
use cube_lattice::{cuboids, finer_or_equal, narrow};
use cube_model::{Cuboids, Levels, NoMemory, Policy};
use cube_source::{JudgeTable, Judged};
use std::alloc::Global;

// A measure of a core under a policy, and the source that it has there, if it has one.
#[derive(Drop)]
struct Sourced<'a> {
    core: &'a Core,
    policy: &'a Policy,
    source: Option<&'a Levels>,
    measure: u32,
}

// Whether a cuboid was judged to cut each protected cell.
fn is_safe(judged: &Judged) -> bool
    ensures { (found : Option Cell) → judged.now ≡ judged_of found → result ≡ is_none found }
{
    match judged {
        Judged::Safe => true,
        Judged::Uncut { .. } => false,
    }
}

// Whether a cuboid is open under a source.
fn is_open(
    alloc: Global,
    sourced: &Sourced,
    table: &mut JudgeTable,
    levels: &Levels,
) -> Result<bool, NoMemory>
    requires policy { IsPolicy sourced.now.core.now.dims sourced.now.policy.now }
    requires measure { sourced.now.measure < length sourced.now.core.now.dims.measures }
    requires source { InRange (plains sourced.now.core.now.dims) (option_copied sourced.now.source) }
    requires levels { are_levels (plains sourced.now.core.now.dims) levels.now ≡ true }
    requires stands { TableStands sourced.now.core.now sourced.now.policy.now table.old }
    ensures is { IfOk result (λ open_now. open_now ≡ is_open_by (shown sourced.now.core.now sourced.now.policy.now) (option_copied sourced.now.source) sourced.now.measure levels.now) }
    ensures stands { TableStands sourced.now.core.now sourced.now.policy.now table.new }
{
    let narrowed = narrow(sourced.source, levels.copied(alloc)?);
    let judged = table.judge(
        alloc,
        sourced.core,
        sourced.policy,
        sourced.measure,
        &narrowed,
    )?;
    Ok(is_safe(&judged))
}

// Whether two cuboids have the same levels.
fn are_same(levels: &[u32], others: &[u32]) -> bool
    ensures { result ≡ same levels.now others.now }
{
    levels == others
}

// Whether another one of some cuboids is finer than one.
fn has_finer(cuboids: &[Levels], levels: &Levels) -> bool
    ensures { result ≡ finer_test cuboids.now levels.now }
{
    cuboids.iter().any(|other| {
        finer_or_equal(other, levels) && !are_same(other.as_slice(), levels.as_slice())
    })
}

// Whether a cuboid is open under a source and above none that is known to be open. One that is above such a one is not judged.
fn is_news(
    alloc: Global,
    sourced: &Sourced,
    table: &mut JudgeTable,
    known: &[Levels],
    levels: &Levels,
) -> Result<bool, NoMemory>
    requires policy { IsPolicy sourced.now.core.now.dims sourced.now.policy.now }
    requires measure { sourced.now.measure < length sourced.now.core.now.dims.measures }
    requires source { InRange (plains sourced.now.core.now.dims) (option_copied sourced.now.source) }
    requires levels { are_levels (plains sourced.now.core.now.dims) levels.now ≡ true }
    requires stands { TableStands sourced.now.core.now sourced.now.policy.now table.old }
    ensures news { IfOk result (λ news. news ≡ (not (finer_test known.now levels.now) && is_open_by (shown sourced.now.core.now sourced.now.policy.now) (option_copied sourced.now.source) sourced.now.measure levels.now)) }
    ensures stands { TableStands sourced.now.core.now sourced.now.policy.now table.new }
{
    if has_finer(known, levels) {
        return Ok(false);
    }
    is_open(alloc, sourced, table, levels)
}

// Puts a cuboid behind others, or leaves it out.
fn push_if(
    alloc: Global,
    found: &mut Cuboids,
    levels: &Levels,
    is_wanted: bool,
) -> Result<(), NoMemory>
    ensures { OnOk result (found.new ≡ (if is_wanted then found.old ++ levels.now ∷ [] else found.old)) }
{
    if is_wanted {
        found.push(levels.copied(alloc)?)?;
    }
    Ok(())
}

// Cuboids that are open under a source, among them each that no other open one is finer than.
fn open_cuboids(alloc: Global, sourced: &Sourced) -> Result<Cuboids, NoMemory>
    requires policy { IsPolicy sourced.now.core.now.dims sourced.now.policy.now }
    requires measure { sourced.now.measure < length sourced.now.core.now.dims.measures }
    requires source { InRange (plains sourced.now.core.now.dims) (option_copied sourced.now.source) }
    ensures { IfOk result (λ found. filter (λ c. not (finer_test found c)) found ≡ finest_by (shown sourced.now.core.now sourced.now.policy.now) (option_copied sourced.now.source) sourced.now.measure) }
{
    let all = cuboids(alloc, sourced.core.dims())?;
    let mut table = JudgeTable::new(alloc, sourced.core.dims(), sourced.policy)?;
    let mut found = Cuboids::new(alloc);
    'cuboids: for levels in all.as_slice() {
        let known = found.as_slice();
        let is_wanted = is_news(alloc, sourced, &mut table, known, levels)?;
        push_if(alloc, &mut found, levels, is_wanted)?;
    }
    Ok(found)
}

// Those of some cuboids that no other one is finer than.
fn finest_of(alloc: Global, cuboids: &[Levels]) -> Result<Cuboids, NoMemory>
    ensures { IfOk result (λ finest. finest ≡ filter (λ c. not (finer_test cuboids.now c)) cuboids.now) }
{
    let mut finest = Cuboids::new(alloc);
    'cuboids: for levels in cuboids {
        if !has_finer(cuboids, levels) {
            finest.push(levels.copied(alloc)?)?;
        }
    }
    Ok(finest)
}

/// The finest cuboids that are open for a measure, by number, where its history has this source: a cuboid is open where the source,
/// narrowed by it, cuts each protected cell still. With no source these are the finest safe cuboids.
pub fn finest_behind(
    alloc: Global,
    core: &Core,
    policy: &Policy,
    source: Option<&Levels>,
    measure: u32,
) -> Result<Cuboids, NoMemory>
    requires policy { IsPolicy core.now.dims policy.now }
    requires measure { measure < length core.now.dims.measures }
    requires source { InRange (plains core.now.dims) (option_copied source) }
    ensures finest { IfOk result (λ listed. listed ≡ finest_by (shown core.now policy.now) (option_copied source.entry) measure) }
    ensures safe { option_copied source.entry ≡ None → IfOk result (λ listed. listed ≡ finest (shown core.now policy.now) measure) }
{
    let sourced = Sourced {
        core,
        policy,
        source,
        measure,
    };
    let found = open_cuboids(alloc, &sourced)?;
    finest_of(alloc, found.as_slice())
}
