// `check`: what the files of a cube hold.
ghost use Rattle.std.specs.Prelude.{◌≡◌, ◌⊎◌, ◌*◌, [], IfOk};
ghost use Rattle.cube_io.specs.Causes.{Rose};
ghost use Rattle.cube_model.specs.Cubes.{cuboid_count};
ghost use Rattle.cube_model.specs.Dims.{plains};
ghost use Rattle.cube_model.specs.Policies.{IsPolicy};
ghost use Rattle.cube_opening.specs.Causes.{HasCauses};
ghost use Rattle.cube_opening.specs.Outside.{UsesFiles, counted, outside};
ghost use Rattle.cube_opening.specs.Opening.{HasAll};
ghost use Rattle.cube_commands.specs.Summary.{CheckEnds, digest_line as digest_words, core_text as core_words, check_text as check_words};

use crate::saying::put_text;
use cube_core::Core;
use cube_io::{Folder, Sink, Source, Store, Wire};
use cube_journal::{digest_of, public_text};
use cube_model::{Dims, NoMemory, Policy, Text};
use cube_opening::{CubeFiles, Message, Report, World, open_guarded};
use cube_source::count_protected_all;
use cube_text::push_count;
use std::alloc::Global;

// How many cuboids there are: each dimension has its named levels and `all`.
fn count_cuboids(dims: &Dims) -> u64
    ensures { result ≡ cuboid_count (plains dims.now) }
{
    let mut count = 1u64;
    for dimension in dims.dimensions() {
        count *= dimension.levels().len() as u64 + 1;
    }
    count
}

// The lines on a core.
fn core_text(alloc: Global, core: &Core) -> Result<Text, NoMemory>
    ensures { IfOk result (λ text. text ≡ core_words core.now) }
{
    let dims = core.dims();
    let mut text = Text::new(alloc);
    push_count(&mut text, b"dimensions", dims.dimensions().len() as u64)?;
    push_count(&mut text, b"measures", dims.measures().len() as u64)?;
    push_count(&mut text, b"facts", core.facts())?;
    push_count(&mut text, b"points", u64::from(core.len()))?;
    if core.is_full() {
        text.extend(b"full yes\n")?;
    } else {
        text.extend(b"full no\n")?;
    }
    push_count(&mut text, b"cuboids", count_cuboids(dims))?;
    Ok(text)
}

// The line with the digest of what is public.
fn digest_line(alloc: Global, core: &Core, policy: &Policy) -> Result<Text, NoMemory>
    requires { IsPolicy core.now.dims policy.now }
    ensures { IfOk result (λ text. text ≡ digest_words core.now policy.now) }
{
    let _rules = core.dims();
    let public = public_text(alloc, core.dims(), policy, core.shape())?;
    let digest = digest_of(public.as_slice());
    let mut text = Text::from_bytes(alloc, b"digest ")?;
    text.extend(digest.digits())?;
    text.extend(b"\n")?;
    Ok(text)
}

// The summary of a core and a policy, a line for each of their numbers and one for their digest.
fn check_text(alloc: Global, core: &Core, policy: &Policy) -> Result<Text, NoMemory>
    requires { IsPolicy core.now.dims policy.now }
    ensures { IfOk result (λ text. text ≡ check_words core.now policy.now) }
{
    let mut text = core_text(alloc, core)?;
    let number = count_protected_all(alloc, core, policy)?;
    push_count(&mut text, b"protected", number)?;
    text.extend(digest_line(alloc, core, policy)?.as_slice())?;
    Ok(text)
}

/// Prints the summary of what the files of a cube hold.
pub fn check<F: Folder, S: Store, I: Source, O: Sink, W: Wire>(
    alloc: Global,
    message: Message,
    cube: &CubeFiles,
    world: &mut World<F, S, I, O, W>,
) -> Report
    requires { message ≡ [] }
    ensures checks { CheckEnds cube.now (outside F.state S.state I.state O.state W.state world.old world.new) result }
    ensures causes { HasCauses (counted (outside F.state S.state I.state O.state W.state world.old world.new)) result }
    ensures complete { HasAll cube.now (F.state world.old.files) → ¬ Rose (F.state world.old.files).faults (F.state world.new.files).faults → ¬ Rose (O.state world.old.out).faults (O.state world.new.out).faults → (result.status ≡ 0) ⊎ (result.status ≡ 7) }
    ensures outcomes { result.outcomes ≡ [] }
    ensures leaves { UsesFiles (outside F.state S.state I.state O.state W.state world.old world.new) }
{
    let opened = match open_guarded(alloc, message, cube, &mut world.files) {
        Ok(opened) => opened,
        Err(report) => return report,
    };
    let text = check_text(alloc, &opened.value.core, &opened.value.policy);
    put_text(alloc, opened.message, text, &mut world.out)
}
