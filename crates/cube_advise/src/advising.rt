// The text of what can be released.
ghost use Rattle.std.specs.Prelude.{◌≡◌, ◌<◌, ◌++◌, length, codes, option_copied, IfOk, OnOk};
ghost use Rattle.std.specs.List.{All, flat_map};
ghost use Rattle.cube_model.specs.Cores.{shown};
ghost use Rattle.cube_model.specs.Dims.{plains};
ghost use Rattle.cube_model.specs.Policies.{IsPolicy};
ghost use Rattle.cube_admit.specs.States.{IsStateOf};
ghost use Rattle.cube_advise.specs.Open.{InRange};
ghost use Rattle.cube_advise.specs.Advice.{cuboid_line, source_lines, safe_lines, measure_line, lattice_lines, measure_lines, advice_text};

use crate::finest_behind;
use cube_admit::State;
use cube_answers::push_cuboid;
use cube_core::Core;
use cube_model::{Dims, Levels, Method, NoMemory, Policy, Text};
use cube_text::push_name;
use std::alloc::Global;

fn push_cuboid_line(
    text: &mut Text,
    dims: &Dims,
    word: &[u8],
    levels: &Levels,
) -> Result<(), NoMemory>
    requires { length levels.now ≡ length dims.now.dimensions }
    ensures { OnOk result (text.new ≡ text.old ++ cuboid_line dims.now word.now levels.now) }
{
    text.extend(word)?;
    text.push(b' ')?;
    push_cuboid(text, dims, levels.as_slice())?;
    text.push(b'\n')
}

fn push_source(text: &mut Text, dims: &Dims, source: Option<&Levels>) -> Result<(), NoMemory>
    requires { InRange (plains dims.now) (option_copied source) }
    ensures { OnOk result (text.new ≡ text.old ++ source_lines dims.now (option_copied source.entry)) }
{
    match source {
        None => Ok(()),
        Some(levels) => push_cuboid_line(text, dims, b"source", levels),
    }
}

fn push_each(text: &mut Text, dims: &Dims, listed: &[Levels]) -> Result<(), NoMemory>
    requires { All (λ c. length c ≡ length dims.now.dimensions) listed.now }
    ensures { OnOk result (text.new ≡ text.old ++ flat_map (cuboid_line dims.now (codes "safe")) listed.now) }
{
    for levels in listed {
        push_cuboid_line(text, dims, b"safe", levels)?;
    }
    Ok(())
}

fn push_safe(text: &mut Text, dims: &Dims, listed: &[Levels]) -> Result<(), NoMemory>
    requires { All (λ c. length c ≡ length dims.now.dimensions) listed.now }
    ensures { OnOk result (text.new ≡ text.old ++ safe_lines dims.now listed.now) }
{
    if listed.is_empty() {
        text.extend(b"none\n")
    } else {
        push_each(text, dims, listed)
    }
}

fn push_measure_line(text: &mut Text, dims: &Dims, measure: u32) -> Result<(), NoMemory>
    requires { measure < length dims.now.measures }
    ensures { OnOk result (text.new ≡ text.old ++ measure_line dims.now measure) }
{
    text.extend(b"measure ")?;
    push_name(text, dims.measure(measure).name())?;
    text.push(b'\n')
}

// The lines on a lattice measure whose history has this source.
pub(crate) fn push_lattice(
    alloc: Global,
    text: &mut Text,
    core: &Core,
    policy: &Policy,
    source: Option<&Levels>,
    measure: u32,
) -> Result<(), NoMemory>
    requires policy { IsPolicy core.now.dims policy.now }
    requires measure { measure < length core.now.dims.measures }
    requires source { InRange (plains core.now.dims) (option_copied source) }
    ensures { OnOk result (text.new ≡ text.old ++ lattice_lines core.now.dims (shown core.now policy.now) (option_copied source.entry) measure) }
{
    let listed = finest_behind(alloc, core, policy, source, measure)?;
    push_measure_line(text, core.dims(), measure)?;
    push_source(text, core.dims(), source)?;
    push_safe(text, core.dims(), listed.as_slice())
}

fn push_measure(
    alloc: Global,
    text: &mut Text,
    core: &Core,
    policy: &Policy,
    state: &State,
    measure: u32,
) -> Result<(), NoMemory>
    requires policy { IsPolicy core.now.dims policy.now }
    requires stands { IsStateOf (shown core.now policy.now) state.now }
    requires measure { measure < length core.now.dims.measures }
    ensures { OnOk result (text.new ≡ text.old ++ measure_lines core.now.dims (shown core.now policy.now) state.now.history measure) }
{
    match policy.method(measure) {
        Method::Plain | Method::Parity => Ok(()),
        Method::Lattice => push_lattice(alloc, text, core, policy, state.source(measure), measure),
    }
}

/// What can be released behind a history: for each lattice measure in order the line `measure NAME`, the line `source (C)` where its
/// history has a source, and `safe (C)` for each of the finest open cuboids, by number, or `none`.
pub fn advice(alloc: Global, core: &Core, policy: &Policy, state: &State) -> Result<Text, NoMemory>
    requires policy { IsPolicy core.now.dims policy.now }
    requires stands { IsStateOf (shown core.now policy.now) state.now }
    ensures { IfOk result (λ text. text ≡ advice_text core.now.dims (shown core.now policy.now) state.now.history) }
{
    let _rules = core.dims();
    let mut text = Text::new(alloc);
    'measures: for measure in 0..policy.methods.len() {
        push_measure(alloc, &mut text, core, policy, state, measure as u32)?;
    }
    Ok(text)
}
