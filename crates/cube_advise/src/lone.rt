// The cells of cuboids that may be one person's.
ghost use Rattle.std.specs.Prelude.{◌≡◌, ◌<◌, ◌≤◌, ◌++◌, ◌==◌, true, None, length, filter, flat_map, slice_index_or, IfOk, OnOk};
ghost use Rattle.std.specs.List.{All, list_all};
ghost use Rattle.cube_model.specs.declared.policy.Policy.{Policy};
ghost use Rattle.cube_model.specs.Cores.{shown};
ghost use Rattle.cube_model.specs.Cubes.{are_levels};
ghost use Rattle.cube_model.specs.Dims.{plains};
ghost use Rattle.cube_model.specs.Policies.{IsPolicy};
ghost use Rattle.cube_model.specs.Safe.{finest};
ghost use Rattle.cube_source.specs.Blocks.{AreBlocks};
ghost use Rattle.cube_advise.specs.Lone.{cells_text, lone_count, lone_line, lone_lines, lone_words};

use crate::finest_behind;
use cube_answers::push_cuboid;
use cube_core::Core;
use cube_model::{Dims, Levels, Method, NoMemory, Policy, Request, Row, Text, What};
use cube_text::push_name;
use std::alloc::Global;

// Whether each of some places has one fact alone.
fn are_single(facts: &[u64], places: &[u32]) -> bool
    requires { All (λ place. place < length facts.now) places.now }
    ensures { result ≡ list_all (λ place. slice_index_or facts.now place 0 == 1) places.now }
{
    places.iter().all(|place| facts[*place as usize] == 1)
}

// How many rows have places of which each has one fact alone.
fn count_single(facts: &[u64], rows: &[Row]) -> usize
    requires rows { AreBlocks (length facts.now) rows.now }
    ensures count { result ≡ length (filter (λ row. list_all (λ place. slice_index_or facts.now place 0 == 1) row.places) rows.now) }
{
    let mut total = 0;
    'rows: for row in rows {
        if are_single(facts, row.places.as_slice()) {
            total += 1;
        }
    }
    total
}

// How many cells of a cuboid may be one person's. The places are grouped by their keys once.
fn count_lone(alloc: Global, core: &Core, levels: &Levels) -> Result<u64, NoMemory>
    requires { are_levels (plains core.now.dims) levels.now ≡ true }
    ensures { IfOk result (λ count. (policy : Policy) → count ≡ lone_count (shown core.now policy) levels.now) }
{
    let request = Request::whole(alloc, What::Count, levels)?;
    let rows = core.rows(alloc, &request)?;
    let facts = core.shape().facts.as_slice();
    Ok(count_single(facts, rows.as_slice()) as u64)
}

fn push_cells(text: &mut Text, count: u64) -> Result<(), NoMemory>
    ensures { OnOk result (text.new ≡ text.old ++ cells_text count) }
{
    text.push_number(count)?;
    if count == 1 {
        text.extend(b" cell of ")
    } else {
        text.extend(b" cells of ")
    }
}

// The line on a cuboid that has so many such cells.
fn push_line(
    text: &mut Text,
    dims: &Dims,
    measure: u32,
    levels: &Levels,
    count: u64,
) -> Result<(), NoMemory>
    requires measure { measure < length dims.now.measures }
    requires levels { length levels.now ≡ length dims.now.dimensions }
    ensures { OnOk result (text.new ≡ text.old ++ lone_line dims.now measure levels.now count) }
{
    if count == 0 {
        return Ok(());
    }
    push_name(text, dims.measure(measure).name())?;
    text.extend(b": ")?;
    push_cells(text, count)?;
    push_cuboid(text, dims, levels.as_slice())?;
    text.extend(b" may be one person's\n")
}

// The line on a cuboid, by how many such cells it has.
fn push_lone(
    alloc: Global,
    text: &mut Text,
    core: &Core,
    _policy: &Policy,
    measure: u32,
    levels: &Levels,
) -> Result<(), NoMemory>
    requires measure { measure < length core.now.dims.measures }
    requires levels { are_levels (plains core.now.dims) levels.now ≡ true }
    ensures { OnOk result (text.new ≡ text.old ++ lone_line core.now.dims measure levels.now (lone_count (shown core.now _policy.now) levels.now)) }
{
    let count = count_lone(alloc, core, levels)?;
    push_line(text, core.dims(), measure, levels, count)
}

// The lines on some cuboids.
fn push_each(
    alloc: Global,
    text: &mut Text,
    core: &Core,
    policy: &Policy,
    measure: u32,
    listed: &[Levels],
) -> Result<(), NoMemory>
    requires measure { measure < length core.now.dims.measures }
    requires levels { All (λ c. are_levels (plains core.now.dims) c ≡ true) listed.now }
    ensures { OnOk result (text.new ≡ text.old ++ flat_map (λ c. lone_line core.now.dims measure c (lone_count (shown core.now policy.now) c)) listed.now) }
{
    for levels in listed {
        push_lone(alloc, text, core, policy, measure, levels)?;
    }
    Ok(())
}

// The lines on a lattice measure.
fn push_lattice(
    alloc: Global,
    text: &mut Text,
    core: &Core,
    policy: &Policy,
    measure: u32,
) -> Result<(), NoMemory>
    requires policy { IsPolicy core.now.dims policy.now }
    requires measure { measure < length core.now.dims.measures }
    ensures { OnOk result (text.new ≡ text.old ++ flat_map (λ c. lone_line core.now.dims measure c (lone_count (shown core.now policy.now) c)) (finest (shown core.now policy.now) measure)) }
{
    let listed = finest_behind(alloc, core, policy, None, measure)?;
    push_each(alloc, text, core, policy, measure, listed.as_slice())
}

fn push_measure(
    alloc: Global,
    text: &mut Text,
    core: &Core,
    policy: &Policy,
    measure: u32,
) -> Result<(), NoMemory>
    requires policy { IsPolicy core.now.dims policy.now }
    requires measure { measure < length core.now.dims.measures }
    ensures { OnOk result (text.new ≡ text.old ++ lone_lines core.now.dims (shown core.now policy.now) measure) }
{
    match policy.method(measure) {
        Method::Plain | Method::Parity => Ok(()),
        Method::Lattice => push_lattice(alloc, text, core, policy, measure),
    }
}

/// Where what can be released before anything is asked may be one person's: for each lattice measure in order a line for each of its
/// finest safe cuboids that has nonempty cells with one fact alone at each point, with how many these are. The places are grouped
/// once for each of these cuboids.
pub fn lone_text(alloc: Global, core: &Core, policy: &Policy) -> Result<Text, NoMemory>
    requires { IsPolicy core.now.dims policy.now }
    ensures { IfOk result (λ text. text ≡ lone_words core.now policy.now) }
{
    let _rules = core.dims();
    let mut text = Text::new(alloc);
    'measures: for measure in 0..policy.methods.len() {
        push_measure(alloc, &mut text, core, policy, measure as u32)?;
    }
    Ok(text)
}
