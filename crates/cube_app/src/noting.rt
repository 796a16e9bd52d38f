// What is done beside a run with files that are read once more: notes for a person, on which nothing of a run rests, and the seal of what is carried over.
use cube_advise::lone_text;
use cube_core::Core;
use cube_dims::read_dims;
use cube_facts::read_facts;
use cube_io::{Folder, MAX_FILE};
use cube_journal::Digest;
use cube_model::{Dims, Text};
use cube_notes::{
    note_on_draft, note_on_facts, note_on_flat, note_on_limit, note_on_policy, note_on_query,
    note_on_table, note_on_unknown,
};
use cube_opening::{CubeFiles, Report, Rules};
use cube_policy::read_policy;
use cube_seal::digest_of_values;
use cube_words::{Drafting, Orders};
use std::alloc::Global;

// A fact file of no more bytes is read once more behind `check`.
const SHORT_FILE: usize = 4_194_304;

// Over no more cuboids it is looked behind `check` for what may be one person's.
const FEW_CUBOIDS: usize = 256;

/// The dimensions in a file, where they are accepted.
pub fn dims_in<F: Folder>(alloc: Global, name: &Text, files: &mut F) -> Option<Dims> {
    let bytes = files.read_file(alloc, name).ok()?;
    read_dims(alloc, bytes.as_slice()).ok()
}

// The core of a cube, where its files are accepted and the fact file is no longer than this.
fn core_in<F: Folder>(
    alloc: Global,
    cube: &CubeFiles,
    longest: usize,
    files: &mut F,
) -> Option<Core> {
    let dims = dims_in(alloc, &cube.dims, files)?;
    let bytes = files.read_file(alloc, &cube.facts).ok()?;
    if bytes.len() > longest {
        return None;
    }
    let (shape, cube) = read_facts(alloc, &dims, bytes.as_slice()).ok()?;
    Core::new(alloc, dims, shape, cube).ok()
}

/// The digest of the values of a cube, where its files are accepted.
pub fn values_in<F: Folder>(alloc: Global, cube: &CubeFiles, files: &mut F) -> Option<Digest> {
    let core = core_in(alloc, cube, MAX_FILE, files)?;
    Some(digest_of_values(&core))
}

fn table_note<F: Folder>(alloc: Global, name: &Text, files: &mut F) -> Option<Text> {
    let bytes = files.read_file(alloc, name).ok()?;
    note_on_table(alloc, name, bytes.as_slice()).ok()
}

// The files of a cube, with its policy file where all users have one.
#[derive(Clone, Copy)]
struct CubeNames<'a> {
    dims: &'a Text,
    facts: &'a Text,
    policy: Option<&'a Text>,
}

fn names_of(cube: &CubeFiles) -> CubeNames<'_> {
    CubeNames {
        dims: &cube.dims,
        facts: &cube.facts,
        policy: Some(&cube.policy),
    }
}

// The files of the cube that these orders are for.
fn names_in(orders: &Orders) -> Option<CubeNames<'_>> {
    match orders {
        Orders::Serve { files, .. } | Orders::Replay { files, .. } => Some(CubeNames {
            dims: &files.dims,
            facts: &files.facts,
            policy: match &files.rules {
                Rules::One(policy) => Some(policy),
                Rules::Groups(_) => None,
            },
        }),
        _ => Some(names_of(orders.cube()?)),
    }
}

fn facts_note<F: Folder>(alloc: Global, cube: CubeNames, files: &mut F) -> Option<Text> {
    let dims = dims_in(alloc, cube.dims, files)?;
    let bytes = files.read_file(alloc, cube.facts).ok()?;
    note_on_facts(alloc, cube.facts, &dims, bytes.as_slice()).ok()
}

fn flat_note<F: Folder>(alloc: Global, name: &Text, files: &mut F) -> Option<Text> {
    let bytes = files.read_file(alloc, name).ok()?;
    note_on_flat(alloc, name, bytes.as_slice()).ok()
}

fn policy_note<F: Folder>(alloc: Global, cube: &CubeFiles, files: &mut F) -> Option<Text> {
    let dims = dims_in(alloc, &cube.dims, files)?;
    let bytes = files.read_file(alloc, &cube.policy).ok()?;
    let policy = read_policy(alloc, &dims, bytes.as_slice()).ok()?;
    note_on_policy(alloc, &dims, &policy).ok()
}

// Where what can be released may be one person's. For `check` it is looked for where that takes no longer than the check itself: in a fact
// file that is not long, over few cuboids.
fn lone_note<F: Folder>(
    alloc: Global,
    cube: &CubeFiles,
    longest: usize,
    files: &mut F,
) -> Option<Text> {
    let core = core_in(alloc, cube, longest, files)?;
    if longest < MAX_FILE && cuboids_in(core.dims()) > FEW_CUBOIDS {
        return None;
    }
    let bytes = files.read_file(alloc, &cube.policy).ok()?;
    let policy = read_policy(alloc, core.dims(), bytes.as_slice()).ok()?;
    lone_text(alloc, &core, &policy).ok()
}

// How many cuboids the measures have together, up to more than a few.
fn cuboids_in(dims: &Dims) -> usize {
    let mut count = dims.measures().len();
    for dimension in dims.dimensions() {
        count = count.saturating_mul(dimension.levels().len().saturating_add(1));
    }
    count
}

// Behind `check`: what is not protected, and what may be one person's.
fn checked_note<F: Folder>(alloc: Global, cube: &CubeFiles, files: &mut F) -> Option<Text> {
    let mut note = policy_note(alloc, cube, files)?;
    if let Some(lone) = lone_note(alloc, cube, SHORT_FILE, files) {
        note.extend(lone.as_slice()).ok()?;
    }
    Some(note)
}

fn unknown_note<F: Folder>(alloc: Global, cube: CubeNames, files: &mut F) -> Option<Text> {
    let policy = cube.policy?;
    let dims = dims_in(alloc, cube.dims, files)?;
    let bytes = files.read_file(alloc, policy).ok()?;
    note_on_unknown(alloc, policy, &dims, bytes.as_slice()).ok()
}

// Of a query that the report refuses.
fn query_note<F: Folder>(
    alloc: Global,
    cube: &CubeFiles,
    query: &Text,
    files: &mut F,
) -> Option<Text> {
    let dims = dims_in(alloc, &cube.dims, files)?;
    note_on_query(alloc, &dims, query.as_slice()).ok()
}

// Of the query or the cell that these orders name, where the report refuses it.
fn asked_note<F: Folder>(
    alloc: Global,
    orders: &Orders,
    text: &[u8],
    files: &mut F,
) -> Option<Text> {
    if !text.starts_with(b"query: ") && !text.starts_with(b"cell: ") {
        return None;
    }
    match orders {
        Orders::Why {
            files: cube,
            query,
            ..
        } => query_note(alloc, cube, query, files),
        Orders::Witness {
            files: cube,
            cell,
            ..
        }
        | Orders::Twin {
            files: cube,
            cell,
            ..
        } => query_note(alloc, cube, cell, files),
        _ => None,
    }
}

// Of the columns of a fact file that files are drafted for.
fn draft_note<F: Folder>(alloc: Global, drafting: &Drafting, files: &mut F) -> Option<Text> {
    let bytes = files.read_file(alloc, &drafting.facts).ok()?;
    note_on_draft(alloc, &drafting.facts, bytes.as_slice(), &drafting.choices).ok()
}

// The same, behind the note on a limit where the report names one.
fn undrafted_note<F: Folder>(
    alloc: Global,
    drafting: &Drafting,
    text: &[u8],
    files: &mut F,
) -> Option<Text> {
    let columns = draft_note(alloc, drafting, files)?;
    let mut note = note_on_limit(alloc, text).ok()?;
    note.extend(columns.as_slice()).ok()?;
    Some(note)
}

// Of a limit that the report names.
fn limit_note(alloc: Global, text: &[u8]) -> Option<Text> {
    let note = note_on_limit(alloc, text).ok()?;
    if note.is_empty() { None } else { Some(note) }
}

// Of a file of a cube that the report refuses.
fn refused_note<F: Folder>(
    alloc: Global,
    cube: CubeNames,
    text: &[u8],
    files: &mut F,
) -> Option<Text> {
    if text.starts_with(b"dims: not toml") {
        table_note(alloc, cube.dims, files)
    } else if text.starts_with(b"policy: not toml") {
        table_note(alloc, cube.policy?, files)
    } else if text.starts_with(b"policy: unknown ") {
        unknown_note(alloc, cube, files)
    } else if text.starts_with(b"facts: ") {
        facts_note(alloc, cube, files)
    } else {
        None
    }
}

// Of the one of two cubes whose file it is.
fn either_note<F: Folder>(
    alloc: Global,
    cube: &CubeFiles,
    older: &CubeFiles,
    text: &[u8],
    files: &mut F,
) -> Option<Text> {
    match refused_note(alloc, names_of(cube), text, files) {
        Some(note) if !note.is_empty() => Some(note),
        _ => refused_note(alloc, names_of(older), text, files),
    }
}

// Of a file that the report refuses.
fn file_note<F: Folder>(
    alloc: Global,
    orders: &Orders,
    text: &[u8],
    files: &mut F,
) -> Option<Text> {
    match orders {
        Orders::Sum { facts } => flat_note(alloc, facts, files),
        Orders::Carry {
            files: cube,
            older,
            ..
        } => either_note(alloc, cube, older, text, files),
        _ => refused_note(alloc, names_in(orders)?, text, files),
    }
}

// Of what the report refuses: a limit, what the orders ask, or a file.
fn refusal_note<F: Folder>(
    alloc: Global,
    orders: &Orders,
    text: &[u8],
    files: &mut F,
) -> Option<Text> {
    if let Some(note) = limit_note(alloc, text) {
        return Some(note);
    }
    match asked_note(alloc, orders, text, files) {
        Some(note) => Some(note),
        None => file_note(alloc, orders, text, files),
    }
}

/// What a person may want to know beside the report of a run of these orders, where there is something.
pub fn note<F: Folder>(
    alloc: Global,
    orders: &Orders,
    report: &Report,
    files: &mut F,
) -> Option<Text> {
    let text = report.text.as_slice();
    match (orders, report.status) {
        (Orders::Check { files: cube }, 0) => checked_note(alloc, cube, files),
        (Orders::Advise { files: cube, .. }, 0) => lone_note(alloc, cube, MAX_FILE, files),
        (Orders::Draft { drafting }, 0) if !drafting.policy => draft_note(alloc, drafting, files),
        (Orders::Draft { drafting }, 3) => undrafted_note(alloc, drafting, text, files),
        (_, 3) => refusal_note(alloc, orders, text, files),
        _ => None,
    }
}
