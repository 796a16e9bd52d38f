// The made queries.
ghost use Rattle.std.specs.Prelude.{◌≡◌, ◌+◌, ◌*◌, ◌<◌, ◌≤◌, ◌++◌, ℕ, zero, suc, IfOk, OnOk};
ghost use Rattle.cube_gen.specs.Draws.{seed, drawn};
ghost use Rattle.cube_gen.specs.Made as said;
ghost use Rattle.cube_gen.specs.Made.{spread, range_text, cell_text, draws_of, queries_from};

use crate::draws::Draws;
use crate::facts::push_numbered;
use cube_model::{NoMemory, Text, Texts};
use std::alloc::Global;

/// Puts the first and the last member of a range at the end, each behind a word.
fn push_spread(text: &mut Text, first: &[u8], last: &[u8], pair: (u64, u64)) -> Result<(), NoMemory>
    ensures { OnOk result (text.new ≡ text.old ++ spread first.now last.now pair.0 pair.1) }
{
    push_numbered(text, first, pair.0.min(pair.1))?;
    push_numbered(text, last, pair.0.max(pair.1))
}

/// Pay by month in a drawn region.
fn make_month_slice(alloc: Global, draws: &mut Draws, size: u32) -> Result<Text, NoMemory>
    requires some { 1 ≤ size }
    requires few { size ≤ 20 }
    ensures text { IfOk result (λ text. text ≡ said.made_query draws.old size 0) }
    ensures draws { IfOk result (λ text. draws.new ≡ seed draws.old 1) }
{
    let mut text = Text::new(alloc);
    let region = draws.below(5 * u64::from(size));
    push_numbered(
        &mut text,
        b"slice pay by month.month where branch.region=r",
        region,
    )?;
    Ok(text)
}

/// Hours in a range of branches, months and grades, the months counted from 0.
fn range_of(
    alloc: Global,
    branches: (u64, u64),
    months: (u64, u64),
    grades: (u64, u64),
) -> Result<Text, NoMemory>
    requires first { months.0 < 12 }
    requires second { months.1 < 12 }
    ensures { IfOk result (λ text. text ≡ range_text branches.0 branches.1 months.0 months.1 grades.0 grades.1) }
{
    let mut text = Text::new(alloc);
    push_spread(&mut text, b"range hours branch.branch=b", b"..b", branches)?;
    let counted = (months.0 + 1, months.1 + 1);
    push_spread(&mut text, b", month.month=m", b"..m", counted)?;
    push_spread(&mut text, b", grade.grade=g", b"..g", grades)?;
    Ok(text)
}

/// Hours in a drawn range of branches, months and grades.
fn make_range(alloc: Global, draws: &mut Draws, size: u32) -> Result<Text, NoMemory>
    requires some { 1 ≤ size }
    requires few { size ≤ 20 }
    ensures text { IfOk result (λ text. text ≡ said.made_query draws.old size 2) }
    ensures draws { IfOk result (λ text. draws.new ≡ seed draws.old 6) }
{
    let branches = 40 * u64::from(size);
    let a = draws.below(branches);
    let b = draws.below(branches);
    let c = draws.below(12);
    let d = draws.below(12);
    let e = draws.below(6);
    let f = draws.below(6);
    range_of(alloc, (a, b), (c, d), (e, f))
}

/// Hours of a region, a month and a grade, the month counted from 0.
fn cell_of(alloc: Global, region: u64, month: u64, grade: u64) -> Result<Text, NoMemory>
    requires { month < 12 }
    ensures { IfOk result (λ text. text ≡ cell_text region month grade) }
{
    let mut text = Text::new(alloc);
    push_numbered(&mut text, b"cell hours branch.region=r", region)?;
    push_numbered(&mut text, b", month.month=m", month + 1)?;
    push_numbered(&mut text, b", grade.grade=g", grade)?;
    Ok(text)
}

/// Hours of a drawn region, month and grade.
fn make_cell(alloc: Global, draws: &mut Draws, size: u32) -> Result<Text, NoMemory>
    requires some { 1 ≤ size }
    requires few { size ≤ 20 }
    ensures text { IfOk result (λ text. text ≡ said.made_query draws.old size 3) }
    ensures draws { IfOk result (λ text. draws.new ≡ seed draws.old 3) }
{
    let region = draws.below(5 * u64::from(size));
    let month = draws.below(12);
    let grade = draws.below(6);
    cell_of(alloc, region, month, grade)
}

/// How many facts a drawn grade has.
fn make_count(alloc: Global, draws: &mut Draws, size: u32) -> Result<Text, NoMemory>
    ensures text { IfOk result (λ text. text ≡ said.made_query draws.old size 4) }
    ensures draws { IfOk result (λ text. draws.new ≡ seed draws.old 1) }
{
    let mut text = Text::new(alloc);
    push_numbered(&mut text, b"cell count grade.grade=g", draws.below(6))?;
    Ok(text)
}

/// A query of a kind.
fn make_query(alloc: Global, draws: &mut Draws, size: u32, kind: u64) -> Result<Text, NoMemory>
    requires some { 1 ≤ size }
    requires few { size ≤ 20 }
    requires kind { kind < 5 }
    ensures text { IfOk result (λ text. text ≡ said.made_query draws.old size kind) }
    ensures draws { IfOk result (λ text. draws.new ≡ seed draws.old (draws_of kind)) }
{
    match kind {
        0 => make_month_slice(alloc, draws, size),
        1 => Text::from_bytes(alloc, b"slice pay by branch.region, month.quarter"),
        2 => make_range(alloc, draws, size),
        3 => make_cell(alloc, draws, size),
        _ => make_count(alloc, draws, size),
    }
}

/// The queries: 200 for each unit of size, each of a drawn kind.
pub(crate) fn make_queries(alloc: Global, draws: &mut Draws, size: u32) -> Result<Texts, NoMemory>
    requires some { 1 ≤ size }
    requires few { size ≤ 20 }
    ensures { IfOk result (λ queries. queries ≡ queries_from draws.old size (200 * size)) }
{
    let mut queries = Texts::new(alloc);
    'queries: for _query in 0..200 * size {
        let kind = draws.below(5);
        queries.push(make_query(alloc, draws, size, kind)?)?;
    }
    Ok(queries)
}
