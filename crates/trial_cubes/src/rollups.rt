// Cells of the pay cube, and answers from them.
ghost use Rattle.std.specs.Prelude.{◌≡◌, ◌<◌, ◌∷◌, [], true, length};
ghost use Rattle.cube_fixtures.specs.Worked.{two, pay_core};
ghost use Rattle.cube_model.specs.Cubes.{are_levels, is_finer};
ghost use Rattle.cube_model.specs.Dims.{plains};
ghost use Rattle.cube_model.specs.Requests.{asks, fits, grain, lesser_levels};
ghost use Rattle.cube_rollup.specs.Cuboids.{IsCuboidOf};

use crate::makers::make_pay;
use cube_core::{Core, Steps};
use cube_fixtures::{request, two};
use cube_model::{AnswerRow, NoMemory, Pick, Request, Text};
use cube_rollup::{Cuboid, Rollups};
use std::alloc::Global;
use std::marker::Brand;
use std::sync::ledger::{Blank, Ledger};
use std::test::Fail;

/// Key and sum of each row, a line each.
fn push_rows(text: &mut Text, rows: &[AnswerRow]) -> Result<(), NoMemory> {
    'rows: for row in rows {
        for member in row.key.as_slice() {
            text.push_number(u64::from(*member))?;
            text.push(b' ')?;
        }
        text.push_number(row.sum.unsigned_abs())?;
        text.push(b'\n')?;
    }
    Ok(())
}

/// The sums of the cells, a line.
fn push_cells<L: Ledger>(
    text: &mut Text,
    cuboid: &Cuboid,
    steps: &mut Steps<L>,
) -> Result<(), NoMemory> {
    'cells: for i in 0..cuboid.cells() {
        text.push_number(cuboid.cell(i, steps).unsigned_abs())?;
        text.push(b' ')?;
    }
    text.push(b'\n')
}

/// Key and sum of each cell, where the cells are the answer as they stand.
fn push_kept<L: Ledger>(
    text: &mut Text,
    cuboid: &Cuboid,
    request: &Request,
    steps: &mut Steps<L>,
) -> Result<(), NoMemory>
    requires { asks cuboid.now.measure request.now ≡ true }
{
    match cuboid.kept_answer(request, steps) {
        None => text.push(b'-'),
        Some(cells) => push_rows(text, cells.as_slice()),
    }
}

/// The cells of a cuboid, an answer from them, and the cells again where they are the answer as they stand.
fn text_of<L: Ledger>(
    alloc: Global,
    core: &Core,
    cuboid: &Cuboid,
    request: &Request,
    steps: &mut Steps<L>,
) -> Result<Text, NoMemory>
    requires measure { asks cuboid.now.measure request.now ≡ true }
    requires fits { fits (plains core.now.dims) request.now.group request.now.picks ≡ true }
    requires finer { is_finer cuboid.now.levels (grain request.now) ≡ true }
    requires stands { IsCuboidOf core.now cuboid.now }
{
    let answer = cuboid.answer(alloc, core.dims(), request, steps)?;
    let mut text = Text::new(alloc);
    push_cells(&mut text, cuboid, steps)?;
    push_rows(&mut text, answer.as_slice())?;
    push_kept(&mut text, cuboid, request, steps)?;
    Ok(text)
}

/// The cells of a cuboid of pay, and what is answered from them.
fn told_of<L: Ledger>(
    alloc: Global,
    levels: (u32, u32),
    group: (u32, u32),
    picks: (Option<Pick>, Option<Pick>),
    blank: Blank,
) -> Result<Text, NoMemory>
    requires levels { are_levels (plains pay_core.dims) (two levels.0 levels.1) ≡ true }
    requires fits { fits (plains pay_core.dims) (two group.0 group.1) (picks.0 ∷ picks.1 ∷ []) ≡ true }
    requires finer { is_finer (two levels.0 levels.1) (lesser_levels (two group.0 group.1) (picks.0 ∷ picks.1 ∷ [])) ≡ true }
    requires name { blank.name ≡ L.name }
    requires parts { blank.parts ≡ L.parts }
    requires some { 0 < L.parts }
{
    let mut steps = Steps::<L>::new(blank);
    let core = make_pay(alloc)?;
    let levels = two(alloc, levels.0, levels.1)?;
    let request = request(alloc, group, picks)?;
    let cuboid = Cuboid::build(alloc, &core, &levels, 0, &mut steps)?;
    text_of(alloc, &core, &cuboid, &request, &mut steps)
}

/// What is asked, and of which cuboid.
#[derive(Clone, Copy)]
enum Asked {
    /// Areas, of areas and months.
    Areas,
    /// February, of the same.
    February,
    /// Months, of the core cells.
    Months,
    /// All, of the cuboid of one cell.
    All,
}

const FEBRUARY: Option<Pick> = Some(Pick {
    level: 0,
    first: 1,
    last: 1,
});

fn answered<L: Ledger>(alloc: Global, asked: Asked, blank: Blank) -> Result<Text, NoMemory>
    requires name { blank.name ≡ L.name }
    requires parts { blank.parts ≡ L.parts }
    requires some { 0 < L.parts }
{
    match asked {
        Asked::Areas => told_of::<L>(alloc, (1, 0), (1, 2), (None, None), blank),
        Asked::February => told_of::<L>(alloc, (1, 0), (2, 2), (None, FEBRUARY), blank),
        Asked::Months => told_of::<L>(alloc, (0, 0), (2, 0), (None, None), blank),
        Asked::All => told_of::<L>(alloc, (2, 2), (2, 2), (None, None), blank),
    }
}

const CASES: [(Asked, &[u8]); 4] = [
    (Asked::Areas, b"40 20 40 50 \n0 0 60\n1 0 90\n-"),
    (Asked::February, b"40 20 40 50 \n0 0 70\n-"),
    (Asked::Months, b"10 20 30 40 50 \n0 0 80\n0 1 70\n-"),
    (Asked::All, b"150 \n0 0 150\n0 0 150\n"),
];

#[test]
fn rows_are_unions_of_cells(rt: HostRuntime) -> Result<(), Fail> {
    for (asked, wanted) in &CASES {
        let text = answered::<Brand>(rt.alloc(), *asked, Blank::new(1))?;
        assert_eq!(rt; text.as_slice(), *wanted);
    }
    Ok(())
}

/// How many cells the cuboid of a measure has.
fn push_count(text: &mut Text, rollups: &Rollups, measure: u32) -> Result<(), NoMemory>
    requires { measure < length rollups.now.kept }
{
    match rollups.at(measure) {
        None => text.push(b'-')?,
        Some(cuboid) => text.push_number(u64::from(cuboid.cells()))?,
    }
    text.push(b' ')
}

/// A cuboid of pay in a list of one measure: held, let go, held again, and put in its place, as counts of its cells.
fn counts_in_turn(alloc: Global, first: Cuboid, second: Cuboid) -> Result<Text, NoMemory>
    requires first { first.measure ≡ 0 }
    requires second { second.measure ≡ 0 }
{
    let mut text = Text::new(alloc);
    let mut rollups = Rollups::new(alloc);
    rollups.push(None)?;
    rollups.hold(first);
    push_count(&mut text, &rollups, 0)?;
    rollups.drop_next();
    push_count(&mut text, &rollups, 0)?;
    rollups.hold(second);
    rollups.commit();
    push_count(&mut text, &rollups, 0)?;
    Ok(text)
}

/// The cuboids of pay by quarter, then by month.
fn told_in_turn<L: Ledger>(alloc: Global, blank: Blank) -> Result<Text, NoMemory>
    requires name { blank.name ≡ L.name }
    requires parts { blank.parts ≡ L.parts }
    requires some { 0 < L.parts }
{
    let mut steps = Steps::<L>::new(blank);
    let core = make_pay(alloc)?;
    let quarters = two(alloc, 2, 1)?;
    let months = two(alloc, 2, 0)?;
    let first = Cuboid::build(alloc, &core, &quarters, 0, &mut steps)?;
    let second = Cuboid::build(alloc, &core, &months, 0, &mut steps)?;
    counts_in_turn(alloc, first, second)
}

#[test]
fn a_cuboid_takes_its_place_once_it_enters(rt: HostRuntime) -> Result<(), Fail> {
    let text = told_in_turn::<Brand>(rt.alloc(), Blank::new(1))?;
    assert_eq!(rt; text.as_slice(), b"1 - 2 ".as_slice());
    Ok(())
}
