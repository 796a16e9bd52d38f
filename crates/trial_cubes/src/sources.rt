// What is protected of the pay cube, and what cuts it.
ghost use Rattle.std.specs.Prelude.{◌≡◌, ◌<◌, ◌≤◌, true, length, IfOk};
ghost use Rattle.cube_fixtures.specs.Policies.{IsArea, CanHold};
ghost use Rattle.cube_fixtures.specs.Worked.{pay_core};
ghost use Rattle.cube_model.specs.Cubes.{are_levels};
ghost use Rattle.cube_model.specs.Dims.{plains};
ghost use Rattle.cube_model.specs.Policies.{IsPolicy};

use crate::makers::{make_pay, push_numbers};
use cube_core::Core;
use cube_fixtures::{Guard, finest_cell, policy, two};
use cube_model::{Cell, Levels, Method, NoMemory, Policy, Text};
use cube_source::{JudgeTable, Judged, count_protected, cutting_pair, judge, protected, protects};
use std::alloc::Global;
use std::test::Fail;

/// What is protected of pay.
#[derive(Clone, Copy)]
enum Kept {
    /// Each city in each month, under the source rule.
    Cities,
    /// Each area in each month, and what is below.
    Areas,
    /// The cities of the North.
    North,
    /// The cities of the South, and all areas.
    SouthAndAreas,
    /// The cities of the South, under the parity rule.
    GuardedSouth,
    /// Each place, under the parity rule.
    GuardedAll,
    /// Nothing.
    Nothing,
}

/// An object of pay at a level of regions, in one area or everywhere.
fn guard(level: u32, area: Option<u32>) -> Guard
    ensures { result ≡ record { measure = 0; level = level; area = area } }
{
    Guard {
        measure: 0,
        level,
        area,
    }
}

/// A policy with one object of pay.
fn policy_of_one(
    alloc: Global,
    method: Method,
    level: u32,
    area: Option<u32>,
) -> Result<Policy, NoMemory>
    requires area { IsArea area }
    requires method { CanHold method level }
    ensures { IfOk result (IsPolicy pay_core.dims) }
{
    policy(alloc, method, Method::Plain, &[guard(level, area)])
}

/// A policy with two objects of pay: the South by cities, and all areas.
fn policy_of_two(alloc: Global) -> Result<Policy, NoMemory>
    ensures { IfOk result (IsPolicy pay_core.dims) }
{
    let guards = [guard(0, Some(0)), guard(1, None)];
    policy(alloc, Method::Lattice, Method::Plain, &guards)
}

fn policy_of(alloc: Global, kept: Kept) -> Result<Policy, NoMemory>
    ensures { IfOk result (IsPolicy pay_core.dims) }
{
    match kept {
        Kept::Cities => policy_of_one(alloc, Method::Lattice, 0, None),
        Kept::Areas => policy_of_one(alloc, Method::Lattice, 1, None),
        Kept::North => policy_of_one(alloc, Method::Lattice, 0, Some(1)),
        Kept::SouthAndAreas => policy_of_two(alloc),
        Kept::GuardedSouth => policy_of_one(alloc, Method::Parity, 0, Some(0)),
        Kept::GuardedAll => policy(alloc, Method::Parity, Method::Plain, &[]),
        Kept::Nothing => policy(alloc, Method::Plain, Method::Plain, &[]),
    }
}

fn push_cell(text: &mut Text, cell: &Cell) -> Result<(), NoMemory> {
    push_numbers(text, cell.levels.as_slice())?;
    text.extend(b" :")?;
    push_numbers(text, cell.key.as_slice())?;
    text.push(b'\n')
}

fn push_verdict(text: &mut Text, judged: &Judged) -> Result<(), NoMemory> {
    match judged {
        Judged::Safe => text.extend(b"safe\n"),
        Judged::Uncut { cell } => {
            text.extend(b"uncut")?;
            push_cell(text, cell)
        }
    }
}

/// How many cells are protected, and the first so many of them.
fn listed(alloc: Global, policy: &Policy, most: u64) -> Result<Text, NoMemory>
    requires { IsPolicy pay_core.dims policy.now }
{
    let mut text = Text::new(alloc);
    let core = make_pay(alloc)?;
    text.push_number(count_protected(alloc, &core, policy, 0)?)?;
    text.push(b'\n')?;
    let cells = protected(alloc, &core, policy, 0, most)?;
    for cell in cells.as_slice() {
        push_cell(&mut text, cell)?;
    }
    Ok(text)
}

/// What is protected, how many of its cells are listed at most, and how many there are and which are listed.
const LISTED: [(Kept, u64, &[u8]); 7] = [
    (Kept::Cities, 3, b"5\n 0 0 : 0 0\n 0 0 : 0 1\n 0 0 : 1 0\n"),
    (
        Kept::Areas,
        6,
        b"9\n 0 0 : 0 0\n 0 0 : 0 1\n 0 0 : 1 0\n 0 0 : 2 0\n 0 0 : 2 1\n 1 0 : 0 0\n",
    ),
    (Kept::North, 9, b"2\n 0 0 : 2 0\n 0 0 : 2 1\n"),
    (
        Kept::SouthAndAreas,
        9,
        b"9\n 0 0 : 0 0\n 0 0 : 0 1\n 0 0 : 1 0\n 0 0 : 2 0\n 0 0 : 2 1\n 1 0 : 0 0\n 1 0 : 0 1\n 1 0 : 1 0\n 1 0 : 1 1\n",
    ),
    (
        Kept::GuardedSouth,
        9,
        b"3\n 0 0 : 0 0\n 0 0 : 0 1\n 0 0 : 1 0\n",
    ),
    (
        Kept::GuardedAll,
        9,
        b"5\n 0 0 : 0 0\n 0 0 : 0 1\n 0 0 : 1 0\n 0 0 : 2 0\n 0 0 : 2 1\n",
    ),
    (Kept::Nothing, 9, b"0\n"),
];

#[test]
fn an_object_protects_the_cells_below_it_once(rt: HostRuntime) -> Result<(), Fail> {
    let alloc = rt.alloc();
    for (kept, most, wanted) in &LISTED {
        let text = listed(alloc, &policy_of(alloc, *kept)?, *most)?;
        assert_eq!(rt; text.as_slice(), *wanted);
    }
    Ok(())
}

/// The verdict on the cuboid of two levels.
fn push_judged(
    alloc: Global,
    text: &mut Text,
    policy: &Policy,
    levels: (u32, u32),
) -> Result<(), NoMemory>
    requires policy { IsPolicy pay_core.dims policy.now }
    requires first { levels.0 ≤ 2 }
    requires second { levels.1 ≤ 2 }
{
    let core = make_pay(alloc)?;
    let levels = two(alloc, levels.0, levels.1)?;
    push_verdict(text, &judge(alloc, &core, policy, 0, &levels)?)
}

/// What a new table answers of a cuboid, first and again.
fn push_twice(
    alloc: Global,
    text: &mut Text,
    core: &Core,
    policy: &Policy,
    levels: &Levels,
) -> Result<(), NoMemory>
    requires policy { IsPolicy core.now.dims policy.now }
    requires measure { 0 < length core.now.dims.measures }
    requires levels { are_levels (plains core.now.dims) levels.now ≡ true }
{
    let mut table = JudgeTable::new(alloc, core.dims(), policy)?;
    push_verdict(text, &table.judge(alloc, core, policy, 0, levels)?)?;
    push_verdict(text, &table.judge(alloc, core, policy, 0, levels)?)
}

/// What a new table answers of the cuboid of two levels, first and again.
fn push_tabled(
    alloc: Global,
    text: &mut Text,
    policy: &Policy,
    levels: (u32, u32),
) -> Result<(), NoMemory>
    requires policy { IsPolicy pay_core.dims policy.now }
    requires first { levels.0 ≤ 2 }
    requires second { levels.1 ≤ 2 }
{
    let core = make_pay(alloc)?;
    let levels = two(alloc, levels.0, levels.1)?;
    push_twice(alloc, text, &core, policy, &levels)
}

/// The verdicts on city, on month, and on area and month.
fn judged(alloc: Global, policy: &Policy) -> Result<Text, NoMemory>
    requires { IsPolicy pay_core.dims policy.now }
{
    let mut text = Text::new(alloc);
    push_judged(alloc, &mut text, policy, (0, 2))?;
    push_judged(alloc, &mut text, policy, (2, 0))?;
    push_judged(alloc, &mut text, policy, (1, 0))?;
    Ok(text)
}

/// What a table answers of city and of month, each first and again.
fn tabled(alloc: Global, policy: &Policy) -> Result<Text, NoMemory>
    requires { IsPolicy pay_core.dims policy.now }
{
    let mut text = Text::new(alloc);
    push_tabled(alloc, &mut text, policy, (0, 2))?;
    push_tabled(alloc, &mut text, policy, (2, 0))?;
    Ok(text)
}

const SOUTH_UNCUT: &[u8] = b"uncut 0 0 : 1 0\nsafe\nuncut 0 0 : 0 1\n";

/// What is protected, and the verdicts.
const JUDGED: [(Kept, &[u8]); 7] = [
    (Kept::Cities, SOUTH_UNCUT),
    (Kept::Areas, SOUTH_UNCUT),
    (Kept::North, b"safe\nsafe\nuncut 0 0 : 2 0\n"),
    (Kept::SouthAndAreas, SOUTH_UNCUT),
    (Kept::GuardedSouth, SOUTH_UNCUT),
    (Kept::GuardedAll, SOUTH_UNCUT),
    (Kept::Nothing, b"safe\nsafe\nsafe\n"),
];

#[test]
fn a_cuboid_is_judged_by_the_cells_that_it_cuts(rt: HostRuntime) -> Result<(), Fail> {
    let alloc = rt.alloc();
    for (kept, wanted) in &JUDGED {
        let text = judged(alloc, &policy_of(alloc, *kept)?)?;
        assert_eq!(rt; text.as_slice(), *wanted);
    }
    Ok(())
}

#[test]
fn a_table_answers_again(rt: HostRuntime) -> Result<(), Fail> {
    let alloc = rt.alloc();
    let text = tabled(alloc, &policy_of(alloc, Kept::Areas)?)?;
    assert_eq!(rt;
        text.as_slice(),
        b"uncut 0 0 : 1 0\nuncut 0 0 : 1 0\nsafe\nsafe\n".as_slice()
    );
    Ok(())
}

/// Nice in January, a key of no place, Paris in January, and a city that is not there.
const SOME_KEYS: [[u32; 2]; 4] = [[1, 0], [1, 1], [2, 0], [7, 0]];

/// For some core cells a 1 where the cell is protected.
fn protected_told(alloc: Global, policy: &Policy) -> Result<Text, NoMemory>
    requires { IsPolicy pay_core.dims policy.now }
{
    let mut text = Text::new(alloc);
    let core = make_pay(alloc)?;
    for key in &SOME_KEYS {
        let cell = finest_cell(alloc, key[0], key[1])?;
        let is_protected = protects(&core, policy, 0, &cell);
        text.push(if is_protected { b'1' } else { b'0' })?;
    }
    Ok(text)
}

const PROTECTED: [(Kept, &[u8]); 2] = [(Kept::North, b"0010"), (Kept::GuardedSouth, b"1000")];

#[test]
fn cells_are_protected(rt: HostRuntime) -> Result<(), Fail> {
    let alloc = rt.alloc();
    for (kept, wanted) in &PROTECTED {
        let text = protected_told(alloc, &policy_of(alloc, *kept)?)?;
        assert_eq!(rt; text.as_slice(), *wanted);
    }
    Ok(())
}

/// The first pair by which the cuboid of two levels cuts a core cell.
fn pair_of(
    alloc: Global,
    cell: (u32, u32),
    levels: (u32, u32),
) -> Result<Option<(u32, u32)>, NoMemory>
    requires first { levels.0 ≤ 2 }
    requires second { levels.1 ≤ 2 }
{
    let core = make_pay(alloc)?;
    let levels = two(alloc, levels.0, levels.1)?;
    let cell = finest_cell(alloc, cell.0, cell.1)?;
    cutting_pair(alloc, &core, &levels, &cell)
}

/// A core cell, a cuboid, and the first pair by which the cuboid cuts the cell.
const PAIRS: [((u32, u32), (u32, u32), Option<(u32, u32)>); 4] = [
    ((0, 1), (2, 0), Some((1, 4))),
    ((0, 0), (2, 2), Some((0, 1))),
    ((0, 1), (1, 0), None),
    ((1, 1), (2, 2), None),
];

#[test]
fn cells_are_cut(rt: HostRuntime) -> Result<(), Fail> {
    for (cell, levels, wanted) in &PAIRS {
        assert!(rt; levels.0 <= 2);
        assert!(rt; levels.1 <= 2);
        assert_eq!(rt; pair_of(rt.alloc(), *cell, *levels)?, *wanted);
    }
    Ok(())
}
