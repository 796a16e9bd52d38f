// Rows of small cubes: their places, and what is summed over these.
ghost use Rattle.std.specs.Prelude.{◌≡◌, ◌<◌, ◌∷◌, [], true, length};
ghost use Rattle.std.specs.List.{All};
ghost use Rattle.cube_core.specs.Rows.{ArePlaces};
ghost use Rattle.cube_fixtures.specs.Worked.{two, pay_core, day_core};
ghost use Rattle.cube_model.specs.Dims.{plains};
ghost use Rattle.cube_model.specs.Requests.{fits};

use crate::makers::{make_days, make_full, make_pay, push_numbers};
use cube_core::{Core, Steps};
use cube_fixtures::request;
use cube_model::{NoMemory, Pick, Row, Text};
use std::alloc::Global;
use std::marker::Brand;
use std::sync::ledger::{Blank, Ledger};
use std::test::Fail;

/// Key, places, sum and count of each row, a line each.
fn told<L: Ledger>(
    alloc: Global,
    core: &Core,
    rows: &[Row],
    steps: &mut Steps<L>,
) -> Result<Text, NoMemory>
    requires measure { 0 < length core.now.dims.measures }
    requires rows { All (λ row. ArePlaces (length core.now.shape.points) row.places) rows.now }
{
    let mut text = Text::new(alloc);
    'rows: for row in rows {
        text.extend(b"key")?;
        push_numbers(&mut text, row.key.as_slice())?;
        text.extend(b" places")?;
        push_numbers(&mut text, row.places.as_slice())?;
        text.extend(b" sum ")?;
        text.push_number(core.sum_row(row, 0, steps).unsigned_abs())?;
        text.extend(b" count ")?;
        text.push_number(core.count_row(row))?;
        text.push(b'\n')?;
    }
    Ok(text)
}

/// What is told of the rows of a core.
fn told_of<L: Ledger>(
    alloc: Global,
    core: &Core,
    group: (u32, u32),
    picks: (Option<Pick>, Option<Pick>),
    blank: Blank,
) -> Result<Text, NoMemory>
    requires measure { 0 < length core.now.dims.measures }
    requires fits { fits (plains core.now.dims) (two group.0 group.1) (picks.0 ∷ picks.1 ∷ []) ≡ true }
    requires name { blank.name ≡ L.name }
    requires parts { blank.parts ≡ L.parts }
    requires some { 0 < L.parts }
{
    let request = request(alloc, group, picks)?;
    let rows = core.rows(alloc, &request)?;
    let mut steps = Steps::<L>::new(blank);
    told(alloc, core, rows.as_slice(), &mut steps)
}

/// What is told of the rows of the pay cube.
fn told_of_pay<L: Ledger>(
    alloc: Global,
    group: (u32, u32),
    picks: (Option<Pick>, Option<Pick>),
    blank: Blank,
) -> Result<Text, NoMemory>
    requires fits { fits (plains pay_core.dims) (two group.0 group.1) (picks.0 ∷ picks.1 ∷ []) ≡ true }
    requires name { blank.name ≡ L.name }
    requires parts { blank.parts ≡ L.parts }
    requires some { 0 < L.parts }
{
    told_of::<L>(alloc, &make_pay(alloc)?, group, picks, blank)
}

/// What is told of the rows of the cube of days.
fn told_of_days<L: Ledger>(
    alloc: Global,
    group: (u32, u32),
    picks: (Option<Pick>, Option<Pick>),
    blank: Blank,
) -> Result<Text, NoMemory>
    requires fits { fits (plains day_core.dims) (two group.0 group.1) (picks.0 ∷ picks.1 ∷ []) ≡ true }
    requires name { blank.name ≡ L.name }
    requires parts { blank.parts ≡ L.parts }
    requires some { 0 < L.parts }
{
    told_of::<L>(alloc, &make_days(alloc)?, group, picks, blank)
}

/// What is asked of the pay cube.
#[derive(Clone, Copy)]
enum OfPay {
    Areas,
    AreasInFebruary,
    NiceInFebruary,
    All,
}

/// The second city or month.
const SECOND: Option<Pick> = Some(Pick {
    level: 0,
    first: 1,
    last: 1,
});

fn answered_of_pay<L: Ledger>(alloc: Global, asked: OfPay, blank: Blank) -> Result<Text, NoMemory>
    requires name { blank.name ≡ L.name }
    requires parts { blank.parts ≡ L.parts }
    requires some { 0 < L.parts }
{
    match asked {
        OfPay::Areas => told_of_pay::<L>(alloc, (1, 2), (None, None), blank),
        OfPay::AreasInFebruary => told_of_pay::<L>(alloc, (1, 2), (None, SECOND), blank),
        OfPay::NiceInFebruary => told_of_pay::<L>(alloc, (2, 2), (SECOND, SECOND), blank),
        OfPay::All => told_of_pay::<L>(alloc, (2, 2), (None, None), blank),
    }
}

const PAY_CASES: [(OfPay, &[u8]); 4] = [
    (
        OfPay::Areas,
        b"key 0 0 places 0 1 2 sum 60 count 3\nkey 1 0 places 3 4 sum 90 count 3\n",
    ),
    (
        OfPay::AreasInFebruary,
        b"key 0 0 places 1 sum 20 count 1\nkey 1 0 places 4 sum 50 count 2\n",
    ),
    (OfPay::NiceInFebruary, b""),
    (OfPay::All, b"key 0 0 places 0 1 2 3 4 sum 150 count 6\n"),
];

#[test]
fn rows_are_groups_of_picked_places(rt: HostRuntime) -> Result<(), Fail> {
    for (asked, wanted) in &PAY_CASES {
        let text = answered_of_pay::<Brand>(rt.alloc(), *asked, Blank::new(1))?;
        assert_eq!(rt; text.as_slice(), *wanted);
    }
    Ok(())
}

/// What is asked of the cube of days.
#[derive(Clone, Copy)]
enum OfDays {
    /// Tuesday and Wednesday, found by their days.
    TuesdayAndWednesday,
    /// The part of the week that both are, found by the part.
    MiddleByCity,
    /// Of both days Nice and Paris.
    NiceAndParis,
    /// Lyon, which has too many places to be found by them.
    Lyon,
    /// All: where nothing is picked, each place is looked at.
    Parts,
}

/// Tuesday and Wednesday, or Nice and Paris.
const BOTH: Option<Pick> = Some(Pick {
    level: 0,
    first: 1,
    last: 2,
});

/// The part of the week in the midst.
const MIDDLE: Option<Pick> = Some(Pick {
    level: 1,
    first: 1,
    last: 1,
});

/// Lyon.
const FIRST: Option<Pick> = Some(Pick {
    level: 0,
    first: 0,
    last: 0,
});

fn answered_of_days<L: Ledger>(alloc: Global, asked: OfDays, blank: Blank) -> Result<Text, NoMemory>
    requires name { blank.name ≡ L.name }
    requires parts { blank.parts ≡ L.parts }
    requires some { 0 < L.parts }
{
    match asked {
        OfDays::TuesdayAndWednesday => told_of_days::<L>(alloc, (2, 2), (None, BOTH), blank),
        OfDays::MiddleByCity => told_of_days::<L>(alloc, (0, 2), (None, MIDDLE), blank),
        OfDays::NiceAndParis => told_of_days::<L>(alloc, (1, 2), (BOTH, BOTH), blank),
        OfDays::Lyon => told_of_days::<L>(alloc, (0, 2), (FIRST, None), blank),
        OfDays::Parts => told_of_days::<L>(alloc, (2, 1), (None, None), blank),
    }
}

const DAY_CASES: [(OfDays, &[u8]); 5] = [
    (
        OfDays::TuesdayAndWednesday,
        b"key 0 0 places 1 5 9 sum 546 count 3\n",
    ),
    (
        OfDays::MiddleByCity,
        b"key 0 0 places 1 sum 2 count 1\nkey 1 0 places 5 sum 32 count 1\nkey 2 0 places 9 sum 512 count 1\n",
    ),
    (
        OfDays::NiceAndParis,
        b"key 0 0 places 5 sum 32 count 1\nkey 1 0 places 9 sum 512 count 1\n",
    ),
    (OfDays::Lyon, b"key 0 0 places 0 1 2 3 sum 15 count 4\n"),
    (
        OfDays::Parts,
        b"key 0 0 places 0 4 8 sum 273 count 3\nkey 0 1 places 1 5 9 sum 546 count 3\nkey 0 2 places 2 3 6 7 10 11 sum 3276 count 6\n",
    ),
];

#[test]
fn few_places_are_found_by_their_members(rt: HostRuntime) -> Result<(), Fail> {
    for (asked, wanted) in &DAY_CASES {
        let text = answered_of_days::<Brand>(rt.alloc(), *asked, Blank::new(1))?;
        assert_eq!(rt; text.as_slice(), *wanted);
    }
    Ok(())
}

/// How many points and facts a core has, and whether it has a fact at each point that there could be.
fn sizes_of(core: &Core) -> (u32, u64, bool) {
    (core.len(), core.facts(), core.is_full())
}

#[test]
fn a_core_is_full_with_all_points(rt: HostRuntime) -> Result<(), Fail> {
    assert_eq!(rt; sizes_of(&make_pay(rt.alloc())?), (5, 6, false));
    assert_eq!(rt; sizes_of(&make_full(rt.alloc())?), (6, 6, true));
    Ok(())
}
