// The cuboids of the pay cube.
ghost use Rattle.std.specs.Prelude.{◌≤◌};

use cube_fixtures::{pay_dims, request, two};
use cube_lattice::{cuboid_number, cuboids, cuboids_below, finer_or_equal, grain, meet_into};
use cube_model::{Levels, NoMemory, Pick};
use std::alloc::Global;
use std::test::Fail;

const NINE: [[u32; 2]; 9] = [
    [0, 0],
    [0, 1],
    [0, 2],
    [1, 0],
    [1, 1],
    [1, 2],
    [2, 0],
    [2, 1],
    [2, 2],
];

#[test]
fn the_pay_cube_has_nine_cuboids(rt: HostRuntime) -> Result<(), Fail> {
    let alloc = rt.alloc();
    let all = cuboids(alloc, &pay_dims(alloc)?)?;
    assert_eq!(rt; all.len(), NINE.len());
    for (levels, wanted) in all.as_slice().iter().zip(&NINE) {
        assert_eq!(rt; levels.as_slice(), wanted.as_slice());
    }
    let below = cuboids_below(alloc, &two(alloc, 1, 2)?)?;
    assert_eq!(rt; below.len(), 6);
    for (levels, wanted) in below.as_slice().iter().zip(&NINE) {
        assert_eq!(rt; levels.as_slice(), wanted.as_slice());
    }
    Ok(())
}

/// The number of a cuboid of the pay cube.
fn number_of(alloc: Global, first: u32, second: u32) -> Result<u32, NoMemory>
    requires first { first ≤ 2 }
    requires second { second ≤ 2 }
{
    let dims = pay_dims(alloc)?;
    let levels = two(alloc, first, second)?;
    Ok(cuboid_number(&dims, &levels))
}

#[test]
fn cuboids_are_numbered(rt: HostRuntime) -> Result<(), Fail> {
    let mut next = 0u32;
    for first in 0..3 {
        for second in 0..3 {
            assert_eq!(rt; number_of(rt.alloc(), first, second)?, next);
            next = next.saturating_add(1);
        }
    }
    Ok(())
}

/// The meet of two cuboids of the pay cube.
fn meet_of(alloc: Global, a: (u32, u32), b: (u32, u32)) -> Result<Levels, NoMemory> {
    let mut levels = two(alloc, a.0, a.1)?;
    let b = two(alloc, b.0, b.1)?;
    meet_into(&mut levels, &b);
    Ok(levels)
}

/// Whether a cuboid is finer than another, or the same.
fn is_finer(alloc: Global, a: (u32, u32), b: (u32, u32)) -> Result<bool, NoMemory> {
    let a = two(alloc, a.0, a.1)?;
    let b = two(alloc, b.0, b.1)?;
    Ok(finer_or_equal(&a, &b))
}

/// Two cuboids, and whether the first is finer than the other or the same.
const ORDERED: [((u32, u32), (u32, u32), bool); 5] = [
    ((1, 0), (2, 0), true),
    ((1, 0), (1, 2), true),
    ((1, 0), (1, 0), true),
    ((2, 0), (1, 2), false),
    ((1, 2), (2, 0), false),
];

#[test]
fn cuboids_meet_and_are_in_order(rt: HostRuntime) -> Result<(), Fail> {
    let alloc = rt.alloc();
    assert_eq!(rt;
        meet_of(alloc, (0, 2), (1, 1))?.as_slice(),
        [0, 1].as_slice()
    );
    for (a, b, finer) in &ORDERED {
        assert_eq!(rt; is_finer(alloc, *a, *b)?, *finer);
    }
    Ok(())
}

#[test]
fn the_grain_reads_groups_and_picks(rt: HostRuntime) -> Result<(), Fail> {
    let alloc = rt.alloc();
    let january = Pick {
        level: 0,
        first: 0,
        last: 0,
    };
    let request = request(alloc, (1, 2), (None, Some(january)))?;
    assert_eq!(rt; grain(alloc, &request)?.as_slice(), [1, 0].as_slice());
    Ok(())
}
