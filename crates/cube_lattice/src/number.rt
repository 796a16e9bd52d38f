// The number of a cuboid.
ghost use Rattle.std.specs.Prelude.{◌≡◌, ◌+◌, ◌*◌, ◌^◌, ◌<◌, ◌≤◌, true, map, length};
ghost use Rattle.cube_model.specs.Cubes as cubes;
ghost use Rattle.cube_model.specs.Cubes.{are_levels, cuboid_count};
ghost use Rattle.cube_model.specs.Dims.{plain, plains};

use cube_model::{Dimension, Dims, Levels};

// The number of some levels, with the level of one more dimension behind them.
fn with_digit(number: u32, dimension: &Dimension, level: u32) -> u32
    requires { number * (length dimension.now.levels + 1) + level < 2 ^ 32 }
    ensures { result ≡ number * (length dimension.now.levels + 1) + level }
{
    let base = dimension.levels().len() as u32 + 1;
    number * base + level
}

// The number that levels are as digits.
fn read_digits(dimensions: &[Dimension], levels: &[u32]) -> u32
    requires levels { are_levels (map plain dimensions.now) levels.now ≡ true }
    requires few { cuboid_count (map plain dimensions.now) ≤ 256 }
    ensures { result ≡ cubes.cuboid_number (map plain dimensions.now) levels.now }
{
    let mut number = 0;
    'digits: for (place, dimension) in dimensions.iter().enumerate() {
        number = with_digit(number, dimension, levels[place]);
    }
    number
}

/// The number of a cuboid: its levels read as digits, the first dimension most significant, where the
/// digit of a dimension with n named levels has the base n + 1. So 0 is the core.
pub fn cuboid_number(dims: &Dims, levels: &Levels) -> u32
    requires { are_levels (plains dims.now) levels.now ≡ true }
    ensures { result ≡ cubes.cuboid_number (plains dims.now) levels.now }
{
    read_digits(dims.dimensions(), levels.as_slice())
}
