// What the trials begin with, and how numbers are told.
ghost use Rattle.std.specs.Prelude.{◌≡◌, IfOk};
ghost use Rattle.cube_fixtures.specs.Worked.{pay_core, full_core, day_core};

use cube_core::Core;
use cube_fixtures::{Parts, days, full, pay};
use cube_model::{NoMemory, Text};
use std::alloc::Global;

/// The pay cube: nobody works in Nice in February, and two people in Paris in February.
pub(crate) fn make_pay(alloc: Global) -> Result<Core, NoMemory>
    ensures { IfOk result (λ made. made ≡ pay_core) }
{
    let Parts { dims, shape, cube } = pay(alloc)?;
    Core::new(alloc, dims, shape, cube)
}

/// The same dimensions with a fact in each city in each month.
pub(crate) fn make_full(alloc: Global) -> Result<Core, NoMemory>
    ensures { IfOk result (λ made. made ≡ full_core) }
{
    let Parts { dims, shape, cube } = full(alloc)?;
    Core::new(alloc, dims, shape, cube)
}

/// The cube of days, whose values are powers of two.
pub(crate) fn make_days(alloc: Global) -> Result<Core, NoMemory>
    ensures { IfOk result (λ made. made ≡ day_core) }
{
    let Parts { dims, shape, cube } = days(alloc)?;
    Core::new(alloc, dims, shape, cube)
}

/// Puts numbers at the end, each behind a blank.
pub(crate) fn push_numbers(text: &mut Text, numbers: &[u32]) -> Result<(), NoMemory> {
    for number in numbers {
        text.push(b' ')?;
        text.push_number(u64::from(*number))?;
    }
    Ok(())
}
