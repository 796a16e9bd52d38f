// Sums, written straight where they stand.
ghost use Rattle.std.specs.Prelude.{◌≡◌, ◌≤◌, ◌++◌, OnOk};
ghost use Rattle.cube_text.specs.Units.{last_digits, units_text};

use cube_model::{NoMemory, Text};

// Puts the last digits of a number, so many of them, at once.
fn push_digits(text: &mut Text, value: u64, places: u32) -> Result<(), NoMemory>
    requires { places ≤ 6 }
    ensures { OnOk result (text.new ≡ text.old ++ last_digits places value) }
{
    let many = places as usize;
    let mut digits = [0u8; 6];
    let mut rest = value;
    'places: for place in 0..many {
        digits[5 - place] = b'0' + (rest % 10) as u8;
        rest /= 10;
    }
    text.extend(&digits[6 - many..])
}

// Puts the text of so many units.
#[tactic(auto, using(cube_text::proofs::Digits::powers))]
pub(crate) fn push_units(text: &mut Text, value: i64, decimals: u32) -> Result<(), NoMemory>
    requires { decimals ≤ 6 }
    ensures { OnOk result (text.new ≡ text.old ++ units_text decimals value) }
{
    let size = value.unsigned_abs();
    if value < 0 {
        text.push(b'-')?;
    }
    text.push_number(size / 10u64.pow(decimals))?;
    if decimals > 0 {
        text.push(b'.')?;
        push_digits(text, size, decimals)?;
    }
    Ok(())
}
