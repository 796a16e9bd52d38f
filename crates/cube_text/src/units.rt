// Whole numbers of units: a sign, digits, and a point with digits behind it.
ghost use Rattle.std.specs.Prelude.{◌≡◌, ◌≤◌, ◌<◌, ◌+◌, ◌*◌, ◌-◌, ◌^◌, length, min, position, pos, IfOk, OnOk, IsTrue, ◌++◌, if◌then◌else◌, Some, None};
ghost use Rattle.std.specs.List.{list_all};
ghost use Rattle.std.specs.Char.{is_ascii_digit};
ghost use Rattle.std.specs.Str.Parse.{digits_value};
ghost use Rattle.cube_text.specs.UnitLaws.{UnitsRead};
ghost use Rattle.cube_text.specs.Units.{is_minus, unsigned, is_zero, is_point, is_digits as digits_test, whole_part, fraction_part, max_units, size_of_parts, units_of, last_digits, units_text};

use cube_model::{NoMemory, Text};
use std::alloc::Global;

/// Why a text gives no units.
#[derive(Clone, Copy, Debug, PartialEq, Eq)]
pub enum UnitFault {
    /// It is no number.
    Syntax,
    /// It has a digit other than 0 behind the stated decimals.
    TooFine,
    /// It is more than 10^12 units, or less than -10^12.
    TooLarge,
}

const MAX_UNITS: u64 = 1_000_000_000_000;

// Stands for every number above the largest.
const OVER: u64 = 1_000_000_000_001;

// Whether a minus stands in front, and what stands behind the sign.
fn split_sign(text: &[u8]) -> (bool, &[u8])
    ensures sign { result.0 ≡ is_minus text.now }
    ensures body { result.1.now ≡ unsigned text.now }
{
    match text {
        [b'-', rest @ ..] => (true, rest),
        [b'+', rest @ ..] => (false, rest),
        _ => (false, text),
    }
}

// The digits before the point and those behind it.
fn split_point(body: &[u8]) -> (&[u8], &[u8])
    ensures whole { result.0.now ≡ whole_part body.now }
    ensures fraction { result.1.now ≡ fraction_part body.now }
{
    match find_point(body) {
        Some(at) => (&body[..at], &body[at + 1..]),
        None => (body, &[]),
    }
}

fn find_point(body: &[u8]) -> Option<usize>
    ensures { result ≡ position is_point body.now }
{
    body.iter().position(|byte| *byte == b'.')
}

fn all_digits(text: &[u8]) -> bool
    ensures { result ≡ list_all is_ascii_digit text.now }
{
    text.iter().all(|byte| byte.is_ascii_digit())
}

fn all_zeros(text: &[u8]) -> bool
    ensures { result ≡ list_all is_zero text.now }
{
    text.iter().all(|byte| *byte == b'0')
}

fn is_digits(text: &[u8]) -> bool
    ensures { result ≡ digits_test text.now }
{
    !text.is_empty() && all_digits(text)
}

// The number that digits write, or `OVER` where it is larger.
fn capped_value(digits: &[u8]) -> u64
    requires { IsTrue (list_all is_ascii_digit digits.now) }
    ensures { result ≡ min OVER (digits_value 10 digits.now) }
{
    let mut value = 0u64;
    for digit in digits {
        value = (value * 10 + u64::from(*digit - b'0')).min(OVER);
    }
    value
}

/// The number that decimal digits write, and no sign: 10^12 + 1 stands for every number above 10^12.
pub fn read_digits(text: &[u8]) -> Option<u64>
    ensures { result ≡ (if digits_test text.now then Some (min OVER (digits_value 10 text.now)) else None) }
{
    if is_digits(text) {
        Some(capped_value(text))
    } else {
        None
    }
}

// The number that at most six digits write.
fn small_value(digits: &[u8]) -> u64
    requires short { length digits.now ≤ 6 }
    requires digits { IsTrue (list_all is_ascii_digit digits.now) }
    ensures value { result ≡ digits_value 10 digits.now }
    ensures small { result < 1000000 }
{
    capped_value(digits)
}

// The units of a number of these parts, or more than `MAX_UNITS` where it has more.
fn capped_size(whole: &[u8], fraction: &[u8], decimals: u32) -> u64
    requires few { decimals ≤ 6 }
    requires whole { IsTrue (list_all is_ascii_digit whole.now) }
    requires fraction { IsTrue (list_all is_ascii_digit fraction.now) }
    ensures over { max_units < size_of_parts decimals whole.now fraction.now → max_units < result }
    ensures exact { size_of_parts decimals whole.now fraction.now ≤ max_units → result ≡ size_of_parts decimals whole.now fraction.now }
{
    let kept = fraction.len().min(decimals as usize);
    let left = decimals - kept as u32;
    capped_value(whole) * 10u64.pow(decimals) + small_value(&fraction[..kept]) * 10u64.pow(left)
}

/// What a text says, in the smallest units: with 2 decimals `12.5` is 1250. A number is an optional sign, digits, and
/// optionally a point with digits behind it.
pub fn read_units(text: &[u8], decimals: u32) -> Result<i64, UnitFault>
    requires { decimals ≤ 6 }
    ensures { result ≡ units_of decimals text.now }
{
    let (negative, body) = split_sign(text);
    let (whole, fraction) = split_point(body);
    if !is_digits(whole)
        || !all_digits(fraction)
        || (fraction.is_empty() && whole.len() < body.len())
    {
        return Err(UnitFault::Syntax);
    }
    let kept = fraction.len().min(decimals as usize);
    if !all_zeros(&fraction[kept..]) {
        return Err(UnitFault::TooFine);
    }
    let units = capped_size(whole, fraction, decimals);
    if units > MAX_UNITS {
        return Err(UnitFault::TooLarge);
    }
    let magnitude = units as i64;
    Ok(if negative { -magnitude } else { magnitude })
}

// Writes the last digits of a number at the end, so many of them.
#[tactic(auto, using(crate::proofs::Digits::last_step))]
fn push_digits(text: &mut Vec<u8>, value: u64, places: u32) -> Result<(), NoMemory>
    ensures { OnOk result (text.new.items ≡ text.old.items ++ last_digits places value) }
{
    if places > 0 {
        push_digits(text, value / 10, places - 1)?;
        text.push(b'0' + (value % 10) as u8)?;
    }
    Ok(())
}

/// The text of so many units: `-` where they are negative, the whole part, and behind a point just as many digits as
/// there are decimals. With 2 decimals -5 is `-0.05`.
#[tactic(auto, using(crate::proofs::Digits::powers))]
pub fn write_units(alloc: Global, value: i64, decimals: u32) -> Result<Text, NoMemory>
    requires { decimals ≤ 6 }
    ensures { IfOk result (λ text. text ≡ units_text decimals value) }
{
    let size = value.unsigned_abs();
    let mut text = Vec::new(alloc);
    if value < 0 {
        text.push(b'-')?;
    }
    let whole = (size / 10u64.pow(decimals)).to_string(alloc)?;
    text.extend_from_slice(whole.as_bytes())?;
    if decimals > 0 {
        text.push(b'.')?;
        push_digits(&mut text, size, decimals)?;
    }
    Ok(Text::from_vec(text))
}

/// A value within the bound reads back from its text.
pub fn units_read_back()
    ensures { UnitsRead }
{}
