// What the members of a level are, where they have an order of their own.
ghost use Rattle.std.specs.Prelude.{◌<◌, IfSome};

use cube_model::NumberedNames;

/// A kind of members that have an order of their own.
#[derive(Clone, Copy)]
pub(crate) enum Kind {
    /// A whole number of four digits, from 1900 to 2100.
    Year,
    /// A number, with decimals or without.
    Number,
    /// Year, month and day, as `2026-01-31`.
    Date,
    /// Year and month, as `2026-01`.
    YearMonth,
    /// A quarter of any year, as `Q1`.
    Quarter,
    /// A quarter of a year, as `2026-Q1`, `2026Q1` or `Q1 2026`.
    YearQuarter,
    /// A day of the week in English.
    Weekday,
    /// A month in English.
    Month,
}

const KINDS: [Kind; 8] = [
    Kind::Year,
    Kind::Number,
    Kind::Date,
    Kind::YearMonth,
    Kind::Quarter,
    Kind::YearQuarter,
    Kind::Weekday,
    Kind::Month,
];

const WEEKDAYS: [&[u8]; 7] = [
    b"monday",
    b"tuesday",
    b"wednesday",
    b"thursday",
    b"friday",
    b"saturday",
    b"sunday",
];

const MONTHS: [&[u8]; 12] = [
    b"january",
    b"february",
    b"march",
    b"april",
    b"may",
    b"june",
    b"july",
    b"august",
    b"september",
    b"october",
    b"november",
    b"december",
];

// The key of 0: those of greater numbers are greater.
const ZERO: u128 = 100_000_000_000_000_000_000_000_000_000_000_000_000;

// The most digits before the point of a number.
const MAX_WHOLE: usize = 20;

// The most digits behind the point of a number.
const MAX_DECIMALS: usize = 18;

/// Whether members of a kind are plainly times.
pub(crate) fn is_time(kind: Kind) -> bool {
    !matches!(kind, Kind::Number)
}

/// The first kind of which all of these names are.
pub(crate) fn kind_of(names: &NumberedNames) -> Option<Kind> {
    for kind in KINDS {
        if are_all(names, kind) {
            return Some(kind);
        }
    }
    None
}

// Whether all names are of a kind.
fn are_all(names: &NumberedNames, kind: Kind) -> bool {
    for number in 0..names.count() {
        if key_of(kind, names.name(number)).is_none() {
            return false;
        }
    }
    true
}

/// What a name is ordered by among those of its kind, where it is one of them.
pub(crate) fn key_of(kind: Kind, name: &[u8]) -> Option<u128> {
    match kind {
        Kind::Year => year_key(name),
        Kind::Number => number_key(name),
        Kind::Date => date_key(name),
        Kind::YearMonth => year_month_key(name),
        Kind::Quarter => quarter_key(name),
        Kind::YearQuarter => year_quarter_key(name),
        Kind::Weekday => word_key(name, &WEEKDAYS),
        Kind::Month => word_key(name, &MONTHS),
    }
}

// The number that digits write, where it is not too large.
fn digits_key(digits: &[u8]) -> Option<u128> {
    let mut key = 0u128;
    for digit in digits {
        if !digit.is_ascii_digit() {
            return None;
        }
        key = key.checked_mul(10)?.checked_add(u128::from(*digit - b'0'))?;
    }
    Some(key)
}

// What stands behind a point, in the least units.
fn decimals_key(digits: &[u8]) -> Option<u128> {
    if digits.is_empty() || digits.len() > MAX_DECIMALS {
        return None;
    }
    raised(digits_key(digits)?, MAX_DECIMALS - digits.len())
}

// A number with so many digits 0 put behind it.
fn raised(number: u128, places: usize) -> Option<u128> {
    let mut key = number;
    for _ in 0..places {
        key = key.checked_mul(10)?;
    }
    Some(key)
}

// A whole number in the least units.
fn whole_key(digits: &[u8]) -> Option<u128> {
    if digits.is_empty() || digits.len() > MAX_WHOLE {
        return None;
    }
    raised(digits_key(digits)?, MAX_DECIMALS)
}

// The size of a number in the least units.
fn size_key(size: &[u8]) -> Option<u128> {
    match size.iter().position(|byte| *byte == b'.') {
        Some(at) => whole_key(&size[..at])?.checked_add(decimals_key(&size[at + 1..])?),
        None => whole_key(size),
    }
}

fn number_key(name: &[u8]) -> Option<u128> {
    match name {
        [b'-', size @ ..] => ZERO.checked_sub(size_key(size)?),
        [b'+', size @ ..] => ZERO.checked_add(size_key(size)?),
        size => ZERO.checked_add(size_key(size)?),
    }
}

// The number that two digits write.
fn two_digits(tens: u8, ones: u8) -> Option<u32>
    ensures { IfSome result (λ number. number < 100) }
{
    if tens.is_ascii_digit() && ones.is_ascii_digit() {
        Some(u32::from(tens - b'0') * 10 + u32::from(ones - b'0'))
    } else {
        None
    }
}

// The year of four digits at the front, and what stands behind it.
fn split_year(name: &[u8]) -> Option<(u32, &[u8])>
    ensures { IfSome result (λ split. split.0 < 10000) }
{
    match name {
        [a, b, c, d, rest @ ..] => Some((two_digits(*a, *b)? * 100 + two_digits(*c, *d)?, rest)),
        _ => None,
    }
}

// The number of two digits from 1 to the greatest one, behind a hyphen, and what stands behind it.
fn split_part(rest: &[u8], greatest: u32) -> Option<(u32, &[u8])>
    ensures { IfSome result (λ split. split.0 < 100) }
{
    let [b'-', tens, ones, behind @ ..] = rest else {
        return None;
    };
    let part = two_digits(*tens, *ones)?;
    if part == 0 || part > greatest {
        return None;
    }
    Some((part, behind))
}

fn year_key(name: &[u8]) -> Option<u128> {
    let (year, rest) = split_year(name)?;
    if !rest.is_empty() || year < 1900 || year > 2100 {
        return None;
    }
    Some(u128::from(year))
}

fn year_month_key(name: &[u8]) -> Option<u128> {
    let (year, rest) = split_year(name)?;
    let (month, rest) = split_part(rest, 12)?;
    if !rest.is_empty() {
        return None;
    }
    Some(u128::from(year * 100 + month))
}

fn date_key(name: &[u8]) -> Option<u128> {
    let (year, rest) = split_year(name)?;
    let (month, rest) = split_part(rest, 12)?;
    let (day, rest) = split_part(rest, 31)?;
    if !rest.is_empty() {
        return None;
    }
    Some(u128::from((year * 100 + month) * 100 + day))
}

// The quarter at the front, and what stands behind it.
fn split_quarter(name: &[u8]) -> Option<(u32, &[u8])>
    ensures { IfSome result (λ split. split.0 < 10) }
{
    match name {
        [b'Q' | b'q', digit @ b'1'..=b'4', rest @ ..] => Some((u32::from(*digit - b'0'), rest)),
        _ => None,
    }
}

fn quarter_key(name: &[u8]) -> Option<u128> {
    match split_quarter(name)? {
        (quarter, []) => Some(u128::from(quarter)),
        _ => None,
    }
}

// A text without the hyphen or the blank at its front, where one stands there.
fn behind_gap(text: &[u8]) -> &[u8] {
    match text {
        [b'-' | b' ', rest @ ..] => rest,
        _ => text,
    }
}

// A year and a quarter of it.
fn split_both(name: &[u8]) -> Option<(u32, u32, &[u8])>
    ensures year { IfSome result (λ split. split.0 < 10000) }
    ensures quarter { IfSome result (λ split. split.1 < 10) }
{
    if let Some((year, rest)) = split_year(name) {
        let (quarter, rest) = split_quarter(behind_gap(rest))?;
        return Some((year, quarter, rest));
    }
    let (quarter, rest) = split_quarter(name)?;
    let (year, rest) = split_year(behind_gap(rest))?;
    Some((year, quarter, rest))
}

fn year_quarter_key(name: &[u8]) -> Option<u128> {
    match split_both(name)? {
        (year, quarter, []) => Some(u128::from(year * 10 + quarter)),
        _ => None,
    }
}

// Whether a name is a word, or its first three letters, in any case.
fn is_word(name: &[u8], word: &[u8]) -> bool {
    name.eq_ignore_ascii_case(word)
        || match word {
            [a, b, c, ..] => name.eq_ignore_ascii_case(&[*a, *b, *c]),
            _ => false,
        }
}

fn word_key(name: &[u8], words: &[&[u8]]) -> Option<u128> {
    for (number, word) in words.iter().enumerate() {
        if is_word(name, word) {
            return Some(number as u128);
        }
    }
    None
}
