// Plain numbers, as nearly all in a file are, read in one pass over their bytes: an optional minus, digits, and behind a
// point no more digits than there are decimals.
ghost use Rattle.std.specs.Prelude.{◌≡◌, ◌<◌, ◌≤◌, ◌*◌, ◌^◌, length, take, true, IfSome, Ok};
ghost use Rattle.std.specs.List.{list_all};
ghost use Rattle.std.specs.Char.{is_ascii_digit};
ghost use Rattle.std.specs.Str.Parse.{digits_value};
ghost use Rattle.cube_text.specs.Units.{is_minus, unsigned, units_of};
ghost use Rattle.cube_facts.specs.Plain.{IsPlain, IsBehind};

// The most digits before the point, or behind it.
const MAX_DIGITS: usize = 12;

const MAX_UNITS: u64 = 1_000_000_000_000;

// Whether a minus stands in front, and what stands behind the sign.
fn split_sign(text: &[u8]) -> (bool, &[u8])
    ensures sign { result.0 ≡ is_minus text.now }
    ensures body { result.1.now ≡ unsigned text.now }
{
    match text {
        [b'-', rest @ ..] => (true, rest),
        [b'+', rest @ ..] => (false, rest),
        _ => (false, text),
    }
}

// How many digits stand at the front, of the first few bytes, and the number that they write.
fn front_digits(text: &[u8]) -> (usize, u64)
    ensures many { result.0 ≤ length text.now }
    ensures digits { list_all is_ascii_digit (take result.0 text.now) ≡ true }
    ensures value { result.1 ≡ digits_value 10 (take result.0 text.now) }
    ensures small { result.1 < 1000000000000 }
{
    let most = text.len().min(MAX_DIGITS);
    let mut value = 0u64;
    for place in 0..most {
        let byte = text[place];
        if !byte.is_ascii_digit() {
            return (place, value);
        }
        value = value * 10 + u64::from(byte - b'0');
    }
    (most, value)
}

fn power_of_ten(places: u32) -> u64
    requires { places ≤ 6 }
    ensures { result ≡ 10 ^ places }
{
    match places {
        0 => 1,
        1 => 10,
        2 => 100,
        3 => 1_000,
        4 => 10_000,
        5 => 100_000,
        _ => 1_000_000,
    }
}

// A number with so many zeros behind it.
fn scaled(value: u64, places: u32) -> u64
    requires small { value < 1000000000000 }
    requires few { places ≤ 6 }
    ensures is { result ≡ value * 10 ^ places }
    ensures bounded { result ≤ 1000000000000000000 }
{
    value * power_of_ten(places)
}

fn no_more(size: u64) -> Option<u64>
    ensures { IfSome result (λ kept. (kept ≡ size) × (size ≤ 1000000000000)) }
{
    if size <= MAX_UNITS { Some(size) } else { None }
}

// The size that a point and the digits behind it add.
fn size_behind(rest: &[u8], decimals: u32) -> Option<u64>
    requires { decimals ≤ 6 }
    ensures is { IfSome result (λ size. IsBehind decimals rest.now size) }
    ensures bounded { IfSome result (λ size. size ≤ 1000000000000000000) }
{
    let [b'.', fraction @ ..] = rest else {
        return None;
    };
    let (many, value) = front_digits(fraction);
    if many == 0 || many < fraction.len() || many > decimals as usize {
        return None;
    }
    Some(scaled(value, decimals - many as u32))
}

// The size of a plain number without its sign.
fn plain_size(body: &[u8], decimals: u32) -> Option<u64>
    requires { decimals ≤ 6 }
    ensures { IfSome result (λ size. IsPlain decimals body.now size) }
{
    let (many, value) = front_digits(body);
    if many == 0 {
        return None;
    }
    let size = scaled(value, decimals);
    if many == body.len() {
        return no_more(size);
    }
    no_more(size + size_behind(&body[many..], decimals)?)
}

/// The units of a plain number; no answer does not say that a text is no number.
pub(crate) fn plain_units(text: &[u8], decimals: u32) -> Option<i64>
    requires { decimals ≤ 6 }
    ensures { IfSome result (λ units. units_of decimals text.now ≡ Ok units) }
{
    let (negative, body) = split_sign(text);
    let size = plain_size(body, decimals)?;
    let magnitude = size as i64;
    Some(if negative { -magnitude } else { magnitude })
}
