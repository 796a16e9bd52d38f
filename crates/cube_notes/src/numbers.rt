// Fields that a person would read as numbers, and what keeps them from being ones.
use cube_text::{UnitFault, read_units};

// The most decimals of a number.
const MOST_DECIMALS: u32 = 6;

/// Whether a field is a number of at most six decimals, also one that is too large.
pub(crate) fn is_number(field: &[u8]) -> bool {
    matches!(
        read_units(field, MOST_DECIMALS),
        Ok(_) | Err(UnitFault::TooLarge)
    )
}

/// Whether a field is a whole number of four digits from 1900 to 2100.
pub(crate) fn is_year(field: &[u8]) -> bool {
    match field {
        [b'1', b'9', tens, ones] | [b'2', b'0', tens, ones] => {
            tens.is_ascii_digit() && ones.is_ascii_digit()
        }
        _ => field == b"2100".as_slice(),
    }
}

// Whether a byte may begin a number.
fn begins_number(byte: u8) -> bool {
    byte.is_ascii_digit() || byte == b'-' || byte == b'+'
}

// A field as what stands before a number, the number, and what stands behind it.
#[derive(Clone, Copy)]
struct Parted<'a> {
    front: &'a [u8],
    inner: &'a [u8],
    behind: &'a [u8],
}

fn part(field: &[u8]) -> Option<Parted<'_>> {
    let start = field.iter().position(|byte| begins_number(*byte))?;
    let last = field.iter().rposition(|byte| byte.is_ascii_digit())?;
    let end = last.saturating_add(1);
    Some(Parted {
        front: field.get(..start)?,
        inner: field.get(start..end)?,
        behind: field.get(end..)?,
    })
}

fn is_blank(text: &[u8]) -> bool {
    text.iter().all(|byte| *byte == b' ' || *byte == b'\t')
}

// Whether a text is blank, or a sign of a currency or three capital letters, and blanks.
fn is_beside(text: &[u8]) -> bool {
    let count = text.iter().filter(|byte| byte.is_ascii_uppercase()).count();
    let others = text
        .iter()
        .filter(|byte| !byte.is_ascii_uppercase() && **byte != b' ')
        .count();
    if others == 0 {
        return count == 0 || count == 3;
    }
    count == 0 && text.iter().all(|byte| is_sign(*byte))
}

// A byte of `$`, of the signs of the euro, the pound and the yen in UTF-8, or a blank.
fn is_sign(byte: u8) -> bool {
    match byte {
        b' ' | b'$' | 0xE2 | 0x82 | 0xAC | 0xC2 | 0xA3 | 0xA5 | 0xA0 => true,
        _ => false,
    }
}

// Whether a text has digits, commas, points and signs alone, and a comma.
fn has_commas(text: &[u8]) -> bool {
    text.contains(&b',')
        && text.iter().all(|byte| begins_number(*byte) || *byte == b',' || *byte == b'.')
}

// Whether just three digits stand behind the last comma, up to a point.
fn is_grouped(text: &[u8]) -> bool {
    let Some(comma) = text.iter().rposition(|byte| *byte == b',') else {
        return false;
    };
    let Some(rest) = text.get(comma.saturating_add(1)..) else {
        return false;
    };
    let digits = rest.iter().take_while(|byte| byte.is_ascii_digit()).count();
    digits == 3 && (rest.len() == 3 || rest.get(3) == Some(&b'.'))
}

// Whether a text is a number with an exponent.
fn has_exponent(text: &[u8]) -> bool {
    let Some(at) = text.iter().position(|byte| *byte == b'e' || *byte == b'E') else {
        return false;
    };
    match (text.get(..at), text.get(at.saturating_add(1)..)) {
        (Some(front), Some(power)) => is_number(front) && is_number(power),
        _ => false,
    }
}

// What keeps the number in a field from being one.
fn hint_within(inner: &[u8]) -> &'static [u8] {
    if has_exponent(inner) {
        b" (an exponent: write the number out)"
    } else if has_commas(inner) {
        if is_grouped(inner) {
            b" (commas between thousands: leave them out)"
        } else {
            b" (a comma before decimals: write a point)"
        }
    } else if matches!(read_units(inner, MOST_DECIMALS), Err(UnitFault::TooFine)) {
        b" (more than 6 decimals: round it)"
    } else {
        b""
    }
}

/// What would make a number of a field that is none, where something plainly would.
pub(crate) fn hint_on(field: &[u8]) -> &'static [u8] {
    let Some(parted) = part(field) else {
        return b"";
    };
    if !is_beside(parted.front) || !is_beside(parted.behind) {
        return b"";
    }
    if !is_number(parted.inner) {
        return hint_within(parted.inner);
    }
    if is_blank(parted.front) && is_blank(parted.behind) {
        b" (blanks beside a number: leave them out)"
    } else {
        b" (a currency beside a number: leave it out)"
    }
}
