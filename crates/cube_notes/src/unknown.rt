// What is said of a policy file in which a key or a name is unknown.
ghost use Rattle.std.specs.Prelude.{◌<◌, length};

use crate::choices::{Choices, Unknown};
use crate::shown::push_plain;
use cube_dims::{find_dimension, find_level};
use cube_model::{Dims, NoMemory, Text};
use cube_policy::{PolicyFault, read_policy};
use cube_tables::{items_under, members_of, read_table};
use std::alloc::Global;
use std::str;
use toml::Table;

static FILE_KEYS: [&[u8]; 2] = [b"measure", b"object"];

static MEASURE_KEYS: [&[u8]; 2] = [b"name", b"method"];

static OBJECT_KEYS: [&[u8]; 4] = [b"measure", b"below", b"slice", b"fewer"];

static SLICE_KEYS: [&[u8]; 2] = [b"level", b"members"];

static METHODS: [&[u8]; 3] = [b"open", b"lattice", b"parity"];

// The table under a key.
fn table_at<'a>(table: &'a Table, key: &str) -> Option<&'a Table> {
    table.get(key)?.as_table()
}

// The bytes of the text under a key.
fn text_at<'a>(table: &'a Table, key: &[u8]) -> Option<&'a [u8]> {
    let key = str::from_utf8(key).ok()?;
    let text = table.get(key)?.as_str()?;
    Some(text.as_bytes())
}

// A key, where a table has it.
fn unknown_key<'a>(
    table: &Table,
    key: &'a [u8],
    keys: &'static [&'static [u8]],
) -> Option<Unknown<'a>> {
    table.get(str::from_utf8(key).ok()?)?;
    Some(Unknown {
        said: key,
        choices: Choices::Words(keys),
    })
}

// What is unknown in the table of a measure.
fn in_measure<'a>(dims: &'a Dims, table: &'a Table, key: &'a [u8]) -> Option<Unknown<'a>> {
    if key == b"name".as_slice() {
        Some(Unknown {
            said: text_at(table, key)?,
            choices: Choices::Measures(dims.measures()),
        })
    } else if key == b"method".as_slice() {
        Some(Unknown {
            said: text_at(table, key)?,
            choices: Choices::Words(&METHODS),
        })
    } else {
        unknown_key(table, key, &MEASURE_KEYS)
    }
}

// A name, where it is that of no dimension.
fn unknown_dimension<'a>(dims: &'a Dims, name: &'a [u8]) -> Unknown<'a> {
    Unknown {
        said: name,
        choices: Choices::Dimensions(dims.dimensions()),
    }
}

// What is unknown among the levels that an object goes down to.
fn in_below<'a>(dims: &'a Dims, table: &'a Table, key: &'a [u8]) -> Option<Unknown<'a>> {
    let Some(number) = find_dimension(dims, key) else {
        return Some(unknown_dimension(dims, key));
    };
    Some(Unknown {
        said: text_at(table, key)?,
        choices: Choices::Below(dims.dimension(number).levels()),
    })
}

// A number of ASCII digits, from 1.
fn number_of(digits: &[u8]) -> Option<usize> {
    str::from_utf8(digits).ok()?.parse::<usize>().ok()
}

// The text with a number, from 1, in the array under a key.
fn item_at<'a>(table: &'a Table, key: &str, number: usize) -> Option<&'a [u8]> {
    let items = table.get(key)?.as_array()?;
    let item = items.as_slice().get(number.checked_sub(1)?)?;
    Some(item.as_str()?.as_bytes())
}

// What is unknown in the table of a dimension in a slice.
fn in_within<'a>(
    dims: &'a Dims,
    number: u32,
    table: &'a Table,
    key: &'a [u8],
) -> Option<Unknown<'a>>
    requires { number < length dims.now.dimensions }
{
    let dimension = dims.dimension(number);
    if key == b"level".as_slice() {
        return Some(Unknown {
            said: text_at(table, key)?,
            choices: Choices::Levels(dimension.levels()),
        });
    }
    let Some(digits) = key.strip_prefix(b"members ") else {
        return unknown_key(table, key, &SLICE_KEYS);
    };
    let level = find_level(dims, number, text_at(table, b"level")?)?;
    Some(Unknown {
        said: item_at(table, "members", number_of(digits)?)?,
        choices: Choices::Members(dimension.members(level as usize)),
    })
}

// What is unknown of a dimension in a slice, where a key leads to its table.
fn in_named<'a>(
    dims: &'a Dims,
    name: &'a [u8],
    table: &'a Table,
    key: &'a [u8],
) -> Option<Unknown<'a>> {
    let rest = key.strip_prefix(name)?;
    match (find_dimension(dims, name), rest.strip_prefix(b" ")) {
        (None, None) if rest.is_empty() => Some(unknown_dimension(dims, name)),
        (Some(number), Some(inner)) => in_within(dims, number, table, inner),
        _ => None,
    }
}

// What is unknown in the slice of an object.
fn in_slice<'a>(dims: &'a Dims, slice: &'a Table, key: &'a [u8]) -> Option<Unknown<'a>> {
    for (name, value) in slice.iter() {
        if let Some(table) = value.as_table() {
            if let Some(unknown) = in_named(dims, name.as_bytes(), table, key) {
                return Some(unknown);
            }
        }
    }
    None
}

// What is unknown in the table of an object.
fn in_object<'a>(dims: &'a Dims, table: &'a Table, key: &'a [u8]) -> Option<Unknown<'a>> {
    if key == b"measure".as_slice() {
        return Some(Unknown {
            said: text_at(table, key)?,
            choices: Choices::Measures(dims.measures()),
        });
    }
    if let Some(inner) = key.strip_prefix(b"below ") {
        return in_below(dims, table_at(table, "below")?, inner);
    }
    if let Some(inner) = key.strip_prefix(b"slice ") {
        return in_slice(dims, table_at(table, "slice")?, inner);
    }
    unknown_key(table, key, &OBJECT_KEYS)
}

// The table that a key begins with, behind the word for such tables, and the rest of the key.
fn numbered<'a>(table: &'a Table, word: &str, key: &'a [u8]) -> Option<(&'a Table, &'a [u8])> {
    let key = key.strip_prefix(word.as_bytes())?.strip_prefix(b" ")?;
    let blank = key.iter().position(|byte| *byte == b' ')?;
    let (digits, rest) = key.split_at(blank);
    let place = number_of(digits)?.checked_sub(1)?;
    let entry = items_under(table, word).get(place)?.as_table()?;
    Some((entry, rest.strip_prefix(b" ")?))
}

// What is unknown in a policy file under the key of its fault.
fn unknown_at<'a>(dims: &'a Dims, table: &'a Table, key: &'a [u8]) -> Option<Unknown<'a>> {
    if let Some((entry, rest)) = numbered(table, "measure", key) {
        return in_measure(dims, entry, rest);
    }
    if let Some((entry, rest)) = numbered(table, "object", key) {
        return in_object(dims, entry, rest);
    }
    unknown_key(table, key, &FILE_KEYS)
}

// Puts what is unknown under a key of a file.
fn push_unknown(
    alloc: Global,
    text: &mut Text,
    name: &Text,
    key: &Text,
    unknown: &Unknown,
) -> Result<(), NoMemory> {
    text.extend(name.as_slice())?;
    text.push(b' ')?;
    push_plain(text, key.as_slice())?;
    text.extend(b": ")?;
    unknown.push_to(alloc, text)
}

/// The note on a policy file in which a key or a name is unknown: what stands there, and what may.
pub fn note_on_unknown(
    alloc: Global,
    name: &Text,
    dims: &Dims,
    bytes: &[u8],
) -> Result<Text, NoMemory> {
    let mut text = Text::new(alloc);
    let Err(PolicyFault::Unknown { key }) = read_policy(alloc, dims, bytes) else {
        return Ok(text);
    };
    let Some(table) = read_table(alloc, bytes)? else {
        return Ok(text);
    };
    if let Some(unknown) = unknown_at(dims, &table, key.as_slice()) {
        push_unknown(alloc, &mut text, name, &key, &unknown)?;
    }
    Ok(text)
}
