// What is said of the columns of a fact file that files are drafted for: of each what it holds, and what is made of it.
use crate::facts::{line_of, push_place};
use crate::numbers::{hint_on, is_number, is_year};
use crate::shown::push_shown;
use csv::ByteRecord;
use cube_draft::Choices;
use cube_facts::open_records;
use cube_model::{Items, NoMemory, Text};
use std::alloc::Global;

// Of at most so many columns something is said.
const MOST: usize = 64;

// A field that is no number, and the line of its record.
#[derive(Drop)]
struct Other {
    line: u64,
    value: Text,
}

// What the fields of a column are.
#[derive(Drop)]
struct Column {
    fields: u64,
    numbers: u64,
    years: u64,
    first: Option<Other>,
}

// Notes the field of a record in a column.
fn note_field(
    alloc: Global,
    column: &mut Column,
    bytes: &[u8],
    record: &ByteRecord,
    field: &[u8],
) -> Result<(), NoMemory> {
    column.fields = column.fields.saturating_add(1);
    if is_number(field) {
        column.numbers = column.numbers.saturating_add(1);
        if is_year(field) {
            column.years = column.years.saturating_add(1);
        }
    } else if column.first.is_none() {
        column.first = Some(Other {
            line: line_of(bytes, record),
            value: Text::from_bytes(alloc, field)?,
        });
    }
    Ok(())
}

// Notes the fields of a record.
fn note_record(
    alloc: Global,
    columns: &mut Vec<Column>,
    bytes: &[u8],
    record: &ByteRecord,
) -> Result<(), NoMemory> {
    for place in 0..columns.len() {
        if let Some(field) = record.get(place) {
            note_field(alloc, &mut columns[place], bytes, record, field)?;
        }
    }
    Ok(())
}

// So many columns without a field.
fn no_fields(alloc: Global, count: usize) -> Result<Vec<Column>, NoMemory> {
    let mut columns = Vec::new(alloc);
    for _ in 0..count {
        columns.push(Column {
            fields: 0,
            numbers: 0,
            years: 0,
            first: None,
        })?;
    }
    Ok(columns)
}

// What the first columns of a file hold in the records that are read.
fn look(alloc: Global, bytes: &[u8], count: usize) -> Result<Vec<Column>, NoMemory> {
    let mut columns = no_fields(alloc, count)?;
    let mut reader = open_records(alloc, bytes);
    let mut record = ByteRecord::new(alloc);
    for number in 0..u64::MAX {
        match reader.read_byte_record(&mut record) {
            Ok(true) if number == 0 => {}
            Ok(true) => note_record(alloc, &mut columns, bytes, &record)?,
            Ok(false) => return Ok(columns),
            Err(_) => return Err(NoMemory),
        }
    }
    Ok(columns)
}

fn is_among(names: &[Text], name: &[u8]) -> bool {
    names.iter().any(|other| other.as_slice() == name)
}

// Whether it is stated that a column has members.
fn is_stated(choices: &Choices, name: &[u8]) -> bool {
    is_among(choices.members.as_slice(), name)
        || choices
            .dimensions
            .as_slice()
            .iter()
            .any(|stated| is_among(stated.columns.as_slice(), name))
}

// An option with a column behind it.
fn push_option(text: &mut Text, option: &[u8], name: &[u8]) -> Result<(), NoMemory> {
    text.extend(option)?;
    push_shown(text, name)
}

// So many things that are called so, one by a word and more by that with an ending.
fn push_counted(text: &mut Text, count: u64, word: &[u8]) -> Result<(), NoMemory> {
    text.push_number(count)?;
    text.push(b' ')?;
    text.extend(word)?;
    if count == 1 { Ok(()) } else { text.push(b's') }
}

// Says of numbers that they are a measure.
fn push_measure(text: &mut Text, column: &Column, name: &[u8]) -> Result<(), NoMemory> {
    if column.years == column.fields {
        push_counted(text, column.fields, b"year")?;
        text.extend(b": a measure, which is added up")?;
    } else {
        push_counted(text, column.fields, b"number")?;
        text.extend(b": a measure")?;
    }
    push_option(text, b"; members by --members ", name)?;
    push_option(text, b", left out by --skip ", name)
}

// Says of a field that it is no number, and what would make it one.
fn push_other(text: &mut Text, other: &Other) -> Result<(), NoMemory> {
    text.extend(b"line ")?;
    text.push_number(other.line)?;
    text.extend(b" is ")?;
    push_shown(text, other.value.as_slice())?;
    text.extend(hint_on(other.value.as_slice()))
}

// Says how many of the fields are numbers, where some are.
fn push_share(text: &mut Text, column: &Column) -> Result<(), NoMemory> {
    if column.numbers == 0 {
        return Ok(());
    }
    text.push_number(column.numbers)?;
    text.extend(b" of ")?;
    push_counted(text, column.fields, b"number")?;
    text.extend(b", ")
}

// Says of fields of which one is no number that they are members.
fn push_members(
    text: &mut Text,
    column: &Column,
    other: &Other,
    name: &[u8],
) -> Result<(), NoMemory> {
    push_share(text, column)?;
    push_other(text, other)?;
    push_option(text, b": members; left out by --skip ", name)
}

// What a column holds and what is made of it.
fn push_found(text: &mut Text, column: &Column, name: &[u8]) -> Result<(), NoMemory> {
    match &column.first {
        None if column.fields == 0 => text.extend(b"no field"),
        None => push_measure(text, column, name),
        Some(other) => push_members(text, column, other, name),
    }
}

// The line on a column.
fn push_column(
    text: &mut Text,
    choices: &Choices,
    column: &Column,
    name: &[u8],
) -> Result<(), NoMemory> {
    push_shown(text, name)?;
    text.extend(b": ")?;
    if is_among(choices.skipped.as_slice(), name) {
        text.extend(b"left out, as stated")?;
    } else if is_stated(choices, name) {
        text.extend(b"members, as stated")?;
    } else {
        push_found(text, column, name)?;
    }
    text.push(b'\n')
}

// The bytes that may part the fields of a file that has no commas, and what they are called.
static PARTERS: [(u8, &[u8]); 3] = [(b';', b"semicolons"), (b'\t', b"tabs"), (b'|', b"bars")];

// What parts the names in the only field of a header.
fn parter_in(field: &[u8]) -> Option<&'static [u8]> {
    for (byte, name) in PARTERS {
        if field.contains(&byte) {
            return Some(name);
        }
    }
    None
}

// Says of a header without a comma what parts its names.
fn push_parted(
    text: &mut Text,
    name: &Text,
    bytes: &[u8],
    header: &ByteRecord,
) -> Result<(), NoMemory> {
    if header.len() != 1 {
        return Ok(());
    }
    let Some(parter) = parter_in(header.get(0).unwrap_or(b"")) else {
        return Ok(());
    };
    push_place(text, name, line_of(bytes, header))?;
    text.extend(b"the columns are parted by ")?;
    text.extend(parter)?;
    text.extend(b": write commas, and points in numbers\n")
}

// A line for each of the first columns.
fn push_columns(
    text: &mut Text,
    choices: &Choices,
    header: &ByteRecord,
    columns: &[Column],
) -> Result<(), NoMemory> {
    for (place, column) in columns.iter().enumerate() {
        push_column(text, choices, column, header.get(place).unwrap_or(b""))?;
    }
    if header.len() > columns.len() {
        text.extend(b"..\n")?;
    }
    Ok(())
}

/// The note on a fact file that files are drafted for, with what is stated of its columns: a line for each column, which says how many of
/// its fields are numbers, where some are, shows the first that is none, and names what is made of it and the option that makes something
/// else.
pub fn note_on_draft(
    alloc: Global,
    name: &Text,
    bytes: &[u8],
    choices: &Choices,
) -> Result<Text, NoMemory> {
    let mut text = Text::new(alloc);
    let mut reader = open_records(alloc, bytes);
    let mut header = ByteRecord::new(alloc);
    match reader.read_byte_record(&mut header) {
        Ok(true) => {}
        Ok(false) => return Ok(text),
        Err(_) => return Err(NoMemory),
    }
    push_parted(&mut text, name, bytes, &header)?;
    let columns = look(alloc, bytes, header.len().min(MOST))?;
    push_columns(&mut text, choices, &header, columns.as_slice())?;
    Ok(text)
}
