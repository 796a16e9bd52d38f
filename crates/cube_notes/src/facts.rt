// What is said of a fact file that is refused.
ghost use Rattle.std.specs.Prelude.{◌≡◌, ◌++◌, OnOk};
ghost use Rattle.cube_notes.specs.Shown.{line_text, place_text, row_text};

use crate::choices::Choices;
use crate::lines::line_of_record;
use crate::nearest::push_nearest;
use crate::shown::push_shown;
use csv::ByteRecord;
use cube_facts::{FactsFault, open_records, read_facts, read_flat};
use cube_model::{Dimension, Dims, NoMemory, Text};
use cube_text::UnitFault;
use std::alloc::Global;

// A record of a file, with its header.
#[derive(Drop)]
struct Row {
    header: ByteRecord,
    record: ByteRecord,
}

impl Row {
    // What it has in a column.
    fn value(&self, column: &[u8]) -> Option<&[u8]> {
        let place = self.header.iter().position(|name| name == column)?;
        self.record.get(place)
    }
}

/// The line, from 1, in which a record of a file begins.
pub(crate) fn line_of(bytes: &[u8], record: &ByteRecord) -> u64 {
    let taken = match record.position() {
        Some(position) => position.byte(),
        None => 0,
    };
    line_of_record(bytes, taken as usize)
}

// The record of this number from 1 behind the header, or the header itself for 0.
fn find_row(alloc: Global, bytes: &[u8], number: u64) -> Option<Row> {
    let mut reader = open_records(alloc, bytes);
    let mut header = ByteRecord::new(alloc);
    let mut record = ByteRecord::new(alloc);
    if !reader.read_byte_record(&mut header).ok()? {
        return None;
    }
    for _ in 0..number {
        if !reader.read_byte_record(&mut record).ok()? {
            return None;
        }
    }
    Some(Row { header, record })
}

fn push_line(text: &mut Text, line: u64) -> Result<(), NoMemory>
    ensures { OnOk result (text.new ≡ text.old ++ line_text line) }
{
    text.extend(b" line ")?;
    text.push_number(line)?;
    text.extend(b": ")
}

/// Puts the place of a note: the file and the line.
pub(crate) fn push_place(text: &mut Text, name: &Text, line: u64) -> Result<(), NoMemory>
    ensures { OnOk result (text.new ≡ text.old ++ place_text name.now line) }
{
    text.extend(name.as_slice())?;
    push_line(text, line)
}

// Puts the place of a note on a record: the file, the number of the row behind the header, and the line in which it begins.
fn push_row(text: &mut Text, name: &Text, row: u64, line: u64) -> Result<(), NoMemory>
    ensures { OnOk result (text.new ≡ text.old ++ row_text name.now row line) }
{
    text.extend(name.as_slice())?;
    text.extend(b" row ")?;
    text.push_number(row)?;
    text.extend(b" is")?;
    push_line(text, line)
}

// Puts where a fault is: a row, or the header for 0.
fn push_where(
    text: &mut Text,
    name: &Text,
    bytes: &[u8],
    row: &Row,
    number: u64,
) -> Result<(), NoMemory> {
    if number == 0 {
        push_place(text, name, line_of(bytes, &row.header))
    } else {
        push_row(text, name, number, line_of(bytes, &row.record))
    }
}

// The columns that there are.
fn push_columns(text: &mut Text, header: &ByteRecord) -> Result<(), NoMemory> {
    let mut between: &[u8] = b"";
    for name in header.iter() {
        text.extend(between)?;
        push_shown(text, name)?;
        between = b", ";
    }
    Ok(())
}

fn push_lengths(text: &mut Text, row: &Row) -> Result<(), NoMemory> {
    text.push_number(row.record.len() as u64)?;
    text.extend(b" fields, and the header has ")?;
    text.push_number(row.header.len() as u64)
}

// A value behind the name of its column.
fn push_value(text: &mut Text, row: &Row, column: &Text) -> Result<(), NoMemory> {
    text.extend(column.as_slice())?;
    text.push(b' ')?;
    push_shown(text, row.value(column.as_slice()).unwrap_or(b""))
}

// The decimals of the measure in a column.
fn decimals_of(dims: Option<&Dims>, column: &Text) -> Option<u32> {
    for measure in dims?.measures() {
        if measure.column() == column.as_slice() {
            return Some(measure.decimals());
        }
    }
    None
}

// The dimension in a column.
fn dimension_of<'a>(dims: Option<&'a Dims>, column: &Text) -> Option<&'a Dimension> {
    for dimension in dims?.dimensions() {
        if dimension.column() == column.as_slice() {
            return Some(dimension);
        }
    }
    None
}

fn push_cause(
    text: &mut Text,
    dims: Option<&Dims>,
    column: &Text,
    cause: UnitFault,
) -> Result<(), NoMemory> {
    match (cause, decimals_of(dims, column)) {
        (UnitFault::Syntax, _) => text.extend(b" is not a number"),
        (UnitFault::TooFine, Some(decimals)) => {
            text.extend(b" has more decimals than the ")?;
            text.push_number(u64::from(decimals))?;
            text.extend(b" of its measure")
        }
        (UnitFault::TooFine, None) => text.extend(b" has decimals"),
        (UnitFault::TooLarge, _) => text.extend(b" is too large"),
    }
}

// Names a dimension, and of its leaves those that are nearest to a value.
fn push_leaves(
    alloc: Global,
    text: &mut Text,
    dimension: &Dimension,
    value: &[u8],
) -> Result<(), NoMemory> {
    text.extend(b" of the dimension ")?;
    text.extend(dimension.name())?;
    let levels = dimension.levels();
    prove!(!levels.is_empty());
    let leaves = Choices::Members(dimension.members(0));
    push_nearest(alloc, text, value, leaves)
}

fn push_unknown(
    alloc: Global,
    text: &mut Text,
    dims: Option<&Dims>,
    row: &Row,
    column: &Text,
) -> Result<(), NoMemory> {
    push_value(text, row, column)?;
    text.extend(b" is no member")?;
    if let Some(dimension) = dimension_of(dims, column) {
        let value = row.value(column.as_slice()).unwrap_or(b"");
        push_leaves(alloc, text, dimension, value)?;
    }
    Ok(())
}

fn push_missing(
    alloc: Global,
    text: &mut Text,
    header: &ByteRecord,
    column: &Text,
) -> Result<(), NoMemory> {
    text.extend(b"the columns are ")?;
    push_columns(text, header)?;
    push_nearest(alloc, text, column.as_slice(), Choices::Columns(header))
}

// The number of the record that a fault is in; 0 is the header.
fn number_of(fault: &FactsFault) -> Option<u64> {
    match fault {
        FactsFault::MissingColumn { .. } => Some(0),
        FactsFault::Fields { row }
        | FactsFault::UnknownMember { row, .. }
        | FactsFault::BadValue { row, .. } => Some(*row),
        _ => None,
    }
}

fn push_fault(
    alloc: Global,
    text: &mut Text,
    dims: Option<&Dims>,
    row: &Row,
    fault: &FactsFault,
) -> Result<(), NoMemory> {
    match fault {
        FactsFault::Fields { .. } => push_lengths(text, row),
        FactsFault::UnknownMember { column, .. } => push_unknown(alloc, text, dims, row, column),
        FactsFault::BadValue { column, cause, .. } => {
            push_value(text, row, column)?;
            push_cause(text, dims, column, *cause)
        }
        FactsFault::MissingColumn { name } => push_missing(alloc, text, &row.header, name),
        _ => Ok(()),
    }
}

fn note_on_fault(
    alloc: Global,
    name: &Text,
    dims: Option<&Dims>,
    bytes: &[u8],
    fault: &FactsFault,
) -> Result<Text, NoMemory> {
    let mut text = Text::new(alloc);
    let Some(number) = number_of(fault) else {
        return Ok(text);
    };
    let Some(row) = find_row(alloc, bytes, number) else {
        return Ok(text);
    };
    push_where(&mut text, name, bytes, &row, number)?;
    push_fault(alloc, &mut text, dims, &row, fault)?;
    text.push(b'\n')?;
    Ok(text)
}

/// The note on a fact file under dimensions and measures: the line and the value of its first fault.
pub fn note_on_facts(
    alloc: Global,
    name: &Text,
    dims: &Dims,
    bytes: &[u8],
) -> Result<Text, NoMemory> {
    match read_facts(alloc, dims, bytes) {
        Ok(_) => Ok(Text::new(alloc)),
        Err(fault) => note_on_fault(alloc, name, Some(dims), bytes, &fault),
    }
}

/// The note on a fact file without dimensions.
pub fn note_on_flat(alloc: Global, name: &Text, bytes: &[u8]) -> Result<Text, NoMemory> {
    match read_flat(alloc, bytes) {
        Ok(_) => Ok(Text::new(alloc)),
        Err(fault) => note_on_fault(alloc, name, None, bytes, &fault),
    }
}
