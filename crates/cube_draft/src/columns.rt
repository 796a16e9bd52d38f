// The columns of a fact file by their names, and what is stated of them.
ghost use Rattle.std.specs.Prelude.{◌≡◌, [], false, slice_index_or, position, IfOk, OnOk};
ghost use Rattle.std.specs.Str.{bytes_eq};
ghost use Rattle.csv.specs.Reading.{strip_bom};
ghost use Rattle.csv.specs.Records.{fields_of};
ghost use Rattle.cube_model.specs.Names.{begins_with_mark};
ghost use Rattle.cube_draft.specs.Drafts.{field_of};
ghost use Rattle.cube_draft.specs.Kept.{Begins};

use crate::choices::{Choices, Stated};
use crate::fault::DraftFault;
use csv::ByteRecord;
use cube_dims::is_name;
use cube_facts::{FactsFault, has_second_mark, open_records};
use cube_model::{Items, NoMemory, NumberedNames, Text, Texts};
use std::alloc::Global;

/// The most columns that are not left out: one for each level of each dimension, and one for each measure.
pub(crate) const MAX_COLUMNS: usize = 56;

/// The place of the finest of some columns.
pub(crate) fn finest_of(columns: &[usize]) -> usize
    ensures { result ≡ slice_index_or columns.now 0 0 }
{
    match columns {
        [finest, ..] => *finest,
        [] => 0,
    }
}

/// A copy of a name.
pub(crate) fn copy_name(alloc: Global, name: &[u8]) -> Result<Text, NoMemory>
    ensures { IfOk result (λ text. text ≡ name.now) }
{
    Text::from_bytes(alloc, name)
}

/// The place of a column.
pub(crate) fn place_of(header: &[Text], name: &[u8]) -> Option<usize>
    ensures { result ≡ position (bytes_eq name.now) header.now }
{
    header.iter().position(|x| name == x.as_slice())
}

/// The name of the column in a place, or no bytes where there is none.
pub(crate) fn name_at(header: &[Text], place: usize) -> &[u8]
    ensures { result.now ≡ slice_index_or header.now place [] }
{
    match header.get(place) {
        Some(name) => name.as_slice(),
        None => &[],
    }
}

/// The field in a place, or no bytes where there is none.
pub(crate) fn field_at(row: &ByteRecord, place: usize) -> &[u8]
    ensures { result.now ≡ field_of place (fields_of row.now) }
{
    match row.get(place) {
        Some(field) => field,
        None => &[],
    }
}

// The names of the columns, each of which is a name.
fn names_of(alloc: Global, row: &ByteRecord) -> Result<Texts, DraftFault>
    ensures { IfOk result (λ names. names ≡ fields_of row.now) }
{
    let mut names = Items::new(alloc);
    for place in 0..row.len() {
        let Some(name) = row.get(place) else {
            return Err(DraftFault::NoMemory);
        };
        if !is_name(name) {
            return Err(DraftFault::BadColumn {
                number: place as u64 + 1,
            });
        }
        names.push(copy_name(alloc, name)?)?;
    }
    Ok(names)
}

// Checks that no name stands twice.
fn check_once(alloc: Global, header: &[Text]) -> Result<(), DraftFault> {
    for (place, name) in header.iter().enumerate() {
        if place_of(header, name.as_slice()) != Some(place) {
            return Err(DraftFault::ColumnTwice {
                name: copy_name(alloc, name.as_slice())?,
            });
        }
    }
    Ok(())
}

/// The names of the columns of a fact file, of which so many are left out.
pub(crate) fn read_header(alloc: Global, bytes: &[u8], skipped: usize) -> Result<Texts, DraftFault>
    ensures begins { IfOk result (λ header. Begins bytes.now header) }
    ensures unmarked { OnOk result (begins_with_mark (strip_bom bytes.now) ≡ false) }
{
    if has_second_mark(bytes) {
        return Err(no_header());
    }
    let mut reader = open_records(alloc, bytes);
    let mut row = ByteRecord::new(alloc);
    match reader.read_byte_record(&mut row) {
        Ok(true) => {}
        Ok(false) => return Err(no_header()),
        Err(_) => return Err(DraftFault::NoMemory),
    }
    if row.len() > MAX_COLUMNS.saturating_add(skipped) {
        return Err(DraftFault::Columns {
            number: MAX_COLUMNS as u64,
        });
    }
    let header = names_of(alloc, &row)?;
    check_once(alloc, header.as_slice())?;
    Ok(header)
}

/// The fault of a file without a header.
pub(crate) fn no_header() -> DraftFault {
    DraftFault::Facts {
        fault: FactsFault::NoHeader,
    }
}

// Adds the places of some columns that are stated.
fn add_stated(
    alloc: Global,
    header: &[Text],
    names: &[Text],
    places: &mut Items<usize>,
) -> Result<(), DraftFault> {
    for name in names {
        let Some(place) = place_of(header, name.as_slice()) else {
            return Err(DraftFault::UnknownColumn {
                name: copy_name(alloc, name.as_slice())?,
            });
        };
        if places.as_slice().contains(&place) {
            return Err(DraftFault::StatedTwice {
                name: copy_name(alloc, name.as_slice())?,
            });
        }
        places.push(place)?;
    }
    Ok(())
}

/// The places of the columns that are stated, each of them once: those that are left out too.
pub(crate) fn stated_places(
    alloc: Global,
    header: &[Text],
    choices: &Choices,
) -> Result<Items<usize>, DraftFault> {
    let mut places = Items::new(alloc);
    for stated in choices.dimensions.as_slice() {
        add_stated(alloc, header, stated.columns.as_slice(), &mut places)?;
    }
    add_stated(alloc, header, choices.members.as_slice(), &mut places)?;
    add_stated(alloc, header, choices.skipped.as_slice(), &mut places)?;
    Ok(places)
}

/// The places of the columns of a dimension that is stated.
pub(crate) fn places_of(
    alloc: Global,
    header: &[Text],
    stated: &Stated,
) -> Result<Items<usize>, DraftFault> {
    let mut places = Items::new(alloc);
    add_stated(alloc, header, stated.columns.as_slice(), &mut places)?;
    Ok(places)
}

/// For each column whether its place is one of these.
pub(crate) fn marks_of(
    alloc: Global,
    width: usize,
    places: &[usize],
) -> Result<Vec<bool>, NoMemory> {
    let mut marks = Vec::new(alloc);
    for place in 0..width {
        marks.push(places.contains(&place))?;
    }
    Ok(marks)
}
