// What the columns of a fact file hold: members, or numbers alone.
ghost use Rattle.std.specs.Prelude.{◌≡◌, ◌<◌, ◌-◌, ◌^◌, ◌++◌, ◌∷◌, [], ℕ, true, false, length, slice_index_or, IfOk, OnOk};
ghost use Rattle.std.specs.List.{after_first, position};
ghost use Rattle.csv.specs.Reading.{strip_bom};
ghost use Rattle.csv.specs.Records.{fields_of};
ghost use Rattle.cube_model.specs.Names.{begins_with_mark};
ghost use Rattle.cube_draft.specs.Drafts.{field_of, is_point, written_decimals as written_with};
ghost use Rattle.cube_draft.specs.Kept.{AreNumbers, Grows, Holds, IsNumber, Scanned, Shown};

use crate::choices::Choices;
use crate::columns::{MAX_COLUMNS, field_at, marks_of, no_header, read_header, stated_places};
use crate::fault::DraftFault;
use csv::ByteRecord;
use cube_facts::{FactsFault, MAX_FACTS, has_second_mark, open_records};
use cube_model::{LimitKind, NoMemory, NumberedNames, Text, Texts};
use cube_text::{UnitFault, read_units};
use std::alloc::Global;

/// The columns of a fact file: of each its name, whether it has members, its fields where it has,
/// and the decimals of its numbers where it has none. A table is sound where each of these numbers
/// was read, and is not too large.
#[derive(Drop)]
pub(crate) struct Table {
    pub(crate) header: Texts,
    pub(crate) members: Vec<bool>,
    pub(crate) fields: Vec<NumberedNames>,
    pub(crate) decimals: Vec<u32>,
    pub(crate) rows: usize,
    pub(crate) sound: bool,
}

// What a pass over the records finds.
#[derive(Drop)]
struct Found {
    fields: Vec<NumberedNames>,
    decimals: Vec<u32>,
    // The columns that hold something else than numbers, against what they were taken for.
    turned: Vec<bool>,
    rows: usize,
    // Whether each field of a column of numbers was read by the decimals that it began with.
    sound: bool,
}

// What a look at the first records finds.
#[derive(Drop)]
struct First {
    members: Vec<bool>,
    decimals: Vec<u32>,
}

// The most records of a first look, which spares another pass where it tells the members and the
// decimals well.
const FIRST_RECORDS: usize = 1_000;

fn find_point(field: &[u8]) -> Option<usize>
    ensures { result ≡ position is_point field.now }
{
    field.iter().position(|byte| *byte == b'.')
}

// What stands behind the first point of a field.
fn behind_point(field: &[u8]) -> &[u8]
    ensures { result.now ≡ after_first is_point field.now }
{
    match find_point(field) {
        Some(at) => &field[at + 1..],
        None => &[],
    }
}

// How many decimals a field is written with, at most 6.
fn written_decimals(field: &[u8]) -> u32
    ensures { result ≡ written_with field.now }
{
    behind_point(field).len().min(6) as u32
}

/// The least decimals, so many or more and no fewer than it is written with, by which a field is
/// read as a number, also as one that is too large.
pub(crate) fn decimals_from(field: &[u8], least: u32) -> Option<u32> {
    for decimals in least.max(written_decimals(field))..7 {
        match read_units(field, decimals) {
            Err(UnitFault::TooFine) => {}
            Err(UnitFault::Syntax) => return None,
            Ok(_) | Err(UnitFault::TooLarge) => return Some(decimals),
        }
    }
    None
}

// Columns without a field.
fn no_fields(alloc: Global, width: usize) -> Result<Vec<NumberedNames>, NoMemory>
    ensures long { IfOk result (λ columns. length columns.items ≡ width) }
    ensures empty { IfOk result (λ columns. (k : ℕ) → slice_index_or columns.items k [] ≡ []) }
{
    let mut columns = Vec::new(alloc);
    for place in 0..width {
        columns.push(NumberedNames::new(alloc))?;
    }
    Ok(columns)
}

// Adds a field of a record to those of its column.
fn push_field(
    alloc: Global,
    column: &mut NumberedNames,
    row: &ByteRecord,
    place: usize,
) -> Result<(), NoMemory>
    ensures { OnOk result (column.new ≡ column.old ++ field_of place (fields_of row.now) ∷ []) }
{
    let Some(field) = row.get(place) else {
        return Err(NoMemory);
    };
    if column.len() > u32::MAX as usize {
        return Err(NoMemory);
    }
    column.push(alloc, field)
}

// Adds the fields of a record to those of the columns with members.
fn push_fields(
    alloc: Global,
    columns: &mut Vec<NumberedNames>,
    members: &[bool],
    row: &ByteRecord,
) -> Result<(), NoMemory>
    requires { length members.now ≡ length columns.old.items }
    ensures long { length columns.new.items ≡ length columns.old.items }
    ensures grows { OnOk result (Grows members.now (fields_of row.now) columns.old.items columns.new.items) }
{
    for place in 0..members.len() {
        if members[place] {
            push_field(alloc, &mut columns[place], row, place)?;
        }
    }
    Ok(())
}

// Whether a field is read as a number of so many decimals, and is written with no more.
fn is_number(field: &[u8], decimals: u32) -> bool
    ensures { result ≡ true → IsNumber decimals field.now }
{
    written_decimals(field) <= decimals && decimals <= 6 && read_units(field, decimals).is_ok()
}

// Whether both are true.
fn both(one: bool, other: bool) -> bool
    ensures one { result ≡ true → one ≡ true }
    ensures other { result ≡ true → other ≡ true }
{
    one && other
}

// Notes a field of a column of numbers, and whether it is one of the decimals that the others have.
fn note_field(decimals: &mut Vec<u32>, turned: &mut Vec<bool>, place: usize, field: &[u8]) -> bool
    requires decimals { place < length decimals.old.items }
    requires turned { place < length turned.old.items }
    ensures decimals { length decimals.new.items ≡ length decimals.old.items }
    ensures turned { length turned.new.items ≡ length turned.old.items }
    ensures steady { result ≡ true → decimals.new.items ≡ decimals.old.items }
    ensures read { result ≡ true → IsNumber (slice_index_or decimals.old.items place 0) field.now }
{
    if is_number(field, decimals[place]) {
        return true;
    }
    if !turned[place] {
        match decimals_from(field, decimals[place]) {
            Some(more) => decimals[place] = more,
            None => turned[place] = true,
        }
    }
    false
}

// Notes the field of a record in a column, where that has numbers.
fn note_column(
    decimals: &mut Vec<u32>,
    turned: &mut Vec<bool>,
    members: &[bool],
    place: usize,
    row: &ByteRecord,
) -> bool
    requires place { place < length members.now }
    requires decimals { length members.now ≡ length decimals.old.items }
    requires turned { length members.now ≡ length turned.old.items }
    ensures decimals { length decimals.new.items ≡ length decimals.old.items }
    ensures turned { length turned.new.items ≡ length turned.old.items }
    ensures steady { result ≡ true → decimals.new.items ≡ decimals.old.items }
    ensures read { result ≡ true → slice_index_or members.now place false ≡ false → IsNumber (slice_index_or decimals.old.items place 0) (field_of place (fields_of row.now)) }
{
    if members[place] {
        return true;
    }
    note_field(decimals, turned, place, field_at(row, place))
}

// Notes the fields of a record in the columns of numbers, and whether each is one of the decimals
// that the others have.
fn note_fields(
    decimals: &mut Vec<u32>,
    turned: &mut Vec<bool>,
    members: &[bool],
    row: &ByteRecord,
) -> bool
    requires decimals { length members.now ≡ length decimals.old.items }
    requires turned { length members.now ≡ length turned.old.items }
    ensures decimals { length decimals.new.items ≡ length decimals.old.items }
    ensures turned { length turned.new.items ≡ length turned.old.items }
    ensures steady { result ≡ true → decimals.new.items ≡ decimals.old.items }
    ensures read { result ≡ true → AreNumbers members.now decimals.old.items (fields_of row.now) }
{
    let mut sound = true;
    for place in 0..members.len() {
        let read = note_column(decimals, turned, members, place, row);
        sound = both(sound, read);
    }
    sound
}

// Checks a record behind so many others.
fn check_record(row: &ByteRecord, width: usize, earlier: u64) -> Result<(), DraftFault>
    requires { earlier < 2 ^ 64 - 1 }
    ensures few { OnOk result (earlier < 1000000) }
    ensures wide { OnOk result (length (fields_of row.now) ≡ width) }
{
    if earlier >= MAX_FACTS {
        return Err(DraftFault::Facts {
            fault: FactsFault::Limit {
                which: LimitKind::Facts,
                number: MAX_FACTS,
            },
        });
    }
    if row.len() != width {
        return Err(DraftFault::Facts {
            fault: FactsFault::Fields { row: earlier + 1 },
        });
    }
    Ok(())
}

// Passes over the records, where the columns that are marked have members, and the numbers of the
// others so many decimals or more.
fn scan(alloc: Global, bytes: &[u8], members: &[bool], least: Vec<u32>) -> Result<Found, DraftFault>
    requires { length members.now ≡ length least.items }
    ensures scanned { IfOk result (λ found. Scanned bytes.now members.now found.fields.items found.rows found.decimals.items found.sound) }
    ensures decimals { IfOk result (λ found. length found.decimals.items ≡ length members.now) }
{
    let columns = members.len();
    let mut reader = open_records(alloc, bytes);
    let mut row = ByteRecord::new(alloc);
    match reader.read_byte_record(&mut row) {
        Ok(true) => {}
        Ok(false) => return Err(no_header()),
        Err(_) => return Err(DraftFault::NoMemory),
    }
    let width = row.len();
    let mut fields = no_fields(alloc, columns)?;
    let mut decimals = least;
    let mut turned = vec![in alloc; false; columns]?;
    let mut sound = true;
    'records: for earlier in 0..u64::MAX {
        match reader.read_byte_record(&mut row) {
            Ok(true) => {}
            Ok(false) => {
                return Ok(Found {
                    fields,
                    decimals,
                    turned,
                    rows: earlier as usize,
                    sound,
                });
            }
            Err(_) => return Err(DraftFault::NoMemory),
        }
        check_record(&row, width, earlier)?;
        push_fields(alloc, &mut fields, members, &row)?;
        let read = note_fields(&mut decimals, &mut turned, members, &row);
        sound = both(sound, read);
    }
    Err(DraftFault::NoMemory)
}

// Marks also those that another list marks.
fn mark_turned(members: &mut Vec<bool>, turned: &[bool])
    ensures { length members.new.items ≡ length members.old.items }
{
    for (place, mark) in turned.iter().enumerate() {
        if *mark && place < members.len() {
            members[place] = true;
        }
    }
}

// Looks at the first records: which columns have something else than numbers there, beside those
// that are marked, and how many decimals the numbers of the others have.
fn look_first(alloc: Global, bytes: &[u8], marks: &[bool]) -> Result<First, DraftFault>
    ensures { IfOk result (λ first. length first.decimals.items ≡ length first.members.items) }
{
    let mut reader = open_records(alloc, bytes);
    let mut row = ByteRecord::new(alloc);
    match reader.read_byte_record(&mut row) {
        Ok(true) => {}
        Ok(false) => return Err(no_header()),
        Err(_) => return Err(DraftFault::NoMemory),
    }
    match reader.read_byte_record(&mut row) {
        Ok(true) => {}
        Ok(false) => return Err(DraftFault::NoRecord),
        Err(_) => return Err(DraftFault::NoMemory),
    }
    let mut decimals = vec![in alloc; 0u32; marks.len()]?;
    let mut turned = vec![in alloc; false; marks.len()]?;
    for _ in 0..FIRST_RECORDS {
        note_fields(&mut decimals, &mut turned, marks, &row);
        match reader.read_byte_record(&mut row) {
            Ok(true) => {}
            Ok(false) => break,
            Err(_) => return Err(DraftFault::NoMemory),
        }
    }
    let mut members = Vec::from_slice(alloc, marks)?;
    mark_turned(&mut members, turned.as_slice());
    Ok(First { members, decimals })
}

/// The columns of a fact file. Those that are left out are kept as if they had members. A file is passed over once more where a column begins with numbers
/// and has another field behind them, or finer ones.
pub(crate) fn read_columns(
    alloc: Global,
    bytes: &[u8],
    choices: &Choices,
) -> Result<Table, DraftFault>
    ensures holds { IfOk result (λ table. Holds bytes.now table.header table.members.items table.fields.items table.rows) }
    ensures shown { IfOk result (λ table. table.sound ≡ true → Shown bytes.now table.header table.members.items table.fields.items table.rows table.decimals.items) }
    ensures unmarked { OnOk result (begins_with_mark (strip_bom bytes.now) ≡ false) }
{
    let header = read_header(alloc, bytes, choices.skipped.len())?;
    let stated = stated_places(alloc, header.as_slice(), choices)?;
    let marks = marks_of(alloc, header.len(), stated.as_slice())?;
    let first = look_first(alloc, bytes, marks.as_slice())?;
    let mut members = first.members;
    let mut decimals = first.decimals;
    for pass in 0..=MAX_COLUMNS {
        let found = scan(alloc, bytes, members.as_slice(), decimals)?;
        if !found.turned.contains(&true) && (found.sound || pass > 0) {
            return Ok(Table {
                header,
                members,
                fields: found.fields,
                decimals: found.decimals,
                rows: found.rows,
                sound: found.sound,
            });
        }
        mark_turned(&mut members, found.turned.as_slice());
        decimals = found.decimals;
    }
    Err(DraftFault::NoMemory)
}
