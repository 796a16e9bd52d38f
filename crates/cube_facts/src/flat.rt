// Flat fact files: rows of fields and a value each, and sums over the rows that a line matches.
ghost use Rattle.std.specs.Prelude.{◌≡◌, ◌⊎◌, ◌<◌, ◌≤◌, ◌+◌, ◌-◌, ◌*◌, ◌^◌, ◌++◌, ◌∷◌, [], ℕ, length, take, pos, true, false, Some, None, ◌==◌, if◌then◌else◌, slice_index_or, All, position, count_by, IfOk, IfErr, IfSome, IfNone, OnOk};
ghost use Rattle.csv.specs.Records.{fields_of};
ghost use Rattle.cube_model.specs.Answers.{Answers};
ghost use Rattle.cube_model.specs.Cores.{IsSumOf};
ghost use Rattle.cube_model.specs.Protection.{first};
ghost use Rattle.cube_text.specs.Units.{units_of};
ghost use Rattle.cube_facts.specs.declared.fault.FactsFault.TheVariants as fault;
ghost use Rattle.cube_facts.specs.Flat.{last_field, row_faults, flat_of, parts, part_matches as part_test, matches, sum_of, reply_of};
ghost use Rattle.cube_facts.specs.Records.{ok_or_zero};
ghost use Rattle.cube_facts.specs.Table.{IsUnits, rows_in, IsTable, row_at, Keeps, kept_sum};

use crate::FactsFault;
use crate::records::{MAX_FACTS, has_second_mark, open_records};
use csv::ByteRecord;
use cube_model::{LimitKind, NoMemory, NumberedNames, Text};
use cube_text::read_units;
use std::alloc::Global;
use std::marker::Model;

/// A flat fact file: a row has a text for each dimension column, and a value.
#[derive(Drop)]
pub struct Flat {
    width: usize,
    fields: NumberedNames,
    values: Vec<i64>,
}

impl Model for Flat {
    ghost use Rattle.cube_facts.specs.Flat.{Flat};
    ghost use Rattle.cube_facts.specs.Table.{rows_in, IsTable};

    ghost Value = { Flat };

    ghost view = { λ f. record { width = f.width; rows = rows_in f.width f.fields f.values.items } };

    ghost invariant = { λ f. IsTable f.width f.fields f.values.items };
}

// The last field of a record, or no bytes where it has none.
fn last_of(row: &ByteRecord) -> &[u8]
    ensures { result.now ≡ last_field (fields_of row.now) }
{
    match row.get(row.len().saturating_sub(1)) {
        Some(field) => field,
        None => &[],
    }
}

// The value of a record behind so many others.
fn row_value(
    alloc: Global,
    row: &ByteRecord,
    columns: usize,
    last: &[u8],
    earlier: u64,
) -> Result<i64, FactsFault>
    requires { earlier < 2 ^ 64 - 1 }
    ensures ok { OnOk result (row_faults columns last.now earlier (fields_of row.now) ≡ []) }
    ensures value { IfOk result (λ value. value ≡ ok_or_zero (units_of 0 (last_field (fields_of row.now)))) }
    ensures bounded { IfOk result IsUnits }
    ensures long { OnOk result (length (fields_of row.now) ≡ columns) }
    ensures few { OnOk result (earlier < 1000000) }
    ensures err { IfErr result (λ e. (e ≡ fault.NoMemory) ⊎ (first (row_faults columns last.now earlier (fields_of row.now)) ≡ Some e)) }
{
    if earlier >= MAX_FACTS {
        return Err(FactsFault::Limit {
            which: LimitKind::Facts,
            number: MAX_FACTS,
        });
    }
    let number = earlier + 1;
    if row.len() != columns {
        return Err(FactsFault::Fields { row: number });
    }
    match read_units(last_of(row), 0) {
        Ok(value) => Ok(value),
        Err(cause) => {
            let column = Text::from_bytes(alloc, last)?;
            Err(FactsFault::BadValue {
                row: number,
                column,
                cause,
            })
        }
    }
}

// The names with the first fields of a record behind them.
fn with_fields(
    alloc: Global,
    names: NumberedNames,
    row: &ByteRecord,
    width: usize,
) -> Result<NumberedNames, NoMemory>
    requires { width ≤ length (fields_of row.now) }
    ensures { IfOk result (λ all. all ≡ names ++ take width (fields_of row.now)) }
{
    let mut all = names;
    for column in 0..width {
        let Some(field) = row.get(column) else {
            return Err(NoMemory);
        };
        all = all.with_name(alloc, field)?;
    }
    Ok(all)
}

/// The reply to a line.
#[derive(Clone, Copy, Debug, PartialEq, Eq)]
pub enum FlatReply {
    /// The sum of the values of the rows that match.
    Sum(i64),
    /// The line has another number of parts than there are dimension columns.
    Fields,
    /// The line has a double quote.
    Quote,
}

fn push_value(values: &mut Vec<i64>, value: i64) -> Result<(), NoMemory>
    ensures { OnOk result (values.new.items ≡ values.old.items ++ value ∷ []) }
{
    values.push(value)?;
    Ok(())
}

/// Reads a flat fact file: columns of texts, and last a column of whole numbers.
pub fn read_flat(alloc: Global, bytes: &[u8]) -> Result<Flat, FactsFault>
    ensures { Answers fault.NoMemory result (flat_of bytes.now) }
{
    if has_second_mark(bytes) {
        return Err(FactsFault::NoHeader);
    }
    let mut reader = open_records(alloc, bytes);
    let mut record = ByteRecord::new(alloc);
    match reader.read_byte_record(&mut record) {
        Ok(true) => {}
        Ok(false) => return Err(FactsFault::NoHeader),
        Err(_) => return Err(FactsFault::NoMemory),
    }
    let columns = record.len();
    if columns < 2 {
        return Err(FactsFault::NoHeader);
    }
    let column = Text::from_bytes(alloc, last_of(&record))?;
    let last = column.as_slice();
    let width = columns - 1;
    let mut fields = NumberedNames::new(alloc);
    let mut values = Vec::new(alloc);
    'records: for earlier in 0..u64::MAX {
        match reader.read_byte_record(&mut record) {
            Ok(true) => {}
            Ok(false) => {
                return Ok(Flat {
                    width,
                    fields,
                    values,
                });
            }
            Err(_) => return Err(FactsFault::NoMemory),
        }
        let value = match row_value(alloc, &record, columns, last, earlier) {
            Ok(value) => value,
            Err(fault) => return Err(fault),
        };
        fields = with_fields(alloc, fields, &record, width)?;
        push_value(&mut values, value)?;
    }
    Err(FactsFault::NoMemory)
}

fn find_comma(line: &[u8]) -> Option<usize>
    ensures { result ≡ position (λ b. b == 44) line.now }
{
    line.iter().position(|byte| *byte == b',')
}

fn count_commas(line: &[u8]) -> usize
    ensures { result ≡ count_by (λ b. b == 44) line.now }
{
    line.iter().filter(|byte| **byte == b',').count()
}

#[tactic(auto, using(crate::proofs::Parts::count_of_parts))]
fn count_parts(line: &[u8]) -> usize
    ensures { result ≡ length (parts line.now) }
{
    count_commas(line) + 1
}

// The first part of a line, and what stands behind its comma.
#[tactic(auto, using(crate::proofs::Parts::parts_some, crate::proofs::Parts::parts_none))]
fn cut_part(line: &[u8]) -> (&[u8], Option<&[u8]>)
    ensures more { IfSome result.1 (λ more. parts line.now ≡ result.0.now ∷ parts more.now) }
    ensures shorter { IfSome result.1 (λ more. length more.now < length line.now) }
    ensures last { IfNone result.1 (parts line.now ≡ result.0.now ∷ []) }
{
    match find_comma(line) {
        Some(at) => (&line[..at], Some(&line[at + 1..])),
        None => (line, None),
    }
}

// How many rows are looked at together.
const BLOCK: usize = 4096;

// Keeps those of the rows from one on that have this number in a column.
fn keep_equal(
    numbers: &[u32],
    wanted: usize,
    width: usize,
    column: usize,
    start: usize,
    kept: &mut [bool],
)
    requires column { column < width }
    requires long { (start + length kept.old) * width ≤ length numbers.now }
    ensures { Keeps (λ k. slice_index_or numbers.now ((start + k) * width + column) 0 == wanted) kept.old kept.new }
{
    for row in 0..kept.len() {
        if numbers[(start + row) * width + column] as usize != wanted {
            kept[row] = false;
        }
    }
}

// Keeps those of the rows from one on whose field in a column a part matches.
fn keep_where(
    fields: &NumberedNames,
    part: &[u8],
    width: usize,
    column: usize,
    start: usize,
    kept: &mut [bool],
)
    requires column { column < width }
    requires long { (start + length kept.old) * width ≤ length fields.now }
    ensures { Keeps (λ k. part_test part.now (slice_index_or fields.now ((start + k) * width + column) [])) kept.old kept.new }
{
    if part == b"*".as_slice() {
        return;
    }
    match fields.find(part) {
        Some(number) => keep_equal(fields.numbers(), number, width, column, start, kept),
        None => kept.fill(false),
    }
}

// Marks those of the rows from one on that a line matches.
fn mark_matching(fields: &NumberedNames, line: &[u8], width: usize, start: usize, kept: &mut [bool])
    requires parts { length (parts line.now) ≡ width }
    requires long { (start + length kept.old) * width ≤ length fields.now }
    ensures { (k : ℕ) → k < length kept.old → slice_index_or kept.new k false ≡ matches (parts line.now) (row_at width fields.now (start + k)) }
{
    kept.fill(true);
    let mut rest = line;
    let mut column = 0usize;
    'parts: loop {
        let (part, more) = cut_part(rest);
        keep_where(fields, part, width, column, start, kept);
        let Some(more) = more else {
            return;
        };
        rest = more;
        column += 1;
    }
}

fn kept_value(value: i64, keep: bool) -> i64
    requires { IsUnits value }
    ensures value { result ≡ (if keep then value else pos 0) }
    ensures bounded { IsUnits result }
{
    if keep { value } else { 0 }
}

fn sum_kept(values: &[i64], kept: &[bool]) -> i64
    requires same { length kept.now ≡ length values.now }
    requires few { length values.now ≤ 4096 }
    requires bounded { All IsUnits values.now }
    ensures sum { result ≡ kept_sum kept.now values.now }
    ensures bounded { IsSumOf (length values.now) result }
{
    let mut sum = 0i64;
    for (row, value) in values.iter().enumerate() {
        let more = kept_value(*value, kept[row]);
        sum += more;
    }
    sum
}

fn sum_rows(width: usize, fields: &NumberedNames, values: &[i64], line: &[u8]) -> i64
    requires table { IsTable width fields.now values.now }
    requires parts { length (parts line.now) ≡ width }
    ensures { result ≡ sum_of (parts line.now) (rows_in width fields.now values.now) }
{
    let mut kept = [false; BLOCK];
    let mut sum = 0i64;
    let mut start = 0usize;
    'blocks: while start < values.len() {
        let count = BLOCK.min(values.len() - start);
        mark_matching(fields, line, width, start, &mut kept[..count]);
        sum += sum_kept(&values[start..start + count], &kept[..count]);
        start += count;
    }
    sum
}

/// The reply to a line: the plain sum of the values of the rows that it matches. It takes no memory.
pub fn sum_flat(flat: &Flat, line: &[u8]) -> FlatReply
    ensures { result ≡ reply_of flat.now line.now }
{
    if line.contains(&b'"') {
        return FlatReply::Quote;
    }
    if count_parts(line) != flat.width {
        return FlatReply::Fields;
    }
    FlatReply::Sum(sum_rows(flat.width, &flat.fields, &flat.values, line))
}
