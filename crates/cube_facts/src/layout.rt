// Where the columns stand that dimensions and measures name, and what a record says in them.
ghost use Rattle.std.specs.Prelude.{◌≡◌, ◌⊎◌, ◌<◌, ◌≤◌, ◌+◌, ◌-◌, ◌^◌, [], ◌∷◌, ◌++◌, length, map, drop, take, zip, flat_map, count_by, unwrap_or, slice_index_or, All, IfOk, IfSome, OnOk, IfErr, Some, None, Ok, true};
ghost use Rattle.std.specs.Str.{bytes_eq};
ghost use Rattle.csv.specs.Records.{fields_of, field_at};
ghost use Rattle.cube_model.specs.Answers.{Answers};
ghost use Rattle.std.proofs.Props.{props};
ghost use Rattle.cube_model.specs.Checks.{unless};
ghost use Rattle.cube_model.specs.Protection.{first};
ghost use Rattle.cube_model.specs.Dims.{found, column_names, IsDims};
ghost use Rattle.cube_text.specs.Units.{units_of};
ghost use Rattle.cube_facts.specs.FactFile.{field_in, leaf_of, fact_of, own_faults, column_faults, leaf_faults, number_faults, field_faults};
ghost use Rattle.cube_facts.specs.Records.{value_faults};
ghost use Rattle.cube_facts.specs.Table.{IsUnits};
ghost use Rattle.cube_facts.specs.Tags.{tag_of, AreBytes, HasTags, HaveTags};
ghost use Rattle.cube_facts.specs.declared.fault.FactsFault.TheVariants as fault;

use crate::FactsFault;
use crate::plain::plain_units;
use crate::records::MAX_FACTS;
use crate::tags::{all_tags, tag_of};
use csv::ByteRecord;
use cube_model::{
    Dimension, Dims, Items, LimitKind, Measure, NoMemory, Recent, Text, Texts, Values,
};
use cube_text::{UnitFault, read_units};
use std::alloc::Global;

// The fields of a record.
fn texts_of(alloc: Global, row: &ByteRecord) -> Result<Texts, NoMemory>
    ensures { IfOk result (λ texts. texts ≡ fields_of row.now) }
{
    let mut texts = Items::new(alloc);
    for place in 0..row.len() {
        let Some(field) = row.get(place) else {
            return Err(NoMemory);
        };
        texts.push(Text::from_bytes(alloc, field)?)?;
    }
    Ok(texts)
}

// The names of the columns of dimensions, and behind them of measures.
fn needed_columns(alloc: Global, dims: &Dims) -> Result<Texts, NoMemory>
    ensures names { IfOk result (λ names. names ≡ column_names dims.now) }
    ensures rules { OnOk result (IsDims dims.now) }
{
    let mut names = Items::new(alloc);
    for dimension in dims.dimensions() {
        names.push(Text::from_bytes(alloc, dimension.column())?)?;
    }
    for measure in dims.measures() {
        names.push(Text::from_bytes(alloc, measure.column())?)?;
    }
    Ok(names)
}

fn count_named(header: &[Text], name: &[u8]) -> usize
    ensures { result ≡ count_by (bytes_eq name.now) header.now }
{
    header.iter().filter(|x| x.as_slice() == name).count()
}

fn place_named(header: &[Text], name: &[u8]) -> Option<usize>
    ensures { result ≡ found name.now header.now }
{
    header.iter().position(|x| x.as_slice() == name)
}

// The place of the one column with a name.
fn find_column(alloc: Global, header: &[Text], name: &[u8]) -> Result<usize, FactsFault>
    ensures { Answers fault.NoMemory result (unless (column_faults header.now name.now) (unwrap_or (found name.now header.now) 0)) }
{
    let count = count_named(header, name);
    if count == 0 {
        return Err(FactsFault::MissingColumn {
            name: Text::from_bytes(alloc, name)?,
        });
    }
    if count > 1 {
        return Err(FactsFault::ColumnTwice {
            name: Text::from_bytes(alloc, name)?,
        });
    }
    Ok(place_named(header, name).unwrap_or(0))
}

// The places of some columns, each of which there is once.
fn find_columns(alloc: Global, header: &[Text], names: &[Text]) -> Result<Items<usize>, FactsFault>
    ensures { Answers fault.NoMemory result (unless (flat_map (column_faults header.now) names.now) (map (λ name. unwrap_or (found name header.now) 0) names.now)) }
{
    let mut places = Items::new(alloc);
    for name in names {
        places.push(find_column(alloc, header, name.as_slice())?)?;
    }
    Ok(places)
}

// The field in a place, or no bytes where there is none.
fn field_of(row: &ByteRecord, place: usize) -> &[u8]
    ensures { result.now ≡ unwrap_or (field_at (fields_of row.now) place) [] }
{
    match row.get(place) {
        Some(field) => field,
        None => &[],
    }
}

// The number of the leaf of a name.
fn find_leaf(dimension: &Dimension, name: &[u8]) -> Option<u32>
    ensures { result ≡ leaf_of dimension.now name.now }
{
    let levels = dimension.levels();
    prove!(!levels.is_empty());
    match dimension.members(0).find(name) {
        Some(number) => Some(number as u32),
        None => None,
    }
}

// Whether a leaf has a name.
fn is_leaf(dimension: &Dimension, leaf: usize, name: &[u8]) -> bool
    ensures { result ≡ true → leaf_of dimension.now name.now ≡ Some leaf }
{
    let levels = dimension.levels();
    prove!(!levels.is_empty());
    let names = dimension.members(0);
    leaf < names.count() && names.name(leaf) == name
}

// Whether a leaf has a name. Short names are compared by their tags alone.
fn is_known(dimension: &Dimension, tags: &[u64], leaf: usize, tag: u64, name: &[u8]) -> bool
    requires tags { HasTags dimension.now tags.now }
    requires tag { tag ≡ tag_of name.now }
    requires bytes { AreBytes name.now }
    ensures { result ≡ true → leaf_of dimension.now name.now ≡ Some leaf }
{
    if tag == 0 {
        return is_leaf(dimension, leaf, name);
    }
    leaf < tags.len() && tags[leaf] == tag
}

// So many slots are used for short names, a prime number.
const SHORT_SLOTS: u64 = 16_381;

fn slot_of(recent: &Recent, number: usize, tag: u64, name: &[u8]) -> usize {
    if tag == 0 {
        return recent.slot(number, name);
    }
    (tag.wrapping_add(number as u64) % SHORT_SLOTS) as usize
}

// The number of the leaf of a name. Where the name is that of the leaf that was found last in its slot, nothing else is
// looked at.
fn find_recent(
    recent: &mut Recent,
    number: usize,
    dimension: &Dimension,
    tags: &[u64],
    name: &[u8],
) -> Option<u32>
    requires { HasTags dimension.now tags.now }
    ensures { result ≡ leaf_of dimension.now name.now }
{
    let tag = tag_of(name);
    let slot = slot_of(recent, number, tag, name);
    if let Some(guess) = recent.guess(slot) {
        if guess <= u32::MAX as usize && is_known(dimension, tags, guess, tag, name) {
            return Some(guess as u32);
        }
    }
    let found = find_leaf(dimension, name);
    if let Some(leaf) = found {
        recent.note(slot, leaf as usize);
    }
    found
}

// The units of a number.
fn find_units(measure: &Measure, number: &[u8]) -> Result<i64, UnitFault>
    ensures said { result ≡ units_of measure.now.decimals number.now }
    ensures bounded { IfOk result IsUnits }
{
    match plain_units(number, measure.decimals()) {
        Some(units) => Ok(units),
        None => read_units(number, measure.decimals()),
    }
}

// Checks a field as a leaf of a dimension, where its column is for that.
fn check_leaf(
    alloc: Global,
    dimension: &Dimension,
    name: &[u8],
    field: &[u8],
    row: u64,
) -> Result<(), FactsFault>
    ensures { Answers fault.NoMemory result (unless (leaf_faults row (name.now, field.now) dimension.now) tt) }
{
    if dimension.column() != name || find_leaf(dimension, field).is_some() {
        return Ok(());
    }
    Err(FactsFault::UnknownMember {
        row,
        column: Text::from_bytes(alloc, name)?,
    })
}

fn check_leaves(
    alloc: Global,
    dimensions: &[Dimension],
    name: &[u8],
    field: &[u8],
    row: u64,
) -> Result<(), FactsFault>
    ensures { Answers fault.NoMemory result (unless (flat_map (leaf_faults row (name.now, field.now)) dimensions.now) tt) }
{
    for dimension in dimensions {
        check_leaf(alloc, dimension, name, field, row)?;
    }
    Ok(())
}

// Checks a field as a number of a measure, where its column is for that.
fn check_number(
    alloc: Global,
    measure: &Measure,
    name: &[u8],
    field: &[u8],
    row: u64,
) -> Result<(), FactsFault>
    ensures { Answers fault.NoMemory result (unless (number_faults row (name.now, field.now) measure.now) tt) }
{
    if measure.column() != name {
        return Ok(());
    }
    match find_units(measure, field) {
        Ok(_) => Ok(()),
        Err(cause) => Err(FactsFault::BadValue {
            row,
            column: Text::from_bytes(alloc, name)?,
            cause,
        }),
    }
}

fn check_numbers(
    alloc: Global,
    measures: &[Measure],
    name: &[u8],
    field: &[u8],
    row: u64,
) -> Result<(), FactsFault>
    ensures { Answers fault.NoMemory result (unless (flat_map (number_faults row (name.now, field.now)) measures.now) tt) }
{
    for measure in measures {
        check_number(alloc, measure, name, field, row)?;
    }
    Ok(())
}

// Checks a field under a column.
fn check_field(
    alloc: Global,
    dims: &Dims,
    name: &[u8],
    field: &[u8],
    row: u64,
) -> Result<(), FactsFault>
    ensures { Answers fault.NoMemory result (unless (field_faults dims.now row (name.now, field.now)) tt) }
{
    check_leaves(alloc, dims.dimensions(), name, field, row)?;
    check_numbers(alloc, dims.measures(), name, field, row)
}

fn push_unit(units: &mut Vec<i64>, unit: i64) -> Result<(), NoMemory>
    ensures { OnOk result (units.new.items ≡ units.old.items ++ unit ∷ []) }
{
    units.push(unit)?;
    Ok(())
}

/// Where the columns stand that dimensions and measures name.
#[derive(Drop)]
pub(crate) struct Layout<'a> {
    dims: &'a Dims,
    header: Texts,
    places: Items<usize>,
    tags: Items<Items<u64>>,
    ghost found: { places ≡ map (λ name. unwrap_or (found name header) 0) (column_names dims.now) } by { Prim.hlevel props },
    ghost once: { flat_map (column_faults header) (column_names dims.now) ≡ [] } by { Prim.hlevel props },
    ghost tagged: { HaveTags dims.now tags } by { Prim.hlevel props },
}

impl<'a> Layout<'a> {
    /// The layout of a header.
    pub(crate) fn read(
        alloc: Global,
        dims: &'a Dims,
        row: &ByteRecord,
    ) -> Result<Layout<'a>, FactsFault>
        ensures ok { IfOk result (λ layout. (layout.header ≡ fields_of row.now) × (layout.dims.now ≡ dims.now)) }
        ensures rules { OnOk result (IsDims dims.now) }
        ensures err { IfErr result (λ e. (e ≡ fault.NoMemory) ⊎ (first (flat_map (column_faults (fields_of row.now)) (column_names dims.now)) ≡ Some e)) }
    {
        let header = texts_of(alloc, row)?;
        let names = needed_columns(alloc, dims)?;
        let places = find_columns(alloc, header.as_slice(), names.as_slice())?;
        let tags = all_tags(alloc, dims)?;
        Ok(Layout {
            dims,
            header,
            places,
            tags,
        })
    }

    // The field of a record in the column with a number among those that are needed.
    fn field_under<'b>(&self, row: &'b ByteRecord, number: usize) -> &'b [u8]
        requires { number < length (column_names self.now.dims.now) }
        ensures { result.now ≡ field_in self.now.header (fields_of row.now) (slice_index_or (column_names self.now.dims.now) number []) }
    {
        field_of(row, self.places.as_slice()[number])
    }

    // Takes the leaves that a record names in the place of others, and whether it lacks none.
    fn take_leaves(
        &self,
        row: &ByteRecord,
        recent: &mut Recent,
        leaves: &mut Vec<u32>,
    ) -> Result<bool, NoMemory>
        ensures { IfOk result (λ whole. whole ≡ true → map (λ d. leaf_of d (field_in self.now.header (fields_of row.now) d.column)) self.now.dims.now.dimensions ≡ map Some leaves.new.items) }
    {
        leaves.clear();
        for (number, dimension) in self.dims.dimensions().iter().enumerate() {
            let name = self.field_under(row, number);
            let tags = self.tags.as_slice()[number].as_slice();
            let Some(leaf) = find_recent(recent, number, dimension, tags, name) else {
                return Ok(false);
            };
            leaves.push(leaf)?;
        }
        Ok(true)
    }

    // Takes the units that a record names in the place of others, and whether it lacks none.
    fn take_units(&self, row: &ByteRecord, units: &mut Vec<i64>) -> Result<bool, NoMemory>
        ensures said { IfOk result (λ whole. whole ≡ true → map (λ m. units_of m.decimals (field_in self.now.header (fields_of row.now) m.column)) self.now.dims.now.measures ≡ map Ok units.new.items) }
        ensures bounded { IfOk result (λ whole. whole ≡ true → All IsUnits units.new.items) }
    {
        units.clear();
        let first = self.dims.dimensions().len();
        for (number, measure) in self.dims.measures().iter().enumerate() {
            let Ok(unit) = find_units(measure, self.field_under(row, first + number)) else {
                return Ok(false);
            };
            push_unit(units, unit)?;
        }
        Ok(true)
    }

    // Checks the fields of a record in the order of the header.
    fn check_fields(&self, alloc: Global, row: &ByteRecord, number: u64) -> Result<(), FactsFault>
        requires { length (fields_of row.now) ≡ length self.now.header }
        ensures { Answers fault.NoMemory result (unless (flat_map (field_faults self.now.dims.now number) (zip self.now.header (fields_of row.now))) tt) }
    {
        for (column, name) in self.header.as_slice().iter().enumerate() {
            check_field(
                alloc,
                self.dims,
                name.as_slice(),
                field_of(row, column),
                number,
            )?;
        }
        Ok(())
    }

    /// Takes what a record says behind so many others: a leaf of each dimension, and the units of each measure.
    pub(crate) fn read_fact(
        &self,
        alloc: Global,
        row: &ByteRecord,
        earlier: u64,
        recent: &mut Recent,
        leaves: &mut Vec<u32>,
        units: &mut Vec<i64>,
    ) -> Result<(), FactsFault>
        requires { earlier < 2 ^ 64 - 1 }
        ensures fact { OnOk result (record { leaves = leaves.new.items; units = units.new.items } ≡ fact_of self.now.dims.now self.now.header (fields_of row.now)) }
        ensures bounded { OnOk result (All IsUnits units.new.items) }
        ensures few { OnOk result (earlier < 1000000) }
        ensures ok { OnOk result (own_faults self.now.dims.now self.now.header earlier (fields_of row.now) ≡ []) }
        ensures err { IfErr result (λ e. (e ≡ fault.NoMemory) ⊎ (first (own_faults self.now.dims.now self.now.header earlier (fields_of row.now)) ≡ Some e)) }
    {
        if earlier >= MAX_FACTS {
            return Err(FactsFault::Limit {
                which: LimitKind::Facts,
                number: MAX_FACTS,
            });
        }
        if row.len() != self.header.len() {
            return Err(FactsFault::Fields { row: earlier + 1 });
        }
        if self.take_leaves(row, recent, leaves)? && self.take_units(row, units)? {
            Ok(())
        } else {
            Err(self.first_fault(alloc, row, earlier + 1))
        }
    }

    // The first fault of a record's fields, where there is one.
    fn first_fault(&self, alloc: Global, row: &ByteRecord, number: u64) -> FactsFault
        requires { length (fields_of row.now) ≡ length self.now.header }
        ensures { (result ≡ fault.NoMemory) ⊎ (first (flat_map (field_faults self.now.dims.now number) (zip self.now.header (fields_of row.now))) ≡ Some result) }
    {
        match self.check_fields(alloc, row, number) {
            Ok(()) => FactsFault::NoMemory,
            Err(fault) => fault,
        }
    }
}
