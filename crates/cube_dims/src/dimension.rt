// One dimension of a dimension file.
ghost use Rattle.std.specs.Prelude.{◌≡◌, ◌+◌, ◌<◌, ◌^◌, [], length, take, not, codes, slice_index_or, unwrap_or, IfOk};
ghost use Rattle.std.specs.List.{list_any};
ghost use Rattle.std.specs.Str.{bytes_eq};
ghost use Rattle.toml.specs.View.{table_view};
ghost use Rattle.cube_model.specs.Answers.{Answers};
ghost use Rattle.cube_model.specs.Checks.{check, in_turn, unless};
ghost use Rattle.cube_model.specs.Names.{is_name};
ghost use Rattle.cube_model.specs.Dims.{ancestor_names, IsDimension};
ghost use Rattle.cube_tables.specs.Tables.{key_of, under};
ghost use Rattle.cube_dims.specs.DimsFile.{dimension_in, dimension_of, dimension_kinds, stands_in, bad_level, level_twice, bad_names, names_twice, size_faults, named_faults, dimension_faults};
ghost use Rattle.cube_dims.specs.declared.fault.DimsFault.TheVariants as fault;

use crate::fault::DimsFault;
use crate::names::{is_level_name, is_name};
use crate::paths::{check_paths, members_of};
use cube_model::{Dimension, Items, LimitKind, NoMemory, NumberedNames, Text, Texts};
use cube_tables::{
    entry_text, item_text, key_text, read_lists, read_optional_text, read_text, read_texts,
};
use std::alloc::Global;
use std::marker::Model;
use toml::Table;

/// What the table of a dimension has, before its names are looked at.
#[derive(Drop)]
pub(crate) struct Parts {
    name: Text,
    column: Text,
    levels: Texts,
    paths: Items<Texts>,
}

impl Model for Parts {
    ghost use Rattle.cube_model.specs.Dims.{NamedDimension};

    ghost Value = { NamedDimension };

    ghost view = { λ d. record { name = d.name; column = d.column; levels = d.levels; paths = d.paths } };
}

impl Parts {
    /// The names of the levels.
    pub(crate) fn levels(&self) -> &[Text]
        ensures { result.now ≡ self.now.levels }
    {
        self.levels.as_slice()
    }

    /// The paths.
    pub(crate) fn paths(&self) -> &[Texts]
        ensures { result.now ≡ self.now.paths }
    {
        self.paths.as_slice()
    }

    /// The dimension of parts that keep the rules, with the members of each level.
    fn into_dimension(self, members: Items<NumberedNames>) -> Dimension
        requires rules { IsDimension self }
        requires members { members ≡ ancestor_names self }
        ensures { result ≡ self }
    {
        let Parts {
            name,
            column,
            levels,
            paths,
        } = self;
        Dimension::from_parts(name, column, levels, paths, members)
    }
}

/// The column that is stated, or else the first of the levels.
fn column_or(alloc: Global, column: Option<Text>, levels: &Texts) -> Result<Text, NoMemory>
    ensures { IfOk result (λ text. text ≡ unwrap_or column (slice_index_or levels.now 0 [])) }
{
    match column {
        Some(column) => Ok(column),
        None => first_of(alloc, levels),
    }
}

/// A copy of the first text, or no bytes where there is none.
fn first_of(alloc: Global, levels: &Texts) -> Result<Text, NoMemory>
    ensures { IfOk result (λ text. text ≡ slice_index_or levels.now 0 []) }
{
    match levels.as_slice() {
        [first, ..] => Text::from_bytes(alloc, first.as_slice()),
        [] => Ok(Text::new(alloc)),
    }
}

/// The parts of a dimension, each of its kind.
fn read_parts(alloc: Global, table: &Table, entry: &Text) -> Result<Parts, DimsFault>
    ensures { Answers fault.NoMemory result (unless (dimension_kinds entry.now (under (codes "name") (table_view table.now)) (under (codes "column") (table_view table.now)) (under (codes "levels") (table_view table.now)) (under (codes "paths") (table_view table.now))) (dimension_in (under (codes "name") (table_view table.now)) (under (codes "column") (table_view table.now)) (under (codes "levels") (table_view table.now)) (under (codes "paths") (table_view table.now)))) }
{
    let name = read_text::<DimsFault>(alloc, table, entry, "name")?;
    let column = read_optional_text::<DimsFault>(alloc, table, entry, "column")?;
    let levels = read_texts::<DimsFault>(alloc, table, entry, "levels")?;
    let paths = read_lists::<DimsFault>(alloc, table, entry, "paths")?;
    let column = column_or(alloc, column, &levels)?;
    Ok(Parts {
        name,
        column,
        levels,
        paths,
    })
}

/// Checks that a text is a name.
pub(crate) fn check_name(
    alloc: Global,
    entry: &Text,
    key: &str,
    name: &Text,
) -> Result<(), DimsFault>
    ensures { Answers fault.NoMemory result (unless (check (not (is_name name.now)) (fault.BadName (key_of entry.now key.now))) tt) }
{
    if !is_name(name.as_slice()) {
        return Err(DimsFault::BadName {
            key: key_text(alloc, entry, key.as_bytes())?,
        });
    }
    Ok(())
}

/// Checks that a name is not taken.
pub(crate) fn check_free(
    alloc: Global,
    entry: &Text,
    key: &str,
    taken: bool,
) -> Result<(), DimsFault>
    ensures { Answers fault.NoMemory result (unless (check taken (fault.NameTwice (key_of entry.now key.now))) tt) }
{
    if taken {
        return Err(DimsFault::NameTwice {
            key: key_text(alloc, entry, key.as_bytes())?,
        });
    }
    Ok(())
}

/// Checks that each text is the name of a level.
fn check_level_names(alloc: Global, entry: &Text, levels: &[Text]) -> Result<(), DimsFault>
    ensures { Answers fault.NoMemory result (unless (in_turn (bad_level entry.now) [] levels.now) tt) }
{
    for (index, level) in levels.iter().enumerate() {
        if !is_level_name(level.as_slice()) {
            return Err(DimsFault::BadName {
                key: item_text(alloc, entry, b"levels", index as u64 + 1)?,
            });
        }
    }
    Ok(())
}

/// Whether a text is one of these.
fn stands_in(text: &[u8], texts: &[Text]) -> bool
    ensures { result ≡ stands_in text.now texts.now }
{
    texts.iter().any(|other| text == other.as_slice())
}

/// Checks that each level has a name of its own.
fn check_levels_once(alloc: Global, entry: &Text, levels: &[Text]) -> Result<(), DimsFault>
    ensures { Answers fault.NoMemory result (unless (in_turn (level_twice entry.now) [] levels.now) tt) }
{
    for (index, level) in levels.iter().enumerate() {
        if stands_in(level.as_slice(), &levels[..index]) {
            return Err(DimsFault::NameTwice {
                key: item_text(alloc, entry, b"levels", index as u64 + 1)?,
            });
        }
    }
    Ok(())
}

/// Whether a dimension has the name.
fn has_name(dimensions: &[Dimension], name: &[u8]) -> bool
    ensures { result ≡ list_any (λ d. bytes_eq name.now d.name) dimensions.now }
{
    dimensions.iter().any(|d| d.name() == name)
}

/// Whether a dimension has the column.
pub(crate) fn has_column(dimensions: &[Dimension], column: &[u8]) -> bool
    ensures { result ≡ list_any (λ d. bytes_eq column.now d.column) dimensions.now }
{
    dimensions.iter().any(|d| d.column() == column)
}

/// Checks that the name of a dimension, its column and its levels are names.
fn check_names(alloc: Global, entry: &Text, parts: &Parts) -> Result<(), DimsFault>
    ensures { Answers fault.NoMemory result (unless (bad_names entry.now parts.now) tt) }
{
    check_name(alloc, entry, "name", &parts.name)?;
    check_name(alloc, entry, "column", &parts.column)?;
    check_level_names(alloc, entry, parts.levels.as_slice())
}

/// Checks that the name of a dimension, its column and its levels are not taken.
fn check_names_free(
    alloc: Global,
    entry: &Text,
    earlier: &[Dimension],
    parts: &Parts,
) -> Result<(), DimsFault>
    ensures { Answers fault.NoMemory result (unless (names_twice entry.now earlier.now parts.now) tt) }
{
    check_free(
        alloc,
        entry,
        "name",
        has_name(earlier, parts.name.as_slice()),
    )?;
    check_free(
        alloc,
        entry,
        "column",
        has_column(earlier, parts.column.as_slice()),
    )?;
    check_levels_once(alloc, entry, parts.levels.as_slice())
}

/// Checks how many levels and leaves a dimension has.
fn check_size(parts: &Parts) -> Result<(), DimsFault>
    ensures { Answers fault.NoMemory result (unless (size_faults parts.now) tt) }
{
    if 5 < parts.levels.len() {
        return Err(DimsFault::Limit {
            which: LimitKind::Levels,
            number: 5,
        });
    }
    if 65536 < parts.paths.len() {
        return Err(DimsFault::Limit {
            which: LimitKind::Leaves,
            number: 65536,
        });
    }
    Ok(())
}

/// Checks the names, the size and the paths of a dimension, and gives the members of each level.
fn check_parts(
    alloc: Global,
    entry: &Text,
    earlier: &[Dimension],
    parts: &Parts,
) -> Result<Items<NumberedNames>, DimsFault>
    requires { 0 < length parts.now.levels }
    ensures { Answers fault.NoMemory result (unless (named_faults entry.now earlier.now parts.now) (ancestor_names parts.now)) }
{
    check_names(alloc, entry, parts)?;
    check_names_free(alloc, entry, earlier, parts)?;
    check_size(parts)?;
    let members = members_of(alloc, parts)?;
    check_paths(alloc, entry, parts, members.as_slice())?;
    Ok(members)
}

/// The dimension that a table says, behind these.
pub(crate) fn read_dimension(
    alloc: Global,
    table: &Table,
    earlier: &[Dimension],
) -> Result<Dimension, DimsFault>
    requires { length earlier.now < 2 ^ 32 }
    ensures { Answers fault.NoMemory result (unless (dimension_faults earlier.now (table_view table.now)) (dimension_of (table_view table.now))) }
{
    let entry = entry_text(alloc, b"dimension", earlier.len() as u64 + 1)?;
    let parts = read_parts(alloc, table, &entry)?;
    let members = check_parts(alloc, &entry, earlier, &parts)?;
    Ok(parts.into_dimension(members))
}
