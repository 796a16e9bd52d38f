// The levels that an object goes down to.
ghost use Rattle.std.specs.Prelude.{◌≡◌, ◌<◌, [], Some, length, find, codes, option_copied, IfOk};
ghost use Rattle.std.specs.Str.{bytes_eq};
ghost use Rattle.toml.specs.Data.{as_str};
ghost use Rattle.toml.specs.View.{view, table_view};
ghost use Rattle.cube_model.specs.Answers.{Answers};
ghost use Rattle.cube_model.specs.Checks.{in_turn, unless};
ghost use Rattle.cube_model.specs.Dims.{dimension_at};
ghost use Rattle.cube_tables.specs.Tables.{under, as_named};
ghost use Rattle.cube_policy.specs.PolicyFile.{level_in, level_named, level_below, levels_of, below_in, unknown_level, below_faults};
ghost use Rattle.cube_policy.specs.declared.fault.PolicyFault.TheVariants as fault;

use crate::fault::PolicyFault;
use cube_dims::{find_dimension, find_level};
use cube_model::{Dims, Items, Levels, NoMemory, Text};
use cube_tables::{key_text, named_texts, value_at};
use std::alloc::Global;
use toml::{Table, Value};

/// The number of a level of a dimension, `all` standing above the named ones.
fn level_in(dims: &Dims, d: u32, name: &[u8]) -> Option<u32>
    requires { d < length dims.now.dimensions }
    ensures { result ≡ level_in (dimension_at dims.now d) name.now }
{
    if name == b"all".as_slice() {
        Some(dims.dimension(d).levels().len() as u32)
    } else {
        find_level(dims, d, name)
    }
}

/// The number of a level of the dimension with a name.
fn level_named(dims: &Dims, dimension: &[u8], name: &[u8]) -> Option<u32>
    ensures { result ≡ level_named dims.now dimension.now name.now }
{
    match find_dimension(dims, dimension) {
        Some(d) => level_in(dims, d, name),
        None => None,
    }
}

/// Checks that each of the dimensions has the level that is named with it.
fn check_levels(
    alloc: Global,
    dims: &Dims,
    entry: &Text,
    below: &[(Text, Text)],
) -> Result<(), PolicyFault>
    ensures { Answers fault.NoMemory result (unless (in_turn (unknown_level dims.now entry.now) [] below.now) tt) }
{
    for (dimension, level) in below {
        if level_named(dims, dimension.as_slice(), level.as_slice()).is_none() {
            return Err(PolicyFault::Unknown {
                key: key_text(alloc, entry, dimension.as_slice())?,
            });
        }
    }
    Ok(())
}

/// What is named with a dimension.
fn named_with<'a>(below: &'a [(Text, Text)], dimension: &[u8]) -> Option<&'a (Text, Text)>
    ensures { option_copied result ≡ find (λ e. bytes_eq dimension.now e.0) below.now }
{
    below.iter().find(|e| dimension == e.0.as_slice())
}

/// The level that is named with a dimension, or else `all`.
fn level_below(dims: &Dims, d: u32, below: &[(Text, Text)]) -> u32
    requires { d < length dims.now.dimensions }
    ensures { result ≡ level_below below.now (dimension_at dims.now d) }
{
    let all = dims.dimension(d).levels().len() as u32;
    match named_with(below, dims.dimension(d).name()) {
        Some(named) => level_in(dims, d, named.1.as_slice()).unwrap_or(all),
        None => all,
    }
}

/// The level of each dimension.
fn levels_of(alloc: Global, dims: &Dims, below: &[(Text, Text)]) -> Result<Levels, NoMemory>
    ensures { IfOk result (λ levels. levels ≡ levels_of dims.now below.now) }
{
    let mut levels = Items::new(alloc);
    for d in 0..dims.dimensions().len() as u32 {
        levels.push(level_below(dims, d, below))?;
    }
    Ok(levels)
}

/// The levels that dimensions and their levels say.
fn levels_from(
    alloc: Global,
    dims: &Dims,
    entry: &Text,
    below: &[(Text, Text)],
) -> Result<Levels, PolicyFault>
    ensures { Answers fault.NoMemory result (unless (in_turn (unknown_level dims.now entry.now) [] below.now) (levels_of dims.now below.now)) }
{
    check_levels(alloc, dims, entry, below)?;
    Ok(levels_of(alloc, dims, below)?)
}

/// The levels that a value says.
fn levels_in(alloc: Global, dims: &Dims, entry: &Text, value: &Value) -> Result<Levels, PolicyFault>
    ensures { Answers fault.NoMemory result (unless (below_faults dims.now entry.now (Some (view value.now))) (levels_of dims.now (below_in (Some (view value.now))))) }
{
    match named_texts(alloc, value)? {
        Some(below) => levels_from(alloc, dims, entry, below.as_slice()),
        None => Err(PolicyFault::WrongKind {
            key: Text::from_bytes(alloc, entry.as_slice())?,
        }),
    }
}

/// The levels that the table of an object says under `below`, the text of which key is given.
pub(crate) fn read_levels(
    alloc: Global,
    dims: &Dims,
    entry: &Text,
    table: &Table,
) -> Result<Levels, PolicyFault>
    ensures { Answers fault.NoMemory result (unless (below_faults dims.now entry.now (under (codes "below") (table_view table.now))) (levels_of dims.now (below_in (under (codes "below") (table_view table.now))))) }
{
    match value_at(table, "below") {
        Some(value) => levels_in(alloc, dims, entry, value),
        None => Err(PolicyFault::Missing {
            key: Text::from_bytes(alloc, entry.as_slice())?,
        }),
    }
}
