// Decimals and lists of tables, with the faults of a dimension file.
ghost use Rattle.std.specs.Prelude.{◌≡◌, Some};
ghost use Rattle.toml.specs.Data.{as_integer};
ghost use Rattle.toml.specs.View.{view, table_view};
ghost use Rattle.cube_model.specs.Answers.{Answers};
ghost use Rattle.cube_model.specs.Checks.{unless};
ghost use Rattle.cube_tables.specs.Tables.{under, key_of};
ghost use Rattle.cube_dims.specs.DimsFile.{decimals_of, decimals_in, optional_faults, tables_faults};
ghost use Rattle.cube_dims.specs.declared.fault.DimsFault.TheVariants as fault;

use crate::fault::DimsFault;
use cube_model::{LimitKind, Text};
use cube_tables::{check_tables, items_under, key_text, value_at};
use std::alloc::Global;
use toml::{Table, Value};

/// The decimals that a number is, 0 to 6.
fn decimals_of(number: i64) -> Option<u32>
    ensures { result ≡ decimals_of number }
{
    if 0 <= number && number <= 6 {
        Some(number as u32)
    } else {
        None
    }
}

/// The decimals that a value is, `None` where the number is no number of decimals.
fn decimals_from(key: Text, value: &Value) -> Result<Option<u32>, DimsFault>
    ensures { Answers fault.NoMemory result (unless (optional_faults as_integer key (Some (view value.now))) (decimals_in (Some (view value.now)))) }
{
    match value.as_integer() {
        Some(number) => Ok(decimals_of(number)),
        None => Err(DimsFault::WrongKind { key }),
    }
}

/// The decimals under a key, 0 where nothing is stated, and `None` where the number is no number
/// of decimals.
pub(crate) fn read_decimals(
    alloc: Global,
    table: &Table,
    entry: &Text,
    key: &str,
) -> Result<Option<u32>, DimsFault>
    ensures { Answers fault.NoMemory result (unless (optional_faults as_integer (key_of entry.now key.now) (under key.now (table_view table.now))) (decimals_in (under key.now (table_view table.now)))) }
{
    let name = key_text(alloc, entry, key.as_bytes())?;
    match value_at(table, key) {
        Some(value) => decimals_from(name, value),
        None => Ok(Some(0)),
    }
}

/// Checks that there are some tables under a key, and at most so many.
pub(crate) fn check_some_tables(
    alloc: Global,
    table: &Table,
    key: &str,
    which: LimitKind,
    most: usize,
) -> Result<(), DimsFault>
    ensures { Answers fault.NoMemory result (unless (tables_faults which most key.now (under key.now (table_view table.now))) tt) }
{
    check_tables::<DimsFault>(alloc, table, key)?;
    if most < items_under(table, key).len() {
        return Err(DimsFault::Limit {
            which,
            number: most as u64,
        });
    }
    Ok(())
}
