// The number of facts that an object may name.
ghost use Rattle.std.specs.Prelude.{◌≡◌, codes, Some};
ghost use Rattle.toml.specs.View.{view, table_view};
ghost use Rattle.cube_model.specs.Answers.{Answers};
ghost use Rattle.cube_model.specs.Checks.{unless};
ghost use Rattle.cube_tables.specs.Tables.{under, key_of};
ghost use Rattle.cube_policy.specs.PolicyFile.{fewer_of, fewer_in, out_of_range, fewer_faults};
ghost use Rattle.cube_policy.specs.declared.fault.PolicyFault.TheVariants as fault;

use crate::fault::PolicyFault;
use cube_model::Text;
use cube_tables::{key_text, value_at};
use std::alloc::Global;
use toml::{Table, Value};

/// The number of facts that a number is, 2 to 1,000.
fn fewer_of(number: i64) -> Option<u32>
    ensures { result ≡ fewer_of number }
{
    if 2 <= number && number <= 1000 {
        Some(number as u32)
    } else {
        None
    }
}

/// The number of facts that a number has to be.
fn fewer_in_range(key: Text, number: i64) -> Result<Option<u32>, PolicyFault>
    ensures { Answers fault.NoMemory result (unless (out_of_range key (Some number)) (fewer_of number)) }
{
    match fewer_of(number) {
        Some(fewer) => Ok(Some(fewer)),
        None => Err(PolicyFault::OutOfRange { key, most: 1000 }),
    }
}

/// The number of facts that a value has to be.
fn fewer_from(key: Text, value: &Value) -> Result<Option<u32>, PolicyFault>
    ensures { Answers fault.NoMemory result (unless (fewer_faults key (Some (view value.now))) (fewer_in (Some (view value.now)))) }
{
    match value.as_integer() {
        Some(number) => fewer_in_range(key, number),
        None => Err(PolicyFault::WrongKind { key }),
    }
}

/// The number of facts that the table of an object names, if any.
pub(crate) fn read_fewer(
    alloc: Global,
    entry: &Text,
    table: &Table,
) -> Result<Option<u32>, PolicyFault>
    ensures { Answers fault.NoMemory result (unless (fewer_faults (key_of entry.now (codes "fewer")) (under (codes "fewer") (table_view table.now))) (fewer_in (under (codes "fewer") (table_view table.now)))) }
{
    let key = key_text(alloc, entry, b"fewer")?;
    match value_at(table, "fewer") {
        Some(value) => fewer_from(key, value),
        None => Ok(None),
    }
}
