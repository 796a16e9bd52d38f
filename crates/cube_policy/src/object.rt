// One object of a policy file.
ghost use Rattle.std.specs.Prelude.{◌≡◌, ◌==◌, codes, is_none};
ghost use Rattle.std.specs.List.{list_all};
ghost use Rattle.toml.specs.View.{table_view};
ghost use Rattle.cube_model.specs.Answers.{Answers};
ghost use Rattle.cube_model.specs.Checks.{check, unless};
ghost use Rattle.cube_model.specs.Dims.{found, measure_names};
ghost use Rattle.cube_tables.specs.Tables.{under, key_of};
ghost use Rattle.cube_policy.specs.PolicyFile.{number, measure_number, object_of, object_measure_faults, is_misplaced, place_faults, object_faults};
ghost use Rattle.cube_policy.specs.declared.fault.PolicyFault.TheVariants as fault;
ghost use Rattle.cube_model.specs.declared.policy.Method.TheVariants as method;

use crate::below::read_levels;
use crate::fault::PolicyFault;
use crate::fewer::read_fewer;
use crate::keys::{Kind, check_keys};
use crate::slice::read_slice;
use cube_dims::find_measure;
use cube_model::{Dims, Method, Object, Text, method_of};
use cube_tables::{key_text, read_text};
use std::alloc::Global;
use toml::Table;

/// The number of a measure that has to be known.
fn known_measure(alloc: Global, dims: &Dims, entry: &Text, name: &Text) -> Result<u32, PolicyFault>
    ensures { Answers fault.NoMemory result (unless (check (is_none (found name.now (measure_names dims.now))) (fault.Unknown (key_of entry.now (codes "measure")))) (number name.now (measure_names dims.now))) }
{
    match find_measure(dims, name.as_slice()) {
        Some(measure) => Ok(measure),
        None => Err(PolicyFault::Unknown {
            key: key_text(alloc, entry, b"measure")?,
        }),
    }
}

/// The number of the measure that the table of an object says.
fn read_measure(alloc: Global, dims: &Dims, entry: &Text, table: &Table) -> Result<u32, PolicyFault>
    ensures { Answers fault.NoMemory result (unless (object_measure_faults dims.now (key_of entry.now (codes "measure")) (under (codes "measure") (table_view table.now))) (measure_number dims.now (under (codes "measure") (table_view table.now)))) }
{
    let name = read_text::<PolicyFault>(alloc, table, entry, "measure")?;
    known_measure(alloc, dims, entry, &name)
}

/// Whether all levels are the finest.
fn are_finest(levels: &[u32]) -> bool
    ensures { result ≡ list_all (λ l. l == 0) levels.now }
{
    levels.iter().all(|level| *level == 0)
}

/// Whether no object goes on a measure of this method at these levels.
fn is_misplaced(method: Method, levels: &[u32]) -> bool
    ensures { result ≡ is_misplaced method levels.now }
{
    match method {
        Method::Plain => true,
        Method::Lattice => false,
        Method::Parity => !are_finest(levels),
    }
}

/// Checks that an object goes on a measure at these levels.
fn check_place(
    alloc: Global,
    entry: &Text,
    method: Method,
    levels: &[u32],
) -> Result<(), PolicyFault>
    ensures { Answers fault.NoMemory result (unless (check (is_misplaced method levels.now) (fault.ObjectOnMethod entry.now)) tt) }
{
    if is_misplaced(method, levels) {
        return Err(PolicyFault::ObjectOnMethod {
            key: Text::from_bytes(alloc, entry.as_slice())?,
        });
    }
    Ok(())
}

/// The object that a table with a key says.
pub(crate) fn read_object(
    alloc: Global,
    dims: &Dims,
    methods: &[Method],
    entry: &Text,
    table: &Table,
) -> Result<Object, PolicyFault>
    ensures { Answers fault.NoMemory result (unless (object_faults dims.now methods.now entry.now (table_view table.now)) (object_of dims.now (table_view table.now))) }
{
    check_keys(alloc, entry, Kind::Object, table)?;
    let measure = read_measure(alloc, dims, entry, table)?;
    let below = key_text(alloc, entry, b"below")?;
    let levels = read_levels(alloc, dims, &below, table)?;
    let within = key_text(alloc, entry, b"slice")?;
    let slice = read_slice(alloc, dims, &within, table)?;
    let fewer = read_fewer(alloc, entry, table)?;
    check_place(alloc, entry, method_of(methods, measure), levels.as_slice())?;
    Ok(Object {
        measure,
        levels,
        slice,
        fewer,
    })
}
