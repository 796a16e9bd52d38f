// The policy file as a whole.
ghost use Rattle.std.specs.Prelude.{[], map, codes, IfOk};
ghost use Rattle.toml.specs.View.{view, table_view};
ghost use Rattle.cube_model.specs.Answers.{Answers};
ghost use Rattle.cube_model.specs.Checks.{unless};
ghost use Rattle.cube_model.specs.Dims.{measure_names};
ghost use Rattle.cube_model.specs.Policies.{IsPolicy};
ghost use Rattle.cube_tables.specs.Tables.{under, table_in};
ghost use Rattle.cube_policy.specs.PolicyFile.{tables_of, declared_of, declared_measures, methods_of, object_of, unknown_keys, file_keys, methods_faults, measures_faults, objects_faults, objects_kinds, policy_faults, policy_in, policy_of};
ghost use Rattle.cube_policy.specs.declared.fault.PolicyFault.TheVariants as fault;

use crate::fault::PolicyFault;
use crate::keys::{Kind, check_keys};
use crate::measure::{Declared, read_declared, read_methods};
use crate::object::read_object;
use cube_model::{Dims, Items, LimitKind, Method, Methods, Objects, Policy, Text};
use cube_tables::{check_optional_tables, check_tables, entry_text, items_under, read_table};
use std::alloc::Global;
use toml::{Table, Value};

/// What the tables of measures say.
fn read_measures(
    alloc: Global,
    dims: &Dims,
    items: &[Value],
) -> Result<Items<Declared>, PolicyFault>
    ensures { Answers fault.NoMemory result (unless (measures_faults dims.now (map table_in (map view items.now))) (map declared_of (map table_in (map view items.now)))) }
{
    let mut declared = Items::new(alloc);
    for item in items {
        let Some(table) = item.as_table() else {
            return Err(PolicyFault::NoMemory);
        };
        let measure = read_declared(alloc, dims, table, declared.as_slice())?;
        declared.push(measure)?;
    }
    Ok(declared)
}

/// The objects that tables say.
fn read_objects(
    alloc: Global,
    dims: &Dims,
    methods: &[Method],
    items: &[Value],
) -> Result<Objects, PolicyFault>
    ensures { Answers fault.NoMemory result (unless (objects_faults dims.now methods.now (map table_in (map view items.now))) (map (object_of dims.now) (map table_in (map view items.now)))) }
{
    let mut objects = Items::new(alloc);
    for (index, item) in items.iter().enumerate() {
        let Some(table) = item.as_table() else {
            return Err(PolicyFault::NoMemory);
        };
        let entry = entry_text(alloc, b"object", index as u64 + 1)?;
        objects.push(read_object(alloc, dims, methods, &entry, table)?)?;
    }
    Ok(objects)
}

/// Checks that the objects are a list of tables where they are there, and at most 64.
fn check_objects(alloc: Global, table: &Table) -> Result<(), PolicyFault>
    ensures { Answers fault.NoMemory result (unless (objects_kinds (under (codes "object") (table_view table.now))) tt) }
{
    check_optional_tables::<PolicyFault>(alloc, table, "object")?;
    if 64 < items_under(table, "object").len() {
        return Err(PolicyFault::Limit {
            which: LimitKind::Objects,
            number: 64,
        });
    }
    Ok(())
}

/// Checks the keys of the file itself.
fn check_file_keys(alloc: Global, table: &Table) -> Result<(), PolicyFault>
    ensures { Answers fault.NoMemory result (unless (unknown_keys [] file_keys (table_view table.now)) tt) }
{
    check_keys(alloc, &Text::new(alloc), Kind::File, table)
}

/// The method of each measure, as the tables under `measure` say.
fn read_file_methods(alloc: Global, dims: &Dims, table: &Table) -> Result<Methods, PolicyFault>
    ensures { Answers fault.NoMemory result (unless (methods_faults dims.now (table_view table.now)) (methods_of (declared_measures (table_view table.now)) (measure_names dims.now))) }
{
    let declared = read_measures(alloc, dims, items_under(table, "measure"))?;
    read_methods(alloc, declared.as_slice(), dims.measures())
}

/// The objects, as the tables under `object` say.
fn read_file_objects(
    alloc: Global,
    dims: &Dims,
    methods: &Methods,
    table: &Table,
) -> Result<Objects, PolicyFault>
    ensures { Answers fault.NoMemory result (unless (objects_faults dims.now methods.now (tables_of (under (codes "object") (table_view table.now)))) (map (object_of dims.now) (tables_of (under (codes "object") (table_view table.now))))) }
{
    read_objects(
        alloc,
        dims,
        methods.as_slice(),
        items_under(table, "object"),
    )
}

/// The policy that a table says.
fn read_in(alloc: Global, dims: &Dims, table: &Table) -> Result<Policy, PolicyFault>
    ensures { Answers fault.NoMemory result (unless (policy_faults dims.now (table_view table.now)) (policy_in dims.now (table_view table.now))) }
{
    check_file_keys(alloc, table)?;
    check_tables::<PolicyFault>(alloc, table, "measure")?;
    check_objects(alloc, table)?;
    let methods = read_file_methods(alloc, dims, table)?;
    let objects = read_file_objects(alloc, dims, &methods, table)?;
    Ok(Policy { methods, objects })
}

/// Reads a policy file: what its bytes say for these dimensions and measures, or its first fault.
/// The time grows in step with the size of the file and, for each slice, with the number of
/// members of the level that it lists.
pub fn read_policy(alloc: Global, dims: &Dims, bytes: &[u8]) -> Result<Policy, PolicyFault>
    ensures said { Answers fault.NoMemory result (policy_of dims.now bytes.now) }
    ensures rules { IfOk result (λ policy. IsPolicy dims.now policy) }
{
    match read_table(alloc, bytes)? {
        Some(table) => read_in(alloc, dims, &table),
        None => Err(PolicyFault::NotToml),
    }
}
