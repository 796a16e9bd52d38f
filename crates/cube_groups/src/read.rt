// The groups file as a whole.
ghost use Rattle.std.specs.Prelude.{map, codes, IfOk};
ghost use Rattle.toml.specs.View.{view, table_view};
ghost use Rattle.cube_model.specs.Answers.{Answers};
ghost use Rattle.cube_model.specs.Checks.{unless};
ghost use Rattle.cube_tables.specs.Tables.{under, table_in};
ghost use Rattle.cube_groups.specs.GroupsFile.{group_of, list_faults, tables_faults, groups_faults, groups_in, groups_of};
ghost use Rattle.cube_groups.specs.Rules.{AreGroups};
ghost use Rattle.cube_groups.specs.declared.fault.GroupsFault.TheVariants as fault;

use crate::fault::GroupsFault;
use crate::group::{GroupList, read_group};
use cube_model::Items;
use cube_tables::{check_tables, items_under, read_table};
use std::alloc::Global;
use toml::{Table, Value};

/// Checks that there are some groups, and at most 16.
fn check_list(alloc: Global, table: &Table) -> Result<(), GroupsFault>
    ensures { Answers fault.NoMemory result (unless (list_faults (under (codes "group") (table_view table.now))) tt) }
{
    check_tables::<GroupsFault>(alloc, table, "group")?;
    if 16 < items_under(table, "group").len() {
        return Err(GroupsFault::Limit { number: 16 });
    }
    Ok(())
}

/// The groups that tables say.
fn read_list(alloc: Global, items: &[Value]) -> Result<GroupList, GroupsFault>
    ensures { Answers fault.NoMemory result (unless (tables_faults (map table_in (map view items.now))) (map group_of (map table_in (map view items.now)))) }
{
    let mut groups = Items::new(alloc);
    for item in items {
        let Some(table) = item.as_table() else {
            return Err(GroupsFault::NoMemory);
        };
        let group = read_group(alloc, table, groups.as_slice())?;
        groups.push(group)?;
    }
    Ok(groups)
}

/// The groups that a table says.
fn read_in(alloc: Global, table: &Table) -> Result<GroupList, GroupsFault>
    ensures { Answers fault.NoMemory result (unless (groups_faults (table_view table.now)) (groups_in (table_view table.now))) }
{
    check_list(alloc, table)?;
    read_list(alloc, items_under(table, "group"))
}

/// Reads a groups file: the groups that its bytes say, in their order, or its first fault. The
/// time grows in step with the size of the file.
pub fn read_groups(alloc: Global, bytes: &[u8]) -> Result<GroupList, GroupsFault>
    ensures said { Answers fault.NoMemory result (groups_of bytes.now) }
    ensures rules { IfOk result (λ groups. AreGroups groups) }
{
    match read_table(alloc, bytes)? {
        Some(table) => read_in(alloc, &table),
        None => Err(GroupsFault::NotToml),
    }
}
