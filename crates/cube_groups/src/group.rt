// One group of a groups file.
ghost use Rattle.std.specs.Prelude.{◌≡◌, not, codes};
ghost use Rattle.std.specs.List.{list_any};
ghost use Rattle.std.specs.Str.{bytes_eq};
ghost use Rattle.toml.specs.View.{table_view};
ghost use Rattle.cube_model.specs.Answers.{Answers};
ghost use Rattle.cube_model.specs.Checks.{check, unless};
ghost use Rattle.cube_tables.specs.Tables.{key_of};
ghost use Rattle.cube_model.specs.Names as spec;
ghost use Rattle.cube_groups.specs.GroupsFile.{group_of, name_faults, group_faults_at, group_faults};
ghost use Rattle.cube_groups.specs.declared.fault.GroupsFault.TheVariants as fault;

use crate::fault::GroupsFault;
use cube_model::{Items, Text, is_group_name};
use cube_tables::{entry_text, key_text, read_text};
use std::alloc::Global;
use toml::Table;

/// A group as the groups file states it.
#[derive(Drop)]
pub struct GroupFile {
    /// The name of the group.
    pub name: Text,
    /// The name of the file of its policy.
    pub policy: Text,
}

/// Groups in the order of their file.
pub type GroupList = Items<GroupFile>;

/// Whether a group has the name.
fn has_name(groups: &[GroupFile], name: &[u8]) -> bool
    ensures { result ≡ list_any (λ g. bytes_eq name.now g.name) groups.now }
{
    groups.iter().any(|g| name == g.name.as_slice())
}

/// Checks that a text is the name of a group.
fn check_form(alloc: Global, entry: &Text, name: &Text) -> Result<(), GroupsFault>
    ensures { Answers fault.NoMemory result (unless (check (not (spec.is_group_name name.now)) (fault.BadName (key_of entry.now (codes "name")))) tt) }
{
    if !is_group_name(name.as_slice()) {
        return Err(GroupsFault::BadName {
            key: key_text(alloc, entry, b"name")?,
        });
    }
    Ok(())
}

/// Checks that a name is not taken.
fn check_free(alloc: Global, entry: &Text, taken: bool) -> Result<(), GroupsFault>
    ensures { Answers fault.NoMemory result (unless (check taken (fault.NameTwice (key_of entry.now (codes "name")))) tt) }
{
    if taken {
        return Err(GroupsFault::NameTwice {
            key: key_text(alloc, entry, b"name")?,
        });
    }
    Ok(())
}

/// Checks that a text is the name of a group, and of none of the earlier ones.
fn check_name(
    alloc: Global,
    entry: &Text,
    earlier: &[GroupFile],
    name: &Text,
) -> Result<(), GroupsFault>
    ensures { Answers fault.NoMemory result (unless (name_faults entry.now earlier.now name.now) tt) }
{
    check_form(alloc, entry, name)?;
    check_free(alloc, entry, has_name(earlier, name.as_slice()))
}

/// What the table of a group with a key says, behind these.
fn read_group_at(
    alloc: Global,
    entry: &Text,
    table: &Table,
    earlier: &[GroupFile],
) -> Result<GroupFile, GroupsFault>
    ensures { Answers fault.NoMemory result (unless (group_faults_at entry.now earlier.now (table_view table.now)) (group_of (table_view table.now))) }
{
    let name = read_text::<GroupsFault>(alloc, table, entry, "name")?;
    let policy = read_text::<GroupsFault>(alloc, table, entry, "policy")?;
    check_name(alloc, entry, earlier, &name)?;
    Ok(GroupFile { name, policy })
}

/// What the table of a group says, behind these.
pub(crate) fn read_group(
    alloc: Global,
    table: &Table,
    earlier: &[GroupFile],
) -> Result<GroupFile, GroupsFault>
    ensures { Answers fault.NoMemory result (unless (group_faults earlier.now (table_view table.now)) (group_of (table_view table.now))) }
{
    let entry = entry_text(alloc, b"group", earlier.len() as u64 + 1)?;
    read_group_at(alloc, &entry, table, earlier)
}
