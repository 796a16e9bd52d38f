// The members of a table, one after another.
ghost use Rattle.std.specs.Prelude.{◌≡◌, map, option_map, IfOk};
ghost use Rattle.toml.specs.Data.{as_str, as_table};
ghost use Rattle.toml.specs.View.{view, table_view};
ghost use Rattle.cube_tables.specs.Tables.{members_list, all_named, as_named};
ghost use Rattle.cube_tables.specs.Members.{named, named_table};

use cube_model::{Items, NoMemory, Text};
use std::alloc::Global;
use toml::{Table, Value};

/// A member of a table: a key and its value.
#[derive(Clone, Copy)]
pub struct Member<'a> {
    /// The bytes of the key.
    pub key: &'a [u8],
    /// The value under it.
    pub value: &'a Value,
}

/// A member of a table whose value is a table too.
#[derive(Clone, Copy)]
pub struct NamedTable<'a> {
    /// The bytes of the key.
    pub key: &'a [u8],
    /// The table under it.
    pub table: &'a Table,
}

/// The members of a table, in the order of the bytes of their keys.
pub fn members_of<'a>(alloc: Global, table: &'a Table) -> Result<Vec<Member<'a>>, NoMemory>
    ensures { IfOk result (λ members. map named members.items ≡ members_list (table_view table.now)) }
{
    let mut members = Vec::new(alloc);
    'members: for (key, value) in table.iter() {
        members.push(Member {
            key: key.as_bytes(),
            value,
        })?;
    }
    Ok(members)
}

/// The keys and the texts of members, or `None` where one is another thing.
fn texts_among(alloc: Global, members: &[Member]) -> Result<Option<Items<(Text, Text)>>, NoMemory>
    ensures { IfOk result (λ o. o ≡ all_named as_str (map named members.now)) }
{
    let mut texts = Items::new(alloc);
    for member in members {
        let Some(text) = member.value.as_str() else {
            return Ok(None);
        };
        let key = Text::from_bytes(alloc, member.key)?;
        let text = Text::from_bytes(alloc, text.as_bytes())?;
        texts.push((key, text))?;
    }
    Ok(Some(texts))
}

/// The keys and the texts of a table of texts, in the order of the bytes of the keys, or `None`
/// where the value is another thing.
pub fn named_texts(alloc: Global, value: &Value) -> Result<Option<Items<(Text, Text)>>, NoMemory>
    ensures { IfOk result (λ o. o ≡ as_named as_str (view value.now)) }
{
    match value.as_table() {
        Some(table) => texts_among(alloc, members_of(alloc, table)?.as_slice()),
        None => Ok(None),
    }
}

/// The tables of members, or `None` where one is another thing.
fn tables_among<'a>(
    alloc: Global,
    members: &[Member<'a>],
) -> Result<Option<Vec<NamedTable<'a>>>, NoMemory>
    ensures { IfOk result (λ o. option_map (λ tables. map named_table tables.items) o ≡ all_named as_table (map named members.now)) }
{
    let mut tables = Vec::new(alloc);
    for member in members {
        let Some(table) = member.value.as_table() else {
            return Ok(None);
        };
        tables.push(NamedTable {
            key: member.key,
            table,
        })?;
    }
    Ok(Some(tables))
}

/// The tables of a table of tables, in the order of the bytes of their keys, or `None` where the
/// value is another thing.
pub fn named_tables<'a>(
    alloc: Global,
    value: &'a Value,
) -> Result<Option<Vec<NamedTable<'a>>>, NoMemory>
    ensures { IfOk result (λ o. option_map (λ tables. map named_table tables.items) o ≡ as_named as_table (view value.now)) }
{
    match value.as_table() {
        Some(table) => tables_among(alloc, members_of(alloc, table)?.as_slice()),
        None => Ok(None),
    }
}
