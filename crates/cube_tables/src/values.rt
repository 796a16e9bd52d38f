// What stands in a table.
ghost use Rattle.std.specs.Prelude.{◌≡◌, map, is_some, option_map, IfOk};
ghost use Rattle.std.specs.List.{list_all};
ghost use Rattle.toml.specs.Data.{as_str, as_table};
ghost use Rattle.toml.specs.View.{view, table_view};
ghost use Rattle.cube_tables.specs.Tables.{toml_of, under, all_as, as_list, as_texts, as_tables, is_empty_array, items_at};

use cube_model::{Items, NoMemory, Text, Texts};
use std::alloc::Global;
use toml::{Table, Value};

/// The table that the bytes are as a TOML document, or `None` where they are none.
pub fn read_table(alloc: Global, bytes: &[u8]) -> Result<Option<Table>, NoMemory>
    ensures { IfOk result (λ o. option_map table_view o ≡ toml_of bytes.now) }
{
    match toml::table_from_slice(alloc, bytes) {
        Ok(table) => Ok(Some(table)),
        Err(error) => {
            if error.is_memory() {
                Err(NoMemory)
            } else {
                Ok(None)
            }
        }
    }
}

/// The value under a key of a table.
pub fn value_at<'a>(table: &'a Table, key: &str) -> Option<&'a Value>
    ensures { option_map (λ v. view v.now) result ≡ under key.now (table_view table.now) }
{
    table.get(key)
}

/// The texts of some values, or `None` where one is another thing.
fn texts_in(alloc: Global, items: &[Value]) -> Result<Option<Texts>, NoMemory>
    ensures { IfOk result (λ o. o ≡ all_as as_str (map view items.now)) }
{
    let mut texts = Items::new(alloc);
    for item in items {
        let Some(text) = item.as_str() else {
            return Ok(None);
        };
        texts.push(Text::from_bytes(alloc, text.as_bytes())?)?;
    }
    Ok(Some(texts))
}

/// The texts of an array of texts, or `None` where the value is another thing.
pub fn texts_of(alloc: Global, value: &Value) -> Result<Option<Texts>, NoMemory>
    ensures { IfOk result (λ o. o ≡ as_texts (view value.now)) }
{
    match value.as_array() {
        Some(items) => texts_in(alloc, items.as_slice()),
        None => Ok(None),
    }
}

/// The arrays of texts of some values, or `None` where one is another thing.
fn lists_in(alloc: Global, items: &[Value]) -> Result<Option<Items<Texts>>, NoMemory>
    ensures { IfOk result (λ o. o ≡ all_as as_texts (map view items.now)) }
{
    let mut lists = Items::new(alloc);
    for item in items {
        let Some(texts) = texts_of(alloc, item)? else {
            return Ok(None);
        };
        lists.push(texts)?;
    }
    Ok(Some(lists))
}

/// The arrays of an array of arrays of texts, or `None` where the value is another thing.
pub fn lists_of(alloc: Global, value: &Value) -> Result<Option<Items<Texts>>, NoMemory>
    ensures { IfOk result (λ o. o ≡ as_list as_texts (view value.now)) }
{
    match value.as_array() {
        Some(items) => lists_in(alloc, items.as_slice()),
        None => Ok(None),
    }
}

/// Whether the value is an array without items.
pub fn is_empty_array(value: &Value) -> bool
    ensures { result ≡ is_empty_array (view value.now) }
{
    match value.as_array() {
        Some(items) => items.as_slice().is_empty(),
        None => false,
    }
}

/// The items of the array under a key, none where there is no array.
pub fn items_under<'a>(table: &'a Table, key: &str) -> &'a [Value]
    ensures { map view result.now ≡ items_at (under key.now (table_view table.now)) }
{
    match value_at(table, key) {
        Some(value) => items_in(value),
        None => &[],
    }
}

/// The items of an array, none where the value is no array.
fn items_in(value: &Value) -> &[Value]
    ensures { map view result.now ≡ items_at (Some (view value.now)) }
{
    match value.as_array() {
        Some(items) => items.as_slice(),
        None => &[],
    }
}

/// Whether all values are tables.
fn are_tables(items: &[Value]) -> bool
    ensures { result ≡ list_all (λ v. is_some (as_table (view v))) items.now }
{
    items.iter().all(|item| item.as_table().is_some())
}

/// Whether a value is an array of tables.
pub(crate) fn is_tables(value: &Value) -> bool
    ensures { result ≡ is_some (as_tables (view value.now)) }
{
    match value.as_array() {
        Some(items) => are_tables(items.as_slice()),
        None => false,
    }
}
