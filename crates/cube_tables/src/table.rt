// Tables read with the faults of a file.
ghost use Rattle.std.specs.Prelude.{[], Some, option_and_then};
ghost use Rattle.toml.specs.Data.{as_str};
ghost use Rattle.toml.specs.View.{view, table_view};
ghost use Rattle.cube_model.specs.Answers.{Answers};
ghost use Rattle.cube_model.specs.Checks.{unless};
ghost use Rattle.cube_tables.specs.Tables.{under, as_list, as_texts, as_tables, value_or, key_of};
ghost use Rattle.cube_tables.specs.Kinds.{required_faults, optional_faults, list_faults};

use crate::fault::{TableFault, with_memory};
use crate::keys::key_text;
use crate::values::{is_empty_array, is_tables, lists_of, texts_of, value_at};
use cube_model::{Items, Text, Texts};
use std::alloc::Global;
use toml::{Table, Value};

/// The text that a value is.
fn text_in<F: TableFault>(alloc: Global, key: Text, value: &Value) -> Result<Text, F>
    ensures { Answers F.no_memory result (unless (required_faults F.missing F.wrong_kind as_str key (Some (view value.now))) (value_or [] as_str (Some (view value.now)))) }
{
    match value.as_str() {
        Some(text) => with_memory(Text::from_bytes(alloc, text.as_bytes())),
        None => Err(F::is_wrong_kind(key)),
    }
}

/// The text under a key, which has to be there.
pub fn read_text<F: TableFault>(
    alloc: Global,
    table: &Table,
    entry: &Text,
    key: &str,
) -> Result<Text, F>
    ensures { Answers F.no_memory result (unless (required_faults F.missing F.wrong_kind as_str (key_of entry.now key.now) (under key.now (table_view table.now))) (value_or [] as_str (under key.now (table_view table.now)))) }
{
    let name = with_memory::<Text, F>(key_text(alloc, entry, key.as_bytes()))?;
    match value_at(table, key) {
        Some(value) => text_in(alloc, name, value),
        None => Err(F::is_missing(name)),
    }
}

/// The text under a key, where it is there.
pub fn read_optional_text<F: TableFault>(
    alloc: Global,
    table: &Table,
    entry: &Text,
    key: &str,
) -> Result<Option<Text>, F>
    ensures { Answers F.no_memory result (unless (optional_faults F.wrong_kind as_str (key_of entry.now key.now) (under key.now (table_view table.now))) (option_and_then as_str (under key.now (table_view table.now)))) }
{
    let name = with_memory::<Text, F>(key_text(alloc, entry, key.as_bytes()))?;
    match value_at(table, key) {
        Some(value) => Ok(Some(text_in::<F>(alloc, name, value)?)),
        None => Ok(None),
    }
}

/// The texts of a value that has to be an array of texts, and not an empty one.
fn some_texts_in<F: TableFault>(alloc: Global, key: Text, value: &Value) -> Result<Texts, F>
    ensures { Answers F.no_memory result (unless (list_faults F.missing F.wrong_kind as_texts key (Some (view value.now))) (value_or [] as_texts (Some (view value.now)))) }
{
    if is_empty_array(value) {
        return Err(F::is_missing(key));
    }
    match with_memory::<_, F>(texts_of(alloc, value))? {
        Some(texts) => Ok(texts),
        None => Err(F::is_wrong_kind(key)),
    }
}

/// The texts under a key, which have to be there.
pub fn read_texts<F: TableFault>(
    alloc: Global,
    table: &Table,
    entry: &Text,
    key: &str,
) -> Result<Texts, F>
    ensures { Answers F.no_memory result (unless (list_faults F.missing F.wrong_kind as_texts (key_of entry.now key.now) (under key.now (table_view table.now))) (value_or [] as_texts (under key.now (table_view table.now)))) }
{
    let name = with_memory::<Text, F>(key_text(alloc, entry, key.as_bytes()))?;
    match value_at(table, key) {
        Some(value) => some_texts_in(alloc, name, value),
        None => Err(F::is_missing(name)),
    }
}

/// The lists of a value that has to be an array of arrays of texts, and not an empty one.
fn some_lists_in<F: TableFault>(alloc: Global, key: Text, value: &Value) -> Result<Items<Texts>, F>
    ensures { Answers F.no_memory result (unless (list_faults F.missing F.wrong_kind (as_list as_texts) key (Some (view value.now))) (value_or [] (as_list as_texts) (Some (view value.now)))) }
{
    if is_empty_array(value) {
        return Err(F::is_missing(key));
    }
    match with_memory::<_, F>(lists_of(alloc, value))? {
        Some(lists) => Ok(lists),
        None => Err(F::is_wrong_kind(key)),
    }
}

/// The lists of texts under a key, which have to be there.
pub fn read_lists<F: TableFault>(
    alloc: Global,
    table: &Table,
    entry: &Text,
    key: &str,
) -> Result<Items<Texts>, F>
    ensures { Answers F.no_memory result (unless (list_faults F.missing F.wrong_kind (as_list as_texts) (key_of entry.now key.now) (under key.now (table_view table.now))) (value_or [] (as_list as_texts) (under key.now (table_view table.now)))) }
{
    let name = with_memory::<Text, F>(key_text(alloc, entry, key.as_bytes()))?;
    match value_at(table, key) {
        Some(value) => some_lists_in(alloc, name, value),
        None => Err(F::is_missing(name)),
    }
}

/// Checks that a value is an array of some tables.
fn check_some_tables<F: TableFault>(alloc: Global, key: &str, value: &Value) -> Result<(), F>
    ensures { Answers F.no_memory result (unless (list_faults F.missing F.wrong_kind as_tables key.now (Some (view value.now))) tt) }
{
    if is_empty_array(value) {
        return Err(F::is_missing(with_memory::<_, F>(Text::from_bytes(alloc, key.as_bytes()))?));
    }
    if !is_tables(value) {
        return Err(F::is_wrong_kind(with_memory::<_, F>(Text::from_bytes(alloc, key.as_bytes()))?));
    }
    Ok(())
}

/// Checks that there are some tables under a key.
pub fn check_tables<F: TableFault>(alloc: Global, table: &Table, key: &str) -> Result<(), F>
    ensures { Answers F.no_memory result (unless (list_faults F.missing F.wrong_kind as_tables key.now (under key.now (table_view table.now))) tt) }
{
    match value_at(table, key) {
        Some(value) => check_some_tables(alloc, key, value),
        None => Err(F::is_missing(with_memory::<_, F>(Text::from_bytes(alloc, key.as_bytes()))?)),
    }
}

/// Checks that a value is an array of tables.
fn check_array<F: TableFault>(alloc: Global, key: &str, value: &Value) -> Result<(), F>
    ensures { Answers F.no_memory result (unless (optional_faults F.wrong_kind as_tables key.now (Some (view value.now))) tt) }
{
    if !is_tables(value) {
        return Err(F::is_wrong_kind(with_memory::<_, F>(Text::from_bytes(alloc, key.as_bytes()))?));
    }
    Ok(())
}

/// Checks that there are tables under a key, where it is there.
pub fn check_optional_tables<F: TableFault>(
    alloc: Global,
    table: &Table,
    key: &str,
) -> Result<(), F>
    ensures { Answers F.no_memory result (unless (optional_faults F.wrong_kind as_tables key.now (under key.now (table_view table.now))) tt) }
{
    match value_at(table, key) {
        Some(value) => check_array(alloc, key, value),
        None => Ok(()),
    }
}
