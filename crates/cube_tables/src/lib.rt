//! Tables of TOML: what a file read as a table has under its keys, with the faults of missing
//! values and of values of another kind.
#![tactic(auto)]

mod fault;
mod keys;
mod members;
mod table;
mod values;

pub use fault::TableFault;
pub use keys::{entry_text, item_text, key_text};
pub use members::{Member, NamedTable, members_of, named_tables, named_texts};
pub use table::{
    check_optional_tables, check_tables, read_lists, read_optional_text, read_text, read_texts,
};
pub use values::{is_empty_array, items_under, lists_of, read_table, texts_of, value_at};
