//! Numbers and names as text.
#![tactic(auto)]

mod buffers;
mod counts;
mod keys;
mod names;
mod units;

pub use buffers::{LINE, write_at};
pub use counts::push_count;
pub use keys::{push_head, push_heads, push_key};
pub use names::{
    is_bare, is_bare_name, names_read_back, print_name, push_field, push_name, push_quoted,
    quote_field, quote_name, read_quoted, unquote_name,
};
pub use units::{UnitFault, read_digits, read_units, units_read_back, write_units};
