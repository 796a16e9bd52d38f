//! Fact files.
#![tactic(auto)]

mod blocks;
mod fault;
mod file;
mod flat;
mod layout;
mod places;
mod plain;
mod records;
mod tags;
mod totals;
mod worked;

pub use fault::{FactsFault, fault_text};
pub use file::read_facts;
pub use flat::{Flat, FlatReply, read_flat, sum_flat};
pub use records::{MAX_FACTS, has_second_mark, open_records};
pub use worked::worked_facts;
