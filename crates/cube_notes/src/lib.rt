//! Notes for a person: what the report on a refused file has no room for.
//! A note is a line, or some, for standard error. It is empty where there is nothing more to say.
#![tactic(auto)]

mod choices;
mod drafts;
mod facts;
mod guarding;
mod limits;
mod lines;
mod nearest;
mod numbers;
mod queries;
mod ranges;
mod shown;
mod tables;
mod unknown;
mod worked;

pub use drafts::note_on_draft;
pub use facts::{note_on_facts, note_on_flat};
pub use guarding::note_on_policy;
pub use limits::note_on_limit;
pub use queries::note_on_query;
pub use ranges::note_on_ranges;
pub use shown::push_shown;
pub use tables::note_on_table;
pub use unknown::note_on_unknown;
pub use worked::{worked_lines, worked_nearness};
