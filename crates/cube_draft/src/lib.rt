//! A draft of the dimension file and of the policy file that fit a fact file.
#![tactic(auto)]

mod accept;
mod apart;
mod check;
mod choices;
mod columns;
mod fault;
mod hierarchy;
mod kept;
mod kind;
mod order;
mod plan;
mod shown;
mod table;
mod text;
mod whole;
mod worked;

pub use accept::has_object;
pub use choices::{Choices, Stated};
pub use fault::{DraftFault, fault_text};
pub use whole::{Draft, draft_files};
pub use worked::{worked_choices, worked_fields, worked_governing};
