//! The journal: the lines of a log that survive a crash, and the history that they stand for.
#![tactic(auto)]

mod digest;
mod fault;
mod first;
mod history;
mod keep;
mod laws;
mod line;
mod opening;
mod public;
mod reading;
mod second;
mod worked;

pub use digest::{Digest, digest_of};
pub use fault::{JournalFault, OpenFault};
pub use keep::Journal;
pub use laws::{
    entries_are_sound, kept_recovers, logs_grow, second_is_kept, second_is_short, second_reads_back,
};
pub use line::{Line, line_of};
pub use public::public_text;
pub use second::journal2_text;
pub use worked::worked_journals;
