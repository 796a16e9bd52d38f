//! The seal beside a journal: which values its answers are of.
//!
//! The seal is one line in a log of its own: the word `values`, a blank, and the 64 hexadecimal digits of the SHA-256 of the
//! values of a core. A log that ends before its line feed, as a crash may leave it, says nothing yet.
#![tactic(auto)]

mod fault;
mod laws;
mod reading;
mod seal;
mod values;
mod worked;

pub use fault::SealFault;
pub use laws::{beginnings_say_nothing, lines_say_digits, seals_are_lines};
pub use reading::line_of;
pub use seal::{compare_seal, hold_seal};
pub use values::digest_of_values;
pub use worked::worked_values;
