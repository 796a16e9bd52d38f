//! A cube behind its journals: each group of users has a book over its own log, whose seal is compared first.
#![tactic(auto)]

mod gathering;
mod groups;
mod laws;
mod named;
mod one_cube;
mod sealing;
mod starting;

pub use gathering::open_groups;
pub use groups::Groups;
pub use laws::one_group_is_the_cube;
pub use one_cube::{open_alone, open_book};
