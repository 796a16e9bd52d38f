//! A cube and queries over it, made from a number and a size.
//!
//! The same number and size always give the same texts, so that runs over them can be compared.
#![tactic(auto)]

mod draws;
mod facts;
mod made;
mod queries;
mod tables;

pub use made::{Made, make};
