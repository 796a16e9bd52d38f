//! The rules of the sum cube.
//!
//! Here stand the types that all crates speak of, and beside them the definitions that say what
//! the product does: `specs/` in the plainest words that compute. A type without private parts is
//! the record of the definitions itself, so a contract of any crate compares a result with a
//! definition as it is.
//!
//! The laws of the definitions, with the two-worlds theorem at their head, are the contracts of
//! the functions of [`laws`].
#![tactic(auto)]

mod answer;
mod ask;
mod cell;
mod change;
mod dims;
mod entry;
mod items;
pub mod laws;
mod limit;
mod link;
mod memory;
mod name;
mod outcome;
mod policy;
mod recent;
mod reply;
mod request;
mod shape;
mod verdict;

pub use answer::{Answer, AnswerRow, Row, Rows};
pub use ask::{Ask, Question};
pub use cell::{Cell, Cells, Cuboids};
pub use change::{Change, Changes};
pub use dims::{Dimension, Dims, Measure, NumberedNames};
pub use entry::{Entry, History, Taken};
pub use items::{Items, Key, Levels, Places, Text, Texts};
pub use limit::LimitKind;
pub use link::{Link, LinkList, Signs};
pub use memory::NoMemory;
pub use name::is_group_name;
pub use outcome::{Outcome, Outcomes};
pub use policy::{Method, Methods, Object, Objects, Policy, Slice, Within, method_of};
pub use recent::Recent;
pub use reply::{Fixed, Kind, Reply};
pub use request::{Pick, Picks, Request, What};
pub use shape::{Cube, Shape, Values};
pub use verdict::Verdict;
