//! The cubes that tests know by heart, as values and as the texts of their files, with the policies over them.
//!
//! Each maker says which value it makes, so a test that begins with one begins with a fact.
#![tactic(auto)]

mod cubes;
mod dimensions;
mod policies;
mod requests;
mod texts;

pub use cubes::{Parts, all_fields, days, full, pay, pay_of_one_each, some_fields};
pub use dimensions::pay_dims;
pub use policies::{Guard, field_policy, policy};
pub use requests::{finest_cell, request, two};
pub use texts::{PAY_DIMS, PAY_FACTS, PAY_POLICY};
