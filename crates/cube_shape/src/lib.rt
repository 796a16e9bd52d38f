//! The public shape of a cube, as JSON.
#![tactic(auto)]

mod parts;
mod whole;
mod worked;

pub use whole::shape_text;
pub use worked::worked_shape;
