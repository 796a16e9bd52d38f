//! The cube that is made of a number and a size, and queries over it, read from made texts.
//!
//! That the readers of files read each made text is a law, so a cube is wanting only where memory is.
#![tactic(auto)]

pub mod laws;
mod made_cube;
mod reading;

pub use made_cube::{MadeCube, make_cube};
