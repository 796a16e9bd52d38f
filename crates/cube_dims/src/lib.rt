//! The dimension file: the dimensions and the measures of a cube, with their names.
#![tactic(auto)]

mod dimension;
mod fault;
mod find;
mod measure;
mod names;
mod paths;
mod read;
mod table;
mod worked;

pub use fault::{DimsFault, fault_text};
pub use find::{find_dimension, find_level, find_measure, find_member, up};
pub use names::{is_level_name, is_measure_name, is_name};
pub use read::read_dims;
pub use worked::worked_files;
