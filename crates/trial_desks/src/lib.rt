//! Trials of a book over a store that fails, and over each image that a crash may leave of a log.
//!
//! There is nothing here but tests, each of something that no clause of the crates below says. What groups answer
//! over a store that works is tried over the program as it is built: `tests/runs`, `examples/groups`.
#![tactic(auto)]

#[cfg(test)]
mod images;
