//! Trials of a server over a wire whose sends fail.
//!
//! There is nothing here but tests, each of something that no clause of the crates below says. What is said over a wire whose
//! sends go well is tried over the program as it is built: `tests/hostile`, `examples/groups`, `tests/runs`.
#![tactic(auto)]

#[cfg(test)]
mod failing;
