//! Trials of audits over small cubes, from the bytes of a transcript to the line that is told.
//!
//! There is nothing here but tests, each of something that no clause of the crates below says, and what they share.
#![tactic(auto)]

#[cfg(test)]
mod lines;
