//! Trials of small cubes that are known by heart: their cuboids and rows, what is protected of them and what cuts it, links and their colouring,
//! roll-ups.
//!
//! There is nothing here but tests, each of something that no clause of the crates below says, and what they share.
#![tactic(auto)]

#[cfg(test)]
mod colourings;
#[cfg(test)]
mod cuboids;
#[cfg(test)]
mod makers;
#[cfg(test)]
mod pairings;
#[cfg(test)]
mod rollups;
#[cfg(test)]
mod rows;
#[cfg(test)]
mod sources;
