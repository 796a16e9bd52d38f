//! Trials of what lies outside the program: stores in memory whose calls fail, outputs into files, the seals that stand in them, a wire over sockets
//! in memory, and readers and writers. The files and connections of the machine are tried with the program as it is built, by the scripts of `tests/` and `examples/`.
//!
//! There is nothing here but tests, each of something that no clause of the crates below says, a disk in memory on which some stand, and a shelf in memory.
#![tactic(auto)]

mod file_pair;
#[cfg(test)]
mod files;
mod mem_disk;
mod mem_log;
mod mem_shelf;
#[cfg(test)]
mod mem_sockets;
#[cfg(test)]
mod memory;
#[cfg(test)]
mod outputs;
#[cfg(test)]
mod seals;
#[cfg(test)]
mod streams;
#[cfg(test)]
mod wires;
