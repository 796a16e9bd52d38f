//! A history carried over to a cube that continues the one it was told of: what a cube that grows,
//! month after month, still has to hide.
//!
//! The definitions stand in `specs/`. Their laws are the contracts of the functions of [`laws`].
#![tactic(auto)]

pub mod laws;
