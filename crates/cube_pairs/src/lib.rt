//! The links that rows bring: the places of a row in pairs, a last one alone.
#![tactic(auto)]

mod pairs;

pub use pairs::links;
