//! A colouring of places by links: which places stay free, and which links follow from others.
//!
//! A colouring keeps each link that does not follow from those kept before. A link is added in a
//! logarithm of the number of places, whatever is kept, and links are taken back in the reverse
//! order.
#![tactic(auto)]

mod colouring;
mod forest;
mod step;

pub use colouring::{Added, Colouring};
