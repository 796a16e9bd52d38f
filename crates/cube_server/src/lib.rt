//! A server over a wire: it hears the requests of up to 64 connections, asks a desk, and sends the replies.
//!
//! The definition of the log of a served wire stands in `specs/Logs.antt`. [`serve`] promises that the log that a wire
//! tells is that one.
#![tactic(auto)]

mod deal;
pub mod laws;
mod lines;
mod pools;
mod reply;
mod serving;

pub use pools::Pool;
pub use serving::{ServeFault, serve};
