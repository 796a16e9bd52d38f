//! The talk over an input: its lines are answered in turn, as asks of a desk or by sums over a flat fact file.
#![tactic(auto)]

mod asks;
mod carry;
mod replies;
mod responder;
mod sums;
mod talk;
mod worked;

pub use asks::{Asks, converse_by_asks};
pub use carry::Carry;
pub use replies::{Replies, Said};
pub use responder::{MAX_LINE, Responder};
pub use sums::{Sums, converse_by_sums};
pub use talk::{Ending, TalkEnd, converse};
pub use worked::{worked_faults, worked_hand, worked_lines, worked_talk};
