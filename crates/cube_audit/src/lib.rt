//! A transcript of a server's queries and replies, checked against a cube: whether each sum is right, and whether the sums together
//! leave each protected cell open.
//!
//! The server may be any: nothing is asked of the order of its replies, nor of what it refused.
#![tactic(auto)]

mod auditing;
mod exact;
mod keeping;
mod texts;
mod transcript;
mod worked;

pub use auditing::{Audited, audit};
pub use texts::audited_text;
pub use transcript::{Transcript, TranscriptFault, TranscriptItem, fault_text, read_transcript};
pub use worked::{worked_audits, worked_transcripts};
