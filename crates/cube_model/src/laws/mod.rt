// The laws of the definitions, each the contract of a function with an empty body: that it is
// proved is all that it does.
pub mod compaction;
pub mod cores;
pub mod even_boxes;
pub mod finest;
pub mod firsts;
pub mod links;
pub mod meanings;
pub mod reasons;
pub mod rooms;
pub mod two_worlds;
pub mod verdicts;
pub mod worked;
