// The statuses that a run ends with.

/// All was done.
pub const DONE: u8 = 0;
/// All was done, and what was to be shown is not so.
pub const NOT_SO: u8 = 1;
/// The words of the command line are wrong.
pub const WRONG_WORDS: u8 = 2;
/// A file was read and is refused.
pub const FILE_REFUSED: u8 = 3;
/// The bytes of a journal or of its seal are refused.
pub const JOURNAL_REFUSED: u8 = 4;
/// A file or the input could not be read.
pub const READ_FAILED: u8 = 5;
/// The output failed.
pub const OUTPUT_FAILED: u8 = 6;
/// Memory ran out.
pub const NO_MEMORY: u8 = 7;
/// The wire failed.
pub const WIRE_FAILED: u8 = 8;
/// The store of a journal failed.
pub const STORE_FAILED: u8 = 9;
/// As much was taken as is taken at most.
pub const ALL_SPENT: u8 = 10;
