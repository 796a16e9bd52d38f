// The laws of the definitions, each the contract of a function with an empty body: that it is
// proved is all that it does.
pub mod admissible;
pub mod continuing;
pub mod two_lives;
pub mod worked;
