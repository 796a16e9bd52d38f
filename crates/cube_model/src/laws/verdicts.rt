// When requests are answered, and what is full.
ghost use Rattle.cube_model.specs.Fresh.{NotFreshIsAnswered, FullIs, OpenLeavesHistory};

/// What is not fresh, and nothing else, is answered without entering the history.
pub fn not_fresh_is_answered()
    ensures { NotFreshIsAnswered }
{}

/// Full is said exactly where a fresh request meets as many requests as a history holds.
pub fn full_is()
    ensures { FullIs }
{}

/// A request on the count or an open measure leaves the history.
pub fn open_leaves_history()
    ensures { OpenLeavesHistory }
{}
