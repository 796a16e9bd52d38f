// What first and least mean.
ghost use Rattle.cube_model.specs.Firsts.{FindsLeast, FindsNone, FirstCovered, FirstCut, UncutIsFirst};

/// A search among numbers in order finds the least that passes.
pub fn finds_least()
    ensures { FindsLeast }
{}

/// A search that finds none passes each number over.
pub fn finds_none()
    ensures { FindsNone }
{}

/// The first place that a cell covers is the least.
pub fn first_covered()
    ensures { FirstCovered }
{}

/// The first pair of places by which a cuboid cuts a cell has the least covered place, and then the
/// least other one.
pub fn first_cut()
    ensures { FirstCut }
{}

/// The uncut cell is the first protected cell that is not cut.
pub fn uncut_is_first()
    ensures { UncutIsFirst }
{}
