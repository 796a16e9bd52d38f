// The cuboids that may be released at first.
ghost use Rattle.cube_model.specs.Safe.{SafeIsAnswered, FinestAre, FinestAreAnswered};

/// A first request on a measure, at or above a cuboid that cuts each protected cell, is answered
/// unless the history is full.
pub fn safe_is_answered()
    ensures { SafeIsAnswered }
{}

/// The finest safe cuboids cut each protected cell, none is finer than another, and each safe cuboid
/// is at or above one of them.
pub fn finest_are()
    ensures { FinestAre }
{}

/// A first request on a measure at or above a finest safe cuboid is answered, where the history has
/// room.
pub fn finest_are_answered()
    ensures { FinestAreAnswered }
{}
