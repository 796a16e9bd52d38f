// Laws on what cubes reply in words, and on a history written down as what it holds.
ghost use Rattle.cube_model.specs.Dims.{Dims};
ghost use Rattle.cube_model.specs.Rooms.{OneRoomIsPlain, RoomsAreByThemselves, OtherWorldsAreLikewise};
ghost use Rattle.cube_engine.specs.Compacting.{CompactionKeepsAll};
ghost use Rattle.cube_engine.specs.Steps.{by_words};

/// Rooms are separate in words as they are by the rules: one room replies as its cube and its history do, what goes to
/// other rooms does not enter, and another world with the same replies in one room changes nothing that is said in any.
pub fn rooms_in_words()
    ensures plain { (s : Dims) → OneRoomIsPlain (by_words s) }
    ensures apart { (s : Dims) → RoomsAreByThemselves (by_words s) }
    ensures likewise { (s : Dims) → OtherWorldsAreLikewise (by_words s) }
{}

/// A history written down as what it holds stands for it: it is admissible, gives the same changes, and its text as a journal
/// recovers it; whatever is asked gets the same replies, unless one says that the history is full.
pub fn compaction_keeps_all()
    ensures { CompactionKeepsAll }
{}
