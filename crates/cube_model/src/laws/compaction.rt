// Logs and compacted histories.
ghost use Rattle.cube_model.specs.Compaction.{CompactedStands, AlikeRunAlike, CompactedRunsAlike, EarlierLivesStayOpen};
ghost use Rattle.cube_model.specs.Logs.{LeftIsAdmissible, AdmissibleIsLeft, EntriesAreTaken, PassedBringsNothing};

/// A compacted history stands for the history: it is admissible, holds the same with no request, and
/// gives the same changes.
pub fn compacted_stands()
    ensures { CompactedStands }
{}

/// Histories that hold the same give the same replies, until the first is full.
pub fn alike_run_alike()
    ensures { AlikeRunAlike }
{}

/// A compacted history gives the replies of the history, until that is full.
pub fn compacted_runs_alike()
    ensures { CompactedRunsAlike }
{}

/// The changes of a later life that began with the compacted history open the cell to all replies of
/// the earlier life too.
pub fn earlier_lives_stay_open()
    ensures { EarlierLivesStayOpen }
{}

/// What a log of allowed entries leaves is admissible.
pub fn left_is_admissible()
    ensures { LeftIsAdmissible }
{}

/// An admissible history is left as it is.
pub fn admissible_is_left()
    ensures { AdmissibleIsLeft }
{}

/// An entry is taken exactly where it brings something and leaves each protected cell protected.
pub fn entries_are_taken()
    ensures { EntriesAreTaken }
{}

/// An entry that is passed over would bring nothing.
pub fn passed_brings_nothing()
    ensures { PassedBringsNothing }
{}
