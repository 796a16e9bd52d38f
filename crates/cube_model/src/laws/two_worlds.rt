// The two worlds: what was said tells nothing of a protected cell.
ghost use Rattle.cube_model.specs.TwoWorlds.{TwoWorlds, LaterChanges, ChangesOfMore, StaysAdmissible};
ghost use Rattle.cube_model.specs.Kept.{KeptIsOpen, KeptRequestsAreOpen, UnkeptIs};

/// Whatever is asked, from whatever admissible history on: with the changes for the history at the
/// end, the same replies come and the sum of the protected cell is greater by one.
pub fn two_worlds()
    ensures { TwoWorlds }
{}

/// So it is with the changes for any admissible history that goes on from the one at the end.
pub fn later_changes()
    ensures { LaterChanges }
{}

/// So it is with the changes for any admissible history that holds all that the one at the end does.
pub fn changes_of_more()
    ensures { ChangesOfMore }
{}

/// An admissible history stays admissible, whatever is asked.
pub fn stays_admissible()
    ensures { StaysAdmissible }
{}

/// Entries that keep a measure, in whatever order and however they came, leave its protected cells
/// open.
pub fn kept_is_open()
    ensures { KeptIsOpen }
{}

/// Requests that keep a measure, whoever answered them, leave its protected cells open.
pub fn kept_requests_are_open()
    ensures { KeptRequestsAreOpen }
{}

/// A measure is kept exactly where no protected cell of it fails.
pub fn unkept_is()
    ensures { UnkeptIs }
{}
