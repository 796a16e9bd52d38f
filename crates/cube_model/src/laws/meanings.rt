// What cuboids, cuts, rows, order and protected cells mean.
ghost use Rattle.cube_model.specs.Meanings.{MeetIsGreatest, CutIsCuts, CoarserCuts, InOrder, RowsAreRows, ProtectedAre, CuboidsAreNumbered, ProtectedInOrder, ProtectedOnce};

/// The meet of two cuboids is the coarsest that is finer than or equal to both.
pub fn meet_is_greatest()
    ensures { MeetIsGreatest }
{}

/// A cuboid cuts a cell exactly where it has a covered place together with one that is not covered.
pub fn cut_is_cuts()
    ensures { CutIsCuts }
{}

/// A cuboid coarser than one that cuts a cell cuts it too.
pub fn coarser_cuts()
    ensures { CoarserCuts }
{}

/// Keys in order are the same keys, each before all later ones.
pub fn in_order()
    ensures { InOrder }
{}

/// The keys of rows increase, no row is empty, and a place stands in a row exactly where it is picked
/// and has the row's key.
pub fn rows_are_rows()
    ensures { RowsAreRows }
{}

/// A cell of a lattice measure is protected exactly where an object of the measure stands at or above
/// it, it has few enough facts for the object, and it covers a place of the object's slice.
pub fn protected_are()
    ensures { ProtectedAre }
{}

/// Each cuboid stands at its number among all cuboids.
pub fn cuboids_are_numbered()
    ensures { CuboidsAreNumbered }
{}

/// The protected cells of a lattice measure stand in the order of objects, cuboid numbers and keys.
pub fn protected_in_order()
    ensures { ProtectedInOrder }
{}

/// No cell stands twice among the protected cells of a lattice measure.
pub fn protected_once()
    ensures { ProtectedOnce }
{}
