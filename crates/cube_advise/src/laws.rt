// Laws on the finest open cuboids, and on the links that are held.
ghost use Rattle.cube_advise.specs.OpenLaws.{FinestOpenAre, FinestOpenAtFirst, FinestOpenAreAnswered};
ghost use Rattle.cube_advise.specs.Holdings.{HeldLinksAreFew};

/// The finest open cuboids are open, none is finer than another, and each open cuboid is at or above one of them.
pub fn finest_open_are()
    ensures { FinestOpenAre }
{}

/// Where a history has no source of the measure, they are the finest safe cuboids.
pub fn finest_open_at_first()
    ensures { FinestOpenAtFirst }
{}

/// A request on a lattice measure is answered exactly where its grain is coarser than or equal to a finest open cuboid, while the
/// history is not full.
pub fn finest_open_are_answered()
    ensures { FinestOpenAreAnswered }
{}

/// An admissible history holds at most as many links of a parity measure as there are places, and one less where one is protected.
pub fn held_links_are_few()
    ensures { HeldLinksAreFew }
{}
