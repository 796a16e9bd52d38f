// What suiting, free, follows, basis and walks mean.
ghost use Rattle.cube_model.specs.LinkLaws.{SuitingIs, FreeIs, FollowsIs, BasisSuits, BasisOfMore, BasisIsShort, SameChanges, WalksSuffice, FreeIsNotFixed, SingleFollows, PairFollows, FreeFromFewer};

/// The lists that suit links are those of one small entry per place that suit each link.
pub fn suiting_is()
    ensures { SuitingIs }
{}

/// A place is free exactly where some list that suits the links has +1 there.
pub fn free_is()
    ensures { FreeIs }
{}

/// A link follows exactly where each list that suits the links suits it.
pub fn follows_is()
    ensures { FollowsIs }
{}

/// The same lists suit links and their basis.
pub fn basis_suits()
    ensures { BasisSuits }
{}

/// The basis of a basis followed by more links is that of all of them.
pub fn basis_of_more()
    ensures { BasisOfMore }
{}

/// A basis has at most as many links as there are places.
pub fn basis_is_short()
    ensures { BasisIsShort }
{}

/// Links that the same lists suit give the same changes at a free place.
pub fn same_changes()
    ensures { SameChanges }
{}

/// Walks of at most twice as many pairs as there are places lead wherever walks lead.
pub fn walks_suffice()
    ensures { WalksSuffice }
{}

/// A place is free exactly where it is not fixed: no walk from it comes to one place both ways or to a
/// single.
pub fn free_is_not_fixed()
    ensures { FreeIsNotFixed }
{}

/// A single follows exactly where its place is fixed.
pub fn single_follows()
    ensures { SingleFollows }
{}

/// A pair follows exactly where both its places are fixed, or an odd walk leads from one to the other.
pub fn pair_follows()
    ensures { PairFollows }
{}

/// What is free from more links is free from fewer.
pub fn free_from_fewer()
    ensures { FreeFromFewer }
{}
