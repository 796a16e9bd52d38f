// Talks of a desk that says its ask again, by the definitions alone.
ghost use Rattle.std.specs.Prelude.{◌≡◌, ◌∷◌, [], codes};
ghost use Rattle.cube_model.specs.declared.ask.Question.TheVariants.{Query, Shape, Witness};
ghost use Rattle.cube_model.specs.declared.outcome.Outcome.TheVariants.{Given as given, JournalFault, NoMemory};
ghost use Rattle.cube_talk.specs.Asks.{FailedFresh, question_of, talk};
ghost use Rattle.cube_talk.specs.Examples.{echo};
ghost use Rattle.cube_talk.specs.Failing.{InHand};
ghost use Rattle.cube_model.specs.Rooms.{Room};

/// What the definition writes to some lines: an ask that finds no memory takes its outcome, behind the stated asks nothing is said,
/// nor where an outcome is needed and none is left.
pub fn worked_talk()
    ensures stated { talk echo [] (codes "a" ∷ codes "bc" ∷ codes "d" ∷ []) (given ∷ NoMemory ∷ []) 2 ≡ codes "200 2\na\n500 10\nno memory\n" }
    ensures all { talk echo [] (codes "a" ∷ codes "bc" ∷ []) (given ∷ given ∷ []) 3 ≡ codes "200 2\na\n200 3\nbc\n" }
    ensures no_outcome { talk echo [] (codes "a" ∷ codes "bc" ∷ []) (given ∷ []) 3 ≡ codes "200 2\na\n" }
{}

/// What the definition takes some lines for.
pub fn worked_lines()
    ensures shape { question_of (codes "shape") ≡ Shape }
    ensures longer { question_of (codes "shapes") ≡ Query (codes "shapes") }
    ensures witness { question_of (codes "witness cell pay") ≡ Witness (codes "cell pay") }
    ensures nothing { question_of (codes "witness ") ≡ Witness [] }
    ensures no_blank { question_of (codes "witness") ≡ Query (codes "witness") }
    ensures query { question_of (codes "cell pay") ≡ Query (codes "cell pay") }
{}

/// For what asks the definition lets the journal fail: for none that adds to no history.
pub fn worked_faults()
    ensures first { ¬ FailedFresh echo [] (codes "a" ∷ codes "bc" ∷ []) (JournalFault ∷ given ∷ []) }
    ensures second { ¬ FailedFresh echo [] (codes "a" ∷ codes "bc" ∷ []) (given ∷ JournalFault ∷ []) }
    ensures none { FailedFresh echo [] (codes "a" ∷ codes "bc" ∷ []) (given ∷ NoMemory ∷ []) }
{}

/// What a crash may leave while two lines are answered, of which the journal fails for the first: nothing yet, or the request of the
/// first alone, which was in hand, or that of the second alone; but not both.
pub fn worked_hand()
    ensures nothing { (r : Room) → InHand r [] }
    ensures first { (r : Room) → InHand r (r ∷ []) }
    ensures second { (r : Room) → InHand r (r ∷ r ∷ []) }
    ensures both { (r : Room) → ¬ InHand r (r ∷ r ∷ r ∷ []) }
{}
