// The worked cubes: each clause holds by evaluating the definitions on a small cube.
#![tactic(auto, unfolding(cube_model::specs::Cubes::up, cube_model::specs::Cubes::key_at, cube_model::specs::Requests::is_picked, cube_model::specs::Requests::grain, cube_model::specs::Protection::protected, cube_model::specs::Protection::cutting_pairs, cube_model::specs::Links::links, cube_model::specs::Links::suiting, cube_model::specs::Verdicts::source, cube_model::specs::Verdicts::links_of, cube_model::specs::Verdicts::verdict))]

ghost use Rattle.std.specs.Prelude.{◌≡◌, [], ◌∷◌, true, false, Some, codes};
ghost use Rattle.cube_model.specs.declared.entry.Entry.TheVariants.{Source, Linked};
ghost use Rattle.cube_model.specs.declared.link.Link.TheVariants.{Pair, Single};
ghost use Rattle.cube_model.specs.Examples.{two, cell, cell_at, slice, ask};
ghost use Rattle.cube_carry.specs.TwoLives.{AreLives};
ghost use Rattle.cube_model.specs.Verdicts.{verdict};
ghost use Rattle.cube_model.specs.declared.verdict.Verdict.TheVariants.{Answer, SourceWould};
ghost use Rattle.cube_carry.specs.Names.{known};
ghost use Rattle.cube_carry.specs.Continues.{Continues, breaches};
ghost use Rattle.cube_carry.specs.Continues.Breach.{NoPath, NoMeasure, NoPoint, NotProtected};
ghost use Rattle.cube_model.specs.Protection.{first};
ghost use Rattle.cube_carry.specs.Carrying.{carried_history, stops, IsCarried};
ghost use Rattle.cube_carry.specs.Carrying.Stop.{NoSource, Fixes};
ghost use Rattle.cube_carry.specs.Rows.{pay_by, pay_and_hours, hours_and_pay, two_months, three_months, four_months, by_area, by_month, by_city, by_area_and_quarter, south_in_january, south_in_february, areas_in_february, paris_in_quarter, lille, nantes, with_branch, lille_moved, one_empty, two_empty, one_more_fact, hours_of_south, in_january, lyon_in_february, pay_from, pay_with_march};

/// March is added to two months of one quarter, and April to three.
pub fn sources_are_carried()
    ensures areas { carried_history (pay_by (two 0 0) two_months) (pay_by (two 0 0) three_months) (by_area ∷ []) ≡ Source 0 (two 1 0) ∷ [] }
    ensures months { carried_history (pay_by (two 0 0) two_months) (pay_by (two 0 0) three_months) (by_month ∷ by_area ∷ []) ≡ Source 0 (two 1 0) ∷ [] }
    ensures carried { IsCarried (pay_by (two 0 0) two_months) (pay_by (two 0 0) three_months) (by_area ∷ []) }
    ensures not_cities { stops (pay_by (two 0 0) two_months) (pay_by (two 0 0) three_months) (by_city ∷ []) ≡ NoSource 0 ∷ [] }
    ensures quarter_ends { carried_history (pay_by (two 0 0) three_months) (pay_by (two 0 0) four_months) (by_area_and_quarter ∷ []) ≡ Source 0 (two 1 1) ∷ [] }
    ensures quarters_protected { carried_history (pay_by (two 0 1) two_months) (pay_by (two 0 1) three_months) (by_area ∷ []) ≡ Source 0 (two 1 0) ∷ [] }
    ensures told_already { verdict (known (pay_by (two 0 0) three_months)) (Source 0 (two 1 0) ∷ []) (slice 0 1 2) ≡ Answer false }
    ensures not_by_city { verdict (known (pay_by (two 0 0) three_months)) (Source 0 (two 1 0) ∷ []) (slice 0 0 2) ≡ SourceWould (two 0 0) (cell 0 0) }
    ensures by_city_before { verdict (known (pay_by (two 0 0) two_months)) (by_area ∷ []) (slice 0 0 2) ≡ Answer true }
    ensures nothing { carried_history (pay_by (two 0 0) two_months) (pay_by (two 0 0) three_months) [] ≡ [] }
{}

/// The links of the hours, where the cities and the measures stand in another order.
pub fn links_are_carried()
    ensures as_asked { carried_history pay_and_hours hours_and_pay (by_area ∷ south_in_january ∷ south_in_february ∷ paris_in_quarter ∷ []) ≡ Linked 0 (Pair 3 9) ∷ Linked 0 (Pair 4 10) ∷ Linked 0 (Pair 6 7) ∷ Source 1 (two 1 0) ∷ [] }
    ensures both_areas { carried_history pay_and_hours hours_and_pay (by_area ∷ south_in_january ∷ areas_in_february ∷ paris_in_quarter ∷ []) ≡ Linked 0 (Pair 3 9) ∷ Linked 0 (Pair 4 10) ∷ Linked 0 (Pair 7 1) ∷ Linked 0 (Pair 6 7) ∷ Source 1 (two 1 0) ∷ [] }
{}

/// Which cubes continue which.
pub fn cubes_continue()
    ensures months { Continues (pay_by (two 0 0) two_months) (pay_by (two 0 0) three_months) }
    ensures quarters { Continues (pay_by (two 0 1) two_months) (pay_by (two 0 1) three_months) }
    ensures more { Continues (pay_by (two 0 0) two_months) (pay_by (two 0 1) three_months) }
    ensures orders { Continues pay_and_hours hours_and_pay }
{}

/// What keeps a cube from continuing another: one more fact at an old point, another value there, a
/// leaf that moved, a city that is gone, a measure that is gone, a policy that protects less.
pub fn others_do_not_continue()
    ensures nothing { breaches (pay_by (two 0 0) two_months) (pay_by (two 0 0) three_months) (pay_from 10) pay_with_march ≡ [] }
    ensures fact { breaches (pay_by (two 0 0) two_months) one_more_fact (pay_from 10) (pay_from 10) ≡ NoPoint 0 ∷ [] }
    ensures other_value { breaches (pay_by (two 0 0) two_months) (pay_by (two 0 0) three_months) (pay_from 11) pay_with_march ≡ NoPoint 0 ∷ [] }
    ensures moved { breaches (pay_by (two 0 0) two_months) lille_moved (pay_from 10) (pay_from 10) ≡ NoPath (codes "region") lille ∷ [] }
    ensures gone { first (breaches with_branch (pay_by (two 0 0) two_months) (pay_from 10) (pay_from 10)) ≡ Some (NoPath (codes "region") nantes) }
    ensures measure { first (breaches pay_and_hours (pay_by (two 0 0) two_months) (pay_from 10) (pay_from 10)) ≡ Some (NoMeasure 1) }
    ensures less { first (breaches (pay_by (two 0 1) two_months) (pay_by (two 0 0) three_months) (pay_from 10) pay_with_march) ≡ Some (NotProtected 0 (cell_at 0 1 0 0)) }
{}

/// A new branch, late facts where there were none, and a policy that guards more.
pub fn growth_is_carried_or_stops()
    ensures branch { Continues (pay_by (two 0 0) two_months) with_branch }
    ensures by_cities { carried_history (pay_by (two 0 0) two_months) with_branch (by_area ∷ []) ≡ Source 0 (two 0 2) ∷ [] }
    ensures late { Continues one_empty (pay_by (two 0 0) two_months) }
    ensures late_stops { stops one_empty (pay_by (two 0 0) two_months) (by_area ∷ []) ≡ NoSource 0 ∷ [] }
    ensures late_together { carried_history two_empty (pay_by (two 0 0) two_months) (by_area ∷ []) ≡ Source 0 (two 1 0) ∷ [] }
    ensures guards_more { Continues (hours_of_south in_january) (hours_of_south []) }
    ensures fixed { stops (hours_of_south in_january) (hours_of_south []) (lyon_in_february ∷ []) ≡ Fixes 0 (cell 0 1) ∷ [] }
    ensures free { IsCarried (hours_of_south in_january) (hours_of_south in_january) (lyon_in_february ∷ []) }
{}

/// Two lives of the worked cubes: pay by area is asked, March is added, and pay by area and month is asked.
pub fn premises_hold()
    ensures { AreLives (pay_by (two 0 0) two_months) (pay_by (two 0 0) three_months) (pay_from 10) pay_with_march [] (ask (slice 0 1 2) ∷ []) (ask (slice 0 1 0) ∷ []) (Source 0 (two 1 0) ∷ []) }
{}
