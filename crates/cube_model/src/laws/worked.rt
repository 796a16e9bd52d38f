// The worked examples: each clause holds by evaluating the definitions on a small cube.
#![tactic(auto, unfolding(crate::specs::Cubes::up, crate::specs::Cubes::key_at, crate::specs::Requests::is_picked, crate::specs::Requests::grain, crate::specs::Protection::protected, crate::specs::Protection::cutting_pairs, crate::specs::Links::links, crate::specs::Links::suiting, crate::specs::Verdicts::source, crate::specs::Verdicts::links_of, crate::specs::Verdicts::verdict, crate::specs::Requests::is_valid, crate::specs::Entries::is_allowed, crate::specs::Verdicts::taken, crate::specs::Twins::changes))]

ghost use Rattle.std.specs.Prelude.{◌≡◌, ◌++◌, true, false, [], ◌∷◌, pos, negsuc, None, Some};
ghost use Rattle.cube_model.specs.declared.request.What.TheVariants.{Count, Measure};
ghost use Rattle.cube_model.specs.declared.verdict.Verdict.TheVariants.{Full, SourceWould, Pair as PairFixes, Single as SingleFixes};
ghost use Rattle.cube_model.specs.declared.link.Link.TheVariants.{Pair, Single};
ghost use Rattle.cube_model.specs.declared.entry.Entry.TheVariants.{Source, Linked, Asked};
ghost use Rattle.cube_model.specs.declared.outcome.Outcome.TheVariants.{JournalFault, NoMemory};
ghost use Rattle.cube_model.specs.Cubes.{IsWorld, up, key_at, together, covered, meet, is_finer, in_order, cuboids_below, cuboid_count, cuboid_number};
ghost use Rattle.cube_model.specs.Requests.{values, grain};
ghost use Rattle.cube_model.specs.Protection.{protected, guarded, is_cut};
ghost use Rattle.cube_model.specs.Links.{links, basis, follows, is_free, pairs_among, reached};
ghost use Rattle.cube_model.specs.Entries.{asked, is_allowed};
ghost use Rattle.cube_model.specs.Verdicts.{source, links_of, IsAdmissible};
ghost use Rattle.cube_model.specs.Twins.{changes, moves, twin};
ghost use Rattle.cube_model.specs.Runs.{replies, end, by_rules};
ghost use Rattle.cube_model.specs.Runs.Reply.{Malformed, ToWitness, Known, Failed, NoPath, UnknownGroup};
ghost use Rattle.cube_model.specs.Runs.WitnessReply.{EmptyCell, NotProtected, NotOfMeasure};
ghost use Rattle.cube_model.specs.EvenBoxes.{IsFull, IsEvenBox};
ghost use Rattle.cube_model.specs.Kept.{unkept};
ghost use Rattle.cube_model.specs.Compaction.{compacted};
ghost use Rattle.cube_model.specs.Logs.{left};
ghost use Rattle.cube_model.specs.Logs.Left.{Leaves, Stops};
ghost use Rattle.cube_model.specs.Reasons.{is_reason};
ghost use Rattle.cube_model.specs.Reasons.Origin.{By, Own};
ghost use Rattle.cube_model.specs.Reasons.Reason.{Blocks, Walk};
ghost use Rattle.cube_model.specs.Safe.{finest};
ghost use Rattle.cube_model.specs.Rooms.{replies_in, plain, AreApart};
ghost use Rattle.cube_model.specs.Examples.{region, pay_cube, pay_open, pay_twice, pay_in_both, pay_and_third, hours_in_south, hours_in_either, hours_in_both, pay_of_few, hours_of_few, one_place_cube, empty_cube, two_row_cube, full_cube, day_cube, two, slice, range, picks, pick, leaves, count_by, by_level, ask, ask_fault, ask_no_memory, ask_witness, ask_shape, cell, cell_at, line, line1, answered, refused, changed, sums, months, many, two_ranges, two_links, even_boxes, staff, board, two_rooms, of_group, step};

/// Sums by month, by area and in one sum; numbers of facts; members of three levels; rows where
/// nothing is picked and where there is nothing.
pub fn answers_are_plain_sums()
    ensures months { replies by_rules pay_cube [] (ask (slice 0 2 0) ∷ []) ≡ answered (line 0 0 80 ∷ line 0 1 70 ∷ []) ∷ [] }
    ensures areas { replies by_rules pay_cube [] (ask (slice 0 1 2) ∷ []) ≡ answered (line 0 0 60 ∷ line 1 0 90 ∷ []) ∷ [] }
    ensures quarter { replies by_rules pay_cube (months ∷ []) (ask (slice 0 2 1) ∷ []) ≡ answered (line 0 0 150 ∷ []) ∷ [] }
    ensures counts { replies by_rules pay_open [] (ask (count_by 1 2) ∷ ask (slice 0 2 0) ∷ []) ≡ answered (line 0 0 6 ∷ line 1 0 2 ∷ []) ∷ answered (line 0 0 80 ∷ line 0 1 70 ∷ []) ∷ [] }
    ensures open_cells { replies by_rules pay_open [] (ask (slice 0 0 0) ∷ []) ≡ answered (line 0 0 10 ∷ line 0 1 20 ∷ line 1 0 30 ∷ line 2 0 40 ∷ line 2 1 50 ∷ []) ∷ [] }
    ensures upper_levels { replies by_rules day_cube [] (ask (by_level 1) ∷ ask (by_level 2) ∷ []) ≡ answered (line1 0 3 ∷ line1 1 4 ∷ line1 2 8 ∷ []) ∷ answered (line1 0 11 ∷ line1 1 4 ∷ []) ∷ [] }
    ensures picked_above { replies by_rules day_cube [] (ask (record { what = Measure 0; group = 3 ∷ []; picks = pick 1 1 2 ∷ [] }) ∷ []) ≡ answered (line1 0 12 ∷ []) ∷ [] }
    ensures none_picked { replies by_rules pay_cube [] (ask (range 1 2 (leaves 1 1) (leaves 1 1)) ∷ []) ≡ answered [] ∷ [] }
    ensures no_facts { replies by_rules empty_cube [] (ask (slice 0 2 0) ∷ ask (slice 1 0 0) ∷ ask (count_by 2 2) ∷ []) ≡ answered [] ∷ answered [] ∷ answered [] ∷ [] }
{}

/// Members by number, and the places that cells cover and cuboids have together.
pub fn cells_cover_places()
    ensures south { up region 1 1 ≡ 0 }
    ensures north { up region 1 2 ≡ 1 }
    ensures all { up region 2 2 ≡ 0 }
    ensures key { key_at pay_cube.shown (two 1 0) 3 ≡ two 1 0 }
    ensures south_in_january { covered pay_cube.shown (cell_at 1 0 0 0) ≡ 0 ∷ 2 ∷ [] }
    ensures empty { covered pay_cube.shown (cell 1 1) ≡ [] }
    ensures by_month { together pay_cube.shown (two 2 0) 1 4 ≡ true }
    ensures by_area { together pay_cube.shown (two 1 0) 1 4 ≡ false }
    ensures cut { is_cut pay_cube.shown (two 2 0) (cell 1 0) ≡ true }
    ensures not_cut { is_cut pay_cube.shown (two 0 2) (cell 1 0) ≡ false }
{}

/// The order of keys, cuboids, their meet, and grains.
pub fn cuboids_in_order()
    ensures keys { in_order (two 1 0 ∷ two 0 2 ∷ two 1 0 ∷ two 0 1 ∷ []) ≡ two 0 1 ∷ two 0 2 ∷ two 1 0 ∷ [] }
    ensures below { cuboids_below (two 1 2) ≡ two 0 0 ∷ two 0 1 ∷ two 0 2 ∷ two 1 0 ∷ two 1 1 ∷ two 1 2 ∷ [] }
    ensures number { cuboid_number pay_cube.shown.dimensions (two 1 2) ≡ 5 }
    ensures how_many { cuboid_count pay_cube.shown.dimensions ≡ 9 }
    ensures meet { meet (two 2 0) (two 1 1) ≡ two 1 0 }
    ensures meet_of_two { meet (two 0 1) (two 1 0) ≡ two 0 0 }
    ensures finer { is_finer (two 1 0) (two 1 1) ≡ true }
    ensures not_finer { is_finer (two 1 0) (two 0 1) ≡ false }
    ensures grain { grain (picks 0 2 1 (pick 0 0 0) (pick 1 0 0)) ≡ two 0 1 }
{}

/// The source of pay: what is cut by it is answered, and the first protected cell that is not is
/// named.
pub fn sources_cut_protected_cells()
    ensures cities { replies by_rules pay_cube [] (ask (slice 0 0 2) ∷ []) ≡ refused (SourceWould (two 0 2) (cell 1 0)) ∷ [] }
    ensures areas_after_months { replies by_rules pay_cube (months ∷ []) (ask (slice 0 1 2) ∷ []) ≡ refused (SourceWould (two 1 0) (cell 0 1)) ∷ [] }
    ensures first_of_three { replies by_rules pay_cube [] (ask (slice 0 1 0) ∷ []) ≡ refused (SourceWould (two 1 0) (cell 0 1)) ∷ [] }
    ensures one_cell { replies by_rules pay_cube [] (ask (picks 0 2 0 (pick 1 0 0) None) ∷ []) ≡ refused (SourceWould (two 1 0) (cell 0 1)) ∷ [] }
    ensures months_source { source (months ∷ []) 0 ≡ Some (two 2 0) }
    ensures no_source { source (months ∷ []) 1 ≡ None }
    ensures other_measure { source (Source 1 (two 0 0) ∷ months ∷ []) 0 ≡ Some (two 2 0) }
    ensures not_narrowed { source (months ∷ Asked (slice 0 2 1) ∷ []) 0 ≡ Some (two 2 0) }
    ensures narrowed { source (Asked (slice 0 1 2) ∷ Source 0 (two 2 1) ∷ []) 0 ≡ Some (two 1 1) }
    ensures months_kept { end by_rules pay_cube.shown [] (ask (slice 0 2 0) ∷ ask (slice 0 2 1) ∷ []) ≡ months ∷ [] }
    ensures areas_not_kept { end by_rules pay_cube.shown (months ∷ []) (ask (slice 0 1 2) ∷ []) ≡ months ∷ [] }
    ensures none_picked_narrows { end by_rules pay_and_third.shown [] (ask (range 2 2 (leaves 1 1) (leaves 1 1)) ∷ []) ≡ Asked (range 2 2 (leaves 1 1) (leaves 1 1)) ∷ [] }
{}

/// The links of hours: what leaves each protected place free is answered, and the first link and
/// the first place that is not free are named.
pub fn links_leave_places_free()
    ensures row_by_row { links pay_cube.shown (slice 1 2 0) ≡ Pair 0 2 ∷ Single 3 ∷ Pair 1 4 ∷ [] }
    ensures other_measure { links_of two_row_cube.shown (Linked 1 (Single 0) ∷ two_links) 0 ≡ Pair 0 1 ∷ Pair 1 2 ∷ [] }
    ensures one_row { links pay_cube.shown (slice 1 2 2) ≡ Pair 0 1 ∷ Pair 2 3 ∷ Single 4 ∷ [] }
    ensures hours { replies by_rules pay_cube [] (ask (range 1 2 (leaves 0 1) (leaves 0 0)) ∷ ask (range 1 2 (leaves 0 1) (leaves 0 1)) ∷ []) ≡ answered (line 0 0 4 ∷ []) ∷ refused (SingleFixes 2 2 0) ∷ [] }
    ensures hours_at_first { replies by_rules pay_cube [] (ask (range 1 2 (leaves 0 1) (leaves 0 1)) ∷ []) ≡ refused (SingleFixes 2 2 2) ∷ [] }
    ensures odd_above { replies by_rules pay_cube [] (ask (range 1 2 (pick 1 0 0) None) ∷ []) ≡ refused (SingleFixes 2 2 2) ∷ [] }
    ensures triangle { replies by_rules two_row_cube [] (ask (range 0 1 None (leaves 0 1)) ∷ ask (range 0 1 (leaves 1 1) None) ∷ ask (range 0 1 None (leaves 1 2)) ∷ []) ≡ answered (line 0 0 15 ∷ []) ∷ answered (line 0 0 17 ∷ []) ∷ refused (PairFixes 1 0 2 0) ∷ [] }
    ensures single_first { replies by_rules two_row_cube [] (ask (slice 0 0 1) ∷ []) ≡ refused (SingleFixes 1 0 0) ∷ [] }
    ensures single_alone { replies by_rules two_row_cube [] (ask (slice 0 1 0) ∷ []) ≡ refused (SingleFixes 1 1 1) ∷ [] }
    ensures none_picked_not_kept { end by_rules pay_cube.shown [] (ask (range 1 2 (leaves 1 1) (leaves 1 1)) ∷ []) ≡ [] }
    ensures basis { basis 3 (Pair 0 1 ∷ Pair 1 0 ∷ Pair 1 2 ∷ Pair 0 2 ∷ Single 1 ∷ []) ≡ Pair 0 1 ∷ Pair 1 2 ∷ Pair 0 2 ∷ [] }
    ensures follows_opposite { follows 4 (Pair 0 1 ∷ Pair 1 2 ∷ Pair 2 3 ∷ []) (Pair 0 3) ≡ true }
    ensures follows_not_alike { follows 3 (Pair 0 1 ∷ Pair 1 2 ∷ []) (Pair 0 2) ≡ false }
    ensures even_walk_is_free { is_free 4 (Pair 0 1 ∷ Pair 1 2 ∷ Pair 2 3 ∷ Pair 3 0 ∷ []) 0 ≡ true }
    ensures walks { reached 3 (pairs_among (Pair 0 1 ∷ Single 1 ∷ Pair 1 2 ∷ [])) 0 2 ≡ record { evenly = 0 ∷ 2 ∷ []; oddly = 1 ∷ [] } }
{}

/// Objects: a slice of one dimension, of two, several objects of one measure, an object of an
/// upper level, which protects the cells below it too.
pub fn objects_protect()
    ensures south { replies by_rules hours_in_south [] (ask (range 1 2 (leaves 2 2) (leaves 0 0)) ∷ ask (range 1 2 (leaves 1 2) (leaves 0 0)) ∷ ask (range 1 2 (pick 1 0 0) None) ∷ []) ≡ answered (line 0 0 4 ∷ []) ∷ refused (PairFixes 1 2 3 2) ∷ refused (SingleFixes 2 2 2) ∷ [] }
    ensures south_rows { replies by_rules hours_in_south [] (ask (slice 1 2 0) ∷ []) ≡ answered (line 0 0 8 ∷ line 0 1 7 ∷ []) ∷ [] }
    ensures all { protected pay_cube.shown 1 ≡ cell 0 0 ∷ cell 0 1 ∷ cell 1 0 ∷ cell 2 0 ∷ cell 2 1 ∷ [] }
    ensures either { protected hours_in_either.shown 1 ≡ cell 0 0 ∷ cell 0 1 ∷ cell 1 0 ∷ cell 2 1 ∷ [] }
    ensures both { protected hours_in_both.shown 1 ≡ cell 0 1 ∷ [] }
    ensures both_of_pay { protected pay_in_both.shown 0 ≡ cell 0 1 ∷ [] }
    ensures twice { protected pay_twice.shown 0 ≡ cell 2 0 ∷ cell 2 1 ∷ cell 0 0 ∷ cell 0 1 ∷ cell 1 0 ∷ cell_at 0 1 0 0 ∷ cell_at 0 1 1 0 ∷ cell_at 0 1 2 0 ∷ cell_at 1 0 0 0 ∷ cell_at 1 0 0 1 ∷ cell_at 1 0 1 0 ∷ cell_at 1 0 1 1 ∷ cell_at 1 1 0 0 ∷ cell_at 1 1 1 0 ∷ [] }
    ensures few { protected pay_of_few.shown 0 ≡ cell 0 0 ∷ cell 0 1 ∷ cell 1 0 ∷ cell 2 0 ∷ cell 2 1 ∷ cell_at 0 1 1 0 ∷ cell_at 0 2 1 0 ∷ cell_at 1 0 0 1 ∷ cell_at 1 0 1 0 ∷ cell_at 1 0 1 1 ∷ [] }
    ensures few_places { guarded hours_of_few.shown 1 ≡ 0 ∷ 2 ∷ 4 ∷ [] }
    ensures few_replies { replies by_rules pay_of_few [] (ask (slice 0 1 1) ∷ ask (slice 0 1 0) ∷ ask (slice 0 0 1) ∷ []) ≡ answered (line 0 0 60 ∷ line 1 0 90 ∷ []) ∷ refused (SourceWould (two 1 0) (cell 0 1)) ∷ refused (SourceWould (two 0 1) (cell 1 0)) ∷ [] }
    ensures open { protected pay_open.shown 0 ≡ [] }
    ensures nowhere { protected empty_cube.shown 0 ≡ [] }
    ensures no_place { guarded empty_cube.shown 1 ≡ [] }
{}

/// Witnesses: the changes for a protected cell, and what is said of other cells.
pub fn changes_show_another_cube()
    ensures at_first { changes pay_cube.shown [] 0 (cell 0 1) ≡ pos 0 ∷ pos 1 ∷ pos 0 ∷ pos 0 ∷ pos 0 ∷ [] }
    ensures after_months { replies by_rules pay_cube (months ∷ []) (ask_witness (Measure 0) (cell 0 1) ∷ []) ≡ changed (pos 0 ∷ pos 1 ∷ pos 0 ∷ pos 0 ∷ negsuc 0 ∷ []) ∷ [] }
    ensures moves { moves pay_cube.shown (changes pay_cube.shown (months ∷ []) 0 (cell 0 1)) ≡ record { place = 1; by = pos 1 } ∷ record { place = 4; by = negsuc 0 } ∷ [] }
    ensures least_pair { moves pay_cube.shown (changes pay_cube.shown (months ∷ []) 0 (cell 0 0)) ≡ record { place = 0; by = pos 1 } ∷ record { place = 2; by = negsuc 0 } ∷ [] }
    ensures by_walks { changes two_row_cube.shown two_ranges 0 (cell 1 2) ≡ pos 1 ∷ negsuc 0 ∷ pos 1 ∷ [] }
    ensures twin { values (twin pay_cube 0 (changes pay_cube.shown (months ∷ []) 0 (cell 0 1))) 0 ≡ pos 10 ∷ pos 21 ∷ pos 30 ∷ pos 40 ∷ pos 49 ∷ [] }
    ensures same_in_twin { replies by_rules (twin pay_cube 0 (changes pay_cube.shown (months ∷ []) 0 (cell 0 1))) [] (ask (slice 0 2 0) ∷ ask (slice 0 1 2) ∷ []) ≡ replies by_rules pay_cube [] (ask (slice 0 2 0) ∷ ask (slice 0 1 2) ∷ []) }
    ensures no_witness { replies by_rules pay_cube (months ∷ []) (ask_witness (Measure 0) (cell 1 1) ∷ ask_witness (Measure 0) (cell_at 1 2 0 0) ∷ ask_witness Count (cell 0 0) ∷ []) ≡ ToWitness EmptyCell ∷ ToWitness NotProtected ∷ ToWitness NotOfMeasure ∷ [] }
    ensures not_protected { replies by_rules hours_in_south [] (ask_witness (Measure 1) (cell 2 0) ∷ ask_witness (Measure 1) (cell 0 0) ∷ []) ≡ ToWitness NotProtected ∷ changed (pos 1 ∷ pos 0 ∷ pos 0 ∷ pos 0 ∷ pos 0 ∷ []) ∷ [] }
{}

/// What enters the history, and the most requests that it holds.
pub fn histories_hold_requests()
    ensures counts { end by_rules pay_open.shown [] (ask (count_by 1 2) ∷ []) ≡ [] }
    ensures open { end by_rules pay_open.shown [] (ask (slice 0 2 0) ∷ []) ≡ [] }
    ensures fresh { end by_rules two_row_cube.shown [] (ask (range 0 1 None (leaves 0 1)) ∷ ask (range 0 1 (leaves 1 1) None) ∷ []) ≡ two_ranges }
    ensures full { replies by_rules pay_and_third (months ∷ many 16383) (ask (slice 0 2 1) ∷ ask (slice 0 1 2) ∷ ask (slice 1 2 2) ∷ []) ≡ answered (line 0 0 150 ∷ []) ∷ refused (Full 16384) ∷ refused (Full 16384) ∷ [] }
    ensures not_full { replies by_rules pay_and_third (Source 0 (two 2 0) ∷ Linked 1 (Pair 0 1) ∷ many 16383) (ask (slice 0 1 2) ∷ ask (slice 1 2 2) ∷ []) ≡ refused (SourceWould (two 1 0) (cell 0 1)) ∷ refused (SingleFixes 3 4 4) ∷ [] }
{}

/// Requests that are not valid, faults from outside, and the shape.
pub fn requests_are_checked()
    ensures one_member { replies by_rules pay_cube [] (ask (picks 0 2 0 (pick 0 0 1) None) ∷ []) ≡ Malformed ∷ [] }
    ensures members_in_range { replies by_rules pay_cube [] (ask (picks 1 2 2 (leaves 1 0) None) ∷ ask (picks 1 2 2 (leaves 0 3) None) ∷ ask (picks 1 2 2 (pick 1 2 2) None) ∷ ask (picks 1 2 2 (pick 2 0 0) None) ∷ ask (slice 2 2 2) ∷ ask (slice 1 3 2) ∷ ask (record { what = Measure 1; group = two 2 2; picks = None ∷ [] }) ∷ []) ≡ Malformed ∷ Malformed ∷ Malformed ∷ Malformed ∷ Malformed ∷ Malformed ∷ Malformed ∷ [] }
    ensures faults { replies by_rules pay_cube [] (ask_fault (slice 0 2 0) ∷ ask_no_memory (slice 0 2 0) ∷ ask_shape ∷ ask (slice 0 1 2) ∷ []) ≡ Failed JournalFault ∷ Failed NoMemory ∷ Known pay_cube.shown ∷ answered (line 0 0 60 ∷ line 1 0 90 ∷ []) ∷ [] }
    ensures faults_not_kept { end by_rules pay_cube.shown [] (ask_fault (slice 0 2 0) ∷ ask_no_memory (slice 0 2 0) ∷ []) ≡ [] }
{}

/// The ten even boxes of a full core, and an odd one behind them.
pub fn even_boxes_on_the_full_cube()
    ensures answered { replies by_rules full_cube [] even_boxes ≡ sums (5 ∷ 7 ∷ 9 ∷ 12 ∷ 16 ∷ 21 ∷ 3 ∷ 5 ∷ 9 ∷ 11 ∷ []) }
    ensures then_odd { replies by_rules full_cube (end by_rules full_cube.shown [] even_boxes) (ask (range 0 1 (leaves 0 0) None) ∷ []) ≡ refused (SingleFixes 2 2 0) ∷ [] }
{}

/// Compacted histories, and what is said behind them.
pub fn compacted_histories()
    ensures source { compacted pay_cube.shown (months ∷ []) ≡ Source 0 (two 2 0) ∷ [] }
    ensures areas_after_source { replies by_rules pay_cube (Source 0 (two 2 0) ∷ []) (ask (slice 0 1 2) ∷ []) ≡ refused (SourceWould (two 1 0) (cell 0 1)) ∷ [] }
    ensures witness_after_source { replies by_rules pay_cube (Source 0 (two 2 0) ∷ []) (ask_witness (Measure 0) (cell 0 1) ∷ []) ≡ changed (pos 0 ∷ pos 1 ∷ pos 0 ∷ pos 0 ∷ negsuc 0 ∷ []) ∷ [] }
    ensures links { compacted two_row_cube.shown two_ranges ≡ two_links }
    ensures by_measures { compacted pay_cube.shown (asked (range 1 2 (leaves 0 1) (leaves 0 0) ∷ slice 0 2 0 ∷ [])) ≡ Source 0 (two 2 0) ∷ Linked 1 (Pair 0 2) ∷ [] }
    ensures without_what_follows { compacted full_cube.shown (asked (range 0 1 None (leaves 0 0) ∷ range 0 1 None (leaves 1 1) ∷ range 0 1 None (leaves 0 1) ∷ [])) ≡ Linked 0 (Pair 0 3) ∷ Linked 0 (Pair 1 4) ∷ Linked 0 (Pair 0 1) ∷ [] }
    ensures triangle_after_links { replies by_rules two_row_cube two_links (ask (range 0 1 None (leaves 1 2)) ∷ []) ≡ refused (PairFixes 1 0 2 0) ∷ [] }
    ensures again { replies by_rules two_row_cube two_links (ask (range 0 1 (leaves 1 1) None) ∷ []) ≡ answered (line 0 0 17 ∷ []) ∷ [] }
    ensures again_end { end by_rules two_row_cube.shown two_links (ask (range 0 1 (leaves 1 1) None) ∷ []) ≡ two_links }
{}

/// Logs judged entry by entry, and entries that name what is not there.
pub fn logs_are_judged()
    ensures third_link { left two_row_cube.shown [] 2 (two_links ++ Linked 0 (Pair 0 2) ∷ []) ≡ Stops 4 }
    ensures inadmissible { left pay_cube.shown [] 2 (months ∷ Asked (slice 0 1 2) ∷ []) ≡ Stops 3 }
    ensures passed { left pay_cube.shown [] 2 (months ∷ Source 0 (two 2 1) ∷ Asked (slice 0 2 1) ∷ []) ≡ Leaves (months ∷ []) }
    ensures link_passed { left two_row_cube.shown [] 2 (two_links ++ Linked 0 (Pair 1 0) ∷ []) ≡ Leaves two_links }
    ensures uncut_source { left pay_cube.shown [] 2 (Source 0 (two 1 0) ∷ []) ≡ Stops 2 }
    ensures bad_link { is_allowed two_row_cube.shown (Linked 0 (Pair 1 1)) ≡ false }
    ensures source_out_of_range { is_allowed pay_cube.shown (Source 0 (two 3 0)) ≡ false }
    ensures source_of_all { is_allowed pay_cube.shown (Source 0 (two 2 2)) ≡ true }
    ensures source_on_parity { is_allowed pay_cube.shown (Source 1 (two 2 0)) ≡ false }
    ensures link_on_lattice { is_allowed pay_cube.shown (Linked 0 (Pair 0 1)) ≡ false }
    ensures link_on_open { is_allowed pay_open.shown (Linked 0 (Pair 0 1)) ≡ false }
    ensures single_out_of_range { is_allowed pay_cube.shown (Linked 1 (Single 5)) ≡ false }
    ensures pair_out_of_range { is_allowed pay_cube.shown (Linked 1 (Pair 0 5)) ≡ false }
    ensures last_single { is_allowed pay_cube.shown (Linked 1 (Single 4)) ≡ true }
{}

/// Two groups over the pay cube.
pub fn rooms_of_two_groups()
    ensures groups { replies_in by_rules two_rooms (of_group staff (ask (slice 0 2 0)) ∷ of_group board (ask (slice 0 1 2)) ∷ of_group staff (ask (slice 0 1 2)) ∷ []) ≡ answered (line 0 0 80 ∷ line 0 1 70 ∷ []) ∷ answered (line 0 0 60 ∷ line 1 0 90 ∷ []) ∷ refused (SourceWould (two 1 0) (cell 0 1)) ∷ [] }
    ensures no_group { replies_in by_rules two_rooms (of_group [] ask_shape ∷ plain ask_shape ∷ []) ≡ UnknownGroup ∷ NoPath ∷ [] }
    ensures faults { replies_in by_rules two_rooms (of_group [] (ask_no_memory (slice 0 2 0)) ∷ plain (ask_fault (slice 0 2 0)) ∷ []) ≡ Failed NoMemory ∷ Failed JournalFault ∷ [] }
    ensures apart { AreApart two_rooms }
{}

/// Reasons for refusals, and what is no reason.
pub fn reasons_are_checked()
    ensures block { is_reason pay_cube.shown (months ∷ []) (slice 0 1 2) (Blocks (cell 0 1) (cell_at 1 0 0 1 ∷ [])) ≡ true }
    ensures no_block { is_reason pay_cube.shown (months ∷ []) (slice 0 1 2) (Blocks (cell 0 1) []) ≡ false }
    ensures at_first { is_reason pay_cube.shown [] (slice 0 0 0) (Blocks (cell 0 0) (cell 0 0 ∷ [])) ≡ true }
    ensures two_blocks { is_reason pay_twice.shown [] (slice 0 0 0) (Blocks (cell_at 1 0 0 0) (cell 0 0 ∷ cell 1 0 ∷ [])) ≡ true }
    ensures out_of_order { is_reason pay_twice.shown [] (slice 0 0 0) (Blocks (cell_at 1 0 0 0) (cell 1 0 ∷ cell 0 0 ∷ [])) ≡ false }
    ensures block_twice { is_reason pay_twice.shown [] (slice 0 0 0) (Blocks (cell_at 1 0 0 0) (cell 0 0 ∷ cell 1 0 ∷ cell 1 0 ∷ [])) ≡ false }
    ensures walk { is_reason two_row_cube.shown two_ranges (range 0 1 None (leaves 1 2)) (Walk 0 (step 0 1 (By 1) ∷ step 1 2 (By 2) ∷ step 2 0 (Own 1) ∷ []) None) ≡ true }
    ensures shorter_walk { is_reason two_row_cube.shown two_ranges (range 0 1 None (leaves 1 2)) (Walk 0 (step 0 1 (By 1) ∷ step 1 2 (By 2) ∷ []) None) ≡ false }
    ensures to_single { is_reason pay_cube.shown (asked (range 1 2 (leaves 0 1) (leaves 0 0) ∷ [])) (range 1 2 (leaves 0 1) (leaves 0 1)) (Walk 0 (step 0 2 (By 1) ∷ []) (Some (record { place = 2; by = Own 2 }))) ≡ true }
{}

/// The finest safe cuboids, and the first cell that requests do not keep.
pub fn cuboids_to_release()
    ensures finest { finest pay_cube.shown 0 ≡ two 1 1 ∷ two 2 0 ∷ [] }
    ensures none_safe { finest one_place_cube.shown 0 ≡ [] }
    ensures all_safe { finest pay_and_third.shown 2 ≡ two 0 0 ∷ [] }
    ensures kept { unkept pay_cube.shown (asked (slice 0 2 0 ∷ [])) 0 ≡ None }
    ensures not_kept { unkept pay_cube.shown (asked (slice 0 2 0 ∷ slice 0 1 2 ∷ [])) 0 ≡ Some (cell 0 1) }
    ensures not_free { unkept pay_cube.shown (asked (slice 1 0 2 ∷ [])) 1 ≡ Some (cell 1 0) }
{}

/// The small cubes meet what the laws ask of worlds, full cores, boxes and histories.
pub fn premises_hold()
    ensures world { IsWorld pay_cube }
    ensures empty_world { IsWorld empty_cube }
    ensures full_world { IsWorld full_cube }
    ensures full { IsFull full_cube.shown }
    ensures even_box { IsEvenBox full_cube.shown (range 0 1 None (leaves 0 1)) }
    ensures small_box { IsEvenBox full_cube.shown (range 0 1 (leaves 0 0) (leaves 0 1)) }
    ensures history { IsAdmissible pay_cube.shown (months ∷ []) }
    ensures source { IsAdmissible pay_cube.shown (Source 0 (two 2 0) ∷ []) }
    ensures links { IsAdmissible two_row_cube.shown two_links }
{}
