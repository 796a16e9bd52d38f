// Answers and refusals written by the definitions alone.
ghost use Rattle.std.specs.Prelude.{◌≡◌, [], ◌∷◌, codes, pos, neg_ℤ};
ghost use Rattle.cube_model.specs.declared.request.What.TheVariants.{Count, Measure};
ghost use Rattle.cube_model.specs.declared.verdict.Verdict.TheVariants.{Full, SourceWould, Pair, Single};
ghost use Rattle.cube_core.specs.Worked.{pay_core};
ghost use Rattle.cube_dims.specs.Examples.{pay_dims};
ghost use Rattle.cube_answers.specs.AnswerText.{answer_text};
ghost use Rattle.cube_answers.specs.VerdictText.{unprotected, verdict_text};
ghost use Rattle.cube_answers.specs.Examples.{cell, grouped, row, odd_dims, odd_request, odd_row};

/// What the definitions write for some answers.
pub fn worked_answers()
    ensures cell { answer_text pay_dims (grouped (Measure 0) 2 2) (row 0 0 (pos 150) ∷ []) ≡ codes "pay\n150\n" }
    ensures count { answer_text pay_dims (grouped Count 2 2) (row 0 0 (pos 5) ∷ []) ≡ codes "count\n5\n" }
    ensures nothing { answer_text pay_dims (grouped Count 2 2) [] ≡ codes "count\n" }
    ensures areas { answer_text pay_dims (grouped (Measure 0) 1 2) (row 0 0 (pos 60) ∷ row 1 0 (pos 90) ∷ []) ≡ codes "region.area,pay\nSouth,60\nNorth,90\n" }
    ensures both { answer_text pay_dims (grouped (Measure 1) 0 0) (row 2 1 (pos 5) ∷ []) ≡ codes "region.city,time.month,hours\nParis,Feb,5\n" }
    ensures decimals { answer_text odd_dims (odd_request (Measure 0)) (odd_row 0 (neg_ℤ (pos 5)) ∷ odd_row 1 (pos 1250) ∷ []) ≡ codes "\"region.city, town\",pay\n\"L'Isle, \"\"Sud\"\"\",-0.05\nNice,12.50\n" }
    ensures whole_count { answer_text odd_dims (odd_request Count) (odd_row 1 (pos 3) ∷ []) ≡ codes "\"region.city, town\",count\nNice,3\n" }
{}

/// What the definitions write for some refusals.
pub fn worked_refusals()
    ensures full { verdict_text pay_dims (unprotected pay_core) (Full 16384) ≡ codes "full: the history holds 16384 requests\n" }
    ensures source { verdict_text pay_dims (unprotected pay_core) (SourceWould (0 ∷ 2 ∷ []) (cell 0 0 1 0)) ≡ codes "source: the cuboid (region.city) does not cut the cell (region.city=Nice, time.month=Jan)\n" }
    ensures all { verdict_text pay_dims (unprotected pay_core) (SourceWould (2 ∷ 2 ∷ []) (cell 1 2 1 0)) ≡ codes "source: the cuboid (all) does not cut the cell (region.area=North)\n" }
    ensures all_cells { verdict_text pay_dims (unprotected pay_core) (SourceWould (1 ∷ 0 ∷ []) (cell 2 2 0 0)) ≡ codes "source: the cuboid (region.area, time.month) does not cut the cell (all)\n" }
    ensures pair { verdict_text pay_dims (unprotected pay_core) (Pair 1 2 3 2) ≡ codes "pair: link 1, (region.city=Nice, time.month=Jan) and (region.city=Paris, time.month=Jan), fixes the cell (region.city=Nice, time.month=Jan)\n" }
    ensures single { verdict_text pay_dims (unprotected pay_core) (Single 2 2 0) ≡ codes "single: link 2, (region.city=Nice, time.month=Jan), fixes the cell (region.city=Lyon, time.month=Jan)\n" }
{}
