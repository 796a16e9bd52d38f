// Verdicts and witnesses of the pay cube by the definitions alone.
ghost use Rattle.std.specs.Prelude.{◌≡◌, [], ◌∷◌, true, false, codes};
ghost use Rattle.cube_model.specs.declared.entry.Entry.TheVariants.{Asked};
ghost use Rattle.cube_model.specs.declared.verdict.Verdict.TheVariants.{Answer, SourceWould, Single};
ghost use Rattle.cube_model.specs.Requests.{rows};
ghost use Rattle.cube_model.specs.Twins.{changes};
ghost use Rattle.cube_core.specs.Worked.{two};
ghost use Rattle.cube_witness.specs.Examples.{cell};
ghost use Rattle.cube_demo.specs.Counting.{verdicts, history_behind, answered};
ghost use Rattle.cube_demo.specs.Examples.{pay, asked, by_month};
ghost use Rattle.cube_demo.specs.Hiding.{hides, witness_count};
ghost use Rattle.cube_demo.specs.Summary.{summary_text};

/// Sums by areas behind sums by months are refused, sums by months again bring nothing new, and the hours of one place
/// fix it. The changes for Lyon in February hide it from the sums by months once these are in the history, and not before.
pub fn worked_counts()
    ensures verdicts { verdicts pay [] asked ≡ Answer true ∷ SourceWould (two 1 0) (cell 0 1) ∷ Answer false ∷ Single 1 0 0 ∷ [] }
    ensures history { history_behind pay [] asked ≡ Asked by_month ∷ [] }
    ensures answered { answered asked (verdicts pay [] asked) ≡ by_month ∷ by_month ∷ [] }
    ensures told { hides pay (rows pay by_month ∷ []) (changes pay [] 0 (cell 0 1)) (cell 0 1) ≡ false }
    ensures hidden { hides pay (rows pay by_month ∷ []) (changes pay (Asked by_month ∷ []) 0 (cell 0 1)) (cell 0 1) ≡ true }
    ensures elsewhere { hides pay (rows pay by_month ∷ []) (changes pay (Asked by_month ∷ []) 0 (cell 0 1)) (cell 0 0) ≡ false }
    ensures pay { witness_count pay asked 0 ≡ 5 }
    ensures hours { witness_count pay asked 1 ≡ 5 }
    ensures none { witness_count pay asked 2 ≡ 0 }
{}

/// The summary of these.
pub fn worked_summary()
    ensures { summary_text 1 pay asked ≡ codes "facts 20000\npoints 5\nqueries 200\nanswered 2\nsource 1\nsingle 1\npair 0\nfull 0\nwitnesses 10\n" }
{}
