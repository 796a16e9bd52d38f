// What is in hand, by the definitions alone.
ghost use Rattle.std.specs.Prelude.{[], ◌∷◌, ◌++◌};
ghost use Rattle.cube_model.specs.declared.entry.Entry.TheVariants.{Asked};
ghost use Rattle.cube_core.specs.Worked.{pay_core};
ghost use Rattle.cube_engine.specs.Examples.{months};
ghost use Rattle.cube_serving.specs.Examples.{areas, one_spared, pay_run, two_calls};
ghost use Rattle.cube_serving.specs.Serving.{IsInTurn};

/// The histories that a crash may leave while the pay cube is asked for pay by month, which is answered, and then for pay by area,
/// which is refused: none yet, and that of pay by month; but no history with a refused request, and none with one for which there was
/// no memory.
pub fn worked_in_hand()
    ensures begins { IsInTurn pay_core (pay_run ∷ []) two_calls 0 [] }
    ensures months { IsInTurn pay_core (pay_run ∷ []) two_calls 0 (Asked months ∷ []) }
    ensures alone { ¬ IsInTurn pay_core (pay_run ∷ []) two_calls 0 (Asked areas ∷ []) }
    ensures behind { ¬ IsInTurn pay_core (pay_run ∷ []) two_calls 0 (Asked months ∷ Asked areas ∷ []) }
    ensures spared { ¬ IsInTurn pay_core (pay_run ∷ []) one_spared 0 (Asked months ∷ []) }
{}
