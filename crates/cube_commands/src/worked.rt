// The protected cells that `check` counts, by the definitions alone.

ghost use Rattle.std.specs.Prelude.{◌≡◌};
ghost use Rattle.cube_core.specs.Worked.{pay_core};
ghost use Rattle.cube_model.specs.Examples.{pay_cube, pay_twice, pay_and_third, hours_in_both};
ghost use Rattle.cube_source.specs.Counts.{protected_count};

/// How many protected cells pay and hours have: five cells of pay under the source rule and all five places of hours; cells of
/// objects that lie in one another, each once; a measure with no object; and one place alone.
#[tactic(auto, unfolding(cube_model::specs::Cubes::up, cube_model::specs::Cubes::key_at, cube_model::specs::Protection::protected))]
pub fn worked_counts()
    ensures both { protected_count pay_core pay_cube.shown.policy ≡ 10 }
    ensures each_once { protected_count pay_core pay_twice.shown.policy ≡ 19 }
    ensures no_object { protected_count pay_core pay_and_third.shown.policy ≡ 10 }
    ensures one_place { protected_count pay_core hours_in_both.shown.policy ≡ 1 }
{}
