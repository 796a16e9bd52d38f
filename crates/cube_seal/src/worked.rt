// What a seal tells of a small core, by the definitions alone.
ghost use Rattle.std.specs.Prelude.{◌≡◌, ◌≢◌, [], ◌∷◌};
ghost use Rattle.cube_seal.specs.Examples.{sealed_core, corrected_core, coarser_core, swapped_core};
ghost use Rattle.cube_seal.specs.Values.{values_of};

/// The bytes of two measures at one place, 300.00 and -1; with one value more by one hundredth, with fewer decimals, and with
/// the values swapped they are others.
pub fn worked_values()
    ensures bytes { values_of sealed_core ≡ 2 ∷ 0 ∷ 0 ∷ 0 ∷ 0 ∷ 0 ∷ 0 ∷ 117 ∷ 48 ∷ 0 ∷ 255 ∷ 255 ∷ 255 ∷ 255 ∷ 255 ∷ 255 ∷ 255 ∷ 255 ∷ [] }
    ensures value { values_of corrected_core ≡ 2 ∷ 0 ∷ 0 ∷ 0 ∷ 0 ∷ 0 ∷ 0 ∷ 117 ∷ 49 ∷ 0 ∷ 255 ∷ 255 ∷ 255 ∷ 255 ∷ 255 ∷ 255 ∷ 255 ∷ 255 ∷ [] }
    ensures decimals { values_of coarser_core ≡ 1 ∷ 0 ∷ 0 ∷ 0 ∷ 0 ∷ 0 ∷ 0 ∷ 117 ∷ 48 ∷ 0 ∷ 255 ∷ 255 ∷ 255 ∷ 255 ∷ 255 ∷ 255 ∷ 255 ∷ 255 ∷ [] }
    ensures swapped { values_of swapped_core ≡ 2 ∷ 255 ∷ 255 ∷ 255 ∷ 255 ∷ 255 ∷ 255 ∷ 255 ∷ 255 ∷ 0 ∷ 0 ∷ 0 ∷ 0 ∷ 0 ∷ 0 ∷ 0 ∷ 117 ∷ 48 ∷ [] }
    ensures other_value { values_of corrected_core ≢ values_of sealed_core }
    ensures other_decimals { values_of coarser_core ≢ values_of sealed_core }
    ensures other_order { values_of swapped_core ≢ values_of sealed_core }
{}
