// Reasons found and written by the definitions alone.
ghost use Rattle.std.specs.Prelude.{◌≡◌, [], ◌∷◌, codes, Some, None};
ghost use Rattle.cube_model.specs.Reasons.{blocks_of};
ghost use Rattle.cube_core.specs.Worked.{two, pay_core};
ghost use Rattle.cube_source.specs.Blocks.{bare};
ghost use Rattle.cube_reason.specs.Examples.{city_month, area_month, step, end, told};
ghost use Rattle.cube_reason.specs.declared.reasons.Origin.TheVariants.{Entry, Own};
ghost use Rattle.cube_reason.specs.declared.reasons.Reason.TheVariants.{Blocks, Walk};

/// The block that shows why the sums by areas may not follow those by months: in February the South is Lyon alone. Then the text of
/// walks: one that comes back, and one that ends at a place alone.
pub fn worked_reasons()
    ensures blocks { blocks_of (bare pay_core) (two 1 0) (city_month 0 1) ≡ area_month 0 1 ∷ [] }
    ensures block { told (Blocks (city_month 0 1) (area_month 0 1 ∷ [])) ≡ codes "block (region.area=South, time.month=Feb)\n" }
    ensures walk { told (Walk 0 (step 0 2 (Entry 1) ∷ step 2 0 (Own 3) ∷ []) None) ≡ codes "step (region.city=Lyon, time.month=Jan) (region.city=Nice, time.month=Jan) entry 1\nstep (region.city=Nice, time.month=Jan) (region.city=Lyon, time.month=Jan) own 3\n" }
    ensures end { told (Walk 1 [] (Some (end 1 (Entry 12)))) ≡ codes "end (region.city=Lyon, time.month=Feb) entry 12\n" }
{}
