// When a cube continues another.
ghost use Rattle.cube_carry.specs.Continues.{BreachesAre, ContinuesOnward};

/// A cube continues another, with its values, exactly where nothing keeps it from that.
pub fn breaches_are()
    ensures { BreachesAre }
{}

/// A cube that continues one which continues a third, continues that, with its values.
pub fn continues_onward()
    ensures { ContinuesOnward }
{}
