// That a core is a world.
ghost use Rattle.cube_model.specs.Cores.{CoresAreWorlds};

/// A core is a world under each policy that has a method for each measure.
pub fn cores_are_worlds()
    ensures { CoresAreWorlds }
{}
