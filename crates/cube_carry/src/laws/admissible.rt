// A carried history is admissible.
ghost use Rattle.cube_carry.specs.Names.{CoresAreNamed};
ghost use Rattle.cube_carry.specs.Carrying.{SourceIsGreatest, NoSourceStands};
ghost use Rattle.cube_carry.specs.TwoLives.{CarriedIsAdmissible, CarriedToItself};

/// A core under a policy for its dimensions and measures is a world with names.
pub fn cores_are_named()
    ensures { CoresAreNamed }
{}

/// A history that is carried over is admissible in the new cube.
pub fn carried_is_admissible()
    ensures { CarriedIsAdmissible }
{}

/// A history that is carried over to its own cube is the compacted one.
pub fn carried_to_itself()
    ensures { CarriedToItself }
{}

/// What stands for a source is the greatest by number of the cuboids that can.
pub fn source_is_greatest()
    ensures { SourceIsGreatest }
{}

/// Where nothing stands for a source, no cuboid as fine as it can.
pub fn no_source_stands()
    ensures { NoSourceStands }
{}
