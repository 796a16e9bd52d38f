// What holds of the changes and of twins.
ghost use Rattle.cube_witness.specs.Laws.{MovesAreChanges, TwinsReadBack};
ghost use Rattle.cube_witness.specs.Rereading.{FilesReadBack};

/// The changes that are not 0, each put at its place, are all the changes: so the fact file of a twin is that of
/// the cube with the changes for a cell added.
pub fn moves_are_changes()
    ensures { MovesAreChanges }
{}

/// A fact file that is written for a cube is read as its shape and as the cube, where each value is one that the
/// facts of its place can carry.
pub fn files_read_back()
    ensures { FilesReadBack }
{}

/// The fact file of a twin is read as the same shape and as the twin, where no value is beyond the bound.
pub fn twins_read_back()
    ensures { TwinsReadBack }
{}
