// The two worlds over two lives: what an old cube and the one that continues it said tells nothing
// of a protected cell.
ghost use Rattle.cube_carry.specs.ManyLives.{ManyLives, EarlierCells};
ghost use Rattle.cube_carry.specs.TwoLives.{TwoLives, OldCells};

/// Whatever is asked of the old cube, and then of the new one from the carried history on: with the
/// changes for any admissible history that goes on from the one at the end, both say the same, and
/// the sum of the protected cell of the new cube is greater by one.
pub fn two_lives()
    ensures { TwoLives }
{}

/// So it is for each cell that the old cube protected, with changes that bring a unit into the places
/// that the cell covered then: the sum of the cell in the old cube is greater by one.
pub fn old_cells()
    ensures { OldCells }
{}

/// However often a history is carried over: all lives hide each protected cell of the last cube.
pub fn many_lives()
    ensures { ManyLives }
{}

/// And each cell that the cube of an earlier life protected.
pub fn earlier_cells()
    ensures { EarlierCells }
{}
