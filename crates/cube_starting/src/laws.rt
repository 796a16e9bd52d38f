// What is said of groups, read where one policy rules all users.
ghost use Rattle.cube_starting.specs.Laws.{OneGroupIsTheCube, OneRunIsTheCube};

/// Users under one policy are one group without a name: what their files make is the cube, and their room is the cube by itself.
pub fn one_group_is_the_cube()
    ensures groups { OneGroupIsTheCube }
    ensures runs { OneRunIsTheCube }
{}
