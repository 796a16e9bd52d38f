// Rooms: worlds that one server answers for.
ghost use Rattle.cube_model.specs.Rooms.{OneRoomIsPlain, RoomsAreByThemselves, OtherWorldsAreLikewise, RoomsAreOpen};
ghost use Rattle.cube_model.specs.Runs.{by_rules};

/// One room with the empty name answers as its world and its history do.
pub fn one_room_is_plain()
    ensures { OneRoomIsPlain by_rules }
{}

/// What goes to other rooms does not enter into a room's replies or its history.
pub fn rooms_are_by_themselves()
    ensures { RoomsAreByThemselves by_rules }
{}

/// Another world in one room, with the same replies there, changes nothing that is said in any room.
pub fn other_worlds_are_likewise()
    ensures { OtherWorldsAreLikewise by_rules }
{}

/// The changes by a room's own history at the end open its cell, with all other rooms as they are.
pub fn rooms_are_open()
    ensures { RoomsAreOpen }
{}
