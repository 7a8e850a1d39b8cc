//! The law of what a board tells, over the definitions alone: it is what the step relation of the world says.
ghost use Rattle.chorus_board.specs.Worlds.{BoardsTellOfTheWorld};

/// In a run of the world a board that stands for a beginning of a place's entries has each port where the place's location of it is after
/// them: also one that the layout cannot make, of which no entry tells.
pub fn boards_tell_of_the_world()
    ensures { BoardsTellOfTheWorld }
{}
