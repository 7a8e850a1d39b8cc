//! Who holds a port: where the port is then, what NotHere says, and what a receive tells of it.

ghost use Rattle.law_world.specs.Holding.{IsAtActorsSite, NotHereMeansNotHeld};
ghost use Rattle.law_world.specs.Looks.{LooksTellWhatWaited};

/// A port that an actor holds is at the port's place on the actor's site (`place`). So in a run NotHere answers a command to
/// receive from a port, to move it or to delete it exactly where its caller's actor does not hold the port, at whatever place
/// (`held`).
pub fn not_here_means_not_held()
    ensures place { IsAtActorsSite }
    ensures held { NotHereMeansNotHeld }
{}

/// Each answer of a receive is so when it is given: in a run in which the commands of a seat are performed, its Take tells that
/// its caller's actor held the port and that this message was the first that waited there; Empty, that the actor held it and
/// none waited; NotHere, that the actor did not hold it, at whatever place.
pub fn a_look_in_vain_finds_nothing()
    ensures { LooksTellWhatWaited }
{}
