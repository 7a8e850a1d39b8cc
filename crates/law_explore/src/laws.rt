//! The laws of races.

ghost use Rattle.std.specs.Prelude.{Bool};
ghost use Rattle.law_explore.specs.Alike.{ActAlike, CommandsStayAlike, NetsStayAlike, PacketsStayAlike, ReadAlike};
ghost use Rattle.law_explore.specs.Laws.{AlikeIsAnEquivalence, AlikePositionsComeToTheSame, MovesComeToTheSame, NormalsComeToAll, RacesAreExplored, RacesAreWalked, RacesNeedNormalsOnly};
ghost use Rattle.law_explore.specs.Levels.{HistoriesAreListed, LevelsStandForAll};
ghost use Rattle.law_explore.specs.Members.{LevelsOfMergedFindAll, LevelsOfMergedGoOn};
ghost use Rattle.law_explore.specs.Merging.{NetsTellTheSame, PlacesTellTheSame, ToldAlikeGoOn, ToldAlikeIsAnEquivalence};
ghost use Rattle.law_explore.specs.Replays.{MovesAreReplayed};
ghost use Rattle.law_explore.specs.Neighbours.{NeighboursCommute, NeighboursStay};
ghost use Rattle.law_explore.specs.Positions.{AskAlike, TellAlike};
ghost use Rattle.law_explore.specs.Quiet.{NeighboursStayQuiet};

/// Of two events that may come, at two places and of two seats, each may come behind the other, and both orders leave
/// one network, clocks and journals too.
pub fn neighbours_commute()
    ensures commute { NeighboursCommute }
    ensures stay { NeighboursStay }
{}

/// Each history of a race has one in normal form, of the same length, that leaves the same network and the same of each
/// script, whoever delivers.
pub fn races_need_normals_only()
    ensures { RacesNeedNormalsOnly }
{}

/// Where seat 0 delivers, as in a replay, each whole history has one in normal form, of the same length, that comes to
/// the same outcome: two moves change places where their turns are at two places, though seat 0's clock then goes
/// another way.
pub fn normals_come_to_all()
    ensures { NormalsComeToAll }
{}

/// A search over the histories in normal form comes to each whole one that is shorter than its depth, and to no other
/// history.
pub fn races_are_explored()
    ensures { RacesAreExplored }
{}

/// The search over the histories of a race in normal form, as a loop: at each step what was found, followed by what is
/// pending, is what the search finds.
pub fn races_are_walked()
    ensures { RacesAreWalked }
{}

/// Of two neighbours, where the one brings nothing new behind the other, it brings nothing new before it, and the other
/// may still come: so what was seen of a move behind its neighbour is known of it alone. It is so only where the command
/// behind the one in its script does not wait, since the other may take away what that would wait for.
pub fn neighbours_stay_quiet()
    ensures { NeighboursStayQuiet }
{}

/// What a turn does depends on no clock, and of a journal only on what is read of it: how many ports and groups were
/// made, which groups there are, with their members and rotations, and which ports were deleted.
pub fn turns_stay_alike()
    ensures commands { CommandsStayAlike ReadAlike }
    ensures packets { PacketsStayAlike ReadAlike }
    ensures commands_too { CommandsStayAlike ActAlike }
    ensures packets_too { PacketsStayAlike ActAlike }
{}

/// Of networks that are alike each event leaves networks that are alike, whoever delivers, and whatever the clocks.
pub fn networks_stay_alike()
    ensures reads { NetsStayAlike ReadAlike }
    ensures acts { NetsStayAlike ActAlike }
    ensures tells { NetsStayAlike TellAlike }
    ensures asks { (asks : Bool) → NetsStayAlike (AskAlike asks) }
{}

/// What moves come to does not depend on who delivers, nor on any clock.
pub fn moves_come_to_the_same()
    ensures { MovesComeToTheSame }
{}

/// Of two histories of one race that come to positions that are alike: each list of moves that may come behind the one
/// may come behind the other, and comes to the same outcome. So of all histories that come alike one is enough to go on
/// from.
pub fn alike_positions_come_to_the_same()
    ensures same { AlikePositionsComeToTheSame }
    ensures equivalence { AlikeIsAnEquivalence }
{}

/// Behind positions that are alike the same may come where what the commands were answered is told in any form, as a text: it
/// is enough that one answer more keeps what is told the same. And of places that are alike the same outcome comes, and where
/// claims are asked the same moment.
pub fn told_alike_positions_come_to_the_same()
    ensures on { ToldAlikeGoOn }
    ensures equivalence { ToldAlikeIsAnEquivalence }
    ensures places { PlacesTellTheSame }
    ensures moments { NetsTellTheSame }
{}

/// Of a race gone through level by level, where histories may be put together that come alike: each history has a class
/// that comes to the same, and the classes stand for as many histories as they say. All histories of a level are listed,
/// each once.
pub fn levels_stand_for_all()
    ensures levels { LevelsStandForAll }
    ensures listed { HistoriesAreListed }
{}

/// Of a race gone through level by level, where each class is taken with all histories for which it stands: what goes on
/// from the classes of a level is, each as often, all histories that are longer by one.
pub fn levels_of_merged_go_on()
    ensures { LevelsOfMergedGoOn }
{}

/// Of a race gone through level by level, by classes, where the histories behind which nothing may come are taken out of each
/// level: those that were found are all whole histories that have less moves, each once, and all of them where no class is
/// left.
pub fn levels_of_merged_find_all()
    ensures { LevelsOfMergedFindAll }
{}

/// A schedule that does the moves, with a drain behind them, leaves the network that the moves come to, if they leave
/// no packet: the drain finds nothing.
pub fn moves_are_replayed()
    ensures { MovesAreReplayed }
{}
