//! Laws over the definitions, each as a contract.
#![tactic(auto, using(crate::proofs::CallerLemmas::laws))]

ghost use Rattle.niss_cube.specs.AfterTurn.{TurnedIsCube, TurnedBeforeIsCube, AreCoordinates};
ghost use Rattle.niss_cube.specs.Sets.{KeptIsTested, SetsArePlaces, CubesPermutePlaces, KeptIsEqual};
ghost use Rattle.niss_cube.specs.BadPieces.{InverseIsAsBad, BadEdgesAreEven, NoCornerAlone, BadPiecesSeePlaces};
ghost use Rattle.niss_cube.specs.BadPieces.{BadPiecesAreCounted, GoalsByBadPieces};
ghost use Rattle.niss_cube.specs.BadPlaces.{BadPlacesAreCounted, BadPlacesSeePlaces};
ghost use Rattle.niss_cube.specs.StepLaws.{StartIsKept, StartIsKeptBefore, InverseHasSteps, OtherTurnsLeaveStart, StepsSeePlaces, InversesOfSteps};
ghost use Rattle.niss_cube.specs.StepLaws.{ReachedStepsSeePlaces, IdleTurnsLeaveSteps};
ghost use Rattle.niss_cube.specs.Inverses.{CubesAreTakenBack};
ghost use Rattle.niss_cube.specs.Map.{HomeIsTested, HomeSeesPlaces};
ghost use Rattle.niss_cube.specs.StepLaws.{StepTurnsInOrder, StepTurnsAreCounted, DominoKeepsStart, NamesDiffer};

/// A turned cube is a cube.
pub fn turned_is_cube()
    ensures { TurnedIsCube }
{}

/// A cube with a turn before all that made it is a cube.
pub fn turned_before_is_cube()
    ensures { TurnedBeforeIsCube }
{}

/// A cube's map permutes the 54 sticker places.
pub fn cubes_permute_places()
    ensures { CubesPermutePlaces }
{}

/// A set of places that a cube's map keeps is brought to itself: no other place comes into it.
pub fn kept_is_equal()
    ensures { KeptIsEqual }
{}

/// Flips, twists and slices are coordinates on each axis: each rank is some cube's, it is 0 if a set of places is kept,
/// and the rank after a turn follows from the rank alone.
pub fn are_coordinates()
    ensures { AreCoordinates }
{}

/// The test of a set is true exactly if the set is kept.
pub fn kept_is_tested()
    ensures { KeptIsTested }
{}

/// The sets of the coordinates have sticker places only.
pub fn sets_are_places()
    ensures { SetsArePlaces }
{}

/// A step that may start may start after a turn of its own is made before all that made the cube.
pub fn start_is_kept_before()
    ensures { StartIsKeptBefore }
{}

/// A cube and its inverse have the same start and the same goal, for each step.
pub fn inverse_has_steps()
    ensures { InverseHasSteps }
{}

/// Each cube has an inverse.
pub fn cubes_are_taken_back()
    ensures { CubesAreTakenBack }
{}

/// On the inverse of a cube as many edges are flipped, corners twisted and slice edges outside as on the cube.
pub fn inverse_is_as_bad()
    ensures { InverseIsAsBad }
{}

/// Each piece with a sticker that a cube brings out of a coordinate's set is bad, and counted once. None is bad exactly if
/// the cube keeps the set.
pub fn bad_pieces_are_counted()
    ensures { BadPiecesAreCounted }
{}

/// The number of flipped edges is even.
pub fn bad_edges_are_even()
    ensures { BadEdgesAreEven }
{}

/// No cube has one twisted corner.
pub fn no_corner_alone()
    ensures { NoCornerAlone }
{}

/// How many pieces are bad depends on the 54 sticker places alone.
pub fn bad_pieces_see_places()
    ensures { BadPiecesSeePlaces }
{}

/// So many pieces are bad as places have one; of a slice two edges are on the wrong side for each of its own outside it.
pub fn bad_places_are_counted()
    ensures { BadPlacesAreCounted }
{}

/// Which places have a bad piece depends on the 54 sticker places alone.
pub fn bad_places_see_places()
    ensures { BadPlacesSeePlaces }
{}

/// A goal holds of a cube exactly if no piece is bad: for an edge orientation no edge is flipped; for a domino reduction
/// besides that no corner is twisted on its axis, and no edge of its slice is outside.
pub fn goals_by_bad_pieces()
    ensures { GoalsByBadPieces }
{}

/// A step that may start may start after each of its turns too.
pub fn start_is_kept()
    ensures { StartIsKept }
{}

/// A step that may start may not start after a turn that is none of its own.
pub fn other_turns_leave_start()
    ensures { OtherTurnsLeaveStart }
{}

/// Whether a step may start and whether it is reached depends on the 54 sticker places alone.
pub fn steps_see_places()
    ensures { StepsSeePlaces }
{}

/// Which steps are reached depends on the 54 sticker places alone.
pub fn reached_steps_see_places()
    ensures { ReachedStepsSeePlaces }
{}

/// The test of the solved cube's map is true exactly if each of the 54 stickers stands where it began.
pub fn home_is_tested()
    ensures { HomeIsTested }
{}

/// Whether a cube is solved depends on the 54 sticker places alone.
pub fn home_sees_places()
    ensures { HomeSeesPlaces }
{}

/// An idle turn of a step leaves it reached or not, on either side.
pub fn idle_turns_leave_steps()
    ensures { IdleTurnsLeaveSteps }
{}

/// The turns of a step hold their inverses.
pub fn inverses_of_steps()
    ensures { InversesOfSteps }
{}

/// The turns of a step are some of the 18, in turn order.
pub fn step_turns_in_order()
    ensures { StepTurnsInOrder }
{}

/// A step has 18 turns, or 14 if it starts at oriented edges.
pub fn step_turns_are_counted()
    ensures { StepTurnsAreCounted }
{}

/// A step that can reach a domino reduction starts at the oriented edges that this keeps.
pub fn domino_keeps_start()
    ensures { DominoKeepsStart }
{}

/// No two steps have one name.
pub fn names_differ()
    ensures { NamesDiffer }
{}
