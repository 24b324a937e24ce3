//! Laws over the definitions, each as a contract.
ghost use Rattle.std.specs.Prelude.{◌≡◌};
ghost use Rattle.niss_search.specs.Laws.{CountRecurrence, FirstCounts, PartHasNoMore, LooksWithinBound, NoSlackIsLeast};
ghost use Rattle.niss_search.specs.Laws.{FirstIsLeast, DistanceIsShortest, StepBoundIsLess, BoundIsSmall};
ghost use Rattle.niss_search.specs.Laws.{EntriesAreCounted, EdgeFillIsSmall, FillIsSmall, DistanceIsLeast};
ghost use Rattle.niss_search.specs.Laws.{PositionsFollowCubes, SolutionsAreSequences, AfterIsRest};
ghost use Rattle.niss_search.specs.Filling.{EntriesTurn};
ghost use Rattle.niss_search.specs.BothWalk.{PositionsFollowInverses, TailsFollowHeads};

use crate::path::Limit;
use niss_cube::laws::{
    are_coordinates, cubes_are_taken_back, cubes_permute_places, domino_keeps_start,
    inverse_has_steps, inverses_of_steps, start_is_kept, step_turns_in_order, steps_see_places,
    turned_before_is_cube, turned_is_cube,
};
use niss_moves::laws::{canonical_members, inverse_is_undone, places_stay};

/// How many canonical sequences there are, how often a search looks, how many entries a pruning table has, and how many
/// turns its fill tries; and that the distance of a position is the least over its goals.
pub fn counts_and_bounds()
    ensures recurrence { CountRecurrence }
    ensures first { FirstCounts }
    ensures part { PartHasNoMore }
    ensures within { LooksWithinBound }
    ensures step { StepBoundIsLess }
    ensures small { BoundIsSmall }
    ensures entries { EntriesAreCounted }
    ensures edge_fill { EdgeFillIsSmall }
    ensures fill { FillIsSmall }
    ensures least { DistanceIsLeast }
{
    step_turns_in_order();
    domino_keeps_start();
}

/// `Limit::ZERO` is the limit of no turn.
pub fn zero_is_no_turn() -> Limit
    ensures { result ≡ 0 }
{
    Limit::ZERO
}

/// A search without slack is for the solutions of least length alone.
#[tactic(auto, using(crate::proofs::DeepeningLemmas::no_slack))]
pub fn no_slack_is_least()
    ensures { NoSlackIsLeast }
{}

/// The least length is that of the first solution that a search hands out.
#[tactic(auto, using(crate::proofs::DeepeningLemmas::first_least))]
pub fn first_is_least()
    ensures { FirstIsLeast }
{
    canonical_members();
}

/// A search's solutions are all sequences that reach the step, up to its last length, and those that come after one of
/// them, which `search_after` hands out, are those that stand behind it.
#[tactic(auto, using(crate::proofs::OrderLemmas::solutions_are_sequences, crate::proofs::OrderLemmas::after_is_rest))]
pub fn after_is_rest()
    ensures sequences { SolutionsAreSequences }
    ensures rest { AfterIsRest }
{
    step_turns_in_order();
    canonical_members();
}

/// The distance of a state is the length of a shortest sequence of the turns that leads to the goal, if it is at most 20.
#[tactic(auto, using(crate::proofs::LookLemmas::distance_shortest))]
pub fn distance_is_shortest()
    ensures { DistanceIsShortest }
{}

/// What of a cube depends on its position alone.
pub fn positions_follow_cubes()
    ensures { PositionsFollowCubes }
{
    are_coordinates();
    turned_is_cube();
    start_is_kept();
    steps_see_places();
    domino_keeps_start();
}

/// What of a cube's inverse depends on its position alone, as the cube is turned on its inverse side.
pub(crate) fn positions_follow_inverses()
    ensures { PositionsFollowInverses }
{
    positions_follow_cubes();
    turned_before_is_cube();
    inverse_is_undone();
    places_stay();
    cubes_permute_places();
    steps_see_places();
    inverse_has_steps();
}

/// How the cube of a head's side and the position of the other side follow heads.
pub(crate) fn tails_follow_heads()
    ensures { TailsFollowHeads }
{
    positions_follow_cubes();
    positions_follow_inverses();
    cubes_are_taken_back();
    cubes_permute_places();
    inverse_has_steps();
    inverse_is_undone();
    places_stay();
    steps_see_places();
    turned_before_is_cube();
    turned_is_cube();
}

/// How the turns of a step lead between the entries of its pruning table.
#[tactic(auto, using(crate::proofs::EntryLemmas::entries_turn))]
pub(crate) fn entries_turn()
    ensures { EntriesTurn }
{
    are_coordinates();
    inverses_of_steps();
}
