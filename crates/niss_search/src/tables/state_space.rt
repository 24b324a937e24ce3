//! What a search goes through: the states of a step, and how far each is from it.
ghost use Rattle.std.specs.Prelude.{◌≡◌, List, ◌+◌, ◌<◌, ◌≤◌, ◌++◌, ◌∷◌, length, map};
ghost use Rattle.niss_moves.specs.Effects.{turned};
ghost use Rattle.niss_cube.specs.declared.cube.Cube.{Cube as Cubes};
ghost use Rattle.niss_cube.specs.Inverses.{IsTakenBack};
ghost use Rattle.niss_cube.specs.Map.{map_of};
ghost use Rattle.niss_cube.specs.Steps.{turns_of};
ghost use Rattle.niss_search.specs.Names.{Goal, Step as TheStep, GoalCoordinates};
ghost use Rattle.niss_search.specs.Filling.{AreEntries};
ghost use Rattle.niss_search.specs.Moves.{turn_at};
ghost use Rattle.niss_search.specs.Positions.{coordinates_of, position_after, distance_at};

use super::goal_moves::GoalMoves;
use super::position::GoalCoordinates;
use super::pruning_table::PruningTable;
use arrayvec::ArrayVec;
use niss_cube::{Cube, Turn};
use std::alloc::Allocator;
use std::marker::Model;

/// The states of a step by some of its goals, each with its own ranks, where the step's turns lead them, and how far they
/// are from the step. One goal costs a look no more than its own table.
pub trait StateSpace {
    /// The ranks of each goal.
    type State: Copy;

    /// The step.
    ghost step: { Self → TheStep };

    /// The goals.
    ghost goals: { Self → List Goal };

    /// What is seen of a cube in a state: the coordinates of each goal.
    ghost seen: { Self → Self.State → List GoalCoordinates };

    /// The state of the coordinates of a position.
    fn state(&self, coordinates: &[GoalCoordinates]) -> Self::State
        requires { AreEntries (goals self.now) coordinates.now }
        ensures { seen self.now result ≡ coordinates.now };

    /// The state of the inverse of a cube after a turn.
    fn inverse_after(&self, cube: &Cube, turn: Turn) -> Self::State
        ensures { (d : Cubes) → IsTakenBack (λ q. turned turn (map_of cube.now q)) d
            → seen self.now result ≡ map (λ goal. coordinates_of goal (map_of d)) (goals self.now) };

    /// Appends the coordinates of a state, a goal after the other.
    fn put_coordinates(&self, state: Self::State, list: &mut ArrayVec<GoalCoordinates, 3>)
        requires { length list.old.items + length (goals self.now) ≤ 3 }
        ensures { list.new.items ≡ list.old.items ++ seen self.now state };

    /// The state after the turn of a column.
    fn after(&self, state: Self::State, column: usize) -> Self::State
        requires { column < length (turns_of (step self.now)) }
        ensures { seen self.now result
            ≡ position_after (seen self.now state) (turn_at (step self.now) column) };

    /// The distance to the nearest of the goals.
    fn distance(&self, state: Self::State) -> u8
        ensures { result ≡ distance_at (step self.now) (seen self.now state) };
}

/// The space of one goal more: the step is reached if it is by that goal, or by those of the other space.
#[derive(Drop)]
pub struct GoalAndOthers<M: GoalMoves, A: Allocator, S: StateSpace> {
    first: PruningTable<M, A>,
    others: S,
}

impl<M: GoalMoves, A: Allocator, S: StateSpace> Model for GoalAndOthers<M, A, S> {
    ghost use Rattle.std.specs.Prelude.{◌≡◌};

    ghost Value = { M × S };

    ghost view = { λ s. (s.first, s.others) };

    ghost invariant = { λ s. S.step s.others ≡ (M.alternative s.first).step };
}

impl<M: GoalMoves, A: Allocator, S: StateSpace> GoalAndOthers<M, A, S> {
    /// The two, of one step.
    pub fn of(first: PruningTable<M, A>, others: S) -> GoalAndOthers<M, A, S>
        requires { S.step others ≡ (M.alternative first).step }
        ensures { result ≡ (first, others) }
    {
        GoalAndOthers { first, others }
    }
}

impl<M: GoalMoves, A: Allocator, S: StateSpace> StateSpace for GoalAndOthers<M, A, S> {
    type State = (M::State, S::State);

    ghost step = { λ s. (M.alternative s.0).step };

    ghost goals = { λ s. (M.alternative s.0).goal ∷ S.goals s.1 };

    ghost seen = { λ s x. M.seen s.0 x.0 ∷ S.seen s.1 x.1 };

    #[tactic(auto, unfolding(crate::specs::Filling::AreEntries))]
    fn state(&self, coordinates: &[GoalCoordinates]) -> (M::State, S::State) {
        let [first, others @ ..] = coordinates else {
            unreachable!()
        };
        (self.first.state_of(*first), self.others.state(others))
    }

    #[inline(always)]
    fn inverse_after(&self, cube: &Cube, turn: Turn) -> (M::State, S::State) {
        (
            self.first.inverse_after(cube, turn),
            self.others.inverse_after(cube, turn),
        )
    }

    fn put_coordinates(
        &self,
        state: (M::State, S::State),
        list: &mut ArrayVec<GoalCoordinates, 3>,
    ) {
        self.first.put_coordinates(state.0, list);
        self.others.put_coordinates(state.1, list);
    }

    #[tactic(auto, unfolding(crate::specs::Positions::position_after))]
    #[inline(always)]
    fn after(&self, state: (M::State, S::State), column: usize) -> (M::State, S::State) {
        (
            self.first.after(state.0, column),
            self.others.after(state.1, column),
        )
    }

    #[tactic(auto, using(crate::proofs::LookLemmas::distance_at_least))]
    #[inline(always)]
    fn distance(&self, state: (M::State, S::State)) -> u8 {
        self.first
            .distance(state.0)
            .min(self.others.distance(state.1))
    }
}
