//! The pruning table of a goal.
ghost use Rattle.std.specs.Prelude.{◌≡◌, ◌+◌, ◌<◌, ◌≤◌, ◌^◌, ◌∷◌, [], IfOk};
ghost use Rattle.niss_search.specs.Filling.{goal_ticks, IsEntry, IsFilled, AreEntries};

use super::fill::fill_table;
use super::goal_moves::GoalMoves;
use super::meter::Meter;
use super::position::GoalCoordinates;
use super::state_space::StateSpace;
use crate::path::Limit;
use arrayvec::ArrayVec;
use niss_cube::{Cube, OutOfMemory, Turn};
use std::alloc::Allocator;
use std::marker::Model;

/// The entry at which the goal holds: each of its coordinates is 0.
pub(super) const GOAL_ENTRY: usize = 0;

/// The byte of an entry that is further than any search goes, or that the fill hasn't met yet.
pub(super) const FAR: u8 = Limit::MOST + 1;

/// A pruning table that is still to be filled, with all its memory: the distance is known at the goal alone.
#[derive(Drop)]
pub struct EmptyTable<M: GoalMoves, A: Allocator> {
    moves: M,
    distances: Vec<u8, A>,
    ghost is_empty: { IsFilled (M.alternative moves) 0 distances.items },
}

impl<M: GoalMoves + Drop, A: Allocator> EmptyTable<M, A> {
    /// That of one goal of a step.
    pub fn new_in(alloc: A, moves: M) -> Result<EmptyTable<M, A>, OutOfMemory>
        ensures { IfOk result (λ t. t.moves ≡ moves) }
    {
        let Ok(mut distances) = Vec::from_elem(alloc, FAR, moves.entry_count()) else {
            return Err(OutOfMemory);
        };
        distances[GOAL_ENTRY] = 0;
        Ok(EmptyTable { moves, distances })
    }
}

impl<M: GoalMoves, A: Allocator> EmptyTable<M, A> {
    /// Fills it. The meter rises by one for each turn that is tried.
    #[tactic(auto, using(crate::proofs::FillLemmas::goal_ticks_bound))]
    pub fn fill(self, meter: &mut Meter) -> PruningTable<M, A>
        requires { meter.old + 2 ^ 32 < 2 ^ 128 }
        ensures moves { result ≡ self.moves }
        ensures ticks { meter.new ≡ meter.old + goal_ticks (M.alternative self.moves) }
        ensures few { meter.new ≤ meter.old + 2 ^ 32 }
    {
        let mut distances = self.distances;
        fill_table(&self.moves, &mut distances, meter);
        PruningTable {
            moves: self.moves,
            distances,
        }
    }
}

/// The pruning table of one goal of a step: a byte for each entry, its distance.
#[derive(Drop)]
pub struct PruningTable<M: GoalMoves, A: Allocator> {
    moves: M,
    distances: Vec<u8, A>,
}

impl<M: GoalMoves, A: Allocator> Model for PruningTable<M, A> {
    ghost use Rattle.niss_search.specs.Filling.{IsFilled};

    ghost Value = { M };

    ghost view = { λ t. t.moves };

    ghost invariant = { λ t. IsFilled (M.alternative t.moves) 20 t.distances.items };
}

impl<M: GoalMoves, A: Allocator> PruningTable<M, A> {
    /// The state of the coordinates of its goal.
    pub(super) fn state_of(&self, coordinates: GoalCoordinates) -> M::State
        requires { IsEntry (M.alternative self.now).goal coordinates }
        ensures { M.seen self.now result ≡ coordinates }
    {
        self.moves.state(coordinates)
    }
}

impl<M: GoalMoves, A: Allocator> StateSpace for PruningTable<M, A> {
    type State = M::State;

    ghost step = { λ t. (M.alternative t).step };

    ghost goals = { λ t. (M.alternative t).goal ∷ [] };

    ghost seen = { λ t x. M.seen t x ∷ [] };

    #[tactic(auto, unfolding(crate::specs::Filling::AreEntries))]
    fn state(&self, coordinates: &[GoalCoordinates]) -> M::State {
        let [coordinates] = *coordinates else {
            unreachable!()
        };
        self.state_of(coordinates)
    }

    #[inline(always)]
    fn inverse_after(&self, cube: &Cube, turn: Turn) -> M::State {
        self.moves.inverse_after(cube, turn)
    }

    fn put_coordinates(&self, state: M::State, list: &mut ArrayVec<GoalCoordinates, 3>) {
        list.push(self.moves.coordinates_of(state));
    }

    #[tactic(auto, unfolding(crate::specs::Positions::position_after))]
    #[inline(always)]
    fn after(&self, state: M::State, column: usize) -> M::State {
        self.moves.after(state, column)
    }

    #[inline(always)]
    fn distance(&self, state: M::State) -> u8 {
        self.distances[self.moves.entry(state)]
    }
}
