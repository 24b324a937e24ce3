//! The tables of a search, by the kind of its states.
ghost use Rattle.std.specs.Prelude.{◌≡◌, ◌+◌, ◌<◌, ◌^◌, Contains};
ghost use Rattle.niss_moves.specs.Canonical.{may_follow};
ghost use Rattle.niss_moves.specs.Effects.{turned};
ghost use Rattle.niss_cube.specs.declared.cube.Cube.{Cube as Cubes};
ghost use Rattle.niss_cube.specs.Inverses.{IsTakenBack};
ghost use Rattle.niss_cube.specs.Map.{map_of};
ghost use Rattle.niss_cube.specs.Steps.{turns_of};
ghost use Rattle.niss_search.specs.Cubes.{IsPosition};
ghost use Rattle.niss_search.specs.Followers.{IsFollower, AreFollowers};
ghost use Rattle.niss_search.specs.StepSpace.{IsSpaceOf};
ghost use Rattle.niss_search.specs.Positions.{position_of, position_after, distance_at};

use super::followers::{Follower, Followers};
use super::meter::Meter;
use super::position::Position;
use super::state_space::StateSpace;
use arrayvec::ArrayVec;
use niss_cube::laws::are_coordinates;
use niss_cube::{Cube, Step, Turn};
use std::marker::Model;

/// The turns of a step that may follow each other, and the space of its states.
#[derive(Drop)]
pub struct SearchTables<S: StateSpace> {
    followers: Followers,
    space: S,
}

impl<S: StateSpace> Model for SearchTables<S> {
    ghost use Rattle.niss_search.specs.StepSpace.{StepSpace, IsSpaceOf};

    ghost Value = { StepSpace S };

    ghost view = { λ t. record { step = t.followers; space = t.space } };

    ghost invariant = { λ t. IsSpaceOf t.followers (S.step t.space) (S.goals t.space) };
}

impl<S: StateSpace> SearchTables<S> {
    /// Those of a step, by the space of all its goals.
    pub fn of(step: Step, space: S) -> SearchTables<S>
        requires { IsSpaceOf step (S.step space) (S.goals space) }
        ensures { result.step ≡ step }
    {
        SearchTables {
            followers: Followers::of(step),
            space,
        }
    }

    /// The step's turns that may stand directly after the last one, in turn order.
    pub fn turns_after(&self, last: Option<Turn>) -> &[Follower]
        ensures { AreFollowers self.now.step (may_follow last) result.now }
    {
        self.followers.after(last)
    }

    /// The state of a position of the step.
    pub fn state(&self, position: &Position) -> S::State
        requires position { IsPosition self.now.step position.now }
        ensures { S.seen self.now.space result ≡ position.now }
    {
        are_coordinates();
        self.space.state(position.coordinates())
    }

    /// The state of the inverse of a cube after a turn. It isn't inlined: it is long, and each search would have a copy of it.
    #[inline(never)]
    pub fn inverse_after(&self, cube: &Cube, turn: Turn) -> S::State
        ensures { (d : Cubes) → IsTakenBack (λ q. turned turn (map_of cube.now q)) d
            → S.seen self.now.space result ≡ position_of self.now.step (map_of d) }
    {
        self.space.inverse_after(cube, turn)
    }

    /// The position after a turn of the step.
    pub fn position_after(&self, position: &Position, turn: Turn) -> Position
        requires position { IsPosition self.now.step position.now }
        requires of_step { Contains (turns_of self.now.step) turn }
        ensures { result ≡ position_after position.now turn }
    {
        let column = self.followers.column(turn);
        let state = self.space.after(self.state(position), column);
        let mut coordinates = ArrayVec::new();
        self.space.put_coordinates(state, &mut coordinates);
        Position::from_coordinates(coordinates)
    }

    /// The state after a turn of the step.
    #[inline(always)]
    pub fn after(&self, state: S::State, follower: Follower) -> S::State
        requires of_step { IsFollower self.now.step follower }
        ensures { S.seen self.now.space result ≡ position_after (S.seen self.now.space state) follower.turn }
    {
        self.space.after(state, follower.column as usize)
    }

    /// The distance of a state: the only way to judge it, at the price of a tick.
    #[inline(always)]
    pub fn look(&self, state: S::State, meter: &mut Meter) -> u8
        requires meter { meter.old + 1 < 2 ^ 128 }
        ensures tick { meter.new ≡ meter.old + 1 }
        ensures value { result ≡ distance_at self.now.step (S.seen self.now.space state) }
    {
        meter.tick();
        self.space.distance(state)
    }

    /// The distance of a position, at the same price.
    pub fn look_at(&self, position: &Position, meter: &mut Meter) -> u8
        requires position { IsPosition self.now.step position.now }
        requires meter { meter.old + 1 < 2 ^ 128 }
        ensures tick { meter.new ≡ meter.old + 1 }
        ensures value { result ≡ distance_at self.now.step position.now }
    {
        self.look(self.state(position), meter)
    }
}
