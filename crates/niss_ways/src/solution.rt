//! Solutions over both sides.
ghost use Rattle.std.specs.Prelude.{◌≡◌, ◌≤◌, length};

use crate::counting::{Sequence, sequence_of};
use crate::last_turns::{half_turns, stands_for_twins, twin_count, twin_of};
use niss_cube::laws::steps_see_places;
use niss_cube::{Axis, Cube, Step, Turn};
use niss_moves::laws::places_stay;
use niss_search::begins_reached;
use std::marker::Model;

/// Turns on the normal side and on the inverse.
#[derive(Drop)]
pub struct Solution {
    normal: Sequence,
    inverse: Sequence,
}

impl Model for Solution {
    ghost use Rattle.niss_search.specs.BothSides.{Pair};

    ghost Value = { Pair };

    ghost view = { λ s. record { normal = s.normal.items; inverse = s.inverse.items } };
}

impl Solution {
    ghost use Rattle.std.specs.Prelude.{◌≡◌, ◌+◌, ◌≤◌, ◌&&◌, not, length, IsTrue};
    ghost use Rattle.niss_moves.specs.Places.{SameMap};
    ghost use Rattle.niss_cube.specs.Map.{map_of};
    ghost use Rattle.niss_search.specs.BothSides.{pair};
    ghost use Rattle.niss_ways.specs.Ways.{cube_after, first_reaches};

    /// That of these turns.
    pub fn of(normal: &[Turn], inverse: &[Turn]) -> Solution
        requires normal { length normal.now ≤ 20 }
        requires inverse { length inverse.now ≤ 20 }
        ensures { result ≡ pair normal.now inverse.now }
    {
        Solution {
            normal: sequence_of(normal),
            inverse: sequence_of(inverse),
        }
    }

    /// The turns on the normal side.
    pub fn normal(&self) -> &[Turn]
        ensures value { result.now ≡ self.now.normal }
        ensures few { length result.now ≤ 20 }
    {
        self.normal.as_slice()
    }

    /// The turns on the inverse.
    pub fn inverse(&self) -> &[Turn]
        ensures value { result.now ≡ self.now.inverse }
        ensures few { length result.now ≤ 20 }
    {
        self.inverse.as_slice()
    }

    /// How many turns it has.
    pub fn len(&self) -> u8
        ensures value { result ≡ length self.now.normal + length self.now.inverse }
        ensures few { result ≤ 40 }
    {
        (self.normal().len() + self.inverse().len()) as u8
    }

    /// Whether it stands for its twins: on each side that has turns the last ones on the axis are quarter turns
    /// clockwise.
    pub fn stands_for_twins(&self, axis: Axis) -> bool {
        stands_for_twins(axis, self.normal()) && stands_for_twins(axis, self.inverse())
    }

    /// How many twins it has, with itself.
    pub fn twins(&self, axis: Axis) -> u8
        ensures { result ≤ 16 }
    {
        twin_count(axis, self.normal()) * twin_count(axis, self.inverse())
    }

    /// The twin of a number: in turn order of the last turns on the normal side, then of those on the inverse.
    pub fn twin(&self, axis: Axis, number: u8) -> Solution {
        let count = twin_count(axis, self.inverse()).max(1);
        Solution {
            normal: twin_of(self.normal(), number / count),
            inverse: twin_of(self.inverse(), number % count),
        }
    }

    /// The cube after the twin of a number, by that after the solution itself: a quarter turn that goes the other way is the
    /// same one and a half turn.
    pub fn cube_after_twin(&self, axis: Axis, number: u8, cube: &Cube) -> Cube {
        let count = twin_count(axis, self.inverse()).max(1);
        let mut twin = *cube;
        for turn in half_turns(self.normal(), number / count) {
            if let Some(turn) = turn {
                twin.turn(turn);
            }
        }
        for turn in half_turns(self.inverse(), number % count) {
            if let Some(turn) = turn {
                twin.turn_before(turn);
            }
        }
        twin
    }

    /// The cube after it.
    pub fn cube_after(&self, cube: &Cube) -> Cube
        ensures { SameMap (map_of result) (cube_after (map_of cube.now) self.now) }
    {
        places_stay();
        let inverse = self.inverse();
        let mut here = *cube;
        for turn in inverse {
            here.turn_before(turn.inverse());
        }
        here.apply(self.normal());
        here
    }

    /// Whether it reaches a step from a cube, and no beginnings of it with fewer turns do.
    pub fn first_reaches(&self, step: Step, cube: &Cube) -> bool
        ensures { result ≡ first_reaches step (map_of cube.now) self.now }
    {
        steps_see_places();
        step.reached(&self.cube_after(cube))
            && !begins_reached(step, cube, self.normal(), self.inverse())
    }
}
