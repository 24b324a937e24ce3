//! What a step looks at in a cube.
ghost use Rattle.std.specs.Prelude.{◌≡◌, ◌≤◌};
ghost use Rattle.niss_cube.specs.Map.{map_of};
ghost use Rattle.niss_search.specs.Positions.{coordinates_of};

use arrayvec::ArrayVec;
use niss_cube::{Axis, Cube, Goal};
use std::marker::Model;

/// The coordinates that decide whether a goal holds on a cube on which the step may start.
#[derive(Clone, Copy)]
pub enum GoalCoordinates {
    /// The flip on an axis.
    Flip { axis: Axis, flip: u16 },
    /// The twist and the slice on an axis.
    TwistAndSlice { axis: Axis, twist: u16, slice: u16 },
}

impl GoalCoordinates {
    /// Those of a cube.
    fn of(goal: Goal, cube: &Cube) -> GoalCoordinates
        ensures { result ≡ coordinates_of goal (map_of cube.now) }
    {
        match goal {
            Goal::Edges(axis) => GoalCoordinates::Flip {
                axis,
                flip: cube.flip(axis),
            },
            Goal::Domino { axis, .. } => GoalCoordinates::TwistAndSlice {
                axis,
                twist: cube.twist(axis),
                slice: cube.slice(axis),
            },
        }
    }
}

impl Default for GoalCoordinates {
    /// A flip of 0: what a list of coordinates holds in its unused cells.
    fn default() -> GoalCoordinates {
        GoalCoordinates::Flip {
            axis: Axis::Fb,
            flip: 0,
        }
    }
}

/// What a step looks at in a cube, for each of its goals: the flip on an axis for an edge orientation, twist and slice for a
/// domino reduction.
#[derive(Drop)]
pub struct Position {
    coordinates: ArrayVec<GoalCoordinates, 3>,
}

impl Model for Position {
    ghost use Rattle.std.specs.Prelude.{List};
    ghost use Rattle.niss_search.specs.Names.{GoalCoordinates};

    ghost Value = { List GoalCoordinates };

    ghost view = { λ p. p.coordinates.items };
}

impl Position {
    ghost use Rattle.std.specs.Prelude.{map, length};

    /// The position of a cube, by the goals of the step.
    pub(super) fn of(goals: &[Goal], cube: &Cube) -> Position
        requires { length goals.now ≤ 3 }
        ensures { result ≡ map (λ goal. coordinates_of goal (map_of cube.now)) goals.now }
    {
        let mut coordinates = ArrayVec::new();
        for goal in goals {
            coordinates.push(GoalCoordinates::of(*goal, cube));
        }
        Position { coordinates }
    }

    /// The position that has the coordinates, a goal after the other.
    pub(super) fn from_coordinates(coordinates: ArrayVec<GoalCoordinates, 3>) -> Position
        ensures { result ≡ coordinates.items }
    {
        Position { coordinates }
    }

    /// The coordinates, a goal after the other.
    pub(super) fn coordinates(&self) -> &[GoalCoordinates]
        ensures { result.now ≡ self.now }
    {
        self.coordinates.as_slice()
    }
}
