//! A cube after an orientation.
ghost use Rattle.std.specs.Prelude.{◌≤◌};
ghost use Rattle.niss_cube.specs.BadPieces.{TakesBack};

use crate::made::Made;
use crate::solution::Solution;
use crate::start::Start;
use niss_cube::{Axis, Cube};

/// An orientation, the cube after it and the inverse of that, and what is made with it.
#[derive(Drop)]
pub struct Oriented {
    pub solution: Solution,
    pub cube: Cube,
    pub inverse: Cube,
    pub made: Made,
    ghost back: { TakesBack cube inverse },
    ghost small: { (made.count ≤ 1024) × (made.saving ≤ 2056) },
}

impl Oriented {
    /// That of an orientation on an axis, after which the cube is this one.
    pub fn by(start: &Start, axis: Axis, solution: Solution, cube: Cube) -> Oriented {
        let made = Made::with(start, axis, &solution);
        Oriented {
            solution,
            cube,
            inverse: cube.inverse(),
            made,
        }
    }
}
