//! How far a step is from a cube, on each side.
ghost use Rattle.std.specs.Prelude.{◌≡◌, ◌≤◌, true, IfOk, IfSome, IsTrue};
ghost use Rattle.niss_moves.specs.Places.{SameMap};
ghost use Rattle.niss_cube.specs.BadPieces.{TakesBack};
ghost use Rattle.niss_cube.specs.Map.{map_of};
ghost use Rattle.niss_cube.specs.Steps.{may_start};
ghost use Rattle.niss_search.specs.Cubes.{distance_of};

use crate::looks::{Cut, Looks};
use niss_cube::laws::inverse_has_steps;
use niss_cube::{Cube, Step};
use niss_search::Tables;
use std::alloc::Allocator;

/// A cube on which a step may start, the cube of the inverse scramble, and the least lengths of the step's solutions on each
/// of them alone, or 21 if it is more than 20.
#[derive(Clone, Copy)]
pub struct Measured {
    pub step: Step,
    pub cube: Cube,
    pub inverse: Cube,
    pub on_normal: u8,
    pub on_inverse: u8,
    ghost back: { TakesBack cube inverse },
    ghost starts: { IsTrue (may_start step (map_of cube)) },
    ghost normal: { on_normal ≡ distance_of step (map_of cube) },
    ghost other: { on_inverse ≡ distance_of step (map_of inverse) },
    ghost small: { (on_normal ≤ 21) × (on_inverse ≤ 21) },
}

impl Measured {
    /// That of a cube, by two looks, or none if the step may not start there.
    pub fn of<A: Allocator>(
        tables: &Tables<A>,
        cube: &Cube,
        inverse: &Cube,
        looks: &mut Looks,
    ) -> Result<Option<Measured>, Cut>
        requires { TakesBack cube.now inverse.now }
        ensures most { looks.new.most ≡ looks.old.most }
        ensures step { IfOk result (λ found. IfSome found (λ measured. measured.step ≡ tables.now)) }
    {
        let step = tables.step();
        if !step.may_start(cube) {
            return Ok(None);
        }
        inverse_has_steps();
        let on_normal = looks.distance(tables, cube)?;
        let on_inverse = looks.distance(tables, inverse)?;
        Ok(Some(Measured {
            step,
            cube: *cube,
            inverse: *inverse,
            on_normal,
            on_inverse,
        }))
    }

    /// Whether it is that of a step and a cube.
    pub fn is_of(&self, step: Step, cube: &Cube) -> bool
        ensures step { result ≡ true → self.now.step ≡ step }
        ensures cube { result ≡ true → SameMap (map_of self.now.cube) (map_of cube.now) }
    {
        self.step == step && self.cube == *cube
    }

    /// The least length on one side.
    pub fn on_one(&self) -> u8
        ensures { result ≤ 21 }
    {
        self.on_normal.min(self.on_inverse)
    }
}
