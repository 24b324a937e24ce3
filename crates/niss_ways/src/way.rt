//! A way on: an orientation and a reduction, or a reduction after an orientation that holds.
ghost use Rattle.std.specs.Prelude.{◌≡◌, ◌+◌, ◌*◌, ◌<◌, ◌≤◌, length, slice_get};
ghost use Rattle.niss_moves.specs.declared.turn.Face.{Face};
ghost use Rattle.niss_cube.specs.Steps.{steps};
ghost use Rattle.niss_ways.specs.Shown.{step_number, shown, no_turns, no_part, Tells, TellsTurns};
ghost use Rattle.niss_ways.specs.Order.{rank_of};
ghost use Rattle.niss_search.specs.BothSides.{pair};

use crate::last_turns::{last_axis, last_on};
use crate::solution::Solution;
use niss_cube::{Axis, Step};
use niss_moves::{Face, Token, Turn};

/// The number of no step.
pub const NO_STEP: u8 = 255;

/// What stands behind the turns of a side.
pub const NO_TURN: u8 = 255;

/// What the faces are called as the cube is held: at the place of each face in U, D, R, L, F, B the one that is meant.
pub type Names = [Face; 6];

/// Turns on a side.
#[repr(C)]
#[derive(Clone, Copy, Debug, PartialEq, Eq)]
pub struct SideTurns {
    /// How many they are.
    pub count: u8,
    /// How many at the end may go either way: if one of them is a quarter turn, its other direction reaches the step too.
    pub free: u8,
    /// Each by its number in turn order, from 0 to 17, as it is written; `NO_TURN` behind them.
    pub turns: [u8; 20],
}

/// The moves of a step on both sides.
#[repr(C)]
#[derive(Clone, Copy, Debug, PartialEq, Eq)]
pub struct Part {
    /// The number of the step, as `Step::all` lists them, or `NO_STEP`.
    pub step: u8,
    /// Those on the normal side.
    pub normal: SideTurns,
    /// Those on the inverse.
    pub inverse: SideTurns,
}

/// A way on.
#[repr(C)]
#[derive(Clone, Copy, Debug, PartialEq, Eq)]
pub struct Way {
    /// All moves, with those so far: of each side once they are cleaned.
    pub total: u16,
    /// The case of the reduction: its bad corners, and its edges on the wrong side of the slice.
    pub corners: u8,
    pub edges: u8,
    /// The least length of the reduction on the scramble alone and on its inverse alone, or 21 if it is more than 20.
    pub on_normal: u8,
    pub on_inverse: u8,
    /// The orientation, or none if it holds already.
    pub eo: Part,
    /// The reduction.
    pub dr: Part,
}

/// The number of a turn in turn order, as it is written.
pub fn shown(names: &Names, turn: Turn) -> u8
    ensures value { result ≡ shown names.now turn }
    ensures in_range { result < 18 }
{
    let face = names[turn.face as usize];
    let power = turn.power;
    Token::Face(Turn { face, power }).index() as u8
}

/// What ways are put in order by, as one number: all moves, those of the first step, the pieces of the case, and the
/// first step.
pub fn rank_by(total: u16, length: u16, pieces: u16, step: u8) -> u64
    ensures { result ≡ ((total * 512 + length) * 512 + pieces) * 256 + step }
{
    ((u64::from(total) * 512 + u64::from(length)) * 512 + u64::from(pieces)) * 256 + u64::from(step)
}

impl SideTurns {
    /// No turn.
    fn none() -> SideTurns
        ensures { result ≡ no_turns }
    {
        SideTurns {
            count: 0,
            free: 0,
            turns: [NO_TURN; 20],
        }
    }

    /// Some turns, as they are written, of which the last ones on an axis may go either way.
    fn of(names: &Names, axis: Option<Axis>, turns: &[Turn]) -> SideTurns
        requires { length turns.now ≤ 20 }
        ensures { TellsTurns names.now axis turns.now result }
    {
        let mut numbers = [NO_TURN; 20];
        for index in 0..turns.len() {
            numbers[index] = shown(names, turns[index]);
        }
        let free = axis.map_or(0, |axis| last_on(axis, turns));
        SideTurns {
            count: turns.len() as u8,
            free: free as u8,
            turns: numbers,
        }
    }
}

impl Part {
    /// No moves.
    pub(crate) fn none() -> Part
        ensures { result ≡ no_part }
    {
        Part {
            step: NO_STEP,
            normal: SideTurns::none(),
            inverse: SideTurns::none(),
        }
    }

    /// The moves of a solution of a step, as they are written.
    pub(crate) fn of(names: &Names, step: Step, solution: &Solution) -> Part
        ensures { Tells names.now step solution.now result }
    {
        let axis = last_axis(step);
        Part {
            step: step as u8,
            normal: SideTurns::of(names, axis, solution.normal()),
            inverse: SideTurns::of(names, axis, solution.inverse()),
        }
    }

    /// The step, if there is one.
    pub fn step(&self) -> Option<Step>
        ensures { result ≡ slice_get steps self.now.step }
    {
        Step::all().get(usize::from(self.step)).copied()
    }

    /// How many turns it has on both sides.
    fn turns(&self) -> u16
        ensures { result ≡ self.now.normal.count + self.now.inverse.count }
    {
        u16::from(self.normal.count) + u16::from(self.inverse.count)
    }
}

impl Default for Way {
    fn default() -> Way {
        Way {
            total: 0,
            corners: 0,
            edges: 0,
            on_normal: 0,
            on_inverse: 0,
            eo: Part::none(),
            dr: Part::none(),
        }
    }
}

impl Way {
    /// What it is put in order by: all moves, those of the first step, the pieces of the case, and the axis of the
    /// orientation.
    #[tactic(auto, unfolding(crate::specs::Order::rank_of))]
    pub(crate) fn rank(&self) -> u64
        ensures { result ≡ rank_of self.now }
    {
        let first = if self.eo.step == NO_STEP {
            &self.dr
        } else {
            &self.eo
        };
        let pieces = u16::from(self.corners) + u16::from(self.edges);
        rank_by(self.total, first.turns(), pieces, first.step)
    }
}
