//! Steps of an attempt that solve once the whole cube is turned before one of them.
ghost use Rattle.std.specs.Prelude.{◌≡◌, ◌++◌, ℕ, List, Some, IsTrue, Ok, false};
ghost use Rattle.niss_moves.specs.Line.{Moves};
ghost use Rattle.niss_moves.specs.Rotations.{spelling};
ghost use Rattle.niss_moves.specs.Solving.{IsRotated};
ghost use Rattle.niss_moves.specs.declared.token.Token.{Token};
ghost use Rattle.niss_attempts.specs.Between.{AreWhole};
ghost use Rattle.niss_attempts.specs.Corners.{Brings, IsAroundBorder};
ghost use Rattle.niss_attempts.specs.TurnedCube.{AreSides, IsTurnedAt, IsTurnedIn, doubt_at_step, solves_turned};

mod holds;

use crate::doubts::shown_turn::step_at;
use crate::doubts::turned_cube::holds::{Hold, NUMBER_OF_HOLDS, hold_numbered, turned_bytes};
use crate::doubts::{Doubt, Reason};
use crate::steps::WholeSteps;
use crate::steps::corners::Around;
use crate::steps::cube_corners::Corners;
use niss_moves::laws::{line_is_read, one_reading, rotated_is_tested};
use niss_text::TextLine;

/// What the moves before a place between steps do to the corners, those of the scramble first, and those after it.
#[derive(Clone, Copy)]
pub struct Sides {
    pub front: Corners,
    pub back: Corners,
}

impl Sides {
    /// What those do that stand around a place.
    fn of(around: &Around) -> Sides
        ensures { AreSides around.now result }
    {
        Sides {
            front: around.attempt.scramble.then(&around.before.normal),
            back: around.after.then(&around.before.inverse),
        }
    }

    /// Whether all of them may only turn the cube with moves between them that bring corners so.
    fn may_be_rotated(&self, between: &Corners) -> bool
        ensures { (s r t : List Token) → Brings self.now.front.to s → Brings between.now.to r → Brings self.now.back.to t → IsRotated (s ++ r ++ t) →
            IsTrue result }
    {
        self.front.two_stay_by(between, &self.back)
            && self.front.then(between).then(&self.back).may_be_rotated()
    }
}

/// Whether all steps may solve if the cube is held so from a place on, by what they do to the corners.
fn may_hold(around: &Around, sides: &Sides, hold: &Hold) -> bool
    requires sides { AreSides around.now sides.now }
    requires hold { Brings hold.now.corners.to (spelling hold.now.rotation) }
    ensures { (scramble : Moves) (steps bounds : List ℕ) (number : ℕ) → IsAroundBorder scramble steps bounds number around.now →
        result ≡ false → solves_turned (Ok scramble) steps bounds number hold.now.rotation ≡ false }
{
    line_is_read();
    one_reading();
    rotated_is_tested();
    !around.attempt.are_lines || sides.may_be_rotated(&hold.corners)
}

/// Whether all steps solve if the cube is held otherwise from the step of a number on.
fn is_turned_at(whole: &WholeSteps, around: &Around, number: usize) -> bool
    requires whole { AreWhole whole.now }
    requires around { IsAroundBorder whole.now.scramble.now whole.now.steps.now whole.now.bounds.now number around.now }
    ensures { IsTurnedAt (Ok whole.now.scramble.now) whole.now.steps.now whole.now.bounds.now number result }
{
    let sides = Sides::of(around);
    for at in 0..NUMBER_OF_HOLDS {
        let hold = hold_numbered(at);
        if !may_hold(around, &sides, &hold) {
            continue;
        }
        if whole.solve_with(number, &turned_bytes(hold.rotation)) {
            return true;
        }
    }
    false
}

/// The doubt that moves belong before the step of a number.
pub(crate) fn doubt_at(lines: &[TextLine], number: usize) -> Option<Doubt>
    ensures { result ≡ doubt_at_step lines.now (Some number) }
{
    step_at(lines, number).map(|line| Doubt {
        reason: Reason::Insertion,
        at: line.moves,
    })
}

/// The doubt that a rotation of the whole cube belongs before a step of an attempt: that with one all steps solve. The first
/// such step counts.
pub fn turned_cube(whole: &WholeSteps, lines: &[TextLine]) -> Option<Doubt>
    requires whole { AreWhole whole.now }
    ensures { IsTurnedIn (Ok whole.now.scramble.now) whole.now.steps.now whole.now.bounds.now lines.now result }
{
    let mut around = Around::begin(whole.corners);
    for number in 0..whole.bounds.len() - 1 {
        if is_turned_at(whole, &around, number) {
            return doubt_at(lines, number);
        }
        around = around.longer(number).passed();
    }
    None
}
