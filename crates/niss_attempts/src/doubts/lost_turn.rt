//! A turn that was lost between two steps of an attempt, as its text shows it there.
ghost use Rattle.std.specs.Prelude.{◌≡◌, ◌<◌, ℕ, List, Ok, IfSome, false, length};
ghost use Rattle.niss_moves.specs.Line.{Moves};
ghost use Rattle.niss_attempts.specs.Between.{AreWhole};
ghost use Rattle.niss_attempts.specs.Corners.{IsAroundBorder};
ghost use Rattle.niss_attempts.specs.LostTurn.{IsLostAt, IsLostIn, solves_with_turn};
ghost use Rattle.niss_attempts.specs.ShownTurn.{shown_between};

use crate::doubts::Doubt;
use crate::doubts::shown_turn::Border;
use crate::doubts::turn_words::turn_bytes;
use crate::steps::WholeSteps;
use crate::steps::corners::{Around, corners_of_step};
use crate::steps::reading::Reading;
use niss_moves::{Turn, turn_order};
use niss_text::TextLine;

/// How many turns there are.
const TURNS: usize = 18;

/// Whether all steps may solve with a turn between the steps, by what these do to the corners, as far as that is known.
fn may_with_turn(around: &Option<Around>, turn: Turn) -> bool
    ensures { (scramble : Moves) (steps bounds : List ℕ) (number : ℕ) → IfSome around.now (IsAroundBorder scramble steps bounds number) →
        result ≡ false → solves_with_turn (Ok scramble) steps bounds number turn ≡ false }
{
    let Some(around) = around else {
        return true;
    };
    match corners_of_step(&turn_bytes(turn), Reading::AsWritten) {
        Some(own) => around.may_insert(&own),
        None => true,
    }
}

/// The doubt of the first turn, in turn order, that solves so at a border, and that the text shows there.
fn lost_by(whole: &WholeSteps, around: &Option<Around>, border: &Border) -> Option<Doubt>
    requires whole { AreWhole whole.now }
    requires number { border.now.number < length whole.now.bounds.now }
    requires around { IfSome around.now (IsAroundBorder whole.now.scramble.now whole.now.steps.now whole.now.bounds.now border.now.number) }
    ensures { IsLostAt (Ok whole.now.scramble.now) whole.now.steps.now whole.now.bounds.now border.now.number
        (shown_between border.now.text.now border.now.above border.now.below border.now.has_one_sign) result }
{
    if !border.may_show() {
        return None;
    }
    for place in 0..TURNS {
        let turn = turn_order()[place];
        let Some(shown) = border.shows(turn) else {
            continue;
        };
        if !may_with_turn(around, turn) {
            continue;
        }
        if whole.solve_with(border.number, &turn_bytes(turn)) {
            return Some(shown);
        }
    }
    None
}

/// The same. A sign may stand for each turn: most of these are seen not to solve by what they do to the corners.
fn lost_at(whole: &WholeSteps, border: &Border) -> Option<Doubt>
    requires whole { AreWhole whole.now }
    requires number { border.now.number < length whole.now.bounds.now }
    ensures { IsLostAt (Ok whole.now.scramble.now) whole.now.steps.now whole.now.bounds.now border.now.number
        (shown_between border.now.text.now border.now.above border.now.below border.now.has_one_sign) result }
{
    if border.number + 1 >= whole.bounds.len() || border.sign().is_none() {
        return lost_by(whole, &None, border);
    }
    lost_by(whole, &Some(whole.around(border.number)), border)
}

/// The doubt that a turn was lost: that with it before a step of an attempt, or after the last one, all steps solve, and
/// that the text shows it there. The first such place counts.
pub fn lost_turn(whole: &WholeSteps, text: &[u8], lines: &[TextLine]) -> Option<Doubt>
    requires whole { AreWhole whole.now }
    ensures { IsLostIn (Ok whole.now.scramble.now) whole.now.steps.now whole.now.bounds.now text.now lines.now result }
{
    let mut border = Border::begin(text, lines);
    for number in 0..whole.bounds.len() {
        if let Some(shown) = lost_at(whole, &border) {
            return Some(shown);
        }
        border = border.next();
    }
    None
}
