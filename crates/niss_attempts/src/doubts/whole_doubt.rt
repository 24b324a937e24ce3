//! What makes one doubt the steps of an attempt that isn't solved: a part that solves, a lost turn, a turned cube, a moved step.
ghost use Rattle.std.specs.Prelude.{◌≡◌, ◌<◌, Ok, length};
ghost use Rattle.niss_attempts.specs.Attempts.{IsDoubtOfRead, IsDoubtOfWritten};
ghost use Rattle.niss_attempts.specs.Between.{AreWhole};
ghost use Rattle.niss_attempts.specs.Parts.{bounds_of};
ghost use Rattle.niss_attempts.specs.WholeDoubt.{IsTurnedOrMovedIn, IsWholeDoubtIn, is_beyond};

use crate::doubts::Doubt;
use crate::doubts::lost_turn::lost_turn;
use crate::doubts::moved_step::moved_step;
use crate::doubts::shown_turn::count_steps;
use crate::doubts::turned_cube::turned_cube;
use crate::steps::WholeSteps;
use crate::steps::parts::answer_to;
use crate::steps::read_attempt::{MOST_STEP_BYTES, ReadAttempt};
use niss_moves::LineReader;
use niss_shell::MOST_BYTES;
use niss_text::TextLine;

/// Whether steps aren't a line each of the text, or they or a scramble have too many bytes.
fn is_beyond(scramble: &[u8], steps: &[u8], bounds: &[usize], lines: &[TextLine]) -> bool
    requires bounds { bounds.now ≡ bounds_of steps.now }
    requires some { 0 < length bounds.now }
    ensures { result ≡ is_beyond scramble.now steps.now lines.now }
{
    bounds.len() - 1 != count_steps(lines)
        || (scramble.len() > MOST_BYTES || steps.len() > MOST_STEP_BYTES)
}

/// The doubt that the cube was turned before a step, or else that one belongs elsewhere.
fn turned_or_moved(whole: &WholeSteps, lines: &[TextLine]) -> Option<Doubt>
    requires whole { AreWhole whole.now }
    ensures { IsTurnedOrMovedIn (Ok whole.now.scramble.now) whole.now.steps.now whole.now.bounds.now lines.now result }
{
    match turned_cube(whole, lines) {
        Some(turned) => Some(turned),
        None => moved_step(whole, lines),
    }
}

/// The doubt that with a turn before a step, or after the last one, all steps solve the scramble, and that the text shows it
/// there; or else that they do if the cube is turned before one; or else if one stands elsewhere. The steps stand a line each.
fn doubt_of_whole(whole: &WholeSteps, text: &[u8], lines: &[TextLine]) -> Option<Doubt>
    requires whole { AreWhole whole.now }
    ensures { IsWholeDoubtIn (Ok whole.now.scramble.now) whole.now.steps.now whole.now.bounds.now text.now lines.now result }
{
    match lost_turn(whole, text, lines) {
        Some(lost) => Some(lost),
        None => turned_or_moved(whole, lines),
    }
}

/// The doubt that a part of all steps solves, by the place of each of their bytes; or else the same, unless they are beyond
/// what is looked at.
fn doubt_of_read(
    whole: &WholeSteps,
    places: &[u64],
    is_beyond: bool,
    text: &[u8],
    lines: &[TextLine],
) -> Option<Doubt>
    requires whole { AreWhole whole.now }
    ensures { IsDoubtOfRead (Ok whole.now.scramble.now) is_beyond whole.now.steps.now whole.now.bounds.now places.now text.now lines.now result }
{
    let of_part = Doubt::of_part(&answer_to(whole), places);
    if is_beyond || of_part.is_some() {
        return of_part;
    }
    doubt_of_whole(whole, text, lines)
}

/// The same of steps as they are written, after a scramble. Both are read once.
pub(crate) fn doubt_of_written(
    scramble: &[u8],
    steps: &[u8],
    places: &[u64],
    text: &[u8],
    lines: &[TextLine],
) -> Option<Doubt>
    ensures { IsDoubtOfWritten scramble.now steps.now places.now text.now lines.now result }
{
    let mut reader = LineReader::new();
    let Ok(attempt) = ReadAttempt::read(&mut reader, scramble, steps) else {
        return None;
    };
    let whole = attempt.whole();
    let is_beyond = is_beyond(scramble, steps, whole.bounds, lines);
    doubt_of_read(&whole, places, is_beyond, text, lines)
}
