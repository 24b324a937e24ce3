//! A step of an attempt that, made twice or three times, has it solve its scramble.
ghost use Rattle.std.specs.Prelude.{◌≡◌, ◌<◌, ◌≤◌, ◌+◌, ◌*◌, ◌++◌, ℕ, List, Ok, IfSome, false, length, map};
ghost use Rattle.niss_moves.specs.Line.{Moves};
ghost use Rattle.niss_moves.specs.Reader.{IsFed};
ghost use Rattle.niss_attempts.specs.Corners.{IsAroundPart, Reads};
ghost use Rattle.niss_attempts.specs.Between.{AreWhole};
ghost use Rattle.niss_attempts.specs.Parts.{IsFirstStep, IsNew, bare_step, number_of_steps, read_byte, repeated, solves_repeated, solves_so_often};
ghost use Rattle.niss_attempts.specs.declared.steps.reading.Reading.TheVariants.{AsWritten, WithoutBrackets};

use crate::steps::WholeSteps;
use crate::steps::corners::{Around, StepCorners, corners_of_step};
use crate::steps::reading::{Reading, feed, solves_so};
use crate::stretch::stretch;
use niss_moves::LineReader;

/// Has a reader read a step without its brackets, twice or three times.
fn feed_times(reader: &mut LineReader, step: &[u8], thrice: bool)
    requires room { reader.old.fed + 3 * length step.now ≤ 16777216 }
    ensures fed { reader.new.fed ≤ reader.old.fed + 3 * length step.now }
    ensures bytes { (front : List ℕ) → IsFed reader.old front →
        IsFed reader.new (front ++ repeated thrice (map (read_byte WithoutBrackets) step.now)) }
{
    feed(reader, step, Reading::WithoutBrackets);
    feed(reader, step, Reading::WithoutBrackets);
    if thrice {
        feed(reader, step, Reading::WithoutBrackets);
    }
}

/// Has a reader read all steps, of which one is made so often.
fn feed_repeated(reader: &mut LineReader, before: &[u8], step: &[u8], after: &[u8], thrice: bool)
    requires new { IsNew reader.old }
    requires room { length before.now + 3 * length step.now + length after.now < 16777214 }
    ensures { IsFed reader.new (map (read_byte AsWritten) before.now ++ repeated thrice (map (read_byte WithoutBrackets) step.now) ++ map (read_byte AsWritten) after.now) }
{
    feed(reader, before, Reading::AsWritten);
    feed_times(reader, step, thrice);
    feed(reader, after, Reading::AsWritten);
}

/// Whether all steps solve the scramble if one is made so often.
#[inline(never)]
fn solves_so_often(whole: &WholeSteps, step: usize, thrice: bool) -> bool
    requires whole { AreWhole whole.now }
    requires step { step + 1 < length whole.now.bounds.now }
    ensures { result ≡ solves_so_often (Ok whole.now.scramble.now) whole.now.steps.now whole.now.bounds.now step thrice }
{
    let bounds = whole.bounds;
    let before = stretch(whole.steps, bounds[0], bounds[step]);
    let own = stretch(whole.steps, bounds[step], bounds[step + 1]);
    let after = stretch(whole.steps, bounds[step + 1], bounds[bounds.len() - 1]);
    let mut reader = LineReader::new();
    feed_repeated(&mut reader, before, own, after, thrice);
    solves_so(whole.scramble, &mut reader)
}

/// What a step does without its brackets, if it is a line by itself then. Most steps have none.
fn corners_of_bare(whole: &WholeSteps, step: usize, around: &Around) -> Option<StepCorners>
    requires whole { AreWhole whole.now }
    requires step { step + 1 < length whole.now.bounds.now }
    ensures { (scramble : Moves) → IsAroundPart scramble whole.now.steps.now whole.now.bounds.now step (step + 1) around.now →
        IfSome result (Reads (bare_step whole.now.steps.now whole.now.bounds.now step)) }
{
    if around.attempt.are_lines && around.own.plain {
        return Some(around.own);
    }
    corners_of_step(
        stretch(whole.steps, whole.bounds[step], whole.bounds[step + 1]),
        Reading::WithoutBrackets,
    )
}

/// Whether they may, by what they do to the corners. Nothing is known of a step that isn't a line by itself.
#[inline(never)]
fn may_so_often(around: &Around, bare: &Option<StepCorners>, thrice: bool) -> bool
    ensures { (scramble : Moves) (text bounds : List ℕ) (step : ℕ) → IsAroundPart scramble text bounds step (step + 1) around.now →
        IfSome bare.now (Reads (bare_step text bounds step)) → result ≡ false → solves_so_often (Ok scramble) text bounds step thrice ≡ false }
{
    match bare {
        Some(bare) => around.may_repeat(bare, thrice),
        None => true,
    }
}

/// Whether all steps solve the scramble if one is made twice or three times.
fn solves_repeated(whole: &WholeSteps, step: usize, around: &Around) -> bool
    requires whole { AreWhole whole.now }
    requires around { IsAroundPart whole.now.scramble.now whole.now.steps.now whole.now.bounds.now step (step + 1) around.now }
    ensures { result ≡ solves_repeated (Ok whole.now.scramble.now) whole.now.steps.now whole.now.bounds.now step }
{
    let bare = corners_of_bare(whole, step, around);
    if may_so_often(around, &bare, false) && solves_so_often(whole, step, false) {
        return true;
    }
    may_so_often(around, &bare, true) && solves_so_often(whole, step, true)
}

/// The first step that solves the scramble if it is made twice or three times in its place, without its brackets.
pub fn repeated_step(whole: &WholeSteps) -> Option<usize>
    requires whole { AreWhole whole.now }
    ensures { IsFirstStep (number_of_steps whole.now.bounds.now) (solves_repeated (Ok whole.now.scramble.now) whole.now.steps.now whole.now.bounds.now) result }
{
    let mut before = Around::begin(whole.corners);
    for step in 0..whole.bounds.len() - 1 {
        let around = before.longer(step);
        if solves_repeated(whole, step, &around) {
            return Some(step);
        }
        before = around.passed();
    }
    None
}
