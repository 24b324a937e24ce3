//! Steps of an attempt that solve once one of them stands elsewhere.
ghost use Rattle.std.specs.Prelude.{◌≡◌, ◌<◌, ◌+◌, ◌++◌, ℕ, List, Ok, false, true, length, map};
ghost use Rattle.niss_moves.specs.Reader.{IsFed};
ghost use Rattle.niss_attempts.specs.Between.{AreWhole};
ghost use Rattle.niss_attempts.specs.MovedStep.{AreFronts, AreStretches, IsMovedAmong, IsMovedAt, IsMovedIn, IsExchange, solves_exchanged, solves_moved, with_blank};
ghost use Rattle.niss_attempts.specs.Parts.{read_byte};
ghost use Rattle.niss_attempts.specs.declared.steps.reading.Reading.TheVariants.{AsWritten};

use crate::doubts::Doubt;
use crate::doubts::turned_cube::doubt_at;
use crate::steps::WholeSteps;
use crate::steps::bounds::MOST_BOUNDS;
use crate::steps::corners::StepCorners;
use crate::steps::reading::{Reading, feed, solves_so};
use crate::stretch::stretch;
use arrayvec::ArrayVec;
use niss_moves::LineReader;
use niss_text::TextLine;

/// Steps that change places: those from a first place to a middle one stand after those from there to a last place. A place is
/// before the step of its number, from 0, or after the last step.
#[derive(Clone, Copy)]
pub struct Exchange {
    pub first: usize,
    pub middle: usize,
    pub last: usize,
}

/// What the stretches of an exchange do to the corners: the steps before it, those that come to stand first, and those that
/// come to stand after these.
#[derive(Clone, Copy)]
pub struct Stretches {
    pub front: StepCorners,
    pub early: StepCorners,
    pub late: StepCorners,
}

/// Has a reader read steps, and a blank.
fn feed_with_blank(reader: &mut LineReader, steps: &[u8])
    requires { reader.old.fed + length steps.now < 16777216 }
    ensures fed { reader.new.fed ≡ reader.old.fed + length steps.now + 1 }
    ensures bytes { (front : List ℕ) → IsFed reader.old front → IsFed reader.new (front ++ with_blank (map (read_byte AsWritten) steps.now)) }
{
    feed(reader, steps, Reading::AsWritten);
    reader.feed_all(b" ");
}

/// What the steps before each place do to the corners.
fn fronts_of(whole: &WholeSteps) -> ArrayVec<StepCorners, MOST_BOUNDS>
    requires whole { AreWhole whole.now }
    ensures { AreFronts whole.now result.items }
{
    let mut front = StepCorners::nothing();
    let mut fronts = ArrayVec::new();
    fronts.push(front);
    for step in 0..whole.bounds.len() - 1 {
        front = front.then(&whole.corners.steps[step]);
        fronts.push(front);
    }
    fronts
}

/// Whether all steps may solve if some change places, by what they do to the corners.
fn may_exchange(whole: &WholeSteps, exchange: &Exchange, stretches: &Stretches) -> bool
    requires whole { AreWhole whole.now }
    requires within { IsExchange whole.now.bounds.now exchange.now }
    requires stretches { whole.now.corners.now.are_lines ≡ true → AreStretches whole.now.steps.now whole.now.bounds.now exchange.now stretches.now }
    ensures { result ≡ false → solves_exchanged (Ok whole.now.scramble.now) whole.now.steps.now whole.now.bounds.now exchange.now ≡ false }
{
    let rest = whole.corners.tails[exchange.last];
    let last = stretches.late.with_later(&rest, false);
    let later = stretches.early.with_later(&last, false);
    let all = stretches.front.with_later(&later, false);
    whole.corners.may_solve(&all)
}

/// Whether they solve so.
fn solves_exchanged(whole: &WholeSteps, exchange: &Exchange) -> bool
    requires whole { AreWhole whole.now }
    requires within { IsExchange whole.now.bounds.now exchange.now }
    ensures { result ≡ solves_exchanged (Ok whole.now.scramble.now) whole.now.steps.now whole.now.bounds.now exchange.now }
{
    let bounds = whole.bounds;
    let first = bounds[exchange.first];
    let middle = bounds[exchange.middle];
    let last = bounds[exchange.last];
    let mut reader = LineReader::new();
    feed_with_blank(&mut reader, stretch(whole.steps, bounds[0], first));
    feed_with_blank(&mut reader, stretch(whole.steps, middle, last));
    feed_with_blank(&mut reader, stretch(whole.steps, first, middle));
    let rest = stretch(whole.steps, last, bounds[bounds.len() - 1]);
    feed(&mut reader, rest, Reading::AsWritten);
    solves_so(whole.scramble, &mut reader)
}

/// The same. Most exchanges are seen not to solve by what they do to the corners.
fn exchange_solves(whole: &WholeSteps, exchange: &Exchange, stretches: &Stretches) -> bool
    requires whole { AreWhole whole.now }
    requires within { IsExchange whole.now.bounds.now exchange.now }
    requires stretches { whole.now.corners.now.are_lines ≡ true → AreStretches whole.now.steps.now whole.now.bounds.now exchange.now stretches.now }
    ensures { result ≡ solves_exchanged (Ok whole.now.scramble.now) whole.now.steps.now whole.now.bounds.now exchange.now }
{
    may_exchange(whole, exchange, stretches) && solves_exchanged(whole, exchange)
}

/// Whether all steps solve with one further up, but not right before the one above it.
fn is_moved_up(whole: &WholeSteps, fronts: &[StepCorners], step: usize) -> bool
    requires whole { AreWhole whole.now }
    requires fronts { AreFronts whole.now fronts.now }
    requires step { step + 1 < length whole.now.bounds.now }
    ensures { IsMovedAmong (λ place. place + 1 < step) (Ok whole.now.scramble.now) whole.now.steps.now whole.now.bounds.now step result }
{
    if step == 0 {
        return false;
    }
    let steps = &whole.corners.steps;
    let mut late = steps[step - 1];
    for place in (0..step - 1).rev() {
        late = steps[place].then(&late);
        let exchange = Exchange {
            first: place,
            middle: step,
            last: step + 1,
        };
        let stretches = Stretches {
            front: fronts[place],
            early: steps[step],
            late,
        };
        if exchange_solves(whole, &exchange, &stretches) {
            return true;
        }
    }
    false
}

/// Whether they solve with it further down.
fn is_moved_down(whole: &WholeSteps, fronts: &[StepCorners], step: usize) -> bool
    requires whole { AreWhole whole.now }
    requires fronts { AreFronts whole.now fronts.now }
    requires step { step + 1 < length whole.now.bounds.now }
    ensures { IsMovedAmong (λ place. (step + 1 < place) × (place < length whole.now.bounds.now)) (Ok whole.now.scramble.now) whole.now.steps.now whole.now.bounds.now step result }
{
    let steps = &whole.corners.steps;
    let mut early = StepCorners::nothing();
    for above in step + 1..whole.bounds.len() - 1 {
        early = early.then(&steps[above]);
        let exchange = Exchange {
            first: step,
            middle: step + 1,
            last: above + 1,
        };
        let stretches = Stretches {
            front: fronts[step],
            early,
            late: steps[step],
        };
        if exchange_solves(whole, &exchange, &stretches) {
            return true;
        }
    }
    false
}

/// Whether they solve with it elsewhere. With it before the one right above it they don't, since with that one after it they
/// don't, which is the same.
fn is_moved_at(whole: &WholeSteps, fronts: &[StepCorners], step: usize) -> bool
    requires whole { AreWhole whole.now }
    requires fronts { AreFronts whole.now fronts.now }
    requires step { step + 1 < length whole.now.bounds.now }
    requires asked { (above : ℕ) → above + 1 ≡ step → solves_moved (Ok whole.now.scramble.now) whole.now.steps.now whole.now.bounds.now above (step + 1) ≡ false }
    ensures { IsMovedAt (Ok whole.now.scramble.now) whole.now.steps.now whole.now.bounds.now step result }
{
    is_moved_up(whole, fronts, step) || is_moved_down(whole, fronts, step)
}

/// The doubt that the moves of a step belong elsewhere: that all steps solve once it stands before another one, or after the
/// last one. The first such step counts.
pub fn moved_step(whole: &WholeSteps, lines: &[TextLine]) -> Option<Doubt>
    requires whole { AreWhole whole.now }
    ensures { IsMovedIn (Ok whole.now.scramble.now) whole.now.steps.now whole.now.bounds.now lines.now result }
{
    let fronts = fronts_of(whole);
    for step in 0..whole.bounds.len() - 1 {
        if is_moved_at(whole, &fronts, step) {
            return doubt_at(lines, step);
        }
    }
    None
}
