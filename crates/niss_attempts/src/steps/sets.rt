//! Steps of an attempt that, each put in brackets of its own, have it solve its scramble.
ghost use Rattle.std.specs.Prelude.{◌≡◌, ◌<◌, ◌≤◌, ◌+◌, ◌-◌, ◌^◌, ◌++◌, ℕ, List, Ok, length, map};
ghost use Rattle.niss_moves.specs.Reader.{IsFed};
ghost use Rattle.niss_attempts.specs.Between.{AreWhole};
ghost use Rattle.niss_attempts.specs.Parts.{IsLeast, IsNew, has, number_of_steps, first_in, last_in, in_brackets_if, line_with, solves_with, read_byte};
ghost use Rattle.niss_attempts.specs.declared.steps.reading.Reading.TheVariants.{AsWritten};

use crate::steps::WholeSteps;
use crate::steps::corners::renew;
use crate::steps::reading::{Reading, feed, solves_so};
use crate::stretch::stretch;
use niss_moves::LineReader;

/// Of how many steps sets are tried: each is in brackets or not.
const MOST_IN_SETS: usize = 8;

/// Some of these steps.
#[derive(Clone, Copy)]
pub struct StepSet {
    /// A bit for each: the lowest is that of the first step.
    pub number: usize,
}

impl StepSet {
    /// No step.
    pub const EMPTY: StepSet = StepSet { number: 0 };

    /// Whether a step is one of them.
    pub fn has(self, step: usize) -> bool
        requires { step < 64 }
        ensures { result ≡ has self step }
    {
        self.number >> step & 1 == 1
    }

    /// The first of them.
    pub fn first(self) -> usize
        requires { (0 < self.number) × (self.number < 256) }
        ensures is { result ≡ first_in self }
        ensures among { (steps : ℕ) → self.number < 2 ^ steps → result < steps }
    {
        self.number.trailing_zeros() as usize
    }

    /// The last of them.
    pub fn last(self) -> usize
        requires { (0 < self.number) × (self.number < 256) }
        ensures is { result ≡ last_in self }
        ensures few { result < 8 }
    {
        self.number.ilog2() as usize
    }
}

/// Has a reader read a step, in brackets or not.
#[inline(never)]
pub fn feed_step(reader: &mut LineReader, step: &[u8], in_brackets: bool)
    requires { reader.old.fed + length step.now ≤ 16777214 }
    ensures fed { reader.new.fed ≤ reader.old.fed + length step.now + 2 }
    ensures bytes { (front : List ℕ) → IsFed reader.old front →
        IsFed reader.new (front ++ in_brackets_if in_brackets (map (read_byte AsWritten) step.now)) }
{
    if !in_brackets {
        return feed(reader, step, Reading::AsWritten);
    }
    feed(reader, b"(", Reading::AsWritten);
    feed(reader, step, Reading::AsWritten);
    feed(reader, b")", Reading::AsWritten);
}

/// Has a reader read all steps, of which some stand in brackets.
fn feed_steps(reader: &mut LineReader, whole: &WholeSteps, set: StepSet)
    requires new { IsNew reader.old }
    requires whole { AreWhole whole.now }
    ensures { IsFed reader.new (line_with whole.now.steps.now whole.now.bounds.now set) }
{
    let bounds = whole.bounds;
    for step in 0..bounds.len() - 1 {
        let own = stretch(whole.steps, bounds[step], bounds[step + 1]);
        feed_step(reader, own, set.has(step));
    }
}

/// Whether all steps solve the scramble if some of them stand in brackets.
fn solves_with(whole: &WholeSteps, set: StepSet) -> bool
    requires whole { AreWhole whole.now }
    ensures { result ≡ solves_with (Ok whole.now.scramble.now) whole.now.steps.now whole.now.bounds.now set }
{
    let mut reader = LineReader::new();
    feed_steps(&mut reader, whole, set);
    solves_so(whole.scramble, &mut reader)
}

/// How many sets of so many steps there are.
fn count_of_sets(steps: usize) -> usize
    requires { steps ≤ 8 }
    ensures is { result ≡ 2 ^ steps }
    ensures few { result ≤ 256 }
{
    1 << steps
}

/// The set of steps with the lowest number that, each in brackets, solve the scramble. Most sets are seen not to by what they
/// do to the corners: the steps after the first one of a set stand as in the set before it.
pub fn least_set(whole: &WholeSteps) -> Option<StepSet>
    requires whole { AreWhole whole.now }
    ensures { IsLeast (number_of_steps whole.now.bounds.now) (solves_with (Ok whole.now.scramble.now) whole.now.steps.now whole.now.bounds.now) result }
{
    let corners = whole.corners;
    let steps = corners.steps.as_slice();
    let mut tails = corners.tails;
    for number in 1..count_of_sets(steps.len().min(MOST_IN_SETS)) {
        let set = StepSet { number };
        renew(steps, &mut tails, set, set.first() + 1);
        if corners.may_solve(&tails[0]) && solves_with(whole, set) {
            return Some(set);
        }
    }
    None
}
