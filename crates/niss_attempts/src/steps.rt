//! All steps of an attempt, and whether they solve with bytes between two of them.
ghost use Rattle.std.specs.Prelude.{◌≡◌, ◌<◌, ◌≤◌, ◌+◌, ◌++◌, Ok, length, map};
ghost use Rattle.niss_moves.specs.Reader.{IsFed};
ghost use Rattle.niss_attempts.specs.Between.{AreWhole, solves_between};
ghost use Rattle.niss_attempts.specs.Corners.{IsAroundPart};
ghost use Rattle.niss_attempts.specs.Parts.{IsNew, read_byte};
ghost use Rattle.niss_attempts.specs.declared.steps.reading.Reading.TheVariants.{AsWritten};

pub(crate) mod bounds;
pub(crate) mod corners;
pub(crate) mod cube_corners;
mod dead;
pub(crate) mod parts;
pub(crate) mod read_attempt;
pub(crate) mod reading;
mod repeated;
mod sets;

use crate::steps::corners::{Around, AttemptCorners};
use crate::steps::reading::{Reading, feed, solves_so};
use crate::stretch::stretch;
use niss_moves::{LineReader, Niss};

/// All steps of an attempt, where they begin and end, and what they do to the corners, after its scramble.
#[derive(Clone, Copy)]
pub struct WholeSteps<'a> {
    pub scramble: &'a Niss,
    pub steps: &'a [u8],
    pub bounds: &'a [usize],
    pub corners: &'a AttemptCorners,
}

/// Has a reader read all steps, with bytes between those before them and those after them.
fn feed_between(reader: &mut LineReader, before: &[u8], bytes: &[u8], after: &[u8])
    requires new { IsNew reader.old }
    requires room { length before.now + length bytes.now + length after.now < 16777216 }
    ensures { IsFed reader.new (map (read_byte AsWritten) before.now ++ bytes.now ++ map (read_byte AsWritten) after.now) }
{
    feed(reader, before, Reading::AsWritten);
    reader.feed_all(bytes);
    feed(reader, after, Reading::AsWritten);
}

impl WholeSteps<'_> {
    /// Whether they solve the scramble with bytes before the step of a number, or after the last one.
    #[inline(never)]
    pub fn solve_with(&self, number: usize, bytes: &[u8]) -> bool
        requires whole { AreWhole self.now }
        requires number { number < length self.now.bounds.now }
        requires few { length bytes.now ≤ 16 }
        ensures { result ≡ solves_between (Ok self.now.scramble.now) self.now.steps.now self.now.bounds.now number bytes.now }
    {
        let bounds = self.bounds;
        let before = stretch(self.steps, bounds[0], bounds[number]);
        let after = stretch(self.steps, bounds[number], bounds[bounds.len() - 1]);
        let mut reader = LineReader::new();
        feed_between(&mut reader, before, bytes, after);
        solves_so(self.scramble, &mut reader)
    }

    /// What those before the step of a number do to the corners, and those from it on.
    pub fn around(&self, number: usize) -> Around
        requires whole { AreWhole self.now }
        requires number { number < length self.now.bounds.now }
        ensures { IsAroundPart self.now.scramble.now self.now.steps.now self.now.bounds.now number number result }
    {
        let mut around = Around::begin(self.corners);
        for step in 0..number {
            around = around.longer(step).passed();
        }
        around
    }
}
