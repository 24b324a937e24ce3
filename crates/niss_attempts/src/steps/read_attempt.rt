//! A scramble and the steps of an attempt at it, as they are read once for all that is asked of them.
ghost use Rattle.std.specs.Prelude.{◌≡◌, ◌≤◌, ℕ, List, [], IfErr, IfOk, false, length, take};
ghost use Rattle.niss_moves.specs.Reader.{IsFed};
ghost use Rattle.niss_shell.specs.Words.{most_bytes};
ghost use Rattle.niss_attempts.specs.Parts.{are_too_long, most_step_bytes};
ghost use Rattle.niss_attempts.specs.ReadAttempt.{AreReadWhole, IsReadAttempt, IsUnread};

use crate::steps::WholeSteps;
use crate::steps::bounds::{MOST_BOUNDS, bounds_of};
use crate::steps::corners::AttemptCorners;
use arrayvec::ArrayVec;
use niss_lines::read_by;
use niss_moves::{LineReader, Niss};
use niss_shell::MOST_BYTES;

/// The most bytes that steps have of which something is asked.
pub const MOST_STEP_BYTES: usize = 65_536;

/// Why nothing is asked of some steps.
#[derive(Clone, Copy)]
pub enum Unread {
    /// They, or the scramble, have too many bytes.
    TooLong,
    /// The scramble has a fault.
    Faulty,
}

/// A scramble that was read, the steps after it that are looked at, and what was worked out of them once.
#[derive(Drop)]
pub struct ReadAttempt<'a> {
    pub scramble: &'a Niss,
    pub steps: &'a [u8],
    pub bounds: ArrayVec<usize, MOST_BOUNDS>,
    pub corners: AttemptCorners,
}

/// The first bytes of a text, so many at most.
fn first_bytes(text: &[u8], count: usize) -> &[u8]
    ensures is { result.now ≡ take count text.now }
    ensures few { length result.now ≤ count }
{
    &text[..count.min(text.len())]
}

/// Whether a scramble or steps up to their last end have too many bytes.
fn are_too_long(scramble: &[u8], end: usize) -> bool
    ensures are { result ≡ are_too_long scramble.now end }
    ensures else_fit { result ≡ false → (length scramble.now ≤ most_bytes) × (end ≤ most_step_bytes) }
{
    scramble.len() > MOST_BYTES || end > MOST_STEP_BYTES
}

impl<'a> ReadAttempt<'a> {
    /// Has a new reader read a scramble, and works out where the first steps after it begin and end, and what they do to the
    /// corners.
    pub fn read(
        reader: &'a mut LineReader,
        scramble: &[u8],
        steps: &'a [u8],
    ) -> Result<ReadAttempt<'a>, Unread>
        requires new { IsFed reader.old [] }
        ensures read { IfOk result (λ it. IsReadAttempt scramble.now steps.now it) }
        ensures unread { IfErr result (λ why. IsUnread scramble.now steps.now why) }
    {
        let bounds = bounds_of(steps);
        let end = bounds[bounds.len() - 1];
        if are_too_long(scramble, end) {
            return Err(Unread::TooLong);
        }
        let Ok(scramble) = read_by(reader, scramble) else {
            return Err(Unread::Faulty);
        };
        let steps = first_bytes(steps, end);
        let corners = AttemptCorners::of(scramble, steps, &bounds);
        Ok(ReadAttempt {
            scramble,
            steps,
            bounds,
            corners,
        })
    }

    /// All its steps, as they are asked of.
    pub fn whole(&self) -> WholeSteps<'_>
        ensures { (scramble steps : List ℕ) → IsReadAttempt scramble steps self.now → AreReadWhole scramble steps result }
    {
        WholeSteps {
            scramble: self.scramble,
            steps: self.steps,
            bounds: &self.bounds,
            corners: &self.corners,
        }
    }
}
