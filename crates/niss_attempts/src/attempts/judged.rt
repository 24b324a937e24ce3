//! What is said of an attempt that was checked.
ghost use Rattle.std.specs.Prelude.{◌≡◌};
ghost use Rattle.niss_attempts.specs.Attempts.{in_doubt, is_open};

use crate::doubts::Doubt;
use niss_lines::CheckAnswer;

/// What is said of an attempt: whether its solution solves, and what makes one doubt how it is read. Places are in bytes
/// of the text; of what has none they are the highest number.
#[repr(C)]
#[derive(Clone, Copy, Debug, PartialEq, Eq)]
pub struct Judged {
    /// Where the fault stands that the check tells. One of a known scramble has no place.
    pub fault_at: usize,
    /// Where the doubt stands.
    pub doubt_at: usize,
    /// What makes one doubt it, by the number of a `Reason`, 0 for nothing. If it isn't solved: what its lines say; else
    /// `AnotherScramble` if its scramble by itself is, `Part` if a part of its steps solves, `Insertion`, `Comment` or `Signs`
    /// if they do with a turn that the text shows beside one, `Insertion` if they do once the cube is turned before one, or
    /// once one stands elsewhere, `AnotherAttempt` if a step of it is a scramble that those after it solve, or `WhichScramble`
    /// if its solution solves another known scramble. If it is solved: `StepOrScramble` if a line of it may be of a scramble;
    /// else `AnotherAttempt` if it is solved before its steps, or before another attempt may begin, or if two long steps
    /// beside the solution may be one; else `SeveralSolutions` if such a step is the solution but in one place; else what its
    /// lines say.
    pub doubt: u8,
    /// Whether the doubt counts: nothing is at fault, and no solution solves, or the doubt is more than what its lines say, or
    /// `StepOrScramble`.
    pub is_doubted: bool,
    /// Whether there is a solution of which the check says something.
    pub is_checked: bool,
    pub check: CheckAnswer,
}

impl Judged {
    /// Whether another scramble may be meant: there is a solution, which has no fault and doesn't solve, and nothing makes one
    /// doubt it.
    pub(crate) fn is_open(&self) -> bool
        ensures { result ≡ is_open self.now }
    {
        self.is_checked && self.doubt == 0 && (self.check.status == 0 && !self.check.solved)
    }

    /// The same, in doubt.
    pub(crate) fn in_doubt(self, doubt: Doubt) -> Judged
        ensures { result ≡ in_doubt doubt self }
    {
        Judged {
            doubt: doubt.reason.number(),
            doubt_at: doubt.at,
            is_doubted: true,
            ..self
        }
    }
}
