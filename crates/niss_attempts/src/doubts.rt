//! What makes one doubt that an attempt is read as it was meant.
ghost use Rattle.std.specs.Prelude.{◌≡◌};
ghost use Rattle.niss_attempts.specs.Another.{begun_in};
ghost use Rattle.niss_attempts.specs.Attempts.{doubt_of_part, first_doubt, first_stray};
ghost use Rattle.niss_attempts.specs.Doubts.{number_of};

pub(crate) mod another;
pub(crate) mod beside;
pub(crate) mod inner_attempt;
mod lost_turn;
mod moved_step;
mod shown_turn;
mod turn_words;
mod turned_cube;
pub(crate) mod whole_doubt;

use crate::attempts::written::place_at;
use crate::steps::parts::PartAnswer;
use niss_text::TextLine;

/// Why one doubts it.
#[derive(Clone, Copy)]
pub enum Reason {
    /// The number that a line has, whatever that is: callers make the lines, so it needn't be that of a doubt of `niss_text`.
    OfLine(u8),
    /// The scramble is solved by itself, or another one stands beside a known one.
    AnotherScramble,
    /// A step is the solution but in one place.
    SeveralSolutions,
    /// A letter may be of words.
    Comment,
    /// Moves belong there, or the cube is turned there, or a step stands elsewhere.
    Insertion,
    /// A part of the steps solves.
    Part,
    /// Which known scramble it is a solution of can't be told, or it solves another one.
    WhichScramble,
    /// A line after the scramble may be of it.
    StepOrScramble,
    /// A sign stands for a move.
    Signs,
    /// Another attempt may begin there.
    AnotherAttempt,
}

impl Reason {
    /// Its number in an answer. Such a number of a line means the same; `niss_text` gives no line 9, 10 or 13.
    pub(crate) fn number(self) -> u8
        ensures { result ≡ number_of self }
    {
        match self {
            Reason::OfLine(number) => number,
            Reason::AnotherScramble => 1,
            Reason::SeveralSolutions => 2,
            Reason::Comment => 6,
            Reason::Insertion => 8,
            Reason::Part => 9,
            Reason::WhichScramble => 10,
            Reason::StepOrScramble => 11,
            Reason::Signs => 12,
            Reason::AnotherAttempt => 13,
        }
    }
}

/// What makes one doubt that an attempt is read as it was meant.
#[derive(Clone, Copy)]
pub struct Doubt {
    pub reason: Reason,
    /// Where it stands, in bytes of the text, or `NONE` if it has no place there.
    pub at: usize,
}

impl Doubt {
    /// That another attempt begins in the first of some lines.
    pub(crate) fn begun_in(lines: &[TextLine]) -> Option<Doubt>
        ensures { result ≡ begun_in lines.now }
    {
        lines.first().map(|line| Doubt {
            reason: Reason::AnotherAttempt,
            at: line.moves,
        })
    }

    /// That a part solves which begins at a byte of the steps, by the place of each of these.
    pub(crate) fn of_part(part: &PartAnswer, places: &[u64]) -> Option<Doubt>
        ensures { result ≡ doubt_of_part part.now places.now }
    {
        if part.how == 0 {
            return None;
        }
        Some(Doubt {
            reason: Reason::Part,
            at: place_at(places, part.begin),
        })
    }
}

/// What makes one doubt the first of some lines that is in doubt.
pub(crate) fn first_doubt(lines: &[TextLine]) -> Option<Doubt>
    ensures { result ≡ first_doubt lines.now }
{
    let mut rest = lines;
    while let Some((line, after)) = rest.split_first() {
        if line.doubt != 0 {
            return Some(Doubt {
                reason: Reason::OfLine(line.doubt),
                at: line.doubt_at,
            });
        }
        rest = after;
    }
    None
}

/// The doubt of the first of some lines that may be of a scramble.
pub(crate) fn first_stray(lines: &[TextLine]) -> Option<Doubt>
    ensures { result ≡ first_stray lines.now }
{
    let mut rest = lines;
    while let Some((line, after)) = rest.split_first() {
        if line.doubt == Reason::StepOrScramble.number() {
            return Some(Doubt {
                reason: Reason::StepOrScramble,
                at: line.doubt_at,
            });
        }
        rest = after;
    }
    None
}
