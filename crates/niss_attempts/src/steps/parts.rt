//! Whether a part of the steps of an attempt solves its scramble.
ghost use Rattle.std.specs.Prelude.{◌≡◌, ◌<◌, ◌≤◌, ◌+◌, Ok, length, map};
ghost use Rattle.niss_moves.specs.Reader.{IsFed};
ghost use Rattle.niss_attempts.specs.Parts.{read_byte, how_number, number_of_steps, arranged, solves_all, solves_part, solves_repeated, solves_with, part, most_bounds};
ghost use Rattle.niss_attempts.specs.Corners.{IsAroundPart};
ghost use Rattle.niss_attempts.specs.Between.{AreWhole};
ghost use Rattle.niss_attempts.specs.Parts.{IsAnswerTo, IsNew, IsHow, IsFirst, IsFirstFrom, IsFirstSolving, IsAmongSteps, TellsPart, answer_of, no_part};
ghost use Rattle.niss_attempts.specs.declared.steps.reading.Reading.TheVariants.{AsWritten};

use crate::steps::WholeSteps;
use crate::steps::corners::Around;
use crate::steps::read_attempt::{ReadAttempt, Unread};
use crate::steps::reading::{Reading, feed, solves_otherwise, solves_so};
use crate::steps::repeated::repeated_step;
use crate::steps::sets::{StepSet, feed_step, least_set};
use crate::stretch::stretch;
use niss_lines::Status;
use niss_moves::LineReader;

/// What `solving_part` returns.
#[repr(C)]
#[derive(Clone, Copy, Debug, PartialEq, Eq)]
pub struct PartAnswer {
    /// The number of a `Status`.
    pub status: u8,
    /// 0 if nothing solves, 1 to 3 in the order of `How`, 4 if all steps solve without their brackets, 5 if some in brackets,
    /// 6 if one is made several times, 7 if their small letters are capitals.
    pub how: u8,
    /// The first step of the part, or of those in brackets, from 0 to 11.
    pub first: u8,
    /// The last of them.
    pub last: u8,
    /// Where the first one begins, in bytes of the steps.
    pub begin: usize,
}

/// What is done with some steps, one after another, so that a line solves.
#[derive(Clone, Copy, PartialEq, Eq)]
pub enum How {
    /// They stand alone.
    Alone,
    /// The others do.
    LeftOut,
    /// All do, and these are in brackets.
    InBrackets,
}

impl How {
    /// Its number in an answer.
    fn number(self) -> u8
        ensures { result ≡ how_number self }
    {
        match self {
            How::Alone => 1,
            How::LeftOut => 2,
            How::InBrackets => 3,
        }
    }
}

/// Some steps, one after another, and what is done with them.
#[derive(Clone, Copy)]
pub struct Part {
    pub how: How,
    /// The first step of them, from 0.
    pub first: usize,
    /// The first step after them.
    pub end: usize,
}

/// What has steps solve a scramble.
#[derive(Clone, Copy)]
pub enum Solving {
    Part(Part),
    /// All steps solve without their brackets.
    WithoutBrackets,
    /// All do, and each of these is in brackets of its own.
    EachInBrackets(StepSet),
    /// All do, and this one is made twice or three times, without its brackets.
    Repeated(usize),
    /// All do if the small letters of their turns are capitals.
    InCapitals,
    Nothing,
}

/// Has a reader read all steps, in three parts, and does with the second one what is to be done.
fn feed_part(reader: &mut LineReader, how: How, before: &[u8], own: &[u8], after: &[u8])
    requires new { IsNew reader.old }
    requires room { length before.now + length own.now + length after.now < 16777214 }
    ensures { IsFed reader.new (arranged how (map (read_byte AsWritten) before.now) (map (read_byte AsWritten) own.now) (map (read_byte AsWritten) after.now)) }
{
    match how {
        How::Alone => feed(reader, own, Reading::AsWritten),
        How::LeftOut => {
            feed(reader, before, Reading::AsWritten);
            feed(reader, after, Reading::AsWritten);
        }
        How::InBrackets => {
            feed(reader, before, Reading::AsWritten);
            feed_step(reader, own, true);
            feed(reader, after, Reading::AsWritten);
        }
    }
}

/// Whether a part of all steps solves the scramble.
fn solves_part(whole: &WholeSteps, part: Part) -> bool
    requires whole { AreWhole whole.now }
    requires steps { (part.first < length whole.now.bounds.now) × (part.end < length whole.now.bounds.now) }
    ensures { result ≡ solves_part (Ok whole.now.scramble.now) whole.now.steps.now whole.now.bounds.now part }
{
    let bounds = whole.bounds;
    let before = stretch(whole.steps, bounds[0], bounds[part.first]);
    let own = stretch(whole.steps, bounds[part.first], bounds[part.end]);
    let after = stretch(whole.steps, bounds[part.end], bounds[bounds.len() - 1]);
    let mut reader = LineReader::new();
    feed_part(&mut reader, part.how, before, own, after);
    solves_so(whole.scramble, &mut reader)
}

/// The same. Most parts are seen not to by what they do to the corners.
fn part_solves(whole: &WholeSteps, part: Part, around: &Around) -> bool
    requires whole { AreWhole whole.now }
    requires around { IsAroundPart whole.now.scramble.now whole.now.steps.now whole.now.bounds.now part.first part.end around.now }
    ensures { result ≡ solves_part (Ok whole.now.scramble.now) whole.now.steps.now whole.now.bounds.now part }
{
    around.may_arrange(part.how) && solves_part(whole, part)
}

/// What is done with steps so that the scramble is solved, if anything does. The part names the steps.
fn solving_how(whole: &WholeSteps, alone: Part, around: &Around) -> Option<How>
    requires whole { AreWhole whole.now }
    requires around { IsAroundPart whole.now.scramble.now whole.now.steps.now whole.now.bounds.now alone.first alone.end around.now }
    ensures { IsHow (λ how. solves_part (Ok whole.now.scramble.now) whole.now.steps.now whole.now.bounds.now (part how alone.first alone.end)) result }
{
    let alone = Part {
        how: How::Alone,
        ..alone
    };
    if part_solves(whole, alone, around) {
        return Some(How::Alone);
    }
    let left_out = Part {
        how: How::LeftOut,
        ..alone
    };
    if part_solves(whole, left_out, around) {
        return Some(How::LeftOut);
    }
    let in_brackets = Part {
        how: How::InBrackets,
        ..alone
    };
    if part_solves(whole, in_brackets, around) {
        return Some(How::InBrackets);
    }
    None
}

/// The first part that solves the scramble among those that begin with a step.
fn part_from(whole: &WholeSteps, first: usize, before: &Around) -> Option<Part>
    requires whole { AreWhole whole.now }
    requires around { IsAroundPart whole.now.scramble.now whole.now.steps.now whole.now.bounds.now first first before.now }
    ensures { IsFirstFrom (number_of_steps whole.now.bounds.now) (solves_part (Ok whole.now.scramble.now) whole.now.steps.now whole.now.bounds.now) first result }
{
    let mut around = *before;
    for step in first..whole.bounds.len() - 1 {
        around = around.longer(step);
        let alone = Part {
            how: How::Alone,
            first,
            end: step + 1,
        };
        if let Some(how) = solving_how(whole, alone, &around) {
            return Some(Part { how, ..alone });
        }
    }
    None
}

/// The first part of all steps that solves the scramble.
fn first_part(whole: &WholeSteps) -> Option<Part>
    requires whole { AreWhole whole.now }
    ensures { IsFirst (number_of_steps whole.now.bounds.now) (solves_part (Ok whole.now.scramble.now) whole.now.steps.now whole.now.bounds.now) result }
{
    let mut before = Around::begin(whole.corners);
    for first in 0..whole.bounds.len() - 1 {
        if let Some(part) = part_from(whole, first, &before) {
            return Some(part);
        }
        before = before.longer(first).passed();
    }
    None
}

/// What first has all steps solve the scramble: a part of them, or else all in another form.
fn first_solving(whole: &WholeSteps) -> Solving
    requires whole { AreWhole whole.now }
    ensures { IsFirstSolving (number_of_steps whole.now.bounds.now) (solves_part (Ok whole.now.scramble.now) whole.now.steps.now whole.now.bounds.now)
        (λ reading. solves_all reading (Ok whole.now.scramble.now) whole.now.steps.now whole.now.bounds.now) (solves_with (Ok whole.now.scramble.now) whole.now.steps.now whole.now.bounds.now)
        (solves_repeated (Ok whole.now.scramble.now) whole.now.steps.now whole.now.bounds.now) result }
{
    if let Some(part) = first_part(whole) {
        return Solving::Part(part);
    }
    if solves_otherwise(whole, Reading::WithoutBrackets) {
        return Solving::WithoutBrackets;
    }
    if let Some(set) = least_set(whole) {
        return Solving::EachInBrackets(set);
    }
    if let Some(step) = repeated_step(whole) {
        return Solving::Repeated(step);
    }
    if solves_otherwise(whole, Reading::InCapitals) {
        Solving::InCapitals
    } else {
        Solving::Nothing
    }
}

/// The answer to all steps.
pub(crate) fn answer_to(whole: &WholeSteps) -> PartAnswer
    requires whole { AreWhole whole.now }
    ensures { IsAnswerTo (Ok whole.now.scramble.now) whole.now.steps.now whole.now.bounds.now result }
{
    PartAnswer::of(first_solving(whole), whole.bounds)
}

impl PartAnswer {
    /// The answer if nothing solves.
    fn nothing(status: Status) -> PartAnswer
        ensures { result ≡ no_part status }
    {
        PartAnswer {
            status: status.number(),
            how: 0,
            first: 0,
            last: 0,
            begin: 0,
        }
    }

    /// The answer to steps that begin and end at these places.
    fn of(solving: Solving, bounds: &[usize]) -> PartAnswer
        requires few { (0 < length bounds.now) × (length bounds.now ≤ most_bounds) }
        requires part { IsAmongSteps (number_of_steps bounds.now) solving }
        ensures { result ≡ answer_of bounds.now solving }
    {
        let done = PartAnswer::nothing(Status::Done);
        match solving {
            Solving::Part(part) => PartAnswer {
                how: part.how.number(),
                first: part.first as u8,
                last: (part.end - 1) as u8,
                begin: bounds[part.first],
                ..done
            },
            Solving::WithoutBrackets => PartAnswer {
                how: 4,
                last: (bounds.len() - 1).saturating_sub(1) as u8,
                ..done
            },
            Solving::EachInBrackets(set) => PartAnswer {
                how: 5,
                first: set.first() as u8,
                last: set.last() as u8,
                begin: bounds[set.first()],
                ..done
            },
            Solving::Repeated(step) => PartAnswer {
                how: 6,
                first: step as u8,
                last: step as u8,
                begin: bounds[step],
                ..done
            },
            Solving::InCapitals => PartAnswer {
                how: 7,
                last: (bounds.len() - 1).saturating_sub(1) as u8,
                ..done
            },
            Solving::Nothing => done,
        }
    }
}

/// Whether a part of the first steps of an attempt solves its scramble, and which: the first in order of `IsBefore`. Else
/// whether all do without their brackets; with some in brackets of their own, those with the lowest number; or with one
/// made twice or three times, the first; or with capitals for the small letters of turns. Steps stand a line each: the first
/// twelve are looked at, and sets of the first eight. What has a fault doesn't solve, and nothing does if the scramble has
/// one. The answer says `Stopped` if the scramble or these steps have too many bytes.
pub fn solving_part(scramble: &[u8], steps: &[u8]) -> PartAnswer
    ensures { TellsPart scramble.now steps.now result }
{
    let mut reader = LineReader::new();
    match ReadAttempt::read(&mut reader, scramble, steps) {
        Ok(attempt) => answer_to(&attempt.whole()),
        Err(Unread::TooLong) => PartAnswer::nothing(Status::Stopped),
        Err(Unread::Faulty) => PartAnswer::nothing(Status::Done),
    }
}
