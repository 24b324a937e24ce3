//! A turn that the text of an attempt shows beside one of its steps, though it isn't among their moves, or takes a letter back
//! that is none.
ghost use Rattle.std.specs.Prelude.{◌≡◌, ◌<◌, ◌≤◌, ◌+◌, ◌==◌, ◌&&◌, ◌||◌, ℕ, List, IfSome, None, false, drop, length};
ghost use Rattle.std.specs.Option.{option_map, option_to_list};
ghost use Rattle.niss_moves.specs.declared.turn.Face.{Face};
ghost use Rattle.niss_moves.specs.declared.turn.Turn.{Turn};
ghost use Rattle.niss_text.specs.declared.text_line.TextLine.{TextLine};
ghost use Rattle.niss_attempts.specs.Doubts.{doubt};
ghost use Rattle.niss_attempts.specs.Blanks.{is_blank, last_of_moves, last_place};
ghost use Rattle.niss_attempts.specs.ShownTurn.{said_in, is_stray, ends_bracket, sign_after, last_sign, is_empty_bracket, last_bracket, first_bracket, first_sign};
ghost use Rattle.niss_attempts.specs.ShownTurn.{IsBorder, steps_among, step_at, has_one_sign, signs_of, said_in_step, last_sign_of, first_sign_of, sign_between, shown_by, shown_between};
ghost use Rattle.niss_attempts.specs.Parts.{most_bounds};

mod bare_letter;

use crate::attempts::line_kinds::is_step;
use crate::doubts::shown_turn::bare_letter::{letter_between, may_stand};
use crate::doubts::turn_words::{byte_at, is_within, may_begin, stands_at};
use crate::doubts::{Doubt, Reason};
use crate::stretch::stretch;
use niss_moves::{Face, Turn};
use niss_text::TextLine;

/// Whether some face may stand in the comment of a line.
fn may_say(text: &[u8], line: &TextLine) -> bool
    ensures { result ≡ false → (face : Face) → said_in text.now line.now face ≡ None }
{
    let end = line.end.min(text.len());
    for at in line.comment..end {
        if may_begin(text, at) {
            return true;
        }
    }
    false
}

/// Where a face first stands in the comment of a line.
fn said_in(text: &[u8], line: &TextLine, face: Face) -> Option<usize>
    ensures { result ≡ said_in text.now line.now face }
{
    let end = line.end.min(text.len());
    for at in line.comment..end {
        if stands_at(text, face, at) {
            return Some(at);
        }
    }
    None
}

/// Whether a byte is a sign that looks like a letter, or stands for one.
fn is_stray(byte: u8) -> bool
    ensures { result ≡ is_stray byte }
{
    byte == b'!' || (byte == b'&' || (byte == b'?' || byte == b'|'))
}

/// Whether a byte is a blank.
pub(crate) fn is_blank(byte: u8) -> bool
    ensures { result ≡ is_blank byte }
{
    byte == b'\t' || byte == b' '
}

/// Where the last byte stands between two places of a text that isn't a blank.
fn last_place(text: &[u8], begin: usize, end: usize) -> Option<usize>
    ensures is { result ≡ last_place text.now begin end }
    ensures within { IfSome result (λ at. (begin ≤ at) × (at < end)) }
{
    for blanks in 0..end.saturating_sub(begin) {
        let at = end - 1 - blanks;
        if !is_blank(byte_at(text, at)) {
            return Some(at);
        }
    }
    None
}

/// Where the last byte of the moves of a line stands.
pub(crate) fn last_of_moves(text: &[u8], line: &TextLine) -> Option<usize>
    ensures is { result ≡ last_of_moves text.now line.now }
    ensures fits { IfSome result (λ at. at < usize.MAX) }
{
    last_place(text, line.moves, line.comment)
}

/// Whether bytes begin with brackets around nothing.
fn is_empty_bracket(bytes: &[u8]) -> bool
    ensures { result ≡ is_empty_bracket bytes.now }
{
    byte_at(bytes, 0) == b'(' && byte_at(bytes, 1) == b')'
}

/// Whether the moves of a line end in brackets around nothing, the second of which stands at a place, and begin before
/// these.
fn ends_bracket(text: &[u8], line: &TextLine, at: usize) -> bool
    requires { at < usize.MAX }
    ensures { result ≡ ends_bracket text.now line.now at }
{
    let first = at.saturating_sub(1);
    line.moves < first && is_empty_bracket(stretch(text, first, at + 1))
}

/// Where what follows the moves of a line begins, if it does so with a stray sign or a digit.
fn sign_after(text: &[u8], line: &TextLine) -> Option<usize>
    ensures { result ≡ sign_after text.now line.now }
{
    let byte = byte_at(text, line.comment);
    if line.comment < line.end && (is_stray(byte) || is_within(b'0', b'9', byte)) {
        Some(line.comment)
    } else {
        None
    }
}

/// Where brackets around nothing stand with which the moves of a line end, if they don't begin with them.
fn last_bracket(text: &[u8], line: &TextLine) -> Option<usize>
    ensures { result ≡ last_bracket text.now line.now }
{
    match last_of_moves(text, line) {
        Some(at) if ends_bracket(text, line, at) => Some(at.saturating_sub(1)),
        _ => None,
    }
}

/// Where a sign stands after the moves of a line: a stray one or a digit right after them, or brackets around nothing at
/// their end.
fn last_sign(text: &[u8], line: &TextLine) -> Option<usize>
    ensures { result ≡ last_sign text.now line.now }
{
    sign_after(text, line).or(last_bracket(text, line))
}

/// Where the moves of a line begin, if they do so with brackets around nothing.
fn first_bracket(text: &[u8], line: &TextLine) -> Option<usize>
    ensures { result ≡ first_bracket text.now line.now }
{
    if is_empty_bracket(stretch(text, line.moves, line.comment)) {
        Some(line.moves)
    } else {
        None
    }
}

/// Where a sign stands before the moves of a line: a stray one right before them, or brackets around nothing with which they
/// begin.
fn first_sign(text: &[u8], line: &TextLine) -> Option<usize>
    ensures { result ≡ first_sign text.now line.now }
{
    let stray = match last_place(text, line.label_begin, line.moves) {
        Some(at) if is_stray(byte_at(text, at)) => Some(at),
        _ => None,
    };
    stray.or(first_bracket(text, line))
}

/// One if there is something, and else 0.
fn one_if(place: Option<usize>) -> usize
    ensures is { result ≡ length (option_to_list place) }
    ensures few { result ≤ 1 }
{
    place.map_or(0, |_| 1)
}

/// How many signs stand beside the moves of a line.
fn number_of_signs(text: &[u8], line: &TextLine) -> usize
    ensures is { result ≡ length (signs_of text.now line.now) }
    ensures few { result ≤ 2 }
{
    one_if(first_sign(text, line)) + one_if(last_sign(text, line))
}

/// Whether a single sign stands beside the moves of steps.
fn has_one_sign(text: &[u8], lines: &[TextLine]) -> bool
    ensures { result ≡ has_one_sign text.now lines.now }
{
    let mut count = 0;
    let mut rest = lines;
    while let Some((line, after)) = rest.split_first() {
        rest = after;
        if !is_step(line) {
            continue;
        }
        count += number_of_signs(text, line);
        if count > 1 {
            return false;
        }
    }
    count == 1
}

/// How many steps are among lines.
pub fn count_steps(lines: &[TextLine]) -> usize
    ensures { result ≡ length (steps_among lines.now) }
{
    let mut count = 0;
    let mut rest = lines;
    while let Some((line, after)) = rest.split_first() {
        if is_step(line) {
            count += 1;
        }
        rest = after;
    }
    count
}

/// The step of a number among lines, if there are so many.
pub fn step_at(lines: &[TextLine], number: usize) -> Option<TextLine>
    ensures { result ≡ step_at lines.now number }
{
    let mut left = number;
    let mut rest = lines;
    while let Some((line, after)) = rest.split_first() {
        rest = after;
        if !is_step(line) {
            continue;
        }
        if left == 0 {
            return Some(*line);
        }
        left -= 1;
    }
    None
}

/// The first step among lines, if there is one, and what stands after it.
fn first_step(lines: &[TextLine]) -> (Option<TextLine>, &[TextLine])
    ensures first { result.0 ≡ step_at lines.now 0 }
    ensures after { steps_among result.1.now ≡ drop 1 (steps_among lines.now) }
{
    let mut rest = lines;
    while let Some((line, after)) = rest.split_first() {
        rest = after;
        if is_step(line) {
            return (Some(*line), rest);
        }
    }
    (None, rest)
}

/// The doubt of a place of a text, if there is one.
fn doubt_if(reason: Reason, place: Option<usize>) -> Option<Doubt>
    ensures { result ≡ option_map (doubt reason) place }
{
    place.map(|at| Doubt { reason, at })
}

/// The doubt of what a comment has, or of a letter that may be of words, or of what a sign stands for.
fn shown_by(said: Option<usize>, letter: Option<usize>, sign: Option<usize>) -> Option<Doubt>
    ensures { result ≡ shown_by said letter sign }
{
    doubt_if(Reason::Insertion, said)
        .or(doubt_if(Reason::Comment, letter))
        .or(doubt_if(Reason::Signs, sign))
}

/// What stands between two steps in a text.
#[derive(Clone, Copy)]
pub struct Border<'a> {
    pub text: &'a [u8],
    /// The number of the step after it.
    pub number: usize,
    /// The step above it, if there is one, and the one below.
    pub above: Option<TextLine>,
    pub below: Option<TextLine>,
    /// Whether the text has a single sign beside its steps.
    pub has_one_sign: bool,
    /// The lines after the step below.
    pub rest: &'a [TextLine],
}

impl<'a> Border<'a> {
    /// What stands before the first step.
    pub fn begin(text: &'a [u8], lines: &'a [TextLine]) -> Border<'a>
        ensures { IsBorder text.now lines.now 0 result }
    {
        let (below, rest) = first_step(lines);
        Border {
            text,
            number: 0,
            above: None,
            below,
            has_one_sign: has_one_sign(text, lines),
            rest,
        }
    }

    /// What stands after the next step.
    pub fn next(&self) -> Border<'a>
        requires { self.now.number < most_bounds }
        ensures { (text : List ℕ) (lines : List TextLine) (number : ℕ) → IsBorder text lines number self.now → IsBorder text lines (number + 1) result }
    {
        let (below, rest) = first_step(self.rest);
        Border {
            number: self.number + 1,
            above: self.below,
            below,
            rest,
            ..*self
        }
    }

    /// Where the comment of a step has a face.
    fn said_in(&self, step: &Option<TextLine>, face: Face) -> Option<usize>
        ensures { result ≡ said_in_step self.now.text.now step.now face }
    {
        step.as_ref()
            .and_then(|line| said_in(self.text, line, face))
    }

    /// Whether the comment of a step may have some face.
    fn may_say(&self, step: &Option<TextLine>) -> bool
        ensures { result ≡ false → (face : Face) → said_in_step self.now.text.now step.now face ≡ None }
    {
        step.as_ref().is_some_and(|line| may_say(self.text, line))
    }

    /// Where a sign stands after the step above.
    fn last_sign(&self) -> Option<usize>
        ensures { result ≡ last_sign_of self.now.text.now self.now.above }
    {
        self.above
            .as_ref()
            .and_then(|line| last_sign(self.text, line))
    }

    /// Where one stands before the one below.
    fn first_sign(&self) -> Option<usize>
        ensures { result ≡ first_sign_of self.now.text.now self.now.below }
    {
        self.below
            .as_ref()
            .and_then(|line| first_sign(self.text, line))
    }

    /// Where one stands between them, if it is the only one.
    pub fn sign(&self) -> Option<usize>
        ensures { result ≡ sign_between self.now.text.now self.now.above self.now.below self.now.has_one_sign }
    {
        if self.has_one_sign {
            self.last_sign().or(self.first_sign())
        } else {
            None
        }
    }

    /// Whether the text may show some turn there.
    pub fn may_show(&self) -> bool
        ensures { result ≡ false → (turn : Turn) →
            shown_between self.now.text.now self.now.above self.now.below self.now.has_one_sign turn ≡ None }
    {
        self.may_say(&self.above)
            || (self.may_say(&self.below)
                || (may_stand(self.text, &self.above, &self.below) || self.sign().is_some()))
    }

    /// The doubt that a turn belongs there, if the text shows it.
    pub fn shows(&self, turn: Turn) -> Option<Doubt>
        ensures { result ≡ shown_between self.now.text.now self.now.above self.now.below self.now.has_one_sign turn }
    {
        let said = self
            .said_in(&self.above, turn.face)
            .or(self.said_in(&self.below, turn.face));
        let letter = letter_between(self.text, &self.above, &self.below, turn);
        shown_by(said, letter, self.sign())
    }
}
