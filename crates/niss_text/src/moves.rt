//! The moves of some lines of a text as one line.
ghost use Rattle.std.specs.Prelude.{◌≡◌, ◌<◌, ◌≤◌, ◌+◌, ◌*◌, ◌-◌, ◌++◌, true, Some, length, take, drop, set, slice_range};
ghost use Rattle.std.specs.List.{list_any};
ghost use Rattle.niss_text.specs.Signs.{is_digit};
ghost use Rattle.niss_text.specs.Moves.{is_wanted, is_inverse, left_around, moves_of_number, gap_of, gap_after, place_after, opening, opening_place, closing, closing_place, WritesMoves};
ghost use Rattle.niss_text.specs.Written.{AddsLine};

use crate::left_out::LeftOut;
use crate::pen::{Beginning, Pen};
use crate::piece::Place;
use crate::plain::PlainAnswer;
use crate::sign::is_digit_byte;
use crate::text_line::{LineKind, TextLine};

/// Which lines' moves are wanted.
#[derive(Clone, Copy, PartialEq, Eq)]
pub enum MovesOf {
    Scramble,
    /// All steps.
    Steps,
    Solution,
    /// All steps, each on a line of its own.
    EachStep,
}

impl MovesOf {
    /// Those of a number: 0 for those of a scramble, 1 for all steps, 2 for those of a solution, 3 for each step on a line of
    /// its own.
    #[tactic(auto, using(crate::proofs::MovesLemmas::no_moves))]
    pub fn of_number(number: u8) -> Option<MovesOf>
        ensures { result ≡ moves_of_number number }
    {
        match number {
            0 => Some(MovesOf::Scramble),
            1 => Some(MovesOf::Steps),
            2 => Some(MovesOf::Solution),
            3 => Some(MovesOf::EachStep),
            _ => None,
        }
    }

    /// Whether those of a line are.
    fn has(self, line: &TextLine) -> bool
        ensures { result ≡ is_wanted self line.now }
    {
        match self {
            MovesOf::Scramble => line.is_a(LineKind::Scramble),
            MovesOf::Steps | MovesOf::EachStep => line.is_a(LineKind::Step),
            MovesOf::Solution => line.is_a(LineKind::Step) && line.is_solution != 0,
        }
    }

    /// What parts the moves of two lines.
    fn gap(self) -> u8
        ensures { result ≡ gap_of self }
    {
        match self {
            MovesOf::EachStep => b'\n',
            _ => b' ',
        }
    }
}

/// Where the moves of a line stand in what is written.
#[repr(C)]
#[derive(Clone, Copy, Debug, PartialEq, Eq)]
pub struct MovesPart {
    /// Where they begin and end, with their brackets.
    pub begin: usize,
    pub end: usize,
    /// What this line has left out, as the bits of `PlainAnswer`.
    pub left_out: u8,
}

impl MovesPart {
    /// Where nothing is written.
    fn nothing() -> MovesPart {
        MovesPart {
            begin: 0,
            end: 0,
            left_out: 0,
        }
    }
}

/// Tells where the moves of a line stand after that many others, if there is room.
fn put_part(parts: &mut [MovesPart], count: usize, part: MovesPart)
    ensures { parts.new ≡ set parts.old count part }
{
    if count < parts.len() {
        parts[count] = part;
    }
}

/// Whether the moves of a line are said to be on the inverse.
fn is_inverse(line: &TextLine) -> bool
    ensures { result ≡ is_inverse line.now }
{
    line.is_inverse != 0
}

/// What stands in a text from one place to another, as far as it goes.
pub fn part_of(text: &[u8], begin: usize, end: usize) -> &[u8]
    ensures is { result.now ≡ slice_range text.now begin end }
    ensures fits { begin + length result.now ≤ usize.MAX }
    ensures long { length result.now ≤ end - begin }
{
    let end = end.min(text.len());
    if begin < end {
        &text[begin..end]
    } else {
        &text[..0]
    }
}

/// Whether one of some bytes is a digit.
fn has_digit(bytes: &[u8]) -> bool
    ensures { result ≡ list_any is_digit bytes.now }
{
    bytes.iter().any(|byte| is_digit_byte(*byte))
}

/// What a line has before and after its moves.
fn left_around(text: &[u8], line: &TextLine) -> LeftOut
    ensures { result ≡ left_around text.now line.now }
{
    LeftOut {
        labels: line.label_begin < line.label_end,
        comments: line.comment < line.end,
        line_numbers: has_digit(part_of(text, line.head_end, line.label_begin)),
        ..LeftOut::none()
    }
}

/// Writes what stands after the moves of a line: a bracket if they are on the inverse.
fn end_line(pen: Pen, line: &TextLine, out: &mut [u8], places: &mut [u64]) -> Pen
    requires { (pen.length ≤ length out.old) × (pen.length ≤ length places.old) }
    ensures had { result.has_room ≡ true → pen.has_room ≡ true }
    ensures written { result.has_room ≡ true → take result.length out.new ≡ take pen.length out.old ++ closing line.now }
    ensures placed { result.has_room ≡ true → take result.length places.new ≡ take pen.length places.old ++ closing_place line.now }
    ensures room { pen.has_room ≡ true → pen.length + 1 ≤ length out.old → pen.length + 1 ≤ length places.old → result.has_room ≡ true }
    ensures further { (pen.length ≤ result.length) × (result.length ≤ pen.length + 1) }
    ensures within { (result.length ≤ length out.old) × (result.length ≤ length places.old) }
    ensures behind { drop result.length out.new ≡ drop result.length out.old }
    ensures behind_places { drop result.length places.new ≡ drop result.length places.old }
{
    if is_inverse(line) {
        pen.put_sign(b')', line.comment as u64, out, places)
    } else {
        pen
    }
}

/// How far the moves of some lines are written.
#[derive(Clone, Copy)]
struct Joined {
    /// What parts the moves of two lines.
    gap: u8,
    pen: Pen,
    /// Where the last line ends, if there was one.
    before: Option<usize>,
    left_out: LeftOut,
    /// Where the moves of the last line stand.
    last: MovesPart,
}

impl Joined {
    /// Writes what stands before the moves of a line: a gap after those of another, and a bracket if they are on the
    /// inverse.
    fn begin_line(self, line: &TextLine, out: &mut [u8], places: &mut [u64]) -> Pen
        requires { (self.pen.length ≤ length out.old) × (self.pen.length ≤ length places.old) }
        ensures had { result.has_room ≡ true → self.pen.has_room ≡ true }
        ensures written { result.has_room ≡ true → take result.length out.new ≡ take self.pen.length out.old ++ (gap_after self.gap self.before ++ opening line.now) }
        ensures placed { result.has_room ≡ true → take result.length places.new ≡ take self.pen.length places.old ++ (place_after self.before ++ opening_place line.now) }
        ensures room { self.pen.has_room ≡ true → self.pen.length + 2 ≤ length out.old → self.pen.length + 2 ≤ length places.old → result.has_room ≡ true }
        ensures further { (self.pen.length ≤ result.length) × (result.length ≤ self.pen.length + 2) }
        ensures within { (result.length ≤ length out.old) × (result.length ≤ length places.old) }
        ensures behind { drop result.length out.new ≡ drop result.length out.old }
        ensures behind_places { drop result.length places.new ≡ drop result.length places.old }
    {
        let pen = match self.before {
            Some(end) => self.pen.put_sign(self.gap, end as u64, out, places),
            None => self.pen,
        };
        if is_inverse(line) {
            pen.put_sign(b'(', line.moves as u64, out, places)
        } else {
            pen
        }
    }

    /// Where the moves of one more line begin.
    fn next_begin(self) -> usize
        requires { self.pen.length < usize.MAX }
        ensures { result ≡ self.pen.length + length (gap_after self.gap self.before) }
    {
        self.pen.length + usize::from(self.before.is_some())
    }

    /// Writes the moves of one more line.
    fn with_line(self, text: &[u8], line: &TextLine, out: &mut [u8], places: &mut [u64]) -> Joined
        requires { (self.pen.length ≤ length out.old) × (self.pen.length ≤ length places.old) }
        ensures before { result.before ≡ Some line.now.end }
        ensures gap { result.gap ≡ self.gap }
        ensures had { result.pen.has_room ≡ true → self.pen.has_room ≡ true }
        ensures adds { result.pen.has_room ≡ true → AddsLine text.now line.now self.gap self.before (take self.pen.length out.old) (take result.pen.length out.new)
            (take self.pen.length places.old) (take result.pen.length places.new) self.left_out result.left_out result.last }
        ensures room { self.pen.has_room ≡ true → self.pen.length + (3 * (line.now.comment - line.now.moves) + 3) ≤ length out.old →
            self.pen.length + (3 * (line.now.comment - line.now.moves) + 3) ≤ length places.old → result.pen.has_room ≡ true }
        ensures further { (self.pen.length ≤ result.pen.length) × (result.pen.length ≤ self.pen.length + (3 * (line.now.comment - line.now.moves) + 3)) }
        ensures within { (result.pen.length ≤ length out.old) × (result.pen.length ≤ length places.old) }
        ensures behind { drop result.pen.length out.new ≡ drop result.pen.length out.old }
        ensures behind_places { drop result.pen.length places.new ≡ drop result.pen.length places.old }
    {
        let part = part_of(text, line.moves, line.comment);
        let from = Beginning {
            at: line.moves,
            place: Place::Among,
        };
        let begun = self.begin_line(line, out, places);
        let (put, left_out) = begun.put_part(part, from, out, places);
        let own = left_around(text, line).and(left_out);
        let pen = end_line(put, line, out, places);
        Joined {
            gap: self.gap,
            pen,
            before: Some(line.end),
            left_out: self.left_out.and(own),
            last: MovesPart {
                begin: self.next_begin(),
                end: pen.length,
                left_out: own.bits(),
            },
        }
    }
}

/// Writes the moves of some lines of a text as one line, joined by blanks, and in brackets if they are said to be on the
/// inverse; or each step as a line of its own. Each byte that is written has its place in the text. Three bytes for each
/// from `moves` to `comment` of these lines, and three for each line, are room enough; else the answer may say `NoRoom`. Of
/// each of these lines it tells where its moves stand, as long as there is room in `parts`. What follows in the rooms stays
/// as it is.
pub fn text_moves(
    text: &[u8],
    lines: &[TextLine],
    of: MovesOf,
    out: &mut [u8],
    places: &mut [u64],
    parts: &mut [MovesPart],
) -> PlainAnswer
    ensures { WritesMoves text.now lines.now of out.old out.new places.old places.new parts.old parts.new result }
{
    let mut joined = Joined {
        gap: of.gap(),
        pen: Pen::new(),
        before: None,
        left_out: LeftOut::none(),
        last: MovesPart::nothing(),
    };
    let mut count = 0;
    let mut rest = lines;
    while let Some((line, others)) = rest.split_first() {
        rest = others;
        if !of.has(line) {
            continue;
        }
        joined = joined.with_line(text, line, out, places);
        put_part(parts, count, joined.last);
        count += 1;
    }
    PlainAnswer::written(joined.pen, joined.left_out)
}
